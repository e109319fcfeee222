//! What the tests of sessions that call one after another do: answers that were worked out by hand.
//!
//! They are a library, which is proved once; the tests of span_session_tests call them.
#![tactic(auto)]

pub mod all_slots;
pub mod steps;
pub mod two_sessions;
