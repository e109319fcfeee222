//! What the tests of sessions on several threads, and of queries that several workers scan, do: answers that were worked out by hand.
//!
//! They are a library, which is proved once; the tests of span_session_tests call them.
#![tactic(auto)]

pub mod callers;
pub mod closing;
pub mod groups;
pub mod scans;
pub mod upkeep;
pub mod workers;
