//! Tests of sessions, each of them one call: what it does is in span_session_checks and span_thread_checks.
//!
//! A crate with tests is a program, which is compiled: so there is one for all tests of sessions, and nothing else is in
//! it. That the types below are dropped safely is proved in each of the two libraries once more.
#![tactic(auto)]

#[cfg(test)]
mod sessions;
#[cfg(test)]
mod threads;
