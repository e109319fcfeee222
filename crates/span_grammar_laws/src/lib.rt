//! The laws of the grammar, on definitions alone: no code runs here.
#![tactic(auto)]

pub mod laws;
