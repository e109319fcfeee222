//! Typed queries, and what they mean on tables.
#![tactic(auto)]

pub mod query;
