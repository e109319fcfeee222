//! The trees of queries, and their clauses, read from tokens.
#![tactic(auto)]

pub mod clause;
pub mod tree;
