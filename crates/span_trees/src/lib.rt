//! The trees of expressions, and what operators make of them.
#![tactic(auto)]

pub mod operator;
pub mod tree;
