//! What typed expressions come to at a row.
#![tactic(auto)]

pub mod eval;
pub mod operator;
