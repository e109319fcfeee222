//! Conditions and operands at rows, and arithmetic on numbers there.
#![tactic(auto)]

pub mod computed;
pub mod condition;
