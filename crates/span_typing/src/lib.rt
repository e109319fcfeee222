//! Expressions of a block with their names and types.
#![tactic(auto)]

pub mod leaf;
mod operand;
pub mod scope;
pub mod typing;
