//! Typed expressions that operators and calls make of typed operands.
#![tactic(auto)]

pub mod call;
pub mod choice;
pub mod function;
pub mod kind;
pub mod operator;
pub mod step;
pub mod typed;
