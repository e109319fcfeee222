//! Expressions, read from tokens as trees, and whole texts.
#![tactic(auto)]

pub mod ending;
pub mod expression;
