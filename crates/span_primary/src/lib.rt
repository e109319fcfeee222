//! Primary expressions, read from tokens as trees, and the steps that every rule is read by.
#![tactic(auto)]

pub mod column;
pub mod fault;
pub mod primary;
pub mod reader;
pub mod sign;
pub mod token;
