//! The leaves of a FROM: which of its tables are one, its range, its condition and its mask.
#![tactic(auto)]

pub mod condition;
pub mod first;
mod range;
pub mod reads;
pub mod table;
