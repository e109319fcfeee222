//! Blocks of a query, with their names and types.
#![tactic(auto)]

mod aggregating;
pub mod block;
pub mod bound;
mod grouping;
pub mod join;
mod output;
