//! Leaves of one table: their rows are read as a shard lends them, and comparisons with literals and LIKE judged where a row is packed.
#![tactic(auto)]

mod count;
pub mod due;
pub mod narrow;
pub mod scan;
