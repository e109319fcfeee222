//! The columns that are read of the rows of a leaf, leaves themselves, and queries and leaves over rows of these columns alone.
#![tactic(auto)]

pub mod copy;
pub mod leaf;
pub mod narrow;
pub mod reads;
