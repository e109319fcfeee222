//! Which table the entries of a shard are rows of, by their coded keys.
#![tactic(auto)]

pub mod longest;
pub mod steps;
pub mod whole_key;
