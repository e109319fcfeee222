//! The store of a shard: keys in order, each with its versions and the write that is prepared there.
//!
//! Keys are coded and rows are packed, so a store is a list of keys in byte order. A write is prepared at its key (`put`) and ended
//! (`end`); rows are looked up at a key, near one (`place`), or lent in order at a timestamp (`snapshot`).
#![tactic(auto)]

pub mod chain;
mod node;
mod numbers;
pub mod place;
mod search;
pub mod snapshot;
mod split;
pub mod store;
mod trim;
pub mod write;
