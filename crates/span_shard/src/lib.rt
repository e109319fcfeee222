//! A shard: the versions of the rows of a part of the keys, and the writes that are prepared there.
//!
//! Keys are coded and rows are packed, so a shard is a list of keys in byte order.
#![tactic(auto)]

mod ahead;
mod change;
mod lookups;
mod merge;
mod overlay;
mod run;
pub mod shard;

pub use span_store::snapshot;
