//! Versions of rows, in chains that are linked by index in one vector.
//!
//! A shard keeps the versions of each key in a chain, newest first. Memory is taken before a transaction is decided, by `new_chain`
//! and `reserve_node`; all that comes after moves links alone. Beside its versions a chain has its key, and its links in the tree of
//! keys that an index keeps here.
#![tactic(auto)]

pub mod arena;
pub mod cell;
mod cells;
mod cut;
pub mod free_order;
mod record;
mod reserve;
pub mod steps;
pub mod token;
pub mod version;
