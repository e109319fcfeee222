//! The keys of a shard in order, each with the chain of its versions.
//!
//! Callers see a sorted list of keys with their chains, and nothing of how it is kept. A write asks for the chain of its key
//! (`slot_for`), a read goes over the keys of a range (`walk`), and after a trim the keys with nothing left go (`remove_empty`).
#![tactic(auto)]

mod build;
pub mod index;
pub mod near;
mod reach;
mod remove;
mod split;
