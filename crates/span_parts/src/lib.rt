//! The steps of the machine on a journal and the shards of its slots, which belong together (`specs/Whole.antt`).
//!
//! Nothing here knows how a query text is understood. The core has a schema, a journal and shards, and takes its steps by these functions.
#![tactic(auto)]

pub mod cut;
pub mod ends;
pub mod read;
mod shards;
pub mod slot;
pub mod steps;
