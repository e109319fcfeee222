//! The journal: transactions, the log of commits, the state of each slot, and open queries with their pieces.
//!
//! Each call takes the machine's step as far as that needs no versions: `span_parts` puts the journal and the shards
//! together.
#![tactic(auto)]

pub mod journal;
pub mod limits;
mod owned;
