//! Packed rows: the bytes of the columns outside the primary key.
#![tactic(auto)]

pub mod cell;
pub mod laws;
pub mod pack;
pub mod unpack;
