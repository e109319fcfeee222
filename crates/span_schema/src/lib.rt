//! Schemas: tables that are interleaved in one another, and the rules that they meet.
#![tactic(auto)]

pub mod fitting;
pub mod layout;
mod lineage;
mod rules;
pub mod schema;
pub mod table;
