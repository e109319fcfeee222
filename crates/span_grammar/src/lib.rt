//! The grammar of queries and of schema texts, and whether a text is in it.
#![tactic(auto)]

pub(crate) mod beginning;
pub mod class;
pub mod classify;
pub mod grammar;
pub mod judge;
pub mod reader;
pub mod text;
