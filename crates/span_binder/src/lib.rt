//! Names and types of a query: the typed query of a syntax tree.
#![tactic(auto)]

pub mod binding;
mod order;
mod source;
mod step;
pub mod understand;
