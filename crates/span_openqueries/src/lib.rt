//! The journal's open queries, with the leaves of their plans and the pieces of each.
//!
//! `span_journal` puts them and the transactions together.
#![tactic(auto)]

mod owned;
pub mod planned;
pub mod queries;
pub mod query;
pub mod ranges;
pub mod taken;
