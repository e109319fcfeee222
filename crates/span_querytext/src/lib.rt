//! Query texts: from a text to the tree of its query.
#![tactic(auto)]

pub mod parse;
mod query;
