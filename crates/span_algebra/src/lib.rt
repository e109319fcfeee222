//! The plain meaning of queries over whole tables.
#![tactic(auto)]

pub mod block;
pub mod distinct;
pub mod group_answer;
pub mod group_query;
mod kept;
pub mod ordered;
pub mod plain;
pub mod reduction;
mod select;
pub mod source;
