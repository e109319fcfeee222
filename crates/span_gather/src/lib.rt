//! The end of a query: the pieces of its leaves become the tables that the query above them reads, and these its rows. And the text
//! that explains a plan.
#![tactic(auto)]

pub mod explain;
pub mod finish;
mod in_place;
mod in_threads;
mod joined;
mod lent_parts;
pub mod rows;
