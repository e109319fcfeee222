//! The plan of a query: the leaves that are read where rows are stored, and the query that is left above them.
#![tactic(auto)]

pub mod plan;
