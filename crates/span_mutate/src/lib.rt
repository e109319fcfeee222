//! Mutations: what a transaction asks for, and what it makes of the rows of a directory.
#![tactic(auto)]

pub mod batch;
pub mod copy;
pub mod directory;
pub mod laws;
pub mod mutation;
pub mod root;
pub mod row;
