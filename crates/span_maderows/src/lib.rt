//! The rows that mutations made, by their keys.
//!
//! Keys are coded and rows are packed. A row has a number beside it, which its caller gets back with it.
#![tactic(auto)]

mod class;
mod hashed;
mod links;
pub mod made;
pub mod made_row;
mod ordered;
pub mod rows_left;
mod sorted;
