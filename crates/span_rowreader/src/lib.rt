//! Rows of tables read from the entries of a shard, of the columns alone that a mask has.
#![tactic(auto)]

mod added;
mod cells;
pub mod decode;
mod key_numbers;
mod keys;
pub mod leaf_reader;
mod number;
pub mod place;
pub mod reader;
mod reads;
