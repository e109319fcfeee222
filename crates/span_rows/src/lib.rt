//! Lists of rows: filters, keys, each row once.
#![tactic(auto)]

pub mod columns;
pub mod distinct;
pub mod filter;
pub mod key;
mod masked;
pub mod row;
pub mod row_list;
