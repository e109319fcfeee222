//! Rows in the order of some keys: ORDER BY and LIMIT, and lists of rows with the places of their order.
#![tactic(auto)]

mod code;
pub mod coded;
pub mod columns;
mod first_places;
mod first_rows;
mod in_order;
pub mod in_threads;
pub mod kept;
pub mod placed;
pub mod rows_with_order;
pub mod sort;
