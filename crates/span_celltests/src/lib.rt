//! Tests of single cells of packed rows: comparisons with literals and LIKE, judged where a row is packed.
#![tactic(auto)]

pub mod cell_test;
mod column_cell;
mod comparison;
mod ends;
pub mod like_test;
pub mod number_test;
pub mod text_test;
