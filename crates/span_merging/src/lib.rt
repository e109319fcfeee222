//! Lists of rows that are in the order of some keys, merged: where their rows lie in the order of all, and rows that are answered from there.
#![tactic(auto)]

pub mod answer_rows;
pub mod part_ranges;
pub mod parts;
