//! The rows of a part of a leaf as they are collected: its groups alone, those rows that are enough, or all of them; and the groups of several
//! parts.
#![tactic(auto)]

pub mod collected;
mod firsts;
pub mod grouped;
mod kept_groups;
pub mod lent;
mod many;
pub mod merge;
pub mod part_rows;
pub mod parts;
pub mod reduction;
mod same_grouping;
