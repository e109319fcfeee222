//! The groups of many rows, made by several threads: each makes those whose keys are of one class, or those of some parts of the rows.
#![tactic(auto)]

mod class;
mod class_groups;
pub mod groups;
mod merge;
pub mod ranges;
