//! Groups of the rows of a list, with their aggregates.
#![tactic(auto)]

pub mod aggregate;
pub mod counted;
pub mod group;
mod one_group;
pub mod states;
pub mod sum;
