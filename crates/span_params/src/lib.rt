//! The parameters of a query.
#![tactic(auto)]

pub mod laws;
pub mod params;
