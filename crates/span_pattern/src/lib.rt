//! Patterns of LIKE: how one is written, and which strings it fits.
#![tactic(auto)]

pub mod pattern;
