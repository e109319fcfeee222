//! Searches in a tree of keys, and walks over its keys in order.
//!
//! A search goes down the tree (`find`); a walk follows the links from each key to the next (`Walk`, `ShortWalk`, `Chains`), and looks
//! ahead where keys lie apart in memory.
#![tactic(auto)]

mod ahead;
mod batch;
pub mod chains;
pub mod find;
mod run;
pub mod short;
pub mod walk;
