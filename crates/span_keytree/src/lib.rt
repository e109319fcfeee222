//! Keys in a balanced tree, with links from each key to the next.
//!
//! The keys and their links in the tree are in an arena, each key with the chain of its versions; here are the root (`TreeRoot`) and the
//! links to the next key (`NextLinks`). A key is put in (`slot_for`), also into a small part of the tree where a chain near it is known
//! (`slot_near`).
#![tactic(auto)]

mod climb;
mod join;
pub mod last;
pub mod next;
mod part;
mod put;
mod stop;
pub mod tree;
