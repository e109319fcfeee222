//! The machine that the engine is held to: its steps, their replies, and its state.
//!
//! The types are those of the running program; `specs/` says, as a function, what the machine replies to each step and how it goes on.
//! It has no versions and no rows: what the rows are at a timestamp is the fold of the commits.
#![tactic(auto)]

pub mod query;
pub mod slot;
pub mod step;
pub mod transaction;
