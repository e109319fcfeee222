//! Commands: how a script is read.
//!
//! The lines of an input, the words of a line, and the command that a line is. Records are `span_records`'s, and what the commands do is
//! `span_steps`'s. `docs/FORMATS.md` has the commands and their answers.
#![tactic(auto)]

pub mod command;
pub mod device;
pub mod line;
pub mod word;
