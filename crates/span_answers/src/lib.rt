//! Answers to the commands of a script, as they are written. `docs/FORMATS.md` has the line of each.
#![tactic(auto)]

pub mod answer;
