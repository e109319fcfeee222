//! What each command of a script does.
//!
//! The state of a script ([`running`]), its loads, and the steps of the database that a command takes. The lines of a
//! script, done one after another, are `span_script`'s. `docs/FORMATS.md` has the commands and their answers.
#![tactic(auto)]

pub mod load;
pub mod refused;
pub mod running;
pub mod steps;
