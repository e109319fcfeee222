//! Scripts: commands done one after another, and the answer to each.
//!
//! [`run::run`] reads a script from an [`InputDevice`], does its commands on a core, writes the answers to an
//! [`OutputDevice`], and reports refused commands to [`Reports`]. How a line is read as a command is `span_command`'s,
//! and what each command changes and asks of the database is `span_steps`'s. `docs/FORMATS.md` has the commands and
//! their answers.
#![tactic(auto)]

mod lines;
pub mod report;
pub mod run;

pub use report::{QueryText, Reports};
pub use span_command::device::{Counted, InputDevice, OutputDevice};
pub use span_steps::refused::Refused;
