//! What the program reports on standard error of a refusal: its place, number, name and message.
//!
//! The answers on standard output have the number of a refusal alone; the line on standard error is for people.
#![tactic(auto)]

pub mod grammar;
pub mod place;
pub mod report;
