//! A refused command.
use span_value::refusal::Refusal;

/// A refused command: why, and where.
#[derive(Clone, Copy, Debug, PartialEq, Eq)]
pub struct Refused {
    /// The line of the script that is wrong, counted from 1.
    pub line: u64,
    pub why: Refusal,
}
