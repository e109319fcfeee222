//! Truth values of three-valued logic, and what evaluating an expression comes to.
ghost use Rattle.std.specs.Prelude.{◌≡◌};
ghost use Rattle.span_value.specs.Truths as table;

use super::value::Value;

/// A truth value: the value of a condition. Unknown is NULL.
#[derive(Clone, Copy, Debug, PartialEq, Eq)]
pub enum Truth {
    False,
    True,
    Unknown,
}

/// What an expression comes to: a value, or the one arithmetic fault.
#[derive(Debug, Drop, PartialEq, Eq)]
pub enum Outcome {
    Val(Value),
    Fault,
}

/// FALSE where one of the two is FALSE, else unknown where one is unknown, else TRUE.
pub fn and(left: Truth, right: Truth) -> Truth
    ensures { result ≡ table.and left right }
{
    match (left, right) {
        (Truth::False, _) | (_, Truth::False) => Truth::False,
        (Truth::Unknown, _) | (_, Truth::Unknown) => Truth::Unknown,
        (Truth::True, Truth::True) => Truth::True,
    }
}

/// TRUE where one of the two is TRUE, else unknown where one is unknown, else FALSE.
pub fn or(left: Truth, right: Truth) -> Truth
    ensures { result ≡ table.or left right }
{
    match (left, right) {
        (Truth::True, _) | (_, Truth::True) => Truth::True,
        (Truth::Unknown, _) | (_, Truth::Unknown) => Truth::Unknown,
        (Truth::False, Truth::False) => Truth::False,
    }
}

/// The other of TRUE and FALSE; unknown stays unknown.
pub fn not(truth: Truth) -> Truth
    ensures { result ≡ table.negation truth }
{
    match truth {
        Truth::False => Truth::True,
        Truth::True => Truth::False,
        Truth::Unknown => Truth::Unknown,
    }
}
