//! Transactions that a session has begun and not decided.
ghost use Rattle.std.specs.Prelude.{◌≡◌, ◌==◌, position};

use span_mutate::mutation::CheckedMutation;
use span_value::seq::Seq;

/// A transaction as the session handed it in, under its number.
#[derive(Debug, Drop)]
pub struct Begun {
    pub number: u64,
    pub mutations: Seq<CheckedMutation>,
}

/// The place of the first of this number.
pub(crate) fn place_of(begun: &[Begun], number: u64) -> Option<usize>
    ensures { result ≡ position (λ b. b.number == number) begun.now }
{
    begun.iter().position(|b| b.number == number)
}
