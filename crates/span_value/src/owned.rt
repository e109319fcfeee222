//! Steps of functions that own trees, for values of any type.
//!
//! To prove that a tree is dropped safely takes seconds to minutes at each place where one may be dropped. What may drop
//! one is here, and is proved once.
ghost use Rattle.std.specs.Prelude.{◌≡◌, Ok, Err, MatchResult};

/// Drops a value, and gives another.
pub fn give_after<A: Drop, B>(dropped: A, given: B) -> B
    ensures { result ≡ given }
{
    let _ = dropped;
    given
}

/// Pairs a value with the next result. An error drops the value.
pub fn keep_with<A: Drop, B, E>(first: A, second: Result<B, E>) -> Result<(A, B), E>
    ensures { MatchResult result (λ both. (both.0 ≡ first) × (second ≡ Ok both.1)) (λ why. second ≡ Err why) }
{
    match second {
        Ok(second) => Ok((first, second)),
        Err(why) => Err(why),
    }
}
