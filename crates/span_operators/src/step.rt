//! Steps of functions that own trees.
//!
//! To prove that a tree is dropped safely takes seconds at each place where a tree may be dropped. What may drop one is
//! here, for values of any type, and is proved once.
ghost use Rattle.std.specs.Prelude.{◌≡◌, ◌++◌, ◌∷◌, [], Ok, Err, IfOk, if◌then◌else◌};
ghost use Rattle.span_value.specs.Results.{and_then};
ghost use Rattle.span_operators.specs.Steps.{Gives};

use span_value::refusal::Refusal;
use span_value::seq::Seq;
use sqlite_items::Boxed;
use std::alloc::{AllocError, Global};

/// Pairs a value with the next result.
///
/// It takes the result itself, not its value: the refusal drops `first` here, and a caller that owns a tree needs no
/// other `?`.
pub fn pair_with<A: Drop, B>(first: A, second: Result<B, Refusal>) -> Result<(A, B), Refusal>
    ensures { result ≡ and_then second (λ y. Ok (first, y)) }
{
    let second = second?;
    Ok((first, second))
}

/// The items so far, and one more after them. It takes the result itself, as `pair_with` does.
pub fn push_result<T: Drop>(so_far: Seq<T>, next: Result<T, Refusal>) -> Result<Seq<T>, Refusal>
    ensures { Gives result (and_then next (λ x. Ok (so_far ++ x ∷ []))) }
{
    let next = next?;
    let mut all = so_far;
    match all.push(next) {
        Ok(()) => Ok(all),
        Err(_) => Err(Refusal::OutOfMemory),
    }
}

/// A value, if it is right. The error is `TypeMismatch`.
pub fn keep_if<T: Drop>(is_right: bool, value: T) -> Result<T, Refusal>
    ensures { result ≡ if is_right then Ok value else Err Refusal.TypeMismatch }
{
    if is_right {
        Ok(value)
    } else {
        Err(Refusal::TypeMismatch)
    }
}

/// Appends an item.
pub fn append<T: Drop>(items: &mut Seq<T>, item: T) -> Result<(), AllocError>
    ensures { IfOk result (λ u. items.new ≡ items.old ++ item ∷ []) }
{
    match items.push(item) {
        Ok(()) => Ok(()),
        Err(_) => Err(AllocError),
    }
}

/// Boxes `second`.
pub(crate) fn box_second<A: Drop, B: Drop>(
    alloc: Global,
    first: A,
    second: B,
) -> Result<(A, Boxed<B>), AllocError>
    ensures { IfOk result (λ p. p ≡ (first, second)) }
{
    let second = Boxed::new(alloc, second)?;
    Ok((first, second))
}

/// Boxes both.
pub(crate) fn box_two<A: Drop, B: Drop>(
    alloc: Global,
    first: A,
    second: B,
) -> Result<(Boxed<A>, Boxed<B>), AllocError>
    ensures { IfOk result (λ p. p ≡ (first, second)) }
{
    let first = Boxed::new(alloc, first)?;
    let second = Boxed::new(alloc, second)?;
    Ok((first, second))
}

/// Boxes all three.
pub(crate) fn box_three<A: Drop, B: Drop, C: Drop>(
    alloc: Global,
    first: A,
    second: B,
    third: C,
) -> Result<(Boxed<A>, Boxed<B>, Boxed<C>), AllocError>
    ensures { IfOk result (λ p. p ≡ (first, second, third)) }
{
    let first = Boxed::new(alloc, first)?;
    let second = Boxed::new(alloc, second)?;
    let third = Boxed::new(alloc, third)?;
    Ok((first, second, third))
}
