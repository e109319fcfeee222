//! Steps of functions that own trees, for values of any type: what may drop one is proved once.
ghost use Rattle.std.specs.Prelude.{◌≡◌, ◌++◌, ◌∷◌, [], IfOk};

use span_value::seq::Seq;
use std::alloc::AllocError;

/// The items, and one more after them.
pub(crate) fn with_item<T: Drop>(items: Seq<T>, item: T) -> Result<Seq<T>, AllocError>
    ensures { IfOk result (λ all. all ≡ items ++ item ∷ []) }
{
    let mut all = items;
    match all.push(item) {
        Ok(()) => Ok(all),
        Err(_) => Err(AllocError),
    }
}
