//! Steps of functions that own trees.
//!
//! To prove that a tree is dropped safely takes seconds to minutes at each place where one may be dropped. What may
//! drop one is here, for values of any type, and is proved once.
ghost use Rattle.std.specs.Prelude.{◌≡◌, ◌<◌, ◌++◌, ◌∷◌, [], IfOk, OnErr, length, remove};

use std::alloc::AllocError;

/// Appends an item. Without memory for it the item is dropped.
pub(crate) fn append<T: Drop>(items: &mut Vec<T>, item: T) -> Result<(), AllocError>
    ensures ok { IfOk result (λ _. items.new.items ≡ items.old.items ++ item ∷ []) }
    ensures err { OnErr result (items.new.items ≡ items.old.items) }
{
    match items.push(item) {
        Ok(()) => Ok(()),
        Err(_) => Err(AllocError),
    }
}

/// Removes the item at a place, and drops it.
pub(crate) fn drop_at<T: Drop>(items: &mut Vec<T>, at: usize)
    requires { at < length items.old.items }
    ensures { items.new.items ≡ remove items.old.items at }
{
    let _ = items.remove(at);
}
