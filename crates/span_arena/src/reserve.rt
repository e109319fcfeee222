//! Capacity for many items at once.
ghost use Rattle.std.specs.Prelude.{◌≡◌, ◌≤◌, ◌+◌, OnOk, vec_len, vec_capacity};

use std::alloc::AllocError;

/// Reserves capacity for a number of items more, where there is too little of it, for as many as the next power of two. So a list grows by
/// doubling, and at the lengths at which it grows where its items are added one after another. An `AllocError` leaves all as it was.
pub(crate) fn reserve_more<T>(items: &mut Vec<T>, count: usize) -> Result<(), AllocError>
    ensures items { items.new.items ≡ items.old.items }
    ensures len { vec_len items.new ≡ vec_len items.old }
    ensures ok { OnOk result (vec_len items.new + count ≤ vec_capacity items.new) }
{
    if count <= items.capacity() - items.len() {
        return Ok(());
    }
    let Some(more) = count.checked_next_power_of_two() else {
        return Err(AllocError);
    };
    items.reserve(more)
}
