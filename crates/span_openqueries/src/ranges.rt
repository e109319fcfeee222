//! Ranges of pieces in a leaf's range and a slot's.
ghost use Rattle.std.specs.Prelude.{◌≡◌, IfOk};
ghost use Rattle.std.specs.Ordering.{is_lt};
ghost use Rattle.span_keycode.specs.Order.{byte_order};
ghost use Rattle.span_keycode.specs.Parts.{is_from, is_nonempty};
ghost use Rattle.span_machine.specs.Machine.{gap_in};
ghost use Rattle.span_openqueries.specs.Counts.{is_uncovered};
ghost use Rattle.span_openqueries.specs.Targets.{ends_by, is_free, is_inside};

use span_keycode::compare::order_of_bytes;
use span_keycode::key::Key;
use span_keycode::parts::{is_covered_in_part, lowest_gap};
use span_keycode::range::KeyRange;
use span_machine::query::ScanLeaf;
use span_machine::slot::SlotState;
use std::alloc::{AllocError, Global};

fn is_before(left: &[u8], right: &[u8]) -> bool
    ensures { result ≡ is_lt (byte_order left.now right.now) }
{
    order_of_bytes(left, right).is_lt()
}

fn is_nonempty(range: &KeyRange) -> bool
    ensures { result ≡ is_nonempty range.now }
{
    is_before(range.low.as_slice(), range.high.as_slice())
}

fn is_from(low: &Option<Key>, key: &[u8]) -> bool
    ensures { result ≡ is_from low.now key.now }
{
    match low {
        None => true,
        Some(low) => !is_before(key, low.as_slice()),
    }
}

fn ends_by(high: &Option<Key>, end: &[u8]) -> bool
    ensures { result ≡ ends_by high.now end.now }
{
    match high {
        None => true,
        Some(high) => !is_before(high.as_slice(), end),
    }
}

/// Whether the range lies in the slot's range and in the leaf's.
fn is_inside(slot_state: &SlotState, leaf: &ScanLeaf, range: &KeyRange) -> bool
    ensures { result ≡ is_inside slot_state.now leaf.now range.now }
{
    let low = range.low.as_slice();
    let high = range.high.as_slice();
    if !is_from(&slot_state.lo, low) {
        return false;
    }
    if !ends_by(&slot_state.hi, high) {
        return false;
    }
    if is_before(low, leaf.leaf.range.low.as_slice()) {
        return false;
    }
    !is_before(leaf.leaf.range.high.as_slice(), high)
}

/// Whether the range has keys, and no piece of the leaf covers any of it.
fn is_uncovered(leaf: &ScanLeaf, range: &KeyRange) -> bool
    ensures { result ≡ is_uncovered leaf.now range.now }
{
    if !is_nonempty(range) {
        return false;
    }
    !is_covered_in_part(leaf.covered.as_slice(), range)
}

/// Whether the range lies in the slot's range and in the leaf's, has keys, and no piece covers any of it.
pub fn is_free(slot_state: &SlotState, leaf: &ScanLeaf, range: &KeyRange) -> bool
    ensures { result ≡ is_free slot_state.now leaf.now range.now }
{
    if !is_inside(slot_state, leaf, range) {
        return false;
    }
    is_uncovered(leaf, range)
}

/// The lowest uncovered part of a leaf's range in the slot, if there is one.
pub fn gap_in(
    alloc: Global,
    slot_state: &SlotState,
    leaf: &ScanLeaf,
) -> Result<Option<KeyRange>, AllocError>
    ensures { IfOk result (λ gap. gap ≡ gap_in slot_state.now leaf.now) }
{
    lowest_gap(
        alloc,
        &slot_state.lo,
        &slot_state.hi,
        &leaf.leaf.range,
        leaf.covered.as_slice(),
    )
}
