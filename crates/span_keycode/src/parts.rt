//! Parts of ranges of coded keys: the lowest part that no piece covers, and whether pieces tile a range.
ghost use Rattle.std.specs.Prelude.{◌≡◌, ◌≤◌, ℕ, List, Option, Some, None, IfOk, MatchOption, length};
ghost use Rattle.std.specs.Ordering.{is_lt};
ghost use Rattle.std.specs.Str.{bytes_eq};
ghost use Rattle.span_keycode.specs.Order.{byte_order};
ghost use Rattle.span_keycode.specs.Parts.{
  is_nonempty,
  later,
  earlier,
  later_of,
  earlier_of,
  part_between,
  lowest_gap,
  follows,
  overlaps,
  is_covered_in_part,
  tiles,
  place_among,
  is_from,
  is_upto,
  is_between,
};
ghost use Rattle.span_keycode.specs.declared.range.KeyRange.{KeyRange};

use crate::compare::order_of_bytes;
use crate::key::Key;
use crate::range::KeyRange;
use std::alloc::{AllocError, Global};

fn is_before(left: &[u8], right: &[u8]) -> bool
    ensures { result ≡ is_lt (byte_order left.now right.now) }
{
    order_of_bytes(left, right).is_lt()
}

fn later<'a>(a: &'a [u8], b: &'a [u8]) -> &'a [u8]
    ensures { result.now ≡ later a.now b.now }
{
    if is_before(a, b) { b } else { a }
}

fn earlier<'a>(a: &'a [u8], b: &'a [u8]) -> &'a [u8]
    ensures { result.now ≡ earlier a.now b.now }
{
    if is_before(b, a) { b } else { a }
}

// The later of a low end and a key.
fn later_of<'a>(lo: &'a Option<Key>, key: &'a [u8]) -> &'a [u8]
    ensures { result.now ≡ later_of lo.now key.now }
{
    match lo {
        None => key,
        Some(low) => later(low.as_slice(), key),
    }
}

// The earlier of a high end and a key.
fn earlier_of<'a>(hi: &'a Option<Key>, key: &'a [u8]) -> &'a [u8]
    ensures { result.now ≡ earlier_of hi.now key.now }
{
    match hi {
        None => key,
        Some(high) => earlier(high.as_slice(), key),
    }
}

// The range with these ends.
fn range_from(alloc: Global, low: &[u8], high: &[u8]) -> Result<KeyRange, AllocError>
    ensures { IfOk result (λ range. range ≡ record { low = low.now; high = high.now }) }
{
    Ok(KeyRange {
        low: Key::from_slice(alloc, low)?,
        high: Key::from_slice(alloc, high)?,
    })
}

// The ends of the lowest part from `low` on and before `high` that no piece covers.
fn gap_between<'a>(
    low: &'a [u8],
    high: &'a [u8],
    covered: &'a [KeyRange],
) -> Option<(&'a [u8], &'a [u8])>
    ensures { MatchOption result
        (lowest_gap (record { low = low.now; high = high.now }) covered.now ≡ None)
        (λ gap.
        lowest_gap (record { low = low.now; high = high.now }) covered.now
        ≡ Some (record { low = gap.0.now; high = gap.1.now })) }
{
    let mut from = low;
    for piece in covered {
        let end = earlier(piece.low.as_slice(), high);
        if is_before(from, end) {
            return Some((from, end));
        }
        from = later(piece.high.as_slice(), from);
    }
    if is_before(from, high) {
        return Some((from, high));
    }
    None
}

// The ends of the lowest part of a range, from `lo` on and before `hi`, that no piece covers.
fn gap_ends<'a>(
    lo: &'a Option<Key>,
    hi: &'a Option<Key>,
    range: &'a KeyRange,
    covered: &'a [KeyRange],
) -> Option<(&'a [u8], &'a [u8])>
    ensures { MatchOption result
        (lowest_gap (part_between lo.now hi.now range.now) covered.now ≡ None)
        (λ gap.
        lowest_gap (part_between lo.now hi.now range.now) covered.now
        ≡ Some (record { low = gap.0.now; high = gap.1.now })) }
{
    gap_between(
        later_of(lo, range.low.as_slice()),
        earlier_of(hi, range.high.as_slice()),
        covered,
    )
}

/// The lowest part of a range, from `lo` on and before `hi`, that no piece covers, if there is one. Memory is taken only for the ends of
/// what is returned.
pub fn lowest_gap(
    alloc: Global,
    lo: &Option<Key>,
    hi: &Option<Key>,
    range: &KeyRange,
    covered: &[KeyRange],
) -> Result<Option<KeyRange>, AllocError>
    ensures { IfOk result (λ gap. gap ≡ lowest_gap (part_between lo.now hi.now range.now) covered.now) }
{
    match gap_ends(lo, hi, range, covered) {
        None => Ok(None),
        Some((low, high)) => Ok(Some(range_from(alloc, low, high)?)),
    }
}

/// Whether the pieces tile the range: each begins where the one before it ends, none is empty, and the last ends where the range does.
pub fn tiles(range: &KeyRange, covered: &[KeyRange]) -> bool
    ensures { result ≡ tiles range.now covered.now }
{
    let high = range.high.as_slice();
    let mut low = range.low.as_slice();
    for piece in covered {
        if !follows(low, high, piece) {
            return false;
        }
        low = piece.high.as_slice();
    }
    !is_before(low, high)
}

// Whether the piece begins at `low`, is not empty, and ends at or before `high`.
fn follows(low: &[u8], high: &[u8], piece: &KeyRange) -> bool
    ensures { result ≡ follows low.now high.now piece.now }
{
    if piece.low.as_slice() != low {
        return false;
    }
    if !is_before(piece.low.as_slice(), piece.high.as_slice()) {
        return false;
    }
    !is_before(high, piece.high.as_slice())
}

/// Whether a piece and the range have keys in common.
pub fn is_covered_in_part(covered: &[KeyRange], range: &KeyRange) -> bool
    ensures { result ≡ is_covered_in_part covered.now range.now }
{
    covered.iter().any(|piece| overlaps(range, piece))
}

fn overlaps(a: &KeyRange, b: &KeyRange) -> bool
    ensures { result ≡ overlaps a.now b.now }
{
    is_before(
        later(a.low.as_slice(), b.low.as_slice()),
        earlier(a.high.as_slice(), b.high.as_slice()),
    )
}

/// The place of a range among pieces in order: how many of them, from the first on, begin before it.
pub fn place_among(covered: &[KeyRange], range: &KeyRange) -> usize
    ensures place { result ≡ place_among covered.now range.now }
    ensures within { result ≤ length covered.now }
{
    for (i, piece) in covered.iter().enumerate() {
        if !is_before(piece.low.as_slice(), range.low.as_slice()) {
            return i;
        }
    }
    covered.len()
}

/// Whether a key is from `lo` on and before `hi`; None is an end that no key is outside of.
pub fn is_between(lo: &Option<Key>, hi: &Option<Key>, key: &[u8]) -> bool
    ensures { result ≡ is_between lo.now hi.now key.now }
{
    if !is_from(lo, key) {
        return false;
    }
    is_upto(hi, key)
}

fn is_from(lo: &Option<Key>, key: &[u8]) -> bool
    ensures { result ≡ is_from lo.now key.now }
{
    match lo {
        None => true,
        Some(low) => !is_before(key, low.as_slice()),
    }
}

fn is_upto(hi: &Option<Key>, key: &[u8]) -> bool
    ensures { result ≡ is_upto hi.now key.now }
{
    match hi {
        None => true,
        Some(high) => is_before(key, high.as_slice()),
    }
}
