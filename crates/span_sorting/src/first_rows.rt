//! The first rows in the order of some keys, without an order of the others.
ghost use Rattle.std.specs.Prelude.{◌≡◌, ◌≤◌, IfOk, OnOk, length, take, true};
ghost use Rattle.span_query.specs.Sorting.{comes_before, insert_sorted, sorted};
ghost use Rattle.span_rows.specs.LentRows.{lent_rows};
ghost use Rattle.span_sorting.specs.Orders.{GoesBefore, IsSorted};

use super::sort::compare_rows;
use span_query::query::SortKey;
use span_value::value::Value;
use std::alloc::{AllocError, Global};

/// Whether a row comes before another one in the order of the keys.
fn is_before(keys: &[SortKey], left: &[Value], right: &[Value]) -> bool
    ensures { result ≡ comes_before keys.now left.now right.now }
{
    compare_rows(keys, left, right).is_lt()
}

/// The place among rows before which a row is to be put: that of the first that does not come before it.
fn place_in_order(keys: &[SortKey], rows: &[&[Value]], row: &[Value]) -> usize
    ensures within { result ≤ length rows.now }
    ensures place { GoesBefore (comes_before keys.now) row.now (lent_rows rows.now) result }
{
    for at in 0..rows.len() {
        if !is_before(keys, rows[at], row) {
            return at;
        }
    }
    rows.len()
}

/// Whether there are `count` rows, and the last comes before the row.
fn is_beyond(keys: &[SortKey], rows: &[&[Value]], row: &[Value], count: usize) -> bool
    requires order { IsSorted (comes_before keys.now) (lent_rows rows.now) }
    requires few { length rows.now ≤ count }
    ensures { result ≡ true
        → take count (insert_sorted (comes_before keys.now) row.now (lent_rows rows.now)) ≡ lent_rows rows.now }
{
    match rows.last() {
        Some(last) => rows.len() == count && is_before(keys, *last, row),
        None => false,
    }
}

/// Puts a row among the first rows in the order of the keys, and keeps `count` of them at most.
fn put_in_order<'a>(
    keys: &[SortKey],
    rows: &mut Vec<&'a [Value]>,
    row: &'a [Value],
    count: usize,
) -> Result<(), AllocError>
    requires order { IsSorted (comes_before keys.now) (lent_rows rows.old.items) }
    requires few { length rows.old.items ≤ count }
    ensures { OnOk result
        (lent_rows rows.new.items
        ≡ take count (insert_sorted (comes_before keys.now) row.now (lent_rows rows.old.items))) }
{
    if is_beyond(keys, rows.as_slice(), row, count) {
        return Ok(());
    }
    let at = place_in_order(keys, rows.as_slice(), row);
    rows.insert(at, row)?;
    rows.truncate(count);
    Ok(())
}

/// The first `count` rows in the order of the keys, lent; rows with equal keys keep their order.
///
/// Rows are taken from the end. Where `count` rows are kept, a row that the last of them comes before is passed over at once.
pub(crate) fn first_rows<'a>(
    alloc: Global,
    keys: &[SortKey],
    rows: &[&'a [Value]],
    count: usize,
) -> Result<Vec<&'a [Value]>, AllocError>
    ensures { IfOk result (λ first. lent_rows first.items ≡ take count (sorted keys.now (lent_rows rows.now))) }
{
    let mut first = Vec::new(alloc);
    let mut at = rows.len();
    while at > 0 {
        at -= 1;
        put_in_order(keys, &mut first, rows[at], count)?;
    }
    Ok(first)
}
