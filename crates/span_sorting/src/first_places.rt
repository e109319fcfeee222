//! The places of the first rows of a list in the order of some keys, without an order of the others.
ghost use Rattle.std.specs.Prelude.{◌≡◌, ◌<◌, ◌≤◌, ◌+◌, IfOk, OnOk, Some, false, length, take, true};
ghost use Rattle.span_query.specs.Sorting.{insert_sorted};
ghost use Rattle.span_sorting.specs.Orders.{GoesBefore, IsSorted};
ghost use Rattle.span_sorting.specs.PlacesInOrder.{AreFirst, ArePlacesBy, EndsBelow, IsPlaced, placed_before};

use super::coded::{code_row, compare_coded, first_code};
use super::placed::{CodedPlaces, PlacedRow, places_of};
use span_query::query::SortKey;
use span_rows::row_list::RowList;
use std::alloc::{AllocError, Global};

/// The row at a place, with its codes.
fn place_row<'a>(keys: &[SortKey], rows: &'a RowList, place: usize) -> PlacedRow<'a>
    requires { place < length rows.now }
    ensures row { IsPlaced rows.now keys.now false result }
    ensures place { result.place ≡ place }
{
    let coded = code_row(keys, rows.row(place));
    PlacedRow { coded, place }
}

/// Whether a row comes before another one in the order of the keys. Most differ in their codes, and are not read again.
fn is_before(keys: &[SortKey], left: &PlacedRow<'_>, right: &PlacedRow<'_>) -> bool
    ensures { result ≡ placed_before keys.now left.now right.now }
{
    compare_coded(keys, false, &left.coded, &right.coded).is_lt()
}

/// The place among rows before which a row is to be put: that of the first that does not come before it.
fn place_in_order(keys: &[SortKey], rows: &[PlacedRow<'_>], row: &PlacedRow<'_>) -> usize
    ensures within { result ≤ length rows.now }
    ensures place { GoesBefore (placed_before keys.now) row.now rows.now result }
{
    for at in 0..rows.len() {
        if !is_before(keys, &rows[at], row) {
            return at;
        }
    }
    rows.len()
}

/// Whether there are `count` rows, and the code of the last at the first key is below a row's.
fn is_beyond(rows: &[PlacedRow<'_>], code: u128, count: usize) -> bool
    ensures { result ≡ true → EndsBelow count code rows.now }
{
    match rows.last() {
        Some(last) => rows.len() == count && last.coded.first < code,
        None => false,
    }
}

/// Whether there are `count` rows, and the last comes before the row.
fn is_past_last(keys: &[SortKey], rows: &[PlacedRow<'_>], row: &PlacedRow<'_>, count: usize) -> bool
    requires order { IsSorted (placed_before keys.now) rows.now }
    requires few { length rows.now ≤ count }
    ensures { result ≡ true → take count (insert_sorted (placed_before keys.now) row.now rows.now) ≡ rows.now }
{
    match rows.last() {
        Some(last) => rows.len() == count && is_before(keys, last, row),
        None => false,
    }
}

/// Puts a row among the first rows in the order of the keys, and keeps `count` of them at most. A row after all of these is compared with
/// the last alone.
fn put_in_order<'a>(
    keys: &[SortKey],
    rows: &mut Vec<PlacedRow<'a>>,
    row: PlacedRow<'a>,
    count: usize,
) -> Result<(), AllocError>
    requires order { IsSorted (placed_before keys.now) rows.old.items }
    requires few { length rows.old.items ≤ count }
    ensures { OnOk result
        (rows.new.items ≡ take count (insert_sorted (placed_before keys.now) row.entry rows.old.items)) }
{
    if is_past_last(keys, rows.as_slice(), &row, count) {
        return Ok(());
    }
    let at = place_in_order(keys, rows.as_slice(), &row);
    rows.insert(at, row)?;
    rows.truncate(count);
    Ok(())
}

/// Takes the row before those of which the first `count` in the order of the keys are kept.
fn take_row<'a>(
    keys: &[SortKey],
    rows: &'a RowList,
    place: usize,
    count: usize,
    first: &mut Vec<PlacedRow<'a>>,
) -> Result<(), AllocError>
    requires within { place < length rows.now }
    requires first { AreFirst keys.now count rows.now (place + 1) first.old.items }
    ensures { OnOk result (AreFirst keys.now count rows.now place first.new.items) }
{
    let code = first_code(keys, rows.row(place));
    if is_beyond(first.as_slice(), code, count) {
        return Ok(());
    }
    let row = place_row(keys, rows, place);
    put_in_order(keys, first, row, count)?;
    Ok(())
}

/// The places of the first `count` rows of a list in the order of the keys; rows with equal keys keep their order.
///
/// Rows are taken from the end. Where `count` rows are kept, a row whose code at the first key is above that of the last is passed over
/// at once, and one that has the same code is compared with the last before others.
pub(crate) fn first_places(
    alloc: Global,
    keys: &[SortKey],
    rows: &RowList,
    count: usize,
) -> Result<CodedPlaces, AllocError>
    ensures { IfOk result
        (λ found. ArePlacesBy keys.now (Some count) rows.now found.are_exact found.places.items) }
{
    let mut first = Vec::new(alloc);
    let mut at = rows.len();
    while at > 0 {
        at -= 1;
        take_row(keys, rows, at, count, &mut first)?;
    }
    let places = places_of(alloc, first.as_slice())?;
    // Whether the codes are exact is not looked at: the rows are few.
    Ok(CodedPlaces {
        places,
        are_exact: false,
    })
}
