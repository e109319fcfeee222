//! Rows of a list that are kept in the place of all.
ghost use Rattle.std.specs.Prelude.{◌≡◌, ◌<◌, IfOk, OnOk, length, take};
ghost use Rattle.std.specs.List.{All};
ghost use Rattle.span_query.specs.Sorting.{sorted};
ghost use Rattle.span_rows.specs.RowPlaces.{rows_at};
ghost use Rattle.span_sorting.specs.PlacesInOrder.{without_codes};

use super::first_places::first_places;
use super::placed::CodedPlace;
use super::sort::copy_rows;
use span_query::query::SortKey;
use span_rows::row_list::{RowList, lend_places};
use std::alloc::{AllocError, Global};

/// Copies of the rows at some places.
fn copy_places(alloc: Global, rows: &RowList, places: &[usize]) -> Result<RowList, AllocError>
    requires { All (λ place. place < length rows.now) places.now }
    ensures { IfOk result (λ copies. copies ≡ rows_at rows.now places.now) }
{
    let mut lent = Vec::new(alloc);
    lend_places(rows, places, &mut lent)?;
    copy_rows(alloc, lent.as_slice())
}

/// Keeps of some rows those at some places, in the order of the places; the memory of the list is used again. The only error is out of
/// memory, which may leave no rows.
pub fn keep_places(alloc: Global, rows: &mut RowList, places: &[usize]) -> Result<(), AllocError>
    requires { All (λ place. place < length rows.old) places.now }
    ensures { OnOk result (rows.new ≡ rows_at rows.old places.now) }
{
    let kept = copy_places(alloc, rows, places)?;
    rows.clear();
    rows.append(kept)
}

/// The places without the codes.
fn numbers_of(alloc: Global, places: &[CodedPlace]) -> Result<Vec<usize>, AllocError>
    ensures { IfOk result (λ numbers. numbers.items ≡ without_codes places.now) }
{
    places.iter().map(|x| x.place).collect(alloc)
}

/// Keeps of some rows the first `count` in the order of the keys, in this order; rows with equal keys keep theirs. The only error is out of
/// memory, which may leave no rows.
pub fn keep_first(
    alloc: Global,
    keys: &[SortKey],
    count: usize,
    rows: &mut RowList,
) -> Result<(), AllocError>
    ensures { OnOk result (rows.new ≡ take count (sorted keys.now rows.old)) }
{
    let found = first_places(alloc, keys, rows, count)?;
    let places = numbers_of(alloc, found.places.as_slice())?;
    keep_places(alloc, rows, places.as_slice())
}
