//! The places of the rows of a list in the order of some keys.
ghost use Rattle.std.specs.Prelude.{◌≡◌, IfOk, None, map};
ghost use Rattle.std.specs.List.{AllByRecursion};
ghost use Rattle.span_sorting.specs.Codes.{code_order, uncoded};
ghost use Rattle.span_sorting.specs.PlacesInOrder.{ArePlacesBy, IsPlaced, coded_place, without_places};

use super::coded::{CodedRow, code_row, compare_coded, exact_with};
use span_query::query::SortKey;
use span_rows::row_list::RowList;
use std::alloc::{AllocError, Global};
use std::cmp::Ordering;

/// A row of a list with its codes, and its place there.
#[derive(Drop)]
pub(crate) struct PlacedRow<'a> {
    pub(crate) coded: CodedRow<'a>,
    pub(crate) place: usize,
}

/// A place of a list, with the codes of the row there.
#[derive(Debug, Drop)]
pub struct CodedPlace {
    /// The code of the row's value by the first key.
    pub first: u128,
    /// The code of its value by the second key.
    pub second: u128,
    pub place: usize,
}

/// Places of a list, with the codes of the rows there.
#[derive(Debug, Drop)]
pub(crate) struct CodedPlaces {
    pub(crate) places: Vec<CodedPlace>,
    /// Whether rows that have the same codes are equal by the keys.
    pub(crate) are_exact: bool,
}

/// The rows of a list with their codes and their places.
#[derive(Drop)]
struct PlacedRows<'a> {
    rows: Vec<PlacedRow<'a>>,
    /// Whether rows that have the same codes are equal by the keys.
    are_exact: bool,
}

/// The rows of a list with their codes and their places.
fn place_rows<'a>(
    alloc: Global,
    keys: &[SortKey],
    rows: &'a RowList,
) -> Result<PlacedRows<'a>, AllocError>
    ensures rows { IfOk result (λ placed. uncoded (without_places placed.rows.items) ≡ rows.now) }
    ensures placed { IfOk result
        (λ placed. AllByRecursion (IsPlaced rows.now keys.now placed.are_exact) placed.rows.items) }
{
    let mut all = Vec::with_capacity(alloc, rows.len())?;
    let mut exact = true;
    for place in 0..rows.len() {
        let row = rows.row(place);
        exact = exact_with(exact, keys, row);
        let coded = code_row(keys, row);
        all.push(PlacedRow { coded, place })?;
    }
    Ok(PlacedRows {
        rows: all,
        are_exact: exact,
    })
}

/// The order of two rows by their codes; where these are the same, and not exact, by the keys.
fn compare_placed(
    keys: &[SortKey],
    are_exact: bool,
    left: &PlacedRow<'_>,
    right: &PlacedRow<'_>,
) -> Ordering
    ensures { result ≡ code_order keys.now are_exact left.now.coded right.now.coded }
{
    compare_coded(keys, are_exact, &left.coded, &right.coded)
}

/// The place of a row with its codes, without the row.
fn coded_place(row: &PlacedRow<'_>) -> CodedPlace
    ensures { result ≡ coded_place row.now }
{
    CodedPlace {
        first: row.coded.first,
        second: row.coded.second,
        place: row.place,
    }
}

/// The places of rows with their codes, without the rows.
pub(crate) fn places_of(
    alloc: Global,
    rows: &[PlacedRow<'_>],
) -> Result<Vec<CodedPlace>, AllocError>
    ensures { IfOk result (λ places. places.items ≡ map coded_place rows.now) }
{
    let mut places = Vec::with_capacity(alloc, rows.len())?;
    for row in rows {
        places.push(coded_place(row))?;
    }
    Ok(places)
}

/// The places of the rows of a list in the order of the keys, with their codes. Rows with equal keys keep their order.
pub(crate) fn order_places(
    alloc: Global,
    keys: &[SortKey],
    rows: &RowList,
) -> Result<CodedPlaces, AllocError>
    ensures { IfOk result
        (λ found. ArePlacesBy keys.now None rows.now found.are_exact found.places.items) }
{
    let PlacedRows {
        rows: mut placed,
        are_exact,
    } = place_rows(alloc, keys, rows)?;
    placed.sort_by(|left, right| compare_placed(keys, are_exact, left, right))?;
    let places = places_of(alloc, placed.as_slice())?;
    Ok(CodedPlaces { places, are_exact })
}
