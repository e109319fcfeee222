//! Rows of a list put in the order of some keys: later they are lent in this order, and then read from front to back.
ghost use Rattle.std.specs.Prelude.{◌≡◌, IfOk, None};
ghost use Rattle.span_query.specs.Sorting.{sorted};
ghost use Rattle.span_sorting.specs.Codes.{HaveCodes, coded_rows};
ghost use Rattle.span_sorting.specs.PlacesInOrder.{ArePlacesBy, places_from};

use super::coded::{CodedRow, CodedRows, add_rows, sort_codes, uncode_rows};
use super::placed::{CodedPlace, CodedPlaces};
use super::sort::copy_rows;
use span_query::query::SortKey;
use span_rows::row_list::RowList;
use std::alloc::{AllocError, Global};

/// Rows in the order of some keys, and their places in this order, with their codes.
#[derive(Drop)]
pub(crate) struct OrderedRows {
    pub(crate) rows: RowList,
    pub(crate) found: CodedPlaces,
}

/// The rows of a list with their codes.
fn coded_list<'a>(
    alloc: Global,
    keys: &[SortKey],
    rows: &'a RowList,
) -> Result<CodedRows<'a>, AllocError>
    ensures rows { IfOk result (λ coded. coded_rows coded ≡ rows.now) }
    ensures coded { IfOk result (HaveCodes keys.now) }
{
    let mut all = CodedRows::with_capacity(alloc, rows.len())?;
    add_rows(keys, rows, &mut all)?;
    Ok(all)
}

/// The places that rows have in a list of them alone, with their codes.
fn places_in_turn(alloc: Global, rows: &[CodedRow<'_>]) -> Result<Vec<CodedPlace>, AllocError>
    ensures { IfOk result (λ places. places.items ≡ places_from 0 rows.now) }
{
    let mut places = Vec::with_capacity(alloc, rows.len())?;
    for place in 0..rows.len() {
        let row = &rows[place];
        places.push(CodedPlace {
            first: row.first,
            second: row.second,
            place,
        })?;
    }
    Ok(places)
}

/// Copies of the rows of a list in the order of the keys, with their places; rows with equal keys keep their order. The only error is out of
/// memory.
pub(crate) fn put_in_order(
    alloc: Global,
    keys: &[SortKey],
    rows: &RowList,
) -> Result<OrderedRows, AllocError>
    ensures rows { IfOk result (λ ordered. ordered.rows ≡ sorted keys.now rows.now) }
    ensures places { IfOk result
        (λ ordered. ArePlacesBy keys.now None ordered.rows ordered.found.are_exact ordered.found.places.items) }
{
    let listed = coded_list(alloc, keys, rows)?;
    let coded = sort_codes(keys, listed)?;
    let places = places_in_turn(alloc, coded.rows.as_slice())?;
    let lent = uncode_rows(alloc, coded.rows.as_slice())?;
    let copies = copy_rows(alloc, lent.as_slice())?;
    Ok(OrderedRows {
        rows: copies,
        found: CodedPlaces {
            places,
            are_exact: coded.are_exact,
        },
    })
}
