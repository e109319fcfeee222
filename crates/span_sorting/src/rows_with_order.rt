//! Rows with their order by some keys, and the codes of the keys: it is made where they are read, so that several threads can do it for their
//! parts.
ghost use Rattle.std.specs.Prelude.{◌≡◌, ◌<◌, ◌++◌, [], Bool, IfOk, IfSome, IsTrue, List, None, OnOk, length, slice_index_or};
ghost use Rattle.std.specs.List.{All, AllByRecursion};
ghost use Rattle.span_query.specs.declared.query.SortKey.{SortKey};
ghost use Rattle.span_query.specs.Rows.{Row};
ghost use Rattle.span_query.specs.Sorting.{sorted};
ghost use Rattle.span_rows.specs.RowPlaces.{rows_at};
ghost use Rattle.span_sorting.specs.Codes.{HaveCodes, IsCodedAs, coded_rows, uncoded};
ghost use Rattle.span_sorting.specs.Orders.{take_first};
ghost use Rattle.span_sorting.specs.PlacesInOrder.{ArePlacesBy, IsCodedPlace, without_codes};

use super::coded::{CodedRow, CodedRows, add_rows};
use super::in_order::{OrderedRows, put_in_order};
use super::placed::{CodedPlace, CodedPlaces, order_places};
use span_query::query::SortKey;
use span_rows::row_list::RowList;
use span_value::owned::give_after;
use std::alloc::{AllocError, Global};
use std::marker::Model;

/// The places of the rows of a list in the order of some keys.
#[derive(Debug, Drop)]
struct RowOrder {
    keys: Vec<SortKey>,
    found: CodedPlaces,
}

fn is_same_key(left: &SortKey, right: &SortKey) -> bool
    ensures { IsTrue result → left.now ≡ right.now }
{
    left.column == right.column && left.is_descending == right.is_descending
}

/// Whether keys are the same, one by one.
fn are_same_keys(left: &[SortKey], right: &[SortKey]) -> bool
    ensures { IsTrue result → left.now ≡ right.now }
{
    if left.len() != right.len() {
        return false;
    }
    for at in 0..left.len() {
        if !is_same_key(&left[at], &right[at]) {
            return false;
        }
    }
    true
}

/// Rows, and their order by some keys where it was made. Contracts see the rows.
#[derive(Debug, Drop)]
pub struct RowsWithOrder {
    rows: RowList,
    order: Option<RowOrder>,
}

impl Model for RowsWithOrder {
    ghost use Rattle.std.specs.Prelude.{IfSome, List};
    ghost use Rattle.span_query.specs.Rows.{Row};
    ghost use Rattle.span_sorting.specs.PlacesInOrder.{IsOrderOf};

    ghost Value = { List Row };

    ghost view = { λ a. a.rows };

    ghost invariant = { λ a. IfSome a.order (IsOrderOf a.rows) };
}

impl RowsWithOrder {
    /// Rows without their order.
    pub fn new(rows: RowList) -> RowsWithOrder
        ensures { result ≡ rows }
    {
        RowsWithOrder { rows, order: None }
    }

    /// Rows that stay where they are, with their order by the keys. The only error is out of memory.
    pub fn with_order(
        alloc: Global,
        keys: &[SortKey],
        rows: RowList,
    ) -> Result<RowsWithOrder, AllocError>
        ensures { IfOk result (λ ordered. ordered ≡ rows) }
    {
        let found = order_places(alloc, keys, &rows)?;
        let keys = keys.to_vec(alloc)?;
        Ok(RowsWithOrder {
            rows,
            order: Some(RowOrder { keys, found }),
        })
    }

    /// Rows put in the order of the keys, with this order; rows with equal keys keep theirs. The only error is out of memory.
    pub fn in_order(
        alloc: Global,
        keys: &[SortKey],
        rows: RowList,
    ) -> Result<RowsWithOrder, AllocError>
        ensures { IfOk result (λ ordered. ordered ≡ sorted keys.now rows) }
    {
        let OrderedRows { rows, found } = put_in_order(alloc, keys, &rows)?;
        let keys = keys.to_vec(alloc)?;
        Ok(RowsWithOrder {
            rows,
            order: Some(RowOrder { keys, found }),
        })
    }

    /// The rows.
    pub fn rows(&self) -> &RowList
        ensures { result.now ≡ self.now }
    {
        &self.rows
    }

    /// The rows, without their order.
    pub fn into_list(self) -> RowList
        ensures { result ≡ self }
    {
        let RowsWithOrder { rows, order } = self;
        give_after(order, rows)
    }

    /// The places of the rows in the order of the keys, where this was made, and whether their codes are exact.
    pub fn places_by(&self, keys: &[SortKey]) -> Option<(&[CodedPlace], bool)>
        ensures { IfSome result (λ found. ArePlacesBy keys.now None self.now found.1 found.0.now) }
    {
        let Some(order) = &self.order else {
            return None;
        };
        if are_same_keys(keys, order.keys.as_slice()) {
            Some((order.found.places.as_slice(), order.found.are_exact))
        } else {
            None
        }
    }

    /// Lends the rows with their codes after others. Where their order by the keys was made, no value of them is read. Where a count is
    /// given, the first `count` in this order are what is wanted of all. The only error is out of memory.
    pub fn lend_in_order<'a>(
        &'a self,
        keys: &[SortKey],
        count: Option<usize>,
        all: &mut CodedRows<'a>,
    ) -> Result<(), AllocError>
        requires { HaveCodes keys.now all.old }
        ensures rows { OnOk result
            (take_first count (sorted keys.now (coded_rows all.new))
            ≡ take_first count (sorted keys.now (coded_rows all.old ++ self.now))) }
        ensures coded { OnOk result (HaveCodes keys.now all.new) }
    {
        match self.places_by(keys) {
            Some((places, are_exact)) => {
                lend_sorted(keys, count, &self.rows, places, are_exact, all)
            }
            None => add_rows(keys, &self.rows, all),
        }
    }
}

/// The row at a place, with its codes.
pub(crate) fn coded_row<'a>(rows: &'a RowList, place: &CodedPlace) -> CodedRow<'a>
    requires { place.now.place < length rows.now }
    ensures row { result.row.now ≡ slice_index_or rows.now place.now.place [] }
    ensures first { result.first ≡ place.now.first }
    ensures second { result.second ≡ place.now.second }
{
    CodedRow {
        row: rows.row(place.place),
        first: place.first,
        second: place.second,
    }
}

/// Lends the rows at some places with their codes, after others.
fn lend_places<'a>(
    rows: &'a RowList,
    places: &[CodedPlace],
    all: &mut Vec<CodedRow<'a>>,
) -> Result<(), AllocError>
    requires { All (λ x. x.place < length rows.now) places.now }
    ensures rows { OnOk result
        (uncoded all.new.items ≡ uncoded all.old.items ++ rows_at rows.now (without_codes places.now)) }
    ensures coded { OnOk result ((keys : List SortKey) (exact : Bool)
        → AllByRecursion (IsCodedPlace rows.now keys exact) places.now
        → AllByRecursion (IsCodedAs keys exact) all.old.items
        → AllByRecursion (IsCodedAs keys exact) all.new.items) }
{
    all.reserve(places.len())?;
    for place in places {
        all.push(coded_row(rows, place))?;
    }
    Ok(())
}

/// Lends the rows at their places in the order of the keys with their codes, after others.
fn lend_sorted<'a>(
    keys: &[SortKey],
    count: Option<usize>,
    rows: &'a RowList,
    places: &[CodedPlace],
    are_exact: bool,
    all: &mut CodedRows<'a>,
) -> Result<(), AllocError>
    requires places { ArePlacesBy keys.now None rows.now are_exact places.now }
    requires coded { HaveCodes keys.now all.old }
    ensures rows { OnOk result
        (take_first count (sorted keys.now (coded_rows all.new))
        ≡ take_first count (sorted keys.now (coded_rows all.old ++ rows.now))) }
    ensures coded { OnOk result (HaveCodes keys.now all.new) }
{
    lend_places(rows, places, &mut all.rows)?;
    all.are_exact = all.are_exact && are_exact;
    Ok(())
}
