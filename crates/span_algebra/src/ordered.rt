//! Queries whose rows are put in order where they are lent, before the columns of their select list are copied.
ghost use Rattle.std.specs.Prelude.{◌≡◌, IfOk, IfSome, List, map, suc, true};
ghost use Rattle.span_query.specs.declared.query.BoundQuery.TheViews.{out-BoundQuery};
ghost use Rattle.span_query.specs.Groups.{columns_at};
ghost use Rattle.span_query.specs.Meaning.{limit_rows};
ghost use Rattle.span_query.specs.Rows.{Row};
ghost use Rattle.span_query.specs.Sorting.{sorted};
ghost use Rattle.span_rows.specs.LentRows.{lent_rows};
ghost use Rattle.span_sorting.specs.Codes.{HaveCodes, coded_rows};
ghost use Rattle.span_sorting.specs.Orders.{take_first};
ghost use Rattle.span_collected.specs.Reductions.{AreEnough};
ghost use Rattle.span_algebra.specs.ColumnOrders.{IsColumnOrder, IsTable, IsTableOrder, TakesRows};
ghost use Rattle.span_algebra.specs.SameMeaning.{IsReductionFor};

use super::block::are_in_order;
use span_collected::reduction::Reduction;
use span_query::query::{Block, BoundQuery, Item, Limit, SortKey};
use span_rows::row_list::RowList;
use span_sorting::coded::CodedRows;
use span_sorting::columns::{columns_of, keys_over};
use span_sorting::in_threads::order_columns_in_threads;
use span_sorting::sort::{few_rows, order_coded, order_columns};
use span_value::value::Value;
use std::alloc::{AllocError, Global};
use std::thread::Threads;

/// A select list of columns, and the keys of its rows as keys of the rows that it is taken at.
#[derive(Drop)]
pub(crate) struct ColumnOrder {
    columns: Vec<usize>,
    keys: Vec<SortKey>,
}

impl ColumnOrder {
    /// The keys, as keys of the rows that the select list is taken at.
    pub(crate) fn keys(&self) -> &[SortKey]
        ensures { result.now ≡ self.now.keys.items }
    {
        self.keys.as_slice()
    }
}

/// Whether a query is one SELECT whose select list is taken at each row where its condition is TRUE, and puts its rows in order.
fn orders_its_rows(query: &BoundQuery) -> bool
    ensures { result ≡ true → TakesRows (out-BoundQuery query.now) }
{
    match &query.first.grouping {
        None => !query.first.is_distinct && query.others.is_empty() && !query.order.is_empty(),
        Some(_) => false,
    }
}

/// How the rows of a query's FROM at which its condition is TRUE are put in order, where its select list is columns alone and taken
/// at each of them, and its keys are among these columns.
pub(crate) fn column_order(
    alloc: Global,
    query: &BoundQuery,
) -> Result<Option<ColumnOrder>, AllocError>
    ensures { IfOk result (λ found. IfSome found (λ order. IsColumnOrder (out-BoundQuery query.now) order)) }
{
    if !orders_its_rows(query) {
        return Ok(None);
    }
    let Some(columns) = columns_of(alloc, query.first.outputs.as_slice())? else {
        return Ok(None);
    };
    let Some(keys) = keys_over(alloc, columns.as_slice(), query.order.as_slice())? else {
        return Ok(None);
    };
    Ok(Some(ColumnOrder { columns, keys }))
}

/// The table all of whose rows a block takes, where it is such a block.
pub(crate) fn only_table(block: &Block<BoundQuery>) -> Option<usize>
    ensures { IfSome result (λ number. IsTable block.now number) }
{
    match (&block.from, &block.filter) {
        (Item::Table(number), None) if block.joins.is_empty() => Some(*number),
        _ => None,
    }
}

/// The columns of the part that LIMIT leaves of rows with their codes, in order.
pub(crate) fn take_columns(
    alloc: Global,
    order: &ColumnOrder,
    limit: Option<Limit>,
    rows: CodedRows<'_>,
) -> Result<RowList, AllocError>
    requires { HaveCodes order.now.keys.items rows }
    ensures { IfOk result
        (λ part. part
        ≡ map (columns_at order.now.columns.items)
        (limit_rows limit (sorted order.now.keys.items (coded_rows rows.entry)))) }
{
    let (keys, columns) = (order.keys.as_slice(), order.columns.as_slice());
    order_coded(alloc, keys, limit, columns, rows)
}

/// The same of rows without codes.
pub(crate) fn take_columns_of(
    alloc: Global,
    order: &ColumnOrder,
    limit: Option<Limit>,
    rows: Vec<&[Value]>,
) -> Result<RowList, AllocError>
    ensures { IfOk result
        (λ part. part
        ≡ map (columns_at order.now.columns.items)
        (limit_rows limit (sorted order.now.keys.items (lent_rows rows.entry.items)))) }
{
    let (keys, columns) = (order.keys.as_slice(), order.columns.as_slice());
    let part = order_columns(alloc, keys, limit, columns, rows)?;
    Ok(part)
}

/// The same, where as many threads as there are processors put many rows in order.
pub(crate) fn take_columns_in_threads<R: Threads + Sync>(
    rt: &R,
    alloc: Global,
    order: &ColumnOrder,
    limit: Option<Limit>,
    rows: Vec<&[Value]>,
) -> Result<RowList, AllocError>
    ensures { IfOk result
        (λ part. part
        ≡ map (columns_at order.now.columns.items)
        (limit_rows limit (sorted order.now.keys.items (lent_rows rows.entry.items)))) }
{
    let (keys, columns) = (order.keys.as_slice(), order.columns.as_slice());
    let part = order_columns_in_threads(rt, alloc, keys, limit, columns, rows)?;
    Ok(part)
}

/// Whether a block takes all rows of one table, the one at a place, counted from 0.
pub(crate) fn is_table_at(block: &Block<BoundQuery>, place: usize) -> bool
    ensures { result ≡ true → IsTable block.now (suc place) }
{
    match only_table(block) {
        Some(number) => number > 0 && number - 1 == place,
        None => false,
    }
}

/// Rows of which the first in the order of the keys are needed, up to a count of them where there is one; else all.
fn first_or_all(keys: Vec<SortKey>, count: Option<usize>) -> Reduction
    ensures { (rows all : List Row) → AreEnough result rows all
        → take_first count (sorted keys.items rows) ≡ take_first count (sorted keys.items all) }
{
    match count {
        Some(count) => Reduction::First(keys, count),
        None => Reduction::InOrder(keys),
    }
}

/// Which rows of the table at a place, counted from 0, are kept where a query puts all its rows in order: the first where LIMIT needs few.
pub(crate) fn first_of_table(
    alloc: Global,
    query: &BoundQuery,
    place: usize,
) -> Result<Option<Reduction>, AllocError>
    ensures { IfOk result (λ found. IfSome found (IsReductionFor query.now place)) }
{
    if !is_table_at(&query.first, place) {
        return Ok(None);
    }
    let Some(order) = column_order(alloc, query)? else {
        return Ok(None);
    };
    let ColumnOrder { columns: _, keys } = order;
    Ok(Some(first_or_all(keys, few_rows(query.limit))))
}

/// The rows of a table in the order of some keys, where each has as many values as are said.
#[derive(Drop)]
pub struct TableOrder {
    pub width: usize,
    pub keys: Vec<SortKey>,
}

/// The order in which a query puts the rows of the first table, where it answers these rows as they are and nothing else. None where it is
/// another query. The only error is out of memory.
pub fn table_order(alloc: Global, query: &BoundQuery) -> Result<Option<TableOrder>, AllocError>
    ensures { IfOk result (λ found. IfSome found (IsTableOrder query.now)) }
{
    if query.limit.is_some() || !is_table_at(&query.first, 0) {
        return Ok(None);
    }
    let Some(ColumnOrder { columns, keys }) = column_order(alloc, query)? else {
        return Ok(None);
    };
    if !are_in_order(columns.as_slice()) {
        return Ok(None);
    }
    Ok(Some(TableOrder {
        width: columns.len(),
        keys,
    }))
}
