//! ORDER BY and LIMIT: rows in the order of some keys, and a part of a list of rows.
ghost use Rattle.std.specs.Prelude.{◌≡◌, ℕ, ◌+◌, ◌++◌, IfOk, IfSome, Some, List, map, take, true};
ghost use Rattle.span_query.specs.declared.query.Limit.{Limit};
ghost use Rattle.std.specs.Cmp.{IsStrictWeakOrder};
ghost use Rattle.std.specs.List.Sorted.{IsStableBy};
ghost use Rattle.span_query.specs.Rows.{Row};
ghost use Rattle.span_query.specs.Groups.{columns_at};
ghost use Rattle.span_query.specs.Sorting as spec;
ghost use Rattle.span_query.specs.Meaning as meaning;
ghost use Rattle.span_query.specs.declared.query.SortKey.{SortKey};
ghost use Rattle.span_conditions.specs.Answers.{Gives};
ghost use Rattle.span_rows.specs.LentRows.{lent_rows};
ghost use Rattle.span_sorting.specs.Codes.{HaveCodes, coded_rows};
ghost use Rattle.span_sorting.specs.Orders.{IsSorted};

use super::coded::{CodedRows, code_rows, sort_codes, uncode_rows};
use super::columns::copy_columns;
use super::first_rows::first_rows;
use span_expr::cell::Failure;
use span_query::query::{Limit, SortKey};
use span_rows::row_list::{RowList, lent_rows};
use span_value::order::compare;
use span_value::value::Value;
use std::alloc::{AllocError, Global};
use std::cmp::Ordering;

/// The most rows that LIMIT needs, those that are skipped included, for which they are kept in order while the others pass by:
/// each row that is kept is moved past up to as many.
const MOST_FIRST: u64 = 64;

/// The order of two rows by one key; a place that a row does not have counts as NULL. Nothing is copied.
fn compare_by_key(key: &SortKey, left: &[Value], right: &[Value]) -> Ordering
    ensures { result ≡ spec.key_order key.now left.now right.now }
{
    let null = Value::Null;
    let order = compare(
        left.get(key.column).unwrap_or(&null),
        right.get(key.column).unwrap_or(&null),
    );
    if key.is_descending {
        order.reverse()
    } else {
        order
    }
}

/// The order of two rows, by the first key at which they differ.
pub fn compare_rows(keys: &[SortKey], left: &[Value], right: &[Value]) -> Ordering
    ensures { result ≡ spec.row_order keys.now left.now right.now }
{
    for key in keys {
        let order = compare_by_key(key, left, right);
        if order != Ordering::Equal {
            return order;
        }
    }
    Ordering::Equal
}

/// The rows in the order of the keys. Rows with equal keys keep their order.
fn sort_rows<'a>(
    alloc: Global,
    keys: &[SortKey],
    rows: Vec<&'a [Value]>,
) -> Result<Vec<&'a [Value]>, AllocError>
    ensures { IfOk result (λ all. lent_rows all.items ≡ spec.sorted keys.now (lent_rows rows.entry.items)) }
{
    if keys.is_empty() {
        return Ok(rows);
    }
    let coded = code_rows(alloc, keys, rows.as_slice())?;
    let all = sort_coded(alloc, keys, coded)?;
    Ok(all)
}

/// The rows in the order of the keys, by their codes. Rows with equal keys keep their order.
fn sort_coded<'a>(
    alloc: Global,
    keys: &[SortKey],
    rows: CodedRows<'a>,
) -> Result<Vec<&'a [Value]>, AllocError>
    requires { HaveCodes keys.now rows }
    ensures { IfOk result (λ all. lent_rows all.items ≡ spec.sorted keys.now (coded_rows rows.entry)) }
{
    let ordered = sort_codes(keys, rows)?;
    let all = uncode_rows(alloc, ordered.rows.as_slice())?;
    Ok(all)
}

/// How many rows LIMIT needs of those in order, where they are few; those that are skipped count too.
pub fn few_rows(limit: Option<Limit>) -> Option<usize>
    ensures { IfSome result (λ count. (l : Limit) × (limit ≡ Some l) × (count ≡ l.skip + l.rows)) }
{
    let limit = limit?;
    let count = limit.skip.checked_add(limit.rows)?;
    if count <= MOST_FIRST {
        Some(count as usize)
    } else {
        None
    }
}

/// The same where there are keys.
pub(crate) fn first_count(keys: &[SortKey], limit: Option<Limit>) -> Option<usize>
    ensures { IfSome result (λ count. (l : Limit) × (limit ≡ Some l) × (count ≡ l.skip + l.rows)) }
{
    if keys.is_empty() {
        None
    } else {
        few_rows(limit)
    }
}

/// Rows of which LIMIT leaves what it leaves of all in the order of the keys. Where it needs few, the others are not put in order.
fn rows_in_order<'a>(
    alloc: Global,
    keys: &[SortKey],
    limit: Option<Limit>,
    rows: Vec<&'a [Value]>,
) -> Result<Vec<&'a [Value]>, AllocError>
    ensures { IfOk result
        (λ ordered. meaning.limit_rows limit (lent_rows ordered.items)
        ≡ meaning.limit_rows limit (spec.sorted keys.now (lent_rows rows.entry.items))) }
{
    if let Some(count) = first_count(keys, limit) {
        let first = first_rows(alloc, keys, rows.as_slice(), count)?;
        return Ok(first);
    }
    let all = sort_rows(alloc, keys, rows)?;
    Ok(all)
}

/// The same of rows with their codes.
fn coded_in_order<'a>(
    alloc: Global,
    keys: &[SortKey],
    limit: Option<Limit>,
    rows: CodedRows<'a>,
) -> Result<Vec<&'a [Value]>, AllocError>
    requires { HaveCodes keys.now rows }
    ensures { IfOk result
        (λ ordered. meaning.limit_rows limit (lent_rows ordered.items)
        ≡ meaning.limit_rows limit (spec.sorted keys.now (coded_rows rows.entry))) }
{
    if let Some(count) = first_count(keys, limit) {
        let lent = uncode_rows(alloc, rows.rows.as_slice())?;
        let first = first_rows(alloc, keys, lent.as_slice(), count)?;
        return Ok(first);
    }
    let all = sort_coded(alloc, keys, rows)?;
    Ok(all)
}

/// The part that LIMIT leaves of the rows in the order of the keys. The only error is out of memory.
pub fn order_rows(
    alloc: Global,
    keys: &[SortKey],
    limit: Option<Limit>,
    rows: RowList,
) -> Result<RowList, Failure>
    ensures { Gives result (Some (meaning.limit_rows limit (spec.sorted keys.now rows))) }
{
    if is_as_it_is(keys, limit) {
        return Ok(rows);
    }
    let all = lent_rows(alloc, &rows)?;
    let ordered = rows_in_order(alloc, keys, limit, all)?;
    Ok(copy_rows(alloc, limit_rows(limit, ordered.as_slice()))?)
}

/// The columns of the part that LIMIT leaves of the rows in the order of the keys. No other row is copied.
pub fn order_columns(
    alloc: Global,
    keys: &[SortKey],
    limit: Option<Limit>,
    columns: &[usize],
    rows: Vec<&[Value]>,
) -> Result<RowList, AllocError>
    ensures { IfOk result
        (λ part. part
        ≡ map (columns_at columns.now) (meaning.limit_rows limit (spec.sorted keys.now (lent_rows rows.entry.items)))) }
{
    let ordered = rows_in_order(alloc, keys, limit, rows)?;
    let part = copy_part(alloc, limit, columns, ordered.as_slice())?;
    Ok(part)
}

/// The same of rows with their codes, which are not read to be put in order where their codes tell it.
pub fn order_coded(
    alloc: Global,
    keys: &[SortKey],
    limit: Option<Limit>,
    columns: &[usize],
    rows: CodedRows<'_>,
) -> Result<RowList, AllocError>
    requires { HaveCodes keys.now rows }
    ensures { IfOk result
        (λ part. part
        ≡ map (columns_at columns.now) (meaning.limit_rows limit (spec.sorted keys.now (coded_rows rows.entry)))) }
{
    let ordered = coded_in_order(alloc, keys, limit, rows)?;
    let part = copy_part(alloc, limit, columns, ordered.as_slice())?;
    Ok(part)
}

/// The columns of the part that LIMIT leaves of the rows.
pub(crate) fn copy_part(
    alloc: Global,
    limit: Option<Limit>,
    columns: &[usize],
    rows: &[&[Value]],
) -> Result<RowList, AllocError>
    ensures { IfOk result
        (λ part. part ≡ map (columns_at columns.now) (meaning.limit_rows limit (lent_rows rows.now))) }
{
    let part = copy_columns(alloc, columns, limit_rows(limit, rows))?;
    Ok(part)
}

/// Whether there is neither an order nor a limit.
fn is_as_it_is(keys: &[SortKey], limit: Option<Limit>) -> bool
    ensures { result ≡ true → (rows : List Row) → meaning.limit_rows limit (spec.sorted keys.now rows) ≡ rows }
{
    match limit {
        Some(_) => false,
        None => keys.is_empty(),
    }
}

/// A part of the rows.
fn limit_rows<'a, 'b>(limit: Option<Limit>, rows: &'a [&'b [Value]]) -> &'a [&'b [Value]]
    ensures { lent_rows result.now ≡ meaning.limit_rows limit (lent_rows rows.now) }
{
    let Some(limit) = limit else {
        return rows;
    };
    let rest = &rows[rows.len().min(limit.skip as usize)..];
    &rest[..rest.len().min(limit.rows as usize)]
}

/// Copies of the rows.
pub(crate) fn copy_rows(alloc: Global, rows: &[&[Value]]) -> Result<RowList, AllocError>
    ensures { IfOk result (λ copies. copies ≡ lent_rows rows.now) }
{
    // All rows have as many values as the first where they are those of one query.
    let width = match rows.first() {
        Some(row) => row.len(),
        None => 0,
    };
    let mut copies = RowList::with_capacity(alloc, rows.len(), width)?;
    for row in rows {
        copies.push_copy(alloc, *row)?;
    }
    Ok(copies)
}

/// A law, which takes no time: the rows that sorting gives are in the order of the keys, rows with equal keys keep their order,
/// and no other list is so.
pub fn sorting_is_stable()
    ensures ranked { (keys : List SortKey) → IsStrictWeakOrder (spec.comes_before keys) }
    ensures sorted { (keys : List SortKey) (rows : List Row)
        → IsSorted (spec.comes_before keys) (spec.sorted keys rows) }
    ensures stable { (keys : List SortKey) (rows : List Row)
        → IsStableBy (spec.comes_before keys) rows (spec.sorted keys rows) }
    ensures only { (keys : List SortKey) (rows others : List Row) →
        IsSorted (spec.comes_before keys) others → IsStableBy (spec.comes_before keys) rows others
        → others ≡ spec.sorted keys rows }
{}

/// A law, which takes no time: lists of rows may each be replaced by one that sorting makes the same, and still do so one after the
/// other; a list in order is such a one. The same holds of lists of which sorting makes the same first rows.
pub fn sorting_in_parts()
    ensures both { (keys : List SortKey) (first others second more : List Row)
        → spec.sorted keys first ≡ spec.sorted keys others
        → spec.sorted keys second ≡ spec.sorted keys more
        → spec.sorted keys (first ++ second) ≡ spec.sorted keys (others ++ more) }
    ensures first { (count : ℕ) (keys : List SortKey) (first others second more : List Row)
        → take count (spec.sorted keys first) ≡ take count (spec.sorted keys others)
        → take count (spec.sorted keys second) ≡ take count (spec.sorted keys more)
        → take count (spec.sorted keys (first ++ second)) ≡ take count (spec.sorted keys (others ++ more)) }
    ensures again { (keys : List SortKey) (rows : List Row)
        → spec.sorted keys (spec.sorted keys rows) ≡ spec.sorted keys rows }
{}
