//! Rows that are equal, and each row once.
ghost use Rattle.std.specs.Prelude.{◌≡◌, IfOk, Some};
ghost use Rattle.span_expr.specs.Operators.{column_of};
ghost use Rattle.span_query.specs.Groups.{is_equal, are_equal, distinct, columns_at};
ghost use Rattle.span_conditions.specs.Answers.{Gives};
ghost use Rattle.span_rows.specs.Columns.{distinct_at};
ghost use Rattle.span_rows.specs.LentRows.{lent_rows};

use super::key::{LentKey, LentRow};
use super::row_list::RowList;
use indexmap::IndexSet;
use span_expr::cell::Failure;
use span_value::order::compare;
use span_value::value::Value;
use std::alloc::{AllocError, Global};

/// Whether the two are the same value; NULL equals NULL.
fn is_equal(left: &Value, right: &Value) -> bool
    ensures { result ≡ is_equal left.now right.now }
{
    match (left, right) {
        (Value::Int(a), Value::Int(b)) => a == b,
        _ => compare(left, right).is_eq(),
    }
}

/// Whether the rows have the same number of values, each equal to the one at its place.
pub(crate) fn are_equal(left: &[Value], right: &[Value]) -> bool
    ensures { result ≡ are_equal left.now right.now }
{
    if left.len() != right.len() {
        return false;
    }
    for at in 0..left.len() {
        if !is_equal(&left[at], &right[at]) {
            return false;
        }
    }
    true
}

/// Copies of the rows of a set, in its order.
fn rows_of(alloc: Global, seen: IndexSet<LentRow<'_>>) -> Result<RowList, AllocError>
    ensures { IfOk result (λ rows. rows ≡ seen.entry.keys) }
{
    let mut rows = RowList::new(alloc);
    for key in seen {
        rows.push_copy(alloc, key.row())?;
    }
    Ok(rows)
}

fn first_occurrences(alloc: Global, rows: &RowList) -> Result<RowList, AllocError>
    ensures { IfOk result (λ kept. kept ≡ distinct rows.now) }
{
    let mut seen = IndexSet::new(alloc);
    for at in 0..rows.len() {
        seen.insert(LentRow::new(rows.row(at)))?;
    }
    rows_of(alloc, seen)
}

/// Copies of the rows, each row once, at its first place; NULL equals NULL. The only error is out of memory.
pub fn distinct(alloc: Global, rows: &RowList) -> Result<RowList, Failure>
    ensures { Gives result (Some (distinct rows.now)) }
{
    Ok(first_occurrences(alloc, rows)?)
}

/// The values of the rows at some columns, each once.
fn columns_seen<'a>(
    alloc: Global,
    columns: &'a [usize],
    rows: &[&'a [Value]],
) -> Result<IndexSet<LentKey<'a>>, AllocError>
    ensures { IfOk result (λ seen. seen.keys ≡ distinct_at columns.now (lent_rows rows.now)) }
{
    let mut seen = IndexSet::new(alloc);
    for row in rows {
        seen.insert(LentKey::new(*row, columns))?;
    }
    Ok(seen)
}

/// Copies of the values of a set, in its order.
fn copies_of(alloc: Global, seen: IndexSet<LentKey<'_>>) -> Result<RowList, AllocError>
    ensures { IfOk result (λ rows. rows ≡ seen.entry.keys) }
{
    let mut rows = RowList::new(alloc);
    let mut values = Vec::new(alloc);
    for key in seen {
        key.put_values(alloc, &mut values)?;
        rows.push(&mut values)?;
    }
    Ok(rows)
}

/// Copies of the values of the rows at some columns, each once, at its first place; NULL equals NULL. The only error is out of memory.
pub fn distinct_columns<'a>(
    alloc: Global,
    columns: &'a [usize],
    rows: &[&'a [Value]],
) -> Result<RowList, AllocError>
    ensures { IfOk result (λ found. found ≡ distinct_at columns.now (lent_rows rows.now)) }
{
    let seen = columns_seen(alloc, columns, rows)?;
    let found = copies_of(alloc, seen)?;
    Ok(found)
}
