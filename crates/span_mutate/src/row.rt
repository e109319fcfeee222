//! Rows of tables, and their order.
ghost use Rattle.std.specs.Prelude.{◌≡◌, IfOk, slice_get, take};
ghost use Rattle.std.specs.Option.{option_copied};
ghost use Rattle.span_keycode.specs.Coding.{apply_direction};
ghost use Rattle.span_mutate.specs.Rows.{begins, is_same_key, is_at, row_at, is_descending, key_order, row_order, with_row};

use span_schema::layout::KeyPart;
use span_value::order::compare;
use span_value::seq::Seq;
use span_value::value::Value;
use std::alloc::{AllocError, Global};
use std::cmp::Ordering;

/// A row of a table.
#[derive(Debug, Drop, PartialEq, Eq)]
pub struct TableRow {
    /// The number of the table.
    pub table: usize,
    /// The values of its primary key, in the order of the key.
    pub key: Seq<Value>,
    /// The values of its other columns, in the order of declaration.
    pub cells: Seq<Value>,
}

/// The first `len` values, or all where there are fewer: of the key of a row, that of the row of an upper table above it.
pub fn first_values(values: &[Value], len: usize) -> &[Value]
    ensures { result.now ≡ take len values.now }
{
    &values[..len.min(values.len())]
}

/// Whether the other values begin with these.
pub(crate) fn begins(front: &[Value], values: &[Value]) -> bool
    ensures { result ≡ begins front.now values.now }
{
    if front.len() > values.len() {
        return false;
    }
    for i in 0..front.len() {
        if compare(&front[i], &values[i]) != Ordering::Equal {
            return false;
        }
    }
    true
}

fn is_same_key(left: &[Value], right: &[Value]) -> bool
    ensures { result ≡ is_same_key left.now right.now }
{
    left.len() == right.len() && begins(left, right)
}

fn is_at(table: usize, key: &[Value], row: &TableRow) -> bool
    ensures { result ≡ is_at table key.now row.now }
{
    row.table == table && is_same_key(key, row.key.as_slice())
}

/// The row of the table with this number that has this key, if it is among the rows.
pub(crate) fn row_at<'a>(table: usize, key: &[Value], rows: &'a [TableRow]) -> Option<&'a TableRow>
    ensures { option_copied result ≡ row_at table key.now rows.now }
{
    rows.iter().find(|r| is_at(table, key, r))
}

fn apply_direction(desc: bool, order: Ordering) -> Ordering
    ensures { result ≡ apply_direction desc order }
{
    if desc { order.reverse() } else { order }
}

fn is_descending(columns: &[KeyPart], place: usize) -> bool
    ensures { result ≡ is_descending (slice_get columns.now place) }
{
    match columns.get(place) {
        None => false,
        Some(column) => column.desc,
    }
}

/// The order of two keys: column by column, each in its direction.
pub(crate) fn key_order(columns: &[KeyPart], left: &[Value], right: &[Value]) -> Ordering
    ensures { result ≡ key_order columns.now left.now right.now }
{
    for i in 0..left.len().min(right.len()) {
        let order = apply_direction(is_descending(columns, i), compare(&left[i], &right[i]));
        if order != Ordering::Equal {
            return order;
        }
    }
    left.len().cmp(&right.len())
}

pub(crate) fn row_order(columns: &[KeyPart], left: &TableRow, right: &TableRow) -> Ordering
    ensures { result ≡ row_order columns.now left.now right.now }
{
    left.table.cmp(&right.table).then(key_order(columns, left.key.as_slice(), right.key.as_slice()))
}

/// The rows with this one at its place among them, where a row with its key was or after those that come before it. The columns
/// are those of its key.
pub(crate) fn with_row(
    alloc: Global,
    columns: &[KeyPart],
    rows: Vec<TableRow>,
    row: TableRow,
) -> Result<Vec<TableRow>, AllocError>
    ensures { IfOk result (λ all. all.items ≡ with_row columns.now row rows.items) }
{
    let mut front = Vec::new(alloc);
    let mut later = Vec::new(alloc);
    for old in rows {
        match row_order(columns, &old, &row) {
            Ordering::Less => front.push(old)?,
            Ordering::Equal => {}
            Ordering::Greater => later.push(old)?,
        }
    }
    front.push(row)?;
    front.append(&mut later)?;
    Ok(front)
}
