//! Select lists that are columns alone: rows are put in order by the columns that the keys are, and their columns copied last.
ghost use Rattle.std.specs.Prelude.{◌≡◌, IfOk, IfSome, OnOk, map};
ghost use Rattle.span_value.specs.declared.value.Value.TheVariants as value;
ghost use Rattle.span_expr.specs.Operators.{column_of};
ghost use Rattle.span_query.specs.Groups.{columns_at};
ghost use Rattle.span_rows.specs.LentRows.{lent_rows};
ghost use Rattle.span_sorting.specs.Columns.{AreColumns, AreKeysOver, key_over};

use span_expr::expr::Expr;
use span_expr::form::as_column;
use span_query::query::SortKey;
use span_rows::columns::put_columns;
use span_rows::row_list::RowList;
use span_value::value::Value;
use std::alloc::{AllocError, Global};

/// The columns of a select list, where it has nothing else. The only error is out of memory.
pub fn columns_of(alloc: Global, outputs: &[Expr]) -> Result<Option<Vec<usize>>, AllocError>
    ensures { IfOk result (λ found. IfSome found (λ columns. AreColumns outputs.now columns.items)) }
{
    let mut columns = Vec::new(alloc);
    for output in outputs {
        let Some(column) = as_column(output) else {
            return Ok(None);
        };
        columns.push(column)?;
    }
    Ok(Some(columns))
}

/// The key of rows that are some columns of others, as a key of those, where it is one of the columns.
fn key_over(columns: &[usize], key: &SortKey) -> Option<SortKey>
    ensures { result ≡ key_over columns.now key.now }
{
    let column = *columns.get(key.column)?;
    Some(SortKey {
        column,
        is_descending: key.is_descending,
    })
}

/// The keys of rows that are some columns of others, as keys of those, where all are among the columns.
pub fn keys_over(
    alloc: Global,
    columns: &[usize],
    keys: &[SortKey],
) -> Result<Option<Vec<SortKey>>, AllocError>
    ensures { IfOk result (λ found. IfSome found (λ moved. AreKeysOver columns.now keys.now moved.items)) }
{
    let mut moved = Vec::new(alloc);
    for key in keys {
        let Some(found) = key_over(columns, key) else {
            return Ok(None);
        };
        moved.push(found)?;
    }
    Ok(Some(moved))
}

/// How many rows are read together before they are copied.
const ROWS_AHEAD: usize = 16;

/// The number of a row at a place, where it has one.
fn number_at(row: &[Value], place: usize) -> Option<i64>
    ensures { IfSome result (λ number. column_of row.now place ≡ value.Int number) }
{
    match row.get(place) {
        Some(Value::Int(number)) => Some(*number),
        _ => None,
    }
}

/// Whether a row has a number at each of the columns.
fn has_numbers(columns: &[usize], row: &[Value]) -> bool {
    let mut has = true;
    for column in columns {
        has = has & number_at(row, *column).is_some();
    }
    has
}

/// Whether each of the next rows, from a place on, has a number at each of the columns. Rows in order are not next to each other in
/// memory: when each is read as it is copied, each read waits for memory alone; here the reads do not depend on each other, and wait
/// together. The result only chooses between two ways to copy that give the same values.
fn have_numbers(columns: &[usize], rows: &[&[Value]], from: usize) -> bool {
    let mut have = true;
    for at in from..rows.len().min(from.saturating_add(ROWS_AHEAD)) {
        have = have & has_numbers(columns, rows[at]);
    }
    have
}

/// Makes a buffer the values of a row at the columns, of which most are numbers: a number is copied without `put_columns`.
fn put_numbers(
    alloc: Global,
    columns: &[usize],
    row: &[Value],
    values: &mut Vec<Value>,
) -> Result<(), AllocError>
    ensures { OnOk result (values.new.items ≡ columns_at columns.now row.now) }
{
    values.clear();
    for column in columns {
        let Some(number) = number_at(row, *column) else {
            return put_columns(alloc, columns, row, values);
        };
        values.push(Value::Int(number))?;
    }
    Ok(())
}

/// Copies of the columns of the rows.
pub(crate) fn copy_columns(
    alloc: Global,
    columns: &[usize],
    rows: &[&[Value]],
) -> Result<RowList, AllocError>
    ensures { IfOk result (λ copies. copies ≡ map (columns_at columns.now) (lent_rows rows.now)) }
{
    let mut copies = RowList::with_capacity(alloc, rows.len(), columns.len())?;
    let mut values = Vec::with_capacity(alloc, columns.len())?;
    let mut are_numbers = false;
    for at in 0..rows.len() {
        if at % ROWS_AHEAD == 0 {
            are_numbers = have_numbers(columns, rows, at);
        }
        if are_numbers {
            put_numbers(alloc, columns, rows[at], &mut values)?;
        } else {
            put_columns(alloc, columns, rows[at], &mut values)?;
        }
        copies.push(&mut values)?;
    }
    Ok(copies)
}
