//! The value of a column of a coded key, read straight into its place in a row.
ghost use Rattle.std.specs.Prelude.{IfOk, MatchOption};
ghost use Rattle.span_keycode.specs.Reads.{IsNoColumn};
ghost use Rattle.span_rowreader.specs.Placed.{IsColumnPut, IsColumnRead};

use super::number::column_number;
use super::place::{is_wanted, put_number, put_value};
use span_keycode::root::skip_value;
use span_keycode::value::read_value;
use span_schema::layout::KeyPart;
use span_value::value::Value;
use std::alloc::{AllocError, Global};

/// Puts the value at the front of a column's bytes at its place, which is wanted.
#[inline(never)]
fn put_any_column(
    alloc: Global,
    column: KeyPart,
    place: usize,
    bytes: &[u8],
    row: &mut Vec<Value>,
) -> Result<Option<usize>, AllocError>
    ensures { IfOk result
        (λ found.
        MatchOption found (IsNoColumn column bytes.now)
        (λ n. IsColumnRead column place bytes.now row.old.items row.new.items n)) }
{
    match read_value(alloc, column, bytes)? {
        None => Ok(None),
        Some((value, width)) => {
            put_value(row, place, value);
            Ok(Some(width))
        }
    }
}

/// Puts the value at the front of a column's bytes at its place, if it is wanted, and returns how many bytes code it.
/// None if no value of the column is coded there. A value that is not wanted is skipped.
pub(crate) fn put_column(
    alloc: Global,
    column: KeyPart,
    place: usize,
    wanted: &[bool],
    bytes: &[u8],
    row: &mut Vec<Value>,
) -> Result<Option<usize>, AllocError>
    ensures { IfOk result
        (λ found.
        MatchOption found (IsNoColumn column bytes.now)
        (λ n. IsColumnPut wanted.now column place bytes.now row.old.items row.new.items n)) }
{
    if !is_wanted(wanted, place) {
        return Ok(Some(skip_value(column, bytes)));
    }
    match column_number(column, bytes) {
        Some(number) => {
            put_number(row, place, number);
            Ok(Some(9))
        }
        None => put_any_column(alloc, column, place, bytes, row),
    }
}
