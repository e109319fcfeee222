//! Reading packed rows.
ghost use Rattle.std.specs.Prelude.{◌≡◌, ◌⊎◌, ◌≤◌, IfOk, MatchOption, MatchResult, length};
ghost use Rattle.span_schema.specs.Numbers.{IsTable, other_kinds};
ghost use Rattle.span_rowcode.specs.Rows.{AreCells, IsRow, IsNoRow, row_code};

use crate::cell::{after, read_cell};
use crate::pack::LONGEST_ROW;
use span_schema::schema::Schema;
use span_value::refusal::Refusal;
use span_value::value::{Kind, Value};
use std::alloc::{AllocError, Global};

/// The cells of a packed row of a table: the values of its columns outside the primary key, in the order of their declaration.
///
/// `BadRow`: the bytes are no packed row of the table, or more than 1,048,576. `OutOfMemory`: memory ran out.
pub fn unpack(
    alloc: Global,
    schema: &Schema,
    table: usize,
    bytes: &[u8],
) -> Result<Vec<Value>, Refusal>
    requires { IsTable schema.now table }
    ensures { MatchResult result
        (λ cells. IsRow (other_kinds schema.now table) cells.items × (bytes.now ≡ row_code cells.items))
        (λ why.
        ((why ≡ Refusal.BadRow) × IsNoRow (other_kinds schema.now table) bytes.now)
        ⊎ (why ≡ Refusal.OutOfMemory)) }
{
    if bytes.len() > LONGEST_ROW {
        return Err(Refusal::BadRow);
    }
    match read_row(alloc, schema.other_kinds(table), bytes)? {
        None => Err(Refusal::BadRow),
        Some(cells) => Ok(cells),
    }
}

fn read_row(alloc: Global, kinds: &[Kind], bytes: &[u8]) -> Result<Option<Vec<Value>>, AllocError>
    requires { length bytes.now ≤ LONGEST_ROW }
    ensures { IfOk result
        (λ found.
        MatchOption found (IsNoRow kinds.now bytes.now)
        (λ cells. AreCells kinds.now cells.items × (bytes.now ≡ row_code cells.items))) }
{
    let mut cells = Vec::with_capacity(alloc, kinds.len())?;
    let mut at = 0;
    for i in 0..kinds.len() {
        match read_cell(alloc, kinds[i], after(bytes, at))? {
            None => return Ok(None),
            Some((value, width)) => {
                cells.push(value)?;
                at += width;
            }
        }
    }
    if at < bytes.len() {
        return Ok(None);
    }
    Ok(Some(cells))
}
