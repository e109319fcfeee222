//! Packing rows.
ghost use Rattle.std.specs.Prelude.{◌≡◌, ◌⊎◌, ◌+◌, ◌<◌, ◌≤◌, ◌++◌, ◌∷◌, MatchOption, MatchResult, OnOk, length};
ghost use Rattle.span_rowcode.specs.Limits.{longest_row};
ghost use Rattle.span_rowcode.specs.declared.pack.TheConstants.{LONGEST_ROW};
ghost use Rattle.span_rowcode.specs.Rows.{bytes_code, cell_code, row_code};
ghost use Rattle.std.specs.Int.{to_be_bytes, w64};

use span_value::refusal::Refusal;
use span_value::value::Value;
use std::alloc::{AllocError, Global};

/// The most bytes of a packed row.
pub const LONGEST_ROW: usize = 1_048_576;

/// The limit is the number that the definitions name.
pub fn limit_is_stated()
    ensures { LONGEST_ROW ≡ longest_row }
{}

/// The packed row of these cells: the values of a row's columns outside the primary key, in the order of their declaration.
///
/// `RowTooLong`: the packed row has more than 1,048,576 bytes. `OutOfMemory`: memory ran out.
pub fn pack(alloc: Global, cells: &[Value]) -> Result<Vec<u8>, Refusal>
    ensures { MatchResult result
        (λ bytes. (bytes.items ≡ row_code cells.now) × (length (row_code cells.now) ≤ longest_row))
        (λ why.
        ((why ≡ Refusal.RowTooLong) × (longest_row < length (row_code cells.now))) ⊎ (why ≡ Refusal.OutOfMemory)) }
{
    match bytes_left(cells) {
        None => Err(Refusal::RowTooLong),
        Some(left) => {
            let mut bytes = Vec::with_capacity(alloc, LONGEST_ROW - left)?;
            push_row(&mut bytes, cells)?;
            Ok(bytes)
        }
    }
}

// What is left of the most bytes.
fn bytes_left(cells: &[Value]) -> Option<usize>
    ensures { MatchOption result
        (LONGEST_ROW < length (row_code cells.now))
        (λ left. left + length (row_code cells.now) ≡ LONGEST_ROW) }
{
    let mut left = LONGEST_ROW;
    for cell in cells {
        match bytes_left_after_cell(cell, left) {
            None => return None,
            Some(rest) => left = rest,
        }
    }
    Some(left)
}

/// What is left of this many bytes after the code of a cell. None where it has more.
pub fn bytes_left_after_cell(cell: &Value, left: usize) -> Option<usize>
    requires { left ≤ LONGEST_ROW }
    ensures { MatchOption result (left < length (cell_code cell.now))
        (λ rest. rest + length (cell_code cell.now) ≡ left) }
{
    match cell {
        Value::Null => left.checked_sub(1),
        Value::Int(_) => left.checked_sub(9),
        Value::Bool(_) => left.checked_sub(2),
        Value::Str(text) => bytes_left_after_bytes(text.as_str().as_bytes(), left),
        Value::Bytes(bytes) => bytes_left_after_bytes(bytes.as_slice(), left),
    }
}

fn bytes_left_after_bytes(bytes: &[u8], left: usize) -> Option<usize>
    requires { left ≤ LONGEST_ROW }
    ensures { MatchOption result (left < length bytes.now + 5) (λ rest. rest + (length bytes.now + 5) ≡ left) }
{
    if bytes.len() > left {
        return None;
    }
    left.checked_sub(bytes.len() + 5)
}

fn push_row(out: &mut Vec<u8>, cells: &[Value]) -> Result<(), AllocError>
    requires { length (row_code cells.now) ≤ LONGEST_ROW }
    ensures { OnOk result (out.new.items ≡ out.old.items ++ row_code cells.now) }
{
    for cell in cells {
        push_cell(out, cell)?;
    }
    Ok(())
}

/// Adds the code of a cell.
pub fn push_cell(out: &mut Vec<u8>, cell: &Value) -> Result<(), AllocError>
    requires { length (cell_code cell.now) ≤ LONGEST_ROW }
    ensures { OnOk result (out.new.items ≡ out.old.items ++ cell_code cell.now) }
{
    match cell {
        Value::Null => Ok(out.push(0)?),
        Value::Int(number) => push_number(out, number.cast_unsigned()),
        Value::Bool(flag) => {
            out.push(1)?;
            Ok(out.push(*flag as u8)?)
        }
        Value::Str(text) => push_bytes(out, text.as_str().as_bytes()),
        Value::Bytes(bytes) => push_bytes(out, bytes.as_slice()),
    }
}

fn push_number(out: &mut Vec<u8>, number: u64) -> Result<(), AllocError>
    ensures { OnOk result (out.new.items ≡ out.old.items ++ 1 ∷ to_be_bytes w64 number) }
{
    out.push(1)?;
    out.extend_from_slice(&number.to_be_bytes())
}

fn push_bytes(out: &mut Vec<u8>, bytes: &[u8]) -> Result<(), AllocError>
    requires { length bytes.now ≤ LONGEST_ROW }
    ensures { OnOk result (out.new.items ≡ out.old.items ++ bytes_code bytes.now) }
{
    out.push(1)?;
    out.extend_from_slice(&(bytes.len() as u32).to_be_bytes())?;
    out.extend_from_slice(bytes)
}
