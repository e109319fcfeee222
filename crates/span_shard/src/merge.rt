//! The packed row of the cells that a mutation names, over those that were there. No cell is copied.
ghost use Rattle.std.specs.Prelude.{◌≡◌, ◌+◌, ◌<◌, ◌≤◌, ◌++◌, MatchOption, MatchResult, OnOk, length};
ghost use Rattle.std.specs.Option.{option_copied, unwrap_or};
ghost use Rattle.span_rowcode.specs.Rows.{cell_code, row_code};
ghost use Rattle.span_rowcode.specs.declared.pack.TheConstants.{LONGEST_ROW};
ghost use Rattle.span_mutate.specs.Database.{merge_cells};
ghost use Rattle.span_shard.specs.Overlay.{IsMergedRow, IsMergeRefused};

use span_rowcode::pack::{LONGEST_ROW, bytes_left_after_cell, push_cell};
use span_value::refusal::Refusal;
use span_value::value::Value;
use std::alloc::{AllocError, Global};

/// The packed row of the cells of a row once those that are named have changed: what is not named is kept, or NULL where there is no
/// row. `RowTooLong`: it has too many bytes. `OutOfMemory`: memory ran out.
pub(crate) fn pack_merged(
    alloc: Global,
    named: &[Option<Value>],
    old: &[Value],
) -> Result<Vec<u8>, Refusal>
    ensures { MatchResult result
        (λ bytes. IsMergedRow named.now old.now bytes.items)
        (λ why. IsMergeRefused named.now old.now why) }
{
    match bytes_left(named, old) {
        None => Err(Refusal::RowTooLong),
        Some(left) => {
            let mut bytes = Vec::with_capacity(alloc, LONGEST_ROW - left)?;
            push_row(&mut bytes, named, old)?;
            Ok(bytes)
        }
    }
}

// What is left of the most bytes.
fn bytes_left(named: &[Option<Value>], old: &[Value]) -> Option<usize>
    ensures { MatchOption result
        (LONGEST_ROW < length (row_code (merge_cells named.now old.now)))
        (λ left. left + length (row_code (merge_cells named.now old.now)) ≡ LONGEST_ROW) }
{
    let mut left = LONGEST_ROW;
    for i in 0..named.len() {
        match bytes_left_after(&named[i], old.get(i), left) {
            None => return None,
            Some(rest) => left = rest,
        }
    }
    Some(left)
}

// What is left after a column's value: the one that is named, else the one that was there.
fn bytes_left_after(named: &Option<Value>, old: Option<&Value>, left: usize) -> Option<usize>
    requires { left ≤ LONGEST_ROW }
    ensures { MatchOption result
        (left < length (cell_code (unwrap_or named.now (unwrap_or (option_copied old.entry) Value.Null))))
        (λ rest.
        rest + length (cell_code (unwrap_or named.now (unwrap_or (option_copied old.entry) Value.Null)))
        ≡ left) }
{
    match (named, old) {
        (Some(value), _) => bytes_left_after_cell(value, left),
        (None, Some(value)) => bytes_left_after_cell(value, left),
        (None, None) => bytes_left_after_cell(&Value::Null, left),
    }
}

fn push_row(out: &mut Vec<u8>, named: &[Option<Value>], old: &[Value]) -> Result<(), AllocError>
    requires { length (row_code (merge_cells named.now old.now)) ≤ LONGEST_ROW }
    ensures { OnOk result (out.new.items ≡ out.old.items ++ row_code (merge_cells named.now old.now)) }
{
    for i in 0..named.len() {
        push_value(out, &named[i], old.get(i))?;
    }
    Ok(())
}

// Adds a column's value: the one that is named, else the one that was there.
fn push_value(
    out: &mut Vec<u8>,
    named: &Option<Value>,
    old: Option<&Value>,
) -> Result<(), AllocError>
    requires { length (cell_code (unwrap_or named.now (unwrap_or (option_copied old) Value.Null))) ≤ LONGEST_ROW }
    ensures { OnOk result
        (out.new.items
        ≡ out.old.items ++ cell_code (unwrap_or named.now (unwrap_or (option_copied old.entry) Value.Null))) }
{
    match (named, old) {
        (Some(value), _) => push_cell(out, value),
        (None, Some(value)) => push_cell(out, value),
        (None, None) => push_cell(out, &Value::Null),
    }
}
