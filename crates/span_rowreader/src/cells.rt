//! Packed cells, read straight into their places in a row.
ghost use Rattle.std.specs.Prelude.{◌≡◌, ◌≤◌, IfOk, MatchOption, drop, length, replicate, true};
ghost use Rattle.span_rowcode.specs.declared.pack.TheConstants.{LONGEST_ROW};
ghost use Rattle.span_rowcode.specs.Rows.{IsNoCell};
ghost use Rattle.span_rowreader.specs.Placed.{IsCellPut, IsCellRead, AreCellsPut, is_wanted, wants_none};

use super::number::cell_number;
use super::place::{is_among, put_number, put_value};
use span_rowcode::cell::{after, read_cell, skip_cell};
use span_rowcode::pack::LONGEST_ROW;
use span_value::value::{Kind, Value};
use std::alloc::{AllocError, Global};

/// Puts the cell of a kind at the front of bytes at its place, which is wanted, by the value that it is.
#[inline(never)]
fn put_any_cell(
    alloc: Global,
    kind: Kind,
    place: usize,
    bytes: &[u8],
    row: &mut Vec<Value>,
) -> Result<Option<usize>, AllocError>
    requires { length bytes.now ≤ LONGEST_ROW }
    ensures { IfOk result
        (λ found.
        MatchOption found (IsNoCell kind bytes.now)
        (λ n. IsCellRead kind place bytes.now row.old.items row.new.items n)) }
{
    match read_cell(alloc, kind, bytes)? {
        None => Ok(None),
        Some((value, width)) => {
            put_value(row, place, value);
            Ok(Some(width))
        }
    }
}

/// Puts the cell of a kind at the front of bytes at its place, if it is wanted and a number, and returns how many bytes code it. A cell that is not
/// wanted is skipped. None where the cell is wanted and no number.
fn put_number_cell(
    kind: Kind,
    place: usize,
    wanted: &[bool],
    bytes: &[u8],
    row: &mut Vec<Value>,
) -> Option<usize>
    requires bytes { length bytes.now ≤ LONGEST_ROW }
    requires all { wanted.now ≡ replicate (length wanted.now) true }
    ensures { MatchOption result
        ((row.new.items ≡ row.old.items) × (is_wanted wanted.now place ≡ true))
        (λ n. IsCellPut wanted.now kind place bytes.now row.old.items row.new.items n) }
{
    if !is_among(wanted, place) {
        return Some(skip_cell(kind, bytes));
    }
    match cell_number(kind, bytes) {
        Some(number) => {
            put_number(row, place, number);
            Some(9)
        }
        None => None,
    }
}

/// Puts the wanted cells of a packed row, one of each kind, at their places; `count` is how many cells there are up to the last that is
/// wanted, and those after it are not looked at. False only where the bytes are no packed row of the kinds; where it is true they may
/// be none either.
pub(crate) fn put_cells(
    alloc: Global,
    kinds: &[Kind],
    places: &[usize],
    wanted: &[bool],
    count: usize,
    bytes: &[u8],
    row: &mut Vec<Value>,
) -> Result<bool, AllocError>
    requires all { wanted.now ≡ replicate (length wanted.now) true }
    requires kinds { count ≤ length kinds.now }
    requires places { count ≤ length places.now }
    requires rest { wants_none wanted.now (drop count places.now) ≡ true }
    ensures { IfOk result
        (λ found. AreCellsPut kinds.now places.now wanted.now bytes.now row.old.items row.new.items found) }
{
    if bytes.len() > LONGEST_ROW {
        return Ok(false);
    }
    let mut at = 0;
    for i in 0..count {
        let cell = after(bytes, at);
        if let Some(width) = put_number_cell(kinds[i], places[i], wanted, cell, row) {
            at += width;
            continue;
        }
        match put_any_cell(alloc, kinds[i], places[i], cell, row)? {
            None => return Ok(false),
            Some(width) => at += width,
        }
    }
    Ok(true)
}
