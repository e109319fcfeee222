//! Rows of tables read straight into a list of rows: NULLs are added first, and then each value is put at its place in the last row.
ghost use Rattle.std.specs.Prelude.{◌≡◌, ◌≤◌, IfOk, MatchOption, drop, length, replicate, true};
ghost use Rattle.span_value.specs.declared.value.Value.TheVariants.{Int};
ghost use Rattle.span_rowcode.specs.declared.pack.TheConstants.{LONGEST_ROW};
ghost use Rattle.span_rowcode.specs.Rows.{IsNoCell};
ghost use Rattle.span_rowreader.specs.Added.{IsCellPutInLast, IsLastPut, AreLastCellsPut};
ghost use Rattle.span_rowreader.specs.KeyNumbers.{AreNumbersPut, AreWithin};
ghost use Rattle.span_rowreader.specs.Placed.{is_wanted, wants_none};

use super::key_numbers::KeyNumbers;
use super::number::{cell_number, number_at};
use super::place::is_among;
use span_rowcode::cell::{after, lent_text, read_cell, skip_cell};
use span_rowcode::pack::LONGEST_ROW;
use span_rows::row_list::RowList;
use span_value::value::Kind;
use std::alloc::{AllocError, Global};

/// Puts the numbers of a whole key at their places in the last row, which has a number of values.
pub(crate) fn put_last_numbers(numbers: &KeyNumbers, key: &[u8], width: usize, rows: &mut RowList)
    requires len { numbers.now.len ≡ length key.now }
    requires within { AreWithin numbers.now.len numbers.now.each }
    ensures { IsLastPut width (AreNumbersPut numbers.now.each key.now) rows.old rows.new }
{
    for number in numbers.each.as_slice() {
        rows.put_number(width, number.place, number_at(key, number.at, number.desc));
    }
}

/// Puts the cell of a kind at the front of bytes at its place in the last row, if it is wanted and a number, and returns how many bytes code it. A
/// cell that is not wanted is skipped. None where the cell is wanted and no number.
fn put_last_number(
    kind: Kind,
    place: usize,
    wanted: &[bool],
    bytes: &[u8],
    rows: &mut RowList,
) -> Option<usize>
    requires bytes { length bytes.now ≤ LONGEST_ROW }
    requires all { wanted.now ≡ replicate (length wanted.now) true }
    ensures { MatchOption result
        ((rows.new ≡ rows.old) × (is_wanted wanted.now place ≡ true))
        (λ n. IsCellPutInLast wanted.now kind place bytes.now rows.old rows.new n) }
{
    if !is_among(wanted, place) {
        return Some(skip_cell(kind, bytes));
    }
    match cell_number(kind, bytes) {
        Some(number) => {
            rows.put_number(wanted.len(), place, number);
            Some(9)
        }
        None => None,
    }
}

/// The same of any cell that is wanted. None if no cell of the kind is coded there.
#[inline(never)]
fn put_last_cell(
    alloc: Global,
    kind: Kind,
    place: usize,
    wanted: &[bool],
    bytes: &[u8],
    rows: &mut RowList,
) -> Result<Option<usize>, AllocError>
    requires bytes { length bytes.now ≤ LONGEST_ROW }
    requires wanted { is_wanted wanted.now place ≡ true }
    ensures { IfOk result
        (λ found.
        MatchOption found
        ((rows.new ≡ rows.old) × IsNoCell kind bytes.now)
        (λ n. IsCellPutInLast wanted.now kind place bytes.now rows.old rows.new n)) }
{
    if let Kind::Str = kind {
        if let Some((text, width)) = lent_text(bytes) {
            rows.put_text(alloc, wanted.len(), place, text)?;
            return Ok(Some(width));
        }
    }
    match read_cell(alloc, kind, bytes)? {
        None => Ok(None),
        Some((value, width)) => {
            rows.put_value(wanted.len(), place, value);
            Ok(Some(width))
        }
    }
}

/// Puts the wanted cells of a packed row at their places in the last row; `count` is how many cells there are up to the last that is wanted, and
/// those after it are not looked at. False only where the bytes are no packed row of the kinds; where it is true they may be none either.
pub(crate) fn put_last_cells(
    alloc: Global,
    kinds: &[Kind],
    places: &[usize],
    wanted: &[bool],
    count: usize,
    bytes: &[u8],
    rows: &mut RowList,
) -> Result<bool, AllocError>
    requires all { wanted.now ≡ replicate (length wanted.now) true }
    requires kinds { count ≤ length kinds.now }
    requires places { count ≤ length places.now }
    requires rest { wants_none wanted.now (drop count places.now) ≡ true }
    ensures { IfOk result (AreLastCellsPut kinds.now places.now wanted.now bytes.now rows.old rows.new) }
{
    if bytes.len() > LONGEST_ROW {
        return Ok(false);
    }
    let mut at = 0;
    for i in 0..count {
        let cell = after(bytes, at);
        if let Some(width) = put_last_number(kinds[i], places[i], wanted, cell, rows) {
            at += width;
            continue;
        }
        match put_last_cell(alloc, kinds[i], places[i], wanted, cell, rows)? {
            None => return Ok(false),
            Some(width) => at += width,
        }
    }
    Ok(true)
}
