//! What is read of a table's coded keys: the columns, each with what is in front of its value and with the value's place in a row. They are written
//! out once, so that no table and no level is looked up for a key.
ghost use Rattle.std.specs.Prelude.{◌≡◌, ◌+◌, ◌<◌, ◌^◌, IfOk, MatchOption, length};
ghost use Rattle.span_rowreader.specs.Reads as spec;
ghost use Rattle.span_rowreader.specs.Reads.{AreReadsPut, IsNoRead, IsReadAdded, IsReadPut};

use super::keys::put_column;
use span_entries::steps::KeyStep;
use span_keycode::value::after;
use span_schema::layout::KeyPart;
use span_value::value::Value;
use std::alloc::{AllocError, Global};

/// A column of coded keys that is read.
#[derive(Clone, Copy, Debug)]
pub(crate) struct KeyRead {
    /// How many numbers of tables are between the value of the column before and its own.
    pub above: usize,
    pub column: KeyPart,
    /// The place of its value in a row, or a place after all of them.
    pub place: usize,
}

/// Adds the column of a step to those that are read, where it is one; returns how many numbers of tables are in front of the next column.
#[tactic(auto, using(crate::proofs::KeyReads::table_added))]
fn add_read(
    reads: &mut Vec<KeyRead>,
    step: KeyStep,
    places: &[usize],
    above: usize,
) -> Result<usize, AllocError>
    requires { above + 1 < 2 ^ 64 }
    ensures { IfOk result (λ next. IsReadAdded step above places.now reads.old.items reads.new.items next) }
{
    match step {
        KeyStep::Table(_) => Ok(above + 1),
        KeyStep::Column(column) => add_column(reads, column, places, above),
    }
}

/// Adds a column to those that are read, at the next of the places.
#[tactic(auto, using(crate::proofs::KeyReads::no_place_left, crate::proofs::KeyReads::column_added))]
fn add_column(
    reads: &mut Vec<KeyRead>,
    column: KeyPart,
    places: &[usize],
    above: usize,
) -> Result<usize, AllocError>
    ensures { IfOk result (λ next. spec.IsColumnAdded column above places.now reads.old.items reads.new.items next) }
{
    let at = reads.len();
    if at >= places.len() {
        return Ok(above);
    }
    reads.push(KeyRead {
        above,
        column,
        place: places[at],
    })?;
    Ok(0)
}

/// The columns of the steps of a table's coded keys, with a place for each.
pub(crate) fn key_reads(
    alloc: Global,
    steps: &[KeyStep],
    places: &[usize],
) -> Result<Vec<KeyRead>, AllocError>
    ensures { IfOk result (λ reads. reads.items ≡ spec.key_reads steps.now 0 places.now) }
{
    let mut reads = Vec::new(alloc);
    let mut above = 0;
    for step in steps {
        above = add_read(&mut reads, *step, places, above)?;
    }
    Ok(reads)
}

/// Puts the value of a column at its place, if it is wanted, and returns how many bytes code it with what is in front of it. None if no value of the
/// column is coded there.
fn put_read(
    alloc: Global,
    read: KeyRead,
    wanted: &[bool],
    bytes: &[u8],
    row: &mut Vec<Value>,
) -> Result<Option<usize>, AllocError>
    ensures { IfOk result
        (λ found.
        MatchOption found
        (IsNoRead read bytes.now)
        (λ n. IsReadPut wanted.now read bytes.now row.old.items row.new.items n)) }
{
    if bytes.len() < read.above {
        return Ok(None);
    }
    match put_column(
        alloc,
        read.column,
        read.place,
        wanted,
        after(bytes, read.above),
        row,
    )? {
        None => Ok(None),
        Some(width) => Ok(Some(width + read.above)),
    }
}

/// Puts the wanted values of a coded key at their places. What is after the last column that is read is not looked at. False only where the bytes
/// code no such key; where it is true they may code none either.
pub(crate) fn put_key(
    alloc: Global,
    reads: &[KeyRead],
    wanted: &[bool],
    key: &[u8],
    row: &mut Vec<Value>,
) -> Result<bool, AllocError>
    ensures { IfOk result (λ found. AreReadsPut reads.now wanted.now key.now row.old.items row.new.items found) }
{
    let mut at = 0;
    for i in 0..reads.len() {
        match put_read(alloc, reads[i], wanted, after(key, at), row)? {
            None => return Ok(false),
            Some(width) => at += width,
        }
    }
    Ok(true)
}
