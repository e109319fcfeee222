//! The numbers of a table's whole keys, each at one place: a key without NULL, all of whose columns are of numbers, has a byte for each level and
//! nine for each number. So they are read with no walk over the columns.
ghost use Rattle.std.specs.Prelude.{◌≡◌, ◌+◌, ◌≤◌, IfOk, IfSome, length};
ghost use Rattle.span_schema.specs.Numbers.{IsTable};
ghost use Rattle.span_rowreader.specs.KeyNumbers.{AreNumbersOf, AreNumbersPut, AreWholeNumbers, AreWithin, IsNumberAdded};

use super::number::number_at;
use super::place::{is_wanted, put_number};
use super::reads::KeyRead;
use span_entries::whole_key::whole_key;
use span_schema::schema::Schema;
use span_value::seq::Seq;
use span_value::value::Value;
use std::alloc::{AllocError, Global};

/// A number that is read of whole keys.
#[derive(Clone, Copy, Debug)]
pub(crate) struct KeyNumber {
    /// The place in a key of the nine bytes that code it.
    pub at: usize,
    pub desc: bool,
    /// Its place in a row.
    pub place: usize,
}

/// The numbers that are read of the whole keys of a table.
#[derive(Debug, Drop)]
pub(crate) struct KeyNumbers {
    /// How many bytes code a whole key.
    pub len: usize,
    pub each: Seq<KeyNumber>,
}

/// The place after the nine bytes of a number that begins some bytes after a place. None where keys of a length do not have them.
fn number_end(at: usize, above: usize, len: usize) -> Option<usize>
    ensures { IfSome result (λ next. (next ≡ at + above + 9) × (next ≤ len)) }
{
    let start = at.checked_add(above)?;
    let next = start.checked_add(9)?;
    if next > len {
        return None;
    }
    Some(next)
}

/// Adds the number of a column to those that are read, where the mask has its place; returns where the next column begins. None where keys of a
/// length do not have its bytes.
fn add_number(
    each: &mut Vec<KeyNumber>,
    read: KeyRead,
    at: usize,
    len: usize,
    wanted: &[bool],
) -> Result<Option<usize>, AllocError>
    ensures { IfOk result
        (λ found. IfSome found (IsNumberAdded read at len wanted.now each.old.items each.new.items)) }
{
    let Some(next) = number_end(at, read.above, len) else {
        return Ok(None);
    };
    if !is_wanted(wanted, read.place) {
        return Ok(Some(next));
    }
    each.push(KeyNumber {
        at: at + read.above,
        desc: read.column.desc,
        place: read.place,
    })?;
    Ok(Some(next))
}

/// The numbers of columns, each of which is coded in nine bytes, where the mask has their places. None where keys of a length do not have their
/// bytes.
fn numbers_of(
    alloc: Global,
    reads: &[KeyRead],
    wanted: &[bool],
    len: usize,
) -> Result<Option<KeyNumbers>, AllocError>
    ensures { IfOk result (λ found. IfSome found (AreNumbersOf reads.now wanted.now len)) }
{
    let mut each = Vec::new(alloc);
    let mut at = 0;
    for read in reads {
        match add_number(&mut each, *read, at, len, wanted)? {
            None => return Ok(None),
            Some(next) => at = next,
        }
    }
    Ok(Some(KeyNumbers {
        len,
        each: Seq::from_vec(each),
    }))
}

/// The numbers that are read of the whole keys of a table, where the mask has their places. None where a column of the keys is not of numbers.
#[tactic(auto, using(crate::proofs::NumberPlaces::numbers_are))]
pub(crate) fn key_numbers(
    alloc: Global,
    schema: &Schema,
    table: usize,
    reads: &[KeyRead],
    wanted: &[bool],
) -> Result<Option<KeyNumbers>, AllocError>
    requires { IsTable schema.now table }
    ensures { IfOk result (AreWholeNumbers schema.now table wanted.now reads.now) }
{
    schema.meets_rules();
    let Some(whole) = whole_key(schema, table) else {
        return Ok(None);
    };
    numbers_of(alloc, reads, wanted, whole.len)
}

/// Puts the numbers of a whole key at their places.
pub(crate) fn put_numbers(numbers: &KeyNumbers, key: &[u8], row: &mut Vec<Value>)
    requires len { numbers.now.len ≡ length key.now }
    requires within { AreWithin numbers.now.len numbers.now.each }
    ensures { AreNumbersPut numbers.now.each key.now row.old.items row.new.items }
{
    for number in numbers.each.as_slice() {
        put_number(row, number.place, number_at(key, number.at, number.desc));
    }
}
