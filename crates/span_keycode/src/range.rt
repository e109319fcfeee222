//! Ranges of coded keys, for a comparison with the first key column of a root table.
ghost use Rattle.std.specs.Prelude.{◌≡◌, ◌<◌, IfOk};
ghost use Rattle.span_keycode.specs.Ranges.{next_after, low_of, high_of, is_null, range_start, range_end, IsKept};

use crate::column::push_value;
use crate::key::Key;
use smallvec::SmallVec;
use span_schema::layout::KeyPart;
use span_value::value::Value;
use std::alloc::{AllocError, Global};

/// How a column is compared with a value.
#[derive(Clone, Copy, Debug, PartialEq, Eq)]
pub enum RangeComparison {
    Equal,
    Less,
    AtMost,
    Greater,
    AtLeast,
}

/// The bytes from `low` on and before `high`. There are none where `high` is not above `low`.
#[derive(Debug, Drop)]
pub struct KeyRange {
    pub low: Key,
    pub high: Key,
}

/// The range of the coded keys of a family in which the first key column of the root table compares so with a value: none where
/// the value is NULL. `table` is the root table's number, `column` its first key column.
pub fn range_of(
    alloc: Global,
    table: u8,
    column: KeyPart,
    comparison: RangeComparison,
    value: &Value,
) -> Result<KeyRange, AllocError>
    requires { table < 255 }
    ensures { IfOk result
        (λ range.
        (range.low ≡ range_start table column comparison value.now)
        × (range.high ≡ range_end table column comparison value.now)) }
{
    if is_null(value) {
        return Ok(KeyRange {
            low: Key::from_slice(alloc, &[])?,
            high: Key::from_slice(alloc, &[])?,
        });
    }
    let mut code = SmallVec::new(alloc);
    code.push(table)?;
    push_value(&mut code, column, value)?;
    Ok(KeyRange {
        low: low_key(alloc, table, column.desc, comparison, code.as_slice())?,
        high: high_key(alloc, table, column.desc, comparison, code.as_slice())?,
    })
}

fn is_null(value: &Value) -> bool
    ensures { result ≡ is_null value.now }
{
    matches!(value, Value::Null)
}

fn low_key(
    alloc: Global,
    table: u8,
    desc: bool,
    comparison: RangeComparison,
    code: &[u8],
) -> Result<Key, AllocError>
    ensures { IfOk result (λ key. key ≡ low_of table desc comparison code.now) }
{
    match (desc, comparison) {
        (_, RangeComparison::Equal) => Key::from_slice(alloc, code),
        (false, RangeComparison::Less) => Key::from_slice(alloc, &[table, 1]),
        (false, RangeComparison::AtMost) => Key::from_slice(alloc, &[table, 1]),
        (false, RangeComparison::Greater) => key_after(alloc, code),
        (false, RangeComparison::AtLeast) => Key::from_slice(alloc, code),
        (true, RangeComparison::Less) => key_after(alloc, code),
        (true, RangeComparison::AtMost) => Key::from_slice(alloc, code),
        (true, RangeComparison::Greater) => Key::from_slice(alloc, &[table, 254]),
        (true, RangeComparison::AtLeast) => Key::from_slice(alloc, &[table, 254]),
    }
}

fn high_key(
    alloc: Global,
    table: u8,
    desc: bool,
    comparison: RangeComparison,
    code: &[u8],
) -> Result<Key, AllocError>
    requires { table < 255 }
    ensures { IfOk result (λ key. key ≡ high_of table desc comparison code.now) }
{
    match (desc, comparison) {
        (_, RangeComparison::Equal) => key_after(alloc, code),
        (false, RangeComparison::Less) => Key::from_slice(alloc, code),
        (false, RangeComparison::AtMost) => key_after(alloc, code),
        (false, RangeComparison::Greater) => Key::from_slice(alloc, &[table + 1]),
        (false, RangeComparison::AtLeast) => Key::from_slice(alloc, &[table + 1]),
        (true, RangeComparison::Less) => Key::from_slice(alloc, &[table, 255]),
        (true, RangeComparison::AtMost) => Key::from_slice(alloc, &[table, 255]),
        (true, RangeComparison::Greater) => Key::from_slice(alloc, code),
        (true, RangeComparison::AtLeast) => key_after(alloc, code),
    }
}

// The first bytes after all that begin with these: without the bytes 255 at the end, and 1 added to the last.
fn key_after(alloc: Global, code: &[u8]) -> Result<Key, AllocError>
    ensures { IfOk result (λ key. key ≡ next_after code.now) }
{
    let kept = kept_len(code);
    if kept == 0 {
        return Key::from_slice(alloc, &[]);
    }
    let mut bytes = SmallVec::from_slice(alloc, &code[..kept - 1])?;
    bytes.push(code[kept - 1] + 1)?;
    Ok(Key::from_small_vec(bytes))
}

// How many bytes are left without those of 255 at the end.
fn kept_len(code: &[u8]) -> usize
    ensures { IsKept code.now result }
{
    let mut kept = code.len();
    while kept > 0 && code[kept - 1] == 255 {
        kept -= 1;
    }
    kept
}
