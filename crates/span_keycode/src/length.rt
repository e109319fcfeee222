//! The length of a coded key, without coding it.
ghost use Rattle.std.specs.Prelude.{◌≡◌, ◌+◌, ◌<◌, ◌≤◌, MatchOption, length};
ghost use Rattle.span_schema.specs.Numbers.{IsTable, key_columns};
ghost use Rattle.span_keycode.specs.Limits.{longest_key};
ghost use Rattle.span_keycode.specs.Coding.{escaped, plain};
ghost use Rattle.span_keycode.specs.Keys.{key_code, values_len};

use crate::key::LONGEST_KEY;
use span_schema::schema::Schema;
use span_value::value::Value;

/// How many bytes the coded key of a row of a table has, by its key values in the order of the key; None exactly
/// where there are more than 1,024, for which `encode_key` answers `KeyTooLong`. No memory is taken.
pub fn code_len(schema: &Schema, table: usize, values: &[Value]) -> Option<usize>
    requires table { IsTable schema.now table }
    requires values { length (key_columns schema.now table) ≡ length values.now }
    ensures { MatchOption result
        (longest_key < length (key_code schema.now table values.now))
        (λ len. (len ≡ length (key_code schema.now table values.now)) × (len ≤ longest_key)) }
{
    // One byte a level, the number of its table.
    let left = left_after(LONGEST_KEY, schema.path_of(table).len())?;
    let left = left_after_values(left, values)?;
    Some(LONGEST_KEY - left)
}

// The rest of a number of bytes after some of them; nothing where there are fewer.
fn left_after(left: usize, len: usize) -> Option<usize>
    ensures { MatchOption result (left < len) (λ rest. rest + len ≡ left) }
{
    if left < len {
        return None;
    }
    Some(left - len)
}

fn left_after_values(left: usize, values: &[Value]) -> Option<usize>
    ensures { MatchOption result (left < values_len values.now) (λ rest. rest + values_len values.now ≡ left) }
{
    let mut rest = left;
    for value in values {
        rest = left_after_value(rest, value)?;
    }
    Some(rest)
}

fn left_after_value(left: usize, value: &Value) -> Option<usize>
    ensures { MatchOption result (left < length (plain value.now)) (λ rest. rest + length (plain value.now) ≡ left) }
{
    match value {
        Value::Null => left_after(left, 1),
        Value::Int(_) => left_after(left, 9),
        Value::Str(text) => left_after_text(left, text.as_str().as_bytes()),
        Value::Bytes(bytes) => left_after_text(left, bytes.as_slice()),
        Value::Bool(_) => left_after(left, 2),
    }
}

// The first byte, the bytes, one more for each that is zero, and the two at the end.
fn left_after_text(left: usize, bytes: &[u8]) -> Option<usize>
    ensures { MatchOption result
        (left < 1 + length (escaped bytes.now))
        (λ rest. rest + (1 + length (escaped bytes.now)) ≡ left) }
{
    let zeros = zero_count(bytes);
    let left = left_after(left, bytes.len())?;
    let left = left_after(left, zeros)?;
    left_after(left, 3)
}

fn zero_count(bytes: &[u8]) -> usize
    ensures { result + length bytes.now + 2 ≡ length (escaped bytes.now) }
{
    let mut count = 0;
    for byte in bytes {
        if *byte == 0 {
            count += 1;
        }
    }
    count
}
