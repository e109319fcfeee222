//! Numbers that are in the order of values.
ghost use Rattle.std.specs.Prelude.{◌≡◌, ◌≤◌, ◌*◌, ◌^◌, FitsSigned, slice_index_or, true};
ghost use Rattle.std.specs.Int.{w64};
ghost use Rattle.span_sorting.specs.Codes.{AreBytes, IsInRange, code_of, is_exact, key_code, next_code, to_unsigned, value_at, with_bytes};

use span_query::query::SortKey;
use span_value::value::Value;

/// One more than the greatest code.
const END_OF_CODES: u128 = 5 << 64;

/// How many bytes of a string are in its code.
const CODED_BYTES: usize = 8;

/// A number moved up, so that it is never below 0.
fn to_unsigned(number: i64) -> u128
    ensures code { result ≡ to_unsigned number }
    ensures range { FitsSigned w64 number }
{
    if number < 0 {
        (number + i64::MAX + 1) as u128
    } else {
        number as u128 + (1 << 63)
    }
}

/// The byte at a place, or 0.
fn byte_at(bytes: &[u8], place: usize) -> u8
    ensures { result ≡ slice_index_or bytes.now place 0 }
{
    if place < bytes.len() { bytes[place] } else { 0 }
}

/// The rank of a kind, with the first bytes of a string as its last digits.
fn with_bytes(rank: u8, bytes: &[u8]) -> u128
    requires { rank ≤ 4 }
    ensures code { result ≡ with_bytes 8 rank bytes.now }
    ensures range { AreBytes bytes.now }
{
    let mut code = rank as u128;
    for place in 0..CODED_BYTES {
        code = code * 256 + byte_at(bytes, place) as u128;
    }
    code
}

/// A number that rises with the value: the rank of its kind, and then 64 bits. Of a string, these are its first eight bytes.
fn code_of(value: &Value) -> u128
    ensures code { result ≡ code_of value.now }
    ensures range { IsInRange value.now }
    ensures end { result ≤ 5 * 2 ^ 64 }
{
    match value {
        Value::Null => 0,
        Value::Bool(false) => 1 << 64,
        Value::Bool(true) => (1 << 64) + 1,
        Value::Int(number) => (2 << 64) + to_unsigned(*number),
        Value::Str(text) => with_bytes(3, text.as_str().as_bytes()),
        Value::Bytes(bytes) => with_bytes(4, bytes.as_slice()),
    }
}

/// Whether values of this kind that have one code are the same.
fn is_exact(value: &Value) -> bool
    ensures { result ≡ is_exact value.now }
{
    match value {
        Value::Null | Value::Bool(_) | Value::Int(_) => true,
        Value::Str(_) | Value::Bytes(_) => false,
    }
}

/// The code of a row at a key. It falls as the values rise, where they descend.
pub(crate) fn key_code(key: &SortKey, row: &[Value]) -> u128
    ensures code { result ≡ key_code key.now row.now }
    ensures range { IsInRange (value_at key.now row.now) }
{
    let null = Value::Null;
    let code = code_of(row.get(key.column).unwrap_or(&null));
    if key.is_descending {
        END_OF_CODES - code
    } else {
        code
    }
}

/// Whether the code of a row at a key is that of no other value of the kind.
pub(crate) fn is_exact_at(key: &SortKey, row: &[Value]) -> bool
    ensures { result ≡ is_exact (value_at key.now row.now) }
{
    let null = Value::Null;
    is_exact(row.get(key.column).unwrap_or(&null))
}

/// The code of a row at the second of two keys, or 0 where that at the first is not exact.
pub(crate) fn next_code(key: &SortKey, next: &SortKey, row: &[Value]) -> u128
    ensures code { result ≡ next_code key.now next.now row.now }
    ensures range { is_exact (value_at key.now row.now) ≡ true → IsInRange (value_at next.now row.now) }
{
    if is_exact_at(key, row) {
        key_code(next, row)
    } else {
        0
    }
}
