//! The order of a root row's coded key and of bytes, without the coding being made.
//!
//! Each function here returns what follows a code at the front of bytes, or, where the bytes do not begin with the code, how the code
//! compares with them, whatever follows it.
ghost use Rattle.std.specs.Prelude.{◌≡◌, ◌∷◌, [], ◌++◌, MatchResult, length, take};
ghost use Rattle.std.specs.Int.{to_be_bytes, w64};
ghost use Rattle.span_schema.specs.Numbers.{key_columns, root_of};
ghost use Rattle.span_keycode.specs.Order.{byte_order};
ghost use Rattle.span_keycode.specs.Coding.{escaped, escaped_byte, in_direction, column_code, tuple_code};
ghost use Rattle.span_keycode.specs.RootOrder.{ComparesAs, root_code_of};

use crate::column::to_unsigned;
use crate::text::apply_direction;
use crate::value::after;
use span_schema::layout::KeyPart;
use span_schema::schema::Schema;
use span_value::value::Value;
use std::cmp::Ordering;

/// The order of bytes and of the coding of the key of the root row of a key of a table. No memory is taken: the coding is compared as
/// it would be made. A number that is no table's is its own root table, without key columns.
pub fn compare_root(schema: &Schema, table: usize, key: &[Value], other: &[u8]) -> Ordering
    ensures { result ≡ byte_order (root_code_of schema.now table key.now) other.now }
{
    let root = root_table(schema, table);
    match after_root(schema, root, key, other) {
        Ok(rest) => order_of_rest(rest),
        Err(order) => order,
    }
}

// The order of no bytes and of these.
fn order_of_rest(rest: &[u8]) -> Ordering
    ensures { result ≡ byte_order [] rest.now }
{
    if rest.len() == 0 {
        return Ordering::Equal;
    }
    Ordering::Less
}

// The root table of a table; for a number that is no table's itself, and for 0 the first table.
fn root_table(schema: &Schema, table: usize) -> usize
    ensures { result ≡ root_of schema.now table }
{
    let place = table.saturating_sub(1);
    if place < schema.len() {
        return schema.root_of(place + 1);
    }
    place + 1
}

// The columns of the key of a table; none where there is no such table.
fn key_parts(schema: &Schema, table: usize) -> &[KeyPart]
    ensures { result.now ≡ key_columns schema.now table }
{
    let place = table.saturating_sub(1);
    if place < schema.len() {
        return schema.key_columns(place + 1);
    }
    &[]
}

fn after_root<'a>(
    schema: &Schema,
    root: usize,
    key: &[Value],
    bytes: &'a [u8],
) -> Result<&'a [u8], Ordering>
    ensures { MatchResult result
        (λ rest. bytes.now ≡ (root ∷ tuple_code (key_columns schema.now root) key.now) ++ rest.now)
        (λ order. ComparesAs (root ∷ tuple_code (key_columns schema.now root) key.now) bytes.now order) }
{
    let rest = after_number(bytes, root)?;
    after_tuple(rest, key_parts(schema, root), key)
}

fn after_number(bytes: &[u8], number: usize) -> Result<&[u8], Ordering>
    ensures { MatchResult result
        (λ rest. bytes.now ≡ number ∷ rest.now)
        (λ order. ComparesAs (number ∷ []) bytes.now order) }
{
    if bytes.len() == 0 {
        return Err(Ordering::Greater);
    }
    let first = bytes[0] as usize;
    if first != number {
        return Err(number.cmp(&first));
    }
    Ok(after(bytes, 1))
}

fn after_directed(bytes: &[u8], byte: u8, desc: bool) -> Result<&[u8], Ordering>
    ensures { MatchResult result
        (λ rest. bytes.now ≡ in_direction desc (byte ∷ []) ++ rest.now)
        (λ order. ComparesAs (in_direction desc (byte ∷ [])) bytes.now order) }
{
    after_number(bytes, apply_direction(byte, desc) as usize)
}

fn after_escaped_byte(bytes: &[u8], byte: u8, desc: bool) -> Result<&[u8], Ordering>
    ensures { MatchResult result
        (λ rest. bytes.now ≡ in_direction desc (escaped_byte byte []) ++ rest.now)
        (λ order. ComparesAs (in_direction desc (escaped_byte byte [])) bytes.now order) }
{
    let rest = after_directed(bytes, byte, desc)?;
    if byte == 0 {
        return after_directed(rest, 255, desc);
    }
    Ok(rest)
}

fn after_escaped<'a>(bytes: &'a [u8], text: &[u8], desc: bool) -> Result<&'a [u8], Ordering>
    ensures { MatchResult result
        (λ rest. bytes.now ≡ in_direction desc (escaped text.now) ++ rest.now)
        (λ order. ComparesAs (in_direction desc (escaped text.now)) bytes.now order) }
{
    let mut rest = bytes;
    for byte in text {
        rest = after_escaped_byte(rest, *byte, desc)?;
    }
    rest = after_directed(rest, 0, desc)?;
    after_directed(rest, 1, desc)
}

fn after_all<'a>(bytes: &'a [u8], code: &[u8], desc: bool) -> Result<&'a [u8], Ordering>
    ensures { MatchResult result
        (λ rest. bytes.now ≡ in_direction desc code.now ++ rest.now)
        (λ order. ComparesAs (in_direction desc code.now) bytes.now order) }
{
    let mut rest = bytes;
    for byte in code {
        rest = after_directed(rest, *byte, desc)?;
    }
    Ok(rest)
}

fn after_value<'a>(bytes: &'a [u8], column: KeyPart, value: &Value) -> Result<&'a [u8], Ordering>
    ensures { MatchResult result
        (λ rest. bytes.now ≡ column_code column value.now ++ rest.now)
        (λ order. ComparesAs (column_code column value.now) bytes.now order) }
{
    let desc = column.desc;
    match value {
        Value::Null => after_directed(bytes, 0, desc),
        Value::Int(number) => after_number_code(bytes, to_unsigned(*number), desc),
        Value::Str(text) => after_text(bytes, text.as_str().as_bytes(), desc),
        Value::Bytes(text) => after_text(bytes, text.as_slice(), desc),
        Value::Bool(flag) => after_all(bytes, &[1, *flag as u8], desc),
    }
}

fn after_number_code(bytes: &[u8], number: u64, desc: bool) -> Result<&[u8], Ordering>
    ensures { MatchResult result
        (λ rest. bytes.now ≡ in_direction desc (1 ∷ to_be_bytes w64 number) ++ rest.now)
        (λ order. ComparesAs (in_direction desc (1 ∷ to_be_bytes w64 number)) bytes.now order) }
{
    let rest = after_directed(bytes, 1, desc)?;
    after_all(rest, &number.to_be_bytes(), desc)
}

fn after_text<'a>(bytes: &'a [u8], text: &[u8], desc: bool) -> Result<&'a [u8], Ordering>
    ensures { MatchResult result
        (λ rest. bytes.now ≡ in_direction desc (1 ∷ escaped text.now) ++ rest.now)
        (λ order. ComparesAs (in_direction desc (1 ∷ escaped text.now)) bytes.now order) }
{
    let rest = after_directed(bytes, 1, desc)?;
    after_escaped(rest, text, desc)
}

// Where there are more columns than values, or more values than columns, those are compared that have both.
fn after_tuple<'a>(
    bytes: &'a [u8],
    columns: &[KeyPart],
    values: &[Value],
) -> Result<&'a [u8], Ordering>
    ensures { MatchResult result
        (λ rest. bytes.now ≡ tuple_code columns.now values.now ++ rest.now)
        (λ order. ComparesAs (tuple_code columns.now values.now) bytes.now order) }
{
    let mut rest = bytes;
    for i in 0..columns.len().min(values.len()) {
        rest = after_value(rest, columns[i], &values[i])?;
    }
    Ok(rest)
}
