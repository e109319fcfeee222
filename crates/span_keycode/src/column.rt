//! The coding of one column's value.
ghost use Rattle.std.specs.Prelude.{◌≡◌, ◌≤◌, ◌++◌, ◌∷◌, [], OnOk, OnErr, IsTrue, length};
ghost use Rattle.span_keycode.specs.Limits.{IsTooLong};
ghost use Rattle.std.specs.Int.{to_be_bytes, w64};
ghost use Rattle.span_keycode.specs.Coding.{to_unsigned, escaped, escaped_byte, in_direction, column_code, tuple_code, are_of_kinds, AreFit};

use crate::key::INLINE_BYTES;
use crate::text::apply_direction;
use smallvec::SmallVec;
use span_schema::fitting::is_of_kind;
use span_schema::layout::KeyPart;
use span_value::value::Value;
use std::alloc::AllocError;

type Bytes = SmallVec<u8, INLINE_BYTES>;

/// Whether there is one value for each column, NULL or of its kind. Then each fits its column.
pub fn have_kinds(columns: &[KeyPart], values: &[Value]) -> bool
    ensures kinds { result ≡ are_of_kinds columns.now values.now }
    ensures fits { IsTrue result → AreFit columns.now values.now }
{
    if columns.len() != values.len() {
        return false;
    }
    for i in 0..columns.len() {
        if !is_of_kind(columns[i].kind, &values[i]) {
            return false;
        }
    }
    true
}

pub(crate) fn to_unsigned(number: i64) -> u64
    ensures { result ≡ to_unsigned number }
{
    if number < 0 {
        (number + i64::MAX + 1) as u64
    } else {
        number as u64 + (1 << 63)
    }
}

fn push_directed(out: &mut Bytes, byte: u8, desc: bool) -> Result<(), AllocError>
    ensures bytes { OnOk result (out.new.items ≡ out.old.items ++ in_direction desc (byte ∷ [])) }
    ensures capacity { out.old.capacity ≤ out.new.capacity }
    ensures memory { OnErr result (IsTooLong out.old (in_direction desc (byte ∷ []))) }
{
    out.push(apply_direction(byte, desc))?;
    Ok(())
}

fn push_escaped_byte(out: &mut Bytes, byte: u8, desc: bool) -> Result<(), AllocError>
    ensures bytes { OnOk result (out.new.items ≡ out.old.items ++ in_direction desc (escaped_byte byte [])) }
    ensures capacity { out.old.capacity ≤ out.new.capacity }
    ensures memory { OnErr result (IsTooLong out.old (in_direction desc (escaped_byte byte []))) }
{
    push_directed(out, byte, desc)?;
    if byte == 0 {
        return push_directed(out, 255, desc);
    }
    Ok(())
}

fn push_escaped(out: &mut Bytes, bytes: &[u8], desc: bool) -> Result<(), AllocError>
    ensures bytes { OnOk result (out.new.items ≡ out.old.items ++ in_direction desc (escaped bytes.now)) }
    ensures capacity { out.old.capacity ≤ out.new.capacity }
    ensures memory { OnErr result (IsTooLong out.old (in_direction desc (escaped bytes.now))) }
{
    for byte in bytes {
        push_escaped_byte(out, *byte, desc)?;
    }
    push_directed(out, 0, desc)?;
    push_directed(out, 1, desc)
}

fn push_all(out: &mut Bytes, bytes: &[u8], desc: bool) -> Result<(), AllocError>
    ensures bytes { OnOk result (out.new.items ≡ out.old.items ++ in_direction desc bytes.now) }
    ensures capacity { out.old.capacity ≤ out.new.capacity }
    ensures memory { OnErr result (IsTooLong out.old (in_direction desc bytes.now)) }
{
    if !desc {
        return out.extend_from_slice(bytes);
    }
    for byte in bytes {
        push_directed(out, *byte, desc)?;
    }
    Ok(())
}

// The byte of a value that is not NULL, and the eight of a number: at once, since an ascending number is most of all keys.
fn push_number(out: &mut Bytes, number: u64, desc: bool) -> Result<(), AllocError>
    ensures bytes { OnOk result (out.new.items ≡ out.old.items ++ in_direction desc (1 ∷ to_be_bytes w64 number)) }
    ensures capacity { out.old.capacity ≤ out.new.capacity }
    ensures memory { OnErr result (IsTooLong out.old (in_direction desc (1 ∷ to_be_bytes w64 number))) }
{
    push_all(out, &number_code(number), desc)
}

fn number_code(number: u64) -> [u8; 9]
    ensures { result ≡ 1 ∷ to_be_bytes w64 number }
{
    let [a, b, c, d, e, f, g, h] = number.to_be_bytes();
    [1, a, b, c, d, e, f, g, h]
}

/// Adds the coding of a column's value. Memory runs out only where it does not fit into what is there, and may leave a part of it.
pub(crate) fn push_value(out: &mut Bytes, column: KeyPart, value: &Value) -> Result<(), AllocError>
    ensures bytes { OnOk result (out.new.items ≡ out.old.items ++ column_code column value.now) }
    ensures capacity { out.old.capacity ≤ out.new.capacity }
    ensures memory { OnErr result (IsTooLong out.old (column_code column value.now)) }
{
    let desc = column.desc;
    match value {
        Value::Null => push_directed(out, 0, desc),
        Value::Int(number) => push_number(out, to_unsigned(*number), desc),
        Value::Str(text) => {
            push_directed(out, 1, desc)?;
            push_escaped(out, text.as_str().as_bytes(), desc)
        }
        Value::Bytes(bytes) => {
            push_directed(out, 1, desc)?;
            push_escaped(out, bytes.as_slice(), desc)
        }
        Value::Bool(flag) => {
            push_directed(out, 1, desc)?;
            push_directed(out, *flag as u8, desc)
        }
    }
}

/// Adds the codings of columns, one value for each. Memory runs out only where they do not fit into what is there, and may leave a
/// part of them.
pub(crate) fn push_tuple(
    out: &mut Bytes,
    columns: &[KeyPart],
    values: &[Value],
) -> Result<(), AllocError>
    requires { length columns.now ≡ length values.now }
    ensures bytes { OnOk result (out.new.items ≡ out.old.items ++ tuple_code columns.now values.now) }
    ensures capacity { out.old.capacity ≤ out.new.capacity }
    ensures memory { OnErr result (IsTooLong out.old (tuple_code columns.now values.now)) }
{
    for i in 0..columns.len() {
        push_value(out, columns[i], &values[i])?;
    }
    Ok(())
}
