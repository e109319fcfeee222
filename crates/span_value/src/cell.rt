//! Cells: values as the fields of a record.
//!
//! NULL is `\N`, a BOOL `true` or `false`, an INT64 its decimal digits, a STRING its text with each backslash doubled, BYTES
//! `\x` and two hexadecimal digits a byte, in lower case.
ghost use Rattle.std.specs.Prelude.{◌≡◌, ◌≢◌, [], ◌∷◌, ◌++◌, ◌+◌, ◌*◌, ◌/◌, ◌%◌, ◌⊎◌, ◌<◌, ℕ, ℤ, Bool, List, IfOk, OnOk, IfErr, IfSome, IsTrue, IsOkUnless, MatchOption, string_bytes};
ghost use Rattle.std.specs.Char.{digit_char};
ghost use Rattle.span_value.specs.Cells.{cell_of, IsCell, IsClean, escaped, hex_pairs, is_shortest, unescaped, decoded_hex, half_byte};

use super::refusal::Refusal;
use super::seq::Seq;
use super::text::Text;
use super::value::{Kind, Value};
use itoa::Buffer;
use std::alloc::{AllocError, Global};

/// The cell of a value. The only error is `OutOfMemory`.
pub fn cell_text(alloc: Global, value: &Value) -> Result<String, Refusal>
    ensures cell { IfOk result (λ text. string_bytes text ≡ cell_of value.now) }
    ensures memory { IsOkUnless result Refusal.OutOfMemory }
{
    Ok(match value {
        Value::Null => String::from_str(alloc, "\\N")?,
        Value::Int(n) => String::from_str(alloc, Buffer::new().format(*n))?,
        Value::Str(text) => escape_text(alloc, text.as_str())?,
        Value::Bytes(bytes) => hex_text(alloc, bytes.as_slice())?,
        Value::Bool(true) => String::from_str(alloc, "true")?,
        Value::Bool(false) => String::from_str(alloc, "false")?,
    })
}

/// The text with each backslash doubled.
fn escape_text(alloc: Global, text: &str) -> Result<String, AllocError>
    ensures { IfOk result (λ out. string_bytes out ≡ escaped text.now) }
{
    let mut out = String::new(alloc);
    let mut rest = text;
    while let Some((front, tail)) = split_at_backslash(rest) {
        out.push_str(front)?;
        out.push_str("\\\\")?;
        rest = tail;
    }
    out.push_str(rest)?;
    Ok(out)
}

/// `\x` and the bytes in hexadecimal.
fn hex_text(alloc: Global, bytes: &[u8]) -> Result<String, AllocError>
    ensures { IfOk result (λ out. string_bytes out ≡ 92 ∷ 120 ∷ hex_pairs bytes.now) }
{
    let mut out = String::from_str(alloc, "\\x")?;
    for byte in bytes {
        push_pair(&mut out, *byte)?;
    }
    Ok(out)
}

/// Adds the two hexadecimal digits of a byte.
fn push_pair(out: &mut String, byte: u8) -> Result<(), AllocError>
    ensures { OnOk result
        (string_bytes out.new ≡ string_bytes out.old ++ (digit_char (byte / 16) ∷ digit_char (byte % 16) ∷ [])) }
{
    out.push(hex_digit(byte / 16))?;
    out.push(hex_digit(byte % 16))?;
    Ok(())
}

fn hex_digit(half: u8) -> char
    requires { half < 16 }
    ensures digit { result ≡ digit_char half }
    ensures ascii { result < 128 }
{
    if half < 10 {
        char::from(b'0' + half)
    } else {
        char::from(b'a' + (half - 10))
    }
}

/// The value of a kind whose cell the text is. The text `\N` is NULL of every kind.
///
/// The error is `WrongType`, only where the text is no cell of the kind, or `OutOfMemory`.
pub fn read_cell(alloc: Global, kind: Kind, text: &str) -> Result<Value, Refusal>
    // What is read has this cell.
    ensures read { IfOk result (λ value. IsCell kind value text.now) }
    // Each cell of the kind is read.
    ensures read_all { (value : Value) → IsCell kind value text.now
        → (result ≡ Ok value) ⊎ (result ≡ Err Refusal.OutOfMemory) }
    ensures refusals { IfErr result (λ why. (why ≡ Refusal.WrongType) ⊎ (why ≡ Refusal.OutOfMemory)) }
{
    if text == "\\N" {
        return Ok(Value::Null);
    }
    match kind {
        Kind::Int => read_int(text),
        Kind::Str => read_text(alloc, text),
        Kind::Bytes => read_bytes(alloc, text),
        Kind::Bool => read_bool(text),
    }
}

fn read_int(text: &str) -> Result<Value, Refusal>
    ensures read { IfOk result (λ value. IsCell Kind.Int value text.now) }
    ensures read_all { (n : ℤ) → IsCell Kind.Int (Value.Int n) text.now → result ≡ Ok (Value.Int n) }
    ensures refusals { IfErr result (λ why. why ≡ Refusal.WrongType) }
{
    let Ok(number) = text.parse::<i64>() else {
        return Err(Refusal::WrongType);
    };
    // The library's reader also takes a plus and leading zeros.
    if is_shortest(text.as_bytes()) {
        Ok(Value::Int(number))
    } else {
        Err(Refusal::WrongType)
    }
}

// Whether a number, as the library reads it, is written without a plus, a leading zero, or a minus before zero.
fn is_shortest(digits: &[u8]) -> bool
    ensures { result ≡ is_shortest digits.now }
{
    if digits.len() < 2 {
        return true;
    }
    if digits[0] == b'-' {
        return digits[1] != b'0';
    }
    digits[0] != b'0' && digits[0] != b'+'
}

fn read_bool(text: &str) -> Result<Value, Refusal>
    ensures read { IfOk result (λ value. IsCell Kind.Bool value text.now) }
    ensures read_all { (b : Bool) → IsCell Kind.Bool (Value.Bool b) text.now → result ≡ Ok (Value.Bool b) }
    ensures refusals { IfErr result (λ why. why ≡ Refusal.WrongType) }
{
    match text {
        "true" => Ok(Value::Bool(true)),
        "false" => Ok(Value::Bool(false)),
        _ => Err(Refusal::WrongType),
    }
}

/// What is before the first backslash and what is after it.
fn split_at_backslash(text: &str) -> Option<(&str, &str)>
    ensures { MatchOption result (IsClean text.now) (λ x. (text.now ≡ x.0.now ++ 92 ∷ x.1.now) × IsClean x.0.now) }
{
    text.split_once('\\')
}

/// Whether there is no backslash in the text.
fn is_clean(text: &str) -> bool
    ensures { IsTrue result → IsClean text.now }
{
    split_at_backslash(text).is_none()
}

/// What is after the backslash that the text begins with.
fn strip_backslash(text: &str) -> Option<&str>
    ensures { MatchOption result ((rest : List ℕ) → text.now ≢ 92 ∷ rest) (λ rest. text.now ≡ 92 ∷ rest.now) }
{
    text.strip_prefix('\\')
}

fn read_text(alloc: Global, text: &str) -> Result<Value, Refusal>
    ensures read { IfOk result (λ value. IsCell Kind.Str value text.now) }
    ensures read_all { (w : List ℕ)
        → IsCell Kind.Str (Value.Str w) text.now
        → (result ≡ Ok (Value.Str w)) ⊎ (result ≡ Err Refusal.OutOfMemory) }
    ensures refusals { IfErr result (λ why. (why ≡ Refusal.WrongType) ⊎ (why ≡ Refusal.OutOfMemory)) }
{
    // Most texts have no backslash. A short one then takes no memory.
    if is_clean(text) {
        return Ok(Value::Str(Text::from_str(alloc, text)?));
    }
    match unescape_text(alloc, text)? {
        Some(unescaped) => Ok(Value::Str(Text::from_string(unescaped))),
        None => Err(Refusal::WrongType),
    }
}

/// The text that becomes this one when each backslash is doubled, if there is one.
fn unescape_text(alloc: Global, text: &str) -> Result<Option<String>, AllocError>
    ensures { IfOk result
        (λ o. MatchOption o (unescaped text.now ≡ None) (λ s. unescaped text.now ≡ Some (string_bytes s))) }
{
    let mut out = String::new(alloc);
    let mut rest = text;
    while let Some((front, tail)) = split_at_backslash(rest) {
        let Some(after) = strip_backslash(tail) else {
            return Ok(None);
        };
        out.push_str(front)?;
        out.push('\\')?;
        rest = after;
    }
    out.push_str(rest)?;
    Ok(Some(out))
}

fn read_bytes(alloc: Global, text: &str) -> Result<Value, Refusal>
    ensures read { IfOk result (λ value. IsCell Kind.Bytes value text.now) }
    ensures read_all { (w : List ℕ)
        → IsCell Kind.Bytes (Value.Bytes w) text.now
        → (result ≡ Ok (Value.Bytes w)) ⊎ (result ≡ Err Refusal.OutOfMemory) }
    ensures refusals { IfErr result (λ why. (why ≡ Refusal.WrongType) ⊎ (why ≡ Refusal.OutOfMemory)) }
{
    let Some(digits) = text.as_bytes().strip_prefix(b"\\x") else {
        return Err(Refusal::WrongType);
    };
    match decode_hex(alloc, digits)? {
        Some(bytes) => Ok(Value::Bytes(Seq::from_vec(bytes))),
        None => Err(Refusal::WrongType),
    }
}

/// The bytes that pairs of hexadecimal digits represent, if there are only such pairs.
fn decode_hex(alloc: Global, digits: &[u8]) -> Result<Option<Vec<u8>>, AllocError>
    ensures { IfOk result
        (λ o. MatchOption o (decoded_hex digits.now ≡ None) (λ v. decoded_hex digits.now ≡ Some v.items)) }
{
    let mut out = Vec::new(alloc);
    let mut rest = digits;
    while let Some((high, tail)) = rest.split_first() {
        let Some((low, after)) = tail.split_first() else {
            return Ok(None);
        };
        let Some(byte) = byte_from(*high, *low) else {
            return Ok(None);
        };
        out.push(byte)?;
        rest = after;
    }
    Ok(Some(out))
}

fn byte_from(high: u8, low: u8) -> Option<u8>
    ensures { MatchOption result
        ((half_byte high ≡ None) ⊎ (half_byte low ≡ None))
        (λ byte. (h : ℕ) × (l : ℕ) × (half_byte high ≡ Some h) × (half_byte low ≡ Some l) × (byte ≡ h * 16 + l)) }
{
    let high = half_byte_from(high)?;
    let low = half_byte_from(low)?;
    Some(high * 16 + low)
}

/// The value of a hexadecimal digit in lower case.
#[tactic(auto, unfolding(crate::specs::Cells::half_byte))]
fn half_byte_from(digit: u8) -> Option<u8>
    ensures value { result ≡ half_byte digit }
    ensures half { IfSome result (λ half. half < 16) }
{
    match digit {
        b'0'..=b'9' => Some(digit - b'0'),
        b'a'..=b'f' => Some(digit - b'a' + 10),
        _ => None,
    }
}
