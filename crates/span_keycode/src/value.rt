//! Reading one column's value.
ghost use Rattle.std.specs.Prelude.{◌≡◌, ◌≢◌, ◌⊎◌, ◌<◌, ◌≤◌, ◌∷◌, ◌++◌, IfOk, MatchOption, Some, None, drop, length, FitsSigned};
ghost use Rattle.std.specs.Int.{to_be_bytes, w64};
ghost use Rattle.span_value.specs.declared.value.Kind.TheVariants as kind;
ghost use Rattle.span_keycode.specs.Coding.{bit, to_unsigned, in_direction, Fits, AreBytes};
ghost use Rattle.span_keycode.specs.Reads.{IsNoPlain, IsPlain, IsNoColumn, IsColumn};

use crate::text::{apply_direction, read_text};
use span_schema::layout::KeyPart;
use span_value::seq::Seq;
use span_value::text::Text;
use span_value::value::{Kind, Value};
use std::alloc::{AllocError, Global};

/// The value at the front of a column's bytes, and how many bytes code it; None if no value of the column is coded there.
pub fn read_value(
    alloc: Global,
    column: KeyPart,
    bytes: &[u8],
) -> Result<Option<(Value, usize)>, AllocError>
    ensures { IfOk result
        (λ found. MatchOption found (IsNoColumn column bytes.now) (λ r. IsColumn column bytes.now r.0 r.1)) }
{
    if bytes.len() == 0 {
        return Ok(None);
    }
    match apply_direction(bytes[0], column.desc) {
        0 => Ok(Some((Value::Null, 1))),
        1 => match read_body(alloc, column.kind, column.desc, after(bytes, 1))? {
            None => Ok(None),
            Some((value, width)) => Ok(Some((value, width + 1))),
        },
        _ => Ok(None),
    }
}

/// The bytes from a place on.
pub fn after(bytes: &[u8], place: usize) -> &[u8]
    requires { place ≤ length bytes.now }
    ensures { result.now ≡ drop place bytes.now }
{
    &bytes[place..]
}

fn read_body(
    alloc: Global,
    kind: Kind,
    desc: bool,
    rest: &[u8],
) -> Result<Option<(Value, usize)>, AllocError>
    ensures found { IfOk result
        (λ found.
        MatchOption found
        (IsNoPlain kind (1 ∷ in_direction desc rest.now))
        (λ r. IsPlain kind (1 ∷ in_direction desc rest.now) r.0 (in_direction desc (drop r.1 rest.now)))) }
    ensures within { IfOk result (λ found. MatchOption found (Unit {0}) (λ r. r.1 ≤ length rest.now)) }
{
    match kind {
        Kind::Int => Ok(number_body(rest, desc)),
        Kind::Bool => Ok(flag_body(rest, desc)),
        Kind::Str => text_body(alloc, rest, desc),
        Kind::Bytes => bytes_body(alloc, rest, desc),
    }
}

fn number_body(rest: &[u8], desc: bool) -> Option<(Value, usize)>
    ensures found { MatchOption result
        (IsNoPlain kind.Int (1 ∷ in_direction desc rest.now))
        (λ r. IsPlain kind.Int (1 ∷ in_direction desc rest.now) r.0 (in_direction desc (drop r.1 rest.now))) }
    ensures within { MatchOption result (Unit {0}) (λ r. r.1 ≤ length rest.now) }
{
    if rest.len() < 8 {
        return None;
    }
    Some((
        Value::Int(to_signed(u64::from_be_bytes(first_eight(rest, desc)))),
        8,
    ))
}

fn first_eight(rest: &[u8], desc: bool) -> [u8; 8]
    requires { 8 ≤ length rest.now }
    ensures code { in_direction desc rest.now ≡ result ++ in_direction desc (drop 8 rest.now) }
    ensures bytes { AreBytes result }
    ensures len { length result ≡ 8 }
{
    let a = apply_direction(rest[0], desc);
    let b = apply_direction(rest[1], desc);
    let c = apply_direction(rest[2], desc);
    let d = apply_direction(rest[3], desc);
    let e = apply_direction(rest[4], desc);
    let f = apply_direction(rest[5], desc);
    let g = apply_direction(rest[6], desc);
    let h = apply_direction(rest[7], desc);
    [a, b, c, d, e, f, g, h]
}

/// The number of 64 bits whose order among all numbers is that of a word among all words.
pub fn to_signed(word: u64) -> i64
    ensures { to_unsigned result ≡ word }
{
    if word >= 1 << 63 {
        (word - (1 << 63)) as i64
    } else {
        word as i64 - i64::MAX - 1
    }
}

fn flag_body(rest: &[u8], desc: bool) -> Option<(Value, usize)>
    ensures found { MatchOption result
        (IsNoPlain kind.Bool (1 ∷ in_direction desc rest.now))
        (λ r. IsPlain kind.Bool (1 ∷ in_direction desc rest.now) r.0 (in_direction desc (drop r.1 rest.now))) }
    ensures within { MatchOption result (Unit {0}) (λ r. r.1 ≤ length rest.now) }
{
    if rest.len() == 0 {
        return None;
    }
    match apply_direction(rest[0], desc) {
        0 => Some((Value::Bool(false), 1)),
        1 => Some((Value::Bool(true), 1)),
        _ => None,
    }
}

fn bytes_body(alloc: Global, rest: &[u8], desc: bool) -> Result<Option<(Value, usize)>, AllocError>
    ensures found { IfOk result
        (λ found.
        MatchOption found
        (IsNoPlain kind.Bytes (1 ∷ in_direction desc rest.now))
        (λ r.
        IsPlain kind.Bytes (1 ∷ in_direction desc rest.now)
        r.0
        (in_direction desc (drop r.1 rest.now)))) }
    ensures within { IfOk result (λ found. MatchOption found (Unit {0}) (λ r. r.1 ≤ length rest.now)) }
{
    match read_text(alloc, rest, desc)? {
        None => Ok(None),
        Some((bytes, width)) => Ok(Some((Value::Bytes(Seq::from_vec(bytes)), width))),
    }
}

fn text_body(alloc: Global, rest: &[u8], desc: bool) -> Result<Option<(Value, usize)>, AllocError>
    ensures found { IfOk result
        (λ found.
        MatchOption found
        (IsNoPlain kind.Str (1 ∷ in_direction desc rest.now))
        (λ r. IsPlain kind.Str (1 ∷ in_direction desc rest.now) r.0 (in_direction desc (drop r.1 rest.now)))) }
    ensures within { IfOk result (λ found. MatchOption found (Unit {0}) (λ r. r.1 ≤ length rest.now)) }
{
    match read_text(alloc, rest, desc)? {
        None => Ok(None),
        Some((bytes, width)) => match String::from_utf8(bytes) {
            Err(_wrong) => Ok(None),
            Ok(text) => Ok(Some((Value::Str(Text::from_string(text)), width))),
        },
    }
}
