//! Reading one cell of a packed row.
ghost use Rattle.std.specs.Prelude.{◌≡◌, ◌≤◌, ◌+◌, ◌++◌, List, ℕ, IfOk, IfSome, MatchOption, drop, take, length};
ghost use Rattle.std.specs.Int.{from_be_bytes, to_be_bytes, w32, w64};
ghost use Rattle.span_value.specs.declared.value.Kind.TheVariants as kind;
ghost use Rattle.span_value.specs.declared.value.Value.TheVariants as value;
ghost use Rattle.span_rowcode.specs.Rows.{IsCell, IsNoCell, IsCellSkip};
ghost use Rattle.span_rowcode.specs.Cells.{IsNoBody, IsBody, HasBytes, HasNoBytes};

use crate::pack::LONGEST_ROW;
use span_value::seq::Seq;
use span_value::text::Text;
use span_value::value::{Kind, Value};
use std::alloc::{AllocError, Global};

/// The cell of a kind at the front of bytes, and how many bytes code it; None if no cell of the kind is coded there.
pub fn read_cell(
    alloc: Global,
    kind: Kind,
    bytes: &[u8],
) -> Result<Option<(Value, usize)>, AllocError>
    requires { length bytes.now ≤ LONGEST_ROW }
    ensures { IfOk result (λ found. MatchOption found (IsNoCell kind bytes.now) (λ r. IsCell kind bytes.now r.0 r.1)) }
{
    if bytes.len() == 0 {
        return Ok(None);
    }
    match bytes[0] {
        0 => Ok(Some((Value::Null, 1))),
        1 => match read_body(alloc, kind, after(bytes, 1))? {
            None => Ok(None),
            Some((value, width)) => Ok(Some((value, width + 1))),
        },
        _ => Ok(None),
    }
}

/// How many bytes code the cell of a kind at the front of bytes. It allocates nothing.
pub fn skip_cell(kind: Kind, bytes: &[u8]) -> usize
    requires { length bytes.now ≤ LONGEST_ROW }
    ensures { IsCellSkip kind bytes.now result }
{
    if bytes.len() == 0 {
        return 0;
    }
    if bytes[0] == 0 {
        return 1;
    }
    match kind {
        Kind::Int => bytes.len().min(9),
        Kind::Bool => bytes.len().min(2),
        _ => skip_bytes(after(bytes, 1)) + 1,
    }
}

// How many bytes are a length in four bytes and the bytes after it.
fn skip_bytes(rest: &[u8]) -> usize
    requires { length rest.now ≤ LONGEST_ROW }
    ensures within { result ≤ length rest.now }
    ensures found { (found more : List ℕ)
        → rest.now ≡ to_be_bytes w32 (length found) ++ (found ++ more)
        → result ≡ length found + 4 }
{
    match bytes_at(rest) {
        None => 0,
        Some(bytes) => bytes.len() + 4,
    }
}

/// The bytes from a place on.
pub fn after(bytes: &[u8], place: usize) -> &[u8]
    requires { place ≤ length bytes.now }
    ensures { result.now ≡ drop place bytes.now }
{
    &bytes[place..]
}

fn front(bytes: &[u8], len: usize) -> &[u8]
    requires { len ≤ length bytes.now }
    ensures { result.now ≡ take len bytes.now }
{
    &bytes[..len]
}

fn read_body(alloc: Global, kind: Kind, rest: &[u8]) -> Result<Option<(Value, usize)>, AllocError>
    requires { length rest.now ≤ LONGEST_ROW }
    ensures { IfOk result (λ found. MatchOption found (IsNoBody kind rest.now) (λ r. IsBody kind rest.now r.0 r.1)) }
{
    match kind {
        Kind::Int => Ok(number_body(rest)),
        Kind::Bool => Ok(flag_body(rest)),
        Kind::Str => text_body(alloc, rest),
        Kind::Bytes => bytes_body(alloc, rest),
    }
}

fn number_body(rest: &[u8]) -> Option<(Value, usize)>
    ensures { MatchOption result (IsNoBody kind.Int rest.now) (λ r. IsBody kind.Int rest.now r.0 r.1) }
{
    match rest.split_first_chunk::<8>() {
        None => None,
        Some((eight, _)) => Some((Value::Int(u64::from_be_bytes(*eight).cast_signed()), 8)),
    }
}

fn flag_body(rest: &[u8]) -> Option<(Value, usize)>
    ensures { MatchOption result (IsNoBody kind.Bool rest.now) (λ r. IsBody kind.Bool rest.now r.0 r.1) }
{
    if rest.len() == 0 {
        return None;
    }
    match rest[0] {
        0 => Some((Value::Bool(false), 1)),
        1 => Some((Value::Bool(true), 1)),
        _ => None,
    }
}

fn bytes_body(alloc: Global, rest: &[u8]) -> Result<Option<(Value, usize)>, AllocError>
    requires { length rest.now ≤ LONGEST_ROW }
    ensures { IfOk result
        (λ found. MatchOption found (IsNoBody kind.Bytes rest.now) (λ r. IsBody kind.Bytes rest.now r.0 r.1)) }
{
    match bytes_at(rest) {
        None => Ok(None),
        Some(bytes) => {
            let width = bytes.len() + 4;
            Ok(Some((Value::Bytes(Seq::from_vec(bytes.to_vec(alloc)?)), width)))
        }
    }
}

/// The text at the front of bytes, which is its length in four bytes and then its bytes, and how many bytes these are. None if there is no text.
fn text_at(rest: &[u8]) -> Option<(&str, usize)>
    requires { length rest.now ≤ LONGEST_ROW }
    ensures { MatchOption result
        (IsNoBody kind.Str rest.now)
        (λ r. IsBody kind.Str rest.now (value.Str r.0.now) r.1) }
{
    match bytes_at(rest) {
        None => None,
        Some(bytes) => match str::from_utf8(bytes) {
            Err(_wrong) => None,
            Ok(text) => Some((text, bytes.len() + 4)),
        },
    }
}

/// The text of the cell at the front of bytes, lent, and how many bytes code the cell. None where it is NULL, or no cell of a text is coded there.
pub fn lent_text(bytes: &[u8]) -> Option<(&str, usize)>
    requires { length bytes.now ≤ LONGEST_ROW }
    ensures { IfSome result (λ r. IsCell kind.Str bytes.now (value.Str r.0.now) r.1) }
{
    if bytes.len() == 0 {
        return None;
    }
    if bytes[0] != 1 {
        return None;
    }
    match text_at(after(bytes, 1)) {
        None => None,
        Some((text, width)) => Some((text, width + 1)),
    }
}

fn text_body(alloc: Global, rest: &[u8]) -> Result<Option<(Value, usize)>, AllocError>
    requires { length rest.now ≤ LONGEST_ROW }
    ensures { IfOk result
        (λ found. MatchOption found (IsNoBody kind.Str rest.now) (λ r. IsBody kind.Str rest.now r.0 r.1)) }
{
    match text_at(rest) {
        None => Ok(None),
        Some((text, width)) => Ok(Some((Value::Str(Text::from_str(alloc, text)?), width))),
    }
}

// The bytes after their length in four bytes.
fn bytes_at(rest: &[u8]) -> Option<&[u8]>
    requires { length rest.now ≤ LONGEST_ROW }
    ensures { MatchOption result (HasNoBytes rest.now) (λ bytes. HasBytes rest.now bytes.now) }
{
    if rest.len() < 4 {
        return None;
    }
    let len = u32::from_be_bytes([rest[0], rest[1], rest[2], rest[3]]) as usize;
    if len > rest.len() - 4 {
        return None;
    }
    Some(front(after(rest, 4), len))
}
