//! Numbers read straight from the bytes that code them: no value is made on the way.
ghost use Rattle.std.specs.Prelude.{◌≡◌, ◌+◌, ◌≤◌, ◌∷◌, ◌++◌, [], IfSome, drop, length, take, true};
ghost use Rattle.std.specs.Int.{to_be_bytes, w64};
ghost use Rattle.span_value.specs.declared.value.Kind.TheVariants as kind;
ghost use Rattle.span_value.specs.declared.value.Value.TheVariants.{Int};
ghost use Rattle.span_keycode.specs.Coding.{in_direction};
ghost use Rattle.span_keycode.specs.Reads.{IsColumn};
ghost use Rattle.span_rowcode.specs.Rows.{IsCell};
ghost use Rattle.span_rowreader.specs.KeyNumbers.{IsNumberFound};
ghost use Rattle.span_rowreader.specs.Numbers.{HasWord, IsNumberOf};

use span_keycode::value::{after, to_signed};
use span_schema::layout::KeyPart;
use span_value::value::Kind;

/// The word in the first eight bytes, the highest byte first, as they are in a column that is descending or not.
fn first_word(bytes: &[u8], desc: bool) -> Option<u64>
    ensures { IfSome result (λ word. HasWord desc bytes.now word) }
{
    match bytes.split_first_chunk::<8>() {
        None => None,
        Some((eight, _)) => Some(directed_word(*eight, desc)),
    }
}

/// A word as it is in a column that is descending or not.
fn directed_word(eight: [u8; 8], desc: bool) -> u64
    ensures { in_direction desc eight ≡ to_be_bytes w64 result }
{
    let word = u64::from_be_bytes(eight);
    if desc { u64::MAX - word } else { word }
}

/// The eight bytes at a place.
fn eight_at(bytes: &[u8], at: usize) -> [u8; 8]
    requires { at + 8 ≤ length bytes.now }
    ensures { result ≡ take 8 (drop at bytes.now) }
{
    [
        bytes[at],
        bytes[at + 1],
        bytes[at + 2],
        bytes[at + 3],
        bytes[at + 4],
        bytes[at + 5],
        bytes[at + 6],
        bytes[at + 7],
    ]
}

/// The number whose nine bytes in a key are at a place, in a column that is descending or not.
pub(crate) fn number_at(key: &[u8], at: usize, desc: bool) -> i64
    requires { at + 9 ≤ length key.now }
    ensures { IsNumberFound desc (drop at key.now) result }
{
    to_signed(directed_word(eight_at(key, at + 1), desc))
}

/// Whether a byte is the mark of a value that is not NULL, in a column that is descending or not.
fn marks_value(byte: u8, desc: bool) -> bool
    ensures { result ≡ true → in_direction desc (byte ∷ []) ≡ 1 ∷ [] }
{
    if desc { byte == 254 } else { byte == 1 }
}

/// The number at the front of the bytes of a column of numbers. None where it is NULL, or none is coded there.
fn key_number(desc: bool, bytes: &[u8]) -> Option<i64>
    ensures { IfSome result (λ number. IsNumberOf desc bytes.now number) }
{
    if bytes.len() < 9 {
        return None;
    }
    if !marks_value(bytes[0], desc) {
        return None;
    }
    match first_word(after(bytes, 1), desc) {
        None => None,
        Some(word) => Some(to_signed(word)),
    }
}

/// The number at the front of a column's bytes. None where it is NULL or of another kind, or none is coded there.
pub(crate) fn column_number(column: KeyPart, bytes: &[u8]) -> Option<i64>
    ensures { IfSome result (λ number. IsColumn column bytes.now (Int number) 9) }
{
    match column.kind {
        Kind::Int => key_number(column.desc, bytes),
        _ => None,
    }
}

/// The number that the cell of a kind at the front of bytes is. None where it is NULL or of another kind, or none is coded there.
pub(crate) fn cell_number(kind: Kind, bytes: &[u8]) -> Option<i64>
    ensures { IfSome result (λ number. IsCell kind bytes.now (Int number) 9) }
{
    match kind {
        Kind::Int => packed_number(bytes),
        _ => None,
    }
}

/// The number that the cell at the front of bytes is.
fn packed_number(bytes: &[u8]) -> Option<i64>
    ensures { IfSome result (λ number. IsCell kind.Int bytes.now (Int number) 9) }
{
    if bytes.len() < 9 {
        return None;
    }
    if bytes[0] != 1 {
        return None;
    }
    match first_word(after(bytes, 1), false) {
        None => None,
        Some(word) => Some(word.cast_signed()),
    }
}
