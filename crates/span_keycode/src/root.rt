//! The part of a coded key that is its root row's.
ghost use Rattle.std.specs.Prelude.{◌≡◌, ◌≤◌, ◌+◌, List, ℕ, Some, length, take};
ghost use Rattle.span_keycode.specs.Coding.{in_direction};
ghost use Rattle.span_keycode.specs.Texts.{text_at};
ghost use Rattle.span_keycode.specs.Roots.{IsCoding, IsRootPrefix, IsSkip, IsTupleSkip};

use crate::key::Key;
use crate::text::{LevelStep, apply_direction, step_at};
use crate::value::after;
use span_schema::layout::KeyPart;
use span_schema::schema::Schema;
use span_value::value::Kind;

/// The coding of the key of the root row of a coded key, which is its front.
pub fn root_prefix<'a>(schema: &Schema, key: &'a Key) -> &'a [u8]
    requires { IsCoding schema.now key.now }
    ensures { IsRootPrefix schema.now key.now result.now }
{
    let bytes = key.as_slice();
    front(bytes, root_len(schema, bytes))
}

/// The first bytes.
pub(crate) fn front(bytes: &[u8], len: usize) -> &[u8]
    requires { len ≤ length bytes.now }
    ensures { result.now ≡ take len bytes.now }
{
    &bytes[..len]
}

fn root_len(schema: &Schema, bytes: &[u8]) -> usize
    requires { IsCoding schema.now bytes.now }
    ensures within { result ≤ length bytes.now }
    ensures root { IsRootPrefix schema.now bytes.now (take result bytes.now) }
{
    schema.meets_rules();
    let table = bytes[0] as usize;
    skip_tuple(schema.own_key_columns(table), after(bytes, 1)) + 1
}

/// How many bytes code the values of columns at the front of bytes.
pub(crate) fn skip_tuple(columns: &[KeyPart], bytes: &[u8]) -> usize
    ensures { IsTupleSkip columns.now bytes.now result }
{
    let mut at = 0;
    for i in 0..columns.len() {
        at += skip_value(columns[i], after(bytes, at));
    }
    at
}

/// How many bytes code the value of a column at the front of bytes. It allocates nothing.
pub fn skip_value(column: KeyPart, bytes: &[u8]) -> usize
    ensures { IsSkip column bytes.now result }
{
    if bytes.len() == 0 {
        return 0;
    }
    if apply_direction(bytes[0], column.desc) == 0 {
        return 1;
    }
    match column.kind {
        Kind::Int => bytes.len().min(9),
        Kind::Bool => bytes.len().min(2),
        _ => skip_text(after(bytes, 1), column.desc) + 1,
    }
}

fn skip_text(bytes: &[u8], desc: bool) -> usize
    ensures within { result ≤ length bytes.now }
    ensures text { (text more : List ℕ)
        → text_at (in_direction desc bytes.now) ≡ Some (text, more)
        → result + length more ≡ length bytes.now }
{
    let mut at = 0;
    loop {
        match step_at(after(bytes, at), desc) {
            LevelStep::Byte(_, width) => at += width,
            LevelStep::End => return at + 2,
            LevelStep::Bad => return at,
        }
    }
}
