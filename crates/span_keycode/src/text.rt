//! Reading the escaped text of a STRING or BYTES column.
ghost use Rattle.std.specs.Prelude.{◌≡◌, ◌∷◌, [], ◌≤◌, IfOk, MatchOption, Some, None, drop, length};
ghost use Rattle.span_keycode.specs.Coding.{in_direction, AreBytes};
ghost use Rattle.span_keycode.specs.Texts.{AtStep, text_at};

use std::alloc::{AllocError, Global};

/// What is at the front of an escaped text.
#[derive(Debug, Clone, Copy)]
pub enum LevelStep {
    /// A byte of the text, and how many bytes code it.
    Byte(u8, usize),
    End,
    Bad,
}

/// A byte as it is in a column that is descending or not.
pub(crate) fn apply_direction(byte: u8, desc: bool) -> u8
    ensures { in_direction desc (byte ∷ []) ≡ result ∷ [] }
{
    if desc { 255 - byte } else { byte }
}

/// What is at the front of an escaped text.
pub(crate) fn step_at(rest: &[u8], desc: bool) -> LevelStep
    ensures { AtStep desc rest.now result }
{
    if rest.len() == 0 {
        return LevelStep::Bad;
    }
    let first = apply_direction(rest[0], desc);
    if first != 0 {
        return LevelStep::Byte(first, 1);
    }
    if rest.len() == 1 {
        return LevelStep::Bad;
    }
    match apply_direction(rest[1], desc) {
        1 => LevelStep::End,
        255 => LevelStep::Byte(0, 2),
        _ => LevelStep::Bad,
    }
}

/// The escaped text at the front, and how many bytes code it; None if there is none.
pub(crate) fn read_text(
    alloc: Global,
    bytes: &[u8],
    desc: bool,
) -> Result<Option<(Vec<u8>, usize)>, AllocError>
    ensures ok { IfOk result
        (λ found.
        MatchOption found
        (text_at (in_direction desc bytes.now) ≡ None)
        (λ r.
        text_at (in_direction desc bytes.now) ≡ Some (r.0.items, in_direction desc (drop r.1 bytes.now)))) }
    ensures within { IfOk result
        (λ found. MatchOption found (Unit {0}) (λ r. (r.1 ≤ length bytes.now) × AreBytes r.0.items)) }
{
    let mut text = Vec::new(alloc);
    let mut at = 0;
    loop {
        match step_at(&bytes[at..], desc) {
            LevelStep::Byte(byte, width) => {
                text.push(byte)?;
                at += width;
            }
            LevelStep::End => return Ok(Some((text, at + 2))),
            LevelStep::Bad => return Ok(None),
        }
    }
}
