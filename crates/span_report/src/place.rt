//! Places in the input of a program.
ghost use Rattle.std.specs.Prelude.{◌≡◌, ◌==◌, ◌+◌, length, min, position, reverse, take};
ghost use Rattle.span_report.specs.Lines.{place_text};
ghost use Rattle.span_report.specs.Places.{line_after, byte_after, place_after, in_line};

use std::fmt;

/// Where in an input the cause of a refusal is. Lines and bytes are counted from 1.
#[derive(Clone, Copy, Debug, PartialEq, Eq)]
pub enum InputPlace {
    /// Not at one place, or the place is not known.
    Unknown,
    /// A byte of a text.
    Byte(usize),
    /// A line of a file.
    WholeLine(usize),
    /// A line of a file, and a byte of this line.
    Line(usize, usize),
}

impl InputPlace {
    /// The place with this many bytes of the text before it.
    pub fn in_text(text: &str, offset: usize) -> InputPlace
        ensures { result ≡ InputPlace.Byte (min offset (length text.now) + 1) }
    {
        InputPlace::Byte(offset.min(text.len()) + 1)
    }

    /// The place with this many bytes of the file before it.
    pub fn in_lines(file: &[u8], offset: usize) -> InputPlace
        ensures { result ≡ place_after (take (min offset (length file.now)) file.now) }
    {
        let before = &file[..offset.min(file.len())];
        InputPlace::Line(line_after(before), byte_after(before))
    }

    /// The place in a file of a place in a text, where the text is in this line of the file after `before` bytes.
    pub fn in_line(self, line: usize, before: usize) -> InputPlace
        ensures { result ≡ in_line line before self }
    {
        match self {
            InputPlace::Byte(byte) => InputPlace::Line(line, before.saturating_add(byte)),
            _ => InputPlace::WholeLine(line),
        }
    }
}

/// The line that follows these bytes.
fn line_after(before: &[u8]) -> usize
    ensures { result ≡ line_after before.now }
{
    before.iter().filter(|byte| **byte == b'\n').count() + 1
}

/// The byte, within its line, that follows these bytes.
fn byte_after(before: &[u8]) -> usize
    ensures { result ≡ byte_after before.now }
{
    match since_line_end(before) {
        Some(bytes) => bytes + 1,
        None => before.len() + 1,
    }
}

/// How many bytes follow the last line end, where there is one.
fn since_line_end(before: &[u8]) -> Option<usize>
    ensures { result ≡ position (λ byte. byte == 10) (reverse before.now) }
{
    before.iter().rev().position(|byte| *byte == b'\n')
}

impl fmt::Display for InputPlace {
    ghost use Rattle.std.specs.Prelude.{Some};

    ghost output = { λ place. Some (place_text place) };

    fn fmt<W: fmt::Write>(&self, f: &mut fmt::Formatter<W>) -> fmt::Result {
        match *self {
            InputPlace::Unknown => Ok(()),
            InputPlace::Byte(byte) => write!(f, ", byte {byte}"),
            InputPlace::WholeLine(line) => write!(f, ", line {line}"),
            InputPlace::Line(line, byte) => write!(f, ", line {line}, byte {byte}"),
        }
    }
}
