//! The lines of a script, from an input, with one buffer. `reader` has what is done with them.
ghost use Rattle.std.specs.Prelude.{◌≡◌, ◌≤◌, slice_range, vec_len};
ghost use Rattle.span_command.specs.Limits.{longest_line};
ghost use Rattle.span_command.specs.declared.line.TheConstants.{LONGEST_LINE};
ghost use Rattle.span_command.specs.Texts.{HasNoLf};

mod reader;

/// How many bytes a line may have, without the LF that ends it.
pub const LONGEST_LINE: usize = 2_097_152;

/// The limit is the number that the definitions name.
pub fn limit_is_stated()
    ensures { LONGEST_LINE ≡ longest_line }
{}

/// A line, without the LF that ends it.
#[derive(Clone, Copy, Debug, PartialEq, Eq)]
pub enum Line<'a> {
    Text(&'a str),
    /// It is too long, or not in UTF-8.
    Unreadable,
}

/// The lines of a script: those that were read and not taken yet, and the one that was taken last.
///
/// `take` moves on to the next line and `line` lends it. Where `is_ready` says that there is none yet, `read` reads more.
#[derive(Drop)]
pub struct Lines {
    buffer: Vec<u8>,
    /// Where the bytes begin that belong to no line that was taken.
    start: usize,
    /// Up to here they have no LF.
    searched: usize,
    /// Where they end.
    end: usize,
    /// Whether the input has ended.
    has_ended: bool,
    /// Whether the line that begins at `start` had more bytes than a line may have, which are gone.
    is_cut: bool,
    /// Where the line that was taken begins.
    taken_from: usize,
    /// Where it ends.
    taken_to: usize,
    /// Whether the line that was taken had more bytes, which are gone.
    taken_is_cut: bool,
    ghost taken_in_order: { taken_from ≤ taken_to },
    ghost taken_before: { taken_to ≤ start },
    ghost in_order: { start ≤ searched },
    ghost searched_within: { searched ≤ end },
    ghost within: { end ≤ vec_len buffer },
    ghost no_lf: { HasNoLf (slice_range buffer.items start searched) },
}
