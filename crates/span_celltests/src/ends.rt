//! Where the cells of a packed row end, found without a look at what most of them hold.
ghost use Rattle.std.specs.Prelude.{◌≡◌, ◌⊎◌, ◌≤◌, ◌^◌, [], ◌∷◌, get_or, length, true};
ghost use Rattle.std.specs.Int.{from_be_bytes, w32};
ghost use Rattle.span_value.specs.declared.value.Kind.TheVariants.{Str as Texts, Bytes as Strings};
ghost use Rattle.span_rowcode.specs.declared.pack.TheConstants.{LONGEST_ROW};
ghost use Rattle.span_celltests.specs.Ends.{IsCellEnd};

use span_rowcode::cell::{after, skip_cell};
use span_rowcode::pack::LONGEST_ROW;
use span_value::value::Kind;

/// How many bytes the code of a text or of bytes has before them: one byte that they are no NULL, and their length in four.
pub(crate) const BEGIN: usize = 5;

/// The length that a text or bytes have by their code.
pub(crate) fn coded_length(code: &[u8]) -> u32
    requires { 5 ≤ length code.now }
    ensures { result ≡ from_be_bytes w32
        (get_or code.now 1 0 ∷ get_or code.now 2 0 ∷ get_or code.now 3 0 ∷ get_or code.now 4 0 ∷ []) }
{
    u32::from_be_bytes([code[1], code[2], code[3], code[4]])
}

/// Where a cell ends, of any kind.
fn skipped_end(kind: Kind, bytes: &[u8], at: usize) -> usize
    requires len { length bytes.now ≤ LONGEST_ROW }
    requires at { at ≤ 2 ^ 33 }
    ensures at { result ≤ 2 ^ 33 }
    ensures end { IsCellEnd kind bytes.now at result }
{
    if at >= bytes.len() {
        return at;
    }
    at + skip_cell(kind, after(bytes, at))
}

/// Where a cell ends that is a text or bytes.
fn text_end(kind: Kind, bytes: &[u8], at: usize) -> usize
    requires kind { (kind ≡ Texts) ⊎ (kind ≡ Strings) }
    requires len { length bytes.now ≤ LONGEST_ROW }
    requires at { at ≤ 2 ^ 33 }
    ensures at { result ≤ 2 ^ 33 }
    ensures end { IsCellEnd kind bytes.now at result }
{
    if at + BEGIN > bytes.len() {
        return skipped_end(kind, bytes, at);
    }
    let code = after(bytes, at);
    if code[0] == 0 {
        return at + 1;
    }
    at + BEGIN + coded_length(code) as usize
}

/// Whether the cells of a kind that are no NULL have a length in their code.
fn has_length(kind: Kind) -> bool
    ensures { result ≡ true → (kind ≡ Texts) ⊎ (kind ≡ Strings) }
{
    match kind {
        Kind::Str => true,
        Kind::Bytes => true,
        _ => false,
    }
}

/// Where a cell of a kind ends that begins at a place of a packed row. That is past the row's end where the row is cut off.
pub(crate) fn cell_end(kind: Kind, bytes: &[u8], at: usize) -> usize
    requires len { length bytes.now ≤ LONGEST_ROW }
    requires at { at ≤ 2 ^ 33 }
    ensures at { result ≤ 2 ^ 33 }
    ensures end { IsCellEnd kind bytes.now at result }
{
    if has_length(kind) {
        text_end(kind, bytes, at)
    } else {
        skipped_end(kind, bytes, at)
    }
}
