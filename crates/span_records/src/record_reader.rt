//! The fields of the record that a text is.
ghost use Rattle.std.specs.Prelude.{◌≡◌, ◌<◌, ◌++◌, [], ◌∷◌, length, true, false, if◌then◌else◌, IfOk, IfSome, OnOk, MatchOption, IsOkUnless};
ghost use Rattle.csv.specs.Reading.{strip_bom};
ghost use Rattle.csv.specs.Records.{fields_of};
ghost use Rattle.span_records.specs.Record.{pieces, record_fields, texts, is_special, IsFree, IsUnmarked};

use csv::{Error, ReaderBuilder, StringRecord};
use memchr::memchr;
use smallvec::SmallVec;
use span_value::refusal::Refusal;
use std::alloc::{AllocError, Global};

/// How many fields of a record are lent without an allocation.
const INLINE_FIELDS: usize = 16;

/// Fields of a record, lent.
pub(crate) type Texts<'a> = SmallVec<&'a str, INLINE_FIELDS>;

/// The first byte of a byte order mark.
const MARK: u8 = 0xef;

/// Reads the fields of the record that a text is, as `csv` reads it. There are none where the text reads as no record, or as more than
/// one. `OutOfMemory` is the only refusal; what `fields` then holds means nothing.
pub(crate) fn read_fields(
    alloc: Global,
    text: &str,
    fields: &mut StringRecord,
) -> Result<(), Refusal>
    ensures fields { OnOk result (fields_of fields.new ≡ record_fields text.now) }
    ensures memory { IsOkUnless result Refusal.OutOfMemory }
{
    fields.clear();
    if text.is_empty() {
        return Ok(());
    }
    match read_alone(alloc, text, fields) {
        Ok(true) => Ok(()),
        Ok(false) => {
            fields.clear();
            Ok(())
        }
        // The text is in memory and its fields are text, so that only memory can run out.
        Err(_) => Err(Refusal::OutOfMemory),
    }
}

/// Adds the fields of the record that a text is, where they are its pieces between commas, to those that are lent. False where the text is
/// empty or has a quote, a CR, an LF, or a byte order mark at its front: what was added then means nothing. Up to 16 fields take no memory,
/// and none is moved after it was added.
pub(crate) fn push_plain_fields<'a>(
    text: &'a str,
    found: &mut Texts<'a>,
) -> Result<bool, AllocError>
    ensures { IfOk result
        (λ is_plain. is_plain ≡ true → texts found.new.items ≡ texts found.old.items ++ record_fields text.now) }
{
    if text.is_empty() || may_be_marked(text.as_bytes()) {
        return Ok(false);
    }
    push_pieces(text, found)
}

/// Adds the pieces of the text between its commas, one more than it has commas. False where it has a quote, a CR or an LF.
fn push_pieces<'a>(text: &'a str, found: &mut Texts<'a>) -> Result<bool, AllocError>
    ensures { IfOk result
        (λ is_plain. is_plain ≡ true
        → (texts found.new.items ≡ texts found.old.items ++ pieces text.now) × IsUnmarked text.now) }
{
    let mut rest = text;
    while let Some((piece, following)) = at_plain_comma(rest) {
        found.push(piece)?;
        rest = following;
    }
    if !is_piece(rest) {
        return Ok(false);
    }
    found.push(rest)?;
    Ok(true)
}

/// Whether the text has no comma, no quote, no CR and no LF.
fn is_piece(text: &str) -> bool
    ensures { (result ≡ true) → (pieces text.now ≡ text.now ∷ []) × IsUnmarked text.now }
{
    match special_place(text.as_bytes()) {
        None => true,
        Some(_) => false,
    }
}

/// What is before the first comma and after it; None where there is no comma, or a quote, a CR or an LF before it.
fn at_plain_comma(text: &str) -> Option<(&str, &str)>
    ensures cut { IfSome result (λ x. pieces text.now ≡ x.0.now ∷ pieces x.1.now) }
    ensures shorter { IfSome result (λ x. length x.1.now < length text.now) }
    ensures unmarked { IfSome result (λ x. IsUnmarked x.1.now → IsUnmarked text.now) }
{
    let bytes = text.as_bytes();
    let end = special_place(bytes)?;
    if bytes[end] != b',' {
        return None;
    }
    Some((&text[..end], &text[end + 1..]))
}

/// The place of the first comma, quote, CR or LF.
fn special_place(bytes: &[u8]) -> Option<usize>
    ensures { MatchOption result (IsFree bytes.now (length bytes.now))
        (λ at. (at < length bytes.now) × IsFree bytes.now at) }
{
    for i in 0..bytes.len() {
        if is_special(bytes[i]) {
            return Some(i);
        }
    }
    None
}

/// Whether a byte is a comma, a quote, a CR or an LF. Most bytes of a record come after these.
fn is_special(byte: u8) -> bool
    ensures { result ≡ is_special byte }
{
    byte <= b',' && (byte == b',' || byte == b'"' || byte == b'\r' || byte == b'\n')
}

/// The fields of a record, lent.
pub(crate) fn lent_fields(alloc: Global, fields: &StringRecord) -> Result<Texts<'_>, AllocError>
    ensures { IfOk result (λ found. texts found.items ≡ fields_of fields.now) }
{
    let mut found = SmallVec::new(alloc);
    for i in 0..fields.len() {
        found.push(fields.get(i).unwrap())?;
    }
    Ok(found)
}

/// Whether the first byte is that of a byte order mark.
fn may_be_marked(bytes: &[u8]) -> bool
    ensures { (result ≡ false) → strip_bom bytes.now ≡ bytes.now }
{
    match bytes.first() {
        Some(first) => *first == MARK,
        None => false,
    }
}

/// What is before the first comma and after it; None where there is no comma.
pub(crate) fn at_comma(text: &str) -> Option<(&str, &str)>
    ensures cut { MatchOption result (pieces text.now ≡ text.now ∷ [])
        (λ x. pieces text.now ≡ x.0.now ∷ pieces x.1.now) }
    ensures shorter { IfSome result (λ x. length x.1.now < length text.now) }
{
    let at = memchr(b',', text.as_bytes())?;
    Some((&text[..at], &text[at + 1..]))
}

/// Reads the text's first record; whether it is the only one.
fn read_alone(alloc: Global, text: &str, fields: &mut StringRecord) -> Result<bool, Error>
    ensures { IfOk result (λ is_alone. record_fields text.now ≡ (if is_alone then fields_of fields.new else [])) }
{
    let mut reader = ReaderBuilder::new()
        .has_headers(false)
        .flexible(true)
        .from_reader(alloc, text.as_bytes());
    if !reader.read_record(fields)? {
        return Ok(false);
    }
    let mut another = StringRecord::new(alloc);
    Ok(!reader.read_record(&mut another)?)
}
