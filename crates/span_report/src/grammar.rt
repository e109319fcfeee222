//! Where the grammar refuses a text.
ghost use Rattle.std.specs.Prelude.{◌≡◌, ◌⊎◌};
ghost use Rattle.span_grammar.specs.Judged.{IsRefused};
ghost use Rattle.span_report.specs.Places.{in_line};
ghost use Rattle.span_report.specs.declared.place.InputPlace.{InputPlace};

use super::place::InputPlace;
use span_grammar::judge::Goal;
use span_querytext::parse::parse_select;
use span_schematext::text::parse_tables;
use span_value::refusal::Refusal;
use std::alloc::Global;

/// Whether this is a refusal of the lexer or the grammar, which is at one place.
fn has_place(why: Refusal) -> bool {
    match why {
        Refusal::TextTooLong | Refusal::BadToken | Refusal::Syntax | Refusal::TooDeep => true,
        _ => false,
    }
}

/// The byte at which a query is refused so. It is known only where the grammar does refuse the query so.
pub fn query_place(alloc: Global, query: &str, why: Refusal) -> InputPlace
    ensures { (result ≡ InputPlace.Unknown) ⊎ IsRefused Goal.Statement query.now why }
{
    if !has_place(why) {
        return InputPlace::Unknown;
    }
    match parse_select(alloc, query).err() {
        Some(error) if error.refusal == why => InputPlace::in_text(query, error.place),
        _ => InputPlace::Unknown,
    }
}

/// The line of a script in which a query is refused so, and the byte of this line, where the query is in the line after `before` bytes.
/// The byte is known only where the grammar does refuse the query so.
pub fn script_place(
    alloc: Global,
    line: usize,
    before: usize,
    query: &str,
    why: Refusal,
) -> InputPlace
    ensures { (at : InputPlace) × (result ≡ in_line line before at)
        × ((at ≡ InputPlace.Unknown) ⊎ IsRefused Goal.Statement query.now why) }
{
    query_place(alloc, query, why).in_line(line, before)
}

/// The line and byte at which a schema text is refused so. They are known only where the grammar does refuse the text so.
pub fn schema_place(alloc: Global, text: &str, why: Refusal) -> InputPlace
    ensures { (result ≡ InputPlace.Unknown) ⊎ IsRefused Goal.Schema text.now why }
{
    if !has_place(why) {
        return InputPlace::Unknown;
    }
    match parse_tables(alloc, text).err() {
        Some(error) if error.refusal == why => InputPlace::in_lines(text.as_bytes(), error.place),
        _ => InputPlace::Unknown,
    }
}
