//! The value of a literal, from its spelling.
//!
//! The lexer decides which spellings are literals. Here any string is decoded: the definition gives even a wrong spelling a value.
ghost use Rattle.std.specs.Prelude.{◌≡◌, ◌∷◌, [], ◌<◌, ◌≤◌, ◌%◌, chars, drop, length, MatchOption, IfSome, IfOk};
ghost use Rattle.span_lexer.specs.LiteralValues as spec;

use span_value::seq::Seq;
use span_value::text::Text;
use std::alloc::{AllocError, Global};

/// The first character of a text, and the rest.
#[tactic(auto, using(crate::proofs::Digits::reading_steps))]
fn first_char(text: &str) -> Option<(char, &str)>
    ensures first { MatchOption result (chars text.now ≡ []) (λ p. chars text.now ≡ p.0 ∷ chars p.1.now) }
    ensures shorter { IfSome result (λ p. length p.1.now < length text.now) }
{
    let mut rest = text.chars();
    match rest.next() {
        Some(c) => Some((c, rest.as_str())),
        None => None,
    }
}

/// The text after the first character; empty for the empty text.
fn after_first(text: &str) -> &str
    ensures { chars result.now ≡ drop 1 (chars text.now) }
{
    match first_char(text) {
        Some((_, after)) => after,
        None => text,
    }
}

/// The text before the last character; empty for the empty text.
#[tactic(auto, using(crate::proofs::Digits::last_steps))]
fn before_last(text: &str) -> &str
    ensures { chars result.now ≡ spec.before_last (chars text.now) }
{
    let mut rest = text.chars();
    match rest.next_back() {
        Some(_) => rest.as_str(),
        None => text,
    }
}

/// What is between the quotes.
fn between_quotes(spelled: &str) -> &str
    ensures { chars result.now ≡ spec.between_quotes (chars spelled.now) }
{
    before_last(after_first(spelled))
}

/// The value of a hexadecimal digit.
#[tactic(auto, unfolding(crate::specs::LiteralValues::digit))]
fn digit(c: char) -> u32
    ensures value { result ≡ spec.digit c }
    ensures below { result < 16 }
{
    c.to_digit(16).unwrap_or(0)
}

/// The character with a code.
fn character(code: u32) -> char
    requires { code < 65536 }
    ensures { result ≡ spec.character code }
{
    char::from_u32(code).unwrap_or(char::REPLACEMENT_CHARACTER)
}

/// The number that the first two digits write, and the rest; none where there are fewer characters.
#[tactic(auto, using(crate::proofs::Digits::digit_steps))]
fn two_digits(text: &str) -> Option<(u32, &str)>
    ensures value { MatchOption result
        (spec.two_digits (chars text.now) ≡ None)
        (λ p. spec.two_digits (chars text.now) ≡ Some (p.0, chars p.1.now)) }
    ensures within { IfSome result (λ p. (p.0 < 256) × (length p.1.now ≤ length text.now)) }
{
    let (high, rest) = first_char(text)?;
    let (low, rest) = first_char(rest)?;
    Some((digit(high) * 16 + digit(low), rest))
}

/// The same of four digits.
#[tactic(auto, using(crate::proofs::Digits::pair_steps))]
fn four_digits(text: &str) -> Option<(u32, &str)>
    ensures value { MatchOption result
        (spec.four_digits (chars text.now) ≡ None)
        (λ p. spec.four_digits (chars text.now) ≡ Some (p.0, chars p.1.now)) }
    ensures within { IfSome result (λ p. (p.0 < 65536) × (length p.1.now ≤ length text.now)) }
{
    let (high, rest) = two_digits(text)?;
    let (low, rest) = two_digits(rest)?;
    Some((high * 256 + low, rest))
}

/// The character code of an escape, by its letter and its digits, and the rest; none where it has no digits.
fn code_of(letter: char, text: &str) -> Option<(u32, &str)>
    ensures value { MatchOption result
        (spec.code_of letter (chars text.now) ≡ None)
        (λ p. spec.code_of letter (chars text.now) ≡ Some (p.0, chars p.1.now)) }
    ensures within { IfSome result (λ p. (p.0 < 65536) × (length p.1.now ≤ length text.now)) }
{
    match letter {
        'x' => two_digits(text),
        'u' => four_digits(text),
        _ => None,
    }
}

/// The character of an escape that has no digits.
fn letter_escape(letter: char) -> char
    ensures { result ≡ spec.letter_escape letter }
{
    match letter {
        'n' => '\n',
        'r' => '\r',
        't' => '\t',
        _ => letter,
    }
}

/// The character of an escape, by its letter and the text after that, and the rest.
fn read_escape(letter: char, text: &str) -> (char, &str)
    ensures value { spec.read_escape letter (chars text.now) ≡ (result.0, chars result.1.now) }
    ensures within { length result.1.now ≤ length text.now }
{
    match code_of(letter, text) {
        Some((code, after)) => (character(code), after),
        None => (letter_escape(letter), text),
    }
}

/// The character of the escape that a backslash begins, and the rest.
fn read_after_backslash(text: &str) -> (char, &str)
    ensures value { spec.read_after_backslash (chars text.now) ≡ (result.0, chars result.1.now) }
    ensures within { length result.1.now ≤ length text.now }
{
    match first_char(text) {
        Some((letter, after)) => read_escape(letter, after),
        None => ('\\', text),
    }
}

/// The first character of a literal's value, and the rest of its inside; none where nothing is left.
#[tactic(auto, using(crate::proofs::Escapes::meaning_steps))]
fn read_char(text: &str) -> Option<(char, &str)>
    ensures first { MatchOption result (spec.decode_all (chars text.now) ≡ [])
        (λ p. spec.decode_all (chars text.now) ≡ p.0 ∷ spec.decode_all (chars p.1.now)) }
    ensures shorter { IfSome result (λ p. length p.1.now < length text.now) }
{
    let (c, after) = first_char(text)?;
    if c == '\\' {
        return Some(read_after_backslash(after));
    }
    Some((c, after))
}

/// The text of a string literal, which is spelt with its quotes. The only error is out of memory.
#[tactic(auto, using(crate::proofs::Escapes::text_steps))]
pub fn text_of(alloc: Global, spelled: &str) -> Result<Text, AllocError>
    ensures { IfOk result (λ text. text ≡ spec.text_of spelled.now) }
{
    let mut out = String::new(alloc);
    let mut rest = between_quotes(spelled);
    while let Some((c, after)) = read_char(rest) {
        out.push(c)?;
        rest = after;
    }
    Ok(Text::from_string(out))
}

fn as_byte(c: char) -> u8
    ensures { result ≡ c % 256 }
{
    (c as u32 % 256) as u8
}

/// The bytes of a BYTES literal, which is spelt with its `b` and its quotes. The only error is out of memory.
#[tactic(auto, using(crate::proofs::Escapes::bytes_steps))]
pub fn bytes_of(alloc: Global, spelled: &str) -> Result<Seq<u8>, AllocError>
    ensures { IfOk result (λ bytes. bytes ≡ spec.bytes_of spelled.now) }
{
    let mut out = Seq::new(alloc);
    let mut rest = between_quotes(after_first(spelled));
    while let Some((c, after)) = read_char(rest) {
        out.push(as_byte(c))?;
        rest = after;
    }
    Ok(out)
}
