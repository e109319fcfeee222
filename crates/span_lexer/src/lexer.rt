//! The tokens of a query or schema text.
//!
//! A text is read from left to right, each time one blank, one comment or one token.
ghost use Rattle.std.specs.Prelude.{◌≡◌, ◌==◌, ◌⊎◌, ◌+◌, ◌<◌, ◌≤◌, ◌-◌, length, drop, List, IfSome, IfOk, OnOk, IfErr};
ghost use Rattle.span_lexer.specs.Limits.{longest_text};
ghost use Rattle.span_lexer.specs.declared.lexer.TheConstants.{GREATEST_INTEGER, LONGEST_TEXT, LONGEST_WORD};
ghost use Rattle.std.specs.List.{prefix_len};
ghost use Rattle.span_lexer.specs.Characters as character;
ghost use Rattle.span_lexer.specs.Lexing as spec;
ghost use Rattle.span_lexer.specs.Readings.{ReadsOrOutOfMemory, IsReadError};
ghost use Rattle.span_lexer.specs.Tokens.{Item, AreItems, text_of, tokens_of};
ghost use Rattle.span_lexer.specs.Literals as literal;

use super::character::{from_place, is_blank, is_digit, is_letter, is_mark, is_quote, is_word};
use super::literal::{Literal, closing_quote};
use super::token::{Sign, Token, TokenKind};
use super::word::reserved_word;
use span_value::refusal::Refusal;
use span_value::seq::Seq;
use std::alloc::{AllocError, AllocFailed, Global};
use std::fmt;

/// What a text begins with, and its length in bytes.
#[derive(Clone, Copy, Debug, PartialEq, Eq)]
pub(crate) enum LexResult {
    /// A blank or a comment.
    Skip(usize),
    Lexeme(TokenKind, usize),
    /// There is no token here.
    Wrong,
}

/// The greatest length of a query or schema text in bytes.
pub const LONGEST_TEXT: usize = 65536;

/// The greatest integer that a text may contain.
pub const GREATEST_INTEGER: u64 = 9223372036854775807;

/// The greatest length of a name in bytes.
pub const LONGEST_WORD: usize = 128;

/// The greatest number of tokens that there is memory for before one is read.
const MOST_RESERVED: usize = 1_024;

/// The limits are the numbers that the definitions name.
pub fn limits_are_stated()
    ensures text { LONGEST_TEXT ≡ longest_text }
    ensures integer { GREATEST_INTEGER ≡ spec.greatest_integer }
    ensures word { LONGEST_WORD ≡ spec.longest_word }
{}

/// Why a text was refused, and the byte where the error is.
#[derive(Clone, Copy, Debug, PartialEq, Eq)]
pub struct ReadError {
    pub refusal: Refusal,
    pub place: usize,
}

impl fmt::Display for ReadError {
    fn fmt<W: fmt::Write>(&self, f: &mut fmt::Formatter<W>) -> fmt::Result {
        write!(f, "refused {} at byte {}", self.refusal, self.place)
    }
}

impl From<AllocError> for ReadError {
    ghost use Rattle.std.specs.Prelude.{◌≡◌};
    ghost use Rattle.span_value.specs.declared.refusal.Refusal.TheVariants.{OutOfMemory};

    ghost from_gives = { λ _ e. e.refusal ≡ OutOfMemory };

    fn from(_error: AllocError) -> ReadError {
        ReadError {
            refusal: Refusal::OutOfMemory,
            place: 0,
        }
    }
}

impl<T: Drop> From<AllocFailed<T>> for ReadError {
    ghost use Rattle.std.specs.Prelude.{◌≡◌};
    ghost use Rattle.span_value.specs.declared.refusal.Refusal.TheVariants.{OutOfMemory};

    ghost from_gives = { λ _ e. e.refusal ≡ OutOfMemory };

    fn from(_error: AllocFailed<T>) -> ReadError {
        ReadError {
            refusal: Refusal::OutOfMemory,
            place: 0,
        }
    }
}

/// The number of letters, digits and `_` that the bytes begin with.
fn word_length(bytes: &[u8]) -> usize
    ensures count { result ≡ spec.word_length bytes.now }
    ensures within { result ≤ length bytes.now }
{
    bytes.iter().take_while(|byte| is_word(**byte)).count()
}

/// The number of bytes before the first LF, or before the end.
fn line_length(bytes: &[u8]) -> usize
    ensures count { result ≡ prefix_len spec.is_on_line bytes.now }
    ensures within { result ≤ length bytes.now }
{
    bytes.iter().take_while(|byte| is_on_line(**byte)).count()
}

#[tactic(auto, unfolding(crate::specs::Lexing::is_on_line))]
fn is_on_line(byte: u8) -> bool
    ensures { result ≡ spec.is_on_line byte }
{
    byte != b'\n'
}

/// A reserved word or a name.
#[tactic(auto, unfolding(crate::specs::Lexing::lex_word))]
fn lex_word(bytes: &[u8]) -> LexResult
    ensures { result ≡ spec.lex_word bytes.now }
{
    let length = word_length(bytes);
    if length > LONGEST_WORD {
        return LexResult::Wrong;
    }
    match reserved_word(&bytes[..length]) {
        Some(word) => LexResult::Lexeme(TokenKind::Word(word), length),
        None => LexResult::Lexeme(TokenKind::Name, length),
    }
}

/// The number that decimal digits write; None where one is no digit or the number is too great.
#[tactic(auto, using(crate::proofs::Integers::integer_rules))]
fn integer(digits: &[u8]) -> Option<u64>
    ensures { result ≡ spec.integer 0 digits.now }
{
    let mut value: u64 = 0;
    for digit in digits {
        value = next_integer(value, *digit)?;
    }
    Some(value)
}

#[tactic(auto, unfolding(crate::specs::Lexing::next_integer, crate::specs::Characters::is_digit))]
fn next_integer(value: u64, digit: u8) -> Option<u64>
    requires { value ≤ spec.greatest_integer }
    ensures next { result ≡ spec.next_integer value digit }
    ensures within { IfSome result (λ n. n ≤ spec.greatest_integer) }
{
    if !is_digit(digit) {
        return None;
    }
    let unit = u64::from(digit - b'0');
    if value > (GREATEST_INTEGER - unit) / 10 {
        return None;
    }
    Some(value * 10 + unit)
}

#[tactic(auto, unfolding(crate::specs::Lexing::lex_integer))]
fn lex_integer(bytes: &[u8]) -> LexResult
    ensures { result ≡ spec.lex_integer bytes.now }
{
    let length = word_length(bytes);
    match integer(&bytes[..length]) {
        Some(value) => LexResult::Lexeme(TokenKind::Int(value), length),
        None => LexResult::Wrong,
    }
}

/// A parameter: what is after its `@`.
#[tactic(auto, unfolding(crate::specs::Lexing::lex_parameter))]
fn lex_parameter(bytes: &[u8]) -> LexResult
    ensures { result ≡ spec.lex_parameter bytes.now }
{
    let length = word_length(bytes);
    if !starts_with_letter(bytes) || length > LONGEST_WORD {
        return LexResult::Wrong;
    }
    match reserved_word(&bytes[..length]) {
        Some(_) => LexResult::Wrong,
        None => LexResult::Lexeme(TokenKind::Parameter, length + 1),
    }
}

fn starts_with_letter(bytes: &[u8]) -> bool
    ensures { result ≡ character.begins character.is_letter bytes.now }
{
    match bytes {
        [first, ..] => is_letter(*first),
        [] => false,
    }
}

fn starts_with_quote(bytes: &[u8]) -> bool
    ensures { result ≡ character.begins character.is_quote bytes.now }
{
    match bytes {
        [first, ..] => is_quote(*first),
        [] => false,
    }
}

fn starts_with(bytes: &[u8], byte: u8) -> bool
    ensures { result ≡ character.begins (λ c. c == byte) bytes.now }
{
    match bytes {
        [first, ..] => *first == byte,
        [] => false,
    }
}

/// A bytes literal, whose mark was read: its quote comes first.
#[tactic(auto, unfolding(crate::specs::Lexing::lex_bytes))]
fn lex_bytes(bytes: &[u8]) -> LexResult
    requires { length bytes.now ≤ LONGEST_TEXT }
    ensures { result ≡ spec.lex_bytes bytes.now }
{
    let Some((quote, body)) = bytes.split_first() else {
        return LexResult::Wrong;
    };
    match closing_quote(Literal::Bytes, *quote, body) {
        Some(length) => LexResult::Lexeme(TokenKind::Bytes, 2 + length),
        None => LexResult::Wrong,
    }
}

/// A string literal, whose quote was read: the bytes come after it.
fn lex_string(quote: u8, body: &[u8]) -> LexResult
    requires { length body.now ≤ LONGEST_TEXT }
    ensures { result ≡ spec.literal_or_wrong TokenKind.Str 1 (literal.closing_quote Literal.Text quote 0 body.now) }
{
    match closing_quote(Literal::Text, quote, body) {
        Some(length) => LexResult::Lexeme(TokenKind::Str, 1 + length),
        None => LexResult::Wrong,
    }
}

/// The longest sign that begins with `first` and goes on in `rest`.
#[tactic(auto, unfolding(crate::specs::Lexing::lex_sign))]
fn lex_sign(first: u8, rest: &[u8]) -> LexResult
    ensures { result ≡ spec.lex_sign first rest.now }
{
    let (sign, length) = match first {
        b'(' => (Sign::Open, 1),
        b')' => (Sign::Close, 1),
        b',' => (Sign::Comma, 1),
        b'.' => (Sign::Dot, 1),
        b';' => (Sign::Semicolon, 1),
        b'*' => (Sign::Star, 1),
        b'+' => (Sign::Plus, 1),
        b'-' => (Sign::Minus, 1),
        b'=' => (Sign::Equal, 1),
        b'<' if starts_with(rest, b'=') => (Sign::LessEqual, 2),
        b'<' if starts_with(rest, b'>') => (Sign::LessGreater, 2),
        b'<' => (Sign::Less, 1),
        b'>' if starts_with(rest, b'=') => (Sign::GreaterEqual, 2),
        b'>' => (Sign::Greater, 1),
        b'!' if starts_with(rest, b'=') => (Sign::BangEqual, 2),
        b'|' if starts_with(rest, b'|') => (Sign::Concat, 2),
        _ => return LexResult::Wrong,
    };
    LexResult::Lexeme(TokenKind::Sign(sign), length)
}

/// What a text begins with.
#[tactic(auto, unfolding(crate::specs::Lexing::lex_first))]
fn lex_first(bytes: &[u8]) -> LexResult
    requires { length bytes.now ≤ LONGEST_TEXT }
    ensures { result ≡ spec.lex_first bytes.now }
{
    let Some((first, rest)) = bytes.split_first() else {
        return LexResult::Wrong;
    };
    if is_blank(*first) {
        return LexResult::Skip(1);
    }
    if is_mark(*first) && starts_with_quote(rest) {
        return lex_bytes(rest);
    }
    if is_letter(*first) {
        return lex_word(bytes);
    }
    if is_digit(*first) {
        return lex_integer(bytes);
    }
    if *first == b'@' {
        return lex_parameter(rest);
    }
    if is_quote(*first) {
        return lex_string(*first, rest);
    }
    if *first == b'-' && starts_with(rest, b'-') {
        return LexResult::Skip(1 + line_length(rest));
    }
    lex_sign(*first, rest)
}

/// What is at a place of a text: it is not empty and does not reach past the end.
fn lex_at(bytes: &[u8], place: usize) -> LexResult
    requires text { length bytes.now ≤ LONGEST_TEXT }
    requires inside { place < length bytes.now }
    ensures lex_result { result ≡ spec.lex_first (drop place bytes.now) }
    ensures reaches { spec.Reaches (length bytes.now - place) result }
{
    lex_first(from_place(bytes, place))
}

/// The tokens of a text of at most `LONGEST_TEXT` bytes.
#[tactic(auto, using(crate::proofs::Whole::lexed_rules))]
fn lexemes(alloc: Global, bytes: &[u8]) -> Result<Vec<Token>, ReadError>
    requires { length bytes.now ≤ LONGEST_TEXT }
    ensures ok { IfOk result (λ found. spec.lex_from 0 0 bytes.now ≡ Some found.items) }
    ensures err { IfErr result
        (λ e.
        (e.refusal ≡ Refusal.OutOfMemory)
        ⊎ ((e.refusal ≡ Refusal.BadToken) × (spec.lex_from 0 0 bytes.now ≡ None))) }
{
    // Most tokens take some four bytes, with the blanks between them.
    let mut found = Vec::with_capacity(alloc, (bytes.len() / 4).min(MOST_RESERVED))?;
    let mut at = 0;
    while at < bytes.len() {
        match lex_at(bytes, at) {
            LexResult::Skip(length) => at += length,
            LexResult::Lexeme(kind, length) => {
                found.push(Token {
                    kind,
                    start: at,
                    end: at + length,
                })?;
                at += length;
            }
            LexResult::Wrong => {
                return Err(ReadError {
                    refusal: Refusal::BadToken,
                    place: at,
                });
            }
        }
    }
    Ok(found)
}

/// The tokens of a text, in order, with the bytes at which they begin and end.
///
/// The error is `TextTooLong` for a text of more than `LONGEST_TEXT` bytes; else `BadToken` where there is no token, at the
/// first such byte; or `OutOfMemory`.
pub fn tokens(alloc: Global, text: &str) -> Result<Seq<Token>, ReadError>
    // The result is the tokens of the items that the text consists of.
    ensures read { IfOk result
        (λ found. (is : List Item) × AreItems is × (text.now ≡ text_of is) × (found ≡ tokens_of 0 is)) }
    ensures short { OnOk result (length text.now ≤ longest_text) }
    // A text that consists of items, and is not too long, is read.
    ensures read_all { (is : List Item)
        → AreItems is
        → text.now ≡ text_of is
        → length text.now ≤ longest_text
        → ReadsOrOutOfMemory (tokens_of 0 is) result }
    // The refusal distinguishes a text that is too long from one that does not consist of items.
    ensures refused { IfErr result (λ e. IsReadError text.now e.refusal) }
{
    if text.len() > LONGEST_TEXT {
        return Err(ReadError {
            refusal: Refusal::TextTooLong,
            place: LONGEST_TEXT,
        });
    }
    match lexemes(alloc, text.as_bytes()) {
        Ok(found) => Ok(Seq::from_vec(found)),
        Err(why) => Err(why),
    }
}

/// A law, which takes no time: a text has one list of tokens.
pub fn texts_have_one_reading()
    ensures { (is js : List Item) → AreItems is → AreItems js → text_of is ≡ text_of js
        → tokens_of 0 is ≡ tokens_of 0 js }
{}
