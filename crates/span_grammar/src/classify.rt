//! The tokens of a query or schema text, with their classes.
ghost use Rattle.std.specs.Prelude.{◌≡◌, ◌-◌, take, drop, IfOk};
ghost use Rattle.span_grammar.specs.Contexts.{context_word, matching_word};
ghost use Rattle.span_grammar.specs.Classes as spec;

use super::class::{Class, Context, Lexeme, words_with};
use span_lexer::token::{Sign, Token, TokenKind};
use std::alloc::{AllocError, Global};

/// The tokens with their classes, in order, of a text of these bytes.
pub fn lexemes(alloc: Global, text: &[u8], tokens: &[Token]) -> Result<Vec<Lexeme>, AllocError>
    ensures { IfOk result (λ found. found.items ≡ spec.lexemes_of text.now tokens.now) }
{
    let mut found = Vec::with_capacity(alloc, tokens.len())?;
    let mut rest = tokens;
    while let Some((token, tail)) = rest.split_first() {
        let class = class_at(text, token, tail);
        found.push(Lexeme {
            class,
            token: *token,
        })?;
        rest = tail;
    }
    Ok(found)
}

/// The class of a token, by the tokens after it.
fn class_at(text: &[u8], token: &Token, tail: &[Token]) -> Class
    ensures { result ≡ spec.class_at text.now token.now tail.now }
{
    match token.kind {
        TokenKind::Word(word) => Class::Word(word),
        TokenKind::Name => {
            if starts_all_of(tail) {
                Class::AllOf
            } else {
                name_class(token_bytes(text, token))
            }
        }
        TokenKind::Parameter => Class::Parameter,
        TokenKind::Int(_) => Class::Int,
        TokenKind::Str => Class::Str,
        TokenKind::Bytes => Class::Bytes,
        TokenKind::Sign(Sign::Semicolon) => {
            if tail.is_empty() {
                Class::LastSemicolon
            } else {
                Class::Sign(Sign::Semicolon)
            }
        }
        TokenKind::Sign(sign) => Class::Sign(sign),
    }
}

/// Whether the first tokens are `.` and `*`.
fn starts_all_of(tokens: &[Token]) -> bool
    ensures { result ≡ spec.starts_all_of tokens.now }
{
    match tokens {
        [first, second, ..] => is_dot(first.kind) && is_star(second.kind),
        _ => false,
    }
}

fn is_dot(kind: TokenKind) -> bool
    ensures { result ≡ spec.is_dot kind }
{
    matches!(kind, TokenKind::Sign(Sign::Dot))
}

fn is_star(kind: TokenKind) -> bool
    ensures { result ≡ spec.is_star kind }
{
    matches!(kind, TokenKind::Sign(Sign::Star))
}

/// The class of a name, which may be a word of the grammar.
fn name_class(bytes: &[u8]) -> Class
    ensures { result ≡ spec.name_class (context_word bytes.now) }
{
    match context_word(bytes) {
        Some(word) => Class::Context(word),
        None => Class::Name,
    }
}

/// The word of the grammar that the bytes spell in any case, if they spell one.
fn context_word(bytes: &[u8]) -> Option<Context>
    ensures { result ≡ context_word bytes.now }
{
    match bytes.split_first() {
        Some((first, _)) => matching_word(words_with(first.to_ascii_lowercase()), bytes),
        None => None,
    }
}

/// The first of the words that the bytes spell in any case.
fn matching_word(words: &[Context], bytes: &[u8]) -> Option<Context>
    ensures { result ≡ matching_word words.now bytes.now }
{
    for word in words {
        if bytes.eq_ignore_ascii_case(word.spelling().as_bytes()) {
            return Some(*word);
        }
    }
    None
}

/// The bytes of a token.
pub fn token_bytes<'a>(text: &'a [u8], token: &Token) -> &'a [u8]
    ensures { result.now ≡ spec.token_bytes text.now token.now }
{
    prefix(
        tail(text, token.start),
        token.end.saturating_sub(token.start),
    )
}

/// The bytes from a place on; none if there are fewer.
fn tail(bytes: &[u8], place: usize) -> &[u8]
    ensures { result.now ≡ drop place bytes.now }
{
    if place <= bytes.len() {
        &bytes[place..]
    } else {
        &[]
    }
}

/// The first `count` bytes, or all if there are fewer.
fn prefix(bytes: &[u8], count: usize) -> &[u8]
    ensures { result.now ≡ take count bytes.now }
{
    if count <= bytes.len() {
        &bytes[..count]
    } else {
        bytes
    }
}
