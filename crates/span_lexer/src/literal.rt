//! How far strings and bytes literals reach.
ghost use Rattle.std.specs.Prelude.{◌≡◌, ◌+◌, ◌<◌, ◌≤◌, length, IfSome};
ghost use Rattle.span_lexer.specs.Literals as spec;

use super::character::{from_place, is_escape, is_hex, is_octal};

/// The two kinds of literals in quotes.
#[derive(Clone, Copy, Debug, PartialEq, Eq)]
pub enum Literal {
    Text,
    Bytes,
}

/// The number of bytes up to and with the closing quote; None where the literal is not closed on its line,
/// or there is a wrong escape or character before the quote.
#[tactic(auto, using(crate::proofs::Closing::closing_rules))]
pub(crate) fn closing_quote(literal: Literal, quote: u8, bytes: &[u8]) -> Option<usize>
    ensures end { result ≡ spec.closing_quote literal quote 0 bytes.now }
    ensures within { IfSome result (λ n. n ≤ length bytes.now) }
{
    let mut at = 0;
    while at < bytes.len() {
        let rest = from_place(bytes, at);
        if bytes[at] == quote {
            return Some(at + 1);
        }
        at += piece_length(literal, rest)?;
    }
    None
}

/// The length of the character or escape that the bytes begin with.
#[tactic(auto, unfolding(crate::specs::Literals::piece_length))]
fn piece_length(literal: Literal, bytes: &[u8]) -> Option<usize>
    ensures end { result ≡ spec.piece_length literal bytes.now }
    ensures some { IfSome result (λ n. (0 < n) × (n ≤ length bytes.now)) }
{
    let (first, rest) = bytes.split_first()?;
    if *first == b'\\' {
        return escape_length(literal, rest);
    }
    if *first == b'\n' || (literal == Literal::Bytes && *first > 127) {
        return None;
    }
    Some(1)
}

/// The length of an escape with its backslash, by its letter and digits.
#[tactic(auto, unfolding(crate::specs::Literals::escape_length))]
fn escape_length(literal: Literal, bytes: &[u8]) -> Option<usize>
    ensures end { result ≡ spec.escape_length literal bytes.now }
    ensures some { IfSome result (λ n. (0 < n) × (n ≤ length bytes.now + 1)) }
{
    let (letter, digits) = bytes.split_first()?;
    if is_escape(*letter) {
        return Some(2);
    }
    if *letter == b'x' {
        return hex_length(literal, digits);
    }
    if *letter == b'u' && literal == Literal::Text {
        return unicode_length(digits);
    }
    None
}

#[tactic(auto, unfolding(crate::specs::Literals::hex_length))]
fn hex_length(literal: Literal, digits: &[u8]) -> Option<usize>
    ensures end { result ≡ spec.hex_length literal digits.now }
    ensures some { IfSome result (λ n. (0 < n) × (n ≤ length digits.now + 2)) }
{
    match digits {
        [high, low, ..] => {
            if is_hex(*high) && is_hex(*low) && (literal == Literal::Bytes || is_octal(*high)) {
                Some(4)
            } else {
                None
            }
        }
        _ => None,
    }
}

#[tactic(auto, unfolding(crate::specs::Literals::unicode_length, crate::specs::Literals::is_d))]
fn unicode_length(digits: &[u8]) -> Option<usize>
    ensures end { result ≡ spec.unicode_length digits.now }
    ensures some { IfSome result (λ n. (0 < n) × (n ≤ length digits.now + 2)) }
{
    match digits {
        [a, b, c, d, ..] => {
            let is_surrogate = (*a == b'D' || *a == b'd') && !is_octal(*b);
            if is_hex(*a) && is_hex(*b) && is_hex(*c) && is_hex(*d) && !is_surrogate {
                Some(6)
            } else {
                None
            }
        }
        _ => None,
    }
}
