//! The words of a command line: numbers, bounds, names and types.
ghost use Rattle.std.specs.Prelude.{◌≡◌, ◌≢◌, ◌↔◌, ℕ, List, true, MatchOption};
ghost use Rattle.std.specs.List.{list_all};
ghost use Rattle.span_lexer.specs.Characters as character;
ghost use Rattle.span_lexer.specs.Characters.{begins};
ghost use Rattle.span_truetime.specs.declared.bound.Bound.{Bound};
ghost use Rattle.span_value.specs.declared.value.Kind.{Kind};
ghost use Rattle.span_command.specs.Words.{IsWord, IsNumber, begins_plainly, AreTwo, AreThree, IsBound, is_name_text, type_name, spaced};

use span_lexer::character::{is_letter, is_word};
use span_lexer::lexer::LONGEST_WORD;
use span_lexer::word::reserved_word;
use span_truetime::bound::Bound;
use span_value::value::Kind;

/// The number that a word writes: decimal digits without leading zeros, up to 2^64 - 1.
pub fn number_of(word: &str) -> Option<u64>
    ensures { MatchOption result ((n : ℕ) → ¬ IsNumber word.now n) (λ n. IsNumber word.now n) }
{
    let Ok(number) = word.parse::<u64>() else {
        return None;
    };
    // The library's reader also takes a plus and leading zeros.
    if begins_plainly(word.as_bytes()) {
        Some(number)
    } else {
        None
    }
}

/// Whether a number, as the library reads it, is written without a plus and without a leading zero.
fn begins_plainly(digits: &[u8]) -> bool
    ensures { result ≡ begins_plainly digits.now }
{
    if digits.len() < 2 {
        return true;
    }
    digits[0] != b'0' && digits[0] != b'+'
}

/// The two numbers that two words write.
pub fn two_numbers(words: &str) -> Option<(u64, u64)>
    ensures { MatchOption result ((a b : ℕ) → ¬ AreTwo words.now a b) (λ x. AreTwo words.now x.0 x.1) }
{
    let (first, second) = word_and_rest(words)?;
    Some((number_of(first)?, number_of(second)?))
}

/// The three numbers that three words write.
pub fn three_numbers(words: &str) -> Option<(u64, u64, u64)>
    ensures { MatchOption result ((a b c : ℕ) → ¬ AreThree words.now a b c) (λ x. AreThree words.now x.0 x.1 x.2) }
{
    let (first, others) = word_and_rest(words)?;
    let first = number_of(first)?;
    let (second, third) = two_numbers(others)?;
    Some((first, second, third))
}

/// The bound that a word writes: `strong`, or `at:` or `stale:` and a number.
pub fn bound_of(word: &str) -> Option<Bound>
    ensures { MatchOption result ((bound : Bound) → ¬ IsBound word.now bound) (λ bound. IsBound word.now bound) }
{
    if word == "strong" {
        return Some(Bound::Strong);
    }
    if let Some(number) = word.strip_prefix("at:") {
        return Some(Bound::At(number_of(number)?));
    }
    let number = word.strip_prefix("stale:")?;
    Some(Bound::Staleness(number_of(number)?))
}

/// The type that a word names.
pub fn kind_of(word: &str) -> Option<Kind>
    ensures { MatchOption result ((kind : Kind) → word.now ≢ type_name kind) (λ kind. word.now ≡ type_name kind) }
{
    match word {
        "INT64" => Some(Kind::Int),
        "STRING" => Some(Kind::Str),
        "BYTES" => Some(Kind::Bytes),
        "BOOL" => Some(Kind::Bool),
        _ => None,
    }
}

/// Whether the word is a name: a letter or `_`, then letters, digits and `_`, at most `LONGEST_WORD` bytes, and no reserved word.
pub fn is_name(word: &str) -> bool
    ensures { result ≡ is_name_text word.now }
{
    let bytes = word.as_bytes();
    begins_with_letter(bytes)
        && bytes.len() <= LONGEST_WORD
        && are_word_bytes(bytes)
        && reserved_word(bytes).is_none()
}

fn begins_with_letter(bytes: &[u8]) -> bool
    ensures { result ≡ begins character.is_letter bytes.now }
{
    match bytes.first() {
        Some(first) => is_letter(*first),
        None => false,
    }
}

fn are_word_bytes(bytes: &[u8]) -> bool
    ensures { result ≡ list_all character.is_word bytes.now }
{
    bytes.iter().all(|byte| is_word(*byte))
}

/// The first word and the rest after its space. None where there is no space, or no word before it.
pub fn word_and_rest(words: &str) -> Option<(&str, &str)>
    ensures { MatchOption result
        ((word : List ℕ) (rest : List ℕ) → IsWord word → words.now ≢ spaced word rest)
        (λ x. IsWord x.0.now × (words.now ≡ spaced x.0.now x.1.now)) }
{
    let (word, rest) = words.split_once(' ')?;
    if word.is_empty() {
        return None;
    }
    Some((word, rest))
}

/// Whether this is one word.
pub fn is_one_word(words: &str) -> bool
    ensures { (result ≡ true) ↔ IsWord words.now }
{
    !words.is_empty() && !words.contains(' ')
}
