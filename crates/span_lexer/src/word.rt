//! Reserved words.
ghost use Rattle.std.specs.Prelude.{◌≡◌};
ghost use Rattle.span_lexer.specs.Spellings.{reserved_word, reserved_words, matching_word, words_with};

use super::token::Word;

/// The reserved word that the bytes spell in any case, if they spell one.
pub fn reserved_word(bytes: &[u8]) -> Option<Word>
    ensures { result ≡ reserved_word bytes.now }
{
    match bytes.split_first() {
        Some((first, _)) => matching_word(words_with(first.to_ascii_lowercase()), bytes),
        None => None,
    }
}

/// The reserved words that begin with a letter in lower case, in alphabetical order.
#[tactic(auto, unfolding(crate::specs::Spellings::words_with))]
fn words_with(letter: u8) -> &'static [Word]
    ensures { result.now ≡ words_with letter reserved_words }
{
    match letter {
        b'a' => &[Word::All, Word::And, Word::As, Word::Asc],
        b'b' => &[Word::Between, Word::By],
        b'c' => &[Word::Case, Word::Create],
        b'd' => &[Word::Desc, Word::Distinct],
        b'e' => &[Word::Else, Word::End],
        b'f' => &[Word::False, Word::From],
        b'g' => &[Word::Group],
        b'h' => &[Word::Having],
        b'i' => &[Word::If, Word::In, Word::Inner, Word::Is],
        b'j' => &[Word::Join],
        b'l' => &[Word::Left, Word::Like, Word::Limit],
        b'n' => &[Word::Not, Word::Null],
        b'o' => &[Word::On, Word::Or, Word::Order, Word::Outer],
        b's' => &[Word::Select],
        b't' => &[Word::Then, Word::True],
        b'u' => &[Word::Union],
        b'w' => &[Word::When, Word::Where],
        _ => &[],
    }
}

/// The first of the words that the bytes spell.
fn matching_word(words: &[Word], bytes: &[u8]) -> Option<Word>
    ensures { result ≡ matching_word words.now bytes.now }
{
    for word in words {
        if bytes.eq_ignore_ascii_case(word.spelling().as_bytes()) {
            return Some(*word);
        }
    }
    None
}
