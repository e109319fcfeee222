//! The steps that every rule is read by.
//!
//! What reads tokens is given a cursor over them, and moves it past what it read. After an error the cursor may be anywhere.
ghost use Rattle.std.specs.Prelude.{◌≡◌, ◌<◌, IfOk};
ghost use Rattle.std.specs.Str.Lossy.{utf8_lossy};
ghost use Rattle.span_grammar.specs.declared.grammar.Part;
ghost use Rattle.span_grammar.specs.Rules.{starts};
ghost use Rattle.span_grammar.specs.Grammar.{rule_of};
ghost use Rattle.span_primary.specs.Phrases.{Gives, token, opening_token};
ghost use Rattle.span_grammar.specs.Classes as classes;
ghost use Rattle.span_primary.specs.Expressions as spec;

use super::fault::SyntaxError;
use span_grammar::class::{Lexeme, Sort};
use span_grammar::classify::token_bytes;
use span_grammar::grammar::Part;
use span_grammar::reader::{goes_on, is_class};
use span_lexer::token::{Sign, Token, TokenKind};
use span_trees::tree::{Integer, Span, Spelling};
use span_value::text::Text;
use std::alloc::{AllocError, Global};

/// Whether a token of a sort comes next.
pub fn next_is(sort: Sort, tokens: &[Lexeme]) -> bool
    ensures { result ≡ starts (rule_of (Part.Token sort)) tokens.now }
{
    goes_on(Part::Token(sort), tokens)
}

/// Takes the next token, if it is of a sort.
#[tactic(auto, unfolding(crate::specs::Phrases::token_read))]
pub fn take(sort: Sort, tokens: &mut &[Lexeme]) -> Result<Lexeme, SyntaxError>
    ensures { Gives (token sort) tokens.old tokens.new result }
{
    match tokens.split_first() {
        Some((lexeme, rest)) if is_class(sort, lexeme.class) => {
            *tokens = rest;
            Ok(*lexeme)
        }
        _ => Err(SyntaxError::Syntax(tokens.len())),
    }
}

/// Takes the next token, if it is an opening of a sort and an opening is left.
#[tactic(auto, unfolding(crate::specs::Phrases::enter_read))]
pub fn enter(left: usize, sort: Sort, tokens: &mut &[Lexeme]) -> Result<Lexeme, SyntaxError>
    ensures read { Gives (opening_token left sort) tokens.old tokens.new result }
    ensures deeper { IfOk result (λ x. 0 < left) }
{
    let here = tokens.len();
    let opening = take(sort, tokens)?;
    if left == 0 {
        return Err(SyntaxError::TooDeep(here));
    }
    Ok(opening)
}

/// Reads the parenthesis that ends what was read before.
#[tactic(auto, unfolding(crate::specs::Expressions::close_parenthesis))]
pub fn close_parenthesis<T: Drop>(found: T, tokens: &mut &[Lexeme]) -> Result<T, SyntaxError>
    ensures { Gives (spec.close_parenthesis found) tokens.old tokens.new result }
{
    take(Sort::Sign(Sign::Close), tokens)?;
    Ok(found)
}

/// The place of a token.
pub(crate) fn span_of(token: &Token) -> Span
    ensures { result ≡ spec.span_of token.now }
{
    Span {
        start: token.start,
        end: token.end,
    }
}

/// The spelling of a token, and its place.
fn spelling_of(alloc: Global, text: &[u8], lexeme: Lexeme) -> Result<Spelling, AllocError>
    ensures { IfOk result (λ x. x ≡ spec.spelling_of text.now lexeme) }
{
    let spelling = String::from_utf8_lossy(alloc, token_bytes(text, &lexeme.token))?;
    Ok(Spelling {
        text: Text::from_string(spelling),
        span: span_of(&lexeme.token),
    })
}

/// Takes the next token, if it is of a sort: its spelling.
#[tactic(auto, unfolding(crate::specs::Expressions::spelling))]
pub fn spelling(
    alloc: Global,
    text: &[u8],
    sort: Sort,
    tokens: &mut &[Lexeme],
) -> Result<Spelling, SyntaxError>
    ensures { Gives (spec.spelling text.now sort) tokens.old tokens.new result }
{
    let lexeme = take(sort, tokens)?;
    Ok(spelling_of(alloc, text, lexeme)?)
}

/// The value of an integer.
pub fn integer_value(kind: TokenKind) -> u64
    ensures { result ≡ spec.value_of kind }
{
    match kind {
        TokenKind::Int(value) => value,
        _ => 0,
    }
}

/// The integer that a token is, with a minus before it or none.
pub fn integer_of(is_negative: bool, lexeme: Lexeme) -> Integer
    ensures { result ≡ spec.integer_of is_negative lexeme }
{
    Integer {
        is_negative,
        value: integer_value(lexeme.token.kind),
        span: span_of(&lexeme.token),
    }
}
