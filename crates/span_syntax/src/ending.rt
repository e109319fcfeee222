//! Reading to the end of the tokens, and the place of a syntax error.
ghost use Rattle.std.specs.Prelude.{◌≡◌};
ghost use Rattle.span_syntax.specs.Parsed as parsed;
ghost use Rattle.span_syntax.specs.Parsed.{GivesToEnd, require_end, refusal_of, start_or, GivesSplit};

use span_grammar::class::{Lexeme, Sort};
use span_grammar::reader::is_class;
use span_lexer::lexer::ReadError;
use span_lexer::token::Token;
use span_primary::fault::SyntaxError;
use span_value::refusal::Refusal;
use std::alloc::AllocError;

/// What was read, if no token is left; else a syntax error.
#[tactic(auto, using(crate::proofs::Parsing::used_steps))]
pub fn require_end<T: Drop>(found: T, rest: &[Lexeme]) -> Result<T, SyntaxError>
    ensures { GivesToEnd result (require_end found rest.now) }
{
    if rest.is_empty() {
        Ok(found)
    } else {
        Err(SyntaxError::Syntax(rest.len()))
    }
}

/// The first of the last `left` tokens.
#[tactic(auto, using(crate::proofs::Places::ending_steps))]
fn token_at(left: usize, tokens: &[Lexeme]) -> Option<Lexeme>
    ensures { result ≡ parsed.token_at left tokens.now }
{
    let (_, last) = tokens.split_at_checked(tokens.len().checked_sub(left)?)?;
    last.first().copied()
}

/// Where that token starts; the end of the text where there is none.
fn place_of(left: usize, tokens: &[Lexeme], end: usize) -> usize
    ensures { result ≡ start_or (parsed.token_at left tokens.now) end }
{
    match token_at(left, tokens) {
        Some(lexeme) => lexeme.token.start,
        None => end,
    }
}

/// The refusal for an error, and its place in the text of these tokens, which is `end` bytes long.
///
/// When memory ran out, the place is 0.
pub fn read_error(fault: SyntaxError, tokens: &[Lexeme], end: usize) -> ReadError
    ensures refusal { result.refusal ≡ refusal_of fault }
    ensures place { result.place ≡ parsed.place_of fault tokens.now end }
{
    match fault {
        SyntaxError::OutOfMemory => ReadError {
            refusal: Refusal::OutOfMemory,
            place: 0,
        },
        SyntaxError::Syntax(left) => ReadError {
            refusal: Refusal::Syntax,
            place: place_of(left, tokens, end),
        },
        SyntaxError::TooDeep(left) => ReadError {
            refusal: Refusal::TooDeep,
            place: place_of(left, tokens, end),
        },
    }
}

/// The first `count` tokens, and where the next one starts.
#[tactic(auto, using(crate::proofs::Places::ending_steps), unfolding(crate::specs::Parsed::split_tokens))]
fn split_tokens(count: usize, tokens: &[Token]) -> Option<(&[Token], usize)>
    ensures { GivesSplit result (parsed.split_tokens count tokens.now) }
{
    let (beginning, after) = tokens.split_at_checked(count)?;
    Some((beginning, after.first()?.start))
}

/// Where a name before `.` and `*` is the error: the tokens up to that dot, and where the star starts.
///
/// Such a name is of a class of its own, but read without the star it is a name as any other. So reading these tokens shows where the error
/// is: at the name, at the dot, or else at the star.
#[tactic(auto, using(crate::proofs::Places::ending_steps), unfolding(crate::specs::Parsed::is_before_star))]
pub fn before_star<'a>(
    fault: SyntaxError,
    found: &[Lexeme],
    tokens: &'a [Token],
) -> Option<(&'a [Token], usize)>
    ensures { GivesSplit result (parsed.before_star fault found.now tokens.now) }
{
    let SyntaxError::Syntax(left) = fault else {
        return None;
    };
    let name = token_at(left, found)?;
    if !is_class(Sort::AllOf, name.class) {
        return None;
    }
    split_tokens(found.len().checked_sub(left)?.checked_add(2)?, tokens)
}

/// The place of the error that reading tokens returned; the place after them, where there was none. The error is out of memory.
pub fn reported_place<T: Drop>(
    read: Result<T, SyntaxError>,
    tokens: &[Lexeme],
    after: usize,
) -> Result<usize, AllocError>
    ensures { result ≡ parsed.reported_place read tokens.now after }
{
    match read {
        Ok(_) => Ok(after),
        Err(SyntaxError::OutOfMemory) => Err(AllocError),
        Err(fault) => Ok(read_error(fault, tokens, after).place),
    }
}
