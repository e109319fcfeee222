//! Reading tokens, by their classes, as the grammar says.
//!
//! One token decides each choice, so that no token is read twice. What recurses goes down the grammar, and begins again at its
//! top only after an opening, of which at most `MOST_OPENINGS` are nested.
ghost use Rattle.std.specs.Prelude.{◌≡◌, ◌≤◌, List};
ghost use Rattle.span_grammar.specs.Rules.{most_openings, is_class, of_class, is_nullable, first, starts};
ghost use Rattle.span_grammar.specs.declared.reader.TheConstants.{MOST_OPENINGS};
ghost use Rattle.span_grammar.specs.Grammar.{rule_of};
ghost use Rattle.span_grammar.specs.Reading.{Follows, part_read, sort_read};

use super::beginning::begins;
use super::class::{Class, Lexeme, Sort};
use super::grammar::{Part, Shape, part_inside, shape_of};
use span_lexer::token::Sign;

/// The greatest number of nested openings.
pub const MOST_OPENINGS: usize = 32;

/// The limit is the number that the definitions name.
pub fn limit_is_stated()
    ensures { MOST_OPENINGS ≡ most_openings }
{}

/// Why tokens are not read.
#[derive(Clone, Copy, Debug, PartialEq, Eq)]
pub enum Stop {
    /// With this token, or the end, no tree goes on.
    Syntax,
    /// One opening too many is nested.
    TooDeep,
}

/// Whether a token is what a rule asks for.
#[tactic(auto, unfolding(crate::specs::Rules::is_class))]
pub fn is_class(sort: Sort, class: Class) -> bool
    ensures { result ≡ is_class sort class }
{
    match (sort, class) {
        (Sort::Word(asked), Class::Word(found)) => asked == found,
        (Sort::Name, Class::Name) => true,
        (Sort::Name, Class::Context(_)) => true,
        (Sort::Context(asked), Class::Context(found)) => asked == found,
        (Sort::AllOf, Class::AllOf) => true,
        (Sort::Parameter, Class::Parameter) => true,
        (Sort::Int, Class::Int) => true,
        (Sort::Str, Class::Str) => true,
        (Sort::Bytes, Class::Bytes) => true,
        (Sort::Sign(asked), Class::Sign(found)) => asked == found,
        (Sort::Separator, Class::Sign(found)) => Sign::Semicolon == found,
        (Sort::LastSemicolon, Class::LastSemicolon) => true,
        (Sort::AnySemicolon, Class::Sign(found)) => Sign::Semicolon == found,
        (Sort::AnySemicolon, Class::LastSemicolon) => true,
        _ => false,
    }
}

/// Whether a part may be nothing.
#[tactic(auto, using(crate::proofs::Steps::nothing_steps))]
fn is_nullable(part: Part) -> bool
    ensures { result ≡ is_nullable (rule_of part) }
{
    match shape_of(part) {
        Shape::Empty => true,
        Shape::One(_) => false,
        Shape::Then(first, second) => is_nullable(first) && is_nullable(second),
        Shape::Or(first, second) => is_nullable(first) || is_nullable(second),
        Shape::Many(_) => true,
        Shape::Open(_, _) => false,
    }
}

/// Whether a part may begin with a token of a class, by a walk over the parts that it is made of.
#[tactic(auto, using(crate::proofs::Steps::begin_steps))]
pub(crate) fn begins_by_parts(part: Part, class: Class) -> bool
    ensures { result ≡ first (rule_of part) (of_class class) }
{
    match shape_of(part) {
        Shape::Empty => false,
        Shape::One(sort) => is_class(sort, class),
        Shape::Then(first, second) => begins_by_parts(first, class)
            || (is_nullable(first) && begins_by_parts(second, class)),
        Shape::Or(first, second) => begins_by_parts(first, class) || begins_by_parts(second, class),
        Shape::Many(repeated) => begins_by_parts(repeated, class),
        Shape::Open(sort, _) => is_class(sort, class),
    }
}

/// Whether a part may begin with the token that comes; no part begins at the end.
#[inline(always)]
pub fn goes_on(part: Part, tokens: &[Lexeme]) -> bool
    ensures { result ≡ starts (rule_of part) tokens.now }
{
    match tokens.split_first() {
        Some((lexeme, _)) => begins(part, lexeme.class),
        None => false,
    }
}

/// Reads a token of a sort and returns the rest.
#[tactic(auto, unfolding(crate::specs::Reading::sort_read))]
fn token(sort: Sort, tokens: &[Lexeme]) -> Result<&[Lexeme], Stop>
    ensures { Follows result (sort_read sort tokens.now) }
{
    match tokens.split_first() {
        Some((lexeme, rest)) if is_class(sort, lexeme.class) => Ok(rest),
        _ => Err(Stop::Syntax),
    }
}

/// Reads a part, with `left` openings left, and returns the rest.
#[tactic(auto, using(crate::proofs::Steps::read_steps))]
pub(crate) fn read(part: Part, left: usize, tokens: &[Lexeme]) -> Result<&[Lexeme], Stop>
    requires { left ≤ most_openings }
    ensures { Follows result (part_read left part tokens.now) }
{
    match shape_of(part) {
        Shape::Empty => Ok(tokens),
        Shape::One(sort) => token(sort, tokens),
        Shape::Then(first, second) => {
            let rest = read(first, left, tokens)?;
            read(second, left, rest)
        }
        Shape::Or(first, second) => {
            if goes_on(first, tokens) {
                read(first, left, tokens)
            } else {
                read(second, left, tokens)
            }
        }
        Shape::Many(repeated) => {
            let mut rest = tokens;
            while goes_on(repeated, rest) {
                rest = read(repeated, left, rest)?;
            }
            Ok(rest)
        }
        Shape::Open(sort, place) => {
            let rest = token(sort, tokens)?;
            if left == 0 {
                return Err(Stop::TooDeep);
            }
            read(part_inside(place), left - 1, rest)
        }
    }
}
