//! Operators, by their tokens.
ghost use Rattle.span_primary.specs.Phrases.{Gives};
ghost use Rattle.span_primary.specs.Expressions as spec;

use super::fault::SyntaxError;
use super::token::{next_is, take};
use span_grammar::class::{Lexeme, Sort};
use span_lexer::token::{Sign, Word};
use span_trees::tree::{ComparisonOperator, Operator};

/// `*` or `||`
#[tactic(auto, unfolding(crate::specs::Expressions::term_sign))]
pub fn term_sign(tokens: &mut &[Lexeme]) -> Result<Operator, SyntaxError>
    ensures { Gives spec.term_sign tokens.old tokens.new result }
{
    if next_is(Sort::Sign(Sign::Star), tokens) {
        take(Sort::Sign(Sign::Star), tokens)?;
        return Ok(Operator::Times);
    }
    take(Sort::Sign(Sign::Concat), tokens)?;
    Ok(Operator::Concat)
}

/// `+` or `-`
#[tactic(auto, unfolding(crate::specs::Expressions::sum_sign))]
pub fn sum_sign(tokens: &mut &[Lexeme]) -> Result<Operator, SyntaxError>
    ensures { Gives spec.sum_sign tokens.old tokens.new result }
{
    if next_is(Sort::Sign(Sign::Plus), tokens) {
        take(Sort::Sign(Sign::Plus), tokens)?;
        return Ok(Operator::Plus);
    }
    take(Sort::Sign(Sign::Minus), tokens)?;
    Ok(Operator::Minus)
}

/// A comparison.
#[tactic(auto, unfolding(crate::specs::Expressions::comparison))]
pub fn comparison(tokens: &mut &[Lexeme]) -> Result<ComparisonOperator, SyntaxError>
    ensures { Gives spec.comparison tokens.old tokens.new result }
{
    if next_is(Sort::Sign(Sign::Equal), tokens) {
        take(Sort::Sign(Sign::Equal), tokens)?;
        return Ok(ComparisonOperator::Equal);
    }
    if next_is(Sort::Sign(Sign::LessGreater), tokens) {
        take(Sort::Sign(Sign::LessGreater), tokens)?;
        return Ok(ComparisonOperator::NotEqual);
    }
    if next_is(Sort::Sign(Sign::BangEqual), tokens) {
        take(Sort::Sign(Sign::BangEqual), tokens)?;
        return Ok(ComparisonOperator::NotEqual);
    }
    if next_is(Sort::Sign(Sign::Less), tokens) {
        take(Sort::Sign(Sign::Less), tokens)?;
        return Ok(ComparisonOperator::Less);
    }
    if next_is(Sort::Sign(Sign::LessEqual), tokens) {
        take(Sort::Sign(Sign::LessEqual), tokens)?;
        return Ok(ComparisonOperator::AtMost);
    }
    if next_is(Sort::Sign(Sign::Greater), tokens) {
        take(Sort::Sign(Sign::Greater), tokens)?;
        return Ok(ComparisonOperator::Greater);
    }
    take(Sort::Sign(Sign::GreaterEqual), tokens)?;
    Ok(ComparisonOperator::AtLeast)
}

/// Whether NOT comes next.
#[tactic(auto, unfolding(crate::specs::Expressions::maybe_not))]
pub fn maybe_not(tokens: &mut &[Lexeme]) -> Result<bool, SyntaxError>
    ensures { Gives spec.maybe_not tokens.old tokens.new result }
{
    if !next_is(Sort::Word(Word::Not), tokens) {
        return Ok(false);
    }
    take(Sort::Word(Word::Not), tokens)?;
    Ok(true)
}

/// `IS [NOT] NULL`: whether with NOT.
#[tactic(auto, unfolding(crate::specs::Expressions::null_words))]
pub fn null_words(tokens: &mut &[Lexeme]) -> Result<bool, SyntaxError>
    ensures { Gives spec.null_words tokens.old tokens.new result }
{
    take(Sort::Word(Word::Is), tokens)?;
    let is_not = maybe_not(tokens)?;
    take(Sort::Word(Word::Null), tokens)?;
    Ok(is_not)
}
