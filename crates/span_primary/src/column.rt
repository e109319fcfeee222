//! Columns, by their names, and which way they are sorted.
ghost use Rattle.std.specs.Prelude.{◌≡◌};
ghost use Rattle.span_primary.specs.Phrases.{Gives};
ghost use Rattle.span_primary.specs.Expressions as spec;

use super::fault::SyntaxError;
use super::token::{next_is, spelling, take};
use span_grammar::class::{Lexeme, Sort};
use span_grammar::grammar::Part;
use span_grammar::reader::goes_on;
use span_lexer::token::{Sign, Word};
use span_trees::tree::{Column, Spelling};
use std::alloc::Global;

/// A column, of which the first name was read.
#[tactic(auto, unfolding(crate::specs::Expressions::qualified_column, crate::specs::Expressions::qualifier))]
pub(crate) fn qualified_column(
    alloc: Global,
    text: &[u8],
    first: Spelling,
    tokens: &mut &[Lexeme],
) -> Result<Column, SyntaxError>
    ensures { Gives (spec.qualified_column text.now first) tokens.old tokens.new result }
{
    if !goes_on(Part::Qualifier, tokens) {
        return Ok(Column {
            table: None,
            name: first,
        });
    }
    take(Sort::Sign(Sign::Dot), tokens)?;
    let name = spelling(alloc, text, Sort::Name, tokens)?;
    Ok(Column {
        table: Some(first),
        name,
    })
}

/// A column of a table or of none.
#[tactic(auto, unfolding(crate::specs::Expressions::column))]
pub fn column(alloc: Global, text: &[u8], tokens: &mut &[Lexeme]) -> Result<Column, SyntaxError>
    ensures { Gives (spec.column text.now) tokens.old tokens.new result }
{
    let first = spelling(alloc, text, Sort::Name, tokens)?;
    qualified_column(alloc, text, first, tokens)
}

/// `[ASC | DESC]`: whether it descends.
#[tactic(auto, unfolding(crate::specs::Expressions::direction))]
pub fn direction(tokens: &mut &[Lexeme]) -> Result<bool, SyntaxError>
    ensures { Gives spec.direction tokens.old tokens.new result }
{
    if next_is(Sort::Word(Word::Asc), tokens) {
        take(Sort::Word(Word::Asc), tokens)?;
        return Ok(false);
    }
    if next_is(Sort::Word(Word::Desc), tokens) {
        take(Sort::Word(Word::Desc), tokens)?;
        return Ok(true);
    }
    Ok(false)
}
