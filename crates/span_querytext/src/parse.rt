//! From a query text to its tree, or to the refusal and the place of the error.
ghost use Rattle.std.specs.Prelude.{◌≡◌, ◌≢◌, IfOk, IfErr};
ghost use Rattle.span_grammar.specs.Judged.{IsRefused};
ghost use Rattle.span_grammar.specs.Rules.{most_openings};
ghost use Rattle.span_parser.specs.Queries as spec;
ghost use Rattle.span_grammar.specs.Classes.{lexemes_of};
ghost use Rattle.span_syntax.specs.Parsed.{GivesToEnd, read_to_end, Reports, Refuses, IsOrOutOfMemory};
ghost use Rattle.span_parser.specs.Queries.{IsQuery};

use super::query::statement;
use span_grammar::class::Lexeme;
use span_grammar::classify::lexemes;
use span_grammar::judge::Goal;
use span_grammar::reader::MOST_OPENINGS;
use span_lexer::lexer::{ReadError, tokens};
use span_lexer::token::Token;
use span_parser::tree::Query;
use span_primary::fault::SyntaxError;
use span_syntax::ending::{before_star, read_error, reported_place, require_end};
use span_value::refusal::Refusal;
use std::alloc::{AllocError, Global};

/// The query that all the tokens are, of a text of these bytes.
#[tactic(auto, using(span_syntax::proofs::Parsing::whole_steps))]
fn read_statement(alloc: Global, text: &[u8], tokens: &[Lexeme]) -> Result<Query, SyntaxError>
    ensures { GivesToEnd result (read_to_end (spec.statement text.now most_openings) tokens.now) }
{
    let mut rest = tokens;
    let query = statement(alloc, text, MOST_OPENINGS, &mut rest)?;
    require_end(query, rest)
}

/// The place of an error, in a text of these bytes and tokens. The only error is out of memory.
fn place_of(
    alloc: Global,
    text: &[u8],
    tokens: &[Token],
    found: &[Lexeme],
    fault: SyntaxError,
) -> Result<usize, AllocError> {
    let Some((beginning, star)) = before_star(fault, found, tokens) else {
        return Ok(read_error(fault, found, text.len()).place);
    };
    let again = lexemes(alloc, text, beginning)?;
    let read = read_statement(alloc, text, again.as_slice());
    reported_place(read, again.as_slice(), star)
}

/// The query that the tokens of a text are.
fn query_of(alloc: Global, text: &[u8], tokens: &[Token]) -> Result<Query, ReadError>
    ensures { Reports result (read_to_end (spec.statement text.now most_openings) (lexemes_of text.now tokens.now)) }
{
    let found = lexemes(alloc, text, tokens)?;
    match read_statement(alloc, text, found.as_slice()) {
        Ok(query) => Ok(query),
        Err(fault) => {
            let place = place_of(alloc, text, tokens, found.as_slice(), fault)?;
            let ReadError { refusal, .. } = read_error(fault, found.as_slice(), text.len());
            Err(ReadError { refusal, place })
        }
    }
}

/// Parses a query, with or without a semicolon at its end.
///
/// The error is `TextTooLong` for a text of more than 65,536 bytes; else `BadToken` where there is a place without a token; else
/// `Syntax` where there is a token, or the end, with which no tree goes on, or `TooDeep` where there is a 33rd nested opening,
/// whichever comes first; or `OutOfMemory`. It also has the byte where the error is.
pub fn parse_select(alloc: Global, text: &str) -> Result<Query, ReadError>
    // The result is the query of the text's tree, and a text that has a tree is read.
    ensures read { IfOk result (λ query. IsQuery text.now query) }
    ensures read_all { (query : Query) → IsQuery text.now query → IsOrOutOfMemory result query }
    ensures refused { IfErr result (λ why. IsRefused Goal.Statement text.now why.refusal) }
    ensures refused_all { (why : Refusal)
        → why ≢ Refusal.OutOfMemory
        → IsRefused Goal.Statement text.now why
        → Refuses result why }
{
    match tokens(alloc, text) {
        Ok(found) => query_of(alloc, text.as_bytes(), found.as_slice()),
        Err(why) => Err(why),
    }
}
