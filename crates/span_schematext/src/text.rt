//! From a schema text to its tables, or to the refusal and the place of the error.
ghost use Rattle.std.specs.Prelude.{◌≡◌, ◌≢◌, List, IfOk, IfErr};
ghost use Rattle.span_grammar.specs.Classes.{lexemes_of};
ghost use Rattle.span_grammar.specs.Judged.{IsRefused};
ghost use Rattle.span_grammar.specs.Rules.{most_openings};
ghost use Rattle.span_syntax.specs.Parsed.{GivesToEnd, read_to_end, Reports, Refuses, IsOrOutOfMemory};
ghost use Rattle.span_schema.specs.declared.table.Table.{Table as Declared};
ghost use Rattle.span_schematext.specs.Declarations as spec;
ghost use Rattle.span_schematext.specs.SchemaTexts.{AreTables, IsSchemaText, IsSchemaRefused, IsSchemaOrOutOfMemory, RefusesSchema};

use super::declaration::tables;
use span_grammar::class::Lexeme;
use span_grammar::classify::lexemes;
use span_grammar::judge::Goal;
use span_grammar::reader::MOST_OPENINGS;
use span_lexer::lexer::{ReadError, tokens as tokens_of};
use span_lexer::token::Token;
use span_primary::fault::SyntaxError;
use span_schema::schema::Schema;
use span_schema::table::Table;
use span_syntax::ending::{before_star, read_error, reported_place, require_end};
use span_value::refusal::Refusal;
use span_value::seq::Seq;
use std::alloc::{AllocError, Global};

/// The tables that all the tokens declare, of a text of these bytes.
#[tactic(auto, using(span_syntax::proofs::Parsing::whole_steps))]
fn read_all(alloc: Global, text: &[u8], tokens: &[Lexeme]) -> Result<Seq<Table>, SyntaxError>
    ensures { GivesToEnd result (read_to_end (spec.tables text.now most_openings) tokens.now) }
{
    let mut rest = tokens;
    let found = tables(alloc, text, MOST_OPENINGS, &mut rest)?;
    require_end(found, rest)
}

/// The place of an error, in a text of these bytes and tokens. The only error is out of memory.
fn place_of(
    alloc: Global,
    text: &[u8],
    tokens: &[Token],
    found: &[Lexeme],
    fault: SyntaxError,
) -> Result<usize, AllocError> {
    let Some((beginning, star)) = before_star(fault, found, tokens) else {
        return Ok(read_error(fault, found, text.len()).place);
    };
    let again = lexemes(alloc, text, beginning)?;
    let read = read_all(alloc, text, again.as_slice());
    reported_place(read, again.as_slice(), star)
}

/// The tables that the tokens of a text declare.
fn tables_of(alloc: Global, text: &[u8], tokens: &[Token]) -> Result<Seq<Table>, ReadError>
    ensures { Reports result (read_to_end (spec.tables text.now most_openings) (lexemes_of text.now tokens.now)) }
{
    let found = lexemes(alloc, text, tokens)?;
    match read_all(alloc, text, found.as_slice()) {
        Ok(found) => Ok(found),
        Err(fault) => {
            let place = place_of(alloc, text, tokens, found.as_slice(), fault)?;
            let ReadError { refusal, .. } = read_error(fault, found.as_slice(), text.len());
            Err(ReadError { refusal, place })
        }
    }
}

/// The tables that a text declares, whatever rules they break.
///
/// The error is `TextTooLong` for a text of more than 65,536 bytes; else `BadToken` where there is a place without a token; else
/// `Syntax` where there is a token, or the end, with which no tree goes on; or `OutOfMemory`. It also has the byte where the
/// error is.
pub fn parse_tables(alloc: Global, text: &str) -> Result<Seq<Table>, ReadError>
    ensures read { IfOk result (λ found. AreTables text.now found) }
    ensures read_all { (found : List Declared) → AreTables text.now found → IsOrOutOfMemory result found }
    ensures refused { IfErr result (λ why. IsRefused Goal.Schema text.now why.refusal) }
    ensures refused_all { (why : Refusal)
        → why ≢ Refusal.OutOfMemory
        → IsRefused Goal.Schema text.now why
        → Refuses result why }
{
    match tokens_of(alloc, text) {
        Ok(found) => tables_of(alloc, text.as_bytes(), found.as_slice()),
        Err(why) => Err(why),
    }
}

/// The schema that a text declares.
///
/// The error is the first of: what `parse_tables` refuses; a table that breaks a rule of schemas, as `Schema::new` checks them
/// (`TooMany`, `DuplicateTable`, `BadColumn`, `NoParent`, `KeyNotPrefixed`, `HierarchyTooDeep`); or `OutOfMemory`.
pub fn parse_schema(alloc: Global, text: &str) -> Result<Schema, Refusal>
    ensures read { IfOk result (λ schema. IsSchemaText text.now schema) }
    ensures read_all { (found : List Declared) → IsSchemaText text.now found → IsSchemaOrOutOfMemory result found }
    ensures refused { IfErr result (λ why. IsSchemaRefused text.now why) }
    ensures refused_all { (why : Refusal)
        → why ≢ Refusal.OutOfMemory
        → IsSchemaRefused text.now why
        → RefusesSchema result why }
{
    match parse_tables(alloc, text) {
        Ok(found) => Schema::new(alloc, found.into_vec()),
        Err(why) => Err(why.refusal),
    }
}
