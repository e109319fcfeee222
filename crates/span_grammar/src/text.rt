//! Checks whether a query or schema text is in the grammar.
ghost use Rattle.std.specs.Prelude.{◌≡◌, ◌≢◌, IfErr};
ghost use Rattle.span_grammar.specs.Rules.{Tree};
ghost use Rattle.span_grammar.specs.Grammar.{inside};
ghost use Rattle.span_grammar.specs.Goals.{goal_rule};
ghost use Rattle.span_grammar.specs.Texts.{HasTree, IsWrong, IsTooDeep};
ghost use Rattle.span_grammar.specs.Classes.{lexemes_of};
ghost use Rattle.span_grammar.specs.Judged.{IsText, IsTokenRefusal, IsRefused, OrOutOfMemory};

use super::classify::lexemes;
use super::judge::{Goal, judge};
use super::reader::Stop;
use span_lexer::lexer::tokens;
use span_lexer::token::Token;
use span_value::refusal::Refusal;
use std::alloc::Global;

/// Whether a text of these bytes and tokens is in the grammar.
fn check_tokens(alloc: Global, goal: Goal, text: &[u8], tokens: &[Token]) -> Result<(), Refusal>
    ensures read { result ≡ Ok tt → (x : Tree) × HasTree inside (goal_rule goal) (lexemes_of text.now tokens.now) x }
    ensures read_all { (x : Tree) → HasTree inside (goal_rule goal) (lexemes_of text.now tokens.now) x
        → OrOutOfMemory result (Ok tt) }
    ensures refused { IfErr result (λ why. IsTokenRefusal goal (lexemes_of text.now tokens.now) why) }
    ensures wrong_all { IsWrong inside (goal_rule goal) (lexemes_of text.now tokens.now)
        → OrOutOfMemory result (Err Refusal.Syntax) }
    ensures deep_all { IsTooDeep inside (goal_rule goal) (lexemes_of text.now tokens.now)
        → OrOutOfMemory result (Err Refusal.TooDeep) }
{
    let found = lexemes(alloc, text, tokens)?;
    match judge(goal, found.as_slice()) {
        Ok(()) => Ok(()),
        Err(Stop::Syntax) => Err(Refusal::Syntax),
        Err(Stop::TooDeep) => Err(Refusal::TooDeep),
    }
}

/// Checks whether a text is a query, or a schema.
///
/// The error is `TextTooLong` for a text of more than 65,536 bytes; else `BadToken` where there is a place without a token; else
/// `Syntax` where there is a token, or the end, with which no tree goes on, or `TooDeep` where there is a 33rd nested opening,
/// whichever comes first; or `OutOfMemory`.
pub fn check_text(alloc: Global, goal: Goal, text: &str) -> Result<(), Refusal>
    ensures read { result ≡ Ok tt → IsText goal text.now }
    ensures read_all { IsText goal text.now → OrOutOfMemory result (Ok tt) }
    ensures refused { IfErr result (λ why. IsRefused goal text.now why) }
    ensures refused_all { (why : Refusal) → why ≢ Refusal.OutOfMemory → IsRefused goal text.now why
        → OrOutOfMemory result (Err why) }
{
    match tokens(alloc, text) {
        Ok(found) => check_tokens(alloc, goal, text.as_bytes(), found.as_slice()),
        Err(why) => Err(why.refusal),
    }
}
