//! Checks whether all the tokens of a text together are in the grammar.
ghost use Rattle.std.specs.Prelude.{◌≡◌};
ghost use Rattle.span_grammar.specs.Rules.{Tree, most_openings};
ghost use Rattle.span_grammar.specs.Grammar.{inside};
ghost use Rattle.span_grammar.specs.Texts.{HasTree, IsWrong, IsTooDeep};
ghost use Rattle.span_grammar.specs.Goals.{goal_part, goal_rule};
ghost use Rattle.span_grammar.specs.Reading.{text_read};

use super::class::Lexeme;
use super::grammar::Part;
use super::reader::{MOST_OPENINGS, Stop, read};

/// What a text must be.
#[derive(Clone, Copy, Debug, PartialEq, Eq)]
pub enum Goal {
    /// A query, with or without a semicolon at its end.
    Statement,
    /// The tables of a schema, separated by semicolons.
    Schema,
}

fn part_for(goal: Goal) -> Part
    ensures { result ≡ goal_part goal }
{
    match goal {
        Goal::Statement => Part::Statement,
        Goal::Schema => Part::Schema,
    }
}

#[tactic(auto, using(crate::proofs::Verdicts::text_steps))]
fn read_all(part: Part, tokens: &[Lexeme]) -> Result<(), Stop>
    ensures { result ≡ text_read part tokens.now }
{
    let rest = read(part, MOST_OPENINGS, tokens)?;
    if rest.is_empty() {
        Ok(())
    } else {
        Err(Stop::Syntax)
    }
}

/// Checks whether the tokens are in the grammar.
///
/// The error is `Syntax` where there is a token, or the end, with which no tree goes on, and `TooDeep` where there is a 33rd nested
/// opening, whichever comes first.
pub fn judge(goal: Goal, tokens: &[Lexeme]) -> Result<(), Stop>
    // What is accepted has a tree, and what has a tree is accepted.
    ensures read { result ≡ Ok tt → (x : Tree) × HasTree inside (goal_rule goal) tokens.now x }
    ensures read_all { (x : Tree) → HasTree inside (goal_rule goal) tokens.now x → result ≡ Ok tt }
    // A syntax error is where no tree goes on, before any opening that is too deep.
    ensures wrong { result ≡ Err Stop.Syntax → IsWrong inside (goal_rule goal) tokens.now }
    ensures wrong_all { IsWrong inside (goal_rule goal) tokens.now → result ≡ Err Stop.Syntax }
    // An opening is too deep, and up to it some tree goes on.
    ensures deep { result ≡ Err Stop.TooDeep → IsTooDeep inside (goal_rule goal) tokens.now }
    ensures deep_all { IsTooDeep inside (goal_rule goal) tokens.now → result ≡ Err Stop.TooDeep }
{
    read_all(part_for(goal), tokens)
}

/// A law, which takes no time: tokens have at most one tree.
pub fn tokens_have_one_tree(goal: Goal, tokens: &[Lexeme])
    ensures { (x y : Tree)
        → HasTree inside (goal_rule goal) tokens.now x
        → HasTree inside (goal_rule goal) tokens.now y
        → x ≡ y }
{}
