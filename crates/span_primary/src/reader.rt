//! Readers of what is inside an opening: of expressions, of lists of them and of the arms of CASE.
ghost use Rattle.std.specs.Prelude.{◌≡◌, ◌<◌};
ghost use Rattle.span_primary.specs.Expressions as spec;
ghost use Rattle.span_primary.specs.Nests.{Nests, ReadsAfter};
ghost use Rattle.span_primary.specs.Reading.{ReadsInside, ReadsEachInside};

use super::fault::SyntaxError;
use super::token::{next_is, take};
use span_grammar::class::{Lexeme, Sort};
use span_grammar::grammar::Part;
use span_grammar::reader::goes_on;
use span_lexer::token::{Sign, Word};
use span_trees::operator::prepend;
use span_trees::tree::{Arm, Expr, Spelling};
use span_value::owned::keep_with;
use sqlite_items::{Boxed, Items};
use std::alloc::Global;
use std::marker::Model;

/// What may come after an opening.
#[derive(Clone, Copy, Debug, PartialEq, Eq)]
pub enum Level {
    Expression,
    /// After NOT.
    Negated,
    /// After a minus.
    Signed,
}

/// Reads expressions, with `left` openings left.
#[derive(Drop)]
pub struct Reader<'t, F> {
    pub(crate) alloc: Global,
    /// The bytes of the text.
    pub(crate) text: &'t [u8],
    pub(crate) left: usize,
    /// Reads what is after an opening.
    read: F,
}

impl<'t, F> Model for Reader<'t, F> {
    ghost use Rattle.span_primary.specs.Reading.{Reading};

    ghost Value = { Reading F };

    ghost view = { λ r. record { text = r.text.now; left = r.left; read = r.read } };
}

impl<'t, F> Reader<'t, F> {
    /// A reader of this text, with `left` openings left.
    pub fn new(alloc: Global, text: &'t [u8], left: usize, read: F) -> Reader<'t, F>
        ensures { result ≡ record { text = text.now; left = left; read = read } }
    {
        Reader {
            alloc,
            text,
            left,
            read,
        }
    }
}

impl<F> Reader<'_, F>
where
    F: Fn(Global, &[u8], usize, Level, &mut &[Lexeme]) -> Result<Expr, SyntaxError>,
{
    /// What is after an opening.
    #[tactic(auto, using(crate::proofs::Levels::level_steps))]
    pub(crate) fn after(&self, level: Level, tokens: &mut &[Lexeme]) -> Result<Expr, SyntaxError>
        requires nests { Nests F.Fn self.now }
        requires deeper { 0 < self.now.left }
        ensures { ReadsAfter self.now level tokens.old tokens.new result }
    {
        (self.read)(self.alloc, self.text, self.left - 1, level, tokens)
    }

    /// `, expr`
    #[tactic(auto, unfolding(crate::specs::Expressions::list_more))]
    fn list_more(&self, tokens: &mut &[Lexeme]) -> Result<Expr, SyntaxError>
        requires nests { Nests F.Fn self.now }
        requires deeper { 0 < self.now.left }
        ensures { ReadsInside self.now spec.list_more tokens.old tokens.new result }
    {
        take(Sort::Sign(Sign::Comma), tokens)?;
        self.after(Level::Expression, tokens)
    }

    /// `{"," expr}`
    #[tactic(auto, using(crate::proofs::Shrinking::loop_steps))]
    fn list_rest(&self, tokens: &mut &[Lexeme]) -> Result<Items<Expr>, SyntaxError>
        requires nests { Nests F.Fn self.now }
        requires deeper { 0 < self.now.left }
        ensures { ReadsEachInside self.now Part.ListMore spec.list_more tokens.old tokens.new result }
    {
        let mut found = Items::new(self.alloc);
        while goes_on(Part::ListMore, tokens) {
            let next = self.list_more(tokens)?;
            found.push(next)?;
        }
        Ok(found)
    }

    /// Expressions, separated by commas.
    #[tactic(auto, unfolding(crate::specs::Expressions::list))]
    pub(crate) fn list(&self, tokens: &mut &[Lexeme]) -> Result<Items<Expr>, SyntaxError>
        requires nests { Nests F.Fn self.now }
        requires deeper { 0 < self.now.left }
        ensures { ReadsInside self.now spec.list tokens.old tokens.new result }
    {
        let first = self.after(Level::Expression, tokens)?;
        let (first, more) = keep_with(first, self.list_rest(tokens))?;
        Ok(prepend(self.alloc, first, more)?)
    }

    /// `THEN expr`
    #[tactic(auto, unfolding(crate::specs::Expressions::then_value))]
    fn then_value(&self, tokens: &mut &[Lexeme]) -> Result<Expr, SyntaxError>
        requires nests { Nests F.Fn self.now }
        requires deeper { 0 < self.now.left }
        ensures { ReadsInside self.now spec.then_value tokens.old tokens.new result }
    {
        take(Sort::Word(Word::Then), tokens)?;
        self.after(Level::Expression, tokens)
    }

    /// `WHEN expr THEN expr`
    #[tactic(auto, unfolding(crate::specs::Expressions::when, crate::specs::Expressions::arm_of))]
    fn when(&self, tokens: &mut &[Lexeme]) -> Result<Arm, SyntaxError>
        requires nests { Nests F.Fn self.now }
        requires deeper { 0 < self.now.left }
        ensures { ReadsInside self.now spec.when tokens.old tokens.new result }
    {
        take(Sort::Word(Word::When), tokens)?;
        let condition = self.after(Level::Expression, tokens)?;
        let (condition, value) = keep_with(condition, self.then_value(tokens))?;
        Ok(Arm { condition, value })
    }

    /// `{WHEN expr THEN expr}`
    #[tactic(auto, using(crate::proofs::Shrinking::loop_steps))]
    fn when_rest(&self, tokens: &mut &[Lexeme]) -> Result<Items<Arm>, SyntaxError>
        requires nests { Nests F.Fn self.now }
        requires deeper { 0 < self.now.left }
        ensures { ReadsEachInside self.now Part.When spec.when tokens.old tokens.new result }
    {
        let mut found = Items::new(self.alloc);
        while goes_on(Part::When, tokens) {
            let next = self.when(tokens)?;
            found.push(next)?;
        }
        Ok(found)
    }

    /// The operand of a CASE, if it has one.
    #[tactic(auto, unfolding(crate::specs::Expressions::case_operand))]
    fn case_operand(&self, tokens: &mut &[Lexeme]) -> Result<Option<Boxed<Expr>>, SyntaxError>
        requires nests { Nests F.Fn self.now }
        requires deeper { 0 < self.now.left }
        ensures { ReadsInside self.now spec.case_operand tokens.old tokens.new result }
    {
        if !goes_on(Part::Expression, tokens) {
            return Ok(None);
        }
        let operand = self.after(Level::Expression, tokens)?;
        Ok(Some(Boxed::new(self.alloc, operand)?))
    }

    /// `[ELSE expr]`
    #[tactic(auto, unfolding(crate::specs::Expressions::case_else))]
    fn case_else(&self, tokens: &mut &[Lexeme]) -> Result<Option<Boxed<Expr>>, SyntaxError>
        requires nests { Nests F.Fn self.now }
        requires deeper { 0 < self.now.left }
        ensures { ReadsInside self.now spec.case_else tokens.old tokens.new result }
    {
        if !goes_on(Part::Else, tokens) {
            return Ok(None);
        }
        take(Sort::Word(Word::Else), tokens)?;
        let value = self.after(Level::Expression, tokens)?;
        Ok(Some(Boxed::new(self.alloc, value)?))
    }

    /// `[ELSE expr] END`
    #[tactic(auto, unfolding(crate::specs::Expressions::case_end))]
    fn case_end(&self, tokens: &mut &[Lexeme]) -> Result<Option<Boxed<Expr>>, SyntaxError>
        requires nests { Nests F.Fn self.now }
        requires deeper { 0 < self.now.left }
        ensures { ReadsInside self.now spec.case_end tokens.old tokens.new result }
    {
        let otherwise = self.case_else(tokens)?;
        take(Sort::Word(Word::End), tokens)?;
        Ok(otherwise)
    }

    /// The arms of a CASE, and what ends it.
    #[tactic(auto, unfolding(crate::specs::Expressions::case_arms))]
    fn case_arms(
        &self,
        tokens: &mut &[Lexeme],
    ) -> Result<(Items<Arm>, Option<Boxed<Expr>>), SyntaxError>
        requires nests { Nests F.Fn self.now }
        requires deeper { 0 < self.now.left }
        ensures { ReadsInside self.now spec.case_arms tokens.old tokens.new result }
    {
        let arm = self.when(tokens)?;
        let (arm, more) = keep_with(arm, self.when_rest(tokens))?;
        let arms = prepend(self.alloc, arm, more)?;
        keep_with(arms, self.case_end(tokens))
    }

    /// What is after CASE.
    #[tactic(auto, using(span_trees::specs::declared::tree::Expr::the_lemmas), unfolding(crate::specs::Expressions::in_case, crate::specs::Expressions::case_of))]
    pub(crate) fn in_case(&self, tokens: &mut &[Lexeme]) -> Result<Expr, SyntaxError>
        requires nests { Nests F.Fn self.now }
        requires deeper { 0 < self.now.left }
        ensures { ReadsInside self.now spec.in_case tokens.old tokens.new result }
    {
        let operand = self.case_operand(tokens)?;
        let (arms, otherwise) = self.case_arms(tokens)?;
        Ok(Expr::Case(operand, arms, otherwise))
    }

    /// What is between the parentheses of a call.
    #[tactic(auto, unfolding(crate::specs::Expressions::argument_list))]
    pub(crate) fn argument_list(
        &self,
        name: Spelling,
        tokens: &mut &[Lexeme],
    ) -> Result<Expr, SyntaxError>
        requires nests { Nests F.Fn self.now }
        requires deeper { 0 < self.now.left }
        ensures { ReadsInside self.now (λ inside. spec.argument_list inside name) tokens.old tokens.new result }
    {
        if next_is(Sort::Sign(Sign::Star), tokens) {
            take(Sort::Sign(Sign::Star), tokens)?;
            return Ok(Expr::CallStar(name));
        }
        if goes_on(Part::List, tokens) {
            let operands = self.list(tokens)?;
            return Ok(Expr::Call(name, operands));
        }
        Ok(Expr::Call(name, Items::new(self.alloc)))
    }
}
