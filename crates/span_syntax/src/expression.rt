//! Expressions, read from tokens: a function for each rule above the primary expressions.
//!
//! Each function is given the function that reads after an opening: so only one recurses, no deeper than openings may be nested.
ghost use Rattle.std.specs.Prelude.{◌≤◌};
ghost use Rattle.span_grammar.specs.Rules.{most_openings};
ghost use Rattle.span_primary.specs.Phrases.{Gives};
ghost use Rattle.span_primary.specs.Expressions as spec;
ghost use Rattle.span_primary.specs.Nests.{Nests, at};
ghost use Rattle.span_primary.specs.Reading.{Reads, ReadsEach};

use span_grammar::class::{Lexeme, Sort};
use span_grammar::grammar::Part;
use span_grammar::reader::goes_on;
use span_lexer::token::Word;
use span_primary::fault::SyntaxError;
use span_primary::reader::{Level, Reader};
use span_primary::sign::{comparison, maybe_not, sum_sign, term_sign};
use span_primary::token::take;
use span_trees::operator::{PredicateTest, apply_test, chain_of, conjunction_of, disjunction_of};
use span_trees::tree::{Expr, Link};
use span_value::owned::keep_with;
use sqlite_items::Items;
use std::alloc::Global;
use std::marker::Model;

/// Reads expressions, by what reads their primary expressions.
#[derive(Drop)]
struct ExpressionReader<'t, F> {
    alloc: Global,
    primary: Reader<'t, F>,
}

impl<'t, F> Model for ExpressionReader<'t, F> {
    ghost use Rattle.span_primary.specs.Reading.{Reading};

    ghost Value = { Reading F };

    ghost view = { λ r. r.primary };
}

impl<F> ExpressionReader<'_, F>
where
    F: Fn(Global, &[u8], usize, Level, &mut &[Lexeme]) -> Result<Expr, SyntaxError>,
{
    /// An operator and the operand after it.
    #[tactic(auto, unfolding(span_primary::specs::Expressions::term_more))]
    fn term_more(&self, tokens: &mut &[Lexeme]) -> Result<Link, SyntaxError>
        requires nests { Nests F.Fn self.now }
        ensures { Reads self.now spec.term_more tokens.old tokens.new result }
    {
        let operator = term_sign(tokens)?;
        let operand = self.primary.unary(tokens)?;
        Ok(Link { operator, operand })
    }

    /// The operators with their operands.
    #[tactic(auto, using(span_primary::proofs::Shrinking::loop_steps))]
    fn term_rest(&self, tokens: &mut &[Lexeme]) -> Result<Items<Link>, SyntaxError>
        requires nests { Nests F.Fn self.now }
        ensures { ReadsEach self.now Part.TermMore spec.term_more tokens.old tokens.new result }
    {
        let mut found = Items::new(self.alloc);
        while goes_on(Part::TermMore, tokens) {
            let next = self.term_more(tokens)?;
            found.push(next)?;
        }
        Ok(found)
    }

    /// `term`
    #[tactic(auto, using(span_primary::proofs::Loops::each_end), unfolding(span_primary::specs::Expressions::term))]
    fn term(&self, tokens: &mut &[Lexeme]) -> Result<Expr, SyntaxError>
        requires nests { Nests F.Fn self.now }
        ensures { Reads self.now spec.term tokens.old tokens.new result }
    {
        let first = self.primary.unary(tokens)?;
        if !goes_on(Part::TermMore, tokens) {
            return Ok(first);
        }
        let (first, more) = keep_with(first, self.term_rest(tokens))?;
        Ok(chain_of(self.alloc, first, more)?)
    }

    /// An operator and the operand after it.
    #[tactic(auto, unfolding(span_primary::specs::Expressions::sum_more))]
    fn sum_more(&self, tokens: &mut &[Lexeme]) -> Result<Link, SyntaxError>
        requires nests { Nests F.Fn self.now }
        ensures { Reads self.now spec.sum_more tokens.old tokens.new result }
    {
        let operator = sum_sign(tokens)?;
        let operand = self.term(tokens)?;
        Ok(Link { operator, operand })
    }

    /// The operators with their operands.
    #[tactic(auto, using(span_primary::proofs::Shrinking::loop_steps))]
    fn sum_rest(&self, tokens: &mut &[Lexeme]) -> Result<Items<Link>, SyntaxError>
        requires nests { Nests F.Fn self.now }
        ensures { ReadsEach self.now Part.SumMore spec.sum_more tokens.old tokens.new result }
    {
        let mut found = Items::new(self.alloc);
        while goes_on(Part::SumMore, tokens) {
            let next = self.sum_more(tokens)?;
            found.push(next)?;
        }
        Ok(found)
    }

    /// `sum`
    #[tactic(auto, using(span_primary::proofs::Loops::each_end), unfolding(span_primary::specs::Expressions::sum))]
    fn sum(&self, tokens: &mut &[Lexeme]) -> Result<Expr, SyntaxError>
        requires nests { Nests F.Fn self.now }
        ensures { Reads self.now spec.sum tokens.old tokens.new result }
    {
        let first = self.term(tokens)?;
        if !goes_on(Part::SumMore, tokens) {
            return Ok(first);
        }
        let (first, more) = keep_with(first, self.sum_rest(tokens))?;
        Ok(chain_of(self.alloc, first, more)?)
    }

    /// A comparison with an operand.
    #[tactic(auto, unfolding(span_primary::specs::Expressions::comparison_test))]
    fn comparison_test(&self, tokens: &mut &[Lexeme]) -> Result<(bool, PredicateTest), SyntaxError>
        requires nests { Nests F.Fn self.now }
        ensures { Reads self.now spec.comparison_test tokens.old tokens.new result }
    {
        let how = comparison(tokens)?;
        let second = self.sum(tokens)?;
        Ok((false, PredicateTest::Compared(how, second)))
    }

    /// `AND sum`, after the low end of a BETWEEN.
    #[tactic(auto, unfolding(span_primary::specs::Expressions::high_end))]
    fn high_end(&self, tokens: &mut &[Lexeme]) -> Result<Expr, SyntaxError>
        requires nests { Nests F.Fn self.now }
        ensures { Reads self.now spec.high_end tokens.old tokens.new result }
    {
        take(Sort::Word(Word::And), tokens)?;
        self.sum(tokens)
    }

    /// `BETWEEN sum AND sum`
    #[tactic(auto, unfolding(span_primary::specs::Expressions::between))]
    fn between(&self, tokens: &mut &[Lexeme]) -> Result<PredicateTest, SyntaxError>
        requires nests { Nests F.Fn self.now }
        ensures { Reads self.now spec.between tokens.old tokens.new result }
    {
        take(Sort::Word(Word::Between), tokens)?;
        let low = self.sum(tokens)?;
        let (low, high) = keep_with(low, self.high_end(tokens))?;
        Ok(PredicateTest::Between(low, high))
    }

    /// LIKE, BETWEEN or IN.
    #[tactic(auto, unfolding(span_primary::specs::Expressions::negatable_test))]
    fn negatable_test(&self, tokens: &mut &[Lexeme]) -> Result<PredicateTest, SyntaxError>
        requires nests { Nests F.Fn self.now }
        ensures { Reads self.now spec.negatable_test tokens.old tokens.new result }
    {
        if goes_on(Part::Like, tokens) {
            return self.primary.like(tokens);
        }
        if goes_on(Part::Between, tokens) {
            return self.between(tokens);
        }
        self.primary.within(tokens)
    }

    /// LIKE, BETWEEN or IN, with NOT or without.
    #[tactic(auto, unfolding(span_primary::specs::Expressions::maybe_not_test))]
    fn maybe_not_test(&self, tokens: &mut &[Lexeme]) -> Result<(bool, PredicateTest), SyntaxError>
        requires nests { Nests F.Fn self.now }
        ensures { Reads self.now spec.maybe_not_test tokens.old tokens.new result }
    {
        let is_not = maybe_not(tokens)?;
        let question = self.negatable_test(tokens)?;
        Ok((is_not, question))
    }

    /// What is asked of an operand, and whether with NOT.
    #[tactic(auto, unfolding(span_primary::specs::Expressions::predicate_rest))]
    fn predicate_rest(&self, tokens: &mut &[Lexeme]) -> Result<(bool, PredicateTest), SyntaxError>
        requires nests { Nests F.Fn self.now }
        ensures { Reads self.now spec.predicate_rest tokens.old tokens.new result }
    {
        if goes_on(Part::Compared, tokens) {
            return self.comparison_test(tokens);
        }
        if goes_on(Part::IsNull, tokens) {
            return self.primary.is_null(tokens);
        }
        if goes_on(Part::MaybeNotTest, tokens) {
            return self.maybe_not_test(tokens);
        }
        Ok((false, PredicateTest::Nothing))
    }

    /// `pred`
    #[tactic(auto, unfolding(span_primary::specs::Expressions::predicate))]
    fn predicate(&self, tokens: &mut &[Lexeme]) -> Result<Expr, SyntaxError>
        requires nests { Nests F.Fn self.now }
        ensures { Reads self.now spec.predicate tokens.old tokens.new result }
    {
        let first = self.sum(tokens)?;
        let (first, question) = keep_with(first, self.predicate_rest(tokens))?;
        Ok(apply_test(self.alloc, first, question)?)
    }

    /// `neg`
    #[tactic(auto, unfolding(span_primary::specs::Expressions::negated_predicate))]
    fn negated_predicate(&self, tokens: &mut &[Lexeme]) -> Result<Expr, SyntaxError>
        requires nests { Nests F.Fn self.now }
        ensures { Reads self.now spec.negated_predicate tokens.old tokens.new result }
    {
        if goes_on(Part::Negation, tokens) {
            return self.primary.negation(tokens);
        }
        self.predicate(tokens)
    }

    /// AND and the operand after it.
    #[tactic(auto, unfolding(span_primary::specs::Expressions::conjunction_more))]
    fn conjunction_more(&self, tokens: &mut &[Lexeme]) -> Result<Expr, SyntaxError>
        requires nests { Nests F.Fn self.now }
        ensures { Reads self.now spec.conjunction_more tokens.old tokens.new result }
    {
        take(Sort::Word(Word::And), tokens)?;
        self.negated_predicate(tokens)
    }

    /// The other operands of AND.
    #[tactic(auto, using(span_primary::proofs::Shrinking::loop_steps))]
    fn conjunction_rest(&self, tokens: &mut &[Lexeme]) -> Result<Items<Expr>, SyntaxError>
        requires nests { Nests F.Fn self.now }
        ensures { ReadsEach self.now Part.ConjunctionMore spec.conjunction_more tokens.old tokens.new result }
    {
        let mut found = Items::new(self.alloc);
        while goes_on(Part::ConjunctionMore, tokens) {
            let next = self.conjunction_more(tokens)?;
            found.push(next)?;
        }
        Ok(found)
    }

    /// `conj`
    #[tactic(auto, using(span_primary::proofs::Loops::each_end), unfolding(span_primary::specs::Expressions::conjunction))]
    fn conjunction(&self, tokens: &mut &[Lexeme]) -> Result<Expr, SyntaxError>
        requires nests { Nests F.Fn self.now }
        ensures { Reads self.now spec.conjunction tokens.old tokens.new result }
    {
        let first = self.negated_predicate(tokens)?;
        if !goes_on(Part::ConjunctionMore, tokens) {
            return Ok(first);
        }
        let (first, more) = keep_with(first, self.conjunction_rest(tokens))?;
        Ok(conjunction_of(self.alloc, first, more)?)
    }

    /// OR and the operand after it.
    #[tactic(auto, unfolding(span_primary::specs::Expressions::expression_more))]
    fn expression_more(&self, tokens: &mut &[Lexeme]) -> Result<Expr, SyntaxError>
        requires nests { Nests F.Fn self.now }
        ensures { Reads self.now spec.expression_more tokens.old tokens.new result }
    {
        take(Sort::Word(Word::Or), tokens)?;
        self.conjunction(tokens)
    }

    /// The other operands of OR.
    #[tactic(auto, using(span_primary::proofs::Shrinking::loop_steps))]
    fn expression_rest(&self, tokens: &mut &[Lexeme]) -> Result<Items<Expr>, SyntaxError>
        requires nests { Nests F.Fn self.now }
        ensures { ReadsEach self.now Part.ExpressionMore spec.expression_more tokens.old tokens.new result }
    {
        let mut found = Items::new(self.alloc);
        while goes_on(Part::ExpressionMore, tokens) {
            let next = self.expression_more(tokens)?;
            found.push(next)?;
        }
        Ok(found)
    }

    /// `expr`
    #[tactic(auto, using(span_primary::proofs::Loops::each_end), unfolding(span_primary::specs::Expressions::expression))]
    fn expression(&self, tokens: &mut &[Lexeme]) -> Result<Expr, SyntaxError>
        requires nests { Nests F.Fn self.now }
        ensures { Reads self.now spec.expression tokens.old tokens.new result }
    {
        let first = self.conjunction(tokens)?;
        if !goes_on(Part::ExpressionMore, tokens) {
            return Ok(first);
        }
        let (first, more) = keep_with(first, self.expression_rest(tokens))?;
        Ok(disjunction_of(self.alloc, first, more)?)
    }
}

/// An expression, or what else a level asks for, with `left` openings left. This function alone recurses.
#[tactic(auto, using(span_primary::proofs::Levels::level_steps))]
fn read(
    alloc: Global,
    text: &[u8],
    left: usize,
    level: Level,
    tokens: &mut &[Lexeme],
) -> Result<Expr, SyntaxError>
    requires { left ≤ most_openings }
    ensures { Gives (at level text.now left) tokens.old tokens.new result }
{
    let reader = ExpressionReader {
        alloc,
        primary: Reader::new(alloc, text, left, read),
    };
    match level {
        Level::Expression => reader.expression(tokens),
        Level::Negated => reader.negated_predicate(tokens),
        Level::Signed => reader.primary.signed_primary(tokens),
    }
}

/// An expression, with `left` openings left. The cursor moves past it.
///
/// The error is the first token with which no expression goes on, an opening where none is left, or out of memory.
pub fn read_expression(
    alloc: Global,
    text: &[u8],
    left: usize,
    tokens: &mut &[Lexeme],
) -> Result<Expr, SyntaxError>
    requires { left ≤ most_openings }
    ensures { Gives (spec.expression text.now left (spec.after text.now left)) tokens.old tokens.new result }
{
    read(alloc, text, left, Level::Expression, tokens)
}
