//! Primary expressions, read from tokens: a function for each rule; and the tests of an operand that ask for no other.
//!
//! Each function knows the number of openings left, and is given the function that reads after one.
ghost use Rattle.span_primary.specs.Expressions as spec;
ghost use Rattle.span_primary.specs.Nests.{Nests};
ghost use Rattle.span_primary.specs.Reading.{Reads};

use super::column::qualified_column;
use super::fault::SyntaxError;
use super::reader::{Level, Reader};
use super::sign::null_words;
use super::token::{close_parenthesis, enter, integer_of, next_is, span_of, spelling, take};
use span_grammar::class::{Lexeme, Sort};
use span_grammar::grammar::Part;
use span_grammar::reader::goes_on;
use span_lexer::token::{Sign, Word};
use span_trees::operator::PredicateTest;
use span_trees::tree::{Expr, Spelling};
use sqlite_items::{Boxed, Items};
use std::alloc::Global;

impl<F> Reader<'_, F>
where
    F: Fn(Global, &[u8], usize, Level, &mut &[Lexeme]) -> Result<Expr, SyntaxError>,
{
    /// `"(" expr ")"`
    #[tactic(auto, unfolding(crate::specs::Expressions::parenthesis))]
    fn parenthesis(&self, tokens: &mut &[Lexeme]) -> Result<Expr, SyntaxError>
        requires nests { Nests F.Fn self.now }
        ensures { Reads self.now spec.parenthesis tokens.old tokens.new result }
    {
        enter(self.left, Sort::Sign(Sign::Open), tokens)?;
        let inner = self.after(Level::Expression, tokens)?;
        close_parenthesis(inner, tokens)
    }

    /// A call, after its name.
    #[tactic(auto, unfolding(crate::specs::Expressions::arguments))]
    fn arguments(&self, name: Spelling, tokens: &mut &[Lexeme]) -> Result<Expr, SyntaxError>
        requires nests { Nests F.Fn self.now }
        ensures { Reads self.now (λ text n inner. spec.arguments text n inner name) tokens.old tokens.new result }
    {
        enter(self.left, Sort::Sign(Sign::Open), tokens)?;
        let call = self.argument_list(name, tokens)?;
        close_parenthesis(call, tokens)
    }

    /// `"(" expr {"," expr} ")"`
    #[tactic(auto, unfolding(crate::specs::Expressions::members))]
    fn members(&self, tokens: &mut &[Lexeme]) -> Result<Items<Expr>, SyntaxError>
        requires nests { Nests F.Fn self.now }
        ensures { Reads self.now spec.members tokens.old tokens.new result }
    {
        enter(self.left, Sort::Sign(Sign::Open), tokens)?;
        let found = self.list(tokens)?;
        close_parenthesis(found, tokens)
    }

    /// A CASE.
    #[tactic(auto, unfolding(crate::specs::Expressions::case))]
    fn case(&self, tokens: &mut &[Lexeme]) -> Result<Expr, SyntaxError>
        requires nests { Nests F.Fn self.now }
        ensures { Reads self.now spec.case tokens.old tokens.new result }
    {
        enter(self.left, Sort::Word(Word::Case), tokens)?;
        self.in_case(tokens)
    }

    /// `NOT neg`
    #[tactic(auto, unfolding(crate::specs::Expressions::negation))]
    pub fn negation(&self, tokens: &mut &[Lexeme]) -> Result<Expr, SyntaxError>
        requires nests { Nests F.Fn self.now }
        ensures { Reads self.now spec.negation tokens.old tokens.new result }
    {
        enter(self.left, Sort::Word(Word::Not), tokens)?;
        let operand = self.after(Level::Negated, tokens)?;
        Ok(Expr::Not(Boxed::new(self.alloc, operand)?))
    }

    /// `"-" unary`
    #[tactic(auto, unfolding(crate::specs::Expressions::opposite))]
    fn opposite(&self, tokens: &mut &[Lexeme]) -> Result<Expr, SyntaxError>
        requires nests { Nests F.Fn self.now }
        ensures { Reads self.now spec.opposite tokens.old tokens.new result }
    {
        enter(self.left, Sort::Sign(Sign::Minus), tokens)?;
        self.after(Level::Signed, tokens)
    }

    /// A call or a column, after its name.
    #[tactic(auto, unfolding(crate::specs::Expressions::after_name))]
    fn after_name(&self, name: Spelling, tokens: &mut &[Lexeme]) -> Result<Expr, SyntaxError>
        requires nests { Nests F.Fn self.now }
        ensures { Reads self.now (λ text n inner. spec.after_name text n inner name) tokens.old tokens.new result }
    {
        if goes_on(Part::Arguments, tokens) {
            return self.arguments(name, tokens);
        }
        let column = qualified_column(self.alloc, self.text, name, tokens)?;
        Ok(Expr::Column(column))
    }

    /// A call or a column.
    #[tactic(auto, unfolding(crate::specs::Expressions::call_or_column))]
    fn call_or_column(&self, tokens: &mut &[Lexeme]) -> Result<Expr, SyntaxError>
        requires nests { Nests F.Fn self.now }
        ensures { Reads self.now spec.call_or_column tokens.old tokens.new result }
    {
        let name = spelling(self.alloc, self.text, Sort::Name, tokens)?;
        self.after_name(name, tokens)
    }

    /// A call of IF.
    #[tactic(auto, unfolding(crate::specs::Expressions::if_call))]
    fn if_call(&self, tokens: &mut &[Lexeme]) -> Result<Expr, SyntaxError>
        requires nests { Nests F.Fn self.now }
        ensures { Reads self.now spec.if_call tokens.old tokens.new result }
    {
        let name = spelling(self.alloc, self.text, Sort::Word(Word::If), tokens)?;
        self.arguments(name, tokens)
    }

    /// A call, a column, a CASE or an expression in parentheses.
    #[tactic(auto, unfolding(crate::specs::Expressions::compound))]
    fn compound(&self, tokens: &mut &[Lexeme]) -> Result<Expr, SyntaxError>
        requires nests { Nests F.Fn self.now }
        ensures { Reads self.now spec.compound tokens.old tokens.new result }
    {
        if goes_on(Part::Named, tokens) {
            return self.call_or_column(tokens);
        }
        if goes_on(Part::IfCall, tokens) {
            return self.if_call(tokens);
        }
        if goes_on(Part::Case, tokens) {
            return self.case(tokens);
        }
        self.parenthesis(tokens)
    }

    /// TRUE, FALSE, NULL, a parameter, or what has other parts.
    #[tactic(auto, unfolding(crate::specs::Expressions::word_literal))]
    fn word_literal(&self, tokens: &mut &[Lexeme]) -> Result<Expr, SyntaxError>
        requires nests { Nests F.Fn self.now }
        ensures { Reads self.now spec.word_literal tokens.old tokens.new result }
    {
        if next_is(Sort::Word(Word::True), tokens) {
            let found = take(Sort::Word(Word::True), tokens)?;
            return Ok(Expr::Truth(true, span_of(&found.token)));
        }
        if next_is(Sort::Word(Word::False), tokens) {
            let found = take(Sort::Word(Word::False), tokens)?;
            return Ok(Expr::Truth(false, span_of(&found.token)));
        }
        if next_is(Sort::Word(Word::Null), tokens) {
            let found = take(Sort::Word(Word::Null), tokens)?;
            return Ok(Expr::Null(span_of(&found.token)));
        }
        if next_is(Sort::Parameter, tokens) {
            let name = spelling(self.alloc, self.text, Sort::Parameter, tokens)?;
            return Ok(Expr::Parameter(name));
        }
        self.compound(tokens)
    }

    /// `prim`, but no integer.
    #[tactic(auto, unfolding(crate::specs::Expressions::other_primary))]
    fn other_primary(&self, tokens: &mut &[Lexeme]) -> Result<Expr, SyntaxError>
        requires nests { Nests F.Fn self.now }
        ensures { Reads self.now spec.other_primary tokens.old tokens.new result }
    {
        if next_is(Sort::Str, tokens) {
            let literal = spelling(self.alloc, self.text, Sort::Str, tokens)?;
            return Ok(Expr::Str(literal));
        }
        if next_is(Sort::Bytes, tokens) {
            let literal = spelling(self.alloc, self.text, Sort::Bytes, tokens)?;
            return Ok(Expr::Bytes(literal));
        }
        self.word_literal(tokens)
    }

    /// `prim`
    #[tactic(auto, unfolding(crate::specs::Expressions::primary))]
    fn primary(&self, tokens: &mut &[Lexeme]) -> Result<Expr, SyntaxError>
        requires nests { Nests F.Fn self.now }
        ensures { Reads self.now spec.primary tokens.old tokens.new result }
    {
        if next_is(Sort::Int, tokens) {
            let found = take(Sort::Int, tokens)?;
            return Ok(Expr::Integer(integer_of(false, found)));
        }
        self.other_primary(tokens)
    }

    /// `unary`
    #[tactic(auto, unfolding(crate::specs::Expressions::unary))]
    pub fn unary(&self, tokens: &mut &[Lexeme]) -> Result<Expr, SyntaxError>
        requires nests { Nests F.Fn self.now }
        ensures { Reads self.now spec.unary tokens.old tokens.new result }
    {
        if goes_on(Part::Opposite, tokens) {
            return self.opposite(tokens);
        }
        self.primary(tokens)
    }

    /// `unary`, but no integer.
    #[tactic(auto, unfolding(crate::specs::Expressions::other_unary))]
    fn other_unary(&self, tokens: &mut &[Lexeme]) -> Result<Expr, SyntaxError>
        requires nests { Nests F.Fn self.now }
        ensures { Reads self.now spec.other_unary tokens.old tokens.new result }
    {
        if goes_on(Part::Opposite, tokens) {
            return self.opposite(tokens);
        }
        self.other_primary(tokens)
    }

    /// What is after a minus. One directly before an integer belongs to it.
    #[tactic(auto, unfolding(crate::specs::Expressions::signed_primary))]
    pub fn signed_primary(&self, tokens: &mut &[Lexeme]) -> Result<Expr, SyntaxError>
        requires nests { Nests F.Fn self.now }
        ensures { Reads self.now spec.signed_primary tokens.old tokens.new result }
    {
        if next_is(Sort::Int, tokens) {
            let found = take(Sort::Int, tokens)?;
            return Ok(Expr::Integer(integer_of(true, found)));
        }
        let operand = self.other_unary(tokens)?;
        Ok(Expr::Negative(Boxed::new(self.alloc, operand)?))
    }

    /// `IS [NOT] NULL`
    #[tactic(auto, unfolding(crate::specs::Expressions::is_null))]
    pub fn is_null(&self, tokens: &mut &[Lexeme]) -> Result<(bool, PredicateTest), SyntaxError>
        requires nests { Nests F.Fn self.now }
        ensures { Reads self.now spec.is_null tokens.old tokens.new result }
    {
        let is_not = null_words(tokens)?;
        Ok((is_not, PredicateTest::IsNull))
    }

    /// `LIKE string`
    #[tactic(auto, unfolding(crate::specs::Expressions::like))]
    pub fn like(&self, tokens: &mut &[Lexeme]) -> Result<PredicateTest, SyntaxError>
        requires nests { Nests F.Fn self.now }
        ensures { Reads self.now spec.like tokens.old tokens.new result }
    {
        take(Sort::Word(Word::Like), tokens)?;
        let pattern = spelling(self.alloc, self.text, Sort::Str, tokens)?;
        Ok(PredicateTest::Like(pattern))
    }

    /// `IN "(" expr {"," expr} ")"`
    #[tactic(auto, unfolding(crate::specs::Expressions::within))]
    pub fn within(&self, tokens: &mut &[Lexeme]) -> Result<PredicateTest, SyntaxError>
        requires nests { Nests F.Fn self.now }
        ensures { Reads self.now spec.within tokens.old tokens.new result }
    {
        take(Sort::Word(Word::In), tokens)?;
        let members = self.members(tokens)?;
        Ok(PredicateTest::In(members))
    }
}
