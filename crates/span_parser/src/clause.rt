//! The clauses of queries, read from tokens: a function for each rule.
ghost use Rattle.span_primary.specs.Phrases.{Gives, each};
ghost use Rattle.span_parser.specs.Queries as spec;
ghost use Rattle.span_parser.specs.QueryTexts.{Reads, ReadsEach};

use super::tree::{Limit, Output, SortColumn, SortKey};
use span_grammar::class::{Context, Lexeme, Sort};
use span_grammar::grammar::Part;
use span_grammar::reader::goes_on;
use span_lexer::token::{Sign, Word};
use span_primary::column::{column, direction};
use span_primary::fault::SyntaxError;
use span_primary::token::{integer_of, integer_value, next_is, spelling, take};
use span_syntax::expression::read_expression;
use span_trees::operator::prepend;
use span_trees::tree::{Column, Expr, Spelling};
use span_value::owned::keep_with;
use sqlite_items::Items;
use std::alloc::Global;
use std::marker::Model;

/// `AS name`
#[tactic(auto, unfolding(crate::specs::Queries::as_name))]
fn as_name(alloc: Global, text: &[u8], tokens: &mut &[Lexeme]) -> Result<Spelling, SyntaxError>
    ensures { Gives (spec.as_name text.now) tokens.old tokens.new result }
{
    take(Sort::Word(Word::As), tokens)?;
    spelling(alloc, text, Sort::Name, tokens)
}

/// `[[AS] name]`
#[tactic(auto, unfolding(crate::specs::Queries::alias))]
pub fn alias(
    alloc: Global,
    text: &[u8],
    tokens: &mut &[Lexeme],
) -> Result<Option<Spelling>, SyntaxError>
    ensures { Gives (spec.alias text.now) tokens.old tokens.new result }
{
    if goes_on(Part::AsName, tokens) {
        let name = as_name(alloc, text, tokens)?;
        return Ok(Some(name));
    }
    if next_is(Sort::Name, tokens) {
        let name = spelling(alloc, text, Sort::Name, tokens)?;
        return Ok(Some(name));
    }
    Ok(None)
}

/// `[AS] name`
#[tactic(auto, unfolding(crate::specs::Queries::required_alias))]
pub fn required_alias(
    alloc: Global,
    text: &[u8],
    tokens: &mut &[Lexeme],
) -> Result<Spelling, SyntaxError>
    ensures { Gives (spec.required_alias text.now) tokens.old tokens.new result }
{
    if goes_on(Part::AsName, tokens) {
        return as_name(alloc, text, tokens);
    }
    spelling(alloc, text, Sort::Name, tokens)
}

/// `[ALL | DISTINCT]`: whether it is DISTINCT.
#[tactic(auto, unfolding(crate::specs::Queries::quantifier))]
pub fn quantifier(tokens: &mut &[Lexeme]) -> Result<bool, SyntaxError>
    ensures { Gives spec.quantifier tokens.old tokens.new result }
{
    if next_is(Sort::Word(Word::All), tokens) {
        take(Sort::Word(Word::All), tokens)?;
        return Ok(false);
    }
    if next_is(Sort::Word(Word::Distinct), tokens) {
        take(Sort::Word(Word::Distinct), tokens)?;
        return Ok(true);
    }
    Ok(false)
}

/// `[OUTER]`
#[tactic(auto, unfolding(crate::specs::Queries::maybe_outer))]
fn maybe_outer(tokens: &mut &[Lexeme]) -> Result<bool, SyntaxError>
    ensures { Gives spec.maybe_outer tokens.old tokens.new result }
{
    if next_is(Sort::Word(Word::Outer), tokens) {
        take(Sort::Word(Word::Outer), tokens)?;
        return Ok(true);
    }
    Ok(false)
}

/// A name or a place.
#[tactic(auto, unfolding(crate::specs::Queries::sort_column))]
fn sort_column(
    alloc: Global,
    text: &[u8],
    tokens: &mut &[Lexeme],
) -> Result<SortColumn, SyntaxError>
    ensures { Gives (spec.sort_column text.now) tokens.old tokens.new result }
{
    if next_is(Sort::Name, tokens) {
        let name = spelling(alloc, text, Sort::Name, tokens)?;
        return Ok(SortColumn::Name(name));
    }
    let place = take(Sort::Int, tokens)?;
    Ok(SortColumn::Place(integer_of(false, place)))
}

/// `key`
#[tactic(auto, unfolding(crate::specs::Queries::sort_key))]
fn sort_key(alloc: Global, text: &[u8], tokens: &mut &[Lexeme]) -> Result<SortKey, SyntaxError>
    ensures { Gives (spec.sort_key text.now) tokens.old tokens.new result }
{
    let column = sort_column(alloc, text, tokens)?;
    let is_descending = direction(tokens)?;
    Ok(SortKey {
        column,
        is_descending,
    })
}

/// `, key`
#[tactic(auto, unfolding(crate::specs::Queries::sort_key_more))]
fn sort_key_more(alloc: Global, text: &[u8], tokens: &mut &[Lexeme]) -> Result<SortKey, SyntaxError>
    ensures { Gives (spec.sort_key_more text.now) tokens.old tokens.new result }
{
    take(Sort::Sign(Sign::Comma), tokens)?;
    sort_key(alloc, text, tokens)
}

/// `{"," key}`
#[tactic(auto, using(crate::proofs::Falling::loop_steps))]
fn sort_key_rest(
    alloc: Global,
    text: &[u8],
    tokens: &mut &[Lexeme],
) -> Result<Items<SortKey>, SyntaxError>
    ensures { Gives (each Part.SortKeyMore (spec.sort_key_more text.now)) tokens.old tokens.new result }
{
    let mut found = Items::new(alloc);
    'turns: while goes_on(Part::SortKeyMore, tokens) {
        let next = sort_key_more(alloc, text, tokens)?;
        found.push(next)?;
    }
    Ok(found)
}

/// `key {"," key}`
#[tactic(auto, unfolding(crate::specs::Queries::sort_keys))]
fn sort_keys(
    alloc: Global,
    text: &[u8],
    tokens: &mut &[Lexeme],
) -> Result<Items<SortKey>, SyntaxError>
    ensures { Gives (spec.sort_keys text.now) tokens.old tokens.new result }
{
    let first = sort_key(alloc, text, tokens)?;
    let more = sort_key_rest(alloc, text, tokens)?;
    Ok(prepend(alloc, first, more)?)
}

/// `ORDER BY key {"," key}`
#[tactic(auto, unfolding(crate::specs::Queries::order_by))]
fn order_by(
    alloc: Global,
    text: &[u8],
    tokens: &mut &[Lexeme],
) -> Result<Items<SortKey>, SyntaxError>
    ensures { Gives (spec.order_by text.now) tokens.old tokens.new result }
{
    take(Sort::Word(Word::Order), tokens)?;
    take(Sort::Word(Word::By), tokens)?;
    sort_keys(alloc, text, tokens)
}

/// The keys of an ORDER BY, if there is one.
#[tactic(auto, unfolding(crate::specs::Queries::maybe_order_by))]
pub fn maybe_order_by(
    alloc: Global,
    text: &[u8],
    tokens: &mut &[Lexeme],
) -> Result<Items<SortKey>, SyntaxError>
    ensures { Gives (spec.maybe_order_by text.now) tokens.old tokens.new result }
{
    if !goes_on(Part::OrderBy, tokens) {
        return Ok(Items::new(alloc));
    }
    order_by(alloc, text, tokens)
}

/// `OFFSET int`
#[tactic(auto, unfolding(crate::specs::Queries::skip))]
pub(crate) fn skip(tokens: &mut &[Lexeme]) -> Result<u64, SyntaxError>
    ensures { Gives spec.skip tokens.old tokens.new result }
{
    take(Sort::Context(Context::Offset), tokens)?;
    let rows = take(Sort::Int, tokens)?;
    Ok(integer_value(rows.token.kind))
}

/// The number of rows that are skipped.
#[tactic(auto, unfolding(crate::specs::Queries::maybe_skip))]
fn maybe_skip(tokens: &mut &[Lexeme]) -> Result<u64, SyntaxError>
    ensures { Gives spec.maybe_skip tokens.old tokens.new result }
{
    if !goes_on(Part::Skip, tokens) {
        return Ok(0);
    }
    skip(tokens)
}

/// `LIMIT int [OFFSET int]`
#[tactic(auto, unfolding(crate::specs::Queries::limit_clause))]
fn limit_clause(tokens: &mut &[Lexeme]) -> Result<Limit, SyntaxError>
    ensures { Gives spec.limit_clause tokens.old tokens.new result }
{
    take(Sort::Word(Word::Limit), tokens)?;
    let rows = take(Sort::Int, tokens)?;
    let skip = maybe_skip(tokens)?;
    let rows = integer_value(rows.token.kind);
    Ok(Limit { rows, skip })
}

/// A LIMIT, if there is one.
#[tactic(auto, unfolding(crate::specs::Queries::maybe_limit))]
pub fn maybe_limit(tokens: &mut &[Lexeme]) -> Result<Option<Limit>, SyntaxError>
    ensures { Gives spec.maybe_limit tokens.old tokens.new result }
{
    if !goes_on(Part::Limit, tokens) {
        return Ok(None);
    }
    let found = limit_clause(tokens)?;
    Ok(Some(found))
}

/// `, col`
#[tactic(auto, unfolding(crate::specs::Queries::column_more))]
fn column_more(alloc: Global, text: &[u8], tokens: &mut &[Lexeme]) -> Result<Column, SyntaxError>
    ensures { Gives (spec.column_more text.now) tokens.old tokens.new result }
{
    take(Sort::Sign(Sign::Comma), tokens)?;
    column(alloc, text, tokens)
}

/// `{"," col}`
#[tactic(auto, using(crate::proofs::Falling::loop_steps))]
fn column_rest(
    alloc: Global,
    text: &[u8],
    tokens: &mut &[Lexeme],
) -> Result<Items<Column>, SyntaxError>
    ensures { Gives (each Part.ColumnMore (spec.column_more text.now)) tokens.old tokens.new result }
{
    let mut found = Items::new(alloc);
    'turns: while goes_on(Part::ColumnMore, tokens) {
        let next = column_more(alloc, text, tokens)?;
        found.push(next)?;
    }
    Ok(found)
}

/// `col {"," col}`
#[tactic(auto, unfolding(crate::specs::Queries::columns))]
fn columns(alloc: Global, text: &[u8], tokens: &mut &[Lexeme]) -> Result<Items<Column>, SyntaxError>
    ensures { Gives (spec.columns text.now) tokens.old tokens.new result }
{
    let first = column(alloc, text, tokens)?;
    let more = column_rest(alloc, text, tokens)?;
    Ok(prepend(alloc, first, more)?)
}

/// `GROUP BY col {"," col}`
#[tactic(auto, unfolding(crate::specs::Queries::group_by))]
fn group_by(
    alloc: Global,
    text: &[u8],
    tokens: &mut &[Lexeme],
) -> Result<Items<Column>, SyntaxError>
    ensures { Gives (spec.group_by text.now) tokens.old tokens.new result }
{
    take(Sort::Word(Word::Group), tokens)?;
    take(Sort::Word(Word::By), tokens)?;
    columns(alloc, text, tokens)
}

/// The columns of a GROUP BY, if there is one.
#[tactic(auto, unfolding(crate::specs::Queries::maybe_group_by))]
fn maybe_group_by(
    alloc: Global,
    text: &[u8],
    tokens: &mut &[Lexeme],
) -> Result<Items<Column>, SyntaxError>
    ensures { Gives (spec.maybe_group_by text.now) tokens.old tokens.new result }
{
    if !goes_on(Part::GroupBy, tokens) {
        return Ok(Items::new(alloc));
    }
    group_by(alloc, text, tokens)
}

/// `name "." "*"`
#[tactic(auto, unfolding(crate::specs::Queries::all_of_table))]
fn all_of_table(alloc: Global, text: &[u8], tokens: &mut &[Lexeme]) -> Result<Output, SyntaxError>
    ensures { Gives (spec.all_of_table text.now) tokens.old tokens.new result }
{
    let name = spelling(alloc, text, Sort::AllOf, tokens)?;
    take(Sort::Sign(Sign::Dot), tokens)?;
    take(Sort::Sign(Sign::Star), tokens)?;
    Ok(Output::AllOf(name))
}

/// `INNER JOIN`
#[tactic(auto, unfolding(crate::specs::Queries::inner_join))]
fn inner_join(tokens: &mut &[Lexeme]) -> Result<bool, SyntaxError>
    ensures { Gives spec.inner_join tokens.old tokens.new result }
{
    take(Sort::Word(Word::Inner), tokens)?;
    take(Sort::Word(Word::Join), tokens)?;
    Ok(false)
}

/// `LEFT [OUTER] JOIN`
#[tactic(auto, unfolding(crate::specs::Queries::left_join))]
fn left_join(tokens: &mut &[Lexeme]) -> Result<bool, SyntaxError>
    ensures { Gives spec.left_join tokens.old tokens.new result }
{
    take(Sort::Word(Word::Left), tokens)?;
    maybe_outer(tokens)?;
    take(Sort::Word(Word::Join), tokens)?;
    Ok(true)
}

/// Whether a join is a LEFT JOIN.
#[tactic(auto, unfolding(crate::specs::Queries::join_kind))]
pub fn join_kind(tokens: &mut &[Lexeme]) -> Result<bool, SyntaxError>
    ensures { Gives spec.join_kind tokens.old tokens.new result }
{
    if goes_on(Part::InnerJoin, tokens) {
        return inner_join(tokens);
    }
    if next_is(Sort::Word(Word::Join), tokens) {
        take(Sort::Word(Word::Join), tokens)?;
        return Ok(false);
    }
    left_join(tokens)
}

/// `[";"]`
#[tactic(auto, unfolding(crate::specs::Queries::maybe_semicolon))]
pub fn maybe_semicolon(tokens: &mut &[Lexeme]) -> Result<bool, SyntaxError>
    ensures { Gives spec.maybe_semicolon tokens.old tokens.new result }
{
    if !next_is(Sort::AnySemicolon, tokens) {
        return Ok(false);
    }
    take(Sort::AnySemicolon, tokens)?;
    Ok(true)
}

/// The conditions of a block: WHERE, the columns of GROUP BY, and HAVING.
pub type Conditions = (Option<Expr>, (Items<Column>, Option<Expr>));

/// Reads the clauses that have expressions, with `left` openings left.
#[derive(Drop)]
pub struct Clauses<'t> {
    pub alloc: Global,
    /// The bytes of the text.
    pub text: &'t [u8],
    pub left: usize,
}

impl<'t> Model for Clauses<'t> {
    ghost use Rattle.std.specs.Prelude.{◌≤◌};
    ghost use Rattle.span_grammar.specs.Rules.{most_openings};
    ghost use Rattle.span_parser.specs.QueryTexts.{QueryText};

    ghost Value = { QueryText };

    ghost view = { λ c. record { text = c.text.now; left = c.left } };

    ghost invariant = { λ c. c.left ≤ most_openings };
}

impl<'t> Clauses<'t> {
    /// An expression.
    pub fn expr(&self, tokens: &mut &[Lexeme]) -> Result<Expr, SyntaxError>
        ensures { Reads self.now spec.expr tokens.old tokens.new result }
    {
        read_expression(self.alloc, self.text, self.left, tokens)
    }

    /// `WHERE expr`
    #[tactic(auto, unfolding(crate::specs::Queries::where_clause))]
    fn where_clause(&self, tokens: &mut &[Lexeme]) -> Result<Expr, SyntaxError>
        ensures { Reads self.now spec.where_clause tokens.old tokens.new result }
    {
        take(Sort::Word(Word::Where), tokens)?;
        self.expr(tokens)
    }

    /// The condition of a WHERE, if there is one.
    #[tactic(auto, unfolding(crate::specs::Queries::maybe_where))]
    fn maybe_where(&self, tokens: &mut &[Lexeme]) -> Result<Option<Expr>, SyntaxError>
        ensures { Reads self.now spec.maybe_where tokens.old tokens.new result }
    {
        if !goes_on(Part::Where, tokens) {
            return Ok(None);
        }
        let condition = self.where_clause(tokens)?;
        Ok(Some(condition))
    }

    /// `HAVING expr`
    #[tactic(auto, unfolding(crate::specs::Queries::having))]
    fn having(&self, tokens: &mut &[Lexeme]) -> Result<Expr, SyntaxError>
        ensures { Reads self.now spec.having tokens.old tokens.new result }
    {
        take(Sort::Word(Word::Having), tokens)?;
        self.expr(tokens)
    }

    /// The condition of a HAVING, if there is one.
    #[tactic(auto, unfolding(crate::specs::Queries::maybe_having))]
    fn maybe_having(&self, tokens: &mut &[Lexeme]) -> Result<Option<Expr>, SyntaxError>
        ensures { Reads self.now spec.maybe_having tokens.old tokens.new result }
    {
        if !goes_on(Part::Having, tokens) {
            return Ok(None);
        }
        let condition = self.having(tokens)?;
        Ok(Some(condition))
    }

    /// `expr [[AS] name]`
    #[tactic(auto, unfolding(crate::specs::Queries::output_expression))]
    fn output_expression(&self, tokens: &mut &[Lexeme]) -> Result<Output, SyntaxError>
        ensures { Reads self.now spec.output_expression tokens.old tokens.new result }
    {
        let value = self.expr(tokens)?;
        let (value, name) = keep_with(value, alias(self.alloc, self.text, tokens))?;
        Ok(Output::Value(value, name))
    }

    /// `out`
    #[tactic(auto, unfolding(crate::specs::Queries::output))]
    fn output(&self, tokens: &mut &[Lexeme]) -> Result<Output, SyntaxError>
        ensures { Reads self.now spec.output tokens.old tokens.new result }
    {
        if next_is(Sort::Sign(Sign::Star), tokens) {
            take(Sort::Sign(Sign::Star), tokens)?;
            return Ok(Output::All);
        }
        if goes_on(Part::AllOfTable, tokens) {
            return all_of_table(self.alloc, self.text, tokens);
        }
        self.output_expression(tokens)
    }

    /// `, out`
    #[tactic(auto, unfolding(crate::specs::Queries::output_more))]
    fn output_more(&self, tokens: &mut &[Lexeme]) -> Result<Output, SyntaxError>
        ensures { Reads self.now spec.output_more tokens.old tokens.new result }
    {
        take(Sort::Sign(Sign::Comma), tokens)?;
        self.output(tokens)
    }

    /// `{"," out}`
    #[tactic(auto, using(crate::proofs::Falling::loop_steps))]
    fn output_rest(&self, tokens: &mut &[Lexeme]) -> Result<Items<Output>, SyntaxError>
        ensures { ReadsEach self.now Part.OutputMore spec.output_more tokens.old tokens.new result }
    {
        let mut found = Items::new(self.alloc);
        while goes_on(Part::OutputMore, tokens) {
            let next = self.output_more(tokens)?;
            found.push(next)?;
        }
        Ok(found)
    }

    /// `out {"," out}`
    #[tactic(auto, unfolding(crate::specs::Queries::outputs))]
    pub fn outputs(&self, tokens: &mut &[Lexeme]) -> Result<Items<Output>, SyntaxError>
        ensures { Reads self.now spec.outputs tokens.old tokens.new result }
    {
        let first = self.output(tokens)?;
        let (first, more) = keep_with(first, self.output_rest(tokens))?;
        Ok(prepend(self.alloc, first, more)?)
    }

    /// `ON expr`
    #[tactic(auto, unfolding(crate::specs::Queries::join_on))]
    pub fn join_on(&self, tokens: &mut &[Lexeme]) -> Result<Expr, SyntaxError>
        ensures { Reads self.now spec.join_on tokens.old tokens.new result }
    {
        take(Sort::Word(Word::On), tokens)?;
        self.expr(tokens)
    }

    /// The columns of a GROUP BY, and the condition of a HAVING.
    #[tactic(auto, unfolding(crate::specs::Queries::block_groups))]
    fn block_groups(
        &self,
        tokens: &mut &[Lexeme],
    ) -> Result<(Items<Column>, Option<Expr>), SyntaxError>
        ensures { Reads self.now spec.block_groups tokens.old tokens.new result }
    {
        let groups = maybe_group_by(self.alloc, self.text, tokens)?;
        keep_with(groups, self.maybe_having(tokens))
    }

    /// The conditions of a block.
    #[tactic(auto, unfolding(crate::specs::Queries::block_filter))]
    pub fn block_filter(&self, tokens: &mut &[Lexeme]) -> Result<Conditions, SyntaxError>
        ensures { Reads self.now spec.block_filter tokens.old tokens.new result }
    {
        let filter = self.maybe_where(tokens)?;
        keep_with(filter, self.block_groups(tokens))
    }
}
