//! Queries, read from tokens: a function for each rule.
//!
//! As with expressions, a single function recurses, after the parenthesis of a derived table.
ghost use Rattle.std.specs.Prelude.{◌<◌, ◌≤◌};
ghost use Rattle.span_grammar.specs.Rules.{most_openings};
ghost use Rattle.span_primary.specs.Phrases.{Gives};
ghost use Rattle.span_parser.specs.Queries as spec;
ghost use Rattle.span_querytext.specs.Subqueries.{NestsQueries, ReadsNested, ReadsQuery, ReadsEachQuery};

use span_grammar::class::{Lexeme, Sort};
use span_grammar::grammar::Part;
use span_grammar::reader::goes_on;
use span_lexer::token::{Sign, Word};
use span_parser::clause::{
    Clauses, Conditions, alias, join_kind, maybe_limit, maybe_order_by, maybe_semicolon,
    quantifier, required_alias,
};
use span_parser::tree::{Block, Item, Join, Limit, Query, SortKey};
use span_primary::fault::SyntaxError;
use span_primary::token::{close_parenthesis, enter, spelling, take};
use span_value::owned::keep_with;
use sqlite_items::{Boxed, Items};
use std::alloc::Global;
use std::marker::Model;

/// Reads queries, with `left` openings left.
#[derive(Drop)]
struct QueryReader<'t, F> {
    clauses: Clauses<'t>,
    /// Reads what is after an opening.
    read: F,
}

impl<'t, F> Model for QueryReader<'t, F> {
    ghost use Rattle.span_primary.specs.Reading.{Reading};

    ghost Value = { Reading F };

    ghost view = { λ r. record { text = r.clauses.text; left = r.clauses.left; read = r.read } };
}

impl<F> QueryReader<'_, F>
where
    F: Fn(Global, &[u8], usize, &mut &[Lexeme]) -> Result<Query, SyntaxError>,
{
    /// A query after an opening.
    #[tactic(auto, using(crate::proofs::Sublevels::level_steps))]
    fn after(&self, tokens: &mut &[Lexeme]) -> Result<Query, SyntaxError>
        requires nests { NestsQueries F.Fn self.now }
        requires deeper { 0 < self.now.left }
        ensures { ReadsNested self.now tokens.old tokens.new result }
    {
        (self.read)(
            self.clauses.alloc,
            self.clauses.text,
            self.clauses.left - 1,
            tokens,
        )
    }

    /// `"(" query ")"`
    #[tactic(auto, unfolding(span_parser::specs::Queries::subquery))]
    fn subquery(&self, tokens: &mut &[Lexeme]) -> Result<Query, SyntaxError>
        requires nests { NestsQueries F.Fn self.now }
        ensures { ReadsQuery self.now spec.subquery tokens.old tokens.new result }
    {
        enter(self.clauses.left, Sort::Sign(Sign::Open), tokens)?;
        let query = self.after(tokens)?;
        close_parenthesis(query, tokens)
    }

    /// `name [[AS] name]`
    #[tactic(auto, unfolding(span_parser::specs::Queries::named_item))]
    fn named_item(&self, tokens: &mut &[Lexeme]) -> Result<Item, SyntaxError>
        requires nests { NestsQueries F.Fn self.now }
        ensures { ReadsQuery self.now spec.named_item tokens.old tokens.new result }
    {
        let name = spelling(self.clauses.alloc, self.clauses.text, Sort::Name, tokens)?;
        let other = alias(self.clauses.alloc, self.clauses.text, tokens)?;
        Ok(Item::Table(name, other))
    }

    /// `"(" query ")" [AS] name`
    #[tactic(auto, unfolding(span_parser::specs::Queries::derived_item))]
    fn derived_item(&self, tokens: &mut &[Lexeme]) -> Result<Item, SyntaxError>
        requires nests { NestsQueries F.Fn self.now }
        ensures { ReadsQuery self.now spec.derived_item tokens.old tokens.new result }
    {
        let query = self.subquery(tokens)?;
        let name = required_alias(self.clauses.alloc, self.clauses.text, tokens);
        let (query, name) = keep_with(query, name)?;
        Ok(Item::Derived(Boxed::new(self.clauses.alloc, query)?, name))
    }

    /// `item`
    #[tactic(auto, unfolding(span_parser::specs::Queries::item))]
    fn item(&self, tokens: &mut &[Lexeme]) -> Result<Item, SyntaxError>
        requires nests { NestsQueries F.Fn self.now }
        ensures { ReadsQuery self.now spec.item tokens.old tokens.new result }
    {
        if goes_on(Part::NamedItem, tokens) {
            return self.named_item(tokens);
        }
        self.derived_item(tokens)
    }

    /// `join`
    #[tactic(auto, unfolding(span_parser::specs::Queries::join, span_parser::specs::Queries::join_of))]
    fn join(&self, tokens: &mut &[Lexeme]) -> Result<Join, SyntaxError>
        requires nests { NestsQueries F.Fn self.now }
        ensures { ReadsQuery self.now spec.join tokens.old tokens.new result }
    {
        let is_left = join_kind(tokens)?;
        let item = self.item(tokens)?;
        let (item, on) = keep_with(item, self.clauses.join_on(tokens))?;
        Ok(Join { is_left, item, on })
    }

    /// `{join}`
    #[tactic(auto, using(span_parser::proofs::Falling::loop_steps))]
    fn joins(&self, tokens: &mut &[Lexeme]) -> Result<Items<Join>, SyntaxError>
        requires nests { NestsQueries F.Fn self.now }
        ensures { ReadsEachQuery self.now Part.Join spec.join tokens.old tokens.new result }
    {
        let mut found = Items::new(self.clauses.alloc);
        while goes_on(Part::Join, tokens) {
            let next = self.join(tokens)?;
            found.push(next)?;
        }
        Ok(found)
    }

    /// The joins of a block, and what is after them.
    #[tactic(auto, unfolding(span_parser::specs::Queries::block_joins))]
    fn block_joins(&self, tokens: &mut &[Lexeme]) -> Result<(Items<Join>, Conditions), SyntaxError>
        requires nests { NestsQueries F.Fn self.now }
        ensures { ReadsQuery self.now spec.block_joins tokens.old tokens.new result }
    {
        let joins = self.joins(tokens)?;
        keep_with(joins, self.clauses.block_filter(tokens))
    }

    /// FROM, and what is after it.
    #[tactic(auto, unfolding(span_parser::specs::Queries::block_from))]
    fn block_from(
        &self,
        tokens: &mut &[Lexeme],
    ) -> Result<(Item, (Items<Join>, Conditions)), SyntaxError>
        requires nests { NestsQueries F.Fn self.now }
        ensures { ReadsQuery self.now spec.block_from tokens.old tokens.new result }
    {
        take(Sort::Word(Word::From), tokens)?;
        let from = self.item(tokens)?;
        keep_with(from, self.block_joins(tokens))
    }

    /// What is after SELECT.
    #[tactic(auto, unfolding(span_parser::specs::Queries::block_body, span_parser::specs::Queries::block_of))]
    fn block_body(&self, tokens: &mut &[Lexeme]) -> Result<Block, SyntaxError>
        requires nests { NestsQueries F.Fn self.now }
        ensures { ReadsQuery self.now spec.block_body tokens.old tokens.new result }
    {
        let is_distinct = quantifier(tokens)?;
        let outputs = self.clauses.outputs(tokens)?;
        let (outputs, (from, (joins, conditions))) = keep_with(outputs, self.block_from(tokens))?;
        let (filter, (groups, having)) = conditions;
        let block = Block {
            is_distinct,
            outputs,
            from,
            joins,
            filter,
            groups,
            having,
        };
        Ok(block)
    }

    /// `block`
    #[tactic(auto, unfolding(span_parser::specs::Queries::block))]
    fn block(&self, tokens: &mut &[Lexeme]) -> Result<Block, SyntaxError>
        requires nests { NestsQueries F.Fn self.now }
        ensures { ReadsQuery self.now spec.block tokens.old tokens.new result }
    {
        take(Sort::Word(Word::Select), tokens)?;
        self.block_body(tokens)
    }

    /// `UNION ALL block`
    #[tactic(auto, unfolding(span_parser::specs::Queries::union_more))]
    fn union_more(&self, tokens: &mut &[Lexeme]) -> Result<Block, SyntaxError>
        requires nests { NestsQueries F.Fn self.now }
        ensures { ReadsQuery self.now spec.union_more tokens.old tokens.new result }
    {
        take(Sort::Word(Word::Union), tokens)?;
        take(Sort::Word(Word::All), tokens)?;
        self.block(tokens)
    }

    /// `{UNION ALL block}`
    #[tactic(auto, using(span_parser::proofs::Falling::loop_steps))]
    fn union_rest(&self, tokens: &mut &[Lexeme]) -> Result<Items<Block>, SyntaxError>
        requires nests { NestsQueries F.Fn self.now }
        ensures { ReadsEachQuery self.now Part.UnionMore spec.union_more tokens.old tokens.new result }
    {
        let mut found = Items::new(self.clauses.alloc);
        while goes_on(Part::UnionMore, tokens) {
            let next = self.union_more(tokens)?;
            found.push(next)?;
        }
        Ok(found)
    }

    /// The other blocks, and what is after them.
    #[tactic(auto, unfolding(span_parser::specs::Queries::unions))]
    fn unions(
        &self,
        tokens: &mut &[Lexeme],
    ) -> Result<(Items<Block>, (Items<SortKey>, Option<Limit>)), SyntaxError>
        requires nests { NestsQueries F.Fn self.now }
        ensures { ReadsQuery self.now spec.unions tokens.old tokens.new result }
    {
        let others = self.union_rest(tokens)?;
        let order = order_and_limit(self.clauses.alloc, self.clauses.text, tokens);
        keep_with(others, order)
    }

    /// `query`
    #[tactic(auto, unfolding(span_parser::specs::Queries::query, span_parser::specs::Queries::query_of))]
    fn query(&self, tokens: &mut &[Lexeme]) -> Result<Query, SyntaxError>
        requires nests { NestsQueries F.Fn self.now }
        ensures { ReadsQuery self.now spec.query tokens.old tokens.new result }
    {
        let first = self.block(tokens)?;
        let (first, (others, (order, limit))) = keep_with(first, self.unions(tokens))?;
        let query = Query {
            first,
            others,
            order,
            limit,
        };
        Ok(query)
    }
}

/// ORDER BY and LIMIT.
#[tactic(auto, unfolding(span_parser::specs::Queries::order_and_limit))]
fn order_and_limit(
    alloc: Global,
    text: &[u8],
    tokens: &mut &[Lexeme],
) -> Result<(Items<SortKey>, Option<Limit>), SyntaxError>
    ensures { Gives (spec.order_and_limit text.now) tokens.old tokens.new result }
{
    let order = maybe_order_by(alloc, text, tokens)?;
    keep_with(order, maybe_limit(tokens))
}

/// A query, with `left` openings left. This function alone recurses.
#[tactic(auto, using(crate::proofs::Sublevels::level_steps))]
fn read_query(
    alloc: Global,
    text: &[u8],
    left: usize,
    tokens: &mut &[Lexeme],
) -> Result<Query, SyntaxError>
    requires { left ≤ most_openings }
    ensures { Gives (spec.query text.now left (spec.nested_query text.now left)) tokens.old tokens.new result }
{
    let clauses = Clauses { alloc, text, left };
    let reader = QueryReader {
        clauses,
        read: read_query,
    };
    reader.query(tokens)
}

/// A query, with or without a semicolon at its end.
#[tactic(auto, unfolding(span_parser::specs::Queries::statement))]
pub(crate) fn statement(
    alloc: Global,
    text: &[u8],
    left: usize,
    tokens: &mut &[Lexeme],
) -> Result<Query, SyntaxError>
    requires { left ≤ most_openings }
    ensures { Gives (spec.statement text.now left) tokens.old tokens.new result }
{
    let query = read_query(alloc, text, left, tokens)?;
    let (query, _) = keep_with(query, maybe_semicolon(tokens))?;
    Ok(query)
}
