//! Typed queries, as the binder makes them.
use span_expr::expr::Expr;
use span_value::seq::Seq;
use span_value::text::Text;
use span_value::value::Kind;
use sqlite_items::{Boxed, Items};

/// A column of what a query gives.
#[derive(Debug, Drop)]
pub struct OutputColumn {
    /// Its alias, or else the name of its column; others have none.
    pub name: Option<Text>,
    pub kind: Kind,
}

/// A statement: its query, the tables that it reads, and the columns of its result.
#[derive(Debug, Drop)]
pub struct Statement {
    pub query: BoundQuery,
    /// The leaves: the tables of all FROMs by their numbers in the schema, in the order of the query text. A table that is named twice is
    /// two leaves.
    pub leaves: Seq<usize>,
    /// The columns of the rows of the result.
    pub columns: Seq<OutputColumn>,
}

/// A query.
#[derive(Debug, Drop)]
pub struct BoundQuery {
    pub first: Block<BoundQuery>,
    /// The blocks after UNION ALL.
    pub others: Items<Block<BoundQuery>>,
    pub order: Items<SortKey>,
    pub limit: Option<Limit>,
}

/// One SELECT. `Q` is the type of the queries of derived tables.
#[derive(Debug, Drop)]
pub struct Block<Q> {
    pub from: Item<Q>,
    pub joins: Items<Join<Q>>,
    /// WHERE, at a row of the FROM.
    pub filter: Option<Expr>,
    pub grouping: Option<Grouping>,
    /// The select list: at a row of the FROM or, of a grouped block, at a row of the groups.
    pub outputs: Items<Expr>,
    pub is_distinct: bool,
}

/// An item of a FROM.
#[derive(Debug, Drop)]
pub enum Item<Q> {
    /// The leaf with this number; the first has number 1.
    Table(usize),
    /// A derived table.
    Derived(Boxed<Q>),
}

/// A further item of a FROM, and how its rows join those to their left.
#[derive(Debug, Drop)]
pub struct Join<Q> {
    /// Whether a row to the left that has no match is kept, with NULLs.
    pub is_left: bool,
    pub item: Item<Q>,
    /// The number of columns of the item.
    pub width: usize,
    /// The condition, at a row of the items up to this one.
    pub on: Expr,
}

/// How the rows of a block are grouped. A row of the groups has the values of the keys, and then those of the aggregates.
#[derive(Debug, Drop)]
pub struct Grouping {
    /// The columns of the FROM, by their places, counted from 0.
    pub keys: Items<usize>,
    pub aggregates: Items<Aggregate>,
    /// The condition, at a row of the groups.
    pub having: Option<Expr>,
}

/// An aggregate of the rows of a group. The operand is at a row of the FROM.
#[derive(Debug, Drop)]
pub enum Aggregate {
    /// The number of rows.
    CountRows,
    /// Of a function of the operand's values that are not NULL.
    Of(Function, Expr),
}

#[derive(Clone, Copy, Debug, PartialEq, Eq)]
pub enum Function {
    Count,
    Sum,
    Min,
    Max,
}

/// A column of the result that its rows are sorted by.
#[derive(Clone, Copy, Debug, PartialEq, Eq)]
pub struct SortKey {
    /// Its place, counted from 0.
    pub column: usize,
    pub is_descending: bool,
}

/// Which of the rows are returned.
#[derive(Clone, Copy, Debug, PartialEq, Eq)]
pub struct Limit {
    /// The number of rows, at most.
    pub rows: u64,
    /// The number of rows that are skipped first.
    pub skip: u64,
}
