//! The trees of queries, as they are written.
use span_trees::tree::{Column, Expr, Integer, Spelling};
use sqlite_items::{Boxed, Items};

/// An item of the SELECT list of a block.
#[derive(Debug, Drop)]
pub enum Output {
    /// `*`
    All,
    /// `table.*`
    AllOf(Spelling),
    Value(Expr, Option<Spelling>),
}

/// A query.
#[cycle(query)]
#[derive(Debug, Drop)]
pub struct Query {
    pub first: Block,
    /// The blocks after UNION ALL.
    pub others: Items<Block>,
    pub order: Items<SortKey>,
    pub limit: Option<Limit>,
}

/// One SELECT.
#[cycle(query)]
#[derive(Debug, Drop)]
pub struct Block {
    pub is_distinct: bool,
    pub outputs: Items<Output>,
    pub from: Item,
    pub joins: Items<Join>,
    pub filter: Option<Expr>,
    pub groups: Items<Column>,
    pub having: Option<Expr>,
}

/// An item of FROM.
#[cycle(query)]
#[derive(Debug, Drop)]
pub enum Item {
    /// A table, and its alias.
    Table(Spelling, Option<Spelling>),
    /// A derived table, and its name.
    Derived(Boxed<Query>, Spelling),
}

#[cycle(query)]
#[derive(Debug, Drop)]
pub struct Join {
    /// Whether it is a LEFT JOIN.
    pub is_left: bool,
    pub item: Item,
    pub on: Expr,
}

#[derive(Debug, Drop)]
pub struct SortKey {
    pub column: SortColumn,
    pub is_descending: bool,
}

/// A column of the result: by its name, or by its place, counted from 1.
#[derive(Debug, Drop)]
pub enum SortColumn {
    Name(Spelling),
    Place(Integer),
}

#[derive(Clone, Copy, Debug, PartialEq, Eq)]
pub struct Limit {
    pub rows: u64,
    /// The number of rows that are skipped first.
    pub skip: u64,
}
