//! Leaves, and plans.
use span_expr::expr::Expr;
use span_keycode::range::KeyRange;
use span_query::query::BoundQuery;
use span_value::seq::Seq;
use sqlite_items::Items;

/// How the rows of a further table of a leaf join those of the tables before it.
#[derive(Debug, Drop)]
pub struct LeafJoin {
    /// Whether a row to the left that has no match is kept, with NULLs.
    pub is_left: bool,
    /// The number of columns of the table.
    pub width: usize,
    /// The condition, at a row of the leaf's tables up to this one.
    pub on: Expr,
}

/// What is read of a query's tables where their rows are stored: tables of one family, joined directory by directory.
#[derive(Debug, Drop)]
pub struct Leaf {
    /// Its tables by their numbers in the schema, in the order of the query text.
    pub tables: Seq<usize>,
    /// How the tables after the first are joined.
    pub joins: Items<LeafJoin>,
    /// The joined rows at which this is TRUE are kept.
    pub filter: Option<Expr>,
    /// The coded keys that are read.
    pub range: KeyRange,
    /// The columns of its rows: TRUE at those that something reads, a condition or ON of the leaf or the query above the leaves.
    pub reads: Seq<bool>,
    /// The columns of its rows that leave it: TRUE at those that the query above the leaves reads.
    pub kept: Seq<bool>,
}

/// How a query is answered: first its leaves, then the query whose tables are the rows of the leaves.
#[derive(Debug, Drop)]
pub struct Plan {
    /// The leaves in the order of their first tables in the query text.
    pub leaves: Items<Leaf>,
    /// The query above them. Its table with number k is the leaf at place k - 1.
    pub top: BoundQuery,
}
