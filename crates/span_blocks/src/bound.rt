//! The intermediate results of the binder.
use span_expr::expr::Expr;
use span_query::query::{Aggregate, Block, BoundQuery, Item, Join, OutputColumn};
use span_typing::scope::Scope;
use span_value::seq::Seq;
use span_value::text::Text;
use sqlite_items::Items;

/// One output of a block: an expression of its select list, and its column.
#[derive(Debug, Drop)]
pub struct SelectItem {
    pub expr: Expr,
    pub column: OutputColumn,
}

/// An item of a FROM, by its name and with its columns.
#[derive(Debug, Drop)]
pub struct Source {
    pub item: Item<BoundQuery>,
    pub name: Text,
    pub columns: Seq<OutputColumn>,
}

/// A FROM up to some item: its names, its first item and its joins.
#[derive(Debug, Drop)]
pub struct FromItems {
    pub scope: Scope,
    pub first: Item<BoundQuery>,
    pub joins: Items<Join<BoundQuery>>,
}

/// The typed clauses of a block after its FROM.
#[derive(Debug, Drop)]
pub struct Parts {
    pub projection: Seq<SelectItem>,
    pub filter: Option<Expr>,
    pub having: Option<Expr>,
    /// The aggregates of the select list, and then those of HAVING.
    pub aggregates: Seq<Aggregate>,
}

/// A typed block, and the columns that it gives.
#[derive(Debug, Drop)]
pub struct BoundBlock {
    pub block: Block<BoundQuery>,
    pub columns: Seq<OutputColumn>,
}

/// The typed blocks of a query, up to some block.
#[derive(Debug, Drop)]
pub struct BoundBlocks {
    pub first: BoundBlock,
    /// The blocks after UNION ALL.
    pub others: Seq<BoundBlock>,
}

/// A typed query, and the columns that it gives.
#[derive(Debug, Drop)]
pub struct TypedQuery {
    pub query: BoundQuery,
    pub columns: Seq<OutputColumn>,
}
