//! Typed expressions with their types.
use span_expr::expr::{Expr, Link};
use span_value::value::Kind;
use sqlite_items::Items;

/// A typed expression, and the type of its values; a NULL literal has none of its own.
#[derive(Debug, Drop)]
pub struct Typed {
    pub expr: Expr,
    pub kind: Option<Kind>,
}

/// `WHEN condition THEN value`, typed.
#[derive(Debug, Drop)]
pub struct TypedArm {
    pub condition: Typed,
    pub value: Typed,
}

/// The part of a chain after its first operand, and the type of the whole.
#[derive(Debug, Drop)]
pub struct TypedLinks {
    pub kind: Option<Kind>,
    pub links: Items<Link<Expr>>,
}

/// Which rows an expression is evaluated at.
#[derive(Clone, Copy, Debug, PartialEq, Eq)]
pub enum Mode {
    /// Those of the FROM: in ON, WHERE, the operands of aggregates, and a block that is not grouped.
    Rows,
    /// Those of the groups: the values of the grouped columns, and then the aggregates.
    Groups,
}
