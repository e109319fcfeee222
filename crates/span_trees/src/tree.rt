//! The trees of expressions, as they are written.
//!
//! Parentheses leave no trace. Operators of one level are a list, from left to right, so that a tree is no deeper than its text
//! nests.
use span_value::text::Text;
use sqlite_items::{Boxed, Items};

/// A part of the query text: from the byte `start` up to the byte before `end`.
#[derive(Clone, Copy, Debug, PartialEq, Eq)]
pub struct Span {
    pub start: usize,
    pub end: usize,
}

/// A name, a parameter with its `@`, or a literal of a string or bytes with its quotes, as it is spelt, and its place.
#[derive(Debug, Drop)]
pub struct Spelling {
    pub text: Text,
    pub span: Span,
}

/// A column, and the table or alias before it.
#[derive(Debug, Drop)]
pub struct Column {
    pub table: Option<Spelling>,
    pub name: Spelling,
}

/// An integer, with a minus directly before it or none.
#[derive(Clone, Copy, Debug, PartialEq, Eq)]
pub struct Integer {
    pub is_negative: bool,
    pub value: u64,
    /// The place of its digits.
    pub span: Span,
}

/// What joins two operands in a sum or a product.
#[derive(Clone, Copy, Debug, PartialEq, Eq)]
pub enum Operator {
    Plus,
    Minus,
    Times,
    Concat,
}

#[derive(Clone, Copy, Debug, PartialEq, Eq)]
pub enum ComparisonOperator {
    Equal,
    NotEqual,
    Less,
    AtMost,
    Greater,
    AtLeast,
}

/// An expression.
#[cycle(expression)]
#[derive(Debug, Drop)]
pub enum Expr {
    Integer(Integer),
    Str(Spelling),
    Bytes(Spelling),
    Truth(bool, Span),
    Null(Span),
    /// A parameter, spelt with its `@`.
    Parameter(Spelling),
    Column(Column),
    /// `COUNT(*)` and the like, by the name.
    CallStar(Spelling),
    /// A call: the name, or IF, and the operands.
    Call(Spelling, Items<Expr>),
    /// The operand, the arms and ELSE.
    Case(Option<Boxed<Expr>>, Items<Arm>, Option<Boxed<Expr>>),
    /// A minus that is no integer's.
    Negative(Boxed<Expr>),
    /// The first operand, then each operator with its operand: of one level, `+` and `-` or `*` and `||`, at least one.
    Chain(Boxed<Expr>, Items<Link>),
    Compare(Boxed<Expr>, ComparisonOperator, Boxed<Expr>),
    IsNull(Boxed<Expr>),
    /// The operand and the pattern.
    Like(Boxed<Expr>, Spelling),
    /// The operand, the low end and the high end.
    Between(Boxed<Expr>, Boxed<Expr>, Boxed<Expr>),
    In(Boxed<Expr>, Items<Expr>),
    /// NOT, also the one of IS NOT NULL, NOT LIKE, NOT BETWEEN and NOT IN.
    Not(Boxed<Expr>),
    /// The first operand, and the others: at least one.
    And(Boxed<Expr>, Items<Expr>),
    Or(Boxed<Expr>, Items<Expr>),
}

/// `WHEN condition THEN value`
#[cycle(expression)]
#[derive(Debug, Drop)]
pub struct Arm {
    pub condition: Expr,
    pub value: Expr,
}

#[cycle(expression)]
#[derive(Debug, Drop)]
pub struct Link {
    pub operator: Operator,
    pub operand: Expr,
}
