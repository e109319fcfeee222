//! The typed expressions of operators, from typed operands.
ghost use Rattle.std.specs.Prelude.{◌≡◌, ◌∷◌, [], Ok};
ghost use Rattle.span_operators.specs.Steps.{Gives};
ghost use Rattle.span_operators.specs.Kinds.{common_kind_of_all};
ghost use Rattle.span_operators.specs.Operators as spec;
ghost use Rattle.span_operators.specs.Operators.{append_link, chain_of};

use super::kind::{common_kind, takes, text_kind};
use super::step::{box_three, box_two, keep_if, pair_with};
use super::typed::{Typed, TypedLinks};
use span_expr::expr::{Comparison, Expr, Link, Operator};
use span_lexer::literal_value::text_of;
use span_pattern::pattern::parts_of;
use span_trees::tree;
use span_value::refusal::Refusal;
use span_value::value::{Kind, Value};
use sqlite_items::Boxed;
use std::alloc::Global;

/// The result for a tree, or for a part of one.
pub type TypingResult = Result<Typed, Refusal>;

/// An expression of a type.
pub fn of_kind(expr: Expr, kind: Kind) -> Typed
    ensures { result ≡ spec.of_kind expr kind }
{
    Typed {
        expr,
        kind: Some(kind),
    }
}

/// The number of an integer literal. No text gives one of 2^63 or more.
fn number_of(literal: tree::Integer) -> i64
    ensures { result ≡ spec.number_of literal }
{
    let value = (literal.value % (1 << 63)) as i64;
    if literal.is_negative { -value } else { value }
}

/// An integer literal.
#[tactic(auto, unfolding(crate::specs::Operators::integer))]
pub fn integer(literal: tree::Integer) -> Typed
    ensures { result ≡ spec.integer literal }
{
    of_kind(Expr::Literal(Value::Int(number_of(literal))), Kind::Int)
}

/// A unary minus.
#[tactic(auto, unfolding(crate::specs::Operators::unary_minus))]
pub fn unary_minus(alloc: Global, operand: Typed) -> TypingResult
    ensures { Gives result (spec.unary_minus operand) }
{
    let operand = keep_if(takes(Kind::Int, operand.kind), operand.expr)?;
    Ok(of_kind(Expr::Negative(Boxed::new(alloc, operand)?), Kind::Int))
}

/// A NOT.
#[tactic(auto, unfolding(crate::specs::Operators::logical_not))]
pub fn logical_not(alloc: Global, operand: Typed) -> TypingResult
    ensures { Gives result (spec.logical_not operand) }
{
    let operand = keep_if(takes(Kind::Bool, operand.kind), operand.expr)?;
    Ok(of_kind(Expr::Not(Boxed::new(alloc, operand)?), Kind::Bool))
}

/// An IS NULL.
#[tactic(auto, unfolding(crate::specs::Operators::null_test))]
pub fn null_test(alloc: Global, operand: Typed) -> TypingResult
    ensures { Gives result (Ok (spec.null_test operand)) }
{
    Ok(of_kind(Expr::IsNull(Boxed::new(alloc, operand.expr)?), Kind::Bool))
}

#[tactic(auto, unfolding(crate::specs::Operators::comparison_of))]
fn comparison_of(comparison: tree::ComparisonOperator) -> Comparison
    ensures { result ≡ spec.comparison_of comparison }
{
    match comparison {
        tree::ComparisonOperator::Equal => Comparison::Equal,
        tree::ComparisonOperator::NotEqual => Comparison::NotEqual,
        tree::ComparisonOperator::Less => Comparison::Less,
        tree::ComparisonOperator::AtMost => Comparison::AtMost,
        tree::ComparisonOperator::Greater => Comparison::Greater,
        tree::ComparisonOperator::AtLeast => Comparison::AtLeast,
    }
}

/// A comparison of two operands.
#[tactic(auto, unfolding(crate::specs::Operators::comparison_test))]
pub fn comparison_test(
    alloc: Global,
    left: Typed,
    comparison: tree::ComparisonOperator,
    right: Typed,
) -> TypingResult
    ensures { Gives result (spec.comparison_test comparison left right) }
{
    let kind = common_kind(left.kind, right.kind);
    let ((left, right), _) = pair_with((left, right), kind)?;
    let (left, right) = box_two(alloc, left.expr, right.expr)?;
    let comparison = comparison_of(comparison);
    Ok(of_kind(Expr::Compare(left, comparison, right), Kind::Bool))
}

/// The one type of three operands.
fn common_kind_of_all(
    first: Option<Kind>,
    second: Option<Kind>,
    third: Option<Kind>,
) -> Result<Option<Kind>, Refusal>
    ensures { result ≡ common_kind_of_all (first ∷ second ∷ third ∷ []) }
{
    let kind = common_kind(None, first)?;
    let kind = common_kind(kind, second)?;
    common_kind(kind, third)
}

/// The three operands of a BETWEEN are checked together.
#[tactic(auto, unfolding(crate::specs::Operators::between))]
pub fn between(alloc: Global, operand: Typed, low: Typed, high: Typed) -> TypingResult
    ensures { Gives result (spec.between operand low high) }
{
    let kind = common_kind_of_all(operand.kind, low.kind, high.kind);
    let ((operand, low, high), _) = pair_with((operand, low, high), kind)?;
    let (operand, low, high) = box_three(alloc, operand.expr, low.expr, high.expr)?;
    Ok(of_kind(Expr::Between(operand, low, high), Kind::Bool))
}

/// A LIKE, with its pattern as it is spelt.
#[tactic(auto, unfolding(crate::specs::Operators::like_test))]
pub fn like_test(alloc: Global, operand: Typed, pattern: &str) -> TypingResult
    ensures { Gives result (spec.like_test pattern.now operand) }
{
    let operand = keep_if(takes(Kind::Str, operand.kind), operand.expr)?;
    let operand = Boxed::new(alloc, operand)?;
    let pattern = text_of(alloc, pattern)?;
    let parts = parts_of(alloc, pattern.as_str())?;
    Ok(of_kind(Expr::Like(operand, parts), Kind::Bool))
}

/// Whether both operands of an AND or an OR can be conditions.
pub fn are_conditions(left: Option<Kind>, right: Option<Kind>) -> bool
    ensures { result ≡ spec.are_conditions left right }
{
    takes(Kind::Bool, left) && takes(Kind::Bool, right)
}

#[tactic(auto, unfolding(crate::specs::Operators::operator_of))]
fn operator_of(operator: tree::Operator) -> Operator
    ensures { result ≡ spec.operator_of operator }
{
    match operator {
        tree::Operator::Plus => Operator::Add,
        tree::Operator::Minus => Operator::Subtract,
        tree::Operator::Times => Operator::Multiply,
        tree::Operator::Concat => Operator::Concatenate,
    }
}

/// The type of a chain with one more operator.
#[tactic(auto, unfolding(crate::specs::Operators::link_kind))]
fn link_kind(
    operator: tree::Operator,
    left: Option<Kind>,
    right: Option<Kind>,
) -> Result<Kind, Refusal>
    ensures { result ≡ spec.link_kind operator left right }
{
    if operator == tree::Operator::Concat {
        return text_kind(common_kind(left, right)?);
    }
    if takes(Kind::Int, left) && takes(Kind::Int, right) {
        Ok(Kind::Int)
    } else {
        Err(Refusal::TypeMismatch)
    }
}

/// A chain with one more operator.
#[tactic(auto, unfolding(crate::specs::Operators::append_link))]
pub fn append_link(
    chain: TypedLinks,
    operator: tree::Operator,
    operand: Typed,
) -> Result<TypedLinks, Refusal>
    ensures { Gives result (append_link chain operator operand) }
{
    let kind = link_kind(operator, chain.kind, operand.kind);
    let (operand, kind) = pair_with(operand.expr, kind)?;
    let mut links = chain.links;
    links.push(Link {
        operator: operator_of(operator),
        operand,
    })?;
    Ok(TypedLinks {
        kind: Some(kind),
        links,
    })
}

/// A chain after its first operand.
#[tactic(auto, unfolding(crate::specs::Operators::chain_of))]
pub fn chain_of(alloc: Global, first: Typed, chain: TypedLinks) -> TypingResult
    ensures { Gives result (Ok (chain_of first chain)) }
{
    let TypedLinks { kind, links } = chain;
    Ok(Typed {
        expr: Expr::Chain(Boxed::new(alloc, first.expr)?, links),
        kind,
    })
}
