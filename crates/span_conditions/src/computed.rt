//! Numbers that expressions come to at a row, found with no value in between that could own memory.
ghost use Rattle.std.specs.Prelude.{◌≡◌, ◌++◌, IfSome, map};
ghost use Rattle.span_value.specs.declared.truth.Outcome.TheVariants.{Val};
ghost use Rattle.span_value.specs.declared.value.Value.TheVariants as value;
ghost use Rattle.span_expr.specs.Meaning.{apply_links, link_val, val};
ghost use Rattle.span_expr.specs.Operators as operators;

use span_expr::expr::{Expr, Link, Operator};
use span_value::value::Value;

/// The number that a row has at a place. None where it has none there.
pub fn number_at(row: &[Value], place: usize) -> Option<i64>
    ensures { IfSome result (λ n. operators.column_of row.now place ≡ value.Int n) }
{
    match row.get(place) {
        Some(Value::Int(number)) => Some(*number),
        _ => None,
    }
}

/// The same of a row that lies in two parts.
#[tactic(auto, using(crate::proofs::PairColumns::left_column, crate::proofs::PairColumns::from_front))]
fn number_in(left: &[Value], right: &[Value], place: usize) -> Option<i64>
    ensures { IfSome result (λ n. operators.column_of (left.now ++ right.now) place ≡ value.Int n) }
{
    if place < left.len() {
        number_at(left, place)
    } else {
        number_at(right, place - left.len())
    }
}

/// An operator on two numbers. None where the result is no number: where it is outside INT64, the divisor is 0, or the operator is one of
/// strings.
#[inline(always)]
fn calculate(operator: Operator, a: i64, b: i64) -> Option<i64>
    ensures { IfSome result (λ n. operators.calculate_ints operator a b ≡ Val (value.Int n)) }
{
    match operator {
        Operator::Add => a.checked_add(b),
        Operator::Subtract => a.checked_sub(b),
        Operator::Multiply => a.checked_mul(b),
        Operator::Divide => a.checked_div(b),
        Operator::Modulo => remainder(a, b),
        Operator::Concatenate => None,
    }
}

/// The remainder, with the sign of the first number. None where the divisor is 0.
fn remainder(a: i64, b: i64) -> Option<i64>
    ensures { IfSome result (λ n. operators.remainder a b ≡ Val (value.Int n)) }
{
    if b == 0 {
        return None;
    }
    Some(a.wrapping_rem(b))
}

/// The number that an expression comes to at a row in two parts. A column or a literal takes no call. None where the expression is no
/// arithmetic on columns and literals, or an operand or a result is no number: `evaluate` then answers NULL or the fault.
#[inline(always)]
#[cycle(number)]
pub fn number_of(expr: &Expr, left: &[Value], right: &[Value]) -> Option<i64>
    ensures { IfSome result (λ n. val (left.now ++ right.now) expr.now ≡ Val (value.Int n)) }
{
    match expr {
        Expr::Column(place) => number_in(left, right, *place),
        Expr::Literal(Value::Int(number)) => Some(*number),
        Expr::Negative(_) | Expr::Chain(_, _) => computed_number(expr, left, right),
        _ => None,
    }
}

/// The same of a negation and of a chain of operators.
#[inline(never)]
#[cycle(number)]
fn computed_number(expr: &Expr, left: &[Value], right: &[Value]) -> Option<i64>
    ensures { IfSome result (λ n. val (left.now ++ right.now) expr.now ≡ Val (value.Int n)) }
{
    match expr {
        Expr::Negative(operand) => number_of(operand.get(), left, right)?.checked_neg(),
        Expr::Chain(first, links) => {
            let first = number_of(first.get(), left, right)?;
            linked_number(first, links.as_slice(), left, right)
        }
        _ => None,
    }
}

/// The same of a chain, after its first operand.
#[cycle(number)]
fn linked_number(first: i64, links: &[Link<Expr>], left: &[Value], right: &[Value]) -> Option<i64>
    ensures { IfSome result
        (λ n. apply_links (Val (value.Int first)) (map (link_val (left.now ++ right.now)) links.now) ≡ Val (value.Int n)) }
{
    let mut so_far = first;
    for link in links {
        let operand = number_of(&link.operand, left, right)?;
        so_far = calculate(link.operator, so_far, operand)?;
    }
    Some(so_far)
}
