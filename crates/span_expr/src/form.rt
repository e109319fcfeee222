//! The form of an expression: a column, a literal, an equality of two columns.
ghost use Rattle.std.specs.Prelude.{◌≡◌};
ghost use Rattle.std.specs.Option.{option_copied};
ghost use Rattle.span_expr.specs.Forms as spec;

use super::expr::{Comparison, Expr};
use span_value::value::Value;

/// The place of a column, where the expression is one.
pub fn as_column(expr: &Expr) -> Option<usize>
    ensures { result ≡ spec.as_column expr.now }
{
    match expr {
        Expr::Column(place) => Some(*place),
        _ => None,
    }
}

/// The value of a literal, where the expression is one.
pub fn as_literal(expr: &Expr) -> Option<&Value>
    ensures { option_copied result ≡ spec.as_literal expr.now }
{
    match expr {
        Expr::Literal(value) => Some(value),
        _ => None,
    }
}

fn both_places(first: Option<usize>, second: Option<usize>) -> Option<(usize, usize)>
    ensures { result ≡ spec.both_places first second }
{
    match (first, second) {
        (Some(i), Some(k)) => Some((i, k)),
        _ => None,
    }
}

fn places_if_equal(
    comparison: Comparison,
    first: Option<usize>,
    second: Option<usize>,
) -> Option<(usize, usize)>
    ensures { result ≡ spec.places_if_equal comparison first second }
{
    match comparison {
        Comparison::Equal => both_places(first, second),
        _ => None,
    }
}

/// The places of the two columns, where the expression is `column = column`.
pub fn as_equality(expr: &Expr) -> Option<(usize, usize)>
    ensures { result ≡ spec.as_equality expr.now }
{
    match expr {
        Expr::Compare(a, comparison, b) => {
            places_if_equal(*comparison, as_column(a.get()), as_column(b.get()))
        }
        _ => None,
    }
}

/// Whether the expression equates the columns at two places, either first.
pub fn is_equality(expr: &Expr, first: usize, second: usize) -> bool
    ensures { result ≡ spec.is_equality first second expr.now }
{
    match as_equality(expr) {
        Some((i, k)) => (i == first && k == second) || (i == second && k == first),
        None => false,
    }
}
