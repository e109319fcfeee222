//! Conditions and operands at a row, or at a row that lies in two parts.
ghost use Rattle.std.specs.Prelude.{◌≡◌, ◌++◌, false, IfSome, map};
ghost use Rattle.span_query.specs.Rows.{holds, value_of};
ghost use Rattle.span_value.specs.declared.truth.Outcome.TheVariants.{Val};
ghost use Rattle.span_value.specs.declared.value.Value.TheVariants as value;
ghost use Rattle.span_value.specs.Orders.{value_order};
ghost use Rattle.span_expr.specs.Cells as cells;
ghost use Rattle.span_expr.specs.declared.expr.Comparison.TheVariants.{Equal};
ghost use Rattle.span_expr.specs.declared.expr.Expr.TheVariants.{Not};
ghost use Rattle.span_expr.specs.Meaning.{all_of, any_of, in_list, val};
ghost use Rattle.span_expr.specs.Memory.{has_concatenation, RunsOutOnlyIf};
ghost use Rattle.span_expr.specs.Operators as operators;
ghost use Rattle.span_expr.specs.Outcomes.{is_null};
ghost use Rattle.span_conditions.specs.Answers.{Gives};

use super::computed::number_of;
use span_eval::eval::evaluate;
use span_eval::operator::holds;
use span_expr::cell::{Failure, LentValue, column_of};
use span_expr::expr::{Comparison, Expr};
use span_value::order::compare;
use span_value::truth::Truth;
use span_value::value::Value;
use std::alloc::Global;

/// What an expression comes to at a row, lent where it lies there or in the expression. A column is read with no walk over an
/// expression's tree, and arithmetic on numbers is done with no value in between. The error is an arithmetic error, or out of memory where the
/// expression has a `||`.
pub fn operand_value<'a>(
    alloc: Global,
    expr: &'a Expr,
    row: &'a [Value],
) -> Result<LentValue<'a>, Failure>
    ensures value { cells.Gives result (val row.now expr.now) }
    ensures memory { RunsOutOnlyIf result (has_concatenation expr.now) }
{
    match expr {
        Expr::Column(place) => Ok(column_of(row, *place)),
        Expr::Negative(_) | Expr::Chain(_, _) => match number_of(expr, row, &[]) {
            Some(number) => Ok(LentValue::Int(number)),
            None => evaluate(alloc, expr, row),
        },
        _ => evaluate(alloc, expr, row),
    }
}

/// A value, where it is not NULL.
fn non_null(value: &Value) -> Option<&Value>
    ensures { IfSome result (λ known. (known.now ≡ value.now) × (is_null known.now ≡ false)) }
{
    match value {
        Value::Null => None,
        _ => Some(value),
    }
}

/// The value of a column of a row, where it is not NULL.
fn non_null_at(row: &[Value], place: usize) -> Option<&Value>
    ensures { IfSome result (λ known. (operators.column_of row.now place ≡ known.now) × (is_null known.now ≡ false)) }
{
    match row.get(place) {
        None | Some(Value::Null) => None,
        Some(value) => Some(value),
    }
}

/// The same of a row that lies in two parts.
#[tactic(auto, using(crate::proofs::PairColumns::left_column, crate::proofs::PairColumns::from_front))]
fn known_in<'a>(left: &'a [Value], right: &'a [Value], place: usize) -> Option<&'a Value>
    ensures { IfSome result
        (λ known. (operators.column_of (left.now ++ right.now) place ≡ known.now) × (is_null known.now ≡ false)) }
{
    if place < left.len() {
        non_null_at(left, place)
    } else {
        non_null_at(right, place - left.len())
    }
}

/// The value of a column of a row in two parts or of a literal, where it is not NULL. None for another expression.
fn known_operand<'a>(expr: &'a Expr, left: &'a [Value], right: &'a [Value]) -> Option<&'a Value>
    ensures { IfSome result
        (λ known. (val (left.now ++ right.now) expr.now ≡ Val known.now) × (is_null known.now ≡ false)) }
{
    match expr {
        Expr::Column(place) => known_in(left, right, *place),
        Expr::Literal(value) => non_null(value),
        _ => None,
    }
}

/// Whether a comparison of two numbers is TRUE.
#[inline(always)]
fn is_number_met(comparison: Comparison, first: i64, second: i64) -> bool
    ensures { result ≡ operators.holds comparison (value_order (value.Int first) (value.Int second)) }
{
    match comparison {
        Comparison::Equal => first == second,
        Comparison::NotEqual => first != second,
        Comparison::Less => first < second,
        Comparison::AtMost => first <= second,
        Comparison::Greater => first > second,
        Comparison::AtLeast => first >= second,
    }
}

/// Whether a comparison of columns and literals is TRUE at a row in two parts. None where the condition has another form, or an operand is
/// NULL.
#[inline(never)]
fn is_any_comparison_met(condition: &Expr, left: &[Value], right: &[Value]) -> Option<bool>
    ensures { IfSome result (λ met. val (left.now ++ right.now) condition.now ≡ Val (value.Bool met)) }
{
    let Expr::Compare(first, comparison, second) = condition else {
        return None;
    };
    let first = known_operand(first.get(), left, right)?;
    let second = known_operand(second.get(), left, right)?;
    Some(holds(*comparison, compare(first, second)))
}

/// The same, also where an operand is arithmetic on columns and literals. Numbers of columns and literals are compared with no call.
#[inline(always)]
fn is_comparison_met(condition: &Expr, left: &[Value], right: &[Value]) -> Option<bool>
    ensures { IfSome result (λ met. val (left.now ++ right.now) condition.now ≡ Val (value.Bool met)) }
{
    let Expr::Compare(first, comparison, second) = condition else {
        return None;
    };
    match (
        number_of(first.get(), left, right),
        number_of(second.get(), left, right),
    ) {
        (Some(a), Some(b)) => Some(is_number_met(*comparison, a, b)),
        _ => is_any_comparison_met(condition, left, right),
    }
}

/// Whether a number lies between two others at a row in two parts. None where the condition has another form, or `number_of` answers no number of
/// one of the three.
#[inline(never)]
fn is_between_met(condition: &Expr, left: &[Value], right: &[Value]) -> Option<bool>
    ensures { IfSome result (λ met. val (left.now ++ right.now) condition.now ≡ Val (value.Bool met)) }
{
    let Expr::Between(operand, low, high) = condition else {
        return None;
    };
    let number = number_of(operand.get(), left, right)?;
    let low = number_of(low.get(), left, right)?;
    let high = number_of(high.get(), left, right)?;
    Some(low <= number && number <= high)
}

/// Whether neither of two values comes before the other. Numbers are compared with no call.
#[inline(always)]
fn are_same(a: &Value, b: &Value) -> bool
    ensures { result ≡ operators.holds Equal (value_order a.now b.now) }
{
    match (a, b) {
        (Value::Int(m), Value::Int(n)) => m == n,
        _ => compare(a, b).is_eq(),
    }
}

/// Whether a value is among columns and literals at a row in two parts. All are looked at, since the answer is None where one of them has
/// another form, which may fault, or is NULL.
fn is_among(operand: &Value, members: &[Expr], left: &[Value], right: &[Value]) -> Option<bool>
    requires { is_null operand.now ≡ false }
    ensures { IfSome result
        (λ met. in_list (Val operand.now) (map (val (left.now ++ right.now)) members.now) ≡ Val (value.Bool met)) }
{
    let mut met = false;
    for member in members {
        let member = known_operand(member, left, right)?;
        met = met || are_same(operand, member);
    }
    Some(met)
}

/// Whether an IN of columns and literals is TRUE at a row in two parts. None where the condition has another form, or one of them is NULL.
#[inline(never)]
fn is_member_met(condition: &Expr, left: &[Value], right: &[Value]) -> Option<bool>
    ensures { IfSome result (λ met. val (left.now ++ right.now) condition.now ≡ Val (value.Bool met)) }
{
    let Expr::In(operand, members) = condition else {
        return None;
    };
    let operand = known_operand(operand.get(), left, right)?;
    is_among(operand, members.as_slice(), left, right)
}

/// Whether a column of a row is NULL, as it is where the row has no such place.
fn is_null_at(row: &[Value], place: usize) -> bool
    ensures { result ≡ is_null (operators.column_of row.now place) }
{
    match row.get(place) {
        None | Some(Value::Null) => true,
        Some(_) => false,
    }
}

/// The same of a row that lies in two parts.
#[tactic(auto, using(crate::proofs::PairColumns::left_column, crate::proofs::PairColumns::from_front))]
fn is_null_in(left: &[Value], right: &[Value], place: usize) -> bool
    ensures { result ≡ is_null (operators.column_of (left.now ++ right.now) place) }
{
    if place < left.len() {
        is_null_at(left, place)
    } else {
        is_null_at(right, place - left.len())
    }
}

/// Whether `x IS NULL` of a column is TRUE at a row in two parts. None where the condition has another form.
#[inline(always)]
fn is_null_test_met(condition: &Expr, left: &[Value], right: &[Value]) -> Option<bool>
    ensures { IfSome result (λ met. val (left.now ++ right.now) condition.now ≡ Val (value.Bool met)) }
{
    let Expr::IsNull(operand) = condition else {
        return None;
    };
    let Expr::Column(place) = operand.get() else {
        return None;
    };
    Some(is_null_in(left, right, *place))
}

/// Whether NOT of a comparison, of an IN or of a test for NULL is TRUE at a row in two parts. The condition is the operand of NOT. None where
/// this has another form, or an operand of a comparison or an IN is NULL.
#[inline(never)]
fn is_negation_met(operand: &Expr, left: &[Value], right: &[Value]) -> Option<bool>
    ensures { IfSome result (λ met. val (left.now ++ right.now) (Not operand.now) ≡ Val (value.Bool met)) }
{
    let met = match operand {
        Expr::IsNull(_) => is_null_test_met(operand, left, right)?,
        Expr::In(_, _) => is_member_met(operand, left, right)?,
        _ => is_comparison_met(operand, left, right)?,
    };
    Some(!met)
}

/// Whether a comparison, a BETWEEN of numbers, an IN, a test for NULL, or NOT of a comparison, an IN or a test is TRUE at a row in two parts.
/// None where the condition has another form, or an operand is NULL.
#[inline(always)]
fn is_form_met(condition: &Expr, left: &[Value], right: &[Value]) -> Option<bool>
    ensures { IfSome result (λ met. val (left.now ++ right.now) condition.now ≡ Val (value.Bool met)) }
{
    match condition {
        Expr::IsNull(_) => is_null_test_met(condition, left, right),
        Expr::Not(operand) => is_negation_met(operand.get(), left, right),
        Expr::Between(_, _, _) => is_between_met(condition, left, right),
        Expr::In(_, _) => is_member_met(condition, left, right),
        _ => is_comparison_met(condition, left, right),
    }
}

/// Whether such conditions are all TRUE at the row. Those after one that is FALSE are not looked at.
#[inline(never)]
fn are_all_met(first: &Expr, more: &[Expr], left: &[Value], right: &[Value]) -> Option<bool>
    ensures { IfSome result
        (λ met. all_of (val (left.now ++ right.now) first.now) (map (val (left.now ++ right.now)) more.now)
        ≡ Val (value.Bool met)) }
{
    if !is_form_met(first, left, right)? {
        return Some(false);
    }
    for condition in more {
        if !is_form_met(condition, left, right)? {
            return Some(false);
        }
    }
    Some(true)
}

/// Whether one of such conditions is TRUE at the row. Those after one that is TRUE are not looked at.
#[inline(never)]
fn is_any_met(first: &Expr, more: &[Expr], left: &[Value], right: &[Value]) -> Option<bool>
    ensures { IfSome result
        (λ met. any_of (val (left.now ++ right.now) first.now) (map (val (left.now ++ right.now)) more.now)
        ≡ Val (value.Bool met)) }
{
    if is_form_met(first, left, right)? {
        return Some(true);
    }
    for condition in more {
        if is_form_met(condition, left, right)? {
            return Some(true);
        }
    }
    Some(false)
}

/// Whether a condition of these forms, or an AND or an OR of such, is TRUE at a row in two parts, which is not put together. None where the
/// condition has another form, or an operand of what is looked at is NULL.
#[inline(always)]
pub fn are_comparisons_met(condition: &Expr, left: &[Value], right: &[Value]) -> Option<bool>
    ensures { IfSome result (λ met. val (left.now ++ right.now) condition.now ≡ Val (value.Bool met)) }
{
    match condition {
        Expr::And(first, more) => are_all_met(first.get(), more.as_slice(), left, right),
        Expr::Or(first, more) => is_any_met(first.get(), more.as_slice(), left, right),
        _ => is_form_met(condition, left, right),
    }
}

/// Whether the condition is TRUE at the row, by a walk over its tree.
pub fn is_true(alloc: Global, condition: &Expr, row: &[Value]) -> Result<bool, Failure>
    ensures holds { Gives result (holds condition.now row.now) }
    ensures memory { RunsOutOnlyIf result (has_concatenation condition.now) }
{
    Ok(evaluate(alloc, condition, row)?.truth() == Truth::True)
}

/// Whether the condition is TRUE at the row. Comparisons of columns, literals and arithmetic on these, BETWEEN of numbers, IN of columns and
/// literals, and tests for NULL are judged without `evaluate`. The error is an arithmetic error, or out of memory where the condition has a `||`.
pub fn is_met(alloc: Global, condition: &Expr, row: &[Value]) -> Result<bool, Failure>
    ensures holds { Gives result (holds condition.now row.now) }
    ensures memory { RunsOutOnlyIf result (has_concatenation condition.now) }
{
    if let Some(met) = are_comparisons_met(condition, row, &[]) {
        return Ok(met);
    }
    is_true(alloc, condition, row)
}

/// The value of an expression at the row, the caller's own. A column is copied with no walk over an expression's tree. The error is an
/// arithmetic error, or out of memory.
pub fn value_at(alloc: Global, expr: &Expr, row: &[Value]) -> Result<Value, Failure>
    ensures { Gives result (value_of (val row.now expr.now)) }
{
    match operand_value(alloc, expr, row)?.into_value(alloc) {
        Ok(value) => Ok(value),
        Err(_) => Err(Failure::OutOfMemory),
    }
}
