//! Aggregates as states that take one row after another.
ghost use Rattle.std.specs.Prelude.{◌≡◌, ◌+◌, ◌^◌, ◌<◌, ℕ, pos, [], ◌∷◌, ◌++◌, List, Err, None, Some, IfOk, IfSome, IsTrue, OnOk};
ghost use Rattle.span_value.specs.declared.value.Value.{Value};
ghost use Rattle.span_value.specs.declared.value.Value.TheVariants as value;
ghost use Rattle.span_value.specs.declared.truth.Outcome.TheVariants.{Val};
ghost use Rattle.span_expr.specs.declared.cell.Failure.TheVariants.{Fault};
ghost use Rattle.span_expr.specs.Meaning.{val};
ghost use Rattle.span_expr.specs.Operators.{number};
ghost use Rattle.span_expr.specs.Cells.{owned_value};
ghost use Rattle.span_query.specs.declared.query.Aggregate.{Aggregate};
ghost use Rattle.span_query.specs.declared.query.Function.{Function};
ghost use Rattle.span_query.specs.Rows.{Row, value_of};
ghost use Rattle.span_query.specs.Groups as spec;
ghost use Rattle.span_conditions.specs.Answers.{Gives};
ghost use Rattle.span_groups.specs.States.{better_of, count_of, HasCounted, HasTaken, IsStateOf, TakesOperand, operand_at, or_better, or_null};

use super::sum::{Sum, number};
use span_conditions::computed::{number_at as number_in, number_of};
use span_conditions::condition::operand_value;
use span_expr::cell::{Failure, LentValue};
use span_expr::expr::Expr;
use span_query::query::{Aggregate, Function};
use span_rows::row::copy_of;
use span_value::order::compare;
use span_value::value::Value;
use std::alloc::{AllocError, Global};

/// The number that an operand comes to at a row, where it is a column or arithmetic. None where it is another, or has no number there. Most
/// operands are columns, and are read with no call.
#[inline(always)]
fn number_at(operand: &Expr, row: &[Value]) -> Option<i64>
    ensures { IfSome result (λ n. val row.now operand.now ≡ Val (value.Int n)) }
{
    match operand {
        Expr::Column(place) => number_in(row, *place),
        Expr::Negative(_) | Expr::Chain(_, _) => number_of(operand, row, &[]),
        _ => None,
    }
}

/// The number of an INT64 value.
fn int_of(value: &LentValue<'_>) -> i64
    ensures { result ≡ spec.int_of (owned_value value.now) }
{
    match value {
        LentValue::Int(n) => *n,
        _ => 0,
    }
}

/// Whether a number is not less than the best so far.
fn is_no_less(value: &LentValue<'_>, best: &Option<Value>) -> bool
    ensures { IsTrue result → best.now ≡ Some (or_better spec.lesser best.now (owned_value value.now)) }
{
    match (value, best) {
        (LentValue::Int(n), Some(Value::Int(so_far))) => n >= so_far,
        _ => false,
    }
}

/// Whether a number is not greater than the best so far.
fn is_no_greater(value: &LentValue<'_>, best: &Option<Value>) -> bool
    ensures { IsTrue result → best.now ≡ Some (or_better spec.greater best.now (owned_value value.now)) }
{
    match (value, best) {
        (LentValue::Int(n), Some(Value::Int(so_far))) => n <= so_far,
        _ => false,
    }
}

/// The value, or the best so far where that is not greater.
fn lesser(best: Option<Value>, value: Value) -> Value
    ensures { result ≡ or_better spec.lesser best value }
{
    match best {
        Some(so_far) if !compare(&value, &so_far).is_lt() => so_far,
        _ => value,
    }
}

/// The value, or the best so far where that is not less.
fn greater(best: Option<Value>, value: Value) -> Value
    ensures { result ≡ or_better spec.greater best value }
{
    match best {
        Some(so_far) if !compare(&value, &so_far).is_gt() => so_far,
        _ => value,
    }
}

/// Keeps the lesser of the best so far and another value; the best so far where neither is less.
fn keep_lesser_value(best: &mut Option<Value>, value: Value)
    ensures { best.new ≡ Some (or_better spec.lesser best.old value) }
{
    *best = Some(lesser(best.take(), value));
}

/// Keeps the greater of the best so far and another value; the best so far where neither is greater.
fn keep_greater_value(best: &mut Option<Value>, value: Value)
    ensures { best.new ≡ Some (or_better spec.greater best.old value) }
{
    *best = Some(greater(best.take(), value));
}

/// The same of a number beside what may be no number. It is out of line, so that no value is made for two numbers.
#[inline(never)]
fn keep_lesser_beside(best: &mut Option<Value>, number: i64)
    ensures { best.new ≡ Some (or_better spec.lesser best.old (value.Int number)) }
{
    keep_lesser_value(best, Value::Int(number));
}

/// The same of a number, which takes the place of another where that lies.
fn keep_lesser_number(best: &mut Option<Value>, number: i64)
    ensures { best.new ≡ Some (or_better spec.lesser best.old (value.Int number)) }
{
    match best {
        Some(Value::Int(so_far)) => {
            if number < *so_far {
                *so_far = number;
            }
        }
        _ => keep_lesser_beside(best, number),
    }
}

/// The same of a number beside what may be no number. It is out of line, so that no value is made for two numbers.
#[inline(never)]
fn keep_greater_beside(best: &mut Option<Value>, number: i64)
    ensures { best.new ≡ Some (or_better spec.greater best.old (value.Int number)) }
{
    keep_greater_value(best, Value::Int(number));
}

/// The same of a number, which takes the place of another where that lies.
fn keep_greater_number(best: &mut Option<Value>, number: i64)
    ensures { best.new ≡ Some (or_better spec.greater best.old (value.Int number)) }
{
    match best {
        Some(Value::Int(so_far)) => {
            if number > *so_far {
                *so_far = number;
            }
        }
        _ => keep_greater_beside(best, number),
    }
}

/// Keeps the lesser of the best so far and another, if there is one; the best so far where neither is less.
fn keep_lesser(
    alloc: Global,
    best: &mut Option<Value>,
    next: &Option<Value>,
) -> Result<(), AllocError>
    ensures { OnOk result (best.new ≡ better_of spec.lesser best.old next.now) }
{
    if let Some(value) = next {
        keep_lesser_value(best, copy_of(alloc, value)?);
    }
    Ok(())
}

/// Keeps the greater of the best so far and another, if there is one; the best so far where neither is greater.
fn keep_greater(
    alloc: Global,
    best: &mut Option<Value>,
    next: &Option<Value>,
) -> Result<(), AllocError>
    ensures { OnOk result (best.new ≡ better_of spec.greater best.old next.now) }
{
    if let Some(value) = next {
        keep_greater_value(best, copy_of(alloc, value)?);
    }
    Ok(())
}

fn copy_or_null(alloc: Global, best: &Option<Value>) -> Result<Value, AllocError>
    ensures { IfOk result (λ copy. copy ≡ or_null best.now) }
{
    match best {
        Some(value) => copy_of(alloc, value),
        None => Ok(Value::Null),
    }
}

/// Adds to a count. False, and nothing changes, where the sum does not fit in 64 bits.
fn add_count(count: &mut u64, more: u64) -> bool
    ensures { IsTrue result → count.new ≡ count.old + more }
{
    match count.checked_add(more) {
        Some(sum) => {
            *count = sum;
            true
        }
        None => false,
    }
}

/// What is known of an aggregate after some rows.
#[derive(Debug, Drop)]
pub enum AggregateState {
    /// How many rows, or how many values.
    Count(u64),
    Sum(Sum),
    /// The first of the least values.
    Least(Option<Value>),
    /// The first of the greatest values.
    Greatest(Option<Value>),
}

impl AggregateState {
    /// Of no rows.
    pub(crate) fn new(aggregate: &Aggregate) -> AggregateState
        ensures { IsStateOf aggregate.now [] result }
    {
        match aggregate {
            Aggregate::CountRows => AggregateState::Count(0),
            Aggregate::Of(Function::Count, _) => AggregateState::Count(0),
            Aggregate::Of(Function::Sum, _) => AggregateState::Sum(Sum::new()),
            Aggregate::Of(Function::Min, _) => AggregateState::Least(None),
            Aggregate::Of(Function::Max, _) => AggregateState::Greatest(None),
        }
    }

    /// One more row of a count of rows.
    fn count_row(&mut self)
        requires { count_of self.old + 1 < 2 ^ 64 }
        ensures { (n : ℕ) → HasCounted n self.old → HasCounted (n + 1) self.new }
    {
        if let AggregateState::Count(count) = self {
            *count += 1;
        }
    }

    /// One more value that is not NULL. Only a least or a greatest value is kept, and so copied.
    fn take_value(&mut self, alloc: Global, value: LentValue<'_>) -> Result<(), AllocError>
        requires { count_of self.old + 1 < 2 ^ 64 }
        ensures { OnOk result
            ((f : Function) (vs : List Value)
            → HasTaken f vs self.old
            → HasTaken f (vs ++ owned_value value.entry ∷ []) self.new) }
    {
        match self {
            AggregateState::Count(count) => *count += 1,
            AggregateState::Sum(sum) => sum.add(int_of(&value)),
            AggregateState::Least(best) => {
                if !is_no_less(&value, best) {
                    keep_lesser_value(best, value.into_value(alloc)?);
                }
            }
            AggregateState::Greatest(best) => {
                if !is_no_greater(&value, best) {
                    keep_greater_value(best, value.into_value(alloc)?);
                }
            }
        }
        Ok(())
    }

    /// One more number.
    #[inline(always)]
    fn take_number(&mut self, number: i64)
        requires { count_of self.old + 1 < 2 ^ 64 }
        ensures { (f : Function) (vs : List Value)
            → HasTaken f vs self.old
            → HasTaken f (vs ++ value.Int number ∷ []) self.new }
    {
        match self {
            AggregateState::Count(count) => *count += 1,
            AggregateState::Sum(sum) => sum.add(number),
            AggregateState::Least(best) => keep_lesser_number(best, number),
            AggregateState::Greatest(best) => keep_greater_number(best, number),
        }
    }

    /// The value of an operand at one more row, whatever it is.
    #[inline(never)]
    fn take_any(&mut self, alloc: Global, operand: &Expr, row: &[Value]) -> Result<(), Failure>
        requires { count_of self.old + 1 < 2 ^ 64 }
        ensures ok { OnOk result (TakesOperand row.now operand.now self.old self.new) }
        ensures fault { result ≡ Err Fault → value_of (val row.now operand.now) ≡ None }
    {
        let value = operand_value(alloc, operand, row)?;
        if !value.is_null() {
            self.take_value(alloc, value)?;
        }
        Ok(())
    }

    /// The same. A number of a column, or of arithmetic on numbers, is taken with no value in between.
    #[inline(always)]
    fn take_operand(&mut self, alloc: Global, operand: &Expr, row: &[Value]) -> Result<(), Failure>
        requires { count_of self.old + 1 < 2 ^ 64 }
        ensures ok { OnOk result (TakesOperand row.now operand.now self.old self.new) }
        ensures fault { result ≡ Err Fault → value_of (val row.now operand.now) ≡ None }
    {
        if let Some(number) = number_at(operand, row) {
            self.take_number(number);
            return Ok(());
        }
        self.take_any(alloc, operand, row)
    }

    /// One more row.
    #[inline(always)]
    pub(crate) fn take(
        &mut self,
        alloc: Global,
        aggregate: &Aggregate,
        row: &[Value],
    ) -> Result<(), Failure>
        requires { count_of self.old + 1 < 2 ^ 64 }
        ensures ok { OnOk result
            ((rows : List Row)
            → IsStateOf aggregate.now rows self.old
            → IsStateOf aggregate.now (rows ++ row.now ∷ []) self.new) }
        ensures fault { result ≡ Err Fault → operand_at row.now aggregate.now ≡ None }
    {
        match aggregate {
            Aggregate::CountRows => self.count_row(),
            Aggregate::Of(_, operand) => self.take_operand(alloc, operand, row)?,
        }
        Ok(())
    }

    /// Takes what another state of the same aggregate has taken, after its own. False where a count does not fit in 64 bits, or the other
    /// state is of another kind: what it has taken then is not known.
    pub(crate) fn merge(&mut self, alloc: Global, more: &AggregateState) -> Result<bool, AllocError>
        ensures { IfOk result
            (λ done.
            IsTrue done
            → (a : Aggregate) (rows next : List Row)
            → IsStateOf a rows self.old
            → IsStateOf a next more.now
            → IsStateOf a (rows ++ next) self.new) }
    {
        match (self, more) {
            (AggregateState::Count(count), AggregateState::Count(n)) => Ok(add_count(count, *n)),
            (AggregateState::Sum(sum), AggregateState::Sum(next)) => Ok(sum.merge(next)),
            (AggregateState::Least(best), AggregateState::Least(next)) => {
                keep_lesser(alloc, best, next)?;
                Ok(true)
            }
            (AggregateState::Greatest(best), AggregateState::Greatest(next)) => {
                keep_greater(alloc, best, next)?;
                Ok(true)
            }
            _ => Ok(false),
        }
    }

    /// The result for the values that were taken.
    fn value(&self, alloc: Global) -> Result<Value, Failure>
        ensures values { (f : Function) (vs : List Value) → HasTaken f vs self.now
            → Gives result (value_of (spec.of_values f vs)) }
        ensures rows { (n : ℕ) → HasCounted n self.now → Gives result (value_of (number (pos n))) }
    {
        match self {
            AggregateState::Count(count) => number(i128::from(*count)),
            AggregateState::Sum(sum) => sum.outcome(),
            AggregateState::Least(best) => Ok(copy_or_null(alloc, best)?),
            AggregateState::Greatest(best) => Ok(copy_or_null(alloc, best)?),
        }
    }

    /// The aggregate of the rows that were taken.
    pub(crate) fn outcome(&self, alloc: Global) -> Result<Value, Failure>
        ensures { (a : Aggregate) (rows : List Row) → IsStateOf a rows self.now → Gives result (spec.aggregate rows a) }
    {
        self.value(alloc)
    }
}
