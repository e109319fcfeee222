//! What an expression comes to at a row.
//!
//! Evaluating lends what it reads and walks chains of operators by loops, so that the depth of the recursion is bounded by the
//! nesting of the query.
ghost use Rattle.std.specs.Prelude.{◌≡◌, ◌||◌, map, false, IfOk, IfSome, IsOkUnless};
ghost use Rattle.std.specs.List.{fold};
ghost use Rattle.std.specs.Option.{option_map};
ghost use Rattle.span_expr.specs.Cells.{owned_value, Gives, GivesOr, GivesCondition, GivesChoice};
ghost use Rattle.span_expr.specs.Outcomes as outcomes;
ghost use Rattle.span_expr.specs.Operators as operators;
ghost use Rattle.span_pattern.specs.Patterns as patterns;
ghost use Rattle.span_expr.specs.Meaning as spec;
ghost use Rattle.span_expr.specs.Memory as memory;
ghost use Rattle.span_expr.specs.Memory.{is_out_of_memory, RunsOutOnlyIf};
ghost use Rattle.span_value.specs.declared.truth.Outcome.{Outcome};
ghost use Rattle.span_value.specs.declared.truth.Outcome.TheVariants as outcome;
ghost use Rattle.span_value.specs.declared.value.Value.TheVariants as value;

use super::operator::{apply, arithmetic_negation, compare, has_prefix, length_of};
use span_expr::cell::{Failure, LentValue, column_of, lend};
use span_expr::condition::{Condition, both, either, either_strict};
use span_expr::expr::{Arm, Comparison, Expr, Link, Operator};
use span_pattern::pattern::{PatternPart, fits};
use span_value::refusal::Refusal;
use span_value::truth::{Outcome, Truth, not};
use span_value::value::Value;
use sqlite_items::Boxed;
use std::alloc::Global;

/// The result of an expression: a value, or why there is none.
pub type EvalResult<'a> = Result<LentValue<'a>, Failure>;

/// What an operand comes to as a condition.
fn condition_of(found: EvalResult<'_>) -> Result<Condition, Failure>
    ensures value { (o : Outcome) → Gives found.entry o → GivesCondition result (outcomes.condition_of o) }
    ensures memory { RunsOutOnlyIf result (is_out_of_memory found.entry) }
{
    match found {
        Ok(cell) => Ok(Condition::Known(cell.truth())),
        Err(Failure::Fault) => Ok(Condition::Faulted),
        Err(Failure::OutOfMemory) => Err(Failure::OutOfMemory),
    }
}

fn cell_of(truth: Truth) -> LentValue<'static>
    ensures { owned_value result ≡ outcomes.value_of truth }
{
    match truth {
        Truth::True => LentValue::Bool(true),
        Truth::False => LentValue::Bool(false),
        Truth::Unknown => LentValue::Null,
    }
}

fn outcome_of<'a>(condition: Condition) -> EvalResult<'a>
    ensures value { Gives result (outcomes.outcome_of condition) }
    ensures memory { is_out_of_memory result ≡ false }
{
    match condition {
        Condition::Known(truth) => Ok(cell_of(truth)),
        Condition::Faulted => Err(Failure::Fault),
    }
}

fn unary_minus(operand: EvalResult<'_>) -> EvalResult<'_>
    ensures value { (o : Outcome)
        → Gives operand.entry o
        → Gives result (outcomes.at_value o operators.arithmetic_negation) }
    ensures memory { RunsOutOnlyIf result (is_out_of_memory operand.entry) }
{
    arithmetic_negation(operand?)
}

fn logical_not(operand: EvalResult<'_>) -> EvalResult<'_>
    ensures value { (o : Outcome) → Gives operand.entry o → Gives result (outcomes.at_value o outcomes.logical_not) }
    ensures memory { RunsOutOnlyIf result (is_out_of_memory operand.entry) }
{
    Ok(cell_of(not(operand?.truth())))
}

fn null_test(operand: EvalResult<'_>) -> EvalResult<'_>
    ensures value { (o : Outcome) → Gives operand.entry o → Gives result (outcomes.at_value o outcomes.null_test) }
    ensures memory { RunsOutOnlyIf result (is_out_of_memory operand.entry) }
{
    Ok(LentValue::Bool(operand?.is_null()))
}

fn length(operand: EvalResult<'_>) -> EvalResult<'_>
    ensures value { (o : Outcome) → Gives operand.entry o → Gives result (outcomes.at_value o operators.length_of) }
    ensures memory { RunsOutOnlyIf result (is_out_of_memory operand.entry) }
{
    Ok(length_of(&operand?))
}

fn compare_values<'a>(
    comparison: Comparison,
    left: EvalResult<'a>,
    right: EvalResult<'a>,
) -> EvalResult<'a>
    ensures value { (o p : Outcome)
        → Gives left.entry o
        → Gives right.entry p
        → Gives result (outcomes.strict (operators.compare_values comparison) o p) }
    ensures memory { RunsOutOnlyIf result (is_out_of_memory left.entry || is_out_of_memory right.entry) }
{
    Ok(compare(comparison, &left?, &right?))
}

/// A comparison with an operand that is only borrowed.
fn compare_lent<'a>(
    comparison: Comparison,
    left: &EvalResult<'a>,
    right: EvalResult<'a>,
) -> EvalResult<'a>
    ensures value { (o p : Outcome)
        → Gives left.now o
        → Gives right.entry p
        → Gives result (outcomes.strict (operators.compare_values comparison) o p) }
    ensures memory { RunsOutOnlyIf result (is_out_of_memory left.now || is_out_of_memory right.entry) }
{
    match left {
        Ok(cell) => Ok(compare(comparison, cell, &right?)),
        Err(why) => Err(*why),
    }
}

/// Whether a condition chooses its arm: where it is TRUE.
fn chooses(condition: EvalResult<'_>) -> Result<bool, Failure>
    ensures value { (o : Outcome) → Gives condition.entry o → GivesChoice result o }
    ensures memory { RunsOutOnlyIf result (is_out_of_memory condition.entry) }
{
    Ok(condition?.truth() == Truth::True)
}

fn between<'a>(operand: EvalResult<'a>, low: EvalResult<'a>, high: EvalResult<'a>) -> EvalResult<'a>
    ensures value { (o p q : Outcome)
        → Gives operand.entry o
        → Gives low.entry p
        → Gives high.entry q
        → Gives result (spec.between o p q) }
    ensures memory { RunsOutOnlyIf
        result
        (is_out_of_memory operand.entry || is_out_of_memory low.entry || is_out_of_memory high.entry) }
{
    let above = condition_of(compare_lent(Comparison::AtLeast, &operand, low))?;
    let below = condition_of(compare_lent(Comparison::AtMost, &operand, high))?;
    outcome_of(both(above, below))
}

/// One more member of an IN.
fn or_equal<'a>(
    so_far: Condition,
    operand: &EvalResult<'a>,
    member: EvalResult<'a>,
) -> Result<Condition, Failure>
    ensures value { (o p : Outcome)
        → Gives operand.now o
        → Gives member.entry p
        → GivesCondition result (spec.or_equal o so_far p) }
    ensures memory { RunsOutOnlyIf result (is_out_of_memory operand.now || is_out_of_memory member.entry) }
{
    let found = compare_lent(Comparison::Equal, operand, member);
    Ok(either_strict(so_far, condition_of(found)?))
}

fn prefix_test<'a>(text: EvalResult<'a>, front: EvalResult<'a>) -> EvalResult<'a>
    ensures value { (o p : Outcome)
        → Gives text.entry o
        → Gives front.entry p
        → Gives result (outcomes.strict operators.has_prefix o p) }
    ensures memory { RunsOutOnlyIf result (is_out_of_memory text.entry || is_out_of_memory front.entry) }
{
    Ok(has_prefix(&text?, &front?))
}

fn like_test<'a>(operand: EvalResult<'a>, pattern: &[PatternPart]) -> EvalResult<'a>
    ensures value { (o : Outcome)
        → Gives operand.entry o
        → Gives result (outcomes.at_value o (patterns.like pattern.now)) }
    ensures memory { RunsOutOnlyIf result (is_out_of_memory operand.entry) }
{
    match operand?.as_str() {
        Some(text) => Ok(LentValue::Bool(fits(pattern, text))),
        None => Ok(LentValue::Null),
    }
}

/// What an expression comes to at a row. The error is `Fault` for an arithmetic error, or out of memory for a string that `||` makes.
#[cycle(eval)]
pub fn evaluate<'a>(alloc: Global, expr: &'a Expr, row: &'a [Value]) -> EvalResult<'a>
    ensures value { Gives result (spec.val row.now expr.now) }
    ensures memory { RunsOutOnlyIf result (memory.has_concatenation expr.now) }
{
    match expr {
        Expr::Literal(value) => Ok(lend(value)),
        Expr::Column(place) => Ok(column_of(row, *place)),
        Expr::Negative(a) => unary_minus(evaluate(alloc, a.get(), row)),
        Expr::Chain(first, links) => {
            apply_links(
                alloc,
                evaluate(alloc, first.get(), row),
                links.as_slice(),
                row,
            )
        },
        Expr::Compare(a, comparison, b) => compare_values(
            *comparison,
            evaluate(alloc, a.get(), row),
            evaluate(alloc, b.get(), row),
        ),
        Expr::StartsWith(a, front) => prefix_test(
            evaluate(alloc, a.get(), row),
            evaluate(alloc, front.get(), row),
        ),
        Expr::Length(a) => length(evaluate(alloc, a.get(), row)),
        Expr::Between(a, low, high) => between(
            evaluate(alloc, a.get(), row),
            evaluate(alloc, low.get(), row),
            evaluate(alloc, high.get(), row),
        ),
        Expr::In(a, members) => {
            let operand = evaluate(alloc, a.get(), row);
            in_list(alloc, &operand, members.as_slice(), row)
        }
        Expr::And(first, more) => {
            all_of(
                alloc,
                evaluate(alloc, first.get(), row),
                more.as_slice(),
                row,
            )
        },
        Expr::Not(a) => logical_not(evaluate(alloc, a.get(), row)),
        Expr::IsNull(a) => null_test(evaluate(alloc, a.get(), row)),
        Expr::Or(first, more) => {
            any_of(
                alloc,
                evaluate(alloc, first.get(), row),
                more.as_slice(),
                row,
            )
        }
        Expr::Case(arms, otherwise) => match case_value(alloc, arms.as_slice(), row) {
            Some(found) => found,
            None => value_or_null(alloc, otherwise, row),
        },
        Expr::Match(a, arms, otherwise) => {
            let operand = evaluate(alloc, a.get(), row);
            match match_value(alloc, &operand, arms.as_slice(), row) {
                Some(found) => found,
                None => value_or_null(alloc, otherwise, row),
            }
        }
        Expr::Coalesce(operands) => first_non_null(alloc, operands.as_slice(), row),
        Expr::Like(a, pattern) => like_test(evaluate(alloc, a.get(), row), pattern.as_slice()),
    }
}

/// An operator applied to the value so far and its operand.
fn apply_link<'a>(
    alloc: Global,
    operator: Operator,
    so_far: LentValue<'a>,
    operand: EvalResult<'a>,
) -> EvalResult<'a>
    ensures value { (o : Outcome)
        → Gives operand.entry o
        → Gives result
        (outcomes.strict (operators.apply_operator operator) (outcome.Val (owned_value so_far.entry)) o) }
    ensures memory { RunsOutOnlyIf result (memory.is_concatenation operator || is_out_of_memory operand.entry) }
{
    apply(alloc, operator, so_far, &operand?)
}

/// A chain, after its first operand.
#[cycle(eval)]
#[tactic(auto, using(crate::proofs::Loops::loop_steps))]
fn apply_links<'a>(
    alloc: Global,
    first: EvalResult<'a>,
    links: &'a [Link<Expr>],
    row: &'a [Value],
) -> EvalResult<'a>
    ensures value { (o : Outcome)
        → Gives first.entry o
        → Gives result (spec.apply_links o (map (spec.link_val row.now) links.now)) }
    ensures memory { RunsOutOnlyIf result (is_out_of_memory first.entry || memory.any_link_concatenation links.now) }
{
    let mut so_far = first?;
    for link in links {
        let operand = evaluate(alloc, &link.operand, row);
        so_far = apply_link(alloc, link.operator, so_far, operand)?;
    }
    Ok(so_far)
}

/// An AND, after its first operand.
#[cycle(eval)]
#[tactic(auto, using(crate::proofs::Loops::loop_steps))]
fn all_of<'a>(
    alloc: Global,
    first: EvalResult<'a>,
    more: &'a [Expr],
    row: &'a [Value],
) -> EvalResult<'a>
    ensures value { (o : Outcome)
        → Gives first.entry o
        → Gives result (spec.all_of o (map (spec.val row.now) more.now)) }
    ensures memory { RunsOutOnlyIf result (is_out_of_memory first.entry || memory.any_concatenation more.now) }
{
    let mut so_far = condition_of(first)?;
    for operand in more {
        if so_far == Condition::Known(Truth::False) {
            return Ok(LentValue::Bool(false));
        }
        so_far = both(so_far, condition_of(evaluate(alloc, operand, row))?);
    }
    outcome_of(so_far)
}

/// An OR, after its first operand.
#[cycle(eval)]
#[tactic(auto, using(crate::proofs::Loops::loop_steps))]
fn any_of<'a>(
    alloc: Global,
    first: EvalResult<'a>,
    more: &'a [Expr],
    row: &'a [Value],
) -> EvalResult<'a>
    ensures value { (o : Outcome)
        → Gives first.entry o
        → Gives result (spec.any_of o (map (spec.val row.now) more.now)) }
    ensures memory { RunsOutOnlyIf result (is_out_of_memory first.entry || memory.any_concatenation more.now) }
{
    let mut so_far = condition_of(first)?;
    for operand in more {
        if so_far == Condition::Known(Truth::True) {
            return Ok(LentValue::Bool(true));
        }
        so_far = either(so_far, condition_of(evaluate(alloc, operand, row))?);
    }
    outcome_of(so_far)
}

/// An IN, after its operand.
#[cycle(eval)]
fn in_list<'a>(
    alloc: Global,
    operand: &EvalResult<'a>,
    members: &'a [Expr],
    row: &'a [Value],
) -> EvalResult<'a>
    ensures value { (o : Outcome)
        → Gives operand.now o
        → Gives result (spec.in_list o (map (spec.val row.now) members.now)) }
    ensures memory { RunsOutOnlyIf result (is_out_of_memory operand.now || memory.any_concatenation members.now) }
{
    let mut so_far = Condition::Known(Truth::False);
    for member in members {
        so_far = or_equal(so_far, operand, evaluate(alloc, member, row))?;
    }
    outcome_of(so_far)
}

/// The value of an ELSE; NULL where there is none.
#[cycle(eval)]
fn value_or_null<'a>(
    alloc: Global,
    otherwise: &'a Option<Boxed<Expr>>,
    row: &'a [Value],
) -> EvalResult<'a>
    ensures value { Gives result (spec.or_null_outcome (option_map (spec.val row.now) otherwise.now)) }
    ensures memory { RunsOutOnlyIf result (memory.in_some (option_map memory.has_concatenation otherwise.now)) }
{
    match otherwise {
        Some(value) => evaluate(alloc, value.get(), row),
        None => Ok(LentValue::Null),
    }
}

/// The value of the first arm whose condition is TRUE.
#[cycle(eval)]
fn case_value<'a>(alloc: Global, arms: &'a [Arm<Expr>], row: &'a [Value]) -> Option<EvalResult<'a>>
    ensures value { GivesOr result (spec.case_value (map (spec.arm_val row.now) arms.now)) }
    ensures memory { IfSome result (λ found. RunsOutOnlyIf found (memory.any_arm_concatenation arms.now)) }
{
    for arm in arms {
        match chooses(evaluate(alloc, &arm.condition, row)) {
            Ok(true) => return Some(evaluate(alloc, &arm.value, row)),
            Ok(false) => {}
            Err(why) => return Some(Err(why)),
        }
    }
    None
}

/// The value of the first arm whose condition equals the operand.
#[cycle(eval)]
fn match_value<'a>(
    alloc: Global,
    operand: &EvalResult<'a>,
    arms: &'a [Arm<Expr>],
    row: &'a [Value],
) -> Option<EvalResult<'a>>
    ensures value { (o : Outcome)
        → Gives operand.now o
        → GivesOr result (spec.match_value o (map (spec.arm_val row.now) arms.now)) }
    ensures memory { IfSome
        result
        (λ found. RunsOutOnlyIf found (is_out_of_memory operand.now || memory.any_arm_concatenation arms.now)) }
{
    for arm in arms {
        let equal = compare_lent(
            Comparison::Equal,
            operand,
            evaluate(alloc, &arm.condition, row),
        );
        match chooses(equal) {
            Ok(true) => return Some(evaluate(alloc, &arm.value, row)),
            Ok(false) => {}
            Err(why) => return Some(Err(why)),
        }
    }
    None
}

/// The first value that is not NULL.
#[cycle(eval)]
fn first_non_null<'a>(alloc: Global, operands: &'a [Expr], row: &'a [Value]) -> EvalResult<'a>
    ensures value { Gives result (outcomes.first_non_null (map (spec.val row.now) operands.now)) }
    ensures memory { RunsOutOnlyIf result (memory.any_concatenation operands.now) }
{
    for operand in operands {
        let found = evaluate(alloc, operand, row)?;
        if !found.is_null() {
            return Ok(found);
        }
    }
    Ok(LentValue::Null)
}

/// What an expression comes to at a row, as an owned value. The error is out of memory.
pub fn eval(alloc: Global, expr: &Expr, row: &[Value]) -> Result<Outcome, Refusal>
    ensures value { IfOk result (λ o. o ≡ spec.val row.now expr.now) }
    ensures memory { IsOkUnless result Refusal.OutOfMemory }
{
    match evaluate(alloc, expr, row) {
        Ok(cell) => Ok(Outcome::Val(cell.into_value(alloc)?)),
        Err(Failure::Fault) => Ok(Outcome::Fault),
        Err(Failure::OutOfMemory) => Err(Refusal::OutOfMemory),
    }
}
