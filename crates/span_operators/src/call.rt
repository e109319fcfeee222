//! What calls make of typed operands.
ghost use Rattle.std.specs.Prelude.{◌≡◌, ◌∷◌, [], Ok};
ghost use Rattle.span_value.specs.Results.{and_then};
ghost use Rattle.span_operators.specs.Steps.{Gives};
ghost use Rattle.span_operators.specs.Kinds as kinds;
ghost use Rattle.span_operators.specs.Operators as spec;

use super::choice::{case_of, coalesce_of};
use super::function::CalledFunction;
use super::kind::{common_kind, takes, text_kind};
use super::operator::{TypingResult, of_kind};
use super::step::{append, box_second, box_two, keep_if, pair_with};
use super::typed::{Typed, TypedArm};
use span_expr::expr::{Expr, Link, Operator};
use span_query::query::Function;
use span_value::refusal::Refusal;
use span_value::seq::Seq;
use span_value::value::Kind;
use sqlite_items::{Boxed, Items};
use std::alloc::Global;

fn one_of(operands: Seq<Typed>) -> Result<Typed, Refusal>
    ensures { result ≡ spec.one_of operands }
{
    let mut operands = operands.into_vec();
    match operands.pop() {
        Some(only) => keep_if(operands.is_empty(), only),
        None => Err(Refusal::TypeMismatch),
    }
}

#[tactic(auto, using(crate::proofs::Agreement::counting))]
fn two_of(operands: Seq<Typed>) -> Result<(Typed, Typed), Refusal>
    ensures { result ≡ spec.two_of operands }
{
    let mut operands = operands.into_vec();
    match operands.pop() {
        Some(second) => {
            let (second, first) = pair_with(second, one_of(Seq::from_vec(operands)))?;
            Ok((first, second))
        }
        None => Err(Refusal::TypeMismatch),
    }
}

/// DIV or MOD.
#[tactic(auto, unfolding(crate::specs::Operators::calculation_of))]
fn calculation_of(alloc: Global, operator: Operator, left: Typed, right: Typed) -> TypingResult
    ensures { Gives result (spec.calculation_of operator left right) }
{
    let are_integers = takes(Kind::Int, left.kind) && takes(Kind::Int, right.kind);
    let (left, right) = keep_if(are_integers, (left.expr, right.expr))?;
    let (right, left) = box_second(alloc, right, left)?;
    let mut links = Items::new(alloc);
    links.push(Link {
        operator,
        operand: right,
    })?;
    Ok(of_kind(Expr::Chain(left, links), Kind::Int))
}

#[tactic(auto, unfolding(crate::specs::Operators::length_of))]
fn length_of(alloc: Global, operand: Typed) -> TypingResult
    ensures { Gives result (spec.length_of operand) }
{
    let (operand, _) = pair_with(operand.expr, text_kind(operand.kind))?;
    Ok(of_kind(Expr::Length(Boxed::new(alloc, operand)?), Kind::Int))
}

/// The type of two operands that are both strings or both BYTES.
fn common_text_kind(left: Option<Kind>, right: Option<Kind>) -> Result<Kind, Refusal>
    ensures { result ≡ and_then (kinds.common_kind left right) kinds.text_kind }
{
    text_kind(common_kind(left, right)?)
}

#[tactic(auto, unfolding(crate::specs::Operators::starts_with))]
fn starts_with(alloc: Global, text: Typed, front: Typed) -> TypingResult
    ensures { Gives result (spec.starts_with text front) }
{
    let kind = common_text_kind(text.kind, front.kind);
    let ((text, front), _) = pair_with((text, front), kind)?;
    let (text, front) = box_two(alloc, text.expr, front.expr)?;
    Ok(of_kind(Expr::StartsWith(text, front), Kind::Bool))
}

#[tactic(auto, using(crate::proofs::Agreement::counting))]
fn three_of(operands: Seq<Typed>) -> Result<(Typed, Typed, Typed), Refusal>
    ensures { result ≡ spec.three_of operands }
{
    let mut operands = operands.into_vec();
    match operands.pop() {
        Some(third) => {
            let first = two_of(Seq::from_vec(operands));
            let (third, (first, second)) = pair_with(third, first)?;
            Ok((first, second, third))
        }
        None => Err(Refusal::TypeMismatch),
    }
}

fn arm_of(alloc: Global, condition: Typed, value: Typed) -> Result<Seq<TypedArm>, Refusal>
    ensures { Gives result (Ok (record { condition = condition; value = value } ∷ [])) }
{
    let mut arms = Seq::new(alloc);
    append(&mut arms, TypedArm { condition, value })?;
    Ok(arms)
}

/// `IF(c, x, y)` is `CASE WHEN c THEN x ELSE y END`.
#[tactic(auto, unfolding(crate::specs::Operators::if_of))]
fn if_of(alloc: Global, condition: Typed, value: Typed, otherwise: Typed) -> TypingResult
    ensures { Gives result (spec.if_of condition value otherwise) }
{
    let (otherwise, arms) = pair_with(otherwise, arm_of(alloc, condition, value))?;
    case_of(alloc, arms, Some(otherwise))
}

fn if_null(alloc: Global, operands: Seq<Typed>) -> TypingResult
    ensures { Gives result (and_then (spec.two_of operands) (λ p. spec.coalesce_of (p.0 ∷ p.1 ∷ []))) }
{
    if operands.len() == 2 {
        coalesce_of(alloc, operands)
    } else {
        Err(Refusal::TypeMismatch)
    }
}

fn coalesce_some(alloc: Global, operands: Seq<Typed>) -> TypingResult
    ensures { Gives result (and_then (spec.some_of operands) spec.coalesce_of) }
{
    if operands.len() == 0 {
        return Err(Refusal::TypeMismatch);
    }
    coalesce_of(alloc, operands)
}

/// A call of a function but the aggregates. A wrong number of operands is a wrong type.
#[tactic(auto, unfolding(crate::specs::Operators::apply_function))]
pub fn apply_function(alloc: Global, function: CalledFunction, operands: Seq<Typed>) -> TypingResult
    ensures { Gives result (spec.apply_function function operands) }
{
    match function {
        CalledFunction::Aggregate(_) => Err(Refusal::TypeMismatch),
        CalledFunction::Divide => {
            let (left, right) = two_of(operands)?;
            calculation_of(alloc, Operator::Divide, left, right)
        }
        CalledFunction::Modulo => {
            let (left, right) = two_of(operands)?;
            calculation_of(alloc, Operator::Modulo, left, right)
        }
        CalledFunction::Length => length_of(alloc, one_of(operands)?),
        CalledFunction::StartsWith => {
            let (text, front) = two_of(operands)?;
            starts_with(alloc, text, front)
        }
        CalledFunction::If => {
            let (condition, value, otherwise) = three_of(operands)?;
            if_of(alloc, condition, value, otherwise)
        }
        CalledFunction::IfNull => if_null(alloc, operands),
        CalledFunction::Coalesce => coalesce_some(alloc, operands),
    }
}

/// The operand of an aggregate. SUM takes INT64 alone.
#[tactic(auto, unfolding(crate::specs::Operators::operand_of))]
pub fn operand_of(function: Function, operands: Seq<Typed>) -> TypingResult
    ensures { result ≡ spec.operand_of function operands }
{
    let operand = one_of(operands)?;
    let is_right = function != Function::Sum || takes(Kind::Int, operand.kind);
    keep_if(is_right, operand)
}
