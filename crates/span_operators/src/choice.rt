//! The typed expressions of lists of operands and of choices.
ghost use Rattle.std.specs.Prelude.{◌≡◌, ◌∷◌, IfOk, map};
ghost use Rattle.std.specs.List.{list_all};
ghost use Rattle.span_operators.specs.Steps.{Gives};
ghost use Rattle.span_operators.specs.Kinds.{common_kind_of_all};
ghost use Rattle.span_expr.specs.declared.expr.Expr.TheVariants as expr;
ghost use Rattle.span_operators.specs.Operators as spec;

use super::kind::{common_kind, or_int, takes};
use super::operator::{TypingResult, of_kind};
use super::step::{box_second, pair_with};
use super::typed::{Typed, TypedArm};
use span_expr::expr::{Arm, Expr};
use span_value::refusal::Refusal;
use span_value::seq::Seq;
use span_value::value::Kind;
use sqlite_items::{Boxed, Items};
use std::alloc::{AllocError, Global};

/// The one type of all operands.
#[tactic(auto, using(crate::proofs::Agreement::kind_steps))]
fn kind_of_all(operands: &[Typed], first: Option<Kind>) -> Result<Option<Kind>, Refusal>
    ensures { result ≡ common_kind_of_all (first ∷ spec.kinds_of operands.now) }
{
    let mut kind = common_kind(None, first)?;
    for operand in operands {
        kind = common_kind(kind, operand.kind)?;
    }
    Ok(kind)
}

/// The expressions, without their types.
fn exprs_of(alloc: Global, operands: Seq<Typed>) -> Result<Items<Expr>, AllocError>
    ensures { IfOk result (λ exprs. exprs ≡ spec.exprs_of operands) }
{
    let mut exprs = Vec::with_capacity(alloc, operands.len())?;
    for operand in operands.into_vec() {
        exprs.push(operand.expr)?;
    }
    Ok(Items::from_vec(exprs))
}

/// An IN.
#[tactic(auto, unfolding(crate::specs::Operators::in_list))]
pub fn in_list(alloc: Global, operand: Typed, members: Seq<Typed>) -> TypingResult
    ensures { Gives result (spec.in_list operand members) }
{
    let kind = kind_of_all(members.as_slice(), operand.kind);
    let (operand, _) = pair_with(operand.expr, kind)?;
    let operand = Boxed::new(alloc, operand)?;
    let members = exprs_of(alloc, members)?;
    Ok(of_kind(Expr::In(operand, members), Kind::Bool))
}

#[tactic(auto, unfolding(crate::specs::Operators::coalesce_of, crate::specs::Kinds::common_kind))]
pub(crate) fn coalesce_of(alloc: Global, operands: Seq<Typed>) -> TypingResult
    ensures { Gives result (spec.coalesce_of operands) }
{
    let kind = kind_of_all(operands.as_slice(), None)?;
    let exprs = exprs_of(alloc, operands)?;
    Ok(of_kind(Expr::Coalesce(exprs), or_int(kind)))
}

fn have_conditions(arms: &[TypedArm]) -> bool
    ensures { result ≡ list_all spec.has_condition arms.now }
{
    arms.iter().all(|arm| takes(Kind::Bool, arm.condition.kind))
}

/// The one type of what is of a type and of the values of arms.
#[tactic(auto, using(crate::proofs::Agreement::kind_steps))]
fn kind_of_values(arms: &[TypedArm], first: Option<Kind>) -> Result<Option<Kind>, Refusal>
    ensures { result ≡ common_kind_of_all (first ∷ map (λ a. a.value.kind) arms.now) }
{
    let mut kind = common_kind(None, first)?;
    for arm in arms {
        kind = common_kind(kind, arm.value.kind)?;
    }
    Ok(kind)
}

fn otherwise_kind(otherwise: &Option<Typed>) -> Option<Kind>
    ensures { result ≡ spec.otherwise_kind otherwise.now }
{
    match otherwise {
        Some(value) => value.kind,
        None => None,
    }
}

/// The one type of the values of all arms and of ELSE.
fn value_kind(arms: &[TypedArm], otherwise: &Option<Typed>) -> Result<Kind, Refusal>
    ensures { result ≡ spec.value_kind arms.now otherwise.now }
{
    Ok(or_int(kind_of_values(arms, otherwise_kind(otherwise))?))
}

/// The type of a CASE without an operand. That its conditions are BOOL is checked before the values.
fn case_kind(arms: &[TypedArm], otherwise: &Option<Typed>) -> Result<Kind, Refusal>
    ensures { result ≡ spec.case_kind arms.now otherwise.now }
{
    if have_conditions(arms) {
        value_kind(arms, otherwise)
    } else {
        Err(Refusal::TypeMismatch)
    }
}

/// The arms, without their types.
fn arms_of(alloc: Global, typed: Seq<TypedArm>) -> Result<Items<Arm<Expr>>, AllocError>
    ensures { IfOk result (λ arms. arms ≡ map spec.arm_of typed) }
{
    let mut arms = Vec::with_capacity(alloc, typed.len())?;
    for arm in typed.into_vec() {
        arms.push(Arm {
            condition: arm.condition.expr,
            value: arm.value.expr,
        })?;
    }
    Ok(Items::from_vec(arms))
}

fn otherwise_of(alloc: Global, otherwise: Option<Typed>) -> Result<Option<Boxed<Expr>>, AllocError>
    ensures { IfOk result (λ other. other ≡ spec.otherwise_of otherwise) }
{
    match otherwise {
        Some(value) => Ok(Some(Boxed::new(alloc, value.expr)?)),
        None => Ok(None),
    }
}

fn case_expr(
    alloc: Global,
    arms: Seq<TypedArm>,
    otherwise: Option<Typed>,
) -> Result<Expr, AllocError>
    ensures { IfOk result (λ e. e ≡ expr.Case (map spec.arm_of arms) (spec.otherwise_of otherwise)) }
{
    let otherwise = otherwise_of(alloc, otherwise)?;
    let arms = arms_of(alloc, arms)?;
    Ok(Expr::Case(arms, otherwise))
}

/// A CASE without an operand.
#[tactic(auto, unfolding(crate::specs::Operators::case_of))]
pub fn case_of(alloc: Global, arms: Seq<TypedArm>, otherwise: Option<Typed>) -> TypingResult
    ensures { Gives result (spec.case_of arms otherwise) }
{
    let kind = case_kind(arms.as_slice(), &otherwise);
    let (otherwise, kind) = pair_with(otherwise, kind)?;
    Ok(of_kind(case_expr(alloc, arms, otherwise)?, kind))
}

fn match_expr(
    alloc: Global,
    operand: Expr,
    arms: Seq<TypedArm>,
    otherwise: Option<Typed>,
) -> Result<Expr, AllocError>
    ensures { IfOk result (λ e. e ≡ expr.Match operand (map spec.arm_of arms) (spec.otherwise_of otherwise)) }
{
    let (otherwise, operand) = box_second(alloc, otherwise, operand)?;
    let otherwise = otherwise_of(alloc, otherwise)?;
    let arms = arms_of(alloc, arms)?;
    Ok(Expr::Match(operand, arms, otherwise))
}

/// A CASE with an operand, to which the conditions were compared.
#[tactic(auto, unfolding(crate::specs::Operators::match_of))]
pub fn match_of(
    alloc: Global,
    operand: Typed,
    arms: Seq<TypedArm>,
    otherwise: Option<Typed>,
) -> TypingResult
    ensures { Gives result (spec.match_of operand arms otherwise) }
{
    let kind = value_kind(arms.as_slice(), &otherwise);
    let ((operand, otherwise), kind) = pair_with((operand.expr, otherwise), kind)?;
    Ok(of_kind(match_expr(alloc, operand, arms, otherwise)?, kind))
}
