//! Steps along typed operands.
ghost use Rattle.std.specs.Prelude.{◌≡◌, Ok};
ghost use Rattle.span_operators.specs.Steps.{Gives};
ghost use Rattle.span_typing.specs.Typing as spec;

use span_expr::expr::Expr;
use span_operators::kind::common_kind;
use span_operators::operator::{TypingResult, are_conditions, of_kind};
use span_operators::step::{keep_if, pair_with};
use span_operators::typed::Typed;
use span_value::refusal::Refusal;
use span_value::seq::Seq;
use span_value::value::Kind;
use sqlite_items::{Boxed, Items};
use std::alloc::Global;

/// An operand of an AND or an OR whose first operand is of this type.
#[tactic(auto, unfolding(crate::specs::Typing::condition_of))]
pub(crate) fn condition_of(kind: Option<Kind>, operand: Typed) -> Result<Expr, Refusal>
    ensures { result ≡ spec.condition_of kind operand }
{
    keep_if(are_conditions(kind, operand.kind), operand.expr)
}

/// A condition, which must be of the type of the operand of the CASE.
#[tactic(auto, unfolding(crate::specs::Typing::check_kind))]
pub(crate) fn check_kind(kind: Option<Kind>, condition: Typed) -> TypingResult
    ensures { result ≡ spec.check_kind kind condition }
{
    let kind = common_kind(kind, condition.kind);
    let (condition, _) = pair_with(condition, kind)?;
    Ok(condition)
}

/// An AND, of its first operand and the others.
#[tactic(auto, unfolding(crate::specs::Typing::all_true))]
pub(crate) fn all_true(alloc: Global, first: Typed, more: Seq<Expr>) -> TypingResult
    ensures { Gives result (Ok (spec.all_true first more)) }
{
    let first = Boxed::new(alloc, first.expr)?;
    let more = Items::from_vec(more.into_vec());
    Ok(of_kind(Expr::And(first, more), Kind::Bool))
}

/// An OR, of its first operand and the others.
#[tactic(auto, unfolding(crate::specs::Typing::some_true))]
pub(crate) fn some_true(alloc: Global, first: Typed, more: Seq<Expr>) -> TypingResult
    ensures { Gives result (Ok (spec.some_true first more)) }
{
    let first = Boxed::new(alloc, first.expr)?;
    let more = Items::from_vec(more.into_vec());
    Ok(of_kind(Expr::Or(first, more), Kind::Bool))
}
