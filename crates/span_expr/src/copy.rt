//! Copies of expressions.
ghost use Rattle.std.specs.Prelude.{◌≡◌, ◌-◌, map, IfOk};
ghost use Rattle.std.specs.Option.{option_map};
ghost use Rattle.span_expr.specs.Places as spec;

use super::cell::lend;
use super::expr::{Arm, Expr, Link};
use super::rank::rank;
use span_value::owned::keep_with;
use span_value::value::Value;
use sqlite_items::{Boxed, Items};
use std::alloc::{AllocError, Global};

fn copy_value(alloc: Global, value: &Value) -> Result<Value, AllocError>
    ensures { IfOk result (λ copy. copy ≡ value.now) }
{
    lend(value).into_value(alloc)
}

/// A copy of an expression, for a row that has of its columns those from the place `front` on, and of these those alone that the mask
/// has; after the end of the mask all.
#[cycle(copy)]
pub fn copy_moved(
    alloc: Global,
    expr: &Expr,
    front: usize,
    mask: &[bool],
) -> Result<Expr, AllocError>
    ensures { IfOk result (λ copy. copy ≡ spec.moved (λ place. spec.rank mask.now (place - front)) expr.now) }
{
    match expr {
        Expr::Literal(value) => Ok(Expr::Literal(copy_value(alloc, value)?)),
        Expr::Column(place) => Ok(Expr::Column(rank(mask, place.saturating_sub(front)))),
        Expr::Negative(a) => Ok(Expr::Negative(copy_boxed(alloc, a.get(), front, mask)?)),
        Expr::Chain(first, links) => {
            let first = copy_boxed(alloc, first.get(), front, mask)?;
            let links = copy_links(alloc, links.as_slice(), front, mask);
            let (first, links) = keep_with(first, links)?;
            Ok(Expr::Chain(first, links))
        }
        Expr::Compare(a, comparison, b) => {
            let a = copy_boxed(alloc, a.get(), front, mask)?;
            let (a, b) = keep_with(a, copy_boxed(alloc, b.get(), front, mask))?;
            Ok(Expr::Compare(a, *comparison, b))
        }
        Expr::Between(a, low, high) => {
            let a = copy_boxed(alloc, a.get(), front, mask)?;
            let (a, low) = keep_with(a, copy_boxed(alloc, low.get(), front, mask))?;
            let ((a, low), high) = keep_with((a, low), copy_boxed(alloc, high.get(), front, mask))?;
            Ok(Expr::Between(a, low, high))
        }
        Expr::In(a, members) => {
            let a = copy_boxed(alloc, a.get(), front, mask)?;
            let (a, members) = keep_with(a, copy_all(alloc, members.as_slice(), front, mask))?;
            Ok(Expr::In(a, members))
        }
        Expr::Like(a, pattern) => {
            let pattern = Items::from_slice(alloc, pattern.as_slice())?;
            let (pattern, a) = keep_with(pattern, copy_boxed(alloc, a.get(), front, mask))?;
            Ok(Expr::Like(a, pattern))
        }
        Expr::StartsWith(a, prefix) => {
            let a = copy_boxed(alloc, a.get(), front, mask)?;
            let (a, prefix) = keep_with(a, copy_boxed(alloc, prefix.get(), front, mask))?;
            Ok(Expr::StartsWith(a, prefix))
        }
        Expr::Length(a) => Ok(Expr::Length(copy_boxed(alloc, a.get(), front, mask)?)),
        Expr::IsNull(a) => Ok(Expr::IsNull(copy_boxed(alloc, a.get(), front, mask)?)),
        Expr::Not(a) => Ok(Expr::Not(copy_boxed(alloc, a.get(), front, mask)?)),
        Expr::And(first, more) => {
            let first = copy_boxed(alloc, first.get(), front, mask)?;
            let (first, more) = keep_with(first, copy_all(alloc, more.as_slice(), front, mask))?;
            Ok(Expr::And(first, more))
        }
        Expr::Or(first, more) => {
            let first = copy_boxed(alloc, first.get(), front, mask)?;
            let (first, more) = keep_with(first, copy_all(alloc, more.as_slice(), front, mask))?;
            Ok(Expr::Or(first, more))
        }
        Expr::Case(arms, otherwise) => {
            let arms = copy_arms(alloc, arms.as_slice(), front, mask)?;
            let (arms, otherwise) = keep_with(arms, copy_otherwise(alloc, otherwise, front, mask))?;
            Ok(Expr::Case(arms, otherwise))
        }
        Expr::Match(a, arms, otherwise) => {
            let a = copy_boxed(alloc, a.get(), front, mask)?;
            let (a, arms) = keep_with(a, copy_arms(alloc, arms.as_slice(), front, mask))?;
            let ((a, arms), otherwise) = keep_with(
                (a, arms),
                copy_otherwise(alloc, otherwise, front, mask),
            )?;
            Ok(Expr::Match(a, arms, otherwise))
        }
        Expr::Coalesce(operands) => Ok(Expr::Coalesce(copy_all(
            alloc,
            operands.as_slice(),
            front,
            mask,
        )?)),
    }
}

#[cycle(copy)]
fn copy_boxed(
    alloc: Global,
    expr: &Expr,
    front: usize,
    mask: &[bool],
) -> Result<Boxed<Expr>, AllocError>
    ensures { IfOk result (λ copy. copy ≡ spec.moved (λ place. spec.rank mask.now (place - front)) expr.now) }
{
    let copy = copy_moved(alloc, expr, front, mask)?;
    Boxed::new(alloc, copy)
}

#[cycle(copy)]
fn copy_all(
    alloc: Global,
    operands: &[Expr],
    front: usize,
    mask: &[bool],
) -> Result<Items<Expr>, AllocError>
    ensures { IfOk result
        (λ copies. copies ≡ map (spec.moved (λ place. spec.rank mask.now (place - front))) operands.now) }
{
    let mut copies = Items::new(alloc);
    for operand in operands {
        copies.push(copy_moved(alloc, operand, front, mask)?)?;
    }
    Ok(copies)
}

#[cycle(copy)]
fn copy_links(
    alloc: Global,
    links: &[Link<Expr>],
    front: usize,
    mask: &[bool],
) -> Result<Items<Link<Expr>>, AllocError>
    ensures { IfOk result
        (λ copies. copies ≡ map (spec.moved_link (λ place. spec.rank mask.now (place - front))) links.now) }
{
    let mut copies = Items::new(alloc);
    for link in links {
        let operand = copy_moved(alloc, &link.operand, front, mask)?;
        copies.push(Link {
            operator: link.operator,
            operand,
        })?;
    }
    Ok(copies)
}

#[cycle(copy)]
fn copy_arms(
    alloc: Global,
    arms: &[Arm<Expr>],
    front: usize,
    mask: &[bool],
) -> Result<Items<Arm<Expr>>, AllocError>
    ensures { IfOk result
        (λ copies. copies ≡ map (spec.moved_arm (λ place. spec.rank mask.now (place - front))) arms.now) }
{
    let mut copies = Items::new(alloc);
    for arm in arms {
        let condition = copy_moved(alloc, &arm.condition, front, mask)?;
        let value = copy_moved(alloc, &arm.value, front, mask);
        let (condition, value) = keep_with(condition, value)?;
        copies.push(Arm { condition, value })?;
    }
    Ok(copies)
}

#[cycle(copy)]
fn copy_otherwise(
    alloc: Global,
    otherwise: &Option<Boxed<Expr>>,
    front: usize,
    mask: &[bool],
) -> Result<Option<Boxed<Expr>>, AllocError>
    ensures { IfOk result
        (λ copy. copy ≡ option_map (spec.moved (λ place. spec.rank mask.now (place - front))) otherwise.now) }
{
    match otherwise {
        Some(value) => Ok(Some(copy_boxed(alloc, value.get(), front, mask)?)),
        None => Ok(None),
    }
}

/// A copy of an expression.
pub fn copy(alloc: Global, expr: &Expr) -> Result<Expr, AllocError>
    ensures { IfOk result (λ copy. copy ≡ expr.now) }
{
    copy_moved(alloc, expr, 0, &[])
}

/// A copy of an expression, for a row that has the columns alone that the mask has; after the end of the mask all.
pub fn copy_among(alloc: Global, expr: &Expr, mask: &[bool]) -> Result<Expr, AllocError>
    ensures { IfOk result (λ copy. copy ≡ spec.moved (spec.rank mask.now) expr.now) }
{
    copy_moved(alloc, expr, 0, mask)
}
