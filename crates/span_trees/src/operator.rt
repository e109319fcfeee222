//! What operators make of their operands.
ghost use Rattle.std.specs.Prelude.{◌≡◌, ◌∷◌, IfOk};
ghost use Rattle.span_trees.specs.Operations as spec;

use super::tree::{ComparisonOperator, Expr, Link, Spelling};
use sqlite_items::{Boxed, Items};
use std::alloc::{AllocError, Global};

/// What is asked of an operand.
#[derive(Drop)]
pub enum PredicateTest {
    Nothing,
    Compared(ComparisonOperator, Expr),
    IsNull,
    Like(Spelling),
    /// The low end and the high end.
    Between(Expr, Expr),
    In(Items<Expr>),
}

/// An operand with the operators and operands after it.
pub fn chain_of(alloc: Global, first: Expr, more: Items<Link>) -> Result<Expr, AllocError>
    ensures { IfOk result (λ x. x ≡ spec.chain_of first more) }
{
    if more.is_empty() {
        Ok(first)
    } else {
        let (first, more) = box_first(alloc, first, more)?;
        Ok(Expr::Chain(first, more))
    }
}

/// A value in a box, and another.
fn box_first<T: Drop, U: Drop>(alloc: Global, x: T, y: U) -> Result<(Boxed<T>, U), AllocError>
    ensures { IfOk result (λ both. (both.0 ≡ x) × (both.1 ≡ y)) }
{
    let x = Boxed::new(alloc, x)?;
    Ok((x, y))
}

/// Operands of AND.
pub fn conjunction_of(alloc: Global, first: Expr, more: Items<Expr>) -> Result<Expr, AllocError>
    ensures { IfOk result (λ x. x ≡ spec.conjunction_of first more) }
{
    if more.is_empty() {
        Ok(first)
    } else {
        let (first, more) = box_first(alloc, first, more)?;
        Ok(Expr::And(first, more))
    }
}

/// Operands of OR.
pub fn disjunction_of(alloc: Global, first: Expr, more: Items<Expr>) -> Result<Expr, AllocError>
    ensures { IfOk result (λ x. x ≡ spec.disjunction_of first more) }
{
    if more.is_empty() {
        Ok(first)
    } else {
        let (first, more) = box_first(alloc, first, more)?;
        Ok(Expr::Or(first, more))
    }
}

/// With NOT or without.
fn negate_if(alloc: Global, is_not: bool, x: Expr) -> Result<Expr, AllocError>
    ensures { IfOk result (λ y. y ≡ spec.negate_if is_not x) }
{
    if is_not {
        Ok(Expr::Not(Boxed::new(alloc, x)?))
    } else {
        Ok(x)
    }
}

/// Two values, each in a box.
fn box_two<T: Drop>(alloc: Global, x: T, y: T) -> Result<(Boxed<T>, Boxed<T>), AllocError>
    ensures { IfOk result (λ both. (both.0 ≡ x) × (both.1 ≡ y)) }
{
    let x = Boxed::new(alloc, x)?;
    let y = Boxed::new(alloc, y)?;
    Ok((x, y))
}

/// Three values, each in a box.
fn box_three<T: Drop>(
    alloc: Global,
    x: T,
    y: T,
    z: T,
) -> Result<(Boxed<T>, (Boxed<T>, Boxed<T>)), AllocError>
    ensures { IfOk result (λ all. (all.0 ≡ x) × (all.1.0 ≡ y) × (all.1.1 ≡ z)) }
{
    let x = Boxed::new(alloc, x)?;
    let others = box_two(alloc, y, z)?;
    Ok((x, others))
}

/// Two operands that are compared.
fn compare_expr(
    alloc: Global,
    x: Expr,
    how: ComparisonOperator,
    y: Expr,
) -> Result<Expr, AllocError>
    ensures { IfOk result (λ z. z ≡ Expr.Compare x how y) }
{
    let (x, y) = box_two(alloc, x, y)?;
    Ok(Expr::Compare(x, how, y))
}

/// BETWEEN with its three operands.
fn between_expr(alloc: Global, x: Expr, low: Expr, high: Expr) -> Result<Expr, AllocError>
    ensures { IfOk result (λ y. y ≡ Expr.Between x low high) }
{
    let (x, (low, high)) = box_three(alloc, x, low, high)?;
    Ok(Expr::Between(x, low, high))
}

/// What is asked of an operand, with it.
fn test_of(alloc: Global, x: Expr, question: PredicateTest) -> Result<Expr, AllocError>
    ensures { IfOk result (λ y. y ≡ spec.test_of x question) }
{
    match question {
        PredicateTest::Nothing => Ok(x),
        PredicateTest::Compared(how, y) => compare_expr(alloc, x, how, y),
        PredicateTest::IsNull => Ok(Expr::IsNull(Boxed::new(alloc, x)?)),
        PredicateTest::Like(pattern) => {
            let (x, pattern) = box_first(alloc, x, pattern)?;
            Ok(Expr::Like(x, pattern))
        }
        PredicateTest::Between(low, high) => between_expr(alloc, x, low, high),
        PredicateTest::In(members) => {
            let (x, members) = box_first(alloc, x, members)?;
            Ok(Expr::In(x, members))
        }
    }
}

/// What is asked of an operand, with it: whether with NOT, and what.
pub fn apply_test(
    alloc: Global,
    x: Expr,
    question: (bool, PredicateTest),
) -> Result<Expr, AllocError>
    ensures { IfOk result (λ y. y ≡ spec.apply_test x question) }
{
    let (is_not, question) = question;
    let test = test_of(alloc, x, question)?;
    negate_if(alloc, is_not, test)
}

/// A list: the first item, then the others.
pub fn prepend<T: Drop>(alloc: Global, first: T, more: Items<T>) -> Result<Items<T>, AllocError>
    ensures { IfOk result (λ all. all ≡ first ∷ more) }
{
    let mut all = Items::new(alloc);
    all.push(first)?;
    all.append(more)?;
    Ok(all)
}
