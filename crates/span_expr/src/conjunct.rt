//! The conjuncts of a condition: the operands of its topmost AND.
ghost use Rattle.std.specs.Prelude.{◌≡◌, ◌++◌, map, flat_map, OnOk, IfOk};
ghost use Rattle.span_expr.specs.Conjuncts as spec;
ghost use Rattle.span_expr.specs.declared.expr.Expr.{Expr};

use super::expr::Expr;
use sqlite_items::{Boxed, Items};
use std::alloc::{AllocError, Global};

/// The conjuncts of a condition, in the order in which they are written. An AND among the operands gives its own; a condition that is no
/// AND is its one conjunct.
pub fn conjuncts(alloc: Global, expr: &Expr) -> Result<Vec<&Expr>, AllocError>
    ensures { IfOk result (λ found. map (λ e. e.now) found.items ≡ spec.conjuncts expr.now) }
{
    let mut found = Vec::new(alloc);
    add_conjuncts(&mut found, expr)?;
    Ok(found)
}

#[cycle(conjuncts)]
fn add_conjuncts<'a>(found: &mut Vec<&'a Expr>, expr: &'a Expr) -> Result<(), AllocError>
    ensures { OnOk result
        (map (λ e. e.now) found.new.items ≡ map (λ e. e.now) found.old.items ++ spec.conjuncts expr.now) }
{
    match expr {
        Expr::And(first, more) => {
            add_conjuncts(found, first.get())?;
            add_all_conjuncts(found, more.as_slice())
        }
        _ => {
            found.push(expr)?;
            Ok(())
        }
    }
}

#[cycle(conjuncts)]
fn add_all_conjuncts<'a>(found: &mut Vec<&'a Expr>, operands: &'a [Expr]) -> Result<(), AllocError>
    ensures { OnOk result
        (map (λ e. e.now) found.new.items ≡ map (λ e. e.now) found.old.items ++ flat_map spec.conjuncts operands.now) }
{
    for operand in operands {
        add_conjuncts(found, operand)?;
    }
    Ok(())
}

/// The AND of conditions: none where there are none, and the one where there is one.
pub fn all_true(alloc: Global, mut conditions: Items<Expr>) -> Result<Option<Expr>, AllocError>
    ensures { IfOk result (λ found. found ≡ spec.all_true conditions) }
{
    if conditions.is_empty() {
        return Ok(None);
    }
    let first = conditions.remove(0);
    if conditions.is_empty() {
        return Ok(Some(first));
    }
    let first = Boxed::new(alloc, first)?;
    Ok(Some(Expr::And(first, conditions)))
}
