//! Copies of the parts of a query.
ghost use Rattle.std.specs.Prelude.{◌≡◌, IfOk};

use span_expr::copy::copy;
use span_expr::expr::Expr;
use span_query::query::{Aggregate, Grouping};
use sqlite_items::Items;
use std::alloc::{AllocError, Global};

/// A copy of a condition, if there is one.
pub fn copy_condition(alloc: Global, condition: &Option<Expr>) -> Result<Option<Expr>, AllocError>
    ensures { IfOk result (λ found. found ≡ condition.now) }
{
    match condition {
        Some(condition) => Ok(Some(copy(alloc, condition)?)),
        None => Ok(None),
    }
}

pub fn copy_outputs(alloc: Global, outputs: &[Expr]) -> Result<Items<Expr>, AllocError>
    ensures { IfOk result (λ copies. copies ≡ outputs.now) }
{
    let mut copies = Items::new(alloc);
    for output in outputs {
        copies.push(copy(alloc, output)?)?;
    }
    Ok(copies)
}

fn copy_aggregate(alloc: Global, aggregate: &Aggregate) -> Result<Aggregate, AllocError>
    ensures { IfOk result (λ found. found ≡ aggregate.now) }
{
    match aggregate {
        Aggregate::CountRows => Ok(Aggregate::CountRows),
        Aggregate::Of(function, operand) => Ok(Aggregate::Of(*function, copy(alloc, operand)?)),
    }
}

fn copy_aggregates(alloc: Global, aggregates: &[Aggregate]) -> Result<Items<Aggregate>, AllocError>
    ensures { IfOk result (λ copies. copies ≡ aggregates.now) }
{
    let mut copies = Items::new(alloc);
    for aggregate in aggregates {
        copies.push(copy_aggregate(alloc, aggregate)?)?;
    }
    Ok(copies)
}

/// A copy of a grouping, if there is one.
pub fn copy_grouping(
    alloc: Global,
    grouping: &Option<Grouping>,
) -> Result<Option<Grouping>, AllocError>
    ensures { IfOk result (λ found. found ≡ grouping.now) }
{
    match grouping {
        Some(grouping) => Ok(Some(Grouping {
            keys: Items::from_slice(alloc, grouping.keys.as_slice())?,
            aggregates: copy_aggregates(alloc, grouping.aggregates.as_slice())?,
            having: copy_condition(alloc, &grouping.having)?,
        })),
        None => Ok(None),
    }
}
