//! Copies of groupings, and whether two are the same: rows of which the groups alone are kept have a copy of the grouping that these are by.
ghost use Rattle.std.specs.Prelude.{◌≡◌, ◌↔◌, IfOk, IsTrue};
ghost use Rattle.span_collected.specs.KeptGroups.{IsSameGrouping};

use span_expr::copy::copy;
use span_expr::same::is_same;
use span_query::query::{Aggregate, Grouping};
use sqlite_items::Items;
use std::alloc::{AllocError, Global};

fn copy_aggregate(alloc: Global, aggregate: &Aggregate) -> Result<Aggregate, AllocError>
    ensures { IfOk result (λ copy. copy ≡ aggregate.now) }
{
    match aggregate {
        Aggregate::CountRows => Ok(Aggregate::CountRows),
        Aggregate::Of(function, operand) => Ok(Aggregate::Of(*function, copy(alloc, operand)?)),
    }
}

fn copy_aggregates(alloc: Global, aggregates: &[Aggregate]) -> Result<Vec<Aggregate>, AllocError>
    ensures { IfOk result (λ copies. copies.items ≡ aggregates.now) }
{
    let mut copies = Vec::with_capacity(alloc, aggregates.len())?;
    for aggregate in aggregates {
        copies.push(copy_aggregate(alloc, aggregate)?)?;
    }
    Ok(copies)
}

/// A grouping by the same keys with the same aggregates, of which none is left out.
pub(crate) fn copy_grouping(alloc: Global, grouping: &Grouping) -> Result<Grouping, AllocError>
    ensures { IfOk result (IsSameGrouping grouping.now) }
{
    let aggregates = copy_aggregates(alloc, grouping.aggregates.as_slice())?;
    Ok(Grouping {
        keys: Items::from_slice(alloc, grouping.keys.as_slice())?,
        aggregates: Items::from_vec(aggregates),
        having: None,
    })
}

fn is_same_aggregate(aggregate: &Aggregate, other: &Aggregate) -> bool
    ensures { IsTrue result ↔ (aggregate.now ≡ other.now) }
{
    match (aggregate, other) {
        (Aggregate::CountRows, Aggregate::CountRows) => true,
        (Aggregate::Of(function, operand), Aggregate::Of(other_function, other_operand)) => {
            function == other_function && is_same(operand, other_operand)
        }
        _ => false,
    }
}

/// Whether aggregates are the same, one by one.
fn are_same_aggregates(aggregates: &[Aggregate], others: &[Aggregate]) -> bool
    ensures { IsTrue result ↔ (aggregates.now ≡ others.now) }
{
    if aggregates.len() != others.len() {
        return false;
    }
    for at in 0..others.len() {
        if !is_same_aggregate(&aggregates[at], &others[at]) {
            return false;
        }
    }
    true
}

/// Whether two groupings have the same keys and aggregates.
pub(crate) fn are_same(grouping: &Grouping, other: &Grouping) -> bool
    ensures { IsTrue result ↔ IsSameGrouping grouping.now other.now }
{
    grouping.keys.as_slice() == other.keys.as_slice()
        && are_same_aggregates(grouping.aggregates.as_slice(), other.aggregates.as_slice())
}
