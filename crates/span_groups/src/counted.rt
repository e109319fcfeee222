//! Groups of rows of which nothing but their number is wanted: no row is looked at.
ghost use Rattle.std.specs.Prelude.{◌≡◌, List, None, IfOk, IfSome, length};
ghost use Rattle.span_query.specs.Rows.{Row};
ghost use Rattle.span_groups.specs.GroupStates.{AreGroupsWhere};
ghost use Rattle.span_groups.specs.States.{AreStatesOf};

use super::aggregate::AggregateState;
use super::group::GroupLists;
use span_query::query::{Aggregate, Grouping};
use span_rows::row_list::RowList;
use std::alloc::{AllocError, Global};

/// The states of counts of rows after a number of them. None where an aggregate is no such count. The only error is out of memory.
#[tactic(auto, using(crate::proofs::OneGroup::counted_more))]
pub fn counted_states(
    alloc: Global,
    aggregates: &[Aggregate],
    count: usize,
) -> Result<Option<Vec<AggregateState>>, AllocError>
    ensures { IfOk result
        (λ found. IfSome found
        (λ states. (rows : List Row) → length rows ≡ count → AreStatesOf aggregates.now rows states.items)) }
{
    let mut states = Vec::with_capacity(alloc, aggregates.len())?;
    for aggregate in aggregates {
        let Aggregate::CountRows = aggregate else {
            return Ok(None);
        };
        states.push(AggregateState::Count(count as u64))?;
    }
    Ok(Some(states))
}

/// The one group of all rows, where there are no key columns and each aggregate is the number of rows. None where there are others.
pub(crate) fn counted_group(
    alloc: Global,
    grouping: &Grouping,
    rows: &RowList,
) -> Result<Option<GroupLists>, AllocError>
    ensures { IfOk result (λ found. IfSome found (λ groups. AreGroupsWhere None grouping.now rows.now groups)) }
{
    if !grouping.keys.is_empty() {
        return Ok(None);
    }
    let Some(states) = counted_states(alloc, grouping.aggregates.as_slice(), rows.len())? else {
        return Ok(None);
    };
    let mut firsts = Vec::new(alloc);
    firsts.push(0)?;
    Ok(Some(GroupLists { firsts, states }))
}
