//! The one group of all rows of a list, where there are no key columns: no group is looked up.
ghost use Rattle.std.specs.Prelude.{◌≡◌, [], List, Err, None, Any, IfOk, MatchResult};
ghost use Rattle.span_expr.specs.declared.cell.Failure.TheVariants.{Fault};
ghost use Rattle.span_query.specs.Rows.{Row};
ghost use Rattle.span_query.specs.Groups as spec;
ghost use Rattle.span_conditions.specs.Answers.{Gives};
ghost use Rattle.span_groups.specs.GroupStates.{AreGroupsWhere};
ghost use Rattle.span_groups.specs.States.{operand_at, AreStatesOf};

use super::aggregate::AggregateState;
use super::counted::counted_group;
use super::group::GroupLists;
use super::states::{add_states, take_all};
use span_expr::cell::Failure;
use span_query::query::{Aggregate, Grouping};
use span_rows::row::add;
use span_rows::row_list::RowList;
use std::alloc::Global;

/// The states of aggregates that have taken all rows of a list.
fn states_of(
    alloc: Global,
    aggregates: &[Aggregate],
    rows: &RowList,
) -> Result<Vec<AggregateState>, Failure>
    ensures ok { IfOk result (λ states. AreStatesOf aggregates.now rows.now states.items) }
    ensures fault { result ≡ Err Fault → Any (λ row. Any (λ a. operand_at row a ≡ None) aggregates.now) rows.now }
{
    let mut states = Vec::new(alloc);
    add_states(aggregates, &mut states)?;
    for at in 0..rows.len() {
        take_all(alloc, aggregates, &mut states, 0, rows.row(at))?;
    }
    Ok(states)
}

/// The one group of all rows. Where their number alone is wanted, no row is looked at.
pub(crate) fn one_group(
    alloc: Global,
    grouping: &Grouping,
    rows: &RowList,
) -> Result<GroupLists, Failure>
    requires { grouping.now.keys ≡ [] }
    ensures { MatchResult result
        (λ groups. AreGroupsWhere None grouping.now rows.now groups)
        (λ why. Gives {A = List Row} (Err why) (spec.groups grouping.now rows.now)) }
{
    if let Some(groups) = counted_group(alloc, grouping, rows)? {
        return Ok(groups);
    }
    let mut firsts = Vec::new(alloc);
    add(&mut firsts, 0)?;
    Ok(GroupLists {
        firsts,
        states: states_of(alloc, grouping.aggregates.as_slice(), rows)?,
    })
}
