//! The states of all the aggregates of groups: those of one group after those of another, in one list.
ghost use Rattle.std.specs.Prelude.{◌≡◌, ◌≤◌, ◌+◌, ◌*◌, [], ◌∷◌, ◌++◌, length, List, Err, None, Any, Some, IfOk, IsTrue, OnOk};
ghost use Rattle.span_expr.specs.declared.cell.Failure.TheVariants.{Fault};
ghost use Rattle.span_query.specs.declared.query.Aggregate.{Aggregate};
ghost use Rattle.span_query.specs.Rows.{Row, unless_fault, each};
ghost use Rattle.span_query.specs.Groups.{aggregate, columns_at};
ghost use Rattle.span_conditions.specs.Answers.{Puts};
ghost use Rattle.span_groups.specs.StateLists.{states_from, IsChangedAt};
ghost use Rattle.span_groups.specs.States.{AreAdded, AreStatesOf, CanCountOne, operand_at};

use super::aggregate::AggregateState;
use span_expr::cell::Failure;
use span_query::query::Aggregate;
use span_rows::columns::put_columns;
use span_rows::row::add;
use span_value::value::Value;
use std::alloc::{AllocError, Global};

/// Adds the states of one more group, of no rows. An error leaves some of them added.
pub fn add_states(
    aggregates: &[Aggregate],
    states: &mut Vec<AggregateState>,
) -> Result<(), AllocError>
    ensures { OnOk result (AreAdded aggregates.now states.old.items states.new.items) }
{
    for aggregate in aggregates {
        states.push(AggregateState::new(aggregate))?;
    }
    Ok(())
}

/// One more row for the states from a place on.
#[inline(always)]
pub(crate) fn take_all(
    alloc: Global,
    aggregates: &[Aggregate],
    states: &mut Vec<AggregateState>,
    start: usize,
    row: &[Value],
) -> Result<(), Failure>
    requires within { start + length aggregates.now ≤ length states.old.items }
    requires few { CanCountOne aggregates.now (states_from start (length aggregates.now) states.old.items) }
    ensures ok { OnOk result
        ((rows : List Row)
        → AreStatesOf aggregates.now rows (states_from start (length aggregates.now) states.old.items)
        → AreStatesOf aggregates.now (rows ++ row.now ∷ [])
        (states_from start (length aggregates.now) states.new.items)) }
    ensures others { OnOk result (IsChangedAt start (length aggregates.now) states.old.items states.new.items) }
    ensures fault { result ≡ Err Fault → Any (λ a. operand_at row.now a ≡ None) aggregates.now }
{
    for at in 0..aggregates.len() {
        states[start + at].take(alloc, &aggregates[at], row)?;
    }
    Ok(())
}

/// The states from a place on take what other states of the same aggregates have taken, after their own. False where they could not be put
/// together: what they have taken then is not known.
pub fn merge_all(
    alloc: Global,
    states: &mut Vec<AggregateState>,
    start: usize,
    more: &[AggregateState],
) -> Result<bool, AllocError>
    requires { start + length more.now ≤ length states.old.items }
    ensures merged { IfOk result
        (λ done.
        IsTrue done
        → (aggregates : List Aggregate) (rows next : List Row)
        → AreStatesOf aggregates rows (states_from start (length more.now) states.old.items)
        → AreStatesOf aggregates next more.now
        → AreStatesOf aggregates (rows ++ next) (states_from start (length more.now) states.new.items)) }
    ensures others { OnOk result (IsChangedAt start (length more.now) states.old.items states.new.items) }
{
    for at in 0..more.len() {
        if !states[start + at].merge(alloc, &more[at])? {
            return Ok(false);
        }
    }
    Ok(true)
}

/// The states of the group at a place.
pub fn states_at(states: &[AggregateState], at: usize, width: usize) -> &[AggregateState]
    requires { at * width + width ≤ length states.now }
    ensures { result.now ≡ states_from (at * width) width states.now }
{
    let start = at * width;
    &states[start..start + width]
}

/// Makes a buffer the row of a group: its key, which the first of its rows has at some places, and then the aggregates of its rows.
pub(crate) fn put_row(
    alloc: Global,
    places: &[usize],
    first: &[Value],
    states: &[AggregateState],
    values: &mut Vec<Value>,
) -> Result<(), Failure>
    ensures { (aggregates : List Aggregate) (rows : List Row)
        → AreStatesOf aggregates rows states.now
        → Puts result (unless_fault (each (aggregate rows) aggregates)
        (λ vs. Some (columns_at places.now first.now ++ vs))) values.new.items }
{
    put_columns(alloc, places, first, values)?;
    for state in states {
        add(values, state.outcome(alloc)?)?;
    }
    Ok(())
}
