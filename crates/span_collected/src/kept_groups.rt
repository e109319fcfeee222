//! The first row of each group and the states of its aggregates, which are kept in the place of rows.
ghost use Rattle.std.specs.Prelude.{◌≡◌, ◌++◌, [], ◌+◌, List, Err, IfOk, IfSome, OnOk, length};
ghost use Rattle.span_expr.specs.declared.cell.Failure.TheVariants.{Fault};
ghost use Rattle.span_query.specs.Rows.{Row};
ghost use Rattle.span_rows.specs.Columns.{distinct_at};
ghost use Rattle.span_rows.specs.RowPlaces.{rows_at};
ghost use Rattle.span_groups.specs.GroupStates.{keys_at};
ghost use Rattle.span_collected.specs.KeptGroups.{AreGroupsWith, AreGroupsOrFault};
ghost use Rattle.span_groups.specs.MergedGroups.{AnyFault, CanTakeList};

use indexmap::IndexSet;
use span_expr::cell::Failure;
use span_groups::aggregate::AggregateState;
use span_groups::counted::counted_states;
use span_groups::group::{push_if, row_or_none, take_row};
use span_groups::states::add_states;
use span_query::query::Grouping;
use span_rows::key::LentKey;
use span_rows::row_list::RowList;
use std::alloc::{AllocError, Global};

/// Groups of rows.
#[derive(Debug, Drop)]
pub(crate) struct KeptGroups {
    /// The first row of each group, in their order. Where there are no key columns, that of the one group is one of no values.
    pub(crate) firsts: RowList,
    /// For each group the states of all the aggregates.
    pub(crate) states: Vec<AggregateState>,
}

/// The groups of no rows.
pub(crate) fn no_groups(alloc: Global, grouping: &Grouping) -> Result<KeptGroups, AllocError>
    ensures { IfOk result (λ groups. AreGroupsWith grouping.now [] groups.firsts groups.states.items) }
{
    let mut states = Vec::new(alloc);
    let mut firsts = RowList::new(alloc);
    if grouping.keys.is_empty() {
        add_states(grouping.aggregates.as_slice(), &mut states)?;
        firsts.push_copy(alloc, &[])?;
    }
    Ok(KeptGroups { firsts, states })
}

/// The values of rows at some columns, each once.
fn keys_of<'a>(
    alloc: Global,
    columns: &'a [usize],
    rows: &'a RowList,
) -> Result<IndexSet<LentKey<'a>>, AllocError>
    ensures { IfOk result (λ index. index.keys ≡ distinct_at columns.now rows.now) }
{
    let mut index = IndexSet::new(alloc);
    for at in 0..rows.len() {
        index.insert(LentKey::new(rows.row(at), columns))?;
    }
    Ok(index)
}

/// The states of groups take further rows. The places of those that are the first of their group.
fn take_each(
    alloc: Global,
    grouping: &Grouping,
    firsts: &RowList,
    states: &mut Vec<AggregateState>,
    rows: &RowList,
) -> Result<Vec<usize>, Failure>
    requires { CanTakeList grouping.now (keys_at grouping.now.keys firsts.now) states.old.items rows.now }
    ensures ok { IfOk result
        (λ places.
        (before : List Row)
        → AreGroupsWith grouping.now before firsts.now states.old.items
        → AreGroupsWith grouping.now (before ++ rows.now) (firsts.now ++ rows_at rows.now places.items)
        states.new.items) }
    ensures fault { result ≡ Err Fault → AnyFault grouping.now rows.now }
{
    let mut index = keys_of(alloc, grouping.keys.as_slice(), firsts)?;
    let mut places = Vec::new(alloc);
    for at in 0..rows.len() {
        let is_new = take_row(alloc, grouping, &mut index, states, rows.row(at))?;
        push_if(is_new, &mut places, at)?;
    }
    Ok(places)
}

/// Adds copies of the rows of another list at some places.
fn add_rows_at(
    alloc: Global,
    firsts: &mut RowList,
    rows: &RowList,
    places: &[usize],
) -> Result<(), AllocError>
    ensures { OnOk result (firsts.new ≡ firsts.old ++ rows_at rows.now places.now) }
{
    for place in places {
        firsts.push_copy(alloc, row_or_none(rows, *place))?;
    }
    Ok(())
}

/// Groups take further rows, one after another. The error is an arithmetic error of an operand, or out of memory.
fn take_rows(
    alloc: Global,
    grouping: &Grouping,
    groups: &mut KeptGroups,
    rows: &RowList,
) -> Result<(), Failure>
    requires { CanTakeList grouping.now (keys_at grouping.now.keys groups.old.firsts) groups.old.states.items rows.now }
    ensures ok { OnOk result
        ((before : List Row)
        → AreGroupsWith grouping.now before groups.old.firsts groups.old.states.items
        → AreGroupsWith grouping.now (before ++ rows.now) groups.new.firsts groups.new.states.items) }
    ensures fault { result ≡ Err Fault → AnyFault grouping.now rows.now }
{
    let places = take_each(alloc, grouping, &groups.firsts, &mut groups.states, rows)?;
    add_rows_at(alloc, &mut groups.firsts, rows, places.as_slice())?;
    Ok(())
}

/// The same. Where the number of the rows alone is wanted, which is given with that of these, none is looked at.
fn take_or_count(
    alloc: Global,
    grouping: &Grouping,
    groups: &mut KeptGroups,
    rows: &RowList,
    count: usize,
) -> Result<(), Failure>
    requires { CanTakeList grouping.now (keys_at grouping.now.keys groups.old.firsts) groups.old.states.items rows.now }
    ensures ok { OnOk result
        ((before : List Row)
        → length before + length rows.now ≡ count
        → AreGroupsWith grouping.now before groups.old.firsts groups.old.states.items
        → AreGroupsWith grouping.now (before ++ rows.now) groups.new.firsts groups.new.states.items) }
    ensures fault { result ≡ Err Fault → AnyFault grouping.now rows.now }
{
    if !grouping.keys.is_empty() {
        return take_rows(alloc, grouping, groups, rows);
    }
    let Some(counted) = counted_states(alloc, grouping.aggregates.as_slice(), count)? else {
        return take_rows(alloc, grouping, groups, rows);
    };
    groups.states = counted;
    Ok(())
}

/// Groups take further rows, of which `count` is the number with those before; they are dropped where an operand of an aggregate is an arithmetic error
/// at one of the rows. Where there are none, none are made. The only error is out of memory.
pub(crate) fn take_or_drop(
    alloc: Global,
    grouping: &Grouping,
    groups: &mut Option<KeptGroups>,
    rows: &RowList,
    count: usize,
) -> Result<(), AllocError>
    requires { IfSome groups.old
        (λ kept. CanTakeList grouping.now (keys_at grouping.now.keys kept.firsts) kept.states.items rows.now) }
    ensures { OnOk result
        ((before : List Row)
        → length before + length rows.now ≡ count
        → AreGroupsOrFault grouping.now before groups.old
        → AreGroupsOrFault grouping.now (before ++ rows.now) groups.new) }
{
    let Some(kept) = groups else {
        return Ok(());
    };
    match take_or_count(alloc, grouping, kept, rows, count) {
        Ok(()) => Ok(()),
        Err(Failure::Fault) => {
            *groups = None;
            Ok(())
        }
        Err(Failure::OutOfMemory) => Err(AllocError),
    }
}
