//! GROUP BY: one pass over the rows, each of which is taken by the group of its key, which an index by hash finds. No group has memory of its
//! own: its key is that of its first row, which stays where it is, and its states are in one list with those of the others.
ghost use Rattle.std.specs.Prelude.{◌≡◌, ◌<◌, ◌*◌, [], ◌∷◌, ◌++◌, length, slice_index_or, not, true, false, List, Err, None, Any, IfOk, MatchResult, OnOk};
ghost use Rattle.span_expr.specs.declared.cell.Failure.TheVariants.{Fault};
ghost use Rattle.span_query.specs.declared.query.Grouping.{Grouping};
ghost use Rattle.span_query.specs.Rows.{Row, unless_fault, filter_where};
ghost use Rattle.span_query.specs.Groups as spec;
ghost use Rattle.span_conditions.specs.Answers.{Gives};
ghost use Rattle.span_rows.specs.Keys.{contains_row, place_of, with_new};
ghost use Rattle.span_rows.specs.LentRows.{lent_rows};
ghost use Rattle.span_rows.specs.RowPlaces.{rows_at};
ghost use Rattle.span_groups.specs.StateLists.{groups_in};
ghost use Rattle.span_groups.specs.GroupStates.{keys_at, groups_by, AreGroupsOf, AreGroupLists, AreGroupsWhere, AreInStep, CanCountRow, HaveKeys, HoldGroups};
ghost use Rattle.span_groups.specs.MergedGroups.{AreWholeGroups, HasGroupAt};
ghost use Rattle.span_groups.specs.States.{operand_at};

use super::aggregate::AggregateState;
use super::one_group::one_group;
use super::states::{add_states, put_row, states_at, take_all};
use indexmap::IndexSet;
use span_expr::cell::Failure;
use span_expr::expr::Expr;
use span_query::query::Grouping;
use span_rows::filter::is_kept;
use span_rows::key::LentKey;
use span_rows::row_list::RowList;
use span_value::value::Value;
use std::alloc::{AllocError, Global};

/// The groups of the rows of a list, in the order of their first rows.
#[derive(Debug, Drop)]
pub(crate) struct GroupLists {
    /// For each group the place of its first row. Where there are no key columns, the one group has place 0 though there may be no row.
    pub(crate) firsts: Vec<usize>,
    /// For each group the states of all the aggregates.
    pub(crate) states: Vec<AggregateState>,
}

/// The place of the key of a row among the keys of the index, to which it is added where it was not there, and whether it was added.
fn place_of_row<'a>(
    places: &'a [usize],
    index: &mut IndexSet<LentKey<'a>>,
    row: &'a [Value],
) -> Result<(usize, bool), AllocError>
    requires { places.now ≡ [] → index.old.keys ≡ [] ∷ [] }
    ensures place { IfOk result (λ found. found.0 ≡ place_of index.old.keys (spec.columns_at places.now row.now)) }
    ensures added { IfOk result
        (λ found. found.1 ≡ not (contains_row index.old.keys (spec.columns_at places.now row.now))) }
    ensures keys { OnOk result (index.new.keys ≡ with_new index.old.keys (spec.columns_at places.now row.now)) }
{
    if places.is_empty() {
        // There is one group.
        return Ok((0, false));
    }
    Ok(index.insert_full(LentKey::new(row, places))?)
}

/// The place of the group of a row, which is added after the others where there was none, and whether it was added. The index has the keys
/// of the groups, in their order.
pub fn group_of<'a>(
    grouping: &'a Grouping,
    index: &mut IndexSet<LentKey<'a>>,
    states: &mut Vec<AggregateState>,
    row: &'a [Value],
) -> Result<(usize, bool), AllocError>
    requires { AreInStep grouping.now index.old.keys states.old.items }
    ensures step { OnOk result (AreInStep grouping.now index.new.keys states.new.items) }
    ensures place { IfOk result
        (λ found.
        (rows : List Row)
        → AreWholeGroups grouping.now index.old.keys rows (groups_by grouping.now index.old.keys states.old.items)
        → HasGroupAt grouping.now (spec.columns_at grouping.now.keys row.now) index.old.keys rows
        (groups_by grouping.now index.new.keys states.new.items) found.0) }
    ensures within { IfOk result (λ found. found.0 < length index.new.keys) }
    ensures added { IfOk result
        (λ found. found.1 ≡ not (contains_row index.old.keys (spec.columns_at grouping.now.keys row.now))) }
    ensures keys { OnOk result (index.new.keys ≡ with_new index.old.keys (spec.columns_at grouping.now.keys row.now)) }
{
    let (at, is_new) = place_of_row(grouping.keys.as_slice(), index, row)?;
    if is_new {
        add_states(grouping.aggregates.as_slice(), states)?;
    }
    Ok((at, is_new))
}

/// One more row for the states of its group, which are added where there was none. Whether they were added. The error is an arithmetic error of an
/// operand, or out of memory.
pub fn take_row<'a>(
    alloc: Global,
    grouping: &'a Grouping,
    index: &mut IndexSet<LentKey<'a>>,
    states: &mut Vec<AggregateState>,
    row: &'a [Value],
) -> Result<bool, Failure>
    requires { CanCountRow grouping.now index.old.keys states.old.items }
    ensures ok { OnOk result
        ((rows : List Row)
        → AreGroupLists grouping.now rows index.old.keys states.old.items
        → AreGroupLists grouping.now (rows ++ row.now ∷ []) index.new.keys states.new.items) }
    ensures added { IfOk result
        (λ is_new. is_new ≡ not (contains_row index.old.keys (spec.columns_at grouping.now.keys row.now))) }
    ensures keys { OnOk result (index.new.keys ≡ with_new index.old.keys (spec.columns_at grouping.now.keys row.now)) }
    ensures fault { result ≡ Err Fault → Any (λ a. operand_at row.now a ≡ None) grouping.now.aggregates }
{
    let aggregates = grouping.aggregates.as_slice();
    let (at, is_new) = group_of(grouping, index, states, row)?;
    take_all(alloc, aggregates, states, at * aggregates.len(), row)?;
    Ok(is_new)
}

/// Adds an item at the end, where this is wanted. The only error is out of memory.
pub fn push_if<T: Copy>(is_wanted: bool, items: &mut Vec<T>, item: T) -> Result<(), AllocError>
    ensures added { is_wanted ≡ true → OnOk result (items.new.items ≡ items.old.items ++ item ∷ []) }
    ensures same { is_wanted ≡ false → items.new.items ≡ items.old.items }
{
    if is_wanted {
        items.push(item)?;
    }
    Ok(())
}

/// The groups with one more row, the one at a place.
fn take_row_at<'a>(
    alloc: Global,
    grouping: &'a Grouping,
    index: &mut IndexSet<LentKey<'a>>,
    groups: &mut GroupLists,
    place: usize,
    row: &'a [Value],
) -> Result<(), Failure>
    requires { CanCountRow grouping.now index.old.keys groups.old.states.items }
    ensures ok { OnOk result
        ((rows : List Row)
        → AreGroupLists grouping.now rows index.old.keys groups.old.states.items
        → AreGroupLists grouping.now (rows ++ row.now ∷ []) index.new.keys groups.new.states.items) }
    ensures firsts { OnOk result
        ((all : List Row)
        → slice_index_or all place [] ≡ row.now
        → HaveKeys grouping.now (rows_at all groups.old.firsts.items) index.old.keys
        → HaveKeys grouping.now (rows_at all groups.new.firsts.items) index.new.keys) }
    ensures fault { result ≡ Err Fault → Any (λ a. operand_at row.now a ≡ None) grouping.now.aggregates }
{
    let is_new = take_row(alloc, grouping, index, &mut groups.states, row)?;
    push_if(is_new, &mut groups.firsts, place)?;
    Ok(())
}

/// The groups of no rows: none, or the one group where there are no key columns.
fn first_groups(alloc: Global, grouping: &Grouping) -> Result<GroupLists, AllocError>
    ensures states { IfOk result
        (λ groups. AreGroupLists grouping.now [] (spec.group_keys grouping.now.keys []) groups.states.items) }
    ensures firsts { IfOk result
        (λ groups.
        (all : List Row)
        → HaveKeys grouping.now (rows_at all groups.firsts.items) (spec.group_keys grouping.now.keys [])) }
{
    let mut states = Vec::new(alloc);
    let mut firsts = Vec::new(alloc);
    if grouping.keys.is_empty() {
        add_states(grouping.aggregates.as_slice(), &mut states)?;
        firsts.push(0)?;
    }
    Ok(GroupLists { firsts, states })
}

/// The index of the groups of no rows. The only error is out of memory.
pub fn first_index(alloc: Global, grouping: &Grouping) -> Result<IndexSet<LentKey<'_>>, AllocError>
    ensures { IfOk result (λ index. index.keys ≡ spec.group_keys grouping.now.keys []) }
{
    let places = grouping.keys.as_slice();
    let mut index = IndexSet::new(alloc);
    if places.is_empty() {
        index.insert(LentKey::new(&[], places))?;
    }
    Ok(index)
}

/// The row at a place, or one of no values where there is none.
pub fn row_or_none(rows: &RowList, place: usize) -> &[Value]
    ensures { result.now ≡ slice_index_or rows.now place [] }
{
    if place < rows.len() {
        rows.row(place)
    } else {
        &[]
    }
}

/// Lends the first row of each group.
fn first_rows<'a>(
    alloc: Global,
    rows: &'a RowList,
    firsts: &[usize],
) -> Result<Vec<&'a [Value]>, AllocError>
    ensures { IfOk result (λ all. lent_rows all.items ≡ rows_at rows.now firsts.now) }
{
    let mut all = Vec::with_capacity(alloc, firsts.len())?;
    for place in firsts {
        all.push(row_or_none(rows, *place))?;
    }
    Ok(all)
}

/// The row of each group, whose first rows are lent. Each is made in one buffer, which is used again.
pub fn rows_of(
    alloc: Global,
    places: &[usize],
    width: usize,
    firsts: &[&[Value]],
    states: &[AggregateState],
) -> Result<RowList, Failure>
    requires { length states.now ≡ length firsts.now * width }
    ensures { (g : Grouping) (rows : List Row)
        → g.keys ≡ places.now
        → length g.aggregates ≡ width
        → AreGroupsOf g rows (groups_in width (keys_at places.now (lent_rows firsts.now)) states.now)
        → Gives result (spec.groups g rows) }
{
    let mut rows = RowList::with_capacity(alloc, firsts.len(), places.len().saturating_add(width))?;
    let mut values = Vec::new(alloc);
    for at in 0..firsts.len() {
        put_row(
            alloc,
            places,
            firsts[at],
            states_at(states, at, width),
            &mut values,
        )?;
        rows.push(&mut values)?;
    }
    Ok(rows)
}

/// The row of each of the groups of the rows of a list.
pub(crate) fn rows_of_lists(
    alloc: Global,
    grouping: &Grouping,
    rows: &RowList,
    groups: &GroupLists,
) -> Result<RowList, Failure>
    requires { length groups.now.states.items ≡ length groups.now.firsts.items * length grouping.now.aggregates }
    ensures { (taken : List Row) → HoldGroups grouping.now rows.now taken groups.now
        → Gives result (spec.groups grouping.now taken) }
{
    let firsts = first_rows(alloc, rows, groups.firsts.as_slice())?;
    rows_of(
        alloc,
        grouping.keys.as_slice(),
        grouping.aggregates.len(),
        firsts.as_slice(),
        groups.states.as_slice(),
    )
}

/// The groups of the rows where the condition is TRUE, by one pass over the rows.
fn groups_by_row(
    alloc: Global,
    filter: &Option<Expr>,
    grouping: &Grouping,
    rows: &RowList,
) -> Result<GroupLists, Failure>
    ensures { MatchResult result
        (λ groups. AreGroupsWhere filter.now grouping.now rows.now groups)
        (λ why. Gives {A = List Row} (Err why)
        (unless_fault (filter_where filter.now rows.now) (spec.groups grouping.now))) }
{
    let mut groups = first_groups(alloc, grouping)?;
    let mut index = first_index(alloc, grouping)?;
    for at in 0..rows.len() {
        let row = rows.row(at);
        if is_kept(alloc, filter, row)? {
            take_row_at(alloc, grouping, &mut index, &mut groups, at, row)?;
        }
    }
    Ok(groups)
}

/// The groups of the rows where the condition is TRUE. Where they are one group of all rows, no group is looked up.
pub(crate) fn groups_where(
    alloc: Global,
    filter: &Option<Expr>,
    grouping: &Grouping,
    rows: &RowList,
) -> Result<GroupLists, Failure>
    ensures { MatchResult result
        (λ groups. AreGroupsWhere filter.now grouping.now rows.now groups)
        (λ why. Gives {A = List Row} (Err why)
        (unless_fault (filter_where filter.now rows.now) (spec.groups grouping.now))) }
{
    if let None = filter {
        if grouping.keys.is_empty() {
            return one_group(alloc, grouping, rows);
        }
    }
    groups_by_row(alloc, filter, grouping, rows)
}

/// The rows of the groups of the rows where the condition is TRUE: of each group its key, and then its aggregates. The error is an arithmetic
/// error of the condition or an aggregate, or out of memory.
pub fn group_rows(
    alloc: Global,
    filter: &Option<Expr>,
    grouping: &Grouping,
    rows: &RowList,
) -> Result<RowList, Failure>
    ensures { Gives result (unless_fault (filter_where filter.now rows.now) (spec.groups grouping.now)) }
{
    let groups = groups_where(alloc, filter, grouping, rows)?;
    rows_of_lists(alloc, grouping, rows, &groups)
}
