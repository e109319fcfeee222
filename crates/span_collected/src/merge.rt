//! The groups of parts of some rows put together: those of all the rows, by first appearance.
ghost use Rattle.std.specs.Prelude.{◌≡◌, ◌*◌, ◌++◌, length, List, Err, IfOk, IsTrue, OnOk};
ghost use Rattle.std.specs.Option.{option_copied};
ghost use Rattle.span_expr.specs.declared.cell.Failure.TheVariants.{Fault};
ghost use Rattle.span_query.specs.Groups.{columns_at, rows_with};
ghost use Rattle.span_query.specs.Rows.{Row};
ghost use Rattle.span_rows.specs.Keys.{with_new};
ghost use Rattle.span_rows.specs.LentRows.{lent_rows};
ghost use Rattle.span_groups.specs.GroupStates.{groups_by, keys_at, AreGroupLists, AreInStep, HaveKeys};
ghost use Rattle.span_collected.specs.KeptGroups.{grouped_rows, AreGroupsWith};
ghost use Rattle.span_groups.specs.MergedGroups.{AnyFault, AreWholeGroups, CanTakeList};
ghost use Rattle.span_collected.specs.Parts.{all_rows};
ghost use Rattle.span_groups.specs.States.{AreStatesOf};

use super::grouped::GroupedRows;
use super::lent::{LentGroups, no_lent_groups, take_list};
use super::part_rows::PartRows;
use indexmap::IndexSet;
use span_expr::cell::Failure;
use span_groups::aggregate::AggregateState;
use span_groups::group::{first_index, group_of, push_if};
use span_groups::states::{merge_all, states_at};
use span_query::query::Grouping;
use span_rows::key::LentKey;
use span_rows::row_list::{RowList, lend_rows};
use span_value::value::Value;
use std::alloc::{AllocError, Global};

/// The groups with the rows of one more group, after the others; its first row is lent. False where they could not be put together.
fn merge_group<'a>(
    alloc: Global,
    grouping: &'a Grouping,
    index: &mut IndexSet<LentKey<'a>>,
    groups: &mut LentGroups<'a>,
    row: &'a [Value],
    more: &[AggregateState],
) -> Result<bool, AllocError>
    requires step { AreInStep grouping.now index.old.keys groups.old.states.items }
    requires wide { length more.now ≡ length grouping.now.aggregates }
    ensures step { OnOk result (AreInStep grouping.now index.new.keys groups.new.states.items) }
    ensures merged { IfOk result
        (λ done.
        IsTrue done
        → (rows next : List Row)
        → AreWholeGroups grouping.now index.old.keys rows
        (groups_by grouping.now index.old.keys groups.old.states.items)
        → AreStatesOf grouping.now.aggregates
        (rows_with grouping.now.keys (columns_at grouping.now.keys row.now) next) more.now
        → AreWholeGroups grouping.now (with_new index.old.keys (columns_at grouping.now.keys row.now))
        (rows ++ rows_with grouping.now.keys (columns_at grouping.now.keys row.now) next)
        (groups_by grouping.now index.new.keys groups.new.states.items)) }
    ensures keys { OnOk result (index.new.keys ≡ with_new index.old.keys (columns_at grouping.now.keys row.now)) }
    ensures firsts { OnOk result
        (HaveKeys grouping.now (lent_rows groups.old.firsts.items) index.old.keys
        → HaveKeys grouping.now (lent_rows groups.new.firsts.items) index.new.keys) }
{
    let (at, is_new) = group_of(grouping, index, &mut groups.states, row)?;
    push_if(is_new, &mut groups.firsts, row)?;
    merge_all(
        alloc,
        &mut groups.states,
        at * grouping.aggregates.len(),
        more,
    )
}

/// The groups of rows with those of further rows, given by the first row of each, which is lent, and the states. False where they could not be put
/// together.
fn merge_groups<'a>(
    alloc: Global,
    grouping: &'a Grouping,
    index: &mut IndexSet<LentKey<'a>>,
    groups: &mut LentGroups<'a>,
    firsts: &[&'a [Value]],
    more: &[AggregateState],
) -> Result<bool, AllocError>
    requires step { AreInStep grouping.now index.old.keys groups.old.states.items }
    requires wide { length more.now ≡ length firsts.now * length grouping.now.aggregates }
    ensures step { OnOk result (AreInStep grouping.now index.new.keys groups.new.states.items) }
    ensures merged { IfOk result
        (λ done.
        IsTrue done
        → (before next : List Row)
        → AreGroupLists grouping.now before index.old.keys groups.old.states.items
        → AreGroupsWith grouping.now next (lent_rows firsts.now) more.now
        → AreGroupLists grouping.now (before ++ next) index.new.keys groups.new.states.items) }
    ensures firsts { OnOk result
        (HaveKeys grouping.now (lent_rows groups.old.firsts.items) index.old.keys
        → HaveKeys grouping.now (lent_rows groups.new.firsts.items) index.new.keys) }
{
    let width = grouping.aggregates.len();
    for at in 0..firsts.len() {
        let states = states_at(more, at, width);
        if !merge_group(alloc, grouping, index, groups, firsts[at], states)? {
            return Ok(false);
        }
    }
    Ok(true)
}

/// The groups with those of further rows. The only error is out of memory, which is said too where a count of 64 bits does not suffice.
pub fn take_lent_groups<'a>(
    alloc: Global,
    grouping: &'a Grouping,
    index: &mut IndexSet<LentKey<'a>>,
    groups: &mut LentGroups<'a>,
    firsts: &[&'a [Value]],
    more: &[AggregateState],
) -> Result<(), AllocError>
    requires step { AreInStep grouping.now index.old.keys groups.old.states.items }
    requires wide { length more.now ≡ length firsts.now * length grouping.now.aggregates }
    ensures step { OnOk result (AreInStep grouping.now index.new.keys groups.new.states.items) }
    ensures merged { OnOk result
        ((before next : List Row)
        → AreGroupLists grouping.now before index.old.keys groups.old.states.items
        → AreGroupsWith grouping.now next (lent_rows firsts.now) more.now
        → AreGroupLists grouping.now (before ++ next) index.new.keys groups.new.states.items) }
    ensures firsts { OnOk result
        (HaveKeys grouping.now (lent_rows groups.old.firsts.items) index.old.keys
        → HaveKeys grouping.now (lent_rows groups.new.firsts.items) index.new.keys) }
{
    if merge_groups(alloc, grouping, index, groups, firsts, more)? {
        Ok(())
    } else {
        Err(AllocError)
    }
}

/// Lends all rows of a list.
fn lend_all<'a>(alloc: Global, rows: &'a RowList) -> Result<Vec<&'a [Value]>, AllocError>
    ensures { IfOk result (λ all. lent_rows all.items ≡ rows.now) }
{
    let mut all = Vec::new(alloc);
    lend_rows(rows, &mut all)?;
    Ok(all)
}

/// The groups with those of further rows. The error is an arithmetic error of an operand, or out of memory, which is said too where these are by
/// another grouping, or a count of 64 bits does not suffice.
fn take_groups<'a>(
    alloc: Global,
    grouping: &'a Grouping,
    index: &mut IndexSet<LentKey<'a>>,
    groups: &mut LentGroups<'a>,
    more: &'a GroupedRows,
) -> Result<(), Failure>
    requires { AreInStep grouping.now index.old.keys groups.old.states.items }
    ensures ok { OnOk result
        ((before : List Row)
        → AreGroupLists grouping.now before index.old.keys groups.old.states.items
        → AreGroupLists grouping.now (before ++ more.now) index.new.keys groups.new.states.items) }
    ensures firsts { OnOk result
        (HaveKeys grouping.now (lent_rows groups.old.firsts.items) index.old.keys
        → HaveKeys grouping.now (lent_rows groups.new.firsts.items) index.new.keys) }
    ensures fault { result ≡ Err Fault → AnyFault grouping.now more.now }
{
    let (firsts, states) = more.groups_by(grouping)?;
    let firsts = lend_all(alloc, firsts)?;
    take_lent_groups(alloc, grouping, index, groups, firsts.as_slice(), states)?;
    Ok(())
}

/// The same, where there are further rows.
fn take_grouped<'a>(
    alloc: Global,
    grouping: &'a Grouping,
    index: &mut IndexSet<LentKey<'a>>,
    groups: &mut LentGroups<'a>,
    more: Option<&'a GroupedRows>,
) -> Result<(), Failure>
    requires { AreInStep grouping.now index.old.keys groups.old.states.items }
    ensures ok { OnOk result
        ((before : List Row)
        → AreGroupLists grouping.now before index.old.keys groups.old.states.items
        → AreGroupLists grouping.now (before ++ grouped_rows (option_copied more.entry)) index.new.keys groups.new.states.items) }
    ensures firsts { OnOk result
        (HaveKeys grouping.now (lent_rows groups.old.firsts.items) index.old.keys
        → HaveKeys grouping.now (lent_rows groups.new.firsts.items) index.new.keys) }
    ensures fault { result ≡ Err Fault → AnyFault grouping.now (grouped_rows (option_copied more.entry)) }
{
    match more {
        Some(more) => take_groups(alloc, grouping, index, groups, more),
        None => Ok(()),
    }
}

/// The groups with the rows of a part: with its groups, and then with the rows of its list.
fn take_part<'a>(
    alloc: Global,
    grouping: &'a Grouping,
    index: &mut IndexSet<LentKey<'a>>,
    groups: &mut LentGroups<'a>,
    part: &'a PartRows,
) -> Result<(), Failure>
    requires { CanTakeList grouping.now index.old.keys groups.old.states.items part.now }
    ensures ok { OnOk result
        ((before : List Row)
        → AreGroupLists grouping.now before index.old.keys groups.old.states.items
        → AreGroupLists grouping.now (before ++ part.now) index.new.keys groups.new.states.items) }
    ensures firsts { OnOk result
        (HaveKeys grouping.now (lent_rows groups.old.firsts.items) index.old.keys
        → HaveKeys grouping.now (lent_rows groups.new.firsts.items) index.new.keys) }
    ensures fault { result ≡ Err Fault → AnyFault grouping.now part.now }
{
    let (grouped, listed) = part.parts();
    take_grouped(alloc, grouping, index, groups, grouped)?;
    take_list(alloc, grouping, index, groups, listed)
}

/// The groups that a block makes of the rows of all parts. The error is an arithmetic error of an operand at one of the rows, or out of memory, which
/// is said too where some of the rows are there as groups by another grouping.
pub fn merge_parts<'a>(
    alloc: Global,
    grouping: &'a Grouping,
    parts: &[&'a PartRows],
) -> Result<LentGroups<'a>, Failure>
    ensures ok { IfOk result
        (λ groups. AreGroupLists grouping.now (all_rows parts.now)
        (keys_at grouping.now.keys (lent_rows groups.firsts.items)) groups.states.items) }
    ensures fault { result ≡ Err Fault → AnyFault grouping.now (all_rows parts.now) }
{
    let mut groups = no_lent_groups(alloc, grouping)?;
    let mut index = first_index(alloc, grouping)?;
    let mut count = 0;
    for part in parts {
        count = part.count_after(count)?;
        take_part(alloc, grouping, &mut index, &mut groups, part)?;
    }
    Ok(groups)
}
