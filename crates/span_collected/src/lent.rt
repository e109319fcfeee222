//! Groups of rows that are lent: of several lists, which stay where they are.
ghost use Rattle.std.specs.Prelude.{◌≡◌, ◌*◌, [], ◌∷◌, ◌++◌, length, List, Err, Any, None, IfOk, MatchResult, OnOk};
ghost use Rattle.span_expr.specs.declared.cell.Failure.TheVariants.{Fault};
ghost use Rattle.span_query.specs.Rows.{Row};
ghost use Rattle.span_query.specs.Groups as spec;
ghost use Rattle.span_conditions.specs.Answers.{Gives};
ghost use Rattle.span_rows.specs.LentRows.{lent_rows};
ghost use Rattle.span_groups.specs.GroupStates.{keys_at, AreGroupLists, CanCountRow, HaveKeys};
ghost use Rattle.span_groups.specs.MergedGroups.{AnyFault, CanTakeList};
ghost use Rattle.span_groups.specs.States.{operand_at};

use indexmap::IndexSet;
use span_expr::cell::Failure;
use span_groups::aggregate::AggregateState;
use span_groups::group::{first_index, push_if, rows_of, take_row};
use span_groups::states::add_states;
use span_query::query::Grouping;
use span_rows::key::LentKey;
use span_rows::row_list::RowList;
use span_value::value::Value;
use std::alloc::{AllocError, Global};

/// The groups of rows that are lent, in the order of their first rows.
#[derive(Drop)]
pub struct LentGroups<'a> {
    /// For each group its first row. Where there are no key columns, that of the one group is one of no values.
    pub firsts: Vec<&'a [Value]>,
    /// For each group the states of all the aggregates.
    pub states: Vec<AggregateState>,
}

/// The groups of no rows: none, or the one group where there are no key columns. The only error is out of memory.
pub fn no_lent_groups<'a>(alloc: Global, grouping: &Grouping) -> Result<LentGroups<'a>, AllocError>
    ensures states { IfOk result
        (λ groups. AreGroupLists grouping.now [] (spec.group_keys grouping.now.keys []) groups.states.items) }
    ensures firsts { IfOk result
        (λ groups. HaveKeys grouping.now (lent_rows groups.firsts.items) (spec.group_keys grouping.now.keys [])) }
{
    let mut states = Vec::new(alloc);
    let mut firsts: Vec<&'a [Value]> = Vec::new(alloc);
    if grouping.keys.is_empty() {
        add_states(grouping.aggregates.as_slice(), &mut states)?;
        firsts.push(&[])?;
    }
    Ok(LentGroups { firsts, states })
}

/// The groups with one more row.
fn take_lent_row<'a>(
    alloc: Global,
    grouping: &'a Grouping,
    index: &mut IndexSet<LentKey<'a>>,
    groups: &mut LentGroups<'a>,
    row: &'a [Value],
) -> Result<(), Failure>
    requires { CanCountRow grouping.now index.old.keys groups.old.states.items }
    ensures ok { OnOk result
        ((rows : List Row)
        → AreGroupLists grouping.now rows index.old.keys groups.old.states.items
        → AreGroupLists grouping.now (rows ++ row.now ∷ []) index.new.keys groups.new.states.items) }
    ensures firsts { OnOk result
        (HaveKeys grouping.now (lent_rows groups.old.firsts.items) index.old.keys
        → HaveKeys grouping.now (lent_rows groups.new.firsts.items) index.new.keys) }
    ensures fault { result ≡ Err Fault → Any (λ a. operand_at row.now a ≡ None) grouping.now.aggregates }
{
    let is_new = take_row(alloc, grouping, index, &mut groups.states, row)?;
    push_if(is_new, &mut groups.firsts, row)?;
    Ok(())
}

/// The groups with the rows of a list, one after another.
pub(crate) fn take_list<'a>(
    alloc: Global,
    grouping: &'a Grouping,
    index: &mut IndexSet<LentKey<'a>>,
    groups: &mut LentGroups<'a>,
    rows: &'a RowList,
) -> Result<(), Failure>
    requires { CanTakeList grouping.now index.old.keys groups.old.states.items rows.now }
    ensures ok { OnOk result
        ((before : List Row)
        → AreGroupLists grouping.now before index.old.keys groups.old.states.items
        → AreGroupLists grouping.now (before ++ rows.now) index.new.keys groups.new.states.items) }
    ensures firsts { OnOk result
        (HaveKeys grouping.now (lent_rows groups.old.firsts.items) index.old.keys
        → HaveKeys grouping.now (lent_rows groups.new.firsts.items) index.new.keys) }
    ensures fault { result ≡ Err Fault → AnyFault grouping.now rows.now }
{
    for at in 0..rows.len() {
        take_lent_row(alloc, grouping, index, groups, rows.row(at))?;
    }
    Ok(())
}

/// The row of each of the groups: the values of its key, and then those of its aggregates. The error is an arithmetic error of an aggregate, or out of
/// memory.
pub fn rows_of_lent(
    alloc: Global,
    grouping: &Grouping,
    groups: &LentGroups<'_>,
) -> Result<RowList, Failure>
    requires { length groups.now.states.items ≡ length groups.now.firsts.items * length grouping.now.aggregates }
    ensures { (rows : List Row)
        → AreGroupLists grouping.now rows
        (keys_at grouping.now.keys (lent_rows groups.now.firsts.items)) groups.now.states.items
        → Gives result (spec.groups grouping.now rows) }
{
    rows_of(
        alloc,
        grouping.keys.as_slice(),
        grouping.aggregates.len(),
        groups.firsts.as_slice(),
        groups.states.as_slice(),
    )
}
