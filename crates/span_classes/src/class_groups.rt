//! The groups whose keys are of one class.
ghost use Rattle.std.specs.Prelude.{◌≡◌, ◌<◌, ◌∷◌, ◌++◌, [], Any, Err, List, MatchResult, None, OnOk, length};
ghost use Rattle.span_expr.specs.declared.cell.Failure.TheVariants.{Fault};
ghost use Rattle.span_query.specs.Groups as spec;
ghost use Rattle.span_query.specs.Groups.{columns_at};
ghost use Rattle.span_query.specs.Rows.{Row};
ghost use Rattle.span_conditions.specs.Answers.{Gives};
ghost use Rattle.span_rows.specs.LentRows.{lent_rows};
ghost use Rattle.span_groups.specs.GroupStates.{CanCountRow};
ghost use Rattle.span_groups.specs.States.{operand_at};
ghost use Rattle.span_classes.specs.Classes.{AreClassNumbers, AreGroupsOfClass, HaveTaken, class_of};

use super::class::Class;
use indexmap::IndexSet;
use span_collected::lent::{LentGroups, no_lent_groups, rows_of_lent};
use span_expr::cell::Failure;
use span_groups::group::{first_index, push_if, take_row};
use span_query::query::Grouping;
use span_rows::key::LentKey;
use span_rows::row_list::RowList;
use span_value::value::Value;
use std::alloc::{AllocError, Global};

/// The groups whose keys are of one class, in the order of their first rows.
#[derive(Drop)]
pub(crate) struct ClassGroups {
    /// The row of each group.
    pub(crate) rows: RowList,
    /// For each group the place of its first row among all rows.
    pub(crate) firsts: Vec<usize>,
}

/// One more row, the one at a place among all, for its group where the number of its key's class is this one's.
fn take_if_in_class<'a>(
    alloc: Global,
    grouping: &'a Grouping,
    class: Class,
    index: &mut IndexSet<LentKey<'a>>,
    groups: &mut LentGroups<'a>,
    firsts: &mut Vec<usize>,
    place: usize,
    row: &'a [Value],
    number: usize,
) -> Result<(), Failure>
    requires number { number ≡ class_of class.count (columns_at grouping.now.keys row.now) }
    requires keyed { 0 < length grouping.now.keys }
    requires few { CanCountRow grouping.now index.old.keys groups.old.states.items }
    ensures ok { OnOk result
        ((taken rest : List Row)
        → length taken ≡ place
        → HaveTaken grouping.now class (taken ++ row.now ∷ rest) taken index.old.keys groups.old firsts.old.items
        → HaveTaken grouping.now class (taken ++ row.now ∷ rest) (taken ++ row.now ∷ []) index.new.keys groups.new
        firsts.new.items) }
    ensures fault { result ≡ Err Fault → Any (λ a. operand_at row.now a ≡ None) grouping.now.aggregates }
{
    if number == class.number {
        let is_new = take_row(alloc, grouping, index, &mut groups.states, row)?;
        push_if(is_new, &mut groups.firsts, row)?;
        push_if(is_new, firsts, place)?;
    }
    Ok(())
}

/// The groups of some rows whose keys are of one class; of each row the number of its key's class is known. The error is an arithmetic
/// error of an aggregate, or out of memory.
pub(crate) fn groups_of_class(
    alloc: Global,
    grouping: &Grouping,
    class: Class,
    rows: &[&[Value]],
    numbers: &[usize],
) -> Result<ClassGroups, Failure>
    requires numbers { AreClassNumbers class.count grouping.now.keys (lent_rows rows.now) numbers.now }
    requires keyed { 0 < length grouping.now.keys }
    ensures { MatchResult result
        (AreGroupsOfClass grouping.now class (lent_rows rows.now))
        (λ why. Gives {A = List Row} (Err why) (spec.groups grouping.now (lent_rows rows.now))) }
{
    let mut groups = no_lent_groups(alloc, grouping)?;
    let mut index = first_index(alloc, grouping)?;
    let mut firsts = Vec::new(alloc);
    for place in 0..rows.len() {
        take_if_in_class(
            alloc,
            grouping,
            class,
            &mut index,
            &mut groups,
            &mut firsts,
            place,
            rows[place],
            numbers[place],
        )?;
    }
    let rows = rows_of_lent(alloc, grouping, &groups)?;
    Ok(ClassGroups { rows, firsts })
}
