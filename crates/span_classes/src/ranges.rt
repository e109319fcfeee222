//! The rows of the groups of rows that lie in parts, by several threads: each puts the groups of some parts together, and what they made is put
//! together then.
ghost use Rattle.std.specs.Prelude.{◌≡◌, ◌*◌, ◌++◌, ◌≤◌, Err, IfOk, IfSome, List, MatchResult, OnOk, Some, length};
ghost use Rattle.span_expr.specs.declared.cell.Failure.TheVariants.{Fault};
ghost use Rattle.span_query.specs.Groups as spec;
ghost use Rattle.span_query.specs.Rows.{Row};
ghost use Rattle.span_conditions.specs.Answers.{Gives};
ghost use Rattle.span_rows.specs.LentRows.{lent_rows};
ghost use Rattle.span_groups.specs.GroupStates.{AreGroupLists, AreInStep, HaveKeys};
ghost use Rattle.span_groups.specs.MergedGroups.{AnyFault};
ghost use Rattle.span_collected.specs.Parts.{all_rows};
ghost use Rattle.span_classes.specs.Ranges.{AreRangesMade, IsGroupsOf, range_at};

use indexmap::IndexSet;
use span_collected::lent::{LentGroups, no_lent_groups, rows_of_lent};
use span_collected::merge::{merge_parts, take_lent_groups};
use span_collected::part_rows::PartRows;
use span_expr::cell::Failure;
use span_groups::group::first_index;
use span_query::query::Grouping;
use span_rows::key::LentKey;
use span_rows::row_list::RowList;
use span_threads::calls::map_indices;
use std::alloc::{AllocError, Global};
use std::thread::Threads;

/// The parts of the range with a number, where each range has this many, and the last ones what is left.
fn parts_of_range<'a, 'b>(
    size: usize,
    parts: &'b [&'a PartRows],
    number: usize,
) -> &'b [&'a PartRows]
    ensures { result.now ≡ range_at size parts.now number }
{
    let start = number.saturating_mul(size).min(parts.len());
    let (_, rest) = parts.split_at(start);
    let (range, _) = rest.split_at(size.min(rest.len()));
    range
}

/// What each of some threads makes: the groups of one range of the parts.
fn make_ranges<'a, R: Threads + Sync>(
    rt: &R,
    alloc: Global,
    count: usize,
    grouping: &'a Grouping,
    size: usize,
    parts: &[&'a PartRows],
) -> Result<Vec<Result<LentGroups<'a>, Failure>>, AllocError>
    ensures { IfOk result (λ made. AreRangesMade grouping.now size parts.now count made.items) }
{
    map_indices(
        rt,
        alloc,
        count,
        &|number| merge_parts(alloc, grouping, parts_of_range(size, parts, number)),
    )
}

/// The groups of further rows, put together with others. The error is what they failed with, or out of memory.
fn take_range<'a>(
    alloc: Global,
    grouping: &'a Grouping,
    index: &mut IndexSet<LentKey<'a>>,
    groups: &mut LentGroups<'a>,
    made: &Result<LentGroups<'a>, Failure>,
) -> Result<(), Failure>
    requires step { AreInStep grouping.now index.old.keys groups.old.states.items }
    requires wide { IfOk made.now
        (λ more. length more.states.items ≡ length more.firsts.items * length grouping.now.aggregates) }
    ensures ok { OnOk result
        ((before next : List Row)
        → AreGroupLists grouping.now before index.old.keys groups.old.states.items
        → IfOk made.now (IsGroupsOf grouping.now next)
        → AreGroupLists grouping.now (before ++ next) index.new.keys groups.new.states.items) }
    ensures firsts { OnOk result
        (HaveKeys grouping.now (lent_rows groups.old.firsts.items) index.old.keys
        → HaveKeys grouping.now (lent_rows groups.new.firsts.items) index.new.keys) }
    ensures fault { result ≡ Err Fault → made.now ≡ Err Fault }
{
    match made {
        Ok(more) => {
            let (firsts, states) = (more.firsts.as_slice(), more.states.as_slice());
            take_lent_groups(alloc, grouping, index, groups, firsts, states)?;
            Ok(())
        }
        Err(why) => Err(*why),
    }
}

/// The groups of all ranges, put together: those of the rows of all parts. The error is the first that there is, or out of memory.
fn merge_ranges<'a>(
    alloc: Global,
    grouping: &'a Grouping,
    size: usize,
    parts: &[&'a PartRows],
    made: &[Result<LentGroups<'a>, Failure>],
) -> Result<LentGroups<'a>, Failure>
    requires made { AreRangesMade grouping.now size parts.now (length made.now) made.now }
    requires whole { length parts.now ≤ length made.now * size }
    ensures ok { IfOk result (IsGroupsOf grouping.now (all_rows parts.now)) }
    ensures fault { result ≡ Err Fault → AnyFault grouping.now (all_rows parts.now) }
{
    let mut groups = no_lent_groups(alloc, grouping)?;
    let mut index = first_index(alloc, grouping)?;
    for range in made {
        take_range(alloc, grouping, &mut index, &mut groups, range)?;
    }
    Ok(groups)
}

/// The rows of the groups of parts, by this many threads: of the groups that were made where the rows of each part were read, and of the rows that
/// are in lists. None where there are fewer than two threads. The error is an arithmetic error of an aggregate, or out of memory.
pub fn groups_by_ranges<'a, R: Threads + Sync>(
    rt: &R,
    alloc: Global,
    threads: usize,
    grouping: &'a Grouping,
    parts: &[&'a PartRows],
) -> Result<Option<RowList>, Failure>
    ensures { MatchResult result
        (λ found. IfSome found (λ rows. spec.groups grouping.now (all_rows parts.now) ≡ Some rows))
        (λ why. Gives {A = List Row} (Err why) (spec.groups grouping.now (all_rows parts.now))) }
{
    if threads < 2 {
        return Ok(None);
    }
    let size = parts.len().div_ceil(threads);
    let made = make_ranges(rt, alloc, threads, grouping, size, parts)?;
    let groups = merge_ranges(alloc, grouping, size, parts, made.as_slice())?;
    let rows = rows_of_lent(alloc, grouping, &groups)?;
    Ok(Some(rows))
}
