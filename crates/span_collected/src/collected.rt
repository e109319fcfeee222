//! The rows of a part while they are read: of those that came first the groups alone may be kept, or as many rows as are enough.
ghost use Rattle.std.specs.Prelude.{◌≡◌, ◌++◌, [], IfOk};
ghost use Rattle.span_collected.specs.KeptGroups.{grouped_rows};
ghost use Rattle.span_collected.specs.Reductions.{AreEnough};

use super::grouped::GroupedRows;
use super::reduction::Reduction;
use span_query::query::Grouping;
use span_rows::row_list::RowList;
use span_value::owned::{give_after, keep_with};
use std::alloc::{AllocError, Global};
use std::marker::Model;

/// How many rows are collected at least before those of them that are enough are kept, or before they are taken into groups once more.
const COLLECTED_ROWS: usize = 1024;

/// How many rows are collected before the first of them are taken into groups: it is judged by these whether the groups are many.
const JUDGED_ROWS: usize = 16384;

/// How many times as many rows as were kept, or as there are groups, are in the list when the next are dropped: so that it takes little for each.
const COLLECTED_SHARE: usize = 8;

/// Rows of which those that came first may be there as groups alone. Contracts see the rows.
#[derive(Debug, Drop)]
pub struct CollectedRows {
    groups: Option<GroupedRows>,
    rows: RowList,
}

impl Model for CollectedRows {
    ghost use Rattle.std.specs.Prelude.{◌++◌, List};
    ghost use Rattle.span_query.specs.Rows.{Row};
    ghost use Rattle.span_collected.specs.KeptGroups.{grouped_rows};

    ghost Value = { List Row };

    ghost view = { λ a. grouped_rows a.groups ++ a.rows };
}

impl CollectedRows {
    /// Rows that are there as groups, where some are, and those of a list after them.
    pub fn new(groups: Option<GroupedRows>, rows: RowList) -> CollectedRows
        ensures { result ≡ grouped_rows groups ++ rows }
    {
        CollectedRows { groups, rows }
    }

    /// Takes the rows of the list into the groups, where there are some, or keeps those of them that are enough. The only error is out of memory.
    pub fn keep_enough(
        self,
        alloc: Global,
        reduction: &Reduction,
    ) -> Result<CollectedRows, AllocError>
        ensures { IfOk result (λ kept. AreEnough reduction.now kept self) }
    {
        let CollectedRows { groups, rows } = self;
        let mut rows = rows;
        let groups = keep_enough(alloc, reduction, groups, &mut rows)?;
        Ok(CollectedRows { groups, rows })
    }

    /// The rows that are there as groups, where some are, and the list of the others.
    pub(crate) fn into_parts(self) -> (Option<GroupedRows>, RowList)
        ensures { grouped_rows result.0 ++ result.1 ≡ self }
    {
        let CollectedRows { groups, rows } = self;
        (groups, rows)
    }
}

/// No rows, for a grouping if there is one. The only error is out of memory.
pub fn no_rows(
    alloc: Global,
    grouping: Option<&Grouping>,
) -> Result<Option<GroupedRows>, AllocError>
    ensures { IfOk result (λ groups. grouped_rows groups ≡ []) }
{
    match grouping {
        Some(grouping) => Ok(Some(GroupedRows::new(alloc, grouping)?)),
        None => Ok(None),
    }
}

/// Keeps of the rows of a list those that are enough, where no groups are made. The only error is out of memory.
fn keep_listed(
    alloc: Global,
    reduction: &Reduction,
    rows: &mut RowList,
) -> Result<Option<GroupedRows>, AllocError>
    ensures { IfOk result (λ kept. AreEnough reduction.now (grouped_rows kept ++ rows.new) rows.old) }
{
    reduction.keep(alloc, rows)?;
    Ok(None)
}

/// Takes the rows of a list into groups, which come before them; where these seem to be many no groups are made. Where there are no groups, those rows
/// are kept that are enough. The only error is out of memory.
pub fn keep_enough(
    alloc: Global,
    reduction: &Reduction,
    groups: Option<GroupedRows>,
    rows: &mut RowList,
) -> Result<Option<GroupedRows>, AllocError>
    ensures { IfOk result
        (λ kept. AreEnough reduction.now (grouped_rows kept ++ rows.new) (grouped_rows groups ++ rows.old)) }
{
    let Some(groups) = groups else {
        return keep_listed(alloc, reduction, rows);
    };
    let are_many = groups.has_many(alloc, rows);
    let (groups, are_many) = keep_with(groups, are_many)?;
    if are_many {
        return give_after(groups, keep_listed(alloc, reduction, rows));
    }
    Ok(Some(groups.take(alloc, rows)?))
}

/// How many rows are in a list when `keep_enough` is due for the first time.
pub fn first_count(reduction: &Reduction, groups: &Option<GroupedRows>) -> usize {
    match (reduction, groups) {
        (_, Some(_)) => JUDGED_ROWS,
        (Reduction::Everything | Reduction::InOrder(_), None) => usize::MAX,
        _ => COLLECTED_ROWS,
    }
}

/// How many rows are in a list when `keep_enough` is due again, after what it left.
pub fn next_count(reduction: &Reduction, groups: &Option<GroupedRows>, rows: &RowList) -> usize {
    let kept = match (reduction, groups) {
        (_, Some(groups)) => groups.group_count(),
        (Reduction::Everything | Reduction::InOrder(_), None) => return usize::MAX,
        _ => rows.len(),
    };
    kept.saturating_mul(COLLECTED_SHARE).max(COLLECTED_ROWS)
}
