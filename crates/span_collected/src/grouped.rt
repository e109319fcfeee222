//! Rows of which their groups alone are kept: the first row of each group, and the states of its aggregates. Where rows are read to be grouped
//! they are taken a batch at a time, and the memory of the batch is used again.
ghost use Rattle.std.specs.Prelude.{◌≡◌, ◌++◌, [], ◌+◌, Err, IfOk, IsTrue, MatchResult, OnOk, length};
ghost use Rattle.span_expr.specs.declared.cell.Failure.TheVariants.{Fault};
ghost use Rattle.span_collected.specs.KeptGroups.{AreGroupsWith};
ghost use Rattle.span_groups.specs.MergedGroups.{AnyFault};

use super::kept_groups::{KeptGroups, no_groups, take_or_drop};
use super::many::are_many;
use super::same_grouping::{are_same, copy_grouping};
use span_expr::cell::Failure;
use span_groups::aggregate::AggregateState;
use span_query::query::Grouping;
use span_rows::row_list::RowList;
use std::alloc::{AllocError, Global};
use std::fmt;
use std::marker::Model;
use std::snapshot::Snapshot;

/// Rows of which their groups alone are kept. Contracts see the rows.
#[derive(Drop)]
pub struct GroupedRows {
    grouping: Grouping,
    /// None where an operand of an aggregate is an arithmetic error at one of the rows, which all groups of them are then.
    groups: Option<KeptGroups>,
    /// How many rows there were.
    count: usize,
    /// The lists of them that were taken. They take no memory: contracts alone see them.
    past: Vec<Snapshot<RowList>>,
}

impl Model for GroupedRows {
    ghost use Rattle.std.specs.Prelude.{List, flat_map};
    ghost use Rattle.span_query.specs.Rows.{Row};
    ghost use Rattle.span_collected.specs.KeptGroups.{AreKeptGroups};

    ghost Value = { List Row };

    ghost view = { λ a. flat_map (λ list. list.value) a.past.items };

    ghost invariant = { λ a. AreKeptGroups a.grouping (flat_map (λ list. list.value) a.past.items) a.groups a.count };
}

impl GroupedRows {
    /// No rows, for a grouping. The only error is out of memory.
    pub fn new(alloc: Global, grouping: &Grouping) -> Result<GroupedRows, AllocError>
        ensures { IfOk result (λ none. none ≡ []) }
    {
        let grouping = copy_grouping(alloc, grouping)?;
        let groups = no_groups(alloc, &grouping)?;
        Ok(GroupedRows {
            grouping,
            groups: Some(groups),
            count: 0,
            past: Vec::new(alloc),
        })
    }

    /// Takes the rows of a list after its own; the list is left without rows, and its memory is used again. The only error is out of memory.
    pub fn take(self, alloc: Global, rows: &mut RowList) -> Result<GroupedRows, AllocError>
        ensures taken { IfOk result (λ new. new ≡ self ++ rows.old) }
        ensures none { OnOk result (rows.new ≡ []) }
    {
        let GroupedRows {
            grouping,
            groups,
            count,
            past,
        } = self;
        let (mut groups, mut past) = (groups, past);
        let count = count.checked_add(rows.len()).ok_or(AllocError)?;
        take_or_drop(alloc, &grouping, &mut groups, rows, count)?;
        past.push(Snapshot::of(rows))?;
        rows.clear();
        Ok(GroupedRows {
            grouping,
            groups,
            count,
            past,
        })
    }

    /// Whether there are no rows so far, and those of a list seem to have many groups.
    pub(crate) fn has_many(&self, alloc: Global, rows: &RowList) -> Result<bool, AllocError>
        ensures { IfOk result (λ many. IsTrue many → self.now ≡ []) }
    {
        if self.count > 0 {
            return Ok(false);
        }
        are_many(alloc, &self.grouping, rows)
    }

    /// How many groups there are.
    pub(crate) fn group_count(&self) -> usize {
        match &self.groups {
            Some(groups) => groups.firsts.len(),
            None => 0,
        }
    }

    /// A number, and the number of the rows. The only error is that it is none of 64 bits.
    pub(crate) fn count_after(&self, count: usize) -> Result<usize, AllocError>
        ensures { IfOk result (λ sum. sum ≡ count + length self.now) }
    {
        count.checked_add(self.count).ok_or(AllocError)
    }

    /// The groups: the first row of each, and the states. `Fault` where an operand of an aggregate is an arithmetic error at one of the rows; out of
    /// memory where they are by another grouping, which no caller asks for.
    pub(crate) fn groups_by(
        &self,
        grouping: &Grouping,
    ) -> Result<(&RowList, &[AggregateState]), Failure>
        ensures { MatchResult result
            (λ groups. AreGroupsWith grouping.now self.now groups.0.now groups.1.now)
            (λ why. why ≡ Fault → AnyFault grouping.now self.now) }
    {
        if !are_same(grouping, &self.grouping) {
            return Err(Failure::OutOfMemory);
        }
        match &self.groups {
            Some(groups) => Ok((&groups.firsts, groups.states.as_slice())),
            None => Err(Failure::Fault),
        }
    }
}

impl fmt::Debug for GroupedRows {
    fn fmt<W: fmt::Write>(&self, f: &mut fmt::Formatter<W>) -> fmt::Result {
        f.debug_struct("GroupedRows")
            .field("grouping", &self.grouping)
            .field("groups", &self.groups)
            .field("count", &self.count)
            .finish_non_exhaustive()
    }
}
