//! When the rows of a leaf that were collected are taken into groups, or those of them kept that are enough.
ghost use Rattle.std.specs.Prelude.{◌≡◌, ◌++◌, OnOk};
ghost use Rattle.span_collected.specs.KeptGroups.{grouped_rows};
ghost use Rattle.span_collected.specs.Reductions.{AreEnough};

use span_collected::collected::{keep_enough, next_count};
use span_collected::grouped::GroupedRows;
use span_collected::reduction::Reduction;
use span_rows::row_list::RowList;
use std::alloc::{AllocError, Global};

/// Takes the rows of a list into groups, which come before them, or keeps those that are enough, where the list has as many rows as `most`, or more;
/// `most` is then how many it has when that is due again: several times as many as were kept, so that it takes little for each. The only error is
/// out of memory.
#[tactic(auto, using(span_collected::proofs::Reductions::enough_same))]
#[inline(always)]
pub fn keep_where_due(
    alloc: Global,
    reduction: &Reduction,
    groups: &mut Option<GroupedRows>,
    rows: &mut RowList,
    most: &mut usize,
) -> Result<(), AllocError>
    ensures { OnOk result
        (AreEnough reduction.now (grouped_rows groups.new ++ rows.new) (grouped_rows groups.old ++ rows.old)) }
{
    if rows.len() < *most {
        return Ok(());
    }
    keep_rows(alloc, reduction, groups, rows, most)
}

/// The same, however many there are.
#[inline(never)]
fn keep_rows(
    alloc: Global,
    reduction: &Reduction,
    groups: &mut Option<GroupedRows>,
    rows: &mut RowList,
    most: &mut usize,
) -> Result<(), AllocError>
    ensures { OnOk result
        (AreEnough reduction.now (grouped_rows groups.new ++ rows.new) (grouped_rows groups.old ++ rows.old)) }
{
    *groups = keep_enough(alloc, reduction, groups.take(), rows)?;
    *most = next_count(reduction, groups, rows);
    Ok(())
}
