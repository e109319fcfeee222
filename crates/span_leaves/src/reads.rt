//! The columns of its FROM that a block reads, as masks.
ghost use Rattle.std.specs.Prelude.{◌≡◌, ◌+◌, ◌≤◌, IfOk, length, take, drop};
ghost use Rattle.span_leaves.specs.Leaves.{widths, reads_of, kept_of};

use super::table::place_after;
use span_columns::reads::{is_read, is_read_above};
use span_query::query::{Block, BoundQuery, Join};
use span_value::seq::Seq;
use std::alloc::{AllocError, Global};

/// The number of columns of a FROM whose first item has this number of them.
fn from_width(width: usize, joins: &[Join<BoundQuery>]) -> Result<usize, AllocError>
    ensures { IfOk result (λ sum. sum ≡ width + widths joins.now) }
{
    let mut sum = width;
    for i in 0..joins.len() {
        let join = &joins[i];
        sum = place_after(sum, join.width)?;
    }
    Ok(sum)
}

/// The columns of a block's FROM, whose first item has this number of them: TRUE at those that the block reads.
pub fn reads_of(
    alloc: Global,
    block: &Block<BoundQuery>,
    width: usize,
) -> Result<Vec<bool>, AllocError>
    ensures { IfOk result (λ reads. reads.items ≡ reads_of width block.now) }
{
    let len = from_width(width, block.joins.as_slice())?;
    let mut reads = Vec::with_capacity(alloc, len)?;
    for place in 0..len {
        reads.push(is_read(block, place))?;
    }
    Ok(reads)
}

/// The columns of a leaf that takes this many joins of a block: TRUE at those that what is left of the block above it reads.
pub(crate) fn kept_of(
    alloc: Global,
    block: &Block<BoundQuery>,
    count: usize,
    width: usize,
) -> Result<Seq<bool>, AllocError>
    requires { count ≤ length block.now.joins }
    ensures { IfOk result (λ kept. kept ≡ kept_of block.now count width) }
{
    let mut kept = Vec::with_capacity(alloc, width)?;
    for place in 0..width {
        kept.push(is_read_above(block, count, place))?;
    }
    Ok(Seq::from_vec(kept))
}

/// Those of a number of columns from a place on.
pub(crate) fn part_of(
    alloc: Global,
    reads: &[bool],
    at: usize,
    width: usize,
) -> Result<Seq<bool>, AllocError>
    ensures { IfOk result (λ part. part ≡ take width (drop at reads.now)) }
{
    let rest = &reads[at.min(reads.len())..];
    let part = &rest[..width.min(rest.len())];
    Ok(Seq::from_vec(part.to_vec(alloc)?))
}
