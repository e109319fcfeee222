//! The columns that a condition reads, as a mask of its own.
ghost use Rattle.std.specs.Prelude.{◌≡◌, IfOk, MatchOption, map, true};
ghost use Rattle.std.specs.List.{range_with_len};
ghost use Rattle.span_expr.specs.Places as places;
ghost use Rattle.span_tablescan.specs.Scans.{IsMaskOf};

use span_expr::expr::Expr;
use span_expr::reads::reads_within;
use span_rowreader::place::is_wanted;
use std::alloc::{AllocError, Global};

/// The first of a number of columns that a condition reads. What is made of it is tested.
fn first_read(condition: &Expr, width: usize) -> usize {
    for place in 0..width {
        if !reads_within(condition, place + 1, width) {
            return place;
        }
    }
    width
}

/// The place after the last of a number of columns that a condition reads. What is made of it is tested.
fn end_of_reads(condition: &Expr, low: usize, width: usize) -> usize {
    for high in low..width {
        if reads_within(condition, low, high) {
            return high;
        }
    }
    width
}

fn is_in(low: usize, high: usize, place: usize) -> bool
    ensures { result ≡ places.is_in low high place }
{
    low <= place && place < high
}

/// TRUE at the places from `low` on and before `high`.
fn mask_between(
    alloc: Global,
    low: usize,
    high: usize,
    width: usize,
) -> Result<Vec<bool>, AllocError>
    ensures { IfOk result (λ mask. mask.items ≡ map (places.is_in low high) (range_with_len 0 width)) }
{
    let mut mask = Vec::with_capacity(alloc, width)?;
    for place in 0..width {
        mask.push(is_in(low, high, place))?;
    }
    Ok(mask)
}

/// A mask of the columns of a row of a width: TRUE from the first to the last of those that a condition reads. None where it reads
/// another.
pub(crate) fn mask_of(
    alloc: Global,
    condition: &Expr,
    width: usize,
) -> Result<Option<Vec<bool>>, AllocError>
    ensures { IfOk result
        (λ found. MatchOption found (Unit {0}) (λ mask. IsMaskOf width condition.now mask.items)) }
{
    let low = first_read(condition, width);
    let high = end_of_reads(condition, low, width);
    if !reads_within(condition, low, high) {
        return Ok(None);
    }
    Ok(Some(mask_between(alloc, low, high, width)?))
}

/// Whether a mask leaves out a place that another has.
pub(crate) fn is_narrower(mask: &[bool], other: &[bool]) -> bool {
    for place in 0..other.len() {
        if is_wanted(other, place) && !is_wanted(mask, place) {
            return true;
        }
    }
    false
}

/// Whether two masks are the same.
pub fn are_same(mask: &[bool], other: &[bool]) -> bool
    ensures { result ≡ true → mask.now ≡ other.now }
{
    let Some((first, rest)) = mask.split_first() else {
        return other.is_empty();
    };
    let Some((other_first, others)) = other.split_first() else {
        return false;
    };
    *first == *other_first && are_same(rest, others)
}
