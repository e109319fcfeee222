//! Which rows of a part of a table a query needs.
ghost use Rattle.std.specs.Prelude.{IfOk};
ghost use Rattle.span_algebra.specs.SameMeaning.{IsReductionFor};

use super::distinct::distinct_of_table;
use super::ordered::first_of_table;
use span_collected::reduction::Reduction;
use span_query::query::BoundQuery;
use std::alloc::{AllocError, Global};

/// Which rows of each part of the table at a place, counted from 0, are kept for a query. The only error is out of memory.
pub fn reduction_for(
    alloc: Global,
    query: &BoundQuery,
    place: usize,
) -> Result<Reduction, AllocError>
    ensures { IfOk result (IsReductionFor query.now place) }
{
    if let Some(first) = first_of_table(alloc, query, place)? {
        return Ok(first);
    }
    if let Some(distinct) = distinct_of_table(alloc, query, place)? {
        return Ok(distinct);
    }
    Ok(Reduction::Everything)
}
