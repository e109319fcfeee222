//! SELECT DISTINCT of columns of one table: its rows are lent, and the columns of those that are left are all that is copied.
ghost use Rattle.std.specs.Prelude.{◌≡◌, [], IfOk, IfSome, suc, true};
ghost use Rattle.span_query.specs.declared.query.BoundQuery.TheViews.{out-BoundQuery};
ghost use Rattle.span_algebra.specs.BlockMeaning.{TakesDistinct};
ghost use Rattle.span_algebra.specs.SameMeaning.{IsReductionFor};

use super::ordered::only_table;
use span_collected::collected::CollectedRows;
use span_collected::part_rows::PartRows;
use span_collected::reduction::Reduction;
use span_query::query::{Block, BoundQuery};
use span_rows::row_list::RowList;
use span_sorting::columns::columns_of;
use std::alloc::{AllocError, Global};

/// The table at all rows of which a block takes its select list, each row of this once, where it is such a block.
pub fn distinct_table(block: &Block<BoundQuery>) -> Option<usize>
    ensures { IfSome result (λ number. TakesDistinct block.now number) }
{
    match &block.grouping {
        None if block.is_distinct => only_table(block),
        _ => None,
    }
}

/// Rows of the table of a SELECT DISTINCT, with the first of them by the columns of its select list where this is columns alone. The only
/// error is out of memory.
pub fn distinct_part(
    alloc: Global,
    block: &Block<BoundQuery>,
    rows: CollectedRows,
) -> Result<PartRows, AllocError>
    ensures { IfOk result (λ made. made ≡ rows) }
{
    match columns_of(alloc, block.outputs.as_slice())? {
        Some(columns) => PartRows::with_firsts(alloc, columns.as_slice(), rows),
        None => Ok(PartRows::new(rows)),
    }
}

/// Whether a query is one SELECT DISTINCT of columns of the table at a place, counted from 0.
fn is_distinct_of(query: &BoundQuery, place: usize) -> bool
    ensures others { result ≡ true → (out-BoundQuery query.now).others ≡ [] }
    ensures takes { result ≡ true → TakesDistinct (out-BoundQuery query.now).first (suc place) }
{
    if !query.others.is_empty() {
        return false;
    }
    match distinct_table(&query.first) {
        Some(number) => number > 0 && number - 1 == place,
        None => false,
    }
}

/// Of the rows of the table at a place, counted from 0, one for each of the values that a query takes, where it is a SELECT DISTINCT of columns.
pub(crate) fn distinct_of_table(
    alloc: Global,
    query: &BoundQuery,
    place: usize,
) -> Result<Option<Reduction>, AllocError>
    ensures { IfOk result (λ found. IfSome found (IsReductionFor query.now place)) }
{
    if !is_distinct_of(query, place) {
        return Ok(None);
    }
    match columns_of(alloc, query.first.outputs.as_slice())? {
        Some(columns) => Ok(Some(Reduction::Distinct(columns))),
        None => Ok(None),
    }
}
