//! What one SELECT makes of the rows of its FROM.
ghost use Rattle.std.specs.Prelude.{◌≡◌, ◌==◌, ◌<◌, ℕ, IfOk, Some, get_or, length, true};
ghost use Rattle.std.specs.List.{list_all};
ghost use Rattle.span_query.specs.Rows.{unless_fault, filter_where, project_rows};
ghost use Rattle.span_query.specs.Groups.{group_rows};
ghost use Rattle.span_query.specs.Meaning.{distinct_if};
ghost use Rattle.span_conditions.specs.Answers.{Gives};
ghost use Rattle.span_algebra.specs.BlockMeaning.{outputs_of, project_block, project_groups};

use super::select::select_rows;
use span_expr::cell::Failure;
use span_expr::expr::Expr;
use span_groups::group::group_rows;
use span_query::query::{Block, BoundQuery, Grouping};
use span_rows::distinct::distinct;
use span_rows::row_list::RowList;
use span_sorting::columns::columns_of;
use std::alloc::{AllocError, Global};

/// The select list at the rows of the FROM, or at those of the groups.
#[tactic(auto, using(crate::proofs::Blocks::block_laws))]
fn outputs_of(alloc: Global, block: &Block<BoundQuery>, rows: &RowList) -> Result<RowList, Failure>
    ensures { Gives result (outputs_of block.now rows.now) }
{
    let outputs = block.outputs.as_slice();
    match &block.grouping {
        None => select_rows(alloc, &block.filter, outputs, rows),
        Some(grouping) => {
            let groups = group_rows(alloc, &block.filter, grouping, rows)?;
            select_rows(alloc, &grouping.having, outputs, &groups)
        }
    }
}

fn distinct_if(alloc: Global, is_distinct: bool, rows: RowList) -> Result<RowList, Failure>
    ensures { Gives result (Some (distinct_if is_distinct rows)) }
{
    if is_distinct {
        distinct(alloc, &rows)
    } else {
        Ok(rows)
    }
}

/// The output rows of a block, from the rows of its FROM.
pub(crate) fn project_block(
    alloc: Global,
    block: &Block<BoundQuery>,
    rows: &RowList,
) -> Result<RowList, Failure>
    ensures { Gives result (project_block block.now rows.now) }
{
    let found = outputs_of(alloc, block, rows)?;
    distinct_if(alloc, block.is_distinct, found)
}

/// The output rows of a block, from the rows of the groups that it makes of the rows of its FROM.
pub(crate) fn project_groups(
    alloc: Global,
    block: &Block<BoundQuery>,
    grouping: &Grouping,
    groups: RowList,
) -> Result<RowList, Failure>
    ensures { Gives result (project_groups block.now grouping.now groups) }
{
    let outputs = block.outputs.as_slice();
    let found = select_groups(alloc, &grouping.having, outputs, groups)?;
    distinct_if(alloc, block.is_distinct, found)
}

/// The select list at the rows of groups where the condition is TRUE. Where there is no condition, and the list is all values of
/// each row in their order, the rows are given as they are, without a copy.
fn select_groups(
    alloc: Global,
    having: &Option<Expr>,
    outputs: &[Expr],
    groups: RowList,
) -> Result<RowList, Failure>
    ensures { Gives result (unless_fault (filter_where having.now groups) (project_rows outputs.now)) }
{
    if let None = having {
        if are_all_values(alloc, outputs, &groups)? {
            return Ok(groups);
        }
    }
    select_rows(alloc, having, outputs, &groups)
}

/// Whether a select list is all values of each row, in their order.
fn are_all_values(alloc: Global, outputs: &[Expr], rows: &RowList) -> Result<bool, AllocError>
    ensures { IfOk result (λ are. are ≡ true → project_rows outputs.now rows.now ≡ Some rows.now) }
{
    let Some(columns) = columns_of(alloc, outputs)? else {
        return Ok(false);
    };
    if !are_in_order(columns.as_slice()) {
        return Ok(false);
    }
    Ok(have_width(rows, columns.len()))
}

/// Whether each column of a list is its own place in the list.
pub(crate) fn are_in_order(columns: &[usize]) -> bool
    ensures { result ≡ true → (i : ℕ) → i < length columns.now → get_or columns.now i 0 ≡ i }
{
    for at in 0..columns.len() {
        if columns[at] != at {
            return false;
        }
    }
    true
}

/// Whether each row has a number of values.
pub fn have_width(rows: &RowList, width: usize) -> bool
    ensures { result ≡ list_all (λ row. length row == width) rows.now }
{
    for at in 0..rows.len() {
        if rows.row(at).len() != width {
            return false;
        }
    }
    true
}
