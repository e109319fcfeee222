//! The rows at which a condition is TRUE.
ghost use Rattle.std.specs.Prelude.{◌≡◌};
ghost use Rattle.span_query.specs.Rows.{filter_rows, filter_where};
ghost use Rattle.span_conditions.specs.Answers.{Adds, Gives};
ghost use Rattle.span_rows.specs.Filtering.{filter_row, holds_where};

use super::row_list::RowList;
use span_conditions::condition::is_met;
use span_expr::cell::Failure;
use span_expr::expr::Expr;
use span_value::value::Value;
use std::alloc::Global;

/// Whether the condition is TRUE at the row, or there is none. The error is an arithmetic error, or out of memory.
pub fn is_kept(alloc: Global, filter: &Option<Expr>, row: &[Value]) -> Result<bool, Failure>
    ensures { Gives result (holds_where filter.now row.now) }
{
    match filter {
        Some(condition) => is_met(alloc, condition, row),
        None => Ok(true),
    }
}

/// Adds a copy of the row where the condition is TRUE at it.
fn add_if_met(
    alloc: Global,
    condition: &Expr,
    row: &[Value],
    kept: &mut RowList,
) -> Result<(), Failure>
    ensures { Adds result (filter_row condition.now row.now) kept.old kept.new }
{
    if is_met(alloc, condition, row)? {
        kept.push_copy(alloc, row)?;
    }
    Ok(())
}

/// Copies of the rows at which the condition is TRUE.
fn filter_by(alloc: Global, condition: &Expr, rows: &RowList) -> Result<RowList, Failure>
    ensures { Gives result (filter_rows condition.now rows.now) }
{
    let mut kept = RowList::new(alloc);
    for at in 0..rows.len() {
        add_if_met(alloc, condition, rows.row(at), &mut kept)?;
    }
    Ok(kept)
}

/// The rows at which the condition is TRUE, or all rows where there is none. The error is an arithmetic error, or out of memory.
pub fn filter_rows(alloc: Global, filter: &Option<Expr>, rows: RowList) -> Result<RowList, Failure>
    ensures { Gives result (filter_where filter.now rows) }
{
    match filter {
        None => Ok(rows),
        Some(condition) => filter_by(alloc, condition, &rows),
    }
}
