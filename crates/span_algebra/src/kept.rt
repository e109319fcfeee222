//! The rows at which a condition is TRUE, each lent.
ghost use Rattle.std.specs.Prelude.{◌≡◌, ◌++◌, Err, IfOk, List, MatchResult, OnOk, Some, length};
ghost use Rattle.std.specs.List.{AllZip};
ghost use Rattle.rayon.specs.Lists.{filter_by_mask};
ghost use Rattle.span_query.specs.Rows.{Row, filter_rows, filter_where, holds, keep_if};
ghost use Rattle.span_conditions.specs.Answers.{Adds, Gives};
ghost use Rattle.span_rows.specs.Filtering.{filter_row};
ghost use Rattle.span_rows.specs.LentRows.{lent_rows};

use rayon::prelude::*;
use span_conditions::condition::is_met;
use span_expr::cell::Failure;
use span_expr::expr::Expr;
use span_rows::row_list::{RowList, lent_rows};
use span_value::value::Value;
use std::alloc::{AllocError, Global};
use std::thread::Threads;

/// Lends a row after others, where it is to be kept.
fn lend_if<'a>(
    is_kept: bool,
    row: &'a [Value],
    kept: &mut Vec<&'a [Value]>,
) -> Result<(), AllocError>
    ensures { OnOk result (lent_rows kept.new.items ≡ lent_rows kept.old.items ++ keep_if row.now is_kept) }
{
    if is_kept {
        kept.push(row)?;
    }
    Ok(())
}

/// Lends the row where the condition is TRUE at it.
fn lend_if_met<'a>(
    alloc: Global,
    condition: &Expr,
    row: &'a [Value],
    kept: &mut Vec<&'a [Value]>,
) -> Result<(), Failure>
    ensures { Adds result (filter_row condition.now row.now) (lent_rows kept.old.items)
        (lent_rows kept.new.items) }
{
    let is_kept = is_met(alloc, condition, row)?;
    Ok(lend_if(is_kept, row, kept)?)
}

/// The rows at which the condition is TRUE.
fn lend_met<'a>(
    alloc: Global,
    condition: &Expr,
    rows: &'a RowList,
) -> Result<Vec<&'a [Value]>, Failure>
    ensures { MatchResult result
        (λ kept. filter_rows condition.now rows.now ≡ Some (lent_rows kept.items))
        (λ why. Gives {A = List Row} (Err why) (filter_rows condition.now rows.now)) }
{
    let mut kept = Vec::new(alloc);
    for at in 0..rows.len() {
        lend_if_met(alloc, condition, rows.row(at), &mut kept)?;
    }
    Ok(kept)
}

/// The rows at which the condition is TRUE, or all rows where there is none. The error is an arithmetic error, or out of memory.
pub(crate) fn lend_where<'a>(
    alloc: Global,
    filter: &Option<Expr>,
    rows: &'a RowList,
) -> Result<Vec<&'a [Value]>, Failure>
    ensures { MatchResult result
        (λ kept. filter_where filter.now rows.now ≡ Some (lent_rows kept.items))
        (λ why. Gives {A = List Row} (Err why) (filter_where filter.now rows.now)) }
{
    match filter {
        None => Ok(lent_rows(alloc, rows)?),
        Some(condition) => lend_met(alloc, condition, rows),
    }
}

// ---- by several threads

/// How many rows several threads judge at least. For fewer, one thread takes so little time that what several would save is small.
const MANY_ROWS: usize = 16_384;

/// Whether the condition is TRUE at each row. The error is an arithmetic error at one of them, or out of memory.
fn judge_rows<R: Threads + Sync>(
    rt: &R,
    alloc: Global,
    condition: &Expr,
    rows: &[&[Value]],
) -> Result<Vec<bool>, Failure>
    ensures { MatchResult result
        (λ marks. AllZip (λ row met. holds condition.now row ≡ Some met) (lent_rows rows.now) marks.items)
        (λ why. Gives {A = List Row} (Err why) (filter_rows condition.now (lent_rows rows.now))) }
{
    rows.par_iter()
        .map(
            move |row: &&[Value]| -> Result<bool, Failure>
                ensures { Gives result (holds condition.entry.now row.now.now) }
            { is_met(alloc, condition, *row) },
        )
        .collect::<Result<Vec<bool>, Failure>>(rt, alloc)?
}

/// The rows whose mark is true.
fn marked_rows<'a>(
    alloc: Global,
    rows: &[&'a [Value]],
    marks: &[bool],
) -> Result<Vec<&'a [Value]>, AllocError>
    requires { length marks.now ≡ length rows.now }
    ensures { IfOk result (λ kept. lent_rows kept.items ≡ filter_by_mask (lent_rows rows.now) marks.now) }
{
    let mut kept = Vec::new(alloc);
    for at in 0..rows.len() {
        lend_if(marks[at], rows[at], &mut kept)?;
    }
    Ok(kept)
}

/// `lend_met`, where as many threads as there are processors judge many rows.
fn lend_met_in_threads<'a, R: Threads + Sync>(
    rt: &R,
    alloc: Global,
    condition: &Expr,
    rows: &'a RowList,
) -> Result<Vec<&'a [Value]>, Failure>
    ensures { MatchResult result
        (λ kept. filter_rows condition.now rows.now ≡ Some (lent_rows kept.items))
        (λ why. Gives {A = List Row} (Err why) (filter_rows condition.now rows.now)) }
{
    if rows.len() < MANY_ROWS {
        return lend_met(alloc, condition, rows);
    }
    let lent = lent_rows(alloc, rows)?;
    let marks = judge_rows(rt, alloc, condition, lent.as_slice())?;
    Ok(marked_rows(alloc, lent.as_slice(), marks.as_slice())?)
}

/// `lend_where`, where as many threads as there are processors judge many rows.
pub(crate) fn lend_where_in_threads<'a, R: Threads + Sync>(
    rt: &R,
    alloc: Global,
    filter: &Option<Expr>,
    rows: &'a RowList,
) -> Result<Vec<&'a [Value]>, Failure>
    ensures { MatchResult result
        (λ kept. filter_where filter.now rows.now ≡ Some (lent_rows kept.items))
        (λ why. Gives {A = List Row} (Err why) (filter_where filter.now rows.now)) }
{
    match filter {
        None => Ok(lent_rows(alloc, rows)?),
        Some(condition) => lend_met_in_threads(rt, alloc, condition, rows),
    }
}
