//! The select list at the rows where a condition is TRUE.
ghost use Rattle.std.specs.Prelude.{◌≡◌, [], IfOk, IfSome, Some};
ghost use Rattle.span_query.specs.Rows.{unless_fault, filter_where, project_rows, values};
ghost use Rattle.span_conditions.specs.Answers.{Gives, Puts};

use span_conditions::condition::value_at;
use span_expr::cell::Failure;
use span_expr::expr::Expr;
use span_rows::filter::is_kept;
use span_rows::row::add;
use span_rows::row_list::{RowList, lent_rows};
use span_sorting::columns::columns_of;
use span_sorting::sort::order_columns;
use span_value::value::Value;
use std::alloc::{AllocError, Global};

/// Makes a buffer the values of the outputs at a row.
fn put_values(
    alloc: Global,
    outputs: &[Expr],
    row: &[Value],
    found: &mut Vec<Value>,
) -> Result<(), Failure>
    ensures { Puts result (values outputs.now row.now) found.new.items }
{
    found.clear();
    for output in outputs {
        add(found, value_at(alloc, output, row)?)?;
    }
    Ok(())
}

/// No rows, with capacity for those of the select list where there is no condition: how many rows a condition keeps is not known.
fn list_with_capacity(
    alloc: Global,
    filter: &Option<Expr>,
    outputs: &[Expr],
    rows: &RowList,
) -> Result<RowList, AllocError>
    ensures { IfOk result (λ list. list ≡ []) }
{
    match filter {
        None => RowList::with_capacity(alloc, rows.len(), outputs.len()),
        Some(_) => Ok(RowList::new(alloc)),
    }
}

/// The select list at the rows where the condition is TRUE, which is evaluated at each of them.
#[tactic(auto, using(crate::proofs::Selecting::selected_by_row))]
fn select_where(
    alloc: Global,
    filter: &Option<Expr>,
    outputs: &[Expr],
    rows: &RowList,
) -> Result<RowList, Failure>
    ensures { Gives result (unless_fault (filter_where filter.now rows.now) (project_rows outputs.now)) }
{
    let mut found = list_with_capacity(alloc, filter, outputs, rows)?;
    let mut values = Vec::new(alloc);
    for at in 0..rows.len() {
        let row = rows.row(at);
        if is_kept(alloc, filter, row)? {
            put_values(alloc, outputs, row, &mut values)?;
            found.push(&mut values)?;
        }
    }
    Ok(found)
}

/// The select list at all rows, where it is columns alone: their values are copied, and nothing is evaluated. None where it is another.
fn columns_at_all(
    alloc: Global,
    outputs: &[Expr],
    rows: &RowList,
) -> Result<Option<RowList>, AllocError>
    ensures { IfOk result (λ found. IfSome found (λ list. project_rows outputs.now rows.now ≡ Some list)) }
{
    let Some(columns) = columns_of(alloc, outputs)? else {
        return Ok(None);
    };
    let lent = lent_rows(alloc, rows)?;
    let list = order_columns(alloc, &[], None, columns.as_slice(), lent)?;
    Ok(Some(list))
}

/// The select list at the rows where the condition is TRUE, or at all rows where there is none.
pub(crate) fn select_rows(
    alloc: Global,
    filter: &Option<Expr>,
    outputs: &[Expr],
    rows: &RowList,
) -> Result<RowList, Failure>
    ensures { Gives result (unless_fault (filter_where filter.now rows.now) (project_rows outputs.now)) }
{
    if let None = filter {
        if let Some(list) = columns_at_all(alloc, outputs, rows)? {
            return Ok(list);
        }
    }
    select_where(alloc, filter, outputs, rows)
}
