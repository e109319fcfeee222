//! Queries that answer the groups of all rows of a table as they are: whoever makes these groups has the answer.
ghost use Rattle.std.specs.Prelude.{◌≡◌, ◌+◌, IfOk, IfSome, length, true};
ghost use Rattle.span_query.specs.declared.query.BoundQuery.TheViews.{out-BoundQuery};
ghost use Rattle.span_algebra.specs.GroupAnswers.{AnswersGroups, IsOneBlock, TakesGroups};

use super::block::are_in_order;
use super::plain::grouped_table;
use span_expr::expr::Expr;
use span_query::query::{BoundQuery, Grouping};
use span_sorting::columns::columns_of;
use std::alloc::{AllocError, Global};

/// Whether a query is one SELECT, all rows of which it answers as they come.
fn is_one_block(query: &BoundQuery) -> bool
    ensures { result ≡ true → IsOneBlock (out-BoundQuery query.now) }
{
    !query.first.is_distinct
        && query.others.is_empty()
        && query.order.is_empty()
        && query.limit.is_none()
}

/// Whether the rows of groups have a number of values.
fn have_width(grouping: &Grouping, width: usize) -> bool
    ensures { result ≡ true → width ≡ length grouping.now.keys + length grouping.now.aggregates }
{
    match width.checked_sub(grouping.keys.len()) {
        Some(rest) => rest == grouping.aggregates.len(),
        None => false,
    }
}

/// Whether a select list is all values of each row of groups, in their order. The only error is out of memory.
fn takes_groups(alloc: Global, grouping: &Grouping, outputs: &[Expr]) -> Result<bool, AllocError>
    ensures { IfOk result (λ takes. takes ≡ true → TakesGroups grouping.now outputs.now) }
{
    let Some(columns) = columns_of(alloc, outputs)? else {
        return Ok(false);
    };
    if !are_in_order(columns.as_slice()) {
        return Ok(false);
    }
    Ok(have_width(grouping, columns.len()))
}

/// The grouping of the first table, where a query answers the groups of all its rows as they are and nothing else. None where it is
/// another query. The only error is out of memory.
pub fn group_answer(alloc: Global, query: &BoundQuery) -> Result<Option<&Grouping>, AllocError>
    ensures { IfOk result (λ found. IfSome found (λ grouping. AnswersGroups query.now grouping.now)) }
{
    if !is_one_block(query) {
        return Ok(None);
    }
    let Some((number, grouping)) = grouped_table(&query.first) else {
        return Ok(None);
    };
    if number != 1 || grouping.having.is_some() {
        return Ok(None);
    }
    if !takes_groups(alloc, grouping, query.first.outputs.as_slice())? {
        return Ok(None);
    }
    Ok(Some(grouping))
}
