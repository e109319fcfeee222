//! Queries of one SELECT that groups all rows of a table: what is left to do once the groups are made.
ghost use Rattle.std.specs.Prelude.{IfSome};
ghost use Rattle.span_query.specs.declared.query.BoundQuery.TheViews.{out-BoundQuery};
ghost use Rattle.span_conditions.specs.Answers.{Gives};
ghost use Rattle.span_algebra.specs.GroupQueries.{GroupsFirstTable, rows_of_groups};

use super::block::project_groups;
use super::plain::grouped_table;
use span_expr::cell::Failure;
use span_query::query::{BoundQuery, Grouping};
use span_rows::row_list::RowList;
use span_sorting::sort::order_rows;
use std::alloc::Global;

/// How a query of one SELECT groups all rows of the first table. None where it is another query.
pub fn table_grouping(query: &BoundQuery) -> Option<&Grouping>
    ensures { IfSome result (λ grouping. GroupsFirstTable query.now grouping.now) }
{
    if !query.others.is_empty() {
        return None;
    }
    let (number, grouping) = grouped_table(&query.first)?;
    if number != 1 {
        return None;
    }
    Some(grouping)
}

/// The rows of a query of one SELECT from the rows of its groups. The error is an arithmetic error of HAVING or of the select list, or out of memory.
pub fn rows_of_groups(
    alloc: Global,
    query: &BoundQuery,
    grouping: &Grouping,
    groups: RowList,
) -> Result<RowList, Failure>
    ensures { Gives result (rows_of_groups (out-BoundQuery query.now) grouping.now groups) }
{
    let found = project_groups(alloc, &query.first, grouping, groups)?;
    order_rows(alloc, query.order.as_slice(), query.limit, found)
}
