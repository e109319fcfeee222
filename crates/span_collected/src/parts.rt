//! The rows of the groups of rows that lie in parts.
ghost use Rattle.span_query.specs.Groups.{groups};
ghost use Rattle.span_conditions.specs.Answers.{Gives};
ghost use Rattle.span_collected.specs.Parts.{all_rows};

use super::lent::rows_of_lent;
use super::merge::merge_parts;
use super::part_rows::PartRows;
use span_expr::cell::Failure;
use span_query::query::Grouping;
use span_rows::row_list::RowList;
use std::alloc::Global;

/// The rows of the groups of parts: of the groups that were made where the rows of each were read, and of the rows that are in lists. The error
/// is an arithmetic error of an aggregate, or out of memory.
pub fn groups_of(
    alloc: Global,
    grouping: &Grouping,
    parts: &[&PartRows],
) -> Result<RowList, Failure>
    ensures { Gives result (groups grouping.now (all_rows parts.now)) }
{
    let groups = merge_parts(alloc, grouping, parts)?;
    rows_of_lent(alloc, grouping, &groups)
}
