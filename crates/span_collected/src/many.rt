//! Whether rows seem to have many groups, which are then not made where they are read.
use indexmap::IndexSet;
use span_query::query::Grouping;
use span_rows::key::LentKey;
use span_rows::row_list::RowList;
use std::alloc::{AllocError, Global};

/// The number of rows that a part has at least where it is judged by its first rows whether it has many groups.
const LEAST_ROWS: usize = 4096;

/// Of how many rows of a part one is among these first rows.
const ROWS_FOR_EACH: usize = 4;

/// The groups are many where of this many of the first rows at most one has the group of another.
const ROWS_FOR_A_REPEATED: usize = 16;

/// Whether the first rows of a part seem to have many groups: it takes less time then to make those of all rows of all parts than to make those of
/// each part and to put them together. A quarter of these rows is looked at, before any groups are made: where rows come in no order, nearly each
/// of them is the first of its group then; where those of a group follow one another, their number tells it. Only how fast a query is answered
/// rests on it.
pub(crate) fn are_many(
    alloc: Global,
    grouping: &Grouping,
    rows: &RowList,
) -> Result<bool, AllocError> {
    if rows.len() < LEAST_ROWS {
        return Ok(false);
    }
    let places = grouping.keys.as_slice();
    if places.is_empty() {
        // There is one group.
        return Ok(false);
    }
    let count = rows.len() / ROWS_FOR_EACH;
    let mut keys = IndexSet::new(alloc);
    for at in 0..count {
        keys.insert(LentKey::new(rows.row(at), places))?;
    }
    Ok(keys.len() > count - count / ROWS_FOR_A_REPEATED)
}
