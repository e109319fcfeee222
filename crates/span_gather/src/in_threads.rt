//! Queries that answer the groups of all rows of a leaf as they are: several threads make the groups, where there are many rows.
ghost use Rattle.std.specs.Prelude.{◌≡◌, Err, IfOk, IfSome, List, MatchResult, Some};
ghost use Rattle.span_query.specs.Rows.{Row};
ghost use Rattle.span_conditions.specs.Answers.{Gives};
ghost use Rattle.span_rows.specs.LentRows.{lent_rows};
ghost use Rattle.span_gather.specs.Gathered.{gathered, joined_pieces};

use super::lent_parts::lent_parts;
use span_algebra::group_answer::group_answer;
use span_algebra::group_query::{rows_of_groups, table_grouping};
use span_classes::groups::groups_by_classes;
use span_classes::ranges::groups_by_ranges;
use span_collected::part_rows::PartRows;
use span_expr::cell::Failure;
use span_fragment::piece::Piece;
use span_merging::answer_rows::AnswerRows;
use span_query::query::BoundQuery;
use span_rows::row_list::{RowList, lend_rows};
use span_value::seq::Seq;
use span_value::value::Value;
use std::alloc::{AllocError, Global};
use std::thread::Threads;

/// How many rows there are at least for each thread. To start a thread takes some 0.1 ms, in which one thread groups about a thousand rows.
pub(crate) const ROWS_OF_A_THREAD: usize = 8192;

/// The rows of a piece, where they are in a list.
fn list_of(piece: &Piece) -> Option<&RowList>
    ensures { IfSome result (λ rows. piece.now.rows ≡ Some rows.now) }
{
    piece.rows()?.rows()
}

/// The number of rows of pieces; 0 where those of one of them are in no list.
pub(crate) fn count_listed(pieces: &[Piece]) -> usize {
    let mut count: usize = 0;
    for piece in pieces {
        let Some(rows) = list_of(piece) else {
            return 0;
        };
        count = count.saturating_add(rows.len());
    }
    count
}

/// The rows of pieces, one piece after another, each lent, where those of all pieces are in lists. The only error is out of memory.
pub(crate) fn lend_pieces(
    alloc: Global,
    count: usize,
    pieces: &[Piece],
) -> Result<Option<Vec<&[Value]>>, AllocError>
    ensures { IfOk result (λ found. IfSome found (λ lent. joined_pieces pieces.now ≡ Some (lent_rows lent.items))) }
{
    let mut lent = Vec::with_capacity(alloc, count)?;
    for piece in pieces {
        let Some(rows) = list_of(piece) else {
            return Ok(None);
        };
        lend_rows(rows, &mut lent)?;
    }
    Ok(Some(lent))
}

/// The rows of a query that answers the groups of all rows of the only leaf as they are, made by at most this many threads. None where it is
/// another query, where the rows of a piece are in no list, or where there are too few for two threads. The error is an arithmetic error of an
/// aggregate, or out of memory.
pub(crate) fn groups_in_threads<R: Threads + Sync>(
    rt: &R,
    alloc: Global,
    threads: usize,
    top: &BoundQuery,
    leaves: &[Seq<Piece>],
) -> Result<Option<AnswerRows>, Failure>
    ensures { MatchResult result
        (λ found. IfSome found (λ rows. gathered leaves.now top.now ≡ Some rows))
        (λ why. Gives {A = List Row} (Err why) (gathered leaves.now top.now)) }
{
    let [pieces] = leaves else {
        return Ok(None);
    };
    let count = count_listed(pieces.as_slice());
    let threads = threads.min(count / ROWS_OF_A_THREAD);
    if threads < 2 {
        return Ok(None);
    }
    let Some(grouping) = group_answer(alloc, top)? else {
        return Ok(None);
    };
    let Some(rows) = lend_pieces(alloc, count, pieces.as_slice())? else {
        return Ok(None);
    };
    groups_by_classes(rt, alloc, threads, grouping, rows.as_slice())
}

/// How many groups and rows in lists there are at least for each thread: to put a group together with others takes several times as long as to take a
/// row into one.
const ENTRIES_OF_A_THREAD: usize = 2048;

/// The number of groups and of rows in lists of parts.
fn count_entries(parts: &[&PartRows]) -> usize {
    let mut count: usize = 0;
    for part in parts {
        count = count.saturating_add(part.entry_count());
    }
    count
}

/// The rows of a query of one SELECT that groups all rows of the only leaf: at most this many threads put the groups of its pieces together. None
/// where it is another query, where a piece is a fault, or where there is too little for two threads. The error is an arithmetic error, or out of
/// memory.
pub(crate) fn rows_of_ranges<R: Threads + Sync>(
    rt: &R,
    alloc: Global,
    threads: usize,
    top: &BoundQuery,
    leaves: &[Seq<Piece>],
) -> Result<Option<AnswerRows>, Failure>
    ensures { MatchResult result
        (λ found. IfSome found (λ rows. gathered leaves.now top.now ≡ Some rows))
        (λ why. Gives {A = List Row} (Err why) (gathered leaves.now top.now)) }
{
    let [pieces] = leaves else {
        return Ok(None);
    };
    let Some(grouping) = table_grouping(top) else {
        return Ok(None);
    };
    let Some(parts) = lent_parts(alloc, pieces.as_slice())? else {
        return Ok(None);
    };
    let threads = threads.min(count_entries(parts.as_slice()) / ENTRIES_OF_A_THREAD);
    let Some(groups) = groups_by_ranges(rt, alloc, threads, grouping, parts.as_slice())? else {
        return Ok(None);
    };
    let rows = rows_of_groups(alloc, top, grouping, groups)?;
    Ok(Some(AnswerRows::of_list(rows)))
}
