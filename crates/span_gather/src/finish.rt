//! The rows of a query from the pieces of its leaves.
ghost use Rattle.std.specs.Prelude.{◌≡◌, ◌⊎◌, ◌++◌, ◌∷◌, [], map, Err, List, MatchResult, IfOk, IfSome, OnOk, Some, None};
ghost use Rattle.std.specs.Option.{option_map};
ghost use Rattle.span_query.specs.Rows.{Row};
ghost use Rattle.span_conditions.specs.Answers.{Gives};
ghost use Rattle.span_collected.specs.Parts.{all_rows};
ghost use Rattle.span_gather.specs.Gathered.{joined_pieces, gathered};

use super::in_place::{places_of_rows, rows_in_place};
use super::in_threads::{groups_in_threads, rows_of_ranges};
use super::joined::rows_of_pairs;
use super::lent_parts::lent_parts;
use super::rows::Rows;
use span_algebra::plain::{eval_plain, order_in_threads};
use span_algebra::source::Tables;
use span_collected::part_rows::PartRows;
use span_expr::cell::Failure;
use span_fragment::piece::Piece;
use span_merging::answer_rows::AnswerRows;
use span_query::query::BoundQuery;
use span_value::owned::{give_after, keep_with};
use span_value::refusal::Refusal;
use span_value::seq::Seq;
use std::alloc::{AllocError, Global};
use std::thread::Threads;

/// Adds the table of a leaf, whose rows are lent.
fn add_table<'a>(
    alloc: Global,
    tables: &mut Tables<'a>,
    pieces: &'a [Piece],
) -> Result<(), AllocError>
    ensures { OnOk result (tables.new ≡ tables.old ++ joined_pieces pieces.now ∷ []) }
{
    match lent_parts(alloc, pieces)? {
        Some(parts) => tables.lend(parts),
        None => tables.add_fault(),
    }
}

/// The tables of all leaves.
fn tables_of<'a>(alloc: Global, leaves: &'a [Seq<Piece>]) -> Result<Tables<'a>, AllocError>
    ensures { IfOk result (λ tables. tables ≡ map joined_pieces leaves.now) }
{
    let mut tables = Tables::new(alloc);
    for pieces in leaves {
        add_table(alloc, &mut tables, pieces.as_slice())?;
    }
    Ok(tables)
}

/// The rows of a query whose tables are the leaves of its plan, from the pieces of each leaf in the order of their ranges.
/// `ArithmeticFault`, or `OutOfMemory`; the latter too where the rows of a piece are asked for of which the groups alone are there, which the query
/// that the pieces were made for does not do.
pub fn finish(alloc: Global, top: &BoundQuery, leaves: &[Seq<Piece>]) -> Result<Rows, Refusal>
    ensures { MatchResult result
        (λ rows. gathered leaves.now top.now ≡ Some rows.rows)
        (λ why. ((why ≡ Refusal.ArithmeticFault) × (gathered leaves.now top.now ≡ None))
        ⊎ (why ≡ Refusal.OutOfMemory)) }
{
    let tables = tables_of(alloc, leaves)?;
    match eval_plain(alloc, top, &tables) {
        Ok(rows) => Ok(Rows::new(AnswerRows::of_list(rows))),
        Err(why) => Err(why),
    }
}

/// The rows of a query that puts the rows of its FROM in order, where these are not all rows of one leaf: `rayon` judges its condition at each of them,
/// and puts them in order, where there are many. None where it is another query, or where one thread is to make them. The error is an arithmetic
/// error, or out of memory.
fn rows_in_order<R: Threads + Sync>(
    rt: &R,
    alloc: Global,
    threads: usize,
    top: &BoundQuery,
    leaves: &[Seq<Piece>],
) -> Result<Option<AnswerRows>, Failure>
    ensures { MatchResult result
        (λ found. IfSome found (λ rows. gathered leaves.now top.now ≡ Some rows))
        (λ why. Gives {A = List Row} (Err why) (gathered leaves.now top.now)) }
{
    if threads < 2 {
        return Ok(None);
    }
    let tables = tables_of(alloc, leaves)?;
    match order_in_threads(rt, alloc, top, &tables)? {
        Some(rows) => Ok(Some(AnswerRows::of_list(rows))),
        None => Ok(None),
    }
}

/// The rows of a query that several threads make. None where it is another query, or where there are too few rows. The error is an arithmetic error,
/// or out of memory.
fn rows_in_threads<R: Threads + Sync>(
    rt: &R,
    alloc: Global,
    threads: usize,
    top: &BoundQuery,
    leaves: &[Seq<Piece>],
) -> Result<Option<AnswerRows>, Failure>
    ensures { MatchResult result
        (λ found. IfSome found (λ rows. gathered leaves.now top.now ≡ Some rows))
        (λ why. Gives {A = List Row} (Err why) (gathered leaves.now top.now)) }
{
    if let Some(rows) = groups_in_threads(rt, alloc, threads, top, leaves)? {
        return Ok(Some(rows));
    }
    if let Some(rows) = rows_of_ranges(rt, alloc, threads, top, leaves)? {
        return Ok(Some(rows));
    }
    if let Some(rows) = rows_of_pairs(rt, alloc, threads, top, leaves)? {
        return Ok(Some(rows));
    }
    rows_in_order(rt, alloc, threads, top, leaves)
}

/// The same, where at most this many threads may make the groups of many rows.
fn finish_in_threads<R: Threads + Sync>(
    rt: &R,
    alloc: Global,
    threads: usize,
    top: &BoundQuery,
    leaves: &[Seq<Piece>],
) -> Result<Rows, Refusal>
    ensures { MatchResult result
        (λ rows. gathered leaves.now top.now ≡ Some rows.rows)
        (λ why. ((why ≡ Refusal.ArithmeticFault) × (gathered leaves.now top.now ≡ None))
        ⊎ (why ≡ Refusal.OutOfMemory)) }
{
    match rows_in_threads(rt, alloc, threads, top, leaves) {
        Ok(Some(rows)) => Ok(Rows::new(rows)),
        Ok(None) => finish(alloc, top, leaves),
        Err(Failure::Fault) => Err(Refusal::ArithmeticFault),
        Err(Failure::OutOfMemory) => Err(Refusal::OutOfMemory),
    }
}

/// The rows of the query above the leaves, made from the pieces of each leaf, by at most `threads` threads. The pieces are given away: rows that
/// a query puts in order and answers as they are stay where they lie in the pieces, and are not copied. `ArithmeticFault` where the query text
/// means the fault, or `OutOfMemory`.
pub fn finish_taken<R: Threads + Sync>(
    rt: &R,
    alloc: Global,
    threads: usize,
    top: &BoundQuery,
    leaves: Seq<Seq<Piece>>,
) -> Result<Rows, Refusal>
    ensures { MatchResult result
        (λ rows. gathered leaves top.now ≡ Some rows.rows)
        (λ why. ((why ≡ Refusal.ArithmeticFault) × (gathered leaves top.now ≡ None))
        ⊎ (why ≡ Refusal.OutOfMemory)) }
{
    let found = places_of_rows(rt, alloc, threads, top, leaves.as_slice());
    match keep_with(leaves, found)? {
        (leaves, Some(places)) => Ok(Rows::new(rows_in_place(alloc, leaves, places)?)),
        (leaves, None) => {
            let rows = finish_in_threads(rt, alloc, threads, top, leaves.as_slice());
            give_after(leaves, rows)
        }
    }
}
