//! Queries that put all rows of a leaf in order and answer them as they are: they stay where they lie in the pieces.
ghost use Rattle.std.specs.Prelude.{◌≡◌, ◌∷◌, [], IfOk, IfSome, Some, true};
ghost use Rattle.std.specs.List.{AllByRecursion};
ghost use Rattle.span_algebra.specs.ColumnOrders.{have_width};
ghost use Rattle.span_merging.specs.PartPlaces.{IsPlaceIn, rows_in};
ghost use Rattle.span_gather.specs.InPlace.{AreListsOf, ArePlacesOf, first_leaf, lists_of, rows_or_none};

use span_algebra::block::have_width;
use span_algebra::ordered::table_order;
use span_fragment::piece::Piece;
use span_merging::answer_rows::AnswerRows;
use span_merging::part_ranges::order_parts;
use span_merging::parts::PartPlace;
use span_query::query::BoundQuery;
use span_rows::row_list::RowList;
use span_sorting::rows_with_order::RowsWithOrder;
use span_value::owned::keep_with;
use span_value::seq::Seq;
use std::alloc::{AllocError, Global};
use std::thread::Threads;

/// The rows of a piece, where they are in a list and each has a number of values.
fn list_of(piece: &Piece, width: usize) -> Option<&RowsWithOrder>
    ensures rows { IfSome result (λ rows. piece.now.rows ≡ Some rows.now) }
    ensures wide { IfSome result (λ rows. have_width width rows.now ≡ true) }
{
    let listed = piece.rows()?.list_with_order()?;
    if have_width(listed.rows(), width) {
        Some(listed)
    } else {
        None
    }
}

/// The rows of each piece, where all are in lists and each row has a number of values.
fn lend_lists(
    alloc: Global,
    width: usize,
    pieces: &[Piece],
) -> Result<Option<Vec<&RowsWithOrder>>, AllocError>
    ensures { IfOk result (λ found. IfSome found (λ lent. AreListsOf width pieces.now lent.items)) }
{
    let mut lent = Vec::with_capacity(alloc, pieces.len())?;
    for piece in pieces {
        let Some(listed) = list_of(piece, width) else {
            return Ok(None);
        };
        lent.push(listed)?;
    }
    Ok(Some(lent))
}

/// The places of the rows in the pieces of the only leaf, in the order of the query, where it puts all rows of this leaf in order and answers
/// them as they are, and where the order of each piece was made; at most this many threads find them. The only error is out of memory.
pub(crate) fn places_of_rows<R: Threads + Sync>(
    rt: &R,
    alloc: Global,
    threads: usize,
    top: &BoundQuery,
    leaves: &[Seq<Piece>],
) -> Result<Option<Vec<PartPlace>>, AllocError>
    ensures { IfOk result (λ found. IfSome found (λ places. ArePlacesOf leaves.now top.now places.items)) }
{
    let [pieces] = leaves else {
        return Ok(None);
    };
    let Some(order) = table_order(alloc, top)? else {
        return Ok(None);
    };
    let Some(lent) = lend_lists(alloc, order.width, pieces.as_slice())? else {
        return Ok(None);
    };
    match order_parts(rt, alloc, threads, order.keys.as_slice(), lent.as_slice())? {
        Some(places) => Ok(Some(places)),
        None => Ok(None),
    }
}

/// The rows of a piece, moved; no rows where it is a fault. The error is that some are there as groups alone.
fn list_of_piece(alloc: Global, piece: Piece) -> Result<RowList, AllocError>
    ensures { IfOk result (λ list. list ≡ rows_or_none piece.rows) }
{
    match piece.into_rows() {
        Some(rows) => rows.into_list().ok_or(AllocError),
        None => Ok(RowList::new(alloc)),
    }
}

/// The rows of each piece, moved.
fn take_lists(alloc: Global, pieces: Seq<Piece>) -> Result<Vec<RowList>, AllocError>
    ensures { IfOk result (λ lists. lists.items ≡ lists_of pieces) }
{
    let mut lists = Vec::with_capacity(alloc, pieces.len())?;
    for piece in pieces.into_vec() {
        lists.push(list_of_piece(alloc, piece)?)?;
    }
    Ok(lists)
}

/// The rows at some places of the pieces of the only leaf, which stay where they lie. The only error is out of memory.
pub(crate) fn rows_in_place(
    alloc: Global,
    leaves: Seq<Seq<Piece>>,
    places: Vec<PartPlace>,
) -> Result<AnswerRows, AllocError>
    requires only { leaves ≡ first_leaf leaves ∷ [] }
    requires within { AllByRecursion (IsPlaceIn (lists_of (first_leaf leaves))) places.items }
    ensures { IfOk result (λ rows. rows ≡ rows_in (lists_of (first_leaf leaves)) places.items) }
{
    let lists = match leaves.into_vec().pop() {
        Some(pieces) => take_lists(alloc, pieces),
        None => Err(AllocError),
    };
    let (places, lists) = keep_with(places, lists)?;
    Ok(AnswerRows::of_parts(lists, places))
}
