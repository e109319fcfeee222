//! Finding open queries, and what is scanned of them.
ghost use Rattle.std.specs.Prelude.{◌≡◌, ◌<◌, None, Some, true, length, slice_get, slice_set, remove, position, find, IfErr, IfOk, IfSome, IfNone, OnOk, OnErr};
ghost use Rattle.std.specs.Option.{option_copied};
ghost use Rattle.span_machine.specs.Machine.{is_query};
ghost use Rattle.span_machine.specs.Place.{IsPlace};
ghost use Rattle.span_machine.specs.Pieces.{covered_by};
ghost use Rattle.span_openqueries.specs.Counts.{is_uncovered};
ghost use Rattle.span_openqueries.specs.Targets.{target_refusal, IsTarget};

use super::query::KeptQuery;
use span_fragment::piece::Piece;
use span_keycode::range::KeyRange;
use span_machine::query::ScanLeaf;
use span_machine::slot::SlotState;
use span_value::refusal::Refusal;
use std::alloc::{AllocError, Global};

fn query_index(queries: &[KeptQuery], number: u64) -> Option<usize>
    ensures { result ≡ position (λ p. is_query number p.query) queries.now }
{
    queries.iter().position(|q| q.number() == number)
}

/// The query of this number, and its place.
pub fn find_query(queries: &[KeptQuery], number: u64) -> Option<(usize, &KeptQuery)>
    ensures none { IfNone result (find (λ p. is_query number p.query) queries.now ≡ None) }
    ensures some { IfSome result (λ r. IsPlace (λ p. is_query number p.query) queries.now r.0 r.1.now) }
{
    match query_index(queries, number) {
        Some(at) => Some((at, &queries[at])),
        None => None,
    }
}

/// The state of the slot, if it is in use.
pub fn slot_at(slots: &[SlotState], slot: usize) -> Option<&SlotState>
    ensures { option_copied result ≡ slice_get slots.now slot }
{
    slots.get(slot)
}

/// What is scanned: a query and its place, a leaf of the query, and the state of a slot. `UnknownQuery`, also where the
/// query has no such leaf, then `NoSlot`.
pub fn find_target<'a>(
    queries: &'a [KeptQuery],
    slots: &'a [SlotState],
    query: u64,
    leaf: usize,
    slot: usize,
) -> Result<(usize, &'a KeptQuery, &'a ScanLeaf, &'a SlotState), Refusal>
    ensures found { IfOk result (λ t. IsTarget queries.now slots.now query leaf slot t.0 t.1.now t.2.now t.3.now) }
    ensures refused { IfErr result (λ why. target_refusal queries.now slots.now query leaf slot ≡ Some why) }
{
    let Some((at, question)) = find_query(queries, query) else {
        return Err(Refusal::UnknownQuery);
    };
    let Some(part) = question.leaf(leaf) else {
        return Err(Refusal::UnknownQuery);
    };
    let Some(slot_state) = slot_at(slots, slot) else {
        return Err(Refusal::NoSlot);
    };
    Ok((at, question, part, slot_state))
}

/// Covers a part of a leaf of the query at a place by a piece. An error leaves all as it was.
pub fn cover_at(
    alloc: Global,
    queries: &mut Vec<KeptQuery>,
    at: usize,
    leaf: usize,
    range: KeyRange,
    piece: Piece,
) -> Result<(), AllocError>
    requires within { at < length queries.old.items }
    requires leaf { IfSome (slice_get queries.old.items at) (λ p. leaf < length p.query.leaves) }
    requires uncovered { IfSome (slice_get queries.old.items at)
        (λ p. IfSome (slice_get p.query.leaves leaf) (λ l. is_uncovered l range ≡ true)) }
    ensures ok { OnOk result
        (IfSome (slice_get queries.old.items at)
        (λ p. queries.new.items ≡ slice_set queries.old.items at (covered_by leaf range piece p))) }
    ensures err { OnErr result (queries.new.items ≡ queries.old.items) }
{
    queries[at].cover(alloc, leaf, range, piece)
}

/// Removes the query at a place, and returns it.
pub fn take_at(queries: &mut Vec<KeptQuery>, at: usize) -> KeptQuery
    requires { at < length queries.old.items }
    ensures query { Some result ≡ slice_get queries.old.items at }
    ensures after { queries.new.items ≡ remove queries.old.items at }
{
    queries.remove(at)
}
