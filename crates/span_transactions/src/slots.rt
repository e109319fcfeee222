//! The states of the slots, and the timestamps that they allow.
ghost use Rattle.std.specs.Prelude.{◌≡◌, ◌<◌, ◌≤◌, ◌+◌, ◌^◌, ◌==◌, ◌&&◌, ◌||◌, [], ◌∷◌, not, false, max, length, nat_le, nat_lt, slice_get, slice_set, vec_len, vec_capacity, Some, ◌++◌, IfSome, IfNone, IfOk};
ghost use Rattle.std.specs.List.{list_any, list_all};
ghost use Rattle.span_transactions.specs.Places.{slot_has};
ghost use Rattle.span_machine.specs.Machine.{root_at, holds, slot_of, begins_at, greatest, if_some, lowest_slot, coordinator_slot, with_last, prepare_timestamp, with_risen_floor};
ghost use Rattle.span_truetime.specs.Limits.{timestamp_end};

use super::transaction::KeptTransaction;
use span_keycode::key::Key;
use span_keycode::parts::is_between;
use span_machine::slot::SlotState;
use span_machine::transaction::Prepared;
use span_mutate::directory::is_in_range;
use span_mutate::mutation::CheckedMutation;
use span_schema::schema::Schema;
use span_truetime::interval::{Interval, TIMESTAMP_END};
use std::alloc::{AllocError, Global};

/// How many slots there may be.
pub const MOST_SLOTS: usize = 16;

/// The greatest prepare timestamp.
pub fn greatest_timestamp(prepared: &[Prepared]) -> u64
    ensures { result ≡ greatest prepared.now }
{
    let mut most = 0;
    for p in prepared {
        most = p.timestamp.max(most);
    }
    most
}

/// Whether the directory of the mutation lies in the slot.
#[tactic(auto, unfolding(span_machine::specs::Slots::root_code))]
pub fn holds(schema: &Schema, slot_state: &SlotState, mutation: &CheckedMutation) -> bool
    ensures { result ≡ holds schema.now slot_state.now (root_at schema.now mutation.now) }
{
    is_in_range(schema, mutation, &slot_state.lo, &slot_state.hi)
}

/// Whether the slot is in use and the directory of the mutation lies in it.
fn slot_has(schema: &Schema, slots: &[SlotState], mutation: &CheckedMutation, slot: usize) -> bool
    ensures { result ≡ slot_has schema.now slots.now mutation.now slot }
{
    match slots.get(slot) {
        Some(slot_state) => holds(schema, slot_state, mutation),
        None => false,
    }
}

/// Whether the directory of the mutation lies in one of the slots where its transaction is prepared.
fn is_prepared_for(
    schema: &Schema,
    slots: &[SlotState],
    prepared: &[Prepared],
    mutation: &CheckedMutation,
) -> bool
    ensures { result ≡ list_any (λ p. slot_has schema.now slots.now mutation.now p.slot) prepared.now }
{
    prepared
        .iter()
        .any(|p| slot_has(schema, slots, mutation, p.slot))
}

/// Whether these slots have the directories of all mutations.
fn are_prepared_for(
    schema: &Schema,
    slots: &[SlotState],
    prepared: &[Prepared],
    mutations: &[CheckedMutation],
) -> bool
    ensures { result
        ≡ list_all (λ m. list_any (λ p. slot_has schema.now slots.now m p.slot) prepared.now) mutations.now }
{
    mutations
        .iter()
        .all(|m| is_prepared_for(schema, slots, prepared, m))
}

/// Whether the transaction is prepared, and for each of its mutations in the slot that has its directory.
pub fn is_ready(slots: &[SlotState], schema: &Schema, transaction: &KeptTransaction) -> bool
    ensures { result
        ≡ (not (length transaction.now.prepared == 0)
        && list_all
        (λ m. list_any (λ p. slot_has schema.now slots.now m p.slot) transaction.now.prepared)
        transaction.now.mutations) }
{
    if transaction.preparations().len() == 0 {
        return false;
    }
    are_prepared_for(
        schema,
        slots,
        transaction.preparations(),
        transaction.mutations(),
    )
}

/// The lowest of the slots.
pub fn lowest_slot(slot: usize, prepared: &[Prepared]) -> usize
    ensures { result ≡ lowest_slot slot prepared.now }
{
    let mut least = slot;
    for p in prepared {
        if p.slot < least {
            least = p.slot;
        }
    }
    least
}

/// The coordinator, the lowest slot of all.
pub fn coordinator_slot(prepared: &[Prepared]) -> usize
    ensures { result ≡ coordinator_slot prepared.now }
{
    match prepared {
        [] => 0,
        [first, rest @ ..] => lowest_slot(first.slot, rest),
    }
}

/// The last timestamp of the slot, if it is used.
pub fn last_timestamp(slots: &[SlotState], slot: usize) -> u64
    ensures { result ≡ if_some (slice_get slots.now slot) 0 (λ slot_state. slot_state.last) }
{
    match slots.get(slot) {
        Some(slot_state) => slot_state.last,
        None => 0,
    }
}

/// The commit timestamp, if there is one left.
pub fn commit_timestamp(slots: &[SlotState], prepared: &[Prepared], latest: u64) -> Option<u64>
    ensures some { IfSome result
        (λ ts.
        (ts
        ≡ max (greatest prepared.now)
        (max (latest + 1)
        (if_some (slice_get slots.now (coordinator_slot prepared.now)) 0 (λ slot_state. slot_state.last) + 1)))
        × (ts < timestamp_end)) }
    ensures none { IfNone result
        (timestamp_end
        ≤ max (greatest prepared.now)
        (max (latest + 1)
        (if_some (slice_get slots.now (coordinator_slot prepared.now)) 0 (λ slot_state. slot_state.last) + 1))) }
{
    let last = last_timestamp(slots, coordinator_slot(prepared));
    let greatest = greatest_timestamp(prepared);
    if latest >= TIMESTAMP_END - 1 || last >= TIMESTAMP_END - 1 || greatest >= TIMESTAMP_END {
        return None;
    }
    Some(greatest.max((latest + 1).max(last + 1)))
}

/// Raises the last timestamp of the slot.
pub fn raise_last(slots: &mut Vec<SlotState>, slot: usize, timestamp: u64)
    ensures after { slots.new.items ≡ with_last slots.old.items slot timestamp }
    ensures len { vec_len slots.new ≡ vec_len slots.old }
    ensures capacity { vec_capacity slots.new ≡ vec_capacity slots.old }
{
    if slot < slots.len() {
        let last = slots[slot].last.max(timestamp);
        slots[slot].last = last;
    }
}

/// Whether s is at most the safe time of the slot.
pub fn is_safe_at(transactions: &[KeptTransaction], floor: u64, slot: usize, s: u64) -> bool
    ensures { result
        ≡ (nat_le s floor
        && list_all (λ t. list_all (λ p. not (p.slot == slot) || nat_lt s p.timestamp) t.prepared) transactions.now) }
{
    if s > floor {
        return false;
    }
    are_all_above(transactions, slot, s)
}

fn are_all_above(transactions: &[KeptTransaction], slot: usize, s: u64) -> bool
    ensures { result
        ≡ list_all (λ t. list_all (λ p. not (p.slot == slot) || nat_lt s p.timestamp) t.prepared) transactions.now }
{
    transactions
        .iter()
        .all(|t| are_above(t.preparations(), slot, s))
}

fn are_above(prepared: &[Prepared], slot: usize, s: u64) -> bool
    ensures { result ≡ list_all (λ p. not (p.slot == slot) || nat_lt s p.timestamp) prepared.now }
{
    prepared.iter().all(|p| p.slot != slot || s < p.timestamp)
}

/// The next prepare timestamp of the slot, if there is one left.
pub fn prepare_timestamp(slot_state: &SlotState) -> Option<u64>
    ensures some { IfSome result (λ ts. (ts ≡ prepare_timestamp slot_state.now) × (ts < timestamp_end)) }
    ensures none { IfNone result (timestamp_end ≤ prepare_timestamp slot_state.now) }
{
    let last = slot_state.last.max(slot_state.floor);
    if last >= TIMESTAMP_END - 1 {
        return None;
    }
    Some(last + 1)
}

/// Sets the last timestamp of the slot.
pub fn set_last(slots: &mut Vec<SlotState>, slot: usize, timestamp: u64)
    requires { slot < length slots.old.items }
    ensures after { IfSome (slice_get slots.old.items slot)
        (λ slot_state. slots.new.items ≡ slice_set slots.old.items slot (record slot_state { last = timestamp })) }
    ensures len { vec_len slots.new ≡ vec_len slots.old }
    ensures capacity { vec_capacity slots.new ≡ vec_capacity slots.old }
{
    slots[slot].last = timestamp;
}

/// Sets the floor of the slot.
pub fn set_floor(slots: &mut Vec<SlotState>, slot: usize, floor: u64)
    requires { slot < length slots.old.items }
    ensures after { IfSome (slice_get slots.old.items slot)
        (λ slot_state. slots.new.items ≡ slice_set slots.old.items slot (record slot_state { floor = floor })) }
    ensures len { vec_len slots.new ≡ vec_len slots.old }
    ensures capacity { vec_capacity slots.new ≡ vec_capacity slots.old }
{
    slots[slot].floor = floor;
}

/// Sets the horizon of the slot.
pub fn set_horizon(slots: &mut Vec<SlotState>, slot: usize, h: u64)
    requires { slot < length slots.old.items }
    ensures after { IfSome (slice_get slots.old.items slot)
        (λ slot_state. slots.new.items ≡ slice_set slots.old.items slot (record slot_state { horizon = h })) }
    ensures len { vec_len slots.new ≡ vec_len slots.old }
    ensures capacity { vec_capacity slots.new ≡ vec_capacity slots.old }
{
    slots[slot].horizon = h;
}

/// The floor of the slot once it has risen to s, which it does where the clock has passed s.
pub fn risen_floor(slot_state: &SlotState, s: u64, interval: Interval) -> u64
    ensures { record slot_state.now { floor = result } ≡ with_risen_floor slot_state.now s interval }
{
    if slot_state.floor < s && s <= interval.latest {
        s
    } else {
        slot_state.floor
    }
}

/// The number of the slot whose range has the coded key.
pub fn slot_of(slots: &[SlotState], key: &[u8]) -> Option<usize>
    ensures { result ≡ slot_of slots.now key.now }
{
    slots.iter().position(|slot_state| is_between(&slot_state.lo, &slot_state.hi, key))
}

/// Whether the slot's range begins at the key.
pub fn begins_at(key: &[u8], slot_state: &SlotState) -> bool
    ensures { result ≡ begins_at key.now slot_state.now }
{
    match &slot_state.lo {
        Some(low) => key == low.as_slice(),
        None => false,
    }
}

/// A copy of an end of a range.
fn copy_end(alloc: Global, end: &Option<Key>) -> Result<Option<Key>, AllocError>
    ensures { IfOk result (λ copy. copy ≡ end.now) }
{
    match end {
        Some(key) => Ok(Some(Key::from_slice(alloc, key.as_slice())?)),
        None => Ok(None),
    }
}

/// The state of a slot that has the keys of another one from this key on.
pub fn upper_part(
    alloc: Global,
    slot_state: &SlotState,
    key: &[u8],
) -> Result<SlotState, AllocError>
    ensures { IfOk result (λ upper. upper ≡ record slot_state.now { lo = Some key.now }) }
{
    Ok(SlotState {
        lo: Some(Key::from_slice(alloc, key)?),
        hi: copy_end(alloc, &slot_state.hi)?,
        last: slot_state.last,
        floor: slot_state.floor,
        horizon: slot_state.horizon,
    })
}

/// Cuts the slot at a place: the keys from `upper_bound` on go to the slot of this state, which joins at the end. It
/// takes no memory.
pub fn cut_at(slots: &mut Vec<SlotState>, slot: usize, upper_bound: Key, upper: SlotState)
    requires within { slot < length slots.old.items }
    requires room { vec_len slots.old < vec_capacity slots.old }
    ensures after { IfSome (slice_get slots.old.items slot)
        (λ slot_state.
        slots.new.items ≡ slice_set slots.old.items slot (record slot_state { hi = Some upper_bound }) ++ upper ∷ []) }
    ensures len { vec_len slots.new ≡ vec_len slots.old + 1 }
    ensures capacity { vec_capacity slots.old ≤ vec_capacity slots.new }
{
    set_hi(slots, slot, upper_bound);
    slots.push(upper).unwrap();
}

fn set_hi(slots: &mut Vec<SlotState>, slot: usize, hi: Key)
    requires { slot < length slots.old.items }
    ensures after { IfSome (slice_get slots.old.items slot)
        (λ slot_state. slots.new.items ≡ slice_set slots.old.items slot (record slot_state { hi = Some hi })) }
    ensures len { vec_len slots.new ≡ vec_len slots.old }
    ensures capacity { vec_capacity slots.new ≡ vec_capacity slots.old }
{
    slots[slot].hi = Some(hi);
}
