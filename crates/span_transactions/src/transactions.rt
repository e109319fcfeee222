//! Finding open transactions, and what is noted of them.
ghost use Rattle.std.specs.Prelude.{◌≡◌, ◌<◌, ◌+◌, ◌≤◌, ◌&&◌, ◌||◌, ◌==◌, not, true, false, length, position, None, Some, IfOk, IfErr, remove, if◌then◌else◌, count_by, find, slice_get, slice_set, IfSome, IfNone};
ghost use Rattle.std.specs.List.{list_any};
ghost use Rattle.span_machine.specs.Machine.{is_undecided, is_transaction, is_prepared_at, with_decision, commit_of, add_prepared, without_prepared, apply_refusal};
ghost use Rattle.span_machine.specs.Limits.{most_slots};
ghost use Rattle.span_machine.specs.Place.{IsPlace};
ghost use Rattle.span_transactions.specs.States.{decision_of, has_wrong_state};

use super::commit::KeptCommit;
use super::transaction::KeptTransaction;
use span_machine::transaction::{Decision, Prepared};
use span_truetime::interval::Interval;
use span_value::refusal::Refusal;

/// How many transactions are undecided.
#[tactic(auto, using(std::proofs::lemmas::List::Sums::count_by_more_yes, std::proofs::lemmas::List::Sums::count_by_more_no))]
pub fn count_undecided(transactions: &[KeptTransaction]) -> usize
    ensures { result ≡ count_by is_undecided transactions.now }
{
    let mut undecided = 0;
    for kept in transactions {
        if kept.is_undecided() {
            undecided += 1;
        }
    }
    undecided
}

fn transaction_index(transactions: &[KeptTransaction], owner: u64, number: u64) -> Option<usize>
    ensures { result ≡ position (is_transaction owner number) transactions.now }
{
    transactions
        .iter()
        .position(|t| t.owner() == owner && t.number() == number)
}

/// The transaction of this owner and number, and its place.
pub fn find_transaction(
    transactions: &[KeptTransaction],
    owner: u64,
    number: u64,
) -> Option<(usize, &KeptTransaction)>
    ensures none { IfNone result (find (is_transaction owner number) transactions.now ≡ None) }
    ensures some { IfSome result (λ r. IsPlace (is_transaction owner number) transactions.now r.0 r.1.now) }
{
    match transaction_index(transactions, owner, number) {
        Some(at) => Some((at, &transactions[at])),
        None => None,
    }
}

/// Whether the transaction is prepared at the slot.
pub fn is_prepared(transaction: &KeptTransaction, slot: usize) -> bool
    ensures { result ≡ is_prepared_at slot transaction.now }
{
    transaction.preparations().iter().any(|p| p.slot == slot)
}

/// How many transactions are prepared at the slot.
#[tactic(auto, using(std::proofs::lemmas::List::Sums::count_by_more_yes, std::proofs::lemmas::List::Sums::count_by_more_no))]
pub fn count_prepared(transactions: &[KeptTransaction], slot: usize) -> usize
    ensures { result ≡ count_by (is_prepared_at slot) transactions.now }
{
    let mut prepared = 0;
    for kept in transactions {
        if is_prepared(kept, slot) {
            prepared += 1;
        }
    }
    prepared
}

/// Whether a transaction is prepared at the slot.
pub fn is_any_prepared(transactions: &[KeptTransaction], slot: usize) -> bool
    ensures { result ≡ list_any (is_prepared_at slot) transactions.now }
{
    transactions.iter().any(|t| is_prepared(t, slot))
}

/// Commits the transaction at a place.
pub fn commit_at(transactions: &mut Vec<KeptTransaction>, at: usize, timestamp: u64) -> KeptCommit
    requires within { at < length transactions.old.items }
    requires open { IfSome (slice_get transactions.old.items at) (λ t. is_undecided t ≡ true) }
    ensures commit { IfSome (slice_get transactions.old.items at) (λ t. result ≡ commit_of timestamp t) }
    ensures after { IfSome (slice_get transactions.old.items at)
        (λ t.
        transactions.new.items ≡ slice_set transactions.old.items at (with_decision (Decision.Committed timestamp) t)) }
    ensures fewer { count_by is_undecided transactions.new.items + 1 ≡ count_by is_undecided transactions.old.items }
{
    transactions[at].commit(timestamp)
}

/// Aborts the transaction at a place.
pub fn abort_at(transactions: &mut Vec<KeptTransaction>, at: usize)
    requires { at < length transactions.old.items }
    ensures after { IfSome (slice_get transactions.old.items at)
        (λ t. transactions.new.items ≡ slice_set transactions.old.items at (with_decision Decision.Aborted t)) }
    ensures fewer { count_by is_undecided transactions.new.items ≤ count_by is_undecided transactions.old.items }
{
    transactions[at].abort();
}

/// Notes that the transaction at a place is prepared at the slot no more.
fn remove_prepared_at(transactions: &mut Vec<KeptTransaction>, at: usize, slot: usize)
    requires { at < length transactions.old.items }
    ensures after { IfSome (slice_get transactions.old.items at)
        (λ t. transactions.new.items ≡ slice_set transactions.old.items at (without_prepared slot t)) }
    ensures fewer { count_by is_undecided transactions.new.items ≤ count_by is_undecided transactions.old.items }
{
    transactions[at].remove_prepared(slot);
}

/// Ends what the transaction at a place has at the slot: it is prepared there no more, and leaves once it is prepared
/// nowhere.
pub fn end_prepared_at(transactions: &mut Vec<KeptTransaction>, at: usize, slot: usize)
    requires { at < length transactions.old.items }
    ensures after { IfSome (slice_get transactions.old.items at)
        (λ t.
        transactions.new.items
        ≡ (if length (without_prepared slot t).prepared == 0
        then remove transactions.old.items at
        else slice_set transactions.old.items at (without_prepared slot t))) }
    ensures fewer { count_by is_undecided transactions.new.items ≤ count_by is_undecided transactions.old.items }
{
    if is_prepared_elsewhere(&transactions[at], slot) {
        remove_prepared_at(transactions, at, slot);
    } else {
        remove_at(transactions, at);
    }
}

/// Notes where the transaction at a place is prepared. It takes no memory.
pub fn add_prepared_at(transactions: &mut Vec<KeptTransaction>, at: usize, prepared: Prepared)
    requires within { at < length transactions.old.items }
    requires slot { prepared.slot < most_slots }
    requires apart { IfSome (slice_get transactions.old.items at) (λ t. is_prepared_at prepared.slot t ≡ false) }
    ensures after { IfSome (slice_get transactions.old.items at)
        (λ t.
        transactions.new.items
        ≡ slice_set transactions.old.items at (add_prepared prepared.slot prepared.timestamp t)) }
    ensures fewer { count_by is_undecided transactions.new.items ≤ count_by is_undecided transactions.old.items }
{
    transactions[at].add_prepared(prepared);
}

/// Takes the transaction at a place away.
pub fn remove_at(transactions: &mut Vec<KeptTransaction>, at: usize)
    requires { at < length transactions.old.items }
    ensures after { transactions.new.items ≡ remove transactions.old.items at }
    ensures fewer { count_by is_undecided transactions.new.items ≤ count_by is_undecided transactions.old.items }
{
    let _ = transactions.remove(at);
}

/// Whether the transaction is in a state to be prepared at the slot: undecided, and not prepared there.
pub fn may_prepare(transaction: &KeptTransaction, slot: usize) -> bool
    ensures { result ≡ not (has_wrong_state slot transaction.now) }
{
    if !transaction.is_undecided() {
        return false;
    }
    !is_prepared(transaction, slot)
}

/// Whether the transaction is prepared at another slot.
fn is_prepared_elsewhere(transaction: &KeptTransaction, slot: usize) -> bool
    ensures { result ≡ not (length (without_prepared slot transaction.now).prepared == 0) }
{
    has_other_slot(transaction.preparations(), slot)
}

/// The commit timestamp of a transaction that may be applied at the slot, or None for an aborted one, or why it may
/// not.
pub fn check_apply(
    transaction: &KeptTransaction,
    slot: usize,
    interval: Interval,
) -> Result<Option<u64>, Refusal>
    ensures accepted { IfOk result
        (λ committed.
        (apply_refusal slot transaction.now interval ≡ None)
        × (transaction.now.decision ≡ decision_of committed)) }
    ensures refused { IfErr result (λ why. apply_refusal slot transaction.now interval ≡ Some why) }
{
    if transaction.is_undecided() {
        return Err(Refusal::WrongState);
    }
    if !is_prepared(transaction, slot) {
        return Err(Refusal::WrongState);
    }
    match transaction.decision() {
        Decision::Committed(timestamp) => {
            if !interval.after(timestamp) {
                return Err(Refusal::TooEarly);
            }
            Ok(Some(timestamp))
        }
        _ => Ok(None),
    }
}

fn has_other_slot(prepared: &[Prepared], slot: usize) -> bool
    ensures { result ≡ list_any (λ p. not (p.slot == slot)) prepared.now }
{
    prepared.iter().any(|p| p.slot != slot)
}
