//! Whether transactions share a directory.
//!
//! Where the mutations of one side are few, each is held against all of the other. Else the coded keys of one side's
//! directories are put into a set once, and each mutation of the other side is looked up there, so that the time does
//! not grow with the product of both.
ghost use Rattle.std.specs.Prelude.{◌≡◌, ◌&&◌, nat_le, IfSome};
ghost use Rattle.std.specs.List.{list_any, sum_by};
ghost use Rattle.span_machine.specs.Machine.{is_at, root_at, holds, is_prepared_at};
ghost use Rattle.span_transactions.specs.declared.conflict.TheConstants.{FEW_MUTATIONS};
ghost use Rattle.span_transactions.specs.Places.{share_directory_in};
ghost use Rattle.span_transactions.specs.Conflicts.{count_mutations_at, is_in_held_directory, IsRootKey, AreDirectories, AddsDirectory};

use super::slots::holds;
use super::transaction::KeptTransaction;
use super::transactions::is_prepared;
use span_keycode::encode::encode_key;
use span_keycode::key::Key;
use span_machine::slot::SlotState;
use span_mutate::directory::is_in_directory_of;
use span_mutate::mutation::CheckedMutation;
use span_mutate::row::first_values;
use span_schema::schema::Schema;
use std::alloc::Global;
use std::collections::BTreeSet;

/// Up to this many mutations on one side, no set is made: it would take memory, and save no time.
const FEW_MUTATIONS: usize = 8;

/// Whether a transaction that is prepared at the slot has a mutation in a directory of those of these mutations that
/// lie in the slot.
pub fn has_conflict(
    alloc: Global,
    schema: &Schema,
    transactions: &[KeptTransaction],
    slot: usize,
    slot_state: &SlotState,
    mutations: &[CheckedMutation],
) -> bool
    ensures { result
        ≡ list_any
        (λ t. is_prepared_at slot t && share_directory_in schema.now slot_state.now mutations.now t.mutations)
        transactions.now }
{
    if mutations.len() <= FEW_MUTATIONS || have_few_mutations(transactions, slot) {
        return has_conflict_by_pairs(schema, transactions, slot, slot_state, mutations);
    }
    match directories_in(alloc, schema, slot_state, mutations) {
        Some(directories) => has_conflict_by_keys(
            alloc,
            schema,
            transactions,
            slot,
            slot_state,
            &directories,
            mutations,
        ),
        None => has_conflict_by_pairs(schema, transactions, slot, slot_state, mutations),
    }
}

/// Whether the transactions that are prepared at the slot have few mutations together.
#[tactic(auto, using(std::proofs::lemmas::List::Sums::sum_by_more, std::proofs::lemmas::List::Sums::sum_by_more_le))]
fn have_few_mutations(transactions: &[KeptTransaction], slot: usize) -> bool
    ensures { result ≡ nat_le (sum_by (count_mutations_at slot) transactions.now) FEW_MUTATIONS }
{
    let mut count = 0;
    for kept in transactions {
        let more = count_mutations_at(kept, slot);
        if more > FEW_MUTATIONS - count {
            return false;
        }
        count += more;
    }
    true
}

/// How many mutations the transaction has, if it is prepared at the slot.
fn count_mutations_at(transaction: &KeptTransaction, slot: usize) -> usize
    ensures { result ≡ count_mutations_at slot transaction.now }
{
    if !is_prepared(transaction, slot) {
        return 0;
    }
    transaction.mutations().len()
}

/// The same, by each pair of mutations. It takes no memory.
fn has_conflict_by_pairs(
    schema: &Schema,
    transactions: &[KeptTransaction],
    slot: usize,
    slot_state: &SlotState,
    mutations: &[CheckedMutation],
) -> bool
    ensures { result
        ≡ list_any
        (λ t. is_prepared_at slot t && share_directory_in schema.now slot_state.now mutations.now t.mutations)
        transactions.now }
{
    transactions
        .iter()
        .any(|t| is_in_conflict(schema, t, slot, slot_state, mutations))
}

fn is_in_conflict(
    schema: &Schema,
    transaction: &KeptTransaction,
    slot: usize,
    slot_state: &SlotState,
    mutations: &[CheckedMutation],
) -> bool
    ensures { result
        ≡ (is_prepared_at slot transaction.now
        && share_directory_in schema.now slot_state.now mutations.now transaction.now.mutations) }
{
    if !is_prepared(transaction, slot) {
        return false;
    }
    share_directory(schema, slot_state, mutations, transaction.mutations())
}

/// Whether a directory that lies in the slot has mutations of both lists.
fn share_directory(
    schema: &Schema,
    slot_state: &SlotState,
    left: &[CheckedMutation],
    right: &[CheckedMutation],
) -> bool
    ensures { result ≡ share_directory_in schema.now slot_state.now left.now right.now }
{
    left.iter()
        .any(|m| is_in_shared_directory(schema, slot_state, m, right))
}

fn is_in_shared_directory(
    schema: &Schema,
    slot_state: &SlotState,
    mutation: &CheckedMutation,
    others: &[CheckedMutation],
) -> bool
    ensures { result
        ≡ (holds schema.now slot_state.now (root_at schema.now mutation.now)
        && list_any (is_at schema.now (root_at schema.now mutation.now)) others.now) }
{
    if !holds(schema, slot_state, mutation) {
        return false;
    }
    is_any_in_directory_of(schema, mutation, others)
}

fn is_any_in_directory_of(
    schema: &Schema,
    mutation: &CheckedMutation,
    others: &[CheckedMutation],
) -> bool
    ensures { result ≡ list_any (is_at schema.now (root_at schema.now mutation.now)) others.now }
{
    others
        .iter()
        .any(|m| is_in_directory_of(schema, mutation, m))
}

/// The same, by the coded keys of the directories of these mutations that lie in the slot.
fn has_conflict_by_keys(
    alloc: Global,
    schema: &Schema,
    transactions: &[KeptTransaction],
    slot: usize,
    slot_state: &SlotState,
    directories: &BTreeSet<Key>,
    mutations: &[CheckedMutation],
) -> bool
    requires { AreDirectories schema.now slot_state.now mutations.now directories.now.keys }
    ensures { result
        ≡ list_any
        (λ t. is_prepared_at slot t && share_directory_in schema.now slot_state.now mutations.now t.mutations)
        transactions.now }
{
    transactions.iter().any(|t| {
        is_in_conflict_by_keys(alloc, schema, t, slot, slot_state, directories, mutations)
    })
}

fn is_in_conflict_by_keys(
    alloc: Global,
    schema: &Schema,
    transaction: &KeptTransaction,
    slot: usize,
    slot_state: &SlotState,
    directories: &BTreeSet<Key>,
    mutations: &[CheckedMutation],
) -> bool
    requires { AreDirectories schema.now slot_state.now mutations.now directories.now.keys }
    ensures { result
        ≡ (is_prepared_at slot transaction.now
        && share_directory_in schema.now slot_state.now mutations.now transaction.now.mutations) }
{
    if !is_prepared(transaction, slot) {
        return false;
    }
    let others = transaction.mutations();
    share_directory_by_keys(alloc, schema, slot_state, directories, mutations, others)
}

/// Whether a directory that lies in the slot has mutations of both lists, by the coded keys of the directories of those
/// on the left.
fn share_directory_by_keys(
    alloc: Global,
    schema: &Schema,
    slot_state: &SlotState,
    directories: &BTreeSet<Key>,
    left: &[CheckedMutation],
    right: &[CheckedMutation],
) -> bool
    requires { AreDirectories schema.now slot_state.now left.now directories.now.keys }
    ensures { result ≡ share_directory_in schema.now slot_state.now left.now right.now }
{
    is_any_in_directories(alloc, schema, slot_state, directories, left, right)
}

/// Whether one of the mutations is in a directory of the others that lies in the slot.
fn is_any_in_directories(
    alloc: Global,
    schema: &Schema,
    slot_state: &SlotState,
    directories: &BTreeSet<Key>,
    others: &[CheckedMutation],
    mutations: &[CheckedMutation],
) -> bool
    requires { AreDirectories schema.now slot_state.now others.now directories.now.keys }
    ensures { result
        ≡ list_any
        (λ n. list_any (is_in_held_directory schema.now slot_state.now n) others.now)
        mutations.now }
{
    mutations.iter().any(|m| is_in_directories(alloc, schema, slot_state, directories, others, m))
}

/// Whether the mutation is in the directory of one of the others that lies in the slot. Where its own directory has no
/// coded key, or memory for that runs out, it is held against each of the others.
fn is_in_directories(
    alloc: Global,
    schema: &Schema,
    slot_state: &SlotState,
    directories: &BTreeSet<Key>,
    others: &[CheckedMutation],
    mutation: &CheckedMutation,
) -> bool
    requires { AreDirectories schema.now slot_state.now others.now directories.now.keys }
    ensures { result ≡ list_any (is_in_held_directory schema.now slot_state.now mutation.now) others.now }
{
    match encode_root(alloc, schema, mutation) {
        Some(key) => directories.contains(&key),
        None => is_in_directories_by_pairs(schema, slot_state, others, mutation),
    }
}

fn is_in_directories_by_pairs(
    schema: &Schema,
    slot_state: &SlotState,
    others: &[CheckedMutation],
    mutation: &CheckedMutation,
) -> bool
    ensures { result ≡ list_any (is_in_held_directory schema.now slot_state.now mutation.now) others.now }
{
    others
        .iter()
        .any(|m| is_in_held_directory(schema, slot_state, m, mutation))
}

/// Whether the mutation is in the directory of the other one, and that lies in the slot.
fn is_in_held_directory(
    schema: &Schema,
    slot_state: &SlotState,
    other: &CheckedMutation,
    mutation: &CheckedMutation,
) -> bool
    ensures { result ≡ is_in_held_directory schema.now slot_state.now mutation.now other.now }
{
    holds(schema, slot_state, other) && is_in_directory_of(schema, other, mutation)
}

/// The coded keys of the directories of these mutations that lie in the slot. None where one has no coded key, or
/// memory runs out.
fn directories_in(
    alloc: Global,
    schema: &Schema,
    slot_state: &SlotState,
    mutations: &[CheckedMutation],
) -> Option<BTreeSet<Key>>
    ensures { IfSome result (λ directories. AreDirectories schema.now slot_state.now mutations.now directories.keys) }
{
    let mut directories = BTreeSet::new(alloc);
    for mutation in mutations {
        insert_directory(alloc, schema, slot_state, &mut directories, mutation)?;
    }
    Some(directories)
}

/// Adds the directory of the mutation where it lies in the slot.
fn insert_directory(
    alloc: Global,
    schema: &Schema,
    slot_state: &SlotState,
    directories: &mut BTreeSet<Key>,
    mutation: &CheckedMutation,
) -> Option<()>
    ensures { IfSome result
        (λ _. AddsDirectory schema.now slot_state.now mutation.now directories.old.keys directories.new.keys) }
{
    if !holds(schema, slot_state, mutation) {
        return Some(());
    }
    schema.meets_rules();
    let key = encode_root(alloc, schema, mutation)?;
    let Ok(_is_first) = directories.insert(key) else {
        return None;
    };
    Some(())
}

/// The coded key of the root row of the mutation's directory. None where it has none, or memory runs out.
fn encode_root(alloc: Global, schema: &Schema, mutation: &CheckedMutation) -> Option<Key>
    ensures { IfSome result (λ key. IsRootKey schema.now mutation.now key) }
{
    if mutation.table == 0 || mutation.table > schema.len() {
        return None;
    }
    let root = schema.root_of(mutation.table);
    let len = schema.key_columns(root).len();
    match encode_key(
        alloc,
        schema,
        root,
        first_values(mutation.key.as_slice(), len),
    ) {
        Ok(key) => Some(key),
        Err(_) => None,
    }
}
