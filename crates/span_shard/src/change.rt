//! What mutations change of the rows that are in a shard now.
ghost use Rattle.std.specs.Prelude.{◌≡◌, ◌&&◌, [], not, is_some, IfOk, IfErr};
ghost use Rattle.std.specs.List.{find};
ghost use Rattle.std.specs.Option.{option_copied};
ghost use Rattle.span_mutate.specs.Typed.{AreTypedMutations};
ghost use Rattle.span_maderows.specs.Made.{made_at};
ghost use Rattle.span_store.specs.KeyLists.{AreInOrder, row_now};
ghost use Rattle.span_shard.specs.Reading.{is_same_row, AreWrites, IsFault, IsPrepareRefusal};
ghost use Rattle.span_shard.specs.Overlay.{changes_of, AreWrittenFrom, AreWritesAt};

use super::lookups::Lookups;
use super::overlay::Changes;
use super::run::run;
use span_arena::token::NO_CHAIN;
use span_keycode::key::Key;
use span_maderows::made::MadeRows;
use span_mutate::mutation::CheckedMutation;
use span_schema::schema::Schema;
use span_store::store::Store;
use span_store::write::{NearWrite, Write};
use span_value::refusal::Refusal;
use span_value::seq::Seq;
use std::alloc::{AllocError, Global};
use std::collections::BTreeSet;

/// Whether both are no row, or equal rows.
fn is_same_row(left: Option<&Seq<u8>>, right: Option<&Seq<u8>>) -> bool
    ensures { result ≡ is_same_row (option_copied left.entry) (option_copied right.entry) }
{
    match (left, right) {
        (None, None) => true,
        (Some(a), Some(b)) => a.as_slice() == b.as_slice(),
        _ => false,
    }
}

/// Whether what is to be written is another row than the one that is there now. `near` is a chain from `Lookups::near`.
fn is_change(store: &Lookups<'_>, write: &Write, near: u32) -> bool
    requires { AreInOrder store.now }
    ensures { result ≡ not (is_same_row (row_now store.now write.now.key) write.now.row) }
{
    !is_same_row(
        store.row_near(write.key.as_slice(), near),
        write.row.as_ref(),
    )
}

// Whether a row that was removed, and that the write is to remove, is there now with none made in its place.
fn is_removal(store: &Lookups<'_>, made: &MadeRows, write: &Write) -> bool
    requires { AreInOrder store.now }
    ensures { result
        ≡ not (is_some (made_at made.now write.now.key))
        && not (is_same_row (row_now store.now write.now.key) write.now.row) }
{
    made.get(&write.key).is_none() && is_change(store, write, NO_CHAIN)
}

// The writes of the rows that mutations removed and made no other for, of those that are there now.
fn removals(
    alloc: Global,
    store: &Lookups<'_>,
    made: &MadeRows,
    removed: BTreeSet<Key>,
) -> Result<Vec<NearWrite>, AllocError>
    requires { AreInOrder store.now }
    ensures { IfOk result
        (λ ws. AreWrittenFrom store.now (changes_of made.now removed.keys) (changes_of made.now []) ws.items) }
{
    let mut left = removed;
    let mut writes = Vec::new(alloc);
    while let Some(key) = left.pop_last() {
        let write = Write { key, row: None };
        if is_removal(store, made, &write) {
            let near = NO_CHAIN;
            writes.push(NearWrite { write, near })?;
        }
    }
    Ok(writes)
}

/// The writes of the rows that are other rows than those that are there now. They are prepared from the last write to the first: the
/// rows that were made from the first key to the last, so that new keys follow one another.
fn writes_of_changes(
    alloc: Global,
    store: &Lookups<'_>,
    changes: Changes,
) -> Result<Vec<NearWrite>, AllocError>
    requires { AreInOrder store.now }
    ensures { IfOk result (λ ws. AreWritesAt store.now changes ws.items) }
{
    let Changes { made, removed, .. } = changes;
    let mut writes = removals(alloc, store, &made, removed)?;
    let mut left = made.into_left(alloc)?;
    writes.reserve(left.len())?;
    while let Some((key, row, near)) = left.pop() {
        let write = Write {
            key,
            row: Some(row),
        };
        if is_change(store, &write, near) {
            writes.push(NearWrite { write, near })?;
        }
    }
    Ok(writes)
}

/// What the mutations write: of the rows in their directories those that change.
pub(crate) fn writes_of(
    alloc: Global,
    schema: &Schema,
    store: &Store,
    mutations: &[CheckedMutation],
) -> Result<Vec<NearWrite>, Refusal>
    requires order { AreInOrder store.now }
    requires typed { AreTypedMutations schema.now mutations.now }
    ensures ok { IfOk result (λ ws. AreWrites schema.now mutations.now store.now ws.items) }
    ensures fault { IfErr result (λ why. IsFault schema.now mutations.now store.now why) }
    ensures number { IfErr result (λ why. IsPrepareRefusal schema.now mutations.now store.now why) }
{
    schema.meets_rules();
    let lookups = Lookups::new(alloc, schema, store, mutations)?;
    let changes = run(alloc, schema, &lookups, mutations)?;
    Ok(writes_of_changes(alloc, &lookups, changes)?)
}
