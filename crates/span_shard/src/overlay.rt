//! The rows at keys as mutations leave them, over those that are there now.
ghost use Rattle.std.specs.Prelude.{◌≡◌, map, filter, is_none, is_some, IfOk, OnOk};
ghost use Rattle.std.specs.Option.{option_copied};
ghost use Rattle.span_maderows.specs.Made.{made_at};
ghost use Rattle.span_store.specs.KeyLists.{AreInOrder};
ghost use Rattle.span_shard.specs.Overlay.{no_change, changed_at, row_over, row_under, is_unchanged, AreCleared, HasSameCleared, AddsCleared, AreUnder, AreUnchangedUnder, IsPutAt, AreRemoved};

use super::lookups::Lookups;
use span_keycode::key::Key;
use span_maderows::made::MadeRows;
use span_store::place::StoredKey;
use span_value::seq::Seq;
use std::alloc::{AllocError, Global};
use std::collections::BTreeSet;
use std::marker::Model;

/// What mutations make of the rows of a store.
#[derive(Drop)]
pub(crate) struct Changes {
    /// By coded keys, the packed rows that mutations made.
    pub(crate) made: MadeRows,
    /// Keys at which mutations removed a row. Where the key is in `made` too, they made one since.
    pub(crate) removed: BTreeSet<Key>,
    /// Keys at which a row was deleted with all below it. No row of the store is left there as it was, so that the next deletion there
    /// looks at `made` alone.
    cleared: BTreeSet<Key>,
}

impl Model for Changes {
    ghost use Rattle.span_shard.specs.Overlay as specs;

    ghost Value = { specs.Changes };

    ghost view = { λ c. record { made = c.made; removed = c.removed.keys; cleared = c.cleared.keys } };
}

impl Changes {
    /// No change, with memory for the rows that as many mutations make. `AllocError`: memory ran out.
    pub(crate) fn with_capacity(alloc: Global, count: usize) -> Result<Changes, AllocError>
        ensures { IfOk result (λ changes. changes ≡ no_change) }
    {
        Ok(Changes {
            made: MadeRows::with_capacity(alloc, count)?,
            removed: BTreeSet::new(alloc),
            cleared: BTreeSet::new(alloc),
        })
    }

    // Whether mutations changed the row at a key.
    fn has(&self, key: &Key) -> bool
        ensures { result ≡ is_some (changed_at self.now key.now) }
    {
        self.made.get(key).is_some() || self.removed.contains(key)
    }

    /// Leaves a row at a key. `near` is a chain from `Lookups::near`.
    pub(crate) fn put(&mut self, key: Key, row: Seq<u8>, near: u32) -> Result<(), AllocError>
        ensures put { OnOk result (IsPutAt key row self.old self.new) }
        ensures cleared { OnOk result (HasSameCleared self.old self.new) }
    {
        let _absent = self.made.insert(key, row, near)?;
        Ok(())
    }

    /// Leaves a row at a key. Whether mutations had made none there is returned. It takes one search.
    pub(crate) fn add(&mut self, key: Key, row: Seq<u8>, near: u32) -> Result<bool, AllocError>
        ensures absent { IfOk result (λ absent. absent ≡ is_none (made_at self.old.made key)) }
        ensures put { OnOk result (IsPutAt key row self.old self.new) }
        ensures cleared { OnOk result (HasSameCleared self.old self.new) }
    {
        self.made.insert(key, row, near)
    }

    // Leaves no row at these keys.
    fn remove(&mut self, alloc: Global, keys: Vec<Key>) -> Result<(), AllocError>
        ensures removed { OnOk result (AreRemoved self.old keys.items self.new) }
        ensures cleared { OnOk result (HasSameCleared self.old self.new) }
    {
        for key in keys {
            self.made.remove(alloc, &key)?;
            let _is_first = self.removed.insert(key)?;
        }
        Ok(())
    }

    /// Leaves no row at these keys, all those with a row that begin with `front`.
    pub(crate) fn clear(
        &mut self,
        alloc: Global,
        front: Key,
        keys: Vec<Key>,
    ) -> Result<(), AllocError>
        ensures removed { OnOk result (AreRemoved self.old keys.items self.new) }
        ensures cleared { OnOk result (AddsCleared front self.old self.new) }
    {
        self.remove(alloc, keys)?;
        let _is_first = self.cleared.insert(front)?;
        Ok(())
    }
}

/// The row at a key at which the mutations made none: none where they removed one, and else what is there now. `near` is a chain from
/// `Lookups::near`.
pub(crate) fn row_under<'a>(
    store: &'a Lookups<'a>,
    changes: &'a Changes,
    key: &Key,
    near: u32,
) -> Option<&'a Seq<u8>>
    requires { AreInOrder store.now }
    ensures { option_copied result ≡ row_under store.now changes.now key.now }
{
    if changes.removed.contains(key) {
        return None;
    }
    store.row_near(key.as_slice(), near)
}

/// The row at a key: what the mutations left there, and else what is there now.
fn row_over<'a>(store: &'a Lookups<'a>, changes: &'a Changes, key: &Key) -> Option<&'a Seq<u8>>
    requires { AreInOrder store.now }
    ensures { option_copied result ≡ row_over store.now changes.now key.now }
{
    match changes.made.get(key) {
        Some(row) => Some(row.row()),
        None if changes.removed.contains(key) => None,
        None => store.row_now(key.as_slice()),
    }
}

/// The same, where the search in the store begins at `near`, a chain from `Lookups::near`.
pub(crate) fn row_over_near<'a>(
    store: &'a Lookups<'a>,
    changes: &'a Changes,
    key: &Key,
    near: u32,
) -> Option<&'a Seq<u8>>
    requires { AreInOrder store.now }
    ensures { option_copied result ≡ row_over store.now changes.now key.now }
{
    match changes.made.get(key) {
        Some(made) => Some(made.row()),
        None => row_under(store, changes, key, near),
    }
}

/// Whether a key has a row.
pub(crate) fn has_row(store: &Lookups<'_>, changes: &Changes, key: &Key) -> bool
    requires { AreInOrder store.now }
    ensures { result ≡ is_some (row_over store.now changes.now key.now) }
{
    row_over(store, changes, key).is_some()
}

// Whether a key of the store has a row now, which no mutation changed.
fn is_unchanged(changes: &Changes, found: &StoredKey<'_>, key: &Key) -> bool
    requires { key.now ≡ found.now.key }
    ensures { result ≡ is_unchanged changes.now found.now }
{
    !changes.has(key) && found.row_at(u64::MAX).is_some()
}

fn unchanged_keys(
    alloc: Global,
    changes: &Changes,
    found: &[StoredKey<'_>],
) -> Result<Vec<Key>, AllocError>
    ensures { IfOk result
        (λ keys. keys.items ≡ map (λ c. c.key) (filter (is_unchanged changes.now) found.now)) }
{
    let mut keys = Vec::new(alloc);
    for stored in found {
        let key = Key::from_slice(alloc, stored.key())?;
        if is_unchanged(changes, stored, &key) {
            keys.push(key)?;
        }
    }
    Ok(keys)
}

// The keys of the store that begin with `front`, with a row that no mutation changed.
fn unchanged_under(
    alloc: Global,
    store: &Lookups<'_>,
    changes: &Changes,
    front: &Key,
) -> Result<Vec<Key>, AllocError>
    requires order { AreInOrder store.now }
    requires cleared { AreCleared store.now changes.now }
    ensures { IfOk result (λ keys. AreUnchangedUnder store.now changes.now front.now keys.items) }
{
    if changes.cleared.contains(front) {
        return Ok(Vec::new(alloc));
    }
    let mut found = Vec::new(alloc);
    store.push_beginning(&mut found, front.as_slice())?;
    unchanged_keys(alloc, changes, found.as_slice())
}

/// The keys with a row that begin with `front`.
pub(crate) fn keys_under(
    alloc: Global,
    store: &Lookups<'_>,
    changes: &mut Changes,
    front: &Key,
) -> Result<Vec<Key>, AllocError>
    requires order { AreInOrder store.now }
    requires cleared { AreCleared store.now changes.old }
    ensures keys { IfOk result (λ keys. AreUnder store.now changes.old front.now keys.items) }
    ensures same { OnOk result (changes.new ≡ changes.old) }
{
    let mut keys = unchanged_under(alloc, store, changes, front)?;
    changes.made.push_keys(alloc, &mut keys, front)?;
    Ok(keys)
}
