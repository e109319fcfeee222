//! Rows of a store that are looked up for one transaction.
ghost use Rattle.std.specs.Prelude.{◌≡◌, ◌++◌, IfOk, OnOk, map, filter};
ghost use Rattle.std.specs.Option.{option_copied};
ghost use Rattle.span_mutate.specs.Typed.{AreTypedMutations, IsTypedMutation};
ghost use Rattle.span_maderows.specs.Made.{begins_with};
ghost use Rattle.span_store.specs.Ends.{HasNoRowFrom, is_before_end, is_from_to};
ghost use Rattle.span_shard.specs.EmptyRanges.{is_in_empty, is_in_range};
ghost use Rattle.span_store.specs.Reads.{versions_alone};
ghost use Rattle.span_store.specs.KeyLists.{AreInOrder, row_now};

use span_keycode::compare::order_of_bytes;
use span_keycode::encode::encode_key;
use span_keycode::key::Key;
use span_keyindex::near::SEARCH_LANES;
use span_mutate::mutation::CheckedMutation;
use span_schema::schema::Schema;
use span_store::place::{StoredKey, first_from, near_keys, push_beginning, row_near, row_now};
use span_store::store::Store;
use span_value::seq::Seq;
use std::alloc::{AllocError, Global};
use std::marker::Model;

/// A range of keys in which a store has no row: from `low` on, and before `high` where there is one.
#[derive(Drop)]
struct EmptyRange {
    low: Key,
    high: Option<Key>,
}

/// A store whose rows are looked up for a transaction. Contracts see the store.
///
/// A transaction that makes rows has most of its keys between two keys of the store, or after all. So the range from its
/// first key to the next one of the store is kept: a key in it is known to have no row by two comparisons, where a search
/// takes one for each level of the tree.
#[derive(Drop)]
pub(crate) struct Lookups<'a> {
    store: &'a Store,
    empty: Option<EmptyRange>,
}

impl<'a> Model for Lookups<'a> {
    ghost use Rattle.std.specs.Prelude.{List};
    ghost use Rattle.span_store.specs.KeyVersions.{KeyVersions};
    ghost use Rattle.span_shard.specs.EmptyRanges.{HasNoRowIn};

    ghost Value = { List KeyVersions };

    ghost view = { λ l. l.store.now };

    ghost invariant = { λ l. HasNoRowIn l.store.now l.empty };
}

impl<'a> Lookups<'a> {
    /// Look-ups for mutations. It takes memory only for the ends of a range that are long keys.
    pub(crate) fn new(
        alloc: Global,
        schema: &Schema,
        store: &'a Store,
        mutations: &[CheckedMutation],
    ) -> Result<Lookups<'a>, AllocError>
        requires { AreTypedMutations schema.now mutations.now }
        ensures { IfOk result (λ l. l ≡ store.now) }
    {
        schema.meets_rules();
        // The range of a single mutation would take a search of its own.
        if mutations.len() > 1 {
            let first = &mutations[0];
            if let Some(low) = key_of(alloc, schema, first) {
                return Lookups::from_key(alloc, store, low);
            }
        }
        Ok(Lookups { store, empty: None })
    }

    // Look-ups most of which are from this key on, up to the next one of the store.
    fn from_key(alloc: Global, store: &'a Store, low: Key) -> Result<Lookups<'a>, AllocError>
        ensures { IfOk result (λ l. l ≡ store.now) }
    {
        let high = first_from(alloc, store, low.as_slice())?;
        Ok(Lookups {
            store,
            empty: Some(EmptyRange { low, high }),
        })
    }

    /// Adds the keys of the store that begin with these bytes.
    pub(crate) fn push_beginning(
        &self,
        found: &mut Vec<StoredKey<'a>>,
        front: &[u8],
    ) -> Result<(), AllocError>
        ensures { OnOk result
            (found.new.items
            ≡ found.old.items ++ map versions_alone (filter (λ c. begins_with c.key front.now) self.now)) }
    {
        push_beginning(found, self.store, front)
    }

    /// The row at a key by all that was applied.
    pub(crate) fn row_now(&self, key: &[u8]) -> Option<&'a Seq<u8>>
        requires { AreInOrder self.now }
        ensures { option_copied result ≡ row_now self.now key.now }
    {
        if is_in_empty(&self.empty, key) {
            return None;
        }
        row_now(self.store, key)
    }

    /// As `row_now`, where a chain is handed from `near`.
    pub(crate) fn row_near(&self, key: &[u8], near: u32) -> Option<&'a Seq<u8>>
        requires { AreInOrder self.now }
        ensures { option_copied result ≡ row_now self.now key.now }
    {
        if is_in_empty(&self.empty, key) {
            return None;
        }
        row_near(self.store, key, near)
    }

    /// Chains near keys, for `row_near`.
    pub(crate) fn near(&self, keys: &[Key]) -> [u32; SEARCH_LANES] {
        near_keys(self.store, keys)
    }

    /// Whether a key is known to have no row without a search.
    pub(crate) fn is_known_absent(&self, key: &[u8]) -> bool {
        is_in_empty(&self.empty, key)
    }
}

// The coded key of a mutation; None where it is long and memory ran out.
pub(crate) fn key_of(alloc: Global, schema: &Schema, mutation: &CheckedMutation) -> Option<Key>
    requires { IsTypedMutation schema.now mutation.now }
{
    encode_key(alloc, schema, mutation.table, mutation.key.as_slice()).ok()
}

fn is_in_empty(empty: &Option<EmptyRange>, key: &[u8]) -> bool
    ensures { result ≡ is_in_empty empty.now key.now }
{
    match empty {
        None => false,
        Some(range) => is_in_range(range, key),
    }
}

fn is_in_range(range: &EmptyRange, key: &[u8]) -> bool
    ensures { result ≡ is_in_range range.now key.now }
{
    !order_of_bytes(key, range.low.as_slice()).is_lt() && is_before_end(&range.high, key)
}

fn is_before_end(end: &Option<Key>, key: &[u8]) -> bool
    ensures { result ≡ is_before_end end.now key.now }
{
    match end {
        None => true,
        Some(end) => order_of_bytes(key, end.as_slice()).is_lt(),
    }
}
