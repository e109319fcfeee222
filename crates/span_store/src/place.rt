//! The rows at keys.
ghost use Rattle.std.specs.Prelude.{◌≡◌, ◌++◌, All, IfOk, OnOk, map, filter};
ghost use Rattle.std.specs.Option.{option_copied};
ghost use Rattle.span_arena.specs.Content.{IsChain};
ghost use Rattle.span_maderows.specs.Made.{begins_with};
ghost use Rattle.span_store.specs.KeyLists.{AreInOrder, row_now};
ghost use Rattle.span_store.specs.Versions.{row_at};
ghost use Rattle.span_store.specs.Ends.{HasNoRowFrom};
ghost use Rattle.span_store.specs.Stored.{chain_versions};
ghost use Rattle.span_store.specs.Reads.{versions_alone, versions_alone_at};

use super::search::{near_chains, walk_from, walk_under};
use super::store::Store;
use span_arena::arena::Arena;
use span_arena::token::Chain;
use span_keycode::key::Key;
use span_keyindex::near::SEARCH_LANES;
use span_keywalk::walk::Walk;
use span_value::seq::Seq;
use std::alloc::{AllocError, Global};
use std::marker::Model;

/// A key of a store, lent with its versions. Contracts see the key and its versions, and not what is prepared there.
#[derive(Drop)]
pub struct StoredKey<'a> {
    key: &'a [u8],
    chain: Chain,
    arena: &'a Arena,
}

impl<'a> Model for StoredKey<'a> {
    ghost use Rattle.std.specs.Prelude.{None};
    ghost use Rattle.span_arena.specs.Content.{IsChain};
    ghost use Rattle.span_store.specs.KeyVersions.{KeyVersions};
    ghost use Rattle.span_store.specs.Stored.{chain_versions};

    ghost Value = { KeyVersions };

    ghost view = { λ k. record {
      key = k.key.now;
      versions = chain_versions k.arena.now k.chain.number;
      prepared = None;
    } };

    ghost invariant = { λ k. IsChain k.arena.now k.chain.number };
}

impl<'a> StoredKey<'a> {
    /// The key.
    pub fn key(&self) -> &'a [u8]
        ensures { result.now ≡ self.now.key }
    {
        self.key
    }

    /// The row at s, if there is one.
    pub fn row_at(&self, s: u64) -> Option<&'a Seq<u8>>
        ensures { option_copied result ≡ row_at self.now.versions s }
    {
        row_in(self.arena, self.chain, s)
    }
}

/// The row at s of a chain, if there is one.
pub(crate) fn row_in<'a>(arena: &'a Arena, chain: Chain, s: u64) -> Option<&'a Seq<u8>>
    requires { IsChain arena.now chain.number }
    ensures { option_copied result ≡ row_at (chain_versions arena.now chain.number) s }
{
    match arena.newest_at(chain, s) {
        Some(version) => version.image(),
        None => None,
    }
}

/// The row at a key by all that was applied.
pub fn row_now<'a>(store: &'a Store, key: &[u8]) -> Option<&'a Seq<u8>>
    requires { AreInOrder store.now }
    ensures { option_copied result ≡ row_now store.now key.now }
{
    match store.index.find(&store.arena, key) {
        Some(chain) => row_in(&store.arena, chain, u64::MAX),
        None => None,
    }
}

/// As `row_now`, where a chain is handed from `KeyIndex::near`.
pub fn row_near<'a>(store: &'a Store, key: &[u8], near: u32) -> Option<&'a Seq<u8>>
    requires { AreInOrder store.now }
    ensures { option_copied result ≡ row_now store.now key.now }
{
    match store.index.find_near(&store.arena, key, near) {
        Some(chain) => row_in(&store.arena, chain, u64::MAX),
        None => None,
    }
}

/// Chains near keys, for `row_near`.
pub fn near_keys(store: &Store, keys: &[Key]) -> [u32; SEARCH_LANES] {
    near_chains(&store.index, &store.arena, keys)
}

fn push_keys<'a>(
    found: &mut Vec<StoredKey<'a>>,
    arena: &'a Arena,
    walk: Walk<'a>,
) -> Result<(), AllocError>
    requires { All (λ e. IsChain arena.now e.chain.number) walk }
    ensures { OnOk result (found.new.items ≡ found.old.items ++ map (versions_alone_at arena.now) walk.entry) }
{
    let mut walk = walk;
    while let Some((key, chain)) = walk.next() {
        found.push(StoredKey { key, chain, arena })?;
    }
    Ok(())
}

/// Adds the keys that begin with these bytes.
pub fn push_beginning<'a>(
    found: &mut Vec<StoredKey<'a>>,
    store: &'a Store,
    front: &[u8],
) -> Result<(), AllocError>
    ensures { OnOk result
        (found.new.items
        ≡ found.old.items ++ map versions_alone (filter (λ c. begins_with c.key front.now) store.now)) }
{
    push_keys(
        found,
        &store.arena,
        walk_under(&store.index, &store.arena, front),
    )
}

/// A copy of the first key of a store that is not below another.
pub fn first_from(alloc: Global, store: &Store, low: &[u8]) -> Result<Option<Key>, AllocError>
    ensures { IfOk result (λ high. HasNoRowFrom store.now low.now high) }
{
    let mut walk = walk_from(&store.index, &store.arena, low);
    match walk.next() {
        None => Ok(None),
        Some((key, _chain)) => Ok(Some(Key::from_slice(alloc, key)?)),
    }
}
