//! Searches in the index, whose steps nobody reads here: each is handed a new count.
ghost use Rattle.std.specs.Prelude.{◌≡◌, All, IfErr, IfOk, OnErr, map};
ghost use Rattle.span_arena.specs.Content.{IsChain};
ghost use Rattle.span_keytree.specs.Entries.{IsRising, IsSlotFor, entries_from, entries_in, entries_under};
ghost use Rattle.span_keyindex.specs.Indexes.{IsIndexOf, entries_of};
ghost use Rattle.span_keyindex.specs.Splits.{IsPartFrom};
ghost use Rattle.span_store.specs.Ledgers.{Opens};

use span_arena::arena::Arena;
use span_arena::steps::Steps;
use span_arena::token::{Chain, NO_CHAIN};
use span_keycode::key::Key;
use span_keycode::range::KeyRange;
use span_keyindex::index::KeyIndex;
use span_keyindex::near::SEARCH_LANES;
use span_keywalk::chains::Chains;
use span_keywalk::walk::Walk;
use span_value::refusal::Refusal;
use std::alloc::Global;
use std::marker::Brand;
use std::sync::ledger::{Blank, Ledger};

/// The chain of a key: its own, or a new one. `Refusal::OutOfMemory` leaves all as it was.
fn slot_for(index: &mut KeyIndex, arena: &mut Arena, key: Key) -> Result<Chain, Refusal>
    requires { IsIndexOf index.old arena.old }
    ensures ok { IfOk result
        (IsSlotFor (entries_of index.old arena.old) (entries_of index.new arena.new) arena.old arena.new key) }
    ensures chain { IfOk result (λ chain. IsChain arena.new chain.number) }
    ensures index { OnErr result (index.new ≡ index.old) }
    ensures arena { OnErr result (arena.new ≡ arena.old) }
    ensures memory { IfErr result (λ why. why ≡ Refusal.OutOfMemory) }
    ensures own { IsIndexOf index.new arena.new }
{
    counted_slot_for::<Brand, Brand>(index, arena, key, Blank::new(1), Blank::new(1))
}

fn counted_slot_for<C: Ledger, W: Ledger>(
    index: &mut KeyIndex,
    arena: &mut Arena,
    key: Key,
    compared: Blank,
    written: Blank,
) -> Result<Chain, Refusal>
    requires own { IsIndexOf index.old arena.old }
    requires opens_compared { Opens C.name C.parts compared.name compared.parts }
    requires opens_written { Opens W.name W.parts written.name written.parts }
    ensures ok { IfOk result
        (IsSlotFor (entries_of index.old arena.old) (entries_of index.new arena.new) arena.old arena.new key) }
    ensures chain { IfOk result (λ chain. IsChain arena.new chain.number) }
    ensures index { OnErr result (index.new ≡ index.old) }
    ensures arena { OnErr result (arena.new ≡ arena.old) }
    ensures memory { IfErr result (λ why. why ≡ Refusal.OutOfMemory) }
    ensures own { IsIndexOf index.new arena.new }
{
    let mut steps: Steps<C, W> = Steps::new(compared, written);
    index.slot_for(arena, key, &mut steps)
}

/// As `slot_for`, where a chain is handed from `near_chains`.
pub(crate) fn slot_near(
    index: &mut KeyIndex,
    arena: &mut Arena,
    key: Key,
    near: u32,
) -> Result<Chain, Refusal>
    requires { IsIndexOf index.old arena.old }
    ensures ok { IfOk result
        (IsSlotFor (entries_of index.old arena.old) (entries_of index.new arena.new) arena.old arena.new key) }
    ensures chain { IfOk result (λ chain. IsChain arena.new chain.number) }
    ensures index { OnErr result (index.new ≡ index.old) }
    ensures arena { OnErr result (arena.new ≡ arena.old) }
    ensures memory { IfErr result (λ why. why ≡ Refusal.OutOfMemory) }
    ensures own { IsIndexOf index.new arena.new }
{
    match index.chain_at(arena, key.as_slice(), near) {
        Some(chain) => Ok(chain),
        None if near == NO_CHAIN => slot_for(index, arena, key),
        None => put_near(index, arena, key, near),
    }
}

fn put_near(index: &mut KeyIndex, arena: &mut Arena, key: Key, near: u32) -> Result<Chain, Refusal>
    requires { IsIndexOf index.old arena.old }
    ensures ok { IfOk result
        (IsSlotFor (entries_of index.old arena.old) (entries_of index.new arena.new) arena.old arena.new key) }
    ensures chain { IfOk result (λ chain. IsChain arena.new chain.number) }
    ensures index { OnErr result (index.new ≡ index.old) }
    ensures arena { OnErr result (arena.new ≡ arena.old) }
    ensures memory { IfErr result (λ why. why ≡ Refusal.OutOfMemory) }
    ensures own { IsIndexOf index.new arena.new }
{
    counted_put_near::<Brand, Brand>(index, arena, key, near, Blank::new(1), Blank::new(1))
}

fn counted_put_near<C: Ledger, W: Ledger>(
    index: &mut KeyIndex,
    arena: &mut Arena,
    key: Key,
    near: u32,
    compared: Blank,
    written: Blank,
) -> Result<Chain, Refusal>
    requires own { IsIndexOf index.old arena.old }
    requires opens_compared { Opens C.name C.parts compared.name compared.parts }
    requires opens_written { Opens W.name W.parts written.name written.parts }
    ensures ok { IfOk result
        (IsSlotFor (entries_of index.old arena.old) (entries_of index.new arena.new) arena.old arena.new key) }
    ensures chain { IfOk result (λ chain. IsChain arena.new chain.number) }
    ensures index { OnErr result (index.new ≡ index.old) }
    ensures arena { OnErr result (arena.new ≡ arena.old) }
    ensures memory { IfErr result (λ why. why ≡ Refusal.OutOfMemory) }
    ensures own { IsIndexOf index.new arena.new }
{
    let mut steps: Steps<C, W> = Steps::new(compared, written);
    index.slot_near(arena, key, near, &mut steps)
}

/// Chains near up to 16 keys.
pub(crate) fn near_chains(index: &KeyIndex, arena: &Arena, keys: &[Key]) -> [u32; SEARCH_LANES]
    requires { IsIndexOf index.now arena.now }
{
    counted_near_chains::<Brand, Brand>(index, arena, keys, Blank::new(1), Blank::new(1))
}

fn counted_near_chains<C: Ledger, W: Ledger>(
    index: &KeyIndex,
    arena: &Arena,
    keys: &[Key],
    compared: Blank,
    written: Blank,
) -> [u32; SEARCH_LANES]
    requires own { IsIndexOf index.now arena.now }
    requires opens_compared { Opens C.name C.parts compared.name compared.parts }
    requires opens_written { Opens W.name W.parts written.name written.parts }
{
    let mut steps: Steps<C, W> = Steps::new(compared, written);
    index.near(arena, keys, &mut steps)
}

/// The keys of a range with their chains, in order of the keys.
pub(crate) fn walk<'a>(index: &'a KeyIndex, arena: &'a Arena, range: &KeyRange) -> Walk<'a>
    requires { IsIndexOf index.now arena.now }
    ensures entries { result ≡ entries_in range.now (entries_of index.now arena.now) }
    ensures chains { All (λ e. IsChain arena.now e.chain.number) result }
{
    counted_walk::<Brand, Brand>(index, arena, range, Blank::new(1), Blank::new(1))
}

fn counted_walk<'a, C: Ledger, W: Ledger>(
    index: &'a KeyIndex,
    arena: &'a Arena,
    range: &KeyRange,
    compared: Blank,
    written: Blank,
) -> Walk<'a>
    requires own { IsIndexOf index.now arena.now }
    requires opens_compared { Opens C.name C.parts compared.name compared.parts }
    requires opens_written { Opens W.name W.parts written.name written.parts }
    ensures entries { result ≡ entries_in range.now (entries_of index.now arena.now) }
    ensures chains { All (λ e. IsChain arena.now e.chain.number) result }
{
    let mut steps: Steps<C, W> = Steps::new(compared, written);
    index.walk(arena, range, &mut steps)
}

/// The keys that begin with these bytes, with their chains, in order of the keys.
pub(crate) fn walk_under<'a>(index: &'a KeyIndex, arena: &'a Arena, front: &[u8]) -> Walk<'a>
    requires { IsIndexOf index.now arena.now }
    ensures entries { result ≡ entries_under front.now (entries_of index.now arena.now) }
    ensures chains { All (λ e. IsChain arena.now e.chain.number) result }
{
    counted_walk_under::<Brand, Brand>(index, arena, front, Blank::new(1), Blank::new(1))
}

fn counted_walk_under<'a, C: Ledger, W: Ledger>(
    index: &'a KeyIndex,
    arena: &'a Arena,
    front: &[u8],
    compared: Blank,
    written: Blank,
) -> Walk<'a>
    requires own { IsIndexOf index.now arena.now }
    requires opens_compared { Opens C.name C.parts compared.name compared.parts }
    requires opens_written { Opens W.name W.parts written.name written.parts }
    ensures entries { result ≡ entries_under front.now (entries_of index.now arena.now) }
    ensures chains { All (λ e. IsChain arena.now e.chain.number) result }
{
    let mut steps: Steps<C, W> = Steps::new(compared, written);
    index.walk_under(arena, front, &mut steps)
}

/// The keys from `key` on with their chains, in order of the keys.
pub(crate) fn walk_from<'a>(index: &'a KeyIndex, arena: &'a Arena, key: &[u8]) -> Walk<'a>
    requires { IsIndexOf index.now arena.now }
    ensures entries { result ≡ entries_from key.now (entries_of index.now arena.now) }
    ensures rising { IsRising (entries_of index.now arena.now) }
{
    counted_walk_from::<Brand, Brand>(index, arena, key, Blank::new(1), Blank::new(1))
}

fn counted_walk_from<'a, C: Ledger, W: Ledger>(
    index: &'a KeyIndex,
    arena: &'a Arena,
    key: &[u8],
    compared: Blank,
    written: Blank,
) -> Walk<'a>
    requires own { IsIndexOf index.now arena.now }
    requires opens_compared { Opens C.name C.parts compared.name compared.parts }
    requires opens_written { Opens W.name W.parts written.name written.parts }
    ensures entries { result ≡ entries_from key.now (entries_of index.now arena.now) }
    ensures rising { IsRising (entries_of index.now arena.now) }
{
    let mut steps: Steps<C, W> = Steps::new(compared, written);
    index.walk_from(arena, key, &mut steps)
}

/// The chains of the keys from `key` on, in order of the keys.
pub(crate) fn chains_from<'a>(index: &'a KeyIndex, arena: &Arena, key: &[u8]) -> Chains<'a>
    requires { IsIndexOf index.now arena.now }
    ensures { result ≡ map (λ e. e.chain) (entries_from key.now (entries_of index.now arena.now)) }
{
    counted_chains_from::<Brand, Brand>(index, arena, key, Blank::new(1), Blank::new(1))
}

fn counted_chains_from<'a, C: Ledger, W: Ledger>(
    index: &'a KeyIndex,
    arena: &Arena,
    key: &[u8],
    compared: Blank,
    written: Blank,
) -> Chains<'a>
    requires own { IsIndexOf index.now arena.now }
    requires opens_compared { Opens C.name C.parts compared.name compared.parts }
    requires opens_written { Opens W.name W.parts written.name written.parts }
    ensures { result ≡ map (λ e. e.chain) (entries_from key.now (entries_of index.now arena.now)) }
{
    let mut steps: Steps<C, W> = Steps::new(compared, written);
    index.chains_from(arena, key, &mut steps)
}

/// The keys from `key` on in an index with an arena of its own, with new chains. The refusal is `OutOfMemory`.
pub(crate) fn split_at(
    alloc: Global,
    index: &KeyIndex,
    arena: &Arena,
    key: &[u8],
) -> Result<(KeyIndex, Arena), Refusal>
    requires { IsIndexOf index.now arena.now }
    ensures ok { IfOk result
        (λ part. IsPartFrom key.now (entries_of index.now arena.now) arena.now.most part.0 part.1) }
    ensures memory { IfErr result (λ why. why ≡ Refusal.OutOfMemory) }
{
    counted_split_at::<Brand, Brand>(alloc, index, arena, key, Blank::new(1), Blank::new(1))
}

fn counted_split_at<C: Ledger, W: Ledger>(
    alloc: Global,
    index: &KeyIndex,
    arena: &Arena,
    key: &[u8],
    compared: Blank,
    written: Blank,
) -> Result<(KeyIndex, Arena), Refusal>
    requires own { IsIndexOf index.now arena.now }
    requires opens_compared { Opens C.name C.parts compared.name compared.parts }
    requires opens_written { Opens W.name W.parts written.name written.parts }
    ensures ok { IfOk result
        (λ part. IsPartFrom key.now (entries_of index.now arena.now) arena.now.most part.0 part.1) }
    ensures memory { IfErr result (λ why. why ≡ Refusal.OutOfMemory) }
{
    let mut steps: Steps<C, W> = Steps::new(compared, written);
    index.split_at(alloc, arena, key, &mut steps)
}
