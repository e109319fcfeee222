//! The index of keys.
ghost use Rattle.std.specs.Prelude.{◌≡◌, ℕ, ◌*◌, ◌<◌, ◌^◌, All, IfErr, IfOk, IfSome, MatchOption, OnErr, OnOk, length, map};
ghost use Rattle.span_arena.specs.Content.{IsChain, with_free_chains};
ghost use Rattle.span_keytree.specs.Arenas.{in_use, IsWithoutUnused};
ghost use Rattle.span_keytree.specs.Entries.{HasChain, IsAbsent, IsRising, IsSlotFor, entries_from, entries_in, entries_under};
ghost use Rattle.span_keytree.specs.Roots.{AreTwoSearches, IsSearchCost, IsSlotCost};
ghost use Rattle.span_keyindex.specs.Indexes.{IsEmptyIndex, IsIndexOf, entries_of};
ghost use Rattle.span_keyindex.specs.Limits.{search_lanes};
ghost use Rattle.span_keyindex.specs.Splits.{IsPartFrom};
ghost use Rattle.span_keytree.specs.Ways.{IsNearSlotCost};

use crate::near::{Near, SEARCH_LANES, near_key, near_keys};
use crate::reach::look_above;
use crate::remove::remove_unused;
use crate::split::copy_keys;
use span_arena::arena::Arena;
use span_arena::free_order::FreeOrder;
use span_arena::steps::Steps;
use span_arena::token::Chain;
use span_keycode::key::Key;
use span_keycode::range::KeyRange;
use span_keytree::next::NextLinks;
use span_keytree::tree::{TreeRoot, slot_for, slot_near};
use span_keywalk::chains::{Chains, chains_from, chains_of};
use span_keywalk::find::find;
use span_keywalk::walk::{Walk, all, walk_from, walk_range, walk_under};
use span_value::refusal::Refusal;
use std::alloc::{AllocError, Global};
use std::cmp::Ordering;
use std::sync::ledger::Ledger;

/// A sorted list of keys with their chains. Each call is handed the index's own arena: its chains are those of the keys, and it has
/// the keys with their links.
#[derive(Debug, Drop)]
pub struct KeyIndex {
    pub(crate) tree: TreeRoot,
    pub(crate) nexts: NextLinks,
}

impl KeyIndex {
    /// An index of no key, for an arena with no chain. It takes no memory.
    pub fn new(alloc: Global) -> KeyIndex
        ensures { IsEmptyIndex result }
    {
        KeyIndex {
            tree: TreeRoot {
                root: None,
                levels: 0,
                last: None,
            },
            nexts: NextLinks::new(alloc),
        }
    }

    /// The chain of a key, if the key is there. It takes no memory.
    pub fn find(&self, arena: &Arena, key: &[u8]) -> Option<Chain>
        requires { IsIndexOf self.now arena.now }
        ensures cases { MatchOption result
            (IsAbsent (entries_of self.now arena.now) key.now)
            (HasChain (entries_of self.now arena.now) key.now) }
        ensures chain { IfSome result (λ chain. IsChain arena.now chain.number) }
    {
        match find(arena, &self.tree, key) {
            Some(number) => Some(Chain { number }),
            None => None,
        }
    }

    /// For up to `SEARCH_LANES` keys the numbers of chains near them, for `find_near`: nothing is promised of them. The keys are searched
    /// together, which takes less time than one after another where the tree is large. Among fewer than 2 ^ d keys at most 2 d are
    /// compared for each of them. It takes no memory.
    pub fn near<C: Ledger, W: Ledger>(
        &self,
        arena: &Arena,
        keys: &[Key],
        steps: &mut Steps<C, W>,
    ) -> [u32; SEARCH_LANES]
        requires { IsIndexOf self.now arena.now }
        ensures cost { (d : ℕ) → length (entries_of self.now arena.now) < 2 ^ d
            → IsSearchCost (search_lanes * d) steps.old steps.new }
    {
        near_keys(self, arena, keys, steps)
    }

    /// As `find`. Where `near` is the number of the key's chain, or of that of the last key before it, no other search is made.
    pub fn find_near(&self, arena: &Arena, key: &[u8], near: u32) -> Option<Chain>
        requires { IsIndexOf self.now arena.now }
        ensures cases { MatchOption result
            (IsAbsent (entries_of self.now arena.now) key.now)
            (HasChain (entries_of self.now arena.now) key.now) }
        ensures chain { IfSome result (λ chain. IsChain arena.now chain.number) }
    {
        match near_key(self, arena, key, near) {
            Near::Here => Some(Chain { number: near }),
            Near::Absent => None,
            Near::Unknown => self.find(arena, key),
        }
    }

    /// The chain of a key, where `near` is its number: no search is made, and None says nothing.
    pub fn chain_at(&self, arena: &Arena, key: &[u8], near: u32) -> Option<Chain>
        requires { IsIndexOf self.now arena.now }
        ensures own { IfSome result (HasChain (entries_of self.now arena.now) key.now) }
        ensures chain { IfSome result (λ chain. IsChain arena.now chain.number) }
    {
        if near as usize >= arena.numbers() || !arena.is_chain(near) {
            return None;
        }
        match arena.order(near, key) {
            Ordering::Equal => Some(Chain { number: near }),
            _ => None,
        }
    }

    /// Reserves capacity for a number of keys more. An `AllocError` leaves all as it was.
    pub fn reserve(&mut self, arena: &mut Arena, count: usize) -> Result<(), AllocError>
        ensures index { self.new ≡ self.old }
        ensures arena { arena.new ≡ arena.old }
    {
        arena.reserve_chains(count)?;
        self.nexts.reserve(count)
    }

    /// Adds free numbers of chains to the arena: new keys get them in this order. `Refusal::OutOfMemory` leaves all as it was.
    pub fn add_free_chains(&mut self, arena: &mut Arena, order: &FreeOrder) -> Result<(), Refusal>
        requires { IsIndexOf self.old arena.old }
        ensures arena { OnOk result (arena.new ≡ with_free_chains (length order.now) arena.old) }
        ensures err { OnErr result (arena.new ≡ arena.old) }
        ensures index { OnErr result (self.new ≡ self.old) }
        ensures memory { IfErr result (λ why. why ≡ Refusal.OutOfMemory) }
        ensures own { IsIndexOf self.new arena.new }
        ensures entries { entries_of self.new arena.new ≡ entries_of self.old arena.old }
    {
        let count = order.len();
        self.nexts.add_places(count)?;
        match arena.add_free_chains(order) {
            Ok(()) => Ok(()),
            Err(why) => {
                self.nexts.drop_places(count);
                Err(why)
            }
        }
    }

    /// Every key with its chain, in order of the keys, which are lent.
    pub fn all<'a>(&'a self, arena: &'a Arena) -> Walk<'a>
        requires { IsIndexOf self.now arena.now }
        ensures entries { result ≡ entries_of self.now arena.now }
        ensures chains { All (λ e. IsChain arena.now e.chain.number) result }
        ensures rising { IsRising (entries_of self.now arena.now) }
    {
        all(arena, &self.nexts, &self.tree)
    }

    /// The chains of all keys, in order of the keys. The arena is not lent: its calls that leave the keys and the chains may be made
    /// while the chains are handed out.
    pub fn chains<'a>(&'a self, arena: &Arena) -> Chains<'a>
        requires { IsIndexOf self.now arena.now }
        ensures { result ≡ map (λ e. e.chain) (entries_of self.now arena.now) }
    {
        chains_of(arena, &self.nexts, &self.tree)
    }

    /// The keys of a range with their chains, in order of the keys, which are lent. Among fewer than 2 ^ d keys at most 2 d are
    /// compared to find the first, and at most 2 d to find the end.
    pub fn walk<'a, C: Ledger, W: Ledger>(
        &'a self,
        arena: &'a Arena,
        range: &KeyRange,
        steps: &mut Steps<C, W>,
    ) -> Walk<'a>
        requires { IsIndexOf self.now arena.now }
        ensures entries { result ≡ entries_in range.now (entries_of self.now arena.now) }
        ensures chains { All (λ e. IsChain arena.now e.chain.number) result }
        ensures rising { IsRising (entries_of self.now arena.now) }
        ensures cost { (d : ℕ) → length (entries_of self.now arena.now) < 2 ^ d
            → AreTwoSearches d steps.old steps.new }
    {
        walk_range(
            arena,
            &self.nexts,
            &self.tree,
            range.low.as_slice(),
            range.high.as_slice(),
            steps,
        )
    }

    /// The keys that begin with these bytes, with their chains, in order of the keys, which are lent. Among fewer than 2 ^ d keys at
    /// most 2 d are compared to find the first, and at most 2 d to find the end.
    pub fn walk_under<'a, C: Ledger, W: Ledger>(
        &'a self,
        arena: &'a Arena,
        front: &[u8],
        steps: &mut Steps<C, W>,
    ) -> Walk<'a>
        requires { IsIndexOf self.now arena.now }
        ensures entries { result ≡ entries_under front.now (entries_of self.now arena.now) }
        ensures chains { All (λ e. IsChain arena.now e.chain.number) result }
        ensures rising { IsRising (entries_of self.now arena.now) }
        ensures cost { (d : ℕ) → length (entries_of self.now arena.now) < 2 ^ d
            → AreTwoSearches d steps.old steps.new }
    {
        walk_under(arena, &self.nexts, &self.tree, front, steps)
    }

    /// The keys from `key` on with their chains, in order of the keys, which are lent. Among fewer than 2 ^ d keys at most 2 d are
    /// compared to find the first.
    pub fn walk_from<'a, C: Ledger, W: Ledger>(
        &'a self,
        arena: &'a Arena,
        key: &[u8],
        steps: &mut Steps<C, W>,
    ) -> Walk<'a>
        requires { IsIndexOf self.now arena.now }
        ensures entries { result ≡ entries_from key.now (entries_of self.now arena.now) }
        ensures rising { IsRising (entries_of self.now arena.now) }
        ensures cost { (d : ℕ) → length (entries_of self.now arena.now) < 2 ^ d
            → IsSearchCost d steps.old steps.new }
    {
        walk_from(arena, &self.nexts, &self.tree, key, steps)
    }

    /// The chains of the keys from `key` on, in order of the keys. The arena is not lent: its calls that leave the keys and the chains
    /// may be made while the chains are handed out. Among fewer than 2 ^ d keys at most 2 d are compared to find the first.
    pub fn chains_from<'a, C: Ledger, W: Ledger>(
        &'a self,
        arena: &Arena,
        key: &[u8],
        steps: &mut Steps<C, W>,
    ) -> Chains<'a>
        requires { IsIndexOf self.now arena.now }
        ensures chains { result ≡ map (λ e. e.chain) (entries_from key.now (entries_of self.now arena.now)) }
        ensures cost { (d : ℕ) → length (entries_of self.now arena.now) < 2 ^ d
            → IsSearchCost d steps.old steps.new }
    {
        chains_from(arena, &self.nexts, &self.tree, key, steps)
    }

    /// The keys from `key` on in an index with an arena of its own, which allows as many nodes: a copy of each key, with a chain that has
    /// no version. Here nothing changes; once their versions are moved or cleared, `remove_empty` removes the keys here. The refusal is
    /// `Refusal::OutOfMemory`.
    pub fn split_at<C: Ledger, W: Ledger>(
        &self,
        alloc: Global,
        arena: &Arena,
        key: &[u8],
        steps: &mut Steps<C, W>,
    ) -> Result<(KeyIndex, Arena), Refusal>
        requires { IsIndexOf self.now arena.now }
        ensures ok { IfOk result
            (λ part. IsPartFrom key.now (entries_of self.now arena.now) arena.now.most part.0 part.1) }
        ensures memory { IfErr result (λ why. why ≡ Refusal.OutOfMemory) }
    {
        copy_keys(alloc, self, arena, key, steps)
    }

    /// The chain of a key: its own, or a new one where the key is not there. `Refusal::OutOfMemory` leaves the index and the arena as
    /// they were; it comes only where the key is not there. Among fewer than 2 ^ d keys at most 2 d are compared, and at most
    /// 6 d + 8 steps are taken in all.
    pub fn slot_for<C: Ledger, W: Ledger>(
        &mut self,
        arena: &mut Arena,
        key: Key,
        steps: &mut Steps<C, W>,
    ) -> Result<Chain, Refusal>
        requires { IsIndexOf self.old arena.old }
        ensures ok { IfOk result
            (IsSlotFor (entries_of self.old arena.old) (entries_of self.new arena.new) arena.old arena.new key) }
        ensures chain { IfOk result (λ chain. IsChain arena.new chain.number) }
        ensures index { OnErr result (self.new ≡ self.old) }
        ensures arena { OnErr result (arena.new ≡ arena.old) }
        ensures memory { IfErr result (λ why. why ≡ Refusal.OutOfMemory) }
        ensures absent { OnErr result (IsAbsent (entries_of self.old arena.old) key) }
        ensures own { IsIndexOf self.new arena.new }
        ensures cost { (d : ℕ) → length (entries_of self.old arena.old) < 2 ^ d
            → IsSlotCost d steps.old steps.new }
    {
        let mut key = key;
        let number = slot_for(arena, &mut self.nexts, &mut self.tree, &mut key, steps)?;
        Ok(Chain { number })
    }

    /// As `slot_for`, where `near` is mostly the number of a chain near the key, as `near` of this index gives it. Where that is so, a
    /// new key is put into a small part of the tree, and the rest is not looked at. Among fewer than 2 ^ d keys at most 4 d are compared.
    pub fn slot_near<C: Ledger, W: Ledger>(
        &mut self,
        arena: &mut Arena,
        key: Key,
        near: u32,
        steps: &mut Steps<C, W>,
    ) -> Result<Chain, Refusal>
        requires { IsIndexOf self.old arena.old }
        ensures ok { IfOk result
            (IsSlotFor (entries_of self.old arena.old) (entries_of self.new arena.new) arena.old arena.new key) }
        ensures chain { IfOk result (λ chain. IsChain arena.new chain.number) }
        ensures index { OnErr result (self.new ≡ self.old) }
        ensures arena { OnErr result (arena.new ≡ arena.old) }
        ensures memory { IfErr result (λ why. why ≡ Refusal.OutOfMemory) }
        ensures absent { OnErr result (IsAbsent (entries_of self.old arena.old) key) }
        ensures own { IsIndexOf self.new arena.new }
        ensures cost { (d : ℕ) → length (entries_of self.old arena.old) < 2 ^ d
            → IsNearSlotCost d steps.old steps.new }
    {
        let mut key = key;
        let number = slot_near(
            arena,
            &mut self.nexts,
            &mut self.tree,
            &mut key,
            near,
            steps,
        )?;
        Ok(Chain { number })
    }

    /// Looks at the cells that `slot_near` comes to from these chains, so that they come from memory at once: nothing is promised of it. How
    /// many of the chains have such cells is returned. It takes no memory.
    pub fn look_above(&self, arena: &Arena, near: &[u32; SEARCH_LANES]) -> usize {
        look_above(arena, &self.nexts, near)
    }

    /// Removes the keys whose chains have no version and for which nothing is prepared, and frees these chains. It takes no memory.
    pub fn remove_empty(&mut self, arena: &mut Arena)
        requires { IsIndexOf self.old arena.old }
        ensures index { entries_of self.new arena.new ≡ in_use arena.old (entries_of self.old arena.old) }
        ensures arena { IsWithoutUnused arena.old arena.new }
        ensures own { IsIndexOf self.new arena.new }
    {
        remove_unused(arena, &mut self.nexts, &mut self.tree);
    }
}
