//! The keys of a shard, in an index with their chains; their versions and prepared writes, in an arena.
ghost use Rattle.std.specs.Prelude.{◌≡◌, ◌≤◌, [], map, filter, IfErr, IfOk, OnOk, OnErr};
ghost use Rattle.span_arena.specs.Limits.{most_nodes};
ghost use Rattle.std.specs.List.{AllByRecursion};
ghost use Rattle.span_store.specs.Versions.{applied_to_key, is_used};
ghost use Rattle.span_store.specs.KeyLists.{AreInOrder, HaveFallingVersions, IsIdle, IsInUse, IsLaterCommit, IsPutRefused, keys_before, keys_from, with_write, trimmed_key, live};

use super::node::{PreparedNode, end_nodes, prepare_node};
use super::numbers::order_by_length;
use super::search::{slot_near, split_at};
use super::split::{move_versions, reserve_versions};
use super::trim::trim_chains;
use super::write::{NearWrite, Write, last_chains};
use span_arena::arena::Arena;
use span_arena::free_order::FreeOrder;
use span_keyindex::index::KeyIndex;
use span_keyindex::near::SEARCH_LANES;
use span_value::refusal::Refusal;
use std::alloc::{AllocError, Global};
use std::marker::Model;

/// Of how many writes one is looked at, to see whether they are new rows.
const WRITES_FOR_EACH: usize = 16;

/// The keys of a shard. Contracts see what it has of each key.
#[derive(Debug, Drop)]
pub struct Store {
    pub(crate) arena: Arena,
    pub(crate) index: KeyIndex,
    /// The nodes in which something is prepared.
    prepared: Vec<PreparedNode>,
}

impl Model for Store {
    ghost use Rattle.std.specs.Prelude.{List};
    ghost use Rattle.span_store.specs.KeyVersions.{KeyVersions};

    ghost Value = { List KeyVersions };

    ghost use Rattle.span_keyindex.specs.Indexes.{entries_of};
    ghost use Rattle.span_store.specs.Stored.{all_kept, IsKept};

    ghost view = { λ s. all_kept s.arena s.prepared.items (entries_of s.index s.arena) };

    ghost invariant = { λ s. IsKept s.index s.arena s.prepared.items };
}

impl Store {
    /// A store of no key. It takes no memory.
    pub fn new(alloc: Global) -> Store
        ensures { result ≡ [] }
    {
        Store {
            arena: Arena::new(alloc),
            index: KeyIndex::new(alloc),
            prepared: Vec::new(alloc),
        }
    }

    /// How many versions are kept, prepared ones included.
    pub fn live(&self) -> usize
        ensures live { result ≡ live self.now }
        ensures most { live self.now ≤ most_nodes }
        ensures falling { HaveFallingVersions self.now }
    {
        self.arena.live()
    }

    /// Prepares a write at its key. A refusal leaves all as it was.
    pub fn put(&mut self, txn: u64, write: NearWrite) -> Result<(), Refusal>
        requires order { AreInOrder self.old }
        requires used { AllByRecursion IsInUse self.old }
        ensures ok { OnOk result (self.new ≡ with_write txn write self.old) }
        ensures err { OnErr result (self.new ≡ self.old) }
        ensures refused { IfErr result (IsPutRefused self.old write.key) }
    {
        let NearWrite {
            write: Write { key, row },
            near,
        } = write;
        let chain = slot_near(&mut self.index, &mut self.arena, key, near)?;
        match prepare_node(&mut self.arena, &mut self.prepared, chain, txn, row) {
            Ok(()) => Ok(()),
            Err(why) => {
                // The key may have come with this write alone.
                self.index.remove_empty(&mut self.arena);
                Err(why)
            }
        }
    }

    /// Whether a write is no new row: a deletion, or of a key that is there, where the chain of its number says so.
    fn is_of_old(&self, write: &NearWrite) -> bool {
        if write.write.row.is_none() {
            return true;
        }
        let key = write.write.key.as_slice();
        self.index.chain_at(&self.arena, key, write.near).is_some()
    }

    /// Whether some of the writes, one in a number of them, are all new rows, as far as is known.
    fn are_new(&self, writes: &[NearWrite]) -> bool {
        for at in 0..writes.len() {
            if at % WRITES_FOR_EACH == 0 && self.is_of_old(&writes[at]) {
                return false;
            }
        }
        true
    }

    /// Free numbers of chains, and free nodes, for keys that are put in this order. Where memory runs out, or there may be no more nodes, some
    /// or all of them are not added.
    fn add_free(&mut self, order: &FreeOrder) -> Result<(), Refusal>
        ensures { self.new ≡ self.old }
    {
        self.index.add_free_chains(&mut self.arena, order)?;
        self.arena.add_free_nodes(order)?;
        Ok(())
    }

    /// Reserves capacity for a number of new keys, each with a version. An `AllocError` leaves all as it was.
    fn reserve_keys(&mut self, count: usize) -> Result<(), AllocError>
        ensures { self.new ≡ self.old }
    {
        self.index.reserve(&mut self.arena, count)?;
        self.arena.reserve_nodes(count)?;
        self.prepared.reserve(count)
    }

    /// Before writes are put, from the last on: where they are new rows, memory for them is reserved, and they get numbers by which those of
    /// one table mostly lie together. Nothing is changed that contracts see.
    pub fn reserve_numbers(&mut self, writes: &[NearWrite])
        ensures { self.new ≡ self.old }
    {
        if !self.are_new(writes) {
            return;
        }
        // Where there is none, it is taken as the rows are put.
        let _reserved = self.reserve_keys(writes.len());
        let alloc = *self.prepared.allocator();
        let Ok(Some(order)) = order_by_length(alloc, &self.arena, writes) else {
            return;
        };
        // Where there are none, rows are put as they are without.
        let _added = self.add_free(&order);
    }

    /// Looks at the places in the index of the keys of writes, of up to `SEARCH_LANES` from the last on. How many of them are searched near a
    /// chain is returned, and nothing is promised of it.
    pub fn look_ahead(&self, writes: &[NearWrite]) -> usize {
        self.index.look_above(&self.arena, &last_chains(writes))
    }

    /// Applies the transaction's write at each key. It takes no memory, and moves links alone.
    pub fn end(&mut self, txn: u64, committed: Option<u64>)
        requires { IsLaterCommit txn committed self.old }
        ensures { self.new ≡ map (applied_to_key txn committed) self.old }
    {
        end_nodes(&mut self.arena, &self.prepared, txn, committed);
        self.prepared.retain(|node| node.txn != txn);
    }

    /// Frees the versions that no read at or above the horizon h sees. It takes no memory.
    pub fn trim(&mut self, h: u64)
        ensures { self.new ≡ map (trimmed_key h) self.old }
    {
        trim_chains(&self.index, &mut self.arena, h);
    }

    /// Moves the keys from `key` on with their versions to a store of their own. Nothing is prepared. `Refusal::OutOfMemory` leaves all as
    /// it was.
    pub fn split(&mut self, alloc: Global, key: &[u8]) -> Result<Store, Refusal>
        requires idle { IsIdle self.old }
        requires used { AllByRecursion IsInUse self.old }
        ensures before { OnOk result (self.new ≡ keys_before key.now self.old) }
        ensures part { IfOk result (λ part. part ≡ keys_from key.now self.old) }
        ensures err { OnErr result (self.new ≡ self.old) }
        ensures memory { IfErr result (λ why. why ≡ Refusal.OutOfMemory) }
    {
        let part = split_at(alloc, &self.index, &self.arena, key)?;
        let (index, mut arena) = part;
        reserve_versions(&self.index, &self.arena, key, &mut arena)?;
        // Nothing takes memory from here on.
        move_versions(&self.index, &mut self.arena, key, &index, &mut arena);
        self.index.remove_empty(&mut self.arena);
        Ok(Store {
            arena,
            index,
            prepared: Vec::new(alloc),
        })
    }

    /// Leaves out the keys that have nothing any more. It takes no memory.
    pub fn remove_unused(&mut self)
        ensures { self.new ≡ filter is_used self.old }
    {
        self.index.remove_empty(&mut self.arena);
    }
}
