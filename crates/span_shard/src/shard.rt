//! The versions of every key in a shard's range, and the writes that are prepared there.
ghost use Rattle.std.specs.Prelude.{◌≡◌, ◌≤◌, ◌⊎◌, ℕ, [], List, map, IfOk, IfErr, OnOk, OnErr};
ghost use Rattle.span_arena.specs.Limits.{most_nodes};
ghost use Rattle.span_keycode.specs.declared.range.KeyRange.{KeyRange};
ghost use Rattle.span_mutate.specs.Typed.{AreTypedMutations};
ghost use Rattle.span_shard.specs.Reading.{AreWrites, IsFault, IsFull, IsPrepareRefusal};
ghost use Rattle.std.specs.List.{AllByRecursion};
ghost use Rattle.span_shard.specs.Shard.{with_writes, applied, trimmed, IsFree, HasNoneOf, HasSomeOf, ArePutsRefused};
ghost use Rattle.span_store.specs.KeyLists.{trimmed_key, live, IsIdle, HaveFallingVersions, ReadLastVersions, AreInOrder, IsInUse, IsLaterCommit, keys_before, keys_from};
ghost use Rattle.span_store.specs.Reads.{snapshot};
ghost use Rattle.span_store.specs.declared.write.Write.{Write};

use super::change::writes_of;
use span_keycode::range::KeyRange;
use span_keyindex::near::SEARCH_LANES;
use span_mutate::mutation::CheckedMutation;
use span_schema::schema::Schema;
pub use span_store::snapshot::Entry;
use span_store::snapshot::{Snapshot, snapshot_of};
use span_store::store::Store;
use span_store::write::NearWrite;
use span_value::refusal::Refusal;
use std::alloc::Global;
use std::marker::Model;

/// A shard. Contracts see what it has of each key, in order of the keys.
#[derive(Debug, Drop)]
pub struct Shard {
    store: Store,
}

impl Model for Shard {
    ghost use Rattle.std.specs.Prelude.{List};
    ghost use Rattle.span_store.specs.KeyVersions.{KeyVersions};

    ghost Value = { List KeyVersions };

    ghost view = { λ a. a.store };

    ghost use Rattle.std.specs.List.{AllByRecursion};
    ghost use Rattle.span_store.specs.KeyLists.{IsInUse, AreInOrder};

    ghost invariant = { λ a. AllByRecursion IsInUse a.store × AreInOrder a.store };
}

impl Shard {
    /// A shard with no version. It takes no memory.
    pub fn new(alloc: Global) -> Shard
        ensures { result ≡ [] }
    {
        Shard {
            store: Store::new(alloc),
        }
    }

    /// The rows in the range at s, a timestamp, in order of their keys. It takes no memory: each row is lent when it is asked for.
    pub fn snapshot<'a>(&'a self, range: &KeyRange, s: u64) -> Snapshot<'a>
        ensures { result ≡ snapshot range.now s self.now }
    {
        snapshot_of(&self.store, range, s)
    }

    /// A law, which takes no time: the keys are in order, each once.
    pub fn keys_are_in_order(&self)
        ensures { AreInOrder self.now }
    {
        let _ = &self.store;
    }

    /// A law, which takes no time: the versions of each key are in the order of their timestamps, the latest first, and what a snapshot
    /// reads of it at s is the last version at or below s.
    pub fn versions_are_in_order(&self)
        ensures falling { HaveFallingVersions self.now }
        ensures last { ReadLastVersions self.now }
    {
        let _kept = self.store.live();
    }

    /// A law, which takes no time: no more versions are kept than may be.
    pub fn keeps_at_most(&self)
        ensures { live self.now ≤ most_nodes }
    {
        let _kept = self.store.live();
    }

    /// How many versions are kept, prepared ones included.
    pub fn live(&self) -> usize
        ensures { result ≡ live self.now }
    {
        self.store.live()
    }

    /// Prepares what the mutations of a transaction write: at each key of their directories whose presence or row they change, the row
    /// that they leave there or a deletion, and the node for its version. The fault is that of the first mutation that has one, over
    /// all directories, out of memory, or that the writes would bring the number of kept versions over 2^24; it leaves all as
    /// it was.
    ///
    /// Each key is found in the tree. Only the rows at the mutations' keys and at those of their parents are looked at, and below the
    /// rows that are deleted all others. The fault is Apply's on any database whose rows in those
    /// directories are the ones that are here now: it may be the whole one. Where there is none, since the bytes there are no such
    /// rows, it is still one of `Exists`, `Missing`, `ParentMissing`, `HasChildren` and `RowTooLong`; `BadKey` or `BadRow` comes only
    /// where the bytes under a key in those directories are no row of the schema's tables.
    pub fn prepare(
        &mut self,
        alloc: Global,
        schema: &Schema,
        txn: u64,
        mutations: &[CheckedMutation],
    ) -> Result<(), Refusal>
        requires free { IsFree schema.now mutations.now self.old }
        requires new { HasNoneOf txn self.old }
        requires typed { AreTypedMutations schema.now mutations.now }
        ensures ok { OnOk result
            ((ws : List Write)
            × (self.new ≡ with_writes txn ws self.old)
            × AreWrites schema.now mutations.now self.old ws) }
        ensures fault { IfErr result
            (λ why. IsFault schema.now mutations.now self.old why ⊎ IsFull schema.now mutations.now txn self.old why) }
        ensures number { IfErr result (λ why. IsPrepareRefusal schema.now mutations.now self.old why) }
        ensures err { OnErr result (self.new ≡ self.old) }
    {
        let writes = writes_of(alloc, schema, &self.store, mutations)?;
        match put_all(&mut self.store, txn, writes) {
            Ok(()) => Ok(()),
            Err(why) => {
                self.apply(txn, None);
                Err(why)
            }
        }
    }

    /// Ends the writes of a transaction: they become versions at its commit timestamp, which is later than the versions that are there,
    /// or are given up where there is none. It takes no memory, and moves links alone: `prepare` made the nodes.
    pub fn apply(&mut self, txn: u64, committed: Option<u64>)
        requires { IsLaterCommit txn committed self.old }
        ensures { self.new ≡ applied txn committed self.old }
    {
        self.store.end(txn, committed);
        if committed.is_some() {
            // A key with a new version stays.
            return;
        }
        self.store.remove_unused();
    }

    /// Leaves of each key the newest version at or below the horizon h, a timestamp, unless it is a deletion, and all later ones. At
    /// and above h every snapshot is as before (`trim_keeps_snapshots`). It takes no memory.
    pub fn trim(&mut self, h: u64)
        ensures { self.new ≡ trimmed h self.old }
    {
        self.store.trim(h);
        self.store.remove_unused();
    }

    /// Moves the keys from `key` on, with their versions, to a shard of their own. Nothing is prepared. The rows are moved and not
    /// copied, and all memory is taken before: `OutOfMemory`, the only refusal, leaves all as it was.
    pub fn split(&mut self, alloc: Global, key: &[u8]) -> Result<Shard, Refusal>
        requires idle { IsIdle self.old }
        ensures before { OnOk result (self.new ≡ keys_before key.now self.old) }
        ensures part { IfOk result (λ part. part ≡ keys_from key.now self.old) }
        ensures err { OnErr result (self.new ≡ self.old) }
        ensures memory { IfErr result (λ why. why ≡ Refusal.OutOfMemory) }
    {
        Ok(Shard {
            store: self.store.split(alloc, key)?,
        })
    }

    /// A law, which takes no time: what a trim at h leaves reads as before at and above h, and the keys that go had nothing.
    pub fn trim_keeps_snapshots(&self, h: u64)
        ensures seen { (range : KeyRange) (s : ℕ) → h ≤ s
            → snapshot range s (trimmed h self.now) ≡ snapshot range s self.now }
        ensures live { live (trimmed h self.now) ≡ live (map (trimmed_key h) self.now) }
    {
        let _ = &self.store;
        let _ = h;
    }
}

/// When the places of the next writes are to be looked at.
#[derive(Drop)]
struct PutsAhead {
    /// As long as more writes are left, none is looked at.
    left: usize,
}

/// How many writes are prepared without a look where none of those looked at has a place near a chain.
const WRITES_BETWEEN: usize = 64;

impl PutsAhead {
    // Looks at the places of the next writes of these, from the last on.
    fn look(&mut self, store: &Store, writes: &[NearWrite]) {
        if writes.len() > self.left || writes.len() < 2 {
            return;
        }
        let seen = store.look_ahead(writes);
        let count = if seen == 0 {
            WRITES_BETWEEN
        } else {
            SEARCH_LANES
        };
        self.left = writes.len().saturating_sub(count);
    }
}

/// Prepares writes, from the last to the first. After an error some are prepared.
fn put_all(store: &mut Store, txn: u64, writes: Vec<NearWrite>) -> Result<(), Refusal>
    requires order { AreInOrder store.old }
    requires used { AllByRecursion IsInUse store.old }
    ensures ok { OnOk result (store.new ≡ with_writes txn writes.items store.old) }
    ensures err { OnErr result (HasSomeOf txn writes.items store.old store.new) }
    ensures refused { IfErr result (ArePutsRefused txn writes.items store.old) }
{
    let mut left = writes;
    store.reserve_numbers(left.as_slice());
    let mut ahead = PutsAhead { left: left.len() };
    while let Some(write) = left.pop() {
        store.put(txn, write)?;
        ahead.look(store, left.as_slice());
    }
    Ok(())
}
