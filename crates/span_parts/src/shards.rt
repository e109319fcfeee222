//! Changes of the shard of one slot among those of all slots.
ghost use Rattle.std.specs.Prelude.{◌≡◌, ◌⊎◌, ◌≤◌, ◌<◌, ◌++◌, ◌∷◌, [], List, IfOk, IfErr, IfSome, OnOk, OnErr, Some, length, slice_get, slice_set};
ghost use Rattle.span_arena.specs.Limits.{most_nodes};
ghost use Rattle.span_mutate.specs.Typed.{AreTypedMutations};
ghost use Rattle.span_shard.specs.Reading.{AreWrites, IsFault, IsFull};
ghost use Rattle.span_shard.specs.Shard.{with_writes, applied, trimmed, live, IsFree, IsIdle, HasNoneOf, IsLaterCommit, keys_before, keys_from};
ghost use Rattle.span_store.specs.declared.write.Write.{Write};

use span_mutate::mutation::CheckedMutation;
use span_schema::schema::Schema;
use span_shard::shard::Shard;
use span_value::refusal::Refusal;
use std::alloc::Global;

/// Prepares in the shard of a slot what the mutations write there. A refusal leaves the shards as they were.
pub(crate) fn prepare_at(
    alloc: Global,
    schema: &Schema,
    shards: &mut Vec<Shard>,
    slot: usize,
    txn: u64,
    mutations: &[CheckedMutation],
) -> Result<(), Refusal>
    requires within { slot < length shards.old.items }
    requires free { IfSome (slice_get shards.old.items slot) (IsFree schema.now mutations.now) }
    requires new { IfSome (slice_get shards.old.items slot) (HasNoneOf txn) }
    requires typed { AreTypedMutations schema.now mutations.now }
    ensures ok { OnOk result
        (IfSome (slice_get shards.old.items slot)
        (λ before.
        (ws : List Write)
        × AreWrites schema.now mutations.now before ws
        × (live (with_writes txn ws before) ≤ most_nodes)
        × (shards.new.items ≡ slice_set shards.old.items slot (with_writes txn ws before)))) }
    ensures fault { IfErr result
        (λ why.
        IfSome (slice_get shards.old.items slot)
        (λ before. IsFault schema.now mutations.now before why ⊎ IsFull schema.now mutations.now txn before why)) }
    ensures err { OnErr result (shards.new.items ≡ shards.old.items) }
{
    shards[slot].prepare(alloc, schema, txn, mutations)?;
    shards[slot].keeps_at_most();
    Ok(())
}

/// Ends in the shard of a slot what a transaction has prepared there.
pub(crate) fn apply_at(shards: &mut Vec<Shard>, slot: usize, txn: u64, committed: Option<u64>)
    requires within { slot < length shards.old.items }
    requires later { IfSome (slice_get shards.old.items slot) (IsLaterCommit txn committed) }
    ensures { IfSome (slice_get shards.old.items slot)
        (λ before. shards.new.items ≡ slice_set shards.old.items slot (applied txn committed before)) }
{
    shards[slot].apply(txn, committed);
}

/// Trims the shard of a slot, and returns how many versions it keeps.
pub(crate) fn trim_at(shards: &mut Vec<Shard>, slot: usize, h: u64) -> usize
    requires { slot < length shards.old.items }
    ensures { IfSome (slice_get shards.old.items slot)
        (λ before.
        (shards.new.items ≡ slice_set shards.old.items slot (trimmed h before))
        × (result ≡ live (trimmed h before))) }
{
    shards[slot].trim(h);
    shards[slot].live()
}

/// Cuts the shard of a slot in two at a key: the part from the key on goes to the end of the list. `OutOfMemory`, which leaves all as it was.
pub(crate) fn cut_at(
    alloc: Global,
    shards: &mut Vec<Shard>,
    slot: usize,
    key: &[u8],
) -> Result<(), Refusal>
    requires within { slot < length shards.old.items }
    requires idle { IfSome (slice_get shards.old.items slot) IsIdle }
    ensures ok { OnOk result
        (IfSome (slice_get shards.old.items slot)
        (λ before.
        shards.new.items
        ≡ slice_set shards.old.items slot (keys_before key.now before) ++ keys_from key.now before ∷ [])) }
    ensures err { OnErr result (shards.new.items ≡ shards.old.items) }
    ensures memory { IfErr result (λ why. why ≡ Refusal.OutOfMemory) }
{
    shards.reserve(1)?;
    let part = shards[slot].split(alloc, key)?;
    shards.push_reserved(part);
    Ok(())
}
