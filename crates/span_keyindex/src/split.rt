//! A part of the keys in an index of its own.
ghost use Rattle.std.specs.Prelude.{◌≡◌, IfErr, IfOk};
ghost use Rattle.span_keyindex.specs.Indexes.{IsIndexOf, entries_of};
ghost use Rattle.span_keyindex.specs.Splits.{IsPartFrom};

use crate::index::KeyIndex;
use span_arena::arena::Arena;
use span_arena::steps::Steps;
use span_keycode::key::Key;
use span_value::refusal::Refusal;
use std::alloc::Global;
use std::sync::ledger::Ledger;

/// Copies the keys from `low` on, each with a new chain, into an index with an arena of its own.
pub(crate) fn copy_keys<C: Ledger, W: Ledger>(
    alloc: Global,
    index: &KeyIndex,
    arena: &Arena,
    low: &[u8],
    steps: &mut Steps<C, W>,
) -> Result<(KeyIndex, Arena), Refusal>
    requires { IsIndexOf index.now arena.now }
    ensures ok { IfOk result
        (λ part. IsPartFrom low.now (entries_of index.now arena.now) arena.now.most part.0 part.1) }
    ensures memory { IfErr result (λ why. why ≡ Refusal.OutOfMemory) }
{
    let mut part = KeyIndex::new(alloc);
    let mut chains = Arena::with_most(alloc, arena.most());
    let mut left = index.walk_from(arena, low, steps);
    while let Some((bytes, _chain)) = left.next() {
        let Ok(key) = Key::from_slice(alloc, bytes) else {
            return Err(Refusal::OutOfMemory);
        };
        // Each key is greater than all that are there.
        let _chain = part.slot_for(&mut chains, key, steps)?;
    }
    Ok((part, chains))
}
