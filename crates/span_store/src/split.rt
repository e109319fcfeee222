//! The versions of a part of the keys, moved to an arena of their own.
ghost use Rattle.std.specs.Prelude.{◌≡◌, ℕ, ◌≤◌, [], IfErr, OnOk};
ghost use Rattle.span_arena.specs.Content.{versions};
ghost use Rattle.span_keytree.specs.Entries.{entries_from, keys_of};
ghost use Rattle.span_keyindex.specs.Indexes.{IsIndexOf, entries_of};
ghost use Rattle.span_store.specs.Stored.{AreMoved, AreReserved, versions_count};

use super::search::chains_from;
use span_arena::arena::Arena;
use span_keyindex::index::KeyIndex;
use span_value::refusal::Refusal;

/// Adds a free node for each version of the keys from `key` on. The refusal is `OutOfMemory`.
pub(crate) fn reserve_versions(
    index: &KeyIndex,
    arena: &Arena,
    key: &[u8],
    room: &mut Arena,
) -> Result<(), Refusal>
    requires { IsIndexOf index.now arena.now }
    ensures ok { OnOk result
        (AreReserved (versions_count arena.now (entries_from key.now (entries_of index.now arena.now)))
        room.old room.new) }
    ensures memory { IfErr result (λ why. why ≡ Refusal.OutOfMemory) }
{
    let mut chains = chains_from(index, arena, key);
    while let Some(chain) = chains.next() {
        add_nodes(room, arena.count(chain))?;
    }
    Ok(())
}

/// Adds free nodes. The refusal is `OutOfMemory`.
fn add_nodes(room: &mut Arena, count: usize) -> Result<(), Refusal>
    ensures ok { OnOk result (AreReserved count room.old room.new) }
    ensures memory { IfErr result (λ why. why ≡ Refusal.OutOfMemory) }
{
    for _node in 0..count {
        // The arena from which the versions come has as many nodes in use, and the same limit.
        let Ok(()) = room.add_free_node() else {
            return Err(Refusal::OutOfMemory);
        };
    }
    Ok(())
}

/// Moves the versions of the keys from `key` on to those of another index, whose keys are the same, in its arena. It takes no memory.
pub(crate) fn move_versions(
    index: &KeyIndex,
    arena: &mut Arena,
    key: &[u8],
    part: &KeyIndex,
    to: &mut Arena,
)
    requires own { IsIndexOf index.now arena.old }
    requires part { IsIndexOf part.now to.old }
    requires keys { keys_of (entries_of part.now to.old)
        ≡ keys_of (entries_from key.now (entries_of index.now arena.old)) }
    requires none { (c : ℕ) → versions to.old c ≡ [] }
    requires room { versions_count arena.old (entries_from key.now (entries_of index.now arena.old)) ≤ to.old.free }
    ensures { AreMoved (entries_from key.now (entries_of index.now arena.old))
        (entries_of part.now to.old) arena.old arena.new to.old to.new }
{
    let mut sources = chains_from(index, arena, key);
    let mut chains = part.chains(to);
    while let Some(source) = sources.next() {
        let Some(chain) = chains.next() else {
            unreachable!()
        };
        to.take_versions(chain, arena, source);
    }
}
