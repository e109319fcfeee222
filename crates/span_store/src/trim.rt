//! Frees versions that nothing reads any more.
ghost use Rattle.std.specs.Prelude.{[]};
ghost use Rattle.span_keyindex.specs.Indexes.{IsIndexOf, entries_of};
ghost use Rattle.span_store.specs.Stored.{AreTrimmed};

use span_arena::arena::Arena;
use span_keyindex::index::KeyIndex;

/// Trims the chain of every key.
pub(crate) fn trim_chains(index: &KeyIndex, arena: &mut Arena, horizon: u64)
    requires { IsIndexOf index.now arena.old }
    ensures { AreTrimmed horizon (entries_of index.now arena.old) [] arena.old arena.new }
{
    let mut chains = index.chains(arena);
    while let Some(chain) = chains.next() {
        arena.trim(chain, horizon);
    }
}
