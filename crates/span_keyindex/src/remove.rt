//! Keys are removed.
ghost use Rattle.std.specs.Prelude.{◌≡◌, ◌+◌, ◌<◌, ◌^◌, IfSome, length};
ghost use Rattle.span_arena.specs.Content.{IsChain, is_unused};
ghost use Rattle.span_keytree.specs.Arenas.{in_use, IsArenaOf, IsWithoutUnused};
ghost use Rattle.span_keytree.specs.Roots.{entries_at, IsIndex};
ghost use Rattle.span_keytree.specs.Nexts.{next_of, IsLinked};
ghost use Rattle.span_keyindex.specs.Removals.{all_of, passed, passed_arena, passed_links, IsSequence, KeepsCells};

use crate::build::build;
use span_arena::arena::Arena;
use span_arena::token::Chain;
use span_keytree::last::last_below;
use span_keytree::next::NextLinks;
use span_keytree::tree::TreeRoot;

/// The last chain that is kept so far, and how many are.
#[derive(Clone, Copy, Debug)]
pub struct Kept {
    pub before: Option<u32>,
    pub count: usize,
}

/// Removes the keys whose chains have no version and for which nothing is prepared, and frees these chains. The tree is built anew of
/// the keys that are left. It takes no memory.
pub(crate) fn remove_unused(arena: &mut Arena, nexts: &mut NextLinks, index: &mut TreeRoot)
    requires own { IsIndex arena.old.cells nexts.old index.old }
    requires chains { IsArenaOf (entries_at arena.old.cells index.old) arena.old }
    ensures entries { entries_at arena.new.cells index.new
        ≡ in_use arena.old (entries_at arena.old.cells index.old) }
    ensures arena { IsWithoutUnused arena.old arena.new }
    ensures own { IsIndex arena.new.cells nexts.new index.new }
{
    let count = unlink(arena, nexts);
    let built = build(arena, nexts, count, nexts.first());
    index.root = built.root;
    index.levels = built.levels;
    index.last = last_below(arena, built.root, None, built.levels);
}

// Links the chains that are in use, frees the others, and returns how many are linked.
fn unlink(arena: &mut Arena, nexts: &mut NextLinks) -> usize
    requires own { IsSequence arena.old.cells nexts.old }
    requires chains { IsArenaOf (all_of arena.old.cells nexts.old) arena.old }
    ensures linked { IsLinked (next_of nexts.new) nexts.new.first
        (in_use arena.old (all_of arena.old.cells nexts.old)) }
    ensures count { result ≡ length (in_use arena.old (all_of arena.old.cells nexts.old)) }
    ensures places { length nexts.new.next ≡ length nexts.old.next }
    ensures arena { IsWithoutUnused arena.old arena.new }
    ensures cells { KeepsCells (is_unused arena.old) arena.old.cells arena.new.cells }
{
    let mut at = nexts.first();
    let mut kept = Kept {
        before: None,
        count: 0,
    };
    nexts.forget_first();
    for _step in 0..arena.numbers() {
        let Some(number) = at else {
            continue;
        };
        at = nexts.after(number);
        kept = pass(arena, nexts, kept, number);
    }
    kept.count
}

// Frees a chain that is not in use, or links it.
fn pass(arena: &mut Arena, nexts: &mut NextLinks, kept: Kept, number: u32) -> Kept
    requires chain { IsChain arena.old number }
    requires place { number < length nexts.old.next }
    requires before { IfSome kept.before (λ b. b < length nexts.old.next) }
    requires count { kept.count + 1 < 2 ^ 64 }
    ensures links { nexts.new ≡ passed_links (is_unused arena.old number) nexts.old kept.before number }
    ensures kept { result ≡ passed (is_unused arena.old number) kept number }
    ensures arena { arena.new ≡ passed_arena (is_unused arena.old number) arena.old number }
{
    let chain = Chain { number };
    if arena.is_unused(chain) {
        arena.free_chain(chain);
        return kept;
    }
    nexts.put_after(kept.before, number);
    Kept {
        before: Some(number),
        count: kept.count + 1,
    }
}
