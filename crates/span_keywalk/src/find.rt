//! Searches for a key.
ghost use Rattle.std.specs.Prelude.{◌≡◌, ℕ, ◌<◌, ◌^◌, length, MatchOption, None};
ghost use Rattle.span_keytree.specs.Entries.{IsAbsent};
ghost use Rattle.span_keytree.specs.Items.{from, past, HasCell};
ghost use Rattle.span_keytree.specs.Roots.{entries_at, IsSearchCost, IsSearchTree};
ghost use Rattle.span_keytree.specs.Nexts.{first_in, first_past, head_cell};
ghost use Rattle.span_keytree.specs.Puts.{tree_at, IsSearchOf, IsTree};
ghost use Rattle.span_keytree.specs.Trees.{search_in};

use span_arena::arena::Arena;
use span_arena::steps::Steps;
use span_keytree::tree::TreeRoot;
use std::cmp::Ordering;
use std::sync::ledger::Ledger;

/// The number of a key's chain, if the key is there. It takes no memory.
pub fn find(arena: &Arena, index: &TreeRoot, key: &[u8]) -> Option<u32>
    requires { IsSearchTree arena.now.cells index.now }
    ensures { MatchOption result
        (IsAbsent (entries_at arena.now.cells index.now) key.now)
        (HasCell (entries_at arena.now.cells index.now) key.now) }
{
    find_below(arena, index.root, index.levels, key)
}

fn find_below(arena: &Arena, at: Option<u32>, levels: usize, key: &[u8]) -> Option<u32>
    requires { IsTree arena.now.cells at (tree_at arena.now.cells levels at) }
    ensures { result ≡ search_in key.now (tree_at arena.now.cells levels at) }
{
    let Some(at) = at else {
        return None;
    };
    match arena.order(at, key) {
        Ordering::Less => {
            let left = arena.links(at).left;
            find_below(arena, left, levels - 1, key)
        }
        Ordering::Equal => Some(at),
        Ordering::Greater => {
            let right = arena.links(at).right;
            find_below(arena, right, levels - 1, key)
        }
    }
}

/// The number of the chain of the first key that is not below these bytes, if there is one. It takes no memory.
pub(crate) fn first_from<C: Ledger, W: Ledger>(
    arena: &Arena,
    index: &TreeRoot,
    key: &[u8],
    steps: &mut Steps<C, W>,
) -> Option<u32>
    requires { IsSearchTree arena.now.cells index.now }
    ensures first { result ≡ head_cell None (from key.now (entries_at arena.now.cells index.now)) }
    ensures cost { (d : ℕ) → length (entries_at arena.now.cells index.now) < 2 ^ d
        → IsSearchCost d steps.old steps.new }
{
    first_below(arena, index.root, None, index.levels, key, steps)
}

// `after` is the chain of the first key above all those of the tree.
fn first_below<C: Ledger, W: Ledger>(
    arena: &Arena,
    at: Option<u32>,
    after: Option<u32>,
    levels: usize,
    key: &[u8],
    steps: &mut Steps<C, W>,
) -> Option<u32>
    requires { IsTree arena.now.cells at (tree_at arena.now.cells levels at) }
    ensures first { result ≡ first_in key.now after (tree_at arena.now.cells levels at) }
    ensures steps { IsSearchOf (tree_at arena.now.cells levels at) steps.old steps.new }
{
    let Some(at) = at else {
        return after;
    };
    match arena.compare(at, key, steps) {
        Ordering::Less => {
            let left = arena.links(at).left;
            first_below(arena, left, Some(at), levels - 1, key, steps)
        }
        Ordering::Equal => Some(at),
        Ordering::Greater => {
            let right = arena.links(at).right;
            first_below(arena, right, after, levels - 1, key, steps)
        }
    }
}

/// The number of the chain of the first key after all that begin with these bytes, if there is one. It takes no memory.
pub(crate) fn first_past<C: Ledger, W: Ledger>(
    arena: &Arena,
    index: &TreeRoot,
    front: &[u8],
    steps: &mut Steps<C, W>,
) -> Option<u32>
    requires { IsSearchTree arena.now.cells index.now }
    ensures first { result ≡ head_cell None (past front.now (entries_at arena.now.cells index.now)) }
    ensures cost { (d : ℕ) → length (entries_at arena.now.cells index.now) < 2 ^ d
        → IsSearchCost d steps.old steps.new }
{
    past_below(arena, index.root, None, index.levels, front, steps)
}

// `after` is the chain of the first key above all those of the tree.
fn past_below<C: Ledger, W: Ledger>(
    arena: &Arena,
    at: Option<u32>,
    after: Option<u32>,
    levels: usize,
    front: &[u8],
    steps: &mut Steps<C, W>,
) -> Option<u32>
    requires { IsTree arena.now.cells at (tree_at arena.now.cells levels at) }
    ensures first { result ≡ first_past front.now after (tree_at arena.now.cells levels at) }
    ensures steps { IsSearchOf (tree_at arena.now.cells levels at) steps.old steps.new }
{
    let Some(at) = at else {
        return after;
    };
    if arena.is_past(at, front, steps) {
        let left = arena.links(at).left;
        past_below(arena, left, Some(at), levels - 1, front, steps)
    } else {
        let right = arena.links(at).right;
        past_below(arena, right, after, levels - 1, front, steps)
    }
}
