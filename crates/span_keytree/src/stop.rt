//! Where a key after all others changes the tree, found from the last key.
//!
//! What is above the last cell on the tree's right side whose parts differ in height stays as it was (`last.rt`). In a load in the order of
//! its keys most such cells are a few levels above the last key. So the way goes up from there by the cells that the arena keeps above each,
//! which is a guess, and then down along right links: where that ends with the last key, it is on the right side.
ghost use Rattle.std.specs.Prelude.{◌≡◌, None, Some, IfSome, IsTrue};
ghost use Rattle.span_keytree.specs.Arenas.{IsArenaOf};
ghost use Rattle.span_keytree.specs.Roots.{entries_at, tree_of, IsSearchTree};
ghost use Rattle.span_keytree.specs.Lasts.{IsStop};
ghost use Rattle.span_keytree.specs.Nexts.{last_cell};

use crate::last::{last_below, stop_below};
use crate::next::number_of;
use crate::part::is_uneven;
use crate::tree::TreeRoot;
use span_arena::arena::Arena;
use span_arena::token::NO_CHAIN;

// The cell above the first one whose parts differ in height, on the way up from a cell. It is a guess.
fn climb(arena: &Arena, from: u32, levels: usize) -> u32 {
    let mut at = from;
    for _ in 0..levels {
        if at as usize >= arena.numbers() {
            return NO_CHAIN;
        }
        let above = arena.above(at);
        if is_uneven(arena.links(at).balance) {
            return above;
        }
        at = above;
    }
    NO_CHAIN
}

// Whether a link leads to a cell.
fn leads_to(link: Option<u32>, cell: u32) -> bool
    ensures { IsTrue result → link ≡ Some cell }
{
    match link {
        None => false,
        Some(other) => other == cell,
    }
}

// The stop below a cell, where that is on the right side of the tree.
fn stop_in_part(arena: &Arena, index: &TreeRoot, cell: u32) -> Option<u32>
    requires search { IsSearchTree arena.now.cells index.now }
    requires chains { IsArenaOf (entries_at arena.now.cells index.now) arena.now }
    requires last { index.now.last ≡ last_cell None (entries_at arena.now.cells index.now) }
    ensures { IfSome result (λ p. IsStop p (tree_of arena.now.cells index.now)) }
{
    let Some(last) = index.last else {
        return None;
    };
    if !arena.is_chain(cell) {
        return None;
    }
    let end = last_below(arena, Some(cell), None, index.levels);
    if !leads_to(end, last) {
        return None;
    }
    stop_below(arena, Some(cell), None, index.levels, None)
}

/// A cell on the right side of the tree, and above a part that takes up one level more: all above it stays as it was where a key after all
/// others is put into the tree. None where there is none.
pub(crate) fn last_stop(arena: &Arena, index: &TreeRoot) -> Option<u32>
    requires search { IsSearchTree arena.now.cells index.now }
    requires chains { IsArenaOf (entries_at arena.now.cells index.now) arena.now }
    requires last { index.now.last ≡ last_cell None (entries_at arena.now.cells index.now) }
    ensures { IfSome result (λ p. IsStop p (tree_of arena.now.cells index.now)) }
{
    let cell = climb(arena, number_of(index.last), index.levels);
    match stop_in_part(arena, index, cell) {
        Some(stop) => Some(stop),
        None => stop_below(arena, index.root, None, index.levels, None),
    }
}
