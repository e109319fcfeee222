//! The part of the tree that a key more changes, found from a chain near it.
ghost use Rattle.std.specs.Prelude.{◌≡◌, ◌&&◌, IfSome};
ghost use Rattle.span_keytree.specs.Arenas.{IsArenaOf};
ghost use Rattle.span_keytree.specs.Roots.{entries_at, tree_of, IsSearchTree};
ghost use Rattle.span_keytree.specs.Puts.{tree_at, IsSearchOf, IsTree};
ghost use Rattle.span_keytree.specs.Ways.{is_part_for, is_uneven, way_in, way_left, way_right, IsPartFor};

use crate::climb::climb_from;
use crate::next::NextLinks;
use crate::tree::TreeRoot;
use span_arena::arena::Arena;
use span_arena::cell::Balance;
use span_arena::steps::Steps;
use std::cmp::Ordering;
use std::sync::ledger::Ledger;

/// The way down to the place of a key: whether it goes to the left, whether to the right, and whether it comes to a cell whose parts
/// differ in height.
#[derive(Clone, Copy, Debug)]
pub struct Way {
    pub is_left: bool,
    pub is_right: bool,
    pub is_uneven: bool,
}

impl Way {
    // The way from a cell whose left part this is the way in.
    fn after_left(self, balance: Balance) -> Way
        ensures { result ≡ way_left balance self }
    {
        Way {
            is_left: true,
            is_right: self.is_right,
            is_uneven: self.is_uneven || is_uneven(balance),
        }
    }

    // The way from a cell whose right part this is the way in.
    fn after_right(self, balance: Balance) -> Way
        ensures { result ≡ way_right balance self }
    {
        Way {
            is_left: self.is_left,
            is_right: true,
            is_uneven: self.is_uneven || is_uneven(balance),
        }
    }

    // Whether a way in a left part makes the whole a part for the key.
    fn is_enough_left(self) -> bool
        ensures { result ≡ self.is_right && self.is_uneven }
    {
        self.is_right && self.is_uneven
    }

    // Whether a way in a right part makes the whole a part for the key.
    fn is_enough_right(self) -> bool
        ensures { result ≡ self.is_left && self.is_uneven }
    {
        self.is_left && self.is_uneven
    }
}

const NO_WAY: Way = Way {
    is_left: false,
    is_right: false,
    is_uneven: false,
};

pub(crate) fn is_uneven(balance: Balance) -> bool
    ensures { result ≡ is_uneven balance }
{
    match balance {
        Balance::Even => false,
        Balance::LeftHigh | Balance::RightHigh => true,
    }
}

// The way below a link; none where the key is met.
fn way_below<C: Ledger, W: Ledger>(
    arena: &Arena,
    at: Option<u32>,
    levels: usize,
    key: &[u8],
    steps: &mut Steps<C, W>,
) -> Way
    requires { IsTree arena.now.cells at (tree_at arena.now.cells levels at) }
    ensures way { result ≡ way_in key.now (tree_at arena.now.cells levels at) }
    ensures steps { IsSearchOf (tree_at arena.now.cells levels at) steps.old steps.new }
{
    let Some(at) = at else {
        return NO_WAY;
    };
    match arena.compare(at, key, steps) {
        Ordering::Less => {
            let links = arena.links(at);
            let way = way_below(arena, links.left, levels - 1, key, steps);
            way.after_left(links.balance)
        }
        Ordering::Equal => NO_WAY,
        Ordering::Greater => {
            let links = arena.links(at);
            let way = way_below(arena, links.right, levels - 1, key, steps);
            way.after_right(links.balance)
        }
    }
}

// Whether the tree below a link is a part that is changed alone where the key is put into it.
fn is_part<C: Ledger, W: Ledger>(
    arena: &Arena,
    at: Option<u32>,
    levels: usize,
    key: &[u8],
    steps: &mut Steps<C, W>,
) -> bool
    requires { IsTree arena.now.cells at (tree_at arena.now.cells levels at) }
    ensures part { result ≡ is_part_for key.now (tree_at arena.now.cells levels at) }
    ensures steps { IsSearchOf (tree_at arena.now.cells levels at) steps.old steps.new }
{
    let Some(at) = at else {
        return false;
    };
    match arena.compare(at, key, steps) {
        Ordering::Less => {
            let left = arena.links(at).left;
            let way = way_below(arena, left, levels - 1, key, steps);
            way.is_enough_left()
        }
        Ordering::Equal => false,
        Ordering::Greater => {
            let right = arena.links(at).right;
            let way = way_below(arena, right, levels - 1, key, steps);
            way.is_enough_right()
        }
    }
}

/// The cell at which a part begins that alone is changed where the key is put into it; `near` is the number of a chain near the key. None
/// where none is found.
pub(crate) fn part_for<C: Ledger, W: Ledger>(
    arena: &Arena,
    nexts: &NextLinks,
    index: &TreeRoot,
    key: &[u8],
    near: u32,
    steps: &mut Steps<C, W>,
) -> Option<u32>
    requires search { IsSearchTree arena.now.cells index.now }
    requires chains { IsArenaOf (entries_at arena.now.cells index.now) arena.now }
    ensures part { IfSome result (IsPartFor arena.now.cells index.now key.now) }
    ensures steps { IsSearchOf (tree_of arena.now.cells index.now) steps.old steps.new }
{
    let cell = climb_from(arena, nexts, near, index.levels);
    if !arena.is_chain(cell) {
        return None;
    }
    if is_part(arena, Some(cell), index.levels, key, steps) {
        Some(cell)
    } else {
        None
    }
}
