//! The last key of a tree, and a key after all those of an index.
ghost use Rattle.std.specs.Prelude.{◌≡◌, ◌+◌, ◌<◌, ◌^◌, true, length, IfOk, IfErr, IfSome, OnErr};
ghost use Rattle.span_arena.specs.Cells.{cell_at};
ghost use Rattle.span_arena.specs.Content.{with_cells};
ghost use Rattle.span_keytree.specs.Arenas.{IsArenaOf};
ghost use Rattle.span_keytree.specs.Avl.{grown_height};
ghost use Rattle.span_keytree.specs.Effects.{IsInside};
ghost use Rattle.span_keytree.specs.Entries.{IsAbsent};
ghost use Rattle.span_keytree.specs.Roots.{IsIndex, IsSlot, entries_at, tree_of};
ghost use Rattle.span_keytree.specs.Items.{items};
ghost use Rattle.span_keytree.specs.Lasts.{is_after, IsAboveRight, IsAfterCost, IsHangCost, IsNewPart, IsStop, IsTreeCost, stop_by, stop_in, with_root};
ghost use Rattle.span_keytree.specs.Nexts.{last_cell};
ghost use Rattle.span_keytree.specs.Puts.{tree_at, IsAdded, IsTree};
ghost use Rattle.span_keytree.specs.Trees.{count};

use crate::join::{GrownPart, join_right};
use crate::next::NextLinks;
use crate::put::add_key;
use crate::stop::last_stop;
use crate::tree::TreeRoot;
use span_arena::arena::Arena;
use span_arena::cell::Balance;
use span_arena::steps::Steps;
use span_keycode::key::Key;
use span_value::refusal::Refusal;
use std::sync::ledger::Ledger;

/// The last cell of the tree below a link, or `before` where it has none.
pub fn last_below(arena: &Arena, at: Option<u32>, before: Option<u32>, levels: usize) -> Option<u32>
    requires { IsTree arena.now.cells at (tree_at arena.now.cells levels at) }
    ensures { result ≡ last_cell before (items (tree_at arena.now.cells levels at)) }
{
    let Some(at) = at else {
        return before;
    };
    let right = arena.links(at).right;
    last_below(arena, right, Some(at), levels - 1)
}

/// Whether a key is after that of the last cell. Where there is no last cell, each key is.
pub(crate) fn is_after<C: Ledger, W: Ledger>(
    arena: &Arena,
    last: Option<u32>,
    key: &[u8],
    steps: &mut Steps<C, W>,
) -> bool
    requires { IsInside arena.now.cells last }
    ensures after { result ≡ is_after arena.now.cells last key.now }
    ensures steps { IsAfterCost last steps.old steps.new }
{
    match last {
        None => true,
        Some(last) => arena.compare(last, key, steps).is_gt(),
    }
}

/// Puts a key into an index whose keys are all before it. No key is compared.
pub(crate) fn put_last<C: Ledger, W: Ledger>(
    arena: &mut Arena,
    nexts: &mut NextLinks,
    index: &mut TreeRoot,
    key: &mut Key,
    steps: &mut Steps<C, W>,
) -> Result<u32, Refusal>
    requires own { IsIndex arena.old.cells nexts.old index.old }
    requires chains { IsArenaOf (entries_at arena.old.cells index.old) arena.old }
    requires after { is_after arena.old.cells index.old.last key.old ≡ true }
    ensures ok { IfOk result (IsSlot arena.old arena.new nexts.old nexts.new index.old index.new key.old) }
    ensures arena { OnErr result (arena.new ≡ arena.old) }
    ensures nexts { OnErr result (nexts.new ≡ nexts.old) }
    ensures index { OnErr result (index.new ≡ index.old) }
    ensures memory { IfErr result (λ why. why ≡ Refusal.OutOfMemory) }
    ensures absent { OnErr result (IsAbsent (entries_at arena.old.cells index.old) key.old) }
    ensures own { IsIndex arena.new.cells nexts.new index.new }
    ensures cost { IsTreeCost 0 (tree_of arena.old.cells index.old) steps.old steps.new }
{
    // With the numbers the levels fit.
    arena.numbers_fit();
    let stop = last_stop(arena, index);
    let mut part = GrownPart {
        cell: 0,
        root: 0,
        grew: false,
    };
    // First a tree of the key alone.
    let _is_added = add_key(arena, nexts, None, index.last, 0, key, &mut part, steps)?;
    hang_last(arena, index.root, index.levels, stop, &mut part, steps);
    *index = TreeRoot {
        root: Some(part.root),
        levels: height_after(index.levels, part.grew),
        last: Some(part.cell),
    };
    Ok(part.cell)
}

fn height_after(levels: usize, grew: bool) -> usize
    requires { levels + 1 < 2 ^ 64 }
    ensures { result ≡ grown_height grew levels }
{
    if grew { levels + 1 } else { levels }
}

// As `hang`, of a whole tree. What is above `stop` stays as it was, since a cell below it takes up one level more.
fn hang_last<C: Ledger, W: Ledger>(
    arena: &mut Arena,
    root: Option<u32>,
    levels: usize,
    stop: Option<u32>,
    part: &mut GrownPart,
    steps: &mut Steps<C, W>,
)
    requires tree { IsTree arena.old.cells root (tree_at arena.old.cells levels root) }
    requires stop { IfSome stop (λ p. IsStop p (tree_at arena.old.cells levels root)) }
    requires part { IsNewPart arena.old.cells part.old }
    requires free { count part.old.cell (tree_at arena.old.cells levels root) ≡ 0 }
    requires above { IsAboveRight (cell_at arena.old.cells part.old.cell).key (tree_at arena.old.cells levels root) }
    ensures added { IsAdded arena.old.cells arena.new.cells (tree_at arena.old.cells levels root)
        (cell_at arena.old.cells part.old.cell).key part.new }
    ensures arena { arena.new ≡ with_cells arena.old arena.new.cells }
    ensures cell { part.new.cell ≡ part.old.cell }
    ensures steps { IsHangCost (tree_at arena.old.cells levels root) part.new steps.old steps.new }
{
    let Some(above) = stop else {
        hang(arena, root, levels, part, steps);
        return;
    };
    let right = arena.links(above).right;
    hang(arena, right, levels, part, steps);
    join_right(arena, above, part, steps);
    begin_with(part, root);
}

// Along the right links, the cell above the last one whose parts differ in height.
pub(crate) fn stop_below(
    arena: &Arena,
    at: Option<u32>,
    above: Option<u32>,
    levels: usize,
    stop: Option<u32>,
) -> Option<u32>
    requires { IsTree arena.now.cells at (tree_at arena.now.cells levels at) }
    ensures { result ≡ stop_in stop above (tree_at arena.now.cells levels at) }
{
    let Some(at) = at else {
        return stop;
    };
    let links = arena.links(at);
    let next = stop_by(links.balance, stop, above);
    stop_below(arena, links.right, Some(at), levels - 1, next)
}

fn stop_by(balance: Balance, stop: Option<u32>, above: Option<u32>) -> Option<u32>
    ensures { result ≡ stop_by balance stop above }
{
    match balance {
        Balance::Even => stop,
        Balance::LeftHigh | Balance::RightHigh => above,
    }
}

fn begin_with(part: &mut GrownPart, root: Option<u32>)
    ensures { part.new ≡ with_root root part.old }
{
    if let Some(root) = root {
        part.root = root;
    }
}

// Joins a new cell to the right end of the tree below a link: its key is above all those of the tree. `part` is the new
// cell alone, and then what became of the tree.
fn hang<C: Ledger, W: Ledger>(
    arena: &mut Arena,
    at: Option<u32>,
    levels: usize,
    part: &mut GrownPart,
    steps: &mut Steps<C, W>,
)
    requires tree { IsTree arena.old.cells at (tree_at arena.old.cells levels at) }
    requires part { IsNewPart arena.old.cells part.old }
    requires free { count part.old.cell (tree_at arena.old.cells levels at) ≡ 0 }
    requires above { IsAboveRight (cell_at arena.old.cells part.old.cell).key (tree_at arena.old.cells levels at) }
    ensures added { IsAdded arena.old.cells arena.new.cells (tree_at arena.old.cells levels at)
        (cell_at arena.old.cells part.old.cell).key part.new }
    ensures arena { arena.new ≡ with_cells arena.old arena.new.cells }
    ensures cell { part.new.cell ≡ part.old.cell }
    ensures steps { IsHangCost (tree_at arena.old.cells levels at) part.new steps.old steps.new }
{
    let Some(at) = at else {
        return;
    };
    let right = arena.links(at).right;
    hang(arena, right, levels - 1, part, steps);
    join_right(arena, at, part, steps);
}
