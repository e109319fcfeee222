//! The tree of keys, and the links from each to the next.
ghost use Rattle.std.specs.Prelude.{◌≡◌, ℕ, ◌<◌, ◌^◌, false, length, IfOk, IfErr, OnErr};
ghost use Rattle.span_keytree.specs.Arenas.{IsArenaOf};
ghost use Rattle.span_keytree.specs.Entries.{IsAbsent};
ghost use Rattle.span_keytree.specs.Roots.{IsIndex, IsSlot, IsSlotCost, entries_at, tree_of};
ghost use Rattle.span_keytree.specs.Lasts.{is_after, IsTreeCost};
ghost use Rattle.span_keytree.specs.Puts.{AreChains};
ghost use Rattle.span_keytree.specs.Trees.{height};
ghost use Rattle.span_keytree.specs.Ways.{IsNearSlotCost, IsPartFor};

use crate::join::GrownPart;
use crate::last::{is_after, put_last};
use crate::next::NextLinks;
use crate::part::part_for;
use crate::put::add_key;
use span_arena::arena::Arena;
use span_arena::steps::Steps;
use span_keycode::key::Key;
use span_value::refusal::Refusal;
use std::sync::ledger::Ledger;

/// Where the tree of keys begins, how many levels it has, and the cell of its last key. Its links are in the arena.
#[derive(Clone, Copy, Debug)]
pub struct TreeRoot {
    pub root: Option<u32>,
    pub levels: usize,
    pub last: Option<u32>,
}

/// The number of a key's chain: its own, or a new one where the key is not there, which takes the key. `Refusal::OutOfMemory` leaves
/// all but the key as it was; it comes only where the key is not there.
pub fn slot_for<C: Ledger, W: Ledger>(
    arena: &mut Arena,
    nexts: &mut NextLinks,
    index: &mut TreeRoot,
    key: &mut Key,
    steps: &mut Steps<C, W>,
) -> Result<u32, Refusal>
    requires own { IsIndex arena.old.cells nexts.old index.old }
    requires chains { IsArenaOf (entries_at arena.old.cells index.old) arena.old }
    ensures ok { IfOk result (IsSlot arena.old arena.new nexts.old nexts.new index.old index.new key.old) }
    ensures arena { OnErr result (arena.new ≡ arena.old) }
    ensures nexts { OnErr result (nexts.new ≡ nexts.old) }
    ensures index { OnErr result (index.new ≡ index.old) }
    ensures memory { IfErr result (λ why. why ≡ Refusal.OutOfMemory) }
    ensures absent { OnErr result (IsAbsent (entries_at arena.old.cells index.old) key.old) }
    ensures own { IsIndex arena.new.cells nexts.new index.new }
    ensures cost { (d : ℕ) → length (entries_at arena.old.cells index.old) < 2 ^ d
        → IsSlotCost d steps.old steps.new }
{
    // A load in the order of its keys puts each after all others.
    if is_after(arena, index.last, key.as_slice(), steps) {
        put_last(arena, nexts, index, key, steps)
    } else {
        put_among(arena, nexts, index, key, steps)
    }
}

// As `slot_for`, of a key that is not after all others.
fn put_among<C: Ledger, W: Ledger>(
    arena: &mut Arena,
    nexts: &mut NextLinks,
    index: &mut TreeRoot,
    key: &mut Key,
    steps: &mut Steps<C, W>,
) -> Result<u32, Refusal>
    requires own { IsIndex arena.old.cells nexts.old index.old }
    requires chains { AreChains arena.old (tree_of arena.old.cells index.old) }
    requires among { is_after arena.old.cells index.old.last key.old ≡ false }
    ensures ok { IfOk result (IsSlot arena.old arena.new nexts.old nexts.new index.old index.new key.old) }
    ensures arena { OnErr result (arena.new ≡ arena.old) }
    ensures nexts { OnErr result (nexts.new ≡ nexts.old) }
    ensures index { OnErr result (index.new ≡ index.old) }
    ensures memory { IfErr result (λ why. why ≡ Refusal.OutOfMemory) }
    ensures absent { OnErr result (IsAbsent (entries_at arena.old.cells index.old) key.old) }
    ensures own { IsIndex arena.new.cells nexts.new index.new }
    ensures cost { IsTreeCost (height (tree_of arena.old.cells index.old)) (tree_of arena.old.cells index.old)
        steps.old steps.new }
{
    // With the numbers the levels fit.
    arena.numbers_fit();
    let mut part = GrownPart {
        cell: 0,
        root: 0,
        grew: false,
    };
    let is_added = add_key(
        arena,
        nexts,
        index.root,
        None,
        index.levels,
        key,
        &mut part,
        steps,
    )?;
    if !is_added {
        return Ok(part.cell);
    }
    index.root = Some(part.root);
    if part.grew {
        index.levels += 1;
    }
    Ok(part.cell)
}

/// As `slot_for`, where `near` is mostly the number of a chain near the key. Where a part of the tree is found that alone is changed, the key
/// is put into that.
pub fn slot_near<C: Ledger, W: Ledger>(
    arena: &mut Arena,
    nexts: &mut NextLinks,
    index: &mut TreeRoot,
    key: &mut Key,
    near: u32,
    steps: &mut Steps<C, W>,
) -> Result<u32, Refusal>
    requires own { IsIndex arena.old.cells nexts.old index.old }
    requires chains { IsArenaOf (entries_at arena.old.cells index.old) arena.old }
    ensures ok { IfOk result (IsSlot arena.old arena.new nexts.old nexts.new index.old index.new key.old) }
    ensures arena { OnErr result (arena.new ≡ arena.old) }
    ensures nexts { OnErr result (nexts.new ≡ nexts.old) }
    ensures index { OnErr result (index.new ≡ index.old) }
    ensures memory { IfErr result (λ why. why ≡ Refusal.OutOfMemory) }
    ensures absent { OnErr result (IsAbsent (entries_at arena.old.cells index.old) key.old) }
    ensures own { IsIndex arena.new.cells nexts.new index.new }
    ensures cost { (d : ℕ) → length (entries_at arena.old.cells index.old) < 2 ^ d
        → IsNearSlotCost d steps.old steps.new }
{
    if is_after(arena, index.last, key.as_slice(), steps) {
        return put_last(arena, nexts, index, key, steps);
    }
    match part_for(arena, nexts, index, key.as_slice(), near, steps) {
        Some(cell) => put_into(arena, nexts, index, cell, key, steps),
        None => put_among(arena, nexts, index, key, steps),
    }
}

// As `slot_for`, of a key that is put into a part of the tree. What is above the part stays as it was.
fn put_into<C: Ledger, W: Ledger>(
    arena: &mut Arena,
    nexts: &mut NextLinks,
    index: &TreeRoot,
    cell: u32,
    key: &mut Key,
    steps: &mut Steps<C, W>,
) -> Result<u32, Refusal>
    requires own { IsIndex arena.old.cells nexts.old index.now }
    requires chains { AreChains arena.old (tree_of arena.old.cells index.now) }
    requires among { is_after arena.old.cells index.now.last key.old ≡ false }
    requires part { IsPartFor arena.old.cells index.now key.old cell }
    ensures ok { IfOk result (IsSlot arena.old arena.new nexts.old nexts.new index.now index.now key.old) }
    ensures arena { OnErr result (arena.new ≡ arena.old) }
    ensures nexts { OnErr result (nexts.new ≡ nexts.old) }
    ensures memory { IfErr result (λ why. why ≡ Refusal.OutOfMemory) }
    ensures absent { OnErr result (IsAbsent (entries_at arena.old.cells index.now) key.old) }
    ensures own { IsIndex arena.new.cells nexts.new index.now }
    ensures cost { IsTreeCost (height (tree_of arena.old.cells index.now)) (tree_of arena.old.cells index.now)
        steps.old steps.new }
{
    let mut part = GrownPart {
        cell: 0,
        root: 0,
        grew: false,
    };
    let _is_added = add_key(
        arena,
        nexts,
        Some(cell),
        None,
        index.levels,
        key,
        &mut part,
        steps,
    )?;
    Ok(part.cell)
}
