//! A key put into a tree.
ghost use Rattle.std.specs.Prelude.{◌≡◌, length, IfOk, IfErr, OnErr};
ghost use Rattle.span_arena.specs.Cells.{new_cell};
ghost use Rattle.span_arena.specs.Content.{IsNewChain, with_at};
ghost use Rattle.span_keytree.specs.Effects.{IsInside, IsWithin};
ghost use Rattle.span_keytree.specs.Nexts.{before_in, with_cell, with_place};
ghost use Rattle.span_keytree.specs.Puts.{AreChains, IsTree, tree_at, put_of, put_result, IsPut, IsPutIn, IsNext, IsPutCost, IsNotFound};

use crate::join::{GrownPart, join_left, join_right};
use crate::next::NextLinks;
use smallvec::SmallVec;
use span_arena::arena::Arena;
use span_arena::steps::Steps;
use span_keycode::key::Key;
use span_value::refusal::Refusal;
use std::cmp::Ordering;
use std::mem;
use std::sync::ledger::Ledger;

// A new chain, after another in the order of the keys, or first. It takes the key.
fn add_cell<C: Ledger, W: Ledger>(
    arena: &mut Arena,
    nexts: &mut NextLinks,
    before: Option<u32>,
    key: &mut Key,
    steps: &mut Steps<C, W>,
) -> Result<u32, Refusal>
    requires links { length nexts.old.next ≡ length arena.old.cells }
    requires before { IsInside arena.old.cells before }
    ensures chain { IfOk result (IsNewChain arena.old arena.new) }
    ensures cells { IfOk result (λ at. arena.new.cells ≡ with_at arena.old.cells at (new_cell key.old)) }
    ensures nexts { IfOk result (λ at. nexts.new ≡ with_cell (with_place nexts.old at) before at) }
    ensures same { length arena.old.cells ≡ length arena.old.chains }
    ensures err { OnErr result (arena.new ≡ arena.old) }
    ensures err_nexts { OnErr result (nexts.new ≡ nexts.old) }
    ensures memory { IfErr result (λ why. why ≡ Refusal.OutOfMemory) }
    ensures steps { IsWithin 2 steps.old steps.new }
{
    let numbers = arena.numbers();
    nexts.add_empty_link()?;
    let key = mem::replace(key, Key::from_small_vec(SmallVec::new(nexts.allocator())));
    match arena.new_chain(key, steps) {
        Ok(chain) => {
            if (chain.number as usize) < numbers {
                // The number was that of another chain, and has a place.
                nexts.drop_empty_link();
            }
            steps.write();
            nexts.put_after(before, chain.number);
            Ok(chain.number)
        }
        Err(why) => {
            nexts.drop_empty_link();
            Err(why)
        }
    }
}

/// Puts a key into a tree of at most `levels` levels below a link, unless it is there; whether it was put. `before` is the chain of
/// the last key below all those of the tree. The key is lent from level to level, and taken where its chain is made. `part` gets the
/// key's cell, and what became of the tree. `Refusal::OutOfMemory` leaves the tree as it was; it comes only where the key is not there.
pub(crate) fn add_key<C: Ledger, W: Ledger>(
    arena: &mut Arena,
    nexts: &mut NextLinks,
    at: Option<u32>,
    before: Option<u32>,
    levels: usize,
    key: &mut Key,
    part: &mut GrownPart,
    steps: &mut Steps<C, W>,
) -> Result<bool, Refusal>
    requires tree { IsTree arena.old.cells at (tree_at arena.old.cells levels at) }
    requires chains { AreChains arena.old (tree_at arena.old.cells levels at) }
    requires links { length nexts.old.next ≡ length arena.old.cells }
    requires before { IsInside arena.old.cells before }
    ensures ok { IfOk result (λ is_added.
        IsPut arena.old.cells arena.new.cells (tree_at arena.old.cells levels at) key.old (put_of is_added part.new)) }
    ensures arena { IfOk result (λ is_added. IsPutIn arena.old arena.new (put_of is_added part.new)) }
    ensures nexts { IfOk result (λ is_added.
        IsNext nexts.old nexts.new (before_in key.old before (tree_at arena.old.cells levels at))
        (put_of is_added part.new)) }
    ensures err { OnErr result (arena.new ≡ arena.old) }
    ensures err_nexts { OnErr result (nexts.new ≡ nexts.old) }
    ensures absent { OnErr result (IsNotFound key.old (tree_at arena.old.cells levels at)) }
    ensures memory { IfErr result (λ why. why ≡ Refusal.OutOfMemory) }
    ensures steps { IsPutCost (tree_at arena.old.cells levels at) (put_result result part.new) steps.old steps.new }
{
    let Some(at) = at else {
        let cell = add_cell(arena, nexts, before, key, steps)?;
        *part = GrownPart {
            cell,
            root: cell,
            grew: true,
        };
        return Ok(true);
    };
    match arena.compare(at, key.as_slice(), steps) {
        Ordering::Less => {
            let left = arena.links(at).left;
            let put_left = add_key(arena, nexts, left, before, levels - 1, key, part, steps)?;
            if !put_left {
                return Ok(false);
            }
            join_left(arena, at, part, steps);
            Ok(true)
        }
        Ordering::Equal => {
            part.cell = at;
            Ok(false)
        }
        Ordering::Greater => {
            let right = arena.links(at).right;
            let put_right = add_key(arena, nexts, right, Some(at), levels - 1, key, part, steps)?;
            if !put_right {
                return Ok(false);
            }
            join_right(arena, at, part, steps);
            Ok(true)
        }
    }
}
