//! The chains of all keys in order.
ghost use Rattle.std.specs.Prelude.{◌≡◌, ℕ, ◌<◌, ◌^◌, length, map};
ghost use Rattle.std.specs.Iterator.{YieldsFirstBy, item_count};
ghost use Rattle.span_keytree.specs.Entries.{entries_from};
ghost use Rattle.span_keytree.specs.Roots.{entries_at, IsIndex, IsSearchCost};

use crate::find::first_from;
use span_arena::arena::Arena;
use span_arena::steps::Steps;
use span_arena::token::Chain;
use span_keytree::next::NextLinks;
use span_keytree::tree::TreeRoot;
use std::marker::Model;
use std::sync::ledger::Ledger;

/// Chains of keys that follow each other. Contracts see the chains that are left.
#[derive(Drop)]
pub struct Chains<'a> {
    nexts: &'a NextLinks,
    at: Option<u32>,
    left: usize,
}

impl<'a> Model for Chains<'a> {
    ghost use Rattle.std.specs.Prelude.{List, length};
    ghost use Rattle.span_arena.specs.declared.token.Chain.{Chain};
    ghost use Rattle.span_keywalk.specs.Walks.{chains_in, AreNumbersBelow};

    ghost Value = { List Chain };

    ghost view = { λ c. chains_in c.nexts.now c.left c.at };

    ghost invariant = { λ c. AreNumbersBelow (length c.nexts.now.next) (chains_in c.nexts.now c.left c.at) };
}

impl<'a> Iterator for Chains<'a> {
    type Item = Chain;

    ghost next_gives = { YieldsFirstBy (λ c. c) (λ c. c) };

    ghost remaining = { item_count (λ c. c) };

    fn next(&mut self) -> Option<Chain> {
        if self.left == 0 {
            return None;
        }
        let Some(number) = self.at else {
            return None;
        };
        self.left -= 1;
        self.at = self.nexts.after(number);
        Some(Chain { number })
    }
}

/// The chains of all keys, in order of the keys.
pub fn chains_of<'a>(arena: &Arena, nexts: &'a NextLinks, index: &TreeRoot) -> Chains<'a>
    requires { IsIndex arena.now.cells nexts.now index.now }
    ensures { result ≡ map (λ e. e.chain) (entries_at arena.now.cells index.now) }
{
    let _ = index;
    Chains {
        nexts,
        at: nexts.first(),
        left: arena.numbers(),
    }
}

/// The chains of the keys from `low` on, in order of the keys. The first is found as by `first_from`.
pub fn chains_from<'a, C: Ledger, W: Ledger>(
    arena: &Arena,
    nexts: &'a NextLinks,
    index: &TreeRoot,
    low: &[u8],
    steps: &mut Steps<C, W>,
) -> Chains<'a>
    requires { IsIndex arena.now.cells nexts.now index.now }
    ensures chains { result ≡ map (λ e. e.chain) (entries_from low.now (entries_at arena.now.cells index.now)) }
    ensures cost { (d : ℕ) → length (entries_at arena.now.cells index.now) < 2 ^ d
        → IsSearchCost d steps.old steps.new }
{
    let at = first_from(arena, index, low, steps);
    Chains {
        nexts,
        at,
        left: arena.numbers(),
    }
}
