//! A walk over keys in order.
ghost use Rattle.std.specs.Iterator.{YieldsFirstBy, item_count};
ghost use Rattle.std.specs.Prelude.{◌≡◌, ℕ, ◌*◌, ◌<◌, ◌^◌, [], length};
ghost use Rattle.span_keytree.specs.Entries.{entries_from, entries_under, entry_of};
ghost use Rattle.span_keytree.specs.Items.{entries_between};
ghost use Rattle.span_keytree.specs.Roots.{entries_at, AreTwoSearches, IsIndex, IsSearchCost};
ghost use Rattle.span_keywalk.specs.Walks.{is_stop, short_entries};

use crate::ahead::Ahead;
use crate::find::{first_from, first_past};
use crate::short::{ShortWalk, short_from};
use span_arena::arena::Arena;
use span_arena::steps::Steps;
use span_arena::token::Chain;
use span_keytree::next::NextLinks;
use span_keytree::tree::TreeRoot;
use std::marker::Model;
use std::sync::ledger::Ledger;

/// Keys with their chains, the keys lent. Contracts see the entries that are left.
#[derive(Drop)]
pub struct Walk<'a> {
    arena: &'a Arena,
    nexts: &'a NextLinks,
    at: Option<u32>,
    stop: Option<u32>,
    left: usize,
    ahead: Ahead,
}

impl<'a> Model for Walk<'a> {
    ghost use Rattle.std.specs.Prelude.{◌≡◌, List, length};
    ghost use Rattle.span_keytree.specs.Entries.{KeyEntry};
    ghost use Rattle.span_keywalk.specs.Walks.{walked_in, AreBelow};

    ghost Value = { List KeyEntry };

    ghost view = { λ w. walked_in w.arena.now.cells w.nexts.now w.left w.at w.stop };

    ghost invariant = { λ w.
        AreBelow (length w.arena.now.cells) (walked_in w.arena.now.cells w.nexts.now w.left w.at w.stop)
        × (length w.nexts.now.next ≡ length w.arena.now.cells) };
}

impl<'a> Iterator for Walk<'a> {
    type Item = (&'a [u8], Chain);

    ghost next_gives = { YieldsFirstBy entry_of (λ w. w) };

    ghost remaining = { item_count (λ w. w) };

    #[inline]
    fn next(&mut self) -> Option<(&'a [u8], Chain)> {
        if self.left == 0 {
            return None;
        }
        let Some(at) = self.at else {
            return None;
        };
        if is_stop(at, self.stop) {
            return None;
        }
        self.ahead.pass(self.arena, self.nexts, at, self.stop);
        self.left -= 1;
        self.at = self.nexts.after(at);
        Some((self.arena.key(at), Chain { number: at }))
    }
}

impl<'a> Walk<'a> {
    /// Where the walk looks at keys ahead, it looks at their newest rows too from now on: they are read of most keys. Nothing else is
    /// changed.
    pub fn look_at_rows(&mut self)
        ensures { self.new ≡ self.old }
    {
        self.ahead.has_rows = true;
    }

    /// The same walk once more, from where it is.
    pub fn copy(&self) -> Walk<'a>
        ensures { result ≡ self.now }
    {
        Walk {
            arena: self.arena,
            nexts: self.nexts,
            at: self.at,
            stop: self.stop,
            left: self.left,
            ahead: self.ahead,
        }
    }

    /// The keys that have at most `most` bytes. Lengths and links alone are read of the others.
    pub fn with_short_keys(self, most: usize) -> ShortWalk<'a>
        ensures { result ≡ short_entries most self.entry }
    {
        let Walk {
            arena,
            nexts,
            at,
            stop,
            left,
            mut ahead,
        } = self;
        ahead.most = most;
        short_from(arena, nexts, ahead, most, at, stop, left)
    }
}

pub(crate) fn is_stop(at: u32, stop: Option<u32>) -> bool
    ensures { result ≡ is_stop at stop }
{
    match stop {
        None => false,
        Some(stop) => at == stop,
    }
}

/// Every key with its chain, in order of the keys, which are lent.
pub fn all<'a>(arena: &'a Arena, nexts: &'a NextLinks, index: &TreeRoot) -> Walk<'a>
    requires { IsIndex arena.now.cells nexts.now index.now }
    ensures { result ≡ entries_at arena.now.cells index.now }
{
    Walk {
        arena,
        nexts,
        at: nexts.first(),
        stop: None,
        left: arena.numbers(),
        ahead: Ahead::new(index),
    }
}

/// The keys from `low` on and before `high` with their chains, in order of the keys, which are lent. The first is found as by
/// `first_from`, and so is the end.
pub fn walk_range<'a, C: Ledger, W: Ledger>(
    arena: &'a Arena,
    nexts: &'a NextLinks,
    index: &TreeRoot,
    low: &[u8],
    high: &[u8],
    steps: &mut Steps<C, W>,
) -> Walk<'a>
    requires { IsIndex arena.now.cells nexts.now index.now }
    ensures entries { result ≡ entries_between low.now high.now (entries_at arena.now.cells index.now) }
    ensures cost { (d : ℕ) → length (entries_at arena.now.cells index.now) < 2 ^ d
        → AreTwoSearches d steps.old steps.new }
{
    if low.cmp(&high).is_ge() {
        return none(arena, nexts, index);
    }
    let at = first_from(arena, index, low, steps);
    let stop = first_from(arena, index, high, steps);
    Walk {
        arena,
        nexts,
        at,
        stop,
        left: arena.numbers(),
        ahead: Ahead::new(index),
    }
}

/// The keys that begin with these bytes, with their chains, in order of the keys, which are lent. The first is found as by
/// `first_from`, the end as by `first_past`.
pub fn walk_under<'a, C: Ledger, W: Ledger>(
    arena: &'a Arena,
    nexts: &'a NextLinks,
    index: &TreeRoot,
    front: &[u8],
    steps: &mut Steps<C, W>,
) -> Walk<'a>
    requires { IsIndex arena.now.cells nexts.now index.now }
    ensures entries { result ≡ entries_under front.now (entries_at arena.now.cells index.now) }
    ensures cost { (d : ℕ) → length (entries_at arena.now.cells index.now) < 2 ^ d
        → AreTwoSearches d steps.old steps.new }
{
    let at = first_from(arena, index, front, steps);
    let stop = first_past(arena, index, front, steps);
    Walk {
        arena,
        nexts,
        at,
        stop,
        left: arena.numbers(),
        ahead: Ahead::new(index),
    }
}

/// The keys from `low` on with their chains, in order of the keys, which are lent. The first is found as by `first_from`.
pub fn walk_from<'a, C: Ledger, W: Ledger>(
    arena: &'a Arena,
    nexts: &'a NextLinks,
    index: &TreeRoot,
    low: &[u8],
    steps: &mut Steps<C, W>,
) -> Walk<'a>
    requires { IsIndex arena.now.cells nexts.now index.now }
    ensures entries { result ≡ entries_from low.now (entries_at arena.now.cells index.now) }
    ensures cost { (d : ℕ) → length (entries_at arena.now.cells index.now) < 2 ^ d
        → IsSearchCost d steps.old steps.new }
{
    let at = first_from(arena, index, low, steps);
    Walk {
        arena,
        nexts,
        at,
        stop: None,
        left: arena.numbers(),
        ahead: Ahead::new(index),
    }
}

fn none<'a>(arena: &'a Arena, nexts: &'a NextLinks, index: &TreeRoot) -> Walk<'a>
    requires { length nexts.now.next ≡ length arena.now.cells }
    ensures { result ≡ [] }
{
    Walk {
        arena,
        nexts,
        at: None,
        stop: None,
        left: 0,
        ahead: Ahead::new(index),
    }
}
