//! A walk over the short keys alone, in order.
//!
//! Which keys are short is found a batch at a time, by lengths and links alone; then the batch is handed out.
ghost use Rattle.std.specs.Iterator.{YieldsFirstBy, item_count};
ghost use Rattle.std.specs.Prelude.{◌≡◌, ◌<◌, ◌++◌, [], ◌∷◌, length, false, IsTrue, MatchOption};
ghost use Rattle.span_keytree.specs.Entries.{entry_of};
ghost use Rattle.span_keywalk.specs.Walks.{short_entries, walked_in, AreBelow, AreShortOf};

use crate::ahead::Ahead;
use crate::batch::{Batch, Refill, find_short};
use span_arena::arena::Arena;
use span_arena::token::Chain;
use span_keytree::next::NextLinks;
use std::marker::Model;

/// Keys of at most `most` bytes with their chains, the keys lent. Contracts see the entries that are left.
#[derive(Drop)]
pub struct ShortWalk<'a> {
    arena: &'a Arena,
    nexts: &'a NextLinks,
    stop: Option<u32>,
    most: usize,
    ahead: Ahead,
    found: Refill,
}

impl<'a> Model for ShortWalk<'a> {
    ghost use Rattle.std.specs.Prelude.{◌≡◌, ◌++◌, List, length};
    ghost use Rattle.span_keytree.specs.Entries.{KeyEntry};
    ghost use Rattle.span_keywalk.specs.Walks.{cell_entries, short_entries, walked_in, AreBelow};

    ghost Value = { List KeyEntry };

    ghost view = { λ w. cell_entries w.arena.now.cells w.found.batch
        ++ short_entries w.most (walked_in w.arena.now.cells w.nexts.now w.found.left w.found.at w.stop) };

    ghost invariant = { λ w.
        AreBelow (length w.arena.now.cells) (cell_entries w.arena.now.cells w.found.batch)
        × AreBelow (length w.arena.now.cells) (walked_in w.arena.now.cells w.nexts.now w.found.left w.found.at w.stop)
        × (length w.nexts.now.next ≡ length w.arena.now.cells) };
}

impl<'a> Iterator for ShortWalk<'a> {
    type Item = (&'a [u8], Chain);

    ghost next_gives = { YieldsFirstBy entry_of (λ w. w) };

    ghost remaining = { item_count (λ w. w) };

    #[inline(always)]
    fn next(&mut self) -> Option<(&'a [u8], Chain)> {
        let late = self.next_late()?;
        Some((late.key(), late.chain()))
    }
}

impl<'a> ShortWalk<'a> {
    /// As `next`, with no look at the key.
    #[inline(always)]
    pub fn next_late(&mut self) -> Option<LateKey<'a>>
        ensures { MatchOption result
            ((self.old ≡ []) × (self.new ≡ []))
            (λ late. self.old ≡ late ∷ self.new) }
    {
        let arena = self.arena;
        if let Some(number) = self.found.batch.next() {
            return Some(LateKey { arena, number });
        }
        find_more(
            self.arena,
            self.nexts,
            &mut self.ahead,
            self.most,
            self.stop,
            &mut self.found,
        );
        let number = self.found.batch.next()?;
        Some(LateKey { arena, number })
    }

    /// The keys that were found together with the last one, and not handed out. The walk goes on after them.
    pub fn take_found(&mut self) -> LateKeys<'a>
        ensures { self.old ≡ result ++ self.new }
    {
        LateKeys {
            arena: self.arena,
            numbers: self.found.batch.take(),
        }
    }

    /// Whether the walk looks at keys ahead from now on: it does at first. Where few of them are read, that takes longer. Nothing else is
    /// changed.
    pub fn look_at_keys(&mut self, has_keys: bool)
        ensures { self.new ≡ self.old }
    {
        self.ahead.has_keys = has_keys;
    }
}

/// A chain whose key is looked at only where it is asked for. Contracts see the entry.
#[derive(Drop)]
pub struct LateKey<'a> {
    arena: &'a Arena,
    number: u32,
}

impl<'a> Model for LateKey<'a> {
    ghost use Rattle.std.specs.Prelude.{◌<◌, length};
    ghost use Rattle.span_arena.specs.Cells.{cell_at};
    ghost use Rattle.span_keytree.specs.Entries.{KeyEntry};
    ghost use Rattle.span_keytree.specs.Items.{entry};

    ghost Value = { KeyEntry };

    ghost view = { λ k. entry (cell_at k.arena.now.cells k.number).key k.number };

    ghost invariant = { λ k. k.number < length k.arena.now.cells };
}

impl<'a> LateKey<'a> {
    /// The key.
    pub fn key(&self) -> &'a [u8]
        ensures { result.now ≡ self.now.key }
    {
        self.arena.key(self.number)
    }

    /// How many bytes the key has. It is looked at only where these are 65,535 or more.
    pub fn key_len(&self) -> usize
        ensures { result ≡ length self.now.key }
    {
        self.arena.key_len(self.number)
    }

    /// The chain.
    pub fn chain(&self) -> Chain
        ensures { result ≡ self.now.chain }
    {
        Chain {
            number: self.number,
        }
    }
}

/// Chains that a walk found together, whose keys are looked at only where they are asked for. Contracts see the entries that are left.
#[derive(Drop)]
pub struct LateKeys<'a> {
    arena: &'a Arena,
    numbers: Batch,
}

impl<'a> Model for LateKeys<'a> {
    ghost use Rattle.std.specs.Prelude.{List, length};
    ghost use Rattle.span_keytree.specs.Entries.{KeyEntry};
    ghost use Rattle.span_keywalk.specs.Walks.{cell_entries, AreBelow};

    ghost Value = { List KeyEntry };

    ghost view = { λ k. cell_entries k.arena.now.cells k.numbers };

    ghost invariant = { λ k. AreBelow (length k.arena.now.cells) (cell_entries k.arena.now.cells k.numbers) };
}

impl<'a> LateKeys<'a> {
    /// The next one, with no look at its key.
    #[inline(always)]
    pub fn next_late(&mut self) -> Option<LateKey<'a>>
        ensures { MatchOption result
            ((self.old ≡ []) × (self.new ≡ []))
            (λ late. self.old ≡ late ∷ self.new) }
    {
        let number = self.numbers.next()?;
        Some(LateKey {
            arena: self.arena,
            number,
        })
    }
}

/// The keys of at most `most` bytes of those that a walk is to come to.
pub(crate) fn short_from<'a>(
    arena: &'a Arena,
    nexts: &'a NextLinks,
    ahead: Ahead,
    most: usize,
    at: Option<u32>,
    stop: Option<u32>,
    left: usize,
) -> ShortWalk<'a>
    requires below { AreBelow (length arena.now.cells) (walked_in arena.now.cells nexts.now left at stop) }
    requires places { length nexts.now.next ≡ length arena.now.cells }
    ensures { result ≡ short_entries most (walked_in arena.now.cells nexts.now left at stop) }
{
    ShortWalk {
        arena,
        nexts,
        stop,
        most,
        ahead,
        found: Refill::none(at, left),
    }
}

// A batch more, with the look ahead that is due.
fn one_batch(
    arena: &Arena,
    nexts: &NextLinks,
    ahead: &mut Ahead,
    most: usize,
    at: Option<u32>,
    stop: Option<u32>,
    left: usize,
) -> Refill
    requires below { AreBelow (length arena.now.cells) (walked_in arena.now.cells nexts.now left at stop) }
    requires places { length nexts.now.next ≡ length arena.now.cells }
    ensures short { let all = walked_in arena.now.cells nexts.now left at stop in
        AreShortOf arena.now.cells nexts.now most stop all result.batch result.left result.at }
    ensures more { IsTrue result.goes_on → result.left < left }
    ensures empty { IsTrue result.goes_on → result.batch ≡ [] }
    ensures none { result.goes_on ≡ false → result.batch ≡ []
        → walked_in arena.now.cells nexts.now result.left result.at stop ≡ [] }
{
    let Some(number) = at else {
        return Refill::none(at, left);
    };
    let keys = ahead.look_before(arena, nexts, number, stop).max(1);
    let found = find_short(arena, nexts, most, number, stop, left, keys);
    ahead.look_after(arena, &found.batch, left.saturating_sub(found.left));
    found
}

// Finds the next batch in which there is a key, or at the end of the walk one in which there is none. It is no part of the walk's loop:
// what most keys take is short without it, and inlined there.
#[inline(never)]
fn find_more(
    arena: &Arena,
    nexts: &NextLinks,
    ahead: &mut Ahead,
    most: usize,
    stop: Option<u32>,
    found: &mut Refill,
)
    requires below { AreBelow (length arena.now.cells)
        (walked_in arena.now.cells nexts.now found.old.left found.old.at stop) }
    requires places { length nexts.now.next ≡ length arena.now.cells }
    ensures short { let all = walked_in arena.now.cells nexts.now found.old.left found.old.at stop in
        AreShortOf arena.now.cells nexts.now most stop all found.new.batch found.new.left found.new.at }
    ensures none { found.new.batch ≡ [] → walked_in arena.now.cells nexts.now found.new.left found.new.at stop ≡ [] }
{
    *found = one_batch(arena, nexts, ahead, most, found.at, stop, found.left);
    while found.goes_on {
        *found = one_batch(arena, nexts, ahead, most, found.at, stop, found.left);
    }
}
