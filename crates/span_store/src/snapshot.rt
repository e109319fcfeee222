//! The rows of a shard at a timestamp, lent one after another: no list of them is made.
ghost use Rattle.std.specs.Prelude.{◌≡◌, ◌++◌, [], ◌∷◌, All, MatchOption, None, Some, filter, length};
ghost use Rattle.std.specs.Iterator.{YieldsFirstBy, item_count};
ghost use Rattle.span_arena.specs.Content.{IsChain};
ghost use Rattle.std.specs.List.{filter_map};
ghost use Rattle.span_store.specs.Reads.{entry_row, has_short_key, seen_entry, snapshot};

use super::place::row_in;
use super::search::walk;
use super::store::Store;
use span_arena::arena::Arena;
use span_keycode::range::KeyRange;
use span_keywalk::short::{LateKey, LateKeys, ShortWalk};
use span_keywalk::walk::Walk;
use std::marker::Model;

/// A row, lent by the shard.
#[derive(Clone, Copy, Debug)]
pub struct Entry<'a> {
    /// The coded key.
    pub key: &'a [u8],
    /// The packed cells.
    pub row: &'a [u8],
}

/// The rows of a shard in a range at a timestamp. Contracts see them as a list, in the order of their keys.
#[derive(Drop)]
pub struct Snapshot<'a> {
    walk: Walk<'a>,
    arena: &'a Arena,
    s: u64,
}

impl<'a> Model for Snapshot<'a> {
    ghost use Rattle.std.specs.Prelude.{List, All};
    ghost use Rattle.std.specs.List.{filter_map};
    ghost use Rattle.span_arena.specs.Content.{IsChain};
    ghost use Rattle.span_store.specs.Reads.{seen_entry};
    ghost use Rattle.span_store.specs.Reads.{KeyRow};

    ghost Value = { List KeyRow };

    ghost view = { λ v. filter_map (seen_entry v.arena.now v.s) v.walk };

    ghost invariant = { λ v. All (λ e. IsChain v.arena.now e.chain.number) v.walk };
}

impl<'a> Snapshot<'a> {
    /// The same rows once more.
    pub fn copy(&self) -> Snapshot<'a>
        ensures { result ≡ self.now }
    {
        Snapshot {
            walk: self.walk.copy(),
            arena: self.arena,
            s: self.s,
        }
    }

    /// The rows whose keys have at most `most` bytes, in order. The others are passed over by their keys alone.
    pub fn with_short_keys(self, most: usize) -> ShortRows<'a>
        ensures { result ≡ filter (has_short_key most) self.entry }
    {
        let Snapshot { walk, arena, s } = self;
        ShortRows {
            walk: walk.with_short_keys(most),
            arena,
            s,
        }
    }
}

/// The rows of a snapshot whose keys are short. Contracts see those that are left.
#[derive(Drop)]
pub struct ShortRows<'a> {
    walk: ShortWalk<'a>,
    arena: &'a Arena,
    s: u64,
}

impl<'a> Model for ShortRows<'a> {
    ghost use Rattle.std.specs.Prelude.{List, All};
    ghost use Rattle.std.specs.List.{filter_map};
    ghost use Rattle.span_arena.specs.Content.{IsChain};
    ghost use Rattle.span_store.specs.Reads.{seen_entry};
    ghost use Rattle.span_store.specs.Reads.{KeyRow};

    ghost Value = { List KeyRow };

    ghost view = { λ v. filter_map (seen_entry v.arena.now v.s) v.walk };

    ghost invariant = { λ v. All (λ e. IsChain v.arena.now e.chain.number) v.walk };
}

impl<'a> Iterator for ShortRows<'a> {
    type Item = Entry<'a>;

    ghost next_gives = { YieldsFirstBy entry_row (λ v. v) };

    ghost remaining = { item_count (λ v. v) };

    #[inline(always)]
    fn next(&mut self) -> Option<Entry<'a>> {
        let late = self.next_late()?;
        Some(late.entry())
    }
}

impl<'a> ShortRows<'a> {
    /// As `next`, with no look at the key.
    #[inline(always)]
    pub fn next_late(&mut self) -> Option<LateEntry<'a>>
        ensures { MatchOption result
            ((self.old ≡ []) × (self.new ≡ []))
            (λ late. self.old ≡ late ∷ self.new) }
    {
        next_row(&mut self.walk, self.arena, self.s)
    }

    /// The rows that were found together with the last one, and not handed out. Those that are left are after them.
    pub fn take_found(&mut self) -> LateRows<'a>
        ensures { self.old ≡ result ++ self.new }
    {
        let (arena, s) = (self.arena, self.s);
        LateRows {
            keys: self.walk.take_found(),
            arena,
            s,
        }
    }

    /// Whether keys are looked at ahead from now on: they are at first. Where few of them are read, that takes longer. Nothing else is
    /// changed.
    pub fn look_at_keys(&mut self, has_keys: bool)
        ensures { self.new ≡ self.old }
    {
        self.walk.look_at_keys(has_keys);
    }
}

/// Rows of a snapshot that were found together. Contracts see those that are left.
#[derive(Drop)]
pub struct LateRows<'a> {
    keys: LateKeys<'a>,
    arena: &'a Arena,
    s: u64,
}

impl<'a> Model for LateRows<'a> {
    ghost use Rattle.std.specs.Prelude.{List, All};
    ghost use Rattle.std.specs.List.{filter_map};
    ghost use Rattle.span_arena.specs.Content.{IsChain};
    ghost use Rattle.span_store.specs.Reads.{seen_entry};
    ghost use Rattle.span_store.specs.Reads.{KeyRow};

    ghost Value = { List KeyRow };

    ghost view = { λ v. filter_map (seen_entry v.arena.now v.s) v.keys };

    ghost invariant = { λ v. All (λ e. IsChain v.arena.now e.chain.number) v.keys };
}

impl<'a> LateRows<'a> {
    /// The next row, with no look at its key.
    #[inline(always)]
    pub fn next_late(&mut self) -> Option<LateEntry<'a>>
        ensures { MatchOption result
            ((self.old ≡ []) × (self.new ≡ []))
            (λ late. self.old ≡ late ∷ self.new) }
    {
        next_found(&mut self.keys, self.arena, self.s)
    }
}

/// The next row at s of the keys that are left of those that were found together.
#[inline(always)]
fn next_found<'a>(keys: &mut LateKeys<'a>, arena: &'a Arena, s: u64) -> Option<LateEntry<'a>>
    requires { All (λ e. IsChain arena.now e.chain.number) keys.old }
    ensures chains { All (λ e. IsChain arena.now e.chain.number) keys.new }
    ensures row { let rows = filter_map (seen_entry arena.now s) in MatchOption result
        ((rows keys.old ≡ []) × (rows keys.new ≡ []))
        (λ late. rows keys.old ≡ late ∷ rows keys.new) }
{
    while let Some(key) = keys.next_late() {
        if let Some(entry) = seen_row(key, arena, s) {
            return Some(entry);
        }
    }
    None
}

/// A row, lent by the shard, whose key is looked at only where it is asked for. Contracts see both.
#[derive(Drop)]
pub struct LateEntry<'a> {
    key: LateKey<'a>,
    row: &'a [u8],
}

impl<'a> Model for LateEntry<'a> {
    ghost use Rattle.span_store.specs.Reads.{KeyRow};

    ghost Value = { KeyRow };

    ghost view = { λ e. record { key = e.key.key; row = e.row.now } };
}

impl<'a> LateEntry<'a> {
    /// How many bytes the key has. It is looked at only where these are 65,535 or more.
    pub fn key_len(&self) -> usize
        ensures { result ≡ length self.now.key }
    {
        self.key.key_len()
    }

    /// The packed cells.
    pub fn row(&self) -> &'a [u8]
        ensures { result.now ≡ self.now.row }
    {
        self.row
    }

    /// The row with its key.
    pub fn entry(&self) -> Entry<'a>
        ensures { entry_row result ≡ self.now }
    {
        Entry {
            key: self.key.key(),
            row: self.row,
        }
    }
}

/// The row at s of a key, if there is one.
#[inline(always)]
fn seen_row<'a>(key: LateKey<'a>, arena: &'a Arena, s: u64) -> Option<LateEntry<'a>>
    requires { IsChain arena.now key.chain.number }
    ensures { MatchOption result
        (seen_entry arena.now s key.entry ≡ None)
        (λ late. seen_entry arena.now s key.entry ≡ Some late) }
{
    let row = row_in(arena, key.chain(), s)?;
    Some(LateEntry {
        key,
        row: row.as_slice(),
    })
}

/// The next row at s of the keys that are left.
#[inline(always)]
fn next_row<'a>(walk: &mut ShortWalk<'a>, arena: &'a Arena, s: u64) -> Option<LateEntry<'a>>
    requires { All (λ e. IsChain arena.now e.chain.number) walk.old }
    ensures chains { All (λ e. IsChain arena.now e.chain.number) walk.new }
    ensures row { let rows = filter_map (seen_entry arena.now s) in MatchOption result
        ((rows walk.old ≡ []) × (rows walk.new ≡ []))
        (λ late. rows walk.old ≡ late ∷ rows walk.new) }
{
    while let Some(key) = walk.next_late() {
        if let Some(entry) = seen_row(key, arena, s) {
            return Some(entry);
        }
    }
    None
}

/// The rows of a store in a range at s.
pub fn snapshot_of<'a>(store: &'a Store, range: &KeyRange, s: u64) -> Snapshot<'a>
    ensures { result ≡ snapshot range.now s store.now }
{
    let mut walk = walk(&store.index, &store.arena, range);
    walk.look_at_rows();
    Snapshot {
        walk,
        arena: &store.arena,
        s,
    }
}
