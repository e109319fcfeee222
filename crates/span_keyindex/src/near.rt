//! Look-ups that begin at a chain near the key.
//!
//! A search waits for memory at each level of a large tree. Searches of several keys that go down the tree together wait for
//! each other's cells at once: so a transaction's keys are searched ahead, a few at a time, and a look-up then begins at the
//! chain where the search ended.
ghost use Rattle.std.specs.Prelude.{◌≡◌, ℕ, ◌*◌, ◌<◌, ◌^◌, IsTrue, length};
ghost use Rattle.span_keyindex.specs.Indexes.{IsIndexOf, entries_of};
ghost use Rattle.span_keytree.specs.Roots.{IsSearchCost};
ghost use Rattle.span_keyindex.specs.Limits.{search_lanes};
ghost use Rattle.span_keyindex.specs.Nears.{ComesBefore, IsLookCost, IsNear};
ghost use Rattle.span_keyindex.specs.declared.near.TheConstants.{SEARCH_LANES};

use crate::index::KeyIndex;
use span_arena::arena::Arena;
use span_arena::steps::Steps;
use span_arena::token::NO_CHAIN;
use span_keycode::compare::word_at;
use span_keycode::key::Key;
use span_keytree::next::{NextLinks, number_of};
use std::cmp::Ordering;
use std::sync::ledger::Ledger;

/// How many keys are searched together.
pub const SEARCH_LANES: usize = 16;

/// The number is the one that the definitions name.
pub fn lanes_are_stated()
    ensures { SEARCH_LANES ≡ search_lanes }
{}

/// How many bytes of a key its head has.
const HEAD_BYTES: usize = 16;

/// The first bytes of a key as two numbers, so that most keys are compared without a branch that waits for memory. After a key's end are
/// zeros. A key of less than eight bytes has zeros alone.
#[derive(Clone, Copy, Debug, PartialEq, Eq)]
struct KeyHead {
    first: u64,
    second: u64,
}

const NO_HEAD: KeyHead = KeyHead {
    first: 0,
    second: 0,
};

/// A search that goes on: the next cell, and that of the last key so far that is not after the one searched for.
#[derive(Clone, Copy, Debug)]
struct Search {
    at: u32,
    before: u32,
    /// The head of the key searched for.
    head: KeyHead,
}

/// What a search reads of a cell.
#[derive(Clone, Copy, Debug)]
struct CellRead {
    left: u32,
    right: u32,
    head: KeyHead,
}

const NO_CELL: CellRead = CellRead {
    left: NO_CHAIN,
    right: NO_CHAIN,
    head: NO_HEAD,
};

// The head of a key.
fn head_of(key: &[u8]) -> KeyHead {
    let len = key.len();
    if len < 8 {
        return NO_HEAD;
    }
    let first = word_at(key, 0);
    if len >= HEAD_BYTES {
        return KeyHead {
            first,
            second: word_at(key, 8),
        };
    }
    // Of the last eight bytes some are in the first number.
    let last = word_at(key, len - 8);
    KeyHead {
        first,
        second: (last << (8 * (15 - len))) << 8,
    }
}

// Whether a head is before another.
fn is_head_before(head: KeyHead, other: KeyHead) -> bool {
    (head.first < other.first) | ((head.first == other.first) & (head.second < other.second))
}

// What a search reads of the cell of a lane.
fn read(arena: &Arena, at: u32) -> CellRead {
    if at as usize >= arena.numbers() {
        return NO_CELL;
    }
    let links = arena.links(at);
    CellRead {
        left: number_of(links.left),
        right: number_of(links.right),
        head: head_of(arena.key(at)),
    }
}

// Reads the cells of all lanes. Nothing here waits for what is read: so all of them come from memory side by side.
fn read_all(arena: &Arena, lanes: &[Search; SEARCH_LANES]) -> [CellRead; SEARCH_LANES] {
    let mut cells = [NO_CELL; SEARCH_LANES];
    for i in 0..SEARCH_LANES {
        cells[i] = read(arena, lanes[i].at);
    }
    cells
}

// Whether a key is before that of a lane's cell, mostly by their heads.
fn is_to_the_left(arena: &Arena, key: &[u8], lane: Search, cell: CellRead) -> bool
    requires { lane.at < length arena.now.cells }
{
    if lane.head == cell.head {
        arena.order(lane.at, key).is_lt()
    } else {
        is_head_before(lane.head, cell.head)
    }
}

// One of two numbers, without a branch: half of the branches here would be guessed wrong.
fn choose(is_first: bool, first: u32, second: u32) -> u32 {
    let mask = 0u32.wrapping_sub(u32::from(is_first));
    (first & mask) | (second & !mask)
}

// One level down.
fn step<C: Ledger, W: Ledger>(
    arena: &Arena,
    key: &[u8],
    lane: Search,
    cell: CellRead,
    steps: &mut Steps<C, W>,
) -> Search
    ensures { IsLookCost 1 steps.old steps.new }
{
    if lane.at as usize >= arena.numbers() {
        return lane;
    }
    steps.compare();
    let is_left = is_to_the_left(arena, key, lane, cell);
    Search {
        at: choose(is_left, cell.left, cell.right),
        before: choose(is_left, lane.before, lane.at),
        head: lane.head,
    }
}

// One level down for each key.
fn step_all<C: Ledger, W: Ledger>(
    arena: &Arena,
    keys: &[Key],
    lanes: &mut [Search; SEARCH_LANES],
    steps: &mut Steps<C, W>,
)
    ensures { IsLookCost search_lanes steps.old steps.new }
{
    let cells = read_all(arena, lanes);
    for i in 0..keys.len().min(SEARCH_LANES) {
        lanes[i] = step(arena, keys[i].as_slice(), lanes[i], cells[i], steps);
    }
}

fn search_all<C: Ledger, W: Ledger>(
    arena: &Arena,
    keys: &[Key],
    lanes: &mut [Search; SEARCH_LANES],
    levels: usize,
    steps: &mut Steps<C, W>,
)
    ensures { IsLookCost (search_lanes * levels) steps.old steps.new }
{
    for _level in 0..levels {
        step_all(arena, keys, lanes, steps);
    }
}

// The search for one key alone.
fn search_one<C: Ledger, W: Ledger>(
    arena: &Arena,
    key: &[u8],
    first: Search,
    levels: usize,
    steps: &mut Steps<C, W>,
) -> Search
    ensures { IsLookCost levels steps.old steps.new }
{
    let mut lane = first;
    for _level in 0..levels {
        lane = step(arena, key, lane, read(arena, lane.at), steps);
    }
    lane
}

// A search for a key, from a cell on.
fn first_lane(key: &[u8], root: u32) -> Search {
    Search {
        at: root,
        before: NO_CHAIN,
        head: head_of(key),
    }
}

// The searches for the keys, from a cell on.
fn first_lanes(keys: &[Key], root: u32) -> [Search; SEARCH_LANES] {
    let none = Search {
        at: NO_CHAIN,
        before: NO_CHAIN,
        head: NO_HEAD,
    };
    let mut lanes = [none; SEARCH_LANES];
    for i in 0..keys.len().min(SEARCH_LANES) {
        lanes[i] = first_lane(keys[i].as_slice(), root);
    }
    lanes
}

// The chain that a search ends at, if there is one. Its link to the next is read too, though no chain is after itself: a look near the
// key needs it, and here those of all lanes come from memory at once.
fn lane_chain(arena: &Arena, nexts: &NextLinks, lane: Search) -> u32 {
    if arena.is_chain(lane.before) & (nexts.number_after(lane.before) != lane.before) {
        lane.before
    } else {
        NO_CHAIN
    }
}

// The chains that the searches end at.
fn lane_chains(
    arena: &Arena,
    nexts: &NextLinks,
    lanes: &[Search; SEARCH_LANES],
) -> [u32; SEARCH_LANES] {
    let mut near = [NO_CHAIN; SEARCH_LANES];
    for i in 0..SEARCH_LANES {
        near[i] = lane_chain(arena, nexts, lanes[i]);
    }
    near
}

// The chain near a key alone, before none for others: a transaction of one row has one key, and the other searches would cost as much.
fn near_one<C: Ledger, W: Ledger>(
    index: &KeyIndex,
    arena: &Arena,
    key: &[u8],
    root: u32,
    steps: &mut Steps<C, W>,
) -> [u32; SEARCH_LANES]
    ensures { IsLookCost index.now.tree.levels steps.old steps.new }
{
    let mut near = [NO_CHAIN; SEARCH_LANES];
    let lane = search_one(arena, key, first_lane(key, root), index.tree.levels, steps);
    near[0] = lane_chain(arena, &index.nexts, lane);
    near
}

/// The chains near some keys, up to `SEARCH_LANES`: where all is well, those of the last keys that are not after them.
pub(crate) fn near_keys<C: Ledger, W: Ledger>(
    index: &KeyIndex,
    arena: &Arena,
    keys: &[Key],
    steps: &mut Steps<C, W>,
) -> [u32; SEARCH_LANES]
    requires { IsIndexOf index.now arena.now }
    ensures { (d : ℕ) → length (entries_of index.now arena.now) < 2 ^ d
        → IsSearchCost (search_lanes * d) steps.old steps.new }
{
    let root = number_of(index.tree.root);
    if keys.len() == 1 {
        return near_one(index, arena, keys[0].as_slice(), root, steps);
    }
    let mut lanes = first_lanes(keys, root);
    search_all(arena, keys, &mut lanes, index.tree.levels, steps);
    lane_chains(arena, &index.nexts, &lanes)
}

/// Where a key is, by a chain near it.
#[derive(Clone, Copy, Debug)]
pub(crate) enum Near {
    /// The chain is the key's.
    Here,
    /// The key is between the chain's and the next one, so it has no chain.
    Absent,
    Unknown,
}

// Whether a key is before that of a chain; each is where there is none.
fn is_before(arena: &Arena, key: &[u8], at: Option<u32>) -> bool
    ensures { IsTrue result → ComesBefore arena.now.cells key.now at }
{
    match at {
        None => true,
        Some(at) => (at as usize) < arena.numbers() && arena.order(at, key).is_lt(),
    }
}

/// Where a key is, by the chain with the number `near`.
pub(crate) fn near_key(index: &KeyIndex, arena: &Arena, key: &[u8], near: u32) -> Near
    requires { IsIndexOf index.now arena.now }
    ensures { IsNear (entries_of index.now arena.now) key.now near result }
{
    if near as usize >= arena.numbers() || !arena.is_chain(near) {
        return Near::Unknown;
    }
    match arena.order(near, key) {
        Ordering::Less => Near::Unknown,
        Ordering::Equal => Near::Here,
        Ordering::Greater => {
            if is_before(arena, key, index.nexts.after(near)) {
                Near::Absent
            } else {
                Near::Unknown
            }
        }
    }
}
