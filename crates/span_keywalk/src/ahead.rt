//! Keys that a walk comes to, looked at before.
//!
//! Where keys were put in no order a walk waits for memory at each: it learns the next key's number only when the last link has come.
//! So it looks ahead, in several lanes at once: from keys of the tree's upper levels, which lie about evenly among all, the links are
//! followed together, and each key is looked at, with its newest row where the caller is to read it. A cell mostly lies in two lines of
//! memory: where its key begins, and where the key's length and the links are. Both are looked at.
//!
//! Keys that were put in order lie one after another, and memory is waited for at few of them; but where a walk passes over most of them,
//! those of a batch lie apart. They are then looked at together, before the first of them is handed out.
//!
//! Nothing that a walk hands out rests on it.

use crate::batch::{BATCH_KEYS, Batch, LINKS_TRIED};
use span_arena::arena::Arena;
use span_arena::token::NO_CHAIN;
use span_keycode::key::LONGEST_KEY;
use span_keytree::next::{NextLinks, number_of};
use span_keytree::tree::TreeRoot;

/// More lanes do not go faster: the lines of memory that are waited for at a time are fewer.
const LANES: usize = 12;

/// About how many keys lie from the begin of a lane to that of the next, at most.
const LANE_KEYS: usize = 32;

/// The same where the rows are looked at too: each takes three lines of memory more, so fewer are looked at before they are read.
const LANE_ROWS: usize = 8;

/// How many keys a lane looks at, at most.
const MOST_STEPS: usize = 64;

/// What is added up over the looks at that many keys, their links and rows is no more: a key has at most LONGEST_KEY bytes, there is one link or
/// none to the left, and the first byte of a row is no more than 255.
const MOST_FOUND: usize = LANES * MOST_STEPS * (LONGEST_KEY + 256);

/// How many keys a walk hands out before it first looks ahead, and before it tries again.
const FIRST_KEYS: usize = 64;

/// The number of the next key of the same table differs by no more where keys were put in order: memory is waited for at few of them.
const NEAR: u32 = 8;

/// From this many keys on a walk looks ahead at keys alone: fewer mostly lie in the processor's caches.
const MANY_KEYS: usize = 262_144;

/// How many keys a batch passes over at most.
const MOST_PASSED: usize = 512;

/// The keys of a batch lie apart where one in this many, or fewer, were found among those that it passed over.
const APART: usize = 2;

/// More levels than a tree of 2^32 keys has above the lowest.
const MOST_TURNS: usize = 64;

/// How a walk looks ahead.
#[derive(Clone, Copy, Debug)]
pub(crate) struct Ahead {
    /// The number of the tree's root.
    root: u32,
    /// Keys with more bytes are not looked at.
    pub most: usize,
    /// The newest rows are looked at too.
    pub has_rows: bool,
    /// The keys themselves are looked at.
    pub has_keys: bool,
    /// How many keys are looked at already, or are passed before the next try.
    seen: usize,
    /// These were put in order: where few of them are handed out, these are looked at once they are found.
    is_in_order: bool,
}

impl Ahead {
    pub(crate) fn new(tree: &TreeRoot) -> Ahead {
        Ahead {
            root: number_of(tree.root),
            most: usize::MAX,
            has_rows: false,
            has_keys: true,
            seen: FIRST_KEYS,
            is_in_order: false,
        }
    }

    /// The walk is at a chain; it looks ahead where it has come to the end of what was looked at.
    #[inline]
    pub(crate) fn pass(
        &mut self,
        arena: &Arena,
        nexts: &NextLinks,
        number: u32,
        stop: Option<u32>,
    ) {
        if self.seen > 0 {
            self.seen -= 1;
        } else {
            // A copy is lent, so that the walk itself need not be in memory.
            let ahead = *self;
            self.seen = look_from(arena, nexts, &ahead, number, stop);
        }
    }

    /// Before a batch: the walk looks ahead where it has come to the end of what was looked at. How many keys the batch may pass.
    pub(crate) fn look_before(
        &mut self,
        arena: &Arena,
        nexts: &NextLinks,
        number: u32,
        stop: Option<u32>,
    ) -> usize {
        if self.seen == 0 {
            self.is_in_order = is_near(nexts, number);
            self.seen = if self.is_in_order {
                MOST_PASSED
            } else {
                look(arena, nexts, self, number, number_of(stop))
            };
        }
        self.seen.min(MOST_PASSED)
    }

    /// After a batch, which has passed over some keys: its keys are looked at together where they lie apart.
    pub(crate) fn look_after(&mut self, arena: &Arena, batch: &Batch, passed: usize) {
        self.seen = self.seen.saturating_sub(passed);
        if self.is_in_order && batch.len() <= passed / APART {
            self.is_in_order = look_at_batch(arena, batch, self);
        }
    }
}

// How many keys are looked at from a chain on, or are passed before the next try. It is no part of a walk's loop: what most keys take is
// short without it, and inlined there.
#[inline(never)]
fn look_from(
    arena: &Arena,
    nexts: &NextLinks,
    ahead: &Ahead,
    number: u32,
    stop: Option<u32>,
) -> usize {
    if is_near(nexts, number) || are_few_keys(arena, ahead) {
        FIRST_KEYS
    } else {
        look(arena, nexts, ahead, number, number_of(stop))
    }
}

// Whether one of the next keys was put soon before or after the one that it follows. Where rows of several tables lie interleaved, numbers
// that follow one another are those of one table.
fn is_near(nexts: &NextLinks, number: u32) -> bool {
    let mut at = number;
    for _ in 0..LINKS_TRIED {
        let next = nexts.number_after(at);
        if next == NO_CHAIN {
            return false;
        }
        if next.abs_diff(at) <= NEAR {
            return true;
        }
        at = next;
    }
    false
}

// Whether there are so few keys, gone over without their rows, that looking ahead takes longer than memory is waited for.
fn are_few_keys(arena: &Arena, ahead: &Ahead) -> bool {
    !ahead.has_rows && arena.numbers() < MANY_KEYS
}

// How many levels of a tree with this many keys have lanes that begin there.
fn upper_levels(keys: usize, has_rows: bool) -> usize {
    let lanes = if has_rows {
        keys / LANE_ROWS
    } else {
        keys / LANE_KEYS
    };
    match lanes.checked_ilog2() {
        None => 0,
        Some(level) => level as usize + 1,
    }
}

/// A cell passed on the path whose key is yet to come, and how many levels there are from it on.
#[derive(Clone, Copy, Debug)]
struct Turn {
    number: u32,
    levels: usize,
}

/// A path from the root through the upper levels of the tree, to the right of which are the keys that come next.
#[derive(Clone, Copy, Debug)]
struct Path {
    turns: [Turn; MOST_TURNS],
    len: usize,
}

impl Path {
    fn push(&mut self, turn: Turn) {
        if self.len < MOST_TURNS {
            self.turns[self.len] = turn;
            self.len += 1;
        }
    }

    fn pop(&mut self) -> Option<Turn> {
        if self.len == 0 {
            return None;
        }
        self.len -= 1;
        self.turns.get(self.len).copied()
    }

    // From a cell down to the left. The links of the last are not looked at.
    fn go_left(&mut self, arena: &Arena, number: u32, levels: usize) {
        let mut at = number;
        for done in 0..levels {
            if at as usize >= arena.numbers() {
                return;
            }
            self.push(Turn {
                number: at,
                levels: levels - done,
            });
            if done + 1 == levels {
                return;
            }
            at = number_of(arena.links(at).left);
        }
    }

    // From a cell down towards a key.
    fn go_to(&mut self, arena: &Arena, number: u32, levels: usize, key: &[u8]) {
        let mut at = number;
        for done in 0..levels {
            if at as usize >= arena.numbers() {
                return;
            }
            let links = arena.links(at);
            if arena.order(at, key).is_lt() {
                self.push(Turn {
                    number: at,
                    levels: levels - done,
                });
                at = number_of(links.left);
            } else {
                at = number_of(links.right);
            }
        }
    }

    // The next key of the upper levels.
    fn next(&mut self, arena: &Arena) -> u32 {
        let Some(turn) = self.pop() else {
            return NO_CHAIN;
        };
        if turn.levels > 1 && (turn.number as usize) < arena.numbers() {
            let right = number_of(arena.links(turn.number).right);
            self.go_left(arena, right, turn.levels - 1);
        }
        turn.number
    }
}

// A chain, or the walk's end where that is not after it.
fn until_stop(arena: &Arena, number: u32, stop: u32) -> u32 {
    if number as usize >= arena.numbers() {
        return stop;
    }
    if (stop as usize) < arena.numbers() && !arena.order(stop, arena.key(number)).is_lt() {
        return stop;
    }
    number
}

/// A part of the walk: where it is, and where the next one begins.
#[derive(Clone, Copy, Debug)]
struct WalkPart {
    at: u32,
    end: u32,
}

fn lanes_from(
    arena: &Arena,
    ahead: &Ahead,
    number: u32,
    key: &[u8],
    stop: u32,
) -> [WalkPart; LANES] {
    let mut path = Path {
        turns: [Turn {
            number: NO_CHAIN,
            levels: 0,
        }; MOST_TURNS],
        len: 0,
    };
    let levels = upper_levels(arena.numbers(), ahead.has_rows);
    path.go_to(arena, ahead.root, levels, key);
    let mut lanes = [WalkPart {
        at: stop,
        end: stop,
    }; LANES];
    let mut from = number;
    for i in 0..LANES {
        let end = until_stop(arena, path.next(arena), stop);
        lanes[i] = WalkPart { at: from, end };
        from = end;
    }
    lanes
}

// Looks at a key and its links: the key's length, and one more where a cell is to the left; 0 where there is no chain of this number. The
// links come first: where the length lies is known only once the key's begin has come from memory, and the line with the links need not wait.
fn look_at_key(arena: &Arena, number: u32) -> usize {
    if number as usize >= arena.numbers() {
        return 0;
    }
    let has_left = arena.links(number).left.is_some();
    arena.key(number).len() + has_left as usize
}

// Looks at the newest row of a chain: its first byte, or 0.
fn look_at_row(arena: &Arena, number: u32) -> usize {
    arena.look_at_newest(number) as usize
}

// Looks at a key of not too many bytes, and at its newest row, each where the caller is to read it.
fn look_at(arena: &Arena, number: u32, ahead: &Ahead) -> usize {
    if number as usize >= arena.numbers() {
        return 0;
    }
    if ahead.most < usize::MAX && !arena.has_short_key(number, ahead.most) {
        return 0;
    }
    let mut found: usize = 0;
    if ahead.has_keys {
        found = look_at_key(arena, number);
    }
    if ahead.has_rows {
        found = found.wrapping_add(look_at_row(arena, number));
    }
    found
}

// Looks at the keys of a batch and at their newest rows, at each where the caller is to read it: no look waits for another. Whether they
// are as keys and rows may be.
fn look_at_batch(arena: &Arena, batch: &Batch, ahead: &Ahead) -> bool {
    let (has_keys, has_rows) = (ahead.has_keys, ahead.has_rows);
    let numbers = batch.numbers();
    let mut found: usize = 0;
    for i in 0..batch.len().min(BATCH_KEYS) {
        if has_keys {
            found = found.wrapping_add(look_at_key(arena, numbers[i]));
        }
        if has_rows {
            found = found.wrapping_add(look_at_row(arena, numbers[i]));
        }
    }
    found <= MOST_FOUND
}

/// What was looked at.
#[derive(Clone, Copy, Debug)]
struct Looked {
    /// How many keys.
    keys: usize,
    /// What the looks at keys and rows gave, added up. The lanes stop where it is more than keys and rows have, which is never: so each look
    /// counts, and none is left out as one that nothing needs.
    found: usize,
}

// Each lane a key on, and where it was is looked at. A lane stays at its end. Whether a row is looked at is not asked at each key, as below:
// the fewer instructions a step has, the more steps wait for memory at once.
fn step_keys(
    arena: &Arena,
    nexts: &NextLinks,
    lanes: &mut [WalkPart; LANES],
    before: Looked,
) -> Looked {
    let Looked {
        mut keys,
        mut found,
    } = before;
    for i in 0..LANES {
        let at = lanes[i].at;
        if at != lanes[i].end {
            found = found.wrapping_add(look_at_key(arena, at));
            lanes[i].at = nexts.number_after(at);
            keys = keys.wrapping_add(1);
        }
    }
    Looked { keys, found }
}

// As `step_keys`, where long keys are passed over, or rows are looked at too.
fn step_some(
    arena: &Arena,
    nexts: &NextLinks,
    lanes: &mut [WalkPart; LANES],
    ahead: &Ahead,
    before: Looked,
) -> Looked {
    let Looked {
        mut keys,
        mut found,
    } = before;
    for i in 0..LANES {
        let at = lanes[i].at;
        if at != lanes[i].end {
            found = found.wrapping_add(look_at(arena, at, ahead));
            lanes[i].at = nexts.number_after(at);
            keys = keys.wrapping_add(1);
        }
    }
    Looked { keys, found }
}

fn step(
    arena: &Arena,
    nexts: &NextLinks,
    lanes: &mut [WalkPart; LANES],
    ahead: &Ahead,
    before: Looked,
) -> Looked {
    if ahead.has_keys && !ahead.has_rows && ahead.most == usize::MAX {
        step_keys(arena, nexts, lanes, before)
    } else {
        step_some(arena, nexts, lanes, ahead, before)
    }
}

// Looks at the keys from a chain on; how many.
fn look(arena: &Arena, nexts: &NextLinks, ahead: &Ahead, number: u32, stop: u32) -> usize {
    if number as usize >= arena.numbers() {
        return FIRST_KEYS;
    }
    let mut lanes = lanes_from(arena, ahead, number, arena.key(number), stop);
    let mut looked = Looked { keys: 0, found: 0 };
    for _ in 0..MOST_STEPS {
        let keys = looked.keys;
        looked = step(arena, nexts, &mut lanes, ahead, looked);
        if looked.keys == keys || looked.found > MOST_FOUND {
            return looked.keys;
        }
    }
    looked.keys
}
