//! The next short keys of a walk, found a batch at a time.
ghost use Rattle.std.specs.Prelude.{◌≡◌, ◌+◌, ◌<◌, ◌≤◌, [], ◌∷◌, false, length, take, IsTrue, List, MatchOption, Some};
ghost use Rattle.span_keytree.specs.Entries.{KeyEntry};
ghost use Rattle.span_keywalk.specs.Walks.{is_stop, walked_in, AreBelow, AreShortOf};

use crate::run::{RUN_KEYS, end_of, has_run, is_end, is_short_length, is_try_due, pass_run};
use crate::walk::is_stop;
use span_arena::arena::Arena;
use span_arena::token::NO_CHAIN;
use span_keytree::next::NextLinks;
use std::marker::Model;

/// How many keys a batch has at most.
pub(crate) const BATCH_KEYS: usize = 64;

/// How many keys are passed over by their links at a time.
const LINK_KEYS: usize = 8;

/// How many links are looked at to know whether keys were put in order.
pub(crate) const LINKS_TRIED: usize = 4;

/// Numbers of chains whose keys are short. Contracts see those that were not handed out.
#[derive(Debug, Drop)]
pub(crate) struct Batch {
    numbers: [u32; BATCH_KEYS],
    begin: usize,
    end: usize,
}

impl Model for Batch {
    ghost use Rattle.std.specs.Prelude.{ℕ, ◌≤◌, List, slice_range};

    ghost Value = { List ℕ };

    ghost view = { λ b. slice_range b.numbers b.begin b.end };

    ghost invariant = { λ b. (b.begin ≤ b.end) × (b.end ≤ 64) };
}

impl Batch {
    /// The first `count` of these numbers.
    fn of(numbers: [u32; BATCH_KEYS], count: usize) -> Batch
        requires { count ≤ 64 }
        ensures { result ≡ take count numbers }
    {
        Batch {
            numbers,
            begin: 0,
            end: count,
        }
    }

    /// The next number.
    pub(crate) fn next(&mut self) -> Option<u32>
        ensures { MatchOption result ((self.old ≡ []) × (self.new ≡ [])) (λ number. self.old ≡ number ∷ self.new) }
    {
        if self.begin == self.end {
            return None;
        }
        let number = self.numbers[self.begin];
        self.begin += 1;
        Some(number)
    }

    /// All numbers that were not handed out: none is left.
    pub(crate) fn take(&mut self) -> Batch
        ensures rest { result ≡ self.old }
        ensures none { self.new ≡ [] }
    {
        let rest = Batch {
            numbers: self.numbers,
            begin: self.begin,
            end: self.end,
        };
        self.begin = self.end;
        rest
    }

    /// The numbers, of which the first `len` are those of chains: all that the batch had.
    pub(crate) fn numbers(&self) -> &[u32; BATCH_KEYS] {
        &self.numbers
    }

    /// How many numbers the batch had.
    pub(crate) fn len(&self) -> usize {
        self.end
    }
}

/// What was found from a chain on, and where the walk is then.
#[derive(Debug, Drop)]
pub(crate) struct Refill {
    pub batch: Batch,
    pub at: Option<u32>,
    /// How many chains the walk may yet come to.
    pub left: usize,
    /// Nothing was found, and there may be more.
    pub goes_on: bool,
}

impl Refill {
    /// Nothing yet.
    pub(crate) fn none(at: Option<u32>, left: usize) -> Refill
        ensures batch { result.batch ≡ [] }
        ensures at { result.at ≡ at }
        ensures left { result.left ≡ left }
        ensures none { result.goes_on ≡ false }
    {
        Refill::of([NO_CHAIN; BATCH_KEYS], 0, at, left, false)
    }

    fn of(
        numbers: [u32; BATCH_KEYS],
        count: usize,
        at: Option<u32>,
        left: usize,
        goes_on: bool,
    ) -> Refill
        requires { count ≤ 64 }
        ensures batch { result.batch ≡ take count numbers }
        ensures at { result.at ≡ at }
        ensures left { result.left ≡ left }
        ensures none { result.goes_on ≡ goes_on }
    {
        Refill {
            batch: Batch::of(numbers, count),
            at,
            left,
            goes_on,
        }
    }
}

/// Where a walk is after some chains.
#[derive(Clone, Copy, Debug)]
struct Passed {
    /// How many numbers of short keys there are then.
    count: usize,
    at: Option<u32>,
    left: usize,
}

/// Goes on from a chain to at most `keys` by their links, with fewer tests for each than `find_by_links`: there is capacity for all of them, and
/// `most` is less than the greatest length that is kept. Each number is put, and that of a short key stays.
fn pass_links(
    arena: &Arena,
    nexts: &NextLinks,
    most: u16,
    number: u32,
    stop: Option<u32>,
    mut left: usize,
    keys: usize,
    numbers: &mut [u32; BATCH_KEYS],
    mut count: usize,
) -> Passed
    requires below { AreBelow (length arena.now.cells) (walked_in arena.now.cells nexts.now left (Some number) stop) }
    requires places { length nexts.now.next ≡ length arena.now.cells }
    requires goes_on { is_stop number stop ≡ false }
    requires keys { 0 < keys }
    requires left { keys ≤ left }
    requires room { count + keys ≤ 64 }
    requires most { most < 65535 }
    ensures room { result.count ≤ 64 }
    ensures left { result.left < left }
    ensures short { (es : List KeyEntry) → let cells = arena.now.cells in
        AreShortOf cells nexts.now most stop es (take count numbers.old) left (Some number)
        → AreShortOf cells nexts.now most stop es (take result.count numbers.new) result.left result.at }
{
    // What it says is for the proof: no chain has the number that means none. The lengths are lent once, since a number is written at each turn.
    let _numbers = arena.numbers();
    let lengths = arena.key_lengths();
    let end = end_of(stop);
    let last = left - keys;
    let mut here = number;
    while left > last {
        if is_end(here, end, stop) {
            return Passed {
                count,
                at: Some(here),
                left,
            };
        }
        numbers[count] = here;
        count += is_short_length(arena, lengths, here, most) as usize;
        left -= 1;
        let Some(next) = nexts.after(here) else {
            return Passed {
                count,
                at: None,
                left,
            };
        };
        here = next;
    }
    Passed {
        count,
        at: Some(here),
        left,
    }
}

/// As `find_short`, where many chains lead to the next number: eight are passed over together where they do, and else up to eight by their
/// links. Runs of any length, each passed over in the same steps, take longer than links: most of these steps are for keys after the run.
fn find_in_order(
    arena: &Arena,
    nexts: &NextLinks,
    most: usize,
    number: u32,
    stop: Option<u32>,
    mut left: usize,
    keys: usize,
) -> Refill
    requires below { AreBelow (length arena.now.cells) (walked_in arena.now.cells nexts.now left (Some number) stop) }
    requires places { length nexts.now.next ≡ length arena.now.cells }
    requires keys { 0 < keys }
    requires most { most < 65535 }
    ensures short { let all = walked_in arena.now.cells nexts.now left (Some number) stop in
        AreShortOf arena.now.cells nexts.now most stop all result.batch result.left result.at }
    ensures more { IsTrue result.goes_on → result.left < left }
    ensures empty { IsTrue result.goes_on → result.batch ≡ [] }
    ensures none { result.goes_on ≡ false → result.batch ≡ []
        → walked_in arena.now.cells nexts.now result.left result.at stop ≡ [] }
{
    let last = left.saturating_sub(keys);
    let mut numbers = [NO_CHAIN; BATCH_KEYS];
    let mut count: usize = 0;
    let mut at = number;
    let mut misses: usize = 0;
    let end = end_of(stop);
    while left > last {
        if count > BATCH_KEYS - LINK_KEYS {
            return Refill::of(numbers, count, Some(at), left, false);
        }
        if is_try_due(misses) && has_run(arena, nexts, most, at, end, left - last) {
            count = pass_run(arena, most as u16, at, &mut numbers, count);
            at += RUN_KEYS as u32;
            left -= RUN_KEYS;
            misses = 0;
            continue;
        }
        if is_stop(at, stop) {
            return Refill::of(numbers, count, Some(at), left, false);
        }
        misses = misses.wrapping_add(1);
        let keys = (left - last).min(LINK_KEYS);
        let passed = pass_links(
            arena,
            nexts,
            most as u16,
            at,
            stop,
            left,
            keys,
            &mut numbers,
            count,
        );
        count = passed.count;
        left = passed.left;
        let Some(next) = passed.at else {
            return Refill::of(numbers, count, None, left, false);
        };
        at = next;
    }
    Refill::of(numbers, count, Some(at), left, count == 0 && left > 0)
}

/// As `find_short`, one by one. Each number is put, and that of a short key stays.
fn find_by_links(
    arena: &Arena,
    nexts: &NextLinks,
    most: usize,
    mut number: u32,
    stop: Option<u32>,
    mut left: usize,
    keys: usize,
) -> Refill
    requires below { AreBelow (length arena.now.cells) (walked_in arena.now.cells nexts.now left (Some number) stop) }
    requires places { length nexts.now.next ≡ length arena.now.cells }
    requires keys { 0 < keys }
    ensures short { let all = walked_in arena.now.cells nexts.now left (Some number) stop in
        AreShortOf arena.now.cells nexts.now most stop all result.batch result.left result.at }
    ensures more { IsTrue result.goes_on → result.left < left }
    ensures empty { IsTrue result.goes_on → result.batch ≡ [] }
    ensures none { result.goes_on ≡ false → result.batch ≡ []
        → walked_in arena.now.cells nexts.now result.left result.at stop ≡ [] }
{
    let last = left.saturating_sub(keys);
    let mut numbers = [NO_CHAIN; BATCH_KEYS];
    let mut count: usize = 0;
    while left > last {
        if is_stop(number, stop) {
            return Refill::of(numbers, count, Some(number), left, false);
        }
        if count >= BATCH_KEYS {
            return Refill::of(numbers, count, Some(number), left, false);
        }
        numbers[count] = number;
        count += arena.has_short_key(number, most) as usize;
        left -= 1;
        let Some(next) = nexts.after(number) else {
            return Refill::of(numbers, count, None, left, false);
        };
        number = next;
    }
    Refill::of(numbers, count, Some(number), left, count == 0 && left > 0)
}

// Whether one of the next links leads to the next number: not each does where rows of several tables lie interleaved. Nothing that is found
// rests on it.
fn is_in_order(nexts: &NextLinks, number: u32) -> bool {
    let mut at = number;
    let mut is_next = false;
    for _ in 0..LINKS_TRIED {
        let next = nexts.number_after(at);
        is_next = is_next | (next.wrapping_sub(at) == 1);
        at = next;
    }
    is_next
}

/// Goes on from a chain over at most `keys` keys, and finds those of at most `most` bytes. Lengths and links alone are read.
pub(crate) fn find_short(
    arena: &Arena,
    nexts: &NextLinks,
    most: usize,
    number: u32,
    stop: Option<u32>,
    left: usize,
    keys: usize,
) -> Refill
    requires below { AreBelow (length arena.now.cells) (walked_in arena.now.cells nexts.now left (Some number) stop) }
    requires places { length nexts.now.next ≡ length arena.now.cells }
    requires keys { 0 < keys }
    ensures short { let all = walked_in arena.now.cells nexts.now left (Some number) stop in
        AreShortOf arena.now.cells nexts.now most stop all result.batch result.left result.at }
    ensures more { IsTrue result.goes_on → result.left < left }
    ensures empty { IsTrue result.goes_on → result.batch ≡ [] }
    ensures none { result.goes_on ≡ false → result.batch ≡ []
        → walked_in arena.now.cells nexts.now result.left result.at stop ≡ [] }
{
    if most < u16::MAX as usize {
        if is_in_order(nexts, number) {
            return find_in_order(arena, nexts, most, number, stop, left, keys);
        }
    }
    find_by_links(arena, nexts, most, number, stop, left, keys)
}
