//! Chains whose numbers follow one another, as those have that were put in order: a walk passes over eight of them at once.
ghost use Rattle.std.specs.Prelude.{◌≡◌, ◌≢◌, ℕ, Option, ◌+◌, ◌^◌, ◌<◌, ◌≤◌, true, get_or, length, map, nat_eq, nat_le, take, IfSome, None};
ghost use Rattle.span_arena.specs.Cells.{cell_at, kept_length};
ghost use Rattle.span_arena.specs.Limits.{most_chains};
ghost use Rattle.span_keywalk.specs.Walks as spec;
ghost use Rattle.span_keywalk.specs.Walks.{IsPassed, IsRun};

use crate::batch::BATCH_KEYS;
use span_arena::arena::Arena;
use span_arena::token::NO_CHAIN;
use span_keytree::next::NextLinks;

/// How many keys are passed over together.
pub(crate) const RUN_KEYS: usize = 8;

/// The number of the chain where a walk ends; that of no chain where it has no such end.
pub(crate) fn end_of(stop: Option<u32>) -> u32
    ensures end { IfSome stop (λ number. result ≡ number) }
    ensures none { stop ≡ None → result ≡ most_chains }
{
    match stop {
        None => NO_CHAIN,
        Some(number) => number,
    }
}

/// Whether a walk ends at a chain, where `end` is the number of the chain where it ends, or that of no chain: one comparison.
#[inline(always)]
pub(crate) fn is_end(number: u32, end: u32, stop: Option<u32>) -> bool
    requires { nat_eq number end ≡ spec.is_stop number stop }
    ensures { result ≡ spec.is_stop number stop }
{
    // The contract alone speaks of it.
    let _ = stop;
    number == end
}

/// Whether the key of a chain is short, by the lengths of the keys of all chains.
#[inline(always)]
pub(crate) fn is_short_length(arena: &Arena, lengths: &[u16], number: u32, most: u16) -> bool
    requires lengths { lengths.now ≡ map kept_length arena.now.cells }
    requires within { number < length arena.now.cells }
    requires most { most < 65535 }
    ensures { result ≡ nat_le (length (cell_at arena.now.cells number).key) most }
{
    lengths[number as usize] <= most
}

/// Whether a number is none of eight, from a number on.
fn is_apart(end: u32, number: u32) -> bool
    requires { number + 8 < 2 ^ 32 }
    ensures { result ≡ true → (k : ℕ) → k < 8 → number + k ≢ end }
{
    end < number || end >= number + RUN_KEYS as u32
}

/// Whether each of eight links, from that of a chain on, leads to the next number.
fn are_next_numbers(links: &[u32], number: u32) -> bool
    requires within { number + 8 < length links.now }
    requires few { length links.now ≤ most_chains }
    ensures { result ≡ true → (k : ℕ) → k < 8 → get_or links.now (number + k) 0 ≡ number + k + 1 }
{
    let at = number as usize;
    let mut are = true;
    for i in 0..RUN_KEYS {
        let is_next = links[at + i] == number + i as u32 + 1;
        are = are & is_next;
    }
    are
}

/// Whether a walk that is at a chain comes to the numbers that follow its own, and may pass over eight of them at once.
pub(crate) fn has_run(
    arena: &Arena,
    nexts: &NextLinks,
    most: usize,
    number: u32,
    end: u32,
    keys: usize,
) -> bool
    requires { length nexts.now.next ≡ length arena.now.cells }
    ensures run { result ≡ true → (stop : Option ℕ) → IfSome stop (λ number. end ≡ number)
        → IsRun nexts.now (length arena.now.cells) stop number }
    ensures most { result ≡ true → most < 65535 }
    ensures keys { result ≡ true → 8 ≤ keys }
    ensures fits { result ≡ true → number + 8 < 2 ^ 32 }
{
    if keys < RUN_KEYS {
        return false;
    }
    if most >= u16::MAX as usize {
        return false;
    }
    if number as usize + RUN_KEYS >= arena.numbers() {
        return false;
    }
    if !is_apart(end, number) {
        return false;
    }
    are_next_numbers(nexts.numbers(), number)
}

/// Passes over a run. Each number is put, and that of a short key stays: which are short can't be guessed, and a wrong guess takes longer
/// than both. How many numbers there are then.
pub(crate) fn pass_run(
    arena: &Arena,
    most: u16,
    number: u32,
    numbers: &mut [u32; BATCH_KEYS],
    mut count: usize,
) -> usize
    requires within { number + 8 < length arena.now.cells }
    requires fits { number + 8 < 2 ^ 32 }
    requires most { most < 65535 }
    requires room { count ≤ 56 }
    ensures room { result ≤ 64 }
    ensures passed { IsPassed arena.now.cells most number (take count numbers.old) (take result numbers.new) }
{
    let lengths = arena.key_lengths();
    for i in 0..RUN_KEYS {
        numbers[count] = number + i as u32;
        count += (lengths[number as usize + i] <= most) as usize;
    }
    count
}

/// Whether a walk looks for a run, where it found none some times in a row and went on by links each time: at 0, 1, 2, 4, 8 and so on. Where
/// runs are short it can't be guessed whether there is one, and a wrong guess takes longer than some links.
pub(crate) fn is_try_due(misses: usize) -> bool {
    (misses & misses.wrapping_sub(1)) == 0
}
