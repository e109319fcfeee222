//! Calls with the places of a slice, each of which may change what is there.
ghost use Rattle.std.specs.Prelude.{◌+◌, ◌^◌, ◌<◌, length};
ghost use Rattle.std.specs.Fork.{AcceptsAt, AcceptsEach, ChangesAt, ChangesEach};
ghost use Rattle.span_threads.specs.Parts.{AcceptsFrom, ChangesFrom};
ghost use denote.Param.Send.{IsSend, IsSync};

use std::thread::{Threads, join_mut};

/// Calls `f(i, &mut items[i])` at each place, by at most this many threads.
pub fn for_each_mut<R: Threads + Sync, T: Send, F: Fn(usize, &mut T) + Sync>(
    rt: &R,
    items: &mut [T],
    threads: usize,
    f: &F,
)
    requires threads { 0 < threads }
    requires accepts { AcceptsEach F.Fn f.now items.old }
    ensures { ChangesEach F.Fn f.now items.old items.new }
{
    if items.is_empty() {
        return;
    }
    parts_from(rt, f, 0, items.len().div_ceil(threads), items);
}

/// Has the first items changed in a new thread, and the others from this thread. The slice is the last parameter because the borrow checker does not
/// cover a closure that reads a captured `&` after it lends a captured `&mut`.
#[cycle(parts)]
fn parts_from<R: Threads + Sync, T: Send, F: Fn(usize, &mut T) + Sync>(
    rt: &R,
    f: &F,
    base: usize,
    size: usize,
    items: &mut [T],
)
    requires size { 0 < size }
    requires room { base + length items.old < 2 ^ 64 }
    requires accepts { AcceptsFrom F.Fn f.now base items.old }
    ensures { ChangesFrom F.Fn f.now base items.old items.new }
{
    if items.len() <= size {
        in_turn(f, base, items);
        return;
    }
    let (first, others) = items.split_at_mut(size);
    both_parts(rt, f, base, first, base + size, size, others);
}

/// The same, of both parts. A separate function, so that what the closures require is what it is given.
#[cycle(parts)]
fn both_parts<R: Threads + Sync, T: Send, F: Fn(usize, &mut T) + Sync>(
    rt: &R,
    f: &F,
    base: usize,
    first: &mut [T],
    next: usize,
    size: usize,
    others: &mut [T],
)
    requires size { 0 < size }
    requires first_room { base + length first.old < 2 ^ 64 }
    requires first { AcceptsFrom F.Fn f.now base first.old }
    requires room { next + length others.old < 2 ^ 64 }
    requires others { AcceptsFrom F.Fn f.now next others.old }
    ensures first { ChangesFrom F.Fn f.now base first.old first.new }
    ensures others { ChangesFrom F.Fn f.now next others.old others.new }
{
    let mut front = ||
        requires { IsSync F.row × IsSend T.row × (base + length first.now < 2 ^ 64) × AcceptsFrom F.Fn f.now base first.now }
        ensures { ChangesFrom F.Fn f.entry.now base first.entry.now first.exit.now }
    { in_turn(f, base, first) };
    let mut back = ||
        requires { IsSync R.row × IsSync F.row × IsSend T.row × (0 < size) × (next + length others.now < 2 ^ 64) × AcceptsFrom F.Fn f.now next others.now }
        ensures { ChangesFrom F.Fn f.entry.now next others.entry.now others.exit.now }
    { parts_from(rt, f, next, size, others) };
    join_mut(rt, &mut front, &mut back);
}

/// Changes one item.
fn change_one<T, F: Fn(usize, &mut T)>(f: &F, at: usize, item: &mut T)
    requires { AcceptsAt F.Fn f.now at item.old }
    ensures { ChangesAt F.Fn f.now at item.old item.new }
{
    f(at, item);
}

/// Changes each item, one after another.
fn in_turn<T, F: Fn(usize, &mut T)>(f: &F, base: usize, items: &mut [T])
    requires room { base + length items.old < 2 ^ 64 }
    requires accepts { AcceptsFrom F.Fn f.now base items.old }
    ensures { ChangesFrom F.Fn f.now base items.old items.new }
{
    for at in 0..items.len() {
        change_one(f, base + at, &mut items[at]);
    }
}
