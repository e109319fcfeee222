//! Calls with numbers, whose results are given in order.
ghost use Rattle.std.specs.Prelude.{◌≡◌, ℕ, ◌+◌, ◌^◌, ◌<◌, ◌≤◌, IfOk, vec_len};
ghost use Rattle.std.specs.Fork.{GivesEach};
ghost use Rattle.std.specs.Fork.Halves.{GivesFrom};
ghost use denote.Param.Send.{IsSend, IsSync};

use std::alloc::{AllocError, Global};
use std::thread::{Threads, join};

/// Calls `f(0)` to `f(count - 1)`, each in a thread of its own where one can be made, and gives the results in order. The only error is out of
/// memory: the results are dropped then.
pub fn map_indices<R: Threads + Sync, X: Send + Drop, F: Fn(usize) -> X + Sync>(
    rt: &R,
    alloc: Global,
    count: usize,
    f: &F,
) -> Result<Vec<X>, AllocError>
    requires { (i : ℕ) → i < count → F.pre f.now i }
    ensures len { IfOk result (λ results. vec_len results ≡ count) }
    ensures each { IfOk result (λ results. GivesEach F.Fn f.now count results.items) }
{
    if count == 0 {
        return Ok(Vec::new(alloc));
    }
    calls_from(rt, alloc, 0, count, f)
}

/// Makes one call in a new thread, and the others from this thread.
#[cycle(calls)]
fn calls_from<R: Threads + Sync, X: Send + Drop, F: Fn(usize) -> X + Sync>(
    rt: &R,
    alloc: Global,
    from: usize,
    count: usize,
    f: &F,
) -> Result<Vec<X>, AllocError>
    requires count { 0 < count }
    requires room { from + count < 2 ^ 64 }
    requires accepts { (i : ℕ) → from ≤ i → i < from + count → F.pre f.now i }
    ensures { IfOk result (λ results. GivesFrom F.Fn f.now from count results.items) }
{
    if count == 1 {
        return one_call(alloc, from, f);
    }
    let next = from + 1;
    let left = count - 1;
    let first = move || -> Result<Vec<X>, AllocError>
        requires { IsSync F.row × IsSend X.row × F.pre f.now from }
        ensures { IfOk result (λ results. GivesFrom F.Fn f.entry.now from 1 results.items) }
    { one_call(alloc, from, f) };
    let others = move || -> Result<Vec<X>, AllocError>
        requires { IsSync R.row × IsSync F.row × IsSend X.row × (0 < left) × (next + left < 2 ^ 64) × ((i : ℕ) → next ≤ i → i < next + left → F.pre f.now i) }
        ensures { IfOk result (λ results. GivesFrom F.Fn f.entry.now next left results.items) }
    { calls_from(rt, alloc, next, left, f) };
    let (first, others) = join(rt, first, others);
    let mut all = first?;
    let mut others = others?;
    all.append(&mut others)?;
    Ok(all)
}

/// The result of one call.
fn one_call<X: Drop, F: Fn(usize) -> X>(
    alloc: Global,
    at: usize,
    f: &F,
) -> Result<Vec<X>, AllocError>
    requires { F.pre f.now at }
    ensures { IfOk result (λ results. GivesFrom F.Fn f.now at 1 results.items) }
{
    let mut one = Vec::new(alloc);
    one.push(f(at))?;
    Ok(one)
}
