//! Classes of keys by their hash: a key is in one of a number of them.
ghost use Rattle.std.specs.Prelude.{◌≡◌, ◌<◌, IfOk, length, replicate};
ghost use Rattle.span_query.specs.Groups.{columns_at};
ghost use Rattle.span_rows.specs.LentRows.{lent_rows};
ghost use Rattle.span_classes.specs.Classes.{AreClassNumbers, class_of, key_at};

use span_rows::key::LentKey;
use span_threads::changes::for_each_mut;
use span_value::value::Value;
use std::alloc::{AllocError, Global};
use std::hash::{FoldHasher, Hash, Hasher};
use std::thread::Threads;

/// One of a number of classes.
#[derive(Clone, Copy, Debug)]
pub(crate) struct Class {
    pub(crate) number: usize,
    /// How many classes there are.
    pub(crate) count: usize,
}

/// The number of the class of the values of a row at some places, below the number of classes.
fn class_of(count: usize, row: &[Value], places: &[usize]) -> usize
    requires { 0 < count }
    ensures { result ≡ class_of count (columns_at places.now row.now) }
{
    let mut hasher = FoldHasher::default();
    LentKey::new(row, places).hash(&mut hasher);
    // The upper half: an index of keys goes by both, so that the lower half tells the keys of a class apart.
    ((hasher.finish() >> 32) % count as u64) as usize
}

/// As many numbers, all 0.
fn zeros(alloc: Global, count: usize) -> Result<Vec<usize>, AllocError>
    ensures { IfOk result (λ numbers. numbers.items ≡ replicate count 0) }
{
    let mut numbers = Vec::with_capacity(alloc, count)?;
    for _ in 0..count {
        numbers.push(0)?;
    }
    Ok(numbers)
}

/// For each row the number of the class of its values at some places, found by as many threads as there are classes.
pub(crate) fn class_numbers<R: Threads + Sync>(
    rt: &R,
    alloc: Global,
    count: usize,
    places: &[usize],
    rows: &[&[Value]],
) -> Result<Vec<usize>, AllocError>
    requires { 0 < count }
    ensures { IfOk result (λ numbers. AreClassNumbers count places.now (lent_rows rows.now) numbers.items) }
{
    let mut numbers = zeros(alloc, rows.len())?;
    for_each_mut(
        rt,
        numbers.as_mut_slice(),
        count,
        &move |at: usize, number: &mut usize|
            requires { (0 < count) × (at < length rows.now) }
            ensures { number.exit.now ≡ class_of count (key_at places.entry.now (lent_rows rows.entry.now) at) }
        { *number = class_of(count, rows[at], places) },
    );
    Ok(numbers)
}
