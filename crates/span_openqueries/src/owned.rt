//! Steps of functions that own trees.
//!
//! To prove that a tree is dropped safely takes seconds to minutes at each place where one may be dropped. What may
//! drop one is here, for values of any type, and is proved once.
ghost use Rattle.std.specs.Prelude.{◌≡◌, ◌≤◌, ◌<◌, OnOk, OnErr, length, insert, vec_len, vec_capacity};

use span_value::seq::Seq;
use std::alloc::{AllocError, Global};
use std::mem;

/// Inserts an item in each of two lists, at the same place. Without memory for both the items are dropped, and the
/// lists stay as they were.
pub(crate) fn insert_in_both<A: Drop, B: Drop>(
    alloc: Global,
    firsts: &mut Seq<A>,
    seconds: &mut Seq<B>,
    at: usize,
    first: A,
    second: B,
) -> Result<(), AllocError>
    requires firsts { at ≤ length firsts.old }
    requires seconds { at ≤ length seconds.old }
    ensures ok { OnOk result
        ((firsts.new ≡ insert firsts.old at first) × (seconds.new ≡ insert seconds.old at second)) }
    ensures err { OnErr result ((firsts.new ≡ firsts.old) × (seconds.new ≡ seconds.old)) }
{
    let mut left = mem::replace(firsts, Seq::new(alloc)).into_vec();
    let mut right = mem::replace(seconds, Seq::new(alloc)).into_vec();
    let inserted = insert_in_both_vecs(&mut left, &mut right, at, first, second);
    *firsts = Seq::from_vec(left);
    *seconds = Seq::from_vec(right);
    inserted
}

fn insert_in_both_vecs<A: Drop, B: Drop>(
    firsts: &mut Vec<A>,
    seconds: &mut Vec<B>,
    at: usize,
    first: A,
    second: B,
) -> Result<(), AllocError>
    requires firsts { at ≤ length firsts.old.items }
    requires seconds { at ≤ length seconds.old.items }
    ensures ok { OnOk result
        ((firsts.new.items ≡ insert firsts.old.items at first)
        × (seconds.new.items ≡ insert seconds.old.items at second)) }
    ensures err { OnErr result ((firsts.new.items ≡ firsts.old.items) × (seconds.new.items ≡ seconds.old.items)) }
{
    reserve_one(firsts)?;
    reserve_one(seconds)?;
    firsts.insert(at, first).unwrap();
    seconds.insert(at, second).unwrap();
    Ok(())
}

/// Reserves capacity for one item more. A list without items gets it for that one alone, since most get no other, and the
/// memory for several items is a large block, which takes longer. The only error is out of memory.
fn reserve_one<A: Drop>(list: &mut Vec<A>) -> Result<(), AllocError>
    ensures items { list.new.items ≡ list.old.items }
    ensures ok { OnOk result (vec_len list.new < vec_capacity list.new) }
{
    if list.is_empty() {
        list.reserve_exact(1)
    } else {
        list.reserve(1)
    }
}
