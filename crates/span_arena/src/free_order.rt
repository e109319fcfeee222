//! The order in which new free numbers are handed out, and the records of such numbers.
//!
//! A free list hands its numbers out in the order of its links. So rows that are written in the order of their keys may still have the
//! numbers of their tables' other rows beside their own.
ghost use Rattle.std.specs.Prelude.{◌≡◌, ◌<◌, ◌≤◌, ◌+◌, ◌^◌, IfSome, get_or, length, map, true, vec_len, vec_capacity};
ghost use Rattle.span_arena.specs.FreeOrders.{number_at, AreInverse, HasFreeChains, HasFreeNodes, IsPlaceOf};

use crate::record::{ChainRecord, NodeRecord, NodeUse};
use span_value::seq::Seq;
use std::marker::Model;

/// The order in which new free numbers are handed out. Contracts see them in this order, counted from the first of them.
#[derive(Debug, Drop)]
pub struct FreeOrder {
    numbers: Vec<u32>,
    /// Under each number its place in the order.
    places: Vec<u32>,
}

impl Model for FreeOrder {
    ghost use Rattle.std.specs.Prelude.{List, ℕ};
    ghost use Rattle.span_arena.specs.FreeOrders.{AreInverse};

    ghost Value = { List ℕ };

    ghost view = { λ o. o.numbers.items };

    ghost invariant = { λ o. AreInverse o.numbers.items o.places.items };
}

/// Whether a number has this place.
fn is_place_of(places: &[u32], number: u32, place: usize) -> bool
    ensures { result ≡ true → IsPlaceOf places.now number place }
{
    match places.get(number as usize) {
        None => false,
        Some(found) => *found as usize == place,
    }
}

/// Whether `places` has under each of the numbers its place among them.
fn are_inverse(numbers: &[u32], places: &[u32]) -> bool
    ensures { result ≡ true → AreInverse numbers.now places.now }
{
    if numbers.len() != places.len() {
        return false;
    }
    for at in 0..numbers.len() {
        if !is_place_of(places, numbers[at], at) {
            return false;
        }
        if places[at] as usize >= numbers.len() {
            return false;
        }
    }
    true
}

impl FreeOrder {
    /// The numbers in this order, where `places` has the place of each of them under it; none where it has not.
    pub fn new(numbers: Vec<u32>, places: Vec<u32>) -> Option<FreeOrder>
        ensures { IfSome result (λ order. order ≡ numbers.items) }
    {
        if are_inverse(numbers.as_slice(), places.as_slice()) {
            Some(FreeOrder { numbers, places })
        } else {
            None
        }
    }

    /// How many numbers there are.
    pub fn len(&self) -> usize
        ensures { result ≡ length self.now }
    {
        self.numbers.len()
    }

    /// Whether there are none.
    pub fn is_empty(&self) -> bool
        ensures { result ≡ true → length self.now ≡ 0 }
    {
        self.numbers.is_empty()
    }

    /// Under each number its place in the order.
    fn places(&self) -> &[u32]
        ensures { AreInverse self.now result.now }
    {
        self.places.as_slice()
    }

    /// The number at a place of the order, where the first of the new ones is `base`; after the last another.
    pub(crate) fn number_at(&self, base: u32, last: u32, place: usize) -> u32
        requires { base + length self.now < 2 ^ 32 }
        ensures { result ≡ number_at base self.now last place }
    {
        match self.numbers.get(place) {
            None => last,
            Some(number) => base + *number,
        }
    }
}

/// Puts the records of new free chains after those of others, in the order of their numbers: the first has the number of the others. After the
/// last of the order comes `last`, the first of `count` free ones. Capacity is reserved for them, so that it takes no memory.
pub(crate) fn put_free_chains(
    chains: &mut Vec<ChainRecord>,
    order: &FreeOrder,
    last: u32,
    count: u32,
)
    requires numbers { length chains.old.items + length order.now < 2 ^ 32 }
    requires count { count + length order.now < 2 ^ 32 }
    requires capacity { vec_len chains.old + length order.now ≤ vec_capacity chains.old }
    ensures { HasFreeChains order.now last count chains.old.items chains.new.items }
{
    let (base, len) = (chains.len() as u32, order.len());
    for place in order.places() {
        let next = order.number_at(base, last, *place as usize + 1);
        let left = (len - *place as usize) as u32;
        chains.push_reserved(ChainRecord::Free(next, count + left));
    }
}

/// The same of new free nodes.
pub(crate) fn put_free_nodes(nodes: &mut Vec<NodeRecord>, order: &FreeOrder, last: u32, count: u32)
    requires numbers { length nodes.old.items + length order.now < 2 ^ 32 }
    requires count { count + length order.now < 2 ^ 32 }
    requires capacity { vec_len nodes.old + length order.now ≤ vec_capacity nodes.old }
    ensures { HasFreeNodes order.now last count nodes.old.items nodes.new.items }
{
    let alloc = *nodes.allocator();
    let (base, len) = (nodes.len() as u32, order.len());
    for place in order.places() {
        let next = order.number_at(base, last, *place as usize + 1);
        let left = (len - *place as usize) as u32;
        nodes.push_reserved(NodeRecord {
            used: NodeUse::Free(count + left),
            next,
            has_image: false,
            timestamp: 0,
            image: Seq::new(alloc),
        });
    }
}
