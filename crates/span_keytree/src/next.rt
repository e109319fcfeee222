//! The chains in the order of their keys, as links from each to the next.
ghost use Rattle.std.specs.Prelude.{◌≡◌, ◌<◌, ◌≤◌, [], length, map, None, IfErr, IfSome, OnErr, OnOk};
ghost use Rattle.span_keytree.specs.Nexts.{link_to, next_of, with_cell, with_empty_link, with_places, without_first, without_last, without_places};

use span_arena::token::NO_CHAIN;
use span_value::refusal::Refusal;
use std::alloc::{AllocError, Global};
use std::marker::Model;

/// The first chain, and after each chain the next, by their numbers: `NO_CHAIN` where there is none. So a link takes 4 bytes, where an
/// `Option` of a number has 8.
#[derive(Debug, Drop)]
pub struct NextLinks {
    first: u32,
    next: Vec<u32>,
}

impl Model for NextLinks {
    ghost use Rattle.std.specs.Prelude.{◌≤◌, length, map};
    ghost use Rattle.span_arena.specs.Limits.{most_chains};
    ghost use Rattle.span_keytree.specs.Nexts.{Nexts, link_to};

    ghost Value = { Nexts };

    ghost view = { λ n. record { first = link_to n.first; next = map link_to n.next.items } };

    ghost invariant = { λ n. length n.next.items ≤ most_chains };
}

// The link to a chain, as it is kept.
fn link_to(number: u32) -> Option<u32>
    ensures { result ≡ link_to number }
{
    if number == NO_CHAIN {
        None
    } else {
        Some(number)
    }
}

/// The number of a link; `NO_CHAIN` where there is none.
pub fn number_of(link: Option<u32>) -> u32 {
    match link {
        None => NO_CHAIN,
        Some(number) => number,
    }
}

impl NextLinks {
    /// Links of no chain. They take no memory.
    pub fn new(alloc: Global) -> NextLinks
        ensures { result ≡ record { first = None; next = [] } }
    {
        NextLinks {
            first: NO_CHAIN,
            next: Vec::new(alloc),
        }
    }

    /// What the links take memory from.
    pub(crate) fn allocator(&self) -> Global {
        *self.next.allocator()
    }

    /// The first chain.
    pub fn first(&self) -> Option<u32>
        ensures { result ≡ self.now.first }
    {
        link_to(self.first)
    }

    /// The chain after a chain.
    pub fn after(&self, cell: u32) -> Option<u32>
        requires { cell < length self.now.next }
        ensures { result ≡ next_of self.now cell }
    {
        link_to(self.next[cell as usize])
    }

    /// As `after`, by number: `NO_CHAIN` where no chain is after it, and where there is none of this number.
    pub fn number_after(&self, cell: u32) -> u32 {
        match self.next.get(cell as usize) {
            None => NO_CHAIN,
            Some(next) => *next,
        }
    }

    /// The number of the chain after each chain, by their numbers: `NO_CHAIN` where there is none. They lie together.
    pub fn numbers(&self) -> &[u32]
        ensures { map link_to result.now ≡ self.now.next }
    {
        self.next.as_slice()
    }

    /// A place for one chain more, to which no link leads. `Refusal::OutOfMemory` leaves all as it was. There are no more places than
    /// numbers of chains: the last number is `NO_CHAIN`.
    pub(crate) fn add_empty_link(&mut self) -> Result<(), Refusal>
        ensures ok { OnOk result (self.new ≡ with_empty_link self.old) }
        ensures err { OnErr result (self.new ≡ self.old) }
        ensures memory { IfErr result (λ why. why ≡ Refusal.OutOfMemory) }
    {
        if self.next.len() >= NO_CHAIN as usize {
            return Err(Refusal::OutOfMemory);
        }
        let Ok(()) = self.next.push(NO_CHAIN) else {
            return Err(Refusal::OutOfMemory);
        };
        Ok(())
    }

    /// Removes the last place.
    pub(crate) fn drop_empty_link(&mut self)
        requires { 0 < length self.old.next }
        ensures { self.new ≡ without_last self.old }
    {
        self.next.truncate(self.next.len() - 1);
    }

    /// Reserves capacity for places of further chains. An `AllocError` leaves all as it was.
    pub fn reserve(&mut self, count: usize) -> Result<(), AllocError>
        ensures { self.new ≡ self.old }
    {
        self.next.reserve(count)
    }

    /// Places for further chains, to which no link leads. `Refusal::OutOfMemory` leaves all as it was.
    pub fn add_places(&mut self, count: usize) -> Result<(), Refusal>
        ensures ok { OnOk result (self.new ≡ with_places count self.old) }
        ensures err { OnErr result (self.new ≡ self.old) }
        ensures memory { IfErr result (λ why. why ≡ Refusal.OutOfMemory) }
    {
        let len = self.next.len();
        if count > NO_CHAIN as usize - len {
            return Err(Refusal::OutOfMemory);
        }
        let Ok(()) = self.next.resize(len + count, NO_CHAIN) else {
            return Err(Refusal::OutOfMemory);
        };
        Ok(())
    }

    /// Removes the last places.
    pub fn drop_places(&mut self, count: usize)
        requires { count ≤ length self.old.next }
        ensures { self.new ≡ without_places count self.old }
    {
        self.next.truncate(self.next.len() - count);
    }

    /// Puts a chain after another, or first.
    pub fn put_after(&mut self, before: Option<u32>, cell: u32)
        requires cell { cell < length self.old.next }
        requires before { IfSome before (λ b. b < length self.old.next) }
        ensures { self.new ≡ with_cell self.old before cell }
    {
        match before {
            None => {
                self.next[cell as usize] = self.first;
                self.first = cell;
            }
            Some(before) => {
                self.next[cell as usize] = self.next[before as usize];
                self.next[before as usize] = cell;
            }
        }
    }

    /// No link leads to the first chain any more.
    pub fn forget_first(&mut self)
        ensures { self.new ≡ without_first self.old }
    {
        self.first = NO_CHAIN;
    }
}
