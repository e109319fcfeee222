//! The key of a chain with its place in the tree of keys.
ghost use Rattle.std.specs.Prelude.{◌≡◌};
ghost use Rattle.span_arena.specs.Cells as specs;
ghost use Rattle.span_arena.specs.Links.{link_of};

use crate::token::NO_CHAIN;
use smallvec::SmallVec;
use span_keycode::key::Key;
use std::alloc::Global;
use std::marker::Model;

/// Which side of a cell is higher, by one level.
#[derive(Clone, Copy, Debug)]
pub enum Balance {
    LeftHigh,
    Even,
    RightHigh,
}

/// The cells below a cell, by the numbers of their chains.
#[derive(Clone, Copy, Debug)]
pub struct Links {
    pub left: Option<u32>,
    pub right: Option<u32>,
    pub balance: Balance,
}

/// Links as a cell keeps them, in 12 bytes where `Links` has 20: an `Option` of a number has 8, so whether there is a link is kept
/// apart from its number. In the 4 bytes beside them is the number of the cell that was last linked to this one. Contracts do not see it,
/// and nothing rests on it: it is where a search may begin.
#[derive(Debug, Drop)]
pub(crate) struct StoredLinks {
    left: u32,
    right: u32,
    above: u32,
    has_left: bool,
    has_right: bool,
    balance: Balance,
}

impl Model for StoredLinks {
    ghost use Rattle.span_arena.specs.Links.{link_of};
    ghost use Rattle.span_arena.specs.declared.cell.Links.{Links};

    ghost Value = { Links };

    ghost view = { λ s. record {
      left = link_of s.has_left s.left;
      right = link_of s.has_right s.right;
      balance = s.balance;
    } };
}

impl StoredLinks {
    pub(crate) fn new(links: Links, above: u32) -> StoredLinks
        ensures { result ≡ links }
    {
        let (has_left, left) = link_parts(links.left);
        let (has_right, right) = link_parts(links.right);
        StoredLinks {
            left,
            right,
            above,
            has_left,
            has_right,
            balance: links.balance,
        }
    }

    /// The cell above, as it was noted last.
    pub(crate) fn above(&self) -> u32 {
        self.above
    }

    pub(crate) fn links(&self) -> Links
        ensures { result ≡ self.now }
    {
        Links {
            left: link(self.has_left, self.left),
            right: link(self.has_right, self.right),
            balance: self.balance,
        }
    }
}

// Whether there is a link, and its number.
fn link_parts(link: Option<u32>) -> (bool, u32)
    ensures { link_of result.0 result.1 ≡ link }
{
    match link {
        None => (false, 0),
        Some(number) => (true, number),
    }
}

fn link(is_some: bool, number: u32) -> Option<u32>
    ensures { result ≡ link_of is_some number }
{
    if is_some { Some(number) } else { None }
}

/// A key, and its place in the tree.
#[derive(Debug, Drop)]
pub(crate) struct Cell {
    pub key: Key,
    pub links: StoredLinks,
}

const _: () = prove!(size_of::<Cell>() == 64);

impl Cell {
    /// A key with no cells below it.
    pub(crate) fn new(key: Key) -> Cell
        ensures { result ≡ specs.new_cell key }
    {
        let links = Links {
            left: None,
            right: None,
            balance: Balance::Even,
        };
        Cell {
            key,
            links: StoredLinks::new(links, NO_CHAIN),
        }
    }

    /// A cell of no chain. It takes no memory.
    pub(crate) fn blank(alloc: Global) -> Cell
        ensures { result ≡ specs.blank }
    {
        Cell::new(Key::from_small_vec(SmallVec::new(alloc)))
    }
}
