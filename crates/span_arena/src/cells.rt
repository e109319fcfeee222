//! The keys of all chains, each with its links in the tree of keys and, apart from it, its length.
ghost use Rattle.std.specs.Prelude.{◌≡◌, ◌<◌, ◌≤◌, ◌+◌, ◌++◌, [], ◌∷◌, length, map, replicate, slice_set, vec_len, vec_capacity, OnErr, OnOk};
ghost use Rattle.span_arena.specs.Cells.{blank, cell_at, kept_length, with_links};

use crate::cell::{Cell, Links, StoredLinks};
use crate::reserve::reserve_more;
use crate::token::NO_CHAIN;
use std::alloc::{AllocError, Global};
use std::marker::Model;

/// Cells by their numbers. Contracts see them as a list.
///
/// A cell fills a line of a cache. The lengths of the keys, in two bytes each, lie together: whether a key is long is known without a
/// look at its cell.
#[derive(Debug, Drop)]
pub(crate) struct Cells {
    cells: Vec<Cell>,
    /// The length of each key; `u16::MAX` where it is that or more.
    lengths: Vec<u16>,
}

impl Model for Cells {
    ghost use Rattle.std.specs.Prelude.{◌≡◌, List, map};
    ghost use Rattle.span_arena.specs.declared.cell.Cell.{Cell};
    ghost use Rattle.span_arena.specs.Cells.{kept_length};

    ghost Value = { List Cell };

    ghost view = { λ c. c.cells.items };

    ghost invariant = { λ c. c.lengths.items ≡ map kept_length c.cells.items };
}

// The length of a key as it is kept.
fn length_of(cell: &Cell) -> u16
    ensures { result ≡ kept_length cell.now }
{
    let len = cell.key.as_slice().len();
    if len < u16::MAX as usize {
        len as u16
    } else {
        u16::MAX
    }
}

// Whether a link leads to a cell.
fn leads_to(link: Option<u32>, number: u32) -> bool {
    match link {
        None => false,
        Some(other) => other == number,
    }
}

impl Cells {
    /// No cells. They take no memory.
    pub(crate) fn new(alloc: Global) -> Cells
        ensures { result ≡ [] }
    {
        Cells {
            cells: Vec::new(alloc),
            lengths: Vec::new(alloc),
        }
    }

    /// What the cells take memory from.
    pub(crate) fn allocator(&self) -> Global {
        *self.cells.allocator()
    }

    /// How many cells there are.
    pub(crate) fn len(&self) -> usize
        ensures { result ≡ length self.now }
    {
        self.cells.len()
    }

    /// The key of a cell.
    pub(crate) fn key(&self, number: u32) -> &[u8]
        requires { number < length self.now }
        ensures { result.now ≡ (cell_at self.now number).key }
    {
        self.cells[number as usize].key.as_slice()
    }

    /// How many bytes a cell's key has. The cell is looked at only where these are 65,535 or more.
    pub(crate) fn key_len(&self, number: u32) -> usize
        requires { number < length self.now }
        ensures { result ≡ length (cell_at self.now number).key }
    {
        let len = self.lengths[number as usize];
        if len < u16::MAX {
            len as usize
        } else {
            self.key(number).len()
        }
    }

    /// The lengths of all keys, as they are kept: `u16::MAX` where a key has that many bytes or more.
    pub(crate) fn lengths(&self) -> &[u16]
        ensures { result.now ≡ map kept_length self.now }
    {
        self.lengths.as_slice()
    }

    /// The links of a cell.
    pub(crate) fn links(&self, number: u32) -> Links
        requires { number < length self.now }
        ensures { result ≡ (cell_at self.now number).links }
    {
        self.cells[number as usize].links.links()
    }

    /// The cell that was last linked to this one; `NO_CHAIN` where none was, and where there is no cell of this number.
    pub(crate) fn above(&self, number: u32) -> u32 {
        match self.cells.get(number as usize) {
            None => NO_CHAIN,
            Some(cell) => cell.links.above(),
        }
    }

    /// Other links for a cell. The cells that it was not linked to before keep its number.
    pub(crate) fn relink(&mut self, number: u32, links: Links)
        requires { number < length self.old }
        ensures { self.new ≡ with_links self.old number links }
    {
        let old = self.links(number);
        let above = self.above(number);
        self.store(number, StoredLinks::new(links, above));
        self.keep_above(number, old.left, links.left);
        self.keep_above(number, old.right, links.right);
    }

    fn store(&mut self, number: u32, links: StoredLinks)
        requires { number < length self.old }
        ensures { self.new ≡ with_links self.old number links }
    {
        self.cells[number as usize].links = links;
    }

    // The cell that a link leads to keeps which cell is above it, unless the link led there before.
    fn keep_above(&mut self, above: u32, old: Option<u32>, new: Option<u32>)
        ensures { self.new ≡ self.old }
    {
        let Some(number) = new else {
            return;
        };
        if leads_to(old, number) || number as usize >= self.len() {
            return;
        }
        let links = self.links(number);
        self.store(number, StoredLinks::new(links, above));
    }

    /// Another cell in the place of one. It takes no memory.
    pub(crate) fn replace(&mut self, number: u32, cell: Cell)
        requires { number < length self.old }
        ensures { self.new ≡ slice_set self.old number cell }
    {
        self.lengths[number as usize] = length_of(&cell);
        self.cells[number as usize] = cell;
    }

    /// One cell more, at the end. An `AllocError` leaves all as it was.
    pub(crate) fn push(&mut self, cell: Cell) -> Result<(), AllocError>
        ensures ok { OnOk result (self.new ≡ self.old ++ cell ∷ []) }
        ensures err { OnErr result (self.new ≡ self.old) }
    {
        self.cells.reserve(1)?;
        self.lengths.push(length_of(&cell))?;
        self.cells.push_reserved(cell);
        Ok(())
    }

    /// Reserves capacity for a number of cells more. An `AllocError` leaves all as it was.
    pub(crate) fn reserve(&mut self, count: usize) -> Result<(), AllocError>
        ensures { self.new ≡ self.old }
    {
        reserve_more(&mut self.cells, count)?;
        reserve_more(&mut self.lengths, count)
    }

    /// Cells of no chain after the others. An `AllocError` leaves all as it was.
    pub(crate) fn add_blanks(&mut self, count: usize) -> Result<(), AllocError>
        ensures ok { OnOk result (self.new ≡ self.old ++ replicate count blank) }
        ensures err { OnErr result (self.new ≡ self.old) }
    {
        let len = self.cells.len();
        reserve_more(&mut self.cells, count)?;
        reserve_more(&mut self.lengths, count)?;
        self.lengths.resize(len + count, 0)?;
        put_blanks(&mut self.cells, count);
        Ok(())
    }
}

// Puts cells of no chain after others, for which capacity is reserved.
fn put_blanks(cells: &mut Vec<Cell>, count: usize)
    requires { vec_len cells.old + count ≤ vec_capacity cells.old }
    ensures { cells.new.items ≡ cells.old.items ++ replicate count blank }
{
    let alloc = *cells.allocator();
    for _ in 0..count {
        cells.push_reserved(Cell::blank(alloc));
    }
}
