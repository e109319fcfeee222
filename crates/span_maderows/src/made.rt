//! The rows that mutations made, by their keys.
//!
//! While each comes at a key after all others, they are a list in the order of their keys, and a row takes one comparison.
//! Once a key comes among theirs, they are linked by a hash of their keys: a search in an ordered map reads a node of keys at
//! each level, most of which wait for memory where the rows are many, and a search by hash reads two or three lines of
//! memory. They are moved into an ordered map, and stay there, where many keys have one hash, which whoever picks the keys can
//! bring about, and where keys under a front are asked for, when a row is deleted with those below it. So a search takes some
//! log n comparisons whatever the keys are, and each row is moved once at most. At the end, rows by hash are sorted by their
//! keys: what is written in the order of keys is written faster.
ghost use Rattle.std.specs.Prelude.{◌≡◌, [], is_none, IfOk, OnOk, None, Some};
ghost use Rattle.std.specs.Option.{option_copied};
ghost use Rattle.span_maderows.specs.Made.{made_at, AddsMade, HasSameRows, IsSetAt, rows_of};

use super::hashed::HashedRows;
use super::made_row::MadeRow;
use super::ordered::OrderedRows;
use super::rows_left::RowsLeft;
use span_keycode::key::Key;
use span_value::seq::Seq;
use std::alloc::{AllocError, Global};
use std::marker::Model;

/// By coded keys, the packed rows that mutations made. Where memory runs out in a call that changes them, it answers `AllocError`, and
/// rows may be lost: no contract says which are left then.
#[derive(Drop)]
pub struct MadeRows {
    /// The rows while they are kept by hash.
    by_hash: Option<HashedRows>,
    /// The rows while they are not.
    ordered: OrderedRows,
}

impl Model for MadeRows {
    ghost use Rattle.std.specs.Prelude.{List, ℕ};
    ghost use Rattle.span_maderows.specs.Made.{rows_of};

    ghost Value = { List (List ℕ × List ℕ) };

    ghost view = { λ m. rows_of m.by_hash m.ordered };
}

impl MadeRows {
    /// No row, with memory for a number of them, so that they are not moved as they become more. `AllocError`: memory ran out.
    pub fn with_capacity(alloc: Global, count: usize) -> Result<MadeRows, AllocError>
        ensures { IfOk result (λ rows. rows ≡ []) }
    {
        Ok(MadeRows {
            by_hash: None,
            ordered: OrderedRows::with_capacity(alloc, count)?,
        })
    }

    /// The row at a key, or None where there is none.
    pub fn get(&self, key: &Key) -> Option<&MadeRow>
        ensures { option_copied result ≡ made_at self.now key.now }
    {
        match &self.by_hash {
            Some(rows) => rows.get(key),
            None => self.ordered.get(key),
        }
    }

    /// Leaves a row at a key, in the place of any that was there. Whether there was none is returned. `near` is a number of the
    /// caller's, which `RowsLeft::pop` gives back with the row, and of which no contract speaks. `AllocError`: memory ran out.
    pub fn insert(&mut self, key: Key, row: Seq<u8>, near: u32) -> Result<bool, AllocError>
        ensures absent { IfOk result (λ absent. absent ≡ is_none (made_at self.old key)) }
        ensures set { OnOk result (IsSetAt key (Some row) self.old self.new) }
    {
        let row = MadeRow { row, near };
        if self.by_hash.is_none() && self.ordered.is_after_all(&key) {
            self.ordered.push(key, row)?;
            return Ok(true);
        }
        hash_list(&mut self.by_hash, &mut self.ordered)?;
        order_if_crowded(&mut self.by_hash, &mut self.ordered)?;
        match &mut self.by_hash {
            Some(rows) => rows.insert(key, row),
            None => self.ordered.insert(key, row),
        }
    }

    /// Leaves no row at a key. `AllocError`: memory ran out.
    pub fn remove(&mut self, alloc: Global, key: &Key) -> Result<(), AllocError>
        ensures { OnOk result (IsSetAt key.now None self.old self.new) }
    {
        order_rows(alloc, &mut self.by_hash, &mut self.ordered)?;
        self.ordered.remove(key)
    }

    /// Adds to `keys`, after those that are there, the keys of rows that begin with `front`, and leaves the rows as they are. `AllocError`:
    /// memory ran out.
    pub fn push_keys(
        &mut self,
        alloc: Global,
        keys: &mut Vec<Key>,
        front: &Key,
    ) -> Result<(), AllocError>
        ensures same { OnOk result (self.new ≡ self.old) }
        ensures added { OnOk result (AddsMade self.old front.now keys.old.items keys.new.items) }
    {
        order_rows(alloc, &mut self.by_hash, &mut self.ordered)?;
        self.ordered.push_keys(alloc, keys, front)
    }

    /// The rows, to be taken out one after another. `AllocError`: memory ran out.
    pub fn into_left(self, alloc: Global) -> Result<RowsLeft, AllocError>
        ensures { IfOk result (λ left. HasSameRows self left) }
    {
        let MadeRows { by_hash, ordered } = self;
        match by_hash {
            Some(rows) => rows.into_left(alloc),
            None => Ok(ordered.into_left()),
        }
    }
}

// Keeps rows by hash that are a list in the order of their keys.
fn hash_list(by_hash: &mut Option<HashedRows>, ordered: &mut OrderedRows) -> Result<(), AllocError>
    ensures { OnOk result (rows_of by_hash.new ordered.new ≡ rows_of by_hash.old ordered.old) }
{
    if by_hash.is_some() {
        return Ok(());
    }
    if let Some(list) = ordered.take_list() {
        *by_hash = Some(HashedRows::from_list(list)?);
    }
    Ok(())
}

// Moves rows that are kept by hash into an ordered map where some class of keys has too many of them.
fn order_if_crowded(
    by_hash: &mut Option<HashedRows>,
    ordered: &mut OrderedRows,
) -> Result<(), AllocError>
    ensures { OnOk result (rows_of by_hash.new ordered.new ≡ rows_of by_hash.old ordered.old) }
{
    let is_crowded = match by_hash {
        Some(rows) => rows.is_crowded(),
        None => false,
    };
    if is_crowded {
        order_rows(ordered.allocator(), by_hash, ordered)?;
    }
    Ok(())
}

// Moves rows that are kept by hash into an ordered map.
fn order_rows(
    alloc: Global,
    by_hash: &mut Option<HashedRows>,
    ordered: &mut OrderedRows,
) -> Result<(), AllocError>
    ensures moved { OnOk result (by_hash.new ≡ None) }
    ensures same { OnOk result (ordered.new ≡ rows_of by_hash.old ordered.old) }
{
    if let Some(rows) = by_hash.take() {
        *ordered = OrderedRows::from_map(alloc, rows.into_map(alloc)?);
    }
    Ok(())
}
