//! Rows that mutations made, in classes by a hash of their keys.
//!
//! They are a list, as they came, and a search goes through the rows of one class, from the last one back: with about as many
//! classes as rows, that is one row or two. The hash has a fixed seed, so that keys can be picked which all fall into one
//! class. So, once a class has a few more rows than chance gives it, the rows count as crowded, and the caller is to move them
//! into a map: no search goes through more rows than these.
ghost use Rattle.std.specs.Prelude.{◌≡◌, ◌<◌, is_none, IfOk, OnOk, Some};
ghost use Rattle.std.specs.Map.{keys_of};
ghost use Rattle.std.specs.Option.{option_copied};
ghost use Rattle.span_maderows.specs.Linked.{AreLinked};
ghost use Rattle.span_maderows.specs.Made.{made_at, AreInKeyOrder, HasSameRows, IsSetAt, in_key_order};

use super::links::Links;
use super::made_row::MadeRow;
use super::rows_left::RowsLeft;
use super::sorted::sort_rows;
use span_keycode::key::Key;
use std::alloc::{AllocError, Global};
use std::collections::BTreeMap;
use std::marker::Model;

/// By coded keys, rows that mutations made.
#[derive(Drop)]
pub(crate) struct HashedRows {
    /// The rows as they came.
    rows: Vec<(Key, MadeRow)>,
    links: Links,
}

// Contracts see the rows in the order of their keys.
impl Model for HashedRows {
    ghost use Rattle.std.specs.Prelude.{List, ℕ};
    ghost use Rattle.span_maderows.specs.Linked.{AreHashed};
    ghost use Rattle.span_maderows.specs.Made.{in_key_order};

    ghost Value = { List (List ℕ × List ℕ) };

    ghost view = { λ h. in_key_order h.rows.items };

    ghost invariant = { λ h. AreHashed h.rows.items h.links.lasts.items h.links.befores.items };
}

impl HashedRows {
    /// The rows of a list, with as many classes as it has memory for.
    pub(crate) fn from_list(list: Vec<(Key, MadeRow)>) -> Result<HashedRows, AllocError>
        requires { AreInKeyOrder list.items }
        ensures { IfOk result (λ rows. rows ≡ list.items) }
    {
        let count = class_count(list.capacity());
        let links = links_of(*list.allocator(), list.as_slice(), count)?;
        Ok(HashedRows { rows: list, links })
    }

    /// Whether the rows are to be moved into a map, since a search may go through too many. No contract speaks of it: it is
    /// for speed alone.
    pub(crate) fn is_crowded(&self) -> bool {
        self.links.is_crowded
    }

    /// The row at a key.
    pub(crate) fn get(&self, key: &Key) -> Option<&MadeRow>
        ensures { option_copied result ≡ made_at self.now key.now }
    {
        let class = self.links.class_of(key);
        match self.links.search(self.rows.as_slice(), class, key) {
            Some(place) => Some(&self.rows[place].1),
            None => None,
        }
    }

    /// Leaves a row at a key. Whether there was none is returned.
    pub(crate) fn insert(&mut self, key: Key, row: MadeRow) -> Result<bool, AllocError>
        ensures absent { IfOk result (λ absent. absent ≡ is_none (made_at self.old key)) }
        ensures set { OnOk result (IsSetAt key (Some row) self.old self.new) }
    {
        let class = self.links.class_of(&key);
        if let Some(place) = self.links.search(self.rows.as_slice(), class, &key) {
            self.rows[place].1 = row;
            return Ok(false);
        }
        self.rows.reserve(1)?;
        self.links.push(class)?;
        self.rows.push_reserved((key, row));
        Ok(true)
    }

    /// The rows as a map.
    pub(crate) fn into_map(self, alloc: Global) -> Result<BTreeMap<Key, MadeRow>, AllocError>
        ensures same { IfOk result (λ map. map.entries ≡ self) }
        ensures order { IfOk result (λ map. AreInKeyOrder map.entries) }
    {
        let HashedRows { rows, .. } = self;
        map_of(alloc, rows)
    }

    /// The rows, to be taken out one after another.
    pub(crate) fn into_left(self, alloc: Global) -> Result<RowsLeft, AllocError>
        ensures { IfOk result (λ left. HasSameRows self left) }
    {
        let HashedRows { rows, .. } = self;
        let mut list = rows;
        sort_rows(alloc, &mut list)?;
        Ok(RowsLeft::new(BTreeMap::new(alloc), list))
    }
}

// How many classes of keys there are for a number of rows: a power of two, so that the lower bits of a hash name one.
fn class_count(rows: usize) -> usize
    ensures { 0 < result }
{
    match rows.checked_next_power_of_two() {
        Some(count) => count.max(1),
        None => 1,
    }
}

// Links the rows of a list, in a number of classes.
fn links_of(alloc: Global, rows: &[(Key, MadeRow)], count: usize) -> Result<Links, AllocError>
    requires { 0 < count }
    ensures { IfOk result (λ links. AreLinked (keys_of rows.now) links.lasts.items links.befores.items) }
{
    let mut links = Links::new(alloc, count)?;
    for (key, _row) in rows {
        let class = links.class_of(key);
        links.push(class)?;
    }
    Ok(links)
}

// The rows of a list as a map. They are inserted from the last to the first.
fn map_of(alloc: Global, rows: Vec<(Key, MadeRow)>) -> Result<BTreeMap<Key, MadeRow>, AllocError>
    ensures { IfOk result (λ map. map.entries ≡ in_key_order rows.items) }
{
    let mut map = BTreeMap::new(alloc);
    let mut rest = rows;
    while let Some((key, row)) = rest.pop() {
        let _before = map.insert(key, row)?;
    }
    Ok(map)
}
