//! Rows that mutations made, in the order of their keys.
//!
//! Mutations mostly come in the order of their keys. A row at a key after all others is put at the end of a list, by one
//! comparison. Rows that come in another order are in a map.
ghost use Rattle.std.specs.Prelude.{◌≡◌, ◌≤◌, ◌++◌, ◌∷◌, [], length, is_none, IfOk, IfSome, IfNone, IsTrue, OnOk, MatchBool, None, Some};
ghost use Rattle.std.specs.Option.{option_copied};
ghost use Rattle.std.specs.Ordering.{is_lt};
ghost use Rattle.span_keycode.specs.Order.{byte_order};
ghost use Rattle.span_maderows.specs.Made.{begins_with, made_at, AddsMade, AreInKeyOrder, IsAfterAll, IsBeforeAll, IsFromFirst, IsCountBefore, IsSetAt};

use super::made_row::MadeRow;
use super::rows_left::RowsLeft;
use span_keycode::key::Key;
use std::alloc::{AllocError, Global};
use std::collections::BTreeMap;
use std::marker::Model;
use std::mem;

/// By coded keys, rows that mutations made.
#[derive(Drop)]
pub(crate) struct OrderedRows {
    /// The rows at the lower keys.
    map: BTreeMap<Key, MadeRow>,
    /// The others, in the order of their keys: each was made at a key after all that were there. They are moved into the
    /// map when a key comes among theirs, so that each is moved once at most.
    tail: Vec<(Key, MadeRow)>,
}

impl Model for OrderedRows {
    ghost use Rattle.std.specs.Prelude.{List, ℕ, ◌++◌};
    ghost use Rattle.span_maderows.specs.Made.{AreInKeyOrder};

    ghost Value = { List (List ℕ × List ℕ) };

    ghost view = { λ m. m.map.entries ++ m.tail.items };

    ghost invariant = { λ m. AreInKeyOrder (m.map.entries ++ m.tail.items) };
}

impl OrderedRows {
    /// No row, with memory for a number of them in the order of their keys.
    pub(crate) fn with_capacity(alloc: Global, count: usize) -> Result<OrderedRows, AllocError>
        ensures { IfOk result (λ rows. rows ≡ []) }
    {
        Ok(OrderedRows {
            map: BTreeMap::new(alloc),
            tail: Vec::with_capacity(alloc, count)?,
        })
    }

    /// Where memory for more rows comes from.
    pub(crate) fn allocator(&self) -> Global {
        *self.tail.allocator()
    }

    /// These rows. It takes no memory.
    pub(crate) fn from_map(alloc: Global, map: BTreeMap<Key, MadeRow>) -> OrderedRows
        requires { AreInKeyOrder map.entries }
        ensures { result ≡ map.entries }
    {
        OrderedRows {
            map,
            tail: Vec::new(alloc),
        }
    }

    /// Whether a key is after those of all rows.
    pub(crate) fn is_after_all(&self, key: &Key) -> bool
        ensures { IsTrue result → IsAfterAll key.now self.now }
    {
        match self.tail.last() {
            Some((last, _)) => last.cmp(key).is_lt(),
            None => is_after_map(&self.map, key),
        }
    }

    /// The row at a key.
    pub(crate) fn get(&self, key: &Key) -> Option<&MadeRow>
        ensures { option_copied result ≡ made_at self.now key.now }
    {
        if self.is_after_all(key) {
            return None;
        }
        if is_before_all(self.tail.as_slice(), key) {
            return self.map.get(key);
        }
        row_in(self.tail.as_slice(), key)
    }

    /// Puts a row at the end.
    pub(crate) fn push(&mut self, key: Key, row: MadeRow) -> Result<(), AllocError>
        requires { IsAfterAll key self.old }
        ensures { OnOk result (IsSetAt key (Some row) self.old self.new) }
    {
        self.tail.push((key, row))?;
        Ok(())
    }

    /// Leaves a row at a key. Whether there was none is returned.
    pub(crate) fn insert(&mut self, key: Key, row: MadeRow) -> Result<bool, AllocError>
        ensures absent { IfOk result (λ absent. absent ≡ is_none (made_at self.old key)) }
        ensures set { OnOk result (IsSetAt key (Some row) self.old self.new) }
    {
        make_way(&mut self.map, &mut self.tail, &key)?;
        let before = self.map.insert(key, row)?;
        Ok(before.is_none())
    }

    /// Takes out all rows as a list, in the order of their keys. None where some are in the map.
    pub(crate) fn take_list(&mut self) -> Option<Vec<(Key, MadeRow)>>
        ensures order { IfSome result (λ list. AreInKeyOrder list.items) }
        ensures some { IfSome result (λ list. list.items ≡ self.old) }
        ensures none { IfNone result (self.new ≡ self.old) }
    {
        if !self.map.is_empty() {
            return None;
        }
        let empty = Vec::new(*self.tail.allocator());
        Some(mem::replace(&mut self.tail, empty))
    }

    /// Leaves no row at a key.
    pub(crate) fn remove(&mut self, key: &Key) -> Result<(), AllocError>
        ensures { OnOk result (IsSetAt key.now None self.old self.new) }
    {
        make_way(&mut self.map, &mut self.tail, key)?;
        let _row = self.map.remove(key);
        Ok(())
    }

    /// The rows, to be taken out one after another.
    pub(crate) fn into_left(self) -> RowsLeft
        ensures { result ≡ self }
    {
        let OrderedRows { map, tail } = self;
        RowsLeft::new(map, tail)
    }

    /// Adds the keys that begin with `front`.
    pub(crate) fn push_keys(
        &self,
        alloc: Global,
        keys: &mut Vec<Key>,
        front: &Key,
    ) -> Result<(), AllocError>
        ensures { OnOk result (AddsMade self.now front.now keys.old.items keys.new.items) }
    {
        push_keys_of_map(alloc, keys, &self.map, front)?;
        push_keys_of_list(alloc, keys, self.tail.as_slice(), front)?;
        Ok(())
    }
}

fn is_after_map(map: &BTreeMap<Key, MadeRow>, key: &Key) -> bool
    ensures { IsTrue result → IsAfterAll key.now map.now.entries }
{
    match map.last_key_value() {
        Some((last, _)) => last.cmp(key).is_lt(),
        None => true,
    }
}

// Whether a key is before those of all rows of a list.
fn is_before_all(rows: &[(Key, MadeRow)], key: &Key) -> bool
    requires { AreInKeyOrder rows.now }
    ensures { MatchBool result (IsBeforeAll key.now rows.now) (IsFromFirst key.now rows.now) }
{
    match rows.first() {
        Some((first, _)) => key.cmp(first).is_lt(),
        None => true,
    }
}

// How many rows of a list are at keys before this one.
fn count_before(rows: &[(Key, MadeRow)], key: &Key) -> usize
    requires { AreInKeyOrder rows.now }
    ensures bound { result ≤ length rows.now }
    ensures count { IsCountBefore key.now rows.now result }
{
    rows.partition_point(
        |row: &(Key, MadeRow)| -> bool
            ensures { result ≡ is_lt (byte_order row.now.0 key.entry.now) }
        { row.0.cmp(key).is_lt() },
    )
}

// The row of a list at a key, by a search.
fn search_row<'a>(rows: &'a [(Key, MadeRow)], key: &Key) -> Option<&'a MadeRow>
    requires { AreInKeyOrder rows.now }
    ensures { option_copied result ≡ made_at rows.now key.now }
{
    let Some((found, row)) = rows.get(count_before(rows, key)) else {
        return None;
    };
    if key.cmp(found).is_eq() {
        Some(row)
    } else {
        None
    }
}

// The row of a list at a key. The last one is looked at first: mostly a parent row is made right before the first row
// below it.
fn row_in<'a>(rows: &'a [(Key, MadeRow)], key: &Key) -> Option<&'a MadeRow>
    requires { AreInKeyOrder rows.now }
    ensures { option_copied result ≡ made_at rows.now key.now }
{
    match rows.last() {
        Some((last, row)) if key.cmp(last).is_eq() => Some(row),
        _ => search_row(rows, key),
    }
}

// Moves rows from a list to a map, whose keys are all before theirs.
fn insert_all(map: &mut BTreeMap<Key, MadeRow>, rows: Vec<(Key, MadeRow)>) -> Result<(), AllocError>
    requires { AreInKeyOrder (map.old.entries ++ rows.items) }
    ensures moved { OnOk result (map.new.entries ≡ map.old.entries ++ rows.items) }
    ensures order { AreInKeyOrder map.new.entries }
{
    for (key, row) in rows {
        let _before = map.insert(key, row)?;
    }
    Ok(())
}

// Moves the tail into the map, unless the key is before all those of the tail.
fn make_way(
    map: &mut BTreeMap<Key, MadeRow>,
    tail: &mut Vec<(Key, MadeRow)>,
    key: &Key,
) -> Result<(), AllocError>
    requires { AreInKeyOrder (map.old.entries ++ tail.old.items) }
    ensures before { OnOk result (IsBeforeAll key.now tail.new.items) }
    ensures same { OnOk result (map.new.entries ++ tail.new.items ≡ map.old.entries ++ tail.old.items) }
    ensures order { AreInKeyOrder (map.new.entries ++ tail.new.items) }
{
    if is_before_all(tail.as_slice(), key) {
        return Ok(());
    }
    let empty = Vec::new(*tail.allocator());
    insert_all(map, mem::replace(tail, empty))
}

fn begins_with(key: &Key, front: &Key) -> bool
    ensures { result ≡ begins_with key.now front.now }
{
    key.as_slice().starts_with(front.as_slice())
}

// Adds the keys of a map that begin with `front`.
fn push_keys_of_map(
    alloc: Global,
    keys: &mut Vec<Key>,
    map: &BTreeMap<Key, MadeRow>,
    front: &Key,
) -> Result<(), AllocError>
    ensures { OnOk result (AddsMade map.now.entries front.now keys.old.items keys.new.items) }
{
    let mut rest = map.range(front..);
    while let Some((key, _row)) = rest.next() {
        if !begins_with(key, front) {
            return Ok(());
        }
        keys.push(Key::from_slice(alloc, key.as_slice())?)?;
    }
    Ok(())
}

// Adds the keys of a list that begin with `front`.
fn push_keys_of_list(
    alloc: Global,
    keys: &mut Vec<Key>,
    rows: &[(Key, MadeRow)],
    front: &Key,
) -> Result<(), AllocError>
    requires { AreInKeyOrder rows.now }
    ensures { OnOk result (AddsMade rows.now front.now keys.old.items keys.new.items) }
{
    let rest = &rows[count_before(rows, front)..];
    for (key, _row) in rest {
        if !begins_with(key, front) {
            return Ok(());
        }
        keys.push(Key::from_slice(alloc, key.as_slice())?)?;
    }
    Ok(())
}
