//! Sorts rows by their keys.
//!
//! What is sorted are the rows' places, each with eight bytes of its key: two keys mostly differ in these, which are in the list
//! that is sorted, and rows are moved once. No contract speaks of the order, which is for speed alone.
ghost use Rattle.std.specs.Prelude.{◌≡◌, ◌<◌, length, IfOk, IsTrue, OnOk, IsPermutation};

use super::made_row::MadeRow;
use span_keycode::key::Key;
use std::alloc::{AllocError, Global};
use std::cmp::Ordering;

/// Where a row is in a list, and eight bytes of its key.
#[derive(Clone, Copy)]
struct RowPlace {
    word: u64,
    index: usize,
}

/// Puts rows in the order of their keys.
pub(crate) fn sort_rows(alloc: Global, rows: &mut Vec<(Key, MadeRow)>) -> Result<(), AllocError>
    ensures { OnOk result (IsPermutation rows.old.items rows.new.items) }
{
    let mut places = places_in_order(alloc, rows)?;
    move_rows(rows, &mut places);
    Ok(())
}

// The places of the rows, in the order of their keys.
fn places_in_order(alloc: Global, rows: &Vec<(Key, MadeRow)>) -> Result<Vec<RowPlace>, AllocError> {
    let start = common_len(rows);
    let mut places = Vec::with_capacity(alloc, rows.len())?;
    for index in 0..rows.len() {
        let word = word_from(rows[index].0.as_slice(), start);
        places.push(RowPlace { word, index })?;
    }
    places.sort_unstable_by(|left, right| compare_places(rows, left, right));
    Ok(places)
}

// With how many bytes, the same ones, all keys begin.
fn common_len(rows: &Vec<(Key, MadeRow)>) -> usize {
    let Some((first, _row)) = rows.first() else {
        return 0;
    };
    let mut len = first.as_slice().len();
    for (key, _row) in rows {
        len = common_len_of(first.as_slice(), key.as_slice(), len);
    }
    len
}

// With how many bytes, the same ones and at most `most`, two keys begin.
fn common_len_of(left: &[u8], right: &[u8], most: usize) -> usize {
    let most = most.min(left.len()).min(right.len());
    for at in 0..most {
        if left[at] != right[at] {
            return at;
        }
    }
    most
}

// The number that eight bytes from a place on spell, the highest first; past the end of the key are zeros.
fn word_from(bytes: &[u8], start: usize) -> u64 {
    let rest = &bytes[start.min(bytes.len())..];
    let mut word = 0;
    for at in 0..8 {
        word = word << 8 | byte_at(rest, at) as u64;
    }
    word
}

fn byte_at(bytes: &[u8], at: usize) -> u8 {
    match bytes.get(at) {
        Some(byte) => *byte,
        None => 0,
    }
}

// The order of the keys at two places.
fn compare_places(rows: &Vec<(Key, MadeRow)>, left: &RowPlace, right: &RowPlace) -> Ordering {
    match left.word.cmp(&right.word) {
        Ordering::Equal => compare_keys(rows, left.index, right.index),
        order => order,
    }
}

fn compare_keys(rows: &Vec<(Key, MadeRow)>, left: usize, right: usize) -> Ordering {
    match (rows.get(left), rows.get(right)) {
        (Some((left, _)), Some((right, _))) => left.cmp(right),
        _ => Ordering::Equal,
    }
}

// Moves each row to where its place is in the list of places.
fn move_rows(rows: &mut Vec<(Key, MadeRow)>, places: &mut Vec<RowPlace>)
    ensures { IsPermutation rows.old.items rows.new.items }
{
    for start in 0..places.len() {
        move_circle(rows, places, start);
    }
}

// Moves a row to `start`, another one to where that was, and so on, up to the place to which the row that was at `start` goes.
fn move_circle(rows: &mut Vec<(Key, MadeRow)>, places: &mut Vec<RowPlace>, start: usize)
    ensures { IsPermutation rows.old.items rows.new.items }
{
    let mut to = start;
    // No circle is longer than the list.
    for _ in 0..rows.len() {
        let from = take_place(places, to);
        if !is_move(start, from, to, rows.len()) {
            return;
        }
        rows.swap(from, to);
        to = from;
    }
}

// Whether the row at `from` is to be moved, and both are places of a list.
fn is_move(start: usize, from: usize, to: usize, len: usize) -> bool
    ensures { IsTrue result → (from < len) × (to < len) }
{
    from != start && from < len && to < len
}

// The place of the row that goes to `to`. From now on it is `to` itself, so that the row is moved once.
fn take_place(places: &mut Vec<RowPlace>, to: usize) -> usize {
    if to >= places.len() {
        return to;
    }
    let from = places[to].index;
    places[to].index = to;
    from
}
