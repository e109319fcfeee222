//! Numbers of chains and nodes for the rows of a transaction, before they are put: the rows of a table get numbers that follow each other.
//!
//! Rows are put in the order of their keys, in which the rows of a table lie among those of the tables below it. What is kept of them
//! under numbers in this order lies as far apart in memory, and a scan of one table waits for each row. Keys of tables whose key columns
//! are numbers have few lengths, and begin with the key of the row above them. Where a transaction writes such keys, those of one length get
//! numbers that follow each other.
//!
//! Nothing that a store has rests on it. Where as many numbers are free as are wanted, none are added: so numbers that were not used, of
//! transactions that were aborted, do not become more and more.

use super::write::NearWrite;
use span_arena::arena::Arena;
use span_arena::free_order::FreeOrder;
use std::alloc::{AllocError, Global};

/// The least number of writes that are given numbers so: of fewer little is gained.
const LEAST_WRITES: usize = 64;

/// Keys of as many bytes or more are given no numbers so.
const LENGTHS: usize = 256;

/// The most lengths of keys.
const MOST_LENGTHS: usize = 4;

/// How many numbers are looked at, to see how many are free.
const NUMBERS_SEEN: usize = 32;

/// One in this many, or more, of the numbers that were added last are free where those of a transaction before were not used.
const UNUSED: usize = 4;

/// What is seen of keys one after another.
#[derive(Drop)]
struct SeenKeys {
    /// How many there are of each length.
    counts: [u32; LENGTHS],
    lengths: usize,
    /// How many of those that are longer than the key before them begin with it, as keys of rows begin with those of the rows above them.
    begin: usize,
    others: usize,
}

impl SeenKeys {
    /// No key.
    fn new() -> SeenKeys {
        SeenKeys {
            counts: [0; LENGTHS],
            lengths: 0,
            begin: 0,
            others: 0,
        }
    }

    /// Counts a key by its length. FALSE where it is too long, or has one length too many.
    fn count(&mut self, len: usize) -> bool {
        if len >= LENGTHS {
            return false;
        }
        if self.counts[len] == 0 {
            self.lengths = self.lengths.wrapping_add(1);
        }
        self.counts[len] = self.counts[len].wrapping_add(1);
        self.lengths <= MOST_LENGTHS
    }

    /// Compares a key with the one before it.
    fn compare(&mut self, before: &[u8], key: &[u8]) {
        if key.len() <= before.len() {
            return;
        }
        let begins = key.starts_with(before);
        self.begin = self.begin.wrapping_add(begins as usize);
        self.others = self.others.wrapping_add(!begins as usize);
    }

    /// The first number for the keys of each length. None where there are fewer than two lengths, or where most keys that are longer than the
    /// one before them do not begin with it.
    fn first_numbers(&self) -> Option<[u32; LENGTHS]> {
        if self.lengths < 2 || self.begin <= self.others {
            return None;
        }
        let mut firsts: [u32; LENGTHS] = [0; LENGTHS];
        let mut next: u32 = 0;
        for len in 0..LENGTHS {
            firsts[len] = next;
            next = next.wrapping_add(self.counts[len]);
        }
        Some(firsts)
    }
}

/// What is seen of the keys of writes, in one pass over them: the last write has the first key. None where a key is too long, or there are too
/// many lengths.
fn see_keys(writes: &[NearWrite]) -> Option<SeenKeys> {
    let mut seen = SeenKeys::new();
    for at in 0..writes.len() {
        let write = &writes[at];
        let key = write.write.key.as_slice();
        if !seen.count(key.len()) {
            return None;
        }
        if at + 1 < writes.len() {
            let earlier = &writes[at + 1];
            seen.compare(earlier.write.key.as_slice(), key);
        }
    }
    Some(seen)
}

/// How many of some numbers up to the last, at equal distances, are those of no chain.
fn free_among(arena: &Arena, count: usize) -> usize {
    let last = arena.numbers();
    let distance = count / NUMBERS_SEEN;
    let mut free: usize = 0;
    for i in 0..NUMBERS_SEEN {
        let number = last
            .saturating_sub(1)
            .saturating_sub(i.saturating_mul(distance));
        if number < last && !arena.is_chain(number as u32) {
            free = free.wrapping_add(1);
        }
    }
    free
}

/// Whether about as many numbers of chains are free as are wanted, by some of all numbers, and by some of as many as are wanted, up to the last.
fn are_enough_free(arena: &Arena, wanted: usize) -> bool {
    let all = arena.numbers();
    if all < wanted {
        return false;
    }
    if free_among(arena, wanted) >= NUMBERS_SEEN / UNUSED {
        return true;
    }
    free_among(arena, all).saturating_mul(all / NUMBERS_SEEN) >= wanted
}

/// The numbers of the writes in the order in which they are put, from the last on. None where there are more writes than numbers.
fn number_writes(
    alloc: Global,
    writes: &[NearWrite],
    firsts: &[u32; LENGTHS],
) -> Result<Option<FreeOrder>, AllocError> {
    if writes.len() >= u32::MAX as usize {
        return Ok(None);
    }
    let mut next = *firsts;
    let mut numbers = Vec::with_capacity(alloc, writes.len())?;
    let mut places: Vec<u32> = Vec::from_elem(alloc, 0, writes.len())?;
    for place in 0..writes.len() {
        let write = &writes[writes.len() - 1 - place];
        let len = write.write.key.as_slice().len();
        if len >= LENGTHS {
            return Ok(None);
        }
        let number = next[len];
        next[len] = number.wrapping_add(1);
        if number as usize >= places.len() {
            return Ok(None);
        }
        numbers.push(number)?;
        places[number as usize] = place as u32;
    }
    Ok(FreeOrder::new(numbers, places))
}

/// Numbers for writes to be put, by which those with keys of one length follow each other. None where that isn't worth its time, or where
/// enough numbers are free. The error is out of memory.
pub(crate) fn order_by_length(
    alloc: Global,
    arena: &Arena,
    writes: &[NearWrite],
) -> Result<Option<FreeOrder>, AllocError> {
    if writes.len() < LEAST_WRITES || are_enough_free(arena, writes.len()) {
        return Ok(None);
    }
    let Some(seen) = see_keys(writes) else {
        return Ok(None);
    };
    let Some(firsts) = seen.first_numbers() else {
        return Ok(None);
    };
    number_writes(alloc, writes, &firsts)
}
