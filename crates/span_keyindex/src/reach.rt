//! The cells above chains near which keys are to be put in, looked at before.
//!
//! A key that is put in near a chain waits for memory at each cell on the way up from there (`climb.rt` of span_keytree). The ways up of several keys are
//! gone side by side, so that their cells come from memory at once. Nothing that a call answers rests on it.
use crate::near::SEARCH_LANES;
use span_arena::arena::Arena;
use span_arena::token::NO_CHAIN;
use span_keycode::key::LONGEST_KEY;
use span_keytree::next::NextLinks;

/// How many cells up are looked at: of most parts of the tree that a key more changes these are all.
const LEVELS: usize = 4;

// The cell below which a key after that of a chain is to be put.
fn place_after(arena: &Arena, nexts: &NextLinks, near: u32) -> u32 {
    if !arena.is_chain(near) || near as usize >= arena.numbers() {
        return NO_CHAIN;
    }
    if arena.links(near).right.is_none() {
        near
    } else {
        nexts.number_after(near)
    }
}

fn places_after(
    arena: &Arena,
    nexts: &NextLinks,
    near: &[u32; SEARCH_LANES],
) -> [u32; SEARCH_LANES] {
    let mut places = [NO_CHAIN; SEARCH_LANES];
    for i in 0..SEARCH_LANES {
        places[i] = place_after(arena, nexts, near[i]);
    }
    places
}

// The cell above a cell, whose key is looked at too.
fn cell_above(arena: &Arena, at: u32) -> u32 {
    let above = arena.above(at);
    if above as usize >= arena.numbers() || arena.key(above).len() > LONGEST_KEY {
        return NO_CHAIN;
    }
    above
}

fn go_up(arena: &Arena, lanes: &mut [u32; SEARCH_LANES]) {
    for i in 0..SEARCH_LANES {
        lanes[i] = cell_above(arena, lanes[i]);
    }
}

fn count_cells(lanes: &[u32; SEARCH_LANES]) -> usize {
    let mut count: usize = 0;
    for i in 0..SEARCH_LANES {
        if lanes[i] != NO_CHAIN {
            count = count.wrapping_add(1);
        }
    }
    count
}

/// Looks at the cells above some chains. How many of the ways up have gone on to their end is returned.
pub(crate) fn look_above(arena: &Arena, nexts: &NextLinks, near: &[u32; SEARCH_LANES]) -> usize {
    let mut lanes = places_after(arena, nexts, near);
    for _ in 0..LEVELS {
        go_up(arena, &mut lanes);
    }
    count_cells(&lanes)
}
