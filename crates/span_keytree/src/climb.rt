//! The way up from a chain near a key, to a cell below which the key is to be put.
//!
//! A new cell changes no cell above the last one on its way whose parts differ in height, and most ways are a few levels long from there
//! on. So where a chain near the key is known, the way begins some levels above it. The arena keeps which cell is above each; that is no
//! more than a hint, and the way down shows that the key's place is there.
use crate::next::{NextLinks, number_of};
use crate::part::is_uneven;
use span_arena::arena::Arena;
use span_arena::token::NO_CHAIN;

/// A way up: the cell that it has come to, on which sides the cells passed have the place where it began, and whether the parts of one
/// of them differ in height.
#[derive(Clone, Copy, Debug)]
struct Climb {
    at: u32,
    is_left: bool,
    is_right: bool,
    is_uneven: bool,
}

// From the place after a chain's key.
fn begin(arena: &Arena, nexts: &NextLinks, near: u32) -> Climb {
    let is_right = (near as usize) < arena.numbers() && arena.links(near).right.is_none();
    Climb {
        at: if is_right {
            near
        } else {
            nexts.number_after(near)
        },
        is_left: !is_right,
        is_right,
        is_uneven: false,
    }
}

// One cell up.
fn step(arena: &Arena, climb: Climb) -> Climb {
    let above = arena.above(climb.at);
    if above as usize >= arena.numbers() || climb.at as usize >= arena.numbers() {
        return Climb {
            at: NO_CHAIN,
            is_left: climb.is_left,
            is_right: climb.is_right,
            is_uneven: climb.is_uneven,
        };
    }
    let is_left = number_of(arena.links(above).left) == climb.at;
    Climb {
        at: above,
        is_left: climb.is_left || is_left,
        is_right: climb.is_right || !is_left,
        is_uneven: climb.is_uneven || is_uneven(arena.links(climb.at).balance),
    }
}

/// A cell from which the way down to the place after a chain's key goes to both sides, and below which it comes to a cell whose parts
/// differ in height; `NO_CHAIN` where none is found. It is a guess: nothing is promised of it.
pub(crate) fn climb_from(arena: &Arena, nexts: &NextLinks, near: u32, levels: usize) -> u32 {
    let mut climb = begin(arena, nexts, near);
    for _ in 0..levels {
        if climb.is_left && climb.is_right && climb.is_uneven {
            return climb.at;
        }
        climb = step(arena, climb);
    }
    NO_CHAIN
}
