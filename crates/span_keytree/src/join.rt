//! A part that may have grown, joined to its cell again.
//!
//! What joins a right part is inlined, since it has several callers: a load in no order goes through it at half of
//! all levels.
ghost use Rattle.std.specs.Prelude.{◌≡◌, ◌<◌, ◌≤◌, ◌+◌, length, false, true, IfSome, IsTrue, Some};
ghost use Rattle.span_keytree.specs.Trees as trees;
ghost use Rattle.span_arena.specs.Content.{with_cells};
ghost use Rattle.span_arena.specs.Cells.{cell_at, with_links};
ghost use Rattle.span_keytree.specs.Effects.{turned_right_cells, turned_right_root, turned_left_cells, turned_left_root, lifted_right_cells, lifted_left_cells, lifted_root, links_with, IsInside, IsWithin};
ghost use Rattle.span_keytree.specs.Joins.{joined_left_cells, joined_right_cells, joined_left_root, joined_right_root, IsJoinCost};

use span_arena::arena::Arena;
use span_arena::cell::{Balance, Links};
use span_arena::steps::Steps;
use std::sync::ledger::Ledger;

/// A part after a key more: the new cell, the part's first cell, and whether it has one level more.
#[derive(Clone, Copy, Debug)]
pub struct GrownPart {
    pub cell: u32,
    pub root: u32,
    pub grew: bool,
}

// The left part is two levels higher than the right one.
fn turn_right<C: Ledger, W: Ledger>(
    arena: &mut Arena,
    at: u32,
    left: u32,
    right: Option<u32>,
    steps: &mut Steps<C, W>,
) -> u32
    requires at { at < length arena.old.cells }
    requires left { left < length arena.old.cells }
    requires inner { IsInside arena.old.cells (cell_at arena.old.cells left).links.right }
    ensures arena { arena.new ≡ with_cells arena.old (turned_right_cells arena.old.cells at left right) }
    ensures root { result ≡ turned_right_root arena.old.cells at left }
    ensures steps { IsWithin 3 steps.old steps.new }
{
    let below = arena.links(left);
    match below.balance {
        Balance::LeftHigh => {
            arena.set_links(
                at,
                Links {
                    left: below.right,
                    right,
                    balance: Balance::Even,
                },
                steps,
            );
            arena.set_links(
                left,
                Links {
                    left: below.left,
                    right: Some(at),
                    balance: Balance::Even,
                },
                steps,
            );
            left
        }
        Balance::Even => {
            arena.set_links(
                at,
                Links {
                    left: Some(left),
                    right,
                    balance: Balance::LeftHigh,
                },
                steps,
            );
            at
        }
        Balance::RightHigh => lift_inner(arena, at, left, right, steps),
    }
}

fn lift_inner<C: Ledger, W: Ledger>(
    arena: &mut Arena,
    at: u32,
    left: u32,
    right: Option<u32>,
    steps: &mut Steps<C, W>,
) -> u32
    requires at { at < length arena.old.cells }
    requires left { left < length arena.old.cells }
    requires inner { IsInside arena.old.cells (cell_at arena.old.cells left).links.right }
    ensures arena { arena.new ≡ with_cells arena.old
        (lifted_right_cells arena.old.cells at left right (cell_at arena.old.cells left).links.right) }
    ensures root { result ≡ lifted_root (cell_at arena.old.cells left).links.right at }
    ensures steps { IsWithin 3 steps.old steps.new }
{
    let below = arena.links(left);
    let Some(inner) = below.right else {
        arena.set_links(
            at,
            Links {
                left: Some(left),
                right,
                balance: Balance::LeftHigh,
            },
            steps,
        );
        return at;
    };
    let links = arena.links(inner);
    arena.set_links(
        left,
        Links {
            left: below.left,
            right: links.left,
            balance: after_left(links.balance),
        },
        steps,
    );
    arena.set_links(
        at,
        Links {
            left: links.right,
            right,
            balance: after_right(links.balance),
        },
        steps,
    );
    arena.set_links(
        inner,
        Links {
            left: Some(left),
            right: Some(at),
            balance: Balance::Even,
        },
        steps,
    );
    inner
}

// The right part is two levels higher than the left one.
#[inline(always)]
fn turn_left<C: Ledger, W: Ledger>(
    arena: &mut Arena,
    at: u32,
    left: Option<u32>,
    right: u32,
    steps: &mut Steps<C, W>,
) -> u32
    requires at { at < length arena.old.cells }
    requires right { right < length arena.old.cells }
    requires inner { IsInside arena.old.cells (cell_at arena.old.cells right).links.left }
    ensures arena { arena.new ≡ with_cells arena.old (turned_left_cells arena.old.cells at left right) }
    ensures root { result ≡ turned_left_root arena.old.cells at right }
    ensures steps { IsWithin 3 steps.old steps.new }
{
    let below = arena.links(right);
    match below.balance {
        Balance::RightHigh => {
            arena.set_links(
                at,
                Links {
                    left,
                    right: below.left,
                    balance: Balance::Even,
                },
                steps,
            );
            arena.set_links(
                right,
                Links {
                    left: Some(at),
                    right: below.right,
                    balance: Balance::Even,
                },
                steps,
            );
            right
        }
        Balance::Even => {
            arena.set_links(
                at,
                Links {
                    left,
                    right: Some(right),
                    balance: Balance::RightHigh,
                },
                steps,
            );
            at
        }
        Balance::LeftHigh => sink_inner(arena, at, left, right, steps),
    }
}

#[inline(always)]
fn sink_inner<C: Ledger, W: Ledger>(
    arena: &mut Arena,
    at: u32,
    left: Option<u32>,
    right: u32,
    steps: &mut Steps<C, W>,
) -> u32
    requires at { at < length arena.old.cells }
    requires right { right < length arena.old.cells }
    requires inner { IsInside arena.old.cells (cell_at arena.old.cells right).links.left }
    ensures arena { arena.new ≡ with_cells arena.old
        (lifted_left_cells arena.old.cells at left right (cell_at arena.old.cells right).links.left) }
    ensures root { result ≡ lifted_root (cell_at arena.old.cells right).links.left at }
    ensures steps { IsWithin 3 steps.old steps.new }
{
    let below = arena.links(right);
    let Some(inner) = below.left else {
        arena.set_links(
            at,
            Links {
                left,
                right: Some(right),
                balance: Balance::RightHigh,
            },
            steps,
        );
        return at;
    };
    let links = arena.links(inner);
    arena.set_links(
        right,
        Links {
            left: links.right,
            right: below.right,
            balance: after_right(links.balance),
        },
        steps,
    );
    arena.set_links(
        at,
        Links {
            left,
            right: links.left,
            balance: after_left(links.balance),
        },
        steps,
    );
    arena.set_links(
        inner,
        Links {
            left: Some(at),
            right: Some(right),
            balance: Balance::Even,
        },
        steps,
    );
    inner
}

// The side of a cell that takes the inner cell's left part.
fn after_left(balance: Balance) -> Balance
    ensures { result ≡ trees.after_left balance }
{
    match balance {
        Balance::RightHigh => Balance::LeftHigh,
        Balance::LeftHigh | Balance::Even => Balance::Even,
    }
}

// The side of a cell that takes the inner cell's right part.
fn after_right(balance: Balance) -> Balance
    ensures { result ≡ trees.after_right balance }
{
    match balance {
        Balance::LeftHigh => Balance::RightHigh,
        Balance::Even | Balance::RightHigh => Balance::Even,
    }
}

fn links_to(left: Option<u32>, right: Option<u32>, balance: Balance) -> Links
    ensures { result ≡ links_with left right balance }
{
    Links {
        left,
        right,
        balance,
    }
}

// Whether a link leads to a cell.
fn leads_to(link: Option<u32>, cell: u32) -> bool
    ensures { IsTrue result → link ≡ Some cell }
{
    match link {
        None => false,
        Some(other) => other == cell,
    }
}

// Joins a left part to its cell that has as many levels as before. Most such parts begin with the cell that they began with: nothing
// is written then.
fn keep_left<C: Ledger, W: Ledger>(
    arena: &mut Arena,
    at: u32,
    part: &mut GrownPart,
    steps: &mut Steps<C, W>,
)
    requires at { at < length arena.old.cells }
    ensures arena { arena.new ≡ with_cells arena.old (joined_left_cells false arena.old.cells at part.old.root) }
    ensures part { part.new ≡ joined_left_root false arena.old.cells at part.old }
    ensures steps { IsWithin 1 steps.old steps.new }
{
    let links = arena.links(at);
    let root = part.root;
    part.root = at;
    part.grew = false;
    if leads_to(links.left, root) {
        return;
    }
    arena.set_links(at, links_to(Some(root), links.right, links.balance), steps);
}

// Joins a right part to its cell that has as many levels as before. Most such parts begin with the cell that they began with: nothing
// is written then.
#[inline(always)]
fn keep_right<C: Ledger, W: Ledger>(
    arena: &mut Arena,
    at: u32,
    part: &mut GrownPart,
    steps: &mut Steps<C, W>,
)
    requires at { at < length arena.old.cells }
    ensures arena { arena.new ≡ with_cells arena.old (joined_right_cells false arena.old.cells at part.old.root) }
    ensures part { part.new ≡ joined_right_root false arena.old.cells at part.old }
    ensures steps { IsWithin 1 steps.old steps.new }
{
    let links = arena.links(at);
    let root = part.root;
    part.root = at;
    part.grew = false;
    if leads_to(links.right, root) {
        return;
    }
    arena.set_links(at, links_to(links.left, Some(root), links.balance), steps);
}

// Joins a left part to its cell that has one level more.
fn raise_left<C: Ledger, W: Ledger>(
    arena: &mut Arena,
    at: u32,
    part: &mut GrownPart,
    steps: &mut Steps<C, W>,
)
    requires at { at < length arena.old.cells }
    requires root { part.old.root < length arena.old.cells }
    requires inner { IsInside arena.old.cells (cell_at arena.old.cells part.old.root).links.right }
    ensures arena { arena.new ≡ with_cells arena.old (joined_left_cells true arena.old.cells at part.old.root) }
    ensures part { part.new ≡ joined_left_root true arena.old.cells at part.old }
    ensures steps { IsJoinCost true part.new.grew steps.old steps.new }
{
    let links = arena.links(at);
    let left = Some(part.root);
    let right = links.right;
    match links.balance {
        Balance::RightHigh => {
            arena.set_links(at, links_to(left, right, Balance::Even), steps);
            part.root = at;
            part.grew = false;
        }
        Balance::Even => {
            arena.set_links(at, links_to(left, right, Balance::LeftHigh), steps);
            part.root = at;
            part.grew = true;
        }
        Balance::LeftHigh => {
            part.root = turn_right(arena, at, part.root, right, steps);
            part.grew = false;
        }
    }
}

// Joins a right part to its cell that has one level more.
#[inline(always)]
fn raise_right<C: Ledger, W: Ledger>(
    arena: &mut Arena,
    at: u32,
    part: &mut GrownPart,
    steps: &mut Steps<C, W>,
)
    requires at { at < length arena.old.cells }
    requires root { part.old.root < length arena.old.cells }
    requires inner { IsInside arena.old.cells (cell_at arena.old.cells part.old.root).links.left }
    ensures arena { arena.new ≡ with_cells arena.old (joined_right_cells true arena.old.cells at part.old.root) }
    ensures part { part.new ≡ joined_right_root true arena.old.cells at part.old }
    ensures steps { IsJoinCost true part.new.grew steps.old steps.new }
{
    let links = arena.links(at);
    let left = links.left;
    let right = Some(part.root);
    match links.balance {
        Balance::LeftHigh => {
            arena.set_links(at, links_to(left, right, Balance::Even), steps);
            part.root = at;
            part.grew = false;
        }
        Balance::Even => {
            arena.set_links(at, links_to(left, right, Balance::RightHigh), steps);
            part.root = at;
            part.grew = true;
        }
        Balance::RightHigh => {
            part.root = turn_left(arena, at, left, part.root, steps);
            part.grew = false;
        }
    }
}

/// Joins the left part of a cell to it again, after a key more in it: the part is then the cell's.
pub(crate) fn join_left<C: Ledger, W: Ledger>(
    arena: &mut Arena,
    at: u32,
    part: &mut GrownPart,
    steps: &mut Steps<C, W>,
)
    requires at { at < length arena.old.cells }
    requires root { part.old.root < length arena.old.cells }
    requires inner { IsInside arena.old.cells (cell_at arena.old.cells part.old.root).links.right }
    ensures arena { arena.new
        ≡ with_cells arena.old (joined_left_cells part.old.grew arena.old.cells at part.old.root) }
    ensures part { part.new ≡ joined_left_root part.old.grew arena.old.cells at part.old }
    ensures steps { IsJoinCost part.old.grew part.new.grew steps.old steps.new }
{
    if part.grew {
        raise_left(arena, at, part, steps);
    } else {
        keep_left(arena, at, part, steps);
    }
}

/// Joins the right part of a cell to it again, after a key more in it: the part is then the cell's.
#[inline(always)]
pub(crate) fn join_right<C: Ledger, W: Ledger>(
    arena: &mut Arena,
    at: u32,
    part: &mut GrownPart,
    steps: &mut Steps<C, W>,
)
    requires at { at < length arena.old.cells }
    requires root { part.old.root < length arena.old.cells }
    requires inner { IsInside arena.old.cells (cell_at arena.old.cells part.old.root).links.left }
    ensures arena { arena.new
        ≡ with_cells arena.old (joined_right_cells part.old.grew arena.old.cells at part.old.root) }
    ensures part { part.new ≡ joined_right_root part.old.grew arena.old.cells at part.old }
    ensures steps { IsJoinCost part.old.grew part.new.grew steps.old steps.new }
{
    if part.grew {
        raise_right(arena, at, part, steps);
    } else {
        keep_right(arena, at, part, steps);
    }
}
