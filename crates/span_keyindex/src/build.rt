//! A balanced tree of keys that follow each other.
ghost use Rattle.std.specs.Prelude.{◌≡◌};
ghost use Rattle.span_arena.specs.Content.{with_cells};
ghost use Rattle.span_keyindex.specs.Builds.{balance_of, IsBuilt, IsRun};

use span_arena::arena::Arena;
use span_arena::cell::{Balance, Links};
use span_keytree::next::NextLinks;

/// A tree that was built: the chain of its first key, the link after that of its last one, and how many levels it has.
#[derive(Clone, Copy, Debug)]
pub struct Built {
    pub root: Option<u32>,
    pub rest: Option<u32>,
    pub levels: usize,
}

/// Makes `count` keys that follow each other from `at` on into a balanced tree. It takes no memory, and writes the links of each once.
pub(crate) fn build(arena: &mut Arena, nexts: &NextLinks, count: usize, at: Option<u32>) -> Built
    requires { IsRun arena.old.cells nexts.now count at }
    ensures tree { IsBuilt arena.old.cells arena.new.cells nexts.now count at result }
    ensures others { arena.new ≡ with_cells arena.old arena.new.cells }
{
    if count == 0 {
        return Built {
            root: None,
            rest: at,
            levels: 0,
        };
    }
    let low = (count - 1) / 2;
    let high = count - 1 - low;
    let left = build(arena, nexts, low, at);
    let Some(cell) = left.rest else {
        unreachable!()
    };
    let right = build(arena, nexts, high, nexts.after(cell));
    arena.relink(
        cell,
        Links {
            left: left.root,
            right: right.root,
            balance: balance(left.levels, right.levels),
        },
    );
    Built {
        root: Some(cell),
        rest: right.rest,
        levels: right.levels + 1,
    }
}

fn balance(left: usize, right: usize) -> Balance
    ensures { result ≡ balance_of left right }
{
    if left < right {
        Balance::RightHigh
    } else {
        Balance::Even
    }
}
