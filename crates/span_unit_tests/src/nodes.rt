//! The limit on nodes, and the order in which free numbers are handed out, which no script can reach.
ghost use Rattle.std.specs.Prelude.{◌≡◌, ◌<◌, IfOk};
ghost use Rattle.span_arena.specs.Content.{IsNewChain};
ghost use Rattle.span_arena.specs.Tested.{IsReady};

use smallvec::SmallVec;
use span_arena::arena::Arena;
use span_arena::free_order::FreeOrder;
use span_arena::steps::Steps;
use span_arena::token::{Chain, Node};
use span_keycode::key::Key;
use span_value::refusal::Refusal;
use std::alloc::Global;
use std::marker::Brand;
use std::sync::ledger::{Blank, Ledger};
use std::test::Fail;

// A new chain for a key.
fn new_chain(arena: &mut Arena, key: Key) -> Result<Chain, Refusal>
    ensures { IfOk result (λ chain. IsNewChain arena.old arena.new chain.number) }
{
    counted_chain::<Brand, Brand>(arena, key, Blank::new(1), Blank::new(1))
}

fn counted_chain<C: Ledger, W: Ledger>(
    arena: &mut Arena,
    key: Key,
    compared: Blank,
    written: Blank,
) -> Result<Chain, Refusal>
    requires compared_name { compared.name ≡ C.name }
    requires compared_parts { compared.parts ≡ C.parts }
    requires compared_some { 0 < compared.parts }
    requires written_name { written.name ≡ W.name }
    requires written_parts { written.parts ≡ W.parts }
    requires written_some { 0 < written.parts }
    ensures { IfOk result (λ chain. IsNewChain arena.old arena.new chain.number) }
{
    let mut steps: Steps<C, W> = Steps::new(compared, written);
    arena.new_chain(key, &mut steps)
}

// A chain with a node in which something is prepared.
fn ready(alloc: Global, arena: &mut Arena) -> Result<(Chain, Node), Refusal>
    ensures { IfOk result (λ r. IsReady arena.new r.0.number r.1.number) }
{
    let chain = new_chain(arena, Key::from_small_vec(SmallVec::new(alloc)))?;
    let first = arena.reserve_node(chain, None)?;
    Ok((chain, first))
}

// One node more.
fn reserve(arena: &mut Arena, chain: Chain, first: Node) -> Result<Node, Refusal>
    requires { IsReady arena.old chain.number first.number }
    ensures { IsReady arena.new chain.number first.number }
{
    arena.reserve_node(chain, None)
}

// The first node given back, and another one taken.
fn exchange(arena: &mut Arena, chain: Chain, first: Node) -> Result<Node, Refusal>
    requires { IsReady arena.old chain.number first.number }
{
    arena.give_back(first);
    arena.reserve_node(chain, None)
}

/// Of three nodes the fourth is refused, and succeeds once one is given back.
#[test]
fn fourth_node(rt: HostRuntime) -> Result<(), Fail> {
    let alloc = rt.alloc();
    let mut arena = Arena::with_most(alloc, 3);
    let (chain, first) = ready(alloc, &mut arena)?;
    reserve(&mut arena, chain, first)?;
    reserve(&mut arena, chain, first)?;
    assert_eq!(rt; arena.live(), 3);
    assert_eq!(rt; reserve(&mut arena, chain, first), Err(Refusal::ShardFull));
    assert_eq!(rt; arena.live(), 3);
    exchange(&mut arena, chain, first)?;
    assert_eq!(rt; arena.live(), 3);
    Ok(())
}

/// Free numbers are handed out in the order that they were added in, before new ones.
#[test]
fn numbers_in_order(rt: HostRuntime) -> Result<(), Fail> {
    let alloc = rt.alloc();
    let mut arena = Arena::new(alloc);
    let numbers = Vec::from_array(alloc, [2, 0, 1])?;
    let places = Vec::from_array(alloc, [1, 2, 0])?;
    let Some(order) = FreeOrder::new(numbers, places) else {
        assert!(rt; false);
        return Ok(());
    };
    arena.add_free_chains(&order)?;
    arena.add_free_nodes(&order)?;
    for number in [2, 0, 1, 3] {
        let (chain, _node) = ready(alloc, &mut arena)?;
        assert_eq!(rt; chain.number, number);
    }
    Ok(())
}

/// An order is refused where the places are not those of its numbers.
#[test]
fn places_of_others(rt: HostRuntime) -> Result<(), Fail> {
    let alloc = rt.alloc();
    let numbers = Vec::from_array(alloc, [1, 0, 2])?;
    let places = Vec::from_array(alloc, [1, 2, 0])?;
    assert!(rt; FreeOrder::new(numbers, places).is_none());
    Ok(())
}
