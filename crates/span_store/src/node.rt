//! The nodes in which writes are prepared.
ghost use Rattle.std.specs.Prelude.{◌≡◌, ◌<◌, filter, IfErr, OnOk, OnErr};
ghost use Rattle.span_arena.specs.Content.{IsChain};
ghost use Rattle.span_store.specs.Stored.{AreOwned, AreLaterEnds, HasPrepared, HasEnded, IsEndable, IsPlaceFor, IsRefusedFor, count_for, ended, is_other};

use span_arena::arena::Arena;
use span_arena::token::{Chain, Node};
use span_value::refusal::Refusal;
use span_value::seq::Seq;

/// A node in which a write of a transaction is prepared, and the chain of its key.
#[derive(Clone, Copy, Debug)]
pub(crate) struct PreparedNode {
    pub txn: u64,
    pub chain: Chain,
    pub node: Node,
}

/// The index of the node that is prepared for a chain.
fn place_for(prepared: &Vec<PreparedNode>, chain: Chain) -> usize
    requires { 0 < count_for chain.number prepared.now.items }
    ensures { IsPlaceFor chain.number prepared.now.items result }
{
    for at in 0..prepared.len() {
        if prepared[at].chain == chain {
            return at;
        }
    }
    unreachable!()
}

/// Prepares another row in the place of one that is prepared. It takes no memory: the node that is given back is there for it.
fn prepare_again(
    arena: &mut Arena,
    prepared: &mut Vec<PreparedNode>,
    chain: Chain,
    txn: u64,
    row: Option<Seq<u8>>,
)
    requires owned { AreOwned arena.old prepared.old.items }
    requires again { 0 < count_for chain.number prepared.old.items }
    ensures { HasPrepared arena.old arena.new prepared.old.items prepared.new.items
        chain.number
        (record { txn = txn; row = row }) }
{
    let at = place_for(prepared, chain);
    arena.give_back(prepared[at].node);
    // Nodes in use and free ones are all nodes, so the one that was given back is free.
    let _in_use = arena.live();
    let Ok(node) = arena.reserve_node(chain, row) else {
        unreachable!()
    };
    prepared[at] = PreparedNode { txn, chain, node };
}

/// Prepares a row for a chain, in the place of what is prepared for it, if there is something. A refusal leaves all as it was.
pub(crate) fn prepare_node(
    arena: &mut Arena,
    prepared: &mut Vec<PreparedNode>,
    chain: Chain,
    txn: u64,
    row: Option<Seq<u8>>,
) -> Result<(), Refusal>
    requires owned { AreOwned arena.old prepared.old.items }
    requires is_chain { IsChain arena.old chain.number }
    ensures ok { OnOk result
        (HasPrepared arena.old arena.new prepared.old.items
        prepared.new.items
        chain.number
        (record { txn = txn; row = row })) }
    ensures arena { OnErr result (arena.new ≡ arena.old) }
    ensures nodes { OnErr result (prepared.new.items ≡ prepared.old.items) }
    ensures refused { IfErr result (IsRefusedFor arena.old chain.number) }
{
    prepared.reserve(1)?;
    // A refusal is explained by what it says of the arena.
    let _in_use = arena.live();
    if arena.is_prepared(chain) {
        prepare_again(arena, prepared, chain, txn, row);
        return Ok(());
    }
    let node = arena.reserve_node(chain, row)?;
    prepared.push_reserved(PreparedNode { txn, chain, node });
    Ok(())
}

/// Makes what is prepared in a node a version at the commit timestamp, or gives it back where there is none.
fn end_node(arena: &mut Arena, node: Node, committed: Option<u64>)
    requires { IsEndable arena.old node.number committed }
    ensures { arena.new ≡ ended arena.old node.number committed }
{
    match committed {
        Some(timestamp) => arena.link(node, timestamp),
        None => arena.give_back(node),
    }
}

/// Ends the nodes of a transaction.
pub(crate) fn end_nodes(
    arena: &mut Arena,
    prepared: &Vec<PreparedNode>,
    txn: u64,
    committed: Option<u64>,
)
    requires owned { AreOwned arena.old prepared.now.items }
    requires later { AreLaterEnds txn committed arena.old prepared.now.items }
    ensures { HasEnded txn committed arena.old arena.new prepared.now.items (filter (is_other txn) prepared.now.items) }
{
    for place in 0..prepared.len() {
        let node = prepared[place];
        if node.txn == txn {
            end_node(arena, node.node, committed);
        }
    }
}
