//! The arena: its nodes, its chains and its free ones.
ghost use Rattle.std.specs.Prelude.{◌≡◌, ◌<◌, ◌≤◌, ◌^◌, true, [], None, Some, length, IfOk, IfErr, OnErr, OnOk, MatchOption, map, nat_le, nat_lt, is_some, slice_index_or};
ghost use Rattle.span_arena.specs.Runs.{is_used};
ghost use Rattle.span_keycode.specs.Order.{byte_order};
ghost use Rattle.span_arena.specs.Cells.{cell_at, is_past, kept_length, new_cell, with_links, IsCompared, IsWritten};
ghost use Rattle.span_arena.specs.Limits.{most_chains, most_nodes};
ghost use Rattle.span_arena.specs.declared.arena.TheConstants.{MOST_CHAINS, MOST_NODES};
ghost use Rattle.span_arena.specs.Order.{IsNewestUpto, IsLaterFor, AreInTimeOrder};
ghost use Rattle.span_arena.specs.Content.{Content, versions, prepared_at, IsChain, AreAllChains, IsInOrder, is_unused, prepared_for, live, newest_upto, IsPrepared, linked, given_back, trimmed, cleared, kept_by, with_at, with_cells, with_free_chains, with_free_nodes, with_kept, without_chain, IsNewChain, IsReserved, IsRefusedNode, IsRefusedRoom, AreRefusedNodes, IsTakenFrom, with_free_node, with_versions};

use crate::cell::{Cell, Links};
use crate::cells::Cells;
use crate::cut::cut;
use crate::free_order::{FreeOrder, put_free_chains, put_free_nodes};
use crate::record::{ChainRecord, NodeRecord, NodeUse, VersionLinks, join_image, split_image};
use crate::reserve::reserve_more;
use crate::steps::Steps;
use crate::token::{Chain, Node};
use crate::version::{ArenaVersion, LentVersion};
use span_keycode::compare::order_of_bytes;
use span_keycode::key::Key;
use span_value::refusal::Refusal;
use span_value::seq::Seq;
use std::alloc::{AllocError, Global};
use std::cmp::Ordering;
use std::marker::Model;
use std::mem;
use std::sync::ledger::Ledger;

/// The most nodes in use that `Arena::new` allows.
pub const MOST_NODES: u32 = 16_777_216;

/// The limit is the number that the definitions name.
pub fn limit_is_stated()
    ensures { MOST_NODES ≡ most_nodes }
{}

/// The most numbers of chains, with those that are free: a number has 32 bits.
pub const MOST_CHAINS: usize = 4_294_967_295;

/// That limit is the number that the definitions name.
pub fn chain_limit_is_stated()
    ensures { MOST_CHAINS ≡ most_chains }
{}

// Whether a chain is in use.
fn is_used(chain: &ChainRecord) -> bool
    ensures { result ≡ is_used chain.now }
{
    match chain {
        ChainRecord::Free(_, _) => false,
        ChainRecord::Used(_) => true,
    }
}

/// An arena. Contracts see the versions of each chain, its key with its links, what is prepared in each node, and how many nodes are
/// free.
#[derive(Debug, Drop)]
pub struct Arena {
    nodes: Vec<NodeRecord>,
    chains: Vec<ChainRecord>,
    /// Under the number of each chain its key, and its place in the tree of keys.
    cells: Cells,
    /// The first node of the free list, and how many there are.
    free: u32,
    free_count: u32,
    /// The first of the free chains, and how many there are.
    spare: u32,
    spare_count: u32,
    most: u32,
}

impl Model for Arena {
    ghost use Rattle.std.specs.Prelude.{◌≤◌, length};
    ghost use Rattle.span_arena.specs.Content.{Content};
    ghost use Rattle.span_arena.specs.Limits.{most_chains};
    ghost use Rattle.span_arena.specs.Order.{AreInTimeOrder};
    ghost use Rattle.span_arena.specs.Runs.{content, AreCellsOf, IsSound, AreSpare};

    ghost Value = { Content };

    ghost view = { λ a. content a.nodes.items a.chains.items a.free_count a.most a.cells };

    ghost invariant = { λ a. record {
      sound : IsSound a.nodes.items a.chains.items a.free a.free_count a.most;
      spare : AreSpare a.chains.items a.spare a.spare_count;
      cells : AreCellsOf a.chains.items a.cells;
      few : length a.cells ≤ most_chains;
      falling : AreInTimeOrder (content a.nodes.items a.chains.items a.free_count a.most a.cells);
    } };
}

impl Arena {
    /// An empty arena of at most 2^24 nodes in use. It takes no memory.
    pub fn new(alloc: Global) -> Arena
        ensures { result ≡ record { chains = []; cells = []; prepared = []; free = 0; most = most_nodes } }
    {
        Arena::with_most(alloc, MOST_NODES)
    }

    /// An empty arena of at most `most` nodes in use. It takes no memory.
    pub fn with_most(alloc: Global, most: u32) -> Arena
        ensures { result ≡ record { chains = []; cells = []; prepared = []; free = 0; most = most } }
    {
        Arena {
            nodes: Vec::new(alloc),
            chains: Vec::new(alloc),
            cells: Cells::new(alloc),
            free: 0,
            free_count: 0,
            spare: 0,
            spare_count: 0,
            most,
        }
    }

    /// How many nodes are not free: those in chains and those in which something is prepared.
    pub fn live(&self) -> usize
        ensures live { result ≡ live self.now }
        ensures order { IsInOrder self.now }
        ensures falling { AreInTimeOrder self.now }
    {
        self.nodes.len() - self.free_count as usize
    }

    /// A law, which takes no time: the versions of each chain are in the order of their timestamps.
    fn versions_are_in_time_order(&self)
        ensures { AreInTimeOrder self.now }
    {
        let _ = &self.nodes;
    }

    /// Whether a chain has no version, and nothing is prepared for it.
    pub fn is_unused(&self, chain: Chain) -> bool
        requires { IsChain self.now chain.number }
        ensures { result ≡ is_unused self.now chain.number }
    {
        let ChainRecord::Used(links) = self.chains[chain.number as usize] else {
            unreachable!()
        };
        links.count == 0 && links.prepared == 0
    }

    /// Whether something is prepared for a chain.
    pub fn is_prepared(&self, chain: Chain) -> bool
        requires { IsChain self.now chain.number }
        ensures { result ≡ nat_lt 0 (prepared_for chain.number self.now.prepared) }
    {
        let ChainRecord::Used(links) = self.chains[chain.number as usize] else {
            unreachable!()
        };
        links.prepared > 0
    }

    /// The newest version of a chain at or below `s`, a timestamp: every other version there is older. None where all versions are
    /// later than `s`.
    pub fn newest_at(&self, chain: Chain, s: u64) -> Option<LentVersion<'_>>
        requires { IsChain self.now chain.number }
        ensures first { result ≡ newest_upto s (versions self.now chain.number) }
        ensures last { IsNewestUpto s (versions self.now chain.number) result }
    {
        let ChainRecord::Used(links) = self.chains[chain.number as usize] else {
            unreachable!()
        };
        let mut at = links.newest;
        let mut left = links.count;
        while left > 0 {
            let node = &self.nodes[at as usize];
            if node.timestamp <= s {
                return Some(node.version());
            }
            at = node.next;
            left -= 1;
        }
        None
    }

    /// A new chain with no version, with this key and no links, counted as a step. `Refusal::OutOfMemory` leaves all as it was; it
    /// comes only where no chain was free, and also where there are 2^32 - 1 chains.
    pub fn new_chain<C: Ledger, W: Ledger>(
        &mut self,
        key: Key,
        steps: &mut Steps<C, W>,
    ) -> Result<Chain, Refusal>
        ensures ok { IfOk result (λ chain. IsNewChain self.old self.new chain.number) }
        ensures cell { IfOk result (λ chain. self.new.cells ≡ with_at self.old.cells chain.number (new_cell key)) }
        ensures err { OnErr result (self.new ≡ self.old) }
        ensures memory { IfErr result (λ why. (why ≡ Refusal.OutOfMemory) × AreAllChains self.old) }
        ensures steps { IsWritten steps.old steps.new }
    {
        steps.write();
        self.add_chain(key)
    }

    fn add_chain(&mut self, key: Key) -> Result<Chain, Refusal>
        ensures ok { IfOk result (λ chain. IsNewChain self.old self.new chain.number) }
        ensures cell { IfOk result (λ chain. self.new.cells ≡ with_at self.old.cells chain.number (new_cell key)) }
        ensures err { OnErr result (self.new ≡ self.old) }
        ensures memory { IfErr result (λ why. (why ≡ Refusal.OutOfMemory) × AreAllChains self.old) }
    {
        let cell = Cell::new(key);
        let fresh = ChainRecord::Used(VersionLinks {
            newest: 0,
            count: 0,
            prepared: 0,
        });
        let number = self.spare;
        if self.spare_count > 0 {
            let ChainRecord::Free(next, _) = self.chains[number as usize] else {
                unreachable!()
            };
            self.chains[number as usize] = fresh;
            self.cells.replace(number, cell);
            self.spare = next;
            self.spare_count -= 1;
            return Ok(Chain { number });
        }
        let number = self.chains.len();
        if number >= MOST_CHAINS {
            return Err(Refusal::OutOfMemory);
        }
        let Ok(()) = self.chains.reserve(1) else {
            return Err(Refusal::OutOfMemory);
        };
        let Ok(()) = self.cells.push(cell) else {
            return Err(Refusal::OutOfMemory);
        };
        self.chains.push_reserved(fresh);
        Ok(Chain {
            number: number as u32,
        })
    }

    /// Reserves capacity for a number of chains more, beside those that are free: where they are many, nothing is moved while they are made.
    /// An `AllocError` leaves all as it was.
    pub fn reserve_chains(&mut self, count: usize) -> Result<(), AllocError>
        ensures { self.new ≡ self.old }
    {
        let more = count.saturating_sub(self.spare_count as usize);
        self.cells.reserve(more)?;
        reserve_more(&mut self.chains, more)
    }

    /// Reserves capacity for a number of nodes more, beside those that are free. An `AllocError` leaves all as it was.
    pub fn reserve_nodes(&mut self, count: usize) -> Result<(), AllocError>
        ensures { self.new ≡ self.old }
    {
        let more = count.saturating_sub(self.free_count as usize);
        reserve_more(&mut self.nodes, more)
    }

    /// Adds free numbers of chains, which `new_chain` hands out in this order before the others. `Refusal::OutOfMemory` leaves all as it
    /// was; it comes also where there would be more than 2^32 - 1 chains.
    pub fn add_free_chains(&mut self, order: &FreeOrder) -> Result<(), Refusal>
        ensures ok { OnOk result (self.new ≡ with_free_chains (length order.now) self.old) }
        ensures err { OnErr result (self.new ≡ self.old) }
        ensures memory { IfErr result (λ why. why ≡ Refusal.OutOfMemory) }
    {
        let (base, count) = (self.chains.len(), order.len());
        if count > MOST_CHAINS - base {
            return Err(Refusal::OutOfMemory);
        }
        reserve_more(&mut self.chains, count)?;
        self.cells.add_blanks(count)?;
        put_free_chains(&mut self.chains, order, self.spare, self.spare_count);
        self.spare = order.number_at(base as u32, self.spare, 0);
        self.spare_count += count as u32;
        Ok(())
    }

    /// Adds free nodes, which `reserve_node` hands out in this order before the others. `Refusal::ShardFull` where there would be more nodes than
    /// may be in use, else `Refusal::OutOfMemory`; both leave all as it was.
    pub fn add_free_nodes(&mut self, order: &FreeOrder) -> Result<(), Refusal>
        ensures ok { OnOk result (self.new ≡ with_free_nodes (length order.now) self.old) }
        ensures err { OnErr result (self.new ≡ self.old) }
        ensures refused { IfErr result (λ why. AreRefusedNodes self.old (length order.now) why) }
    {
        let (base, count) = (self.nodes.len(), order.len());
        if count > self.most as usize - base {
            return Err(Refusal::ShardFull);
        }
        reserve_more(&mut self.nodes, count)?;
        put_free_nodes(&mut self.nodes, order, self.free, self.free_count);
        self.free = order.number_at(base as u32, self.free, 0);
        self.free_count += count as u32;
        Ok(())
    }

    /// The most nodes that may be in use.
    pub fn most(&self) -> u32
        ensures { result ≡ self.now.most }
    {
        self.most
    }

    /// How many numbers of chains there are, with those that are free.
    pub fn numbers(&self) -> usize
        ensures len { result ≡ length self.now.cells }
        ensures same { length self.now.cells ≡ length self.now.chains }
        ensures fits { length self.now.cells < 2 ^ 64 }
        ensures few { length self.now.cells ≤ most_chains }
    {
        self.cells.len()
    }

    /// A law, which takes no time: how many numbers of chains there are fits.
    pub fn numbers_fit(&self)
        ensures { length self.now.cells < 2 ^ 64 }
    {
        let _ = self.numbers();
    }

    /// Whether a number is that of a chain.
    pub fn is_chain(&self, number: u32) -> bool
        ensures { result ≡ is_some (slice_index_or self.now.chains number None) }
    {
        match self.chains.get(number as usize) {
            None => false,
            Some(chain) => is_used(chain),
        }
    }

    /// The key of a chain.
    pub fn key(&self, number: u32) -> &[u8]
        requires { number < length self.now.cells }
        ensures { result.now ≡ (cell_at self.now.cells number).key }
    {
        self.cells.key(number)
    }

    /// How many bytes the key of a chain has. Lengths lie together, apart from the keys: a key of less than 65,535 bytes is not looked at.
    pub fn key_len(&self, number: u32) -> usize
        requires { number < length self.now.cells }
        ensures { result ≡ length (cell_at self.now.cells number).key }
    {
        self.cells.key_len(number)
    }

    /// Whether the key of a chain has at most `most` bytes.
    pub fn has_short_key(&self, number: u32, most: usize) -> bool
        requires { number < length self.now.cells }
        ensures { result ≡ nat_le (length (cell_at self.now.cells number).key) most }
    {
        self.key_len(number) <= most
    }

    /// The lengths of the keys of all chains, by their numbers: `u16::MAX` where a key has that many bytes or more. They lie together, so that
    /// many are judged in little time.
    pub fn key_lengths(&self) -> &[u16]
        ensures { result.now ≡ map kept_length self.now.cells }
    {
        self.cells.lengths()
    }

    /// A look at the newest row of a chain, so that it is near when it is read: its first byte, or 0. Nothing is promised of it.
    pub fn look_at_newest(&self, number: u32) -> u8 {
        let Some(ChainRecord::Used(links)) = self.chains.get(number as usize) else {
            return 0;
        };
        let Some(node) = self.nodes.get(links.newest as usize) else {
            return 0;
        };
        match node.image.as_slice().first() {
            None => 0,
            Some(begin) => *begin,
        }
    }

    /// The links of a chain in the tree of keys.
    pub fn links(&self, number: u32) -> Links
        requires { number < length self.now.cells }
        ensures { result ≡ (cell_at self.now.cells number).links }
    {
        self.cells.links(number)
    }

    /// The chain whose cell was last linked to that of a chain in the tree of keys. Mostly it still is; nothing is promised of it.
    pub fn above(&self, number: u32) -> u32 {
        self.cells.above(number)
    }

    /// The order of a key to that of a chain.
    pub fn order(&self, number: u32, key: &[u8]) -> Ordering
        requires { number < length self.now.cells }
        ensures { result ≡ byte_order key.now (cell_at self.now.cells number).key }
    {
        order_of_bytes(key, self.key(number))
    }

    /// The order of a key to that of a chain, counted as a step.
    pub fn compare<C: Ledger, W: Ledger>(
        &self,
        number: u32,
        key: &[u8],
        steps: &mut Steps<C, W>,
    ) -> Ordering
        requires { number < length self.now.cells }
        ensures order { result ≡ byte_order key.now (cell_at self.now.cells number).key }
        ensures steps { IsCompared steps.old steps.new }
    {
        steps.compare();
        self.order(number, key)
    }

    /// Whether the key of a chain is after all keys that begin with these bytes, counted as a step.
    pub fn is_past<C: Ledger, W: Ledger>(
        &self,
        number: u32,
        front: &[u8],
        steps: &mut Steps<C, W>,
    ) -> bool
        requires { number < length self.now.cells }
        ensures past { result ≡ is_past front.now (cell_at self.now.cells number).key }
        ensures steps { IsCompared steps.old steps.new }
    {
        steps.compare();
        let key = self.key(number);
        !order_of_bytes(key, front).is_lt() && !key.starts_with(front)
    }

    /// Other links for a chain in the tree of keys. It takes no memory.
    pub fn relink(&mut self, number: u32, links: Links)
        requires { number < length self.old.cells }
        ensures { self.new ≡ with_cells self.old (with_links self.old.cells number links) }
    {
        self.cells.relink(number, links);
    }

    /// Other links for a chain in the tree of keys, counted as a step. It takes no memory.
    pub fn set_links<C: Ledger, W: Ledger>(
        &mut self,
        number: u32,
        links: Links,
        steps: &mut Steps<C, W>,
    )
        requires { number < length self.old.cells }
        ensures arena { self.new ≡ with_cells self.old (with_links self.old.cells number links) }
        ensures steps { IsWritten steps.old steps.new }
    {
        steps.write();
        self.relink(number, links);
    }

    /// Frees a chain that has no version and for which nothing is prepared, with its key. It takes no memory.
    pub fn free_chain(&mut self, chain: Chain)
        requires is_chain { IsChain self.old chain.number }
        requires unused { is_unused self.old chain.number ≡ true }
        ensures { self.new ≡ without_chain self.old chain.number }
    {
        self.chains[chain.number as usize] = ChainRecord::Free(self.spare, self.spare_count + 1);
        let blank = Cell::blank(self.cells.allocator());
        self.cells.replace(chain.number, blank);
        self.spare = chain.number;
        self.spare_count += 1;
    }

    /// Prepares an image for a chain, in a free node if there is one, else in a new one. None is a deletion.
    /// `Refusal::ShardFull` where as many nodes are in use as may be, else `Refusal::OutOfMemory`; both leave all as it was.
    pub fn reserve_node(&mut self, chain: Chain, image: Option<Seq<u8>>) -> Result<Node, Refusal>
        requires { IsChain self.old chain.number }
        ensures ok { IfOk result (λ node. IsReserved self.old self.new chain.number image node.number) }
        ensures err { OnErr result (self.new ≡ self.old) }
        ensures refused { IfErr result (λ why. IsRefusedNode self.old why) }
    {
        let ChainRecord::Used(links) = self.chains[chain.number as usize] else {
            unreachable!()
        };
        let (has_image, image) = split_image(*self.nodes.allocator(), image);
        let number = self.free;
        if self.free_count > 0 {
            let node = &mut self.nodes[number as usize];
            node.used = NodeUse::Reserved(chain.number);
            node.has_image = has_image;
            node.image = image;
            self.free = node.next;
            self.free_count -= 1;
            self.chains[chain.number as usize] = ChainRecord::Used(VersionLinks {
                newest: links.newest,
                count: links.count,
                prepared: links.prepared + 1,
            });
            return Ok(Node { number });
        }
        let number = self.nodes.len();
        if number >= self.most as usize {
            return Err(Refusal::ShardFull);
        }
        let node = NodeRecord {
            used: NodeUse::Reserved(chain.number),
            next: 0,
            has_image,
            timestamp: 0,
            image,
        };
        let Ok(()) = self.nodes.push(node) else {
            return Err(Refusal::OutOfMemory);
        };
        self.chains[chain.number as usize] = ChainRecord::Used(VersionLinks {
            newest: links.newest,
            count: links.count,
            prepared: links.prepared + 1,
        });
        Ok(Node {
            number: number as u32,
        })
    }

    /// Makes what is prepared in a node the newest version of its chain, at a timestamp that is later than those of its other
    /// versions. It takes no memory.
    pub fn link(&mut self, node: Node, timestamp: u64)
        requires { IsLaterFor self.old node.number timestamp }
        ensures { self.new ≡ linked self.old node.number timestamp }
    {
        let cell = &mut self.nodes[node.number as usize];
        let NodeUse::Reserved(chain) = cell.used else {
            unreachable!()
        };
        let ChainRecord::Used(links) = self.chains[chain as usize] else {
            unreachable!()
        };
        cell.used = NodeUse::Linked(chain);
        cell.timestamp = timestamp;
        cell.next = links.newest;
        self.chains[chain as usize] = ChainRecord::Used(VersionLinks {
            newest: node.number,
            count: links.count + 1,
            prepared: links.prepared - 1,
        });
    }

    /// Frees a node in which something is prepared. It takes no memory.
    pub fn give_back(&mut self, node: Node)
        requires { IsPrepared self.old node.number }
        ensures { self.new ≡ given_back self.old node.number }
    {
        let alloc = *self.nodes.allocator();
        let cell = &mut self.nodes[node.number as usize];
        let NodeUse::Reserved(chain) = cell.used else {
            unreachable!()
        };
        let ChainRecord::Used(links) = self.chains[chain as usize] else {
            unreachable!()
        };
        cell.used = NodeUse::Free(self.free_count + 1);
        cell.has_image = false;
        cell.image = Seq::new(alloc);
        cell.next = self.free;
        self.free = node.number;
        self.free_count += 1;
        self.chains[chain as usize] = ChainRecord::Used(VersionLinks {
            newest: links.newest,
            count: links.count,
            prepared: links.prepared - 1,
        });
    }

    /// Frees the versions of a chain that no read at or above the horizon sees: those older than the newest at or below it, and that
    /// one too where it is a deletion. It takes no memory.
    pub fn trim(&mut self, chain: Chain, horizon: u64)
        requires { IsChain self.old chain.number }
        ensures { self.new ≡ trimmed self.old chain.number horizon }
    {
        self.keep(chain, Some(horizon));
    }

    /// Frees every version of a chain. It takes no memory.
    pub fn clear(&mut self, chain: Chain)
        requires { IsChain self.old chain.number }
        ensures { self.new ≡ cleared self.old chain.number }
    {
        self.keep(chain, None);
    }

    /// How many versions a chain has.
    pub fn count(&self, chain: Chain) -> usize
        requires { IsChain self.now chain.number }
        ensures { result ≡ length (versions self.now chain.number) }
    {
        let ChainRecord::Used(links) = self.chains[chain.number as usize] else {
            unreachable!()
        };
        links.count as usize
    }

    /// Adds a free node. `Refusal::ShardFull` where there are as many nodes as may be in use, else `Refusal::OutOfMemory`; both leave all
    /// as it was.
    pub fn add_free_node(&mut self) -> Result<(), Refusal>
        ensures ok { OnOk result (self.new ≡ with_free_node self.old) }
        ensures err { OnErr result (self.new ≡ self.old) }
        ensures refused { IfErr result (λ why. IsRefusedRoom self.old why) }
    {
        let number = self.nodes.len();
        if self.most as usize <= number {
            return Err(Refusal::ShardFull);
        }
        let node = NodeRecord {
            used: NodeUse::Free(self.free_count + 1),
            next: self.free,
            has_image: false,
            timestamp: 0,
            image: Seq::new(*self.nodes.allocator()),
        };
        let Ok(()) = self.nodes.push(node) else {
            return Err(Refusal::OutOfMemory);
        };
        self.free = number as u32;
        self.free_count += 1;
        Ok(())
    }

    /// Takes the newest version out of its chain and frees its node. Its image is moved. None where the chain has no version. It takes
    /// no memory.
    pub fn take_newest(&mut self, chain: Chain) -> Option<ArenaVersion>
        requires { IsChain self.old chain.number }
        ensures { MatchOption result
            ((versions self.old chain.number ≡ []) × (self.new ≡ self.old))
            (IsTakenFrom self.old self.new chain.number) }
    {
        let ChainRecord::Used(links) = self.chains[chain.number as usize] else {
            unreachable!()
        };
        if links.count == 0 {
            return None;
        }
        let alloc = *self.nodes.allocator();
        let cell = &mut self.nodes[links.newest as usize];
        let image = mem::replace(&mut cell.image, Seq::new(alloc));
        let version = ArenaVersion {
            timestamp: cell.timestamp,
            image: join_image(cell.has_image, image),
        };
        let next = cell.next;
        cell.used = NodeUse::Free(self.free_count + 1);
        cell.next = self.free;
        cell.has_image = false;
        self.free = links.newest;
        self.free_count += 1;
        self.chains[chain.number as usize] = ChainRecord::Used(VersionLinks {
            newest: next,
            count: links.count - 1,
            prepared: links.prepared,
        });
        Some(version)
    }

    /// Moves all versions of a chain of another arena to a chain with none, into free nodes. Their nodes there are free then. Images are
    /// moved, and it takes no memory.
    pub fn take_versions(&mut self, chain: Chain, from: &mut Arena, source: Chain)
        requires chain { IsChain self.old chain.number }
        requires none { versions self.old chain.number ≡ [] }
        requires source { IsChain from.old source.number }
        requires free { length (versions from.old source.number) ≤ self.old.free }
        ensures here { self.new ≡ with_versions self.old chain.number (versions from.old source.number) }
        ensures there { from.new ≡ cleared from.old source.number }
    {
        let ChainRecord::Used(links) = self.chains[chain.number as usize] else {
            unreachable!()
        };
        let alloc = *self.nodes.allocator();
        from.versions_are_in_time_order();
        let newest = self.free;
        let mut count = 0;
        // The free nodes are linked already: the first of them become the chain.
        while let Some(version) = from.take_newest(source) {
            let (has_image, image) = split_image(alloc, version.image);
            let cell = &mut self.nodes[self.free as usize];
            cell.used = NodeUse::Linked(chain.number);
            cell.has_image = has_image;
            cell.timestamp = version.timestamp;
            cell.image = image;
            self.free = cell.next;
            self.free_count -= 1;
            count += 1;
        }
        self.chains[chain.number as usize] = ChainRecord::Used(VersionLinks {
            newest,
            count,
            prepared: links.prepared,
        });
    }

    // Frees the versions of a chain but those that are kept at the horizon; with no horizon all of them.
    fn keep(&mut self, chain: Chain, horizon: Option<u64>)
        requires { IsChain self.old chain.number }
        ensures { self.new ≡ with_kept self.old chain.number (kept_by horizon (versions self.old chain.number)) }
    {
        let ChainRecord::Used(links) = self.chains[chain.number as usize] else {
            unreachable!()
        };
        let (kept, mut at) = cut(&self.nodes, links.newest, links.count, horizon);
        self.chains[chain.number as usize] = ChainRecord::Used(VersionLinks {
            newest: links.newest,
            count: kept,
            prepared: links.prepared,
        });
        let alloc = *self.nodes.allocator();
        let mut left = links.count - kept;
        while left > 0 {
            let cell = &mut self.nodes[at as usize];
            let next = cell.next;
            cell.used = NodeUse::Free(self.free_count + 1);
            cell.has_image = false;
            cell.image = Seq::new(alloc);
            cell.next = self.free;
            self.free = at;
            self.free_count += 1;
            at = next;
            left -= 1;
        }
    }
}
