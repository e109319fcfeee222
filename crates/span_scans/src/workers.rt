//! Workers: they scan the leaves of one query, each part under the lock of its own slot. One worker is the thread that asks.
ghost use Rattle.std.specs.Prelude.{◌≡◌, ◌<◌, IfErr};
ghost use Rattle.span_locks.specs.Answers.{IsPlanOf, IsLeafOf};
ghost use Rattle.span_locks.specs.Refusing.{IsUnscanned};

use crate::locks::Locks;
use crate::question::leaf_at;
use crate::scan_queue::ScanQueue;
use span_board::board::Naming;
use span_columns::leaf::{Leaf, Plan};
use span_journal::journal::Gap;
use span_params::params::Params;
use span_query::query::BoundQuery;
use span_threads::calls::map_indices;
use span_transactions::slots::MOST_SLOTS;
use span_truetime::clock::Clock;
use span_truetime::interval::Interval;
use span_value::refusal::Refusal;
use std::alloc::AllocError;
use std::sync::{Mutex, Wait};
use std::thread::Threads;

/// What is called around a scan. The workers of a query share it.
pub trait Gate {
    /// With no lock held, before the scan.
    fn before_scan(&self, leaf: usize, slot: usize);

    /// Between the read and the registering, with the slot's lock alone held.
    fn in_scan(&self, leaf: usize, slot: usize);

    /// With no lock held, after the scan.
    fn after_scan(&self, leaf: usize, slot: usize);
}

/// A query that is open, with its plan.
#[derive(Drop)]
pub struct PlannedQuery<'a> {
    /// Its query text.
    pub text: &'a str,
    /// Its parameters.
    pub params: &'a Params,
    /// Its plan.
    pub plan: &'a Plan,
    /// Its number in the journal.
    pub number: u64,
}

/// A leaf of a query in one slot.
#[derive(Drop)]
struct SlotLeaf<'a> {
    leaf: &'a Leaf,
    /// Its place in the plan.
    place: usize,
    /// The query above the leaves.
    top: &'a BoundQuery,
    /// The number of the slot.
    slot: usize,
}

impl<J: Naming + Send + Sync> Locks<J> {
    /// Scans all leaves of a query in the slots in use, and then in those that cuts have added meanwhile: a cut moves keys to a slot that
    /// was not in use. The first refusal of a scan.
    pub fn scan_leaves<R: Threads + Wait + Sync, C: Clock + Sync, G: Gate + Sync>(
        &self,
        rt: &R,
        clock: &C,
        gate: &G,
        query: &PlannedQuery<'_>,
        workers: usize,
    ) -> Result<(), Refusal>
        requires { IsPlanOf J.schema query.now.text.now query.now.params.now query.now.plan.now }
        ensures { IfErr result (IsUnscanned J.schema) }
    {
        let mut scanned = 0;
        for _ in 0..MOST_SLOTS {
            let used = self.count_slots(rt);
            if used <= scanned {
                break;
            }
            self.scan_slots(rt, clock, gate, query, workers, scanned, used)?;
            scanned = used;
        }
        Ok(())
    }

    /// Scans all leaves of a query in the slots from one number on to another.
    fn scan_slots<R: Threads + Wait + Sync, C: Clock + Sync, G: Gate + Sync>(
        &self,
        rt: &R,
        clock: &C,
        gate: &G,
        query: &PlannedQuery<'_>,
        workers: usize,
        from: usize,
        to: usize,
    ) -> Result<(), Refusal>
        requires { IsPlanOf J.schema query.now.text.now query.now.params.now query.now.plan.now }
        ensures { IfErr result (IsUnscanned J.schema) }
    {
        let queue = Mutex::new(ScanQueue::new(query.plan.leaves.len(), from, to));
        // More threads than slots would wait for one another: a slot is read under its lock.
        let threads = workers.min(to.saturating_sub(from));
        if threads > 1 {
            // Where memory doesn't suffice for a thread, what it would have scanned is left.
            let _ = self.scan_side_by_side(rt, clock, gate, query, &queue, threads);
        }
        self.work(rt, clock, gate, query, &queue);
        queue.into_inner().end()
    }

    /// Works by this many threads, and waits for them. The error is out of memory.
    fn scan_side_by_side<R: Threads + Wait + Sync, C: Clock + Sync, G: Gate + Sync>(
        &self,
        rt: &R,
        clock: &C,
        gate: &G,
        query: &PlannedQuery<'_>,
        queue: &Mutex<ScanQueue<J>>,
        threads: usize,
    ) -> Result<(), AllocError>
        requires { IsPlanOf J.schema query.now.text.now query.now.params.now query.now.plan.now }
    {
        map_indices(
            rt,
            self.board.alloc,
            threads,
            &|_|
                requires { IsPlanOf J.schema query.now.text.now query.now.params.now query.now.plan.now }
            { self.work(rt, clock, gate, query, queue) },
        )?;
        Ok(())
    }
}

impl<J: Naming> Locks<J> {
    /// How many slots are in use: the first ones.
    fn count_slots<R: Wait>(&self, rt: &R) -> usize {
        self.journal.lock(rt).count_slots()
    }

    /// Takes one leaf in one slot after another and scans it, until there is none or a scan is refused.
    fn work<R: Wait, C: Clock, G: Gate>(
        &self,
        rt: &R,
        clock: &C,
        gate: &G,
        query: &PlannedQuery<'_>,
        queue: &Mutex<ScanQueue<J>>,
    )
        requires { IsPlanOf J.schema query.now.text.now query.now.params.now query.now.plan.now }
    {
        for _ in rt.forever() {
            let Some((place, slot)) = queue.lock(rt).take() else {
                break;
            };
            self.scan_place(rt, clock, gate, query, queue, place, slot);
        }
    }

    /// Scans the leaf at a place of the plan in a slot.
    fn scan_place<R: Wait, C: Clock, G: Gate>(
        &self,
        rt: &R,
        clock: &C,
        gate: &G,
        query: &PlannedQuery<'_>,
        queue: &Mutex<ScanQueue<J>>,
        place: usize,
        slot: usize,
    )
        requires { IsPlanOf J.schema query.now.text.now query.now.params.now query.now.plan.now }
    {
        match leaf_at(query.plan, place) {
            Some(leaf) => {
                let leaf = SlotLeaf {
                    leaf,
                    place,
                    top: &query.plan.top,
                    slot,
                };
                self.scan_slot(rt, clock, gate, query, queue, &leaf);
            }
            None => (),
        }
    }

    /// Scans what is uncovered of a leaf in a slot, part by part, until nothing is or a scan is refused.
    fn scan_slot<R: Wait, C: Clock, G: Gate>(
        &self,
        rt: &R,
        clock: &C,
        gate: &G,
        query: &PlannedQuery<'_>,
        queue: &Mutex<ScanQueue<J>>,
        leaf: &SlotLeaf<'_>,
    )
        requires { IsLeafOf J.schema query.now.text.now query.now.params.now leaf.now.place leaf.now.leaf.now leaf.now.top.now }
    {
        for _ in rt.forever() {
            if !self.scan(rt, clock, gate, query, queue, leaf) {
                break;
            }
        }
    }

    /// Scans the lowest uncovered part of a leaf in a slot: whether there was one. The refusal goes to the queue.
    fn scan<R: Wait, C: Clock, G: Gate>(
        &self,
        rt: &R,
        clock: &C,
        gate: &G,
        query: &PlannedQuery<'_>,
        queue: &Mutex<ScanQueue<J>>,
        leaf: &SlotLeaf<'_>,
    ) -> bool
        requires { IsLeafOf J.schema query.now.text.now query.now.params.now leaf.now.place leaf.now.leaf.now leaf.now.top.now }
    {
        let interval = clock.now();
        let Some(gap) = self.claim(rt, query.number, queue, leaf.place, leaf.slot, interval) else {
            return false;
        };
        gate.before_scan(leaf.place, leaf.slot);
        if let Err(why) = self.read(rt, gate, query, queue, leaf, interval, &gap) {
            queue.lock(rt).refuse(why);
        }
        gate.after_scan(leaf.place, leaf.slot);
        true
    }

    /// Claims the lowest uncovered part of a leaf in a slot, under the journal's lock. None where there is none, or a scan was refused.
    /// The queue is locked too, so that none is claimed after the first refusal.
    fn claim<R: Wait>(
        &self,
        rt: &R,
        query: u64,
        queue: &Mutex<ScanQueue<J>>,
        place: usize,
        slot: usize,
        interval: Interval,
    ) -> Option<Gap> {
        let mut queue = queue.lock(rt);
        if queue.is_refused() {
            return None;
        }
        let claimed = self
            .journal
            .lock(rt)
            .claim(&self.board, query, place, slot, interval);
        match claimed {
            Ok(gap) => gap,
            Err(why) => {
                queue.refuse(why);
                None
            }
        }
    }

    /// Reads under the slot's lock, and registers what was read while both are held. The queue is locked then too, so that none is claimed
    /// after a refusal.
    fn read<R: Wait, G: Gate>(
        &self,
        rt: &R,
        gate: &G,
        query: &PlannedQuery<'_>,
        queue: &Mutex<ScanQueue<J>>,
        leaf: &SlotLeaf<'_>,
        interval: Interval,
        gap: &Gap,
    ) -> Result<(), Refusal>
        requires { IsLeafOf J.schema query.now.text.now query.now.params.now leaf.now.place leaf.now.leaf.now leaf.now.top.now }
        ensures { IfErr result (IsUnscanned J.schema) }
    {
        let mut slot = self.slot(leaf.slot)?.lock(rt);
        let piece = slot.read(&self.board, leaf.leaf, leaf.top, leaf.place, gap)?;
        gate.in_scan(leaf.place, leaf.slot);
        let mut queue = queue.lock(rt);
        let mut journal = self.journal.lock(rt);
        let registered = slot.register(
            &self.board,
            &mut journal,
            query.text,
            query.params,
            query.number,
            leaf.place,
            leaf.leaf,
            leaf.top,
            interval,
            gap,
            piece,
        );
        match registered {
            // Where a cut has come in between, nothing is registered, and the rest of the part is claimed again.
            Ok(_) => Ok(()),
            Err(why) => {
                queue.refuse(why);
                Err(why)
            }
        }
    }
}
