//! Queries of a session: opened, scanned by one worker or several, and ended.
ghost use Rattle.std.specs.Prelude.{◌≡◌, ◌⊎◌, ◌≤◌, IfOk, IfErr};
ghost use Rattle.span_truetime.specs.Time.{timestamp_of};
ghost use Rattle.span_truetime.specs.declared.interval.Interval.{Interval};
ghost use Rattle.span_locks.specs.Answers.{IsAnswered};
ghost use Rattle.span_locks.specs.Refusing.{IsQueryRefusal, IsUnscanned, IsUnfinished};
ghost use Rattle.span_board.specs.Rule.{Sees};
ghost use Rattle.span_session.specs.Limits.{most_workers};

use crate::db::Db;
use span_board::board::Naming;
use span_board::session::Session;
use span_gather::rows::Rows;
use span_journal::journal::Opened;
use span_params::params::Params;
use span_scans::workers::{Gate, PlannedQuery};
use span_truetime::bound::Bound;
use span_truetime::clock::Clock;
use span_truetime::interval::Interval;
use span_value::owned::give_after;
use span_value::refusal::Refusal;
use std::sync::Wait;
use std::thread::Threads;

/// The greatest number of workers of one query.
pub const MOST_WORKERS: usize = 64;

/// The number is the one that the definitions name.
pub fn limit_is_stated()
    ensures { MOST_WORKERS ≡ most_workers }
{}

/// What a query is answered.
#[derive(Debug, Drop)]
pub struct Answer {
    /// The clock's reading that the timestamp was chosen by.
    pub read: Interval,
    /// The timestamp that was read at.
    pub s: u64,
    /// The rows, in order.
    pub rows: Rows,
}

impl<J: Naming + Send + Sync> Db<J> {
    /// Answers a query: the rows, in order, that its query text means on the tables of the log at s, as far as the session has seen the log
    /// then. It takes at most this many workers, from 1 to 64, of which one is the thread that asks: at most one for each slot in use
    /// scans, and all may make its groups, its order and its pairs at the end. Only where a query of two workers or more puts many joined
    /// rows, or those of a derived table, in order, as many threads as there are processors judge and sort them. The clock is read once to
    /// choose s, and once for each scan. The refusal is the one that ended it: that of its opening, the first of its scans, or that of its
    /// end. The query is closed then.
    pub fn query<R: Threads + Wait + Sync, C: Clock + Sync, G: Gate + Sync>(
        &self,
        rt: &R,
        clock: &C,
        gate: &G,
        me: &mut Session<J>,
        text: &str,
        params: &Params,
        bound: Bound,
        workers: usize,
    ) -> Result<Answer, Refusal>
        requires { (1 ≤ workers) × (workers ≤ MOST_WORKERS) }
        ensures seen { Sees me.old me.new }
        ensures begun { me.new.begun ≡ me.old.begun }
        ensures read { IfOk result (λ a. C.may_give clock.now a.read × (a.s ≡ timestamp_of bound a.read)) }
        ensures rows { IfOk result (λ a. IsAnswered J.schema text.now params.now me.new.seen a.s a.rows.rows) }
        ensures refused { IfErr result
            (λ why. (read : Interval)
            × C.may_give clock.now read
            × IsQueryRefusal J.schema text.now params.now bound read me.new.seen why) }
    {
        let read = clock.now();
        match self.locks.open(rt, text, params, bound, read) {
            Ok((plan, opened)) => {
                let query = PlannedQuery {
                    text,
                    params,
                    plan: &plan,
                    number: opened.query,
                };
                let scanned = self.locks.scan_leaves(rt, clock, gate, &query, workers);
                let scanned = give_after(plan, scanned);
                self.end_query(rt, me, text, params, read, opened, scanned, workers)
            }
            Err(why) => Err(why),
        }
    }
}

impl<J: Naming> Db<J> {
    /// Ends a query: takes the pieces that its scans gave and makes the rows from them. Where it is refused, it is closed.
    fn end_query<R: Threads + Wait + Sync>(
        &self,
        rt: &R,
        me: &mut Session<J>,
        text: &str,
        params: &Params,
        read: Interval,
        opened: Opened,
        scanned: Result<(), Refusal>,
        workers: usize,
    ) -> Result<Answer, Refusal>
        requires { IfErr scanned (IsUnscanned J.schema) }
        ensures seen { Sees me.old me.new }
        ensures begun { me.new.begun ≡ me.old.begun }
        ensures read { IfOk result (λ a. (a.read ≡ read) × (a.s ≡ opened.s)) }
        ensures rows { IfOk result (λ a. IsAnswered J.schema text.now params.now me.new.seen opened.s a.rows.rows) }
        ensures refused { IfErr result
            (λ why. IsUnscanned J.schema why ⊎ IsUnfinished J.schema text.now params.now me.new.seen opened.s why) }
    {
        match self
            .locks
            .finish_scanned(rt, me, text, params, opened, scanned, workers)
        {
            Ok(rows) => Ok(Answer {
                read,
                s: opened.s,
                rows,
            }),
            Err(why) => {
                self.locks.close(rt, opened.query);
                Err(why)
            }
        }
    }
}
