//! How a query is opened, ended and closed.
ghost use Rattle.std.specs.Prelude.{◌≡◌, ◌⊎◌, List, Ok, Some, None, IfOk, IfErr};
ghost use Rattle.span_gather.specs.Gathered.{gathered};
ghost use Rattle.span_query.specs.Rows.{Row};
ghost use Rattle.span_truetime.specs.Time.{timestamp_of};
ghost use Rattle.span_planner.specs.Plannable.{IsPlannable};
ghost use Rattle.span_binder.specs.Understands.{Understands};
ghost use Rattle.span_locks.specs.Answers.{IsAnswered, IsPlanOf};
ghost use Rattle.span_locks.specs.Refusing.{IsRefusedAtFirst, IsUnopened, IsUnscanned, IsUnfinished, IsFault, IsEndRefused};
ghost use Rattle.span_board.specs.Rule.{Sees};

use crate::locks::Locks;
use crate::question::{copy_question, rows_of, understand_and_plan};
use span_board::board::Naming;
use span_board::session::Session;
use span_columns::leaf::Plan;
use span_gather::rows::Rows;
use span_journal::journal::Opened;
use span_openqueries::planned::planned_query;
use span_openqueries::taken::Taken;
use span_params::params::Params;
use span_query::query::Statement;
use span_truetime::bound::Bound;
use span_truetime::interval::Interval;
use span_value::owned::{give_after, keep_with};
use span_value::refusal::Refusal;
use std::sync::Wait;
use std::thread::Threads;

impl<J: Naming> Locks<J> {
    /// Understands a query text, plans it and opens it.
    pub fn open<R: Wait>(
        &self,
        rt: &R,
        text: &str,
        params: &Params,
        bound: Bound,
        interval: Interval,
    ) -> Result<(Plan, Opened), Refusal>
        ensures plan { IfOk result (λ r. IsPlanOf J.schema text.now params.now r.0) }
        ensures s { IfOk result (λ r. r.1.s ≡ timestamp_of bound interval) }
        ensures refused { IfErr result (IsRefusedAtFirst J.schema text.now params.now bound interval) }
    {
        match understand_and_plan(self.board.alloc, &self.board.schema, text, params) {
            Ok((statement, plan)) => {
                let opened = self.open_statement(rt, text, params, statement, bound, interval);
                keep_with(plan, opened)
            }
            Err(why) => Err(why),
        }
    }

    /// Opens a query whose query text is understood as this statement.
    fn open_statement<R: Wait>(
        &self,
        rt: &R,
        text: &str,
        params: &Params,
        statement: Statement,
        bound: Bound,
        interval: Interval,
    ) -> Result<Opened, Refusal>
        requires understood { Understands J.schema text.now params.now (Ok statement) }
        requires plannable { IsPlannable J.schema statement }
        ensures s { IfOk result (λ opened. opened.s ≡ timestamp_of bound interval) }
        ensures refused { IfErr result
            (λ why. (why ≡ Refusal.OutOfMemory) ⊎ IsUnopened J.schema text.now params.now bound interval why) }
    {
        let copies = copy_question(self.board.alloc, text, params);
        let (statement, (text, params)) = keep_with(statement, copies)?;
        // The session keeps a plan of its own, and the journal the leaves of this one.
        let query = planned_query(
            self.board.alloc,
            &self.board.schema,
            text,
            params,
            statement,
        )?;
        self.journal
            .lock(rt)
            .open(&self.board, query, bound, interval)
    }

    /// Closes a query, in case it is open.
    pub fn close<R: Wait>(&self, rt: &R, query: u64) {
        let _ = self.journal.lock(rt).close(&self.board, query);
    }

    /// The rows of a query, if its leaves were scanned. At most this many workers make them.
    pub fn finish_scanned<R: Threads + Wait + Sync>(
        &self,
        rt: &R,
        me: &mut Session<J>,
        text: &str,
        params: &Params,
        opened: Opened,
        scanned: Result<(), Refusal>,
        workers: usize,
    ) -> Result<Rows, Refusal>
        requires { IfErr scanned (IsUnscanned J.schema) }
        ensures seen { Sees me.old me.new }
        ensures begun { me.new.begun ≡ me.old.begun }
        ensures rows { IfOk result (λ rows. IsAnswered J.schema text.now params.now me.new.seen opened.s rows.rows) }
        ensures refused { IfErr result
            (λ why. IsUnscanned J.schema why ⊎ IsUnfinished J.schema text.now params.now me.new.seen opened.s why) }
    {
        match scanned {
            Ok(()) => self.finish(rt, me, text, params, opened, workers),
            Err(why) => Err(why),
        }
    }

    /// Takes the pieces that cover a query, and makes its rows from them. No lock is held while they are made.
    fn finish<R: Threads + Wait + Sync>(
        &self,
        rt: &R,
        me: &mut Session<J>,
        text: &str,
        params: &Params,
        opened: Opened,
        workers: usize,
    ) -> Result<Rows, Refusal>
        ensures seen { Sees me.old me.new }
        ensures begun { me.new.begun ≡ me.old.begun }
        ensures rows { IfOk result (λ rows. IsAnswered J.schema text.now params.now me.new.seen opened.s rows.rows) }
        ensures refused { IfErr result (IsUnfinished J.schema text.now params.now me.new.seen opened.s) }
    {
        match self.take(rt, me, opened.query) {
            Ok(mut taken) => {
                let alloc = self.board.alloc;
                let rows = rows_of(rt, alloc, workers, &mut taken, text, params, opened.s);
                give_after(taken, rows)
            }
            Err(why) => Err(why),
        }
    }

    /// Takes the pieces that cover a query.
    fn take<R: Wait>(&self, rt: &R, me: &mut Session<J>, query: u64) -> Result<Taken, Refusal>
        ensures seen { Sees me.old me.new }
        ensures begun { me.new.begun ≡ me.old.begun }
        ensures meant { IfOk result
            (λ taken. (rows : List Row)
            → gathered taken.pieces taken.top ≡ Some rows
            → IsAnswered J.schema taken.text taken.params me.new.seen taken.s rows) }
        ensures fault { IfOk result
            (λ taken. gathered taken.pieces taken.top ≡ None
            → IsFault J.schema taken.text taken.params me.new.seen taken.s) }
        ensures refused { IfErr result (IsEndRefused J.schema) }
    {
        self.journal.lock(rt).take(&self.board, me, query)
    }
}
