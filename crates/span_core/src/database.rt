//! The core and its steps.
ghost use Rattle.std.specs.Prelude.{◌≡◌, ◌⊎◌, IfOk, IfErr, Ok, Err, None, MatchOption, MatchResult, length, slice_get};
ghost use Rattle.span_core.specs.Explanations.{IsExplanation};
ghost use Rattle.span_core.specs.Histories.{IsStep};
ghost use Rattle.span_core.specs.Promises.{IsRunTo, Promises, IsConsistent};
ghost use Rattle.span_core.specs.Views.{IsView};
ghost use Rattle.span_binder.specs.Understands.{Understands};
ghost use Rattle.span_openqueries.specs.Planned.{IsPlanned};
ghost use Rattle.span_schema.specs.Lineages.{MeetsRules};
ghost use Rattle.span_machine.specs.Machine.{start};
ghost use Rattle.span_machine.specs.Run.{IsChecked, IsOfSchema};
ghost use Rattle.span_keycode.specs.Coding.{AreValues};
ghost use Rattle.span_mutate.specs.Typed.{AreTypedMutations};
ghost use Rattle.span_machine.specs.declared.step.Step.TheVariants as step_of;

use super::explain::explain_statement;
use super::replies::{
    advance_reply, apply_reply, begin_reply, close_reply, decide_reply, finish_reply, open_reply,
    prepare_reply, scan_reply, split_reply, trim_reply,
};
use super::slot::SlotView;
use span_binder::understand::understand;
use span_checking::transaction::Transaction;
use span_journal::journal::Journal;
use span_keycode::laws::are_values;
use span_machine::step::{Reply, Step, Verdict};
use span_openqueries::planned::{PlannedQuery, planned_query};
use span_params::params::Params;
use span_parts::{cut, steps};
use span_query::query::Statement;
use span_schema::schema::Schema;
use span_shard::shard::Shard;
use span_soundness::laws::can_be_planned;
use span_truetime::bound::Bound;
use span_truetime::interval::Interval;
use span_value::owned::give_after;
use span_value::refusal::Refusal;
use span_value::seq::Seq;
use span_value::text::Text;
use span_value::value::Value;
use std::alloc::Global;
use std::marker::Model;

/// A database in memory. Contracts see it as its schema and the machine; that the versions in its shards are those of the machine's
/// commits is its invariant.
#[derive(Debug, Drop)]
pub struct Core {
    schema: Schema,
    journal: Journal,
    /// The shards of the slots in use, by number.
    shards: Vec<Shard>,
}

impl Model for Core {
    ghost use Rattle.span_core.specs.Whole.{State};
    ghost use Rattle.span_expr.specs.contracts.expr.Expr as expr;
    ghost use Rattle.span_query.specs.contracts.query.BoundQuery as bound_query;
    ghost use Rattle.std.specs.Coded.{codes};

    ghost Value = { State };

    ghost coded = { Prim.hlevel (codes, expr.the_row.coded, bound_query.the_row.coded) };

    ghost use Rattle.span_machine.specs.Pieces.{machine_of};

    ghost view = { λ a. record { schema = a.schema; machine = machine_of a.journal } };

    ghost use Rattle.span_core.specs.Whole.{IsDatabase};

    ghost invariant = { λ a. IsDatabase a.schema a.journal a.shards.items };
}

impl Core {
    /// An empty database. `OutOfMemory` is the only refusal.
    pub fn new(alloc: Global, schema: Schema) -> Result<Core, Refusal>
        ensures start { IfOk result (λ core. core ≡ record { schema = schema; machine = start }) }
        ensures memory { IfErr result (λ why. why ≡ Refusal.OutOfMemory) }
    {
        schema.meets_rules();
        let mut shards = Vec::new(alloc);
        shards.push(Shard::new(alloc))?;
        let journal = Journal::new(alloc)?;
        steps::start(&schema, &journal, &shards);
        Ok(Core {
            schema,
            journal,
            shards,
        })
    }

    /// A law, for proofs: the schema meets its rules, a run of steps from an empty database leads to the machine, and the next step,
    /// whatever it is, is answered as promised (`Promises`); every run that leads to the machine is externally consistent where the
    /// clock was honest. The contract of `step` speaks of any machine; a function that is lent a database has these from here. It
    /// does nothing.
    pub fn is_reached(&self)
        ensures rules { MeetsRules self.now.schema }
        ensures reached { IsRunTo self.now.schema self.now.machine }
        ensures promises { Promises self.now.schema self.now.machine }
        ensures consistent { IsConsistent self.now.schema self.now.machine }
    {
        let _ = &self.journal;
    }

    /// The schema of the database's tables.
    pub fn schema(&self) -> &Schema
        ensures { result.now ≡ self.now.schema }
    {
        &self.schema
    }

    /// How many slots are in use. Their numbers, counted from 0, are below this.
    pub fn slots(&self) -> usize
        ensures { result ≡ length self.now.machine.slots }
    {
        self.journal.slots().len()
    }

    /// A slot with its shard, lent; None where it is not in use. It takes no memory.
    pub fn slot(&self, slot: usize) -> Option<SlotView<'_>>
        ensures { MatchOption result
            (slice_get self.now.machine.slots slot ≡ None)
            (IsView self.now.schema self.now.machine slot) }
    {
        let slot_state = self.journal.slots().get(slot)?;
        let shard = self.shards.get(slot)?;
        Some(SlotView {
            lo: &slot_state.lo,
            hi: &slot_state.hi,
            last: slot_state.last,
            floor: slot_state.floor,
            horizon: slot_state.horizon,
            live: shard.live(),
            prepared: self.journal.count_prepared(slot),
            shard,
        })
    }

    /// Takes one step, and returns the machine's reply. `Refused(OutOfMemory)` may take its place for a step that may take memory,
    /// and then nothing has changed. A transaction that is begun was checked against the database's schema.
    pub fn step(&mut self, alloc: Global, step: Step) -> Reply
        requires { IsChecked self.old.schema step }
        ensures steps { IsStep self.old.schema self.old.machine step result self.new.machine }
        ensures schema { self.new.schema ≡ self.old.schema }
        ensures of_schema { IsOfSchema self.old.schema step }
    {
        match step {
            Step::Begin { owner, transaction } => self.begin(alloc, owner, transaction),
            Step::Prepare { owner, txn, slot } => self.prepare(alloc, owner, txn, slot),
            Step::Decide {
                owner,
                txn,
                verdict,
                interval,
            } => self.decide(alloc, owner, txn, verdict, interval),
            Step::Apply {
                owner,
                txn,
                slot,
                interval,
            } => self.apply(owner, txn, slot, interval),
            Step::Advance { slot, interval } => self.advance(slot, interval),
            Step::Trim { slot, h } => self.trim(slot, h),
            Step::Open {
                text,
                params,
                bound,
                interval,
            } => self.open(alloc, text, params, bound, interval),
            Step::Scan {
                query,
                leaf,
                slot,
                interval,
            } => self.scan(alloc, query, leaf, slot, interval),
            Step::Finish { query } => self.finish(alloc, query),
            Step::Close { query } => self.close(query),
            Step::Split { table, key } => self.split(alloc, table, key),
        }
    }

    fn begin(&mut self, alloc: Global, owner: u64, transaction: Transaction) -> Reply
        requires { AreTypedMutations self.old.schema transaction }
        ensures steps { IsStep self.old.schema self.old.machine
            (step_of.Begin owner transaction) result self.new.machine }
        ensures schema { self.new.schema ≡ self.old.schema }
    {
        begin_reply(steps::begin(alloc, &self.schema, &mut self.journal, owner, transaction))
    }

    fn prepare(&mut self, alloc: Global, owner: u64, txn: u64, slot: usize) -> Reply
        ensures steps { IsStep self.old.schema self.old.machine
            (step_of.Prepare owner txn slot) result self.new.machine }
        ensures schema { self.new.schema ≡ self.old.schema }
    {
        prepare_reply(steps::prepare(
            alloc,
            &self.schema,
            &mut self.journal,
            &mut self.shards,
            owner,
            txn,
            slot,
        ))
    }

    fn decide(
        &mut self,
        alloc: Global,
        owner: u64,
        txn: u64,
        verdict: Verdict,
        interval: Interval,
    ) -> Reply
        ensures steps { IsStep self.old.schema self.old.machine
            (step_of.Decide owner txn verdict interval) result self.new.machine }
        ensures schema { self.new.schema ≡ self.old.schema }
    {
        decide_reply(steps::decide(
            alloc,
            &self.schema,
            &mut self.journal,
            owner,
            txn,
            verdict,
            interval,
        ))
    }

    fn apply(&mut self, owner: u64, txn: u64, slot: usize, interval: Interval) -> Reply
        ensures steps { IsStep self.old.schema self.old.machine
            (step_of.Apply owner txn slot interval) result self.new.machine }
        ensures schema { self.new.schema ≡ self.old.schema }
    {
        apply_reply(steps::apply(
            &self.schema,
            &mut self.journal,
            &mut self.shards,
            owner,
            txn,
            slot,
            interval,
        ))
    }

    fn advance(&mut self, slot: usize, interval: Interval) -> Reply
        ensures steps { IsStep self.old.schema self.old.machine
            (step_of.Advance slot interval) result self.new.machine }
        ensures schema { self.new.schema ≡ self.old.schema }
    {
        advance_reply(steps::advance(&self.schema, &mut self.journal, slot, interval))
    }

    fn trim(&mut self, slot: usize, h: u64) -> Reply
        ensures steps { IsStep self.old.schema self.old.machine (step_of.Trim slot h) result self.new.machine }
        ensures schema { self.new.schema ≡ self.old.schema }
    {
        trim_reply(steps::trim(&self.schema, &mut self.journal, &mut self.shards, slot, h))
    }

    fn open(
        &mut self,
        alloc: Global,
        text: Text,
        params: Params,
        bound: Bound,
        interval: Interval,
    ) -> Reply
        ensures steps { IsStep self.old.schema self.old.machine
            (step_of.Open text params bound interval) result self.new.machine }
        ensures schema { self.new.schema ≡ self.old.schema }
    {
        match understand(alloc, &self.schema, text.as_str(), &params) {
            Ok(statement) => self.open_statement(alloc, text, params, statement, bound, interval),
            Err(why) => Reply::Refused(why),
        }
    }

    /// Opens a query whose query text is understood as this statement.
    fn open_statement(
        &mut self,
        alloc: Global,
        text: Text,
        params: Params,
        statement: Statement,
        bound: Bound,
        interval: Interval,
    ) -> Reply
        requires { Understands self.old.schema text params (Ok statement) }
        ensures steps { IsStep self.old.schema self.old.machine
            (step_of.Open text params bound interval) result self.new.machine }
        ensures schema { self.new.schema ≡ self.old.schema }
    {
        match planned_query(alloc, &self.schema, text, params, statement) {
            Ok(query) => self.open_planned(alloc, query, bound, interval),
            Err(_) => Reply::Refused(Refusal::OutOfMemory),
        }
    }

    /// Opens a query that was planned.
    fn open_planned(
        &mut self,
        alloc: Global,
        query: PlannedQuery,
        bound: Bound,
        interval: Interval,
    ) -> Reply
        requires understood { Understands self.old.schema query.text query.params (Ok query.statement) }
        requires planned { IsPlanned self.old.schema query }
        ensures steps { IsStep self.old.schema self.old.machine
            (step_of.Open query.text query.params bound interval) result self.new.machine }
        ensures schema { self.new.schema ≡ self.old.schema }
    {
        open_reply(steps::open(
            alloc,
            &self.schema,
            &mut self.journal,
            query,
            bound,
            interval,
        ))
    }

    fn scan(
        &mut self,
        alloc: Global,
        query: u64,
        leaf: usize,
        slot: usize,
        interval: Interval,
    ) -> Reply
        ensures steps { IsStep self.old.schema self.old.machine
            (step_of.Scan query leaf slot interval) result self.new.machine }
        ensures schema { self.new.schema ≡ self.old.schema }
    {
        scan_reply(steps::scan(
            alloc,
            &self.schema,
            &mut self.journal,
            self.shards.as_slice(),
            query,
            leaf,
            slot,
            interval,
        ))
    }

    fn finish(&mut self, alloc: Global, query: u64) -> Reply
        ensures steps { IsStep self.old.schema self.old.machine (step_of.Finish query) result self.new.machine }
        ensures schema { self.new.schema ≡ self.old.schema }
    {
        finish_reply(steps::finish(alloc, &self.schema, &self.journal, query))
    }

    /// The plan of a query text with these parameters, as text: how many leaves it has, and then of each a line with its
    /// tables and its range of coded keys. The refusal of the query text, or `OutOfMemory`.
    pub fn explain(&self, alloc: Global, text: &str, params: &Params) -> Result<Text, Refusal>
        ensures { MatchResult result
            (IsExplanation self.now.schema text.now params.now)
            (λ why. (why ≡ Refusal.OutOfMemory) ⊎ Understands self.now.schema text.now params.now (Err why)) }
    {
        match understand(alloc, &self.schema, text, params) {
            Ok(statement) => {
                can_be_planned(&self.schema, text, params, &statement);
                let plan = explain_statement(alloc, &self.schema, &statement);
                give_after(statement, plan)
            }
            Err(why) => Err(why),
        }
    }

    fn close(&mut self, query: u64) -> Reply
        ensures steps { IsStep self.old.schema self.old.machine (step_of.Close query) result self.new.machine }
        ensures schema { self.new.schema ≡ self.old.schema }
    {
        close_reply(steps::close(&self.schema, &mut self.journal, query))
    }

    fn split(&mut self, alloc: Global, table: Text, key: Seq<Value>) -> Reply
        ensures steps { IsStep self.old.schema self.old.machine (step_of.Split table key) result self.new.machine }
        ensures schema { self.new.schema ≡ self.old.schema }
        ensures values { AreValues key }
    {
        are_values(key.as_slice());
        split_reply(cut::split(
            alloc,
            &self.schema,
            &mut self.journal,
            &mut self.shards,
            table.as_str(),
            key.as_slice(),
        ))
    }
}
