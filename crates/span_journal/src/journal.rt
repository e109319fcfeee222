//! The journal and its calls.
ghost use Rattle.std.specs.Prelude.{◌≡◌, ℕ, List, ◌<◌, ◌≤◌, ◌+◌, ◌^◌, [], ◌∷◌, ◌++◌, length, count_by, find, slice_get, IfOk, IfErr, IfSome, IfNone, MatchOption, OnOk, OnErr, Some, None, Ok, is_some, true};
ghost use Rattle.span_machine.specs.Machine.{Answers, IsAnswer, start, is_transaction, is_undecided, is_query, commit_refusal, commit_timestamp, begin, begun, decide, apply_step, advance, trim, trim_refusal, open_query, open_refusal, finish, close, refused, without_first, is_prepared_at, split_at, split_in_two};
ghost use Rattle.span_machine.specs.Limits.{most_commits, number_end};
ghost use Rattle.span_truetime.specs.Time.{timestamp_of};
ghost use Rattle.span_schema.specs.declared.table.Table.{Table};
ghost use Rattle.std.specs.Option.{option_copied};
ghost use Rattle.span_openqueries.specs.Planned.{IsPlanned};
ghost use Rattle.span_machine.specs.Pieces.{machine_of, unread};
ghost use Rattle.span_machine.specs.declared.transaction.OpenTransaction.{OpenTransaction};
ghost use Rattle.span_machine.specs.declared.step.Reply.TheVariants as reply_of;
ghost use Rattle.span_transactions.specs.Choices.{chosen_mutations};
ghost use Rattle.span_journal.specs.Judged.{as_reply, decision_reply, MayPrepare, IsUnprepared, IsNoted, IsUnnoted, IsApplied, IsGap, IsUnclaimed, IsRaised, leaf_of, IsRegistered, IsUnregistered, IsUnchanged, IsCovered, IsTaken, MaySplit, IsCutOf};

use super::limits::{MOST_COMMITS, MOST_QUERIES, MOST_TRANSACTIONS, NUMBER_END};
use super::owned::{append, drop_at};
use span_checking::transaction::Transaction;
use span_columns::leaf::Leaf;
use span_fragment::piece::Piece;
use span_keycode::key::Key;
use span_keycode::range::KeyRange;
use span_machine::query::OpenQuery;
use span_machine::slot::SlotState;
use span_machine::step::Verdict;
use span_machine::transaction::Prepared;
use span_mutate::mutation::CheckedMutation;
use span_openqueries::planned::PlannedQuery;
use span_openqueries::queries::{cover_at, find_query, find_target, slot_at, take_at};
use span_openqueries::query::KeptQuery;
use span_openqueries::ranges::{gap_in, is_free};
use span_openqueries::taken::Taken;
use span_query::query::BoundQuery;
use span_schema::schema::Schema;
use span_transactions::choice::{Chosen, has_any, mutations_in};
use span_transactions::commit::KeptCommit;
use span_transactions::conflict::has_conflict;
use span_transactions::slots::{
    MOST_SLOTS, begins_at, commit_timestamp, coordinator_slot, cut_at, is_ready, is_safe_at,
    prepare_timestamp, raise_last, risen_floor, set_floor, set_horizon, set_last, slot_of,
    upper_part,
};
use span_transactions::transaction::KeptTransaction;
use span_transactions::transactions::{
    abort_at, add_prepared_at, check_apply, commit_at, count_prepared, count_undecided,
    end_prepared_at, find_transaction, is_any_prepared, may_prepare, remove_at,
};
use span_truetime::bound::{Bound, choose};
use span_truetime::interval::Interval;
use span_value::owned::keep_with;
use span_value::refusal::Refusal;
use span_value::seq::Seq;
use std::alloc::{AllocError, Global};
use std::marker::Model;

/// A query that was opened.
#[derive(Clone, Copy, Debug, PartialEq, Eq)]
pub struct Opened {
    /// Its number.
    pub query: u64,
    /// The timestamp that it reads at.
    pub s: u64,
    /// The number of its leaves.
    pub leaves: usize,
}

/// What is to be read for a leaf of a query.
#[derive(Debug, Drop)]
pub struct Gap {
    /// The keys that are read.
    pub range: KeyRange,
    /// The timestamp that the query reads at.
    pub s: u64,
}

/// What a slot is cut by, made before it is cut.
#[derive(Debug, Drop)]
pub struct Cut {
    /// The state of the new slot, which has the keys from the cut on.
    upper: SlotState,
    /// The first key of the new slot.
    upper_bound: Key,
}

/// The state of slots, transactions and queries.
#[derive(Debug, Drop)]
pub struct Journal {
    /// It has reserved capacity for every slot that there may be.
    slots: Vec<SlotState>,
    transactions: Vec<KeptTransaction>,
    /// It has reserved capacity for each undecided transaction.
    log: Vec<KeptCommit>,
    queries: Vec<KeptQuery>,
    next_transaction: u64,
    next_query: u64,
}

impl Model for Journal {
    ghost use Rattle.std.specs.Prelude.{◌+◌, ◌≤◌, count_by, vec_len, vec_capacity};
    ghost use Rattle.span_machine.specs.Limits.{most_commits, most_slots};
    ghost use Rattle.span_machine.specs.Machine.{is_undecided};
    ghost use Rattle.span_machine.specs.Pieces.{Journaled};
    ghost use Rattle.span_expr.specs.contracts.expr.Expr as expr;
    ghost use Rattle.span_query.specs.contracts.query.BoundQuery as bound_query;
    ghost use Rattle.std.specs.Coded.{codes};

    ghost Value = { Journaled };

    ghost coded = { Prim.hlevel (codes, expr.the_row.coded, bound_query.the_row.coded) };

    ghost view = { λ a. record {
      slots = a.slots.items;
      transactions = a.transactions.items;
      log = a.log.items;
      queries = a.queries.items;
      next_transaction = a.next_transaction;
      next_query = a.next_query;
    } };

    ghost invariant = { λ a. record {
      few : vec_len a.log + count_by is_undecided a.transactions.items ≤ most_commits;
      room : vec_len a.log + count_by is_undecided a.transactions.items ≤ vec_capacity a.log;
      few_slots : vec_len a.slots ≤ most_slots;
      room_for_slots : most_slots ≤ vec_capacity a.slots;
    } };
}

impl Journal {
    /// A journal with one slot, which has every key, and nothing in it.
    pub fn new(alloc: Global) -> Result<Journal, AllocError>
        ensures start { IfOk result (λ journal. machine_of journal ≡ start) }
        ensures pieces { IfOk result (λ journal. journal.queries ≡ []) }
    {
        let mut slots = Vec::with_capacity(alloc, MOST_SLOTS)?;
        slots.push(SlotState {
            lo: None,
            hi: None,
            last: 0,
            floor: 0,
            horizon: 0,
        })?;
        Ok(Journal {
            slots,
            transactions: Vec::new(alloc),
            log: Vec::new(alloc),
            queries: Vec::new(alloc),
            next_transaction: 1,
            next_query: 1,
        })
    }

    /// The states of the slots in use, in their order.
    pub fn slots(&self) -> &[SlotState]
        ensures { result.now ≡ self.now.slots }
    {
        self.slots.as_slice()
    }

    /// The commits, in the order in which they joined. Contracts alone see their mutations.
    pub fn log(&self) -> &[KeptCommit]
        ensures { result.now ≡ self.now.log }
    {
        self.log.as_slice()
    }

    /// A law, which takes no time: the log has no more commits than it may.
    pub fn log_is_limited(&self)
        ensures { length self.now.log ≤ most_commits }
    {
        let _log = self.log.as_slice();
    }

    /// The mutations of an open transaction. None where there is none of this owner and number.
    pub fn mutations(&self, owner: u64, txn: u64) -> Option<&[CheckedMutation]>
        ensures { MatchOption result
            (find (is_transaction owner txn) (machine_of self.now).transactions ≡ None)
            (λ ms.
            (t : OpenTransaction)
            × (find (is_transaction owner txn) (machine_of self.now).transactions ≡ Some t)
            × (ms.now ≡ t.mutations)) }
    {
        let Some((_, transaction)) = find_transaction(self.transactions.as_slice(), owner, txn)
        else {
            return None;
        };
        Some(transaction.mutations())
    }

    /// How many transactions are prepared at the slot. A decided one is prepared until it is applied there.
    pub fn count_prepared(&self, slot: usize) -> usize
        ensures { result ≡ count_by (is_prepared_at slot) (machine_of self.now).transactions }
    {
        count_prepared(self.transactions.as_slice(), slot)
    }

    /// Begins a transaction, and returns its number. It reserves the capacity that its prepares and its commit take.
    /// `TransactionTableFull`, then `LogFull`, then `OutOfMemory`; a refusal leaves all as it was.
    pub fn begin(
        &mut self,
        alloc: Global,
        owner: u64,
        transaction: Transaction,
    ) -> Result<u64, Refusal>
        ensures step { Answers (machine_of self.old)
            (begin (machine_of self.old) owner transaction)
            (as_reply reply_of.Began result)
            (machine_of self.new) }
        ensures pieces { self.new.queries ≡ self.old.queries }
    {
        if self.transactions.len() >= MOST_TRANSACTIONS || self.next_transaction >= NUMBER_END {
            return Err(Refusal::TransactionTableFull);
        }
        let undecided = count_undecided(self.transactions.as_slice());
        if self.log.len() + undecided >= MOST_COMMITS {
            return Err(Refusal::LogFull);
        }
        self.try_begin(alloc, undecided, owner, transaction)
    }

    fn try_begin(
        &mut self,
        alloc: Global,
        undecided: usize,
        owner: u64,
        transaction: Transaction,
    ) -> Result<u64, Refusal>
        requires few { length self.old.log + count_by is_undecided self.old.transactions < most_commits }
        requires last { self.old.next_transaction < number_end }
        requires undecided { undecided ≡ count_by is_undecided self.old.transactions }
        ensures number { IfOk result (λ n. n ≡ self.old.next_transaction) }
        ensures ok { OnOk result (machine_of self.new ≡ (begun (machine_of self.old) owner transaction).1) }
        ensures memory { IfErr result (λ why. why ≡ Refusal.OutOfMemory) }
        ensures err { OnErr result (machine_of self.new ≡ machine_of self.old) }
        ensures pieces { self.new.queries ≡ self.old.queries }
    {
        self.log.reserve(undecided + 1)?;
        let number = self.next_transaction;
        let kept = KeptTransaction::new(alloc, owner, number, transaction.into_mutations())?;
        self.transactions.push(kept)?;
        self.next_transaction += 1;
        Ok(number)
    }

    /// Decides a transaction: returns its commit timestamp, or None for an abort. It takes no memory: `begin` reserved
    /// the capacity. `UnknownTransaction`, then `WrongState`, then `TimestampRange`; a refusal leaves all as it was.
    pub fn decide(
        &mut self,
        alloc: Global,
        schema: &Schema,
        owner: u64,
        txn: u64,
        verdict: Verdict,
        interval: Interval,
    ) -> Result<Option<u64>, Refusal>
        ensures step { IsAnswer
            (decide schema.now (machine_of self.old) owner txn verdict interval)
            (as_reply decision_reply result)
            (machine_of self.new) }
        ensures pieces { self.new.queries ≡ self.old.queries }
    {
        match verdict {
            Verdict::Commit => Ok(Some(self.commit(schema, owner, txn, interval)?)),
            Verdict::Abort => {
                self.abort(schema, owner, txn, interval)?;
                Ok(None)
            }
        }
    }

    /// The commit timestamp, or why there is no commit.
    fn check_commit(
        &self,
        schema: &Schema,
        transaction: &KeptTransaction,
        interval: Interval,
    ) -> Result<u64, Refusal>
        ensures refused { IfErr result
            (λ why. commit_refusal schema.now (machine_of self.now) transaction.now interval ≡ Some why) }
        ensures accepted { IfOk result
            (λ ts.
            (commit_refusal schema.now (machine_of self.now) transaction.now interval ≡ None)
            × (ts ≡ commit_timestamp (machine_of self.now) transaction.now interval)) }
        ensures undecided { OnOk result (is_undecided transaction.now ≡ true) }
    {
        if !transaction.is_undecided() {
            return Err(Refusal::WrongState);
        }
        if !is_ready(self.slots.as_slice(), schema, transaction) {
            return Err(Refusal::WrongState);
        }
        match commit_timestamp(
            self.slots.as_slice(),
            transaction.preparations(),
            interval.latest,
        ) {
            Some(timestamp) => Ok(timestamp),
            None => Err(Refusal::TimestampRange),
        }
    }

    fn commit(
        &mut self,
        schema: &Schema,
        owner: u64,
        txn: u64,
        interval: Interval,
    ) -> Result<u64, Refusal>
        ensures step { IsAnswer
            (decide schema.now (machine_of self.old) owner txn Verdict.Commit interval)
            (as_reply reply_of.Decided result)
            (machine_of self.new) }
        ensures pieces { self.new.queries ≡ self.old.queries }
    {
        let Some((at, transaction)) = find_transaction(self.transactions.as_slice(), owner, txn)
        else {
            return Err(Refusal::UnknownTransaction);
        };
        match self.check_commit(schema, transaction, interval) {
            Ok(timestamp) => {
                let coordinator = coordinator_slot(transaction.preparations());
                raise_last(&mut self.slots, coordinator, timestamp);
                let commit = commit_at(&mut self.transactions, at, timestamp);
                self.log.push(commit).unwrap();
                Ok(timestamp)
            }
            Err(why) => Err(why),
        }
    }

    fn abort(
        &mut self,
        schema: &Schema,
        owner: u64,
        txn: u64,
        interval: Interval,
    ) -> Result<(), Refusal>
        ensures step { IsAnswer
            (decide schema.now (machine_of self.old) owner txn Verdict.Abort interval)
            (as_reply (λ _. reply_of.Aborted) result)
            (machine_of self.new) }
        ensures pieces { self.new.queries ≡ self.old.queries }
    {
        let Some((at, transaction)) = find_transaction(self.transactions.as_slice(), owner, txn)
        else {
            return Err(Refusal::UnknownTransaction);
        };
        if !transaction.is_undecided() {
            return Err(Refusal::WrongState);
        }
        if transaction.preparations().is_empty() {
            remove_at(&mut self.transactions, at);
        } else {
            abort_at(&mut self.transactions, at);
        }
        Ok(())
    }

    /// The mutations of a transaction that lie in the slot, where nothing but they may keep it from being prepared
    /// there. `UnknownTransaction`, then `NoSlot`, then `WrongState`, also where no mutation lies in the slot, then
    /// `Conflict`, then `OutOfMemory`: they are copied where others lie elsewhere.
    pub fn check_prepare(
        &self,
        alloc: Global,
        schema: &Schema,
        owner: u64,
        txn: u64,
        slot: usize,
    ) -> Result<Chosen<'_>, Refusal>
        ensures accepted { IfOk result
            (λ chosen. MayPrepare schema.now (machine_of self.now) owner txn slot (chosen_mutations chosen)) }
        ensures refused { IfErr result (λ why. IsUnprepared schema.now (machine_of self.now) owner txn slot why) }
    {
        let Some((_, transaction)) = find_transaction(self.transactions.as_slice(), owner, txn)
        else {
            return Err(Refusal::UnknownTransaction);
        };
        let Some(slot_state) = slot_at(self.slots.as_slice(), slot) else {
            return Err(Refusal::NoSlot);
        };
        let mutations = transaction.mutations();
        if !may_prepare(transaction, slot) {
            return Err(Refusal::WrongState);
        }
        if !has_any(schema, slot_state, mutations) {
            return Err(Refusal::WrongState);
        }
        let transactions = self.transactions.as_slice();
        if has_conflict(alloc, schema, transactions, slot, slot_state, mutations) {
            return Err(Refusal::Conflict);
        }
        mutations_in(alloc, schema, slot_state, mutations)
    }

    /// Notes that a transaction is prepared at the slot, and returns its prepare timestamp. It takes no memory.
    /// `UnknownTransaction`, then `NoSlot`, then `WrongState` where it is decided or prepared there, then
    /// `TimestampRange`; a refusal leaves all as it was.
    pub fn note_prepared(&mut self, owner: u64, txn: u64, slot: usize) -> Result<u64, Refusal>
        ensures ok { IfOk result (λ ts. IsNoted (machine_of self.old) owner txn slot ts (machine_of self.new)) }
        ensures why { IfErr result (λ why. IsUnnoted (machine_of self.old) owner txn slot why) }
        ensures err { OnErr result (machine_of self.new ≡ machine_of self.old) }
        ensures pieces { self.new.queries ≡ self.old.queries }
    {
        let Some((at, kept)) = find_transaction(self.transactions.as_slice(), owner, txn) else {
            return Err(Refusal::UnknownTransaction);
        };
        let Some(slot_state) = slot_at(self.slots.as_slice(), slot) else {
            return Err(Refusal::NoSlot);
        };
        if !may_prepare(kept, slot) {
            return Err(Refusal::WrongState);
        }
        let Some(timestamp) = prepare_timestamp(slot_state) else {
            return Err(Refusal::TimestampRange);
        };
        add_prepared_at(&mut self.transactions, at, Prepared { slot, timestamp });
        set_last(&mut self.slots, slot, timestamp);
        Ok(timestamp)
    }

    /// Notes that a decided transaction is applied at the slot, and returns its commit timestamp, or None for an
    /// aborted one. It takes no memory. `UnknownTransaction`, then `NoSlot`, then `WrongState`, then `TooEarly`; a
    /// refusal leaves all as it was.
    pub fn note_applied(
        &mut self,
        owner: u64,
        txn: u64,
        slot: usize,
        interval: Interval,
    ) -> Result<Option<u64>, Refusal>
        ensures ok { IfOk result
            (λ committed. IsApplied (machine_of self.old) owner txn slot interval committed (machine_of self.new)) }
        ensures why { IfErr result
            (λ why. apply_step (machine_of self.old) owner txn slot interval ≡ refused (machine_of self.old) why) }
        ensures err { OnErr result (machine_of self.new ≡ machine_of self.old) }
        ensures pieces { self.new.queries ≡ self.old.queries }
    {
        let Some((at, transaction)) = find_transaction(self.transactions.as_slice(), owner, txn)
        else {
            return Err(Refusal::UnknownTransaction);
        };
        let Some(_) = slot_at(self.slots.as_slice(), slot) else {
            return Err(Refusal::NoSlot);
        };
        let committed = check_apply(transaction, slot, interval)?;
        end_prepared_at(&mut self.transactions, at, slot);
        if let Some(timestamp) = committed {
            raise_last(&mut self.slots, slot, timestamp);
        }
        Ok(committed)
    }

    /// Raises the floor of the slot to the latest time that it may be now, and returns it. It takes no memory.
    /// `NoSlot`.
    pub fn advance(&mut self, slot: usize, interval: Interval) -> Result<u64, Refusal>
        ensures step { IsAnswer
            (advance (machine_of self.old) slot interval)
            (as_reply reply_of.Floor result)
            (machine_of self.new) }
        ensures pieces { self.new.queries ≡ self.old.queries }
    {
        let Some(slot_state) = slot_at(self.slots.as_slice(), slot) else {
            return Err(Refusal::NoSlot);
        };
        let floor = slot_state.floor.max(interval.latest);
        set_floor(&mut self.slots, slot, floor);
        Ok(floor)
    }

    /// Why the horizon of a slot may not rise to h, if so.
    fn check_trim(&self, slot_state: &SlotState, slot: usize, h: u64) -> Result<(), Refusal>
        ensures accepted { OnOk result (trim_refusal (machine_of self.now) slot h slot_state.now ≡ None) }
        ensures refused { IfErr result (λ why. trim_refusal (machine_of self.now) slot h slot_state.now ≡ Some why) }
    {
        if h < slot_state.horizon {
            return Err(Refusal::TrimBackward);
        }
        if !is_safe_at(self.transactions.as_slice(), slot_state.floor, slot, h) {
            return Err(Refusal::TrimTooNew);
        }
        Ok(())
    }

    /// Raises the horizon of the slot to h, a timestamp: no scan reads below it there from now on. It takes no memory.
    /// `NoSlot`, then `TrimBackward`, then `TrimTooNew` where h is above safe time; a refusal leaves all as it was.
    pub fn raise_horizon(&mut self, slot: usize, h: u64) -> Result<(), Refusal>
        ensures ok { OnOk result (IsRaised (machine_of self.old) slot h (machine_of self.new)) }
        ensures why { IfErr result
            (λ why.
            (schema : List Table)
            → trim schema (machine_of self.old) slot h ≡ refused (machine_of self.old) why) }
        ensures err { OnErr result (machine_of self.new ≡ machine_of self.old) }
        ensures pieces { self.new.queries ≡ self.old.queries }
    {
        let Some(slot_state) = slot_at(self.slots.as_slice(), slot) else {
            return Err(Refusal::NoSlot);
        };
        self.check_trim(slot_state, slot, h)?;
        set_horizon(&mut self.slots, slot, h);
        Ok(())
    }

    /// The timestamp that a query is to read at, or why it is not opened.
    fn check_open(&self, bound: Bound, interval: Interval) -> Result<u64, Refusal>
        ensures accepted { IfOk result
            (λ s. (open_refusal (machine_of self.now) bound interval ≡ None) × (s ≡ timestamp_of bound interval)) }
        ensures refused { IfErr result (λ why. open_refusal (machine_of self.now) bound interval ≡ Some why) }
        ensures few { OnOk result (self.now.next_query < number_end) }
    {
        match choose(bound, interval) {
            Ok(s) => {
                if self.queries.len() >= MOST_QUERIES || self.next_query >= NUMBER_END {
                    return Err(Refusal::QueryTableFull);
                }
                Ok(s)
            }
            Err(why) => Err(why),
        }
    }

    /// Opens a query that was planned. `TimestampRange`, then `QueryTableFull`, then `OutOfMemory`; a refusal leaves all
    /// as it was.
    pub fn open(
        &mut self,
        alloc: Global,
        schema: &Schema,
        query: PlannedQuery,
        bound: Bound,
        interval: Interval,
    ) -> Result<Opened, Refusal>
        requires { IsPlanned schema.now query }
        ensures step { Answers (machine_of self.old)
            (open_query schema.now (machine_of self.old) (Ok query.statement) query.text query.params bound interval)
            (as_reply (λ opened. reply_of.Opened opened.query opened.s opened.leaves) result)
            (machine_of self.new) }
        ensures pieces { IfOk result
            (λ opened.
            self.new.queries
            ≡ self.old.queries
            ++ unread schema.now opened.query opened.s query.text query.params query.statement ∷ []) }
        ensures err { OnErr result (self.new.queries ≡ self.old.queries) }
    {
        let (query, s) = keep_with(query, self.check_open(bound, interval))?;
        let number = self.next_query;
        let kept = KeptQuery::new(alloc, schema, number, s, query)?;
        let leaves = kept.count_leaves();
        append(&mut self.queries, kept)?;
        self.next_query += 1;
        Ok(Opened {
            query: number,
            s,
            leaves,
        })
    }

    /// Checks a scan of a leaf of the query in the slot: what may be read where a part of the leaf's range is uncovered
    /// there and safe time has reached the query's timestamp, or None where nothing is uncovered. `UnknownQuery`, also
    /// where the query has no such leaf, then `NoSlot`, then `OutOfMemory`, then `Trimmed` below the horizon, then
    /// `NotYet`, after which alone the slot's floor may have risen.
    pub fn claim_gap(
        &mut self,
        alloc: Global,
        query: u64,
        leaf: usize,
        slot: usize,
        interval: Interval,
    ) -> Result<Option<Gap>, Refusal>
        ensures gap { IfOk result (λ gap. IsGap (machine_of self.old) query leaf slot interval gap) }
        ensures refused { IfErr result
            (λ why. IsUnclaimed (machine_of self.old) query leaf slot interval why (machine_of self.new)) }
        ensures ok { OnOk result (machine_of self.new ≡ machine_of self.old) }
        ensures pieces { self.new.queries ≡ self.old.queries }
    {
        let (queries, slots) = (self.queries.as_slice(), self.slots.as_slice());
        let (_, question, part, slot_state) = match find_target(queries, slots, query, leaf, slot) {
            Ok(target) => target,
            Err(why) => return Err(why),
        };
        let Some(range) = gap_in(alloc, slot_state, part)? else {
            return Ok(None);
        };
        let s = question.timestamp();
        if s < slot_state.horizon {
            return Err(Refusal::Trimmed);
        }
        let floor = risen_floor(slot_state, s, interval);
        if is_safe_at(self.transactions.as_slice(), floor, slot, s) {
            return Ok(Some(Gap { range, s }));
        }
        set_floor(&mut self.slots, slot, floor);
        Err(Refusal::NotYet)
    }

    /// Covers a part of a leaf of the query by a piece, and raises the slot's floor to its timestamp
    /// where the clock has passed it. `UnknownQuery`, also where the query has no such leaf, then `NoSlot`, then
    /// `Incomplete` where the range has no keys, does not lie in the leaf's range and the slot's, or is covered in
    /// part, then `Trimmed` below the horizon, then `NotYet`, after which alone the slot's floor may have risen, then
    /// `OutOfMemory`.
    pub fn register(
        &mut self,
        alloc: Global,
        query: u64,
        leaf: usize,
        slot: usize,
        interval: Interval,
        range: KeyRange,
        piece: Piece,
    ) -> Result<(), Refusal>
        ensures ok { OnOk result (IsRegistered self.old query leaf slot interval range piece self.new) }
        ensures why { IfErr result (λ why. IsUnregistered self.old query leaf slot interval range why) }
        ensures err { IfErr result (λ why. IsUnchanged self.old query slot interval why self.new) }
    {
        let mut held = Some(piece);
        self.register_held(alloc, query, leaf, slot, interval, range, &mut held)
    }

    /// The same of a piece that is held elsewhere, and taken from there where all else was judged: to prove that a piece is dropped safely takes more
    /// memory than the prover has where each of these judgements may drop it.
    fn register_held(
        &mut self,
        alloc: Global,
        query: u64,
        leaf: usize,
        slot: usize,
        interval: Interval,
        range: KeyRange,
        piece: &mut Option<Piece>,
    ) -> Result<(), Refusal>
        requires { is_some piece.old ≡ true }
        ensures ok { OnOk result
            (IfSome piece.old (λ held. IsRegistered self.old query leaf slot interval range held self.new)) }
        ensures why { IfErr result (λ why. IsUnregistered self.old query leaf slot interval range why) }
        ensures err { IfErr result (λ why. IsUnchanged self.old query slot interval why self.new) }
    {
        let (queries, slots) = (self.queries.as_slice(), self.slots.as_slice());
        let (at, question, part, slot_state) = match find_target(
            queries, slots, query, leaf, slot,
        ) {
            Ok(target) => target,
            Err(why) => return Err(why),
        };
        if !is_free(slot_state, part, &range) {
            return Err(Refusal::Incomplete);
        }
        let s = question.timestamp();
        if s < slot_state.horizon {
            return Err(Refusal::Trimmed);
        }
        let floor = risen_floor(slot_state, s, interval);
        if !is_safe_at(self.transactions.as_slice(), floor, slot, s) {
            set_floor(&mut self.slots, slot, floor);
            return Err(Refusal::NotYet);
        }
        let Some(held) = piece.take() else {
            unreachable!()
        };
        cover_at(alloc, &mut self.queries, at, leaf, range, held)?;
        set_floor(&mut self.slots, slot, floor);
        Ok(())
    }

    /// The open query of this number, with what pieces cover of its leaves. None where there is none.
    pub fn query(&self, query: u64) -> Option<&OpenQuery>
        ensures { option_copied result ≡ find (is_query query) (machine_of self.now).queries }
    {
        let Some((_, question)) = find_query(self.queries.as_slice(), query) else {
            return None;
        };
        Some(question.as_opened())
    }

    /// The leaf of an open query at a place, counted from 0, if there is one.
    pub fn leaf(&self, query: u64, leaf: usize) -> Option<&Leaf>
        ensures { option_copied result ≡ leaf_of (machine_of self.now) query leaf }
    {
        let Some((_, question)) = find_query(self.queries.as_slice(), query) else {
            return None;
        };
        match question.leaf(leaf) {
            Some(part) => Some(&part.leaf),
            None => None,
        }
    }

    /// The timestamp that the query reads at, the query above its leaves, and for each of them its pieces, in the
    /// order of their ranges. `UnknownQuery`, then `Incomplete` where the pieces do not tile a leaf's range.
    pub fn pieces(&self, query: u64) -> Result<(u64, &BoundQuery, &[Seq<Piece>]), Refusal>
        ensures ok { IfOk result (λ r. IsCovered self.now query r.0 r.1.now r.2.now) }
        ensures refused { IfErr result
            (λ why.
            (schema : List Table)
            → finish schema (machine_of self.now) query ≡ refused (machine_of self.now) why) }
    {
        let Some((_, question)) = find_query(self.queries.as_slice(), query) else {
            return Err(Refusal::UnknownQuery);
        };
        if !question.is_covered() {
            return Err(Refusal::Incomplete);
        }
        Ok((question.timestamp(), question.top(), question.pieces()))
    }

    /// Closes a query whose leaves pieces cover, and returns what it is answered by. It takes no memory.
    /// `UnknownQuery`, then `Incomplete` where the pieces do not tile a leaf's range; a refusal leaves all as it was.
    pub fn take_pieces(&mut self, query: u64) -> Result<Taken, Refusal>
        ensures ok { IfOk result (λ taken. IsTaken self.old query taken self.new) }
        ensures refused { IfErr result
            (λ why.
            (schema : List Table)
            → finish schema (machine_of self.old) query ≡ refused (machine_of self.old) why) }
        ensures err { OnErr result (self.new ≡ self.old) }
    {
        let Some((at, question)) = find_query(self.queries.as_slice(), query) else {
            return Err(Refusal::UnknownQuery);
        };
        if !question.is_covered() {
            return Err(Refusal::Incomplete);
        }
        Ok(take_at(&mut self.queries, at).into_parts())
    }

    /// Closes a query. It takes no memory. `UnknownQuery`.
    pub fn close(&mut self, query: u64) -> Result<(), Refusal>
        ensures step { IsAnswer
            (close (machine_of self.old) query)
            (as_reply (λ _. reply_of.Closed) result)
            (machine_of self.new) }
        ensures pieces { OnOk result (self.new.queries ≡ without_first (λ p. is_query query p.query) self.old.queries) }
        ensures err { OnErr result (self.new.queries ≡ self.old.queries) }
    {
        let Some((at, _)) = find_query(self.queries.as_slice(), query) else {
            return Err(Refusal::UnknownQuery);
        };
        drop_at(&mut self.queries, at);
        Ok(())
    }

    /// The slot that has the coded root key, where it may be cut there. `BadSplit` where no slot has the key or the
    /// slot's range begins at it, then `SplitBusy` where a transaction is prepared in the slot, then `NoSlot` where no
    /// slot is left.
    pub fn check_split(&self, key: &Key) -> Result<usize, Refusal>
        ensures accepted { IfOk result (λ slot. MaySplit (machine_of self.now) slot key.now) }
        ensures refused { IfErr result
            (λ why. split_at (machine_of self.now) key.now ≡ refused (machine_of self.now) why) }
    {
        let Some(slot) = slot_of(self.slots.as_slice(), key.as_slice()) else {
            return Err(Refusal::BadSplit);
        };
        let slot_state = &self.slots[slot];
        if begins_at(key.as_slice(), slot_state) {
            return Err(Refusal::BadSplit);
        }
        if is_any_prepared(self.transactions.as_slice(), slot) {
            return Err(Refusal::SplitBusy);
        }
        if self.slots.len() >= MOST_SLOTS {
            return Err(Refusal::NoSlot);
        }
        Ok(slot)
    }

    /// Makes what a slot is cut by at the coded root key, so that `finish_split` takes no memory. It changes nothing.
    /// `OutOfMemory`.
    pub fn reserve_split(&self, alloc: Global, slot: usize, key: &Key) -> Result<Cut, Refusal>
        requires { MaySplit (machine_of self.now) slot key.now }
        ensures cut { IfOk result (λ cut. IsCutOf (machine_of self.now) slot cut) }
        ensures bound { IfOk result (λ cut. cut.upper_bound ≡ key.now) }
        ensures memory { IfErr result (λ why. why ≡ Refusal.OutOfMemory) }
    {
        let slot_state = &self.slots[slot];
        let upper = upper_part(alloc, slot_state, key.as_slice())?;
        let upper_bound = Key::from_slice(alloc, key.as_slice())?;
        Ok(Cut { upper, upper_bound })
    }

    /// Cuts a slot in two, and returns the number of the new slot, which has the keys from the cut on. It takes no
    /// memory.
    pub fn finish_split(&mut self, slot: usize, cut: Cut) -> usize
        requires { IsCutOf (machine_of self.old) slot cut }
        ensures number { result ≡ length self.old.slots }
        ensures after { IfSome (slice_get self.old.slots slot)
            (λ slot_state.
            machine_of self.new ≡ (split_in_two (machine_of self.old) slot cut.upper_bound slot_state).1) }
        ensures pieces { self.new.queries ≡ self.old.queries }
    {
        let number = self.slots.len();
        let Cut { upper, upper_bound } = cut;
        cut_at(&mut self.slots, slot, upper_bound, upper);
        number
    }
}
