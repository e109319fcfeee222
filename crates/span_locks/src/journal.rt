//! What lies under the journal's lock: the journal, and the seat that knows its log and what each slot is to have.
ghost use Rattle.std.specs.Prelude.{◌≡◌, ◌<◌, true, false, List, Ok, IfOk, IfErr, IfSome, OnErr, MatchResult, Some, None, find, length, slice_get, remove};
ghost use Rattle.span_mutate.specs.Typed.{AreTypedMutations};
ghost use Rattle.span_truetime.specs.Limits.{timestamp_end};
ghost use Rattle.span_truetime.specs.Time.{timestamp_of};
ghost use Rattle.span_openqueries.specs.Planned.{IsPlanned};
ghost use Rattle.span_binder.specs.Understands.{Understands};
ghost use Rattle.span_gather.specs.Gathered.{gathered};
ghost use Rattle.span_query.specs.Rows.{Row};
ghost use Rattle.span_machine.specs.declared.transaction.OpenTransaction.{OpenTransaction};
ghost use Rattle.span_machine.specs.Machine.{Machine, is_transaction, advance, begin, close, decide, open_query, split_at};
ghost use Rattle.span_machine.specs.Pieces.{machine_of};
ghost use Rattle.span_machine.specs.declared.step.Reply.TheVariants as reply_of;
ghost use Rattle.span_journal.specs.Judged.{IsGap, MaySplit};
ghost use Rattle.span_parts.specs.Replies.{as_reply, decision_reply, opened_reply};
ghost use Rattle.span_locks.specs.Answers.{IsAnswered};
ghost use Rattle.span_locks.specs.Refusing.{IsUnscanned, IsFault, IsEndRefused};
ghost use Rattle.span_locks.specs.Held.{IsKeeper};
ghost use Rattle.span_locks.specs.Replies.{IsMachineOf, Replies, MayReply, LacksTransaction, RepliesToCommit};
ghost use Rattle.span_board.specs.Places.{IsNext};
ghost use Rattle.span_board.specs.Rule.{Extends, Sees, known_at, own_commit, with_begun};

use atomic_table::Badge;
use span_board::begun::Begun;
use span_board::board::{Board, Naming, View};
use span_board::places::next_with_mutations;
use span_board::same::are_same;
use span_board::seats;
use span_board::session::Session;
use span_checking::transaction::Transaction;
use span_journal::journal::{Gap, Journal, Opened};
use span_keycode::key::Key;
use span_machine::step::Verdict;
use span_machine::transaction::Commit;
use span_mutate::mutation::CheckedMutation;
use span_openqueries::planned::PlannedQuery;
use span_openqueries::taken::Taken;
use span_parts::{ends, slot, steps};
use span_truetime::bound::Bound;
use span_truetime::interval::Interval;
use span_value::refusal::Refusal;
use std::marker::{Model, PhantomData};
use std::mem;

/// The journal, as long as it is locked. Contracts see what the rule knows of it.
#[derive(Drop)]
pub struct LockedJournal<J: Naming> {
    pub(crate) journal: Journal,
    pub(crate) badge: Badge<View>,
    pub(crate) of: PhantomData<J>,
}

impl<J: Naming> Model for LockedJournal<J> {
    ghost use Rattle.span_board.specs.Known.{Known};
    ghost use Rattle.span_board.specs.Rule.{known_at};
    ghost use Rattle.span_locks.specs.Held.{IsKeeper};

    ghost Value = { Known };

    ghost view = { λ j. known_at j.badge.views };

    ghost invariant = { λ j. IsKeeper J.schema J.table j.badge.table_id j.badge.views j.journal };
}

impl<J: Naming> LockedJournal<J> {
    /// The journal whose log the keeper's seat knows.
    pub fn new(journal: Journal, badge: Badge<View>) -> LockedJournal<J>
        requires { IsKeeper J.schema J.table badge.table_id badge.views journal }
        ensures { result ≡ known_at badge.views }
    {
        LockedJournal {
            journal,
            badge,
            of: PhantomData,
        }
    }

    /// Begins a transaction, and returns its number.
    pub fn begin(
        &mut self,
        board: &Board<J>,
        owner: u64,
        transaction: Transaction,
    ) -> Result<u64, Refusal>
        requires { AreTypedMutations J.schema transaction }
        ensures same { self.new ≡ self.old }
        ensures reply { MayReply J.schema self.old (λ m. begin m owner transaction) (as_reply reply_of.Began result) }
    {
        steps::begin(
            board.alloc,
            &board.schema,
            &mut self.journal,
            owner,
            transaction,
        )
    }

    /// Commits a transaction of the session, if it is the one that it began: its commit joins the log, and the timestamp is returned.
    /// `UnknownTransaction` where the journal has another one, or none.
    pub fn publish(
        &mut self,
        board: &Board<J>,
        me: &mut Session<J>,
        number: u64,
        copy: Transaction,
        interval: Interval,
    ) -> Result<u64, Refusal>
        ensures ok { IfOk result
            (λ ts. Extends me.old (own_commit me.old number ts copy) me.new) }
        ensures err { OnErr result (me.new ≡ me.old) }
        ensures begun { me.new.begun ≡ me.old.begun }
        ensures reply { RepliesToCommit J.schema self.old me.old.owner number copy interval
            (as_reply reply_of.Decided result) }
    {
        let owner = me.owner;
        if !is_begun(&self.journal, owner, number, copy.mutations()) {
            return Err(Refusal::UnknownTransaction);
        }
        let count = count_commits(&self.journal);
        match ends::commit(
            board.alloc,
            &board.schema,
            &mut self.journal,
            owner,
            number,
            interval,
        ) {
            Ok(timestamp) => {
                let commit = Commit {
                    timestamp,
                    number,
                    owner,
                    mutations: copy.into_mutations(),
                };
                let keeper = mem::replace(&mut self.badge, Badge::blank());
                self.badge = seats::grow(board, &mut me.seat, keeper, owner, count, commit);
                Ok(timestamp)
            }
            Err(why) => Err(why),
        }
    }

    /// Begins a transaction of the session, which keeps the copy, and returns its number.
    pub fn begin_of(
        &mut self,
        board: &Board<J>,
        me: &mut Session<J>,
        transaction: Transaction,
        copy: Transaction,
    ) -> Result<u64, Refusal>
        requires { AreTypedMutations J.schema transaction }
        ensures same { self.new ≡ self.old }
        ensures kept { MatchResult result
            (λ number. me.new ≡ with_begun me.old number copy)
            (λ why. me.new ≡ me.old) }
        ensures reply { MayReply J.schema self.old
            (λ m. begin m me.old.owner transaction)
            (as_reply reply_of.Began result) }
    {
        me.begun.reserve(1)?;
        match self.begin(board, me.owner, transaction) {
            Ok(number) => {
                me.begun.push_reserved(Begun {
                    number,
                    mutations: copy.into_mutations(),
                });
                Ok(number)
            }
            Err(why) => Err(why),
        }
    }

    /// Commits what the session has begun at a place, if it is what the journal has, and returns the timestamp. It is kept no more.
    pub fn publish_begun(
        &mut self,
        board: &Board<J>,
        me: &mut Session<J>,
        place: usize,
        interval: Interval,
    ) -> Result<u64, Refusal>
        requires { place < length me.old.begun }
        ensures ok { IfOk result
            (λ ts.
            IfSome (slice_get me.old.begun place)
            (λ b.
            Extends me.old (own_commit me.old b.number ts b.mutations) me.new
            × (me.new.begun ≡ remove me.old.begun place))) }
        ensures err { OnErr result (me.new ≡ me.old) }
        ensures reply { IfSome (slice_get me.old.begun place)
            (λ b.
            RepliesToCommit J.schema self.old me.old.owner b.number b.mutations interval
            (as_reply reply_of.Decided result)) }
    {
        let owner = me.owner;
        let Some(found) = me.begun.as_slice().get(place) else {
            return Err(Refusal::UnknownTransaction);
        };
        let number = found.number;
        if !is_kept(&self.journal, owner, found) {
            return Err(Refusal::UnknownTransaction);
        }
        let count = count_commits(&self.journal);
        match ends::commit(
            board.alloc,
            &board.schema,
            &mut self.journal,
            owner,
            number,
            interval,
        ) {
            Ok(timestamp) => {
                let begun = me.begun.remove(place);
                let made = commit_of(begun, owner, timestamp);
                let keeper = mem::replace(&mut self.badge, Badge::blank());
                self.badge = seats::grow(board, &mut me.seat, keeper, owner, count, made);
                Ok(timestamp)
            }
            Err(why) => Err(why),
        }
    }

    /// Aborts a transaction.
    pub fn abort(
        &mut self,
        board: &Board<J>,
        owner: u64,
        number: u64,
        interval: Interval,
    ) -> Result<Option<u64>, Refusal>
        ensures same { self.new ≡ self.old }
        ensures reply { Replies J.schema self.old
            (λ m. decide J.schema m owner number Verdict.Abort interval)
            (as_reply decision_reply result) }
    {
        steps::decide(
            board.alloc,
            &board.schema,
            &mut self.journal,
            owner,
            number,
            Verdict::Abort,
            interval,
        )
    }

    /// The lowest slot from this one on where mutations of a transaction lie.
    pub fn next_with_mutations(
        &self,
        board: &Board<J>,
        owner: u64,
        number: u64,
        from: usize,
    ) -> Option<usize>
        ensures { (m : Machine) × IsMachineOf J.schema self.now m × IsNext J.schema m owner number from result }
    {
        next_with_mutations(&self.journal, &board.schema, owner, number, from)
    }

    /// How many slots are in use: the first ones.
    pub fn count_slots(&self) -> usize
        ensures { (m : Machine) × IsMachineOf J.schema self.now m × (result ≡ length m.slots) }
    {
        self.journal.slots().len()
    }

    /// Raises the floor of a slot, and returns it.
    pub fn advance(
        &mut self,
        board: &Board<J>,
        number: usize,
        interval: Interval,
    ) -> Result<u64, Refusal>
        ensures same { self.new ≡ self.old }
        ensures reply { Replies J.schema self.old (λ m. advance m number interval) (as_reply reply_of.Floor result) }
    {
        steps::advance(&board.schema, &mut self.journal, number, interval)
    }

    /// The slot that may be cut at a coded root key, and the one that the keys from it on would go to. The refusal of a split.
    pub fn place_of_split(&self, key: &Key) -> Result<(usize, usize), Refusal>
        ensures places { IfOk result
            (λ r.
            (m : Machine)
            × IsMachineOf J.schema self.now m
            × MaySplit m r.0 key.now
            × (r.1 ≡ length m.slots)) }
        ensures refused { IfErr result
            (λ why. Replies J.schema self.now (λ m. split_at m key.now) (reply_of.Refused why)) }
    {
        match self.journal.check_split(key) {
            Ok(slot) => Ok((slot, self.journal.slots().len())),
            Err(why) => Err(why),
        }
    }

    /// Opens a query that was planned, and returns its number and the timestamp that it reads at. `TimestampRange`, then `QueryTableFull`, then
    /// `OutOfMemory`; a refusal leaves all as it was.
    pub fn open(
        &mut self,
        board: &Board<J>,
        query: PlannedQuery,
        bound: Bound,
        interval: Interval,
    ) -> Result<Opened, Refusal>
        requires understood { Understands J.schema query.text query.params (Ok query.statement) }
        requires planned { IsPlanned J.schema query }
        ensures same { self.new ≡ self.old }
        ensures reply { MayReply J.schema self.old
            (λ m. open_query J.schema m (Ok query.statement) query.text query.params bound interval)
            (as_reply opened_reply result) }
        ensures s { IfOk result (λ opened. opened.s ≡ timestamp_of bound interval) }
        ensures refused { IfErr result
            (λ why. MayReply J.schema self.old
            (λ m. open_query J.schema m (Ok query.statement) query.text query.params bound interval)
            (reply_of.Refused why)) }
    {
        steps::open(
            board.alloc,
            &board.schema,
            &mut self.journal,
            query,
            bound,
            interval,
        )
    }

    /// What is to be read for a leaf of a query in a slot. None where pieces cover all of it there.
    pub fn claim(
        &mut self,
        board: &Board<J>,
        query: u64,
        leaf: usize,
        number: usize,
        interval: Interval,
    ) -> Result<Option<Gap>, Refusal>
        ensures same { self.new ≡ self.old }
        ensures gap { IfOk result
            (λ gap.
            (m : Machine)
            × IsMachineOf J.schema self.old m
            × IsGap m query leaf number interval gap) }
        ensures refused { IfErr result (IsUnscanned J.schema) }
    {
        slot::claim(
            board.alloc,
            &board.schema,
            &mut self.journal,
            query,
            leaf,
            number,
            interval,
        )
    }

    /// Closes a query whose leaves pieces cover, and returns what it is answered by. The session sees the whole log.
    pub fn take(
        &mut self,
        board: &Board<J>,
        me: &mut Session<J>,
        query: u64,
    ) -> Result<Taken, Refusal>
        ensures seen { Sees me.old me.new }
        ensures begun { me.new.begun ≡ me.old.begun }
        ensures meant { IfOk result
            (λ taken. (rows : List Row)
            → gathered taken.pieces taken.top ≡ Some rows
            → IsAnswered J.schema taken.text taken.params me.new.seen taken.s rows) }
        ensures fault { IfOk result
            (λ taken. gathered taken.pieces taken.top ≡ None
            → IsFault J.schema taken.text taken.params me.new.seen taken.s) }
        ensures refused { IfErr result (IsEndRefused J.schema) }
    {
        let owner = me.owner;
        let keeper = mem::replace(&mut self.badge, Badge::blank());
        self.badge = seats::show(board, &mut me.seat, keeper, owner);
        ends::take(&board.schema, &mut self.journal, query)
    }

    /// Closes a query. `UnknownQuery` where it is not open.
    pub fn close(&mut self, board: &Board<J>, query: u64) -> Result<(), Refusal>
        ensures same { self.new ≡ self.old }
        ensures reply { Replies J.schema self.old (λ m. close m query) (as_reply (λ _. reply_of.Closed) result) }
    {
        steps::close(&board.schema, &mut self.journal, query)
    }
}

/// How many commits the log has: few enough for a word of the table.
fn count_commits(journal: &Journal) -> u64
    ensures count { result ≡ length journal.now.log }
    ensures few { result < timestamp_end }
{
    journal.log_is_limited();
    journal.log().len() as u64
}

/// Whether the journal has this transaction as it was begun.
fn is_begun(journal: &Journal, owner: u64, number: u64, copy: &[CheckedMutation]) -> bool
    ensures begun { result ≡ true
        → (t : OpenTransaction)
        × (find (is_transaction owner number) (machine_of journal.now).transactions ≡ Some t)
        × (t.mutations ≡ copy.now) }
    ensures lacks { result ≡ false → LacksTransaction (machine_of journal.now) owner number copy.now }
{
    match journal.mutations(owner, number) {
        Some(mutations) => are_same(mutations, copy),
        None => false,
    }
}

/// Whether the journal has what was begun as it was begun.
fn is_kept(journal: &Journal, owner: u64, begun: &Begun) -> bool
    ensures begun { result ≡ true
        → (t : OpenTransaction)
        × (find (is_transaction owner begun.now.number) (machine_of journal.now).transactions ≡ Some t)
        × (t.mutations ≡ begun.now.mutations) }
    ensures lacks { result ≡ false
        → LacksTransaction (machine_of journal.now) owner begun.now.number begun.now.mutations }
{
    is_begun(journal, owner, begun.number, begun.mutations.as_slice())
}

/// What was begun, as the entry of the log that it becomes.
fn commit_of(begun: Begun, owner: u64, timestamp: u64) -> Commit
    ensures { result
        ≡ record { timestamp = timestamp; number = begun.number; owner = owner; mutations = begun.mutations } }
{
    Commit {
        timestamp,
        number: begun.number,
        owner,
        mutations: begun.mutations,
    }
}
