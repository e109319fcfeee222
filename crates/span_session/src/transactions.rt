//! Transactions one step at a time.
ghost use Rattle.std.specs.Prelude.{◌≡◌, ◌<◌, ℕ, IfErr, OnOk, MatchOption, MatchResult};
ghost use Rattle.span_mutate.specs.Typed.{AreTypedMutations};
ghost use Rattle.span_truetime.specs.declared.interval.Interval.{Interval};
ghost use Rattle.span_machine.specs.Limits.{most_slots};
ghost use Rattle.span_machine.specs.Machine.{begin, prepare, decide, apply_step};
ghost use Rattle.span_machine.specs.declared.step.Reply.TheVariants as reply_of;
ghost use Rattle.span_parts.specs.Replies.{as_reply, decision_reply};
ghost use Rattle.span_locks.specs.Replies.{RepliesOnce, RepliesAt, MayReplyOnce, MayReplyAt, RepliesToBegun, RepliesToVerdict, RepliesToDecision};
ghost use Rattle.span_locks.specs.Replies.{IsAmong, IsPrepareRefusal, begin_refusals, apply_refusals, decide_refusals};
ghost use Rattle.span_board.specs.Rule.{Decides, Forgets, IsBegunAt, with_begun};

use crate::db::Db;
use span_board::board::Naming;
use span_board::session::Session;
use span_checking::transaction::Transaction;
use span_machine::step::Verdict;
use span_truetime::clock::Clock;
use span_truetime::interval::Interval;
use span_value::refusal::Refusal;
use std::sync::Wait;

impl<J: Naming> Db<J> {
    /// Begins a transaction, and returns its number. The session keeps a copy of it until it is decided.
    pub fn begin<R: Wait>(
        &self,
        rt: &R,
        me: &mut Session<J>,
        transaction: Transaction,
    ) -> Result<u64, Refusal>
        requires { AreTypedMutations J.schema transaction }
        ensures kept { MatchResult result
            (λ number. me.new ≡ with_begun me.old number transaction)
            (λ why. me.new ≡ me.old) }
        ensures reply { MayReplyOnce J.schema
            (λ m. begin m me.old.owner transaction)
            (as_reply reply_of.Began result) }
        ensures refused { IfErr result (IsAmong begin_refusals) }
    {
        match transaction.copy(self.locks.board.alloc) {
            Ok(copy) => self
                .locks
                .journal
                .lock(rt)
                .begin_of(&self.locks.board, me, transaction, copy),
            Err(why) => Err(why),
        }
    }

    /// Prepares a transaction of the session at a slot.
    pub fn prepare<R: Wait>(
        &self,
        rt: &R,
        me: &Session<J>,
        number: u64,
        slot: usize,
    ) -> Result<(), Refusal>
        ensures within { OnOk result (slot < most_slots) }
        ensures reply { (timestamp : ℕ)
            × MayReplyAt J.schema slot
            (λ m. prepare J.schema m me.now.owner number slot)
            (as_reply (λ _. reply_of.Prepared timestamp) result) }
        ensures refused { IfErr result IsPrepareRefusal }
    {
        match self.prepare_in(rt, me.owner(), number, slot) {
            Ok(_) => Ok(()),
            Err(why) => Err(why),
        }
    }

    /// Prepares a transaction at a slot, and returns its prepare timestamp.
    fn prepare_in<R: Wait>(
        &self,
        rt: &R,
        owner: u64,
        number: u64,
        slot: usize,
    ) -> Result<u64, Refusal>
        ensures within { OnOk result (slot < most_slots) }
        ensures reply { MayReplyAt J.schema slot
            (λ m. prepare J.schema m owner number slot)
            (as_reply reply_of.Prepared result) }
    {
        let mut locked = self.locks.slot(slot)?.lock(rt);
        let mut journal = self.locks.journal.lock(rt);
        if !locked.has_number(slot) {
            return Err(Refusal::NoSlot);
        }
        locked.prepare(&self.locks.board, &mut journal, owner, number)
    }

    /// Decides a transaction that the session began: returns its commit timestamp, or None for an abort. What is committed is what the
    /// session handed in: `UnknownTransaction` where the journal has another one, or the session began none under the number.
    pub fn decide<R: Wait, C: Clock>(
        &self,
        rt: &R,
        clock: &C,
        me: &mut Session<J>,
        number: u64,
        verdict: Verdict,
    ) -> Result<Option<u64>, Refusal>
        ensures decided { MatchResult result
            (λ decided. MatchOption decided (Forgets me.old number me.new) (λ ts. Decides me.old number ts me.new))
            (λ why. me.new ≡ me.old) }
        ensures reply { RepliesToDecision J.schema me.old number verdict
            (λ read. C.may_give clock.now read)
            (as_reply decision_reply result) }
        ensures refused { IfErr result (IsAmong decide_refusals) }
    {
        match me.begun_at(number) {
            Some(place) => {
                let interval = clock.now();
                self.decide_begun(rt, me, number, place, verdict, interval)
            }
            None => Err(Refusal::UnknownTransaction),
        }
    }

    /// Decides what the session has begun at a place.
    fn decide_begun<R: Wait>(
        &self,
        rt: &R,
        me: &mut Session<J>,
        number: u64,
        place: usize,
        verdict: Verdict,
        interval: Interval,
    ) -> Result<Option<u64>, Refusal>
        requires { IsBegunAt me.old number place }
        ensures decided { MatchResult result
            (λ decided. MatchOption decided (Forgets me.old number me.new) (λ ts. Decides me.old number ts me.new))
            (λ why. me.new ≡ me.old) }
        ensures reply { RepliesToVerdict J.schema me.old number verdict interval (as_reply decision_reply result) }
    {
        match verdict {
            Verdict::Commit => match self.commit_begun(rt, me, number, place, interval) {
                Ok(timestamp) => Ok(Some(timestamp)),
                Err(why) => Err(why),
            },
            Verdict::Abort => match self.abort_begun(rt, me, number, place, interval) {
                Ok(()) => Ok(None),
                Err(why) => Err(why),
            },
        }
    }

    fn commit_begun<R: Wait>(
        &self,
        rt: &R,
        me: &mut Session<J>,
        number: u64,
        place: usize,
        interval: Interval,
    ) -> Result<u64, Refusal>
        requires { IsBegunAt me.old number place }
        ensures decided { MatchResult result (λ ts. Decides me.old number ts me.new) (λ why. me.new ≡ me.old) }
        ensures reply { RepliesToBegun J.schema me.old number interval (as_reply reply_of.Decided result) }
    {
        self.locks
            .journal
            .lock(rt)
            .publish_begun(&self.locks.board, me, place, interval)
    }

    fn abort_begun<R: Wait>(
        &self,
        rt: &R,
        me: &mut Session<J>,
        number: u64,
        place: usize,
        interval: Interval,
    ) -> Result<(), Refusal>
        requires { IsBegunAt me.old number place }
        ensures decided { MatchResult result (λ _. Forgets me.old number me.new) (λ why. me.new ≡ me.old) }
        ensures reply { RepliesOnce J.schema
            (λ m. decide J.schema m me.old.owner number Verdict.Abort interval)
            (as_reply (λ _. reply_of.Aborted) result) }
    {
        match self.abort(rt, me.owner(), number, interval) {
            Ok(_) => {
                me.forget(place);
                Ok(())
            }
            Err(why) => Err(why),
        }
    }

    /// Applies at a slot what was decided of a transaction of the session.
    pub fn apply<R: Wait, C: Clock>(
        &self,
        rt: &R,
        clock: &C,
        me: &Session<J>,
        number: u64,
        slot: usize,
    ) -> Result<(), Refusal>
        ensures within { OnOk result (slot < most_slots) }
        ensures reply { (read : Interval)
            × C.may_give clock.now read
            × RepliesAt J.schema slot
            (λ m. apply_step m me.now.owner number slot read)
            (as_reply (λ _. reply_of.Applied) result) }
        ensures refused { IfErr result (IsAmong apply_refusals) }
    {
        let interval = clock.now();
        self.end_at(rt, me.owner(), number, slot, interval)
    }
}
