//! What keeps slots small and answers possible: a slot is cut in two, its old versions go, its floor rises.
ghost use Rattle.std.specs.Prelude.{◌≡◌, ◌≤◌, ◌<◌, [], ◌∷◌, IfOk, IfErr, IfSome, OnOk, MatchOption};
ghost use Rattle.span_keycode.specs.Coding.{AreValues};
ghost use Rattle.span_checking.specs.RootKeys.{root_key};
ghost use Rattle.span_truetime.specs.declared.interval.Interval.{Interval};
ghost use Rattle.span_arena.specs.Limits.{most_nodes};
ghost use Rattle.span_machine.specs.Limits.{most_slots};
ghost use Rattle.span_machine.specs.Machine.{split_at, trim, advance};
ghost use Rattle.span_machine.specs.declared.step.Reply.TheVariants as reply_of;
ghost use Rattle.span_parts.specs.Replies.{as_reply};
ghost use Rattle.span_parts.specs.Whole.{CodesRootKey};
ghost use Rattle.span_locks.specs.Replies.{RepliesOnce, MayReplyOnce, RepliesAt, IsAmong, IsErrAmong, split_refusals, trim_refusals};

use crate::db::Db;
use span_board::board::Naming;
use span_board::session::Session;
use span_checking::root_key::root_key;
use span_keycode::key::Key;
use span_truetime::clock::Clock;
use span_value::refusal::Refusal;
use span_value::value::Value;
use std::sync::Wait;

impl<J: Naming> Db<J> {
    /// Cuts the slot that has a key of a root table in two there: the keys from it on go to a new slot, whose number is returned.
    pub fn split<R: Wait>(
        &self,
        rt: &R,
        me: &Session<J>,
        table: &str,
        key: &[Value],
    ) -> Result<usize, Refusal>
        requires values { AreValues key.now }
        ensures number { IfOk result (λ number. (1 ≤ number) × (number < most_slots)) }
        ensures reply { MatchOption (root_key J.schema table.now key.now)
            (IsErrAmong (Refusal.BadSplit ∷ Refusal.OutOfMemory ∷ []) result)
            (λ code. MayReplyOnce J.schema (λ m. split_at m code) (as_reply reply_of.Split result)) }
        ensures refused { IfErr result (IsAmong split_refusals) }
    {
        let _ = me;
        match root_key(self.locks.board.alloc, &self.locks.board.schema, table, key) {
            Ok(code) => self.split_at(rt, &code),
            Err(why) => Err(why),
        }
    }

    /// Cuts a slot at a coded root key. Where others cut slots meanwhile, it looks once more which slot has the key.
    #[tactic(auto, using(span_locks::proofs::Replying::cut_number))]
    fn split_at<R: Wait>(&self, rt: &R, key: &Key) -> Result<usize, Refusal>
        requires coded { CodesRootKey J.schema key.now }
        ensures reply { MayReplyOnce J.schema (λ m. split_at m key.now) (as_reply reply_of.Split result) }
        ensures number { IfOk result (λ number. (1 ≤ number) × (number < most_slots)) }
        ensures refused { IfErr result (IsAmong split_refusals) }
    {
        for _ in rt.forever() {
            match self.try_split(rt, key) {
                Ok(Some(number)) => return Ok(number),
                Ok(None) => (),
                Err(why) => return Err(why),
            }
        }
        unreachable!()
    }

    /// Cuts the slot that has the key, if none was cut since it was found: the lock of a slot is taken before that of the journal.
    fn try_split<R: Wait>(&self, rt: &R, key: &Key) -> Result<Option<usize>, Refusal>
        requires coded { CodesRootKey J.schema key.now }
        ensures cut { IfOk result
            (λ cut. IfSome cut (λ number. RepliesOnce J.schema (λ m. split_at m key.now) (reply_of.Split number))) }
        ensures refused { IfErr result
            (λ why. MayReplyOnce J.schema (λ m. split_at m key.now) (reply_of.Refused why)) }
    {
        let (from, to) = self.place_of_split(rt, key)?;
        let mut slot = self.locks.slot(from)?.lock(rt);
        let mut next = self.locks.slot(to)?.lock(rt);
        let mut journal = self.locks.journal.lock(rt);
        slot.split(&self.locks.board, &mut next, &mut journal, key)
    }

    #[tactic(auto, using(span_locks::proofs::Replying::places_within))]
    fn place_of_split<R: Wait>(&self, rt: &R, key: &Key) -> Result<(usize, usize), Refusal>
        ensures places { IfOk result (λ r. (r.0 < most_slots) × (r.1 < most_slots)) }
        ensures refused { IfErr result
            (λ why. RepliesOnce J.schema (λ m. split_at m key.now) (reply_of.Refused why)) }
    {
        self.locks.journal.lock(rt).place_of_split(key)
    }

    /// Trims a slot to the horizon h, and returns how many versions it keeps: nothing is read there below h from now on.
    pub fn trim<R: Wait>(
        &self,
        rt: &R,
        me: &Session<J>,
        number: usize,
        h: u64,
    ) -> Result<usize, Refusal>
        ensures within { OnOk result (number < most_slots) }
        ensures kept { IfOk result (λ kept. kept ≤ most_nodes) }
        ensures reply { RepliesAt J.schema number
            (λ m. trim J.schema m number h)
            (as_reply reply_of.Trimmed result) }
        ensures refused { IfErr result (IsAmong trim_refusals) }
    {
        let _ = me;
        let mut slot = self.locks.slot(number)?.lock(rt);
        let mut journal = self.locks.journal.lock(rt);
        if !slot.has_number(number) {
            return Err(Refusal::NoSlot);
        }
        slot.trim(&self.locks.board, &mut journal, h)
    }

    /// Raises the floor of a slot to the clock's latest time, and returns it: what is prepared there from now on is later.
    pub fn advance<R: Wait, C: Clock>(
        &self,
        rt: &R,
        clock: &C,
        me: &Session<J>,
        number: usize,
    ) -> Result<u64, Refusal>
        ensures floor { IfOk result (λ floor. (read : Interval) × C.may_give clock.now read × (read.latest ≤ floor)) }
        ensures reply { (read : Interval)
            × C.may_give clock.now read
            × RepliesOnce J.schema (λ m. advance m number read) (as_reply reply_of.Floor result) }
        ensures refused { IfErr result (λ why. why ≡ Refusal.NoSlot) }
    {
        let _ = me;
        let interval = clock.now();
        self.locks
            .journal
            .lock(rt)
            .advance(&self.locks.board, number, interval)
    }
}
