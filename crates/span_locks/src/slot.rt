//! What lies under a slot's lock: its shard, and the seat that knows it.
ghost use Rattle.std.specs.Prelude.{◌≡◌, ◌∷◌, [], ◌==◌, ◌≤◌, ◌<◌, ℕ, true, false, List, Ok, IfOk, IfErr, IfSome, length};
ghost use Rattle.span_params.specs.declared.params.Parameter.{Parameter};
ghost use Rattle.span_machine.specs.Machine.{prepare, apply_step, scan, trim, split_at, refused};
ghost use Rattle.span_machine.specs.Pieces.{machine_of};
ghost use Rattle.span_machine.specs.declared.step.Reply.TheVariants as reply_of;
ghost use Rattle.span_journal.specs.Judged.{MaySplit};
ghost use Rattle.span_arena.specs.Limits.{most_nodes};
ghost use Rattle.span_parts.specs.Replies.{as_reply};
ghost use Rattle.span_parts.specs.Whole.{CodesRootKey, IsRead};
ghost use Rattle.span_locks.specs.Answers.{IsLeafOf};
ghost use Rattle.span_locks.specs.Refusing.{IsUnscanned};
ghost use Rattle.span_locks.specs.Replies.{Replies, MayReply, at_slot};
ghost use Rattle.span_board.specs.declared.board.Role.TheVariants.{Holder};

use crate::journal::LockedJournal;
use atomic_table::Badge;
use span_binder::understand::understanding_is_unique;
use span_board::board::{Board, DbSeat, Naming};
use span_board::question::is_asked;
use span_board::seats;
use span_columns::leaf::Leaf;
use span_fragment::piece::Piece;
use span_journal::journal::{Gap, Journal};
use span_keycode::key::Key;
use span_params::params::Params;
use span_parts::cut::cut_in;
use span_parts::read::read_leaf;
use span_parts::slot;
use span_query::query::BoundQuery;
use span_shard::shard::Shard;
use span_truetime::interval::Interval;
use span_value::refusal::Refusal;
use std::marker::{Model, PhantomData};
use std::mem;

/// A slot, as long as it is locked. Contracts see its number and what it has of each key.
#[derive(Drop)]
pub struct LockedSlot<J: Naming> {
    pub(crate) number: usize,
    pub(crate) shard: Shard,
    pub(crate) seat: DbSeat,
    pub(crate) of: PhantomData<J>,
}

impl<J: Naming> Model for LockedSlot<J> {
    ghost use Rattle.std.specs.Prelude.{◌≡◌, [], ◌∷◌};
    ghost use Rattle.span_board.specs.Rule.{SlotVersions};
    ghost use Rattle.span_board.specs.declared.board.Role.TheVariants.{Holder};

    ghost Value = { SlotVersions };

    ghost view = { λ s. record { number = s.number; versions = s.shard } };

    ghost invariant = { λ s. (s.seat.table_id ≡ J.table) × (s.seat.me ≡ (Holder s.number s.shard ∷ [], [])) };
}

impl<J: Naming> LockedSlot<J> {
    /// The slot of this number, with what its seat says that it has.
    pub fn new(number: usize, shard: Shard, seat: DbSeat) -> LockedSlot<J>
        requires at { seat.table_id ≡ J.table }
        requires holder { seat.me ≡ (Holder number shard ∷ [], []) }
        ensures number { result.number ≡ number }
        ensures versions { result.versions ≡ shard }
    {
        LockedSlot {
            number,
            shard,
            seat,
            of: PhantomData,
        }
    }

    /// Whether this is the slot of the number. A lock doesn't say which slot it has.
    pub fn has_number(&self, number: usize) -> bool
        ensures { result ≡ (self.now.number == number) }
    {
        self.number == number
    }

    /// Prepares a transaction here. `NoSlot` where the slot is not in use.
    pub fn prepare(
        &mut self,
        board: &Board<J>,
        journal: &mut LockedJournal<J>,
        owner: u64,
        txn: u64,
    ) -> Result<u64, Refusal>
        ensures commits { journal.new.commits ≡ journal.old.commits }
        ensures reply { MayReply J.schema journal.old
            (at_slot self.old.number (λ m. prepare J.schema m owner txn self.old.number))
            (as_reply reply_of.Prepared result) }
    {
        if !is_used(&journal.journal, self.number) {
            return Err(Refusal::NoSlot);
        }
        let keeper = mem::replace(&mut journal.badge, Badge::blank());
        let keeper = seats::agree(board, &mut self.seat, keeper);
        let prepared = slot::prepare_in(
            board.alloc,
            &board.schema,
            &mut journal.journal,
            &mut self.shard,
            owner,
            txn,
            self.number,
        );
        let shard = mem::replace(&mut self.shard, Shard::new(board.alloc));
        let (keeper, shard) = seats::restate(board, &mut self.seat, keeper, shard);
        self.shard = shard;
        journal.badge = keeper;
        prepared
    }

    /// Applies a decided transaction here. `NoSlot` where the slot is not in use.
    pub fn apply(
        &mut self,
        board: &Board<J>,
        journal: &mut LockedJournal<J>,
        owner: u64,
        txn: u64,
        interval: Interval,
    ) -> Result<(), Refusal>
        ensures commits { journal.new.commits ≡ journal.old.commits }
        ensures reply { Replies J.schema journal.old
            (at_slot self.old.number (λ m. apply_step m owner txn self.old.number interval))
            (as_reply (λ _. reply_of.Applied) result) }
    {
        if !is_used(&journal.journal, self.number) {
            return Err(Refusal::NoSlot);
        }
        let keeper = mem::replace(&mut journal.badge, Badge::blank());
        let keeper = seats::agree(board, &mut self.seat, keeper);
        let applied = slot::apply_in(
            &board.schema,
            &mut journal.journal,
            &mut self.shard,
            owner,
            txn,
            self.number,
            interval,
        );
        let shard = mem::replace(&mut self.shard, Shard::new(board.alloc));
        let (keeper, shard) = seats::restate(board, &mut self.seat, keeper, shard);
        self.shard = shard;
        journal.badge = keeper;
        applied
    }

    /// Trims the slot to the horizon h, and returns how many versions it keeps. `NoSlot` where the slot is not in use.
    pub fn trim(
        &mut self,
        board: &Board<J>,
        journal: &mut LockedJournal<J>,
        h: u64,
    ) -> Result<usize, Refusal>
        ensures commits { journal.new.commits ≡ journal.old.commits }
        ensures reply { Replies J.schema journal.old
            (at_slot self.old.number (λ m. trim J.schema m self.old.number h))
            (as_reply reply_of.Trimmed result) }
        ensures kept { IfOk result (λ kept. kept ≤ most_nodes) }
    {
        if !is_used(&journal.journal, self.number) {
            return Err(Refusal::NoSlot);
        }
        let keeper = mem::replace(&mut journal.badge, Badge::blank());
        let keeper = seats::agree(board, &mut self.seat, keeper);
        let trimmed = slot::trim_in(
            &board.schema,
            &mut journal.journal,
            &mut self.shard,
            self.number,
            h,
        );
        let shard = mem::replace(&mut self.shard, Shard::new(board.alloc));
        let (keeper, shard) = seats::restate(board, &mut self.seat, keeper, shard);
        self.shard = shard;
        journal.badge = keeper;
        self.shard.keeps_at_most();
        trimmed
    }

    /// Cuts the slot in two at a coded root key: the keys from it on go to the next slot, whose number is returned. None where another
    /// slot has the key by now, or another one is the first that is not in use.
    pub fn split(
        &mut self,
        board: &Board<J>,
        next: &mut LockedSlot<J>,
        journal: &mut LockedJournal<J>,
        key: &Key,
    ) -> Result<Option<usize>, Refusal>
        requires coded { CodesRootKey J.schema key.now }
        ensures commits { journal.new.commits ≡ journal.old.commits }
        ensures cut { IfOk result
            (λ cut.
            IfSome cut
            (λ number.
            (number ≡ next.old.number)
            × Replies J.schema journal.old (λ m. split_at m key.now) (reply_of.Split number))) }
        ensures refused { IfErr result
            (λ why. MayReply J.schema journal.old (λ m. split_at m key.now) (reply_of.Refused why)) }
    {
        if !may_cut(&journal.journal, key, self.number, next.number)? {
            return Ok(None);
        }
        let keeper = mem::replace(&mut journal.badge, Badge::blank());
        let keeper = seats::agree(board, &mut self.seat, keeper);
        match cut_in(
            board.alloc,
            &board.schema,
            &mut journal.journal,
            &mut self.shard,
            self.number,
            key,
        ) {
            Ok(part) => {
                let shard = mem::replace(&mut self.shard, Shard::new(board.alloc));
                let (keeper, shard, part) = seats::restate_both(
                    board,
                    &mut self.seat,
                    &mut next.seat,
                    keeper,
                    shard,
                    part,
                );
                self.shard = shard;
                next.shard = part;
                journal.badge = keeper;
                Ok(Some(next.number))
            }
            Err(why) => {
                journal.badge = keeper;
                Err(why)
            }
        }
    }

    /// What a leaf of a query gives on a part of its range, as far as this slot has it, or rows that are as good for the query above the
    /// leaves, whose leaf it is at this place. The only refusal is `OutOfMemory`: a slot has rows of the schema's tables, so no bytes in it
    /// are other than a key and a row.
    pub fn read(
        &self,
        board: &Board<J>,
        leaf: &Leaf,
        top: &BoundQuery,
        place: usize,
        gap: &Gap,
    ) -> Result<Piece, Refusal>
        requires { (text : List ℕ) × (params : List Parameter) × IsLeafOf J.schema text params place leaf.now top.now }
        ensures read { IfOk result
            (IsRead J.schema self.now.versions gap.now.range gap.now.s leaf.now top.now place) }
        ensures memory { IfErr result (λ why. why ≡ Refusal.OutOfMemory) }
    {
        let alloc = board.alloc;
        match read_leaf(alloc, &board.schema, &self.shard, leaf, top, place, gap) {
            Ok(piece) => Ok(piece),
            Err(_) => Err(Refusal::OutOfMemory),
        }
    }

    /// Covers what was read here of a leaf by a piece, if it is still uncovered: whether it is. `UnknownQuery` where the query of this
    /// number is not the one whose leaf was read.
    pub fn register(
        &mut self,
        board: &Board<J>,
        journal: &mut LockedJournal<J>,
        text: &str,
        params: &Params,
        query: u64,
        place: usize,
        leaf: &Leaf,
        top: &BoundQuery,
        interval: Interval,
        gap: &Gap,
        piece: Piece,
    ) -> Result<bool, Refusal>
        requires leaf { IsLeafOf J.schema text.now params.now place leaf.now top.now }
        requires read { IsRead J.schema self.old.versions gap.now.range gap.now.s leaf.now top.now place piece }
        ensures same { (self.new ≡ self.old) × (journal.new ≡ journal.old) }
        ensures scanned { result ≡ Ok true
            → Replies J.schema journal.old (λ m. scan m query place self.old.number interval) reply_of.Scanned }
        ensures refused { IfErr result (IsUnscanned J.schema) }
    {
        if !is_used(&journal.journal, self.number) {
            return Err(Refusal::NoSlot);
        }
        if !is_asked(&journal.journal, query, text, params) {
            return Err(Refusal::UnknownQuery);
        }
        understanding_is_unique();
        let _ = leaf;
        let _ = top;
        let keeper = mem::replace(&mut journal.badge, Badge::blank());
        journal.badge = seats::agree(board, &mut self.seat, keeper);
        slot::register(
            board.alloc,
            &board.schema,
            &mut journal.journal,
            &self.shard,
            query,
            place,
            self.number,
            interval,
            gap,
            piece,
        )
    }
}

/// Whether the slot of this number is in use.
fn is_used(journal: &Journal, number: usize) -> bool
    ensures used { result ≡ true → number < length journal.now.slots }
    ensures spare { result ≡ false → length journal.now.slots ≤ number }
{
    number < journal.slots().len()
}

/// Whether the slot of this number may be cut at a coded root key, and the next one is the first that is not in use. The refusal of a split.
fn may_cut(journal: &Journal, key: &Key, number: usize, next: usize) -> Result<bool, Refusal>
    ensures may { IfOk result
        (λ yes. yes ≡ true → MaySplit (machine_of journal.now) number key.now × (next ≡ length journal.now.slots)) }
    ensures refused { IfErr result
        (λ why. split_at (machine_of journal.now) key.now ≡ refused (machine_of journal.now) why) }
{
    match journal.check_split(key) {
        Ok(slot) => {
            if slot != number {
                return Ok(false);
            }
            Ok(next == journal.slots().len())
        }
        Err(why) => Err(why),
    }
}
