//! The journal and the slots, each under its lock.
ghost use Rattle.std.specs.Prelude.{◌≡◌, ◌≤◌, ◌<◌, Some, MatchResult, length, slice_get};
ghost use Rattle.span_machine.specs.Limits.{most_slots};

use span_board::board::{Board, Naming};
use span_locks::journal::LockedJournal;
use span_locks::slot::LockedSlot;
use span_value::refusal::Refusal;
use std::sync::Mutex;

/// The journal and the slots of a database, beside the board that ties them together. The lock of a slot is taken before that of the
/// journal.
#[derive(Drop)]
pub struct Locks<J: Naming> {
    /// The table of words, and the schema.
    pub board: Board<J>,
    /// The journal.
    pub journal: Mutex<LockedJournal<J>>,
    /// The slots, as many as there may be.
    pub slots: Vec<Mutex<LockedSlot<J>>>,
    pub ghost all_slots: { length slots.items ≡ most_slots },
}

impl<J: Naming> Locks<J> {
    /// The locks of a database that has all slots.
    pub fn new(
        board: Board<J>,
        journal: LockedJournal<J>,
        slots: Vec<Mutex<LockedSlot<J>>>,
    ) -> Locks<J>
        requires { length slots.items ≡ most_slots }
    {
        Locks {
            board,
            journal: Mutex::new(journal),
            slots,
        }
    }

    /// The slot of this number. `NoSlot` where the number is not below the limit of slots.
    pub fn slot(&self, number: usize) -> Result<&Mutex<LockedSlot<J>>, Refusal>
        ensures { MatchResult result
            (λ slot. (number < most_slots) × (slice_get self.now.slots.items number ≡ Some slot.now))
            (λ why. (most_slots ≤ number) × (why ≡ Refusal.NoSlot)) }
    {
        match self.slots.get(number) {
            Some(slot) => Ok(slot),
            None => Err(Refusal::NoSlot),
        }
    }
}
