//! Where the mutations of a transaction lie, and the slots where it is prepared.
ghost use Rattle.std.specs.Prelude.{◌≡◌, ◌≤◌, ◌<◌, length, IfSome};
ghost use Rattle.span_machine.specs.Pieces.{machine_of};
ghost use Rattle.span_board.specs.Places.{IsNext};

use span_journal::journal::Journal;
use span_schema::schema::Schema;
use span_transactions::choice::has_any;
use span_transactions::slots::MOST_SLOTS;

/// The slots where a transaction is prepared, by number.
pub type PreparedAt = [bool; MOST_SLOTS];

/// The lowest slot from this one on where mutations of the transaction lie. None where there is none, or no such transaction.
pub fn next_with_mutations(
    journal: &Journal,
    schema: &Schema,
    owner: u64,
    txn: u64,
    from: usize,
) -> Option<usize>
    ensures within { IfSome result (λ slot. (from ≤ slot) × (slot < length journal.now.slots)) }
    ensures next { IsNext schema.now (machine_of journal.now) owner txn from result }
{
    let Some(mutations) = journal.mutations(owner, txn) else {
        return None;
    };
    let slots = journal.slots();
    for slot in from..slots.len() {
        if has_any(schema, &slots[slot], mutations) {
            return Some(slot);
        }
    }
    None
}
