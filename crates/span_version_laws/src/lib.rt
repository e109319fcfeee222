//! That a shard's versions are what the log and the open transactions make them: no code runs here.
//!
//! `specs/Kept.antt` says what the shard of a slot keeps of each key in the slot's range (`AreKept`) and what the pieces of open queries
//! are (`ArePieced`). `proofs/` shows that every step of the machine goes with a change of the shard of its slot that keeps it so, and
//! leaves the shards of other slots: Steps (the steps that leave the versions, and those at other slots), Preparing, Applying, Trims,
//! Splitting (a slot that is cut in two), AllKept (the shards of all slots); that a snapshot of any range at a safe timestamp then has the
//! rows of the tables there (Snapshots); and that the pieces of ranges stay right, and together are the tables (Covers). The crates with
//! code cite these laws.
#![tactic(auto)]

ghost use Rattle.std.specs.Prelude.{◌≡◌, ◌≤◌, ℕ, List, Ok, Some, true, slice_get};
ghost use Rattle.span_schema.specs.Lineages.{MeetsRules};
ghost use Rattle.span_keycode.specs.declared.range.KeyRange.{KeyRange};
ghost use Rattle.span_schema.specs.declared.table.Table.{Table};
ghost use Rattle.span_mutate.specs.declared.row.TableRow.{TableRow};
ghost use Rattle.span_shard.specs.KeyVersions.{KeyVersions};
ghost use Rattle.span_shard.specs.Shard.{live, snapshot};
ghost use Rattle.span_machine.specs.Machine.{Machine, is_safe};
ghost use Rattle.span_machine.specs.Kept as kept;
ghost use Rattle.span_machine.specs.Tables.{tables};
ghost use Rattle.span_machine.specs.declared.slot.SlotState.{SlotState};
ghost use Rattle.span_machine_laws.proofs.Reached.{IsReached};
ghost use Rattle.span_version_laws.specs.Kept.{AreKept, HasRowsOf};

/// In every machine that a run reaches, a snapshot that the shard kept for a slot gives of a range of keys, at a timestamp that is safe
/// there and not below the slot's horizon, has of each table just the rows of the tables at that timestamp whose keys are in the range
/// and in the slot's range, in order. A scan may raise the slot's floor first.
pub fn snapshots_are_tables()
    ensures { (schema : List Table)
        → MeetsRules schema
        → (m : Machine) (slot : ℕ) (slot_state risen : SlotState) (cs : List KeyVersions) (s : ℕ)
        → IsReached schema m
        → AreKept schema m slot cs
        → slice_get m.slots slot ≡ Some slot_state
        → is_safe m slot risen s ≡ true
        → slot_state.horizon ≤ s
        → (db : List TableRow)
        → tables schema m.log s ≡ Ok db
        → (range : KeyRange)
        → HasRowsOf schema slot_state range db (snapshot range s cs) }
{}

/// In every machine that a run reaches, the shard that is kept for a slot has just as many versions, prepared ones included, as changes
/// of the log in the slot's range are kept at its horizon and changes are prepared there.
pub fn live_is_kept()
    ensures { (schema : List Table)
        → MeetsRules schema
        → (m : Machine) (slot : ℕ) (slot_state : SlotState) (cs : List KeyVersions)
        → IsReached schema m
        → AreKept schema m slot cs
        → slice_get m.slots slot ≡ Some slot_state
        → live cs ≡ kept.live schema m.log m.transactions slot slot_state }
{}
