//! The laws of the machine, on lists alone: no code runs here.
//!
//! `proofs/` shows, step by step, that a commit touches only the directories of its mutations (Locality), that the ranges of slots tile
//! the keys, also after a Split (Splits, Ranges), that what is at or below a slot's safe time is final (Sealed), that the commits of a
//! directory rise along the log, in whichever slot has it (InPlace, Claims, Placed), that what a query is to see in the pieces that cover
//! its leaves is final (Pieces, Sound, FamilyRows, RangeRows), that the plan of a query gives what the query means, also by pieces
//! (PlanLaws, LeafTiled), that the log is just what the replies commit (Known), and so that every run of the machine is a history; that
//! each transaction is decided once (Decisions), and so that a history is externally consistent under an honest clock (Consistent). The
//! crates with code cite these laws.
#![tactic(auto)]

ghost use Rattle.std.specs.Prelude.{List};
ghost use Rattle.span_machine.specs.Consistency.{HonestClock, IsExternallyConsistent};
ghost use Rattle.span_machine.specs.declared.step.Reply.{Reply};
ghost use Rattle.span_machine.specs.declared.step.Step.{Step};
ghost use Rattle.span_machine.specs.Machine.{Machine, start};
ghost use Rattle.span_machine.specs.Run.{AreOfSchema, CanPlan, IsHistory, Run};
ghost use Rattle.span_machine.specs.Slots.{AreTiles, ranges_of};
ghost use Rattle.span_schema.specs.Lineages.{MeetsRules};
ghost use Rattle.span_schema.specs.declared.table.Table.{Table};

/// A language of queries, for proofs alone.
pub trait Understanding {
    ghost use Rattle.std.specs.Prelude.{ℕ, List, Result};
    ghost use Rattle.span_params.specs.declared.params.Parameter.{Parameter};
    ghost use Rattle.span_query.specs.declared.query.Statement.{Statement};
    ghost use Rattle.span_value.specs.declared.refusal.Refusal.{Refusal};

    /// Which query texts, with which parameters, are understood as which statements, and which are refused why.
    ghost understands: { List ℕ → List Parameter → Result Statement Refusal → Type 0 };
}

/// The theorem of the headline, for any language: whatever the machine may reply to steps from its start is a history. Its log
/// holds just the commits that were answered, each applies at its place, and every answer has exactly the rows that its query means on
/// the tables of all of them. The schema meets its rules, each statement that a query text is understood as can be planned, the
/// transactions that are begun were checked against it, and the keys at which slots are cut are of values.
pub fn runs_are_histories<U: Understanding>()
    ensures { (schema : List Table)
        → MeetsRules schema
        → CanPlan U.understands schema
        → (steps : List Step) (replies : List Reply) (last : Machine)
        → AreOfSchema schema steps
        → Run U.understands schema start steps replies last
        → IsHistory U.understands schema steps replies }
{}

/// In every machine that a run reaches, with whatever splits, for any language, each coded key is in the range of one slot in use, and of no
/// other.
pub fn slots_tile_the_keys<U: Understanding>()
    ensures { (schema : List Table) (steps : List Step) (replies : List Reply) (last : Machine)
        → Run U.understands schema start steps replies last
        → AreTiles (ranges_of last.slots) }
{}

/// External consistency, for any language: where the clock's answers in the steps of a history are honest, a commit that is applied
/// before another one is decided has the smaller timestamp, and one that is applied before a strong query is opened is among those that
/// the query sees.
pub fn histories_are_consistent<U: Understanding>()
    ensures { (schema : List Table) (steps : List Step) (replies : List Reply)
        → IsHistory U.understands schema steps replies
        → HonestClock steps
        → IsExternallyConsistent steps replies }
{}
