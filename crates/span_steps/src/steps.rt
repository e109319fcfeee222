//! The steps of the core that commands take.
ghost use Rattle.std.specs.Prelude.{◌≡◌, ◌⊎◌, List, IfSome, MatchResult, length};
ghost use Rattle.span_schema.specs.declared.table.Table.{Table};
ghost use Rattle.span_machine.specs.Run.{IsChecked};
ghost use Rattle.span_machine.specs.declared.step.Step.TheVariants as step_of_kind;
ghost use Rattle.span_steps.specs.Steps.{Takes, AreTaken, AreRefused, IsRead, scans, scans_of_leaf};
ghost use Rattle.span_steps.specs.States.{numbered_step};

use span_command::command::Command;
use span_core::database::Core;
use span_core::{Interval, Refusal, Reply, Step, Verdict};
use std::alloc::Global;

/// The owner of every transaction of a script.
pub(crate) const OWNER: u64 = 0;

/// Scans the leaves of an open query in every slot, and finishes it.
pub(crate) fn read(
    alloc: Global,
    core: &mut Core,
    clock: Interval,
    query: u64,
    leaves: usize,
) -> Reply
    ensures read { IsRead core.old.schema core.old.machine clock query leaves result core.new.machine }
    ensures schema { core.new.schema ≡ core.old.schema }
{
    match scan(alloc, core, clock, query, leaves) {
        Ok(()) => take_step(alloc, core, Step::Finish { query }),
        Err(why) => Reply::Refused(why),
    }
}

/// Scans the leaves of an open query in every slot. The refusal is that of the first step that is refused.
fn scan(
    alloc: Global,
    core: &mut Core,
    clock: Interval,
    query: u64,
    leaves: usize,
) -> Result<(), Refusal>
    ensures scanned { MatchResult result
        (λ _. AreTaken core.old.schema core.old.machine
        (scans clock query (length core.old.machine.slots) leaves) core.new.machine)
        (λ why. AreRefused core.old.schema core.old.machine
        (scans clock query (length core.old.machine.slots) leaves) why core.new.machine) }
    ensures schema { core.new.schema ≡ core.old.schema }
{
    let slots = core.slots();
    for leaf in 0..leaves {
        match scan_leaf(alloc, core, clock, query, leaf, slots) {
            Ok(()) => {}
            Err(why) => return Err(why),
        }
    }
    Ok(())
}

/// Scans a leaf of an open query in each of the slots.
fn scan_leaf(
    alloc: Global,
    core: &mut Core,
    clock: Interval,
    query: u64,
    leaf: usize,
    slots: usize,
) -> Result<(), Refusal>
    ensures scanned { MatchResult result
        (λ _. AreTaken core.old.schema core.old.machine (scans_of_leaf clock query slots leaf) core.new.machine)
        (λ why. AreRefused core.old.schema core.old.machine
        (scans_of_leaf clock query slots leaf) why core.new.machine) }
    ensures schema { core.new.schema ≡ core.old.schema }
{
    for slot in 0..slots {
        let step = Step::Scan {
            query,
            leaf,
            slot,
            interval: clock,
        };
        match take_step(alloc, core, step) {
            Reply::Refused(why) => return Err(why),
            _ => {}
        }
    }
    Ok(())
}

/// Why a record has no key to split at, or that memory ran out.
pub(crate) fn split_refusal(why: Refusal) -> Refusal
    ensures which { (result ≡ Refusal.BadSplit) ⊎ ((result ≡ Refusal.OutOfMemory) × (why ≡ Refusal.OutOfMemory)) }
    ensures memory { why ≡ Refusal.OutOfMemory → result ≡ Refusal.OutOfMemory }
{
    match why {
        Refusal::OutOfMemory => Refusal::OutOfMemory,
        _ => Refusal::BadSplit,
    }
}

/// Takes a step. A transaction that is begun was checked against the database's schema.
pub fn take_step(alloc: Global, core: &mut Core, step: Step) -> Reply
    requires { IsChecked core.old.schema step }
    ensures taken { Takes core.old.schema core.old.machine step result core.new.machine }
    ensures schema { core.new.schema ≡ core.old.schema }
{
    core.is_reached();
    core.step(alloc, step)
}

/// The step of a command that is one step of numbers alone.
pub fn step_of(command: Command<'_>, clock: Interval) -> Option<Step>
    ensures step { result ≡ numbered_step command.entry clock }
    ensures of_schema { IfSome result (λ step. (schema : List Table) → IsChecked schema step) }
{
    match command {
        Command::Prepare { txn, slot } => Some(Step::Prepare {
            owner: OWNER,
            txn,
            slot: slot as usize,
        }),
        Command::Decide { txn } => Some(decision(txn, Verdict::Commit, clock)),
        Command::Abort { txn } => Some(decision(txn, Verdict::Abort, clock)),
        Command::Apply { txn, slot } => Some(Step::Apply {
            owner: OWNER,
            txn,
            slot: slot as usize,
            interval: clock,
        }),
        Command::Advance { slot } => Some(Step::Advance {
            slot: slot as usize,
            interval: clock,
        }),
        Command::Scan { query, leaf, slot } => Some(Step::Scan {
            query,
            leaf: leaf as usize,
            slot: slot as usize,
            interval: clock,
        }),
        Command::Finish { query } => Some(Step::Finish { query }),
        Command::Close { query } => Some(Step::Close { query }),
        Command::Trim { slot, horizon } => Some(Step::Trim {
            slot: slot as usize,
            h: horizon,
        }),
        _ => None,
    }
}

/// The step that decides a transaction.
fn decision(txn: u64, verdict: Verdict, clock: Interval) -> Step
    ensures step { result ≡ step_of_kind.Decide 0 txn verdict clock }
    ensures of_schema { (schema : List Table) → IsChecked schema result }
{
    Step::Decide {
        owner: OWNER,
        txn,
        verdict,
        interval: clock,
    }
}
