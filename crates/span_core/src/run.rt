//! Whole runs.
ghost use Rattle.std.specs.Prelude.{◌≡◌, IfOk, IfErr};
ghost use Rattle.span_core.specs.Histories.{IsHistory};
ghost use Rattle.span_machine.specs.Consistency.{HonestClock, IsExternallyConsistent};
ghost use Rattle.span_machine.specs.Run.{AreChecked};

use super::database::Core;
use span_machine::step::{Reply, Step};
use span_schema::schema::Schema;
use span_value::refusal::Refusal;
use std::alloc::Global;

/// The replies to the steps, in order, from an empty database. Whatever the steps are, in whatever order prepares, decisions, applies
/// and scans fall: every reply is the machine's, and a query that is answered at timestamp s gets exactly the rows, in order, that
/// its query text means on the tables made by running, in the order of their timestamps, every transaction that the whole list commits
/// at s or earlier; where one is refused for an arithmetic fault, its query text means the fault there. Where the clock's answers in the
/// steps are honest, the run is externally consistent: a transaction that is applied before another one is decided has the smaller
/// timestamp, and what is applied before a strong query is opened is among what that query sees. The transactions that are begun were
/// checked against the schema. `OutOfMemory`, before the first step, is the only refusal.
pub fn run(alloc: Global, schema: Schema, steps: Vec<Step>) -> Result<Vec<Reply>, Refusal>
    requires { AreChecked schema steps.items }
    ensures history { IfOk result (λ replies. IsHistory schema steps.items replies.items) }
    ensures consistent { IfOk result
        (λ replies. HonestClock steps.items → IsExternallyConsistent steps.items replies.items) }
    ensures memory { IfErr result (λ why. why ≡ Refusal.OutOfMemory) }
{
    schema.meets_rules();
    let mut core = Core::new(alloc, schema)?;
    let mut replies = Vec::with_capacity(alloc, steps.len())?;
    for step in steps {
        let reply = core.step(alloc, step);
        replies.push_reserved(reply);
    }
    Ok(replies)
}
