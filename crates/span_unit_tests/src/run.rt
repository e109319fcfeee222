//! A whole run of a list of steps: the program takes its steps one by one.
ghost use Rattle.std.specs.Prelude.{IfOk, List};
ghost use Rattle.span_schema.specs.declared.table.Table.{Table};
ghost use Rattle.span_machine.specs.Run.{AreChecked};
ghost use Rattle.span_mutate.specs.Typed.{AreTypedMutations};

use span_core::run::run;
use span_core::{
    Interval, Mutation, MutationKind, Refusal, Reply, Seq, Step, Text, Transaction, Value, Verdict,
};
use span_schematext::text::parse_schema;
use span_value::owned::give_after;
use std::alloc::{AllocError, Global};

const NUMBERS: &str = "CREATE TABLE N (n INT64) PRIMARY KEY (n)";

// The insert of a row.
fn mutations(alloc: Global) -> Result<Vec<Mutation>, AllocError> {
    let mut key = Seq::new(alloc);
    key.push(Value::Int(1))?;
    let mut mutations = Vec::new(alloc);
    mutations.push(Mutation {
        kind: MutationKind::Insert,
        table: Text::from_str(alloc, "N")?,
        key,
        cells: Seq::new(alloc),
    })?;
    Ok(mutations)
}

// The steps that begin, prepare and commit a transaction.
fn committing(alloc: Global, transaction: Transaction) -> Result<Vec<Step>, Refusal>
    ensures { IfOk result
        (λ steps. (schema : List Table) → AreTypedMutations schema transaction → AreChecked schema steps.items) }
{
    let interval = Interval::new(100, 110)?;
    let mut steps = Vec::new(alloc);
    let (owner, txn, slot) = (0, 1, 0);
    steps.push(Step::Begin { owner, transaction })?;
    steps.push(Step::Prepare { owner, txn, slot })?;
    steps.push(Step::Decide {
        owner,
        txn,
        verdict: Verdict::Commit,
        interval,
    })?;
    Ok(steps)
}

fn replies_of_run(alloc: Global) -> Result<Vec<Reply>, Refusal> {
    let schema = parse_schema(alloc, NUMBERS)?;
    let transaction = Transaction::new(alloc, &schema, mutations(alloc)?)?;
    run(alloc, schema, committing(alloc, transaction)?)
}

// Whether these are the replies: the commit timestamp is above the interval's end.
fn are_committed(replies: &[Reply]) -> bool {
    matches!(
        replies,
        [Reply::Began(1), Reply::Prepared(1), Reply::Decided(111)]
    )
}

fn is_committed(alloc: Global) -> Result<bool, Refusal> {
    let replies = replies_of_run(alloc)?;
    let found = are_committed(replies.as_slice());
    Ok(give_after(replies, found))
}

#[test]
fn a_commit(rt: HostRuntime) -> Result<(), Refusal> {
    assert!(rt; is_committed(rt.alloc())?);
    Ok(())
}
