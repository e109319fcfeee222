//! The steps of the machine but splits, each as the machine's answer (`span_machine/specs/Machine.antt`).
ghost use Rattle.std.specs.Prelude.{◌≡◌, ◌∷◌, [], List, IfErr, OnOk, OnErr, Ok};
ghost use Rattle.span_openqueries.specs.Planned.{IsPlanned};
ghost use Rattle.span_mutate.specs.Typed.{AreTypedMutations};
ghost use Rattle.span_machine.specs.Machine.{Answers, IsAnswer, start, begin, prepare, decide, apply_step, advance, trim, open_query, scan, finish, close};
ghost use Rattle.span_machine.specs.Pieces.{machine_of};
ghost use Rattle.span_machine.specs.declared.step.Reply.TheVariants as reply_of;
ghost use Rattle.span_parts.specs.Replies.{as_reply, decision_reply, scan_reply, rows_reply, opened_reply};
ghost use Rattle.span_parts.specs.Whole.{Shards, IsWhole, GoesWith, IsWritten};

use super::read::read_gap;
use super::shards::{apply_at, prepare_at, trim_at};
use span_checking::transaction::Transaction;
use span_gather::finish::finish as finish_pieces;
use span_gather::rows::Rows;
use span_journal::journal::{Journal, Opened};
use span_machine::step::Verdict;
use span_openqueries::planned::PlannedQuery;
use span_schema::schema::Schema;
use span_shard::shard::Shard;
use span_truetime::bound::Bound;
use span_truetime::interval::Interval;
use span_value::refusal::Refusal;
use std::alloc::Global;

/// Begins a transaction, and returns its number.
pub fn begin(
    alloc: Global,
    schema: &Schema,
    journal: &mut Journal,
    owner: u64,
    transaction: Transaction,
) -> Result<u64, Refusal>
    requires { AreTypedMutations schema.now transaction }
    ensures step { Answers (machine_of journal.old)
        (begin (machine_of journal.old) owner transaction)
        (as_reply reply_of.Began result)
        (machine_of journal.new) }
    ensures whole { GoesWith schema.now journal.old journal.new }
{
    schema.meets_rules();
    journal.begin(alloc, owner, transaction)
}

/// Prepares a transaction at a slot, and returns its prepare timestamp.
pub fn prepare(
    alloc: Global,
    schema: &Schema,
    journal: &mut Journal,
    shards: &mut Vec<Shard>,
    owner: u64,
    txn: u64,
    slot: usize,
) -> Result<u64, Refusal>
    requires { IsWhole schema.now journal.old shards.old.items }
    ensures step { Answers (machine_of journal.old)
        (prepare schema.now (machine_of journal.old) owner txn slot)
        (as_reply reply_of.Prepared result)
        (machine_of journal.new) }
    ensures whole { IsWhole schema.now journal.new shards.new.items }
{
    match prepare_writes(alloc, schema, journal, shards, owner, txn, slot) {
        Ok(()) => note_prepared(schema, journal, shards, owner, txn, slot),
        Err(why) => Err(why),
    }
}

/// Prepares the writes of a transaction in the shard of a slot, where it may be prepared there. A refusal leaves all as it was.
fn prepare_writes(
    alloc: Global,
    schema: &Schema,
    journal: &Journal,
    shards: &mut Vec<Shard>,
    owner: u64,
    txn: u64,
    slot: usize,
) -> Result<(), Refusal>
    requires { IsWhole schema.now journal.now shards.old.items }
    ensures written { OnOk result
        (IsWritten schema.now (machine_of journal.now) owner txn slot shards.old.items shards.new.items) }
    ensures refused { IfErr result
        (λ why. Answers (machine_of journal.now)
        (prepare schema.now (machine_of journal.now) owner txn slot)
        (reply_of.Refused why)
        (machine_of journal.now)) }
    ensures err { OnErr result (shards.new.items ≡ shards.old.items) }
{
    schema.meets_rules();
    match journal.check_prepare(alloc, schema, owner, txn, slot) {
        Ok(chosen) => prepare_at(alloc, schema, shards, slot, txn, chosen.as_slice()),
        Err(why) => Err(why),
    }
}

/// Notes a transaction whose writes are prepared in the shard of a slot. A refusal takes the writes back.
fn note_prepared(
    schema: &Schema,
    journal: &mut Journal,
    shards: &mut Vec<Shard>,
    owner: u64,
    txn: u64,
    slot: usize,
) -> Result<u64, Refusal>
    requires { (before : Shards)
        × IsWhole schema.now journal.old before
        × IsWritten schema.now (machine_of journal.old) owner txn slot before shards.old.items }
    ensures step { Answers (machine_of journal.old)
        (prepare schema.now (machine_of journal.old) owner txn slot)
        (as_reply reply_of.Prepared result)
        (machine_of journal.new) }
    ensures whole { IsWhole schema.now journal.new shards.new.items }
{
    schema.meets_rules();
    match journal.note_prepared(owner, txn, slot) {
        Ok(timestamp) => Ok(timestamp),
        Err(why) => {
            apply_at(shards, slot, txn, None);
            Err(why)
        }
    }
}

/// Decides a transaction: returns its commit timestamp, or None for an abort.
pub fn decide(
    alloc: Global,
    schema: &Schema,
    journal: &mut Journal,
    owner: u64,
    txn: u64,
    verdict: Verdict,
    interval: Interval,
) -> Result<Option<u64>, Refusal>
    ensures step { IsAnswer
        (decide schema.now (machine_of journal.old) owner txn verdict interval)
        (as_reply decision_reply result)
        (machine_of journal.new) }
    ensures whole { GoesWith schema.now journal.old journal.new }
{
    schema.meets_rules();
    journal.decide(alloc, schema, owner, txn, verdict, interval)
}

/// Applies a decided transaction at a slot.
pub fn apply(
    schema: &Schema,
    journal: &mut Journal,
    shards: &mut Vec<Shard>,
    owner: u64,
    txn: u64,
    slot: usize,
    interval: Interval,
) -> Result<(), Refusal>
    requires { IsWhole schema.now journal.old shards.old.items }
    ensures step { IsAnswer
        (apply_step (machine_of journal.old) owner txn slot interval)
        (as_reply (λ _. reply_of.Applied) result)
        (machine_of journal.new) }
    ensures whole { IsWhole schema.now journal.new shards.new.items }
{
    schema.meets_rules();
    match journal.note_applied(owner, txn, slot, interval) {
        Ok(committed) => {
            apply_at(shards, slot, txn, committed);
            Ok(())
        }
        Err(why) => Err(why),
    }
}

/// Raises the floor of a slot, and returns it.
pub fn advance(
    schema: &Schema,
    journal: &mut Journal,
    slot: usize,
    interval: Interval,
) -> Result<u64, Refusal>
    ensures step { IsAnswer
        (advance (machine_of journal.old) slot interval)
        (as_reply reply_of.Floor result)
        (machine_of journal.new) }
    ensures whole { GoesWith schema.now journal.old journal.new }
{
    schema.meets_rules();
    journal.advance(slot, interval)
}

/// Trims a slot to the horizon h, and returns how many versions it keeps.
pub fn trim(
    schema: &Schema,
    journal: &mut Journal,
    shards: &mut Vec<Shard>,
    slot: usize,
    h: u64,
) -> Result<usize, Refusal>
    requires { IsWhole schema.now journal.old shards.old.items }
    ensures step { IsAnswer
        (trim schema.now (machine_of journal.old) slot h)
        (as_reply reply_of.Trimmed result)
        (machine_of journal.new) }
    ensures whole { IsWhole schema.now journal.new shards.new.items }
{
    schema.meets_rules();
    match journal.raise_horizon(slot, h) {
        Ok(()) => Ok(trim_at(shards, slot, h)),
        Err(why) => Err(why),
    }
}

/// Opens a query that was planned.
pub fn open(
    alloc: Global,
    schema: &Schema,
    journal: &mut Journal,
    query: PlannedQuery,
    bound: Bound,
    interval: Interval,
) -> Result<Opened, Refusal>
    requires { IsPlanned schema.now query }
    ensures step { Answers (machine_of journal.old)
        (open_query schema.now (machine_of journal.old) (Ok query.statement) query.text query.params bound interval)
        (as_reply opened_reply result)
        (machine_of journal.new) }
    ensures whole { GoesWith schema.now journal.old journal.new }
{
    schema.meets_rules();
    journal.open(alloc, schema, query, bound, interval)
}

/// Scans the lowest uncovered part of a leaf's range in a slot: whether there was one.
pub fn scan(
    alloc: Global,
    schema: &Schema,
    journal: &mut Journal,
    shards: &[Shard],
    query: u64,
    leaf: usize,
    slot: usize,
    interval: Interval,
) -> Result<bool, Refusal>
    requires { IsWhole schema.now journal.old shards.now }
    ensures step { Answers (machine_of journal.old)
        (scan (machine_of journal.old) query leaf slot interval)
        (as_reply scan_reply result)
        (machine_of journal.new) }
    ensures whole { IsWhole schema.now journal.new shards.now }
{
    schema.meets_rules();
    match journal.claim_gap(alloc, query, leaf, slot, interval) {
        Ok(Some(gap)) => match read_gap(alloc, schema, journal, &shards[slot], query, leaf, &gap) {
            Ok(piece) => match journal.register(
                alloc, query, leaf, slot, interval, gap.range, piece,
            ) {
                Ok(()) => Ok(true),
                Err(why) => Err(why),
            },
            Err(why) => Err(why),
        },
        Ok(None) => Ok(false),
        Err(why) => Err(why),
    }
}

/// The timestamp that a query reads at, and its rows, once pieces cover its leaves.
pub fn finish(
    alloc: Global,
    schema: &Schema,
    journal: &Journal,
    query: u64,
) -> Result<(u64, Rows), Refusal>
    ensures { (shards : Shards)
        → IsWhole schema.now journal.now shards
        → Answers (machine_of journal.now)
        (finish schema.now (machine_of journal.now) query)
        (as_reply rows_reply result)
        (machine_of journal.now) }
{
    match journal.pieces(query) {
        Ok((s, top, pieces)) => match finish_pieces(alloc, top, pieces) {
            Ok(rows) => Ok((s, rows)),
            Err(why) => Err(why),
        },
        Err(why) => Err(why),
    }
}

/// Closes a query.
pub fn close(schema: &Schema, journal: &mut Journal, query: u64) -> Result<(), Refusal>
    ensures step { IsAnswer
        (close (machine_of journal.old) query)
        (as_reply (λ _. reply_of.Closed) result)
        (machine_of journal.new) }
    ensures whole { GoesWith schema.now journal.old journal.new }
{
    schema.meets_rules();
    journal.close(query)
}

/// A law, which takes no time: a journal and shards in which nothing has happened belong together.
pub fn start(schema: &Schema, journal: &Journal, shards: &Vec<Shard>)
    requires machine { machine_of journal.now ≡ start }
    requires pieces { journal.now.queries ≡ [] }
    requires shards { shards.now.items ≡ [] ∷ [] }
    ensures { IsWhole schema.now journal.now shards.now.items }
{
    schema.meets_rules();
    let _ = journal;
    let _ = shards;
}
