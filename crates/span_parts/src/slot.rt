//! Steps at one slot, for a caller that has the journal and the shard of that slot alone (`BelongsAt`), as it has them who holds their
//! locks: each is the machine's step, and leaves a journal that goes with the shards of all other slots as before.
//!
//! A scan is cut in three: `claim` on the journal alone, `read::read_leaf` on the shard alone, `register` on both.
ghost use Rattle.std.specs.Prelude.{◌≡◌, ◌⊎◌, ◌≤◌, true, false, List, IfErr, IfOk, OnOk, OnErr, MatchResult};
ghost use Rattle.span_arena.specs.Limits.{most_nodes};
ghost use Rattle.span_mutate.specs.Typed.{AreTypedMutations};
ghost use Rattle.span_shard.specs.KeyVersions.{KeyVersions};
ghost use Rattle.span_shard.specs.Reading.{AreWrites, IsFault, IsFull};
ghost use Rattle.span_shard.specs.Shard.{with_writes, live, IsFree, HasNoneOf};
ghost use Rattle.span_store.specs.declared.write.Write.{Write};
ghost use Rattle.span_machine.specs.Machine.{Answers, IsAnswer, prepare, apply_step, trim, scan};
ghost use Rattle.span_machine.specs.Pieces.{machine_of};
ghost use Rattle.span_machine.specs.declared.step.Reply.TheVariants as reply_of;
ghost use Rattle.span_journal.specs.Judged.{IsGap};
ghost use Rattle.span_parts.specs.Replies.{as_reply};
ghost use Rattle.span_parts.specs.Whole.{BelongsAt, GoesWith, GoesAt, StaysAt, IsWrittenAt, IsReadFor};

use span_fragment::piece::Piece;
use span_journal::journal::{Gap, Journal};
use span_mutate::mutation::CheckedMutation;
use span_schema::schema::Schema;
use span_shard::shard::Shard;
use span_truetime::interval::Interval;
use span_value::refusal::Refusal;
use std::alloc::Global;

/// Prepares a transaction at a slot, in the slot's shard, and returns its prepare timestamp.
pub fn prepare_in(
    alloc: Global,
    schema: &Schema,
    journal: &mut Journal,
    shard: &mut Shard,
    owner: u64,
    txn: u64,
    slot: usize,
) -> Result<u64, Refusal>
    requires { BelongsAt schema.now journal.old slot shard.old }
    ensures step { Answers (machine_of journal.old)
        (prepare schema.now (machine_of journal.old) owner txn slot)
        (as_reply reply_of.Prepared result)
        (machine_of journal.new) }
    ensures whole { GoesAt schema.now slot journal.old journal.new shard.old shard.new }
{
    match write_in(alloc, schema, journal, shard, owner, txn, slot) {
        Ok(()) => note_in(schema, journal, shard, owner, txn, slot),
        Err(why) => Err(why),
    }
}

/// Prepares the writes of a transaction in the slot's shard, where it may be prepared there. A refusal leaves all as it was.
fn write_in(
    alloc: Global,
    schema: &Schema,
    journal: &Journal,
    shard: &mut Shard,
    owner: u64,
    txn: u64,
    slot: usize,
) -> Result<(), Refusal>
    requires { BelongsAt schema.now journal.now slot shard.old }
    ensures written { OnOk result (IsWrittenAt schema.now (machine_of journal.now) owner txn slot shard.old shard.new) }
    ensures refused { IfErr result
        (λ why. Answers (machine_of journal.now)
        (prepare schema.now (machine_of journal.now) owner txn slot)
        (reply_of.Refused why)
        (machine_of journal.now)) }
    ensures err { OnErr result (shard.new ≡ shard.old) }
{
    schema.meets_rules();
    match journal.check_prepare(alloc, schema, owner, txn, slot) {
        Ok(chosen) => write(alloc, schema, shard, txn, chosen.as_slice()),
        Err(why) => Err(why),
    }
}

/// Prepares in a shard what the mutations write there. A refusal leaves the shard as it was.
fn write(
    alloc: Global,
    schema: &Schema,
    shard: &mut Shard,
    txn: u64,
    mutations: &[CheckedMutation],
) -> Result<(), Refusal>
    requires free { IsFree schema.now mutations.now shard.old }
    requires new { HasNoneOf txn shard.old }
    requires typed { AreTypedMutations schema.now mutations.now }
    ensures ok { OnOk result
        ((ws : List Write)
        × AreWrites schema.now mutations.now shard.old ws
        × (live (with_writes txn ws shard.old) ≤ most_nodes)
        × (shard.new ≡ with_writes txn ws shard.old)) }
    ensures fault { IfErr result
        (λ why. IsFault schema.now mutations.now shard.old why ⊎ IsFull schema.now mutations.now txn shard.old why) }
    ensures err { OnErr result (shard.new ≡ shard.old) }
{
    shard.prepare(alloc, schema, txn, mutations)?;
    shard.keeps_at_most();
    Ok(())
}

/// Notes a transaction whose writes are prepared in the slot's shard. A refusal takes the writes back.
fn note_in(
    schema: &Schema,
    journal: &mut Journal,
    shard: &mut Shard,
    owner: u64,
    txn: u64,
    slot: usize,
) -> Result<u64, Refusal>
    requires { (before : List KeyVersions)
        × BelongsAt schema.now journal.old slot before
        × IsWrittenAt schema.now (machine_of journal.old) owner txn slot before shard.old }
    ensures step { Answers (machine_of journal.old)
        (prepare schema.now (machine_of journal.old) owner txn slot)
        (as_reply reply_of.Prepared result)
        (machine_of journal.new) }
    ensures whole { (before : List KeyVersions)
        → IsWrittenAt schema.now (machine_of journal.old) owner txn slot before shard.old
        → GoesAt schema.now slot journal.old journal.new before shard.new }
{
    schema.meets_rules();
    match journal.note_prepared(owner, txn, slot) {
        Ok(timestamp) => Ok(timestamp),
        Err(why) => {
            shard.apply(txn, None);
            Err(why)
        }
    }
}

/// Applies a decided transaction at a slot, in the slot's shard.
pub fn apply_in(
    schema: &Schema,
    journal: &mut Journal,
    shard: &mut Shard,
    owner: u64,
    txn: u64,
    slot: usize,
    interval: Interval,
) -> Result<(), Refusal>
    requires { BelongsAt schema.now journal.old slot shard.old }
    ensures step { IsAnswer
        (apply_step (machine_of journal.old) owner txn slot interval)
        (as_reply (λ _. reply_of.Applied) result)
        (machine_of journal.new) }
    ensures whole { GoesAt schema.now slot journal.old journal.new shard.old shard.new }
{
    schema.meets_rules();
    match journal.note_applied(owner, txn, slot, interval) {
        Ok(committed) => {
            shard.apply(txn, committed);
            Ok(())
        }
        Err(why) => Err(why),
    }
}

/// Trims a slot to the horizon h, in the slot's shard, and returns how many versions it keeps.
pub fn trim_in(
    schema: &Schema,
    journal: &mut Journal,
    shard: &mut Shard,
    slot: usize,
    h: u64,
) -> Result<usize, Refusal>
    requires { BelongsAt schema.now journal.old slot shard.old }
    ensures step { IsAnswer
        (trim schema.now (machine_of journal.old) slot h)
        (as_reply reply_of.Trimmed result)
        (machine_of journal.new) }
    ensures whole { GoesAt schema.now slot journal.old journal.new shard.old shard.new }
{
    schema.meets_rules();
    match journal.raise_horizon(slot, h) {
        Ok(()) => {
            shard.trim(h);
            Ok(shard.live())
        }
        Err(why) => Err(why),
    }
}

/// What is to be read for a leaf of a query in a slot: the lowest uncovered part of its range there. None where pieces cover all of it.
pub fn claim(
    alloc: Global,
    schema: &Schema,
    journal: &mut Journal,
    query: u64,
    leaf: usize,
    slot: usize,
    interval: Interval,
) -> Result<Option<Gap>, Refusal>
    ensures gap { IfOk result (λ gap. IsGap (machine_of journal.old) query leaf slot interval gap) }
    ensures same { OnOk result (machine_of journal.new ≡ machine_of journal.old) }
    ensures refused { IfErr result
        (λ why. Answers (machine_of journal.old)
        (scan (machine_of journal.old) query leaf slot interval)
        (reply_of.Refused why)
        (machine_of journal.new)) }
    ensures whole { GoesWith schema.now journal.old journal.new }
{
    schema.meets_rules();
    journal.claim_gap(alloc, query, leaf, slot, interval)
}

/// Covers what was read of a leaf's range in a slot by a piece, if it is still the lowest uncovered part there: whether it is. Where it is
/// not, nothing has changed, and there may be more to claim.
pub fn register(
    alloc: Global,
    schema: &Schema,
    journal: &mut Journal,
    shard: &Shard,
    query: u64,
    leaf: usize,
    slot: usize,
    interval: Interval,
    gap: &Gap,
    piece: Piece,
) -> Result<bool, Refusal>
    requires belongs { BelongsAt schema.now journal.old slot shard.now }
    requires read { IsReadFor
        schema.now
        (machine_of journal.old)
        query
        leaf
        shard.now
        gap.now.range
        gap.now.s
        piece }
    ensures scanned { result ≡ Ok true
        → IsAnswer (scan (machine_of journal.old) query leaf slot interval) reply_of.Scanned (machine_of journal.new) }
    ensures same { result ≡ Ok false → machine_of journal.new ≡ machine_of journal.old }
    ensures refused { IfErr result
        (λ why. Answers (machine_of journal.old)
        (scan (machine_of journal.old) query leaf slot interval)
        (reply_of.Refused why)
        (machine_of journal.new)) }
    ensures whole { StaysAt schema.now slot journal.old journal.new shard.now }
{
    schema.meets_rules();
    match journal.claim_gap(alloc, query, leaf, slot, interval) {
        Ok(Some(again)) => {
            if !are_same(&again, gap) {
                return Ok(false);
            }
            match journal.register(alloc, query, leaf, slot, interval, again.range, piece) {
                Ok(()) => Ok(true),
                Err(why) => Err(why),
            }
        }
        Ok(None) => Ok(false),
        Err(why) => Err(why),
    }
}

/// Whether the two are one part of a leaf's range, read at one timestamp.
fn are_same(one: &Gap, other: &Gap) -> bool
    ensures { result ≡ true → (one.now.range ≡ other.now.range) × (one.now.s ≡ other.now.s) }
{
    one.range.low.as_slice() == other.range.low.as_slice()
        && one.range.high.as_slice() == other.range.high.as_slice()
        && one.s == other.s
}
