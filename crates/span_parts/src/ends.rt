//! How transactions and queries end, for a caller that has the journal alone, as it has it who holds its lock: what a commit adds to the
//! log, and what a query is answered by once it is closed.
ghost use Rattle.std.specs.Prelude.{◌≡◌, List, IfOk, IfErr, OnErr, MatchResult, Some, None};
ghost use Rattle.span_query.specs.Rows.{Row};
ghost use Rattle.span_gather.specs.Gathered.{gathered};
ghost use Rattle.span_machine.specs.Machine.{IsAnswer, decide, close, finish, refused};
ghost use Rattle.span_machine.specs.Pieces.{machine_of};
ghost use Rattle.span_machine.specs.declared.step.Reply.TheVariants as reply_of;
ghost use Rattle.span_parts.specs.Asked.{IsQuestionOf};
ghost use Rattle.span_parts.specs.Replies.{as_reply};
ghost use Rattle.span_parts.specs.Whole.{Shards, IsWhole, GoesWith, IsCommitted, AreMeant, IsFaulty};

use super::steps::decide;
use span_journal::journal::Journal;
use span_machine::step::Verdict;
use span_openqueries::taken::Taken;
use span_schema::schema::Schema;
use span_truetime::interval::Interval;
use span_value::refusal::Refusal;
use std::alloc::Global;

/// Commits a transaction, and returns its commit timestamp. A refusal leaves all as it was.
pub fn commit(
    alloc: Global,
    schema: &Schema,
    journal: &mut Journal,
    owner: u64,
    txn: u64,
    interval: Interval,
) -> Result<u64, Refusal>
    ensures committed { MatchResult result
        (λ ts. IsCommitted (machine_of journal.old) owner txn ts (machine_of journal.new))
        (λ why. machine_of journal.new ≡ machine_of journal.old) }
    ensures reply { as_reply reply_of.Decided result
        ≡ (decide schema.now (machine_of journal.old) owner txn Verdict.Commit interval).0 }
    ensures whole { GoesWith schema.now journal.old journal.new }
{
    match decide(
        alloc,
        schema,
        journal,
        owner,
        txn,
        Verdict::Commit,
        interval,
    ) {
        Ok(Some(timestamp)) => Ok(timestamp),
        Ok(None) => unreachable!(),
        Err(why) => Err(why),
    }
}

/// Closes a query whose leaves pieces cover, and returns what it is answered by: where the query above the leaves gives rows on the
/// pieces, they are what its statement means on the tables of the log at its timestamp; where it gives a fault there, that means one.
/// The refusal is that of the query's end, and leaves all as it was.
pub fn take(schema: &Schema, journal: &mut Journal, query: u64) -> Result<Taken, Refusal>
    ensures meant { IfOk result
        (λ taken. (shards : Shards)
        → IsWhole schema.now journal.old shards
        → (rows : List Row)
        → gathered taken.pieces taken.top ≡ Some rows
        → AreMeant schema.now journal.old.log taken rows) }
    ensures fault { IfOk result
        (λ taken. (shards : Shards)
        → IsWhole schema.now journal.old shards
        → gathered taken.pieces taken.top ≡ None
        → IsFaulty schema.now journal.old.log taken) }
    ensures asked { IfOk result (IsQuestionOf (machine_of journal.old) query) }
    ensures closed { IfOk result
        (λ _. IsAnswer (close (machine_of journal.old) query) reply_of.Closed (machine_of journal.new)) }
    ensures refused { IfErr result
        (λ why. finish schema.now (machine_of journal.old) query ≡ refused (machine_of journal.old) why) }
    ensures err { OnErr result (machine_of journal.new ≡ machine_of journal.old) }
    ensures whole { GoesWith schema.now journal.old journal.new }
{
    schema.meets_rules();
    journal.take_pieces(query)
}
