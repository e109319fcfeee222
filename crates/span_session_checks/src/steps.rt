//! Transactions of one session step by step, and over two slots.
ghost use Rattle.std.specs.Prelude.{◌≡◌};

use span_board::board::Naming;
use span_board::session::Session;
use span_machine::step::Verdict;
use span_schema::schema::Schema;
use span_session::db::Db;
use span_session::open::UnnamedDb;
use span_session_fixtures::calls::{split, users};
use span_session_fixtures::clock::{SharedClock, Still};
use span_session_fixtures::expect::expect_eq;
use span_session_fixtures::opening::{database_of, with_session};
use span_session_fixtures::users::{TABLES, both, expect_uids, insert, insert_all, insert_into};
use span_truetime::bound::Bound;
use span_truetime::interval::Interval;
use span_value::owned::give_after;
use span_value::refusal::Refusal;
use std::alloc::Global;
use std::marker::Brand;
use std::sync::Wait;
use std::test::Fail;
use std::thread::Threads;

/// Begin, Prepare, Decide and Apply of one transaction, each by a call of its own.
pub fn step_by_step<R: Threads + Wait + Sync>(rt: &R, alloc: Global) -> Result<(), Fail> {
    let (opened, kept) = database_of(alloc, TABLES, 1)?;
    by_one::<Brand, _>(rt, alloc, opened, &kept)
}

fn by_one<J: Naming + Send + Sync, R: Threads + Wait + Sync>(
    rt: &R,
    alloc: Global,
    opened: UnnamedDb,
    schema: &Schema,
) -> Result<(), Fail>
    requires table { opened.table ≡ J.table }
    requires schema { opened.schema ≡ J.schema }
    requires kept { schema.now ≡ J.schema }
{
    let (db, me) = with_session::<J>(opened)?;
    let checked = check_steps(rt, alloc, &db, schema, me);
    give_after(db, checked)
}

fn check_steps<J: Naming + Send + Sync, R: Threads + Wait + Sync>(
    rt: &R,
    alloc: Global,
    db: &Db<J>,
    schema: &Schema,
    me: Session<J>,
) -> Result<(), Fail>
    requires { schema.now ≡ J.schema }
{
    let mut me = me;
    check_committed(rt, alloc, db, schema, &mut me)?;
    check_aborted(rt, alloc, db, schema, &mut me)?;
    let all = users(rt, alloc, db, &late(), &mut me, Bound::Strong);
    expect_uids(all, &[1], "the user that was committed alone")
}

fn early() -> Still {
    Still {
        reading: Interval {
            earliest: 100,
            latest: 110,
        },
    }
}

fn late() -> Still {
    Still {
        reading: Interval {
            earliest: 200,
            latest: 210,
        },
    }
}

// A transaction is committed at 111. It is unknown to another decision, and applied once the clock has passed that.
fn check_committed<J: Naming, R: Wait>(
    rt: &R,
    alloc: Global,
    db: &Db<J>,
    schema: &Schema,
    me: &mut Session<J>,
) -> Result<(), Fail>
    requires { schema.now ≡ J.schema }
{
    let transaction = insert(alloc, schema, 1)?;
    let begun = db.begin(rt, me, transaction);
    expect_eq(begun, Ok(1), "the first transaction's number")?;
    let prepared = db.prepare(rt, me, 1, 0);
    expect_eq(prepared, Ok(()), "a Prepare in slot 0")?;
    let committed = db.decide(rt, &early(), me, 1, Verdict::Commit);
    expect_eq(
        committed,
        Ok(Some(111)),
        "the timestamp after the clock's latest",
    )?;
    let again = db.decide(rt, &early(), me, 1, Verdict::Commit);
    expect_eq(again, Err(Refusal::UnknownTransaction), "a second decision")?;
    let too_early = db.apply(rt, &early(), me, 1, 0);
    expect_eq(
        too_early,
        Err(Refusal::TooEarly),
        "an Apply before the timestamp has passed",
    )?;
    let applied = db.apply(rt, &late(), me, 1, 0);
    expect_eq(applied, Ok(()), "an Apply once it has passed")
}

// A transaction is aborted, and the session has still seen one commit.
fn check_aborted<J: Naming, R: Wait>(
    rt: &R,
    alloc: Global,
    db: &Db<J>,
    schema: &Schema,
    me: &mut Session<J>,
) -> Result<(), Fail>
    requires { schema.now ≡ J.schema }
{
    let transaction = insert(alloc, schema, 2)?;
    let begun = db.begin(rt, me, transaction);
    expect_eq(begun, Ok(2), "the second transaction's number")?;
    let aborted = db.decide(rt, &late(), me, 2, Verdict::Abort);
    expect_eq(aborted, Ok(None), "a decision to abort")?;
    expect_eq(db.look(me), 1, "how many commits are seen")
}

/// A commit over two slots; one that is refused at its second slot leaves nothing prepared; a trim and a risen floor.
pub fn two_slots<R: Threads + Wait + Sync>(rt: &R, alloc: Global) -> Result<(), Fail> {
    let (opened, kept) = database_of(alloc, TABLES, 1)?;
    by_slots::<Brand, _>(rt, alloc, opened, &kept)
}

fn by_slots<J: Naming + Send + Sync, R: Threads + Wait + Sync>(
    rt: &R,
    alloc: Global,
    opened: UnnamedDb,
    schema: &Schema,
) -> Result<(), Fail>
    requires table { opened.table ≡ J.table }
    requires schema { opened.schema ≡ J.schema }
    requires kept { schema.now ≡ J.schema }
{
    let (db, me) = with_session::<J>(opened)?;
    let checked = check_slots(rt, alloc, &db, schema, me);
    give_after(db, checked)
}

fn check_slots<J: Naming + Send + Sync, R: Threads + Wait + Sync>(
    rt: &R,
    alloc: Global,
    db: &Db<J>,
    schema: &Schema,
    me: Session<J>,
) -> Result<(), Fail>
    requires { schema.now ≡ J.schema }
{
    let mut me = me;
    check_commits(rt, alloc, db, schema, &mut me)?;
    check_trim(rt, alloc, db, &mut me)
}

// The transaction that is refused at its second slot leaves nothing prepared at the first, which is then cut; the other commits at 211.
fn check_commits<J: Naming + Send + Sync, R: Threads + Wait + Sync>(
    rt: &R,
    alloc: Global,
    db: &Db<J>,
    schema: &Schema,
    me: &mut Session<J>,
) -> Result<(), Fail>
    requires { schema.now ≡ J.schema }
{
    let clock = SharedClock::new();
    let cut = split(rt, db, me, 100);
    expect_eq(cut, Ok(1), "the slot that a cut at 100 makes")?;
    let first = insert_into(alloc, "Users", &[1])?;
    let orphan = insert_into(alloc, "Albums", &[300, 1])?;
    let wrong = both(alloc, schema, first, orphan)?;
    let refused = db.commit(rt, &clock, me, wrong);
    expect_eq(
        refused,
        Err(Refusal::ParentMissing),
        "a commit of an album without its user",
    )?;
    let cut_again = split(rt, db, me, 50);
    expect_eq(cut_again, Ok(2), "the slot that a cut at 50 makes")?;
    let none = users(rt, alloc, db, &early(), me, Bound::Strong);
    expect_uids(none, &[], "the users before a commit")?;
    let right = insert_all(alloc, schema, &[1, 200])?;
    let committed = db.commit(rt, &clock, me, right);
    expect_eq(
        committed,
        Ok(211),
        "the timestamp of a commit over two slots",
    )
}

// Both users are there; where slot 0 is trimmed, what was before is refused.
fn check_trim<J: Naming + Send + Sync, R: Threads + Wait + Sync>(
    rt: &R,
    alloc: Global,
    db: &Db<J>,
    me: &mut Session<J>,
) -> Result<(), Fail> {
    let late = Still {
        reading: Interval {
            earliest: 900,
            latest: 910,
        },
    };
    let all = users(rt, alloc, db, &late, me, Bound::Strong);
    expect_uids(all, &[1, 200], "the users of both slots")?;
    let floor = db.advance(rt, &late, me, 0);
    expect_eq(floor, Ok(910), "the floor of slot 0")?;
    let kept = db.trim(rt, me, 0, 900);
    expect_eq(kept, Ok(1), "how many versions a trim of slot 0 keeps")?;
    let old = users(rt, alloc, db, &late, me, Bound::At(400));
    expect_eq(old.err(), Some(Refusal::Trimmed), "a query below the trim")
}
