//! Queries that several workers scan.
ghost use Rattle.std.specs.Prelude.{◌≡◌};

use span_board::board::Naming;
use span_board::session::Session;
use span_schema::schema::Schema;
use span_session::db::Db;
use span_session::open::UnnamedDb;
use span_session_fixtures::calls::{ask_by, commit_users, split};
use span_session_fixtures::clock::{Meeting, OpenGate, SharedClock};
use span_session_fixtures::expect::expect_eq;
use span_session_fixtures::opening::{database_of, with_session};
use span_session_fixtures::users::{USERS, expect_uids};
use span_truetime::bound::Bound;
use span_value::owned::give_after;
use span_value::refusal::Refusal;
use std::alloc::Global;
use std::marker::Brand;
use std::sync::Wait;
use std::test::Fail;
use std::thread::Threads;

/// Two workers scan at once, each with the lock of its own slot held; one, two and eight give the same rows. A refusal ends all of them.
pub fn two_workers<R: Threads + Wait + Sync>(rt: &R, alloc: Global) -> Result<(), Fail> {
    let (opened, kept) = database_of(alloc, USERS, 1)?;
    by_workers::<Brand, _>(rt, alloc, opened, &kept)
}

fn by_workers<J: Naming + Send + Sync, R: Threads + Wait + Sync>(
    rt: &R,
    alloc: Global,
    opened: UnnamedDb,
    schema: &Schema,
) -> Result<(), Fail>
    requires table { opened.table ≡ J.table }
    requires schema { opened.schema ≡ J.schema }
    requires kept { schema.now ≡ J.schema }
{
    let (db, me) = with_session::<J>(opened)?;
    let checked = check_workers(rt, alloc, &db, schema, me);
    give_after(db, checked)
}

fn check_workers<J: Naming + Send + Sync, R: Threads + Wait + Sync>(
    rt: &R,
    alloc: Global,
    db: &Db<J>,
    schema: &Schema,
    me: Session<J>,
) -> Result<(), Fail>
    requires { schema.now ≡ J.schema }
{
    let mut me = me;
    check_queries(rt, alloc, db, schema, &mut me)
}

// The session is lent, so that no failure drops it.
fn check_queries<J: Naming + Send + Sync, R: Threads + Wait + Sync>(
    rt: &R,
    alloc: Global,
    db: &Db<J>,
    schema: &Schema,
    me: &mut Session<J>,
) -> Result<(), Fail>
    requires { schema.now ≡ J.schema }
{
    let clock = SharedClock::new();
    let cut = split(rt, db, me, 100);
    expect_eq(cut, Ok(1), "the slot that a cut at 100 makes")?;
    commit_users(rt, alloc, db, &clock, schema, me, 1..2)?;
    commit_users(rt, alloc, db, &clock, schema, me, 200..201)?;
    let gate = Meeting::new();
    let met = ask_by(rt, alloc, db, &clock, &gate, me, Bound::Strong, 2);
    expect_uids(met, &[1, 200], "the users by two workers")?;
    expect_eq(gate.meetings(), 2, "how many scans have met another one")?;
    let before = clock.readings();
    let one = ask_by(rt, alloc, db, &clock, &OpenGate, me, Bound::Strong, 1);
    expect_uids(one, &[1, 200], "the users by one worker")?;
    // One for s, one for each of two scans, and one each time a slot was found covered.
    let readings = clock.readings().saturating_sub(before);
    expect_eq(readings, 5, "how often the clock is read")?;
    let eight = ask_by(rt, alloc, db, &clock, &OpenGate, me, Bound::Strong, 8);
    expect_uids(eight, &[1, 200], "the users by eight workers")?;
    let early = Bound::At(1_000_000_000);
    let refused = ask_by(rt, alloc, db, &clock, &OpenGate, me, early, 8);
    expect_eq(
        refused.err(),
        Some(Refusal::NotYet),
        "a query above the clock",
    )?;
    expect_eq(db.look(me), 2, "how many commits are seen")
}
