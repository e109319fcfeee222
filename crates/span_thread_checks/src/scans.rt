//! Scans of two sessions, on a thread each.
ghost use Rattle.std.specs.Prelude.{◌≡◌};

use span_board::board::Naming;
use span_board::session::Session;
use span_gather::rows::Rows;
use span_schema::schema::Schema;
use span_session::db::Db;
use span_session::open::UnnamedDb;
use span_session_fixtures::calls::{ask, commit_users, split};
use span_session_fixtures::clock::{Meeting, SharedClock};
use span_session_fixtures::expect::expect_eq;
use span_session_fixtures::opening::{database_of, with_two_sessions};
use span_session_fixtures::users::{USERS, are_found};
use span_value::owned::give_after;
use span_value::refusal::Refusal;
use std::alloc::Global;
use std::marker::Brand;
use std::sync::Wait;
use std::test::Fail;
use std::thread::{Threads, join};

const LOW_UIDS: &str = "SELECT uid FROM Users WHERE uid < 100";

const HIGH_UIDS: &str = "SELECT uid FROM Users WHERE uid >= 100";

/// Two scans are under way at once, each with the lock of its own slot held: each waits until the other has been called.
pub fn two_scans_at_once<R: Threads + Wait + Sync>(rt: &R, alloc: Global) -> Result<(), Fail> {
    let (opened, kept) = database_of(alloc, USERS, 2)?;
    by_scans::<Brand, _>(rt, alloc, opened, &kept)
}

fn by_scans<J: Naming + Send + Sync, R: Threads + Wait + Sync>(
    rt: &R,
    alloc: Global,
    opened: UnnamedDb,
    schema: &Schema,
) -> Result<(), Fail>
    requires table { opened.table ≡ J.table }
    requires schema { opened.schema ≡ J.schema }
    requires kept { schema.now ≡ J.schema }
{
    let (db, a, b) = with_two_sessions::<J>(opened)?;
    let checked = check_scans(rt, alloc, &db, schema, a, b);
    give_after(db, checked)
}

// The answers are compared when the sessions are handed over, so that no failure drops one.
fn check_scans<J: Naming + Send + Sync, R: Threads + Wait + Sync>(
    rt: &R,
    alloc: Global,
    db: &Db<J>,
    schema: &Schema,
    a: Session<J>,
    b: Session<J>,
) -> Result<(), Fail>
    requires { schema.now ≡ J.schema }
{
    let (mut a, mut b) = (a, b);
    let clock = SharedClock::new();
    let cut = split(rt, db, &a, 100);
    commit_users(rt, alloc, db, &clock, schema, &mut a, 1..2)?;
    commit_users(rt, alloc, db, &clock, schema, &mut b, 200..201)?;
    let gate = Meeting::new();
    let (low, high) = scan_both(rt, alloc, db, &clock, &gate, a, b);
    let low = are_found(low, &[1]);
    let high = are_found(high, &[200]);
    expect_eq(cut, Ok(1), "the slot that a cut at 100 makes")?;
    expect_eq(low, Ok(true), "the user of slot 0 is found")?;
    expect_eq(high, Ok(true), "the user of slot 1 is found")?;
    expect_eq(gate.meetings(), 2, "how many scans have met another one")
}

// Each session reads a slot of its own, on a thread of its own.
fn scan_both<J: Naming + Send + Sync, R: Threads + Wait + Sync>(
    rt: &R,
    alloc: Global,
    db: &Db<J>,
    clock: &SharedClock,
    gate: &Meeting,
    a: Session<J>,
    b: Session<J>,
) -> (Result<Rows, Refusal>, Result<Rows, Refusal>) {
    join(
        rt,
        || scan_as(rt, alloc, db, clock, gate, a, LOW_UIDS),
        || scan_as(rt, alloc, db, clock, gate, b, HIGH_UIDS),
    )
}

// Asks as a session, which is dropped.
fn scan_as<J: Naming + Send + Sync, R: Threads + Wait + Sync>(
    rt: &R,
    alloc: Global,
    db: &Db<J>,
    clock: &SharedClock,
    gate: &Meeting,
    me: Session<J>,
    text: &str,
) -> Result<Rows, Refusal> {
    let mut me = me;
    ask(rt, alloc, db, clock, gate, &mut me, text, 1)
}
