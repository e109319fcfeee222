//! A query that a scan refuses, since its slot is trimmed in between, is closed.
ghost use Rattle.std.specs.Prelude.{◌≡◌};

use span_board::board::Naming;
use span_board::session::Session;
use span_gather::rows::Rows;
use span_schema::schema::Schema;
use span_session::db::Db;
use span_session::open::UnnamedDb;
use span_session_fixtures::calls::{ask_by, commit_users, split};
use span_session_fixtures::clock::{OpenGate, SharedClock, Turnstile};
use span_session_fixtures::expect::expect_eq;
use span_session_fixtures::opening::{database_of, with_two_sessions};
use span_session_fixtures::users::{USERS, are_found};
use span_truetime::bound::Bound;
use span_value::owned::give_after;
use span_value::refusal::Refusal;
use std::alloc::Global;
use std::marker::Brand;
use std::sync::Wait;
use std::test::Fail;
use std::thread::{Threads, join};

// A timestamp after the first commit and before the second one.
const EARLY: u64 = 200;

// Later than that.
const HORIZON: u64 = 350;

// There can't be more queries open at once.
const MOST_QUERIES: u64 = 64;

/// Both slots are trimmed while eight workers are about to read them: the query is refused, and closed. So are as many more as may be open
/// at once, or the last one could not be opened.
pub fn refused_scans<R: Threads + Wait + Sync>(rt: &R, alloc: Global) -> Result<(), Fail> {
    let (opened, kept) = database_of(alloc, USERS, 2)?;
    by_refused::<Brand, _>(rt, alloc, opened, &kept)
}

fn by_refused<J: Naming + Send + Sync, R: Threads + Wait + Sync>(
    rt: &R,
    alloc: Global,
    opened: UnnamedDb,
    schema: &Schema,
) -> Result<(), Fail>
    requires table { opened.table ≡ J.table }
    requires schema { opened.schema ≡ J.schema }
    requires kept { schema.now ≡ J.schema }
{
    let (db, a, b) = with_two_sessions::<J>(opened)?;
    let checked = check_refused(rt, alloc, &db, schema, a, b);
    give_after(db, checked)
}

// The answers are compared when the sessions are handed over, so that no failure drops one.
fn check_refused<J: Naming + Send + Sync, R: Threads + Wait + Sync>(
    rt: &R,
    alloc: Global,
    db: &Db<J>,
    schema: &Schema,
    a: Session<J>,
    b: Session<J>,
) -> Result<(), Fail>
    requires { schema.now ≡ J.schema }
{
    let mut a = a;
    let clock = SharedClock::new();
    let cut = split(rt, db, &a, 100);
    commit_users(rt, alloc, db, &clock, schema, &mut a, 1..2)?;
    commit_users(rt, alloc, db, &clock, schema, &mut a, 200..201)?;
    let gate = Turnstile::new();
    let (found, kept) = trim_beside(rt, alloc, db, &clock, &gate, a, b);
    let found = are_found(found, &[1, 200]);
    expect_eq(cut, Ok(1), "the slot that a cut at 100 makes")?;
    expect_eq(kept, Ok(2), "how many versions the trims keep")?;
    expect_eq(
        found,
        Ok(true),
        "both users are found after the queries that are refused",
    )
}

fn trim_beside<J: Naming + Send + Sync, R: Threads + Wait + Sync>(
    rt: &R,
    alloc: Global,
    db: &Db<J>,
    clock: &SharedClock,
    gate: &Turnstile,
    a: Session<J>,
    b: Session<J>,
) -> (Result<Rows, Refusal>, Result<usize, Refusal>) {
    join(
        rt,
        || ask_refused(rt, alloc, db, clock, gate, a),
        || trim_both(rt, db, clock, gate, b),
    )
}

// Asks at the early timestamp until no more queries could be open, then asks what is there now. A refusal for anything but the trim.
fn ask_refused<J: Naming + Send + Sync, R: Threads + Wait + Sync>(
    rt: &R,
    alloc: Global,
    db: &Db<J>,
    clock: &SharedClock,
    gate: &Turnstile,
    me: Session<J>,
) -> Result<Rows, Refusal> {
    let mut me = me;
    let early = Bound::At(EARLY);
    for _ in 0..MOST_QUERIES {
        match ask_by(rt, alloc, db, clock, gate, &mut me, early, 8) {
            Err(Refusal::Trimmed) => (),
            Ok(_) => return Err(Refusal::WrongState),
            Err(why) => return Err(why),
        }
    }
    ask_by(rt, alloc, db, clock, &OpenGate, &mut me, Bound::Strong, 8)
}

// Trims both slots once a scan has come, and lets the scans through: how many versions they keep together.
fn trim_both<J: Naming, R: Wait>(
    rt: &R,
    db: &Db<J>,
    clock: &SharedClock,
    gate: &Turnstile,
    me: Session<J>,
) -> Result<usize, Refusal> {
    gate.wait();
    let trimmed = trim_slots(rt, db, clock, &me);
    gate.open();
    trimmed
}

fn trim_slots<J: Naming, R: Wait>(
    rt: &R,
    db: &Db<J>,
    clock: &SharedClock,
    me: &Session<J>,
) -> Result<usize, Refusal> {
    let mut kept: usize = 0;
    for slot in 0..2 {
        db.advance(rt, clock, me, slot)?;
        kept = kept.saturating_add(db.trim(rt, me, slot, HORIZON)?);
    }
    Ok(kept)
}
