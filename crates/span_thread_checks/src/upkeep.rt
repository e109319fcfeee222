//! A session's answers while another one cuts slots, trims them and raises their floors.
ghost use Rattle.std.specs.Prelude.{◌≡◌};

use span_board::board::Naming;
use span_board::session::Session;
use span_schema::schema::Schema;
use span_session::db::Db;
use span_session::open::UnnamedDb;
use span_session_fixtures::calls::{ask, commit_users, split};
use span_session_fixtures::clock::{OpenGate, SharedClock};
use span_session_fixtures::expect::expect_eq;
use span_session_fixtures::opening::{database_of, with_two_sessions};
use span_session_fixtures::users::{UIDS, USERS, are_uids};
use span_value::owned::give_after;
use span_value::refusal::Refusal;
use std::alloc::Global;
use std::marker::Brand;
use std::sync::Wait;
use std::test::Fail;
use std::thread::{Threads, join};

const ALL: [i64; 8] = [1, 2, 3, 4, 5, 6, 7, 8];

// How often the one session asks, and by how many workers.
const QUERIES: u64 = 40;

const WORKERS: usize = 4;

// Later than each commit, and before each answer: the clock was read twice for each of eight commits.
const HORIZON: u64 = 1_650;

/// One thread asks, and is answered the same each time; another cuts the slot of each user, and trims it.
pub fn answers_beside_upkeep<R: Threads + Wait + Sync>(rt: &R, alloc: Global) -> Result<(), Fail> {
    let (opened, kept) = database_of(alloc, USERS, 2)?;
    by_upkeep::<Brand, _>(rt, alloc, opened, &kept)
}

fn by_upkeep<J: Naming + Send + Sync, R: Threads + Wait + Sync>(
    rt: &R,
    alloc: Global,
    opened: UnnamedDb,
    schema: &Schema,
) -> Result<(), Fail>
    requires table { opened.table ≡ J.table }
    requires schema { opened.schema ≡ J.schema }
    requires kept { schema.now ≡ J.schema }
{
    let (db, a, b) = with_two_sessions::<J>(opened)?;
    let checked = check_upkeep(rt, alloc, &db, schema, a, b);
    give_after(db, checked)
}

// The answers are compared when the sessions are handed over, so that no failure drops one.
fn check_upkeep<J: Naming + Send + Sync, R: Threads + Wait + Sync>(
    rt: &R,
    alloc: Global,
    db: &Db<J>,
    schema: &Schema,
    a: Session<J>,
    b: Session<J>,
) -> Result<(), Fail>
    requires { schema.now ≡ J.schema }
{
    let mut a = a;
    let clock = SharedClock::new();
    commit_users(rt, alloc, db, &clock, schema, &mut a, 1..9)?;
    let seen = db.look(&mut a);
    let (same, kept) = beside(rt, alloc, db, &clock, a, b);
    expect_eq(seen, 8, "how many commits are seen")?;
    expect_eq(same, Ok(true), "each answer has all users")?;
    expect_eq(kept, Ok(8), "how many versions the trims keep")
}

fn beside<J: Naming + Send + Sync, R: Threads + Wait + Sync>(
    rt: &R,
    alloc: Global,
    db: &Db<J>,
    clock: &SharedClock,
    a: Session<J>,
    b: Session<J>,
) -> (Result<bool, Refusal>, Result<usize, Refusal>) {
    join(
        rt,
        || asks(rt, alloc, db, clock, a),
        || keeps_up(rt, db, clock, b),
    )
}

// Asks again and again: whether each answer was all users.
fn asks<J: Naming + Send + Sync, R: Threads + Wait + Sync>(
    rt: &R,
    alloc: Global,
    db: &Db<J>,
    clock: &SharedClock,
    me: Session<J>,
) -> Result<bool, Refusal> {
    let mut me = me;
    for _ in 0..QUERIES {
        let rows = ask(rt, alloc, db, clock, &OpenGate, &mut me, UIDS, WORKERS)?;
        if !are_uids(&rows, &ALL) {
            return Ok(false);
        }
    }
    Ok(true)
}

// Cuts at each user but the first, from the last one on, then trims each slot: how many versions they keep together.
fn keeps_up<J: Naming, R: Wait>(
    rt: &R,
    db: &Db<J>,
    clock: &SharedClock,
    me: Session<J>,
) -> Result<usize, Refusal> {
    for place in 1..8 {
        split(rt, db, &me, ALL[8 - place])?;
    }
    let mut kept: usize = 0;
    for slot in 0..8 {
        db.advance(rt, clock, &me, slot)?;
        kept = kept.saturating_add(db.trim(rt, &me, slot, HORIZON)?);
    }
    Ok(kept)
}
