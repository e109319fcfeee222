//! Sixteen sessions, on a thread each.
ghost use Rattle.std.specs.Prelude.{◌≡◌};

use span_board::board::Naming;
use span_board::session::Session;
use span_schema::schema::Schema;
use span_session::db::Db;
use span_session::open::UnnamedDb;
use span_session_fixtures::calls::{ask, commit_users};
use span_session_fixtures::clock::{OpenGate, SharedClock};
use span_session_fixtures::expect::expect_eq;
use span_session_fixtures::opening::database_of;
use span_session_fixtures::users::{USERS, expect_uids};
use span_value::owned::give_after;
use span_value::refusal::Refusal;
use std::alloc::{AllocError, Global};
use std::marker::Brand;
use std::sync::Wait;
use std::test::Fail;
use std::thread;
use std::thread::Threads;

const CALLERS: u64 = 16;

const COUNT: &str = "SELECT COUNT(*) FROM Users";

/// Sixteen threads commit ten users each; then each session sees all 160, by `look` and by strong queries of one worker and
/// of eight.
pub fn sixteen_callers<R: Threads + Wait + Sync>(rt: &R, alloc: Global) -> Result<(), Fail> {
    let (opened, kept) = database_of(alloc, USERS, CALLERS)?;
    by_callers::<Brand, _>(rt, alloc, opened, &kept)
}

fn by_callers<J: Naming + Send + Sync, R: Threads + Wait + Sync>(
    rt: &R,
    alloc: Global,
    opened: UnnamedDb,
    schema: &Schema,
) -> Result<(), Fail>
    requires table { opened.table ≡ J.table }
    requires schema { opened.schema ≡ J.schema }
    requires kept { schema.now ≡ J.schema }
{
    let (db, sessions) = opened.into_database::<J>()?;
    let checked = check_callers(rt, alloc, &db, schema, sessions);
    give_after(db, checked)
}

fn check_callers<J: Naming + Send + Sync, R: Threads + Wait + Sync>(
    rt: &R,
    alloc: Global,
    db: &Db<J>,
    schema: &Schema,
    sessions: Vec<Session<J>>,
) -> Result<(), Fail>
    requires { schema.now ≡ J.schema }
{
    let clock = SharedClock::new();
    let ends = call_all(rt, alloc, db, &clock, schema, sessions)?;
    let count = ends.len();
    for end in ends {
        check_end(rt, alloc, db, &clock, end?)?;
    }
    expect_eq(count, 16, "how many threads have ended")
}

// A session after its commits, or why one was refused.
type End<J> = Result<Session<J>, Refusal>;

fn call_all<J: Naming + Send + Sync, R: Threads + Wait + Sync>(
    rt: &R,
    alloc: Global,
    db: &Db<J>,
    clock: &SharedClock,
    schema: &Schema,
    sessions: Vec<Session<J>>,
) -> Result<Vec<End<J>>, AllocError>
    requires { schema.now ≡ J.schema }
{
    thread::map_vec(
        rt,
        sessions,
        &|me| -> End<J>
            requires { schema.now ≡ J.schema }
        { call(rt, alloc, db, clock, schema, me) },
    )
}

// Commits ten users that no other session commits.
fn call<J: Naming, R: Wait>(
    rt: &R,
    alloc: Global,
    db: &Db<J>,
    clock: &SharedClock,
    schema: &Schema,
    me: Session<J>,
) -> End<J>
    requires { schema.now ≡ J.schema }
{
    let mut me = me;
    let first = (me.owner() % CALLERS) as u32 * 10;
    commit_users(rt, alloc, db, clock, schema, &mut me, first..first + 10)?;
    Ok(me)
}

fn check_end<J: Naming + Send + Sync, R: Threads + Wait + Sync>(
    rt: &R,
    alloc: Global,
    db: &Db<J>,
    clock: &SharedClock,
    me: Session<J>,
) -> Result<(), Fail> {
    let mut me = me;
    check_seen(rt, alloc, db, clock, &mut me)
}

// The session is lent, so that no failure drops it.
fn check_seen<J: Naming + Send + Sync, R: Threads + Wait + Sync>(
    rt: &R,
    alloc: Global,
    db: &Db<J>,
    clock: &SharedClock,
    me: &mut Session<J>,
) -> Result<(), Fail> {
    expect_eq(db.look(me), 160, "how many commits a session sees")?;
    let one = ask(rt, alloc, db, clock, &OpenGate, me, COUNT, 1);
    expect_uids(one, &[160], "the number of users, by one worker")?;
    let eight = ask(rt, alloc, db, clock, &OpenGate, me, COUNT, 8);
    expect_uids(eight, &[160], "the number of users, by eight workers")
}
