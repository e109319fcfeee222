//! Two sessions of one database, in slot 0.
ghost use Rattle.std.specs.Prelude.{◌≡◌};

use span_board::board::Naming;
use span_board::session::Session;
use span_params::params::Params;
use span_schema::schema::Schema;
use span_session::db::Db;
use span_session::open::UnnamedDb;
use span_session_fixtures::calls::ask_by;
use span_session_fixtures::clock::{OpenGate, SharedClock};
use span_session_fixtures::expect::expect_eq;
use span_session_fixtures::opening::{database_of, with_two_sessions};
use span_session_fixtures::users::{UIDS, USERS, are_uids, expect_uids, insert};
use span_truetime::bound::Bound;
use span_value::owned::give_after;
use span_value::refusal::Refusal;
use std::alloc::Global;
use std::marker::Brand;
use std::sync::Wait;
use std::test::Fail;
use std::thread::Threads;

/// Each commit is answered the timestamp after the clock's latest; a strong query of either session sees both.
pub fn commit_and_query<R: Threads + Wait + Sync>(rt: &R, alloc: Global) -> Result<(), Fail> {
    let (opened, kept) = database_of(alloc, USERS, 2)?;
    by_two::<Brand, _>(rt, alloc, opened, &kept)
}

fn by_two<J: Naming + Send + Sync, R: Threads + Wait + Sync>(
    rt: &R,
    alloc: Global,
    opened: UnnamedDb,
    schema: &Schema,
) -> Result<(), Fail>
    requires table { opened.table ≡ J.table }
    requires schema { opened.schema ≡ J.schema }
    requires kept { schema.now ≡ J.schema }
{
    let (db, a, b) = with_two_sessions::<J>(opened)?;
    let checked = check_sessions(rt, alloc, &db, schema, a, b);
    give_after(db, checked)
}

fn check_sessions<J: Naming + Send + Sync, R: Threads + Wait + Sync>(
    rt: &R,
    alloc: Global,
    db: &Db<J>,
    schema: &Schema,
    a: Session<J>,
    b: Session<J>,
) -> Result<(), Fail>
    requires { schema.now ≡ J.schema }
{
    let (mut a, mut b) = (a, b);
    check_answers(rt, alloc, db, schema, &mut a, &mut b)
}

// Each session commits; then what they are answered. The sessions are lent, so that no failure drops one.
fn check_answers<J: Naming + Send + Sync, R: Threads + Wait + Sync>(
    rt: &R,
    alloc: Global,
    db: &Db<J>,
    schema: &Schema,
    a: &mut Session<J>,
    b: &mut Session<J>,
) -> Result<(), Fail>
    requires { schema.now ≡ J.schema }
{
    let clock = SharedClock::new();
    let first = insert(alloc, schema, 1)?;
    let one = db.commit(rt, &clock, a, first);
    expect_eq(one, Ok(111), "the timestamp of the first commit")?;
    let second = insert(alloc, schema, 2)?;
    let two = db.commit(rt, &clock, b, second);
    expect_eq(two, Ok(311), "the timestamp of the second commit")?;
    let strong = ask_strong(rt, alloc, db, &clock, a);
    expect_eq(
        strong,
        Ok((510, true)),
        "the timestamp of a strong query, and whether it finds both users",
    )?;
    let eight = ask_by(rt, alloc, db, &clock, &OpenGate, a, Bound::Strong, 8);
    expect_uids(eight, &[1, 2], "the users by eight workers")?;
    let before = ask_by(rt, alloc, db, &clock, &OpenGate, b, Bound::At(200), 8);
    expect_uids(before, &[1], "the users between the commits")?;
    expect_eq(db.look(a), 2, "how many commits the first session sees")?;
    expect_eq(db.look(b), 2, "how many commits the second session sees")
}

// The timestamp of a strong query by one worker, and whether it found both users.
fn ask_strong<J: Naming + Send + Sync, R: Threads + Wait + Sync>(
    rt: &R,
    alloc: Global,
    db: &Db<J>,
    clock: &SharedClock,
    me: &mut Session<J>,
) -> Result<(u64, bool), Refusal> {
    let params = Params::new(alloc);
    let answer = db.query(rt, clock, &OpenGate, me, UIDS, &params, Bound::Strong, 1)?;
    let is_both = are_uids(&answer.rows, &[1, 2]);
    Ok((answer.s, is_both))
}
