//! Commits over all sixteen slots, and commits that are refused at their second slot.
ghost use Rattle.std.specs.Prelude.{◌≡◌};

use span_board::board::Naming;
use span_board::session::Session;
use span_machine::step::Verdict;
use span_mutate::mutation::{Mutation, MutationKind};
use span_schema::schema::Schema;
use span_session::db::Db;
use span_session::open::UnnamedDb;
use span_session_fixtures::calls::{ask, split};
use span_session_fixtures::clock::{OpenGate, SharedClock};
use span_session_fixtures::expect::{expect, expect_eq};
use span_session_fixtures::opening::{database_of, with_two_sessions};
use span_session_fixtures::users::{
    FALLING_UIDS, TABLES, UIDS, both, change, expect_uids, insert, insert_all, insert_into,
};
use span_value::owned::give_after;
use span_value::refusal::Refusal;
use std::alloc::Global;
use std::marker::Brand;
use std::sync::Wait;
use std::test::Fail;
use std::thread::Threads;

// Where slots are cut.
const CUTS: [i64; 15] = [
    100, 200, 300, 400, 500, 600, 700, 800, 900, 1000, 1100, 1200, 1300, 1400, 1500,
];

// A user in each of the sixteen slots.
const ALL: [i64; 16] = [
    1, 101, 201, 301, 401, 501, 601, 701, 801, 901, 1001, 1101, 1201, 1301, 1401, 1501,
];

// The same from the last on.
const FALLING: [i64; 16] = [
    1501, 1401, 1301, 1201, 1101, 1001, 901, 801, 701, 601, 501, 401, 301, 201, 101, 1,
];

/// One commit of a user in each of the sixteen slots; commits that are refused at their second slot, by each of the causes that rows and other
/// transactions give, leave nothing prepared at their first.
pub fn sixteen_slots<R: Threads + Wait + Sync>(rt: &R, alloc: Global) -> Result<(), Fail> {
    let (opened, kept) = database_of(alloc, TABLES, 2)?;
    by_all::<Brand, _>(rt, alloc, opened, &kept)
}

fn by_all<J: Naming + Send + Sync, R: Threads + Wait + Sync>(
    rt: &R,
    alloc: Global,
    opened: UnnamedDb,
    schema: &Schema,
) -> Result<(), Fail>
    requires table { opened.table ≡ J.table }
    requires schema { opened.schema ≡ J.schema }
    requires kept { schema.now ≡ J.schema }
{
    let (db, a, b) = with_two_sessions::<J>(opened)?;
    let checked = check_all(rt, alloc, &db, schema, a, b);
    give_after(db, checked)
}

fn check_all<J: Naming + Send + Sync, R: Threads + Wait + Sync>(
    rt: &R,
    alloc: Global,
    db: &Db<J>,
    schema: &Schema,
    a: Session<J>,
    b: Session<J>,
) -> Result<(), Fail>
    requires { schema.now ≡ J.schema }
{
    let (mut a, mut b) = (a, b);
    let clock = SharedClock::new();
    check_commit(rt, alloc, db, schema, &clock, &mut a)?;
    check_faults(rt, alloc, db, schema, &clock, &mut a)?;
    check_conflict(rt, alloc, db, schema, &clock, &mut a, &mut b)
}

// Sixteen slots, and a commit over all of them.
fn check_commit<J: Naming + Send + Sync, R: Threads + Wait + Sync>(
    rt: &R,
    alloc: Global,
    db: &Db<J>,
    schema: &Schema,
    clock: &SharedClock,
    me: &mut Session<J>,
) -> Result<(), Fail>
    requires { schema.now ≡ J.schema }
{
    for place in 0..15 {
        let cut = split(rt, db, me, CUTS[place]);
        expect_eq(cut, Ok(place + 1), "the slot that the next cut makes")?;
    }
    let all = insert_all(alloc, schema, &ALL)?;
    let committed = db.commit(rt, clock, me, all);
    expect_eq(
        committed,
        Ok(111),
        "the timestamp of a commit over sixteen slots",
    )?;
    expect_eq(db.look(me), 1, "how many commits are seen")?;
    let found = ask(rt, alloc, db, clock, &OpenGate, me, UIDS, 8);
    expect_uids(found, &ALL, "the users of all slots")?;
    let found = ask(rt, alloc, db, clock, &OpenGate, me, FALLING_UIDS, 8);
    expect_uids(found, &FALLING, "the users of all slots from the last on")
}

// A commit is refused at its second slot for each fault of a mutation.
fn check_faults<J: Naming, R: Wait>(
    rt: &R,
    alloc: Global,
    db: &Db<J>,
    schema: &Schema,
    clock: &SharedClock,
    me: &mut Session<J>,
) -> Result<(), Fail>
    requires { schema.now ≡ J.schema }
{
    let known = insert_into(alloc, "Users", &[101])?;
    check_refused(rt, alloc, db, schema, clock, me, 2, known, Refusal::Exists)?;
    let absent = change(alloc, MutationKind::Update, 102)?;
    check_refused(
        rt,
        alloc,
        db,
        schema,
        clock,
        me,
        3,
        absent,
        Refusal::Missing,
    )?;
    let orphan = insert_into(alloc, "Albums", &[102, 1])?;
    check_refused(
        rt,
        alloc,
        db,
        schema,
        clock,
        me,
        4,
        orphan,
        Refusal::ParentMissing,
    )?;
    let child = insert_into(alloc, "Albums", &[101, 1])?;
    let other = insert_into(alloc, "Users", &[103])?;
    let with_child = both(alloc, schema, child, other)?;
    db.commit(rt, clock, me, with_child)?;
    let parent = change(alloc, MutationKind::Delete, 101)?;
    check_refused(
        rt,
        alloc,
        db,
        schema,
        clock,
        me,
        5,
        parent,
        Refusal::HasChildren,
    )
}

// A commit of a user in the first slot and of a mutation in the second one is refused there; then the user can be committed alone.
fn check_refused<J: Naming, R: Wait>(
    rt: &R,
    alloc: Global,
    db: &Db<J>,
    schema: &Schema,
    clock: &SharedClock,
    me: &mut Session<J>,
    uid: i64,
    wrong: Mutation,
    why: Refusal,
) -> Result<(), Fail>
    requires { schema.now ≡ J.schema }
{
    let first = insert_into(alloc, "Users", &[uid])?;
    let refused = both(alloc, schema, first, wrong)?;
    let answer = db.commit(rt, clock, me, refused);
    expect_eq(
        answer,
        Err(why),
        "a commit that is refused at its second slot",
    )?;
    let alone = insert(alloc, schema, uid)?;
    let committed = db.commit(rt, clock, me, alone);
    expect(
        committed.is_ok(),
        "a commit at the first slot, where nothing is left prepared",
    )
}

// A commit is refused at its second slot, where another transaction is prepared at one of its keys. Once that is aborted there, it can be committed.
fn check_conflict<J: Naming, R: Wait>(
    rt: &R,
    alloc: Global,
    db: &Db<J>,
    schema: &Schema,
    clock: &SharedClock,
    me: &mut Session<J>,
    other: &mut Session<J>,
) -> Result<(), Fail>
    requires { schema.now ≡ J.schema }
{
    let before = insert(alloc, schema, 150)?;
    let number = db.begin(rt, other, before)?;
    let prepared = db.prepare(rt, other, number, 1);
    expect_eq(prepared, Ok(()), "a Prepare of the other session in slot 1")?;
    let wanted = insert_all(alloc, schema, &[50, 150])?;
    let refused = db.commit(rt, clock, me, wanted);
    expect_eq(
        refused,
        Err(Refusal::Conflict),
        "a commit of a user that another transaction inserts",
    )?;
    let aborted = db.decide(rt, clock, other, number, Verdict::Abort);
    expect_eq(aborted, Ok(None), "a decision to abort")?;
    let applied = db.apply(rt, clock, other, number, 1);
    expect_eq(applied, Ok(()), "an Apply of what was aborted")?;
    let again = insert_all(alloc, schema, &[50, 150])?;
    let committed = db.commit(rt, clock, me, again);
    expect(
        committed.is_ok(),
        "a commit once the other transaction is aborted",
    )
}
