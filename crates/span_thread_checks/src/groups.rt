//! Queries of many rows over all slots: groups, groups of pairs, and rows in order, which several workers make.
ghost use Rattle.std.specs.Prelude.{◌≡◌, ◌≤◌};

use span_board::board::Naming;
use span_board::session::Session;
use span_gather::rows::Rows;
use span_schema::schema::Schema;
use span_session::db::Db;
use span_session::open::UnnamedDb;
use span_session::queries::MOST_WORKERS;
use span_session_fixtures::calls::{ask, split};
use span_session_fixtures::clock::{OpenGate, SharedClock};
use span_session_fixtures::expect::expect_eq;
use span_session_fixtures::opening::{database_of, with_session};
use span_session_fixtures::users::{TABLES, insert_with_albums};
use span_value::owned::give_after;
use span_value::refusal::Refusal;
use span_value::value::Value;
use std::alloc::Global;
use std::marker::Brand;
use std::sync::Wait;
use std::test::Fail;
use std::thread::Threads;

const SLOTS: u32 = 16;

// How many albums the user of a slot has. The groups of fewer than 4,096 rows would be made where these are read, in their slot.
const ALBUMS: u32 = 4_200;

// By how much the first number of the albums falls from slot to slot: most groups have rows in four slots, and the groups don't come in the order
// of their keys.
const STEP: u32 = 1_000;

const GROUPS: &str = "SELECT aid, COUNT(*) FROM Albums GROUP BY aid";

// Groups that HAVING leaves.
const THREE: &str = "SELECT aid, COUNT(*) FROM Albums GROUP BY aid HAVING COUNT(*) = 3";

// The groups of pairs that are joined above the leaves, of which WHERE leaves some: by a column to the left, many, and by one to the right, few.
const PAIRS: &str = "SELECT a.aid, COUNT(*) FROM Albums a JOIN Albums b ON b.aid = a.aid \
WHERE a.uid < 300 AND b.uid > a.uid GROUP BY a.aid";

const FEW: &str =
    "SELECT b.uid, COUNT(*) FROM Albums a JOIN Albums b ON b.aid = a.aid WHERE a.uid < 300 GROUP BY b.uid";

// All rows in an order in which those of a slot are not together.
const IN_ORDER: &str = "SELECT uid, aid FROM Albums ORDER BY aid DESC, uid";

// Pairs that are joined above the leaves, of which WHERE leaves some, in an order.
const PAIRS_IN_ORDER: &str = "SELECT a.aid, b.uid FROM Albums a JOIN Albums b ON b.aid = a.aid \
WHERE a.uid < 300 AND b.uid > a.uid ORDER BY aid DESC, uid";

// The condition is no number at some of these pairs.
const PAIRS_WITH_FAULT: &str = "SELECT a.aid, b.uid FROM Albums a JOIN Albums b ON b.aid = a.aid \
WHERE a.uid < 300 AND a.aid * 500000000000000 + b.uid > 0 ORDER BY aid DESC, uid";

// Each operand is a number of 64 bits. The sum of two of them is none.
const SUMS: &str = "SELECT aid, SUM(aid + 9223372036854756608) FROM Albums GROUP BY aid";

// How many rows SQLite gives, and what `sum_of` is for them: groups in the order of their first rows.
const SUM_OF_GROUPS: (usize, i64) = (19_200, 11_945_591_329_600);

const SUM_OF_THREE: (usize, i64) = (2_000, 122_758_663_000);

const SUM_OF_PAIRS: (usize, i64) = (5_200, 2_050_278_286_200);

const SUM_OF_FEW: (usize, i64) = (7, 225_800);

const SUM_IN_ORDER: (usize, i64) = (67_200, 38_227_051_271_600);

const SUM_OF_PAIRS_IN_ORDER: (usize, i64) = (20_400, 30_330_259_501_000);

/// The groups of 67,200 rows in sixteen slots, and of pairs of them, are those of SQLite, in the order of their first rows, and so are the rows in
/// order, by one worker and by eight; a sum that is too large refuses the query.
pub fn many_groups<R: Threads + Wait + Sync>(rt: &R, alloc: Global) -> Result<(), Fail> {
    let (opened, kept) = database_of(alloc, TABLES, 1)?;
    by_groups::<Brand, _>(rt, alloc, opened, &kept)
}

fn by_groups<J: Naming + Send + Sync, R: Threads + Wait + Sync>(
    rt: &R,
    alloc: Global,
    opened: UnnamedDb,
    schema: &Schema,
) -> Result<(), Fail>
    requires table { opened.table ≡ J.table }
    requires schema { opened.schema ≡ J.schema }
    requires kept { schema.now ≡ J.schema }
{
    let (db, me) = with_session::<J>(opened)?;
    let checked = check_groups(rt, alloc, &db, schema, me);
    give_after(db, checked)
}

fn check_groups<J: Naming + Send + Sync, R: Threads + Wait + Sync>(
    rt: &R,
    alloc: Global,
    db: &Db<J>,
    schema: &Schema,
    me: Session<J>,
) -> Result<(), Fail>
    requires { schema.now ≡ J.schema }
{
    let mut me = me;
    check_queries(rt, alloc, db, schema, &mut me)
}

// The session is lent, so that no failure drops it.
fn check_queries<J: Naming + Send + Sync, R: Threads + Wait + Sync>(
    rt: &R,
    alloc: Global,
    db: &Db<J>,
    schema: &Schema,
    me: &mut Session<J>,
) -> Result<(), Fail>
    requires { schema.now ≡ J.schema }
{
    let clock = SharedClock::new();
    commit_albums(rt, alloc, db, schema, &clock, me)?;
    cut_all(rt, db, me)?;
    check_answers(rt, alloc, db, &clock, me, 1)?;
    check_answers(rt, alloc, db, &clock, me, 8)
}

// A user for each slot, with their albums.
fn commit_albums<J: Naming, R: Wait>(
    rt: &R,
    alloc: Global,
    db: &Db<J>,
    schema: &Schema,
    clock: &SharedClock,
    me: &mut Session<J>,
) -> Result<(), Fail>
    requires { schema.now ≡ J.schema }
{
    for slot in 0..SLOTS {
        let first = (SLOTS - 1 - slot) * STEP;
        let albums = insert_with_albums(alloc, schema, uid_of(slot), first..first + ALBUMS)?;
        db.commit(rt, clock, me, albums)?;
    }
    Ok(())
}

// Cuts between the users, the last one first, so that the rows of each are moved once.
fn cut_all<J: Naming, R: Wait>(rt: &R, db: &Db<J>, me: &Session<J>) -> Result<(), Fail> {
    for cut in 1..SLOTS {
        split(rt, db, me, uid_of(SLOTS - cut))?;
    }
    Ok(())
}

// The user of a slot.
fn uid_of(slot: u32) -> i64 {
    i64::from(slot) * 100
}

// The groups, and sums that are too large, by some workers.
fn check_answers<J: Naming + Send + Sync, R: Threads + Wait + Sync>(
    rt: &R,
    alloc: Global,
    db: &Db<J>,
    clock: &SharedClock,
    me: &mut Session<J>,
    workers: usize,
) -> Result<(), Fail>
    requires { (1 ≤ workers) × (workers ≤ MOST_WORKERS) }
{
    check_sum(rt, alloc, db, clock, me, GROUPS, workers, SUM_OF_GROUPS)?;
    check_sum(rt, alloc, db, clock, me, THREE, workers, SUM_OF_THREE)?;
    check_sum(rt, alloc, db, clock, me, PAIRS, workers, SUM_OF_PAIRS)?;
    check_sum(rt, alloc, db, clock, me, FEW, workers, SUM_OF_FEW)?;
    check_sum(rt, alloc, db, clock, me, IN_ORDER, workers, SUM_IN_ORDER)?;
    check_sum(
        rt,
        alloc,
        db,
        clock,
        me,
        PAIRS_IN_ORDER,
        workers,
        SUM_OF_PAIRS_IN_ORDER,
    )?;
    check_fault(rt, alloc, db, clock, me, SUMS, workers)?;
    check_fault(rt, alloc, db, clock, me, PAIRS_WITH_FAULT, workers)
}

// That a query by some workers is refused, as its text means the fault.
fn check_fault<J: Naming + Send + Sync, R: Threads + Wait + Sync>(
    rt: &R,
    alloc: Global,
    db: &Db<J>,
    clock: &SharedClock,
    me: &mut Session<J>,
    text: &str,
    workers: usize,
) -> Result<(), Fail>
    requires { (1 ≤ workers) × (workers ≤ MOST_WORKERS) }
{
    let found = ask(rt, alloc, db, clock, &OpenGate, me, text, workers);
    expect_eq(group_sum(found), Err(Refusal::ArithmeticFault), text)
}

// That a query by some workers gives a number of rows, with this sum.
fn check_sum<J: Naming + Send + Sync, R: Threads + Wait + Sync>(
    rt: &R,
    alloc: Global,
    db: &Db<J>,
    clock: &SharedClock,
    me: &mut Session<J>,
    text: &str,
    workers: usize,
    wanted: (usize, i64),
) -> Result<(), Fail>
    requires { (1 ≤ workers) × (workers ≤ MOST_WORKERS) }
{
    let found = ask(rt, alloc, db, clock, &OpenGate, me, text, workers);
    expect_eq(group_sum(found), Ok(wanted), text)
}

// The number of rows, and their sum, or why there are none. It takes the rows, so that the caller drops none.
fn group_sum(found: Result<Rows, Refusal>) -> Result<(usize, i64), Refusal> {
    match found {
        Ok(rows) => Ok((rows.len(), sum_of(&rows))),
        Err(why) => Err(why),
    }
}

// The sum of what each row counts for, times its number, counted from 1: rows in another order have another sum, but for chance.
fn sum_of(rows: &Rows) -> i64 {
    let mut sum: i64 = 0;
    let mut number: i64 = 0;
    for at in 0..rows.len() {
        number = number.wrapping_add(1);
        sum = sum.wrapping_add(number.wrapping_mul(weight_of(rows.row(at))));
    }
    sum
}

// What a row counts for: ten times its first number, and its second.
fn weight_of(row: &[Value]) -> i64 {
    match row {
        [Value::Int(key), Value::Int(count)] => key.wrapping_mul(10).wrapping_add(*count),
        _ => 0,
    }
}
