//! Calls that tests of sessions share: users that are committed, a slot that is cut, and queries of users.
ghost use Rattle.std.specs.Prelude.{◌≡◌, ◌≤◌};

use crate::clock::{OpenGate, SharedClock, Still};
use crate::users::{UIDS, insert};
use span_board::board::Naming;
use span_board::session::Session;
use span_gather::rows::Rows;
use span_keycode::laws::are_values;
use span_params::params::Params;
use span_scans::workers::Gate;
use span_schema::schema::Schema;
use span_session::db::Db;
use span_session::queries::MOST_WORKERS;
use span_truetime::bound::Bound;
use span_value::refusal::Refusal;
use span_value::value::Value;
use std::alloc::Global;
use std::ops::Range;
use std::sync::Wait;
use std::thread;
use std::thread::Threads;

/// Commits each of the users in a transaction of its own.
pub fn commit_users<J: Naming, R: Wait>(
    rt: &R,
    alloc: Global,
    db: &Db<J>,
    clock: &SharedClock,
    schema: &Schema,
    me: &mut Session<J>,
    uids: Range<u32>,
) -> Result<(), Refusal>
    requires { schema.now ≡ J.schema }
{
    for uid in uids {
        let transaction = insert(alloc, schema, i64::from(uid))?;
        db.commit(rt, clock, me, transaction)?;
    }
    Ok(())
}

/// The rows of a strong query by this many workers, which is asked again as long as something is prepared below its timestamp.
pub fn ask<J: Naming + Send + Sync, R: Threads + Wait + Sync, G: Gate + Sync>(
    rt: &R,
    alloc: Global,
    db: &Db<J>,
    clock: &SharedClock,
    gate: &G,
    me: &mut Session<J>,
    text: &str,
    workers: usize,
) -> Result<Rows, Refusal>
    requires { (1 ≤ workers) × (workers ≤ MOST_WORKERS) }
{
    let params = Params::new(alloc);
    let mut found = Err(Refusal::NotYet);
    for _ in rt.forever() {
        match db.query(rt, clock, gate, me, text, &params, Bound::Strong, workers) {
            Ok(answer) => {
                found = Ok(answer.rows);
                break;
            }
            Err(Refusal::NotYet) => thread::yield_now(),
            Err(why) => {
                found = Err(why);
                break;
            }
        }
    }
    found
}

/// The rows of a query of all users, by this many workers.
pub fn ask_by<J: Naming + Send + Sync, R: Threads + Wait + Sync, G: Gate + Sync>(
    rt: &R,
    alloc: Global,
    db: &Db<J>,
    clock: &SharedClock,
    gate: &G,
    me: &mut Session<J>,
    bound: Bound,
    workers: usize,
) -> Result<Rows, Refusal>
    requires { (1 ≤ workers) × (workers ≤ MOST_WORKERS) }
{
    let params = Params::new(alloc);
    let answer = db.query(rt, clock, gate, me, UIDS, &params, bound, workers)?;
    Ok(answer.rows)
}

/// The users, by one worker.
pub fn users<J: Naming + Send + Sync, R: Threads + Wait + Sync>(
    rt: &R,
    alloc: Global,
    db: &Db<J>,
    clock: &Still,
    me: &mut Session<J>,
    bound: Bound,
) -> Result<Rows, Refusal> {
    let params = Params::new(alloc);
    let answer = db.query(rt, clock, &OpenGate, me, UIDS, &params, bound, 1)?;
    Ok(answer.rows)
}

/// Cuts at a user.
pub fn split<J: Naming, R: Wait>(
    rt: &R,
    db: &Db<J>,
    me: &Session<J>,
    uid: i64,
) -> Result<usize, Refusal> {
    let key = [Value::Int(uid)];
    are_values(&key);
    db.split(rt, me, "Users", &key)
}
