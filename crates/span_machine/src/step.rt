//! Steps, and the replies to them.
use span_checking::transaction::Transaction;
use span_gather::rows::Rows;
use span_params::params::Params;
use span_truetime::bound::Bound;
use span_truetime::interval::Interval;
use span_value::refusal::Refusal;
use span_value::seq::Seq;
use span_value::text::Text;
use span_value::value::Value;

/// What an owner decides of its transaction.
#[derive(Clone, Copy, Debug, PartialEq, Eq)]
pub enum Verdict {
    Commit,
    Abort,
}

/// One event.
#[derive(Debug, Drop, PartialEq, Eq)]
pub enum Step {
    Begin {
        owner: u64,
        transaction: Transaction,
    },
    Prepare {
        owner: u64,
        txn: u64,
        slot: usize,
    },
    Decide {
        owner: u64,
        txn: u64,
        verdict: Verdict,
        interval: Interval,
    },
    Apply {
        owner: u64,
        txn: u64,
        slot: usize,
        interval: Interval,
    },
    Advance {
        slot: usize,
        interval: Interval,
    },
    Trim {
        slot: usize,
        /// The new horizon, a timestamp.
        h: u64,
    },
    Open {
        text: Text,
        params: Params,
        bound: Bound,
        interval: Interval,
    },
    Scan {
        query: u64,
        leaf: usize,
        slot: usize,
        interval: Interval,
    },
    Finish {
        query: u64,
    },
    Close {
        query: u64,
    },
    /// Cuts a slot in two at a root key.
    Split {
        /// The name of a root table.
        table: Text,
        /// A value for each column of its key.
        key: Seq<Value>,
    },
}

/// The reply to a step.
#[derive(Debug, Drop, PartialEq, Eq)]
pub enum Reply {
    /// The transaction's number.
    Began(u64),
    /// The prepare timestamp.
    Prepared(u64),
    /// The commit timestamp.
    Decided(u64),
    Aborted,
    Applied,
    /// The slot's floor.
    Floor(u64),
    /// How many versions the slot keeps, prepared ones included.
    Trimmed(usize),
    /// The query's number, the timestamp that it reads at, and how many leaves it has.
    Opened { query: u64, s: u64, leaves: usize },
    Scanned,
    /// No part of the leaf's range is left in the slot.
    Nothing,
    /// The timestamp that was read at, and the rows in order.
    Rows { s: u64, rows: Rows },
    Closed,
    /// The slot that has the keys from the cut on.
    Split(usize),
    Refused(Refusal),
}
