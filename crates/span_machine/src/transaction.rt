//! Open transactions, and the commits of the log.
use span_mutate::mutation::CheckedMutation;
use span_value::seq::Seq;

/// Where and at which timestamp a transaction is prepared.
#[derive(Clone, Copy, Debug, PartialEq, Eq)]
pub struct Prepared {
    pub slot: usize,
    pub timestamp: u64,
}

/// The decision on a transaction.
#[derive(Clone, Copy, Debug, PartialEq, Eq)]
pub enum Decision {
    Undecided,
    /// Committed at this timestamp.
    Committed(u64),
    Aborted,
}

/// A transaction from its Begin until nothing of it is prepared after its decision.
#[derive(Debug, Drop, PartialEq, Eq)]
pub struct OpenTransaction {
    pub owner: u64,
    pub number: u64,
    pub mutations: Seq<CheckedMutation>,
    pub decision: Decision,
    /// Where it is prepared, and not applied yet.
    pub prepared: Seq<Prepared>,
}

/// An entry of the log.
#[derive(Debug, Drop, PartialEq, Eq)]
pub struct Commit {
    pub timestamp: u64,
    pub number: u64,
    pub owner: u64,
    pub mutations: Seq<CheckedMutation>,
}
