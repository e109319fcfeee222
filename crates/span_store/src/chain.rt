//! What contracts say that a shard has of a key.
use span_value::seq::Seq;

/// A row as a commit left it.
#[derive(Debug, Drop, PartialEq, Eq)]
pub struct Version {
    /// The commit timestamp.
    pub timestamp: u64,
    /// The packed row; None is a deletion.
    pub row: Option<Seq<u8>>,
}

/// What a prepared transaction is to leave at a key.
#[derive(Debug, Drop, PartialEq, Eq)]
pub struct PreparedWrite {
    /// The transaction's number.
    pub txn: u64,
    /// The packed row; None is a deletion.
    pub row: Option<Seq<u8>>,
}
