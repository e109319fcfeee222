//! What a transaction does to rows.
ghost use Rattle.std.specs.Prelude.{◌≡◌};
ghost use Rattle.span_mutate.specs.Kinds.{is_delete, may_insert};

use span_value::seq::Seq;
use span_value::text::Text;
use span_value::value::Value;

/// What a mutation does with the row at its key.
#[derive(Clone, Copy, Debug, PartialEq, Eq)]
pub enum MutationKind {
    /// Makes the row, which must be absent. Columns that are not named are NULL.
    Insert,
    /// Changes the row, which must be there. Columns that are not named are kept.
    Update,
    /// Changes the row, or makes it where it is absent. Columns that are not named are kept, or NULL in a new row.
    InsertOrUpdate,
    /// Removes the row and all rows below it; an absent one is no fault.
    Delete,
}

/// A cell that a mutation names: a column outside the primary key, and its value.
#[derive(Debug, Drop, PartialEq, Eq)]
pub struct NamedValue {
    pub column: Text,
    pub value: Value,
}

/// A mutation as it is asked for.
#[derive(Debug, Drop, PartialEq, Eq)]
pub struct Mutation {
    pub kind: MutationKind,
    /// The name of the table.
    pub table: Text,
    /// The values of the whole primary key, in its order.
    pub key: Seq<Value>,
    pub cells: Seq<NamedValue>,
}

/// A mutation that was checked against the schema.
#[derive(Debug, Drop, PartialEq, Eq)]
pub struct CheckedMutation {
    pub kind: MutationKind,
    /// The number of the table.
    pub table: usize,
    /// The values of the whole primary key, in its order.
    pub key: Seq<Value>,
    /// For each column outside the key, in the order of declaration, its new value, or None where the column is not named.
    pub cells: Seq<Option<Value>>,
}

/// Whether the mutation removes a row.
pub fn is_delete(kind: MutationKind) -> bool
    ensures { result ≡ is_delete kind }
{
    match kind {
        MutationKind::Delete => true,
        _ => false,
    }
}

/// Whether the mutation may make a new row.
pub fn may_insert(kind: MutationKind) -> bool
    ensures { result ≡ may_insert kind }
{
    match kind {
        MutationKind::Insert => true,
        MutationKind::InsertOrUpdate => true,
        _ => false,
    }
}
