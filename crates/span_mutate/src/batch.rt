//! Batches of mutations: the kind, the table and the names of the columns are written once for all rows of a batch.
ghost use Rattle.std.specs.Prelude.{◌≡◌};
ghost use Rattle.span_mutate.specs.Batches.{row_mutations};

use super::mutation::MutationKind;
use span_value::seq::Seq;
use span_value::text::Text;
use span_value::value::Value;
use std::marker::Model;

/// What the mutations of a batch have in common.
#[derive(Debug, Drop)]
pub struct Heading {
    pub kind: MutationKind,
    /// The name of the table.
    pub table: Text,
    /// The names of the columns, outside the primary key, whose values a row has.
    pub columns: Seq<Text>,
}

/// What a mutation of a batch has of its own.
#[derive(Debug, Drop)]
pub struct BatchRow {
    /// The values of the whole primary key, in its order.
    pub key: Seq<Value>,
    /// For each column of the heading its new value, or None where the mutation does not name it.
    pub cells: Seq<Option<Value>>,
}

/// Mutations of one kind, of rows of one table. Contracts see it as the list of the mutations.
#[derive(Debug, Drop)]
pub struct MutationBatch {
    heading: Heading,
    rows: Vec<BatchRow>,
}

impl Model for MutationBatch {
    ghost use Rattle.std.specs.Prelude.{List};
    ghost use Rattle.span_mutate.specs.declared.mutation.Mutation.{Mutation};

    ghost Value = { List Mutation };

    ghost use Rattle.span_mutate.specs.Batches.{row_mutations};

    ghost view = { λ a. row_mutations a.heading a.rows.items };
}

impl MutationBatch {
    /// The mutations of these rows, in order. Nothing is copied.
    pub fn new(heading: Heading, rows: Vec<BatchRow>) -> MutationBatch
        ensures { result ≡ row_mutations heading rows.items }
    {
        MutationBatch { heading, rows }
    }

    /// What the mutations have in common, and the rows.
    pub fn into_parts(self) -> (Heading, Vec<BatchRow>)
        ensures { self ≡ row_mutations result.0 result.1.items }
    {
        let MutationBatch { heading, rows } = self;
        (heading, rows)
    }
}
