//! A load, whose records are gathered at its end.
ghost use Rattle.std.specs.Prelude.{◌≡◌, ◌∷◌, ◌⊎◌, [], MatchResult};
ghost use Rattle.span_steps.specs.States.{RefusesRecord};
ghost use Rattle.span_steps.specs.Running.{AddsRow};

use super::refused::Refused;
use csv::StringRecord;
use span_core::{MutationKind, Refusal};
use span_mutate::batch::BatchRow;
use span_records::layout::RecordLayout;
use std::alloc::Global;

/// A load between its first line and its `end`.
#[derive(Drop)]
pub struct Load {
    /// Its records, or where and why it is refused, which is answered at its end.
    pub records: Result<Records, Refused>,
}

/// How the records of a load are read, and the rows that were read.
#[derive(Drop)]
pub struct Records {
    pub layout: RecordLayout,
    pub rows: Vec<BatchRow>,
}

impl Records {
    /// With the row of one more record. `WrongType`: a wrong number of fields, or a field that is no cell of its column's
    /// type.
    pub(crate) fn with_record(
        mut self,
        alloc: Global,
        text: &str,
        fields: &mut StringRecord,
    ) -> Result<Records, Refusal>
        ensures { MatchResult result
            (AddsRow self text.now)
            (λ why. (why ≡ Refusal.OutOfMemory) ⊎ RefusesRecord self.layout MutationKind.Insert text.now why) }
    {
        let row = self.layout.read_row(alloc, text, fields)?;
        self.rows.push(row)?;
        Ok(self)
    }
}

/// A row alone.
pub(crate) fn one_row(alloc: Global, row: BatchRow) -> Result<Vec<BatchRow>, Refusal>
    ensures { MatchResult result (λ rows. rows.items ≡ row ∷ []) (λ why. why ≡ Refusal.OutOfMemory) }
{
    let mut rows = Vec::with_capacity(alloc, 1)?;
    rows.push_reserved(row);
    Ok(rows)
}
