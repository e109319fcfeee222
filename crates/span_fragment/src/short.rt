//! The entries of a snapshot that may be rows of a leaf's tables: those with longer keys are passed over.
ghost use Rattle.std.specs.Prelude.{◌≡◌, IfOk, filter, map};
ghost use Rattle.std.specs.List.{AllByRecursion};
ghost use Rattle.span_schema.specs.Numbers.{IsTable};
ghost use Rattle.span_shard.specs.Reading.{entry_row, has_short_key};
ghost use Rattle.span_entries.specs.Longest.{AreLongest};

use span_entries::longest::longest_key;
use span_schema::schema::Schema;
use span_shard::shard::Entry;
use span_shard::snapshot::Snapshot;
use std::alloc::{AllocError, Global};

/// A number of bytes that no coded key of the tables exceeds.
pub(crate) fn longest_of(schema: &Schema, tables: &[usize]) -> usize
    requires { AllByRecursion (IsTable schema.now) tables.now }
    ensures { AreLongest schema.now tables.now result }
{
    let mut most = 0;
    for table in tables {
        let longest = longest_key(schema, *table);
        if most < longest {
            most = longest;
        }
    }
    most
}

/// The entries of a snapshot with keys of at most `most` bytes.
pub(crate) fn short_entries<'a>(
    alloc: Global,
    most: usize,
    snapshot: Snapshot<'a>,
) -> Result<Vec<Entry<'a>>, AllocError>
    ensures { IfOk result (λ es. map entry_row es.items ≡ filter (has_short_key most) snapshot.entry) }
{
    let mut entries = Vec::new(alloc);
    for entry in snapshot.with_short_keys(most) {
        entries.push(entry)?;
    }
    Ok(entries)
}
