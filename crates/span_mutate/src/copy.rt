//! Copies of mutations, and of the values in them.
ghost use Rattle.std.specs.Prelude.{◌≡◌, MatchResult};

use super::mutation::{CheckedMutation, Mutation, NamedValue};
use span_value::refusal::Refusal;
use span_value::seq::Seq;
use span_value::text::Text;
use span_value::value::Value;
use std::alloc::Global;

impl Mutation {
    ghost use Rattle.std.specs.Prelude.{◌≡◌, MatchResult};

    /// An equal mutation, or `OutOfMemory`.
    pub fn copy(&self, alloc: Global) -> Result<Mutation, Refusal>
        ensures { MatchResult result (λ copy. copy ≡ self.now) (λ why. why ≡ Refusal.OutOfMemory) }
    {
        Ok(Mutation {
            kind: self.kind,
            table: Text::from_str(alloc, self.table.as_str())?,
            key: Seq::from_vec(copy_of_values(alloc, self.key.as_slice())?),
            cells: Seq::from_vec(copy_of_cells(alloc, self.cells.as_slice())?),
        })
    }
}

impl CheckedMutation {
    ghost use Rattle.std.specs.Prelude.{◌≡◌, MatchResult};

    /// An equal mutation, or `OutOfMemory`.
    pub fn copy(&self, alloc: Global) -> Result<CheckedMutation, Refusal>
        ensures { MatchResult result (λ copy. copy ≡ self.now) (λ why. why ≡ Refusal.OutOfMemory) }
    {
        Ok(CheckedMutation {
            kind: self.kind,
            table: self.table,
            key: Seq::from_vec(copy_of_values(alloc, self.key.as_slice())?),
            cells: Seq::from_vec(copy_of_named(alloc, self.cells.as_slice())?),
        })
    }
}

/// Equal values, or `OutOfMemory`.
pub(crate) fn copy_of_values(alloc: Global, values: &[Value]) -> Result<Vec<Value>, Refusal>
    ensures { MatchResult result (λ copy. copy.items ≡ values.now) (λ why. why ≡ Refusal.OutOfMemory) }
{
    let mut copy = Vec::with_capacity(alloc, values.len())?;
    for value in values {
        copy.push(value.copy(alloc)?)?;
    }
    Ok(copy)
}

fn copy_if_named(alloc: Global, named: &Option<Value>) -> Result<Option<Value>, Refusal>
    ensures { MatchResult result (λ copy. copy ≡ named.now) (λ why. why ≡ Refusal.OutOfMemory) }
{
    match named {
        None => Ok(None),
        Some(value) => Ok(Some(value.copy(alloc)?)),
    }
}

fn copy_of_named(alloc: Global, all: &[Option<Value>]) -> Result<Vec<Option<Value>>, Refusal>
    ensures { MatchResult result (λ copy. copy.items ≡ all.now) (λ why. why ≡ Refusal.OutOfMemory) }
{
    let mut copy = Vec::with_capacity(alloc, all.len())?;
    for named in all {
        copy.push(copy_if_named(alloc, named)?)?;
    }
    Ok(copy)
}

fn copy_of_cell(alloc: Global, cell: &NamedValue) -> Result<NamedValue, Refusal>
    ensures { MatchResult result (λ copy. copy ≡ cell.now) (λ why. why ≡ Refusal.OutOfMemory) }
{
    Ok(NamedValue {
        column: Text::from_str(alloc, cell.column.as_str())?,
        value: cell.value.copy(alloc)?,
    })
}

fn copy_of_cells(alloc: Global, cells: &[NamedValue]) -> Result<Vec<NamedValue>, Refusal>
    ensures { MatchResult result (λ copy. copy.items ≡ cells.now) (λ why. why ≡ Refusal.OutOfMemory) }
{
    let mut copy = Vec::with_capacity(alloc, cells.len())?;
    for cell in cells {
        copy.push(copy_of_cell(alloc, cell)?)?;
    }
    Ok(copy)
}

/// Equal mutations, or `OutOfMemory`.
pub fn copy_of_mutations(
    alloc: Global,
    mutations: &[CheckedMutation],
) -> Result<Vec<CheckedMutation>, Refusal>
    ensures { MatchResult result (λ copy. copy.items ≡ mutations.now) (λ why. why ≡ Refusal.OutOfMemory) }
{
    let mut copy = Vec::with_capacity(alloc, mutations.len())?;
    for mutation in mutations {
        copy.push(mutation.copy(alloc)?)?;
    }
    Ok(copy)
}
