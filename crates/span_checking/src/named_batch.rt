//! The check of a row of a batch whose columns are known: its values are checked and moved by numbers, and no name is looked at.
ghost use Rattle.std.specs.Prelude.{◌≡◌, ◌≢◌, ◌⊎◌, ℕ, [], map, IfOk, MatchResult, None, Some, Ok, Err, Option, is_some};
ghost use Rattle.std.specs.Option.{option_copied, option_or};
ghost use Rattle.span_value.specs.Results.{first_cause};
ghost use Rattle.span_schema.specs.Numbers.{table_at};
ghost use Rattle.span_keycode.specs.Keys.{IsCodedKey};
ghost use Rattle.span_mutate.specs.Batches.{row_mutation};
ghost use Rattle.span_checking.specs.Checking.{cells_cause, checked, lack_causes, mutation_cause};
ghost use Rattle.span_checking.specs.Columns.{lacks_cell};
ghost use Rattle.span_checking.specs.InOrder.{cell_cause, row_cause};
ghost use Rattle.span_checking.specs.NamedBatches.{AreApart, IsNamed, is_left_out, lacks_value, value_at};
ghost use Rattle.span_mutate.specs.Typed.{IsTypedMutation};

use super::check::{check_key, check_value};
use super::column::{column_at, have_named_kinds};
use super::named_columns::NamedColumns;
use span_mutate::batch::{BatchRow, Heading};
use span_mutate::mutation::{CheckedMutation, may_insert};
use span_schema::schema::Schema;
use span_schema::table::{Column, Table};
use span_value::refusal::Refusal;
use span_value::seq::Seq;
use span_value::value::Value;
use std::alloc::Global;
use std::mem;

// Whether the column, if there is one, takes the value, if there is one.
fn check_cell(column: Option<&Column>, cell: &Option<Value>) -> Result<(), Refusal>
    ensures { MatchResult result
        (λ _. cell_cause (option_copied column.entry) cell.now ≡ None)
        (λ why. cell_cause (option_copied column.entry) cell.now ≡ Some why) }
{
    match cell {
        None => Ok(()),
        Some(value) => check_value(column, value),
    }
}

/// The values of a row, each with the column at its place.
pub(crate) fn check_cells(
    columns: &[Column],
    places: &[usize],
    cells: &[Option<Value>],
) -> Result<(), Refusal>
    ensures { MatchResult result
        (λ _. row_cause columns.now places.now cells.now ≡ None)
        (λ why. row_cause columns.now places.now cells.now ≡ Some why) }
{
    for i in 0..places.len().min(cells.len()) {
        check_cell(column_at(columns, places[i]), &cells[i])?;
    }
    Ok(())
}

// Whether there is a value under the name with this number.
fn has_value(cells: &[Option<Value>], name: Option<usize>) -> bool
    ensures { result ≡ is_some (value_at cells.now name) }
{
    match name {
        None => false,
        Some(at) => at < cells.len() && cells[at].is_some(),
    }
}

fn is_left_out(column: Option<&Column>, cells: &[Option<Value>], name: Option<usize>) -> bool
    ensures { result ≡ is_left_out (option_copied column.entry) (value_at cells.now name) }
{
    match column {
        None => false,
        Some(c) => c.not_null && !has_value(cells, name),
    }
}

// Whether a NOT NULL column at one of these places, whose names have these numbers, has no value.
fn lacks_value(
    columns: &[Column],
    places: &[usize],
    names: &[Option<usize>],
    cells: &[Option<Value>],
) -> bool
    ensures { result ≡ lacks_value columns.now places.now names.now cells.now }
{
    for i in 0..places.len().min(names.len()) {
        if is_left_out(column_at(columns, places[i]), cells, names[i]) {
            return true;
        }
    }
    false
}

// Whether the cells of a row break no rule.
fn check_named_cells(
    schema: &Schema,
    table: &Table,
    columns: &NamedColumns,
    heading: &Heading,
    row: &BatchRow,
) -> Result<(), Refusal>
    requires named { IsNamed schema.now heading.now columns.now }
    requires table { Some table.now ≡ table_at schema.now columns.now.table }
    ensures { let mutation = row_mutation heading.now row.now in MatchResult result
        (λ _. cells_cause table.now mutation.kind [] mutation.cells ≡ None)
        (λ why. cells_cause table.now mutation.kind [] mutation.cells ≡ Some why) }
{
    check_cells(
        table.columns.as_slice(),
        columns.places.as_slice(),
        row.cells.as_slice(),
    )
}

// Whether a row has no value for a NOT NULL column outside the key.
fn lacks_named(
    schema: &Schema,
    table: &Table,
    columns: &NamedColumns,
    heading: &Heading,
    row: &BatchRow,
) -> bool
    requires named { IsNamed schema.now heading.now columns.now }
    requires table { Some table.now ≡ table_at schema.now columns.now.table }
    ensures { result ≡ lacks_cell table.now.key (row_mutation heading.now row.now).cells table.now.columns }
{
    lacks_value(
        table.columns.as_slice(),
        schema.other_places(columns.table),
        columns.names.as_slice(),
        row.cells.as_slice(),
    )
}

// Whether a row that may be a new one has a value for each NOT NULL column outside the key.
fn check_named_required(
    schema: &Schema,
    table: &Table,
    columns: &NamedColumns,
    heading: &Heading,
    row: &BatchRow,
) -> Result<(), Refusal>
    requires named { IsNamed schema.now heading.now columns.now }
    requires table { Some table.now ≡ table_at schema.now columns.now.table }
    ensures { MatchResult result
        (λ _. first_cause (lack_causes table.now (row_mutation heading.now row.now)) ≡ None)
        (λ why. first_cause (lack_causes table.now (row_mutation heading.now row.now)) ≡ Some why) }
{
    if may_insert(heading.kind) && lacks_named(schema, table, columns, heading, row) {
        return Err(Refusal::NullNotAllowed);
    }
    Ok(())
}

// Whether a row breaks no rule.
fn check_named_rules(
    schema: &Schema,
    table: &Table,
    columns: &NamedColumns,
    heading: &Heading,
    row: &BatchRow,
) -> Result<(), Refusal>
    requires named { IsNamed schema.now heading.now columns.now }
    requires table { Some table.now ≡ table_at schema.now columns.now.table }
    ensures cause { MatchResult result
        (λ _. mutation_cause schema.now columns.now.table table.now (row_mutation heading.now row.now) ≡ None)
        (λ why. mutation_cause schema.now columns.now.table table.now (row_mutation heading.now row.now) ≡ Some why) }
    ensures coded { IfOk result (λ _. IsCodedKey schema.now columns.now.table row.now.key) }
{
    check_key(schema, columns.table, table, row.key.as_slice())?;
    check_named_cells(schema, table, columns, heading, row)?;
    check_named_required(schema, table, columns, heading, row)?;
    Ok(())
}

// Takes the value under the name with this number. Those under other names are left.
fn take_cell(cells: &mut Vec<Option<Value>>, name: Option<usize>) -> Option<Value>
    ensures value { result ≡ value_at cells.old.items name }
    ensures rest { (other : Option ℕ)
        → ((i : ℕ) → name ≡ Some i → other ≢ Some i)
        → value_at cells.new.items other ≡ value_at cells.old.items other }
{
    let at = name?;
    if at >= cells.len() {
        return None;
    }
    mem::replace(&mut cells[at], None)
}

// The values under the names with these numbers, no two of which are the same. They are moved.
fn take_cells(
    alloc: Global,
    names: &[Option<usize>],
    cells: Vec<Option<Value>>,
) -> Result<Vec<Option<Value>>, Refusal>
    requires { AreApart names.now }
    ensures { MatchResult result
        (λ values. values.items ≡ map (value_at cells.items) names.now)
        (λ why. why ≡ Refusal.OutOfMemory) }
{
    let mut left = cells;
    let mut values = Vec::with_capacity(alloc, names.len())?;
    for name in names {
        values.push(take_cell(&mut left, *name))?;
    }
    Ok(values)
}

/// A row of a batch whose columns are known. No name is looked at, and its values are moved. `OutOfMemory`: memory ran out.
pub(crate) fn check_named(
    alloc: Global,
    schema: &Schema,
    columns: &NamedColumns,
    heading: &Heading,
    row: BatchRow,
) -> Result<CheckedMutation, Refusal>
    requires { IsNamed schema.now heading.now columns.now }
    ensures checked { MatchResult result
        (λ c. checked schema.now (row_mutation heading.now row) ≡ Ok c)
        (λ why. (checked schema.now (row_mutation heading.now row) ≡ Err why) ⊎ (why ≡ Refusal.OutOfMemory)) }
    ensures typed { IfOk result (λ c. IsTypedMutation schema.now c) }
{
    schema.meets_rules();
    let table = schema.table(columns.table);
    check_named_rules(schema, table, columns, heading, &row)?;
    let BatchRow { key, cells } = row;
    let cells = take_cells(alloc, columns.names.as_slice(), cells.into_vec())?;
    prove!(have_named_kinds(schema.other_kinds(columns.table), cells.as_slice()));
    Ok(CheckedMutation {
        kind: heading.kind,
        table: columns.table,
        key,
        cells: Seq::from_vec(cells),
    })
}
