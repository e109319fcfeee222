//! The check of one mutation against the schema, before any row is looked at.
ghost use Rattle.std.specs.Prelude.{◌≡◌, ◌⊎◌, [], true, false, All, IfOk, IfSome, IsTrue, MatchResult, None, Some, Ok, Err, take};
ghost use Rattle.std.specs.Option.{option_copied, option_or};
ghost use Rattle.span_value.specs.Results.{first_cause};
ghost use Rattle.span_schema.specs.Numbers.{IsTable, number_named, table_at};
ghost use Rattle.span_keycode.specs.Keys.{IsCodedKey};
ghost use Rattle.span_mutate.specs.Typed.{IsTypedMutation};
ghost use Rattle.span_checking.specs.Checking.{key_causes, cell_causes, cells_cause, lack_causes, mutation_cause, checked, checked_at};
ghost use Rattle.span_mutate.specs.Kinds.{is_delete};
ghost use Rattle.span_checking.specs.Columns.{is_null_refused, is_too_long, key_breaks};
ghost use Rattle.span_checking.specs.InOrder.{are_in_order, value_causes, values_cause};

use super::column::{
    are_cells_at, cell_column, column_at, has_long, has_null, has_wrong_type, have_named_kinds,
    is_named, is_null_refused, is_too_long, lacks_cell, values_of,
};
use span_keycode::column::have_kinds;
use span_keycode::length::code_len;
use span_mutate::mutation::{
    CheckedMutation, Mutation, MutationKind, NamedValue, is_delete, may_insert,
};
use span_schema::schema::Schema;
use span_schema::table::{Column, Table};
use span_value::refusal::Refusal;
use span_value::seq::Seq;
use span_value::value::Value;
use std::alloc::Global;

// Whether NULL is in a NOT NULL column of the key.
fn key_has_null(schema: &Schema, number: usize, table: &Table, key: &[Value]) -> bool
    requires number { IsTable schema.now number }
    requires table { Some table.now ≡ table_at schema.now number }
    ensures { result ≡ key_breaks is_null_refused table.now.columns table.now.key key.now }
{
    schema.meets_rules();
    has_null(table.columns.as_slice(), schema.key_places(number), key)
}

// Whether a value of the key is longer than its column allows.
fn key_has_long(schema: &Schema, number: usize, table: &Table, key: &[Value]) -> bool
    requires number { IsTable schema.now number }
    requires table { Some table.now ≡ table_at schema.now number }
    ensures { result ≡ key_breaks is_too_long table.now.columns table.now.key key.now }
{
    schema.meets_rules();
    has_long(table.columns.as_slice(), schema.key_places(number), key)
}

/// Whether these values may be a key of the table with this number. The key is not coded: the length of its coding
/// follows from the values.
pub(crate) fn check_key(
    schema: &Schema,
    number: usize,
    table: &Table,
    key: &[Value],
) -> Result<(), Refusal>
    requires number { IsTable schema.now number }
    requires table { Some table.now ≡ table_at schema.now number }
    ensures cause { MatchResult result
        (λ _. first_cause (key_causes schema.now number table.now key.now) ≡ None)
        (λ why. first_cause (key_causes schema.now number table.now key.now) ≡ Some why) }
    ensures coded { IfOk result (λ _. IsCodedKey schema.now number key.now) }
{
    if !have_kinds(schema.key_columns(number), key) {
        return Err(Refusal::WrongType);
    }
    if key_has_null(schema, number, table, key) {
        return Err(Refusal::NullNotAllowed);
    }
    if key_has_long(schema, number, table, key) {
        return Err(Refusal::ValueTooLong);
    }
    if code_len(schema, number, key).is_none() {
        return Err(Refusal::KeyTooLong);
    }
    Ok(())
}

/// Whether the column, if there is one, takes the value.
pub(crate) fn check_value(column: Option<&Column>, value: &Value) -> Result<(), Refusal>
    ensures { MatchResult result
        (λ _. first_cause (value_causes (option_copied column.entry) value.now) ≡ None)
        (λ why. first_cause (value_causes (option_copied column.entry) value.now) ≡ Some why) }
{
    if has_wrong_type(column, value) {
        return Err(Refusal::WrongType);
    }
    if is_null_refused(column, value) {
        return Err(Refusal::NullNotAllowed);
    }
    if is_too_long(column, value) {
        return Err(Refusal::ValueTooLong);
    }
    Ok(())
}

// Whether a cell may follow those before it.
fn check_cell(
    table: &Table,
    kind: MutationKind,
    before: &[NamedValue],
    cell: &NamedValue,
) -> Result<(), Refusal>
    ensures { MatchResult result
        (λ _. first_cause (cell_causes table.now kind before.now cell.now) ≡ None)
        (λ why. first_cause (cell_causes table.now kind before.now cell.now) ≡ Some why) }
{
    let column = cell_column(table, cell.column.as_str());
    if is_delete(kind) || column.is_none() || is_named(before, cell.column.as_str()) {
        return Err(Refusal::NoColumn);
    }
    check_value(column, &cell.value)
}

fn check_cells(table: &Table, kind: MutationKind, cells: &[NamedValue]) -> Result<(), Refusal>
    ensures { MatchResult result
        (λ _. cells_cause table.now kind [] cells.now ≡ None)
        (λ why. cells_cause table.now kind [] cells.now ≡ Some why) }
{
    for i in 0..cells.len() {
        check_cell(table, kind, &cells[..i], &cells[i])?;
    }
    Ok(())
}

fn check_required(table: &Table, mutation: &Mutation) -> Result<(), Refusal>
    ensures { MatchResult result
        (λ _. first_cause (lack_causes table.now mutation.now) ≡ None)
        (λ why. first_cause (lack_causes table.now mutation.now) ≡ Some why) }
{
    if may_insert(mutation.kind)
        && lacks_cell(
            table.key.as_slice(),
            mutation.cells.as_slice(),
            table.columns.as_slice(),
        )
    {
        return Err(Refusal::NullNotAllowed);
    }
    Ok(())
}

// Whether cells in any order break no rule.
fn check_any_order(table: &Table, mutation: &Mutation) -> Result<(), Refusal>
    ensures { MatchResult result
        (λ _.
        option_or (cells_cause table.now mutation.now.kind [] mutation.now.cells)
        (first_cause (lack_causes table.now mutation.now))
        ≡ None)
        (λ why.
        option_or (cells_cause table.now mutation.now.kind [] mutation.now.cells)
        (first_cause (lack_causes table.now mutation.now))
        ≡ Some why) }
{
    check_cells(table, mutation.kind, mutation.cells.as_slice())?;
    check_required(table, mutation)?;
    Ok(())
}

// The values of cells, each with the column at its place.
fn check_values(columns: &[Column], places: &[usize], cells: &[NamedValue]) -> Result<(), Refusal>
    ensures { MatchResult result
        (λ _. values_cause columns.now places.now cells.now ≡ None)
        (λ why. values_cause columns.now places.now cells.now ≡ Some why) }
{
    for i in 0..places.len().min(cells.len()) {
        check_value(column_at(columns, places[i]), &cells[i].value)?;
    }
    Ok(())
}

// Whether cells that name the columns outside the key, one for each and in their order, break no rule: only a value may.
fn check_in_order(
    schema: &Schema,
    number: usize,
    table: &Table,
    mutation: &Mutation,
) -> Result<(), Refusal>
    requires number { IsTable schema.now number }
    requires table { Some table.now ≡ table_at schema.now number }
    requires put { is_delete mutation.now.kind ≡ false }
    requires order { are_in_order table.now mutation.now.cells ≡ true }
    ensures { MatchResult result
        (λ _.
        option_or (cells_cause table.now mutation.now.kind [] mutation.now.cells)
        (first_cause (lack_causes table.now mutation.now))
        ≡ None)
        (λ why.
        option_or (cells_cause table.now mutation.now.kind [] mutation.now.cells)
        (first_cause (lack_causes table.now mutation.now))
        ≡ Some why) }
{
    schema.meets_rules();
    check_values(
        table.columns.as_slice(),
        schema.other_places(number),
        mutation.cells.as_slice(),
    )
}

// Whether the cells name the columns outside the key, one for each, in the order of declaration.
fn are_in_order(schema: &Schema, number: usize, table: &Table, cells: &[NamedValue]) -> bool
    requires number { IsTable schema.now number }
    requires table { Some table.now ≡ table_at schema.now number }
    ensures { result ≡ are_in_order table.now cells.now }
{
    are_cells_at(table.columns.as_slice(), schema.other_places(number), cells)
}

// Whether a mutation of the table with this number breaks no rule. `in_order` is whether its cells are in the columns' order.
fn check_rules(
    schema: &Schema,
    number: usize,
    table: &Table,
    mutation: &Mutation,
    in_order: bool,
) -> Result<(), Refusal>
    requires number { IsTable schema.now number }
    requires table { Some table.now ≡ table_at schema.now number }
    requires order { in_order ≡ are_in_order table.now mutation.now.cells }
    ensures cause { MatchResult result
        (λ _. mutation_cause schema.now number table.now mutation.now ≡ None)
        (λ why. mutation_cause schema.now number table.now mutation.now ≡ Some why) }
    ensures coded { IfOk result (λ _. IsCodedKey schema.now number mutation.now.key) }
{
    check_key(schema, number, table, mutation.key.as_slice())?;
    if in_order && !is_delete(mutation.kind) {
        return check_in_order(schema, number, table, mutation);
    }
    check_any_order(table, mutation)
}

fn check_at(
    alloc: Global,
    schema: &Schema,
    number: usize,
    mutation: Mutation,
) -> Result<CheckedMutation, Refusal>
    requires { IsTable schema.now number }
    ensures checked { MatchResult result
        (λ c. checked_at schema.now number (table_at schema.now number) mutation ≡ Ok c)
        (λ why.
        (checked_at schema.now number (table_at schema.now number) mutation ≡ Err why)
        ⊎ (why ≡ Refusal.OutOfMemory)) }
    ensures table { IfOk result (λ c. c.table ≡ number) }
    ensures typed { IfOk result (λ c. IsTypedMutation schema.now c) }
{
    schema.meets_rules();
    let table = schema.table(number);
    let in_order = are_in_order(schema, number, table, mutation.cells.as_slice());
    check_rules(schema, number, table, &mutation, in_order)?;
    let Mutation {
        kind,
        key,
        cells,
        ..
    } = mutation;
    let cells = values_of(alloc, table, in_order, cells.into_vec())?;
    prove!(have_named_kinds(schema.other_kinds(number), cells.as_slice()));
    Ok(CheckedMutation {
        kind,
        table: number,
        key,
        cells: Seq::from_vec(cells),
    })
}

// Whether the table with this number has the name. Then no other has.
fn is_table_named(schema: &Schema, number: usize, name: &str) -> bool
    requires { IsTable schema.now number }
    ensures { IsTrue result → number_named schema.now name.now ≡ Some number }
{
    schema.meets_rules();
    schema.table(number).name.as_str() == name
}

/// The number of the table with a name: mostly that of the last of these mutations, and then no other is looked at.
pub(crate) fn table_number(schema: &Schema, before: &[CheckedMutation], name: &str) -> Option<usize>
    requires { All (λ m. IsTable schema.now m.table) before.now }
    ensures number { result ≡ number_named schema.now name.now }
    ensures table { IfSome result (λ n. IsTable schema.now n) }
{
    if let Some(last) = before.last() {
        if is_table_named(schema, last.table, name) {
            return Some(last.table);
        }
    }
    schema.find(name)
}

/// A mutation, checked against the schema, as those before it were. `docs/REFUSALS.md` has the order of the refusals;
/// `OutOfMemory`: memory ran out.
pub(crate) fn check(
    alloc: Global,
    schema: &Schema,
    before: &[CheckedMutation],
    mutation: Mutation,
) -> Result<CheckedMutation, Refusal>
    requires { All (λ m. IsTable schema.now m.table) before.now }
    ensures checked { MatchResult result
        (λ c. checked schema.now mutation ≡ Ok c)
        (λ why. (checked schema.now mutation ≡ Err why) ⊎ (why ≡ Refusal.OutOfMemory)) }
    ensures table { IfOk result (λ c. IsTable schema.now c.table) }
    ensures typed { IfOk result (λ c. IsTypedMutation schema.now c) }
{
    match table_number(schema, before, mutation.table.as_str()) {
        None => Err(Refusal::NoTable),
        Some(number) => check_at(alloc, schema, number, mutation),
    }
}
