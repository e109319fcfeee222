//! Mutations on the rows of one directory: a root row, and all rows below it.
//!
//! What a mutation does is decided by the rows of its directory alone, so it is worked out here, whatever other rows there are.
ghost use Rattle.std.specs.Prelude.{◌≡◌, ◌⊎◌, ◌==◌, true, false, not, nat_lt, IfOk, MatchResult, Ok, Err, Some, is_some, length, map, All};
ghost use Rattle.std.specs.List.{list_any, filter};
ghost use Rattle.std.specs.Option.{option_copied, unwrap_or};
ghost use Rattle.span_schema.specs.Numbers.{IsTable, parent_of};
ghost use Rattle.span_rowcode.specs.Rows.{row_code};
ghost use Rattle.span_rowcode.specs.Limits.{longest_row};
ghost use Rattle.span_mutate.specs.Kinds.{is_delete};
ghost use Rattle.span_mutate.specs.Rows.{row_at};
ghost use Rattle.span_mutate.specs.Database.{is_at_or_below, tables_under, cascades, blocks_delete, tables_blocking_delete, is_in, is_under, is_delete_blocked, lacks_parent, cells_of, merge_cells, apply_one, apply};

use super::copy::copy_of_values;
use super::mutation::{CheckedMutation, MutationKind, is_delete};
use super::row::{TableRow, begins, first_values, row_at, with_row};
use span_rowcode::pack::pack;
use span_schema::schema::Schema;
use span_schema::table::Table;
use span_value::refusal::Refusal;
use span_value::seq::Seq;
use span_value::value::Value;
use std::alloc::{AllocError, Global};

// Whether a table is this one or below it.
fn is_at_or_below(schema: &Schema, table: usize, below: usize) -> bool
    requires { IsTable schema.now below }
    ensures { result ≡ is_at_or_below schema.now table below }
{
    contains(schema.path_of(below), table)
}

fn cascades(table: &Table) -> bool
    ensures { result ≡ cascades (Some table.now) }
{
    match &table.parent {
        None => true,
        Some(parent) => parent.cascade,
    }
}

/// Whether a row of a table stays where a row of this table, above it, is to be deleted.
pub fn blocks_delete(schema: &Schema, table: usize, below: usize) -> bool
    requires { IsTable schema.now below }
    ensures { result ≡ blocks_delete schema.now table below }
{
    is_at_or_below(schema, table, below) && below != table && !cascades(schema.table(below))
}

// The tables at or below this one.
fn tables_under(alloc: Global, schema: &Schema, table: usize) -> Result<Vec<usize>, AllocError>
    ensures { IfOk result (λ found. found.items ≡ tables_under schema.now table) }
{
    let mut found = Vec::new(alloc);
    for i in 0..schema.len() {
        if is_at_or_below(schema, table, i + 1) {
            found.push(i + 1)?;
        }
    }
    Ok(found)
}

// The tables below this one whose rows stay.
fn tables_blocking_delete(
    alloc: Global,
    schema: &Schema,
    table: usize,
) -> Result<Vec<usize>, AllocError>
    ensures { IfOk result (λ found. found.items ≡ tables_blocking_delete schema.now table) }
{
    let mut found = Vec::new(alloc);
    for i in 0..schema.len() {
        if blocks_delete(schema, table, i + 1) {
            found.push(i + 1)?;
        }
    }
    Ok(found)
}

fn contains(numbers: &[usize], number: usize) -> bool
    ensures { result ≡ list_any (λ n. n == number) numbers.now }
{
    numbers.iter().any(|n| *n == number)
}

// Whether the row is of one of the tables, and its key begins with this one.
fn is_in(tables: &[usize], key: &[Value], row: &TableRow) -> bool
    ensures { result ≡ is_in tables.now key.now row.now }
{
    contains(tables, row.table) && begins(key, row.key.as_slice())
}

fn is_outside(tables: &[usize], key: &[Value], row: &TableRow) -> bool
    ensures { result ≡ not (is_in tables.now key.now row.now) }
{
    !is_in(tables, key, row)
}

fn is_any_in(tables: &[usize], key: &[Value], rows: &[TableRow]) -> bool
    ensures { result ≡ list_any (is_in tables.now key.now) rows.now }
{
    rows.iter().any(|row| is_in(tables, key, row))
}

// Whether a row below the one with this key is of a table without ON DELETE CASCADE.
fn is_delete_blocked(
    alloc: Global,
    schema: &Schema,
    table: usize,
    key: &[Value],
    rows: &[TableRow],
) -> Result<bool, AllocError>
    ensures { IfOk result (λ held. held ≡ is_delete_blocked schema.now table key.now rows.now) }
{
    let holding = tables_blocking_delete(alloc, schema, table)?;
    Ok(is_any_in(holding.as_slice(), key, rows))
}

// Whether the parent row of a row with this key is absent.
fn lacks_parent(schema: &Schema, table: usize, key: &[Value], rows: &[TableRow]) -> bool
    requires { IsTable schema.now table }
    ensures { result ≡ lacks_parent schema.now (parent_of schema.now table) key.now rows.now }
{
    match schema.parent_of(table) {
        None => false,
        Some(parent) => {
            let len = schema.key_columns(parent).len();
            row_at(parent, first_values(key, len), rows).is_none()
        }
    }
}

fn merge_cell(alloc: Global, named: &Option<Value>, old: Option<&Value>) -> Result<Value, Refusal>
    ensures { MatchResult result
        (λ value. value ≡ unwrap_or named.now (unwrap_or (option_copied old.entry) Value.Null))
        (λ why. why ≡ Refusal.OutOfMemory) }
{
    match (named, old) {
        (Some(value), _) => value.copy(alloc),
        (None, Some(value)) => value.copy(alloc),
        (None, None) => Ok(Value::Null),
    }
}

/// The cells of a row once those that are named have changed: what is not named is kept, or NULL where there is no row. `OutOfMemory`:
/// memory ran out.
pub fn merge_cells(
    alloc: Global,
    named: &[Option<Value>],
    old: &[Value],
) -> Result<Vec<Value>, Refusal>
    ensures { MatchResult result (λ cells. cells.items ≡ merge_cells named.now old.now)
        (λ why. why ≡ Refusal.OutOfMemory) }
{
    let mut cells = Vec::with_capacity(alloc, named.len())?;
    for i in 0..named.len() {
        cells.push(merge_cell(alloc, &named[i], old.get(i))?)?;
    }
    Ok(cells)
}

// The refusal of a row that is too long to be packed.
fn check_length(alloc: Global, cells: &[Value]) -> Result<(), Refusal>
    ensures { MatchResult result
        (λ _. nat_lt longest_row (length (row_code cells.now)) ≡ false)
        (λ why.
        ((why ≡ Refusal.RowTooLong) × (nat_lt longest_row (length (row_code cells.now)) ≡ true))
        ⊎ (why ≡ Refusal.OutOfMemory)) }
{
    let _packed = pack(alloc, cells)?;
    Ok(())
}

fn cells_of<'a>(row: Option<&'a TableRow>) -> &'a [Value]
    ensures { result.now ≡ cells_of (option_copied row.entry) }
{
    match row {
        None => &[],
        Some(row) => row.cells.as_slice(),
    }
}

fn put(
    alloc: Global,
    schema: &Schema,
    rows: Vec<TableRow>,
    mutation: &CheckedMutation,
) -> Result<Vec<TableRow>, Refusal>
    requires table { IsTable schema.now mutation.now.table }
    requires kind { is_delete mutation.now.kind ≡ false }
    ensures { MatchResult result
        (λ after. apply_one schema.now rows.items mutation.now ≡ Ok after.items)
        (λ why. (apply_one schema.now rows.items mutation.now ≡ Err why) ⊎ (why ≡ Refusal.OutOfMemory)) }
{
    let key = mutation.key.as_slice();
    let before = row_at(mutation.table, key, rows.as_slice());
    if mutation.kind == MutationKind::Insert && before.is_some() {
        return Err(Refusal::Exists);
    }
    if mutation.kind == MutationKind::Update && before.is_none() {
        return Err(Refusal::Missing);
    }
    if lacks_parent(schema, mutation.table, key, rows.as_slice()) {
        return Err(Refusal::ParentMissing);
    }
    let cells = merge_cells(alloc, mutation.cells.as_slice(), cells_of(before))?;
    check_length(alloc, cells.as_slice())?;
    let row = TableRow {
        table: mutation.table,
        key: Seq::from_vec(copy_of_values(alloc, key)?),
        cells: Seq::from_vec(cells),
    };
    Ok(with_row(alloc, schema.key_columns(mutation.table), rows, row)?)
}

// The rows but those of these tables whose keys begin with this one.
fn without_rows(tables: &[usize], key: &[Value], rows: Vec<TableRow>) -> Vec<TableRow>
    ensures { result.items ≡ filter (λ q. not (is_in tables.now key.now q)) rows.items }
{
    let mut rows = rows;
    rows.retain(|row| is_outside(tables, key, row));
    rows
}

// The rows but the one with this key, and those below it.
fn without_under(
    alloc: Global,
    schema: &Schema,
    table: usize,
    key: &[Value],
    rows: Vec<TableRow>,
) -> Result<Vec<TableRow>, AllocError>
    ensures { IfOk result (λ rest. rest.items ≡ filter (λ q. not (is_under schema.now table key.now q)) rows.items) }
{
    let under = tables_under(alloc, schema, table)?;
    Ok(without_rows(under.as_slice(), key, rows))
}

fn has_row(table: usize, key: &[Value], rows: &[TableRow]) -> bool
    ensures { result ≡ is_some (row_at table key.now rows.now) }
{
    row_at(table, key, rows).is_some()
}

fn delete(
    alloc: Global,
    schema: &Schema,
    rows: Vec<TableRow>,
    mutation: &CheckedMutation,
) -> Result<Vec<TableRow>, Refusal>
    requires { is_delete mutation.now.kind ≡ true }
    ensures { MatchResult result
        (λ after. apply_one schema.now rows.items mutation.now ≡ Ok after.items)
        (λ why. (apply_one schema.now rows.items mutation.now ≡ Err why) ⊎ (why ≡ Refusal.OutOfMemory)) }
{
    let key = mutation.key.as_slice();
    if !has_row(mutation.table, key, rows.as_slice()) {
        return Ok(rows);
    }
    let held = is_delete_blocked(alloc, schema, mutation.table, key, rows.as_slice())?;
    if held {
        return Err(Refusal::HasChildren);
    }
    let rest = without_under(alloc, schema, mutation.table, key, rows)?;
    Ok(rest)
}

/// The rows once the mutation has run, or its first fault: `Exists`, `Missing`, `ParentMissing`, `HasChildren` or `RowTooLong`.
///
/// A Delete removes the row and all rows below it, where none of them is of a table without ON DELETE CASCADE. `OutOfMemory`:
/// memory ran out.
pub fn apply_one(
    alloc: Global,
    schema: &Schema,
    rows: Vec<TableRow>,
    mutation: &CheckedMutation,
) -> Result<Vec<TableRow>, Refusal>
    requires { IsTable schema.now mutation.now.table }
    ensures { MatchResult result
        (λ after. apply_one schema.now rows.items mutation.now ≡ Ok after.items)
        (λ why. (apply_one schema.now rows.items mutation.now ≡ Err why) ⊎ (why ≡ Refusal.OutOfMemory)) }
{
    if is_delete(mutation.kind) {
        return delete(alloc, schema, rows, mutation);
    }
    put(alloc, schema, rows, mutation)
}

/// The rows of a directory once the mutations have run on them one after another, or the fault of the first that has one.
///
/// The rows are in the order of their tables' numbers, and those of one table in the order of its key; so is the result. The mutations are
/// of tables of the schema, and were checked against it. `OutOfMemory`: memory ran out.
pub fn check_root(
    alloc: Global,
    schema: &Schema,
    rows: Vec<TableRow>,
    mutations: &[CheckedMutation],
) -> Result<Vec<TableRow>, Refusal>
    requires { All (λ m. IsTable schema.now m.table) mutations.now }
    ensures { MatchResult result
        (λ after. apply schema.now rows.items mutations.now ≡ Ok after.items)
        (λ why. (apply schema.now rows.items mutations.now ≡ Err why) ⊎ (why ≡ Refusal.OutOfMemory)) }
{
    let mut now = rows;
    for mutation in mutations {
        now = apply_one(alloc, schema, now, mutation)?;
    }
    Ok(now)
}
