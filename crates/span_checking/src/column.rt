//! What a column takes, and which columns cells name.
ghost use Rattle.std.specs.Prelude.{◌≡◌, ℕ, List, Some, false, map, nat_lt, position, slice_get, IfSome, IsTrue, MatchResult, length, is_some};
ghost use Rattle.std.specs.List.{list_all};
ghost use Rattle.std.specs.Option.{option_copied};
ghost use Rattle.std.specs.Str.{chars};
ghost use Rattle.span_schema.specs.Fitting.{Fits};
ghost use Rattle.span_schema.specs.Tables.{is_same_name};
ghost use Rattle.span_schema.specs.Rules.{has_repeated_column};
ghost use Rattle.span_mutate.specs.Typed.{AreNamed, is_named_kind, are_named_kinds};
ghost use Rattle.span_mutate.specs.declared.mutation.NamedValue.{NamedValue};
ghost use Rattle.span_checking.specs.Columns.{column_named, cell_column, has_wrong_type, is_null, is_null_refused, exceeds, exceeds_type, is_too_long, is_named, is_lacking, lacks_cell, value_named, values_named};
ghost use Rattle.span_checking.specs.InOrder.{is_cell_of, are_cells_at, is_name_of, are_names_at, are_in_order, places_break};
ghost use Rattle.span_checking.specs.NamedBatches.{is_full};

use span_mutate::mutation::NamedValue;
use span_schema::fitting::is_of_kind;
use span_schema::table::{Column, KeyColumn, Table, are_same, is_in_key, kind_of_type};
use span_value::refusal::Refusal;
use span_value::text::Text;
use span_value::value::{ColumnType, Kind, Value};
use std::alloc::Global;

fn column_of<'a>(columns: &'a [Column], name: &str) -> Option<&'a Column>
    ensures { option_copied result ≡ column_named columns.now name.now }
{
    columns.iter().find(|c| are_same(c.name.as_str(), name))
}

/// The column with a name that is outside the key.
pub(crate) fn cell_column<'a>(table: &'a Table, name: &str) -> Option<&'a Column>
    ensures { option_copied result ≡ cell_column table.now name.now }
{
    if is_in_key(table.key.as_slice(), name) {
        return None;
    }
    column_of(table.columns.as_slice(), name)
}

/// Whether the value is of another type than the column.
pub(crate) fn has_wrong_type(column: Option<&Column>, value: &Value) -> bool
    ensures { result ≡ has_wrong_type (option_copied column.entry) value.now }
{
    match column {
        None => false,
        Some(c) => !is_of_kind(kind_of_type(c.kind), value),
    }
}

fn is_null(value: &Value) -> bool
    ensures { result ≡ is_null value.now }
{
    match value {
        Value::Null => true,
        _ => false,
    }
}

/// Whether the value is NULL and the column is NOT NULL.
pub(crate) fn is_null_refused(column: Option<&Column>, value: &Value) -> bool
    ensures { result ≡ is_null_refused (option_copied column.entry) value.now }
{
    match column {
        None => false,
        Some(c) => c.not_null && is_null(value),
    }
}

fn exceeds(most: Option<u64>, len: usize) -> bool
    ensures { result ≡ exceeds most len }
{
    match most {
        None => false,
        Some(most) => most < len as u64,
    }
}

fn char_count(text: &str) -> usize
    ensures { result ≡ length (chars text.now) }
{
    text.chars().count()
}

// Whether the text has more characters than `most`.
fn is_text_longer(most: u64, text: &str) -> bool
    ensures { result ≡ nat_lt most (length (chars text.now)) }
{
    // No character has less than a byte.
    if text.len() as u64 <= most {
        return false;
    }
    most < char_count(text) as u64
}

fn exceeds_chars(most: Option<u64>, text: &str) -> bool
    ensures { result ≡ exceeds most (length (chars text.now)) }
{
    match most {
        None => false,
        Some(most) => is_text_longer(most, text),
    }
}

fn exceeds_type(kind: ColumnType, value: &Value) -> bool
    ensures { result ≡ exceeds_type kind value.now }
{
    match (kind, value) {
        (ColumnType::Str(most), Value::Str(text)) => exceeds_chars(most, text.as_str()),
        (ColumnType::Bytes(most), Value::Bytes(bytes)) => exceeds(most, bytes.len()),
        _ => false,
    }
}

/// Whether the value is longer than the column allows.
pub(crate) fn is_too_long(column: Option<&Column>, value: &Value) -> bool
    ensures { result ≡ is_too_long (option_copied column.entry) value.now }
{
    match column {
        None => false,
        Some(c) => exceeds_type(c.kind, value),
    }
}

/// The column at a place.
pub(crate) fn column_at(columns: &[Column], place: usize) -> Option<&Column>
    ensures { option_copied result ≡ slice_get columns.now place }
{
    columns.get(place)
}

/// Whether NULL is in a NOT NULL column of the key, whose columns are at these places.
pub(crate) fn has_null(columns: &[Column], places: &[usize], values: &[Value]) -> bool
    ensures { result ≡ places_break is_null_refused columns.now places.now values.now }
{
    for i in 0..places.len().min(values.len()) {
        if is_null_refused(column_at(columns, places[i]), &values[i]) {
            return true;
        }
    }
    false
}

/// Whether a value of the key, whose columns are at these places, is longer than its column allows.
pub(crate) fn has_long(columns: &[Column], places: &[usize], values: &[Value]) -> bool
    ensures { result ≡ places_break is_too_long columns.now places.now values.now }
{
    for i in 0..places.len().min(values.len()) {
        if is_too_long(column_at(columns, places[i]), &values[i]) {
            return true;
        }
    }
    false
}

// Whether the cell names the column, letter by letter.
fn is_cell_of(column: Option<&Column>, cell: &NamedValue) -> bool
    ensures { result ≡ is_cell_of (option_copied column.entry) cell.now }
{
    match column {
        None => false,
        Some(c) => cell.column.as_str() == c.name.as_str(),
    }
}

/// Whether there is one cell for the column at each of these places, in order.
pub(crate) fn are_cells_at(columns: &[Column], places: &[usize], cells: &[NamedValue]) -> bool
    ensures { result ≡ are_cells_at columns.now places.now cells.now }
{
    if places.len() != cells.len() {
        return false;
    }
    for i in 0..places.len() {
        if !is_cell_of(column_at(columns, places[i]), &cells[i]) {
            return false;
        }
    }
    true
}

// Whether the name is the column's, letter by letter.
fn is_name_of(column: Option<&Column>, name: &Text) -> bool
    ensures { result ≡ is_name_of (option_copied column.entry) name.now }
{
    match column {
        None => false,
        Some(c) => name.as_str() == c.name.as_str(),
    }
}

/// Whether there is one name for the column at each of these places, in order.
pub(crate) fn are_names_at(columns: &[Column], places: &[usize], names: &[Text]) -> bool
    ensures { result ≡ are_names_at columns.now places.now names.now }
{
    if places.len() != names.len() {
        return false;
    }
    for i in 0..places.len() {
        if !is_name_of(column_at(columns, places[i]), &names[i]) {
            return false;
        }
    }
    true
}

fn are_there(cells: &[Option<Value>]) -> bool
    ensures { result ≡ list_all is_some cells.now }
{
    cells.iter().all(|cell| cell.is_some())
}

/// Whether there is a value for each of the names.
pub(crate) fn is_full(names: &[Text], cells: &[Option<Value>]) -> bool
    ensures { result ≡ is_full names.now cells.now }
{
    names.len() == cells.len() && are_there(cells)
}

/// Whether a cell is of the column with this name.
pub(crate) fn is_named(cells: &[NamedValue], name: &str) -> bool
    ensures { result ≡ is_named cells.now name.now }
{
    cells.iter().any(|c| are_same(c.column.as_str(), name))
}

/// Whether the cells name not all NOT NULL columns outside the key.
pub(crate) fn lacks_cell(key: &[KeyColumn], cells: &[NamedValue], columns: &[Column]) -> bool
    ensures { result ≡ lacks_cell key.now cells.now columns.now }
{
    columns.iter().any(|c| is_lacking(key, cells, c))
}

fn is_lacking(key: &[KeyColumn], cells: &[NamedValue], column: &Column) -> bool
    ensures { result ≡ is_lacking key.now cells.now column.now }
{
    column.not_null
        && !is_in_key(key, column.name.as_str())
        && !is_named(cells, column.name.as_str())
}

// The place of the first cell of the column with a name.
fn cell_place(cells: &[NamedValue], name: &str) -> Option<usize>
    ensures { result ≡ position (λ c. is_same_name c.column name.now) cells.now }
{
    cells.iter().position(|c| are_same(c.column.as_str(), name))
}

// Takes the value that the cells give the column with a name. Those of other names are left.
fn take_value(cells: &mut Vec<NamedValue>, name: &str) -> Option<Value>
    ensures value { result ≡ value_named cells.old.items name.now }
    ensures rest { (other : List ℕ)
        → is_same_name other name.now ≡ false
        → value_named cells.new.items other ≡ value_named cells.old.items other }
{
    match cell_place(cells.as_slice(), name) {
        None => None,
        Some(at) => {
            let NamedValue { value, .. } = cells.remove(at);
            Some(value)
        }
    }
}

// For each column outside the key, in the order of declaration, the value that the cells give it. The values are moved. `OutOfMemory`:
// memory ran out.
fn values_named(
    alloc: Global,
    key: &[KeyColumn],
    cells: Vec<NamedValue>,
    columns: &[Column],
) -> Result<Vec<Option<Value>>, Refusal>
    requires { has_repeated_column columns.now ≡ false }
    ensures { MatchResult result
        (λ values. values.items ≡ values_named key.now cells.items columns.now)
        (λ why. why ≡ Refusal.OutOfMemory) }
{
    let mut left = cells;
    // The key names columns of the table, each once.
    let mut values = Vec::with_capacity(alloc, columns.len().saturating_sub(key.len()))?;
    for column in columns {
        if !is_in_key(key, column.name.as_str()) {
            values.push(take_value(&mut left, column.name.as_str()))?;
        }
    }
    Ok(values)
}

// The values of cells, in order. They are moved.
fn values_in_order(alloc: Global, cells: Vec<NamedValue>) -> Result<Vec<Option<Value>>, Refusal>
    ensures { MatchResult result
        (λ values. values.items ≡ map (λ (c : NamedValue). Some c.value) cells.items)
        (λ why. why ≡ Refusal.OutOfMemory) }
{
    let mut values = Vec::with_capacity(alloc, cells.len())?;
    for cell in cells {
        let NamedValue { value, .. } = cell;
        values.push_reserved(Some(value));
    }
    Ok(values)
}

/// For each column outside the key, in the order of declaration, the value that the cells give it. The values are moved. `in_order` is
/// whether the cells name these columns in their order: then nothing is looked for. `OutOfMemory`: memory ran out.
pub(crate) fn values_of(
    alloc: Global,
    table: &Table,
    in_order: bool,
    cells: Vec<NamedValue>,
) -> Result<Vec<Option<Value>>, Refusal>
    requires once { has_repeated_column table.now.columns ≡ false }
    requires order { in_order ≡ are_in_order table.now cells.items }
    ensures { MatchResult result
        (λ values. values.items ≡ values_named table.now.key cells.items table.now.columns)
        (λ why. why ≡ Refusal.OutOfMemory) }
{
    if in_order {
        return values_in_order(alloc, cells);
    }
    values_named(alloc, table.key.as_slice(), cells, table.columns.as_slice())
}

// Whether the value that is named, if one is, is NULL or of the kind. Then it fits a column of the kind.
fn is_named_kind(kind: Kind, named: &Option<Value>) -> bool
    ensures kind { result ≡ is_named_kind kind named.now }
    ensures fits { IsTrue result → IfSome named.now (Fits kind) }
{
    match named {
        None => true,
        Some(value) => is_of_kind(kind, value),
    }
}

/// Whether there is for each kind a value that is NULL or of the kind, or none. Then they fit columns of the kinds.
pub(crate) fn have_named_kinds(kinds: &[Kind], named: &[Option<Value>]) -> bool
    ensures kinds { result ≡ are_named_kinds kinds.now named.now }
    ensures fits { IsTrue result → AreNamed kinds.now named.now }
{
    if kinds.len() != named.len() {
        return false;
    }
    for i in 0..kinds.len() {
        if !is_named_kind(kinds[i], &named[i]) {
            return false;
        }
    }
    true
}
