//! The columns that the names of a batch are, where these are columns outside the key, in any order: they are looked up once for all
//! rows of the batch.
ghost use Rattle.std.specs.Prelude.{◌≡◌, [], map, position, slice_get, All, IfOk, IfSome, MatchResult};
ghost use Rattle.std.specs.Option.{option_copied};
ghost use Rattle.span_schema.specs.Numbers.{IsTable, columns_of, other_places};
ghost use Rattle.span_schema.specs.Tables.{column_place, is_same_name};
ghost use Rattle.span_checking.specs.NamedBatches.{IsNamed, are_new_names, has_name, is_new_name, name_of, place_named};

use super::check::table_number;
use super::column::{cell_column, column_at};
use span_mutate::batch::Heading;
use span_mutate::mutation::{CheckedMutation, is_delete};
use span_schema::schema::Schema;
use span_schema::table::{Column, Table, are_same};
use span_value::refusal::Refusal;
use span_value::text::Text;
use std::alloc::Global;

/// Which columns the names of a batch are.
#[derive(Drop)]
pub(crate) struct NamedColumns {
    /// The number of the table.
    pub table: usize,
    /// For each name the place of its column among those of the table.
    pub places: Vec<usize>,
    /// For each column outside the key, in the order of declaration, which of the names it has, or None where it has none.
    pub names: Vec<Option<usize>>,
}

fn has_name(names: &[Text], name: &str) -> bool
    ensures { result ≡ has_name names.now name.now }
{
    names.iter().any(|n| are_same(n.as_str(), name))
}

// Whether the name is that of a column outside the key, and none of those before it is the same.
fn is_new_name(table: &Table, before: &[Text], name: &str) -> bool
    ensures { result ≡ is_new_name table.now before.now name.now }
{
    cell_column(table, name).is_some() && !has_name(before, name)
}

// Whether the names are those of columns outside the key, each once.
fn are_new_names(table: &Table, names: &[Text]) -> bool
    ensures { result ≡ are_new_names table.now [] names.now }
{
    for i in 0..names.len() {
        if !is_new_name(table, &names[..i], names[i].as_str()) {
            return false;
        }
    }
    true
}

// The place of the column with a name, or how many columns there are.
fn place_named(columns: &[Column], name: &str) -> usize
    ensures { result ≡ place_named columns.now name.now }
{
    match column_place(columns, name) {
        None => columns.len(),
        Some(place) => place,
    }
}

fn column_place(columns: &[Column], name: &str) -> Option<usize>
    ensures { result ≡ column_place columns.now name.now }
{
    columns.iter().position(|c| are_same(c.name.as_str(), name))
}

fn places_named(alloc: Global, columns: &[Column], names: &[Text]) -> Result<Vec<usize>, Refusal>
    ensures { MatchResult result
        (λ places. places.items ≡ map (place_named columns.now) names.now)
        (λ why. why ≡ Refusal.OutOfMemory) }
{
    let mut places = Vec::with_capacity(alloc, names.len())?;
    for name in names {
        places.push(place_named(columns, name.as_str()))?;
    }
    Ok(places)
}

// Which of the names is the column's, if one is.
fn name_of(names: &[Text], column: Option<&Column>) -> Option<usize>
    ensures { result ≡ name_of names.now (option_copied column.entry) }
{
    match column {
        None => None,
        Some(c) => name_place(names, c.name.as_str()),
    }
}

fn name_place(names: &[Text], name: &str) -> Option<usize>
    ensures { result ≡ position (λ n. is_same_name n name.now) names.now }
{
    names.iter().position(|n| are_same(n.as_str(), name))
}

// For the column at each of these places which of the names it has.
fn names_at(
    alloc: Global,
    columns: &[Column],
    places: &[usize],
    names: &[Text],
) -> Result<Vec<Option<usize>>, Refusal>
    ensures { MatchResult result
        (λ found. found.items ≡ map (λ p. name_of names.now (slice_get columns.now p)) places.now)
        (λ why. why ≡ Refusal.OutOfMemory) }
{
    let mut found = Vec::with_capacity(alloc, places.len())?;
    for place in places {
        found.push(name_of(names, column_at(columns, *place)))?;
    }
    Ok(found)
}

// The columns of names that are new.
fn columns_named(
    alloc: Global,
    schema: &Schema,
    number: usize,
    names: &[Text],
) -> Result<NamedColumns, Refusal>
    requires { IsTable schema.now number }
    ensures { IfOk result (λ c.
        (c.table ≡ number)
        × (c.places.items ≡ map (place_named (columns_of schema.now number)) names.now)
        × (c.names.items
        ≡ map (λ p. name_of names.now (slice_get (columns_of schema.now number) p)) (other_places schema.now number))) }
{
    let columns = schema.table(number).columns.as_slice();
    let places = places_named(alloc, columns, names)?;
    let names = names_at(alloc, columns, schema.other_places(number), names)?;
    Ok(NamedColumns {
        table: number,
        places,
        names,
    })
}

/// The columns of a batch that puts rows, where its names are those of columns outside the key, each once. Where memory runs out
/// there are none.
pub(crate) fn named_columns(
    alloc: Global,
    schema: &Schema,
    before: &[CheckedMutation],
    heading: &Heading,
) -> Option<NamedColumns>
    requires { All (λ m. IsTable schema.now m.table) before.now }
    ensures { IfSome result (IsNamed schema.now heading.now) }
{
    if is_delete(heading.kind) {
        return None;
    }
    let number = table_number(schema, before, heading.table.as_str())?;
    if !are_new_names(schema.table(number), heading.columns.as_slice()) {
        return None;
    }
    match columns_named(alloc, schema, number, heading.columns.as_slice()) {
        Err(_) => None,
        Ok(columns) => Some(columns),
    }
}
