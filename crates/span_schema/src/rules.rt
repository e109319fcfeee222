//! The rules that each table of a schema meets, checked in one order.
ghost use Rattle.std.specs.Prelude.{◌≡◌, ◌<◌, ◌≤◌, MatchResult, length};
ghost use Rattle.span_schema.specs.Limits.{most_tables, most_columns, most_levels, longest_column};
ghost use Rattle.span_schema.specs.declared.rules.TheConstants.{MOST_TABLES, MOST_COLUMNS, MOST_LEVELS, LONGEST_COLUMN};
ghost use Rattle.span_schema.specs.Tables.{table_place, is_same_type, type_named, table_named};
ghost use Rattle.std.specs.Option.{option_copied};
ghost use Rattle.span_value.specs.Results.{first_cause};
ghost use Rattle.span_schema.specs.Rules.{has_too_many, has_bad_column, has_repeated_column, has_repeated_key, has_bad_length, has_bad_lengths, has_no_parent, has_other_key, has_unknown_key, extends_key, begins_key, is_same_key_column, causes_of};

use super::table::{
    Column, KeyColumn, Table, are_same, is_in_key, place_of_column, place_of_parent, place_of_table,
};
use span_value::refusal::Refusal;
use span_value::value::ColumnType;

/// The most tables of a schema.
pub const MOST_TABLES: usize = 64;

/// The most columns of a table.
pub const MOST_COLUMNS: usize = 64;

/// The most levels of tables, a root table being at level 1.
pub const MOST_LEVELS: usize = 7;

/// The greatest length of a STRING column in characters, and of a BYTES column in bytes.
pub const LONGEST_COLUMN: u64 = 1_048_576;

/// The limits are the numbers that the definitions name.
pub fn limits_are_stated()
    ensures most_tables { MOST_TABLES ≡ most_tables }
    ensures most_columns { MOST_COLUMNS ≡ most_columns }
    ensures most_levels { MOST_LEVELS ≡ most_levels }
    ensures longest_column { LONGEST_COLUMN ≡ longest_column }
{}

/// The first rule that a table breaks, if it breaks one. The tables before it meet the rules; `level` is its own level.
pub(crate) fn check_table(before: &[Table], table: &Table, level: usize) -> Result<(), Refusal>
    ensures { MatchResult result
        (λ _. first_cause (causes_of before.now table.now level) ≡ None)
        (λ why. first_cause (causes_of before.now table.now level) ≡ Some why) }
{
    if is_too_many(before, table) {
        return Err(Refusal::TooMany);
    }
    if place_of_table(before, table.name.as_str()).is_some() {
        return Err(Refusal::DuplicateTable);
    }
    if breaks_columns(table) {
        return Err(Refusal::BadColumn);
    }
    if lacks_parent(before, table) {
        return Err(Refusal::NoParent);
    }
    if leaves_parent_key(before, table) {
        return Err(Refusal::KeyNotPrefixed);
    }
    if level > MOST_LEVELS {
        return Err(Refusal::HierarchyTooDeep);
    }
    Ok(())
}

fn is_too_many(before: &[Table], table: &Table) -> bool
    ensures { result ≡ has_too_many before.now table.now }
{
    before.len() >= MOST_TABLES || table.columns.len() > MOST_COLUMNS
}

fn breaks_columns(table: &Table) -> bool
    ensures { result ≡ has_bad_column table.now }
{
    let columns = table.columns.as_slice();
    let key = table.key.as_slice();
    repeats_column(columns)
        || key.len() == 0
        || has_unknown(columns, key)
        || repeats_key_column(key)
        || has_wrong_length(columns)
}

fn repeats_column(columns: &[Column]) -> bool
    ensures { result ≡ has_repeated_column columns.now }
{
    for (i, column) in columns.iter().enumerate() {
        if place_of_column(&columns[i + 1..], column.name.as_str()).is_some() {
            return true;
        }
    }
    false
}

fn repeats_key_column(key: &[KeyColumn]) -> bool
    ensures { result ≡ has_repeated_key key.now }
{
    for (i, column) in key.iter().enumerate() {
        if is_in_key(&key[i + 1..], column.name.as_str()) {
            return true;
        }
    }
    false
}

fn has_unknown(columns: &[Column], key: &[KeyColumn]) -> bool
    ensures { result ≡ has_unknown_key columns.now key.now }
{
    key.iter()
        .any(|k| place_of_column(columns, k.name.as_str()).is_none())
}

fn has_wrong_length(columns: &[Column]) -> bool
    ensures { result ≡ has_bad_lengths columns.now }
{
    columns.iter().any(|c| is_bad_length(c.kind))
}

fn is_bad_length(kind: ColumnType) -> bool
    ensures { result ≡ has_bad_length kind }
{
    match kind {
        ColumnType::Str(Some(most)) => most == 0 || most > LONGEST_COLUMN,
        ColumnType::Bytes(Some(most)) => most == 0 || most > LONGEST_COLUMN,
        _ => false,
    }
}

fn lacks_parent(before: &[Table], table: &Table) -> bool
    ensures { result ≡ has_no_parent before.now table.now }
{
    table.parent.is_some() && place_of_parent(before, table).is_none()
}

fn leaves_parent_key(before: &[Table], table: &Table) -> bool
    ensures { result ≡ has_other_key before.now table.now }
{
    match &table.parent {
        None => false,
        Some(parent) => match table_of(before, parent.name.as_str()) {
            None => false,
            Some(above) => !extends(above, table),
        },
    }
}

fn table_of<'a>(tables: &'a [Table], name: &str) -> Option<&'a Table>
    ensures { option_copied result ≡ table_named tables.now name.now }
{
    tables.iter().find(|t| are_same(t.name.as_str(), name))
}

fn extends(above: &Table, table: &Table) -> bool
    ensures { result ≡ extends_key above.now table.now }
{
    above.key.len() < table.key.len() && begins(above, table)
}

fn begins(above: &Table, table: &Table) -> bool
    requires { length above.now.key < length table.now.key }
    ensures { result ≡ begins_key above.now.columns table.now.columns above.now.key table.now.key }
{
    let first = above.key.as_slice();
    let second = table.key.as_slice();
    for i in 0..first.len() {
        if !is_same_key_column(
            above.columns.as_slice(),
            table.columns.as_slice(),
            &first[i],
            &second[i],
        ) {
            return false;
        }
    }
    true
}

fn is_same_key_column(columns: &[Column], others: &[Column], a: &KeyColumn, b: &KeyColumn) -> bool
    ensures { result ≡ is_same_key_column columns.now others.now a.now b.now }
{
    are_same(a.name.as_str(), b.name.as_str())
        && a.desc == b.desc
        && have_same_type(
            type_of(columns, a.name.as_str()),
            type_of(others, b.name.as_str()),
        )
}

/// The type of the column with a name.
pub(crate) fn type_of(columns: &[Column], name: &str) -> Option<ColumnType>
    ensures { result ≡ type_named columns.now name.now }
{
    columns
        .iter()
        .find(|c| are_same(c.name.as_str(), name))
        .map(|c| c.kind)
}

fn have_same_type(a: Option<ColumnType>, b: Option<ColumnType>) -> bool
    ensures { result ≡ is_same_type a b }
{
    a == b
}
