//! Tables as they are declared.
ghost use Rattle.std.specs.Prelude.{◌≡◌, ◌<◌, IfSome, length};
ghost use Rattle.span_schema.specs.Tables.{kind_of, is_same_name, column_place, table_place, parent_place, is_key_name};

use span_value::seq::Seq;
use span_value::text::Text;
use span_value::value::{ColumnType, Kind};

/// A table.
#[derive(Debug, Drop)]
pub struct Table {
    /// Its name, as it is spelt in the declaration.
    pub name: Text,
    /// Its columns, in the order of declaration.
    pub columns: Seq<Column>,
    /// The columns of its primary key, in the order of the key.
    pub key: Seq<KeyColumn>,
    /// The table that it is interleaved in, if there is one.
    pub parent: Option<Parent>,
}

/// A column.
#[derive(Debug, Drop)]
pub struct Column {
    pub name: Text,
    /// The type of its values, with their greatest length.
    pub kind: ColumnType,
    /// Whether NULL is refused.
    pub not_null: bool,
}

/// A column of a primary key.
#[derive(Debug, Drop)]
pub struct KeyColumn {
    pub name: Text,
    /// Whether it orders from the greatest value down.
    pub desc: bool,
}

/// The table that another is interleaved in.
#[derive(Debug, Drop)]
pub struct Parent {
    pub name: Text,
    /// Whether a row's deletion deletes the child rows.
    pub cascade: bool,
}

/// The kind of the values of a column.
pub fn kind_of_type(kind: ColumnType) -> Kind
    ensures { result ≡ kind_of kind }
{
    match kind {
        ColumnType::Int => Kind::Int,
        ColumnType::Str(_) => Kind::Str,
        ColumnType::Bytes(_) => Kind::Bytes,
        ColumnType::Bool => Kind::Bool,
    }
}

/// Whether two names are the same: ASCII letters of either case are equal.
pub fn are_same(a: &str, b: &str) -> bool
    ensures { result ≡ is_same_name a.now b.now }
{
    a.eq_ignore_ascii_case(b)
}

/// The place of the column with a name, counted from 0.
pub(crate) fn place_of_column(columns: &[Column], name: &str) -> Option<usize>
    ensures { result ≡ column_place columns.now name.now }
{
    columns.iter().position(|c| are_same(c.name.as_str(), name))
}

/// Whether a column of the key has the name.
pub fn is_in_key(key: &[KeyColumn], name: &str) -> bool
    ensures { result ≡ is_key_name key.now name.now }
{
    key.iter().any(|k| are_same(k.name.as_str(), name))
}

/// The place of the table that a table names as its parent, among those declared before it.
pub(crate) fn place_of_parent(before: &[Table], table: &Table) -> Option<usize>
    ensures place { result ≡ parent_place before.now table.now }
    ensures within { IfSome result (λ p. p < length before.now) }
{
    match &table.parent {
        None => None,
        Some(parent) => place_of_table(before, parent.name.as_str()),
    }
}

/// The place of the table with a name, counted from 0.
pub(crate) fn place_of_table(tables: &[Table], name: &str) -> Option<usize>
    ensures place { result ≡ table_place tables.now name.now }
    ensures within { IfSome result (λ p. p < length tables.now) }
{
    tables.iter().position(|t| are_same(t.name.as_str(), name))
}
