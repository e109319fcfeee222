//! What is asked of a table again and again, worked out once.
ghost use Rattle.std.specs.Prelude.{◌≡◌, IfOk, map, length};
ghost use Rattle.std.specs.List.{range_with_len};
ghost use Rattle.span_schema.specs.Layouts.{key_part, key_parts, key_places, other_places, other_kinds, layout_of, children_in};
ghost use Rattle.span_schema.specs.Lineages.{parent_at, children_at, lineage_at};

use super::lineage::Lineage;
use super::rules::type_of;
use super::table::{Column, KeyColumn, Table, is_in_key, kind_of_type, place_of_column};
use span_value::seq::Seq;
use span_value::value::Kind;
use std::alloc::{AllocError, Global};

/// A column of a key, as its values are coded.
#[derive(Clone, Copy, Debug, PartialEq, Eq)]
pub struct KeyPart {
    pub kind: Kind,
    /// Whether it orders from the greatest value down.
    pub desc: bool,
}

/// What is asked of a table alone.
#[derive(Debug, Drop)]
pub struct Layout {
    /// The columns of the key, in the order of the key.
    pub key: Seq<KeyPart>,
    /// The places of the key's columns among the table's columns.
    pub key_places: Seq<usize>,
    /// The places of the other columns, in the order of declaration.
    pub other_places: Seq<usize>,
    /// The kinds of the other columns, in the order of declaration.
    pub other_kinds: Seq<Kind>,
}

/// The layout of each table.
pub(crate) fn layouts_of(alloc: Global, tables: &[Table]) -> Result<Vec<Layout>, AllocError>
    ensures { IfOk result (λ layouts. layouts.items ≡ map layout_of tables.now) }
{
    let mut layouts = Vec::new(alloc);
    for table in tables {
        layouts.push(layout_of_table(alloc, table)?)?;
    }
    Ok(layouts)
}

fn layout_of_table(alloc: Global, table: &Table) -> Result<Layout, AllocError>
    ensures { IfOk result (λ layout. layout ≡ layout_of table.now) }
{
    let columns = table.columns.as_slice();
    let key = table.key.as_slice();
    Ok(Layout {
        key: Seq::from_vec(parts_of_key(alloc, columns, key)?),
        key_places: Seq::from_vec(places_of_key(alloc, columns, key)?),
        other_places: Seq::from_vec(places_of_others(alloc, columns, key)?),
        other_kinds: Seq::from_vec(kinds_of_others(alloc, columns, key)?),
    })
}

fn parts_of_key(
    alloc: Global,
    columns: &[Column],
    key: &[KeyColumn],
) -> Result<Vec<KeyPart>, AllocError>
    ensures { IfOk result (λ parts. parts.items ≡ key_parts columns.now key.now) }
{
    let mut parts = Vec::new(alloc);
    for column in key {
        if let Some(kind) = type_of(columns, column.name.as_str()) {
            parts.push(KeyPart {
                kind: kind_of_type(kind),
                desc: column.desc,
            })?;
        }
    }
    Ok(parts)
}

fn places_of_key(
    alloc: Global,
    columns: &[Column],
    key: &[KeyColumn],
) -> Result<Vec<usize>, AllocError>
    ensures { IfOk result (λ places. places.items ≡ key_places columns.now key.now) }
{
    let mut places = Vec::new(alloc);
    for column in key {
        if let Some(place) = place_of_column(columns, column.name.as_str()) {
            places.push(place)?;
        }
    }
    Ok(places)
}

fn places_of_others(
    alloc: Global,
    columns: &[Column],
    key: &[KeyColumn],
) -> Result<Vec<usize>, AllocError>
    ensures { IfOk result (λ places. places.items ≡ other_places key.now 0 columns.now) }
{
    let mut places = Vec::new(alloc);
    for (i, column) in columns.iter().enumerate() {
        if !is_in_key(key, column.name.as_str()) {
            places.push(i)?;
        }
    }
    Ok(places)
}

fn kinds_of_others(
    alloc: Global,
    columns: &[Column],
    key: &[KeyColumn],
) -> Result<Vec<Kind>, AllocError>
    ensures { IfOk result (λ kinds. kinds.items ≡ other_kinds key.now columns.now) }
{
    let mut kinds = Vec::new(alloc);
    for column in columns {
        if !is_in_key(key, column.name.as_str()) {
            kinds.push(kind_of_type(column.kind))?;
        }
    }
    Ok(kinds)
}

/// The numbers of the children of each table, in the order of declaration.
pub(crate) fn children_of(
    alloc: Global,
    lines: &[Lineage],
    tables: &[Table],
) -> Result<Vec<Seq<usize>>, AllocError>
    requires { lines.now ≡ map (lineage_at tables.now) (range_with_len 0 (length tables.now)) }
    ensures { IfOk result
        (λ children. children.items ≡ map (children_at tables.now) (range_with_len 0 (length tables.now))) }
{
    let mut children = Vec::new(alloc);
    for i in 0..tables.len() {
        children.push(Seq::from_vec(children_of_place(alloc, lines, i)?))?;
    }
    Ok(children)
}

fn children_of_place(
    alloc: Global,
    lines: &[Lineage],
    parent: usize,
) -> Result<Vec<usize>, AllocError>
    ensures { IfOk result (λ children. children.items ≡ children_in parent 1 lines.now) }
{
    let mut children = Vec::new(alloc);
    for (i, line) in lines.iter().enumerate() {
        if line.parent == Some(parent) {
            children.push(i + 1)?;
        }
    }
    Ok(children)
}
