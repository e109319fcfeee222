//! The items of a FROM: tables and derived tables, by their names and with their columns.
ghost use Rattle.std.specs.Prelude.{◌≡◌, IfOk, map};
ghost use Rattle.span_schema.specs.Numbers.{columns_of, IsTable};
ghost use Rattle.span_operators.specs.Steps.{Gives};
ghost use Rattle.span_blocks.specs.Sources as spec;
ghost use Rattle.span_binder.specs.declared.source.TheConstants.{MOST_TABLE_NAMES};

use span_blocks::bound::{Source, TypedQuery};
use span_query::query::{Item, OutputColumn};
use span_schema::schema::Schema;
use span_schema::table::{Column, kind_of_type};
use span_trees::tree::Spelling;
use span_value::refusal::Refusal;
use span_value::seq::Seq;
use span_value::text::Text;
use sqlite_items::Boxed;
use std::alloc::{AllocError, Global};

/// The most table names that a query may have.
pub const MOST_TABLE_NAMES: usize = 8;

/// The limit is the number that the definitions name.
pub fn limit_is_stated()
    ensures { MOST_TABLE_NAMES ≡ spec.most_table_names }
{}

/// The alias of a table, or else its name.
fn name_or_alias<'a>(name: &'a Spelling, alias: &'a Option<Spelling>) -> &'a str
    ensures { result.now ≡ spec.name_or_alias name.now alias.now }
{
    match alias {
        None => name.text.as_str(),
        Some(alias) => alias.text.as_str(),
    }
}

fn columns_of(alloc: Global, columns: &[Column]) -> Result<Seq<OutputColumn>, AllocError>
    ensures { IfOk result (λ all. all ≡ map spec.table_column columns.now) }
{
    let mut all = Seq::new(alloc);
    for column in columns {
        all.push(OutputColumn {
            name: Some(Text::from_str(alloc, column.name.as_str())?),
            kind: kind_of_type(column.kind),
        })?;
    }
    Ok(all)
}

/// A table, as a leaf with this number.
fn table_source(
    alloc: Global,
    schema: &Schema,
    name: &str,
    leaf: usize,
    table: usize,
) -> Result<Source, AllocError>
    requires { IsTable schema.now table }
    ensures { IfOk result (λ source. source ≡ spec.table_source schema.now name.now leaf table) }
{
    Ok(Source {
        item: Item::Table(leaf),
        name: Text::from_str(alloc, name)?,
        columns: columns_of(alloc, schema.table(table).columns.as_slice())?,
    })
}

/// One more table name of a query, after the leaves before it. The error is `TooManyTables` where there are `MOST_TABLE_NAMES` of them,
/// `NoTable` where no table has the name, or out of memory.
pub(crate) fn named_source(
    alloc: Global,
    schema: &Schema,
    name: &Spelling,
    alias: &Option<Spelling>,
    leaves: Seq<usize>,
) -> Result<(Source, Seq<usize>), Refusal>
    ensures meant { Gives result (spec.named_source schema.now name.now alias.now leaves) }
    ensures tables { spec.AreTables schema.now leaves → spec.HasTables schema.now result }
{
    if leaves.len() >= MOST_TABLE_NAMES {
        return Err(Refusal::TooManyTables);
    }
    let Some(table) = schema.find(name.text.as_str()) else {
        return Err(Refusal::NoTable);
    };
    let source = table_source(
        alloc,
        schema,
        name_or_alias(name, alias),
        leaves.len() + 1,
        table,
    )?;
    let mut leaves = leaves;
    leaves.push(table)?;
    Ok((source, leaves))
}

/// A derived table of its query.
pub(crate) fn derived_source(
    alloc: Global,
    name: &Spelling,
    bound: TypedQuery,
) -> Result<Source, AllocError>
    ensures { IfOk result (λ source. source ≡ spec.derived_source name.now bound) }
{
    let TypedQuery { query, columns } = bound;
    Ok(Source {
        item: Item::Derived(Boxed::new(alloc, query)?),
        name: Text::from_str(alloc, name.text.as_str())?,
        columns,
    })
}
