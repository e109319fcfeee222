//! What is asked of the tables of a statement, by their numbers.
ghost use Rattle.std.specs.Prelude.{◌≡◌, ◌+◌, IfOk, ◌≤◌, ◌<◌, length, take, true};
ghost use Rattle.std.specs.List.{AllByRecursion};
ghost use Rattle.span_schema.specs.Numbers.{IsTable, root_of};
ghost use Rattle.span_leaves.specs.Leaves as spec;
ghost use Rattle.span_leaves.specs.Numbered.{is_number};

use span_schema::schema::Schema;
use std::alloc::AllocError;

/// The number in the schema of the statement's table with this number, the first of which is 1.
pub fn table_of(tables: &[usize], number: usize) -> usize
    requires { is_number tables.now number ≡ true }
    ensures { result ≡ spec.table_of tables.now number }
{
    tables[number - 1]
}

/// The number of columns of a table.
pub fn width_of(schema: &Schema, table: usize) -> usize
    requires { IsTable schema.now table }
    ensures { result ≡ spec.width_of schema.now table }
{
    schema.table(table).columns.len()
}

/// The places of the root table's key columns among the columns of a table of its family.
pub(crate) fn root_places(schema: &Schema, table: usize) -> &[usize]
    requires { IsTable schema.now table }
    ensures { result.now ≡ spec.root_places schema.now table }
{
    let places = schema.key_places(table);
    let len = schema.key_columns(schema.root_of(table)).len();
    &places[..len.min(places.len())]
}

/// The place of a column after others. The error: no memory holds a row of that width.
pub fn place_after(front: usize, place: usize) -> Result<usize, AllocError>
    ensures { IfOk result (λ sum. sum ≡ front + place) }
{
    front.checked_add(place).ok_or(AllocError)
}
