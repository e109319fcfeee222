//! The values of a row at some columns.
ghost use Rattle.std.specs.Prelude.{◌≡◌, ◌∷◌, ◌++◌, [], OnOk};
ghost use Rattle.span_expr.specs.Operators as operators;
ghost use Rattle.span_query.specs.Groups.{columns_at};

use super::row::copy_of;
use span_value::value::Value;
use std::alloc::{AllocError, Global};

/// Adds a copy of a row's value at a place, NULL where it has no such place.
fn add_column(
    alloc: Global,
    values: &mut Vec<Value>,
    row: &[Value],
    place: usize,
) -> Result<(), AllocError>
    ensures { OnOk result (values.new.items ≡ values.old.items ++ operators.column_of row.now place ∷ []) }
{
    let value = match row.get(place) {
        None | Some(Value::Null) => Value::Null,
        Some(Value::Int(number)) => Value::Int(*number),
        Some(value) => copy_of(alloc, value)?,
    };
    values.push(value)?;
    Ok(())
}

/// Makes a buffer the values of a row at the columns.
pub fn put_columns(
    alloc: Global,
    columns: &[usize],
    row: &[Value],
    values: &mut Vec<Value>,
) -> Result<(), AllocError>
    ensures { OnOk result (values.new.items ≡ columns_at columns.now row.now) }
{
    values.clear();
    for column in columns {
        add_column(alloc, values, row, *column)?;
    }
    Ok(())
}
