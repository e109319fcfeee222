//! How long the coded keys of a table are at most: a longer key is one of another table.
ghost use Rattle.std.specs.Prelude.{◌≡◌};
ghost use Rattle.span_schema.specs.Numbers.{IsTable};
ghost use Rattle.span_entries.specs.Longest as spec;

use span_keycode::key::LONGEST_KEY;
use span_schema::schema::Schema;
use span_value::value::Kind;

/// The most bytes that code a value of a kind in a key.
fn longest_value(kind: Kind) -> usize
    ensures { result ≡ spec.longest_value kind }
{
    match kind {
        Kind::Int => 9,
        Kind::Bool => 2,
        Kind::Str => LONGEST_KEY,
        Kind::Bytes => LONGEST_KEY,
    }
}

/// A number of bytes that no coded key of a table exceeds.
pub fn longest_key(schema: &Schema, table: usize) -> usize
    requires { IsTable schema.now table }
    ensures { spec.IsLongest schema.now table result }
{
    schema.meets_rules();
    let mut most = schema.path_of(table).len();
    for column in schema.key_columns(table) {
        most = most.saturating_add(longest_value(column.kind));
    }
    most
}
