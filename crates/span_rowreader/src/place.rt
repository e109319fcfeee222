//! Values put at their places in a row, as far as a mask has the places.
ghost use Rattle.std.specs.Prelude.{◌≡◌, length, replicate, slice_set, true};
ghost use Rattle.span_value.specs.declared.value.Value.TheVariants.{Int};
ghost use Rattle.span_rowreader.specs.Placed as spec;

use span_value::value::Value;

/// Whether the mask has a place.
pub fn is_wanted(wanted: &[bool], place: usize) -> bool
    ensures { result ≡ spec.is_wanted wanted.now place }
{
    if place >= wanted.len() {
        return false;
    }
    wanted[place]
}

/// The same of a mask that is TRUE for each of its places.
pub(crate) fn is_among(wanted: &[bool], place: usize) -> bool
    requires { wanted.now ≡ replicate (length wanted.now) true }
    ensures { result ≡ spec.is_wanted wanted.now place }
{
    place < wanted.len()
}

/// Puts a value at a place of a row, if the row has the place.
pub(crate) fn put_value(row: &mut Vec<Value>, place: usize, value: Value)
    ensures { row.new.items ≡ slice_set row.old.items place value }
{
    if place < row.len() {
        row[place] = value;
    }
}

/// The same of a number. Where NULL is at the place, nothing is dropped.
pub(crate) fn put_number(row: &mut Vec<Value>, place: usize, number: i64)
    ensures { row.new.items ≡ slice_set row.old.items place (Int number) }
{
    if place >= row.len() {
        return;
    }
    if matches!(&row[place], Value::Null) {
        row[place] = Value::Int(number);
    } else {
        put_other(row, place, number);
    }
}

/// The same where another value is at the place.
#[inline(never)]
fn put_other(row: &mut Vec<Value>, place: usize, number: i64)
    ensures { row.new.items ≡ slice_set row.old.items place (Int number) }
{
    put_value(row, place, Value::Int(number));
}
