//! The order of values: that of rows in a table, of ORDER BY, and of comparisons.
ghost use Rattle.std.specs.Prelude.{◌≡◌, ◌↔◌};
ghost use Rattle.std.specs.Cmp.{IsTotalOrder};
ghost use Rattle.std.specs.Ordering.{ordering_reverse};
ghost use Rattle.span_value.specs.Orders.{value_order, kind_rank};

use super::value::Value;
use std::cmp::Ordering;

/// Compares two values: NULL first, FALSE before TRUE, numbers by size, strings by code points (which is
/// by the bytes of their UTF-8), bytes by bytes. Values of different kinds are in the order NULL, BOOL, INT64, STRING, BYTES.
pub fn compare(left: &Value, right: &Value) -> Ordering
    ensures order { result ≡ value_order left.now right.now }
    ensures equal { (result ≡ Ordering.Equal) ↔ (left.now ≡ right.now) }
    ensures reversed { value_order right.now left.now ≡ ordering_reverse result }
{
    match (left, right) {
        (Value::Bool(a), Value::Bool(b)) => a.cmp(b),
        (Value::Int(a), Value::Int(b)) => a.cmp(b),
        (Value::Str(a), Value::Str(b)) => a.as_str().cmp(b.as_str()),
        (Value::Bytes(a), Value::Bytes(b)) => a.as_slice().cmp(b.as_slice()),
        _ => rank(left).cmp(&rank(right)),
    }
}

fn rank(value: &Value) -> u8
    ensures { result ≡ kind_rank value.now }
{
    match value {
        Value::Null => 0,
        Value::Bool(_) => 1,
        Value::Int(_) => 2,
        Value::Str(_) => 3,
        Value::Bytes(_) => 4,
    }
}

/// A law, which takes no time: the order of values is total.
pub fn values_are_ordered()
    ensures { IsTotalOrder value_order }
{}
