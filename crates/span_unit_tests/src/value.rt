//! Equality of values, which the program asks by their order.
use span_value::value::Value;

#[test]
fn values_that_are_the_same(rt: HostRuntime) {
    assert!(rt; Value::Null.is_same(&Value::Null) && Value::Int(-5).is_same(&Value::Int(-5)));
    assert!(rt; !Value::Int(1).is_same(&Value::Bool(true)) && !Value::Int(1).is_same(&Value::Null));
}
