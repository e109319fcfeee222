//! Rows made of others.
ghost use Rattle.std.specs.Prelude.{◌≡◌, ◌<◌, ◌+◌, ◌++◌, ◌∷◌, [], IfOk, OnOk, OnErr, length, replicate, take, vec_len, vec_capacity};

use span_value::seq::Seq;
use span_value::value::{Row, Value};
use std::alloc::{AllocError, Global};

/// Adds an item at the end. The only error is out of memory.
pub fn add<T: Drop>(items: &mut Vec<T>, item: T) -> Result<(), AllocError>
    ensures { OnOk result (items.new.items ≡ items.old.items ++ item ∷ []) }
{
    items.push(item)?;
    Ok(())
}

/// A copy of the value. The only error is out of memory.
pub fn copy_of(alloc: Global, value: &Value) -> Result<Value, AllocError>
    ensures { IfOk result (λ copy. copy ≡ value.now) }
{
    match value.copy(alloc) {
        Ok(copy) => Ok(copy),
        Err(_) => Err(AllocError),
    }
}

/// Adds a copy of a value at the end, where it has capacity for it. What owns no memory is copied without a call. An error leaves the
/// values as they were.
pub(crate) fn add_copy(alloc: Global, row: &mut Vec<Value>, value: &Value) -> Result<(), AllocError>
    requires { vec_len row.old < vec_capacity row.old }
    ensures ok { OnOk result (row.new.items ≡ row.old.items ++ value.now ∷ []) }
    ensures err { OnErr result (row.new.items ≡ row.old.items) }
    ensures len { OnOk result (vec_len row.new ≡ vec_len row.old + 1) }
    ensures capacity { vec_capacity row.new ≡ vec_capacity row.old }
{
    match value {
        Value::Null => row.push_reserved(Value::Null),
        Value::Int(n) => row.push_reserved(Value::Int(*n)),
        Value::Bool(b) => row.push_reserved(Value::Bool(*b)),
        _ => row.push_reserved(copy_of(alloc, value)?),
    }
    Ok(())
}

/// Adds copies of values at the end. An error leaves some of them added.
pub fn extend_row(alloc: Global, row: &mut Vec<Value>, more: &[Value]) -> Result<(), AllocError>
    ensures ok { OnOk result (row.new.items ≡ row.old.items ++ more.now) }
    ensures kept { take (length row.old.items) row.new.items ≡ row.old.items }
{
    row.reserve(more.len())?;
    for value in more {
        add_copy(alloc, row, value)?;
    }
    Ok(())
}

/// A copy of the row, in a vector of its own. The only error is out of memory.
pub fn copy_row(alloc: Global, row: &[Value]) -> Result<Row, AllocError>
    ensures { IfOk result (λ copy. copy ≡ row.now) }
{
    let mut copy = Vec::with_capacity(alloc, row.len())?;
    extend_row(alloc, &mut copy, row)?;
    Ok(Seq::from_vec(copy))
}

/// Adds `width` NULLs at the end.
#[tactic(auto, using(crate::proofs::Gathering::row_steps))]
pub fn pad_row(row: &mut Vec<Value>, width: usize) -> Result<(), AllocError>
    ensures { OnOk result (row.new.items ≡ row.old.items ++ replicate width Value.Null) }
{
    for _ in 0..width {
        row.push(Value::Null)?;
    }
    Ok(())
}
