//! Reading the values of several columns.
ghost use Rattle.std.specs.Prelude.{◌≡◌, IfOk, MatchOption};
ghost use Rattle.span_keycode.specs.Reads.{IsNoTuple, IsTuple};

use crate::value::{after, read_value};
use span_schema::layout::KeyPart;
use span_value::value::Value;
use std::alloc::{AllocError, Global};

/// Adds the values at the front of bytes, one for each column, and returns how many bytes code them; None if no values of the
/// columns are coded there, and then some may have been added.
pub(crate) fn read_tuple(
    alloc: Global,
    columns: &[KeyPart],
    bytes: &[u8],
    values: &mut Vec<Value>,
) -> Result<Option<usize>, AllocError>
    ensures { IfOk result
        (λ found.
        MatchOption found (IsNoTuple columns.now bytes.now)
        (λ n. IsTuple columns.now bytes.now values.old.items values.new.items n)) }
{
    let mut at = 0;
    for i in 0..columns.len() {
        match read_value(alloc, columns[i], after(bytes, at))? {
            None => return Ok(None),
            Some((value, width)) => {
                values.push(value)?;
                at += width;
            }
        }
    }
    Ok(Some(at))
}
