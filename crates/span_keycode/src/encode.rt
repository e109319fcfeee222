//! Coding keys.
ghost use Rattle.std.specs.Prelude.{◌≡◌, ◌⊎◌, ◌<◌, ◌≤◌, ◌++◌, MatchResult, IfOk, IfErr, OnOk, OnErr, None, Some, length, take, drop};
ghost use Rattle.span_schema.specs.Lineages.{MeetsRules};
ghost use Rattle.span_schema.specs.Numbers.{IsTable, key_columns};
ghost use Rattle.span_keycode.specs.Limits.{inline_bytes, IsTooLong};
ghost use Rattle.span_keycode.specs.Keys.{IsCodedKey, key_code, level_code, level_of, encode_cause};

use crate::column::{have_kinds, push_tuple};
use crate::key::{INLINE_BYTES, Key, LONGEST_KEY};
use smallvec::SmallVec;
use span_schema::schema::Schema;
use span_value::refusal::Refusal;
use span_value::value::Value;
use std::alloc::{AllocError, Global};

/// The coded key of a row of a table, by its key values in the order of the key.
///
/// `WrongType`: there is not one value for each key column, NULL or of its kind. `KeyTooLong`: the coding has more than 1,024
/// bytes. Neither NOT NULL nor the length of a column is looked at. `OutOfMemory`: memory ran out; a coding of up to
/// 32 bytes takes none.
pub fn encode_key(
    alloc: Global,
    schema: &Schema,
    table: usize,
    values: &[Value],
) -> Result<Key, Refusal>
    requires { IsTable schema.now table }
    ensures coded { MatchResult result
        (λ key.
        (encode_cause schema.now table values.now ≡ None)
        × IsCodedKey schema.now table values.now
        × (key ≡ key_code schema.now table values.now))
        (λ why. (encode_cause schema.now table values.now ≡ Some why) ⊎ (why ≡ Refusal.OutOfMemory)) }
    ensures memory { IfErr result
        (λ why. why ≡ Refusal.OutOfMemory → inline_bytes < length (key_code schema.now table values.now)) }
{
    if !have_kinds(schema.key_columns(table), values) {
        return Err(Refusal::WrongType);
    }
    let bytes = code(alloc, schema, table, values)?;
    if bytes.len() > LONGEST_KEY {
        return Err(Refusal::KeyTooLong);
    }
    Ok(Key::from_small_vec(bytes))
}

fn code(
    alloc: Global,
    schema: &Schema,
    table: usize,
    values: &[Value],
) -> Result<SmallVec<u8, INLINE_BYTES>, AllocError>
    requires table { IsTable schema.now table }
    requires values { length (key_columns schema.now table) ≤ length values.now }
    ensures bytes { IfOk result (λ bytes. bytes.items ≡ key_code schema.now table values.now) }
    ensures memory { OnErr result (inline_bytes < length (key_code schema.now table values.now)) }
{
    let mut out = SmallVec::new(alloc);
    let path = schema.path_of(table);
    for i in 0..path.len() {
        push_level(&mut out, schema, path[i], values)?;
    }
    Ok(out)
}

fn push_level(
    out: &mut SmallVec<u8, INLINE_BYTES>,
    schema: &Schema,
    table: usize,
    values: &[Value],
) -> Result<(), AllocError>
    requires table { IsTable schema.now table }
    requires rules { MeetsRules schema.now }
    requires values { length (key_columns schema.now table) ≤ length values.now }
    ensures bytes { OnOk result
        (out.new.items ≡ out.old.items ++ level_code schema.now (level_of schema.now values.now table)) }
    ensures capacity { out.old.capacity ≤ out.new.capacity }
    ensures memory { OnErr result (IsTooLong out.old (level_code schema.now (level_of schema.now values.now table))) }
{
    out.push(table as u8)?;
    let most = schema.key_columns(table).len();
    let own = schema.own_key_columns(table);
    push_tuple(out, own, part(values, most - own.len(), most))
}

fn part(values: &[Value], from: usize, to: usize) -> &[Value]
    requires from { from ≤ to }
    requires to { to ≤ length values.now }
    ensures { result.now ≡ drop from (take to values.now) }
{
    let front = &values[..to];
    &front[from..]
}
