//! Reading coded keys.
ghost use Rattle.std.specs.Prelude.{◌≡◌, ◌↔◌, ◌⊎◌, IfOk, IsTrue, MatchOption, MatchResult};
ghost use Rattle.span_schema.specs.Numbers.{IsTable, parent_of};
ghost use Rattle.span_keycode.specs.Keys.{key_code, IsKey, IsCodedKey};
ghost use Rattle.span_keycode.specs.Reads.{IsNoKey, IsUncoded};

use crate::key::LONGEST_KEY;
use crate::tuple::read_tuple;
use crate::value::after;
use span_schema::schema::Schema;
use span_value::refusal::Refusal;
use span_value::seq::Seq;
use span_value::value::Value;
use std::alloc::{AllocError, Global};

/// The key of a row.
#[derive(Debug, Drop)]
pub struct RowKey {
    /// The number of the row's table.
    pub table: usize,
    /// The values of the key's columns, in the order of the key.
    pub values: Seq<Value>,
}

/// The key that bytes code.
///
/// `BadKey`: the bytes code no key of a table of the schema, or they are more than 1,024. `OutOfMemory`: memory ran out.
pub fn decode_key(alloc: Global, schema: &Schema, bytes: &[u8]) -> Result<RowKey, Refusal>
    ensures { MatchResult result
        (λ key. IsCodedKey schema.now key.table key.values × (bytes.now ≡ key_code schema.now key.table key.values))
        (λ why. ((why ≡ Refusal.BadKey) × IsNoKey schema.now bytes.now) ⊎ (why ≡ Refusal.OutOfMemory)) }
{
    if bytes.len() > LONGEST_KEY {
        return Err(Refusal::BadKey);
    }
    match read_key(alloc, schema, bytes)? {
        None => Err(Refusal::BadKey),
        Some(key) => Ok(key),
    }
}

fn read_key(alloc: Global, schema: &Schema, bytes: &[u8]) -> Result<Option<RowKey>, AllocError>
    ensures { IfOk result
        (λ found.
        MatchOption found (IsUncoded schema.now bytes.now)
        (λ key.
        IsKey schema.now key.table key.values × (bytes.now ≡ key_code schema.now key.table key.values))) }
{
    schema.meets_rules();
    let mut values = Vec::new(alloc);
    let mut above = None;
    let mut at = 0;
    while at < bytes.len() {
        let table = bytes[at] as usize;
        if !is_child(schema, table, above) {
            return Ok(None);
        }
        match read_tuple(
            alloc,
            schema.own_key_columns(table),
            after(bytes, at + 1),
            &mut values,
        )? {
            None => return Ok(None),
            Some(width) => {
                at += 1 + width;
                above = Some(table);
            }
        }
    }
    match above {
        None => Ok(None),
        Some(table) => Ok(Some(RowKey {
            table,
            values: Seq::from_vec(values),
        })),
    }
}

fn is_child(schema: &Schema, table: usize, above: Option<usize>) -> bool
    ensures { IsTrue result ↔ (IsTable schema.now table × (parent_of schema.now table ≡ above)) }
{
    if table == 0 || table > schema.len() {
        return false;
    }
    schema.parent_of(table) == above
}
