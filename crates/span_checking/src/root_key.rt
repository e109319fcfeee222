//! Coded keys of root tables, by the name of the table.
ghost use Rattle.std.specs.Prelude.{◌≡◌, ◌⊎◌, MatchResult, None, Some};
ghost use Rattle.span_schema.specs.Numbers.{IsTable, table_at};
ghost use Rattle.span_keycode.specs.Keys.{key_code};
ghost use Rattle.span_checking.specs.RootKeys.{root_key, root_key_at};

use super::check::check_key;
use span_keycode::encode::encode_key;
use span_keycode::key::Key;
use span_schema::schema::Schema;
use span_value::refusal::Refusal;
use span_value::value::Value;
use std::alloc::Global;

/// The coded key with these values of the root table with a name.
///
/// `BadSplit`: there is no such root table, or the values are no key of it. `OutOfMemory`: memory ran out.
pub fn root_key(alloc: Global, schema: &Schema, table: &str, key: &[Value]) -> Result<Key, Refusal>
    ensures { MatchResult result
        (λ coded. root_key schema.now table.now key.now ≡ Some coded)
        (λ why.
        (why ≡ Refusal.OutOfMemory)
        ⊎ ((why ≡ Refusal.BadSplit) × (root_key schema.now table.now key.now ≡ None))) }
{
    match schema.find(table) {
        None => Err(Refusal::BadSplit),
        Some(number) => root_key_at(alloc, schema, number, key),
    }
}

fn root_key_at(alloc: Global, schema: &Schema, number: usize, key: &[Value]) -> Result<Key, Refusal>
    requires { IsTable schema.now number }
    ensures { MatchResult result
        (λ coded. root_key_at schema.now number (table_at schema.now number) key.now ≡ Some coded)
        (λ why.
        (why ≡ Refusal.OutOfMemory)
        ⊎ ((why ≡ Refusal.BadSplit) × (root_key_at schema.now number (table_at schema.now number) key.now ≡ None))) }
{
    if schema.root_of(number) != number {
        return Err(Refusal::BadSplit);
    }
    if check_key(schema, number, schema.table(number), key).is_err() {
        return Err(Refusal::BadSplit);
    }
    match encode_key(alloc, schema, number, key) {
        Ok(coded) => Ok(coded),
        Err(Refusal::OutOfMemory) => Err(Refusal::OutOfMemory),
        Err(_) => Err(Refusal::BadSplit),
    }
}
