//! What is read of a coded key without an allocation: its table, and the coding of its root row's key.
ghost use Rattle.std.specs.Prelude.{◌↔◌, IfSome, IsTrue};
ghost use Rattle.span_schema.specs.Numbers.{IsTable};
ghost use Rattle.span_keycode.specs.Roots.{IsRootPrefix, IsTableOf};

use crate::root::{front, skip_tuple};
use crate::value::after;
use span_schema::schema::Schema;

/// The number of the table whose key the bytes code, found by the numbers of the levels alone: it allocates nothing. Of bytes that
/// code no key, None or the number of some table.
pub fn table_of_key(schema: &Schema, key: &[u8]) -> Option<usize>
    ensures found { IsTableOf schema.now key.now result }
    ensures table { IfSome result (λ n. IsTable schema.now n) }
{
    schema.meets_rules();
    let mut above = None;
    let mut at = 0;
    while at < key.len() {
        let table = key[at] as usize;
        if !is_table(schema, table) {
            return None;
        }
        let width = skip_tuple(schema.own_key_columns(table), after(key, at + 1));
        at += 1 + width;
        above = Some(table);
    }
    above
}

/// The front of a coded key that is the coding of its root row's key. Of bytes that code no key, some front of them.
pub fn root_front<'a>(schema: &Schema, key: &'a [u8]) -> &'a [u8]
    ensures { IsRootPrefix schema.now key.now result.now }
{
    schema.meets_rules();
    if key.len() == 0 {
        return key;
    }
    let table = key[0] as usize;
    if !is_table(schema, table) {
        return key;
    }
    let width = skip_tuple(schema.own_key_columns(table), after(key, 1));
    front(key, width + 1)
}

fn is_table(schema: &Schema, number: usize) -> bool
    ensures { IsTrue result ↔ IsTable schema.now number }
{
    number > 0 && number <= schema.len()
}
