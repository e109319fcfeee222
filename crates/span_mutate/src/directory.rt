//! Which mutations are of one directory, and which of the directories in a range of keys.
ghost use Rattle.std.specs.Prelude.{◌≡◌};
ghost use Rattle.span_schema.specs.Numbers.{root_of};
ghost use Rattle.span_keycode.specs.Keys.{key_code};
ghost use Rattle.span_keycode.specs.Parts.{is_from, is_upto, is_between};
ghost use Rattle.span_mutate.specs.Directories.{is_in_directory, key_len, root_row};

use super::mutation::CheckedMutation;
use super::row::{begins, first_values};
use span_keycode::key::Key;
use span_keycode::root_order::compare_root;
use span_schema::schema::Schema;

/// Whether a mutation is in the directory of another one's root row: their tables have one root table, and their keys begin with the
/// same key of it.
pub fn is_in_directory_of(
    schema: &Schema,
    other: &CheckedMutation,
    mutation: &CheckedMutation,
) -> bool
    ensures { result ≡ is_in_directory schema.now
        (root_row schema.now other.now.table other.now.key) mutation.now.table mutation.now.key }
{
    let root = root_table(schema, other.table);
    let len = key_length(schema, root);
    root_table(schema, mutation.table) == root
        && begins(
            first_values(other.key.as_slice(), len),
            mutation.key.as_slice(),
        )
}

// The root table of a table; for a number that is no table's itself, and for 0 the first table.
fn root_table(schema: &Schema, table: usize) -> usize
    ensures { result ≡ root_of schema.now table }
{
    let place = table.saturating_sub(1);
    if place < schema.len() {
        return schema.root_of(place + 1);
    }
    place + 1
}

// How many columns the key of a table has; none where there is no such table.
fn key_length(schema: &Schema, table: usize) -> usize
    ensures { result ≡ key_len schema.now table }
{
    let place = table.saturating_sub(1);
    if place < schema.len() {
        return schema.key_columns(place + 1).len();
    }
    0
}

/// Whether the coded key of a mutation's root row is from `lo` on and before `hi`; None is an end that no key is outside of. No memory
/// is taken.
pub fn is_in_range(
    schema: &Schema,
    mutation: &CheckedMutation,
    lo: &Option<Key>,
    hi: &Option<Key>,
) -> bool
    ensures { result ≡ (let root = root_row schema.now mutation.now.table mutation.now.key in
        is_between lo.now hi.now (key_code schema.now root.table root.key)) }
{
    if !is_from(schema, mutation, lo) {
        return false;
    }
    is_upto(schema, mutation, hi)
}

fn is_from(schema: &Schema, mutation: &CheckedMutation, lo: &Option<Key>) -> bool
    ensures { result ≡ (let root = root_row schema.now mutation.now.table mutation.now.key in
        is_from lo.now (key_code schema.now root.table root.key)) }
{
    match lo {
        None => true,
        Some(low) => !compare_root(
            schema,
            mutation.table,
            mutation.key.as_slice(),
            low.as_slice(),
        )
        .is_lt(),
    }
}

fn is_upto(schema: &Schema, mutation: &CheckedMutation, hi: &Option<Key>) -> bool
    ensures { result ≡ (let root = root_row schema.now mutation.now.table mutation.now.key in
        is_upto hi.now (key_code schema.now root.table root.key)) }
{
    match hi {
        None => true,
        Some(high) => compare_root(
            schema,
            mutation.table,
            mutation.key.as_slice(),
            high.as_slice(),
        )
        .is_lt(),
    }
}
