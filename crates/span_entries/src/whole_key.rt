//! The table of a coded key by the key's length. Where all columns of a table's key are numbers, its keys without NULL have one length; and
//! where each key of this length has the number of its own table at one place, the byte there decides.
ghost use Rattle.std.specs.Prelude.{◌≡◌, ◌≢◌, IfSome, MatchOption, length, true};
ghost use Rattle.std.specs.List.{list_all};
ghost use Rattle.span_schema.specs.Numbers.{IsTable};
ghost use Rattle.span_entries.specs.Entries.{IsWhetherOf};
ghost use Rattle.span_entries.specs.WholeKeys as spec;
ghost use Rattle.span_entries.specs.WholeKeys.{HasNumberAt, HasOtherLengths, IsDecided, IsNoLengthOf, IsOwnLength, IsTableByLength, IsWhetherOfLength, IsWholeKey};

use span_schema::layout::KeyPart;
use span_schema::schema::Schema;
use span_value::value::Kind;

/// No table of a schema has more columns.
const MOST_COLUMNS: usize = 64;

/// The keys of a table without NULL, where all their columns are numbers.
#[derive(Clone, Copy, Debug)]
pub struct WholeKey {
    /// How many bytes code such a key.
    pub len: usize,
    /// The number of the root table, with which it begins.
    pub root: usize,
    /// The place of the number of the table itself.
    pub place: usize,
}

/// Whether a column of a key is one of numbers.
fn is_number(column: &KeyPart) -> bool
    ensures { result ≡ spec.is_number column.now }
{
    match column.kind {
        Kind::Int => true,
        _ => false,
    }
}

/// Whether all columns of a key are.
fn are_numbers(columns: &[KeyPart]) -> bool
    ensures { result ≡ list_all spec.is_number columns.now }
{
    columns.iter().all(|column| is_number(column))
}

/// The keys of a table without NULL. None where a column of them is not of numbers.
pub fn whole_key(schema: &Schema, table: usize) -> Option<WholeKey>
    requires { IsTable schema.now table }
    ensures { IfSome result (IsWholeKey schema.now table) }
{
    let columns = schema.key_columns(table);
    let own = schema.own_key_columns(table);
    if columns.len() > MOST_COLUMNS {
        return None;
    }
    if own.len() > MOST_COLUMNS {
        return None;
    }
    if !are_numbers(columns) {
        return None;
    }
    // A byte for each level, and nine for each number.
    let len = schema.path_of(table).len() + 9 * columns.len();
    let place = len.checked_sub(1 + 9 * own.len())?;
    Some(WholeKey {
        len,
        root: schema.root_of(table),
        place,
    })
}

/// Whether each key of a table that has the length of a whole key, and its root, has the table's number at the place of that one's. It may,
/// where this is false.
#[tactic(auto, using(crate::proofs::WholeKeys::number_of_another_root, crate::proofs::WholeKeys::number_decided))]
fn has_number_at(schema: &Schema, at: &WholeKey, table: usize) -> bool
    requires { IsTable schema.now table }
    ensures { result ≡ true → HasNumberAt schema.now at.now table }
{
    schema.meets_rules();
    if schema.root_of(table) != at.root {
        return true;
    }
    match whole_key(schema, table) {
        None => false,
        Some(whole) => has_number_of(at, &whole),
    }
}

/// The same of a table whose keys without NULL are known. Each NULL is eight bytes shorter than a number.
fn has_number_of(at: &WholeKey, whole: &WholeKey) -> bool
    ensures { result ≡ true → IsDecided at.now whole.now }
{
    if whole.len < at.len {
        return true;
    }
    if whole.len == at.len {
        return whole.place == at.place;
    }
    (whole.len - at.len) % 8 != 0
}

/// The keys of a table without NULL, where the table of each key that has their length and their root is found at one place.
pub fn table_by_length(schema: &Schema, table: usize) -> Option<WholeKey>
    requires { IsTable schema.now table }
    ensures { IfSome result (IsTableByLength schema.now table) }
{
    let at = whole_key(schema, table)?;
    for i in 0..schema.len() {
        if !has_number_at(schema, &at, i + 1) {
            return None;
        }
    }
    Some(at)
}

/// Whether keys whose length without NULL is known never have this length. Each NULL is eight bytes shorter than a number.
fn is_no_length_of(whole: &WholeKey, len: usize) -> bool
    ensures { result ≡ true → IsNoLengthOf whole.now len }
{
    if whole.len < len {
        return true;
    }
    (whole.len - len) % 8 != 0
}

/// Whether no key of a table has this length. None may have it, where this is false.
#[tactic(auto, using(crate::proofs::WholeKeys::no_key_of_length))]
fn has_other_lengths(schema: &Schema, len: usize, table: usize) -> bool
    requires { IsTable schema.now table }
    ensures { result ≡ true → HasOtherLengths schema.now len table }
{
    schema.meets_rules();
    match whole_key(schema, table) {
        None => false,
        Some(whole) => is_no_length_of(&whole, len),
    }
}

/// Whether a table is this one, or none of its keys has this length.
fn is_apart(schema: &Schema, table: usize, len: usize, other: usize) -> bool
    requires { IsTable schema.now other }
    ensures { result ≡ true → other ≢ table → HasOtherLengths schema.now len other }
{
    if other == table {
        return true;
    }
    has_other_lengths(schema, len, other)
}

/// The keys of a table without NULL, where no key of another table has their length.
pub fn own_length(schema: &Schema, table: usize) -> Option<WholeKey>
    requires { IsTable schema.now table }
    ensures { IfSome result (IsOwnLength schema.now table) }
{
    let at = whole_key(schema, table)?;
    for i in 0..schema.len() {
        if !is_apart(schema, table, at.len, i + 1) {
            return None;
        }
    }
    Some(at)
}

/// Whether the length of a coded key does not tell whether it is one of the table, whose keys without NULL have a length of their own: with
/// NULLs it may have this one, and so may keys of other tables. Each NULL is eight bytes shorter than a number.
pub fn is_undecided(at: &WholeKey, len: usize) -> bool
    ensures { result ≡ spec.is_undecided at.now len }
{
    // Both are asked, without a branch: of which table the next of interleaved rows is can't be guessed.
    (len < at.len) & (at.len.saturating_sub(len) % 8 == 0)
}

/// Whether a coded key of `len` bytes is one of the table; None where the length does not decide.
#[tactic(auto, using(crate::proofs::WholeKeys::whether_decided))]
pub fn is_own_of_length(schema: &Schema, table: usize, at: &WholeKey, len: usize) -> Option<bool>
    requires { IsOwnLength schema.now table at.now }
    ensures { MatchOption result (spec.is_undecided at.now len ≡ true) (IsWhetherOfLength schema.now table len) }
{
    schema.meets_rules();
    if is_undecided(at, len) {
        // It has NULLs, or is of another table.
        return None;
    }
    Some(len == at.len)
}

/// Whether a coded key is one of the table, where the key's length and the byte at the place of the table's number decide.
#[tactic(auto, using(crate::proofs::WholeKeys::other_length))]
pub fn is_own_by_length(schema: &Schema, table: usize, at: &WholeKey, key: &[u8]) -> Option<bool>
    requires { IsTableByLength schema.now table at.now }
    ensures { IfSome result (IsWhetherOf schema.now table key.now) }
{
    schema.meets_rules();
    if key.len() == at.len {
        return is_own_by_number(schema, table, at, key);
    }
    if key.len() > at.len {
        return Some(false);
    }
    if (at.len - key.len()) % 8 != 0 {
        return Some(false);
    }
    // It has NULLs, or is of another table.
    None
}

/// The same of a key that has the length of a key without NULL.
#[tactic(auto, using(crate::proofs::WholeKeys::by_number))]
fn is_own_by_number(schema: &Schema, table: usize, at: &WholeKey, key: &[u8]) -> Option<bool>
    requires by_length { IsTableByLength schema.now table at.now }
    requires len { length key.now ≡ at.now.len }
    ensures { IfSome result (IsWhetherOf schema.now table key.now) }
{
    schema.meets_rules();
    if key[0] as usize != at.root {
        return None;
    }
    Some(key[at.place] as usize == table)
}
