//! Mutations one after another, on the rows at the keys that they touch.
ghost use Rattle.std.specs.Prelude.{◌≡◌, ◌⊎◌, ◌<◌, ◌&&◌, not, is_some, true, false, IfOk, IfErr, IfSome, IsTrue, OnOk, MatchResult};
ghost use Rattle.std.specs.Option.{option_copied};
ghost use Rattle.span_schema.specs.Numbers.{IsTable, parent_of};
ghost use Rattle.span_mutate.specs.Kinds.{is_delete};
ghost use Rattle.span_mutate.specs.Database.{is_insert};
ghost use Rattle.span_mutate.specs.Typed.{IsTypedMutation, AreTypedMutations};
ghost use Rattle.span_maderows.specs.Made.{made_at};
ghost use Rattle.span_store.specs.KeyLists.{AreInOrder};
ghost use Rattle.span_shard.specs.Overlay.{lacks_parent_over, own_code, HasFront, HasParent, HasPutRow, HasSameCleared, IsAddedAt, IsRowAlone, AreCellsOf, IsMergedRow, IsMergeRefused, IsPresenceRight, IsPresenceRefused, IsUnpacked, IsBlocked, HasNoKey, IsPutRow, IsNoPut, row_over, AreCleared, AreUnder, HasDeleted, IsNoDelete, AreTableRows, IsRunOf, IsRunFault, AreRunsOf};
ghost use Rattle.span_shard.specs.Reading.{IsFault, IsPrepareRefusal};

use super::ahead::NearChains;
use super::lookups::Lookups;
use super::merge::pack_merged;
use super::overlay::{Changes, has_row, keys_under, row_over_near, row_under};
use span_keycode::decode::decode_key;
use span_keycode::encode::encode_key;
use span_keycode::key::Key;
use span_mutate::mutation::{CheckedMutation, MutationKind, is_delete};
use span_mutate::root::blocks_delete;
use span_mutate::row::first_values;
use span_rowcode::unpack::unpack;
use span_schema::schema::Schema;
use span_value::refusal::Refusal;
use span_value::seq::Seq;
use span_value::value::Value;
use std::alloc::Global;

// Whether two lists have the same values.
fn are_same(left: &[Value], right: &[Value]) -> bool
    ensures { IsTrue result → left.now ≡ right.now }
{
    if left.len() != right.len() {
        return false;
    }
    for i in 0..left.len() {
        if !left[i].is_same(&right[i]) {
            return false;
        }
    }
    true
}

// Whether a mutation is there, is of this table, and the first `len` values of its key are these.
fn has_front(mutation: Option<&CheckedMutation>, table: usize, len: usize, values: &[Value]) -> bool
    ensures { IsTrue result → HasFront table len values.now (option_copied mutation.entry) }
{
    let Some(mutation) = mutation else {
        return false;
    };
    if mutation.table != table {
        return false;
    }
    are_same(first_values(mutation.key.as_slice(), len), values)
}

// Whether the parent row of a mutation's row is absent. `known` is a mutation whose parent row is there: where both have the same one,
// it is not looked for.
fn lacks_parent(
    alloc: Global,
    schema: &Schema,
    store: &Lookups<'_>,
    changes: &Changes,
    known: Option<&CheckedMutation>,
    mutation: &CheckedMutation,
) -> Result<bool, Refusal>
    requires order { AreInOrder store.now }
    requires typed { IsTypedMutation schema.now mutation.now }
    requires known { HasParent schema.now store.now changes.now (option_copied known) }
    ensures { MatchResult result
        (λ b. b
        ≡ lacks_parent_over schema.now store.now changes.now (parent_of schema.now mutation.now.table) mutation.now.key)
        (λ why. why ≡ Refusal.OutOfMemory) }
{
    schema.meets_rules();
    match schema.parent_of(mutation.table) {
        None => Ok(false),
        Some(parent) => {
            let len = schema.key_columns(parent).len();
            let values = first_values(mutation.key.as_slice(), len);
            if has_front(known, mutation.table, len, values) {
                return Ok(false);
            }
            let key = encode_key(alloc, schema, parent, values)?;
            Ok(!has_row(store, changes, &key))
        }
    }
}

// The cells of a packed row, and none where there is no row. `BadRow`: the bytes are no row of the table.
fn cells_of(
    alloc: Global,
    schema: &Schema,
    table: usize,
    row: Option<&Seq<u8>>,
) -> Result<Vec<Value>, Refusal>
    requires { IsTable schema.now table }
    ensures { MatchResult result
        (λ cells. AreCellsOf schema.now table (option_copied row.entry) cells.items)
        (λ why.
        ((why ≡ Refusal.BadRow) × IsUnpacked schema.now table (option_copied row.entry))
        ⊎ (why ≡ Refusal.OutOfMemory)) }
{
    match row {
        None => Ok(Vec::new(alloc)),
        Some(row) => unpack(alloc, schema, table, row.as_slice()),
    }
}

// The packed row that a mutation makes of the cells that were there.
fn new_row(alloc: Global, mutation: &CheckedMutation, old: &[Value]) -> Result<Seq<u8>, Refusal>
    ensures { MatchResult result
        (λ row. IsMergedRow mutation.now.cells old.now row)
        (λ why. IsMergeRefused mutation.now.cells old.now why) }
{
    Ok(Seq::from_vec(pack_merged(alloc, mutation.cells.as_slice(), old)?))
}

// Why a row can't be put, by whether its key has a row: `Exists` or `Missing`.
fn check_presence(kind: MutationKind, is_present: bool) -> Result<(), Refusal>
    ensures { MatchResult result
        (λ _. IsPresenceRight kind is_present)
        (λ why. IsPresenceRefused kind is_present why) }
{
    if kind == MutationKind::Insert && is_present {
        return Err(Refusal::Exists);
    }
    if kind == MutationKind::Update && !is_present {
        return Err(Refusal::Missing);
    }
    Ok(())
}

// The packed row that a mutation puts at its key.
fn row_put(
    alloc: Global,
    schema: &Schema,
    store: &Lookups<'_>,
    changes: &Changes,
    known: Option<&CheckedMutation>,
    mutation: &CheckedMutation,
    key: &Key,
    near: u32,
) -> Result<Seq<u8>, Refusal>
    requires order { AreInOrder store.now }
    requires typed { IsTypedMutation schema.now mutation.now }
    requires known { HasParent schema.now store.now changes.now (option_copied known) }
    requires key { key.now ≡ own_code schema.now mutation.now }
    ensures { MatchResult result
        (IsPutRow schema.now store.now changes.now mutation.now)
        (IsNoPut schema.now store.now changes.now mutation.now) }
{
    let before = row_over_near(store, changes, key, near);
    check_presence(mutation.kind, before.is_some())?;
    if lacks_parent(alloc, schema, store, changes, known, mutation)? {
        return Err(Refusal::ParentMissing);
    }
    let old = cells_of(alloc, schema, mutation.table, before)?;
    new_row(alloc, mutation, old.as_slice())
}

fn is_insert(kind: MutationKind) -> bool
    ensures { result ≡ is_insert kind }
{
    match kind {
        MutationKind::Insert => true,
        _ => false,
    }
}

// The packed row that an insert makes where mutations made none at its key. None where it makes none even so: why, is not said.
fn row_alone(
    alloc: Global,
    schema: &Schema,
    store: &Lookups<'_>,
    changes: &Changes,
    known: Option<&CheckedMutation>,
    mutation: &CheckedMutation,
    key: &Key,
    near: u32,
) -> Result<Option<Seq<u8>>, Refusal>
    requires order { AreInOrder store.now }
    requires typed { IsTypedMutation schema.now mutation.now }
    requires known { HasParent schema.now store.now changes.now (option_copied known) }
    requires key { key.now ≡ own_code schema.now mutation.now }
    ensures ok { IfOk result
        (λ row. IfSome row (IsRowAlone schema.now store.now changes.now mutation.now)) }
    ensures memory { IfErr result (λ why. why ≡ Refusal.OutOfMemory) }
{
    if !is_insert(mutation.kind) {
        return Ok(None);
    }
    if row_under(store, changes, key, near).is_some() {
        return Ok(None);
    }
    if lacks_parent(alloc, schema, store, changes, known, mutation)? {
        return Ok(None);
    }
    match new_row(alloc, mutation, &[]) {
        Ok(row) => Ok(Some(row)),
        Err(_) => Ok(None),
    }
}

// Leaves a row at a key, at which mutations are to have made none: `Exists` where they did.
fn add_row(changes: &mut Changes, key: Key, row: Seq<u8>, near: u32) -> Result<(), Refusal>
    ensures added { OnOk result (IsAddedAt key row changes.old changes.new) }
    ensures cleared { OnOk result (HasSameCleared changes.old changes.new) }
    ensures refused { IfErr result (λ why.
        (why ≡ Refusal.OutOfMemory)
        ⊎ ((why ≡ Refusal.Exists) × (is_some (made_at changes.old.made key) ≡ true))) }
{
    if changes.add(key, row, near)? {
        Ok(())
    } else {
        Err(Refusal::Exists)
    }
}

// Puts the row of a mutation at its key. An insert mostly finds none there, and none that mutations made: so its row is made as if
// there were none, and the search for its place returns whether there was one.
fn run_put(
    alloc: Global,
    schema: &Schema,
    store: &Lookups<'_>,
    changes: &mut Changes,
    known: Option<&CheckedMutation>,
    mutation: &CheckedMutation,
    key: Key,
    near: u32,
) -> Result<(), Refusal>
    requires order { AreInOrder store.now }
    requires typed { IsTypedMutation schema.now mutation.now }
    requires known { HasParent schema.now store.now changes.old (option_copied known) }
    requires key { key ≡ own_code schema.now mutation.now }
    ensures ok { OnOk result (HasPutRow schema.now store.now mutation.now changes.old changes.new) }
    ensures cleared { OnOk result (HasSameCleared changes.old changes.new) }
    ensures refused { IfErr result (IsNoPut schema.now store.now changes.old mutation.now) }
{
    match row_alone(alloc, schema, store, changes, known, mutation, &key, near)? {
        Some(row) => add_row(changes, key, row, near),
        None => {
            let row = row_put(alloc, schema, store, changes, known, mutation, &key, near)?;
            Ok(changes.put(key, row, near)?)
        }
    }
}

// Whether one of the keys is of a table whose rows stay where a row of this table, above them, is to be deleted.
fn is_blocked(alloc: Global, schema: &Schema, table: usize, keys: &[Key]) -> Result<bool, Refusal>
    ensures { MatchResult result
        (IsBlocked schema.now table keys.now)
        (λ why. (why ≡ Refusal.OutOfMemory) ⊎ ((why ≡ Refusal.BadKey) × HasNoKey schema.now keys.now)) }
{
    schema.meets_rules();
    for key in keys {
        let found = decode_key(alloc, schema, key.as_slice())?;
        if blocks_delete(schema, table, found.table) {
            return Ok(true);
        }
    }
    Ok(false)
}

// The keys at which a mutation deletes the rows: its own, which has one, and those below it.
fn keys_deleted(
    alloc: Global,
    schema: &Schema,
    store: &Lookups<'_>,
    changes: &mut Changes,
    mutation: &CheckedMutation,
    key: &Key,
) -> Result<Vec<Key>, Refusal>
    requires order { AreInOrder store.now }
    requires cleared { AreCleared store.now changes.old }
    requires key { key.now ≡ own_code schema.now mutation.now }
    requires there { is_some (row_over store.now changes.old key.now) ≡ true }
    ensures keys { MatchResult result
        (λ keys. AreUnder store.now changes.old key.now keys.items
        × IsBlocked schema.now mutation.now.table keys.items false)
        (IsNoDelete schema.now store.now changes.old mutation.now) }
    ensures same { OnOk result (changes.new ≡ changes.old) }
{
    let keys = keys_under(alloc, store, changes, key)?;
    if is_blocked(alloc, schema, mutation.table, keys.as_slice())? {
        return Err(Refusal::HasChildren);
    }
    Ok(keys)
}

// Runs a mutation that deletes the row at its key, if there is one, and those below it.
fn run_delete(
    alloc: Global,
    schema: &Schema,
    store: &Lookups<'_>,
    changes: &mut Changes,
    mutation: &CheckedMutation,
    key: Key,
) -> Result<(), Refusal>
    requires order { AreInOrder store.now }
    requires cleared { AreCleared store.now changes.old }
    requires key { key ≡ own_code schema.now mutation.now }
    ensures ok { OnOk result (HasDeleted schema.now store.now mutation.now changes.old changes.new) }
    ensures cleared { OnOk result (AreCleared store.now changes.new) }
    ensures refused { IfErr result (IsNoDelete schema.now store.now changes.old mutation.now) }
{
    if !has_row(store, changes, &key) {
        return Ok(());
    }
    let keys = keys_deleted(alloc, schema, store, changes, mutation, &key)?;
    Ok(changes.clear(alloc, key, keys)?)
}

// Runs one mutation. `known` is one whose parent row is there, and so is the result.
fn run_one<'a>(
    alloc: Global,
    schema: &Schema,
    store: &Lookups<'_>,
    changes: &mut Changes,
    known: Option<&'a CheckedMutation>,
    mutation: &'a CheckedMutation,
    near: u32,
) -> Result<Option<&'a CheckedMutation>, Refusal>
    requires order { AreInOrder store.now }
    requires typed { IsTypedMutation schema.now mutation.now }
    requires rows { AreTableRows schema.now changes.old }
    requires cleared { AreCleared store.now changes.old }
    requires known { HasParent schema.now store.now changes.old (option_copied known) }
    ensures ok { OnOk result
        (IsRunOf schema.now store.now mutation.now changes.old changes.new) }
    ensures cleared { OnOk result (AreCleared store.now changes.new) }
    ensures known { IfOk result
        (λ next. HasParent schema.now store.now changes.new (option_copied next)) }
    ensures refused { IfErr result (IsRunFault schema.now store.now mutation.now changes.old) }
{
    schema.meets_rules();
    let key = encode_key(alloc, schema, mutation.table, mutation.key.as_slice())?;
    if is_delete(mutation.kind) {
        run_delete(alloc, schema, store, changes, mutation, key)?;
        // The parent row may have been deleted.
        return Ok(None);
    }
    run_put(alloc, schema, store, changes, known, mutation, key, near)?;
    Ok(Some(mutation))
}

/// Runs mutations one after another, up to the first fault, and gives what they leave at the keys whose rows they change.
///
/// Only the rows at the mutations' keys and at those of their parents are looked at, and, where a row is deleted, those below it.
pub(crate) fn run(
    alloc: Global,
    schema: &Schema,
    store: &Lookups<'_>,
    mutations: &[CheckedMutation],
) -> Result<Changes, Refusal>
    requires order { AreInOrder store.now }
    requires typed { AreTypedMutations schema.now mutations.now }
    ensures ok { IfOk result (λ changes. AreRunsOf schema.now mutations.now store.now changes) }
    ensures fault { IfErr result (λ why. IsFault schema.now mutations.now store.now why) }
    ensures number { IfErr result (λ why. IsPrepareRefusal schema.now mutations.now store.now why) }
{
    schema.meets_rules();
    let mut changes = Changes::with_capacity(alloc, mutations.len())?;
    let mut known = None;
    let mut ahead = NearChains::new();
    for mutation in mutations {
        let near = ahead.next(alloc, schema, store, mutations);
        known = run_one(alloc, schema, store, &mut changes, known, mutation, near)?;
    }
    Ok(changes)
}
