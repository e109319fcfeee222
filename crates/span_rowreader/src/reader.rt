//! Reading of a table's rows, of the columns alone that a mask has: a value is put at its place among these, and no other is made.
ghost use Rattle.std.specs.Prelude.{◌≡◌, ◌≤◌, ◌⊎◌, IfOk, OnOk, MatchResult, drop, length, map, replicate, take, true, ◌<◌, set};
ghost use Rattle.span_value.specs.declared.value.Value.TheVariants.{Null};
ghost use Rattle.span_schema.specs.Numbers.{IsTable, key_places};
ghost use Rattle.span_leaves.specs.Leaves.{width_of};
ghost use Rattle.span_columns.specs.Picks.{picked_width};
ghost use Rattle.span_rowreader.specs.Added.{IsRowAdded};
ghost use Rattle.span_entries.specs.Entries.{IsWhetherOf};
ghost use Rattle.span_rowreader.specs.KeyNumbers.{AreKeyNumbers};
ghost use Rattle.span_rowreader.specs.Placed.{IsKeyPut, IsNoRowOf, wants_none};
ghost use Rattle.span_rowreader.specs.Reads.{AreReadsOf};
ghost use Rattle.span_entries.specs.Steps.{key_steps};
ghost use Rattle.span_rowreader.specs.Readers as spec;
ghost use Rattle.span_rowreader.specs.Readers.{IsReader, ArePickedOf};

use super::added::{put_last_cells, put_last_numbers};
use super::cells::put_cells;
use super::key_numbers::{KeyNumbers, key_numbers, put_numbers};
use super::place::is_wanted;
use super::reads::{KeyRead, key_reads, put_key};
use span_columns::narrow::picked_width;
use span_entries::longest::longest_key;
use span_entries::steps::{KeyStep, goes_along, key_steps};
use span_entries::whole_key::{WholeKey, is_own_by_length, table_by_length};
use span_expr::rank::rank;
use span_leaves::table::width_of;
use span_rows::row_list::RowList;
use span_schema::schema::Schema;
use span_value::refusal::Refusal;
use span_value::seq::Seq;
use span_value::value::Value;
use std::alloc::{AllocError, Global};

/// How the rows of a table are read.
#[derive(Debug, Drop)]
pub struct TableReader {
    pub table: usize,
    /// A number of bytes that no coded key of the table exceeds.
    pub most: usize,
    /// Its keys without NULL, where the length of a key and two bytes of it decide whether it is one of the table.
    by_length: Option<WholeKey>,
    /// The steps of its coded keys.
    steps: Seq<KeyStep>,
    /// The columns that are read.
    pub mask: Seq<bool>,
    /// TRUE for each of these.
    all: Seq<bool>,
    /// The columns of the key up to the last that is read, each with its place among those that are read, or a place after all of them.
    reads: Seq<KeyRead>,
    /// The numbers among them in keys without NULL, where all columns of the table's keys are of numbers.
    numbers: Option<KeyNumbers>,
    /// The place of each other column among those that are read, or a place after all of them.
    others: Seq<usize>,
    /// How many of the other columns there are up to the last that is read.
    others_read: usize,
}

fn target(mask: &[bool], place: usize) -> usize
    ensures { result ≡ spec.target mask.now place }
{
    if is_wanted(mask, place) {
        rank(mask, place)
    } else {
        mask.len()
    }
}

fn targets(alloc: Global, mask: &[bool], places: &[usize]) -> Result<Seq<usize>, AllocError>
    ensures { IfOk result (λ found. found ≡ map (spec.target mask.now) places.now) }
{
    let mut found = Vec::with_capacity(alloc, places.len())?;
    for place in places {
        found.push(target(mask, *place))?;
    }
    Ok(Seq::from_vec(found))
}

/// TRUE for each place that a mask has.
fn all_of(alloc: Global, mask: &[bool]) -> Result<Seq<bool>, AllocError>
    ensures { IfOk result (λ all. all ≡ replicate (picked_width mask.now) true) }
{
    Ok(Seq::from_vec(vec![in alloc; true; picked_width(mask)]?))
}

fn copy_mask(alloc: Global, mask: &[bool]) -> Result<Seq<bool>, AllocError>
    ensures { IfOk result (λ copy. copy ≡ mask.now) }
{
    Ok(Seq::from_vec(mask.to_vec(alloc)?))
}

/// How many places there are up to the last that is wanted.
fn count_to_last(wanted: &[bool], places: &[usize]) -> usize
    ensures within { result ≤ length places.now }
    ensures rest { wants_none wanted.now (drop result places.now) ≡ true }
{
    let mut count = places.len();
    while count > 0 {
        if is_wanted(wanted, places[count - 1]) {
            return count;
        }
        count -= 1;
    }
    0
}

/// The first places of a mask, as many as there are of a number.
fn mask_before(mask: &[bool], width: usize) -> &[bool]
    ensures { result.now ≡ take width mask.now }
{
    &mask[..width.min(mask.len())]
}

/// The columns of a table's keys up to the last that is wanted.
fn wanted_reads(
    alloc: Global,
    schema: &Schema,
    table: usize,
    steps: &[KeyStep],
    mask: &[bool],
    wanted: &[bool],
) -> Result<Seq<KeyRead>, AllocError>
    requires table { IsTable schema.now table }
    requires steps { steps.now ≡ key_steps schema.now table }
    ensures { IfOk result
        (λ reads. AreReadsOf schema.now table
        (map (spec.target mask.now) (key_places schema.now table)) wanted.now reads) }
{
    let places = targets(alloc, mask, schema.key_places(table))?;
    let count = count_to_last(wanted, places.as_slice());
    let mut reads = key_reads(alloc, steps, places.as_slice())?;
    reads.truncate(count);
    Ok(Seq::from_vec(reads))
}

/// What reads the columns of a table that the front of a mask has.
pub fn table_reader(
    alloc: Global,
    schema: &Schema,
    table: usize,
    mask: &[bool],
) -> Result<TableReader, AllocError>
    requires { IsTable schema.now table }
    ensures reader { IfOk result (λ reader. IsReader schema.now reader) }
    ensures table { IfOk result (λ reader. reader.table ≡ table) }
    ensures mask { IfOk result (λ reader. reader.mask ≡ take (width_of schema.now table) mask.now) }
{
    let front = mask_before(mask, width_of(schema, table));
    let all = all_of(alloc, front)?;
    let steps = key_steps(alloc, schema, table)?;
    let reads = wanted_reads(
        alloc,
        schema,
        table,
        steps.as_slice(),
        front,
        all.as_slice(),
    )?;
    let numbers = key_numbers(alloc, schema, table, reads.as_slice(), all.as_slice())?;
    let others = targets(alloc, front, schema.other_places(table))?;
    let others_read = count_to_last(all.as_slice(), others.as_slice());
    Ok(TableReader {
        table,
        most: longest_key(schema, table),
        by_length: table_by_length(schema, table),
        steps,
        mask: copy_mask(alloc, front)?,
        all,
        reads,
        numbers,
        others,
        others_read,
    })
}

/// Makes a value of a row NULL. One that owns no memory takes no drop.
fn clear_value(row: &mut Vec<Value>, at: usize)
    requires { at < length row.old.items }
    ensures { row.new.items ≡ set row.old.items at Null }
{
    if matches!(&row[at], Value::Null | Value::Int(_) | Value::Bool(_)) {
        row[at] = Value::Null;
    } else {
        drop_value(row, at);
    }
}

/// The same of a value that may own memory.
#[inline(never)]
fn drop_value(row: &mut Vec<Value>, at: usize)
    requires { at < length row.old.items }
    ensures { row.new.items ≡ set row.old.items at Null }
{
    row[at] = Value::Null;
}

/// Makes the values of a row NULL.
fn clear_values(row: &mut Vec<Value>)
    ensures { row.new.items ≡ replicate (length row.old.items) Null }
{
    for at in 0..row.len() {
        clear_value(row, at);
    }
}

/// Makes a row one of NULLs. Most rows have as many values already.
fn put_nulls(row: &mut Vec<Value>, len: usize) -> Result<(), AllocError>
    ensures { OnOk result (row.new.items ≡ replicate len Null) }
{
    if row.len() != len {
        return refill(row, len);
    }
    clear_values(row);
    Ok(())
}

/// Makes a row one of NULLs, whatever it is.
#[inline(never)]
fn refill(row: &mut Vec<Value>, len: usize) -> Result<(), AllocError>
    ensures { OnOk result (row.new.items ≡ replicate len Null) }
{
    row.clear();
    row.reserve(len)?;
    for _ in 0..len {
        row.push_reserved(Value::Null);
    }
    Ok(())
}

impl TableReader {
    /// Whether a coded key is one of the table. It takes no allocation.
    pub fn is_own_key(&self, schema: &Schema, key: &[u8]) -> bool
        requires table { IsTable schema.now self.now.table }
        requires reader { IsReader schema.now self.now }
        ensures { IsWhetherOf schema.now self.now.table key.now result }
    {
        if key.len() > self.most {
            return false;
        }
        if let Some(at) = &self.by_length {
            if let Some(is_own) = is_own_by_length(schema, self.table, at, key) {
                return is_own;
            }
        }
        goes_along(schema, self.table, self.steps.as_slice(), key)
    }

    /// Makes a row the values of a row of the table in the columns that are read, in the order in which they are declared. What the row
    /// was is dropped; its memory is used again. Each text and byte string that is long takes an allocation.
    ///
    /// `OutOfMemory`, where the bytes are the coded key and the packed cells of a row of the table.
    pub fn read(
        &self,
        alloc: Global,
        schema: &Schema,
        key: &[u8],
        cells: &[u8],
        row: &mut Vec<Value>,
    ) -> Result<(), Refusal>
        requires table { IsTable schema.now self.now.table }
        requires reader { IsReader schema.now self.now }
        ensures { MatchResult result
            (λ done. ArePickedOf schema.now self.now.table self.now.mask key.now cells.now row.new.items)
            (λ why. (why ≡ Refusal.OutOfMemory) ⊎ IsNoRowOf schema.now self.now.table key.now cells.now) }
    {
        schema.meets_rules();
        let all = self.all.as_slice();
        put_nulls(row, all.len())?;
        if all.is_empty() {
            return Ok(());
        }
        let kinds = schema.other_kinds(self.table);
        let others = self.others.as_slice();
        if !put_cells(alloc, kinds, others, all, self.others_read, cells, row)? {
            return Err(Refusal::BadRow);
        }
        if !self.put_key_values(alloc, schema, key, row)? {
            return Err(Refusal::BadKey);
        }
        Ok(())
    }

    /// Adds a row of the table to others: its values in the columns that are read, in the order in which they are declared. `row` is used for rows
    /// whose keys have NULLs or other values than numbers: what it was is dropped, and its memory is used again. Each text and byte string that is
    /// long takes an allocation. An error may leave a row more.
    ///
    /// `OutOfMemory`, where the bytes are the coded key and the packed cells of a row of the table.
    pub fn add(
        &self,
        alloc: Global,
        schema: &Schema,
        key: &[u8],
        cells: &[u8],
        row: &mut Vec<Value>,
        rows: &mut RowList,
    ) -> Result<(), Refusal>
        requires table { IsTable schema.now self.now.table }
        requires reader { IsReader schema.now self.now }
        ensures { MatchResult result
            (λ done. IsRowAdded schema.now self.now.table self.now.mask key.now cells.now rows.old rows.new)
            (λ why. (why ≡ Refusal.OutOfMemory) ⊎ IsNoRowOf schema.now self.now.table key.now cells.now) }
    {
        if let Some(numbers) = &self.numbers {
            if key.len() == numbers.len {
                return self.add_whole(alloc, schema, numbers, key, cells, rows);
            }
        }
        self.add_read(alloc, schema, key, cells, row, rows)
    }

    /// The same by way of `row`.
    #[tactic(auto, using(crate::proofs::AddedCells::read_added))]
    fn add_read(
        &self,
        alloc: Global,
        schema: &Schema,
        key: &[u8],
        cells: &[u8],
        row: &mut Vec<Value>,
        rows: &mut RowList,
    ) -> Result<(), Refusal>
        requires table { IsTable schema.now self.now.table }
        requires reader { IsReader schema.now self.now }
        ensures { MatchResult result
            (λ done. IsRowAdded schema.now self.now.table self.now.mask key.now cells.now rows.old rows.new)
            (λ why. (why ≡ Refusal.OutOfMemory) ⊎ IsNoRowOf schema.now self.now.table key.now cells.now) }
    {
        self.read(alloc, schema, key, cells, row)?;
        rows.push_values_of(row)?;
        Ok(())
    }

    /// The same of a key without NULL, all of whose columns are of numbers: the row is read where it is to be.
    fn add_whole(
        &self,
        alloc: Global,
        schema: &Schema,
        numbers: &KeyNumbers,
        key: &[u8],
        cells: &[u8],
        rows: &mut RowList,
    ) -> Result<(), Refusal>
        requires table { IsTable schema.now self.now.table }
        requires reader { IsReader schema.now self.now }
        requires numbers { AreKeyNumbers schema.now self.now.table
            (map (spec.target self.now.mask) (key_places schema.now self.now.table)) self.now.all numbers.now }
        requires len { length key.now ≡ numbers.now.len }
        ensures { MatchResult result
            (λ done. IsRowAdded schema.now self.now.table self.now.mask key.now cells.now rows.old rows.new)
            (λ why. (why ≡ Refusal.OutOfMemory) ⊎ IsNoRowOf schema.now self.now.table key.now cells.now) }
    {
        schema.meets_rules();
        let all = self.all.as_slice();
        rows.push_nulls(all.len())?;
        let kinds = schema.other_kinds(self.table);
        let others = self.others.as_slice();
        if !put_last_cells(alloc, kinds, others, all, self.others_read, cells, rows)? {
            return Err(Refusal::BadRow);
        }
        put_last_numbers(numbers, key, all.len(), rows);
        Ok(())
    }

    /// Puts the values of a coded key of the table at their places among the columns that are read. False only where the bytes code no such key.
    fn put_key_values(
        &self,
        alloc: Global,
        schema: &Schema,
        key: &[u8],
        row: &mut Vec<Value>,
    ) -> Result<bool, AllocError>
        requires { IsReader schema.now self.now }
        ensures { IfOk result
            (λ found.
            IsKeyPut schema.now self.now.table
            (map (spec.target self.now.mask) (key_places schema.now self.now.table)) self.now.all key.now row.old.items
            row.new.items found) }
    {
        schema.meets_rules();
        if let Some(numbers) = &self.numbers {
            if key.len() == numbers.len {
                put_numbers(numbers, key, row);
                return Ok(true);
            }
        }
        put_key(alloc, self.reads.as_slice(), self.all.as_slice(), key, row)
    }
}
