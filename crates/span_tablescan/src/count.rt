//! Rows of no values, of a leaf of one table all of whose condition is tested at the packed cells: they are counted, and none is read.
ghost use Rattle.std.specs.Prelude.{◌≡◌, ◌+◌, ◌++◌, ◌∷◌, [], List, Ok, IfOk, IfSome, replicate, true, if◌then◌else◌};
ghost use Rattle.span_schema.specs.Numbers.{IsTable};
ghost use Rattle.span_query.specs.Rows.{Row};
ghost use Rattle.span_columns.specs.Picks.{picked_width};
ghost use Rattle.span_entries.specs.Entries.{IsWhetherOf};
ghost use Rattle.span_entries.specs.WholeKeys.{IsOwnLength};
ghost use Rattle.span_rowreader.specs.Readers.{IsReader};
ghost use Rattle.span_tablescan.specs.Given.{IsKeptOn};
ghost use Rattle.span_tablescan.specs.Scans.{IsCount, IsScan, IsTakenBy};

use super::scan::{TableScan, Test};
use span_celltests::cell_test::meets_all;
use span_columns::narrow::picked_width;
use span_entries::whole_key::{WholeKey, is_own_of_length, is_undecided, own_length};
use span_rowreader::reader::TableReader;
use span_rows::row_list::RowList;
use span_schema::schema::Schema;
use span_shard::snapshot::{LateEntry, LateRows, Snapshot};
use std::alloc::{AllocError, Global};

/// Whether the rows of a scan have no values, and each that meets the tests of its packed cells is kept.
pub(crate) fn is_count(scan: &TableScan<'_>) -> bool
    ensures { result ≡ true → IsCount scan.now }
{
    match &scan.test {
        Test::Always => picked_width(scan.reader.mask.as_slice()) == 0,
        _ => false,
    }
}

/// Whether an entry is one of the reader's table. Its key is looked at only where the key's length does not decide. `own` is the length that
/// decides, where one does.
#[tactic(auto, using(crate::proofs::ScannedRows::own_by_length))]
fn is_own(
    schema: &Schema,
    reader: &TableReader,
    own: &Option<WholeKey>,
    entry: &LateEntry<'_>,
) -> bool
    requires table { IsTable schema.now reader.now.table }
    requires reader { IsReader schema.now reader.now }
    requires own { IfSome own.now (IsOwnLength schema.now reader.now.table) }
    ensures { IsWhetherOf schema.now reader.now.table entry.now.key result }
{
    if let Some(whole) = own {
        if let Some(is_own) = is_own_of_length(schema, reader.table, whole, entry.key_len()) {
            return is_own;
        }
    }
    reader.is_own_key(schema, entry.entry().key)
}

/// Whether an entry is a row of the scan's table that is kept.
fn is_counted(
    schema: &Schema,
    scan: &TableScan<'_>,
    own: &Option<WholeKey>,
    entry: &LateEntry<'_>,
) -> bool
    requires table { IsTable schema.now scan.now.reader.table }
    requires scan { IsScan schema.now scan.now }
    requires count { IsCount scan.now }
    requires own { IfSome own.now (IsOwnLength schema.now scan.now.reader.table) }
    ensures { (rows : List Row)
        → IsTakenBy schema.now scan.now entry.now.key entry.now.row (Ok tt) rows
        (if result then rows ++ [] ∷ [] else rows) }
{
    let reader = &scan.reader;
    if !meets_all(
        scan.needed.as_slice(),
        schema.other_kinds(reader.table),
        entry.row(),
    ) {
        return false;
    }
    is_own(schema, reader, own, entry)
}

/// A number of rows, and one more where an entry is a row of the scan's table that is kept. The only error is that it is none of 64 bits.
fn count_entry(
    schema: &Schema,
    scan: &TableScan<'_>,
    own: &Option<WholeKey>,
    entry: &LateEntry<'_>,
    count: usize,
) -> Result<usize, AllocError>
    requires table { IsTable schema.now scan.now.reader.table }
    requires scan { IsScan schema.now scan.now }
    requires count { IsCount scan.now }
    requires own { IfSome own.now (IsOwnLength schema.now scan.now.reader.table) }
    ensures { IfOk result
        (λ more. IsTakenBy schema.now scan.now entry.now.key entry.now.row (Ok tt) (replicate count [])
        (replicate more [])) }
{
    // No branch: whether the next of interleaved rows is one of the table can't be guessed.
    let more = usize::from(is_counted(schema, scan, own, entry));
    match count.checked_add(more) {
        None => Err(AllocError),
        Some(count) => Ok(count),
    }
}

/// The sum of two numbers of rows. The only error is that it is none of 64 bits.
fn sum_of(count: usize, more: usize) -> Result<usize, AllocError>
    ensures { IfOk result (λ sum. sum ≡ count + more) }
{
    match count.checked_add(more) {
        None => Err(AllocError),
        Some(sum) => Ok(sum),
    }
}

/// How many of the rows that were found together are rows of the scan's table, where no test is needed. None where the length of a key does not
/// decide.
fn count_found(
    schema: &Schema,
    scan: &TableScan<'_>,
    own: &WholeKey,
    mut rows: LateRows<'_>,
) -> Result<Option<usize>, AllocError>
    requires scan { IsScan schema.now scan.now }
    requires count { IsCount scan.now }
    requires none { scan.now.needed ≡ [] }
    requires own { IsOwnLength schema.now scan.now.reader.table own.now }
    ensures { IfOk result (λ found. IfSome found
        (λ count. IsKeptOn schema.now scan.now.leaf.now rows.entry (Ok (replicate count [])))) }
{
    schema.meets_rules();
    let mut count = 0;
    let mut is_unsure = false;
    // No branch on a length: of which table the next of interleaved rows is can't be guessed.
    while let Some(entry) = rows.next_late() {
        let len = entry.key_len();
        count = sum_of(count, usize::from(len == own.len))?;
        is_unsure = is_unsure | is_undecided(own, len);
    }
    if is_unsure {
        return Ok(None);
    }
    Ok(Some(count))
}

/// How many of the rows that the snapshot lends are kept, where no test is needed and the lengths of their keys decide; else None.
fn count_by_length(
    schema: &Schema,
    scan: &TableScan<'_>,
    own: &Option<WholeKey>,
    snapshot: &Snapshot<'_>,
) -> Result<Option<usize>, AllocError>
    requires table { IsTable schema.now scan.now.reader.table }
    requires scan { IsScan schema.now scan.now }
    requires count { IsCount scan.now }
    requires own { IfSome own.now (IsOwnLength schema.now scan.now.reader.table) }
    ensures { IfOk result (λ found. IfSome found
        (λ count. IsKeptOn schema.now scan.now.leaf.now snapshot.now (Ok (replicate count [])))) }
{
    let Some(own) = own else {
        return Ok(None);
    };
    if scan.needed.len() > 0 {
        return Ok(None);
    }
    let mut count = 0;
    let mut entries = snapshot.copy().with_short_keys(scan.reader.most);
    entries.look_at_keys(false);
    while let Some(entry) = entries.next_late() {
        let Some(is_own) = is_own_of_length(schema, scan.reader.table, own, entry.key_len()) else {
            return Ok(None);
        };
        let Some(more) = count_found(schema, scan, own, entries.take_found())? else {
            return Ok(None);
        };
        count = sum_of(sum_of(count, usize::from(is_own))?, more)?;
    }
    Ok(Some(count))
}

/// How many of the rows that the snapshot lends are kept.
fn count_rows(
    schema: &Schema,
    scan: &TableScan<'_>,
    snapshot: Snapshot<'_>,
) -> Result<usize, AllocError>
    requires table { IsTable schema.now scan.now.reader.table }
    requires scan { IsScan schema.now scan.now }
    requires count { IsCount scan.now }
    ensures { IfOk result (λ count. IsKeptOn schema.now scan.now.leaf.now snapshot.entry (Ok (replicate count []))) }
{
    let own = own_length(schema, scan.reader.table);
    if let Some(count) = count_by_length(schema, scan, &own, &snapshot)? {
        return Ok(count);
    }
    let mut count = 0;
    let mut entries = snapshot.with_short_keys(scan.reader.most);
    entries.look_at_keys(own.is_none());
    while let Some(entry) = entries.next_late() {
        count = count_entry(schema, scan, &own, &entry, count)?;
    }
    Ok(count)
}

/// The rows that the scan takes of those that the snapshot lends, each of no values. The only error is out of memory.
pub(crate) fn counted_rows(
    alloc: Global,
    schema: &Schema,
    scan: &TableScan<'_>,
    snapshot: Snapshot<'_>,
) -> Result<RowList, AllocError>
    requires table { IsTable schema.now scan.now.reader.table }
    requires scan { IsScan schema.now scan.now }
    requires count { IsCount scan.now }
    ensures { IfOk result (λ rows. IsKeptOn schema.now scan.now.leaf.now snapshot.entry (Ok rows)) }
{
    let count = count_rows(schema, scan, snapshot)?;
    let mut rows = RowList::new(alloc);
    rows.push_empty_rows(count)?;
    Ok(rows)
}
