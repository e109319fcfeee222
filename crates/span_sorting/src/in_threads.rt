//! ORDER BY of many rows by several threads.
ghost use Rattle.std.specs.Prelude.{◌≡◌, IfOk, map};
ghost use Rattle.span_query.specs.Groups.{columns_at};
ghost use Rattle.span_query.specs.Meaning.{limit_rows};
ghost use Rattle.span_query.specs.Sorting.{sorted};
ghost use Rattle.span_rows.specs.LentRows.{lent_rows};
ghost use Rattle.span_sorting.specs.Codes.{HaveCodes, coded_rows};

use super::coded::{CodedRows, code_rows, compare_coded, uncode_rows};
use super::sort::{copy_part, first_count, order_columns};
use rayon::prelude::*;
use span_query::query::{Limit, SortKey};
use span_rows::row_list::RowList;
use span_value::value::Value;
use std::alloc::{AllocError, Global};
use std::thread::Threads;

/// How many rows several threads put in order at least. For fewer, one thread takes so little time that what several would save is small.
const MANY_ROWS: usize = 16_384;

/// The rows in the order of the keys, by their codes. Rows with equal keys keep their order.
fn sort_codes<'a, R: Threads + Sync>(
    rt: &R,
    alloc: Global,
    keys: &[SortKey],
    rows: CodedRows<'a>,
) -> Result<CodedRows<'a>, AllocError>
    requires { HaveCodes keys.now rows }
    ensures { IfOk result (λ ordered. coded_rows ordered ≡ sorted keys.now (coded_rows rows.entry)) }
{
    let CodedRows {
        rows: mut coded,
        are_exact,
    } = rows;
    par_sort_by(
        rt,
        alloc,
        coded.as_mut_slice(),
        |left, right| compare_coded(keys, are_exact, left, right),
    )?;
    Ok(CodedRows {
        rows: coded,
        are_exact,
    })
}

/// The rows in the order of the keys. Rows with equal keys keep their order.
fn sort_rows<'a, R: Threads + Sync>(
    rt: &R,
    alloc: Global,
    keys: &[SortKey],
    rows: &[&'a [Value]],
) -> Result<Vec<&'a [Value]>, AllocError>
    ensures { IfOk result (λ all. lent_rows all.items ≡ sorted keys.now (lent_rows rows.now)) }
{
    let coded = code_rows(alloc, keys, rows)?;
    let ordered = sort_codes(rt, alloc, keys, coded)?;
    let all = uncode_rows(alloc, ordered.rows.as_slice())?;
    Ok(all)
}

/// Whether one thread puts the rows in order: where they are few, where there are no keys, or where LIMIT needs few of them.
fn are_for_one_thread(keys: &[SortKey], limit: Option<Limit>, rows: usize) -> bool {
    rows < MANY_ROWS || keys.is_empty() || first_count(keys, limit).is_some()
}

/// `order_columns`, where many rows are put in order by as many threads as there are processors.
pub fn order_columns_in_threads<R: Threads + Sync>(
    rt: &R,
    alloc: Global,
    keys: &[SortKey],
    limit: Option<Limit>,
    columns: &[usize],
    rows: Vec<&[Value]>,
) -> Result<RowList, AllocError>
    ensures { IfOk result
        (λ part. part
        ≡ map (columns_at columns.now) (limit_rows limit (sorted keys.now (lent_rows rows.entry.items)))) }
{
    if are_for_one_thread(keys, limit, rows.len()) {
        return order_columns(alloc, keys, limit, columns, rows);
    }
    let all = sort_rows(rt, alloc, keys, rows.as_slice())?;
    let part = copy_part(alloc, limit, columns, all.as_slice())?;
    Ok(part)
}
