//! Rows beside numbers that are in the order of their first two keys, by which most of them are compared.
ghost use Rattle.std.specs.Prelude.{◌≡◌, ◌&&◌, ◌++◌, ◌∷◌, [], IfOk, List, OnOk};
ghost use Rattle.span_query.specs.declared.query.SortKey.{SortKey};
ghost use Rattle.span_query.specs.Sorting.{sorted};
ghost use Rattle.span_sorting.specs.Codes.{HaveCodes, IsCoded, are_exact, code_order, coded_rows, first_code, IsFirstInRange, uncoded};
ghost use Rattle.span_rows.specs.LentRows.{lent_rows};

use super::code::{is_exact_at, key_code, next_code};
use super::sort::compare_rows;
use span_query::query::SortKey;
use span_rows::row_list::RowList;
use span_value::value::Value;
use std::alloc::{AllocError, Global};
use std::cmp::Ordering;

/// A row that is lent, with its codes at the first key and at the second.
#[derive(Drop)]
pub(crate) struct CodedRow<'a> {
    pub(crate) row: &'a [Value],
    pub(crate) first: u128,
    /// 0 where there is no second key, or the code at the first is not exact.
    pub(crate) second: u128,
}

/// Rows with their codes.
#[derive(Drop)]
pub struct CodedRows<'a> {
    pub(crate) rows: Vec<CodedRow<'a>>,
    /// Whether rows that have the same codes are equal by the keys.
    pub(crate) are_exact: bool,
}

impl<'a> CodedRows<'a> {
    /// No rows. It takes no memory.
    pub fn new(alloc: Global) -> CodedRows<'a>
        ensures rows { coded_rows result ≡ [] }
        ensures coded { (keys : List SortKey) → HaveCodes keys result }
    {
        CodedRows {
            rows: Vec::new(alloc),
            are_exact: true,
        }
    }

    /// No rows, with reserved capacity for a number of rows. The only error is out of memory.
    pub(crate) fn with_capacity(alloc: Global, rows: usize) -> Result<CodedRows<'a>, AllocError>
        ensures rows { IfOk result (λ coded. coded_rows coded ≡ []) }
        ensures coded { IfOk result (λ coded. (keys : List SortKey) → HaveCodes keys coded) }
    {
        Ok(CodedRows {
            rows: Vec::with_capacity(alloc, rows)?,
            are_exact: true,
        })
    }
}

/// The row with its codes.
pub(crate) fn code_row<'a>(keys: &[SortKey], row: &'a [Value]) -> CodedRow<'a>
    ensures row { result.row.now ≡ row.now }
    ensures coded { IsCoded keys.now result }
{
    match keys {
        [] => CodedRow {
            row,
            first: 0,
            second: 0,
        },
        [key] => CodedRow {
            row,
            first: key_code(key, row),
            second: 0,
        },
        [key, next, ..] => CodedRow {
            row,
            first: key_code(key, row),
            second: next_code(key, next, row),
        },
    }
}

/// The code of a row at the first key.
pub(crate) fn first_code(keys: &[SortKey], row: &[Value]) -> u128
    ensures code { result ≡ first_code keys.now row.now }
    ensures range { IsFirstInRange keys.now row.now }
{
    match keys {
        [] => 0,
        [key, ..] => key_code(key, row),
    }
}

/// Whether rows that have the same codes as this row are equal to it by the keys.
fn are_exact(keys: &[SortKey], row: &[Value]) -> bool
    ensures { result ≡ are_exact keys.now row.now }
{
    match keys {
        [] => true,
        [key] => is_exact_at(key, row),
        [key, next] => is_exact_at(key, row) && is_exact_at(next, row),
        _ => false,
    }
}

/// Whether the codes of the rows so far are exact, and those of this row too.
pub(crate) fn exact_with(exact: bool, keys: &[SortKey], row: &[Value]) -> bool
    ensures { result ≡ (exact && are_exact keys.now row.now) }
{
    exact && are_exact(keys, row)
}

/// The rows with their codes.
pub(crate) fn code_rows<'a>(
    alloc: Global,
    keys: &[SortKey],
    rows: &[&'a [Value]],
) -> Result<CodedRows<'a>, AllocError>
    ensures rows { IfOk result (λ coded. coded_rows coded ≡ lent_rows rows.now) }
    ensures coded { IfOk result (λ coded. HaveCodes keys.now coded) }
{
    let mut all = Vec::with_capacity(alloc, rows.len())?;
    let mut exact = true;
    for row in rows {
        exact = exact_with(exact, keys, *row);
        all.push(code_row(keys, *row))?;
    }
    Ok(CodedRows {
        rows: all,
        are_exact: exact,
    })
}

/// Adds a row with its codes.
fn add_row<'a>(
    keys: &[SortKey],
    row: &'a [Value],
    all: &mut CodedRows<'a>,
) -> Result<(), AllocError>
    requires { HaveCodes keys.now all.old }
    ensures rows { OnOk result (coded_rows all.new ≡ coded_rows all.old ++ row.now ∷ []) }
    ensures coded { OnOk result (HaveCodes keys.now all.new) }
{
    all.are_exact = exact_with(all.are_exact, keys, row);
    all.rows.push(code_row(keys, row))?;
    Ok(())
}

/// Adds the rows of a list with their codes, in their order.
pub(crate) fn add_rows<'a>(
    keys: &[SortKey],
    rows: &'a RowList,
    all: &mut CodedRows<'a>,
) -> Result<(), AllocError>
    requires { HaveCodes keys.now all.old }
    ensures rows { OnOk result (coded_rows all.new ≡ coded_rows all.old ++ rows.now) }
    ensures coded { OnOk result (HaveCodes keys.now all.new) }
{
    for at in 0..rows.len() {
        add_row(keys, rows.row(at), all)?;
    }
    Ok(())
}

/// The order of two rows by their codes; where these are the same, and not exact, by the keys.
pub(crate) fn compare_coded(
    keys: &[SortKey],
    are_exact: bool,
    left: &CodedRow<'_>,
    right: &CodedRow<'_>,
) -> Ordering
    ensures { result ≡ code_order keys.now are_exact left.now right.now }
{
    if left.first != right.first {
        return left.first.cmp(&right.first);
    }
    if left.second != right.second {
        return left.second.cmp(&right.second);
    }
    if are_exact {
        Ordering::Equal
    } else {
        compare_rows(keys, left.row, right.row)
    }
}

/// The rows in the order of the keys, by their codes. Rows with equal keys keep their order.
pub(crate) fn sort_codes<'a>(
    keys: &[SortKey],
    rows: CodedRows<'a>,
) -> Result<CodedRows<'a>, AllocError>
    requires { HaveCodes keys.now rows }
    ensures rows { IfOk result (λ ordered. coded_rows ordered ≡ sorted keys.now (coded_rows rows.entry)) }
    ensures coded { IfOk result (HaveCodes keys.now) }
{
    let CodedRows {
        rows: mut coded,
        are_exact,
    } = rows;
    coded.sort_by(|left, right| compare_coded(keys, are_exact, left, right))?;
    Ok(CodedRows {
        rows: coded,
        are_exact,
    })
}

/// The rows without their codes.
pub(crate) fn uncode_rows<'a>(
    alloc: Global,
    rows: &[CodedRow<'a>],
) -> Result<Vec<&'a [Value]>, AllocError>
    ensures { IfOk result (λ all. lent_rows all.items ≡ uncoded rows.now) }
{
    let mut all = Vec::with_capacity(alloc, rows.len())?;
    for row in rows {
        all.push(row.row)?;
    }
    Ok(all)
}
