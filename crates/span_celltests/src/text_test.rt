//! Comparisons of columns of texts with texts, judged at a packed row.
ghost use Rattle.std.specs.Prelude.{◌≡◌, ◌≤◌, ◌^◌, IfOk, IfSome, MatchOption, None, Some, drop, length};
ghost use Rattle.span_value.specs.declared.value.Kind.TheVariants as kind;
ghost use Rattle.span_value.specs.declared.value.Value.TheVariants.{Str};
ghost use Rattle.span_schema.specs.Numbers.{IsTable};
ghost use Rattle.span_rowcode.specs.declared.pack.TheConstants.{LONGEST_ROW};
ghost use Rattle.span_expr.specs.declared.expr.Expr.TheVariants.{Literal};
ghost use Rattle.span_celltests.specs.CellTests as spec;
ghost use Rattle.span_celltests.specs.CellTests.{IsCellOf, IsTextFound, IsTextTestOf, IsWhetherPass, comparison_at};

use crate::column_cell::{cell_place, column_cell};
use crate::ends::{BEGIN, coded_length};
use span_eval::operator::holds;
use span_expr::expr::{Comparison, Expr};
use span_rowcode::cell::after;
use span_rowcode::pack::LONGEST_ROW;
use span_schema::schema::Schema;
use span_value::seq::Seq;
use span_value::value::{Kind, Value};
use std::alloc::{AllocError, Global};

/// A comparison of a column of texts outside the key with a text.
#[derive(Debug, Drop)]
pub struct TextTest {
    /// The place of the column among those outside the key.
    pub cell: usize,
    pub comparison: Comparison,
    /// The bytes of the text.
    pub text: Seq<u8>,
}

/// A text that an expression is.
fn literal_text(expr: &Expr) -> Option<&str>
    ensures { IfSome result (λ text. expr.now ≡ Literal (Str text.now)) }
{
    match expr {
        Expr::Literal(Value::Str(text)) => Some(text.as_str()),
        _ => None,
    }
}

/// The test that a comparison is whose left side is a column. None where that is not one of texts outside the key, or the right side is no
/// text.
pub(crate) fn text_test(
    alloc: Global,
    schema: &Schema,
    table: usize,
    left: &Expr,
    comparison: Comparison,
    right: &Expr,
) -> Result<Option<TextTest>, AllocError>
    requires { IsTable schema.now table }
    ensures { IfOk result
        (λ found. IfSome found
        (λ test. IsTextTestOf schema.now table (comparison_at schema.now left.now comparison right.now) test)) }
{
    let Expr::Column(place) = left else {
        return Ok(None);
    };
    let Some(text) = literal_text(right) else {
        return Ok(None);
    };
    let Some(cell) = column_cell(schema, table, Kind::Str, *place) else {
        return Ok(None);
    };
    let bytes = text.as_bytes().to_vec(alloc)?;
    Ok(Some(TextTest {
        cell,
        comparison,
        text: Seq::from_vec(bytes),
    }))
}

/// The bytes after the length that the code of a text begins with. None where there are fewer than it says.
fn bytes_after(code: &[u8]) -> Option<&[u8]>
    requires { 5 ≤ length code.now }
    ensures { MatchOption result (spec.IsNoTextIn code.now) (λ text. spec.IsTextIn code.now text.now) }
{
    let len = coded_length(code) as usize;
    let rest = after(code, BEGIN);
    if len > rest.len() {
        return None;
    }
    Some(&rest[..len])
}

/// The bytes of the text that is coded at a place. None where it is NULL, or no text is coded there.
pub(crate) fn text_at(bytes: &[u8], at: usize) -> Option<&[u8]>
    requires len { length bytes.now ≤ LONGEST_ROW }
    requires at { at ≤ 2 ^ 33 }
    ensures { MatchOption result
        (IsTextFound (drop at bytes.now) None)
        (λ text. IsTextFound (drop at bytes.now) (Some text.now)) }
{
    if at + BEGIN > bytes.len() {
        return None;
    }
    let code = after(bytes, at);
    if code[0] == 0 {
        return None;
    }
    bytes_after(code)
}

/// Whether the bytes of a text meet a test.
fn meets_value(test: &TextTest, text: &[u8]) -> bool
    ensures { result ≡ spec.meets_text test.now (Str text.now) }
{
    holds(test.comparison, text.cmp(test.text.as_slice()))
}

/// Whether the cells of a packed row meet a test.
pub(crate) fn meets_text(test: &TextTest, kinds: &[Kind], bytes: &[u8]) -> bool
    requires text { IsCellOf kind.Str kinds.now test.now.cell }
    requires len { length bytes.now ≤ LONGEST_ROW }
    ensures { IsWhetherPass kinds.now bytes.now (λ cells. spec.meets_text_at cells test.now) result }
{
    match text_at(bytes, cell_place(kinds, test.cell, bytes)) {
        None => false,
        Some(text) => meets_value(test, text),
    }
}
