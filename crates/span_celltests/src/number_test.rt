//! Comparisons of columns of numbers with numbers, judged at a packed row.
ghost use Rattle.std.specs.Prelude.{◌≡◌, ◌≤◌, ◌^◌, IfSome, drop, length};
ghost use Rattle.span_value.specs.declared.value.Kind.TheVariants as kind;
ghost use Rattle.span_value.specs.declared.value.Value.TheVariants.{Int};
ghost use Rattle.span_schema.specs.Numbers.{IsTable};
ghost use Rattle.span_rowcode.specs.declared.pack.TheConstants.{LONGEST_ROW};
ghost use Rattle.span_rowcode.specs.Cells.{IsBody};
ghost use Rattle.span_expr.specs.declared.expr.Expr.TheVariants.{Literal};
ghost use Rattle.span_celltests.specs.CellTests as spec;
ghost use Rattle.span_celltests.specs.CellTests.{IsCellOf, IsNumberFound, IsNumberTestOf, IsWhetherPass, comparison_at};

use crate::column_cell::{cell_place, column_cell};
use span_eval::operator::holds;
use span_expr::expr::{Comparison, Expr};
use span_rowcode::cell::after;
use span_rowcode::pack::LONGEST_ROW;
use span_schema::schema::Schema;
use span_value::value::{Kind, Value};

/// A comparison of a column of numbers outside the key with a number.
#[derive(Clone, Copy, Debug)]
pub struct NumberTest {
    /// The place of the column among those outside the key.
    pub cell: usize,
    pub comparison: Comparison,
    pub number: i64,
}

/// A number that an expression is.
fn literal_number(expr: &Expr) -> Option<i64>
    ensures { IfSome result (λ number. expr.now ≡ Literal (Int number)) }
{
    match expr {
        Expr::Literal(Value::Int(number)) => Some(*number),
        _ => None,
    }
}

/// The test that a comparison is whose left side is a column. None where that is not one of numbers outside the key, or the right side is
/// no number.
pub(crate) fn number_test(
    schema: &Schema,
    table: usize,
    left: &Expr,
    comparison: Comparison,
    right: &Expr,
) -> Option<NumberTest>
    requires { IsTable schema.now table }
    ensures { IfSome result
        (λ test. IsNumberTestOf schema.now table (comparison_at schema.now left.now comparison right.now) test) }
{
    let Expr::Column(place) = left else {
        return None;
    };
    let number = literal_number(right)?;
    let cell = column_cell(schema, table, Kind::Int, *place)?;
    Some(NumberTest {
        cell,
        comparison,
        number,
    })
}

/// How many bytes code a number: one byte that it is no NULL, and eight.
const NUMBER_BYTES: usize = 9;

/// The number in the first eight bytes.
fn eight_at(rest: &[u8]) -> i64
    requires { 8 ≤ length rest.now }
    ensures { IsBody kind.Int rest.now (Int result) 8 }
{
    let Some((eight, _)) = rest.split_first_chunk::<8>() else {
        unreachable!()
    };
    u64::from_be_bytes(*eight).cast_signed()
}

/// The number that is coded at a place. None where it is NULL, or none is coded there.
fn number_at(bytes: &[u8], at: usize) -> Option<i64>
    requires len { length bytes.now ≤ LONGEST_ROW }
    requires at { at ≤ 2 ^ 33 }
    ensures { IsNumberFound (drop at bytes.now) result }
{
    if at + NUMBER_BYTES > bytes.len() {
        return None;
    }
    let code = after(bytes, at);
    if code[0] == 0 {
        return None;
    }
    Some(eight_at(after(code, 1)))
}

/// Whether a number meets a test.
fn meets_value(test: &NumberTest, number: i64) -> bool
    ensures { result ≡ spec.meets_number test.now (Int number) }
{
    holds(test.comparison, number.cmp(&test.number))
}

/// Whether the cells of a packed row meet a test.
#[inline(always)]
pub(crate) fn meets_number(test: &NumberTest, kinds: &[Kind], bytes: &[u8]) -> bool
    requires number { IsCellOf kind.Int kinds.now test.now.cell }
    requires len { length bytes.now ≤ LONGEST_ROW }
    ensures { IsWhetherPass kinds.now bytes.now (λ cells. spec.meets_number_at cells test.now) result }
{
    match number_at(bytes, cell_place(kinds, test.cell, bytes)) {
        None => false,
        Some(number) => meets_value(test, number),
    }
}
