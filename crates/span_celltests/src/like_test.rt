//! LIKE of columns of texts, judged at a packed row.
ghost use Rattle.std.specs.Prelude.{◌≡◌, ◌≤◌, IfOk, IfSome, chars, length};
ghost use Rattle.std.specs.Str.{IsUtf8};
ghost use Rattle.span_value.specs.declared.value.Kind.TheVariants as kind;
ghost use Rattle.span_schema.specs.Numbers.{IsTable};
ghost use Rattle.span_rowcode.specs.declared.pack.TheConstants.{LONGEST_ROW};
ghost use Rattle.span_pattern.specs.Patterns as patterns;
ghost use Rattle.span_celltests.specs.CellTests as spec;
ghost use Rattle.span_celltests.specs.CellTests.{IsCellOf, IsLikeTestOf, IsWhetherPass, like_at};

use crate::column_cell::{cell_place, column_cell};
use crate::text_test::text_at;
use span_expr::expr::Expr;
use span_pattern::pattern::{PatternPart, fits};
use span_rowcode::pack::LONGEST_ROW;
use span_schema::schema::Schema;
use span_value::seq::Seq;
use span_value::value::Kind;
use std::alloc::{AllocError, Global};

/// That a pattern fits a column of texts outside the key.
#[derive(Debug, Drop)]
pub struct LikeTest {
    /// The place of the column among those outside the key.
    pub cell: usize,
    pub pattern: Seq<PatternPart>,
}

/// The test that `operand LIKE pattern` is. None where the operand is no column of texts outside the key.
pub(crate) fn like_test(
    alloc: Global,
    schema: &Schema,
    table: usize,
    operand: &Expr,
    pattern: &[PatternPart],
) -> Result<Option<LikeTest>, AllocError>
    requires { IsTable schema.now table }
    ensures { IfOk result
        (λ found. IfSome found
        (λ test. IsLikeTestOf schema.now table (like_at schema.now operand.now pattern.now) test)) }
{
    let Expr::Column(place) = operand else {
        return Ok(None);
    };
    let Some(cell) = column_cell(schema, table, Kind::Str, *place) else {
        return Ok(None);
    };
    let parts = pattern.to_vec(alloc)?;
    Ok(Some(LikeTest {
        cell,
        pattern: Seq::from_vec(parts),
    }))
}

/// Whether a pattern fits the text that has these bytes.
fn fits_bytes(pattern: &[PatternPart], bytes: &[u8]) -> bool
    ensures { IsUtf8 bytes.now → result ≡ patterns.fits pattern.now (chars bytes.now) }
{
    match str::from_utf8(bytes) {
        Err(_wrong) => false,
        Ok(text) => fits(pattern, text),
    }
}

/// Whether the cells of a packed row meet a test.
pub(crate) fn meets_like(test: &LikeTest, kinds: &[Kind], bytes: &[u8]) -> bool
    requires text { IsCellOf kind.Str kinds.now test.now.cell }
    requires len { length bytes.now ≤ LONGEST_ROW }
    ensures { IsWhetherPass kinds.now bytes.now (λ cells. spec.meets_like_at cells test.now) result }
{
    match text_at(bytes, cell_place(kinds, test.cell, bytes)) {
        None => false,
        Some(text) => fits_bytes(test.pattern.as_slice(), text),
    }
}
