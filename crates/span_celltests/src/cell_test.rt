//! Tests of a condition that are judged where a row is packed: no value is made of a row that is not kept.
ghost use Rattle.std.specs.Prelude.{◌≡◌, ◌≤◌, IfOk, IfSome, OnOk, length, true};
ghost use Rattle.std.specs.List.{AllByRecursion, list_all};
ghost use Rattle.span_schema.specs.Numbers.{IsTable};
ghost use Rattle.span_rowcode.specs.declared.pack.TheConstants.{LONGEST_ROW};
ghost use Rattle.span_celltests.specs.CellTests as spec;
ghost use Rattle.span_celltests.specs.CellTests.{AddsNeeded, AddsTests, AreMoreTests, AreNeededFor, AreSomeTests, AreTestsOf, IsTestable, IsTestOf, IsWhetherPass, between_at, comparison_at, condition_at, like_at};

use crate::comparison::exchange_sides;
use crate::like_test::{LikeTest, like_test, meets_like};
use crate::number_test::{NumberTest, meets_number, number_test};
use crate::text_test::{TextTest, meets_text, text_test};
use span_expr::expr::{Comparison, Expr};
use span_pattern::pattern::PatternPart;
use span_rowcode::pack::LONGEST_ROW;
use span_schema::schema::Schema;
use span_value::seq::Seq;
use span_value::value::Kind;
use std::alloc::{AllocError, Global};

/// A test of one of the packed cells of a row.
#[derive(Debug, Drop)]
pub enum CellTest {
    Number(NumberTest),
    Text(TextTest),
    Like(LikeTest),
}

// ---- what the tests of a condition are

/// The test that a comparison is whose left side is a column. None where it is not of a column outside the key with a literal of its type.
fn column_test(
    alloc: Global,
    schema: &Schema,
    table: usize,
    left: &Expr,
    comparison: Comparison,
    right: &Expr,
) -> Result<Option<CellTest>, AllocError>
    requires { IsTable schema.now table }
    ensures { IfOk result
        (λ found. IfSome found
        (λ test. IsTestOf schema.now table (comparison_at schema.now left.now comparison right.now) test)) }
{
    if let Some(test) = number_test(schema, table, left, comparison, right) {
        return Ok(Some(CellTest::Number(test)));
    }
    match text_test(alloc, schema, table, left, comparison, right)? {
        None => Ok(None),
        Some(test) => Ok(Some(CellTest::Text(test))),
    }
}

/// The test that a comparison is. None where it is not of a column outside the key with a literal of its type, on either side.
fn comparison_test(
    alloc: Global,
    schema: &Schema,
    table: usize,
    left: &Expr,
    comparison: Comparison,
    right: &Expr,
) -> Result<Option<CellTest>, AllocError>
    requires { IsTable schema.now table }
    ensures { IfOk result
        (λ found. IfSome found
        (λ test. IsTestOf schema.now table (comparison_at schema.now left.now comparison right.now) test)) }
{
    match left {
        Expr::Literal(_) => column_test(
            alloc,
            schema,
            table,
            right,
            exchange_sides(comparison),
            left,
        ),
        _ => column_test(alloc, schema, table, left, comparison, right),
    }
}

/// The tests of packed cells that a condition has.
#[derive(Debug, Drop)]
pub struct CellTests {
    /// A row at which the condition is TRUE meets all of these.
    pub tests: Seq<CellTest>,
    /// Whether the condition is TRUE at each row that meets them.
    pub are_all: bool,
}

/// Adds the test that a comparison is; whether it is one.
fn add_comparison(
    schema: &Schema,
    table: usize,
    left: &Expr,
    comparison: Comparison,
    right: &Expr,
    tests: &mut Vec<CellTest>,
) -> Result<bool, AllocError>
    requires { IsTable schema.now table }
    ensures all { IfOk result
        (λ all. all ≡ true
        → AddsTests schema.now table
        (comparison_at schema.now left.now comparison right.now) tests.old.items tests.new.items) }
    ensures some { OnOk result
        (AddsNeeded schema.now table
        (comparison_at schema.now left.now comparison right.now) tests.old.items tests.new.items) }
{
    match comparison_test(*tests.allocator(), schema, table, left, comparison, right)? {
        None => Ok(false),
        Some(test) => {
            tests.push(test)?;
            Ok(true)
        }
    }
}

/// Adds the two tests that `operand BETWEEN low AND high` is; whether it is both.
fn add_between(
    schema: &Schema,
    table: usize,
    operand: &Expr,
    low: &Expr,
    high: &Expr,
    tests: &mut Vec<CellTest>,
) -> Result<bool, AllocError>
    requires { IsTable schema.now table }
    ensures all { IfOk result
        (λ all. all ≡ true
        → AddsTests schema.now table
        (between_at schema.now operand.now low.now high.now) tests.old.items tests.new.items) }
    ensures some { OnOk result
        (AddsNeeded schema.now table
        (between_at schema.now operand.now low.now high.now) tests.old.items tests.new.items) }
{
    let is_low = add_comparison(schema, table, operand, Comparison::AtLeast, low, tests)?;
    let is_high = add_comparison(schema, table, operand, Comparison::AtMost, high, tests)?;
    Ok(is_low && is_high)
}

/// Adds the test that `operand LIKE pattern` is; whether it is one.
fn add_like(
    schema: &Schema,
    table: usize,
    operand: &Expr,
    pattern: &[PatternPart],
    tests: &mut Vec<CellTest>,
) -> Result<bool, AllocError>
    requires { IsTable schema.now table }
    ensures all { IfOk result
        (λ all. all ≡ true
        → AddsTests schema.now table
        (like_at schema.now operand.now pattern.now) tests.old.items tests.new.items) }
    ensures some { OnOk result
        (AddsNeeded schema.now table
        (like_at schema.now operand.now pattern.now) tests.old.items tests.new.items) }
{
    match like_test(*tests.allocator(), schema, table, operand, pattern)? {
        None => Ok(false),
        Some(test) => {
            tests.push(CellTest::Like(test))?;
            Ok(true)
        }
    }
}

/// Adds the tests that a condition has; whether it is these.
fn add_test(
    schema: &Schema,
    table: usize,
    condition: &Expr,
    tests: &mut Vec<CellTest>,
) -> Result<bool, AllocError>
    requires { IsTable schema.now table }
    ensures all { IfOk result
        (λ all. all ≡ true
        → AddsTests schema.now table (condition_at schema.now condition.now) tests.old.items tests.new.items) }
    ensures some { OnOk result
        (AddsNeeded schema.now table (condition_at schema.now condition.now) tests.old.items tests.new.items) }
{
    match condition {
        Expr::Compare(left, comparison, right) => {
            add_comparison(schema, table, left.get(), *comparison, right.get(), tests)
        }
        Expr::Between(operand, low, high) => {
            add_between(schema, table, operand.get(), low.get(), high.get(), tests)
        }
        Expr::Like(operand, pattern) => {
            add_like(schema, table, operand.get(), pattern.as_slice(), tests)
        }
        _ => Ok(false),
    }
}

/// Adds the tests that several conditions have; whether they are these.
fn add_tests(
    schema: &Schema,
    table: usize,
    conditions: &[Expr],
    tests: &mut Vec<CellTest>,
) -> Result<bool, AllocError>
    requires { IsTable schema.now table }
    ensures all { IfOk result
        (λ all. all ≡ true → AreMoreTests schema.now table conditions.now tests.old.items tests.new.items) }
    ensures some { OnOk result (AreSomeTests schema.now table conditions.now tests.old.items tests.new.items) }
{
    let mut all = true;
    for condition in conditions {
        let is_test = add_test(schema, table, condition, tests)?;
        all = all && is_test;
    }
    Ok(all)
}

/// The tests that a condition has: comparisons of columns outside the key with literals of their types, numbers or texts, also by BETWEEN, and
/// LIKE of such columns of texts; alone or among the conditions of an AND.
pub fn cell_tests(
    alloc: Global,
    schema: &Schema,
    table: usize,
    condition: &Expr,
) -> Result<CellTests, AllocError>
    requires { IsTable schema.now table }
    ensures needed { IfOk result (λ found. AreNeededFor schema.now table condition.now found.tests) }
    ensures all { IfOk result
        (λ found. found.are_all ≡ true → AreTestsOf schema.now table condition.now found.tests) }
{
    let mut tests = Vec::new(alloc);
    let are_all = match condition {
        Expr::And(first, more) => {
            let is_first = add_test(schema, table, first.get(), &mut tests)?;
            let are_more = add_tests(schema, table, more.as_slice(), &mut tests)?;
            is_first && are_more
        }
        _ => add_test(schema, table, condition, &mut tests)?,
    };
    Ok(CellTests {
        tests: Seq::from_vec(tests),
        are_all,
    })
}

// ---- tests at a packed row

/// Whether the cells of a packed row meet a test.
#[inline(always)]
fn meets_test(test: &CellTest, kinds: &[Kind], bytes: &[u8]) -> bool
    requires testable { IsTestable kinds.now test.now }
    requires len { length bytes.now ≤ LONGEST_ROW }
    ensures { IsWhetherPass kinds.now bytes.now (λ cells. spec.meets cells test.now) result }
{
    match test {
        CellTest::Number(test) => meets_number(test, kinds, bytes),
        CellTest::Text(test) => meets_text(test, kinds, bytes),
        CellTest::Like(test) => meets_like(test, kinds, bytes),
    }
}

/// Whether the cells of a packed row meet all of some tests.
#[inline(always)]
pub fn meets_all(tests: &[CellTest], kinds: &[Kind], bytes: &[u8]) -> bool
    requires { AllByRecursion (IsTestable kinds.now) tests.now }
    ensures { IsWhetherPass kinds.now bytes.now (λ cells. list_all (spec.meets cells) tests.now) result }
{
    if bytes.len() > LONGEST_ROW {
        return false;
    }
    for test in tests {
        if !meets_test(test, kinds, bytes) {
            return false;
        }
    }
    true
}
