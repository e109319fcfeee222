//! The range of coded keys of a leaf: the family of its tables, narrowed by comparisons of the first root key column with literals.
ghost use Rattle.std.specs.Prelude.{◌≡◌, ◌<◌, ◌∷◌, [], Some, IfOk, flat_map, map};
ghost use Rattle.std.specs.Option.{option_copied};
ghost use Rattle.span_keycode.specs.Parts.{family, later, earlier, part_between};
ghost use Rattle.span_schema.specs.Numbers.{IsTable, root_of};
ghost use Rattle.span_leaves.specs.Ranges as spec;

use super::table::place_after;
use span_expr::expr::{Comparison, Expr};
use span_expr::form::{as_column, as_literal};
use span_keycode::compare::order_of_bytes;
use span_keycode::key::Key;
use span_keycode::range::{KeyRange, RangeComparison, range_of};
use span_schema::fitting::is_of_kind;
use span_schema::layout::KeyPart;
use span_schema::schema::Schema;
use span_value::value::{Kind, Value};
use std::alloc::{AllocError, Global};

/// The first column of the key of a root table.
#[derive(Clone, Copy)]
struct FirstColumn {
    /// The root table's number.
    root: u8,
    /// How the column is coded.
    part: KeyPart,
    /// Its place in a row.
    place: usize,
}

/// The keys of a family, by the number of its root table. It takes no memory.
fn family_range(alloc: Global, root: u8) -> Result<KeyRange, AllocError>
    requires { root < 255 }
    ensures { IfOk result (λ range. range ≡ family root) }
{
    Ok(KeyRange {
        low: Key::from_slice(alloc, &[root])?,
        high: Key::from_slice(alloc, &[root + 1])?,
    })
}

fn later(a: Key, b: Key) -> Key
    ensures { result ≡ later a b }
{
    if order_of_bytes(a.as_slice(), b.as_slice()).is_lt() {
        b
    } else {
        a
    }
}

fn earlier(a: Key, b: Key) -> Key
    ensures { result ≡ earlier a b }
{
    if order_of_bytes(b.as_slice(), a.as_slice()).is_lt() {
        b
    } else {
        a
    }
}

/// The part of a range that is within another.
fn part_within(range: KeyRange, other: KeyRange) -> KeyRange
    ensures { result ≡ part_between (Some other.low) (Some other.high) range }
{
    KeyRange {
        low: later(other.low, range.low),
        high: earlier(other.high, range.high),
    }
}

/// Whether a value is NULL or of a type.
#[tactic(auto, using(crate::proofs::Ranging::same_test))]
fn is_of_type(kind: Kind, value: &Value) -> bool
    ensures { result ≡ spec.is_of_type kind value.now }
{
    is_of_kind(kind, value)
}

/// The comparison that bounds its left side, if it does; `<>` does not.
fn bound_of(comparison: Comparison) -> Option<RangeComparison>
    ensures { result ≡ spec.bound_of comparison }
{
    match comparison {
        Comparison::Equal => Some(RangeComparison::Equal),
        Comparison::NotEqual => None,
        Comparison::Less => Some(RangeComparison::Less),
        Comparison::AtMost => Some(RangeComparison::AtMost),
        Comparison::Greater => Some(RangeComparison::Greater),
        Comparison::AtLeast => Some(RangeComparison::AtLeast),
    }
}

/// The same comparison with its sides exchanged.
fn exchange_sides(comparison: RangeComparison) -> RangeComparison
    ensures { result ≡ spec.exchanged comparison }
{
    match comparison {
        RangeComparison::Equal => RangeComparison::Equal,
        RangeComparison::Less => RangeComparison::Greater,
        RangeComparison::AtMost => RangeComparison::AtLeast,
        RangeComparison::Greater => RangeComparison::Less,
        RangeComparison::AtLeast => RangeComparison::AtMost,
    }
}

/// A range, narrowed to where the column compares so with a value, if that is of its type. The error is out of memory.
fn narrow(
    alloc: Global,
    column: FirstColumn,
    range: KeyRange,
    comparison: RangeComparison,
    value: &Value,
) -> Result<KeyRange, AllocError>
    requires { column.root < 255 }
    ensures { IfOk result
        (λ found. found ≡ spec.narrowed_by column.root column.part range ((comparison, value.now) ∷ [])) }
{
    if !is_of_type(column.part.kind, value) {
        return Ok(range);
    }
    let other = range_of(alloc, column.root, column.part, comparison, value)?;
    Ok(part_within(range, other))
}

/// The same, where a condition compares a column so with a literal, if that is the one.
fn narrow_if(
    alloc: Global,
    column: FirstColumn,
    range: KeyRange,
    place: Option<usize>,
    comparison: Option<RangeComparison>,
    literal: Option<&Value>,
) -> Result<KeyRange, AllocError>
    requires { column.root < 255 }
    ensures { IfOk result
        (λ found. found ≡ spec.narrowed_by column.root column.part range
        (spec.bound_at column.place place comparison (option_copied literal.entry))) }
{
    match (place, comparison, literal) {
        (Some(place), Some(comparison), Some(value)) => if place == column.place {
            narrow(alloc, column, range, comparison, value)
        } else {
            Ok(range)
        },
        _ => Ok(range),
    }
}

/// A range, narrowed by a comparison of two operands.
#[tactic(auto, using(crate::proofs::Ranging::narrowed_by_append))]
fn narrow_by_comparison(
    alloc: Global,
    column: FirstColumn,
    range: KeyRange,
    left: &Expr,
    comparison: Comparison,
    right: &Expr,
) -> Result<KeyRange, AllocError>
    requires { column.root < 255 }
    ensures { IfOk result (λ found. found ≡ spec.narrowed_by column.root column.part range
        (spec.bounds_compared column.place left.now comparison right.now)) }
{
    let bound = bound_of(comparison);
    let range = narrow_if(
        alloc,
        column,
        range,
        as_column(left),
        bound,
        as_literal(right),
    )?;
    let bound = bound.map(exchange_sides);
    narrow_if(
        alloc,
        column,
        range,
        as_column(right),
        bound,
        as_literal(left),
    )
}

/// A range, narrowed by a BETWEEN.
#[tactic(auto, using(crate::proofs::Ranging::narrowed_by_append))]
fn narrow_by_between(
    alloc: Global,
    column: FirstColumn,
    range: KeyRange,
    place: Option<usize>,
    low: Option<&Value>,
    high: Option<&Value>,
) -> Result<KeyRange, AllocError>
    requires { column.root < 255 }
    ensures { IfOk result
        (λ found. found ≡ spec.narrowed_by column.root column.part range
        (spec.bounds_between column.place place (option_copied low.entry) (option_copied high.entry))) }
{
    match (place, low, high) {
        (Some(place), Some(low), Some(high)) => if place == column.place {
            let range = narrow(alloc, column, range, RangeComparison::AtLeast, low)?;
            narrow(alloc, column, range, RangeComparison::AtMost, high)
        } else {
            Ok(range)
        },
        _ => Ok(range),
    }
}

/// A range, narrowed by a condition.
#[tactic(auto, using(crate::proofs::Ranging::narrowed_by_append))]
fn narrow_by(
    alloc: Global,
    column: FirstColumn,
    range: KeyRange,
    condition: &Expr,
) -> Result<KeyRange, AllocError>
    requires { column.root < 255 }
    ensures { IfOk result
        (λ found. found ≡ spec.narrowed_by column.root column.part range (spec.bounds column.place condition.now)) }
{
    match condition {
        Expr::Compare(left, comparison, right) => {
            narrow_by_comparison(alloc, column, range, left.get(), *comparison, right.get())
        }
        Expr::Between(operand, low, high) => {
            let place = as_column(operand.get());
            narrow_by_between(
                alloc,
                column,
                range,
                place,
                as_literal(low.get()),
                as_literal(high.get()),
            )
        }
        _ => Ok(range),
    }
}

/// A range, narrowed by conditions.
#[tactic(auto, using(crate::proofs::Ranging::narrowed_by_append))]
fn narrow_by_all(
    alloc: Global,
    column: FirstColumn,
    range: KeyRange,
    conditions: &[&Expr],
) -> Result<KeyRange, AllocError>
    requires { column.root < 255 }
    ensures { IfOk result
        (λ found. found ≡ spec.narrowed_by column.root column.part range
        (flat_map (spec.bounds column.place) (map (λ e. e.now) conditions.now))) }
{
    let mut range = range;
    for condition in conditions {
        range = narrow_by(alloc, column, range, *condition)?;
    }
    Ok(range)
}

/// The range of a leaf by its first table, whose columns begin at a place, and the conditions by which rows may be left out. The error is
/// out of memory.
#[tactic(auto, using(span_schema::proofs::Judged::few_tables))]
pub(crate) fn leaf_range(
    alloc: Global,
    schema: &Schema,
    table: usize,
    at: usize,
    conditions: &[&Expr],
) -> Result<KeyRange, AllocError>
    requires { IsTable schema.now table }
    ensures { IfOk result (λ range. range ≡ spec.leaf_range schema.now table at (map (λ e. e.now) conditions.now)) }
{
    schema.meets_rules();
    let root = schema.root_of(table) as u8;
    let family = family_range(alloc, root)?;
    let parts = schema.key_columns(table);
    let places = schema.key_places(table);
    if parts.is_empty() || places.is_empty() {
        return Ok(family);
    }
    let column = FirstColumn {
        root,
        part: parts[0],
        place: place_after(at, places[0])?,
    };
    narrow_by_all(alloc, column, family, conditions)
}
