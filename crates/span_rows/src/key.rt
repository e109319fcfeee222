//! Rows as the keys of an index by hash: a whole row, and the values of a lent row at some places. NULL equals NULL.
ghost use Rattle.std.specs.Prelude.{◌≡◌, IfSome, OnOk, fold};
ghost use Rattle.std.specs.Ordering.{is_gt};
ghost use Rattle.span_value.specs.declared.value.Value.TheVariants as value;
ghost use Rattle.span_value.specs.Orders.{value_order};
ghost use Rattle.span_expr.specs.Operators.{column_of};
ghost use Rattle.span_query.specs.Groups.{is_equal, are_equal, columns_at};
ghost use Rattle.span_rows.specs.Hashes.{value_writes, row_writes};
ghost use Rattle.span_rows.specs.RowOrders.{values_order};

use super::columns::put_columns;
use super::distinct::are_equal;
use span_conditions::computed::number_at;
use span_value::order::compare;
use span_value::value::Value;
use std::alloc::{AllocError, Global};
use std::cmp::Ordering;
use std::hash::{Hash, Hasher};
use std::marker::Model;

/// Feeds a value to a hasher.
fn hash_value<H: Hasher>(value: &Value, state: &mut H)
    ensures { state.new ≡ fold H.write state.old (value_writes value.now) }
{
    match value {
        Value::Null => state.write_u8(0),
        Value::Int(n) => state.write_i64(*n),
        Value::Str(text) => text.as_str().hash(state),
        Value::Bytes(bytes) => state.write(bytes.as_slice()),
        Value::Bool(b) => b.hash(state),
    }
}

/// Feeds the values of a row to a hasher.
fn hash_row<H: Hasher>(row: &[Value], state: &mut H)
    ensures { state.new ≡ fold H.write state.old (row_writes row.now) }
{
    for value in row {
        hash_value(value, state);
    }
}

/// Feeds the value of a row at a place to a hasher; a place that the row does not have counts as NULL.
fn hash_column<H: Hasher>(row: &[Value], place: usize, state: &mut H)
    ensures { state.new ≡ fold H.write state.old (value_writes (column_of row.now place)) }
{
    match row.get(place) {
        Some(value) => hash_value(value, state),
        None => hash_value(&Value::Null, state),
    }
}

/// Feeds the values of a row at some places to a hasher.
fn hash_columns<H: Hasher>(row: &[Value], places: &[usize], state: &mut H)
    ensures { state.new ≡ fold H.write state.old (row_writes (columns_at places.now row.now)) }
{
    for place in places {
        hash_column(row, *place, state);
    }
}

/// The order of the value at a place of a row and that at a place of another; a place that a row does not have counts as NULL.
#[inline(never)]
fn compare_any_at(
    left: &[Value],
    left_place: usize,
    right: &[Value],
    right_place: usize,
) -> Ordering
    ensures { result ≡ value_order (column_of left.now left_place) (column_of right.now right_place) }
{
    let null = Value::Null;
    compare(
        left.get(left_place).unwrap_or(&null),
        right.get(right_place).unwrap_or(&null),
    )
}

/// The same. Numbers are compared where they lie.
#[inline(always)]
fn compare_at(left: &[Value], left_place: usize, right: &[Value], right_place: usize) -> Ordering
    ensures { result ≡ value_order (column_of left.now left_place) (column_of right.now right_place) }
{
    match (number_at(left, left_place), number_at(right, right_place)) {
        (Some(a), Some(b)) => a.cmp(&b),
        _ => compare_any_at(left, left_place, right, right_place),
    }
}

/// Whether the value at a place of a row equals that at a place of another; a place that a row does not have counts as NULL.
#[inline(always)]
fn is_equal_at(left: &[Value], left_place: usize, right: &[Value], right_place: usize) -> bool
    ensures { result ≡ is_equal (column_of left.now left_place) (column_of right.now right_place) }
{
    compare_at(left, left_place, right, right_place).is_eq()
}

/// Whether two rows have equal values at some places of each.
fn have_equal_columns(
    left: &[Value],
    left_places: &[usize],
    right: &[Value],
    right_places: &[usize],
) -> bool
    ensures { result ≡ are_equal (columns_at left_places.now left.now) (columns_at right_places.now right.now) }
{
    if left_places.len() != right_places.len() {
        return false;
    }
    for at in 0..left_places.len() {
        if !is_equal_at(left, left_places[at], right, right_places[at]) {
            return false;
        }
    }
    true
}

/// The order of two rows by their values at some places of each.
pub fn compare_columns(
    left: &[Value],
    left_places: &[usize],
    right: &[Value],
    right_places: &[usize],
) -> Ordering
    ensures { result ≡ values_order (columns_at left_places.now left.now) (columns_at right_places.now right.now) }
{
    let count = left_places.len();
    for at in 0..count {
        if at >= right_places.len() {
            return Ordering::Greater;
        }
        let order = compare_at(left, left_places[at], right, right_places[at]);
        if order != Ordering::Equal {
            return order;
        }
    }
    if count < right_places.len() {
        Ordering::Less
    } else {
        Ordering::Equal
    }
}

/// A lent row in a set of rows. Contracts see the row.
#[derive(Drop)]
pub struct LentRow<'a> {
    values: &'a [Value],
}

impl<'a> Model for LentRow<'a> {
    ghost use Rattle.span_query.specs.Rows.{Row};

    ghost Value = { Row };

    ghost view = { λ k. k.values.now };
}

impl<'a> LentRow<'a> {
    /// The row as a key: keys are equal where the rows are. Nothing is copied.
    pub fn new(values: &'a [Value]) -> LentRow<'a>
        ensures { result ≡ values.now }
    {
        LentRow { values }
    }

    /// The row.
    pub fn row(&self) -> &'a [Value]
        ensures { result.now ≡ self.now }
    {
        self.values
    }
}

impl<'a> PartialEq for LentRow<'a> {
    ghost use Rattle.std.specs.Cmp.{partial_equiv_from_equiv};
    ghost use Rattle.span_query.specs.Groups.{are_equal};
    ghost use Rattle.span_rows.specs.EqualRows.{rows_are_equivalent};

    ghost eq = { are_equal };

    ghost laws = { partial_equiv_from_equiv rows_are_equivalent };

    fn eq(&self, other: &LentRow<'a>) -> bool {
        are_equal(self.values, other.values)
    }
}

impl<'a> Eq for LentRow<'a> {
    ghost use Rattle.span_rows.specs.EqualRows.{rows_are_equivalent};

    ghost laws = { rows_are_equivalent };
}

impl<'a> Hash for LentRow<'a> {
    ghost use Rattle.span_rows.specs.Hashes.{row_writes};
    ghost use Rattle.span_rows.specs.EqualRows.{equal_rows_hash_alike};

    ghost hash_input = { row_writes };

    ghost respects_eq = { equal_rows_hash_alike };

    fn hash<H: Hasher>(&self, state: &mut H) {
        hash_row(self.values, state);
    }
}

/// The values of a lent row at some places, which are lent too. Contracts see these values, with NULL at a place that the row does
/// not have.
#[derive(Drop)]
pub struct LentKey<'a> {
    row: &'a [Value],
    places: &'a [usize],
}

impl<'a> Model for LentKey<'a> {
    ghost use Rattle.span_query.specs.Rows.{Row};
    ghost use Rattle.span_query.specs.Groups.{columns_at};

    ghost Value = { Row };

    ghost view = { λ k. columns_at k.places.now k.row.now };
}

impl<'a> LentKey<'a> {
    /// The values of a row at these places as a key: keys are equal where these values are, one by one. Nothing is copied.
    pub fn new(row: &'a [Value], places: &'a [usize]) -> LentKey<'a>
        ensures { result ≡ columns_at places.now row.now }
    {
        LentKey { row, places }
    }

    /// Makes a buffer copies of these values.
    pub(crate) fn put_values(
        &self,
        alloc: Global,
        values: &mut Vec<Value>,
    ) -> Result<(), AllocError>
        ensures { OnOk result (values.new.items ≡ self.now) }
    {
        put_columns(alloc, self.places, self.row, values)
    }

    /// Whether these values are those of a row at some places.
    pub fn is_of(&self, row: &[Value], places: &[usize]) -> bool
        ensures { result ≡ are_equal self.now (columns_at places.now row.now) }
    {
        have_equal_columns(self.row, self.places, row, places)
    }

    /// Whether these values come after those of a row at some places.
    pub fn comes_after(&self, row: &[Value], places: &[usize]) -> bool
        ensures { result ≡ is_gt (values_order self.now (columns_at places.now row.now)) }
    {
        compare_columns(self.row, self.places, row, places).is_gt()
    }
}

impl<'a> PartialEq for LentKey<'a> {
    ghost use Rattle.std.specs.Cmp.{partial_equiv_from_equiv};
    ghost use Rattle.span_query.specs.Groups.{are_equal};
    ghost use Rattle.span_rows.specs.EqualRows.{rows_are_equivalent};

    ghost eq = { are_equal };

    ghost laws = { partial_equiv_from_equiv rows_are_equivalent };

    fn eq(&self, other: &LentKey<'a>) -> bool {
        have_equal_columns(self.row, self.places, other.row, other.places)
    }
}

impl<'a> Eq for LentKey<'a> {
    ghost use Rattle.span_rows.specs.EqualRows.{rows_are_equivalent};

    ghost laws = { rows_are_equivalent };
}

impl<'a> Hash for LentKey<'a> {
    ghost use Rattle.span_rows.specs.Hashes.{row_writes};
    ghost use Rattle.span_rows.specs.EqualRows.{equal_rows_hash_alike};

    ghost hash_input = { row_writes };

    ghost respects_eq = { equal_rows_hash_alike };

    fn hash<H: Hasher>(&self, state: &mut H) {
        hash_columns(self.row, self.places, state);
    }
}
