//! Rows in one buffer: no row has an allocation of its own.
ghost use Rattle.std.specs.Prelude.{◌≡◌, ◌==◌, ◌<◌, ◌≤◌, ◌+◌, ◌-◌, ◌++◌, ◌∷◌, [], IfOk, OnOk, OnErr, drop, length, map, replicate, slice_index_or, slice_set, MatchOption, take, vec_len, vec_capacity};
ghost use Rattle.std.specs.Cmp.Lexicographic.{pointwise};
ghost use Rattle.std.specs.List.{All};
ghost use Rattle.span_value.specs.declared.value.Value.TheVariants.{Int, Null, Str};
ghost use Rattle.span_query.specs.Groups.{are_equal};
ghost use Rattle.span_rows.specs.Cuts.{AreEnds, cut_at, shift, start_at};
ghost use Rattle.span_rows.specs.LastRows.{IsPutInLast, IsPlaceInLast, IsNoPlaceInLast};
ghost use Rattle.span_rows.specs.LentRows.{lent_rows};
ghost use Rattle.span_rows.specs.Masks.{values_where};
ghost use Rattle.span_rows.specs.RowPlaces.{rows_at};

use super::distinct::are_equal;
use super::masked::{add_rows_where, push_copies_where};
use super::row::extend_row;
use span_value::value::{Row, Value};
use std::alloc::{AllocError, Global};
use std::marker::Model;
use std::mem;

/// Rows. Contracts see them as a list.
#[derive(Debug, Drop)]
pub struct RowList {
    /// The values of all rows, row by row.
    values: Vec<Value>,
    /// For each row the place after its last value.
    ends: Vec<usize>,
}

impl Model for RowList {
    ghost use Rattle.std.specs.Prelude.{List, length};
    ghost use Rattle.span_query.specs.Rows.{Row};
    ghost use Rattle.span_rows.specs.Cuts.{cut_at, AreEnds};

    ghost Value = { List Row };

    ghost view = { λ a. cut_at 0 a.ends.items a.values.items };

    ghost invariant = { λ a. AreEnds 0 a.ends.items (length a.values.items) };
}

impl RowList {
    /// No rows. It takes no memory.
    pub fn new(alloc: Global) -> RowList
        ensures { result ≡ [] }
    {
        RowList {
            values: Vec::new(alloc),
            ends: Vec::new(alloc),
        }
    }

    /// No rows, with reserved capacity for a number of rows of a number of values each. The only error is out of memory.
    pub fn with_capacity(alloc: Global, rows: usize, width: usize) -> Result<RowList, AllocError>
        ensures { IfOk result (λ list. list ≡ []) }
    {
        let count = rows.checked_mul(width).ok_or(AllocError)?;
        Ok(RowList {
            values: Vec::with_capacity(alloc, count)?,
            ends: Vec::with_capacity(alloc, rows)?,
        })
    }

    /// The number of rows.
    #[tactic(auto, using(crate::proofs::Cutting::cut_count))]
    pub fn len(&self) -> usize
        ensures { result ≡ length self.now }
    {
        self.ends.len()
    }

    /// Whether there are no rows.
    #[tactic(auto, using(crate::proofs::Cutting::cut_count))]
    pub fn is_empty(&self) -> bool
        ensures { result ≡ (length self.now == 0) }
    {
        self.ends.is_empty()
    }

    /// The row at a place.
    #[tactic(auto, using(crate::proofs::Cutting::cut_count))]
    pub fn row(&self, at: usize) -> &[Value]
        requires { at < length self.now }
        ensures { result.now ≡ slice_index_or self.now at result.now }
    {
        row_at(self.values.as_slice(), self.ends.as_slice(), at)
    }

    /// Removes all rows. Their memory is used again.
    pub fn clear(&mut self)
        ensures { self.new ≡ [] }
    {
        self.values.clear();
        self.ends.clear();
    }

    /// Adds a row, whose values are moved. An error leaves the rows and the values as they were.
    pub fn push(&mut self, row: &mut Vec<Value>) -> Result<(), AllocError>
        ensures ok { OnOk result (self.new ≡ self.old ++ row.old.items ∷ []) }
        ensures err { OnErr result (self.new ≡ self.old) }
        ensures moved { OnOk result (row.new.items ≡ []) }
        ensures kept { OnErr result (row.new.items ≡ row.old.items) }
    {
        if row.is_empty() {
            return push_none(self.values.as_slice(), &mut self.ends);
        }
        push_values(&mut self.values, &mut self.ends, row)
    }

    /// Adds a row, whose values are moved; NULL is left in the place of each. An error leaves the rows and the values as they were.
    pub fn push_values_of(&mut self, row: &mut Vec<Value>) -> Result<(), AllocError>
        ensures ok { OnOk result (self.new ≡ self.old ++ row.old.items ∷ []) }
        ensures err { OnErr result (self.new ≡ self.old) }
        ensures moved { OnOk result (row.new.items ≡ replicate (length row.old.items) Null) }
        ensures kept { OnErr result (row.new.items ≡ row.old.items) }
    {
        push_taken(&mut self.values, &mut self.ends, row)
    }

    /// Adds a row of NULLs. An error leaves the rows as they were.
    pub fn push_nulls(&mut self, width: usize) -> Result<(), AllocError>
        ensures ok { OnOk result (self.new ≡ self.old ++ replicate width Null ∷ []) }
        ensures err { OnErr result (self.new ≡ self.old) }
    {
        add_nulls(&mut self.values, &mut self.ends, width)
    }

    /// Puts a value at a place of the last row, which has a number of values, if it has the place.
    pub fn put_value(&mut self, width: usize, place: usize, value: Value)
        ensures { IsPutInLast width place value self.old self.new }
    {
        put_value_in_last(&mut self.values, self.ends.as_slice(), width, place, value);
    }

    /// The same of a text, which is copied to where it is to be. The only error is out of memory; it leaves a text of no bytes there.
    pub fn put_text(
        &mut self,
        alloc: Global,
        width: usize,
        place: usize,
        text: &str,
    ) -> Result<(), AllocError>
        ensures { OnOk result (IsPutInLast width place (Str text.now) self.old self.new) }
    {
        put_text_in_last(
            alloc,
            &mut self.values,
            self.ends.as_slice(),
            width,
            place,
            text,
        )
    }

    /// The same of a number. Where NULL is at the place, nothing is dropped.
    pub fn put_number(&mut self, width: usize, place: usize, number: i64)
        ensures { IsPutInLast width place (Int number) self.old self.new }
    {
        put_number_in_last(&mut self.values, self.ends.as_slice(), width, place, number);
    }

    /// Adds a number of rows of no values. An error leaves the rows as they were.
    pub fn push_empty_rows(&mut self, count: usize) -> Result<(), AllocError>
        ensures ok { OnOk result (self.new ≡ self.old ++ replicate count []) }
        ensures err { OnErr result (self.new ≡ self.old) }
    {
        push_empty(self.values.as_slice(), &mut self.ends, count)
    }

    /// Adds a row, whose values are moved. The only error is out of memory; it leaves the rows as they were.
    pub fn push_row(&mut self, row: Row) -> Result<(), AllocError>
        ensures { OnOk result (self.new ≡ self.old ++ row ∷ []) }
    {
        let mut values = row.into_vec();
        self.push(&mut values)
    }

    /// Adds a copy of a row. An error leaves the rows as they were.
    pub fn push_copy(&mut self, alloc: Global, row: &[Value]) -> Result<(), AllocError>
        ensures ok { OnOk result (self.new ≡ self.old ++ row.now ∷ []) }
        ensures err { OnErr result (self.new ≡ self.old) }
    {
        self.push_pair(alloc, row, &[])
    }

    /// Adds a row whose values are copies of those of two rows. An error leaves the rows as they were.
    pub fn push_pair(
        &mut self,
        alloc: Global,
        left: &[Value],
        right: &[Value],
    ) -> Result<(), AllocError>
        ensures ok { OnOk result (self.new ≡ self.old ++ (left.now ++ right.now) ∷ []) }
        ensures err { OnErr result (self.new ≡ self.old) }
    {
        push_copies(alloc, &mut self.values, &mut self.ends, left, right)
    }

    /// Adds rows. An error leaves the rows as they were.
    pub fn append(&mut self, more: RowList) -> Result<(), AllocError>
        ensures ok { OnOk result (self.new ≡ self.old ++ more) }
        ensures err { OnErr result (self.new ≡ self.old) }
    {
        let RowList { mut values, ends } = more;
        append_parts(
            &mut self.values,
            &mut self.ends,
            &mut values,
            ends.as_slice(),
        )
    }

    /// Adds a row of those copies of the values of two rows, the one after the other, where a mask is TRUE. An error leaves the rows as they were.
    pub fn push_pair_where(
        &mut self,
        alloc: Global,
        left: &[Value],
        right: &[Value],
        mask: &[bool],
    ) -> Result<(), AllocError>
        ensures ok { OnOk result (self.new ≡ self.old ++ values_where mask.now (left.now ++ right.now) ∷ []) }
        ensures err { OnErr result (self.new ≡ self.old) }
    {
        push_copies_where(alloc, &mut self.values, &mut self.ends, left, right, mask)
    }

    /// Adds rows of the values where a mask is TRUE, which are moved; the other list is left without rows, and its memory is used again. The only error is
    /// out of memory.
    pub fn append_where(&mut self, more: &mut RowList, mask: &[bool]) -> Result<(), AllocError>
        ensures rows { OnOk result (self.new ≡ self.old ++ map (values_where mask.now) more.old) }
        ensures none { OnOk result (more.new ≡ []) }
    {
        add_rows_where(
            &mut self.values,
            &mut self.ends,
            &mut more.values,
            more.ends.as_slice(),
            mask,
        )?;
        more.clear();
        Ok(())
    }
}

/// Whether two lists have the same number of rows, each equal to the one at its place; NULL equals NULL.
fn have_equal_rows(rows: &RowList, others: &RowList) -> bool
    ensures { result ≡ pointwise are_equal rows.now others.now }
{
    if rows.len() != others.len() {
        return false;
    }
    for at in 0..rows.len() {
        if !are_equal(rows.row(at), others.row(at)) {
            return false;
        }
    }
    true
}

/// Lists are equal where their rows are, whatever their capacities.
impl PartialEq for RowList {
    ghost use Rattle.std.specs.Cmp.{partial_equiv_from_equiv};
    ghost use Rattle.std.specs.Cmp.Lexicographic.{pointwise, lists_per};
    ghost use Rattle.span_query.specs.Groups.{are_equal};
    ghost use Rattle.span_rows.specs.EqualRows.{rows_are_equivalent};

    ghost eq = { pointwise are_equal };

    ghost laws = { lists_per (partial_equiv_from_equiv rows_are_equivalent) };

    fn eq(&self, other: &RowList) -> bool {
        have_equal_rows(self, other)
    }
}

impl Eq for RowList {
    ghost use Rattle.std.specs.Cmp.Lexicographic.{lists_equiv};
    ghost use Rattle.span_rows.specs.EqualRows.{rows_are_equivalent};

    ghost laws = { lists_equiv rows_are_equivalent };
}

/// The rows of a list, each lent, in their order. The only error is out of memory.
pub fn lent_rows(alloc: Global, rows: &RowList) -> Result<Vec<&[Value]>, AllocError>
    ensures { IfOk result (λ all. lent_rows all.items ≡ rows.now) }
{
    let mut all = Vec::with_capacity(alloc, rows.len())?;
    for at in 0..rows.len() {
        all.push(rows.row(at))?;
    }
    Ok(all)
}

/// Lends the rows of a list after others, in their order.
pub fn lend_rows<'a>(more: &'a RowList, all: &mut Vec<&'a [Value]>) -> Result<(), AllocError>
    ensures { OnOk result (lent_rows all.new.items ≡ lent_rows all.old.items ++ more.now) }
{
    all.reserve(more.len())?;
    for at in 0..more.len() {
        all.push(more.row(at))?;
    }
    Ok(())
}

/// Lends the rows at some places, after others.
pub fn lend_places<'a>(
    rows: &'a RowList,
    places: &[usize],
    all: &mut Vec<&'a [Value]>,
) -> Result<(), AllocError>
    requires { All (λ place. place < length rows.now) places.now }
    ensures { OnOk result (lent_rows all.new.items ≡ lent_rows all.old.items ++ rows_at rows.now places.now) }
{
    all.reserve(places.len())?;
    for place in places {
        all.push(rows.row(*place))?;
    }
    Ok(())
}

/// The place of the first value of a row.
#[tactic(auto, using(crate::proofs::Cutting::start_after))]
fn start_of(ends: &[usize], at: usize) -> usize
    requires { at ≤ length ends.now }
    ensures { result ≡ start_at 0 ends.now at }
{
    if at == 0 { 0 } else { ends[at - 1] }
}

fn part(values: &[Value], start: usize, end: usize) -> &[Value]
    requires start { start ≤ end }
    requires end { end ≤ length values.now }
    ensures { result.now ≡ take (end - start) (drop start values.now) }
{
    &values[start..end]
}

#[tactic(auto, using(crate::proofs::Cutting::start_within, crate::proofs::Cutting::end_within, crate::proofs::Cutting::one_cut))]
fn row_at<'a>(values: &'a [Value], ends: &[usize], at: usize) -> &'a [Value]
    requires within { at < length ends.now }
    requires ends { AreEnds 0 ends.now (length values.now) }
    ensures { result.now ≡ slice_index_or (cut_at 0 ends.now values.now) at result.now }
{
    part(values, start_of(ends, at), ends[at])
}

/// Adds a row of no values: a leaf whose rows are only counted has such rows. An error leaves all as it was.
#[tactic(auto, using(crate::proofs::Cutting::whole_none, crate::proofs::Cutting::rows_none))]
fn push_none(values: &[Value], ends: &mut Vec<usize>) -> Result<(), AllocError>
    requires { AreEnds 0 ends.old.items (length values.now) }
    ensures whole { AreEnds 0 ends.new.items (length values.now) }
    ensures ok { OnOk result (cut_at 0 ends.new.items values.now ≡ cut_at 0 ends.old.items values.now ++ [] ∷ []) }
    ensures err { OnErr result (ends.new.items ≡ ends.old.items) }
{
    ends.push(values.len())?;
    Ok(())
}

/// Adds a number of rows of no values. An error leaves all as it was.
fn push_empty(values: &[Value], ends: &mut Vec<usize>, count: usize) -> Result<(), AllocError>
    requires { AreEnds 0 ends.old.items (length values.now) }
    ensures whole { AreEnds 0 ends.new.items (length values.now) }
    ensures ok { OnOk result
        (cut_at 0 ends.new.items values.now ≡ cut_at 0 ends.old.items values.now ++ replicate count []) }
    ensures err { OnErr result (ends.new.items ≡ ends.old.items) }
{
    let Some(len) = ends.len().checked_add(count) else {
        return Err(AllocError);
    };
    ends.resize(len, values.len())?;
    Ok(())
}

/// Adds a row, whose values are moved. An error leaves all as it was.
#[tactic(auto, using(crate::proofs::Cutting::whole_more, crate::proofs::Cutting::rows_more))]
fn push_values(
    values: &mut Vec<Value>,
    ends: &mut Vec<usize>,
    row: &mut Vec<Value>,
) -> Result<(), AllocError>
    requires { AreEnds 0 ends.old.items (length values.old.items) }
    ensures whole { AreEnds 0 ends.new.items (length values.new.items) }
    ensures ok { OnOk result
        (cut_at 0 ends.new.items values.new.items ≡ cut_at 0 ends.old.items values.old.items ++ row.old.items ∷ []) }
    ensures err { OnErr result (cut_at 0 ends.new.items values.new.items ≡ cut_at 0 ends.old.items values.old.items) }
    ensures moved { OnOk result (row.new.items ≡ []) }
    ensures kept { OnErr result (row.new.items ≡ row.old.items) }
{
    ends.reserve(1)?;
    values.append(row)?;
    ends.push(values.len()).unwrap();
    Ok(())
}

/// Reserves capacity for one end more, where there is none.
pub(crate) fn reserve_end(ends: &mut Vec<usize>) -> Result<(), AllocError>
    ensures items { ends.new.items ≡ ends.old.items }
    ensures ok { OnOk result (vec_len ends.new < vec_capacity ends.new) }
{
    if ends.len() < ends.capacity() {
        return Ok(());
    }
    ends.reserve(1)
}

/// Reserves capacity for a number of values more, where it is missing.
pub(crate) fn reserve_values(values: &mut Vec<Value>, count: usize) -> Result<(), AllocError>
    ensures items { values.new.items ≡ values.old.items }
    ensures ok { OnOk result (vec_len values.new + count ≤ vec_capacity values.new) }
{
    if count <= values.capacity() - values.len() {
        return Ok(());
    }
    values.reserve(count)
}

/// Adds NULLs after some values, for which capacity is reserved.
fn put_nulls(values: &mut Vec<Value>, count: usize)
    requires { vec_len values.old + count ≤ vec_capacity values.old }
    ensures { values.new.items ≡ values.old.items ++ replicate count Null }
{
    for _ in 0..count {
        values.push_reserved(Value::Null);
    }
}

/// Adds a row of NULLs. An error leaves all as it was.
#[tactic(auto, using(crate::proofs::Cutting::whole_more, crate::proofs::Cutting::rows_more))]
fn add_nulls(values: &mut Vec<Value>, ends: &mut Vec<usize>, width: usize) -> Result<(), AllocError>
    requires { AreEnds 0 ends.old.items (length values.old.items) }
    ensures whole { AreEnds 0 ends.new.items (length values.new.items) }
    ensures ok { OnOk result
        (cut_at 0 ends.new.items values.new.items
        ≡ cut_at 0 ends.old.items values.old.items ++ replicate width Null ∷ []) }
    ensures err { OnErr result (cut_at 0 ends.new.items values.new.items ≡ cut_at 0 ends.old.items values.old.items) }
{
    reserve_end(ends)?;
    reserve_values(values, width)?;
    put_nulls(values, width);
    ends.push_reserved(values.len());
    Ok(())
}

/// Where the value at a place of the last row is, which has a number of values. None where the row does not have the place.
fn place_in_last(values: &[Value], width: usize, place: usize) -> Option<usize>
    ensures { MatchOption result
        (IsNoPlaceInLast (length values.now) width place)
        (IsPlaceInLast (length values.now) width place) }
{
    if place >= width {
        return None;
    }
    if width > values.len() {
        return None;
    }
    Some(values.len() - width + place)
}

#[tactic(auto, using(crate::proofs::LastRow::put_in_last, crate::proofs::LastRow::not_put_in_last, crate::proofs::LastRow::same_ends))]
fn put_value_in_last(
    values: &mut Vec<Value>,
    ends: &[usize],
    width: usize,
    place: usize,
    value: Value,
)
    requires { AreEnds 0 ends.now (length values.old.items) }
    ensures whole { AreEnds 0 ends.now (length values.new.items) }
    ensures put { IsPutInLast width place value (cut_at 0 ends.now values.old.items)
        (cut_at 0 ends.now values.new.items) }
{
    if let Some(at) = place_in_last(values.as_slice(), width, place) {
        put_at(values, at, value);
    }
}

#[tactic(auto, using(crate::proofs::LastRow::put_in_last, crate::proofs::LastRow::not_put_in_last, crate::proofs::LastRow::same_ends))]
fn put_number_in_last(
    values: &mut Vec<Value>,
    ends: &[usize],
    width: usize,
    place: usize,
    number: i64,
)
    requires { AreEnds 0 ends.now (length values.old.items) }
    ensures whole { AreEnds 0 ends.now (length values.new.items) }
    ensures put { IsPutInLast width place (Int number) (cut_at 0 ends.now values.old.items)
        (cut_at 0 ends.now values.new.items) }
{
    if let Some(at) = place_in_last(values.as_slice(), width, place) {
        put_number_at(values, at, number);
    }
}

#[tactic(auto, using(crate::proofs::LastRow::put_in_last, crate::proofs::LastRow::not_put_in_last, crate::proofs::LastRow::same_ends))]
fn put_text_in_last(
    alloc: Global,
    values: &mut Vec<Value>,
    ends: &[usize],
    width: usize,
    place: usize,
    text: &str,
) -> Result<(), AllocError>
    requires { AreEnds 0 ends.now (length values.old.items) }
    ensures whole { AreEnds 0 ends.now (length values.new.items) }
    ensures put { OnOk result
        (IsPutInLast width place (Str text.now) (cut_at 0 ends.now values.old.items)
        (cut_at 0 ends.now values.new.items)) }
{
    match place_in_last(values.as_slice(), width, place) {
        Some(at) => put_text_at(alloc, values, at, text),
        None => Ok(()),
    }
}

fn put_text_at(
    alloc: Global,
    values: &mut Vec<Value>,
    at: usize,
    text: &str,
) -> Result<(), AllocError>
    requires { at < length values.old.items }
    ensures items { OnOk result (values.new.items ≡ slice_set values.old.items at (Str text.now)) }
    ensures len { length values.new.items ≡ length values.old.items }
{
    values[at].set_text(alloc, text)
}

fn put_at(values: &mut Vec<Value>, at: usize, value: Value)
    requires { at < length values.old.items }
    ensures items { values.new.items ≡ slice_set values.old.items at value }
    ensures len { length values.new.items ≡ length values.old.items }
{
    values[at] = value;
}

fn put_number_at(values: &mut Vec<Value>, at: usize, number: i64)
    requires { at < length values.old.items }
    ensures items { values.new.items ≡ slice_set values.old.items at (Int number) }
    ensures len { length values.new.items ≡ length values.old.items }
{
    if matches!(&values[at], Value::Null) {
        values[at] = Value::Int(number);
    } else {
        put_over(values, at, number);
    }
}

/// The same where another value is at the place.
#[inline(never)]
fn put_over(values: &mut Vec<Value>, at: usize, number: i64)
    requires { at < length values.old.items }
    ensures items { values.new.items ≡ slice_set values.old.items at (Int number) }
    ensures len { length values.new.items ≡ length values.old.items }
{
    put_at(values, at, Value::Int(number));
}

/// Moves the values of a row after others, and leaves NULL in the place of each.
fn take_values(values: &mut Vec<Value>, row: &mut Vec<Value>)
    requires { vec_len values.old + length row.old.items ≤ vec_capacity values.old }
    ensures values { values.new.items ≡ values.old.items ++ row.old.items }
    ensures row { row.new.items ≡ replicate (length row.old.items) Null }
{
    for at in 0..row.len() {
        values.push_reserved(mem::replace(&mut row[at], Value::Null));
    }
}

/// Adds a row, whose values are moved; NULL is left in the place of each. An error leaves all as it was.
#[tactic(auto, using(crate::proofs::Cutting::whole_more, crate::proofs::Cutting::rows_more))]
fn push_taken(
    values: &mut Vec<Value>,
    ends: &mut Vec<usize>,
    row: &mut Vec<Value>,
) -> Result<(), AllocError>
    requires { AreEnds 0 ends.old.items (length values.old.items) }
    ensures whole { AreEnds 0 ends.new.items (length values.new.items) }
    ensures ok { OnOk result
        (cut_at 0 ends.new.items values.new.items ≡ cut_at 0 ends.old.items values.old.items ++ row.old.items ∷ []) }
    ensures err { OnErr result (cut_at 0 ends.new.items values.new.items ≡ cut_at 0 ends.old.items values.old.items) }
    ensures moved { OnOk result (row.new.items ≡ replicate (length row.old.items) Null) }
    ensures kept { OnErr result (row.new.items ≡ row.old.items) }
{
    reserve_end(ends)?;
    reserve_values(values, row.len())?;
    take_values(values, row);
    ends.push_reserved(values.len());
    Ok(())
}

/// Adds copies of the values of two rows. An error leaves some of them added.
#[tactic(auto, using(crate::proofs::Cutting::kept_before, crate::proofs::Cutting::both_added))]
fn extend_pair(
    alloc: Global,
    values: &mut Vec<Value>,
    left: &[Value],
    right: &[Value],
) -> Result<(), AllocError>
    ensures ok { OnOk result (values.new.items ≡ values.old.items ++ (left.now ++ right.now)) }
    ensures kept { take (length values.old.items) values.new.items ≡ values.old.items }
{
    extend_row(alloc, values, left)?;
    extend_row(alloc, values, right)?;
    Ok(())
}

/// Adds copies of the values of two rows. An error leaves the values as they were.
fn add_pair(
    alloc: Global,
    values: &mut Vec<Value>,
    left: &[Value],
    right: &[Value],
) -> Result<(), AllocError>
    ensures ok { OnOk result (values.new.items ≡ values.old.items ++ (left.now ++ right.now)) }
    ensures err { OnErr result (values.new.items ≡ values.old.items) }
{
    let kept = values.len();
    match extend_pair(alloc, values, left, right) {
        Ok(()) => Ok(()),
        Err(why) => {
            values.truncate(kept);
            Err(why)
        }
    }
}

/// Adds a row that is a copy of two. An error leaves the rows as they were.
#[tactic(auto, using(crate::proofs::Cutting::whole_more, crate::proofs::Cutting::rows_more))]
fn push_copies(
    alloc: Global,
    values: &mut Vec<Value>,
    ends: &mut Vec<usize>,
    left: &[Value],
    right: &[Value],
) -> Result<(), AllocError>
    requires { AreEnds 0 ends.old.items (length values.old.items) }
    ensures whole { AreEnds 0 ends.new.items (length values.new.items) }
    ensures ok { OnOk result
        (cut_at 0 ends.new.items values.new.items
        ≡ cut_at 0 ends.old.items values.old.items ++ (left.now ++ right.now) ∷ []) }
    ensures err { OnErr result (cut_at 0 ends.new.items values.new.items ≡ cut_at 0 ends.old.items values.old.items) }
{
    ends.reserve(1)?;
    add_pair(alloc, values, left, right)?;
    ends.push(values.len()).unwrap();
    Ok(())
}

/// Adds ends after a number of values more. An error leaves some of them added.
fn add_ends(ends: &mut Vec<usize>, offset: usize, more: &[usize]) -> Result<(), AllocError>
    ensures ok { OnOk result (ends.new.items ≡ ends.old.items ++ shift offset more.now) }
    ensures kept { take (length ends.old.items) ends.new.items ≡ ends.old.items }
{
    for end in more {
        ends.push(offset.checked_add(*end).ok_or(AllocError)?)?;
    }
    Ok(())
}

/// Adds ends after a number of values more. An error leaves the ends as they were.
fn append_ends(ends: &mut Vec<usize>, offset: usize, more: &[usize]) -> Result<(), AllocError>
    ensures ok { OnOk result (ends.new.items ≡ ends.old.items ++ shift offset more.now) }
    ensures err { OnErr result (ends.new.items ≡ ends.old.items) }
{
    let kept = ends.len();
    match add_ends(ends, offset, more) {
        Ok(()) => Ok(()),
        Err(why) => {
            ends.truncate(kept);
            Err(why)
        }
    }
}

/// Adds rows, whose values are moved. An error leaves the rows as they were.
#[tactic(auto, using(crate::proofs::Cutting::whole_joined, crate::proofs::Cutting::cut_joined))]
fn append_parts(
    values: &mut Vec<Value>,
    ends: &mut Vec<usize>,
    more: &mut Vec<Value>,
    more_ends: &[usize],
) -> Result<(), AllocError>
    requires ends { AreEnds 0 ends.old.items (length values.old.items) }
    requires more { AreEnds 0 more_ends.now (length more.old.items) }
    ensures whole { AreEnds 0 ends.new.items (length values.new.items) }
    ensures ok { OnOk result
        (cut_at 0 ends.new.items values.new.items
        ≡ cut_at 0 ends.old.items values.old.items ++ cut_at 0 more_ends.now more.old.items) }
    ensures err { OnErr result (cut_at 0 ends.new.items values.new.items ≡ cut_at 0 ends.old.items values.old.items) }
{
    values.reserve(more.len())?;
    ends.reserve(more_ends.len())?;
    append_ends(ends, values.len(), more_ends)?;
    values.append(more).unwrap();
    Ok(())
}
