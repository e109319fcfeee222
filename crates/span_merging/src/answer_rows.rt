//! The rows that a query is answered by: in a list, or where they lie in several.
ghost use Rattle.std.specs.Prelude.{◌≡◌, ◌==◌, ◌<◌, length, slice_index_or};
ghost use Rattle.std.specs.Cmp.Lexicographic.{pointwise};
ghost use Rattle.std.specs.List.{AllByRecursion};
ghost use Rattle.span_query.specs.Groups.{are_equal};
ghost use Rattle.span_merging.specs.PartPlaces.{IsPlaceIn, rows_in};

use super::parts::PartPlace;
use span_rows::key::LentRow;
use span_rows::row_list::RowList;
use span_value::value::Value;
use std::marker::Model;

/// Rows of several lists in an order of their own, each where it lies. Contracts see the rows in this order.
#[derive(Debug, Drop)]
struct PlacedRows {
    parts: Vec<RowList>,
    places: Vec<PartPlace>,
}

impl Model for PlacedRows {
    ghost use Rattle.std.specs.Prelude.{List};
    ghost use Rattle.std.specs.List.{AllByRecursion};
    ghost use Rattle.span_query.specs.Rows.{Row};
    ghost use Rattle.span_merging.specs.PartPlaces.{IsPlaceIn, rows_in};

    ghost Value = { List Row };

    ghost view = { λ a. rows_in a.parts.items a.places.items };

    ghost invariant = { λ a. AllByRecursion (IsPlaceIn a.parts.items) a.places.items };
}

impl PlacedRows {
    fn len(&self) -> usize
        ensures { result ≡ length self.now }
    {
        self.places.len()
    }

    fn row(&self, at: usize) -> &[Value]
        requires { at < length self.now }
        ensures { result.now ≡ slice_index_or self.now at result.now }
    {
        let found = self.places[at];
        self.parts[found.part].row(found.place)
    }
}

/// Where the rows are.
#[derive(Debug, Drop)]
enum RowSource {
    List(RowList),
    Placed(PlacedRows),
}

/// Rows. Contracts see them as a list.
#[derive(Debug, Drop)]
pub struct AnswerRows {
    source: RowSource,
}

impl Model for AnswerRows {
    ghost use Rattle.std.specs.Prelude.{List};
    ghost use Rattle.span_query.specs.Rows.{Row};
    ghost use Rattle.span_merging.specs.RowSources.{source_rows};

    ghost Value = { List Row };

    ghost view = { λ a. source_rows a.source };
}

impl AnswerRows {
    /// The rows of a list.
    pub fn of_list(rows: RowList) -> AnswerRows
        ensures { result ≡ rows }
    {
        AnswerRows {
            source: RowSource::List(rows),
        }
    }

    /// The rows at some places of lists, in the order of these places.
    pub fn of_parts(parts: Vec<RowList>, places: Vec<PartPlace>) -> AnswerRows
        requires { AllByRecursion (IsPlaceIn parts.items) places.items }
        ensures { result ≡ rows_in parts.items places.items }
    {
        AnswerRows {
            source: RowSource::Placed(PlacedRows { parts, places }),
        }
    }

    /// The number of rows.
    pub fn len(&self) -> usize
        ensures { result ≡ length self.now }
    {
        match &self.source {
            RowSource::List(rows) => rows.len(),
            RowSource::Placed(rows) => rows.len(),
        }
    }

    /// Whether there are no rows.
    pub fn is_empty(&self) -> bool
        ensures { result ≡ (length self.now == 0) }
    {
        self.len() == 0
    }

    /// The row at a place.
    pub fn row(&self, at: usize) -> &[Value]
        requires { at < length self.now }
        ensures { result.now ≡ slice_index_or self.now at result.now }
    {
        match &self.source {
            RowSource::List(rows) => rows.row(at),
            RowSource::Placed(rows) => rows.row(at),
        }
    }
}

/// Whether there are as many rows as others, each equal to the one at its place; NULL equals NULL.
fn have_equal_rows(rows: &AnswerRows, others: &AnswerRows) -> bool
    ensures { result ≡ pointwise are_equal rows.now others.now }
{
    if rows.len() != others.len() {
        return false;
    }
    for at in 0..rows.len() {
        if LentRow::new(rows.row(at)) != LentRow::new(others.row(at)) {
            return false;
        }
    }
    true
}

/// They are equal where the rows are, wherever these lie.
impl PartialEq for AnswerRows {
    ghost use Rattle.std.specs.Cmp.{partial_equiv_from_equiv};
    ghost use Rattle.std.specs.Cmp.Lexicographic.{pointwise, lists_per};
    ghost use Rattle.span_query.specs.Groups.{are_equal};
    ghost use Rattle.span_rows.specs.EqualRows.{rows_are_equivalent};

    ghost eq = { pointwise are_equal };

    ghost laws = { lists_per (partial_equiv_from_equiv rows_are_equivalent) };

    fn eq(&self, other: &AnswerRows) -> bool {
        have_equal_rows(self, other)
    }
}

impl Eq for AnswerRows {
    ghost use Rattle.std.specs.Cmp.Lexicographic.{lists_equiv};
    ghost use Rattle.span_rows.specs.EqualRows.{rows_are_equivalent};

    ghost laws = { lists_equiv rows_are_equivalent };
}
