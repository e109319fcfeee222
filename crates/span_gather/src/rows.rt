//! The rows of a query.
ghost use Rattle.std.specs.Prelude.{◌≡◌, ◌==◌, ◌<◌, length, slice_index_or};

use span_merging::answer_rows::AnswerRows;
use span_value::value::Value;

/// The rows of a query, in order. Only `finish` and `finish_taken` make them.
#[derive(Debug, Drop, PartialEq, Eq)]
pub struct Rows {
    rows: AnswerRows,
}

impl Rows {
    pub(crate) fn new(rows: AnswerRows) -> Rows
        ensures { result.rows ≡ rows }
    {
        Rows { rows }
    }

    /// The number of rows.
    pub fn len(&self) -> usize
        ensures { result ≡ length self.now.rows }
    {
        self.rows.len()
    }

    /// Whether there are no rows.
    pub fn is_empty(&self) -> bool
        ensures { result ≡ (length self.now.rows == 0) }
    {
        self.rows.is_empty()
    }

    /// The row at a place.
    pub fn row(&self, at: usize) -> &[Value]
        requires { at < length self.now.rows }
        ensures { result.now ≡ slice_index_or self.now.rows at result.now }
    {
        self.rows.row(at)
    }

    /// The rows, where they are.
    pub fn as_rows(&self) -> &AnswerRows
        ensures { result.now ≡ self.now.rows }
    {
        &self.rows
    }
}
