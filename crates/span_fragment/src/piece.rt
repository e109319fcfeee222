//! What a leaf gives on a part of its range.
ghost use Rattle.std.specs.Prelude.{◌≡◌};
ghost use Rattle.std.specs.Option.{option_copied};

use span_collected::part_rows::PartRows;

/// The rows of a leaf in a part of its range, or none where joining or filtering them was an arithmetic error. Where the query above groups them
/// they may be there as groups alone. Only `run_leaf` makes it.
#[derive(Debug, Drop)]
pub struct Piece {
    rows: Option<PartRows>,
}

impl Piece {
    /// A piece with these rows, or none for the fault.
    pub(crate) fn new(rows: Option<PartRows>) -> Piece
        ensures { result.rows ≡ rows }
    {
        Piece { rows }
    }

    /// The rows, moved to where they are wanted, or none where there was an arithmetic error.
    pub fn into_rows(self) -> Option<PartRows>
        ensures { result ≡ self.rows }
    {
        let Piece { rows } = self;
        rows
    }

    /// The rows, or none where there was an arithmetic error.
    pub fn rows(&self) -> Option<&PartRows>
        ensures { option_copied result ≡ self.now.rows }
    {
        match &self.rows {
            Some(rows) => Some(rows),
            None => None,
        }
    }
}
