//! A row that mutations made.
ghost use Rattle.std.specs.Prelude.{◌≡◌};

use span_value::seq::Seq;
use std::marker::Model;

/// A packed row that mutations made, and a number of the caller's beside it (`MadeRows::insert`). Contracts see the row.
#[derive(Drop)]
pub struct MadeRow {
    pub(crate) row: Seq<u8>,
    pub(crate) near: u32,
}

impl Model for MadeRow {
    ghost use Rattle.std.specs.Prelude.{List, ℕ};

    ghost Value = { List ℕ };

    ghost view = { λ m. m.row };
}

impl MadeRow {
    /// The row, packed.
    pub fn row(&self) -> &Seq<u8>
        ensures { result.now ≡ self.now }
    {
        &self.row
    }
}
