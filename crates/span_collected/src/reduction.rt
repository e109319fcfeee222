//! Rows of a part that a query may have in the place of all: they are kept where the rows are read, so that the others take no memory.
ghost use Rattle.std.specs.Prelude.{◌≡◌, IfSome, List, OnOk};
ghost use Rattle.span_query.specs.Rows.{Row};
ghost use Rattle.span_query.specs.Sorting.{sorted};
ghost use Rattle.span_collected.specs.Reductions.{AreEnough};

use super::firsts::keep_firsts;
use span_query::query::SortKey;
use span_rows::row_list::RowList;
use span_sorting::kept::keep_first;
use std::alloc::{AllocError, Global};

/// Which rows of a part are kept.
#[derive(Debug, Drop)]
pub enum Reduction {
    /// All.
    Everything,
    /// The first in the order of some keys, up to a number of them.
    First(Vec<SortKey>, usize),
    /// All, which a query puts in the order of some keys.
    InOrder(Vec<SortKey>),
    /// Of the rows with the same values at some columns the first.
    Distinct(Vec<usize>),
}

impl Reduction {
    /// Keeps of some rows those that are enough. The only error is out of memory, which may leave no rows.
    pub fn keep(&self, alloc: Global, rows: &mut RowList) -> Result<(), AllocError>
        ensures { OnOk result (AreEnough self.now rows.new rows.old) }
    {
        match self {
            Reduction::Everything => Ok(()),
            Reduction::InOrder(_) => Ok(()),
            Reduction::First(keys, count) => {
                keep_first(alloc, keys.as_slice(), *count, rows)?;
                Ok(())
            }
            Reduction::Distinct(columns) => keep_firsts(alloc, columns.as_slice(), rows),
        }
    }

    /// The keys in whose order a query puts the rows that are kept, where it does: these may be put in this order where they are read.
    pub fn keys(&self) -> Option<&[SortKey]>
        ensures { IfSome result (λ keys. (rows all : List Row)
            → sorted keys.now rows ≡ sorted keys.now all → AreEnough self.now rows all) }
    {
        match self {
            Reduction::Everything => None,
            Reduction::First(keys, _) => Some(keys.as_slice()),
            Reduction::InOrder(keys) => Some(keys.as_slice()),
            Reduction::Distinct(_) => None,
        }
    }
}
