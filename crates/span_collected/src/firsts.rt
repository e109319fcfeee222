//! The rows of a list at which the values of some columns appear first. They are found where the rows are read, so that several threads can
//! find those of their parts, and DISTINCT has less to do.
ghost use Rattle.std.specs.Prelude.{◌≡◌, ◌++◌, IfOk, IfSome, OnOk};
ghost use Rattle.span_rows.specs.Columns.{distinct_at};
ghost use Rattle.span_rows.specs.LentRows.{lent_rows};
ghost use Rattle.span_collected.specs.FirstRows.{AreFirstsAt, AreFirstsOf};

use indexmap::IndexSet;
use span_rows::key::LentKey;
use span_rows::row_list::{RowList, lend_places};
use span_sorting::kept::keep_places;
use span_value::value::Value;
use std::alloc::{AllocError, Global};

/// The places of the rows of a list at which the values of some columns appear first.
#[derive(Debug, Drop)]
pub(crate) struct FirstPlaces {
    columns: Vec<usize>,
    places: Vec<usize>,
}

/// The places at which the values of the columns appear first.
fn places_of_firsts(
    alloc: Global,
    columns: &[usize],
    rows: &RowList,
) -> Result<Vec<usize>, AllocError>
    ensures { IfOk result (λ places. AreFirstsAt columns.now rows.now places.items) }
{
    let mut places = Vec::new(alloc);
    let mut seen = IndexSet::new(alloc);
    for at in 0..rows.len() {
        if seen.insert(LentKey::new(rows.row(at), columns))? {
            places.push(at)?;
        }
    }
    Ok(places)
}

impl FirstPlaces {
    /// The places of these rows at which the values of the columns appear first. The only error is out of memory.
    pub(crate) fn find(
        alloc: Global,
        columns: &[usize],
        rows: &RowList,
    ) -> Result<FirstPlaces, AllocError>
        ensures { IfOk result (λ firsts. AreFirstsOf rows.now firsts) }
    {
        let places = places_of_firsts(alloc, columns, rows)?;
        Ok(FirstPlaces {
            columns: columns.to_vec(alloc)?,
            places,
        })
    }

    /// The places, where they were found for these columns.
    pub(crate) fn places_for(&self, columns: &[usize]) -> Option<&[usize]>
        ensures { IfSome result
            (λ places. (self.now.columns.items ≡ columns.now) × (places.now ≡ self.now.places.items)) }
    {
        if self.columns.as_slice() == columns {
            Some(self.places.as_slice())
        } else {
            None
        }
    }
}

/// Lends the rows at which the values of the columns appear first, after others.
pub(crate) fn lend_firsts<'a>(
    columns: &[usize],
    rows: &'a RowList,
    places: &[usize],
    all: &mut Vec<&'a [Value]>,
) -> Result<(), AllocError>
    requires { AreFirstsAt columns.now rows.now places.now }
    ensures { OnOk result
        (distinct_at columns.now (lent_rows all.new.items)
        ≡ distinct_at columns.now (lent_rows all.old.items ++ rows.now)) }
{
    lend_places(rows, places, all)?;
    Ok(())
}

/// Keeps of some rows those at which the values of the columns appear first. The only error is out of memory, which may leave no rows.
pub(crate) fn keep_firsts(
    alloc: Global,
    columns: &[usize],
    rows: &mut RowList,
) -> Result<(), AllocError>
    ensures { OnOk result (distinct_at columns.now rows.new ≡ distinct_at columns.now rows.old) }
{
    let places = places_of_firsts(alloc, columns, rows)?;
    keep_places(alloc, rows, places.as_slice())
}
