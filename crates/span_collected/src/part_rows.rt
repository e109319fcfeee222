//! Rows as a query has them: as groups, in a list with their order, or in one with the first of them by some columns. All this is made where the
//! rows are read, so that several threads can make those of their parts.
ghost use Rattle.std.specs.Prelude.{◌≡◌, ◌++◌, ◌+◌, IfOk, IfSome, List, OnOk, length};
ghost use Rattle.std.specs.Option.{option_copied};
ghost use Rattle.span_query.specs.Rows.{Row};
ghost use Rattle.span_query.specs.Sorting.{sorted};
ghost use Rattle.span_rows.specs.Columns.{distinct_at};
ghost use Rattle.span_rows.specs.LentRows.{lent_rows};
ghost use Rattle.span_sorting.specs.Codes.{HaveCodes, coded_rows};
ghost use Rattle.span_sorting.specs.Orders.{take_first};
ghost use Rattle.span_collected.specs.FirstRows.{AreFirstsAt, AreFirstsOf};
ghost use Rattle.span_collected.specs.KeptGroups.{grouped_rows};

use super::collected::CollectedRows;
use super::firsts::{FirstPlaces, lend_firsts};
use super::grouped::GroupedRows;
use span_query::query::SortKey;
use span_rows::row_list::{RowList, lend_rows};
use span_sorting::coded::CodedRows;
use span_sorting::rows_with_order::RowsWithOrder;
use span_value::owned::{give_after, keep_with};
use span_value::value::Value;
use std::alloc::{AllocError, Global};
use std::marker::Model;

/// Rows, of which the first may be there as groups alone; of the others their order, or the first by some columns, where these were made.
/// Contracts see the rows.
#[derive(Debug, Drop)]
pub struct PartRows {
    groups: Option<GroupedRows>,
    rows: RowsWithOrder,
    firsts: Option<FirstPlaces>,
}

impl Model for PartRows {
    ghost use Rattle.std.specs.Prelude.{◌++◌, IfSome, List};
    ghost use Rattle.span_query.specs.Rows.{Row};
    ghost use Rattle.span_collected.specs.FirstRows.{AreFirstsOf};
    ghost use Rattle.span_collected.specs.KeptGroups.{grouped_rows};

    ghost Value = { List Row };

    ghost view = { λ a. grouped_rows a.groups ++ a.rows };

    ghost invariant = { λ a. IfSome a.firsts (AreFirstsOf a.rows) };
}

/// The places at which the values of the columns appear first, where they were found.
fn first_places<'a>(firsts: &'a Option<FirstPlaces>, columns: &[usize]) -> Option<&'a [usize]>
    ensures { (rows : List Row)
        → IfSome firsts.now (AreFirstsOf rows)
        → IfSome result (λ places. AreFirstsAt columns.now rows places.now) }
{
    match firsts {
        Some(firsts) => firsts.places_for(columns),
        None => None,
    }
}

/// The most rows that are put in an order: of more the order alone is made. To copy rows in an order waits for memory where they are more than
/// the processor's caches hold, and those who read them once copy them then.
const MOST_MOVED: usize = 65_536;

/// Rows of a list with their order by the keys. The only error is out of memory.
fn order_list(alloc: Global, keys: &[SortKey], rows: RowList) -> Result<RowsWithOrder, AllocError>
    ensures { IfOk result (λ ordered. sorted keys.now ordered ≡ sorted keys.now rows) }
{
    if rows.len() > MOST_MOVED {
        return RowsWithOrder::with_order(alloc, keys, rows);
    }
    let ordered = RowsWithOrder::in_order(alloc, keys, rows)?;
    Ok(ordered)
}

impl PartRows {
    /// Rows without their order.
    pub fn new(rows: CollectedRows) -> PartRows
        ensures { result ≡ rows }
    {
        let (groups, rows) = rows.into_parts();
        PartRows {
            groups,
            rows: RowsWithOrder::new(rows),
            firsts: None,
        }
    }

    /// Rows of which those in a list have their order by the keys; where they are few they are put in this order. The only error is out of
    /// memory.
    pub fn in_order(
        alloc: Global,
        keys: &[SortKey],
        rows: CollectedRows,
    ) -> Result<PartRows, AllocError>
        ensures { IfOk result (λ ordered. sorted keys.now ordered ≡ sorted keys.now rows) }
    {
        let (groups, listed) = rows.into_parts();
        let ordered = order_list(alloc, keys, listed);
        let (groups, rows) = keep_with(groups, ordered)?;
        Ok(PartRows {
            groups,
            rows,
            firsts: None,
        })
    }

    /// Rows with the first by some columns of those in a list. The only error is out of memory.
    pub fn with_firsts(
        alloc: Global,
        columns: &[usize],
        rows: CollectedRows,
    ) -> Result<PartRows, AllocError>
        ensures { IfOk result (λ made. made ≡ rows) }
    {
        let (groups, rows) = rows.into_parts();
        let firsts = FirstPlaces::find(alloc, columns, &rows)?;
        Ok(PartRows {
            groups,
            rows: RowsWithOrder::new(rows),
            firsts: Some(firsts),
        })
    }

    /// The rows. None where some are there as groups alone.
    pub fn rows(&self) -> Option<&RowList>
        ensures { IfSome result (λ rows. rows.now ≡ self.now) }
    {
        match &self.groups {
            Some(_) => None,
            None => Some(self.rows.rows()),
        }
    }

    /// The rows, with their order where it was made. None where some are there as groups alone.
    pub fn list_with_order(&self) -> Option<&RowsWithOrder>
        ensures { IfSome result (λ rows. rows.now ≡ self.now) }
    {
        match &self.groups {
            Some(_) => None,
            None => Some(&self.rows),
        }
    }

    /// The rows, moved to where they are wanted. None where some are there as groups alone.
    pub fn into_list(self) -> Option<RowList>
        ensures { IfSome result (λ rows. rows ≡ self) }
    {
        let PartRows {
            groups,
            rows,
            firsts,
        } = self;
        let listed = give_after(firsts, rows.into_list());
        match groups {
            Some(_) => None,
            None => Some(listed),
        }
    }

    /// The rows that are there as groups, where some are, and the list of the others.
    pub(crate) fn parts(&self) -> (Option<&GroupedRows>, &RowList)
        ensures { self.now ≡ grouped_rows (option_copied result.0) ++ result.1.now }
    {
        let groups = match &self.groups {
            Some(groups) => Some(groups),
            None => None,
        };
        (groups, self.rows.rows())
    }

    /// How many groups there are, and rows in the list: what there is to be put together.
    pub fn entry_count(&self) -> usize {
        let listed = self.rows.rows().len();
        match &self.groups {
            Some(groups) => listed.saturating_add(groups.group_count()),
            None => listed,
        }
    }

    /// A number, and the number of the rows. The only error is that it is none of 64 bits.
    pub(crate) fn count_after(&self, count: usize) -> Result<usize, AllocError>
        ensures { IfOk result (λ sum. sum ≡ count + length self.now) }
    {
        let listed = count.checked_add(self.rows.rows().len()).ok_or(AllocError)?;
        match &self.groups {
            Some(groups) => groups.count_after(listed),
            None => Ok(listed),
        }
    }

    /// Lends the rows with their codes after others, in the order of the keys where it was made, so that sorting all has less to do: no
    /// value of these is read. Where a count is given, the first `count` in this order are what is wanted of all, and the others are
    /// not lent where these were found. The error is out of memory, or that some rows are there as groups alone.
    pub fn lend_in_order<'a>(
        &'a self,
        keys: &[SortKey],
        count: Option<usize>,
        all: &mut CodedRows<'a>,
    ) -> Result<(), AllocError>
        requires { HaveCodes keys.now all.old }
        ensures rows { OnOk result
            (take_first count (sorted keys.now (coded_rows all.new))
            ≡ take_first count (sorted keys.now (coded_rows all.old ++ self.now))) }
        ensures coded { OnOk result (HaveCodes keys.now all.new) }
    {
        if let Some(_) = &self.groups {
            return Err(AllocError);
        }
        self.rows.lend_in_order(keys, count, all)
    }

    /// Lends rows after others: those at which the values of the columns appear first where these were found, and else all. The error is
    /// out of memory, or that some rows are there as groups alone.
    pub fn lend_firsts<'a>(
        &'a self,
        columns: &[usize],
        all: &mut Vec<&'a [Value]>,
    ) -> Result<(), AllocError>
        ensures { OnOk result
            (distinct_at columns.now (lent_rows all.new.items)
            ≡ distinct_at columns.now (lent_rows all.old.items ++ self.now)) }
    {
        if let Some(_) = &self.groups {
            return Err(AllocError);
        }
        match first_places(&self.firsts, columns) {
            Some(places) => lend_firsts(columns, self.rows.rows(), places, all),
            None => lend_rows(self.rows.rows(), all),
        }
    }
}
