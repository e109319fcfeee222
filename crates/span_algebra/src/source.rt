//! The rows of an item of a FROM, and the tables that a query reads. Rows that are there already are lent and not copied.
ghost use Rattle.std.specs.Prelude.{◌≡◌, [], ◌∷◌, ◌++◌, Err, IfOk, IfSome, List, MatchResult, map, Some, None, slice_get, OnOk, OnErr};
ghost use Rattle.std.specs.Option.{option_copied};
ghost use Rattle.span_query.specs.Meaning as spec;
ghost use Rattle.span_query.specs.Groups.{groups};
ghost use Rattle.span_query.specs.Rows.{Row, unless_fault};
ghost use Rattle.span_query.specs.Sorting.{sorted};
ghost use Rattle.span_conditions.specs.Answers.{Gives};
ghost use Rattle.span_rows.specs.Columns.{distinct_at};
ghost use Rattle.span_rows.specs.LentRows.{lent_rows};
ghost use Rattle.span_sorting.specs.Codes.{HaveCodes, coded_rows};
ghost use Rattle.span_sorting.specs.Orders.{take_first};
ghost use Rattle.span_collected.specs.Parts.{all_rows};
ghost use Rattle.span_algebra.specs.Sources.{GivesRows, HasSameValues, IsGivenBy, SortsAs, source_rows, source_result, LendsRows};

use span_collected::part_rows::PartRows;
use span_collected::parts::groups_of;
use span_expr::cell::Failure;
use span_query::query::{Grouping, SortKey};
use span_rows::row_list::{RowList, lend_rows};
use span_sorting::coded::CodedRows;
use span_value::value::Value;
use std::alloc::{AllocError, Global};
use std::marker::Model;

/// Rows, lent or made.
#[derive(Drop)]
pub(crate) enum SourceRows<'a> {
    Lent(&'a RowList),
    Made(RowList),
}

impl SourceRows<'_> {
    /// The rows.
    pub(crate) fn rows(&self) -> &RowList
        ensures { result.now ≡ source_rows self.now }
    {
        match self {
            SourceRows::Lent(rows) => *rows,
            SourceRows::Made(rows) => rows,
        }
    }
}

/// What a table of a query gives: its rows in parts, one after another, or none where reading it was an arithmetic error.
#[derive(Drop)]
enum TableSource<'a> {
    Parts(Vec<&'a PartRows>),
    Fault,
}

/// The tables that a query reads. Contracts see of each its rows or the fault.
#[derive(Drop)]
pub struct Tables<'a> {
    sources: Vec<TableSource<'a>>,
}

impl<'a> Model for Tables<'a> {
    ghost use Rattle.std.specs.Prelude.{List, map};
    ghost use Rattle.span_query.specs.Rows.{Rows};
    ghost use Rattle.span_algebra.specs.Sources.{source_result};

    ghost Value = { List Rows };

    ghost view = { λ a. map source_result a.sources.items };
}

impl<'a> Tables<'a> {
    /// No tables. It takes no memory.
    pub fn new(alloc: Global) -> Tables<'a>
        ensures { result ≡ [] }
    {
        Tables {
            sources: Vec::new(alloc),
        }
    }

    /// Adds a table whose rows are lent in parts. An error leaves the tables as they were.
    pub fn lend(&mut self, parts: Vec<&'a PartRows>) -> Result<(), AllocError>
        ensures ok { OnOk result (self.new ≡ self.old ++ Some (all_rows parts.entry.items) ∷ []) }
        ensures err { OnErr result (self.new ≡ self.old) }
    {
        self.sources.push(TableSource::Parts(parts))?;
        Ok(())
    }

    /// Adds a table that is a fault. An error leaves the tables as they were.
    pub fn add_fault(&mut self) -> Result<(), AllocError>
        ensures ok { OnOk result (self.new ≡ self.old ++ None ∷ []) }
        ensures err { OnErr result (self.new ≡ self.old) }
    {
        self.sources.push(TableSource::Fault)?;
        Ok(())
    }

    /// The rows of the table with this number; the first has number 1. `Fault` where the table is one, or out of memory.
    pub(crate) fn rows(&self, alloc: Global, number: usize) -> Result<SourceRows<'_>, Failure>
        ensures { GivesRows result (spec.given self.now number) }
    {
        match numbered_source(self.sources.as_slice(), number) {
            None => Ok(SourceRows::Made(RowList::new(alloc))),
            Some(TableSource::Fault) => Err(Failure::Fault),
            Some(TableSource::Parts(parts)) => Ok(source_of(alloc, parts.as_slice())?),
        }
    }

    /// The rows of the table with this number, each lent where it lies. `Fault` where the table is one, or out of memory.
    pub(crate) fn lend_rows(&self, alloc: Global, number: usize) -> Result<Vec<&[Value]>, Failure>
        ensures { LendsRows result (spec.given self.now number) }
    {
        match numbered_source(self.sources.as_slice(), number) {
            None => Ok(Vec::new(alloc)),
            Some(TableSource::Fault) => Err(Failure::Fault),
            Some(TableSource::Parts(parts)) => Ok(lend_rows_of(alloc, parts.as_slice())?),
        }
    }

    /// The rows of the table with this number, each lent where it lies, with their codes, for them to be sorted by the keys: those of a
    /// part that is in their order already, in this order. Where a count is given, the first `count` in this order are what is wanted of all, and of a
    /// part in which these were found, they alone are lent. `Fault` where the table is one, or out of memory.
    pub(crate) fn lend_in_order(
        &self,
        alloc: Global,
        number: usize,
        keys: &[SortKey],
        count: Option<usize>,
    ) -> Result<CodedRows<'_>, Failure>
        ensures { MatchResult result
            (λ rows. HaveCodes keys.now rows × SortsAs keys.now count (coded_rows rows) (spec.given self.now number))
            (λ why. Gives {A = List Row} (Err why) (spec.given self.now number)) }
    {
        match numbered_source(self.sources.as_slice(), number) {
            None => Ok(CodedRows::new(alloc)),
            Some(TableSource::Fault) => Err(Failure::Fault),
            Some(TableSource::Parts(parts)) => {
                Ok(lend_parts(alloc, keys, count, parts.as_slice())?)
            }
        }
    }

    /// Rows of the table with this number, each lent where it lies, for the values at the columns to be taken, each once: of a part
    /// in which the rows with the first of these were found, they alone. `Fault` where the table is one, or out of memory.
    pub(crate) fn lend_firsts(
        &self,
        alloc: Global,
        number: usize,
        columns: &[usize],
    ) -> Result<Vec<&[Value]>, Failure>
        ensures { MatchResult result
            (λ rows. HasSameValues columns.now (lent_rows rows.items) (spec.given self.now number))
            (λ why. Gives {A = List Row} (Err why) (spec.given self.now number)) }
    {
        match numbered_source(self.sources.as_slice(), number) {
            None => Ok(Vec::new(alloc)),
            Some(TableSource::Fault) => Err(Failure::Fault),
            Some(TableSource::Parts(parts)) => {
                Ok(lend_firsts_of(alloc, columns, parts.as_slice())?)
            }
        }
    }

    /// The rows of the groups of the table with this number, where it is lent in parts. `Fault` where an aggregate is an arithmetic error, or
    /// out of memory.
    pub(crate) fn groups(
        &self,
        alloc: Global,
        number: usize,
        grouping: &Grouping,
    ) -> Result<Option<RowList>, Failure>
        ensures { MatchResult result
            (λ found. IfSome found
            (λ rows. unless_fault (spec.given self.now number) (groups grouping.now) ≡ Some rows))
            (λ why. Gives {A = List Row} (Err why) (unless_fault (spec.given self.now number) (groups grouping.now))) }
    {
        match numbered_source(self.sources.as_slice(), number) {
            Some(TableSource::Parts(parts)) => {
                Ok(Some(groups_of(alloc, grouping, parts.as_slice())?))
            }
            _ => Ok(None),
        }
    }
}

fn source_at<'a, 'b>(sources: &'a [TableSource<'b>], place: usize) -> Option<&'a TableSource<'b>>
    ensures { option_copied result ≡ slice_get sources.now place }
{
    sources.get(place)
}

/// The table with this number, if there is one; the first has number 1.
fn numbered_source<'a, 'b>(
    sources: &'a [TableSource<'b>],
    number: usize,
) -> Option<&'a TableSource<'b>>
    ensures { IsGivenBy (option_copied result) (spec.given (map source_result sources.now) number) }
{
    if number == 0 {
        return None;
    }
    source_at(sources, number - 1)
}

/// Copies of the rows of parts, one after another.
fn join_parts(alloc: Global, parts: &[&PartRows]) -> Result<RowList, AllocError>
    ensures { IfOk result (λ rows. rows ≡ all_rows parts.now) }
{
    let mut rows = RowList::new(alloc);
    for part in parts {
        add_copies(alloc, &mut rows, rows_of_part(part)?)?;
    }
    Ok(rows)
}

/// The rows of a part. The error is that some are there as groups alone, which a query has of no table but one that it groups.
fn rows_of_part<'a>(part: &'a PartRows) -> Result<&'a RowList, AllocError>
    ensures { IfOk result (λ rows. rows.now ≡ part.now) }
{
    part.rows().ok_or(AllocError)
}

fn add_copies(alloc: Global, rows: &mut RowList, more: &RowList) -> Result<(), AllocError>
    ensures { OnOk result (rows.new ≡ rows.old ++ more.now) }
{
    for at in 0..more.len() {
        rows.push_copy(alloc, more.row(at))?;
    }
    Ok(())
}

/// The rows of parts, one after another, each lent with its codes: those of a part that is in the order of the keys already, in this
/// order. Where a count is given, of a part in which the first `count` in this order were found, they alone.
fn lend_parts<'a>(
    alloc: Global,
    keys: &[SortKey],
    count: Option<usize>,
    parts: &[&'a PartRows],
) -> Result<CodedRows<'a>, AllocError>
    ensures rows { IfOk result
        (λ rows. take_first count (sorted keys.now (coded_rows rows))
        ≡ take_first count (sorted keys.now (all_rows parts.now))) }
    ensures coded { IfOk result (HaveCodes keys.now) }
{
    let mut rows = CodedRows::new(alloc);
    for part in parts {
        part.lend_in_order(keys, count, &mut rows)?;
    }
    Ok(rows)
}

/// Rows of parts, one after another, each lent: of a part in which the rows with the first values at the columns were found, they alone.
fn lend_firsts_of<'a>(
    alloc: Global,
    columns: &[usize],
    parts: &[&'a PartRows],
) -> Result<Vec<&'a [Value]>, AllocError>
    ensures { IfOk result
        (λ rows. distinct_at columns.now (lent_rows rows.items) ≡ distinct_at columns.now (all_rows parts.now)) }
{
    let mut rows = Vec::new(alloc);
    for part in parts {
        part.lend_firsts(columns, &mut rows)?;
    }
    Ok(rows)
}

/// The rows of parts, one after another. Those of the only part are lent.
fn source_of<'a>(alloc: Global, parts: &[&'a PartRows]) -> Result<SourceRows<'a>, AllocError>
    ensures { IfOk result (λ source. source_rows source ≡ all_rows parts.now) }
{
    match parts {
        [part] => Ok(SourceRows::Lent(rows_of_part(*part)?)),
        _ => Ok(SourceRows::Made(join_parts(alloc, parts)?)),
    }
}

/// The rows of parts, one after another, each lent.
fn lend_rows_of<'a>(alloc: Global, parts: &[&'a PartRows]) -> Result<Vec<&'a [Value]>, AllocError>
    ensures { IfOk result (λ rows. lent_rows rows.items ≡ all_rows parts.now) }
{
    let mut rows = Vec::new(alloc);
    for part in parts {
        lend_rows(rows_of_part(*part)?, &mut rows)?;
    }
    Ok(rows)
}
