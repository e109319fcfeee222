//! A leaf run on the rows of a part of its range.
ghost use Rattle.std.specs.Prelude.{◌≡◌, ◌⊎◌, ◌∷◌, [], IfOk, IfErr, IfSome, MatchOption, MatchResult};
ghost use Rattle.std.specs.List.{AllByRecursion};
ghost use Rattle.span_schema.specs.Numbers.{IsTable};
ghost use Rattle.span_query.specs.Rows.{Rows};
ghost use Rattle.span_collected.specs.Reductions.{AreEnough, GivesEnough, HasEnough};
ghost use Rattle.span_algebra.specs.BlockMeaning.{GroupsTable};
ghost use Rattle.span_leaves.specs.Maskable.{IsMaskable};
ghost use Rattle.span_entries.specs.Entries.{AreNoRows};
ghost use Rattle.span_tablescan.specs.Given.{IsEnoughOn};
ghost use Rattle.span_fragment.specs.Pieces.{IsPieceOf};

use super::directory::rows_of_leaf;
use super::piece::Piece;
use span_algebra::distinct::{distinct_part, distinct_table};
use span_algebra::plain::grouped_table;
use span_algebra::reduction::reduction_for;
use span_collected::collected::CollectedRows;
use span_collected::part_rows::PartRows;
use span_collected::reduction::Reduction;
use span_columns::leaf::Leaf;
use span_expr::cell::Failure;
use span_query::query::{Block, BoundQuery, Grouping};
use span_schema::schema::Schema;
use span_shard::snapshot::Snapshot;
use span_tablescan::scan::rows_of_table;
use span_value::refusal::Refusal;
use std::alloc::{AllocError, Global};

/// What a block of the query above the leaves does with all rows of a leaf, where parts of it are done where the rows are read.
#[derive(Clone, Copy)]
enum LeafUse<'a> {
    /// A block groups them.
    Group(&'a Grouping),
    /// A block takes each row of its select list at them once.
    Distinct(&'a Block<BoundQuery>),
}

/// The grouping by which a block groups them, where one does.
fn grouping_of(leaf_use: Option<LeafUse<'_>>) -> Option<&Grouping> {
    match leaf_use {
        Some(LeafUse::Group(grouping)) => Some(grouping),
        _ => None,
    }
}

/// Rows, with what is done here of what the query above does with them.
fn rows_for(
    alloc: Global,
    leaf_use: Option<LeafUse<'_>>,
    rows: CollectedRows,
) -> Result<PartRows, AllocError>
    ensures { IfOk result (λ made. made ≡ rows) }
{
    match leaf_use {
        Some(LeafUse::Distinct(block)) => distinct_part(alloc, block, rows),
        _ => Ok(PartRows::new(rows)),
    }
}

/// Of the rows of a part those that are enough: in the order in which the query above puts them, or with what else is done here of what it does
/// with them.
fn part_of(
    alloc: Global,
    leaf_use: Option<LeafUse<'_>>,
    reduction: &Reduction,
    rows: CollectedRows,
) -> Result<PartRows, AllocError>
    ensures { IfOk result (λ made. AreEnough reduction.now made rows) }
{
    let kept = rows.keep_enough(alloc, reduction)?;
    match reduction.keys() {
        Some(keys) => {
            let ordered = PartRows::in_order(alloc, keys, kept)?;
            Ok(ordered)
        }
        None => rows_for(alloc, leaf_use, kept),
    }
}

/// The piece of a leaf that gives these rows, or the fault. The only refusal is out of memory.
fn piece_of(
    alloc: Global,
    leaf_use: Option<LeafUse<'_>>,
    reduction: &Reduction,
    found: Result<CollectedRows, Failure>,
) -> Result<Piece, Refusal>
    ensures { MatchResult result
        (λ piece. (meant : Rows) → GivesEnough reduction.now found meant → HasEnough reduction.now piece.rows meant)
        (λ why. why ≡ Refusal.OutOfMemory) }
{
    match found {
        Ok(rows) => Ok(Piece::new(Some(part_of(alloc, leaf_use, reduction, rows)?))),
        Err(Failure::Fault) => Ok(Piece::new(None)),
        Err(Failure::OutOfMemory) => Err(Refusal::OutOfMemory),
    }
}

/// The number of a leaf's table, where it is of one table.
fn only_table(leaf: &Leaf) -> Option<usize>
    ensures { MatchOption result (Unit {0}) (λ table. (leaf.now.tables ≡ table ∷ []) × (leaf.now.joins ≡ [])) }
{
    match leaf.tables.as_slice() {
        [table] if leaf.joins.as_slice().is_empty() => Some(*table),
        _ => None,
    }
}

/// The rows of a leaf on the rows that a snapshot lends, of the columns alone that leave it, or as many of them as are enough; or the fault.
/// `OutOfMemory`, where these are rows of the schema's tables.
fn give_rows(
    alloc: Global,
    schema: &Schema,
    leaf: &Leaf,
    reduction: &Reduction,
    grouping: Option<&Grouping>,
    snapshot: Snapshot<'_>,
) -> Result<Result<CollectedRows, Failure>, Refusal>
    requires tables { AllByRecursion (IsTable schema.now) leaf.now.tables }
    requires maskable { IsMaskable schema.now leaf.now }
    ensures ok { IfOk result (λ found. IsEnoughOn schema.now leaf.now reduction.now snapshot.entry found) }
    ensures refused { IfErr result (λ why. (why ≡ Refusal.OutOfMemory) ⊎ AreNoRows schema.now snapshot.entry) }
{
    if let Some(table) = only_table(leaf) {
        return rows_of_table(alloc, schema, leaf, table, reduction, grouping, snapshot);
    }
    rows_of_leaf(alloc, schema, leaf, reduction, grouping, snapshot)
}

/// What a leaf gives on the rows of a part of its range, which a snapshot lends, for the query above the leaves: the leaf is the table at this
/// place there, counted from 0. Where that query puts the rows of the leaf in order and LIMIT needs few, or takes the values of columns each
/// once, the rows that are enough for this are kept alone; where it groups all rows of the leaf, or puts them in order, this is done for the
/// part. An arithmetic error is a piece without rows, and no refusal. `OutOfMemory`, where these are rows of the schema's tables.
pub fn run_leaf(
    alloc: Global,
    schema: &Schema,
    leaf: &Leaf,
    top: &BoundQuery,
    place: usize,
    snapshot: Snapshot<'_>,
) -> Result<Piece, Refusal>
    requires tables { AllByRecursion (IsTable schema.now) leaf.now.tables }
    requires maskable { IsMaskable schema.now leaf.now }
    ensures { MatchResult result
        (IsPieceOf schema.now leaf.now top.now place snapshot.entry)
        (λ why. (why ≡ Refusal.OutOfMemory) ⊎ AreNoRows schema.now snapshot.entry) }
{
    let reduction = reduction_for(alloc, top, place)?;
    let leaf_use = leaf_use(top, place);
    let grouping = grouping_of(leaf_use);
    let found = give_rows(alloc, schema, leaf, &reduction, grouping, snapshot)?;
    Ok(piece_of(alloc, leaf_use, &reduction, found)?)
}

/// How a block groups all rows of the table with this number, if it does; the first table has number 1.
fn block_grouping(block: &Block<BoundQuery>, number: usize) -> Option<&Grouping>
    ensures { IfSome result (λ grouping. GroupsTable block.now number grouping.now) }
{
    match grouped_table(block) {
        Some((table, grouping)) if table == number => Some(grouping),
        _ => None,
    }
}

/// What a block does with all rows of the table with this number, where parts of it are done where the rows are read.
fn block_use(block: &Block<BoundQuery>, number: usize) -> Option<LeafUse<'_>> {
    if let Some(grouping) = block_grouping(block, number) {
        return Some(LeafUse::Group(grouping));
    }
    match distinct_table(block) {
        Some(table) if table == number => Some(LeafUse::Distinct(block)),
        _ => None,
    }
}

/// What the query above the leaves does with all rows of a leaf, whose place among them is counted from 0. None where no block of the query's
/// own groups them or takes each once. Only how fast the query is answered rests on it.
fn leaf_use(top: &BoundQuery, place: usize) -> Option<LeafUse<'_>> {
    let number = place.saturating_add(1);
    if let Some(found) = block_use(&top.first, number) {
        return Some(found);
    }
    for block in top.others.as_slice() {
        if let Some(found) = block_use(block, number) {
            return Some(found);
        }
    }
    None
}
