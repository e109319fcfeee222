//! What follows the blocks of a query: the columns of a union, ORDER BY and LIMIT.
ghost use Rattle.std.specs.Prelude.{◌≡◌, ◌<◌, IfSome, IfOk, length, position};
ghost use Rattle.std.specs.List.{list_any, list_all, zip};
ghost use Rattle.std.specs.Option.{option_map};
ghost use Rattle.span_typing.specs.Scopes.{is_named, one_place};
ghost use Rattle.span_operators.specs.Steps.{Gives};
ghost use Rattle.span_binder.specs.Queries as spec;

use super::step::with_item;
use span_blocks::bound::{BoundBlock, BoundBlocks, TypedQuery};
use span_operators::step::pair_with;
use span_parser::tree;
use span_parser::tree::SortColumn;
use span_query::query::{Block, BoundQuery, Limit, OutputColumn, SortKey};
use span_schema::table::are_same;
use span_value::owned::keep_with;
use span_value::refusal::Refusal;
use span_value::seq::Seq;
use span_value::text::Text;
use sqlite_items::Items;
use std::alloc::{AllocError, Global};

fn have_same_kind(column: &OutputColumn, other: &OutputColumn) -> bool
    ensures { result ≡ spec.have_same_kind (column.now, other.now) }
{
    column.kind == other.kind
}

fn all_have_same_kind(columns: &[OutputColumn], others: &[OutputColumn]) -> bool
    ensures { result ≡ list_all spec.have_same_kind (zip columns.now others.now) }
{
    columns
        .iter()
        .zip(others)
        .all(|(column, other)| have_same_kind(column, other))
}

/// Whether the columns are the same in number and types.
fn have_same_kinds(columns: &[OutputColumn], others: &[OutputColumn]) -> bool
    ensures { result ≡ spec.have_same_kinds columns.now others.now }
{
    columns.len() == others.len() && all_have_same_kind(columns, others)
}

/// Whether all blocks give as many columns as the first, of the same types.
#[tactic(auto, unfolding(crate::specs::Queries::are_union_compatible))]
fn are_union_compatible(blocks: &BoundBlocks) -> bool
    ensures { result ≡ spec.are_union_compatible blocks.now }
{
    blocks.others.as_slice().iter().all(|other| have_same_kinds(
        blocks.first.columns.as_slice(),
        other.columns.as_slice(),
    ))
}

fn is_called(name: &str, found: &Option<Text>) -> bool
    ensures { result ≡ is_named name.now found.now }
{
    match found {
        None => false,
        Some(found) => are_same(found.as_str(), name),
    }
}

fn first_place(columns: &[OutputColumn], name: &str) -> Option<usize>
    ensures place { result ≡ position (spec.is_column_named name.now) columns.now }
    ensures within { IfSome result (λ place. place < length columns.now) }
{
    columns
        .iter()
        .position(|column| is_called(name, &column.name))
}

fn has_place(columns: &[OutputColumn], name: &str) -> bool
    ensures { result ≡ list_any (spec.is_column_named name.now) columns.now }
{
    columns.iter().any(|column| is_called(name, &column.name))
}

/// The place of the one column with a name. The error is `NoColumn` or `Ambiguous` for a name that no column has, or two.
fn place_named(columns: &[OutputColumn], name: &str) -> Result<usize, Refusal>
    ensures { result ≡ one_place (spec.is_column_named name.now) columns.now }
{
    match first_place(columns, name) {
        None => Err(Refusal::NoColumn),
        Some(place) => {
            if has_place(&columns[place + 1..], name) {
                Err(Refusal::Ambiguous)
            } else {
                Ok(place)
            }
        }
    }
}

/// The place of the column with this number, counted from 1. The error is `BadOrdinal` where there is none.
fn ordinal(columns: &[OutputColumn], number: u64) -> Result<usize, Refusal>
    ensures { result ≡ spec.ordinal columns.now number }
{
    if number == 0 || number > columns.len() as u64 {
        return Err(Refusal::BadOrdinal);
    }
    Ok((number - 1) as usize)
}

#[tactic(auto, unfolding(crate::specs::Queries::sort_place))]
fn sort_place(columns: &[OutputColumn], column: &SortColumn) -> Result<usize, Refusal>
    ensures { result ≡ spec.sort_place columns.now column.now }
{
    match column {
        SortColumn::Name(name) => place_named(columns, name.text.as_str()),
        SortColumn::Place(number) => ordinal(columns, number.value),
    }
}

fn sort_key(columns: &[OutputColumn], key: &tree::SortKey) -> Result<SortKey, Refusal>
    ensures { result ≡ spec.sort_key columns.now key.now }
{
    let column = sort_place(columns, &key.column)?;
    Ok(SortKey {
        column,
        is_descending: key.is_descending,
    })
}

/// ORDER BY.
#[tactic(auto, unfolding(crate::specs::Queries::sort_keys))]
fn sort_keys(
    alloc: Global,
    columns: &[OutputColumn],
    keys: &[tree::SortKey],
) -> Result<Seq<SortKey>, Refusal>
    ensures { Gives result (spec.sort_keys columns.now keys.now) }
{
    let mut all = Seq::new(alloc);
    for key in keys {
        all.push(sort_key(columns, key)?)?;
    }
    Ok(all)
}

fn limit_of(limit: &Option<tree::Limit>) -> Option<Limit>
    ensures { result ≡ option_map spec.limit_of limit.now }
{
    match limit {
        None => None,
        Some(limit) => Some(Limit {
            rows: limit.rows,
            skip: limit.skip,
        }),
    }
}

/// The blocks, without their columns.
fn blocks_of(alloc: Global, bound: Seq<BoundBlock>) -> Result<Items<Block<BoundQuery>>, AllocError>
    ensures { IfOk result (λ blocks. blocks ≡ spec.blocks_of bound) }
{
    let mut blocks = Vec::new(alloc);
    for one in bound.into_vec() {
        blocks.push(one.block)?;
    }
    Ok(Items::from_vec(blocks))
}

fn query_of(
    alloc: Global,
    blocks: BoundBlocks,
    order: Seq<SortKey>,
    limit: &Option<tree::Limit>,
) -> Result<TypedQuery, AllocError>
    ensures { IfOk result (λ bound. bound ≡ spec.query_of blocks order limit.now) }
{
    let BoundBlocks { first, others } = blocks;
    let (first, others) = keep_with(first, blocks_of(alloc, others))?;
    let BoundBlock { block, columns } = first;
    Ok(TypedQuery {
        query: BoundQuery {
            first: block,
            others,
            order: Items::from_vec(order.into_vec()),
            limit: limit_of(limit),
        },
        columns,
    })
}

/// ORDER BY of the blocks of a query, which give the same columns.
#[tactic(auto, unfolding(crate::specs::Queries::are_union_compatible))]
fn union_keys(
    alloc: Global,
    blocks: &BoundBlocks,
    order: &[tree::SortKey],
) -> Result<Seq<SortKey>, Refusal>
    ensures { Gives result (spec.union_keys blocks.now order.now) }
{
    if !are_union_compatible(blocks) {
        return Err(Refusal::ColumnsDiffer);
    }
    sort_keys(alloc, blocks.first.columns.as_slice(), order)
}

/// A query from its blocks. The error is `ColumnsDiffer` where a block gives other columns than the first, or else the first of the
/// ORDER BY: `NoColumn`, `Ambiguous` or `BadOrdinal`; or out of memory.
#[tactic(auto, unfolding(crate::specs::Queries::bind_query))]
pub(crate) fn bind_query(
    alloc: Global,
    blocks: BoundBlocks,
    order: &[tree::SortKey],
    limit: &Option<tree::Limit>,
) -> Result<TypedQuery, Refusal>
    ensures { Gives result (spec.bind_query blocks order.now limit.now) }
{
    let keys = union_keys(alloc, &blocks, order);
    let (blocks, keys) = pair_with(blocks, keys)?;
    Ok(query_of(alloc, blocks, keys, limit)?)
}

/// The blocks of a query up to its first.
pub(crate) fn only_block(alloc: Global, first: BoundBlock) -> BoundBlocks
    ensures { result ≡ spec.only_block first }
{
    BoundBlocks {
        first,
        others: Seq::new(alloc),
    }
}

/// One more block of a query.
pub(crate) fn with_block(blocks: BoundBlocks, block: BoundBlock) -> Result<BoundBlocks, AllocError>
    ensures { IfOk result (λ all. all ≡ spec.with_block blocks block) }
{
    let BoundBlocks { first, others } = blocks;
    let (first, others) = keep_with(first, with_item(others, block))?;
    Ok(BoundBlocks { first, others })
}
