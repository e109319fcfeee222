//! A query over rows of the columns alone that are read: what its leaves give has no others.
ghost use Rattle.std.specs.Prelude.{◌≡◌, ◌++◌, ◌≤◌, true, IfOk, OnOk, drop, length, map, flat_map, replicate, slice_get, take};
ghost use Rattle.std.specs.Option.{option_map, option_copied};
ghost use Rattle.span_expr.specs.Places.{moved, rank};
ghost use Rattle.span_query.specs.Layers.{map_item, map_join, map_block};
ghost use Rattle.span_columns.specs.Narrow as spec;
ghost use Rattle.span_columns.specs.Picks.{picked_width};
ghost use Rattle.span_columns.specs.Reads.{masks_of};

use super::copy::{copy_condition, copy_outputs};
use super::leaf::{Leaf, LeafJoin};
use span_expr::copy::copy_among;
use span_expr::expr::Expr;
use span_expr::rank::rank;
use span_query::query::{Aggregate, Block, BoundQuery, Grouping, Item, Join};
use span_value::owned::keep_with;
use sqlite_items::{Boxed, Items};
use std::alloc::{AllocError, Global};

fn leaf_at(leaves: &[Leaf], place: usize) -> Option<&Leaf>
    ensures { option_copied result ≡ slice_get leaves.now place }
{
    leaves.get(place)
}

/// The columns that leave the leaf with this number; the first leaf has number 1.
fn mask_of(leaves: &[Leaf], number: usize) -> &[bool]
    ensures { result.now ≡ masks_of leaves.now number }
{
    if number == 0 {
        return &[];
    }
    match leaf_at(leaves, number - 1) {
        Some(leaf) => leaf.kept.as_slice(),
        None => &[],
    }
}

/// How many places a mask has.
pub fn picked_width(mask: &[bool]) -> usize
    ensures width { result ≡ picked_width mask.now }
    ensures below { result ≤ length mask.now }
{
    let Some((has, rest)) = mask.split_first() else {
        return 0;
    };
    let width = picked_width(rest);
    if *has { width + 1 } else { width }
}

/// Adds a number of places that a mask has.
fn add_all(alloc: Global, mask: &mut Vec<bool>, count: usize) -> Result<(), AllocError>
    ensures { OnOk result (mask.new.items ≡ mask.old.items ++ replicate count true) }
{
    let mut all = vec![in alloc; true; count]?;
    mask.append(&mut all)
}

/// Adds the columns of an item of a FROM: those that its leaf gives, or all of a derived table.
fn add_item(
    alloc: Global,
    leaves: &[Leaf],
    item: &Item<BoundQuery>,
    mask: &mut Vec<bool>,
) -> Result<(), AllocError>
    ensures { OnOk result (mask.new.items
        ≡ mask.old.items
        ++ spec.item_columns (masks_of leaves.now) (map_item (spec.narrow (masks_of leaves.now)) item.now)) }
{
    match item {
        Item::Table(number) => mask.extend_from_slice(mask_of(leaves, *number)),
        Item::Derived(query) => add_all(alloc, mask, query.get().first.outputs.len()),
    }
}

/// Adds the columns of further items of a FROM.
fn add_joins(
    alloc: Global,
    leaves: &[Leaf],
    joins: &[Join<BoundQuery>],
    mask: &mut Vec<bool>,
) -> Result<(), AllocError>
    ensures { OnOk result (mask.new.items
        ≡ mask.old.items ++ flat_map (spec.join_columns (masks_of leaves.now))
        (map (map_join (spec.narrow (masks_of leaves.now))) joins.now)) }
{
    for join in joins {
        add_item(alloc, leaves, &join.item, mask)?;
    }
    Ok(())
}

/// The columns of the rows of a block's FROM that its items give.
fn mask_of_from(
    alloc: Global,
    leaves: &[Leaf],
    block: &Block<BoundQuery>,
) -> Result<Vec<bool>, AllocError>
    ensures { IfOk result (λ mask. mask.items
        ≡ spec.from_columns (masks_of leaves.now) (map_block (spec.narrow (masks_of leaves.now)) block.now)) }
{
    let mut mask = Vec::new(alloc);
    add_item(alloc, leaves, &block.from, &mut mask)?;
    add_joins(alloc, leaves, block.joins.as_slice(), &mut mask)?;
    Ok(mask)
}

/// The number of columns that an item of a FROM gives.
fn item_width(leaves: &[Leaf], item: &Item<BoundQuery>) -> usize
    ensures { result ≡ picked_width
        (spec.item_columns (masks_of leaves.now) (map_item (spec.narrow (masks_of leaves.now)) item.now)) }
{
    match item {
        Item::Table(number) => picked_width(mask_of(leaves, *number)),
        Item::Derived(query) => query.get().first.outputs.len(),
    }
}

fn move_condition(
    alloc: Global,
    condition: &Option<Expr>,
    mask: &[bool],
) -> Result<Option<Expr>, AllocError>
    ensures { IfOk result (λ found. found ≡ option_map (moved (rank mask.now)) condition.now) }
{
    match condition {
        Some(condition) => Ok(Some(copy_among(alloc, condition, mask)?)),
        None => Ok(None),
    }
}

fn move_all(alloc: Global, exprs: &[Expr], mask: &[bool]) -> Result<Items<Expr>, AllocError>
    ensures { IfOk result (λ copies. copies ≡ map (moved (rank mask.now)) exprs.now) }
{
    let mut copies = Items::new(alloc);
    for expr in exprs {
        copies.push(copy_among(alloc, expr, mask)?)?;
    }
    Ok(copies)
}

/// The select list: of a grouped block it reads rows of the groups, whose columns stay.
fn move_outputs(
    alloc: Global,
    grouping: &Option<Grouping>,
    outputs: &[Expr],
    mask: &[bool],
) -> Result<Items<Expr>, AllocError>
    ensures { IfOk result (λ copies. copies ≡ spec.moved_outputs (rank mask.now) grouping.now outputs.now) }
{
    match grouping {
        None => move_all(alloc, outputs, mask),
        Some(_) => copy_outputs(alloc, outputs),
    }
}

fn move_keys(alloc: Global, keys: &[usize], mask: &[bool]) -> Result<Items<usize>, AllocError>
    ensures { IfOk result (λ moved. moved ≡ map (rank mask.now) keys.now) }
{
    let mut moved = Items::new(alloc);
    for key in keys {
        moved.push(rank(mask, *key))?;
    }
    Ok(moved)
}

fn move_aggregate(
    alloc: Global,
    aggregate: &Aggregate,
    mask: &[bool],
) -> Result<Aggregate, AllocError>
    ensures { IfOk result (λ found. found ≡ spec.moved_aggregate (rank mask.now) aggregate.now) }
{
    match aggregate {
        Aggregate::CountRows => Ok(Aggregate::CountRows),
        Aggregate::Of(function, operand) => {
            Ok(Aggregate::Of(*function, copy_among(alloc, operand, mask)?))
        }
    }
}

fn move_aggregates(
    alloc: Global,
    aggregates: &[Aggregate],
    mask: &[bool],
) -> Result<Items<Aggregate>, AllocError>
    ensures { IfOk result (λ copies. copies ≡ map (spec.moved_aggregate (rank mask.now)) aggregates.now) }
{
    let mut copies = Items::new(alloc);
    for aggregate in aggregates {
        copies.push(move_aggregate(alloc, aggregate, mask)?)?;
    }
    Ok(copies)
}

/// A grouping; its HAVING reads rows of the groups, whose columns stay.
fn move_grouping(
    alloc: Global,
    grouping: &Option<Grouping>,
    mask: &[bool],
) -> Result<Option<Grouping>, AllocError>
    ensures { IfOk result (λ found. found ≡ option_map (spec.moved_grouping (rank mask.now)) grouping.now) }
{
    match grouping {
        Some(grouping) => Ok(Some(Grouping {
            keys: move_keys(alloc, grouping.keys.as_slice(), mask)?,
            aggregates: move_aggregates(alloc, grouping.aggregates.as_slice(), mask)?,
            having: copy_condition(alloc, &grouping.having)?,
        })),
        None => Ok(None),
    }
}

/// A block with this FROM, whose other parts read the columns of the mask.
fn move_block(
    alloc: Global,
    block: &Block<BoundQuery>,
    mask: &[bool],
    from: Item<BoundQuery>,
    joins: Items<Join<BoundQuery>>,
) -> Result<Block<BoundQuery>, AllocError>
    ensures { IfOk result (λ found. found ≡ spec.moved_block (rank mask.now) block.now from joins) }
{
    let above = keep_with((from, joins), move_condition(alloc, &block.filter, mask))?;
    let above = keep_with(above, move_grouping(alloc, &block.grouping, mask))?;
    let outputs = move_outputs(alloc, &block.grouping, block.outputs.as_slice(), mask);
    let (above, outputs) = keep_with(above, outputs)?;
    let (((from, joins), filter), grouping) = above;
    Ok(Block {
        from,
        joins,
        filter,
        grouping,
        outputs,
        is_distinct: block.is_distinct,
    })
}

/// An item of a FROM: a derived table is a query of its own.
#[cycle(narrow)]
fn narrow_item(
    alloc: Global,
    leaves: &[Leaf],
    item: &Item<BoundQuery>,
) -> Result<Item<BoundQuery>, AllocError>
    ensures { IfOk result (λ found. found
        ≡ map_item (λ q. q.query) (map_item (spec.narrow (masks_of leaves.now)) item.now)) }
{
    match item {
        Item::Table(number) => Ok(Item::Table(*number)),
        Item::Derived(query) => {
            let query = narrow_query(alloc, leaves, query.get())?;
            Ok(Item::Derived(Boxed::new(alloc, query)?))
        }
    }
}

/// The further items of a FROM whose rows have the columns of the mask.
#[cycle(narrow)]
fn narrow_joins(
    alloc: Global,
    leaves: &[Leaf],
    mask: &[bool],
    joins: &[Join<BoundQuery>],
) -> Result<Items<Join<BoundQuery>>, AllocError>
    ensures { IfOk result (λ found. found
        ≡ map (spec.narrow_join (masks_of leaves.now) (rank mask.now))
        (map (map_join (spec.narrow (masks_of leaves.now))) joins.now)) }
{
    let mut narrowed = Items::new(alloc);
    for join in joins {
        let item = narrow_item(alloc, leaves, &join.item)?;
        let width = item_width(leaves, &join.item);
        let on = copy_among(alloc, &join.on, mask)?;
        narrowed.push(Join {
            is_left: join.is_left,
            item,
            width,
            on,
        })?;
    }
    Ok(narrowed)
}

/// A block over rows of the columns that its leaves give.
#[cycle(narrow)]
fn narrow_block(
    alloc: Global,
    leaves: &[Leaf],
    block: &Block<BoundQuery>,
) -> Result<Block<BoundQuery>, AllocError>
    ensures { IfOk result (λ found. found
        ≡ spec.narrow_block (masks_of leaves.now) (map_block (spec.narrow (masks_of leaves.now)) block.now)) }
{
    let mask = mask_of_from(alloc, leaves, block)?;
    let mask = mask.as_slice();
    let from = narrow_item(alloc, leaves, &block.from)?;
    let joins = narrow_joins(alloc, leaves, mask, block.joins.as_slice())?;
    move_block(alloc, block, mask, from, joins)
}

#[cycle(narrow)]
fn narrow_blocks(
    alloc: Global,
    leaves: &[Leaf],
    blocks: &[Block<BoundQuery>],
) -> Result<Items<Block<BoundQuery>>, AllocError>
    ensures { IfOk result (λ found. found
        ≡ map (spec.narrow_block (masks_of leaves.now))
        (map (map_block (spec.narrow (masks_of leaves.now))) blocks.now)) }
{
    let mut narrowed = Items::new(alloc);
    for block in blocks {
        let above = narrow_block(alloc, leaves, block)?;
        narrowed.push(above)?;
    }
    Ok(narrowed)
}

/// The query over rows that have the columns alone that the masks of the leaves have.
#[cycle(narrow)]
pub fn narrow_query(
    alloc: Global,
    leaves: &[Leaf],
    query: &BoundQuery,
) -> Result<BoundQuery, AllocError>
    ensures { IfOk result (λ found. found ≡ spec.narrowed (masks_of leaves.now) query.now) }
{
    let order = Items::from_slice(alloc, query.order.as_slice())?;
    let first = narrow_block(alloc, leaves, &query.first)?;
    let others = narrow_blocks(alloc, leaves, query.others.as_slice());
    let (first, others) = keep_with(first, others)?;
    Ok(BoundQuery {
        first,
        others,
        order,
        limit: query.limit,
    })
}

/// The joins and the condition of a leaf, at rows of the columns alone that its mask has.
#[derive(Debug, Drop)]
pub struct NarrowLeaf {
    pub joins: Items<LeafJoin>,
    pub filter: Option<Expr>,
}

/// The first places of a mask.
fn mask_front(mask: &[bool], width: usize) -> &[bool]
    ensures { result.now ≡ take width mask.now }
{
    &mask[..width.min(mask.len())]
}

/// The mask without its first places.
pub fn mask_after(mask: &[bool], width: usize) -> &[bool]
    ensures { result.now ≡ drop width mask.now }
{
    &mask[width.min(mask.len())..]
}

/// The joins of a leaf whose mask is this one; `later` is its part of the further tables.
fn narrow_leaf_joins(
    alloc: Global,
    joins: &[LeafJoin],
    mask: &[bool],
    later: &[bool],
) -> Result<Items<LeafJoin>, AllocError>
    ensures { IfOk result (λ found. found ≡ spec.narrow_joins (rank mask.now) joins.now later.now) }
{
    let mut narrowed = Items::new(alloc);
    let mut rest = later;
    for join in joins {
        let width = picked_width(mask_front(rest, join.width));
        let on = copy_among(alloc, &join.on, mask)?;
        narrowed.push(LeafJoin {
            is_left: join.is_left,
            width,
            on,
        })?;
        rest = mask_after(rest, join.width);
    }
    Ok(narrowed)
}

/// How a leaf joins and filters rows of the columns alone that its mask has. Its first table has `width` columns.
pub fn narrow_leaf(alloc: Global, width: usize, leaf: &Leaf) -> Result<NarrowLeaf, AllocError>
    ensures joins { IfOk result (λ found. found.joins ≡ (spec.narrow_leaf width leaf.now).joins) }
    ensures filter { IfOk result (λ found. found.filter ≡ (spec.narrow_leaf width leaf.now).filter) }
{
    let mask = leaf.reads.as_slice();
    let joins = narrow_leaf_joins(alloc, leaf.joins.as_slice(), mask, mask_after(mask, width))?;
    let filter = move_condition(alloc, &leaf.filter, mask)?;
    Ok(NarrowLeaf { joins, filter })
}
