//! The clauses of a block after its FROM.
ghost use Rattle.std.specs.Prelude.{◌≡◌, IfOk};
ghost use Rattle.span_operators.specs.Steps.{Gives};
ghost use Rattle.span_blocks.specs.Blocks as spec;

use super::aggregating::{is_grouped, mode_of};
use super::bound::{BoundBlock, FromItems, Parts, SelectItem};
use super::grouping::{filter_of, group_places, grouping_of, groups_named, having_of, with_keys};
use super::output::select_list;
use span_expr::expr::Expr;
use span_operators::typed::Mode;
use span_params::params::Params;
use span_parser::tree;
use span_query::query::{Block, BoundQuery, Item, Join, OutputColumn};
use span_typing::scope::Scope;
use span_typing::typing::Names;
use span_value::owned::keep_with;
use span_value::refusal::Refusal;
use span_value::seq::Seq;
use sqlite_items::Items;
use std::alloc::{AllocError, Global};

/// The expressions and the columns of a select list.
fn split_projection(
    alloc: Global,
    projection: Seq<SelectItem>,
) -> Result<(Items<Expr>, Seq<OutputColumn>), AllocError>
    ensures { IfOk result
        (λ parts. (parts.0 ≡ spec.projected_exprs projection) × (parts.1 ≡ spec.projected_columns projection)) }
{
    let mut exprs = Vec::new(alloc);
    let mut columns = Vec::new(alloc);
    for one in projection.into_vec() {
        exprs.push(one.expr)?;
        columns.push(one.column)?;
    }
    Ok((Items::from_vec(exprs), Seq::from_vec(columns)))
}

/// The typed clauses of a block after its FROM. The error is the first in its select list, WHERE, GROUP BY and HAVING.
#[tactic(auto, unfolding(crate::specs::Blocks::bind_parts))]
fn bind_parts(names: Names<'_>, mode: Mode, tree: &tree::Block) -> Result<Parts, Refusal>
    ensures { Gives result
        (spec.bind_parts names.entry.scope.now names.entry.params.now mode (spec.block_tail tree.now)) }
{
    let selected = select_list(names, mode, tree.outputs.as_slice())?;
    let (selected, filter) = keep_with(selected, filter_of(names, &tree.filter))?;
    let named = groups_named(names.scope, tree.groups.as_slice());
    let (((projection, found), filter), _) = keep_with((selected, filter), named)?;
    let having = having_of(names, &tree.having, found);
    let ((projection, filter), (having, aggregates)) = keep_with((projection, filter), having)?;
    Ok(Parts {
        projection,
        filter,
        having,
        aggregates,
    })
}

/// Whether a block is grouped.
fn is_grouped_block(tree: &tree::Block) -> bool
    ensures { result ≡ (spec.block_tail tree.now).is_grouped }
{
    is_grouped(
        tree.groups.as_slice(),
        &tree.having,
        &tree.filter,
        tree.outputs.as_slice(),
        tree.joins.as_slice(),
    )
}

/// A block of its parts.
fn block_of(
    alloc: Global,
    first: Item<BoundQuery>,
    joins: Items<Join<BoundQuery>>,
    is_distinct: bool,
    is_grouped: bool,
    keys: Seq<usize>,
    parts: Parts,
) -> Result<BoundBlock, AllocError>
    ensures { IfOk result (λ block. block ≡ spec.block_of first joins is_distinct is_grouped keys parts) }
{
    let Parts {
        projection,
        filter,
        having,
        aggregates,
    } = parts;
    let grouping = grouping_of(is_grouped, keys, having, aggregates);
    let clauses = (first, joins, filter, grouping);
    let (clauses, (outputs, columns)) = keep_with(clauses, split_projection(alloc, projection))?;
    let (from, joins, filter, grouping) = clauses;
    Ok(BoundBlock {
        block: Block {
            from,
            joins,
            filter,
            grouping,
            outputs,
            is_distinct,
        },
        columns,
    })
}

/// A block from its FROM and the places of its grouped columns.
#[tactic(auto, unfolding(crate::specs::Blocks::block_in))]
fn block_in(
    alloc: Global,
    params: &Params,
    tree: &tree::Block,
    from: FromItems,
    keys: Seq<usize>,
) -> Result<BoundBlock, Refusal>
    ensures { Gives result (spec.block_in params.now (spec.block_tail tree.now) from keys) }
{
    let FromItems {
        scope,
        first,
        joins,
    } = from;
    let scope = with_keys(scope, keys);
    let names = Names {
        alloc,
        scope: &scope,
        params,
    };
    let is_grouped = is_grouped_block(tree);
    let parts = bind_parts(names, mode_of(is_grouped), tree)?;
    let Scope { keys, .. } = scope;
    Ok(block_of(
        alloc,
        first,
        joins,
        tree.is_distinct,
        is_grouped,
        keys,
        parts,
    )?)
}

/// A block from its FROM.
#[tactic(auto, unfolding(crate::specs::Blocks::bind_block))]
pub fn bind_block(
    alloc: Global,
    params: &Params,
    tree: &tree::Block,
    from: FromItems,
) -> Result<BoundBlock, Refusal>
    ensures { Gives result (spec.bind_block params.now (spec.block_tail tree.now) from) }
{
    let keys = group_places(alloc, &from.scope, tree.groups.as_slice())?;
    block_in(alloc, params, tree, from, keys)
}
