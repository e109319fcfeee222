//! The typed query of a syntax tree.
//!
//! In a block faults are looked for in the items of the FROM with their ONs, from left to right, then in the select list, WHERE, GROUP BY
//! and HAVING; after all blocks of a query in the columns of its union, and then in its ORDER BY. The first fault is the refusal.
ghost use Rattle.std.specs.Prelude.{◌≡◌, ◌⊎◌, map, IfOk, IfErr};
ghost use Rattle.span_operators.specs.Steps.{Gives};
ghost use Rattle.span_blocks.specs.Onward.{fold_results};
ghost use Rattle.span_blocks.specs.Sources.{AreTables, HasTables};
ghost use Rattle.span_binder.specs.Faults.{IsTreeFault};
ghost use Rattle.span_binder.specs.Queries as spec;

use super::order::{bind_query, only_block, with_block};
use super::source::{derived_source, named_source};
use span_blocks::block::bind_block;
use span_blocks::bound::{BoundBlock, BoundBlocks, FromItems, Source, TypedQuery};
use span_blocks::join::{add_item, start_from};
use span_operators::step::pair_with;
use span_params::params::Params;
use span_parser::tree;
use span_query::query::Statement;
use span_schema::schema::Schema;
use span_value::refusal::Refusal;
use span_value::seq::Seq;
use std::alloc::Global;

/// The tables and the parameters of a query.
#[derive(Clone, Copy)]
struct Binder<'a> {
    alloc: Global,
    schema: &'a Schema,
    params: &'a Params,
}

impl Binder<'_> {
    /// An item of a FROM, after the leaves before it.
    #[cycle(binding)]
    fn item(self, tree: &tree::Item, leaves: Seq<usize>) -> Result<(Source, Seq<usize>), Refusal>
        ensures meant { Gives result (spec.item_step self.entry.schema.now self.entry.params.now tree.now leaves) }
        ensures tables { AreTables self.entry.schema.now leaves → HasTables self.entry.schema.now result }
    {
        match tree {
            tree::Item::Table(name, alias) => {
                named_source(self.alloc, self.schema, name, alias, leaves)
            }
            tree::Item::Derived(query, name) => {
                let (bound, leaves) = self.query(query.get(), leaves)?;
                Ok((derived_source(self.alloc, name, bound)?, leaves))
            }
        }
    }

    /// A FROM with the further items.
    #[cycle(binding)]
    fn join_items(
        self,
        first: (FromItems, Seq<usize>),
        joins: &[tree::Join],
    ) -> Result<(FromItems, Seq<usize>), Refusal>
        ensures meant { Gives result
            (fold_results (spec.next_join self.entry.params.now)
            (map (spec.join_step self.entry.schema.now self.entry.params.now) joins.now)
            first) }
        ensures tables { AreTables self.entry.schema.now first.1 → HasTables self.entry.schema.now result }
    {
        let mut so_far = first;
        for join in joins {
            let (from, leaves) = so_far;
            let (from, (item, leaves)) = pair_with(from, self.item(&join.item, leaves))?;
            let from = add_item(self.alloc, self.params, from, join.is_left, item, &join.on)?;
            so_far = (from, leaves);
        }
        Ok(so_far)
    }

    /// A block, after the leaves before it.
    #[cycle(binding)]
    fn block(
        self,
        tree: &tree::Block,
        leaves: Seq<usize>,
    ) -> Result<(BoundBlock, Seq<usize>), Refusal>
        ensures meant { Gives result (spec.block_step self.entry.schema.now self.entry.params.now tree.now leaves) }
        ensures tables { AreTables self.entry.schema.now leaves → HasTables self.entry.schema.now result }
    {
        let (first, leaves) = self.item(&tree.from, leaves)?;
        let first = start_from(self.alloc, first)?;
        let (from, leaves) = self.join_items((first, leaves), tree.joins.as_slice())?;
        Ok((bind_block(self.alloc, self.params, tree, from)?, leaves))
    }

    /// The further blocks of a query.
    #[cycle(binding)]
    fn others(
        self,
        first: (BoundBlocks, Seq<usize>),
        others: &[tree::Block],
    ) -> Result<(BoundBlocks, Seq<usize>), Refusal>
        ensures meant { Gives result
            (fold_results spec.next_block
            (map (spec.block_step self.entry.schema.now self.entry.params.now) others.now)
            first) }
        ensures tables { AreTables self.entry.schema.now first.1 → HasTables self.entry.schema.now result }
    {
        let mut so_far = first;
        for other in others {
            let (blocks, leaves) = so_far;
            let (blocks, (block, leaves)) = pair_with(blocks, self.block(other, leaves))?;
            so_far = (with_block(blocks, block)?, leaves);
        }
        Ok(so_far)
    }

    /// A query, after the leaves before it.
    #[cycle(binding)]
    fn query(
        self,
        tree: &tree::Query,
        leaves: Seq<usize>,
    ) -> Result<(TypedQuery, Seq<usize>), Refusal>
        ensures meant { Gives result (spec.query_step self.entry.schema.now self.entry.params.now tree.now leaves) }
        ensures tables { AreTables self.entry.schema.now leaves → HasTables self.entry.schema.now result }
    {
        let (first, leaves) = self.block(&tree.first, leaves)?;
        let first = only_block(self.alloc, first);
        let (blocks, leaves) = self.others((first, leaves), tree.others.as_slice())?;
        let query = bind_query(self.alloc, blocks, tree.order.as_slice(), &tree.limit)?;
        Ok((query, leaves))
    }
}

/// The statement of a tree, or the first fault in it.
fn statement_of(
    alloc: Global,
    schema: &Schema,
    tree: &tree::Query,
    params: &Params,
) -> Result<Statement, Refusal>
    ensures statement { Gives result (spec.bound schema.now params.now tree.now) }
    ensures leaves { IfOk result (λ statement. AreTables schema.now statement.leaves) }
{
    let binder = Binder {
        alloc,
        schema,
        params,
    };
    let (bound, leaves) = binder.query(tree, Seq::new(alloc))?;
    Ok(Statement {
        query: bound.query,
        leaves,
        columns: bound.columns,
    })
}

/// The typed query of a syntax tree on these tables and with these parameters, and its leaves: the tables of all its FROMs.
///
/// The error is the first of these faults in the tree, or out of memory:
/// `TooManyTables`, the ninth table name of the query; `NoTable`, a name that no table has; `DuplicateAlias`, two items of a FROM with one
/// name; `NoColumn` and `Ambiguous`, a name of no column, or of two; `TypeMismatch`, operands of types that their operator
/// does not take; `NotGrouped`, a column of a grouped block that is not in its GROUP BY, or an aggregate where none is allowed;
/// `BadPattern`, a LIKE pattern with a wrong escape; `NoParameter`, a parameter that was given no value; `ColumnsDiffer`, blocks of a union
/// that differ in the number or types of their columns; `BadOrdinal`, an ordinal in ORDER BY of 0 or past the last column.
pub fn bind(
    alloc: Global,
    schema: &Schema,
    tree: &tree::Query,
    params: &Params,
) -> Result<Statement, Refusal>
    ensures statement { Gives result (spec.bound schema.now params.now tree.now) }
    ensures leaves { IfOk result (λ statement. AreTables schema.now statement.leaves) }
    // The fault is one of these: 10 to 20.
    ensures faults { IfErr result (λ why. (why ≡ Refusal.OutOfMemory) ⊎ IsTreeFault why) }
{
    statement_of(alloc, schema, tree, params)
}
