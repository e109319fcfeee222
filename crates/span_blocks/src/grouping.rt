//! GROUP BY, WHERE and HAVING.
ghost use Rattle.std.specs.Prelude.{◌≡◌, IfOk};
ghost use Rattle.span_operators.specs.Steps.{Gives};
ghost use Rattle.span_blocks.specs.Blocks as spec;

use super::join::{check_bool, condition};
use super::output::bind_expr;
use span_expr::expr::Expr;
use span_operators::typed::Mode;
use span_query::query::{Aggregate, Grouping};
use span_trees::tree;
use span_trees::tree::Column;
use span_typing::scope::{Scope, column_place};
use span_typing::typing::Names;
use span_value::refusal::Refusal;
use span_value::seq::Seq;
use sqlite_items::Items;
use std::alloc::{AllocError, Global};

/// The grouped columns, by their places in the FROM. A name of no column, or of two, groups nothing.
#[tactic(auto, unfolding(crate::specs::Blocks::group_places))]
pub(crate) fn group_places(
    alloc: Global,
    scope: &Scope,
    groups: &[Column],
) -> Result<Seq<usize>, AllocError>
    ensures { IfOk result (λ places. places ≡ spec.group_places scope.now groups.now) }
{
    let mut places = Seq::new(alloc);
    for column in groups {
        if let Ok(place) = column_place(scope, column) {
            places.push(place)?;
        }
    }
    Ok(places)
}

/// The error is the first of a GROUP BY: `NoColumn` or `Ambiguous` for a name of no column, or of two.
#[tactic(auto, unfolding(crate::specs::Blocks::groups_named))]
pub(crate) fn groups_named(scope: &Scope, groups: &[Column]) -> Result<(), Refusal>
    ensures { result ≡ spec.groups_named scope.now groups.now }
{
    for column in groups {
        column_place(scope, column)?;
    }
    Ok(())
}

/// The same names, where these columns are grouped.
pub(crate) fn with_keys(scope: Scope, keys: Seq<usize>) -> Scope
    ensures { result ≡ spec.with_keys scope keys }
{
    let Scope { items, columns, .. } = scope;
    Scope {
        items,
        columns,
        keys,
    }
}

/// WHERE.
#[tactic(auto, unfolding(crate::specs::Blocks::filter_of))]
pub(crate) fn filter_of(
    names: Names<'_>,
    filter: &Option<tree::Expr>,
) -> Result<Option<Expr>, Refusal>
    ensures { Gives result (spec.filter_of names.entry.scope.now names.entry.params.now filter.now) }
{
    match filter {
        None => Ok(None),
        Some(tree) => {
            let condition = condition(names.alloc, names.scope, names.params, tree)?;
            Ok(Some(condition))
        }
    }
}

/// HAVING, and the aggregates of the block with those in it.
#[tactic(auto, unfolding(crate::specs::Blocks::having_of))]
pub(crate) fn having_of(
    names: Names<'_>,
    having: &Option<tree::Expr>,
    found: Seq<Aggregate>,
) -> Result<(Option<Expr>, Seq<Aggregate>), Refusal>
    ensures { Gives result (spec.having_of names.entry.scope.now names.entry.params.now having.now found) }
{
    match having {
        None => Ok((None, found)),
        Some(tree) => {
            let (typed, found) = bind_expr(names, Mode::Groups, tree, found)?;
            let condition = check_bool(typed)?;
            Ok((Some(condition), found))
        }
    }
}

/// How a block is grouped, if it is.
pub(crate) fn grouping_of(
    is_grouped: bool,
    keys: Seq<usize>,
    having: Option<Expr>,
    found: Seq<Aggregate>,
) -> Option<Grouping>
    ensures { result ≡ spec.grouping_of is_grouped keys having found }
{
    if is_grouped {
        Some(Grouping {
            keys: Items::from_vec(keys.into_vec()),
            aggregates: Items::from_vec(found.into_vec()),
            having,
        })
    } else {
        None
    }
}
