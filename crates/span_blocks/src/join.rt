//! FROM, item by item: the names up to each, and the conditions of the joins.
ghost use Rattle.std.specs.Prelude.{◌≡◌, ◌++◌, ◌∷◌, [], IfOk, map};
ghost use Rattle.span_operators.specs.Steps.{Gives};
ghost use Rattle.span_blocks.specs.Sources as spec;

use super::bound::{FromItems, Source};
use span_expr::expr::Expr;
use span_operators::kind::takes;
use span_operators::step::keep_if;
use span_operators::typed::{Mode, Typed};
use span_params::params::Params;
use span_query::query::{BoundQuery, Join, OutputColumn};
use span_trees::tree;
use span_typing::scope::{Scope, ScopeColumn, item_named};
use span_typing::typing::Names;
use span_value::owned::keep_with;
use span_value::refusal::Refusal;
use span_value::seq::Seq;
use span_value::text::Text;
use span_value::value::Kind;
use sqlite_items::Items;
use std::alloc::{AllocError, Global};

/// A copy of a name, if there is one.
pub(crate) fn copy_name(alloc: Global, name: &Option<Text>) -> Result<Option<Text>, AllocError>
    ensures { IfOk result (λ copy. copy ≡ name.now) }
{
    match name {
        None => Ok(None),
        Some(name) => Ok(Some(Text::from_str(alloc, name.as_str())?)),
    }
}

fn with_columns(
    alloc: Global,
    before: Seq<ScopeColumn>,
    item: usize,
    columns: &[OutputColumn],
) -> Result<Seq<ScopeColumn>, AllocError>
    ensures { IfOk result (λ all. all ≡ before ++ map (spec.scope_column item) columns.now) }
{
    let mut all = before;
    for column in columns {
        all.push(ScopeColumn {
            item,
            name: copy_name(alloc, &column.name)?,
            kind: column.kind,
        })?;
    }
    Ok(all)
}

/// The names of one more item.
fn with_names(alloc: Global, scope: Scope, source: &Source) -> Result<Scope, AllocError>
    ensures { IfOk result (λ all. all ≡ spec.with_names scope source.now) }
{
    let Scope {
        items: before,
        columns,
        keys,
    } = scope;
    let columns = with_columns(alloc, columns, before.len(), source.columns.as_slice())?;
    let mut items = before;
    items.push(Text::from_str(alloc, source.name.as_str())?)?;
    Ok(Scope {
        items,
        columns,
        keys,
    })
}

fn no_names(alloc: Global) -> Scope
    ensures { result ≡ spec.no_names }
{
    Scope {
        items: Seq::new(alloc),
        columns: Seq::new(alloc),
        keys: Seq::new(alloc),
    }
}

/// A FROM of its first item.
pub fn start_from(alloc: Global, source: Source) -> Result<FromItems, AllocError>
    ensures { IfOk result (λ from. from ≡ spec.start_from source) }
{
    let scope = with_names(alloc, no_names(alloc), &source)?;
    Ok(FromItems {
        scope,
        first: source.item,
        joins: Items::new(alloc),
    })
}

/// A condition. The error is `TypeMismatch` where it is not BOOL.
pub(crate) fn check_bool(typed: Typed) -> Result<Expr, Refusal>
    ensures { result ≡ spec.check_bool typed }
{
    keep_if(takes(Kind::Bool, typed.kind), typed.expr)
}

/// A condition at rows of the FROM.
#[tactic(auto, unfolding(crate::specs::Sources::condition))]
pub(crate) fn condition(
    alloc: Global,
    scope: &Scope,
    params: &Params,
    tree: &tree::Expr,
) -> Result<Expr, Refusal>
    ensures { Gives result (spec.condition scope.now params.now tree.now) }
{
    let names = Names {
        alloc,
        scope,
        params,
    };
    let mut found = Seq::new(alloc);
    let typed = names.bind(Mode::Rows, tree, &mut found)?;
    check_bool(typed)
}

/// One more join, after those before it.
fn with_join(
    joins: Items<Join<BoundQuery>>,
    is_left: bool,
    source: Source,
    on: Expr,
) -> Result<Items<Join<BoundQuery>>, AllocError>
    ensures { IfOk result (λ all. all ≡ joins ++ spec.join_of is_left source on ∷ []) }
{
    let mut joins = joins;
    joins.push(Join {
        is_left,
        item: source.item,
        width: source.columns.len(),
        on,
    })?;
    Ok(joins)
}

fn has_item(scope: &Scope, name: &str) -> bool
    ensures { result ≡ spec.has_item scope.now name.now }
{
    item_named(scope, name).is_some()
}

/// One more item of a FROM: its name is checked, and then its ON, which may use the items up to it. The error is `DuplicateAlias`
/// where an item before has the name, or else one of the ON.
pub fn add_item(
    alloc: Global,
    params: &Params,
    from: FromItems,
    is_left: bool,
    source: Source,
    on: &tree::Expr,
) -> Result<FromItems, Refusal>
    ensures { Gives result (spec.add_item params.now from is_left source on.now) }
{
    if has_item(&from.scope, source.name.as_str()) {
        return Err(Refusal::DuplicateAlias);
    }
    let FromItems {
        scope,
        first,
        joins,
    } = from;
    let scope = with_names(alloc, scope, &source);
    let ((first, joins, source), scope) = keep_with((first, joins, source), scope)?;
    let on = condition(alloc, &scope, params, on);
    let ((scope, first, joins, source), on) = keep_with((scope, first, joins, source), on)?;
    let joins = with_join(joins, is_left, source, on);
    let ((scope, first), joins) = keep_with((scope, first), joins)?;
    Ok(FromItems {
        scope,
        first,
        joins,
    })
}
