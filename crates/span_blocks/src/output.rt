//! The output of a block: the typed expressions of its select list, and their columns.
ghost use Rattle.std.specs.Prelude.{◌≡◌, ◌∷◌, [], IfOk, length, slice_get};
ghost use Rattle.span_operators.specs.Steps.{Gives};
ghost use Rattle.span_typing.specs.Scopes.{item_named as named};
ghost use Rattle.span_typing.specs.Typing.{typing};
ghost use Rattle.span_blocks.specs.Outputs as spec;

use super::bound::SelectItem;
use super::join::copy_name;
use span_operators::kind::or_int;
use span_operators::typed::{Mode, Typed};
use span_parser::tree::Output;
use span_query::query::{Aggregate, OutputColumn};
use span_trees::tree::{Expr, Spelling};
use span_typing::leaf::column_at;
use span_typing::scope::{Scope, ScopeColumn, item_named};
use span_typing::typing::Names;
use span_value::owned::keep_with;
use span_value::refusal::Refusal;
use span_value::seq::Seq;
use span_value::text::Text;
use std::alloc::{AllocError, Global};

/// The output of a select list so far, and the aggregates of the block so far.
pub(crate) type ProjectionSoFar = (Seq<SelectItem>, Seq<Aggregate>);

/// An expression of the output, with the name of its column. A NULL literal is INT64.
fn projection(name: Option<Text>, typed: Typed) -> SelectItem
    ensures { result ≡ spec.projection name typed }
{
    SelectItem {
        expr: typed.expr,
        column: OutputColumn {
            name,
            kind: or_int(typed.kind),
        },
    }
}

/// The name of the column at a place of the FROM.
fn name_at(alloc: Global, scope: &Scope, place: usize) -> Result<Option<Text>, AllocError>
    ensures { IfOk result (λ name. name ≡ spec.or_nameless (slice_get scope.now.columns place)) }
{
    match scope.columns.as_slice().get(place) {
        None => Ok(None),
        Some(column) => copy_name(alloc, &column.name),
    }
}

/// The column at a place of the FROM. The error is `NotGrouped` where the block is grouped and it is no grouped column.
fn projected_column(
    alloc: Global,
    scope: &Scope,
    mode: Mode,
    place: usize,
) -> Result<SelectItem, Refusal>
    ensures { Gives result (spec.projected_column scope.now mode place) }
{
    let typed = column_at(scope, mode, place)?;
    let (typed, name) = keep_with(typed, name_at(alloc, scope, place))?;
    Ok(projection(name, typed))
}

#[tactic(auto, unfolding(crate::specs::Outputs::projected_columns))]
fn projected_columns(
    alloc: Global,
    scope: &Scope,
    mode: Mode,
    places: &[usize],
) -> Result<Seq<SelectItem>, Refusal>
    ensures { Gives result (spec.projected_columns scope.now mode places.now) }
{
    let mut all = Seq::new(alloc);
    for place in places {
        all.push(projected_column(alloc, scope, mode, *place)?)?;
    }
    Ok(all)
}

fn all_places(alloc: Global, scope: &Scope) -> Result<Seq<usize>, AllocError>
    ensures { IfOk result (λ places. places ≡ spec.all_places scope.now) }
{
    let mut places = Seq::new(alloc);
    for place in 0..scope.columns.len() {
        places.push(place)?;
    }
    Ok(places)
}

/// The places of the columns of an item.
fn places_of(alloc: Global, item: usize, columns: &[ScopeColumn]) -> Result<Seq<usize>, AllocError>
    ensures { IfOk result (λ places. places ≡ spec.places_of item 0 columns.now) }
{
    let mut places = Seq::new(alloc);
    for (place, column) in columns.iter().enumerate() {
        if column.item == item {
            places.push(place)?;
        }
    }
    Ok(places)
}

/// The places of the columns of the item with a name. The error is `NoColumn` where no item has it.
fn item_places(alloc: Global, scope: &Scope, name: &str) -> Result<Seq<usize>, Refusal>
    ensures { Gives result (spec.item_places scope.now (named scope.now name.now)) }
{
    match item_named(scope, name) {
        None => Err(Refusal::NoColumn),
        Some(item) => Ok(places_of(alloc, item, scope.columns.as_slice())?),
    }
}

/// The name of an output column: its alias, or else the name of a bare column.
fn output_name(
    alloc: Global,
    tree: &Expr,
    alias: &Option<Spelling>,
) -> Result<Option<Text>, AllocError>
    ensures { IfOk result (λ name. name ≡ spec.output_name tree.now alias.now) }
{
    match alias {
        Some(alias) => Ok(Some(Text::from_str(alloc, alias.text.as_str())?)),
        None => match tree {
            Expr::Column(column) => Ok(Some(Text::from_str(alloc, column.name.text.as_str())?)),
            _ => Ok(None),
        },
    }
}

/// An expression, after the aggregates before it.
pub(crate) fn bind_expr(
    names: Names<'_>,
    mode: Mode,
    tree: &Expr,
    found: Seq<Aggregate>,
) -> Result<(Typed, Seq<Aggregate>), Refusal>
    ensures { Gives result (typing names.entry.scope.now names.entry.params.now tree.now mode found) }
{
    let mut found = found;
    let typed = names.bind(mode, tree, &mut found)?;
    Ok((typed, found))
}

/// `*`
#[tactic(auto, unfolding(crate::specs::Outputs::project_all))]
fn project_all(alloc: Global, scope: &Scope, mode: Mode) -> Result<Seq<SelectItem>, Refusal>
    ensures { Gives result (spec.project_all scope.now mode) }
{
    let places = all_places(alloc, scope)?;
    projected_columns(alloc, scope, mode, places.as_slice())
}

/// `item.*`
#[tactic(auto, unfolding(crate::specs::Outputs::project_item))]
fn project_item(
    alloc: Global,
    scope: &Scope,
    mode: Mode,
    name: &str,
) -> Result<Seq<SelectItem>, Refusal>
    ensures { Gives result (spec.project_item scope.now mode name.now) }
{
    let places = item_places(alloc, scope, name)?;
    projected_columns(alloc, scope, mode, places.as_slice())
}

/// A list of one item.
fn one_item<T: Drop>(alloc: Global, item: T) -> Result<Seq<T>, AllocError>
    ensures { IfOk result (λ all. all ≡ item ∷ []) }
{
    let mut all = Seq::new(alloc);
    match all.push(item) {
        Ok(()) => Ok(all),
        Err(_) => Err(AllocError),
    }
}

#[tactic(auto, unfolding(crate::specs::Outputs::project_value))]
fn project_value(
    names: Names<'_>,
    mode: Mode,
    tree: &Expr,
    alias: &Option<Spelling>,
    found: Seq<Aggregate>,
) -> Result<ProjectionSoFar, Refusal>
    ensures { Gives result
        (spec.project_value names.entry.scope.now names.entry.params.now mode tree.now alias.now found) }
{
    let (typed, found) = bind_expr(names, mode, tree, found)?;
    let name = output_name(names.alloc, tree, alias);
    let ((typed, found), name) = keep_with((typed, found), name)?;
    let (found, all) = keep_with(found, one_item(names.alloc, projection(name, typed)))?;
    Ok((all, found))
}

fn project_output(
    names: Names<'_>,
    mode: Mode,
    output: &Output,
    found: Seq<Aggregate>,
) -> Result<ProjectionSoFar, Refusal>
    ensures { Gives result (spec.project_output names.entry.scope.now names.entry.params.now mode output.now found) }
{
    match output {
        Output::All => Ok((project_all(names.alloc, names.scope, mode)?, found)),
        Output::AllOf(item) => {
            let all = project_item(names.alloc, names.scope, mode, item.text.as_str())?;
            Ok((all, found))
        }
        Output::Value(tree, alias) => project_value(names, mode, tree, alias, found),
    }
}

/// One more item of a select list, after those before it.
fn project_next(
    names: Names<'_>,
    mode: Mode,
    so_far: ProjectionSoFar,
    output: &Output,
) -> Result<ProjectionSoFar, Refusal>
    ensures { Gives result (spec.project_next names.entry.scope.now names.entry.params.now mode so_far output.now) }
{
    let (projection, found) = so_far;
    let (more, found) = project_output(names, mode, output, found)?;
    let mut all = projection.into_vec();
    let mut more = more.into_vec();
    all.append(&mut more)?;
    Ok((Seq::from_vec(all), found))
}

/// The output of a select list, and the aggregates in it. The error is the first of its faults: `NoColumn`, `Ambiguous`, `TypeMismatch`,
/// `NotGrouped`, `BadPattern` or `NoParameter`; or out of memory.
#[tactic(auto, unfolding(crate::specs::Outputs::select_list))]
pub(crate) fn select_list(
    names: Names<'_>,
    mode: Mode,
    outputs: &[Output],
) -> Result<ProjectionSoFar, Refusal>
    ensures { Gives result (spec.select_list names.entry.scope.now names.entry.params.now mode outputs.now) }
{
    let mut so_far = (Seq::new(names.alloc), Seq::new(names.alloc));
    for output in outputs {
        so_far = project_next(names, mode, so_far, output)?;
    }
    Ok(so_far)
}
