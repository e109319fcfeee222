//! The leaves of a tree: literals, parameters, columns; and the aggregates of the block.
ghost use Rattle.std.specs.Prelude.{◌≡◌, ◌==◌, Ok, position, drop};
ghost use Rattle.std.specs.Option.{option_copied};
ghost use Rattle.span_schema.specs.Tables.{is_same_name};
ghost use Rattle.span_params.specs.Parameters.{parameter_named};
ghost use Rattle.span_value.specs.Results.{and_then};
ghost use Rattle.span_operators.specs.Steps.{Gives, Leaves};
ghost use Rattle.span_operators.specs.Operators as operators;
ghost use Rattle.span_typing.specs.Typing as spec;

use super::scope::{Scope, column_place};
use span_expr::expr::Expr;
use span_lexer::literal_value::{bytes_of, text_of};
use span_operators::call::operand_of;
use span_operators::function::CalledFunction;
use span_operators::kind::or_int;
use span_operators::operator::{TypingResult, of_kind};
use span_operators::step::{append, pair_with};
use span_operators::typed::{Mode, Typed};
use span_params::params::{Parameter, Params};
use span_query::query::{Aggregate, Function};
use span_trees::tree::Column;
use span_value::refusal::Refusal;
use span_value::seq::Seq;
use span_value::value::{Kind, Value};
use std::alloc::Global;

#[tactic(auto, unfolding(crate::specs::Typing::string))]
pub(crate) fn string(alloc: Global, spelled: &str) -> TypingResult
    ensures { Gives result (Ok (spec.string spelled.now)) }
{
    let text = text_of(alloc, spelled)?;
    Ok(of_kind(Expr::Literal(Value::Str(text)), Kind::Str))
}

#[tactic(auto, unfolding(crate::specs::Typing::bytes))]
pub(crate) fn bytes(alloc: Global, spelled: &str) -> TypingResult
    ensures { Gives result (Ok (spec.bytes spelled.now)) }
{
    let bytes = bytes_of(alloc, spelled)?;
    Ok(of_kind(Expr::Literal(Value::Bytes(bytes)), Kind::Bytes))
}

pub(crate) fn truth(value: bool) -> Typed
    ensures { result ≡ spec.truth value }
{
    of_kind(Expr::Literal(Value::Bool(value)), Kind::Bool)
}

pub(crate) fn null() -> Typed
    ensures { result ≡ spec.null }
{
    Typed {
        expr: Expr::Literal(Value::Null),
        kind: None,
    }
}

/// Whether a name is what is spelt after the first byte, an `@`.
fn is_spelt(name: &str, spelled: &str) -> bool
    ensures { result ≡ is_same_name name.now (drop 1 spelled.now) }
{
    match spelled.as_bytes().split_first() {
        None => name.is_empty(),
        Some((_, rest)) => name.as_bytes().eq_ignore_ascii_case(rest),
    }
}

fn parameter_spelt<'a>(parameters: &'a [Parameter], spelled: &str) -> Option<&'a Parameter>
    ensures { option_copied result ≡ parameter_named parameters.now (drop 1 spelled.now) }
{
    parameters
        .iter()
        .find(|parameter| is_spelt(parameter.name.as_str(), spelled))
}

/// A parameter, spelt with its `@`. The error is `NoParameter` where it was given no value.
#[tactic(auto, unfolding(crate::specs::Typing::parameter))]
pub(crate) fn parameter(alloc: Global, params: &Params, spelled: &str) -> TypingResult
    ensures { Gives result (spec.parameter params.now spelled.now) }
{
    match parameter_spelt(params.as_slice(), spelled) {
        None => Err(Refusal::NoParameter),
        Some(parameter) => {
            let value = parameter.value.copy(alloc)?;
            Ok(of_kind(Expr::Literal(value), parameter.kind))
        }
    }
}

/// The type of the column at a place.
fn kind_at(scope: &Scope, place: usize) -> Kind
    ensures { result ≡ spec.kind_at scope.now place }
{
    match scope.columns.as_slice().get(place) {
        None => Kind::Int,
        Some(column) => column.kind,
    }
}

/// The column at a place of the FROM. The error is `NotGrouped` where the mode is rows of the groups and it is no grouped column.
#[tactic(auto, unfolding(crate::specs::Typing::column_at))]
pub fn column_at(scope: &Scope, mode: Mode, place: usize) -> TypingResult
    ensures { result ≡ spec.column_at scope.now mode place }
{
    let kind = kind_at(scope, place);
    match mode {
        Mode::Rows => Ok(of_kind(Expr::Column(place), kind)),
        Mode::Groups => key_typed(kind, place_of_key(scope.keys.as_slice(), place)),
    }
}

fn key_typed(kind: Kind, key: Option<usize>) -> TypingResult
    ensures { result ≡ spec.key_typed kind key }
{
    match key {
        None => Err(Refusal::NotGrouped),
        Some(place) => Ok(of_kind(Expr::Column(place), kind)),
    }
}

fn place_of_key(keys: &[usize], column: usize) -> Option<usize>
    ensures { result ≡ position (λ k. k == column) keys.now }
{
    keys.iter().position(|key| *key == column)
}

/// A column by its name. The error is `NoColumn` or `Ambiguous` for a name of no column, or of two; `NotGrouped` for one that
/// is no grouped column, where the mode is rows of the groups.
#[tactic(auto, unfolding(crate::specs::Typing::column))]
pub(crate) fn column(scope: &Scope, mode: Mode, column: &Column) -> TypingResult
    ensures { result ≡ spec.column scope.now mode column.now }
{
    column_at(scope, mode, column_place(scope, column)?)
}

/// The place after the grouped columns and the aggregates found so far. The error is `NotGrouped` where the mode is rows
/// of the FROM.
#[tactic(auto, unfolding(crate::specs::Typing::next_place))]
fn next_place(scope: &Scope, mode: Mode, found: &Seq<Aggregate>) -> Result<usize, Refusal>
    ensures { Gives result (spec.next_place scope.now mode found.now) }
{
    if mode == Mode::Rows {
        return Err(Refusal::NotGrouped);
    }
    match scope.keys.len().checked_add(found.len()) {
        Some(place) => Ok(place),
        None => Err(Refusal::OutOfMemory),
    }
}

/// One more aggregate of the block. The error is `NotGrouped` where the mode is rows of the FROM.
#[tactic(auto, unfolding(crate::specs::Typing::new_aggregate, crate::specs::Typing::next_place))]
fn new_aggregate(
    scope: &Scope,
    mode: Mode,
    aggregate: Aggregate,
    kind: Kind,
    found: &mut Seq<Aggregate>,
) -> TypingResult
    ensures { Leaves result found.new (spec.new_aggregate scope.now mode aggregate kind found.old) }
{
    let (aggregate, place) = pair_with(aggregate, next_place(scope, mode, found))?;
    append(found, aggregate)?;
    Ok(of_kind(Expr::Column(place), kind))
}

/// COUNT(*). The error is `TypeMismatch` for another name.
#[tactic(auto, unfolding(crate::specs::Typing::call_star))]
pub(crate) fn call_star(
    scope: &Scope,
    mode: Mode,
    function: Option<CalledFunction>,
    found: &mut Seq<Aggregate>,
) -> TypingResult
    ensures { Leaves result found.new (spec.call_star scope.now function mode found.old) }
{
    match function {
        Some(CalledFunction::Aggregate(Function::Count)) => {
            new_aggregate(scope, mode, Aggregate::CountRows, Kind::Int, found)
        }
        _ => Err(Refusal::TypeMismatch),
    }
}

#[tactic(auto, unfolding(span_operators::specs::Operators::aggregate_kind))]
fn aggregate_kind(function: Function, kind: Option<Kind>) -> Kind
    ensures { result ≡ operators.aggregate_kind function kind }
{
    match function {
        Function::Count | Function::Sum => Kind::Int,
        Function::Min | Function::Max => or_int(kind),
    }
}

/// An aggregate of its operands.
#[tactic(auto, unfolding(crate::specs::Typing::aggregate))]
pub(crate) fn aggregate(
    scope: &Scope,
    mode: Mode,
    function: Function,
    operands: Seq<Typed>,
    found: &mut Seq<Aggregate>,
) -> TypingResult
    ensures { Leaves result found.new (spec.aggregate scope.now mode function operands found.old) }
{
    let Typed { expr, kind } = operand_of(function, operands)?;
    let kind = aggregate_kind(function, kind);
    new_aggregate(scope, mode, Aggregate::Of(function, expr), kind, found)
}
