//! Which blocks are grouped: those with GROUP BY, with HAVING, or where an aggregate is called.
ghost use Rattle.std.specs.Prelude.{◌≡◌, map};
ghost use Rattle.std.specs.List.{list_any};
ghost use Rattle.std.specs.Option.{option_map};
ghost use Rattle.span_blocks.specs.Blocks.{ons_of};
ghost use Rattle.span_blocks.specs.Aggregating as spec;

use span_operators::function::{CalledFunction, function_named};
use span_operators::typed::Mode;
use span_parser::tree::{Join, Output};
use span_trees::tree::{Arm, Column, Expr, Link, Spelling};
use sqlite_items::Boxed;

/// Whether a name is that of an aggregate.
fn names_aggregate(name: &Spelling) -> bool
    ensures { result ≡ spec.names_aggregate name.now }
{
    match function_named(name.text.as_str()) {
        Some(CalledFunction::Aggregate(_)) => true,
        _ => false,
    }
}

/// Whether an aggregate is called somewhere in a tree.
#[cycle(calls)]
fn calls_aggregate(tree: &Expr) -> bool
    ensures { result ≡ spec.calls_aggregate tree.now }
{
    match tree {
        Expr::Integer(_) => false,
        Expr::Str(_) => false,
        Expr::Bytes(_) => false,
        Expr::Truth(_, _) => false,
        Expr::Null(_) => false,
        Expr::Parameter(_) => false,
        Expr::Column(_) => false,
        Expr::CallStar(name) => names_aggregate(name),
        Expr::Call(name, operands) => names_aggregate(name) || some_calls(operands.as_slice()),
        Expr::Case(operand, arms, otherwise) => {
            boxed_calls(operand) || some_arm_calls(arms.as_slice()) || boxed_calls(otherwise)
        }
        Expr::Negative(a) => calls_aggregate(a.get()),
        Expr::Chain(first, links) => {
            calls_aggregate(first.get()) || some_link_calls(links.as_slice())
        }
        Expr::Compare(a, _, b) => calls_aggregate(a.get()) || calls_aggregate(b.get()),
        Expr::IsNull(a) => calls_aggregate(a.get()),
        Expr::Like(a, _) => calls_aggregate(a.get()),
        Expr::Between(a, low, high) => {
            calls_aggregate(a.get()) || calls_aggregate(low.get()) || calls_aggregate(high.get())
        }
        Expr::In(a, members) => calls_aggregate(a.get()) || some_calls(members.as_slice()),
        Expr::Not(a) => calls_aggregate(a.get()),
        Expr::And(first, more) => calls_aggregate(first.get()) || some_calls(more.as_slice()),
        Expr::Or(first, more) => calls_aggregate(first.get()) || some_calls(more.as_slice()),
    }
}

#[cycle(calls)]
fn some_calls(trees: &[Expr]) -> bool
    ensures { result ≡ spec.some_true (map spec.calls_aggregate trees.now) }
{
    for tree in trees {
        if calls_aggregate(tree) {
            return true;
        }
    }
    false
}

#[cycle(calls)]
fn some_arm_calls(arms: &[Arm]) -> bool
    ensures { result ≡ spec.some_true (map spec.arm_aggregates arms.now) }
{
    for arm in arms {
        if calls_aggregate(&arm.condition) {
            return true;
        }
        if calls_aggregate(&arm.value) {
            return true;
        }
    }
    false
}

#[cycle(calls)]
fn some_link_calls(links: &[Link]) -> bool
    ensures { result ≡ spec.some_true (map spec.link_aggregates links.now) }
{
    for link in links {
        if calls_aggregate(&link.operand) {
            return true;
        }
    }
    false
}

#[cycle(calls)]
fn boxed_calls(tree: &Option<Boxed<Expr>>) -> bool
    ensures { result ≡ spec.or_false (option_map spec.calls_aggregate tree.now) }
{
    match tree {
        Some(tree) => calls_aggregate(tree.get()),
        None => false,
    }
}

fn maybe_calls(tree: &Option<Expr>) -> bool
    ensures { result ≡ spec.maybe_calls tree.now }
{
    match tree {
        Some(tree) => calls_aggregate(tree),
        None => false,
    }
}

fn output_calls(output: &Output) -> bool
    ensures { result ≡ spec.output_calls output.now }
{
    match output {
        Output::All => false,
        Output::AllOf(_) => false,
        Output::Value(tree, _) => calls_aggregate(tree),
    }
}

fn outputs_call(outputs: &[Output]) -> bool
    ensures { result ≡ list_any spec.output_calls outputs.now }
{
    outputs.iter().any(|output| output_calls(output))
}

fn joins_call(joins: &[Join]) -> bool
    ensures { result ≡ list_any spec.calls_aggregate (ons_of joins.now) }
{
    for join in joins {
        if calls_aggregate(&join.on) {
            return true;
        }
    }
    false
}

/// Whether a block is grouped, by its GROUP BY, HAVING, WHERE, select list and ONs.
pub(crate) fn is_grouped(
    groups: &[Column],
    having: &Option<Expr>,
    filter: &Option<Expr>,
    outputs: &[Output],
    joins: &[Join],
) -> bool
    ensures { result ≡ spec.is_grouped groups.now having.now filter.now outputs.now (ons_of joins.now) }
{
    !groups.is_empty()
        || having.is_some()
        || maybe_calls(filter)
        || outputs_call(outputs)
        || joins_call(joins)
}

/// Which rows the select list of a block is evaluated at.
pub(crate) fn mode_of(is_grouped: bool) -> Mode
    ensures { result ≡ spec.mode_of is_grouped }
{
    if is_grouped { Mode::Groups } else { Mode::Rows }
}
