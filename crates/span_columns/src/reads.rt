//! Which columns of its FROM a block reads: what an expression does not read is never looked at in a leaf's rows.
ghost use Rattle.std.specs.Prelude.{◌≡◌, ◌≤◌, length, map};
ghost use Rattle.std.specs.List.{list_all};
ghost use Rattle.std.specs.Option.{option_map};
ghost use Rattle.span_expr.specs.Meaning.{or_true, is_total_arm};
ghost use Rattle.span_expr.specs.Places.{link_operand, reads_only, reads_link, reads_arm};
ghost use Rattle.span_columns.specs.Reads as spec;

use span_expr::expr::{Arm, Expr, Link};
use span_query::query::{Aggregate, Block, BoundQuery, Grouping, Join};
use sqlite_items::Boxed;

/// Whether an expression does not read the column at a place. It takes no memory.
#[cycle(avoids)]
fn avoids(expr: &Expr, place: usize) -> bool
    ensures { result ≡ reads_only (spec.is_not place) expr.now }
{
    match expr {
        Expr::Literal(_) => true,
        Expr::Column(column) => is_not(place, *column),
        Expr::Negative(a) => avoids(a.get(), place),
        Expr::Chain(first, links) => avoids(first.get(), place)
            && links_avoid(links.as_slice(), place),
        Expr::Compare(a, _, b) => avoids(a.get(), place) && avoids(b.get(), place),
        Expr::Between(a, from, to) => {
            avoids(a.get(), place) && avoids(from.get(), place) && avoids(to.get(), place)
        }
        Expr::In(a, members) => avoids(a.get(), place) && all_avoid(members.as_slice(), place),
        Expr::Like(a, _) => avoids(a.get(), place),
        Expr::StartsWith(a, front) => avoids(a.get(), place) && avoids(front.get(), place),
        Expr::Length(a) => avoids(a.get(), place),
        Expr::IsNull(a) => avoids(a.get(), place),
        Expr::Not(a) => avoids(a.get(), place),
        Expr::And(first, more) => avoids(first.get(), place) && all_avoid(more.as_slice(), place),
        Expr::Or(first, more) => avoids(first.get(), place) && all_avoid(more.as_slice(), place),
        Expr::Case(arms, otherwise) => {
            arms_avoid(arms.as_slice(), place) && none_or_avoids(otherwise, place)
        }
        Expr::Match(a, arms, otherwise) => {
            avoids(a.get(), place)
                && arms_avoid(arms.as_slice(), place)
                && none_or_avoids(otherwise, place)
        }
        Expr::Coalesce(operands) => all_avoid(operands.as_slice(), place),
    }
}

fn is_not(place: usize, column: usize) -> bool
    ensures { result ≡ spec.is_not place column }
{
    column != place
}

#[cycle(avoids)]
fn all_avoid(operands: &[Expr], place: usize) -> bool
    ensures { result ≡ list_all (λ b. b) (map (reads_only (spec.is_not place)) operands.now) }
{
    for operand in operands {
        if !avoids(operand, place) {
            return false;
        }
    }
    true
}

#[cycle(avoids)]
fn links_avoid(links: &[Link<Expr>], place: usize) -> bool
    ensures { result ≡ list_all link_operand (map (reads_link (spec.is_not place)) links.now) }
{
    for link in links {
        if !avoids(&link.operand, place) {
            return false;
        }
    }
    true
}

#[cycle(avoids)]
fn arms_avoid(arms: &[Arm<Expr>], place: usize) -> bool
    ensures { result ≡ list_all is_total_arm (map (reads_arm (spec.is_not place)) arms.now) }
{
    for arm in arms {
        if !avoids(&arm.condition, place) {
            return false;
        }
        if !avoids(&arm.value, place) {
            return false;
        }
    }
    true
}

#[cycle(avoids)]
fn none_or_avoids(otherwise: &Option<Boxed<Expr>>, place: usize) -> bool
    ensures { result ≡ or_true (option_map (reads_only (spec.is_not place)) otherwise.now) }
{
    match otherwise {
        Some(value) => avoids(value.get(), place),
        None => true,
    }
}

fn condition_avoids(condition: &Option<Expr>, place: usize) -> bool
    ensures { result ≡ spec.condition_reads (spec.is_not place) condition.now }
{
    match condition {
        Some(condition) => avoids(condition, place),
        None => true,
    }
}

fn ons_avoid(joins: &[Join<BoundQuery>], place: usize) -> bool
    ensures { result ≡ list_all (spec.on_reads (spec.is_not place)) joins.now }
{
    joins.iter().all(|join| avoids(&join.on, place))
}

fn outputs_avoid(outputs: &[Expr], place: usize) -> bool
    ensures { result ≡ list_all (reads_only (spec.is_not place)) outputs.now }
{
    outputs.iter().all(|output| avoids(output, place))
}

fn keys_avoid(keys: &[usize], place: usize) -> bool
    ensures { result ≡ list_all (spec.is_not place) keys.now }
{
    keys.iter().all(|key| is_not(place, *key))
}

fn aggregate_avoids(aggregate: &Aggregate, place: usize) -> bool
    ensures { result ≡ spec.aggregate_reads (spec.is_not place) aggregate.now }
{
    match aggregate {
        Aggregate::CountRows => true,
        Aggregate::Of(_, operand) => avoids(operand, place),
    }
}

fn aggregates_avoid(aggregates: &[Aggregate], place: usize) -> bool
    ensures { result ≡ list_all (spec.aggregate_reads (spec.is_not place)) aggregates.now }
{
    aggregates
        .iter()
        .all(|aggregate| aggregate_avoids(aggregate, place))
}

/// Whether neither the keys and aggregates of a block nor, where it is not grouped, its select list reads the column at a place.
fn selection_avoids(grouping: &Option<Grouping>, outputs: &[Expr], place: usize) -> bool
    ensures { result ≡ spec.selection_reads (spec.is_not place) grouping.now outputs.now }
{
    match grouping {
        Some(grouping) => {
            keys_avoid(grouping.keys.as_slice(), place)
                && aggregates_avoid(grouping.aggregates.as_slice(), place)
        }
        None => outputs_avoid(outputs, place),
    }
}

/// Whether the WHERE that is left of a block above a leaf, which takes this many joins, does not read the column at a place.
fn filter_avoids(block: &Block<BoundQuery>, count: usize, place: usize) -> bool
    ensures { result ≡ spec.condition_reads (spec.is_not place) (spec.filter_above block.now count) }
{
    if count == block.joins.len() {
        return true;
    }
    condition_avoids(&block.filter, place)
}

/// Whether what is left of a block above a leaf, which takes this many joins, reads the column at a place of its FROM.
pub fn is_read_above(block: &Block<BoundQuery>, count: usize, place: usize) -> bool
    requires { count ≤ length block.now.joins }
    ensures { result ≡ spec.is_read (spec.block_above block.now count) place }
{
    let joins = block.joins.as_slice();
    let is_avoided = ons_avoid(&joins[count..], place)
        && filter_avoids(block, count, place)
        && selection_avoids(&block.grouping, block.outputs.as_slice(), place);
    !is_avoided
}

/// Whether a block reads the column at a place of its FROM.
pub fn is_read(block: &Block<BoundQuery>, place: usize) -> bool
    ensures { result ≡ spec.is_read block.now place }
{
    let is_avoided = ons_avoid(block.joins.as_slice(), place)
        && condition_avoids(&block.filter, place)
        && selection_avoids(&block.grouping, block.outputs.as_slice(), place);
    !is_avoided
}
