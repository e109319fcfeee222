//! Which columns of a row an expression reads.
ghost use Rattle.std.specs.Prelude.{◌≡◌, map};
ghost use Rattle.std.specs.List.{list_all};
ghost use Rattle.std.specs.Option.{option_map};
ghost use Rattle.span_expr.specs.Meaning.{or_true, is_total_arm};
ghost use Rattle.span_expr.specs.Places as spec;

use super::expr::{Arm, Expr, Link};
use sqlite_items::Boxed;

/// Whether each column that an expression reads is at one of the places from `low` on and before `high`. It takes no memory.
#[cycle(reads)]
pub fn reads_within(expr: &Expr, low: usize, high: usize) -> bool
    ensures { result ≡ spec.reads_only (spec.is_in low high) expr.now }
{
    match expr {
        Expr::Literal(_) => true,
        Expr::Column(place) => is_in(low, high, *place),
        Expr::Negative(a) => reads_within(a.get(), low, high),
        Expr::Chain(first, links) => {
            reads_within(first.get(), low, high) && links_read_within(links.as_slice(), low, high)
        }
        Expr::Compare(a, _, b) => {
            reads_within(a.get(), low, high) && reads_within(b.get(), low, high)
        }
        Expr::Between(a, from, to) => {
            reads_within(a.get(), low, high)
                && reads_within(from.get(), low, high)
                && reads_within(to.get(), low, high)
        }
        Expr::In(a, members) => {
            reads_within(a.get(), low, high) && all_read_within(members.as_slice(), low, high)
        }
        Expr::Like(a, _) => reads_within(a.get(), low, high),
        Expr::StartsWith(a, front) => {
            reads_within(a.get(), low, high) && reads_within(front.get(), low, high)
        }
        Expr::Length(a) => reads_within(a.get(), low, high),
        Expr::IsNull(a) => reads_within(a.get(), low, high),
        Expr::Not(a) => reads_within(a.get(), low, high),
        Expr::And(first, more) => {
            reads_within(first.get(), low, high) && all_read_within(more.as_slice(), low, high)
        }
        Expr::Or(first, more) => {
            reads_within(first.get(), low, high) && all_read_within(more.as_slice(), low, high)
        }
        Expr::Case(arms, otherwise) => {
            arms_read_within(arms.as_slice(), low, high)
                && none_or_reads_within(otherwise, low, high)
        }
        Expr::Match(a, arms, otherwise) => {
            reads_within(a.get(), low, high)
                && arms_read_within(arms.as_slice(), low, high)
                && none_or_reads_within(otherwise, low, high)
        }
        Expr::Coalesce(operands) => all_read_within(operands.as_slice(), low, high),
    }
}

fn is_in(low: usize, high: usize, place: usize) -> bool
    ensures { result ≡ spec.is_in low high place }
{
    low <= place && place < high
}

#[cycle(reads)]
fn all_read_within(operands: &[Expr], low: usize, high: usize) -> bool
    ensures { result ≡ list_all (λ b. b) (map (spec.reads_only (spec.is_in low high)) operands.now) }
{
    for operand in operands {
        if !reads_within(operand, low, high) {
            return false;
        }
    }
    true
}

#[cycle(reads)]
fn links_read_within(links: &[Link<Expr>], low: usize, high: usize) -> bool
    ensures { result ≡ list_all spec.link_operand (map (spec.reads_link (spec.is_in low high)) links.now) }
{
    for link in links {
        if !reads_within(&link.operand, low, high) {
            return false;
        }
    }
    true
}

#[cycle(reads)]
fn arms_read_within(arms: &[Arm<Expr>], low: usize, high: usize) -> bool
    ensures { result ≡ list_all is_total_arm (map (spec.reads_arm (spec.is_in low high)) arms.now) }
{
    for arm in arms {
        if !reads_within(&arm.condition, low, high) {
            return false;
        }
        if !reads_within(&arm.value, low, high) {
            return false;
        }
    }
    true
}

#[cycle(reads)]
fn none_or_reads_within(otherwise: &Option<Boxed<Expr>>, low: usize, high: usize) -> bool
    ensures { result ≡ or_true (option_map (spec.reads_only (spec.is_in low high)) otherwise.now) }
{
    match otherwise {
        Some(value) => reads_within(value.get(), low, high),
        None => true,
    }
}
