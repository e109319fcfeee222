//! Whether two expressions are the same.
ghost use Rattle.std.specs.Prelude.{◌≡◌, ◌↔◌, IsTrue};

use super::expr::{Arm, Expr, Link};
use span_pattern::pattern::PatternPart;
use sqlite_items::Boxed;

/// Whether two patterns are the same, part by part.
fn is_same_pattern(pattern: &[PatternPart], other: &[PatternPart]) -> bool
    ensures { IsTrue result ↔ (pattern.now ≡ other.now) }
{
    if pattern.len() != other.len() {
        return false;
    }
    for at in 0..other.len() {
        if pattern[at] != other[at] {
            return false;
        }
    }
    true
}

/// Whether two expressions are the same: literals, columns and operators alike. It takes no memory.
#[cycle(same)]
pub fn is_same(expr: &Expr, other: &Expr) -> bool
    ensures { IsTrue result ↔ (expr.now ≡ other.now) }
{
    match (expr, other) {
        (Expr::Literal(value), Expr::Literal(next)) => value.is_same(next),
        (Expr::Column(place), Expr::Column(next)) => place == next,
        (Expr::Negative(a), Expr::Negative(b)) => is_same(a.get(), b.get()),
        (Expr::Chain(first, links), Expr::Chain(next, others)) => {
            is_same(first.get(), next.get()) && are_same_links(links.as_slice(), others.as_slice())
        }
        (Expr::Compare(a, how, b), Expr::Compare(c, other_how, d)) => {
            how == other_how && is_same(a.get(), c.get()) && is_same(b.get(), d.get())
        }
        (Expr::Between(a, low, high), Expr::Between(b, from, to)) => {
            is_same(a.get(), b.get())
                && is_same(low.get(), from.get())
                && is_same(high.get(), to.get())
        }
        (Expr::In(a, members), Expr::In(b, others)) => {
            is_same(a.get(), b.get()) && are_same(members.as_slice(), others.as_slice())
        }
        (Expr::Like(a, pattern), Expr::Like(b, next)) => {
            is_same(a.get(), b.get()) && is_same_pattern(pattern.as_slice(), next.as_slice())
        }
        (Expr::StartsWith(a, front), Expr::StartsWith(b, next)) => {
            is_same(a.get(), b.get()) && is_same(front.get(), next.get())
        }
        (Expr::Length(a), Expr::Length(b)) => is_same(a.get(), b.get()),
        (Expr::IsNull(a), Expr::IsNull(b)) => is_same(a.get(), b.get()),
        (Expr::Not(a), Expr::Not(b)) => is_same(a.get(), b.get()),
        (Expr::And(first, more), Expr::And(next, others)) => {
            is_same(first.get(), next.get()) && are_same(more.as_slice(), others.as_slice())
        }
        (Expr::Or(first, more), Expr::Or(next, others)) => {
            is_same(first.get(), next.get()) && are_same(more.as_slice(), others.as_slice())
        }
        (Expr::Case(arms, otherwise), Expr::Case(others, next)) => {
            are_same_arms(arms.as_slice(), others.as_slice())
                && are_both_none_or_same(otherwise, next)
        }
        (Expr::Match(a, arms, otherwise), Expr::Match(b, others, next)) => {
            is_same(a.get(), b.get())
                && are_same_arms(arms.as_slice(), others.as_slice())
                && are_both_none_or_same(otherwise, next)
        }
        (Expr::Coalesce(operands), Expr::Coalesce(others)) => {
            are_same(operands.as_slice(), others.as_slice())
        }
        _ => false,
    }
}

#[cycle(same)]
fn are_same(operands: &[Expr], others: &[Expr]) -> bool
    ensures { IsTrue result ↔ (operands.now ≡ others.now) }
{
    if operands.len() != others.len() {
        return false;
    }
    for at in 0..others.len() {
        if !is_same(&operands[at], &others[at]) {
            return false;
        }
    }
    true
}

#[cycle(same)]
fn are_same_links(links: &[Link<Expr>], others: &[Link<Expr>]) -> bool
    ensures { IsTrue result ↔ (links.now ≡ others.now) }
{
    if links.len() != others.len() {
        return false;
    }
    for at in 0..others.len() {
        if links[at].operator != others[at].operator {
            return false;
        }
        if !is_same(&links[at].operand, &others[at].operand) {
            return false;
        }
    }
    true
}

#[cycle(same)]
fn are_same_arms(arms: &[Arm<Expr>], others: &[Arm<Expr>]) -> bool
    ensures { IsTrue result ↔ (arms.now ≡ others.now) }
{
    if arms.len() != others.len() {
        return false;
    }
    for at in 0..others.len() {
        if !is_same(&arms[at].condition, &others[at].condition) {
            return false;
        }
        if !is_same(&arms[at].value, &others[at].value) {
            return false;
        }
    }
    true
}

#[cycle(same)]
fn are_both_none_or_same(otherwise: &Option<Boxed<Expr>>, other: &Option<Boxed<Expr>>) -> bool
    ensures { IsTrue result ↔ (otherwise.now ≡ other.now) }
{
    match (otherwise, other) {
        (Some(value), Some(next)) => is_same(value.get(), next.get()),
        (None, None) => true,
        _ => false,
    }
}
