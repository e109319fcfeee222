//! Comparisons with their sides exchanged.
ghost use Rattle.std.specs.Prelude.{◌≡◌};
ghost use Rattle.span_celltests.specs.CellTests as spec;

use span_expr::expr::Comparison;

/// The comparison with its sides exchanged.
pub(crate) fn exchange_sides(comparison: Comparison) -> Comparison
    ensures { result ≡ spec.exchanged comparison }
{
    match comparison {
        Comparison::Equal => Comparison::Equal,
        Comparison::NotEqual => Comparison::NotEqual,
        Comparison::Less => Comparison::Greater,
        Comparison::AtMost => Comparison::AtLeast,
        Comparison::Greater => Comparison::Less,
        Comparison::AtLeast => Comparison::AtMost,
    }
}
