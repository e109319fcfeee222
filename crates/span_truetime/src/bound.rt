//! The timestamp that a query reads at.
ghost use Rattle.std.specs.Prelude.{◌≡◌, ◌<◌, false, true, IfOk, IfErr};
ghost use Rattle.span_truetime.specs.Limits.{timestamp_end};
ghost use Rattle.span_truetime.specs.Time.{timestamp_of, is_out_of_range};

use super::interval::{Interval, TIMESTAMP_END};
use span_value::refusal::Refusal;

/// Which timestamp a query reads at.
#[derive(Clone, Copy, Debug, PartialEq, Eq)]
pub enum Bound {
    /// The latest time that it may be now: everything that is committed before the query begins is seen.
    Strong,
    /// This timestamp.
    At(u64),
    /// This much before the latest time that it may be now.
    Staleness(u64),
}

/// The timestamp that the bound asks for. `TimestampRange` where it is none: at or after the end of timestamps, or, for a staleness
/// that reaches back too far, before 0.
pub fn choose(bound: Bound, interval: Interval) -> Result<u64, Refusal>
    ensures chosen { IfOk result (λ s. (s ≡ timestamp_of bound interval) × (s < timestamp_end)) }
    ensures accepted { IfOk result (λ s. is_out_of_range bound interval ≡ false) }
    ensures refused { IfErr result (λ why. (why ≡ Refusal.TimestampRange) × (is_out_of_range bound interval ≡ true)) }
{
    let s = match bound {
        Bound::Strong => Some(interval.latest),
        Bound::At(s) => Some(s),
        Bound::Staleness(d) => interval.latest.checked_sub(d),
    };
    match s {
        Some(s) if s < TIMESTAMP_END => Ok(s),
        _ => Err(Refusal::TimestampRange),
    }
}
