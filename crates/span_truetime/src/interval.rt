//! A clock's answer.
ghost use Rattle.std.specs.Prelude.{◌≡◌, ◌↔◌, ◌<◌, ◌≤◌, IsTrue, IfOk, IsErrOf, IsOk};
ghost use Rattle.span_truetime.specs.Limits.{timestamp_end};
ghost use Rattle.span_truetime.specs.declared.interval.TheConstants.{TIMESTAMP_END};

use span_value::refusal::Refusal;

/// Timestamps are whole numbers below this.
pub const TIMESTAMP_END: u64 = 1 << 62;

/// The limit is the one that definitions name.
pub fn limit_is_stated()
    ensures { TIMESTAMP_END ≡ timestamp_end }
{}

/// What a clock answers: the true time of the call is from `earliest` to `latest`, both included.
#[derive(Clone, Copy, Debug, PartialEq, Eq)]
pub struct Interval {
    pub earliest: u64,
    pub latest: u64,
    pub ghost ordered: { earliest ≤ latest },
    pub ghost in_range: { latest < timestamp_end },
}

impl Interval {
    /// The interval of these two timestamps. `BadInterval` where it ends before it begins, else `TimestampRange` where it ends
    /// after the last timestamp.
    pub fn new(earliest: u64, latest: u64) -> Result<Interval, Refusal>
        ensures ok { IfOk result (λ interval. (interval.earliest ≡ earliest) × (interval.latest ≡ latest)) }
        ensures reversed { IsErrOf result Refusal.BadInterval ↔ (latest < earliest) }
        ensures late { IsErrOf result Refusal.TimestampRange ↔ ((earliest ≤ latest) × (timestamp_end ≤ latest)) }
        ensures accepted { earliest ≤ latest → latest < timestamp_end → IsOk result }
    {
        if earliest > latest {
            return Err(Refusal::BadInterval);
        }
        if latest >= TIMESTAMP_END {
            return Err(Refusal::TimestampRange);
        }
        Ok(Interval { earliest, latest })
    }

    /// Whether the timestamp has definitely passed.
    pub fn after(self, timestamp: u64) -> bool
        ensures { IsTrue result ↔ (timestamp < self.earliest) }
    {
        timestamp < self.earliest
    }
}
