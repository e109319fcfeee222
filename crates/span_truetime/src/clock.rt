//! The clock.
use super::interval::Interval;

/// A clock. It states which intervals it may give, and each reading is one of them.
pub trait Clock {
    ghost use Rattle.span_truetime.specs.declared.interval.Interval.{Interval};

    ghost may_give: { Self → Interval → Type 0 };

    fn now(&self) -> Interval
        ensures { may_give self.now result };
}
