//! The queue of one query's scans, which its workers share under a lock. It is taken after a slot's lock and before the journal's.
ghost use Rattle.std.specs.Prelude.{◌≡◌, ◌≢◌, ◌⊎◌, ◌+◌, ◌≤◌, ◌<◌, true, false, Some, None, IfSome, IfErr, MatchOption, MatchResult};
ghost use Rattle.span_locks.specs.Refusing.{IsUnscanned};

use span_board::board::Naming;
use span_value::refusal::Refusal;
use std::marker::{Model, PhantomData};

/// What no worker has taken yet: each leaf of a plan in each of some slots, leaf by leaf, so that workers beside each other mostly have
/// different slots. After a refusal nothing is taken.
#[derive(Drop)]
pub(crate) struct ScanQueue<J: Naming> {
    // The next place of a leaf, and the number of leaves.
    place: usize,
    leaves: usize,
    // The next slot, the first one and the end of them.
    number: usize,
    from: usize,
    to: usize,
    // The first refusal of a scan.
    refused: Option<Refusal>,
    of: PhantomData<J>,
}

impl<J: Naming> Model for ScanQueue<J> {
    ghost use Rattle.std.specs.Prelude.{IfSome};
    ghost use Rattle.span_locks.specs.Refusing.{IsUnscanned, Scans};

    ghost Value = { Scans };

    ghost view = { λ q. record {
      place = q.place;
      leaves = q.leaves;
      number = q.number;
      first = q.from;
      end = q.to;
      refused = q.refused;
    } };

    ghost invariant = { λ q. IfSome q.refused (IsUnscanned J.schema) };
}

impl<J: Naming> ScanQueue<J> {
    /// This many leaves, in the slots from one number on to another.
    pub(crate) fn new(leaves: usize, from: usize, to: usize) -> ScanQueue<J>
        ensures leaves { (result.place ≡ 0) × (result.leaves ≡ leaves) }
        ensures slots { (result.number ≡ from) × (result.first ≡ from) × (result.end ≡ to) }
        ensures refused { result.refused ≡ None }
    {
        ScanQueue {
            place: 0,
            leaves,
            number: from,
            from,
            to,
            refused: None,
            of: PhantomData,
        }
    }

    /// The place of the next leaf and the number of the slot where it is to be scanned. None where nothing is left, or a scan was refused.
    pub(crate) fn take(&mut self) -> Option<(usize, usize)>
        ensures here { self.old.number < self.old.end → IfSome result (λ t. t ≡ (self.old.place, self.old.number)) }
        ensures next { self.old.end ≤ self.old.number → IfSome result (λ t. t ≡ (self.old.place + 1, self.old.first)) }
        ensures within { IfSome result
            (λ t. (t.0 < self.old.leaves) × (t.1 < self.old.end) × (self.old.refused ≡ None)) }
        ensures taken { IfSome result (λ t. (self.new.place ≡ t.0) × (self.new.number ≡ t.1 + 1)) }
        ensures none { result ≡ None
            → (self.old.refused ≢ None)
            ⊎ (self.old.leaves ≤ self.old.place)
            ⊎ ((self.old.end ≤ self.old.number) × (self.old.leaves ≤ self.old.place + 1))
            ⊎ (self.old.end ≤ self.old.first) }
        ensures kept { (self.new.leaves ≡ self.old.leaves) × (self.new.first ≡ self.old.first)
            × (self.new.end ≡ self.old.end) }
        ensures refused { self.new.refused ≡ self.old.refused }
    {
        if self.is_refused() {
            return None;
        }
        if self.number >= self.to {
            self.place = self.place.saturating_add(1);
            self.number = self.from;
        }
        if self.place >= self.leaves {
            return None;
        }
        if self.number >= self.to {
            return None;
        }
        let taken = (self.place, self.number);
        self.number += 1;
        Some(taken)
    }

    /// Whether a scan was refused.
    pub(crate) fn is_refused(&self) -> bool
        ensures { MatchOption self.now.refused (result ≡ false) (λ _. result ≡ true) }
    {
        self.refused.is_some()
    }

    /// Notes the refusal of a scan, if it is the first one.
    pub(crate) fn refuse(&mut self, why: Refusal)
        requires { IsUnscanned J.schema why }
        ensures refused { MatchOption self.old.refused (self.new.refused ≡ Some why)
            (λ first. self.new.refused ≡ Some first) }
        ensures next { (self.new.place ≡ self.old.place) × (self.new.number ≡ self.old.number) }
        ensures kept { (self.new.leaves ≡ self.old.leaves) × (self.new.first ≡ self.old.first)
            × (self.new.end ≡ self.old.end) }
    {
        if self.refused.is_none() {
            self.refused = Some(why);
        }
    }

    /// The first refusal.
    pub(crate) fn end(self) -> Result<(), Refusal>
        ensures first { MatchResult result (λ _. self.refused ≡ None) (λ why. self.refused ≡ Some why) }
        ensures refused { IfErr result (IsUnscanned J.schema) }
    {
        match self.refused {
            Some(why) => Err(why),
            None => Ok(()),
        }
    }
}
