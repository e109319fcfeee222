//! An open transaction that can be prepared and committed without memory.
ghost use Rattle.std.specs.Prelude.{◌≡◌, ◌<◌, [], true, false, filter, not, ◌==◌, IfOk, vec_capacity};
ghost use Rattle.span_machine.specs.Limits.{most_slots};
ghost use Rattle.span_machine.specs.Machine.{with_decision, is_undecided, is_prepared_at, commit_of, add_prepared, without_prepared};

use super::commit::KeptCommit;
use super::slots::MOST_SLOTS;
use span_machine::transaction::{Decision, Prepared};
use span_mutate::mutation::CheckedMutation;
use span_value::seq::Seq;
use std::alloc::{AllocError, Global};
use std::marker::Model;

/// An open transaction.
#[derive(Debug, Drop)]
pub struct KeptTransaction {
    owner: u64,
    number: u64,
    mutations: Seq<CheckedMutation>,
    decision: Decision,
    /// Where it is prepared. It has reserved capacity for every slot that there may be.
    prepared: Vec<Prepared>,
}

impl Model for KeptTransaction {
    ghost use Rattle.std.specs.Prelude.{◌≤◌, vec_capacity};
    ghost use Rattle.span_machine.specs.Limits.{most_slots};
    ghost use Rattle.span_machine.specs.declared.transaction.OpenTransaction.{OpenTransaction};
    ghost use Rattle.span_transactions.specs.Places.{AreOfSlots};

    ghost Value = { OpenTransaction };

    ghost view = { λ a. record {
      owner = a.owner;
      number = a.number;
      mutations = a.mutations;
      decision = a.decision;
      prepared = a.prepared.items;
    } };

    ghost invariant = { λ a. record {
      room : most_slots ≤ vec_capacity a.prepared;
      slots : AreOfSlots a.prepared.items;
    } };
}

impl KeptTransaction {
    /// A transaction that is begun.
    pub fn new(
        alloc: Global,
        owner: u64,
        number: u64,
        mutations: Seq<CheckedMutation>,
    ) -> Result<KeptTransaction, AllocError>
        ensures { IfOk result
            (λ t.
            t
            ≡ record {
              owner = owner;
              number = number;
              mutations = mutations;
              decision = Decision.Undecided;
              prepared = [];
            }) }
    {
        let prepared = Vec::with_capacity(alloc, MOST_SLOTS)?;
        Ok(KeptTransaction {
            owner,
            number,
            mutations,
            decision: Decision::Undecided,
            prepared,
        })
    }

    /// Commits at the timestamp, and gives the log's entry. It takes no memory.
    pub fn commit(&mut self, timestamp: u64) -> KeptCommit
        requires { is_undecided self.old ≡ true }
        ensures commit { result ≡ commit_of timestamp self.old }
        ensures after { self.new ≡ with_decision (Decision.Committed timestamp) self.old }
    {
        self.decision = Decision::Committed(timestamp);
        KeptCommit::new(timestamp, self.number, self.owner, &self.mutations)
    }

    /// Aborts. It takes no memory.
    pub fn abort(&mut self)
        ensures { self.new ≡ with_decision Decision.Aborted self.old }
    {
        self.decision = Decision::Aborted;
    }

    /// The owner that began it.
    pub fn owner(&self) -> u64
        ensures { result ≡ self.now.owner }
    {
        self.owner
    }

    /// Its number.
    pub fn number(&self) -> u64
        ensures { result ≡ self.now.number }
    {
        self.number
    }

    /// The decision on it.
    pub fn decision(&self) -> Decision
        ensures { result ≡ self.now.decision }
    {
        self.decision
    }

    /// Whether nothing is decided yet.
    pub fn is_undecided(&self) -> bool
        ensures { result ≡ is_undecided self.now }
    {
        matches!(self.decision, Decision::Undecided)
    }

    /// Where it is prepared.
    pub fn preparations(&self) -> &[Prepared]
        ensures { result.now ≡ self.now.prepared }
    {
        self.prepared.as_slice()
    }

    /// Its mutations.
    pub fn mutations(&self) -> &[CheckedMutation]
        ensures { result.now ≡ self.now.mutations }
    {
        self.mutations.as_slice()
    }

    /// Notes where it is prepared. It takes no memory.
    pub fn add_prepared(&mut self, prepared: Prepared)
        requires slot { prepared.slot < most_slots }
        requires apart { is_prepared_at prepared.slot self.old ≡ false }
        ensures { self.new ≡ add_prepared prepared.slot prepared.timestamp self.old }
    {
        self.prepared.push(prepared).unwrap();
    }

    /// Notes that it is prepared at the slot no more. It takes no memory.
    pub fn remove_prepared(&mut self, slot: usize)
        ensures { self.new ≡ without_prepared slot self.old }
    {
        keep_other_slots(&mut self.prepared, slot);
    }
}

/// Keeps what is prepared at other slots.
fn keep_other_slots(prepared: &mut Vec<Prepared>, slot: usize)
    ensures items { prepared.new.items ≡ filter (λ p. not (p.slot == slot)) prepared.old.items }
    ensures capacity { vec_capacity prepared.new ≡ vec_capacity prepared.old }
{
    prepared.retain(|p| p.slot != slot);
}
