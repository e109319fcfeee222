//! An entry of the log, whose mutations contracts alone see.
ghost use Rattle.std.specs.Prelude.{◌≡◌};

use span_mutate::mutation::CheckedMutation;
use span_value::seq::Seq;
use std::fmt;
use std::marker::Model;
use std::snapshot::Snapshot;

/// An entry of the log. Contracts see it as the machine's commit.
#[derive(Drop)]
pub struct KeptCommit {
    timestamp: u64,
    number: u64,
    owner: u64,
    /// They take no memory: no code reads them, and what they made is in the versions of the shards.
    mutations: Snapshot<Seq<CheckedMutation>>,
}

/// An entry has its three numbers and nothing else.
const _: () = prove!(size_of::<KeptCommit>() == 24);

impl Model for KeptCommit {
    ghost use Rattle.span_machine.specs.declared.transaction.Commit.{Commit};

    ghost Value = { Commit };

    ghost view = { λ a. record {
      timestamp = a.timestamp;
      number = a.number;
      owner = a.owner;
      mutations = a.mutations.value;
    } };
}

impl KeptCommit {
    /// An entry of these mutations. It takes no memory.
    pub fn new(
        timestamp: u64,
        number: u64,
        owner: u64,
        mutations: &Seq<CheckedMutation>,
    ) -> KeptCommit
        ensures { result
            ≡ record {
              timestamp = timestamp;
              number = number;
              owner = owner;
              mutations = mutations.now;
            } }
    {
        KeptCommit {
            timestamp,
            number,
            owner,
            mutations: Snapshot::of(mutations),
        }
    }

    /// Its commit timestamp.
    pub fn timestamp(&self) -> u64
        ensures { result ≡ self.now.timestamp }
    {
        self.timestamp
    }

    /// The number of its transaction.
    pub fn number(&self) -> u64
        ensures { result ≡ self.now.number }
    {
        self.number
    }

    /// The owner of its transaction.
    pub fn owner(&self) -> u64
        ensures { result ≡ self.now.owner }
    {
        self.owner
    }
}

impl fmt::Debug for KeptCommit {
    fn fmt<W: fmt::Write>(&self, f: &mut fmt::Formatter<W>) -> fmt::Result {
        f.debug_struct("KeptCommit")
            .field("timestamp", &self.timestamp)
            .field("number", &self.number)
            .field("owner", &self.owner)
            .finish_non_exhaustive()
    }
}
