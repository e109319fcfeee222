//! How much a journal keeps at most.
ghost use Rattle.std.specs.Prelude.{◌≡◌};
ghost use Rattle.span_journal.specs.declared.limits.TheConstants.{MOST_TRANSACTIONS, MOST_COMMITS, MOST_QUERIES, NUMBER_END};
ghost use Rattle.span_machine.specs.Limits.{most_transactions, most_commits, most_queries, most_slots, number_end};
ghost use Rattle.span_transactions.specs.declared.slots.TheConstants.{MOST_SLOTS};

use span_transactions::slots::MOST_SLOTS;

/// How many transactions may be open at once.
pub const MOST_TRANSACTIONS: usize = 256;

/// How many commits and undecided transactions there may be together.
pub const MOST_COMMITS: usize = 65536;

/// How many queries may be open at once.
pub const MOST_QUERIES: usize = 64;

/// Numbers of transactions and of queries are below this.
pub const NUMBER_END: u64 = 1 << 63;

/// The limits are those that the machine's definition names.
pub fn limits_are_stated()
    ensures transactions { MOST_TRANSACTIONS ≡ most_transactions }
    ensures commits { MOST_COMMITS ≡ most_commits }
    ensures queries { MOST_QUERIES ≡ most_queries }
    ensures slots { MOST_SLOTS ≡ most_slots }
    ensures numbers { NUMBER_END ≡ number_end }
{}
