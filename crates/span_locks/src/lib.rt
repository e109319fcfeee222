//! What lies under the locks of a database that threads share: the journal and the slots, beside one table that ties them to the sessions
//! (`span_board`). The locks are `span_scans`'s.
//!
//! What ties a slot to the log (`IsWhole`) is an invariant of the locked journal alone: it speaks of the versions that the journal's seat
//! knows.
#![tactic(auto)]

pub mod journal;
pub mod slot;
