//! The core: every step of the machine, taken by a journal and the shards of the slots, and whole runs of steps.
//!
//! The contract of [`run::run`] is the headline: whatever the steps, the replies are the machine's, and every answer has exactly the
//! rows that its query text means on the tables of all the commits of the run at its timestamp or earlier.
#![tactic(auto)]

pub mod database;
mod explain;
mod replies;
pub mod run;
pub mod slot;

pub use span_checking::transaction::Transaction;
pub use span_machine::step::{Reply, Step, Verdict};
pub use span_mutate::mutation::{CheckedMutation, Mutation, MutationKind, NamedValue};
pub use span_params::params::{Parameter, Params};
pub use span_schema::schema::Schema;
pub use span_schema::table::{Column, KeyColumn, Parent, Table};
pub use span_truetime::bound::Bound;
pub use span_truetime::interval::Interval;
pub use span_value::refusal::Refusal;
pub use span_value::seq::Seq;
pub use span_value::text::Text;
pub use span_value::value::{ColumnType, Kind, Row, Value};
