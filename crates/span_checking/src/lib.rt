//! The check of mutations against the schema, one by one or in batches, and the transactions that it makes of them.
#![tactic(auto)]

mod batch_check;
mod check;
mod column;
mod named_batch;
mod named_columns;
pub mod root_key;
pub mod transaction;
