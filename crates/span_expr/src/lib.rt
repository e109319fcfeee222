//! Typed expressions: what they mean at a row, and what a planner asks of them. `span_eval` evaluates them.
#![tactic(auto)]

pub mod cell;
pub mod condition;
pub mod conjunct;
pub mod copy;
pub mod expr;
pub mod form;
pub mod rank;
pub mod reads;
pub mod same;
pub mod total;
