//! The journal's transactions, its log of commits, and the states of the slots.
//!
//! `span_journal` puts them and the open queries together.
#![tactic(auto)]

pub mod choice;
pub mod commit;
pub mod conflict;
pub mod slots;
pub mod transaction;
pub mod transactions;
