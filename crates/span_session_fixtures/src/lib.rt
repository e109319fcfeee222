//! What tests of sessions share: clocks and gates, tables of users, how a database is opened, calls, and what is expected of an answer.
#![tactic(auto)]

pub mod calls;
pub mod clock;
pub mod expect;
pub mod opening;
pub mod users;
