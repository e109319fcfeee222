//! What the threads of a database share: one table of words, its rule, and the seats at it; and a session, which has a seat of its own.
//!
//! The rule (`specs/Rule.antt`) is over one word, the length of the log, and over seats: the journal's knows the log and what each slot
//! is to have, a slot's knows what it has, a session's the commits that it has seen and made.
#![tactic(auto)]

pub mod begun;
pub mod board;
pub mod places;
pub mod question;
pub mod same;
pub mod seats;
pub mod session;
