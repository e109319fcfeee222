//! Time as an interval, and the timestamp that a query reads at.
//!
//! A clock answers an interval that contains the true time of the call. No answer of the engine rests on a clock being honest:
//! only the order between transactions in true time does.
#![tactic(auto)]

pub mod bound;
pub mod clock;
pub mod interval;
