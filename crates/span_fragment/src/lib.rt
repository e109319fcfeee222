//! What one leaf of a plan gives on a part of its range: the rows of its tables there, joined and filtered where they are stored.
#![tactic(auto)]

mod directory;
mod front;
mod joined;
mod kept;
pub mod leaf_rows;
mod lent;
pub mod piece;
mod rooted;
pub mod run;
mod short;
