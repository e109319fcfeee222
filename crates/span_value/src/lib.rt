//! Values, the lists and strings inside them, and refusals: the types that every other crate uses.
#![tactic(auto)]

pub mod cell;
pub mod order;
pub mod owned;
pub mod refusal;
pub mod seq;
mod short_text;
pub mod text;
pub mod truth;
pub mod value;
