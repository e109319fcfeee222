//! Coded keys: bytes whose order is the order of keys.
#![tactic(auto)]

pub mod column;
pub mod compare;
pub mod decode;
pub mod encode;
pub mod key;
pub mod laws;
pub mod length;
pub mod parts;
pub mod range;
pub mod root;
pub mod root_order;
pub mod table;
mod text;
mod tuple;
pub mod value;
