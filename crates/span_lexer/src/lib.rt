//! The tokens of query and schema texts, with their places.
#![tactic(auto)]

pub mod character;
pub mod lexer;
pub mod literal;
pub mod literal_laws;
pub mod literal_value;
pub mod token;
pub mod token_laws;
pub mod word;
