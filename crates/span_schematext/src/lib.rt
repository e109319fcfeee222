//! The parser of schemas: from a schema text to its tables.
#![tactic(auto)]

mod declaration;
pub mod text;
