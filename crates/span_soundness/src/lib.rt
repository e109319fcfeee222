//! What the binder's types mean: an expression of a type has, at each row of the types of its columns, a value of that type, NULL or
//! the fault. What the binder makes can be planned.
#![tactic(auto)]

pub mod laws;
