//! Tests of public calls that no script reaches, or of which no script shows an answer: each call once, with an answer that was worked out
//! by hand.
//!
//! They are in a crate of their own since a crate with tests is proved a second time for them. What a script can show is tested by
//! scripts: tests/span_script_tests, tests/span_text_tests and tests/span_sql_tests.
#![tactic(auto)]

#[cfg(test)]
mod grammar;
#[cfg(test)]
mod keys;
#[cfg(test)]
mod nodes;
#[cfg(test)]
mod root;
#[cfg(test)]
mod rows;
#[cfg(test)]
mod run;
#[cfg(test)]
mod value;
