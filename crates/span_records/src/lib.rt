//! Records: the fields of a record, the mutation that they make, and rows as records.
#![tactic(auto)]

pub mod layout;
pub mod record_reader;
pub mod record_writer;
