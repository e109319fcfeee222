//! Calls by several threads, all of which the calling thread starts, one after another.
//!
//! The kit's calls of these names halve the work at each step, so that a thread that was started starts another while its own starter does so too.
//! Linux then often puts both new threads on one processor, and leaves another one idle for as long as a query takes. Here no two threads are
//! started at the same time.
#![tactic(auto)]

pub mod calls;
pub mod changes;
