//! Queries over the locks of a database: what is asked, the scans of its leaves by one worker or several, and its end.
//!
//! `span_session` puts them and the other calls of a session together.
#![tactic(auto)]

pub mod ends;
pub mod locks;
mod question;
mod scan_queue;
pub mod workers;
