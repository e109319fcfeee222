//! What the program `spansql` does: its command line (`words`), the answers to a script over a new database (`answer`), why it ends early
//! (`fault`), and what goes to standard error where it is asked for (`explanations`, `progress`). `docs/FORMATS.md` has scripts, answers and
//! statuses.
#![tactic(auto)]

pub mod answer;
pub mod explanations;
pub mod fault;
pub mod progress;
pub mod words;
