//! The state of a slot in the journal: its range of keys, and its timestamps.
use span_keycode::key::Key;

/// A slot in use: the range of the coded root keys whose directories it has, and its timestamps.
#[derive(Debug, Drop, PartialEq, Eq)]
pub struct SlotState {
    /// The first coded root key of the range. None: there is no key before the range.
    pub lo: Option<Key>,
    /// The first coded root key after the range. None: there is no key after it.
    pub hi: Option<Key>,
    /// The greatest timestamp given to a transaction here.
    pub last: u64,
    /// No later prepare here gets a timestamp at or below this.
    pub floor: u64,
    /// No scan reads below this here: the versions for it may be gone.
    pub horizon: u64,
}
