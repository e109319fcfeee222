//! What is lent of a slot.
use span_keycode::key::Key;
use span_shard::shard::Shard;

/// A slot in use.
#[derive(Clone, Copy, Debug)]
pub struct SlotView<'a> {
    /// The first coded root key of its range. None: there is no key before the range.
    pub lo: &'a Option<Key>,
    /// The first coded root key after the range. None: there is no key after it.
    pub hi: &'a Option<Key>,
    /// The greatest timestamp given to a transaction here.
    pub last: u64,
    /// No later prepare here gets a timestamp at or below this.
    pub floor: u64,
    /// No scan reads below this timestamp here.
    pub horizon: u64,
    /// How many versions are kept, prepared ones included.
    pub live: usize,
    /// How many transactions are prepared here. A decided one is until it is applied.
    pub prepared: usize,
    /// The versions that are kept here.
    pub shard: &'a Shard,
}
