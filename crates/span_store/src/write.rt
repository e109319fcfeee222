//! The row to write at a key.
use span_arena::token::NO_CHAIN;
use span_keycode::key::Key;
use span_keyindex::near::SEARCH_LANES;
use span_value::seq::Seq;
use std::marker::Model;

/// The row to write at a key.
#[derive(Debug, Drop, PartialEq, Eq)]
pub struct Write {
    /// The coded key.
    pub key: Key,
    /// The packed row; None is a deletion.
    pub row: Option<Seq<u8>>,
}

/// A write, and a chain from `Lookups::near` near its key, by which a key that is there is found without a search. Contracts see the
/// write.
#[derive(Drop)]
pub struct NearWrite {
    pub write: Write,
    pub near: u32,
}

impl Model for NearWrite {
    ghost use Rattle.span_store.specs.declared.write.Write.{Write};

    ghost Value = { Write };

    ghost view = { λ n. n.write };
}

/// The chains near the keys of writes, from the last on.
pub(crate) fn last_chains(writes: &[NearWrite]) -> [u32; SEARCH_LANES] {
    let mut near = [NO_CHAIN; SEARCH_LANES];
    for i in 0..writes.len().min(SEARCH_LANES) {
        let write = &writes[writes.len() - 1 - i];
        near[i] = write.near;
    }
    near
}
