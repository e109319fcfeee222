//! The rows that mutations made, as they are taken out to be written.
ghost use Rattle.std.specs.Prelude.{◌≡◌, ◌++◌, ◌∷◌, [], length, MatchOption};
ghost use Rattle.span_maderows.specs.Made.{HaveDistinctKeys};

use super::made_row::MadeRow;
use span_keycode::key::Key;
use span_value::seq::Seq;
use std::collections::BTreeMap;
use std::marker::Model;

/// Rows at keys that differ: first those of a map, then those of a list. They are taken out from the last to the first. No contract
/// speaks of their order: that the keys are taken from the last to the first is for speed alone.
#[derive(Drop)]
pub struct RowsLeft {
    map: BTreeMap<Key, MadeRow>,
    list: Vec<(Key, MadeRow)>,
}

impl Model for RowsLeft {
    ghost use Rattle.std.specs.Prelude.{List, ℕ, ◌++◌};
    ghost use Rattle.span_maderows.specs.Made.{HaveDistinctKeys};

    ghost Value = { List (List ℕ × List ℕ) };

    ghost view = { λ l. l.map.entries ++ l.list.items };

    ghost invariant = { λ l. HaveDistinctKeys (l.map.entries ++ l.list.items) };
}

impl RowsLeft {
    /// The rows of a map, then those of a list.
    pub(crate) fn new(map: BTreeMap<Key, MadeRow>, list: Vec<(Key, MadeRow)>) -> RowsLeft
        requires { HaveDistinctKeys (map.entries ++ list.items) }
        ensures { result ≡ map.entries ++ list.items }
    {
        RowsLeft { map, list }
    }

    /// How many rows are left.
    pub fn len(&self) -> usize
        ensures { result ≡ length self.now }
    {
        self.map.len() + self.list.len()
    }

    /// Takes out the last row, with its key before it and the caller's number after it (`MadeRows::insert`). None where no row is left.
    pub fn pop(&mut self) -> Option<(Key, Seq<u8>, u32)>
        ensures last { MatchOption result (self.old ≡ []) (λ p. self.old ≡ self.new ++ (p.0, p.1) ∷ []) }
        ensures distinct { HaveDistinctKeys self.old }
    {
        if let Some((key, MadeRow { row, near })) = self.list.pop() {
            return Some((key, row, near));
        }
        match self.map.pop_last() {
            Some((key, MadeRow { row, near })) => Some((key, row, near)),
            None => None,
        }
    }
}
