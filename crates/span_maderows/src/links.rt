//! Links between rows whose keys are in one class, from each to the one that came before it.
ghost use Rattle.std.specs.Prelude.{◌≡◌, ◌<◌, ◌++◌, ◌∷◌, [], length, List, ℕ, true, IfNone, IfOk, IfSome, None, OnErr, OnOk};
ghost use Rattle.std.specs.Map.{keys_of};
ghost use Rattle.span_keycode.specs.Order.{is_same};
ghost use Rattle.span_maderows.specs.Linked.{class_of, key_at, AreLinked};
ghost use Rattle.span_maderows.specs.Made.{made_at};

use super::class::class_of;
use super::made_row::MadeRow;
use span_keycode::key::Key;
use std::alloc::{AllocError, Global};

/// The most rows that a class has while none is crowded. With as many classes as rows, fewer than one class in 10^37 has
/// more by chance.
const MOST_OF_A_CLASS: usize = 32;

/// For each class of keys which row is its last, and for each row which one of its class came before it.
#[derive(Drop)]
pub(crate) struct Links {
    /// For each class one more than the place of its last row, or 0 where it has none.
    pub(crate) lasts: Vec<usize>,
    /// For each row one more than the place of the row before it in its class, or 0 where there is none.
    pub(crate) befores: Vec<usize>,
    /// Whether some class has more rows than it should.
    pub(crate) is_crowded: bool,
}

impl Links {
    /// No row, and a number of classes.
    pub(crate) fn new(alloc: Global, count: usize) -> Result<Links, AllocError>
        requires { 0 < count }
        ensures { IfOk result (λ links. AreLinked [] links.lasts.items links.befores.items) }
    {
        Ok(Links {
            lasts: vec![in alloc; 0; count]?,
            befores: Vec::with_capacity(alloc, count)?,
            is_crowded: false,
        })
    }

    /// The number of the class of a key.
    pub(crate) fn class_of(&self, key: &Key) -> usize
        requires { 0 < length self.now.lasts.items }
        ensures class { result ≡ class_of (length self.now.lasts.items) key.now }
        ensures within { result < length self.now.lasts.items }
    {
        class_of(self.lasts.len(), key)
    }

    /// Links one more row, whose key is in a class.
    pub(crate) fn push(&mut self, class: usize) -> Result<(), AllocError>
        requires { class < length self.old.lasts.items }
        ensures linked { OnOk result
            ((keys : List (List ℕ)) (key : List ℕ)
            → AreLinked keys self.old.lasts.items self.old.befores.items
            → class ≡ class_of (length self.old.lasts.items) key
            → AreLinked (keys ++ key ∷ []) self.new.lasts.items self.new.befores.items) }
        ensures lasts { OnErr result (self.new.lasts.items ≡ self.old.lasts.items) }
        ensures befores { OnErr result (self.new.befores.items ≡ self.old.befores.items) }
    {
        self.is_crowded = self.is_crowded || self.is_full(self.lasts[class]);
        self.befores.push(self.lasts[class])?;
        self.lasts[class] = self.befores.len();
        Ok(())
    }

    // Whether a class has the most rows that it should. Its last one is before the place `left`. No contract speaks of it.
    fn is_full(&self, left: usize) -> bool {
        let mut left = left;
        for _ in 0..MOST_OF_A_CLASS {
            let Some(before) = self.befores.get(left.wrapping_sub(1)) else {
                return false;
            };
            left = *before;
        }
        true
    }

    /// The place of the row at a key, which is looked for among those whose keys are in its class.
    pub(crate) fn search(&self, rows: &[(Key, MadeRow)], class: usize, key: &Key) -> Option<usize>
        requires linked { AreLinked (keys_of rows.now) self.now.lasts.items self.now.befores.items }
        requires class { class ≡ class_of (length self.now.lasts.items) key.now }
        requires within { class < length self.now.lasts.items }
        ensures within { IfSome result (λ place. place < length rows.now) }
        ensures found { IfSome result (λ place. is_same key.now (key_at (keys_of rows.now) place) ≡ true) }
        ensures none { IfNone result (made_at rows.now key.now ≡ None) }
    {
        let mut left = self.lasts[class];
        while left > 0 {
            let place = left - 1;
            if key.cmp(&rows[place].0).is_eq() {
                return Some(place);
            }
            left = self.befores[place];
        }
        None
    }
}
