//! Classes of keys by their hash: a key is in one of a number of them.
ghost use Rattle.std.specs.Prelude.{◌≡◌, ◌<◌};
ghost use Rattle.span_maderows.specs.Linked.{class_of};

use span_keycode::key::Key;
use std::hash::{FoldHasher, Hash, Hasher};

/// The number of the class that a key is in, where there are `count` classes. Where that is a power of two, each is as likely.
pub(crate) fn class_of(count: usize, key: &Key) -> usize
    requires { 0 < count }
    ensures class { result ≡ class_of count key.now }
    ensures within { result < count }
{
    let mut hasher = FoldHasher::default();
    key.hash(&mut hasher);
    (hasher.finish() >> 32) as usize & (count - 1)
}
