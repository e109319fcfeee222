//! Strings of few bytes, which lie in the value itself.
ghost use Rattle.std.specs.Prelude.{◌≡◌, ◌≤◌, [], length};

use std::marker::Model;

/// How many bytes a short text has at most. With its length and the mark of a variant it takes as much as a `String` and this mark.
pub const SHORT_TEXT_BYTES: usize = 30;

/// A string in UTF-8 of at most 30 bytes, whose model is its bytes. (The kit's `ArrayString` has its length in eight bytes.)
#[derive(Drop)]
pub(crate) struct ShortText {
    bytes: [u8; SHORT_TEXT_BYTES],
    len: u8,
}

impl Model for ShortText {
    ghost use Rattle.std.specs.Prelude.{List, ℕ, ◌≡◌, ◌≤◌, IsUtf8, length, take};

    ghost Value = { List ℕ };

    ghost view = { λ a. take a.len a.bytes };

    ghost invariant = { λ a. (a.len ≤ 30) × (length a.bytes ≡ 30) × ∥ IsUtf8 (take a.len a.bytes) ∥₁ };
}

impl ShortText {
    /// No bytes.
    pub(crate) fn empty() -> ShortText
        ensures { result ≡ [] }
    {
        ShortText {
            bytes: [0; SHORT_TEXT_BYTES],
            len: 0,
        }
    }

    /// Becomes a copy of a string of at most 30 bytes, in place: who moves a text that was just written waits for what was written.
    #[inline(always)]
    pub(crate) fn set(&mut self, text: &str)
        requires { length text.now ≤ SHORT_TEXT_BYTES }
        ensures { self.new ≡ text.now }
    {
        let given = text.as_bytes();
        self.bytes[..given.len()].copy_from_slice(given);
        self.len = given.len() as u8;
    }

    /// The same string.
    pub(crate) fn copy(&self) -> ShortText
        ensures { result ≡ self.now }
    {
        ShortText {
            bytes: self.bytes,
            len: self.len,
        }
    }

    /// The string.
    #[inline(always)]
    pub(crate) fn as_str(&self) -> &str
        ensures { result.now ≡ self.now }
    {
        let (text, _) = self.bytes.split_at(usize::from(self.len));
        unsafe { str::from_utf8_unchecked(text) }
    }
}
