//! Strings that contracts see as their UTF-8 bytes.
ghost use Rattle.span_value.specs.declared.short_text.TheConstants.{SHORT_TEXT_BYTES};
ghost use Rattle.std.specs.Prelude.{◌≡◌, ◌≤◌, ◌<◌, [], length, string_bytes, IfOk, OnErr, OnOk};

use super::short_text::{SHORT_TEXT_BYTES, ShortText};
use std::alloc::{AllocError, Global};
use std::fmt;
use std::marker::Model;

/// A string in UTF-8, whose model is its bytes. A copy of up to 30 bytes takes no memory.
#[derive(Drop)]
pub struct Text {
    stored: Stored,
}

/// Where a text has its bytes.
#[derive(Drop)]
enum Stored {
    Inline(ShortText),
    Heap(String),
}

impl Model for Text {
    ghost use Rattle.std.specs.Prelude.{List, ℕ};
    ghost use Rattle.span_value.specs.Texts.{stored_bytes};

    ghost Value = { List ℕ };

    ghost view = { λ a. stored_bytes a.stored };
}

impl Text {
    /// Wraps a string, without copying it.
    pub fn from_string(text: String) -> Text
        ensures { result ≡ string_bytes text }
    {
        Text {
            stored: Stored::Heap(text),
        }
    }

    /// No bytes. It takes no memory.
    pub fn empty() -> Text
        ensures { result ≡ [] }
    {
        Text {
            stored: Stored::Inline(ShortText::empty()),
        }
    }

    /// A copy of a string. Memory is taken, and may run out, only for more than 30 bytes.
    pub fn from_str(alloc: Global, text: &str) -> Result<Text, AllocError>
        ensures bytes { IfOk result (λ t. t ≡ text.now) }
        ensures memory { OnErr result (SHORT_TEXT_BYTES < length text.now) }
    {
        let mut copy = Text::empty();
        copy.set(alloc, text)?;
        Ok(copy)
    }

    /// Becomes a copy of a string. Memory is taken, and may run out, only for more than 30 bytes; an error leaves the text as it was.
    pub fn set(&mut self, alloc: Global, text: &str) -> Result<(), AllocError>
        ensures bytes { OnOk result (self.new ≡ text.now) }
        ensures memory { OnErr result (SHORT_TEXT_BYTES < length text.now) }
        ensures kept { OnErr result (self.new ≡ self.old) }
    {
        if text.len() > SHORT_TEXT_BYTES {
            self.stored = Stored::Heap(String::from_str(alloc, text)?);
            return Ok(());
        }
        self.set_short(text);
        Ok(())
    }

    /// Becomes a copy of a short string, where it is a short one without a move.
    fn set_short(&mut self, text: &str)
        requires { length text.now ≤ SHORT_TEXT_BYTES }
        ensures { self.new ≡ text.now }
    {
        match &mut self.stored {
            Stored::Inline(short) => short.set(text),
            Stored::Heap(_) => {
                let mut short = ShortText::empty();
                short.set(text);
                self.stored = Stored::Inline(short);
            }
        }
    }

    /// The same text. Memory is taken, and may run out, only for more than 30 bytes.
    pub fn copy(&self, alloc: Global) -> Result<Text, AllocError>
        ensures bytes { IfOk result (λ t. t ≡ self.now) }
        ensures memory { OnErr result (SHORT_TEXT_BYTES < length self.now) }
    {
        match &self.stored {
            Stored::Inline(short) => Ok(Text {
                stored: Stored::Inline(short.copy()),
            }),
            Stored::Heap(text) => Text::from_str(alloc, text.as_str()),
        }
    }

    /// The string.
    pub fn as_str(&self) -> &str
        ensures { result.now ≡ self.now }
    {
        match &self.stored {
            Stored::Inline(text) => text.as_str(),
            Stored::Heap(text) => text.as_str(),
        }
    }
}

impl PartialEq for Text {
    ghost use Rattle.std.specs.Prelude.{nat_eq};
    ghost use Rattle.std.specs.Cmp.Lexicographic.{pointwise, nat_list_eq_equiv};
    ghost use Rattle.std.specs.Cmp.{partial_equiv_from_equiv};

    ghost eq = { pointwise nat_eq };

    ghost laws = { partial_equiv_from_equiv nat_list_eq_equiv };

    fn eq(&self, other: &Text) -> bool {
        self.as_str() == other.as_str()
    }
}

impl Eq for Text {
    ghost use Rattle.std.specs.Cmp.Lexicographic.{nat_list_eq_equiv};

    ghost laws = { nat_list_eq_equiv };
}

impl fmt::Debug for Text {
    fn fmt<W: fmt::Write>(&self, f: &mut fmt::Formatter<W>) -> fmt::Result {
        write!(f, "{:?}", self.as_str())
    }
}
