//! Values of columns, and the types that they have.
ghost use Rattle.std.specs.Prelude.{◌≡◌, ◌↔◌, IsTrue, IfOk, IsErrOf, IsOkUnless, OnOk};

use super::refusal::Refusal;
use super::seq::Seq;
use super::text::Text;
use std::alloc::{AllocError, Global};

/// A value of a column.
#[derive(Debug, Drop, PartialEq, Eq)]
pub enum Value {
    Null,
    Int(i64),
    Str(Text),
    Bytes(Seq<u8>),
    Bool(bool),
}

/// The type of a value that is not NULL.
#[derive(Clone, Copy, Debug, PartialEq, Eq)]
pub enum Kind {
    Int,
    Str,
    Bytes,
    Bool,
}

/// The type of a column. The number is the greatest length in characters of a `Str` or in bytes of a `Bytes`; None is MAX.
#[derive(Clone, Copy, Debug, PartialEq, Eq)]
pub enum ColumnType {
    Int,
    Str(Option<u64>),
    Bytes(Option<u64>),
    Bool,
}

/// A row: the values of its columns, in the order of their declaration.
pub type Row = Seq<Value>;

impl Value {
    /// A copy of the value. The only error is `OutOfMemory`.
    pub fn copy(&self, alloc: Global) -> Result<Value, Refusal>
        ensures ok { IfOk result (λ copy. copy ≡ self.now) }
        ensures memory { IsOkUnless result Refusal.OutOfMemory }
    {
        Ok(match self {
            Value::Null => Value::Null,
            Value::Int(n) => Value::Int(*n),
            Value::Str(text) => Value::Str(text.copy(alloc)?),
            Value::Bytes(bytes) => Value::Bytes(copy_bytes(alloc, bytes)?),
            Value::Bool(b) => Value::Bool(*b),
        })
    }

    /// Becomes a copy of a text, written where it is to be: who moves what was just written waits for it. The only error is out of memory; it leaves
    /// a text of no bytes.
    pub fn set_text(&mut self, alloc: Global, text: &str) -> Result<(), AllocError>
        ensures { OnOk result (self.new ≡ Value.Str text.now) }
    {
        *self = Value::Str(Text::empty());
        match self {
            Value::Str(copy) => copy.set(alloc, text),
            _ => Ok(()),
        }
    }

    /// Whether the two are the same value; NULL is the same as NULL here.
    pub fn is_same(&self, other: &Value) -> bool
        ensures { IsTrue result ↔ (self.now ≡ other.now) }
    {
        match (self, other) {
            (Value::Null, Value::Null) => true,
            (Value::Int(a), Value::Int(b)) => *a == *b,
            (Value::Str(a), Value::Str(b)) => a.as_str() == b.as_str(),
            (Value::Bytes(a), Value::Bytes(b)) => a.as_slice() == b.as_slice(),
            (Value::Bool(a), Value::Bool(b)) => *a == *b,
            _ => false,
        }
    }
}

fn copy_bytes(alloc: Global, bytes: &Seq<u8>) -> Result<Seq<u8>, Refusal>
    ensures ok { IfOk result (λ copy. copy ≡ bytes.now) }
    ensures memory { IsOkUnless result Refusal.OutOfMemory }
{
    Ok(Seq::from_vec(bytes.as_slice().to_vec(alloc)?))
}
