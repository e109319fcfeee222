//! Which values may be in a column.
ghost use Rattle.std.specs.Prelude.{◌≡◌, IsTrue, true, FitsSigned};
ghost use Rattle.std.specs.Int.{w64};
ghost use Rattle.std.specs.Str.{IsUtf8};
ghost use Rattle.span_schema.specs.Fitting.{AreBytes, Fits, is_of_kind};

use span_value::value::{Kind, Value};

/// Whether the value is NULL or of the kind. Then it fits a column of the kind, since a number has 64 bits, a text is UTF-8 and
/// bytes are below 256.
pub fn is_of_kind(kind: Kind, value: &Value) -> bool
    ensures kind { result ≡ is_of_kind kind value.now }
    ensures fits { IsTrue result → Fits kind value.now }
{
    match (kind, value) {
        (_, Value::Null) => true,
        (Kind::Int, Value::Int(number)) => is_number(*number),
        (Kind::Str, Value::Str(text)) => is_text(text.as_str()),
        (Kind::Bytes, Value::Bytes(bytes)) => are_bytes(bytes.as_slice()),
        (Kind::Bool, Value::Bool(_)) => true,
        _ => false,
    }
}

// What the type of a number says of it.
fn is_number(_number: i64) -> bool
    ensures yes { result ≡ true }
    ensures fits { FitsSigned w64 _number }
{
    true
}

// What the type of a text says of its bytes.
fn is_text(_text: &str) -> bool
    ensures yes { result ≡ true }
    ensures utf8 { IsUtf8 _text.now }
    ensures bytes { AreBytes _text.now }
{
    true
}

// What the type of bytes says of them.
fn are_bytes(_bytes: &[u8]) -> bool
    ensures yes { result ≡ true }
    ensures bytes { AreBytes _bytes.now }
{
    true
}
