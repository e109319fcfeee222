//! Types of operands. None is that of a NULL literal, which takes the type of the other operands in its place.
ghost use Rattle.std.specs.Prelude.{◌≡◌};
ghost use Rattle.span_operators.specs.Kinds as spec;

use span_value::refusal::Refusal;
use span_value::value::Kind;

/// Whether an operand of a type fits where a type is wanted.
pub fn takes(wanted: Kind, kind: Option<Kind>) -> bool
    ensures { result ≡ spec.takes wanted kind }
{
    match kind {
        None => true,
        Some(found) => found == wanted,
    }
}

/// The one type of two operands.
#[tactic(auto, unfolding(crate::specs::Kinds::common_kind))]
pub fn common_kind(left: Option<Kind>, right: Option<Kind>) -> Result<Option<Kind>, Refusal>
    ensures { result ≡ spec.common_kind left right }
{
    match (left, right) {
        (None, kind) => Ok(kind),
        (Some(kind), None) => Ok(Some(kind)),
        (Some(a), Some(b)) => {
            if a == b {
                Ok(Some(a))
            } else {
                Err(Refusal::TypeMismatch)
            }
        }
    }
}

/// INT64 where all operands are NULL literals.
#[tactic(auto, unfolding(crate::specs::Kinds::or_int))]
pub fn or_int(kind: Option<Kind>) -> Kind
    ensures { result ≡ spec.or_int kind }
{
    match kind {
        None => Kind::Int,
        Some(kind) => kind,
    }
}

/// STRING where all operands are NULL literals, else that of two strings or of two BYTES.
#[tactic(auto, unfolding(crate::specs::Kinds::text_kind))]
pub(crate) fn text_kind(kind: Option<Kind>) -> Result<Kind, Refusal>
    ensures { result ≡ spec.text_kind kind }
{
    match kind {
        None | Some(Kind::Str) => Ok(Kind::Str),
        Some(Kind::Bytes) => Ok(Kind::Bytes),
        Some(_) => Err(Refusal::TypeMismatch),
    }
}
