//! Whether values are the same: what the journal has is compared with what a session handed in.
ghost use Rattle.std.specs.Prelude.{◌≡◌, true, false};

use span_mutate::mutation::{CheckedMutation, MutationKind};
use span_params::params::Parameter;
use span_value::value::{Kind, Value};

/// Types whose values are compared.
pub trait Same {
    ghost use Rattle.std.specs.Prelude.{◌≡◌, true, false};

    /// Whether the two are the same.
    fn same_as(&self, other: &Self) -> bool
        ensures same { result ≡ true → self.now ≡ other.now }
        ensures differ { result ≡ false → self.now ≡ other.now → ⊥ };
}

/// Whether two lists have the same items in the same order.
pub fn are_same<T: Same>(one: &[T], other: &[T]) -> bool
    ensures same { result ≡ true → one.now ≡ other.now }
    ensures differ { result ≡ false → one.now ≡ other.now → ⊥ }
{
    if one.len() != other.len() {
        return false;
    }
    for at in 0..one.len() {
        if !one[at].same_as(&other[at]) {
            return false;
        }
    }
    true
}

impl Same for Value {
    fn same_as(&self, other: &Value) -> bool {
        self.is_same(other)
    }
}

impl Same for Option<Value> {
    fn same_as(&self, other: &Option<Value>) -> bool {
        match (self, other) {
            (None, None) => true,
            (Some(one), Some(other)) => one.is_same(other),
            _ => false,
        }
    }
}

impl Same for CheckedMutation {
    fn same_as(&self, other: &CheckedMutation) -> bool {
        is_same_kind(self.kind, other.kind)
            && self.table == other.table
            && are_same(self.key.as_slice(), other.key.as_slice())
            && are_same(self.cells.as_slice(), other.cells.as_slice())
    }
}

impl Same for Parameter {
    fn same_as(&self, other: &Parameter) -> bool {
        self.name.as_str() == other.name.as_str()
            && is_same_type(self.kind, other.kind)
            && self.value.is_same(&other.value)
    }
}

fn is_same_kind(one: MutationKind, other: MutationKind) -> bool
    ensures same { result ≡ true → one ≡ other }
    ensures differ { result ≡ false → one ≡ other → ⊥ }
{
    match (one, other) {
        (MutationKind::Insert, MutationKind::Insert) => true,
        (MutationKind::Update, MutationKind::Update) => true,
        (MutationKind::InsertOrUpdate, MutationKind::InsertOrUpdate) => true,
        (MutationKind::Delete, MutationKind::Delete) => true,
        _ => false,
    }
}

fn is_same_type(one: Kind, other: Kind) -> bool
    ensures same { result ≡ true → one ≡ other }
    ensures differ { result ≡ false → one ≡ other → ⊥ }
{
    match (one, other) {
        (Kind::Int, Kind::Int) => true,
        (Kind::Str, Kind::Str) => true,
        (Kind::Bytes, Kind::Bytes) => true,
        (Kind::Bool, Kind::Bool) => true,
        _ => false,
    }
}
