//! The order of bytes, eight at a time.
ghost use Rattle.std.specs.Prelude.{◌≡◌, ◌+◌, ◌≤◌, take, drop, length};
ghost use Rattle.std.specs.Int.{to_be_bytes, w64};
ghost use Rattle.span_keycode.specs.Order.{byte_order};

use std::cmp::Ordering;

/// The number that eight bytes from a place on spell, the highest first.
pub fn word_at(bytes: &[u8], at: usize) -> u64
    requires { at + 8 ≤ length bytes.now }
    ensures { to_be_bytes w64 result ≡ take 8 (drop at bytes.now) }
{
    u64::from_be_bytes([
        bytes[at],
        bytes[at + 1],
        bytes[at + 2],
        bytes[at + 3],
        bytes[at + 4],
        bytes[at + 5],
        bytes[at + 6],
        bytes[at + 7],
    ])
}

/// The order of bytes, from the left. Eight are compared at a time.
pub fn order_of_bytes(left: &[u8], right: &[u8]) -> Ordering
    ensures { result ≡ byte_order left.now right.now }
{
    let both = left.len().min(right.len());
    if both < 8 {
        return left.cmp(&right);
    }
    for word in 0..both / 8 {
        let first = word_at(left, word * 8);
        let second = word_at(right, word * 8);
        if first != second {
            return first.cmp(&second);
        }
    }
    // The last eight bytes of the shorter one. The first of them may have been compared.
    let first = word_at(left, both - 8);
    let second = word_at(right, both - 8);
    if first != second {
        return first.cmp(&second);
    }
    left.len().cmp(&right.len())
}
