//! The places of columns in rows of fewer columns.
ghost use Rattle.std.specs.Prelude.{◌≡◌, ◌≤◌};
ghost use Rattle.span_expr.specs.Places as spec;

/// How many of the places before a place a mask has; after its end each place counts.
pub fn rank(mask: &[bool], place: usize) -> usize
    ensures rank { result ≡ spec.rank mask.now place }
    ensures below { result ≤ place }
{
    let Some((has, rest)) = mask.split_first() else {
        return place;
    };
    if place == 0 {
        return 0;
    }
    let later = rank(rest, place - 1);
    if *has { later + 1 } else { later }
}
