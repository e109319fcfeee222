//! Which cell of a packed row a column outside the key is, and where the cell begins.
ghost use Rattle.std.specs.Prelude.{◌≡◌, ◌<◌, ◌≤◌, ◌^◌, ◌==◌, IfSome, get_or, length, not};
ghost use Rattle.std.specs.List.{list_all};
ghost use Rattle.span_schema.specs.Numbers.{IsTable};
ghost use Rattle.span_rowcode.specs.declared.pack.TheConstants.{LONGEST_ROW};
ghost use Rattle.span_celltests.specs.CellTests.{IsColumnCell, IsPlaceOf};

use crate::ends::cell_end;
use span_leaves::table::width_of;
use span_rowcode::pack::LONGEST_ROW;
use span_schema::schema::Schema;
use span_value::value::Kind;

/// The first place of a number in a list.
fn position(places: &[usize], place: usize) -> Option<usize>
    ensures { IfSome result (λ i. (i < length places.now) × (get_or places.now i 0 ≡ place)) }
{
    for i in 0..places.len() {
        if places[i] == place {
            return Some(i);
        }
    }
    None
}

/// Whether a list has no such number.
fn has_none(places: &[usize], place: usize) -> bool
    ensures { result ≡ list_all (λ q. not (q == place)) places.now }
{
    places.iter().all(|other| *other != place)
}

/// The place of a column of a kind among those outside the key. None for another column.
pub(crate) fn column_cell(schema: &Schema, table: usize, kind: Kind, place: usize) -> Option<usize>
    requires { IsTable schema.now table }
    ensures { IfSome result (λ cell. IsColumnCell schema.now table kind place cell) }
{
    if place >= width_of(schema, table) {
        return None;
    }
    if !has_none(schema.key_places(table), place) {
        return None;
    }
    let cell = position(schema.other_places(table), place)?;
    let kinds = schema.other_kinds(table);
    if cell >= kinds.len() {
        return None;
    }
    if kinds[cell] != kind {
        return None;
    }
    Some(cell)
}

/// Where one of the cells of a packed row begins. That is past the row's end where the row is cut off.
pub(crate) fn cell_place(kinds: &[Kind], cell: usize, bytes: &[u8]) -> usize
    requires cell { cell ≤ length kinds.now }
    requires len { length bytes.now ≤ LONGEST_ROW }
    ensures most { result ≤ 2 ^ 33 }
    ensures place { IsPlaceOf kinds.now cell bytes.now result }
{
    let mut at = 0;
    for i in 0..cell {
        at = cell_end(kinds[i], bytes, at);
    }
    at
}
