//! The places of the rows of several lists in the order of some keys: lists that are in order are merged.
ghost use Rattle.std.specs.Prelude.{◌≡◌, ◌<◌, ◌≤◌, [], IfNone, IfOk, IfSome, OnOk, drop, length, slice_index_or};
ghost use Rattle.std.specs.List.{All, AllByRecursion};
ghost use Rattle.span_query.specs.Sorting.{comes_before};
ghost use Rattle.span_sorting.specs.Orders.{GoesBefore, IsStrictlySorted, first_put};
ghost use Rattle.span_merging.specs.PartPlaces.{joined, lists};
ghost use Rattle.span_merging.specs.PartRests.{AreRestsMerged, AreRestsOf, IsFirstTaken, IsNextOf, IsPartOrder, IsRest, front, part_before, row_before, rows_of_rests};
ghost use Rattle.span_sorting.specs.PlacesInOrder.{IsCodedPlace};

use span_query::query::SortKey;
use span_rows::row_list::RowList;
use span_sorting::placed::CodedPlace;
use span_sorting::rows_with_order::RowsWithOrder;
use span_sorting::sort::compare_rows;
use std::alloc::{AllocError, Global};

/// A place in one of several lists of rows.
#[derive(Clone, Copy, Debug)]
pub struct PartPlace {
    /// The place of the list among the lists.
    pub part: usize,
    /// The place of the row in its list.
    pub place: usize,
}

/// What is left of the rows of a list in their order, while they are taken one by one.
#[derive(Drop)]
pub(crate) struct PartRest<'a> {
    /// All rows of the list.
    pub(crate) rows: &'a RowList,
    /// The places of the rows that are left.
    pub(crate) places: &'a [CodedPlace],
}

/// What is left of several lists, in the order of the lists.
#[derive(Drop)]
pub(crate) struct PartRests<'a> {
    pub(crate) rests: Vec<PartRest<'a>>,
    /// Whether rows that have the same codes are equal by the keys.
    pub(crate) are_exact: bool,
}

/// How many rows are left.
pub(crate) fn count_rows(rests: &[PartRest<'_>]) -> usize {
    let mut count = 0usize;
    for rest in rests {
        count = count.saturating_add(rest.places.len());
    }
    count
}

/// All rows of each list, in its order by the keys. None where the order of one was not made.
pub(crate) fn rests_of<'a>(
    alloc: Global,
    keys: &[SortKey],
    parts: &[&'a RowsWithOrder],
) -> Result<Option<PartRests<'a>>, AllocError>
    ensures { IfOk result (λ found. IfSome found (AreRestsOf keys.now (lists parts.now))) }
{
    let mut rests = Vec::with_capacity(alloc, parts.len())?;
    let mut are_exact = true;
    for part in parts {
        let Some((places, is_exact)) = part.places_by(keys) else {
            return Ok(None);
        };
        rests.push(PartRest {
            rows: part.rows(),
            places,
        })?;
        are_exact = are_exact && is_exact;
    }
    Ok(Some(PartRests { rests, are_exact }))
}

/// Whether the row at a place of a list comes before that at a place of another one: by the codes; where these are the same, and not exact,
/// the rows are looked up.
pub(crate) fn is_place_before(
    keys: &[SortKey],
    are_exact: bool,
    rows: &RowList,
    place: &CodedPlace,
    other_rows: &RowList,
    other: &CodedPlace,
) -> bool
    requires place { IsCodedPlace rows.now keys.now are_exact place.now }
    requires other { IsCodedPlace other_rows.now keys.now are_exact other.now }
    ensures { result ≡ comes_before keys.now
        (slice_index_or rows.now place.now.place [])
        (slice_index_or other_rows.now other.now.place []) }
{
    if place.first != other.first {
        return place.first < other.first;
    }
    if place.second != other.second {
        return place.second < other.second;
    }
    if are_exact {
        return false;
    }
    compare_rows(keys, rows.row(place.place), other_rows.row(other.place)).is_lt()
}

/// Whether the first row that is left of a list comes before that of another one. None is after all.
#[inline(always)]
fn is_before(keys: &[SortKey], are_exact: bool, left: &PartRest<'_>, right: &PartRest<'_>) -> bool
    requires left { IsRest keys.now are_exact left.now }
    requires right { IsRest keys.now are_exact right.now }
    ensures { result ≡ row_before keys.now (front left.now) (front right.now) }
{
    let Some(first) = left.places.first() else {
        return false;
    };
    let Some(other) = right.places.first() else {
        return true;
    };
    is_place_before(keys, are_exact, left.rows, first, right.rows, other)
}

/// Whether the first row that is left of a list comes before that of another one; of equal ones that of the first list does.
fn is_part_before(
    keys: &[SortKey],
    are_exact: bool,
    rests: &[PartRest<'_>],
    part: usize,
    other: usize,
) -> bool
    requires rests { AllByRecursion (IsRest keys.now are_exact) rests.now }
    requires part { part < length rests.now }
    requires other { other < length rests.now }
    ensures { result ≡ part_before keys.now rests.now part other }
{
    if part < other {
        !is_before(keys, are_exact, &rests[other], &rests[part])
    } else {
        is_before(keys, are_exact, &rests[part], &rests[other])
    }
}

/// The place among lists, in the order of their first rows, before which a list is to be put.
fn place_of_part(
    keys: &[SortKey],
    are_exact: bool,
    rests: &[PartRest<'_>],
    order: &[usize],
    part: usize,
) -> usize
    requires rests { AllByRecursion (IsRest keys.now are_exact) rests.now }
    requires within { All (λ i. i < length rests.now) order.now }
    requires sorted { IsStrictlySorted (part_before keys.now rests.now) order.now }
    requires part { part < length rests.now }
    ensures within { result ≤ length order.now }
    ensures place { GoesBefore (part_before keys.now rests.now) part order.now result }
{
    let mut low = 0;
    let mut high = order.len();
    while low < high {
        let middle = low + (high - low) / 2;
        if is_part_before(keys, are_exact, rests, order[middle], part) {
            low = middle + 1;
        } else {
            high = middle;
        }
    }
    low
}

/// The lists in the order of their first rows.
fn order_rests(
    alloc: Global,
    keys: &[SortKey],
    are_exact: bool,
    rests: &[PartRest<'_>],
) -> Result<Vec<usize>, AllocError>
    requires { AllByRecursion (IsRest keys.now are_exact) rests.now }
    ensures { IfOk result (λ order. IsPartOrder keys.now rests.now order.items) }
{
    let mut order = Vec::with_capacity(alloc, rests.len())?;
    for part in 0..rests.len() {
        let at = place_of_part(keys, are_exact, rests, order.as_slice(), part);
        order.insert(at, part)?;
    }
    Ok(order)
}

/// Puts the first of lists, where another row is the first of it now, among the others in their order. Where it comes before these still, it is
/// compared with the next one alone.
fn move_first(
    keys: &[SortKey],
    are_exact: bool,
    rests: &[PartRest<'_>],
    order: &mut Vec<usize>,
) -> Result<(), AllocError>
    requires rests { AllByRecursion (IsRest keys.now are_exact) rests.now }
    requires within { All (λ i. i < length rests.now) order.old.items }
    requires sorted { IsStrictlySorted (part_before keys.now rests.now) (drop 1 order.old.items) }
    ensures { OnOk result (order.new.items ≡ first_put (part_before keys.now rests.now) order.old.items) }
{
    let [part, next, ..] = order.as_slice() else {
        return Ok(());
    };
    if !is_part_before(keys, are_exact, rests, *next, *part) {
        return Ok(());
    }
    let part = order.remove(0);
    let at = place_of_part(keys, are_exact, rests, order.as_slice(), part);
    order.insert(at, part)?;
    Ok(())
}

/// Takes the first row that is left of a list, and returns its place.
fn take_first(rest: &mut PartRest<'_>) -> Option<usize>
    ensures some { IfSome result (λ place. IsFirstTaken rest.old rest.new place) }
    ensures none { IfNone result (rest.old.places.now ≡ []) }
{
    let (first, others) = rest.places.split_first()?;
    rest.places = others;
    Some(first.place)
}

/// Takes the first row in the order of the keys that is left of several lists, and returns its place.
fn take_least(
    keys: &[SortKey],
    are_exact: bool,
    rests: &mut Vec<PartRest<'_>>,
    order: &mut Vec<usize>,
) -> Result<Option<PartPlace>, AllocError>
    requires rests { AllByRecursion (IsRest keys.now are_exact) rests.old.items }
    requires order { IsPartOrder keys.now rests.old.items order.old.items }
    ensures some { IfOk result (λ found. IfSome found (IsNextOf keys.now are_exact rests.old.items rests.new.items)) }
    ensures order { IfOk result (λ found. IfSome found (λ at. IsPartOrder keys.now rests.new.items order.new.items)) }
    ensures none { IfOk result (λ found. IfNone found (joined (rows_of_rests rests.old.items) ≡ [])) }
{
    let Some(part) = order.as_slice().first() else {
        return Ok(None);
    };
    let part = *part;
    let Some(place) = take_first(&mut rests[part]) else {
        return Ok(None);
    };
    move_first(keys, are_exact, rests.as_slice(), order)?;
    Ok(Some(PartPlace { part, place }))
}

/// The places of the rows that are left, in the order of the keys.
pub(crate) fn merge_rests(
    alloc: Global,
    keys: &[SortKey],
    all: PartRests<'_>,
) -> Result<Vec<PartPlace>, AllocError>
    requires { AllByRecursion (IsRest keys.now all.are_exact) all.rests.items }
    ensures { IfOk result (λ places. AreRestsMerged keys.now all.entry.rests.items places.items) }
{
    let PartRests {
        mut rests,
        are_exact,
    } = all;
    let mut order = order_rests(alloc, keys, are_exact, rests.as_slice())?;
    let mut places = Vec::with_capacity(alloc, count_rows(rests.as_slice()))?;
    while let Some(at) = take_least(keys, are_exact, &mut rests, &mut order)? {
        places.push(at)?;
    }
    Ok(places)
}
