//! The places of the rows of several lists in the order of some keys, by several threads: each thread merges the rows of a range of this order.
ghost use Rattle.std.specs.Prelude.{◌≡◌, ◌<◌, ◌≤◌, ◌++◌, [], IfOk, IfSome, List, OnOk, drop, filter, length, slice_index_or, take};
ghost use Rattle.std.specs.List.{All, AllByRecursion};
ghost use Rattle.span_query.specs.declared.query.SortKey.{SortKey};
ghost use Rattle.span_merging.specs.declared.parts.PartRest.{PartRest};
ghost use Rattle.span_merging.specs.declared.parts.PartRests.{PartRests};
ghost use Rattle.span_merging.specs.PartPlaces.{AreInOrder, lists};
ghost use Rattle.span_merging.specs.PartRanges.{AreRestsWhere, AreRangesMerged, AreRangesOf, IsRestWhere, IsRange, IsRangeMerged, is_before_boundary, is_from_boundary};
ghost use Rattle.span_merging.specs.PartRests.{AreRestsMerged, IsRest, rest_rows};
ghost use Rattle.span_sorting.specs.PlacesInOrder.{IsCodedPlace};

use super::parts::{
    PartPlace, PartRest, PartRests, count_rows, is_place_before, merge_rests, rests_of,
};
use span_query::query::SortKey;
use span_rows::row_list::RowList;
use span_sorting::placed::CodedPlace;
use span_sorting::rows_with_order::RowsWithOrder;
use span_threads::calls::map_indices;
use std::alloc::{AllocError, Global};
use std::thread::Threads;

/// How many rows there are for each thread at least. To start a thread takes some 0.1 ms, in which one thread merges a few thousand rows.
const LEAST_ROWS_OF_A_THREAD: usize = 16_384;

/// What is left of a list, cut in two at a row.
#[derive(Drop)]
struct CutRest<'a> {
    /// The rows that come before it.
    before: PartRest<'a>,
    /// The others.
    from: PartRest<'a>,
}

/// What is left of several lists, each cut in two at the same row.
#[derive(Drop)]
struct CutRests<'a> {
    before: Vec<PartRest<'a>>,
    from: Vec<PartRest<'a>>,
}

/// How many of the rows that are left of a list come before the row at a place of a list.
fn count_before(
    keys: &[SortKey],
    are_exact: bool,
    rest: &PartRest<'_>,
    rows: &RowList,
    boundary: &CodedPlace,
) -> usize
    requires rest { IsRest keys.now are_exact rest.now }
    requires boundary { IsCodedPlace rows.now keys.now are_exact boundary.now }
    ensures within { result ≤ length rest.now.places.now }
    ensures before { take result (rest_rows rest.now)
        ≡ filter (is_before_boundary keys.now (slice_index_or rows.now boundary.now.place [])) (rest_rows rest.now) }
    ensures from { drop result (rest_rows rest.now)
        ≡ filter (is_from_boundary keys.now (slice_index_or rows.now boundary.now.place [])) (rest_rows rest.now) }
{
    let mut low = 0;
    let mut high = rest.places.len();
    while low < high {
        let middle = low + (high - low) / 2;
        if is_place_before(
            keys,
            are_exact,
            rest.rows,
            &rest.places[middle],
            rows,
            boundary,
        ) {
            low = middle + 1;
        } else {
            high = middle;
        }
    }
    low
}

/// Cuts what is left of a list in two at the row at a place of a list.
fn cut_rest<'a>(
    keys: &[SortKey],
    are_exact: bool,
    rest: &PartRest<'a>,
    rows: &RowList,
    boundary: &CodedPlace,
) -> CutRest<'a>
    requires rest { IsRest keys.now are_exact rest.now }
    requires boundary { IsCodedPlace rows.now keys.now are_exact boundary.now }
    ensures before { IsRestWhere keys.now are_exact
        (is_before_boundary keys.now (slice_index_or rows.now boundary.now.place [])) rest.now result.before }
    ensures from { IsRestWhere keys.now are_exact
        (is_from_boundary keys.now (slice_index_or rows.now boundary.now.place [])) rest.now result.from }
{
    let count = count_before(keys, are_exact, rest, rows, boundary);
    let (before, from) = rest.places.split_at(count);
    CutRest {
        before: PartRest {
            rows: rest.rows,
            places: before,
        },
        from: PartRest {
            rows: rest.rows,
            places: from,
        },
    }
}

/// Cuts what is left of each list in two at the row at a place of a list.
fn cut_rests<'a>(
    alloc: Global,
    keys: &[SortKey],
    are_exact: bool,
    rests: &[PartRest<'a>],
    rows: &RowList,
    boundary: &CodedPlace,
) -> Result<CutRests<'a>, AllocError>
    requires rests { AllByRecursion (IsRest keys.now are_exact) rests.now }
    requires boundary { IsCodedPlace rows.now keys.now are_exact boundary.now }
    ensures before { IfOk result
        (λ cut. AreRestsWhere keys.now are_exact
        (is_before_boundary keys.now (slice_index_or rows.now boundary.now.place [])) rests.now cut.before.items) }
    ensures from { IfOk result
        (λ cut. AreRestsWhere keys.now are_exact
        (is_from_boundary keys.now (slice_index_or rows.now boundary.now.place [])) rests.now cut.from.items) }
{
    let mut before = Vec::with_capacity(alloc, rests.len())?;
    let mut from = Vec::with_capacity(alloc, rests.len())?;
    for rest in rests {
        let cut = cut_rest(keys, are_exact, rest, rows, boundary);
        before.push(cut.before)?;
        from.push(cut.from)?;
    }
    Ok(CutRests { before, from })
}

/// The same rests.
fn copy_rests<'a>(alloc: Global, rests: &[PartRest<'a>]) -> Result<Vec<PartRest<'a>>, AllocError>
    ensures { IfOk result (λ copies. copies.items ≡ rests.now) }
{
    let mut copies = Vec::with_capacity(alloc, rests.len())?;
    for rest in rests {
        copies.push(PartRest {
            rows: rest.rows,
            places: rest.places,
        })?;
    }
    Ok(copies)
}

/// The place of the list of which most rows are left.
fn place_of_longest(rests: &[PartRest<'_>]) -> usize {
    let mut longest = 0;
    let mut most = 0;
    for place in 0..rests.len() {
        let count = rests[place].places.len();
        if count > most {
            longest = place;
            most = count;
        }
    }
    longest
}

/// Places of a list of this length that cut it into at most this many parts of about the same length.
fn equal_distances(alloc: Global, len: usize, count: usize) -> Result<Vec<usize>, AllocError>
    requires { 0 < count }
    ensures { IfOk result (λ places. All (λ place. place < len) places.items) }
{
    let distance = len / count;
    let mut places = Vec::with_capacity(alloc, count)?;
    for number in 1..count {
        let place = distance.saturating_mul(number);
        if place >= len {
            break;
        }
        places.push(place)?;
    }
    Ok(places)
}

/// What is left of several lists, cut at rows of one of them, which are at these places there.
fn cut_in_ranges<'a>(
    alloc: Global,
    keys: &[SortKey],
    all: &PartRests<'a>,
    longest: &PartRest<'a>,
    places: &[usize],
) -> Result<Vec<PartRests<'a>>, AllocError>
    requires all { IsRange keys.now all.now }
    requires longest { IsRest keys.now all.now.are_exact longest.now }
    requires places { All (λ place. place < length longest.now.places.now) places.now }
    ensures { IfOk result (λ ranges. AreRangesOf keys.now all.now.rests.items ranges.items) }
{
    let are_exact = all.are_exact;
    let mut ranges = Vec::with_capacity(alloc, places.len())?;
    let mut rests = copy_rests(alloc, all.rests.as_slice())?;
    for place in places {
        let boundary = &longest.places[*place];
        let cut = cut_rests(
            alloc,
            keys,
            are_exact,
            rests.as_slice(),
            longest.rows,
            boundary,
        )?;
        ranges.push(PartRests {
            rests: cut.before,
            are_exact,
        })?;
        rests = cut.from;
    }
    ranges.push(PartRests { rests, are_exact })?;
    Ok(ranges)
}

/// The places of the rows of the range at a place of some ranges, in the order of the keys.
fn merge_range(
    alloc: Global,
    keys: &[SortKey],
    ranges: &[PartRests<'_>],
    at: usize,
) -> Result<Vec<PartPlace>, AllocError>
    requires ranges { AllByRecursion (IsRange keys.now) ranges.now }
    requires at { at < length ranges.now }
    ensures { (range : PartRests) → IsRangeMerged keys.now (slice_index_or ranges.now at range) result }
{
    let range = &ranges[at];
    let rests = copy_rests(alloc, range.rests.as_slice())?;
    merge_rests(
        alloc,
        keys,
        PartRests {
            rests,
            are_exact: range.are_exact,
        },
    )
}

/// What each of some threads makes: the places of the rows of one range, in the order of the keys.
fn merge_ranges<R: Threads + Sync>(
    rt: &R,
    alloc: Global,
    keys: &[SortKey],
    ranges: &[PartRests<'_>],
) -> Result<Vec<Result<Vec<PartPlace>, AllocError>>, AllocError>
    requires { AllByRecursion (IsRange keys.now) ranges.now }
    ensures { IfOk result (λ made. AreRangesMerged keys.now ranges.now made.items) }
{
    map_indices(
        rt,
        alloc,
        ranges.len(),
        &|at| merge_range(alloc, keys, ranges, at),
    )
}

/// Adds the places of the rows of a range.
fn add_places(places: &mut Vec<PartPlace>, more: Vec<PartPlace>) -> Result<(), AllocError>
    ensures { OnOk result (places.new.items ≡ places.old.items ++ more.items) }
{
    let mut more = more;
    places.append(&mut more)?;
    Ok(())
}

/// Whether one of some ranges has more than three quarters of the rows, of which there are this many.
fn has_one_most(ranges: &[PartRests<'_>], rows: usize) -> bool {
    for range in ranges {
        if count_rows(range.rests.as_slice()) > rows - rows / 4 {
            return true;
        }
    }
    false
}

/// The places of the rows of all ranges, which are this many rows, one range after another. The error is that memory ran out in a thread, or here.
fn join_places(
    alloc: Global,
    count: usize,
    made: Vec<Result<Vec<PartPlace>, AllocError>>,
) -> Result<Vec<PartPlace>, AllocError>
    ensures { (keys : List SortKey) (rests : List PartRest) (ranges : List PartRests)
        → AreRangesOf keys rests ranges
        → AreRangesMerged keys ranges made.items
        → IfOk result (λ places. AreRestsMerged keys rests places.items) }
{
    let mut places = Vec::with_capacity(alloc, count)?;
    for made_places in made {
        add_places(&mut places, made_places?)?;
    }
    Ok(places)
}

/// The places of the rows that are left, in the order of the keys, by at most this many threads. Where most rows are in one range, as when the
/// lists follow one another in the order, one thread does all: such lists take little time to merge.
fn merge_in_threads<R: Threads + Sync>(
    rt: &R,
    alloc: Global,
    threads: usize,
    keys: &[SortKey],
    all: PartRests<'_>,
) -> Result<Vec<PartPlace>, AllocError>
    requires { IsRange keys.now all }
    ensures { IfOk result (λ places. AreRestsMerged keys.now all.entry.rests.items places.items) }
{
    let rows = count_rows(all.rests.as_slice());
    let count = threads.min(rows / LEAST_ROWS_OF_A_THREAD);
    if count < 2 {
        return merge_rests(alloc, keys, all);
    }
    let place = place_of_longest(all.rests.as_slice());
    let Some(longest) = all.rests.as_slice().get(place) else {
        return merge_rests(alloc, keys, all);
    };
    let places = equal_distances(alloc, longest.places.len(), count)?;
    let ranges = cut_in_ranges(alloc, keys, &all, longest, places.as_slice())?;
    if has_one_most(ranges.as_slice(), rows) {
        return merge_rests(alloc, keys, all);
    }
    let made = merge_ranges(rt, alloc, keys, ranges.as_slice())?;
    join_places(alloc, rows, made)
}

/// Where the rows of lists lie, in the order of the keys; rows with equal keys follow in the order of the lists, and in a list keep theirs. No
/// row is copied. At most this many threads find them: each makes the order of the rows that lie between two boundaries, which cut the list of which
/// there are most rows into equal parts. For few rows one thread does all. None where the order of a list by these keys was not made. The only
/// error is out of memory.
pub fn order_parts<R: Threads + Sync>(
    rt: &R,
    alloc: Global,
    threads: usize,
    keys: &[SortKey],
    parts: &[&RowsWithOrder],
) -> Result<Option<Vec<PartPlace>>, AllocError>
    ensures { IfOk result (λ found. IfSome found (λ places. AreInOrder keys.now (lists parts.now) places.items)) }
{
    let Some(rests) = rests_of(alloc, keys, parts)? else {
        return Ok(None);
    };
    let places = merge_in_threads(rt, alloc, threads, keys, rests)?;
    Ok(Some(places))
}
