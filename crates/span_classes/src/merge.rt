//! The groups of all classes in the order of their first rows: each row is asked whether it is the first of the group that is next of its class.
ghost use Rattle.std.specs.Prelude.{◌≡◌, ◌≢◌, ◌<◌, ◌+◌, IfOk, List, ℕ, OnOk, false, length, replicate, slice_index_or, true};
ghost use Rattle.span_classes.specs.Merging.{AreMerged, AreMergedBefore, AreParted, AreByClass, IsNext, firsts_of};

use super::class_groups::ClassGroups;
use span_merging::parts::PartPlace;
use std::alloc::{AllocError, Global};

/// Whether a row is the first of the group that is next of a class, of which some were taken.
fn is_next(class: &ClassGroups, taken: usize, row: usize) -> bool
    ensures next { result ≡ true → IsNext class.now.firsts.items taken row }
    ensures other { result ≡ false → taken < length class.now.firsts.items → slice_index_or class.now.firsts.items taken 0 ≢ row }
{
    match class.firsts.get(taken) {
        Some(first) => *first == row,
        None => false,
    }
}

/// Takes the next group of the class of a row where the row is its first one.
fn take_where_next(
    classes: &[ClassGroups],
    part: usize,
    row: usize,
    taken: &mut Vec<usize>,
    places: &mut Vec<PartPlace>,
) -> Result<(), AllocError>
    requires part { part < length classes.now }
    requires counted { length taken.old.items ≡ length classes.now }
    ensures { OnOk result
        ((numbers : List ℕ)
        → slice_index_or numbers row 0 ≡ part
        → row < length numbers
        → AreByClass numbers (firsts_of classes.now)
        → AreMergedBefore numbers (firsts_of classes.now) taken.old.items places.old.items row
        → AreMergedBefore numbers (firsts_of classes.now) taken.new.items places.new.items (row + 1)) }
{
    let place = taken[part];
    if is_next(&classes[part], place, row) {
        places.push(PartPlace { part, place })?;
        taken[part] = place + 1;
    }
    Ok(())
}

/// No groups taken of each class.
fn none_taken(alloc: Global, classes: usize) -> Result<Vec<usize>, AllocError>
    ensures { IfOk result (λ taken. taken.items ≡ replicate classes 0) }
{
    let mut taken = Vec::with_capacity(alloc, classes)?;
    for _ in 0..classes {
        taken.push(0)?;
    }
    Ok(taken)
}

/// How many groups there are.
fn count_groups(classes: &[ClassGroups]) -> usize {
    let mut count = 0usize;
    for class in classes {
        count = count.saturating_add(class.firsts.len());
    }
    count
}

/// Where the groups of all classes lie, in the order of their first rows; of each row the number of its key's class is known.
pub(crate) fn merge_classes(
    alloc: Global,
    classes: &[ClassGroups],
    numbers: &[usize],
) -> Result<Vec<PartPlace>, AllocError>
    requires { AreByClass numbers.now (firsts_of classes.now) }
    ensures { IfOk result (λ places. AreMerged (firsts_of classes.now) places.items) }
{
    let mut places = Vec::with_capacity(alloc, count_groups(classes))?;
    let mut taken = none_taken(alloc, classes.len())?;
    for row in 0..numbers.len() {
        take_where_next(classes, numbers[row], row, &mut taken, &mut places)?;
    }
    Ok(places)
}
