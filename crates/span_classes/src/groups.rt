//! The rows of the groups of many rows, by several threads.
ghost use Rattle.std.specs.Prelude.{◌≡◌, ◌<◌, ◌∷◌, ◌++◌, [], Err, IfOk, IfSome, List, MatchResult, OnOk, length};
ghost use Rattle.span_query.specs.declared.query.Grouping.{Grouping};
ghost use Rattle.span_query.specs.Groups as spec;
ghost use Rattle.span_query.specs.Rows.{Row};
ghost use Rattle.span_conditions.specs.Answers.{Gives};
ghost use Rattle.span_rows.specs.LentRows.{lent_rows};
ghost use Rattle.span_classes.specs.Classes.{AreAllClasses, AreClassNumbers, AreMade, rows_of};

use super::class::{Class, class_numbers};
use super::class_groups::{ClassGroups, groups_of_class};
use super::merge::merge_classes;
use span_expr::cell::Failure;
use span_merging::answer_rows::AnswerRows;
use span_query::query::Grouping;
use span_rows::row_list::RowList;
use span_threads::calls::map_indices;
use span_value::value::Value;
use std::alloc::{AllocError, Global};
use std::thread::Threads;

/// What each of some threads makes: the groups of one class; of each row the number of its key's class is known.
fn make_classes<R: Threads + Sync>(
    rt: &R,
    alloc: Global,
    count: usize,
    grouping: &Grouping,
    rows: &[&[Value]],
    numbers: &[usize],
) -> Result<Vec<Result<ClassGroups, Failure>>, AllocError>
    requires numbers { AreClassNumbers count grouping.now.keys (lent_rows rows.now) numbers.now }
    requires keyed { 0 < length grouping.now.keys }
    ensures { IfOk result (λ made. AreMade grouping.now (lent_rows rows.now) count made.items) }
{
    map_indices(
        rt,
        alloc,
        count,
        &|number| groups_of_class(alloc, grouping, Class { number, count }, rows, numbers),
    )
}

/// Adds the groups of a class.
fn add_class(classes: &mut Vec<ClassGroups>, class: ClassGroups) -> Result<(), AllocError>
    ensures { OnOk result (classes.new.items ≡ classes.old.items ++ class ∷ []) }
{
    classes.push(class)?;
    Ok(())
}

/// The groups of all classes, or the first failure.
fn all_classes(
    alloc: Global,
    made: Vec<Result<ClassGroups, Failure>>,
) -> Result<Vec<ClassGroups>, Failure>
    ensures { (g : Grouping) (rows : List Row)
        → AreMade g rows (length made.items) made.items
        → MatchResult result
        (λ classes. AreAllClasses g rows (length made.items) classes.items)
        (λ why. Gives {A = List Row} (Err why) (spec.groups g rows)) }
{
    let mut classes = Vec::with_capacity(alloc, made.len())?;
    for class in made {
        add_class(&mut classes, class?)?;
    }
    Ok(classes)
}

/// The rows of the groups of each class, moved.
fn take_rows(alloc: Global, classes: Vec<ClassGroups>) -> Result<Vec<RowList>, AllocError>
    ensures { IfOk result (λ lists. lists.items ≡ rows_of classes.items) }
{
    let mut lists = Vec::with_capacity(alloc, classes.len())?;
    for class in classes {
        lists.push(class.rows)?;
    }
    Ok(lists)
}

/// The rows of the groups of some rows, in the order of their first rows, made by this many threads. None where there are fewer than two threads,
/// or no key columns. The error is an arithmetic error of an aggregate, or out of memory.
pub fn groups_by_classes<R: Threads + Sync>(
    rt: &R,
    alloc: Global,
    threads: usize,
    grouping: &Grouping,
    rows: &[&[Value]],
) -> Result<Option<AnswerRows>, Failure>
    ensures { MatchResult result
        (λ found. IfSome found (λ made. spec.groups grouping.now (lent_rows rows.now) ≡ Some made))
        (λ why. Gives {A = List Row} (Err why) (spec.groups grouping.now (lent_rows rows.now))) }
{
    if threads < 2 || grouping.keys.is_empty() {
        return Ok(None);
    }
    let numbers = class_numbers(rt, alloc, threads, grouping.keys.as_slice(), rows)?;
    let made = make_classes(rt, alloc, threads, grouping, rows, numbers.as_slice())?;
    let classes = all_classes(alloc, made)?;
    let places = merge_classes(alloc, classes.as_slice(), numbers.as_slice())?;
    let lists = take_rows(alloc, classes)?;
    Ok(Some(AnswerRows::of_parts(lists, places)))
}
