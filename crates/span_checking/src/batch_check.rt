//! The check of batches against the schema: the names of a batch are looked up once, and its rows are moved.
ghost use Rattle.std.specs.Prelude.{◌≡◌, ◌⊎◌, ◌++◌, [], ◌∷◌, List, Option, All, IfOk, IfSome, OnOk, IsOkUnless, MatchResult, None, Some, Ok, Err, false, true};
ghost use Rattle.std.specs.Option.{option_copied, option_or};
ghost use Rattle.span_value.specs.Results.{first_cause};
ghost use Rattle.span_value.specs.declared.value.Value.{Value};
ghost use Rattle.span_schema.specs.Numbers.{IsTable, columns_of, other_places, table_at};
ghost use Rattle.span_keycode.specs.Keys.{IsCodedKey};
ghost use Rattle.span_checking.specs.NamedBatches.{IsBound, is_full, IsNamed};
ghost use Rattle.span_mutate.specs.Batches.{batch_mutations, named_cells, row_mutation, row_mutations};
ghost use Rattle.span_checking.specs.Checking.{cells_cause, checked, checked_all, checked_at, lack_causes, mutation_cause, with_front};
ghost use Rattle.span_mutate.specs.Directories.{AreKeyed};
ghost use Rattle.span_checking.specs.InOrder.{are_names_at, row_cause};
ghost use Rattle.span_mutate.specs.Typed.{AreTypedMutations, IsTypedMutation};

use super::check::{check, check_key, table_number};
use super::column::{are_names_at, have_named_kinds, is_full};
use super::named_batch::{check_cells, check_named};
use super::named_columns::{NamedColumns, named_columns};
use span_mutate::batch::{BatchRow, Heading, MutationBatch};
use span_mutate::mutation::{CheckedMutation, Mutation, NamedValue, is_delete};
use span_schema::schema::Schema;
use span_schema::table::Table;
use span_value::refusal::Refusal;
use span_value::seq::Seq;
use span_value::text::Text;
use span_value::value::Value;
use std::alloc::Global;

// Whether the names are those of the columns outside the key, one for each, letter by letter and in the order of declaration.
fn are_names_in_order(schema: &Schema, number: usize, names: &[Text]) -> bool
    requires { IsTable schema.now number }
    ensures { result ≡ are_names_at (columns_of schema.now number) (other_places schema.now number) names.now }
{
    let table = schema.table(number);
    are_names_at(table.columns.as_slice(), schema.other_places(number), names)
}

// The number of a batch's table, where the batch puts rows and names all columns outside the key in their order.
fn bound_table(schema: &Schema, before: &[CheckedMutation], heading: &Heading) -> Option<usize>
    requires { All (λ m. IsTable schema.now m.table) before.now }
    ensures { IfSome result (IsBound schema.now heading.now) }
{
    if is_delete(heading.kind) {
        return None;
    }
    let number = table_number(schema, before, heading.table.as_str())?;
    if !are_names_in_order(schema, number, heading.columns.as_slice()) {
        return None;
    }
    Some(number)
}

// Whether the values of a full row of a bound batch break no rule.
fn check_full_cells(
    schema: &Schema,
    number: usize,
    table: &Table,
    heading: &Heading,
    row: &BatchRow,
) -> Result<(), Refusal>
    requires bound { IsBound schema.now heading.now number }
    requires table { Some table.now ≡ table_at schema.now number }
    requires full { is_full heading.now.columns row.now.cells ≡ true }
    ensures { let mutation = row_mutation heading.now row.now in MatchResult result
        (λ _.
        option_or (cells_cause table.now mutation.kind [] mutation.cells)
        (first_cause (lack_causes table.now mutation))
        ≡ None)
        (λ why.
        option_or (cells_cause table.now mutation.kind [] mutation.cells)
        (first_cause (lack_causes table.now mutation))
        ≡ Some why) }
{
    schema.meets_rules();
    check_cells(
        table.columns.as_slice(),
        schema.other_places(number),
        row.cells.as_slice(),
    )
}

// Whether a full row of a bound batch breaks no rule.
fn check_full_rules(
    schema: &Schema,
    number: usize,
    table: &Table,
    heading: &Heading,
    row: &BatchRow,
) -> Result<(), Refusal>
    requires bound { IsBound schema.now heading.now number }
    requires table { Some table.now ≡ table_at schema.now number }
    requires full { is_full heading.now.columns row.now.cells ≡ true }
    ensures cause { MatchResult result
        (λ _. mutation_cause schema.now number table.now (row_mutation heading.now row.now) ≡ None)
        (λ why. mutation_cause schema.now number table.now (row_mutation heading.now row.now) ≡ Some why) }
    ensures coded { IfOk result (λ _. IsCodedKey schema.now number row.now.key) }
{
    check_key(schema, number, table, row.key.as_slice())?;
    check_full_cells(schema, number, table, heading, row)
}

// A full row of a bound batch. Its values are moved, and no memory is taken.
fn check_full(
    schema: &Schema,
    number: usize,
    heading: &Heading,
    row: BatchRow,
) -> Result<CheckedMutation, Refusal>
    requires bound { IsBound schema.now heading.now number }
    requires full { is_full heading.now.columns row.cells ≡ true }
    ensures checked { MatchResult result
        (λ c. checked schema.now (row_mutation heading.now row) ≡ Ok c)
        (λ why. checked schema.now (row_mutation heading.now row) ≡ Err why) }
    ensures typed { IfOk result (λ c. IsTypedMutation schema.now c) }
{
    schema.meets_rules();
    let table = schema.table(number);
    check_full_rules(schema, number, table, heading, &row)?;
    let BatchRow { key, cells } = row;
    prove!(have_named_kinds(schema.other_kinds(number), cells.as_slice()));
    Ok(CheckedMutation {
        kind: heading.kind,
        table: number,
        key,
        cells,
    })
}

// Adds the cell of a value, if it is one, under the first of the names, and returns the names after it.
fn add_cell<'a>(
    alloc: Global,
    names: &'a [Text],
    cell: Option<Value>,
    cells: &mut Vec<NamedValue>,
) -> Result<&'a [Text], Refusal>
    ensures added { IfOk result (λ rest. (others : List (Option Value))
        → cells.new.items ++ named_cells others rest.now ≡ cells.old.items ++ named_cells (cell ∷ others) names.now) }
    ensures memory { IsOkUnless result Refusal.OutOfMemory }
{
    let Some((name, rest)) = names.split_first() else {
        return Ok(names);
    };
    if let Some(value) = cell {
        let column = Text::from_str(alloc, name.as_str())?;
        cells.push(NamedValue { column, value })?;
    }
    Ok(rest)
}

// The cells of values under names. The values are moved.
fn cells_of(
    alloc: Global,
    names: &[Text],
    values: Vec<Option<Value>>,
) -> Result<Vec<NamedValue>, Refusal>
    ensures { MatchResult result
        (λ cells. cells.items ≡ named_cells values.items names.now)
        (λ why. why ≡ Refusal.OutOfMemory) }
{
    let mut cells = Vec::with_capacity(alloc, values.len())?;
    let mut rest = names;
    for value in values {
        rest = add_cell(alloc, rest, value, &mut cells)?;
    }
    Ok(cells)
}

// The mutation that a row is, with names of its own. The values are moved.
fn named_mutation(alloc: Global, heading: &Heading, row: BatchRow) -> Result<Mutation, Refusal>
    ensures { MatchResult result
        (λ m. m ≡ row_mutation heading.now row)
        (λ why. why ≡ Refusal.OutOfMemory) }
{
    let BatchRow { key, cells } = row;
    let cells = cells_of(alloc, heading.columns.as_slice(), cells.into_vec())?;
    let table = Text::from_str(alloc, heading.table.as_str())?;
    Ok(Mutation {
        kind: heading.kind,
        table,
        key,
        cells: Seq::from_vec(cells),
    })
}

// A row, checked against the schema, as those before it were. `bound` is the number of its batch's table and `named` the batch's
// columns, where they are known.
fn check_row(
    alloc: Global,
    schema: &Schema,
    bound: Option<usize>,
    named: Option<&NamedColumns>,
    heading: &Heading,
    before: &[CheckedMutation],
    row: BatchRow,
) -> Result<CheckedMutation, Refusal>
    requires tables { All (λ m. IsTable schema.now m.table) before.now }
    requires bound { IfSome bound (IsBound schema.now heading.now) }
    requires named { IfSome (option_copied named) (IsNamed schema.now heading.now) }
    ensures checked { MatchResult result
        (λ c. checked schema.now (row_mutation heading.now row) ≡ Ok c)
        (λ why. (checked schema.now (row_mutation heading.now row) ≡ Err why) ⊎ (why ≡ Refusal.OutOfMemory)) }
    ensures typed { IfOk result (λ c. IsTypedMutation schema.now c) }
{
    match (bound, named) {
        (Some(number), _) if is_full(heading.columns.as_slice(), row.cells.as_slice()) => {
            check_full(schema, number, heading, row)
        }
        (_, Some(columns)) => check_named(alloc, schema, columns, heading, row),
        _ => {
            let mutation = named_mutation(alloc, heading, row)?;
            check(alloc, schema, before, mutation)
        }
    }
}

// The columns of a batch that is not bound, where its names are those of columns outside the key.
fn unbound_columns(
    alloc: Global,
    schema: &Schema,
    bound: Option<usize>,
    before: &[CheckedMutation],
    heading: &Heading,
) -> Option<NamedColumns>
    requires { All (λ m. IsTable schema.now m.table) before.now }
    ensures { IfSome result (IsNamed schema.now heading.now) }
{
    match bound {
        Some(_) => None,
        None => named_columns(alloc, schema, before, heading),
    }
}

// Adds the rows of a batch, checked, to what was checked before them.
fn check_rows(
    alloc: Global,
    schema: &Schema,
    heading: &Heading,
    rows: Vec<BatchRow>,
    done: &mut Vec<CheckedMutation>,
) -> Result<(), Refusal>
    requires { AreTypedMutations schema.now done.old.items }
    ensures checked { MatchResult result
        (λ _. with_front done.old.items (checked_all schema.now (row_mutations heading.now rows.items))
        ≡ Ok done.new.items)
        (λ why.
        (why ≡ Refusal.OutOfMemory)
        ⊎ (with_front done.old.items (checked_all schema.now (row_mutations heading.now rows.items)) ≡ Err why)) }
    ensures typed { OnOk result (AreTypedMutations schema.now done.new.items) }
{
    let bound = bound_table(schema, done.as_slice(), heading);
    let columns = unbound_columns(alloc, schema, bound, done.as_slice(), heading);
    let named = columns.as_ref();
    done.reserve(rows.len())?;
    for row in rows {
        done.push_reserved(check_row(alloc, schema, bound, named, heading, done.as_slice(), row)?);
    }
    Ok(())
}

/// The mutations of batches in turn, checked against the schema, up to the first that is refused. `docs/REFUSALS.md` has the
/// order of the refusals; `OutOfMemory`: memory ran out.
pub(crate) fn check_batches(
    alloc: Global,
    schema: &Schema,
    batches: Vec<MutationBatch>,
) -> Result<Vec<CheckedMutation>, Refusal>
    ensures checked { MatchResult result
        (λ cs. checked_all schema.now (batch_mutations batches.items) ≡ Ok cs.items)
        (λ why.
        (why ≡ Refusal.OutOfMemory)
        ⊎ (checked_all schema.now (batch_mutations batches.items) ≡ Err why)) }
    ensures tables { IfOk result (λ cs. All (λ m. IsTable schema.now m.table) cs.items) }
    ensures keyed { IfOk result (λ cs. AreKeyed schema.now cs.items) }
    ensures typed { IfOk result (λ cs. AreTypedMutations schema.now cs.items) }
{
    let mut done = Vec::new(alloc);
    for batch in batches {
        let (heading, rows) = batch.into_parts();
        check_rows(alloc, schema, &heading, rows, &mut done)?;
    }
    Ok(done)
}
