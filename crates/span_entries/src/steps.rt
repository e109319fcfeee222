//! The steps of a table's coded keys: a key is one of the table where it goes along them to its end. They are written out once, so that
//! no table and no column is looked up for a key.
ghost use Rattle.std.specs.Prelude.{◌≡◌, ◌++◌, IfOk, MatchOption, OnOk};
ghost use Rattle.span_schema.specs.Numbers.{IsTable};
ghost use Rattle.span_entries.specs.Entries.{IsWhetherOf};
ghost use Rattle.span_entries.specs.Steps as spec;

use span_keycode::root::skip_value;
use span_keycode::value::after;
use span_schema::layout::KeyPart;
use span_schema::schema::Schema;
use span_value::seq::Seq;
use std::alloc::{AllocError, Global};

/// A step of the coded keys of a table.
#[derive(Clone, Copy, Debug)]
pub enum KeyStep {
    /// The number of a table, with which a level begins.
    Table(usize),
    /// The value of a column.
    Column(KeyPart),
}

/// Adds the steps of a level: the number of its table, and the columns that its key adds.
fn add_level(steps: &mut Vec<KeyStep>, table: usize, columns: &[KeyPart]) -> Result<(), AllocError>
    ensures { OnOk result (steps.new.items ≡ steps.old.items ++ spec.level_steps table columns.now) }
{
    steps.push(KeyStep::Table(table))?;
    for column in columns {
        steps.push(KeyStep::Column(*column))?;
    }
    Ok(())
}

/// The steps of a table's coded keys, from the root table's number on.
pub fn key_steps(alloc: Global, schema: &Schema, table: usize) -> Result<Seq<KeyStep>, AllocError>
    requires { IsTable schema.now table }
    ensures { IfOk result (λ steps. steps ≡ spec.key_steps schema.now table) }
{
    let path = schema.path_of(table);
    let mut steps = Vec::new(alloc);
    for i in 0..path.len() {
        add_level(&mut steps, path[i], schema.own_key_columns(path[i]))?;
    }
    Ok(Seq::from_vec(steps))
}

/// The width of the number of a table, where bytes begin with it.
#[tactic(auto, using(crate::proofs::Along::nothing_off, crate::proofs::Along::other_off, crate::proofs::Along::number_taken))]
fn number_width(table: usize, bytes: &[u8]) -> Option<usize>
    ensures { MatchOption result (spec.IsOffNumber table bytes.now) (spec.IsNumberTaken table bytes.now) }
{
    if bytes.len() == 0 {
        return None;
    }
    if bytes[0] as usize != table {
        return None;
    }
    Some(1)
}

/// How many bytes a step takes at the front of a key's bytes that are left. None where these do not begin with its table's number.
fn step_width(step: KeyStep, bytes: &[u8]) -> Option<usize>
    ensures { MatchOption result (spec.IsOff step bytes.now) (spec.IsTaken step bytes.now) }
{
    match step {
        KeyStep::Table(table) => number_width(table, bytes),
        KeyStep::Column(column) => Some(skip_value(column, bytes)),
    }
}

/// Whether a coded key goes along the steps to its end. The first byte that is another table's number ends it.
pub fn goes_along(schema: &Schema, table: usize, steps: &[KeyStep], key: &[u8]) -> bool
    requires table { IsTable schema.now table }
    requires steps { steps.now ≡ spec.key_steps schema.now table }
    ensures { IsWhetherOf schema.now table key.now result }
{
    schema.meets_rules();
    let mut at = 0;
    for step in steps {
        match step_width(*step, after(key, at)) {
            None => return false,
            Some(width) => at += width,
        }
    }
    at == key.len()
}
