//! The text that explains a plan.
ghost use Rattle.std.specs.Prelude.{◌≡◌, ◌++◌, ◌∷◌, [], ◌/◌, ◌%◌, ◌<◌, OnOk, IfOk, string_bytes};
ghost use Rattle.std.specs.Char.{digit_char};
ghost use Rattle.std.specs.Fmt.{decimal};
ghost use Rattle.span_value.specs.Cells.{hex_pairs};
ghost use Rattle.span_gather.specs.Explained as spec;

use itoa::Buffer;
use span_columns::leaf::{Leaf, Plan};
use span_keycode::range::KeyRange;
use span_schema::schema::Schema;
use span_value::text::Text;
use std::alloc::{AllocError, Global};

/// The text that explains a plan: a line with the number of its leaves, and then for each leaf a line with its number, which is counted
/// from 0, the names of its tables, and the range of coded keys that it reads in hexadecimal, or `empty`. The error is out of memory.
pub fn explain(alloc: Global, schema: &Schema, plan: &Plan) -> Result<Text, AllocError>
    ensures { IfOk result (λ text. text ≡ spec.explained schema.now plan.now) }
{
    let mut out = String::from_str(alloc, "leaves ")?;
    push_number(&mut out, plan.leaves.len())?;
    out.push_str("\n")?;
    push_leaves(&mut out, schema, plan.leaves.as_slice())?;
    Ok(Text::from_string(out))
}

/// Adds the line of each leaf.
fn push_leaves(out: &mut String, schema: &Schema, leaves: &[Leaf]) -> Result<(), AllocError>
    ensures { OnOk result (string_bytes out.new ≡ string_bytes out.old ++ spec.leaf_lines schema.now 0 leaves.now) }
{
    for number in 0..leaves.len() {
        push_leaf(out, schema, number, &leaves[number])?;
    }
    Ok(())
}

/// Adds the line of a leaf.
fn push_leaf(
    out: &mut String,
    schema: &Schema,
    number: usize,
    leaf: &Leaf,
) -> Result<(), AllocError>
    ensures { OnOk result (string_bytes out.new ≡ string_bytes out.old ++ spec.leaf_line schema.now number leaf.now) }
{
    out.push_str("leaf ")?;
    push_number(out, number)?;
    out.push_str(" ")?;
    push_names(out, schema, leaf.tables.as_slice())?;
    out.push_str(" ")?;
    push_range(out, &leaf.range)?;
    out.push_str("\n")?;
    Ok(())
}

/// Adds a number in decimal.
fn push_number(out: &mut String, number: usize) -> Result<(), AllocError>
    ensures { OnOk result (string_bytes out.new ≡ string_bytes out.old ++ decimal number) }
{
    out.push_str(Buffer::new().format(number))?;
    Ok(())
}

/// Adds the names of tables, separated by commas.
fn push_names(out: &mut String, schema: &Schema, tables: &[usize]) -> Result<(), AllocError>
    ensures { OnOk result (string_bytes out.new ≡ string_bytes out.old ++ spec.table_names schema.now tables.now) }
{
    let Some((first, others)) = tables.split_first() else {
        return Ok(());
    };
    push_name(out, schema, *first)?;
    push_more_names(out, schema, others)
}

/// Adds the names of tables, each after a comma.
fn push_more_names(out: &mut String, schema: &Schema, tables: &[usize]) -> Result<(), AllocError>
    ensures { OnOk result (string_bytes out.new ≡ string_bytes out.old ++ spec.more_names schema.now tables.now) }
{
    for table in tables {
        out.push_str(",")?;
        push_name(out, schema, *table)?;
    }
    Ok(())
}

/// Adds the name of a table as the schema spells it.
fn push_name(out: &mut String, schema: &Schema, table: usize) -> Result<(), AllocError>
    ensures { OnOk result (string_bytes out.new ≡ string_bytes out.old ++ spec.table_name schema.now table) }
{
    if let Some(found) = schema.tables().get(table.saturating_sub(1)) {
        out.push_str(found.name.as_str())?;
    }
    Ok(())
}

/// Adds the ends of a range, or `empty` where it has no keys.
fn push_range(out: &mut String, range: &KeyRange) -> Result<(), AllocError>
    ensures { OnOk result (string_bytes out.new ≡ string_bytes out.old ++ spec.range_text range.now) }
{
    if range.low.cmp(&range.high).is_lt() {
        push_ends(out, range)
    } else {
        out.push_str("empty")
    }
}

/// Adds the ends of a range.
fn push_ends(out: &mut String, range: &KeyRange) -> Result<(), AllocError>
    ensures { OnOk result (string_bytes out.new ≡ string_bytes out.old ++ spec.ends_text range.now) }
{
    out.push_str("[")?;
    push_hex(out, range.low.as_slice())?;
    out.push_str(",")?;
    push_hex(out, range.high.as_slice())?;
    out.push_str(")")?;
    Ok(())
}

/// Adds each byte as two hexadecimal digits in lower case.
fn push_hex(out: &mut String, bytes: &[u8]) -> Result<(), AllocError>
    ensures { OnOk result (string_bytes out.new ≡ string_bytes out.old ++ hex_pairs bytes.now) }
{
    for byte in bytes {
        push_pair(out, *byte)?;
    }
    Ok(())
}

/// Adds the two hexadecimal digits of a byte.
fn push_pair(out: &mut String, byte: u8) -> Result<(), AllocError>
    ensures { OnOk result
        (string_bytes out.new ≡ string_bytes out.old ++ (digit_char (byte / 16) ∷ digit_char (byte % 16) ∷ [])) }
{
    out.push(hex_digit(byte / 16))?;
    out.push(hex_digit(byte % 16))?;
    Ok(())
}

fn hex_digit(half: u8) -> char
    requires { half < 16 }
    ensures digit { result ≡ digit_char half }
    ensures ascii { result < 128 }
{
    if half < 10 {
        char::from(b'0' + half)
    } else {
        char::from(b'a' + (half - 10))
    }
}
