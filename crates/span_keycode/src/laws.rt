//! The laws of key codings, each as the contract of a function that does nothing.
ghost use Rattle.span_keycode.specs.Laws.{OrderOfKeys, OrderInTable, BeginsOwnRows, OneKey, OrderOfTexts, RangeOfComparison};
ghost use Rattle.span_keycode.specs.Coding.{IsValue, AreValues};

use span_schema::fitting::is_of_kind;
use span_value::value::{Kind, Value};

/// Byte order of coded keys is the order of keys.
pub fn order_of_keys()
    ensures { OrderOfKeys }
{}

/// Keys of one table order by their values, column by column, and no coding begins another.
pub fn order_in_table()
    ensures { OrderInTable }
{}

/// A row's coded key begins its own and those of the rows below it, and no others.
pub fn begins_own_rows()
    ensures { BeginsOwnRows }
{}

/// Different keys have different codings.
pub fn one_key()
    ensures { OneKey }
{}

/// Strings order by their characters, which is the order of the bytes of their UTF-8.
pub fn order_of_texts()
    ensures { OrderOfTexts }
{}

/// The range of a comparison has the keys of the family in which the first root key column compares so.
pub fn range_of_comparison()
    ensures { RangeOfComparison }
{}

/// Values of a running program fit the columns whose kinds they have. No memory is taken.
pub fn are_values(values: &[Value])
    ensures { AreValues values.now }
{
    for value in values {
        is_value(value);
    }
}

fn is_value(value: &Value)
    ensures { IsValue value.now }
{
    let _int = is_of_kind(Kind::Int, value);
    let _str = is_of_kind(Kind::Str, value);
    let _bytes = is_of_kind(Kind::Bytes, value);
    let _bool = is_of_kind(Kind::Bool, value);
}
