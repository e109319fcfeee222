//! Exact sums of INT64 values.
ghost use Rattle.std.specs.Prelude.{◌≡◌, ◌+◌, ◌*◌, ◌^◌, ◌<◌, ◌≤◌, ◌+ℤ◌, pos, length, IsTrue, List};
ghost use Rattle.std.specs.Int.RustNames.{unsigned_abs};
ghost use Rattle.span_value.specs.declared.value.Value.{Value};
ghost use Rattle.span_expr.specs.Operators as operators;
ghost use Rattle.span_query.specs.Rows.{value_of};
ghost use Rattle.span_query.specs.Groups.{total, of_values};
ghost use Rattle.span_query.specs.declared.query.Function.TheVariants as function;
ghost use Rattle.span_conditions.specs.Answers.{Gives};

use span_expr::cell::Failure;
use span_value::value::Value;

/// An exact sum, and the number of its values: so it stays far inside its 128 bits.
#[derive(Clone, Copy, Debug)]
pub struct Sum {
    values: u64,
    total: i128,
    ghost bounded: { unsigned_abs total ≤ values * 2 ^ 63 },
}

impl Sum {
    /// Of no values.
    pub(crate) fn new() -> Sum
        ensures values { result.values ≡ 0 }
        ensures total { result.total ≡ pos 0 }
    {
        Sum {
            values: 0,
            total: 0,
        }
    }

    /// One more value.
    pub(crate) fn add(&mut self, value: i64)
        requires { self.old.values + 1 < 2 ^ 64 }
        ensures values { self.new.values ≡ self.old.values + 1 }
        ensures total { self.new.total ≡ self.old.total +ℤ value }
    {
        let total = self.total + value as i128;
        self.values += 1;
        self.total = total;
    }

    /// The values of another sum after its own. False, and nothing changes, where their number does not fit in 64 bits.
    pub(crate) fn merge(&mut self, more: &Sum) -> bool
        ensures values { IsTrue result → self.new.values ≡ self.old.values + more.now.values }
        ensures total { IsTrue result → self.new.total ≡ self.old.total +ℤ more.now.total }
    {
        let Some(values) = self.values.checked_add(more.values) else {
            return false;
        };
        let total = self.total + more.total;
        self.values = values;
        self.total = total;
        true
    }

    /// NULL of no values, else the exact total, or the fault where it is outside INT64.
    pub(crate) fn outcome(&self) -> Result<Value, Failure>
        ensures { (vs : List Value)
            → self.now.values ≡ length vs
            → self.now.total ≡ total vs
            → Gives result (value_of (of_values function.Sum vs)) }
    {
        if self.values == 0 {
            return Ok(Value::Null);
        }
        number(self.total)
    }
}

/// The number, or the fault where it is outside INT64.
pub(crate) fn number(exact: i128) -> Result<Value, Failure>
    ensures { Gives result (value_of (operators.number exact)) }
{
    if exact >= i64::MIN as i128 && exact <= i64::MAX as i128 {
        Ok(Value::Int(exact as i64))
    } else {
        Err(Failure::Fault)
    }
}
