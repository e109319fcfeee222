//! Functions, by their names.
ghost use Rattle.std.specs.Prelude.{◌≡◌};
ghost use Rattle.std.specs.Option.{option_copied};
ghost use Rattle.span_operators.specs.Functions as spec;

use span_query::query::Function;
use span_schema::table::are_same;

/// What a call may name.
#[derive(Clone, Copy, Debug, PartialEq, Eq)]
pub enum CalledFunction {
    Aggregate(Function),
    /// DIV
    Divide,
    /// MOD
    Modulo,
    Length,
    StartsWith,
    If,
    IfNull,
    Coalesce,
}

const FUNCTIONS: [CalledFunction; 11] = [
    CalledFunction::Aggregate(Function::Count),
    CalledFunction::Aggregate(Function::Sum),
    CalledFunction::Aggregate(Function::Min),
    CalledFunction::Aggregate(Function::Max),
    CalledFunction::Divide,
    CalledFunction::Modulo,
    CalledFunction::Length,
    CalledFunction::StartsWith,
    CalledFunction::If,
    CalledFunction::IfNull,
    CalledFunction::Coalesce,
];

fn aggregate_name(function: Function) -> &'static str
    ensures { result.now ≡ spec.aggregate_name function }
{
    match function {
        Function::Count => "COUNT",
        Function::Sum => "SUM",
        Function::Min => "MIN",
        Function::Max => "MAX",
    }
}

fn name_of(function: CalledFunction) -> &'static str
    ensures { result.now ≡ spec.name_of function }
{
    match function {
        CalledFunction::Aggregate(function) => aggregate_name(function),
        CalledFunction::Divide => "DIV",
        CalledFunction::Modulo => "MOD",
        CalledFunction::Length => "LENGTH",
        CalledFunction::StartsWith => "STARTS_WITH",
        CalledFunction::If => "IF",
        CalledFunction::IfNull => "IFNULL",
        CalledFunction::Coalesce => "COALESCE",
    }
}

fn first_named<'a>(functions: &'a [CalledFunction], name: &str) -> Option<&'a CalledFunction>
    ensures { option_copied result ≡ spec.first_named name.now functions.now }
{
    functions
        .iter()
        .find(|function| are_same(name_of(**function), name))
}

/// The function with a name, in letters of either case, if there is one.
#[tactic(auto, unfolding(crate::specs::Functions::function_named))]
pub fn function_named(name: &str) -> Option<CalledFunction>
    ensures { result ≡ spec.function_named name.now }
{
    first_named(&FUNCTIONS, name).copied()
}
