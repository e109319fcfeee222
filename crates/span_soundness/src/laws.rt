//! The laws of types and of plans, each as the contract of a function that does nothing.
ghost use Rattle.std.specs.Prelude.{Ok};
ghost use Rattle.span_binder.specs.Understands.{Understands};
ghost use Rattle.span_planner.specs.Plannable.{IsPlannable};
ghost use Rattle.span_soundness.specs.Laws.{ExpressionsKeepTypes, NullComesOfNull, ParametersStayTyped, TypesAreRight, LayersAreTyped, QueriesAreTyped, StatementsAreTyped, QueriesKeepTypes, ResultsAreTyped, StatementsCanBePlanned};

use span_params::params::Params;
use span_query::query::Statement;
use span_schema::schema::Schema;

/// Where an expression is of a type at rows of these types, its value at each such row is of that type or NULL, or the fault.
pub fn expressions_keep_types()
    ensures { ExpressionsKeepTypes }
{}

/// On operands of its types an operator answers NULL only where one of them is NULL.
pub fn null_comes_of_null()
    ensures { NullComesOfNull }
{}

/// Where a parameter with a value of its type is added, each parameter still has a value of its type.
pub fn parameters_stay_typed()
    ensures { ParametersStayTyped }
{}

/// The type that the binder finds for an expression is right: at rows of the types that its names have the expression is of that
/// type. So are the aggregates that are found in it.
pub fn types_are_right()
    ensures { TypesAreRight }
{}

/// A query is well typed where each of its blocks is: its items give the types of its names, its conditions are BOOL, its output
/// is of the types of its columns, and these are the same in all blocks. A derived table gives the types that its query does.
pub fn layers_are_typed()
    ensures { LayersAreTyped }
{}

/// What the binder makes of a query is well typed, with the types of the columns that the binder names.
pub fn queries_are_typed()
    ensures { QueriesAreTyped }
{}

/// Each statement that the binder makes of a query is well typed, and the types of its result are those of its columns.
pub fn statements_are_typed()
    ensures { StatementsAreTyped }
{}

/// What a well typed query means on tables of its leaves' types is rows of its types, or the fault.
pub fn queries_keep_types()
    ensures { QueriesKeepTypes }
{}

/// What a bound query means on tables with rows of their types is rows of the types of its columns, or the fault.
pub fn results_are_typed()
    ensures { ResultsAreTyped }
{}

/// The statement that a query text is understood as can be planned: its leaves are tables of the schema, each item of its FROMs is one of
/// them, each join states how many columns its item has, and all blocks of a query give as many columns as the first.
pub fn statements_can_be_planned()
    ensures { StatementsCanBePlanned }
{}

/// The same of one statement, for a caller that goes on to plan it.
pub fn can_be_planned(schema: &Schema, text: &str, params: &Params, statement: &Statement)
    requires { Understands schema.now text.now params.now (Ok statement.now) }
    ensures { IsPlannable schema.now statement.now }
{}
