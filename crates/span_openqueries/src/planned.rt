//! A query that was understood and planned, and is not open yet.
ghost use Rattle.std.specs.Prelude.{◌≡◌, IfOk};
ghost use Rattle.span_planner.specs.Plannable.{IsPlannable};
ghost use Rattle.span_machine.specs.Machine.{statement_plan};
ghost use Rattle.span_openqueries.specs.Planned.{IsPlanned};

use span_columns::leaf::Plan;
use span_params::params::Params;
use span_planner::plan::plan;
use span_query::query::Statement;
use span_schema::schema::Schema;
use span_value::owned::keep_with;
use span_value::text::Text;
use std::alloc::{AllocError, Global};

/// A query text with its parameters, the statement that it is understood as, and its plan.
#[derive(Drop)]
pub struct PlannedQuery {
    pub text: Text,
    pub params: Params,
    pub statement: Statement,
    pub plan: Plan,
}

/// The plan of a statement that can be planned. The error is out of memory.
#[tactic(auto, using(span_planner::proofs::SizedNumbers::sized_numbered))]
pub fn plan_statement(
    alloc: Global,
    schema: &Schema,
    statement: &Statement,
) -> Result<Plan, AllocError>
    requires { IsPlannable schema.now statement.now }
    ensures { IfOk result (λ plan. plan ≡ statement_plan schema.now statement.now) }
{
    plan(alloc, schema, statement.leaves.as_slice(), &statement.query)
}

/// A query text with its parameters, and the statement that it is understood as, with its plan. The error is out of memory.
pub fn planned_query(
    alloc: Global,
    schema: &Schema,
    text: Text,
    params: Params,
    statement: Statement,
) -> Result<PlannedQuery, AllocError>
    requires { IsPlannable schema.now statement }
    ensures planned { IfOk result (IsPlanned schema.now) }
    ensures same { IfOk result
        (λ query. (query.text ≡ text) × (query.params ≡ params) × (query.statement ≡ statement)) }
{
    let plan = plan_statement(alloc, schema, &statement);
    let (statement, plan) = keep_with(statement, plan)?;
    Ok(PlannedQuery {
        text,
        params,
        statement,
        plan,
    })
}
