//! The plan of a statement, as text.
ghost use Rattle.std.specs.Prelude.{◌≡◌, IfErr, IfOk};
ghost use Rattle.span_gather.specs.Explained.{explained};
ghost use Rattle.span_machine.specs.Machine.{statement_plan};
ghost use Rattle.span_planner.specs.Plannable.{IsPlannable};

use span_gather::explain::explain;
use span_openqueries::planned::plan_statement;
use span_query::query::Statement;
use span_schema::schema::Schema;
use span_value::owned::give_after;
use span_value::refusal::Refusal;
use span_value::text::Text;
use std::alloc::Global;

/// The text that explains the plan of a statement that can be planned. `OutOfMemory` is the only refusal.
pub(crate) fn explain_statement(
    alloc: Global,
    schema: &Schema,
    statement: &Statement,
) -> Result<Text, Refusal>
    requires { IsPlannable schema.now statement.now }
    ensures text { IfOk result (λ text. text ≡ explained schema.now (statement_plan schema.now statement.now)) }
    ensures memory { IfErr result (λ why. why ≡ Refusal.OutOfMemory) }
{
    match plan_statement(alloc, schema, statement) {
        Ok(plan) => {
            let text = explain(alloc, schema, &plan);
            match give_after(plan, text) {
                Ok(text) => Ok(text),
                Err(_) => Err(Refusal::OutOfMemory),
            }
        }
        Err(_) => Err(Refusal::OutOfMemory),
    }
}
