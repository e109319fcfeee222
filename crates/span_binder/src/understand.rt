//! From a query text to a statement.
ghost use Rattle.std.specs.Prelude.{◌≡◌, ◌⊎◌, ℕ, List, Result, Ok, Err, IfOk, IfErr};
ghost use Rattle.std.specs.List.{AllByRecursion};
ghost use Rattle.span_query.specs.declared.query.Statement.{Statement};
ghost use Rattle.span_params.specs.declared.params.Parameter.{Parameter};
ghost use Rattle.span_schema.specs.declared.table.Table.{Table};
ghost use Rattle.span_schema.specs.Numbers.{IsTable};
ghost use Rattle.span_value.specs.declared.refusal.Refusal.{Refusal};
ghost use Rattle.span_binder.specs.Faults.{IsQueryFault};
ghost use Rattle.span_binder.specs.Understands.{Understands};

use crate::binding::bind;
use span_params::params::Params;
use span_query::query::Statement;
use span_querytext::parse::parse_select;
use span_schema::schema::Schema;
use span_value::refusal::Refusal;
use std::alloc::Global;

/// The statement of a query text with these parameters.
///
/// The error is the first of these, or out of memory: `TextTooLong`, `BadToken`, `Syntax` or `TooDeep` where the text is no query of the
/// grammar, as [`parse_select`] judges it; then the first fault in its tree, as [`bind`] judges it.
pub fn understand(
    alloc: Global,
    schema: &Schema,
    text: &str,
    params: &Params,
) -> Result<Statement, Refusal>
    // Sound and complete: the result is what the query text is understood as, or out of memory.
    ensures understood { IfOk result (λ q. Understands schema.now text.now params.now (Ok q)) }
    ensures refused { IfErr result
        (λ why. (why ≡ Refusal.OutOfMemory) ⊎ Understands schema.now text.now params.now (Err why)) }
    ensures all { (u : Result Statement Refusal)
        → Understands schema.now text.now params.now u
        → (result ≡ u) ⊎ (result ≡ Err Refusal.OutOfMemory) }
    // The refusal is a fault of the text, 1 to 4, or of its tree, 10 to 20.
    ensures faults { IfErr result (λ why. (why ≡ Refusal.OutOfMemory) ⊎ IsQueryFault why) }
    // The leaves are tables of the schema.
    ensures leaves { IfOk result (λ q. AllByRecursion (IsTable schema.now) q.leaves) }
{
    match parse_select(alloc, text) {
        Ok(tree) => {
            let statement = bind(alloc, schema, &tree, params);
            drop(tree);
            statement
        }
        Err(fault) => Err(fault.refusal),
    }
}

/// A query text, with parameters, is understood in one way at most.
pub fn understanding_is_unique()
    ensures { (schema : List Table) (text : List ℕ) (params : List Parameter) (u v : Result Statement Refusal)
        → Understands schema text params u
        → Understands schema text params v
        → u ≡ v }
{}
