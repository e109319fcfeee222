//! A query as a session asks it: its query text is understood, planned and compared while no lock is held.
ghost use Rattle.std.specs.Prelude.{◌≡◌, ◌⊎◌, ◌∷◌, [], true, IfOk, IfErr, Ok, Err, Some, slice_get};
ghost use Rattle.std.specs.Option.{option_copied};
ghost use Rattle.span_gather.specs.Gathered.{gathered};
ghost use Rattle.span_planner.specs.Plannable.{IsPlannable};
ghost use Rattle.span_binder.specs.Understands.{Understands};
ghost use Rattle.span_locks.specs.Answers.{IsPlanOf};
ghost use Rattle.span_locks.specs.Refusing.{IsFaultOf};
ghost use Rattle.span_locks.specs.Replies.{IsAmong};

use span_binder::understand::understand;
use span_board::same::are_same;
use span_columns::leaf::{Leaf, Plan};
use span_gather::finish::finish_taken;
use span_gather::rows::Rows;
use span_openqueries::planned::plan_statement;
use span_openqueries::taken::Taken;
use span_params::params::Params;
use span_query::query::Statement;
use span_schema::schema::Schema;
use span_soundness::laws::can_be_planned;
use span_value::owned::give_after;
use span_value::refusal::Refusal;
use span_value::seq::Seq;
use span_value::text::Text;
use std::alloc::Global;
use std::mem;
use std::thread::Threads;

/// What a query text, with these parameters, is understood as, and its plan. The refusal of the query text, or `OutOfMemory`.
pub(crate) fn understand_and_plan(
    alloc: Global,
    schema: &Schema,
    text: &str,
    params: &Params,
) -> Result<(Statement, Plan), Refusal>
    ensures understood { IfOk result (λ r. Understands schema.now text.now params.now (Ok r.0)) }
    ensures plannable { IfOk result (λ r. IsPlannable schema.now r.0) }
    ensures plan { IfOk result (λ r. IsPlanOf schema.now text.now params.now r.1) }
    ensures refused { IfErr result
        (λ why. (why ≡ Refusal.OutOfMemory) ⊎ Understands schema.now text.now params.now (Err why)) }
{
    match understand(alloc, schema, text, params) {
        Ok(statement) => {
            can_be_planned(schema, text, params, &statement);
            match plan_statement(alloc, schema, &statement) {
                Ok(plan) => Ok((statement, plan)),
                Err(_) => give_after(statement, Err(Refusal::OutOfMemory)),
            }
        }
        Err(why) => Err(why),
    }
}

/// The leaf at a place of the plan, counted from 0, if there is one.
pub(crate) fn leaf_at(plan: &Plan, place: usize) -> Option<&Leaf>
    ensures { option_copied result ≡ slice_get plan.now.leaves place }
{
    plan.leaves.as_slice().get(place)
}

/// Copies of a query text and its parameters. `OutOfMemory`.
pub(crate) fn copy_question(
    alloc: Global,
    text: &str,
    params: &Params,
) -> Result<(Text, Params), Refusal>
    ensures copies { IfOk result (λ r. (r.0 ≡ text.now) × (r.1 ≡ params.now)) }
    ensures memory { IfErr result (λ why. why ≡ Refusal.OutOfMemory) }
{
    let text = Text::from_str(alloc, text)?;
    let params = params.copy(alloc)?;
    Ok((text, params))
}

/// Whether what was taken was asked with this query text and these parameters, at this timestamp.
fn is_of(taken: &Taken, text: &str, params: &Params, s: u64) -> bool
    ensures { result ≡ true → (taken.now.text ≡ text.now) × (taken.now.params ≡ params.now) × (taken.now.s ≡ s) }
{
    taken.text.as_str() == text
        && are_same(taken.params.as_slice(), params.as_slice())
        && taken.s == s
}

/// The rows that what was taken gives, whose pieces are taken from it; at most this many workers make them. `UnknownQuery` where something
/// else was asked.
pub(crate) fn rows_of<R: Threads + Sync>(
    rt: &R,
    alloc: Global,
    workers: usize,
    taken: &mut Taken,
    text: &str,
    params: &Params,
    s: u64,
) -> Result<Rows, Refusal>
    ensures same { IfOk result (λ _. (taken.old.text ≡ text.now) × (taken.old.params ≡ params.now) × (taken.old.s ≡ s)) }
    ensures rows { IfOk result (λ rows. gathered taken.old.pieces taken.old.top ≡ Some rows.rows) }
    ensures refused { IfErr result
        (λ why. ((why ≡ Refusal.ArithmeticFault) × IsFaultOf taken.old text.now params.now s)
        ⊎ IsAmong (Refusal.OutOfMemory ∷ Refusal.UnknownQuery ∷ []) why) }
{
    if !is_of(taken, text, params, s) {
        return Err(Refusal::UnknownQuery);
    }
    let pieces = mem::replace(&mut taken.pieces, Seq::new(alloc));
    match finish_taken(rt, alloc, workers, &taken.top, pieces) {
        Ok(rows) => Ok(rows),
        Err(why) => Err(why),
    }
}
