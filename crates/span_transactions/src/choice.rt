//! The mutations of a transaction that lie in a slot. Where all do, they are lent and not copied.
ghost use Rattle.std.specs.Prelude.{◌≡◌, ◌++◌, [], ◌∷◌, MatchResult};
ghost use Rattle.std.specs.List.{list_any, list_all};
ghost use Rattle.span_machine.specs.Machine.{holds, root_at, mutations_in};
ghost use Rattle.span_transactions.specs.Choices.{chosen_mutations};

use super::slots::holds;
use span_machine::slot::SlotState;
use span_mutate::mutation::CheckedMutation;
use span_schema::schema::Schema;
use span_value::refusal::Refusal;
use span_value::seq::Seq;
use std::alloc::Global;

/// Mutations, lent or copied.
#[derive(Drop)]
pub enum Chosen<'a> {
    Lent(&'a [CheckedMutation]),
    Made(Seq<CheckedMutation>),
}

impl Chosen<'_> {
    /// The mutations.
    pub fn as_slice(&self) -> &[CheckedMutation]
        ensures { result.now ≡ chosen_mutations self.now }
    {
        match self {
            Chosen::Lent(mutations) => *mutations,
            Chosen::Made(mutations) => mutations.as_slice(),
        }
    }
}

/// Whether the directory of a mutation lies in the slot.
pub fn has_any(schema: &Schema, slot_state: &SlotState, mutations: &[CheckedMutation]) -> bool
    ensures { result ≡ list_any (λ m. holds schema.now slot_state.now (root_at schema.now m)) mutations.now }
{
    mutations.iter().any(|m| holds(schema, slot_state, m))
}

/// Whether the directories of all mutations lie in the slot.
fn has_all(schema: &Schema, slot_state: &SlotState, mutations: &[CheckedMutation]) -> bool
    ensures { result ≡ list_all (λ m. holds schema.now slot_state.now (root_at schema.now m)) mutations.now }
{
    mutations.iter().all(|m| holds(schema, slot_state, m))
}

/// The mutations whose directories lie in the slot. They are copied where there are others, which may run out of
/// memory.
pub fn mutations_in<'a>(
    alloc: Global,
    schema: &Schema,
    slot_state: &SlotState,
    mutations: &'a [CheckedMutation],
) -> Result<Chosen<'a>, Refusal>
    ensures { MatchResult result
        (λ chosen. chosen_mutations chosen ≡ mutations_in schema.now slot_state.now mutations.now)
        (λ why. why ≡ Refusal.OutOfMemory) }
{
    if has_all(schema, slot_state, mutations) {
        return Ok(Chosen::Lent(mutations));
    }
    match copies_in(alloc, schema, slot_state, mutations) {
        Ok(copies) => Ok(Chosen::Made(copies)),
        Err(why) => Err(why),
    }
}

/// Copies of the mutations whose directories lie in the slot, or `OutOfMemory`.
fn copies_in(
    alloc: Global,
    schema: &Schema,
    slot_state: &SlotState,
    mutations: &[CheckedMutation],
) -> Result<Seq<CheckedMutation>, Refusal>
    ensures { MatchResult result
        (λ copies. copies ≡ mutations_in schema.now slot_state.now mutations.now)
        (λ why. why ≡ Refusal.OutOfMemory) }
{
    let mut copies = Seq::new(alloc);
    for mutation in mutations {
        push_in(alloc, schema, slot_state, &mut copies, mutation)?;
    }
    Ok(copies)
}

/// Appends a copy of the mutation where its directory lies in the slot.
fn push_in(
    alloc: Global,
    schema: &Schema,
    slot_state: &SlotState,
    copies: &mut Seq<CheckedMutation>,
    mutation: &CheckedMutation,
) -> Result<(), Refusal>
    ensures { MatchResult result
        (λ _. copies.new ≡ copies.old ++ mutations_in schema.now slot_state.now (mutation.now ∷ []))
        (λ why. why ≡ Refusal.OutOfMemory) }
{
    if holds(schema, slot_state, mutation) {
        copies.push(mutation.copy(alloc)?)?;
    }
    Ok(())
}
