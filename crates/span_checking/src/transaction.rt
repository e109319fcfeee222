//! A transaction as it is begun: mutations that were checked against the schema.
ghost use Rattle.std.specs.Prelude.{◌≡◌, ◌⊎◌, Ok, Err, IfOk, IfErr, MatchResult, All};
ghost use Rattle.span_schema.specs.Numbers.{IsTable};
ghost use Rattle.span_mutate.specs.Batches.{batch_mutations};
ghost use Rattle.span_checking.specs.Checking.{checked_all, checked_transaction};
ghost use Rattle.span_mutate.specs.Directories.{AreKeyed};
ghost use Rattle.span_mutate.specs.Typed.{AreTypedMutations};

use super::batch_check::check_batches;
use super::check::check;
use span_mutate::batch::MutationBatch;
use span_mutate::copy::copy_of_mutations;
use span_mutate::mutation::{CheckedMutation, Mutation};
use span_schema::schema::Schema;
use span_value::refusal::Refusal;
use span_value::seq::Seq;
use std::alloc::Global;
use std::marker::Model;

/// The mutations of a transaction, in the order in which they run. Contracts see it as their list.
#[derive(Debug, Drop, PartialEq, Eq)]
pub struct Transaction {
    mutations: Seq<CheckedMutation>,
}

impl Model for Transaction {
    ghost use Rattle.std.specs.Prelude.{List};
    ghost use Rattle.span_mutate.specs.declared.mutation.CheckedMutation.{CheckedMutation};

    ghost Value = { List CheckedMutation };

    ghost view = { λ a. a.mutations };

    ghost inverse = { λ ms. record { mutations = ms } };
}

impl Transaction {
    /// A transaction of these mutations.
    ///
    /// `EmptyTransaction` where there is none; else the first mutation that breaks a rule gives the refusal, the first of these:
    /// `NoTable`; of the whole key `WrongType` (also where it has not one value for each key column), `NullNotAllowed`,
    /// `ValueTooLong`, `KeyTooLong`; of each cell in turn `NoColumn` (no such column, one of the key, one named before, or any cell
    /// of a Delete), `WrongType`, `NullNotAllowed`, `ValueTooLong`; `NullNotAllowed` where an Insert or InsertOrUpdate does not name
    /// a NOT NULL column. `OutOfMemory`: memory ran out.
    pub fn new(
        alloc: Global,
        schema: &Schema,
        mutations: Vec<Mutation>,
    ) -> Result<Transaction, Refusal>
        ensures ok { IfOk result (λ t. checked_transaction schema.now mutations.items ≡ Ok t) }
        ensures tables { IfOk result (λ t. All (λ m. IsTable schema.now m.table) t) }
        ensures keyed { IfOk result (λ t. AreKeyed schema.now t) }
        ensures typed { IfOk result (λ t. AreTypedMutations schema.now t) }
        ensures refused { IfErr result
            (λ why. (why ≡ Refusal.OutOfMemory) ⊎ (checked_transaction schema.now mutations.items ≡ Err why)) }
    {
        if mutations.is_empty() {
            return Err(Refusal::EmptyTransaction);
        }
        Ok(Transaction {
            mutations: Seq::from_vec(check_all(alloc, schema, mutations)?),
        })
    }

    /// A transaction of the mutations of these batches, one after another: what `new` makes of them, and refuses as `new` does. The
    /// names of a batch are looked up once, and a row's values are moved.
    pub fn from_batches(
        alloc: Global,
        schema: &Schema,
        batches: Vec<MutationBatch>,
    ) -> Result<Transaction, Refusal>
        ensures ok { IfOk result (λ t. checked_transaction schema.now (batch_mutations batches.items) ≡ Ok t) }
        ensures tables { IfOk result (λ t. All (λ m. IsTable schema.now m.table) t) }
        ensures keyed { IfOk result (λ t. AreKeyed schema.now t) }
        ensures typed { IfOk result (λ t. AreTypedMutations schema.now t) }
        ensures refused { IfErr result
            (λ why.
            (why ≡ Refusal.OutOfMemory)
            ⊎ (checked_transaction schema.now (batch_mutations batches.items) ≡ Err why)) }
    {
        let checked = check_batches(alloc, schema, batches)?;
        if checked.is_empty() {
            return Err(Refusal::EmptyTransaction);
        }
        Ok(Transaction {
            mutations: Seq::from_vec(checked),
        })
    }

    /// An equal transaction, or `OutOfMemory`.
    pub fn copy(&self, alloc: Global) -> Result<Transaction, Refusal>
        ensures { MatchResult result (λ copy. copy ≡ self.now) (λ why. why ≡ Refusal.OutOfMemory) }
    {
        Ok(Transaction {
            mutations: Seq::from_vec(copy_of_mutations(alloc, self.mutations.as_slice())?),
        })
    }

    /// The mutations.
    pub fn mutations(&self) -> &[CheckedMutation]
        ensures { result.now ≡ self.now }
    {
        self.mutations.as_slice()
    }

    /// The list of the mutations, without a copy.
    pub fn into_mutations(self) -> Seq<CheckedMutation>
        ensures { result ≡ self }
    {
        let Transaction { mutations } = self;
        mutations
    }
}

fn check_all(
    alloc: Global,
    schema: &Schema,
    mutations: Vec<Mutation>,
) -> Result<Vec<CheckedMutation>, Refusal>
    ensures checked { MatchResult result
        (λ cs. checked_all schema.now mutations.items ≡ Ok cs.items)
        (λ why. (why ≡ Refusal.OutOfMemory) ⊎ (checked_all schema.now mutations.items ≡ Err why)) }
    ensures tables { IfOk result (λ cs. All (λ m. IsTable schema.now m.table) cs.items) }
    ensures keyed { IfOk result (λ cs. AreKeyed schema.now cs.items) }
    ensures typed { IfOk result (λ cs. AreTypedMutations schema.now cs.items) }
{
    let mut checked = Vec::with_capacity(alloc, mutations.len())?;
    for mutation in mutations {
        checked.push_reserved(check(alloc, schema, checked.as_slice(), mutation)?);
    }
    Ok(checked)
}
