//! Tables of users and their albums, transactions that change them, and the rows that queries find.
ghost use Rattle.std.specs.Prelude.{◌≡◌, IfOk};
ghost use Rattle.span_mutate.specs.Typed.{AreTypedMutations};

use span_checking::transaction::Transaction;
use span_gather::rows::Rows;
use span_mutate::mutation::{Mutation, MutationKind};
use span_schema::schema::Schema;
use span_schematext::text::parse_schema;
use span_value::refusal::Refusal;
use span_value::seq::Seq;
use span_value::text::Text;
use span_value::value::Value;
use std::alloc::{AllocError, Global};
use std::ops::Range;
use std::test::Fail;

/// A table of users.
pub const USERS: &str =
    "CREATE TABLE Users (uid INT64 NOT NULL, email STRING(MAX)) PRIMARY KEY (uid)";

/// Users, and albums in their directories.
pub const TABLES: &str =
    "CREATE TABLE Users (uid INT64 NOT NULL, email STRING(MAX)) PRIMARY KEY (uid); \
CREATE TABLE Albums (uid INT64 NOT NULL, aid INT64 NOT NULL) PRIMARY KEY (uid, aid), INTERLEAVE IN PARENT Users";

/// A query of all users.
pub const UIDS: &str = "SELECT uid FROM Users";

/// A query of all users, from the last on.
pub const FALLING_UIDS: &str = "SELECT uid FROM Users ORDER BY uid DESC";

/// The schema of a text twice: a database takes one, and transactions are made by the other.
pub fn two_schemas(alloc: Global, text: &str) -> Result<(Schema, Schema), Refusal>
    ensures { IfOk result (λ r. r.0 ≡ r.1) }
{
    let given = parse_schema(alloc, text)?;
    let kept = parse_schema(alloc, text)?;
    Ok((given, kept))
}

/// A transaction that inserts a user.
pub fn insert(alloc: Global, schema: &Schema, uid: i64) -> Result<Transaction, Refusal>
    ensures { IfOk result (λ t. AreTypedMutations schema.now t) }
{
    let mut key = Seq::new(alloc);
    key.push(Value::Int(uid))?;
    let mut mutations = Vec::new(alloc);
    mutations.push(Mutation {
        kind: MutationKind::Insert,
        table: Text::from_str(alloc, "Users")?,
        key,
        cells: Seq::new(alloc),
    })?;
    Transaction::new(alloc, schema, mutations)
}

/// An Insert of a row that has key columns alone.
pub fn insert_into(alloc: Global, table: &str, key: &[i64]) -> Result<Mutation, AllocError> {
    let mut values = Seq::new(alloc);
    for value in key {
        values.push(Value::Int(*value))?;
    }
    Ok(Mutation {
        kind: MutationKind::Insert,
        table: Text::from_str(alloc, table)?,
        key: values,
        cells: Seq::new(alloc),
    })
}

/// A transaction of two Inserts.
pub fn both(
    alloc: Global,
    schema: &Schema,
    first: Mutation,
    second: Mutation,
) -> Result<Transaction, Refusal>
    ensures { IfOk result (λ t. AreTypedMutations schema.now t) }
{
    let mut mutations = Vec::new(alloc);
    mutations.push(first)?;
    mutations.push(second)?;
    Transaction::new(alloc, schema, mutations)
}

/// A transaction that inserts users.
pub fn insert_all(alloc: Global, schema: &Schema, uids: &[i64]) -> Result<Transaction, Refusal>
    ensures { IfOk result (λ t. AreTypedMutations schema.now t) }
{
    let mut mutations = Vec::new(alloc);
    for uid in uids {
        mutations.push(insert_into(alloc, "Users", &[*uid])?)?;
    }
    Transaction::new(alloc, schema, mutations)
}

/// A transaction that inserts a user and their albums of these numbers.
pub fn insert_with_albums(
    alloc: Global,
    schema: &Schema,
    uid: i64,
    albums: Range<u32>,
) -> Result<Transaction, Refusal>
    ensures { IfOk result (λ t. AreTypedMutations schema.now t) }
{
    let mut mutations = Vec::new(alloc);
    mutations.push(insert_into(alloc, "Users", &[uid])?)?;
    for aid in albums {
        mutations.push(insert_into(alloc, "Albums", &[uid, i64::from(aid)])?)?;
    }
    Transaction::new(alloc, schema, mutations)
}

/// A change of the user of a number.
pub fn change(alloc: Global, kind: MutationKind, uid: i64) -> Result<Mutation, AllocError> {
    let mut change = insert_into(alloc, "Users", &[uid])?;
    change.kind = kind;
    Ok(change)
}

/// Whether the rows are these, of one column.
pub fn are_uids(rows: &Rows, wanted: &[i64]) -> bool {
    if rows.len() != wanted.len() {
        return false;
    }
    for (at, uid) in wanted.iter().enumerate() {
        match rows.row(at) {
            [Value::Int(found)] if *found == *uid => (),
            _ => return false,
        }
    }
    true
}

/// Whether the rows that were found are these, of one column, or why there are none. It takes the rows, so that the caller drops none.
pub fn are_found(found: Result<Rows, Refusal>, wanted: &[i64]) -> Result<bool, Refusal> {
    match found {
        Ok(rows) => Ok(are_uids(&rows, wanted)),
        Err(why) => Err(why),
    }
}

/// A failure that says what was expected, where the rows that were found are not these, of one column.
pub fn expect_uids(found: Result<Rows, Refusal>, wanted: &[i64], what: &str) -> Result<(), Fail> {
    match are_found(found, wanted) {
        Ok(true) => Ok(()),
        Ok(false) => Err(Fail::new(format_args!("{what}: the rows are not {wanted:?}"))),
        Err(why) => Err(Fail::new(format_args!("{what}: it was refused by {why:?}"))),
    }
}
