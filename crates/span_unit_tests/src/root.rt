//! Mutations on the rows of a root, given as a list: the program has them as versions.
use span_checking::transaction::Transaction;
use span_mutate::mutation::{Mutation, MutationKind};
use span_mutate::root::check_root;
use span_mutate::row::TableRow;
use span_schema::schema::Schema;
use span_schematext::text::parse_schema;
use span_value::refusal::Refusal;
use span_value::seq::Seq;
use span_value::text::Text;
use span_value::value::Value;
use std::alloc::{AllocError, Global};
use std::test::Fail;

const WORDS: &str = "CREATE TABLE N (n INT64) PRIMARY KEY (n)";

fn key(alloc: Global, number: i64) -> Result<Seq<Value>, AllocError> {
    let mut values = Seq::new(alloc);
    values.push(Value::Int(number))?;
    Ok(values)
}

// The mutation of the row of this number.
fn mutation(alloc: Global, kind: MutationKind, number: i64) -> Result<Vec<Mutation>, AllocError> {
    let mut mutations = Vec::new(alloc);
    mutations.push(Mutation {
        kind,
        table: Text::from_str(alloc, "N")?,
        key: key(alloc, number)?,
        cells: Seq::new(alloc),
    })?;
    Ok(mutations)
}

// The row of the number 1.
fn rows(alloc: Global) -> Result<Vec<TableRow>, AllocError> {
    let mut rows = Vec::new(alloc);
    rows.push(TableRow {
        table: 1,
        key: key(alloc, 1)?,
        cells: Seq::new(alloc),
    })?;
    Ok(rows)
}

// How many rows there are after a mutation of the row of the number 1.
fn count_after(alloc: Global, schema: &Schema, kind: MutationKind) -> Result<usize, Refusal> {
    let transaction = Transaction::new(alloc, schema, mutation(alloc, kind, 1)?)?;
    let after = check_root(alloc, schema, rows(alloc)?, transaction.mutations())?;
    Ok(after.len())
}

#[test]
fn mutations_of_a_row(rt: HostRuntime) -> Result<(), Fail> {
    let alloc = rt.alloc();
    let schema = parse_schema(alloc, WORDS)?;
    assert_eq!(rt; count_after(alloc, &schema, MutationKind::Delete), Ok(0));
    assert_eq!(rt;
        count_after(alloc, &schema, MutationKind::Insert),
        Err(Refusal::Exists)
    );
    Ok(())
}
