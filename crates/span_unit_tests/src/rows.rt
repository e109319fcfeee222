//! Bytes that pack no row, which no script can give.
use span_rowcode::unpack::unpack;
use span_schema::schema::Schema;
use span_schematext::text::parse_schema;
use span_value::refusal::Refusal;
use std::alloc::Global;
use std::test::Fail;

const USERS: &str = "CREATE TABLE Users (uid INT64, email STRING(MAX)) PRIMARY KEY (uid)";

// Bytes that pack no user.
const NO_ROWS: [&[u8]; 5] = [
    b"",
    b"\x02",
    b"\x00\x00",
    b"\x01\x00\x00\x00\x01",
    b"\x01\x00\x00\x00\x01\xff",
];

fn is_bad(alloc: Global, schema: &Schema, bytes: &[u8]) -> bool {
    if schema.len() == 0 {
        return false;
    }
    match unpack(alloc, schema, 1, bytes) {
        Ok(_row) => false,
        Err(why) => why == Refusal::BadRow,
    }
}

#[test]
fn no_rows(rt: HostRuntime) -> Result<(), Fail> {
    let alloc = rt.alloc();
    let schema = parse_schema(alloc, USERS)?;
    for bytes in NO_ROWS {
        assert!(rt; is_bad(alloc, &schema, bytes));
    }
    Ok(())
}
