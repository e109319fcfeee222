//! Bytes that code no key, which no script can give; and the root's part of a key.
use span_keycode::decode::decode_key;
use span_keycode::encode::encode_key;
use span_keycode::root::root_prefix;
use span_schema::schema::Schema;
use span_schematext::text::parse_schema;
use span_value::refusal::Refusal;
use span_value::value::Value;
use std::alloc::Global;
use std::test::Fail;

const WORDS: &str = "CREATE TABLE Words (w STRING(MAX)) PRIMARY KEY (w)";

// Bytes that code no word.
const NO_KEYS: [&[u8]; 7] = [
    b"",
    b"\x02\x00",
    b"\x01\x02",
    b"\x01\x00\x00",
    b"\x01\x01\x61\x00",
    b"\x01\x01\x61\x00\x02",
    b"\x01\x01\xff\x00\x01",
];

fn is_bad(alloc: Global, schema: &Schema, bytes: &[u8]) -> bool {
    match decode_key(alloc, schema, bytes) {
        Ok(_key) => false,
        Err(why) => why == Refusal::BadKey,
    }
}

#[test]
fn no_keys(rt: HostRuntime) -> Result<(), Fail> {
    let alloc = rt.alloc();
    let schema = parse_schema(alloc, WORDS)?;
    for bytes in NO_KEYS {
        assert!(rt; is_bad(alloc, &schema, bytes));
    }
    Ok(())
}

const USERS_AND_ALBUMS: &str = "
    CREATE TABLE Users (uid INT64) PRIMARY KEY (uid);
    CREATE TABLE Albums (uid INT64, aid INT64) PRIMARY KEY (uid, aid), INTERLEAVE IN PARENT Users";

// Whether the key of an album has this root.
fn is_root(alloc: Global, schema: &Schema, album: &[Value], root: &[u8]) -> bool {
    if schema.len() < 2 {
        return false;
    }
    match encode_key(alloc, schema, 2, album) {
        Ok(key) => root_prefix(schema, &key) == root,
        Err(_why) => false,
    }
}

/// The root of Albums (1, 10) is Users (1).
#[test]
fn root_of_album(rt: HostRuntime) -> Result<(), Fail> {
    let alloc = rt.alloc();
    let schema = parse_schema(alloc, USERS_AND_ALBUMS)?;
    let album = vec![in alloc; Value::Int(1), Value::Int(10)]?;
    assert!(rt;
        is_root(
            alloc,
            &schema,
            album.as_slice(),
            b"\x01\x01\x80\x00\x00\x00\x00\x00\x00\x01"
        )
    );
    Ok(())
}
