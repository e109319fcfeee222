//! How tests open a database: first its table, then the database and its sessions under a name of that table.
ghost use Rattle.std.specs.Prelude.{◌≡◌, IfOk};

use crate::users::two_schemas;
use span_board::board::Naming;
use span_board::session::Session;
use span_schema::schema::Schema;
use span_session::db::Db;
use span_session::open::UnnamedDb;
use span_value::refusal::Refusal;
use std::alloc::Global;
use std::test::Fail;

/// A database of these tables that has no name yet, for this many sessions; and its schema, by which transactions are made.
pub fn database_of(
    alloc: Global,
    tables: &str,
    sessions: u64,
) -> Result<(UnnamedDb, Schema), Refusal>
    ensures { IfOk result (λ r. r.0.schema ≡ r.1) }
{
    let (schema, kept) = two_schemas(alloc, tables)?;
    let opened = UnnamedDb::new(alloc, schema, sessions)?;
    Ok((opened, kept))
}

/// The database under a name of its table, and its session.
pub fn with_session<J: Naming>(opened: UnnamedDb) -> Result<(Db<J>, Session<J>), Fail>
    requires table { opened.table ≡ J.table }
    requires schema { opened.schema ≡ J.schema }
{
    let (db, mut sessions) = opened.into_database::<J>()?;
    let Some(me) = sessions.pop() else {
        return Err(Fail::from("a session"));
    };
    Ok((db, me))
}

/// The database under a name of its table, and its two sessions.
pub fn with_two_sessions<J: Naming>(
    opened: UnnamedDb,
) -> Result<(Db<J>, Session<J>, Session<J>), Fail>
    requires table { opened.table ≡ J.table }
    requires schema { opened.schema ≡ J.schema }
{
    let (db, mut sessions) = opened.into_database::<J>()?;
    let b = sessions.pop();
    let a = sessions.pop();
    let (Some(a), Some(b)) = (a, b) else {
        return Err(Fail::from("two sessions"));
    };
    Ok((db, a, b))
}
