//! How a database begins. A result's type can't depend on which table a call has made, so there are two phases: first the table, then
//! the database and its sessions under a name of that table.
ghost use Rattle.std.specs.Prelude.{◌≡◌, ◌++◌, ◌∷◌, [], IfOk, length};
ghost use Rattle.span_transactions.specs.declared.slots.TheConstants.{MOST_SLOTS};
ghost use Rattle.span_board.specs.Rule.{newcomers, nothing_known, holders, clients};
ghost use Rattle.span_board.specs.declared.board.Role.TheVariants.{Keeper};

use crate::db::Db;
use atomic_table::{Badge, Table};
use span_board::board::{Board, Change, DbSeat, Law, Meet, Naming, View};
use span_board::session::Session;
use span_journal::journal::Journal;
use span_locks::journal::LockedJournal;
use span_locks::slot::LockedSlot;
use span_scans::locks::Locks;
use span_schema::schema::Schema;
use span_shard::shard::Shard;
use span_transactions::slots::MOST_SLOTS;
use std::alloc::{AllocError, Global};
use std::marker::{Model, PhantomData};
use std::sync::Mutex;

/// An empty database that has no name yet: its table, whose one seat has every role.
#[derive(Drop)]
pub struct UnnamedDb {
    table: Table<Change, View, (u64, usize), Law, Global>,
    first: DbSeat,
    schema: Schema,
    sessions: u64,
    alloc: Global,
}

impl Model for UnnamedDb {
    ghost use Rattle.std.specs.Prelude.{◌≡◌, []};
    ghost use Rattle.atomic_table.specs.Seated.{table_id_coded};
    ghost use Rattle.span_transactions.specs.declared.slots.TheConstants.{MOST_SLOTS};
    ghost use Rattle.span_board.specs.Rule.{Named, opening_roles};

    ghost Value = { Named };

    ghost view = { λ o. record { table = o.table.shared.table_id; schema = o.schema; sessions = o.sessions } };

    ghost invariant = { λ o. (o.first.table_id ≡ o.table.shared.table_id)
        × (o.first.me ≡ (opening_roles o.sessions MOST_SLOTS, []))
        × (o.table.shared.table_id.words ≡ 1) };
}

impl UnnamedDb {
    /// An empty database for this many sessions. Session k, counted from 0, is owner k.
    pub fn new(alloc: Global, schema: Schema, sessions: u64) -> Result<UnnamedDb, AllocError>
        ensures schema { IfOk result (λ opened. opened.schema ≡ schema) }
        ensures sessions { IfOk result (λ opened. opened.sessions ≡ sessions) }
    {
        let (table, first) = Table::of_words(alloc, &[0], &(sessions, MOST_SLOTS))?;
        Ok(UnnamedDb {
            table,
            first,
            schema,
            sessions,
            alloc,
        })
    }

    /// The database under a name of its table, and its sessions, in the order of their owners.
    pub fn into_database<J: Naming>(self) -> Result<(Db<J>, Vec<Session<J>>), AllocError>
        requires table { self.table ≡ J.table }
        requires schema { self.schema ≡ J.schema }
        ensures { IfOk result (λ r. r.1.items ≡ newcomers 0 self.sessions) }
    {
        let UnnamedDb {
            table,
            mut first,
            schema,
            sessions: count,
            alloc,
        } = self;
        let board = Board {
            table,
            schema,
            alloc,
            of: PhantomData,
        };
        let keeper = board
            .table
            .shared
            .split_seat::<Meet>(&mut first)
            .into_badge();
        let journal = journal_of(&board, keeper)?;
        let (slots, first) = slots_of(&board, first, count)?;
        let sessions = sessions_of(&board, first, count)?;
        let db = Db {
            locks: Locks::new(board, journal, slots),
        };
        Ok((db, sessions))
    }
}

/// An empty journal, as it lies under its lock.
fn journal_of<J: Naming>(
    board: &Board<J>,
    badge: Badge<View>,
) -> Result<LockedJournal<J>, AllocError>
    requires at { badge.table_id ≡ J.table }
    requires keeper { badge.views ≡ (Keeper (nothing_known MOST_SLOTS) ∷ []) ∷ [] }
{
    board.schema.meets_rules();
    match Journal::new(board.alloc) {
        Ok(journal) => Ok(LockedJournal::new(journal, badge)),
        Err(why) => Err(why),
    }
}

/// The slots, each under its lock, and what is left of the first seat.
fn slots_of<J: Naming>(
    board: &Board<J>,
    first: DbSeat,
    sessions: u64,
) -> Result<(Vec<Mutex<LockedSlot<J>>>, DbSeat), AllocError>
    requires at { first.table_id ≡ J.table }
    requires roles { first.me ≡ (holders 0 MOST_SLOTS ++ clients 0 sessions, []) }
    ensures at { IfOk result (λ r. r.1.table_id ≡ J.table) }
    ensures roles { IfOk result (λ r. r.1.me ≡ (clients 0 sessions, [])) }
    ensures count { IfOk result (λ r. length r.0.items ≡ MOST_SLOTS) }
{
    let _ = sessions;
    let mut first = first;
    let mut slots = Vec::new(board.alloc);
    for number in 0..MOST_SLOTS {
        let seat = board.table.shared.split_seat::<Meet>(&mut first);
        let shard = Shard::new(board.alloc);
        slots.push(Mutex::new(LockedSlot::new(number, shard, seat)))?;
    }
    Ok((slots, first))
}

/// The sessions, which have seen and made nothing.
fn sessions_of<J: Naming>(
    board: &Board<J>,
    first: DbSeat,
    count: u64,
) -> Result<Vec<Session<J>>, AllocError>
    requires at { first.table_id ≡ J.table }
    requires roles { first.me ≡ (clients 0 count, []) }
    ensures { IfOk result (λ sessions. sessions.items ≡ newcomers 0 count) }
{
    let mut first = first;
    let mut sessions = Vec::new(board.alloc);
    for owner in 0..count {
        let seat = board.table.shared.split_seat::<Meet>(&mut first);
        sessions.push(Session::new(board.alloc, owner, seat))?;
    }
    Ok(sessions)
}
