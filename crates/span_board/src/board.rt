//! The table that all share: its rule, and what each step ensures.
ghost use Rattle.std.specs.Prelude.{◌≡◌};

use atomic_table::{Join, Play, Seat, Split, Table, TableRule};
use span_machine::transaction::Commit;
use span_schema::schema::Schema;
use span_shard::shard::Shard;
use std::alloc::Global;
use std::collections::LinkedList;
use std::marker::{Brand, Model, PhantomData};

/// Names one table, and the schema of its database.
pub trait Naming {
    ghost use Rattle.std.specs.Prelude.{List};
    ghost use Rattle.atomic_table.specs.Seated.{TableId};
    ghost use Rattle.span_schema.specs.declared.table.Table.{Table};

    ghost table: { TableId };

    ghost schema: { List Table };
}

impl Naming for Brand {
    ghost use Rattle.span_board.specs.Known.{no_table, no_schema};

    ghost table = { no_table };

    ghost schema = { no_schema };
}

/// The log and what each slot is to have, as the rule knows them. No value of it is made.
pub struct Account;

impl Model for Account {
    ghost use Rattle.std.specs.Prelude.{[]};
    ghost use Rattle.span_board.specs.Known.{Known};

    ghost Value = { Known };

    ghost view = { λ _. record { commits = []; slots = [] } };
}

/// The owner of a seat. No value of it is made.
pub enum Role {
    Keeper(Account),
    Holder(usize, Shard),
    Client(u64, LinkedList<Commit>, LinkedList<Commit>),
}

/// What a step says: the commit, or the shard as it has become.
#[derive(Drop)]
pub enum Change {
    Grown(Commit),
    Restated(Shard),
}

/// What a seat knows: its roles. No value of it is made.
pub struct View;

impl Model for View {
    ghost use Rattle.std.specs.Prelude.{List, []};
    ghost use Rattle.span_board.specs.declared.board.Role.{Role};

    ghost Value = { List Role };

    ghost view = { λ _. [] };
}

/// What a session, the holder of a slot and the keeper of the journal each know of the database.
pub type DbSeat = Seat<Change, View>;

/// The rule of the table (`specs/Rule.antt`): what those who have a seat know of the database stays true.
pub struct Law;

impl TableRule<Change, View, (u64, usize)> for Law {
    ghost use Rattle.span_board.specs.Rule.{Kept, opening_roles};

    ghost holds = { λ n s. Kept n.0 s.words s.views };

    ghost first = { λ n. opening_roles n.0 n.1 };
}

/// The log grows by a session's commit.
pub struct Publish;

impl Play<Change, View> for Publish {
    ghost use Rattle.std.specs.Prelude.{◌≡◌};
    ghost use Rattle.span_board.specs.Rule.{Publishes};

    ghost then = { λ step me n after. (after.1 ≡ me.1) × Publishes me.0 step.said after.0 };
}

/// A session looks.
pub struct Look;

impl Play<Change, View> for Look {
    ghost use Rattle.std.specs.Prelude.{◌≡◌};
    ghost use Rattle.span_board.specs.Rule.{Looks};

    ghost then = { λ step me n after. (after.1 ≡ me.1) × Looks me.0 n after.0 };
}

/// Under the journal's lock a session sees the whole log.
pub struct Catch;

impl Play<Change, View> for Catch {
    ghost use Rattle.std.specs.Prelude.{◌≡◌};
    ghost use Rattle.span_board.specs.Rule.{Catches};

    ghost then = { λ step me n after. (after.1 ≡ me.1) × Catches me.0 after.0 };
}

/// What a slot has is what the journal says.
pub struct Agree;

impl Play<Change, View> for Agree {
    ghost use Rattle.std.specs.Prelude.{◌≡◌};
    ghost use Rattle.span_board.specs.Rule.{Agrees};

    ghost then = { λ step me n after. (after ≡ me) × Agrees me.0 };
}

/// A slot changes, and what the journal knows of it.
pub struct Restate;

impl Play<Change, View> for Restate {
    ghost use Rattle.std.specs.Prelude.{◌≡◌};
    ghost use Rattle.span_board.specs.Rule.{Restates};

    ghost then = { λ step me n after. (after.1 ≡ me.1) × Restates me.0 step.said after.0 };
}

/// Two seats meet in one, and part.
pub struct Meet;

impl Join<View> for Meet {
    ghost use Rattle.std.specs.Prelude.{[], ◌++◌};

    ghost both = { λ v w. w ++ v };

    ghost spent = { [] };
}

impl Split<View> for Meet {
    ghost use Rattle.span_board.specs.Rule.{first_of, others_of};

    ghost left = { others_of };

    ghost right = { first_of };
}

/// What all sessions of a database share without a lock: the table of their seats and the schema.
#[derive(Drop)]
pub struct Board<J: Naming> {
    pub table: Table<Change, View, (u64, usize), Law, Global>,
    pub schema: Schema,
    pub alloc: Global,
    pub of: PhantomData<J>,
    pub ghost schema_is: { schema ≡ J.schema },
    pub ghost table_is: { table.shared.table_id ≡ J.table },
    pub ghost words: { table.shared.table_id.words ≡ 1 },
}
