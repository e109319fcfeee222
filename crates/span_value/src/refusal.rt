//! Why a call was refused.
//!
//! Every layer refuses with one of these, so that a refusal passes through all of them as it is.
ghost use Rattle.std.specs.Prelude.{◌≡◌};
ghost use Rattle.span_value.specs.Refusals.{number_of, name_of, message_of};

use std::alloc::{AllocError, AllocFailed};
use std::error::Error;
use std::fmt;

/// Why a call was refused. `docs/REFUSALS.md` says of each what it leaves.
#[derive(Clone, Copy, Debug, PartialEq, Eq)]
pub enum Refusal {
    /// 1: a query or schema text of more than 65,536 bytes.
    TextTooLong,
    /// 2: there is no token at the place.
    BadToken,
    /// 3: the tokens have no tree.
    Syntax,
    /// 4: the 33rd nested opening.
    TooDeep,
    /// 10: no such table.
    NoTable,
    /// 11: no such column, or one named twice.
    NoColumn,
    /// 12: a name that fits two columns.
    Ambiguous,
    /// 13: operands of types that the operator does not take.
    TypeMismatch,
    /// 14: a column outside aggregates that is not in GROUP BY, or an aggregate where none is allowed.
    NotGrouped,
    /// 15: a LIKE pattern with a wrong escape.
    BadPattern,
    /// 16: an ordinal of 0 or past the last column.
    BadOrdinal,
    /// 17: a parameter that was given no value.
    NoParameter,
    /// 18: two items of a FROM with one name.
    DuplicateAlias,
    /// 19: the ninth table name of a query.
    TooManyTables,
    /// 20: blocks of a union that differ in number or types of columns.
    ColumnsDiffer,
    /// 30: a table name that was declared before.
    DuplicateTable,
    /// 31: a parent that is not declared before.
    NoParent,
    /// 32: a child key that does not begin with its parent's key.
    KeyNotPrefixed,
    /// 33: more than 64 tables, or 64 columns of a table.
    TooMany,
    /// 34: more than 7 levels of tables.
    HierarchyTooDeep,
    /// 35: a wrong column or key column.
    BadColumn,
    /// 36: a coded key of more than 1,024 bytes.
    KeyTooLong,
    /// 37: bytes that code no key.
    BadKey,
    /// 38: a packed row of more than 1,048,576 bytes.
    RowTooLong,
    /// 39: bytes that code no row.
    BadRow,
    /// 40: no open transaction of this owner has the number.
    UnknownTransaction,
    /// 41: the transaction is not in the state that the step needs.
    WrongState,
    /// 42: another transaction is prepared on a root key in the slot.
    Conflict,
    /// 43: an insert of a row that is there.
    Exists,
    /// 44: an update of a row that is not there.
    Missing,
    /// 45: a child row without its parent row.
    ParentMissing,
    /// 46: a delete of a row that has child rows.
    HasChildren,
    /// 47: NULL in a NOT NULL column.
    NullNotAllowed,
    /// 48: a value longer than its column allows.
    ValueTooLong,
    /// 49: a value of another type, or a wrong number of key values.
    WrongType,
    /// 50: 65,536 commits and undecided transactions.
    LogFull,
    /// 51: a Prepare would bring the versions that a slot keeps, prepared ones included, over 2^24; of an arena, the greatest
    /// number of nodes is in use.
    ShardFull,
    /// 52: the commit timestamp has not surely passed.
    TooEarly,
    /// 53: a timestamp outside 0 to 2^62 - 1.
    TimestampRange,
    /// 54: 256 open transactions, or the last number was given.
    TransactionTableFull,
    /// 55: a transaction of no mutation.
    EmptyTransaction,
    /// 60: safe time has not reached the timestamp.
    NotYet,
    /// 61: the timestamp is below the horizon.
    Trimmed,
    /// 62: an arithmetic fault somewhere in the query.
    ArithmeticFault,
    /// 63: 64 open queries, or the last number was given.
    QueryTableFull,
    /// 64: no open query has the number, or it has no such leaf.
    UnknownQuery,
    /// 65: the partial results do not cover the query.
    Incomplete,
    /// 70: no root key to split at.
    BadSplit,
    /// 71: something is prepared in the slot.
    SplitBusy,
    /// 72: the slot is not in use, or no slot is left.
    NoSlot,
    /// 73: a horizon above safe time.
    TrimTooNew,
    /// 74: a horizon below the one that is there.
    TrimBackward,
    /// 75: a horizon above the timestamp of a lease.
    TrimLeased,
    /// 76: 64 open leases, or the last number was given.
    LeaseTableFull,
    /// 77: no open lease of this owner has the number.
    UnknownLease,
    /// 80: an interval that ends before it begins.
    BadInterval,
    /// 81: a line that is no command.
    BadCommand,
    /// 82: the input device failed.
    InputFault,
    /// 83: the output device failed.
    OutputFault,
    /// 90: a memory allocation failed.
    OutOfMemory,
}

impl Refusal {
    /// The number under which the refusal is answered.
    pub fn number(self) -> u8
        ensures { result ≡ number_of self }
    {
        match self {
            Refusal::TextTooLong => 1,
            Refusal::BadToken => 2,
            Refusal::Syntax => 3,
            Refusal::TooDeep => 4,
            Refusal::NoTable => 10,
            Refusal::NoColumn => 11,
            Refusal::Ambiguous => 12,
            Refusal::TypeMismatch => 13,
            Refusal::NotGrouped => 14,
            Refusal::BadPattern => 15,
            Refusal::BadOrdinal => 16,
            Refusal::NoParameter => 17,
            Refusal::DuplicateAlias => 18,
            Refusal::TooManyTables => 19,
            Refusal::ColumnsDiffer => 20,
            Refusal::DuplicateTable => 30,
            Refusal::NoParent => 31,
            Refusal::KeyNotPrefixed => 32,
            Refusal::TooMany => 33,
            Refusal::HierarchyTooDeep => 34,
            Refusal::BadColumn => 35,
            Refusal::KeyTooLong => 36,
            Refusal::BadKey => 37,
            Refusal::RowTooLong => 38,
            Refusal::BadRow => 39,
            Refusal::UnknownTransaction => 40,
            Refusal::WrongState => 41,
            Refusal::Conflict => 42,
            Refusal::Exists => 43,
            Refusal::Missing => 44,
            Refusal::ParentMissing => 45,
            Refusal::HasChildren => 46,
            Refusal::NullNotAllowed => 47,
            Refusal::ValueTooLong => 48,
            Refusal::WrongType => 49,
            Refusal::LogFull => 50,
            Refusal::ShardFull => 51,
            Refusal::TooEarly => 52,
            Refusal::TimestampRange => 53,
            Refusal::TransactionTableFull => 54,
            Refusal::EmptyTransaction => 55,
            Refusal::NotYet => 60,
            Refusal::Trimmed => 61,
            Refusal::ArithmeticFault => 62,
            Refusal::QueryTableFull => 63,
            Refusal::UnknownQuery => 64,
            Refusal::Incomplete => 65,
            Refusal::BadSplit => 70,
            Refusal::SplitBusy => 71,
            Refusal::NoSlot => 72,
            Refusal::TrimTooNew => 73,
            Refusal::TrimBackward => 74,
            Refusal::TrimLeased => 75,
            Refusal::LeaseTableFull => 76,
            Refusal::UnknownLease => 77,
            Refusal::BadInterval => 80,
            Refusal::BadCommand => 81,
            Refusal::InputFault => 82,
            Refusal::OutputFault => 83,
            Refusal::OutOfMemory => 90,
        }
    }

    /// The name of the refusal, one word, as docs/REFUSALS.md lists it.
    pub fn name(self) -> &'static str
        ensures { result.now ≡ name_of self }
    {
        match self {
            Refusal::TextTooLong => "TextTooLong",
            Refusal::BadToken => "BadToken",
            Refusal::Syntax => "Syntax",
            Refusal::TooDeep => "TooDeep",
            Refusal::NoTable => "NoTable",
            Refusal::NoColumn => "NoColumn",
            Refusal::Ambiguous => "Ambiguous",
            Refusal::TypeMismatch => "TypeMismatch",
            Refusal::NotGrouped => "NotGrouped",
            Refusal::BadPattern => "BadPattern",
            Refusal::BadOrdinal => "BadOrdinal",
            Refusal::NoParameter => "NoParameter",
            Refusal::DuplicateAlias => "DuplicateAlias",
            Refusal::TooManyTables => "TooManyTables",
            Refusal::ColumnsDiffer => "ColumnsDiffer",
            Refusal::DuplicateTable => "DuplicateTable",
            Refusal::NoParent => "NoParent",
            Refusal::KeyNotPrefixed => "KeyNotPrefixed",
            Refusal::TooMany => "TooMany",
            Refusal::HierarchyTooDeep => "HierarchyTooDeep",
            Refusal::BadColumn => "BadColumn",
            Refusal::KeyTooLong => "KeyTooLong",
            Refusal::BadKey => "BadKey",
            Refusal::RowTooLong => "RowTooLong",
            Refusal::BadRow => "BadRow",
            Refusal::UnknownTransaction => "UnknownTransaction",
            Refusal::WrongState => "WrongState",
            Refusal::Conflict => "Conflict",
            Refusal::Exists => "Exists",
            Refusal::Missing => "Missing",
            Refusal::ParentMissing => "ParentMissing",
            Refusal::HasChildren => "HasChildren",
            Refusal::NullNotAllowed => "NullNotAllowed",
            Refusal::ValueTooLong => "ValueTooLong",
            Refusal::WrongType => "WrongType",
            Refusal::LogFull => "LogFull",
            Refusal::ShardFull => "ShardFull",
            Refusal::TooEarly => "TooEarly",
            Refusal::TimestampRange => "TimestampRange",
            Refusal::TransactionTableFull => "TransactionTableFull",
            Refusal::EmptyTransaction => "EmptyTransaction",
            Refusal::NotYet => "NotYet",
            Refusal::Trimmed => "Trimmed",
            Refusal::ArithmeticFault => "ArithmeticFault",
            Refusal::QueryTableFull => "QueryTableFull",
            Refusal::UnknownQuery => "UnknownQuery",
            Refusal::Incomplete => "Incomplete",
            Refusal::BadSplit => "BadSplit",
            Refusal::SplitBusy => "SplitBusy",
            Refusal::NoSlot => "NoSlot",
            Refusal::TrimTooNew => "TrimTooNew",
            Refusal::TrimBackward => "TrimBackward",
            Refusal::TrimLeased => "TrimLeased",
            Refusal::LeaseTableFull => "LeaseTableFull",
            Refusal::UnknownLease => "UnknownLease",
            Refusal::BadInterval => "BadInterval",
            Refusal::BadCommand => "BadCommand",
            Refusal::InputFault => "InputFault",
            Refusal::OutputFault => "OutputFault",
            Refusal::OutOfMemory => "OutOfMemory",
        }
    }

    /// What was wrong, and after a colon what to do: one line, for people.
    pub fn message(self) -> &'static str
        ensures { result.now ≡ message_of self }
    {
        match self {
            Refusal::TextTooLong => "query or schema text over 65,536 bytes: shorten it",
            Refusal::BadToken => "no token of the language begins here: see docs/SQL.md",
            Refusal::Syntax => "the grammar has no such text: see docs/SQL.md",
            Refusal::TooDeep => "more than 32 nested openings: write it with fewer levels",
            Refusal::NoTable => "there is no table of this name: check the name against the schema",
            Refusal::NoColumn => {
                "there is no such column here, or it is named twice: check the names against the schema"
            }
            Refusal::Ambiguous => {
                "the name fits two columns: write the table's name or alias before it"
            }
            Refusal::TypeMismatch => {
                "the operator or function does not take operands of these types: compare or compute values of one type"
            }
            Refusal::NotGrouped => {
                "a column outside aggregates is not in GROUP BY, or an aggregate is where none may be: group by the column, or aggregate it"
            }
            Refusal::BadPattern => {
                "the LIKE pattern has a wrong escape: a backslash goes before %, _ or another backslash"
            }
            Refusal::BadOrdinal => {
                "the ordinal names no column of the result: use a number from 1 to the number of columns"
            }
            Refusal::NoParameter => "the parameter has no value: set it before the query",
            Refusal::DuplicateAlias => {
                "two items of one FROM have the same name: give one of them an alias"
            }
            Refusal::TooManyTables => "the query names more than 8 tables: split it",
            Refusal::ColumnsDiffer => {
                "the blocks of a union differ in the number or the types of their columns: select the same ones"
            }
            Refusal::DuplicateTable => {
                "a table of this name is declared before: rename one of them"
            }
            Refusal::NoParent => {
                "the parent table is not declared before its child: declare it first"
            }
            Refusal::KeyNotPrefixed => {
                "the key of a child table does not begin with its parent's key: repeat the parent's key columns first"
            }
            Refusal::TooMany => {
                "more than 64 tables, or more than 64 columns in a table: use fewer"
            }
            Refusal::HierarchyTooDeep => {
                "more than 7 levels of interleaved tables: interleave fewer"
            }
            Refusal::BadColumn => {
                "a column is declared twice or has a wrong length, or a key column is unknown or repeated: correct the table"
            }
            Refusal::KeyTooLong => "the coded key is over 1,024 bytes: use shorter key values",
            Refusal::BadKey => {
                "the bytes code no key of the table: they were not written by this engine"
            }
            Refusal::RowTooLong => "the packed row is over 1,048,576 bytes: store shorter values",
            Refusal::BadRow => {
                "the bytes pack no row of the table: they were not written by this engine"
            }
            Refusal::UnknownTransaction => {
                "this owner has no open transaction of this number: begin one, or use its number"
            }
            Refusal::WrongState => {
                "the transaction is not in the state for this step: prepare, then decide, then apply"
            }
            Refusal::Conflict => {
                "another transaction is prepared in the same directory: try again once it is applied"
            }
            Refusal::Exists => "the row to insert is there: update it, or use insert or update",
            Refusal::Missing => {
                "the row to update is not there: insert it, or use insert or update"
            }
            Refusal::ParentMissing => "the parent row is not there: insert it first",
            Refusal::HasChildren => {
                "the row has child rows and no ON DELETE CASCADE: delete them first"
            }
            Refusal::NullNotAllowed => "a NOT NULL column would be NULL: give it a value",
            Refusal::ValueTooLong => {
                "a value is longer than its column allows: shorten it, or declare a longer column"
            }
            Refusal::WrongType => {
                "a value is not of its column's type, or there are too few or too many of them: compare them with the columns"
            }
            Refusal::LogFull => {
                "65,536 commits and undecided transactions, which is all that the log holds: start a new database"
            }
            Refusal::ShardFull => {
                "the slot would keep more than 16,777,216 versions: trim it, or write less at once"
            }
            Refusal::TooEarly => "the commit timestamp has not surely passed: apply later",
            Refusal::TimestampRange => {
                "a timestamp outside 0 to 4,611,686,018,427,387,903: use one inside"
            }
            Refusal::TransactionTableFull => {
                "256 transactions are open, or all numbers are used: apply or abort some"
            }
            Refusal::EmptyTransaction => {
                "the transaction has no mutation: add one before it begins"
            }
            Refusal::NotYet => {
                "safe time has not reached the timestamp: advance the slot, or try again later"
            }
            Refusal::Trimmed => {
                "the timestamp is below the horizon and its versions are gone: read at a later timestamp"
            }
            Refusal::ArithmeticFault => {
                "an overflow, or a division by zero, somewhere in the query: test the operands first"
            }
            Refusal::QueryTableFull => "64 queries are open, or all numbers are used: close some",
            Refusal::UnknownQuery => {
                "no open query has this number, or it has no such leaf: open one, or use its number"
            }
            Refusal::Incomplete => {
                "not every leaf of the query has been scanned: scan the rest first"
            }
            Refusal::BadSplit => {
                "there is no root key to split at: choose a key inside the slot's range"
            }
            Refusal::SplitBusy => {
                "a transaction is prepared in the slot: try again once it is applied"
            }
            Refusal::NoSlot => "the slot is not in use, or no slot is left: use a slot in use",
            Refusal::TrimTooNew => {
                "the horizon is above safe time: choose an earlier one, or advance the slot first"
            }
            Refusal::TrimBackward => {
                "the horizon is below the one that is there: choose a later one"
            }
            Refusal::TrimLeased => {
                "the horizon is above the timestamp of a lease: wait until the lease ends"
            }
            Refusal::LeaseTableFull => "64 leases are open, or all numbers are used: end some",
            Refusal::UnknownLease => {
                "this owner has no open lease of this number: open one, or use its number"
            }
            Refusal::BadInterval => {
                "the interval ends before it begins: give the earliest time first"
            }
            Refusal::BadCommand => "the line is no command: see docs/FORMATS.md",
            Refusal::InputFault => "the input device failed: what was answered before holds",
            Refusal::OutputFault => {
                "the output device failed: later answers are lost, the steps are not"
            }
            Refusal::OutOfMemory => "out of memory: nothing has changed; free some and try again",
        }
    }
}

impl fmt::Display for Refusal {
    fn fmt<W: fmt::Write>(&self, f: &mut fmt::Formatter<W>) -> fmt::Result {
        write!(f, "{}", self.number())
    }
}

impl Error for Refusal {}

impl From<AllocError> for Refusal {
    ghost use Rattle.std.specs.Prelude.{◌≡◌};
    ghost use Rattle.span_value.specs.declared.refusal.Refusal.TheVariants.{OutOfMemory};

    ghost from_gives = { λ _ e. e ≡ OutOfMemory };

    fn from(_error: AllocError) -> Refusal {
        Refusal::OutOfMemory
    }
}

impl<T: Drop> From<AllocFailed<T>> for Refusal {
    ghost use Rattle.std.specs.Prelude.{◌≡◌};
    ghost use Rattle.span_value.specs.declared.refusal.Refusal.TheVariants.{OutOfMemory};

    ghost from_gives = { λ _ e. e ≡ OutOfMemory };

    fn from(_error: AllocFailed<T>) -> Refusal {
        Refusal::OutOfMemory
    }
}
