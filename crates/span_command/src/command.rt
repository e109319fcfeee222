//! Commands, and how a line is read as one.
ghost use Rattle.std.specs.Prelude.{◌≢◌, ℕ, List, MatchOption, codes};
ghost use Rattle.span_command.specs.Commands.{IsCommand, IsReadAs, IsNumberedReadAs, write_word};
ghost use Rattle.span_command.specs.Words.{IsWord, spaced};
ghost use Rattle.span_command.specs.declared.command.Command.{Command};

use super::word::{
    bound_of, is_name, is_one_word, kind_of, number_of, three_numbers, two_numbers, word_and_rest,
};
use span_mutate::mutation::MutationKind;
use span_truetime::bound::Bound;
use span_value::value::Kind;

/// What a line asks for. The words of a table, of columns, of a record and of a cell are checked when the command is done.
#[derive(Clone, Copy, Debug, PartialEq, Eq)]
pub enum Command<'a> {
    Clock {
        earliest: u64,
        latest: u64,
    },
    Param {
        name: &'a str,
        kind: Kind,
        cell: &'a str,
    },
    /// An insert, an update or an upsert.
    Write {
        kind: MutationKind,
        table: &'a str,
        columns: &'a str,
        record: &'a str,
    },
    Delete {
        table: &'a str,
        record: &'a str,
    },
    /// Cuts a slot in two at the key that the record has.
    Split {
        table: &'a str,
        record: &'a str,
    },
    Load {
        table: &'a str,
        columns: &'a str,
    },
    Begin,
    Prepare {
        txn: u64,
        slot: u64,
    },
    Decide {
        txn: u64,
    },
    Abort {
        txn: u64,
    },
    Apply {
        txn: u64,
        slot: u64,
    },
    Advance {
        slot: u64,
    },
    Open {
        bound: Bound,
        text: &'a str,
    },
    Scan {
        query: u64,
        leaf: u64,
        slot: u64,
    },
    Finish {
        query: u64,
    },
    Close {
        query: u64,
    },
    Query {
        bound: Bound,
        text: &'a str,
    },
    /// Answers the leaves of the plan of a query text.
    Explain {
        text: &'a str,
    },
    Trim {
        slot: u64,
        horizon: u64,
    },
    Shards,
}

/// The command of a line; None where it is none.
pub fn read_command(line: &str) -> Option<Command<'_>>
    ensures { MatchOption result ((c : Command) → ¬ IsCommand line.now c) (IsCommand line.now) }
{
    match word_and_rest(line) {
        None => read_lone_word(line),
        Some((word, rest)) => read_words(word, rest),
    }
}

/// The command of a word and what follows its space. Most commands of a script have only numbers after their word, so that these are
/// looked for first where a digit follows.
fn read_words<'a>(word: &str, rest: &'a str) -> Option<Command<'a>>
    requires { IsWord word.now }
    ensures { IsReadAs (spaced word.now rest.now) result }
{
    if begins_with_digit(rest) {
        if let Some(command) = read_numbered(word, rest) {
            return Some(command);
        }
    }
    read_named(word, rest)
}

fn begins_with_digit(text: &str) -> bool {
    match text.as_bytes().first() {
        Some(first) => first.is_ascii_digit(),
        None => false,
    }
}

/// The command of a word and what follows its space, by the word alone.
fn read_named<'a>(word: &str, rest: &'a str) -> Option<Command<'a>>
    requires { IsWord word.now }
    ensures { IsReadAs (spaced word.now rest.now) result }
{
    match word {
        "param" => read_param(rest),
        "insert" => read_write(MutationKind::Insert, rest),
        "update" => read_write(MutationKind::Update, rest),
        "upsert" => read_write(MutationKind::InsertOrUpdate, rest),
        "delete" => read_delete(rest),
        "split" => read_split(rest),
        "load" => read_load(rest),
        "open" => read_open(rest),
        "query" => read_query(rest),
        "explain" => Some(Command::Explain { text: rest }),
        word => read_numbered(word, rest),
    }
}

/// A command that is one word.
fn read_lone_word(word: &str) -> Option<Command<'_>>
    requires { (first : List ℕ) (rest : List ℕ) → IsWord first → word.now ≢ spaced first rest }
    ensures { IsReadAs word.now result }
{
    match word {
        "begin" => Some(Command::Begin),
        "shards" => Some(Command::Shards),
        _ => None,
    }
}

/// A command that has only numbers after its word.
fn read_numbered<'a>(word: &str, numbers: &str) -> Option<Command<'a>>
    requires { IsWord word.now }
    ensures { IsNumberedReadAs (spaced word.now numbers.now) result }
{
    match word {
        "clock" => read_clock(numbers),
        "prepare" => read_prepare(numbers),
        "decide" => read_decide(numbers),
        "apply" => read_apply(numbers),
        "abort" => read_abort(numbers),
        "advance" => read_advance(numbers),
        "scan" => read_scan(numbers),
        "finish" => read_finish(numbers),
        "close" => read_close(numbers),
        "trim" => read_trim(numbers),
        _ => None,
    }
}

fn read_clock<'a>(numbers: &str) -> Option<Command<'a>>
    ensures { IsReadAs (spaced (codes "clock") numbers.now) result }
{
    let (earliest, latest) = two_numbers(numbers)?;
    Some(Command::Clock { earliest, latest })
}

fn read_param(words: &str) -> Option<Command<'_>>
    ensures { IsReadAs (spaced (codes "param") words.now) result }
{
    let (name, rest) = word_and_rest(words)?;
    let (kind, cell) = word_and_rest(rest)?;
    if !is_name(name) {
        return None;
    }
    let kind = kind_of(kind)?;
    Some(Command::Param { name, kind, cell })
}

fn read_write(kind: MutationKind, words: &str) -> Option<Command<'_>>
    requires { kind ≢ MutationKind.Delete }
    ensures { IsReadAs (spaced (write_word kind) words.now) result }
{
    let (table, rest) = word_and_rest(words)?;
    let (columns, record) = word_and_rest(rest)?;
    Some(Command::Write {
        kind,
        table,
        columns,
        record,
    })
}

fn read_delete(words: &str) -> Option<Command<'_>>
    ensures { IsReadAs (spaced (codes "delete") words.now) result }
{
    let (table, record) = word_and_rest(words)?;
    Some(Command::Delete { table, record })
}

fn read_split(words: &str) -> Option<Command<'_>>
    ensures { IsReadAs (spaced (codes "split") words.now) result }
{
    let (table, record) = word_and_rest(words)?;
    Some(Command::Split { table, record })
}

fn read_load(words: &str) -> Option<Command<'_>>
    ensures { IsReadAs (spaced (codes "load") words.now) result }
{
    let (table, columns) = word_and_rest(words)?;
    if !is_one_word(columns) {
        return None;
    }
    Some(Command::Load { table, columns })
}

fn read_open(words: &str) -> Option<Command<'_>>
    ensures { IsReadAs (spaced (codes "open") words.now) result }
{
    let (bound, text) = word_and_rest(words)?;
    let bound = bound_of(bound)?;
    Some(Command::Open { bound, text })
}

fn read_query(words: &str) -> Option<Command<'_>>
    ensures { IsReadAs (spaced (codes "query") words.now) result }
{
    let (bound, text) = word_and_rest(words)?;
    let bound = bound_of(bound)?;
    Some(Command::Query { bound, text })
}

fn read_prepare<'a>(numbers: &str) -> Option<Command<'a>>
    ensures { IsReadAs (spaced (codes "prepare") numbers.now) result }
{
    let (txn, slot) = two_numbers(numbers)?;
    Some(Command::Prepare { txn, slot })
}

fn read_decide<'a>(number: &str) -> Option<Command<'a>>
    ensures { IsReadAs (spaced (codes "decide") number.now) result }
{
    let txn = number_of(number)?;
    Some(Command::Decide { txn })
}

fn read_abort<'a>(number: &str) -> Option<Command<'a>>
    ensures { IsReadAs (spaced (codes "abort") number.now) result }
{
    let txn = number_of(number)?;
    Some(Command::Abort { txn })
}

fn read_apply<'a>(numbers: &str) -> Option<Command<'a>>
    ensures { IsReadAs (spaced (codes "apply") numbers.now) result }
{
    let (txn, slot) = two_numbers(numbers)?;
    Some(Command::Apply { txn, slot })
}

fn read_advance<'a>(number: &str) -> Option<Command<'a>>
    ensures { IsReadAs (spaced (codes "advance") number.now) result }
{
    let slot = number_of(number)?;
    Some(Command::Advance { slot })
}

fn read_scan<'a>(numbers: &str) -> Option<Command<'a>>
    ensures { IsReadAs (spaced (codes "scan") numbers.now) result }
{
    let (query, leaf, slot) = three_numbers(numbers)?;
    Some(Command::Scan { query, leaf, slot })
}

fn read_finish<'a>(number: &str) -> Option<Command<'a>>
    ensures { IsReadAs (spaced (codes "finish") number.now) result }
{
    let query = number_of(number)?;
    Some(Command::Finish { query })
}

fn read_close<'a>(number: &str) -> Option<Command<'a>>
    ensures { IsReadAs (spaced (codes "close") number.now) result }
{
    let query = number_of(number)?;
    Some(Command::Close { query })
}

fn read_trim<'a>(numbers: &str) -> Option<Command<'a>>
    ensures { IsReadAs (spaced (codes "trim") numbers.now) result }
{
    let (slot, horizon) = two_numbers(numbers)?;
    Some(Command::Trim { slot, horizon })
}
