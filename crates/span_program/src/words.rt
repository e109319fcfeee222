//! The command line, read by clap.
ghost use Rattle.std.specs.Prelude.{◌≡◌, IfOk, false, true};
ghost use Rattle.clap.specs.Words.{FailsBy, app_of, fault_of, found_of, has_subcommand, rows_of, rule_of, subcommand_of, subcommand_rows_of};
ghost use Rattle.clap.specs.declared.builder.command.Command.TheViews.{out-Command as fields_of};
ghost use Rattle.clap.specs.Walk.{texts};
ghost use Rattle.span_program.specs.Words.{IsOrder, IsRun, file, flag, is_set, program, run, value_of};

use clap::{Arg, ArgAction, ArgMatches, Command, Error};
use std::alloc::{AllocError, Global};

/// What a command line asks for.
#[derive(Clone, Copy, Debug, PartialEq, Eq)]
pub enum Order<'a> {
    /// The script of a file is run over a new database, with the schema of another file.
    Run {
        schema: &'a str,
        script: &'a str,
        /// Whether each refusal is explained on standard error.
        explains: bool,
        /// Whether progress is shown there.
        shows_progress: bool,
    },
}

/// The order that words are, of which the first is the program's name. It is the one that clap's meaning of the command gives for the
/// words, and the error has the kind that clap's meaning refuses them with; else it is `OutOfMemory`. Help is such an error.
pub fn read_words<'a>(alloc: Global, words: &'a [&'a str]) -> Result<Order<'a>, Error>
    ensures order { IfOk result (IsOrder (texts words.now)) }
    ensures kinds { FailsBy (fault_of program (texts words.now)) result }
{
    let matches = matches_of(alloc, words)?;
    let (_run, given) = matches.subcommand().unwrap();
    Ok(order_of(given))
}

/// What clap makes of the words.
fn matches_of<'a>(alloc: Global, words: &'a [&'a str]) -> Result<ArgMatches<'a>, Error>
    ensures entered { IfOk result (λ matches. has_subcommand matches ≡ true) }
    ensures rows { IfOk result (λ matches. subcommand_rows_of matches ≡ subcommand_of program (texts words.now)) }
    ensures kinds { FailsBy (fault_of program (texts words.now)) result }
{
    let command = program_command(alloc)?;
    command.try_get_matches_from(words)
}

/// The command line of the program.
fn program_command<'a>(alloc: Global) -> Result<Command<'a>, AllocError>
    ensures app { IfOk result (λ command. app_of command ≡ program) }
    ensures local { IfOk result (λ command. (fields_of command).has_globals ≡ false) }
{
    let run = run_command(alloc)?;
    Command::new(alloc, "spansql")
        .about("A SQL engine whose queries see one consistent state at a timestamp")
        .subcommand_required(true)
        .arg_required_else_help(true)
        .subcommand(run)
}

/// The subcommand `run`.
fn run_command<'a>(alloc: Global) -> Result<Command<'a>, AllocError>
    ensures app { IfOk result (λ command. app_of command ≡ run) }
    ensures local { IfOk result (λ command. (fields_of command).has_globals ≡ false) }
{
    // Each argument is made where it goes in: to prove that others are dropped where memory runs out took half a minute.
    let command = Command::new(alloc, "run").about(
        "Runs a script over a new database, and writes the answers",
    );
    let command = command.arg(file(
        alloc,
        "schema",
        "SCHEMA",
        "The file with the schema of the database",
    ))?;
    let command = command.arg(file(alloc, "script", "SCRIPT", "The file with the script"))?;
    let command = command.arg(flag(
        alloc,
        "explain-refusals",
        "Explains each refusal on standard error",
    ))?;
    command.arg(flag(
        alloc,
        "progress",
        "Shows progress on standard error, where that is a terminal",
    ))
}

/// An argument that is the name of a file, and must be there.
fn file<'a>(alloc: Global, id: &'a str, shown: &'a str, help: &'a str) -> Arg<'a>
    ensures rule { rule_of result ≡ file id.now }
    ensures local { result.global ≡ false }
{
    Arg::new(alloc, id)
        .value_name(shown)
        .help(help)
        .required(true)
}

/// An option without a value.
fn flag<'a>(alloc: Global, name: &'a str, help: &'a str) -> Arg<'a>
    ensures rule { rule_of result ≡ flag name.now }
    ensures local { result.global ≡ false }
{
    Arg::new(alloc, name)
        .long(name)
        .help(help)
        .action(ArgAction::SetTrue)
}

/// The order that the matches of `run` are.
fn order_of<'a>(given: &ArgMatches<'a>) -> Order<'a>
    ensures { IsRun (rows_of (found_of given.now)) result }
{
    Order::Run {
        schema: value_of(given, "schema"),
        script: value_of(given, "script"),
        explains: is_set(given, "explain-refusals"),
        shows_progress: is_set(given, "progress"),
    }
}

/// The value of an argument that must be there.
fn value_of<'a>(given: &ArgMatches<'a>, id: &str) -> &'a str
    ensures { result.now ≡ value_of id.now (rows_of (found_of given.now)) }
{
    match given.get_str(id) {
        Some(text) => text,
        None => "",
    }
}

/// Whether an option was given.
fn is_set(given: &ArgMatches<'_>, id: &str) -> bool
    ensures { result ≡ is_set id.now (rows_of (found_of given.now)) }
{
    match given.get_str(id) {
        Some(text) => text == "true",
        None => false,
    }
}
