//! The program `spansql`.
//!
//! `spansql run SCHEMA SCRIPT` runs the script of a file over a new database with the schema of another file, and writes the answers on
//! standard output. What it does with words, bytes and devices is in `span_program`; here are the process's own: its arguments, files and
//! streams, and its exit status. `docs/FORMATS.md` has scripts, answers and statuses.
#![tactic(auto)]

use clap::error::ErrorKind;
use span_program::answer::answer;
use span_program::explanations::Explanations;
use span_program::fault::Fault;
use span_program::progress::{Progress, Watched};
use span_program::words::{Order, read_words};
use span_script::Counted;
use std::alloc::{AllocError, Global};
use std::fs::{File, OpenFile};
use std::io::IsTerminal;
use std::process::ExitCode;
use std::rt::{Clock, Env, Files};
use std::{env, fs, io};

/// The status of a wrong command line, or one that asks for help.
const WRONG_WORDS: u8 = 2;

/// The status where memory or a device fails.
const FAILED: u8 = 1;

fn main(rt: HostRuntime) -> ExitCode {
    let is_watched = rt.stderr().is_terminal();
    match start(&rt, is_watched) {
        Ok(status) => ExitCode::from(status),
        Err(fault) => {
            let _ = eprintln!(rt; "spansql: {fault}");
            ExitCode::from(FAILED)
        }
    }
}

/// Does what the command line asks for, and answers the exit status. `is_watched`: standard error is a terminal.
fn start<R: AllocGlobal + Print + Eprint + Env + Files + Clock>(
    rt: &R,
    is_watched: bool,
) -> Result<u8, Fault> {
    let alloc = rt.alloc();
    let words: Vec<String> = env::args(rt)?.collect(alloc)?;
    let texts = lent_texts(alloc, words.as_slice())?;
    do_order(rt, read_words(alloc, texts.as_slice()), is_watched)
}

/// Does an order, or writes why there is none.
fn do_order<R: AllocGlobal + Print + Eprint + Files + Clock>(
    rt: &R,
    order: Result<Order<'_>, clap::Error>,
    is_watched: bool,
) -> Result<u8, Fault> {
    match order {
        Ok(
            Order::Run {
                schema,
                script,
                explains,
                shows_progress,
            },
        ) => {
            let reports = Explanations {
                rt,
                are_wanted: explains,
                schema,
                script,
            };
            run_files(rt, reports, shows_progress && is_watched)
        }
        Err(error) => refuse_words(rt, &error),
    }
}

/// The words, lent.
fn lent_texts<'a>(alloc: Global, words: &'a [String]) -> Result<Vec<&'a str>, AllocError> {
    let mut texts = Vec::new(alloc);
    for word in words {
        texts.push(word.as_str())?;
    }
    Ok(texts)
}

/// Writes on standard error why the words are no order, or the help that they ask for.
fn refuse_words(rt: &impl Eprint, error: &clap::Error) -> Result<u8, Fault> {
    if error.kind() == ErrorKind::OutOfMemory {
        return Err(Fault::Memory);
    }
    eprint!(rt; "{error}")?;
    Ok(WRONG_WORDS)
}

/// Reads the schema's file whole, opens the script's, and answers the script.
fn run_files<R: AllocGlobal + Print + Eprint + Files + Clock>(
    rt: &R,
    reports: Explanations<'_, R>,
    shows_progress: bool,
) -> Result<u8, Fault> {
    let bytes = match fs::read(rt, reports.schema) {
        Ok(bytes) => bytes,
        Err(error) => return refuse_file(rt, reports.schema, &error),
    };
    let file = match File::open(rt, reports.script) {
        Ok(file) => file,
        Err(error) => return refuse_file(rt, reports.script, &error),
    };
    let progress = Progress::new(rt, shows_progress, length_of(&file));
    let mut input = Watched::new(Counted::new(file), progress);
    let mut output = Counted::new(io::writer(rt));
    let mut reports = reports;
    answer(
        rt.alloc(),
        bytes.as_slice(),
        &mut input,
        &mut output,
        &mut reports,
    )
}

/// How many bytes a file has; None where it is no plain file.
fn length_of(file: &impl OpenFile) -> Option<u64> {
    match file.metadata() {
        Ok(metadata) if metadata.is_file() => Some(metadata.len()),
        _ => None,
    }
}

/// Writes on standard error why a file can't be read.
fn refuse_file(rt: &impl Eprint, file: &str, error: &io::Error) -> Result<u8, Fault> {
    eprintln!(rt; "spansql: {file}: {error}")?;
    Ok(FAILED)
}
