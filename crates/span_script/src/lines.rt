//! The lines of a script, done one after another.
ghost use Rattle.std.specs.Prelude.{◌≡◌, ◌++◌, None, Some, is_some, IfErr, IfOk, IfSome, IsOkUnless};
ghost use Rattle.span_answers.specs.Lines.{Begins};
ghost use Rattle.span_script.specs.Reports.{AreAnswered};
ghost use Rattle.span_script.specs.Scripts.{IsAnswered, IsCommandLine, IsDone, IsReplied, end_answer, is_passed_over, AddsLine};
ghost use Rattle.span_steps.specs.Running.{Adds, AddsAt, state_of, text_of};

use span_answers::answer::Answers;
use span_command::command::{Command, read_command};
use span_command::line::Line;
use span_core::database::Core;
use span_core::{Refusal, Reply};
use span_steps::refused::Refused;
use span_steps::running::RunningScript;
use span_steps::steps::{step_of, take_step};
use std::alloc::Global;

/// Does what a line of this number asks for, and adds its answer. Returns the refused command that was answered so,
/// if one was. `OutOfMemory` where memory runs out for the answer.
#[tactic(auto, using(span_answers::proofs::Begun::front_taken))]
pub(crate) fn take_line(
    running: &mut RunningScript,
    alloc: Global,
    core: &mut Core,
    number: u64,
    line: Line<'_>,
    answers: &mut Answers,
) -> Result<Option<Refused>, Refusal>
    ensures exact { IfOk result (λ _. AddsLine core.old.schema (text_of line.entry)
        (state_of running.old) core.old.machine (state_of running.new) core.new.machine answers.old answers.new) }
    ensures schema { core.new.schema ≡ core.old.schema }
    ensures answered { IfOk result (AreAnswered answers.old answers.new) }
    ensures here { running.old.load ≡ None
        → IfOk result (λ refused. IfSome refused (λ refused. refused.line ≡ number)) }
    ensures memory { IsOkUnless result Refusal.OutOfMemory }
{
    let before = answers.len();
    match answer_line(running, alloc, core, number, line, answers) {
        Ok(()) => Ok(None),
        Err(refused) => {
            answers.cut(before);
            answers.refusal_line(refused.why)?;
            Ok(Some(refused))
        }
    }
}

/// The end of the script, after the line of this number: a load without its `end` is refused.
#[tactic(auto, using(span_answers::proofs::Begun::begins_itself))]
pub(crate) fn finish(
    running: &mut RunningScript,
    number: u64,
    answers: &mut Answers,
) -> Result<Option<Refused>, Refusal>
    ensures exact { IfOk result (λ _. answers.new ≡ answers.old ++ end_answer (state_of running.old)) }
    ensures answered { IfOk result (AreAnswered answers.old answers.new) }
    ensures last { IfOk result (λ refused. IfSome refused
        (λ refused. (refused.why ≡ Refusal.BadCommand) × (refused.line ≡ number))) }
    ensures unread { IfOk result (λ refused. is_some refused ≡ is_some running.old.load) }
    ensures memory { IsOkUnless result Refusal.OutOfMemory }
{
    match running.load.take() {
        Some(_) => {
            answers.refusal_line(Refusal::BadCommand)?;
            Ok(Some(Refused {
                line: number,
                why: Refusal::BadCommand,
            }))
        }
        None => Ok(None),
    }
}

/// Adds the answer of a line, or answers where and why its command is refused.
#[tactic(auto, using(span_answers::proofs::Begun::begins_itself, span_answers::proofs::Begun::begins_on))]
fn answer_line(
    running: &mut RunningScript,
    alloc: Global,
    core: &mut Core,
    number: u64,
    line: Line<'_>,
    answers: &mut Answers,
) -> Result<(), Refused>
    ensures exact { AddsAt
        (λ answer. IsAnswered core.old.schema (text_of line.entry)
        (state_of running.old) core.old.machine answer (state_of running.new) core.new.machine)
        answers.old answers.new result }
    ensures schema { core.new.schema ≡ core.old.schema }
    ensures grows { Begins answers.old answers.new }
    ensures here { running.old.load ≡ None → IfErr result (λ refused. refused.line ≡ number) }
{
    match running.load.take() {
        Some(load) => running.load_line(alloc, load, number, line, answers),
        None => match command_line(running, alloc, core, number, line, answers) {
            Ok(()) => Ok(()),
            Err(why) => Err(Refused { line: number, why }),
        },
    }
}

/// A line that is in no load.
#[tactic(auto, using(span_answers::proofs::Begun::begins_itself, span_answers::proofs::Begun::begins_on))]
fn command_line(
    running: &mut RunningScript,
    alloc: Global,
    core: &mut Core,
    number: u64,
    line: Line<'_>,
    answers: &mut Answers,
) -> Result<(), Refusal>
    requires { running.old.load ≡ None }
    ensures exact { Adds
        (λ answer. IsCommandLine core.old.schema (text_of line.entry)
        (state_of running.old) core.old.machine answer (state_of running.new) core.new.machine)
        answers.old answers.new result }
    ensures schema { core.new.schema ≡ core.old.schema }
    ensures grows { Begins answers.old answers.new }
{
    match line {
        Line::Text(text) => answer_text(running, alloc, core, number, text, answers),
        Line::Unreadable => Err(Refusal::BadCommand),
    }
}

/// Does the command of a line; empty lines and remarks have none.
#[tactic(auto, using(span_answers::proofs::Begun::begins_itself, span_answers::proofs::Begun::begins_on))]
fn answer_text(
    running: &mut RunningScript,
    alloc: Global,
    core: &mut Core,
    number: u64,
    text: &str,
    answers: &mut Answers,
) -> Result<(), Refusal>
    requires { running.old.load ≡ None }
    ensures exact { Adds
        (λ answer. IsCommandLine core.old.schema (Some text.now)
        (state_of running.old) core.old.machine answer (state_of running.new) core.new.machine)
        answers.old answers.new result }
    ensures schema { core.new.schema ≡ core.old.schema }
    ensures grows { Begins answers.old answers.new }
{
    if is_passed_over(text) {
        return Ok(());
    }
    match read_command(text) {
        Some(command) => answer(running, alloc, core, number, command, answers),
        None => Err(Refusal::BadCommand),
    }
}

/// Does a command, and adds its answer.
///
/// Where a command changes what a script has set, its answer goes first: nothing has changed then where memory runs
/// out for it, and `take_line` takes it back where the change is refused.
#[tactic(auto, using(span_answers::proofs::Begun::begins_itself, span_answers::proofs::Begun::begins_on))]
fn answer(
    running: &mut RunningScript,
    alloc: Global,
    core: &mut Core,
    number: u64,
    command: Command<'_>,
    answers: &mut Answers,
) -> Result<(), Refusal>
    requires { running.old.load ≡ None }
    ensures exact { Adds
        (λ answer. IsDone core.old.schema command.entry
        (state_of running.old) core.old.machine answer (state_of running.new) core.new.machine)
        answers.old answers.new result }
    ensures schema { core.new.schema ≡ core.old.schema }
    ensures grows { Begins answers.old answers.new }
{
    match command {
        Command::Clock { earliest, latest } => {
            answers.word_line("ok")?;
            running.set_clock(earliest, latest)
        }
        Command::Param { name, kind, cell } => {
            answers.word_line("ok")?;
            running.set_param(alloc, name, kind, cell)
        }
        Command::Write {
            kind,
            table,
            columns,
            record,
        } => {
            answers.word_line("ok")?;
            running.write(alloc, core.schema(), kind, table, columns, record)
        }
        Command::Delete { table, record } => {
            answers.word_line("ok")?;
            running.delete(alloc, core.schema(), table, record)
        }
        Command::Load { table, columns } => {
            running.begin_load(alloc, core.schema(), number, table, columns);
            Ok(())
        }
        Command::Begin => {
            let reply = running.begin(alloc, core);
            add_reply(alloc, &reply, answers)
        }
        Command::Open { bound, text } => {
            let reply = running.open(alloc, core, bound, text);
            add_reply(alloc, &reply, answers)
        }
        Command::Query { bound, text } => {
            let reply = running.query(alloc, core, bound, text);
            add_reply(alloc, &reply, answers)
        }
        Command::Explain { text } => running.explain(alloc, core, text, answers),
        Command::Split { table, record } => {
            let reply = running.split(alloc, core, table, record);
            add_reply(alloc, &reply, answers)
        }
        Command::Shards => answers.slots(core),
        command => match step_of(command, running.clock) {
            Some(step) => {
                let reply = take_step(alloc, core, step);
                add_reply(alloc, &reply, answers)
            }
            None => Err(Refusal::BadCommand),
        },
    }
}

/// Whether a line has no answer: it is empty, or a remark.
fn is_passed_over(text: &str) -> bool
    ensures { result ≡ is_passed_over text.now }
{
    match text.as_bytes().first() {
        Some(first) => *first == b'#',
        None => true,
    }
}

/// Adds the answer that a reply is. A refused step is a refused command.
#[tactic(auto, using(span_answers::proofs::Begun::begins_itself))]
fn add_reply(alloc: Global, reply: &Reply, answers: &mut Answers) -> Result<(), Refusal>
    ensures added { Adds (IsReplied reply.now) answers.old answers.new result }
    ensures grows { Begins answers.old answers.new }
{
    match reply {
        Reply::Refused(why) => Err(*why),
        reply => answers.reply(alloc, reply),
    }
}
