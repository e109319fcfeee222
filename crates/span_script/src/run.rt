//! Whole scripts.
ghost use Rattle.std.specs.Prelude.{◌≡◌, ◌⊎◌, ℕ, List, [], Some, IfErr, IfOk, OnOk, MatchBool};
ghost use Rattle.std.specs.Io.KnownBytes.{Appends, Keeps, append_known};
ghost use Rattle.span_command.specs.Device.{risen};
ghost use Rattle.span_command.specs.Unread.{IsStillToCome, TakesNext};
ghost use Rattle.span_script.specs.Scripts.{IsAnswerText};

use super::lines::{finish, take_line};
use super::report::{Reports, query_of};
use span_answers::answer::Answers;
use span_command::device::{InputDevice, OutputDevice};
use span_command::line::{Line, Lines};
use span_core::database::Core;
use span_steps::refused::Refused;
use span_steps::running::RunningScript;
use span_value::refusal::Refusal;
use std::alloc::Global;

/// Does the commands of a script on a core, one line after another, and writes the answer to each. What was answered
/// is written before more of the script is read.
///
/// A refused command is answered `refused N` and reported, and the script goes on. `InputFault` and `OutputFault` where
/// a device failed, `OutOfMemory` where memory runs out for a line, or at first for the buffer of answers: what was
/// written is then a beginning of the answers to the lines that were read. Where memory runs out for an answer, its
/// command is refused 90.
pub fn run<I: InputDevice, O: OutputDevice, R: Reports>(
    alloc: Global,
    input: &mut I,
    output: &mut O,
    reports: &mut R,
    core: &mut Core,
) -> Result<(), Refusal>
    // What is written is the answer text of what is read.
    ensures answered { OnOk result ((script : List ℕ) → I.remaining input.old ≡ Some script
        → (answers : List ℕ) × IsAnswerText core.old.schema core.old.machine script answers core.new.machine
        × Appends (O.written output.old) (O.written output.new) answers) }
    ensures schema { core.new.schema ≡ core.old.schema }
    ensures ok { OnOk result
        ((I.failures input.new ≡ I.failures input.old) × (O.failures output.new ≡ O.failures output.old)) }
    ensures err { IfErr result (λ why. (why ≡ Refusal.OutOfMemory)
        ⊎ ((why ≡ Refusal.InputFault) × (I.failures input.new ≡ risen (I.failures input.old)))
        ⊎ ((why ≡ Refusal.OutputFault) × (O.failures output.new ≡ risen (O.failures output.old)))) }
{
    let mut lines = Lines::new(alloc);
    let mut running = RunningScript::new(alloc);
    let mut answers = Answers::new(alloc)?;
    let mut number: u64 = 0;
    for _ in 0..u64::MAX {
        if !take_next(&mut lines, input, &mut answers, output)? {
            let refused = finish(&mut running, number, &mut answers)?;
            report_refused(reports, refused, None);
            return answers.write_to(output);
        }
        number = number.saturating_add(1);
        let line = lines.line();
        let refused = take_line(&mut running, alloc, core, number, line, &mut answers)?;
        report_refused(reports, refused, Some(line));
        write_many(&mut answers, output)?;
    }
    // No input gives as many lines: it has at most 2^63 bytes.
    Err(Refusal::OutOfMemory)
}

/// Takes the next line, for which more of the script is read where none is ready; what was answered is written before.
/// False where the script has ended.
fn take_next<I: InputDevice, O: OutputDevice>(
    lines: &mut Lines,
    input: &mut I,
    answers: &mut Answers,
    output: &mut O,
) -> Result<bool, Refusal>
    ensures next { IfOk result (λ more. (text : List ℕ) → IsStillToCome lines.old (I.remaining input.old) text
        → MatchBool more (TakesNext lines.new (I.remaining input.new) text) (text ≡ [])) }
    ensures written { OnOk result (Keeps
        (append_known (O.written output.old) answers.old)
        (append_known (O.written output.new) answers.new)) }
    ensures ok { OnOk result
        ((I.failures input.new ≡ I.failures input.old) × (O.failures output.new ≡ O.failures output.old)) }
    ensures err { IfErr result (λ why. (why ≡ Refusal.OutOfMemory)
        ⊎ ((why ≡ Refusal.InputFault) × (I.failures input.new ≡ risen (I.failures input.old)))
        ⊎ ((why ≡ Refusal.OutputFault) × (O.failures output.new ≡ risen (O.failures output.old)))) }
{
    for _ in 0..u64::MAX {
        if lines.is_ready() {
            return Ok(lines.take());
        }
        answers.write_to(output)?;
        lines.read(input)?;
    }
    // No input gives bytes as often.
    Err(Refusal::OutOfMemory)
}

/// Reports a refused command, if one was. Most lines have none: so no more than that is asked here.
fn report_refused<R: Reports>(reports: &mut R, refused: Option<Refused>, line: Option<Line<'_>>) {
    if let Some(refused) = refused {
        report_one(reports, refused, line);
    }
}

/// Reports the refused command of a line, or of the end of the script.
fn report_one<R: Reports>(reports: &mut R, refused: Refused, line: Option<Line<'_>>) {
    let query = match line {
        Some(line) => query_of(line),
        None => None,
    };
    reports.report(refused, query);
}

/// Writes what was answered, where it is time to.
fn write_many<O: OutputDevice>(answers: &mut Answers, output: &mut O) -> Result<(), Refusal>
    ensures written { OnOk result (Keeps
        (append_known (O.written output.old) answers.old)
        (append_known (O.written output.new) answers.new)) }
    ensures ok { OnOk result (O.failures output.new ≡ O.failures output.old) }
    ensures err { IfErr result
        (λ why. (why ≡ Refusal.OutputFault) × (O.failures output.new ≡ risen (O.failures output.old))) }
{
    if answers.are_many() {
        answers.write_to(output)?;
    }
    Ok(())
}
