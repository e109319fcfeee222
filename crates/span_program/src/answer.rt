//! A script and its schema, answered.
ghost use Rattle.std.specs.Prelude.{◌≡◌, ◌⊎◌, IfErr, IfOk, OnOk};
ghost use Rattle.span_command.specs.Device.{risen};
ghost use Rattle.span_program.specs.Answers.{IsAnswered, IsRefused, IsSchema, IsSchemaRefused};

use super::fault::{Fault, fault_of};
use span_answers::answer::Answers;
use span_core::database::Core;
use span_core::{Refusal, Schema};
use span_schematext::text::parse_schema;
use span_script::run::run as run_script;
use span_script::{InputDevice, OutputDevice, Reports};
use std::alloc::Global;
use std::mem;

/// The status where the script was answered, whatever commands were refused.
const ANSWERED: u8 = 0;

/// The status where the schema is refused.
const SCHEMA_REFUSED: u8 = 3;

/// Where the refusal of a schema is reported.
pub trait SchemaReports {
    /// The schema of these bytes was refused. A report that is lost changes no answer, so none of its failures is returned.
    fn report_schema(&mut self, schema: &[u8], why: Refusal);
}

/// Runs a script over a new database with the schema that the bytes are the text of, writes the answers and reports refusals. The answer is
/// the exit status: 0 where the script was answered; 3 where the schema is refused, for which `schema refused N` is written, and nothing of
/// the script is read.
///
/// `Fault::Memory` where memory runs out for the schema, for a line, or at first for the buffer of answers, `Fault::Input` and
/// `Fault::Output` where a device failed: what was written is then a beginning of the answers.
pub fn answer<I: InputDevice, O: OutputDevice, R: Reports + SchemaReports>(
    alloc: Global,
    schema: &[u8],
    input: &mut I,
    output: &mut O,
    reports: &mut R,
) -> Result<u8, Fault>
    ensures status { IfOk result (λ status. IsAnswered schema.now status
        ⊎ (IsSchemaRefused schema.now status × (input.new ≡ input.old))) }
    ensures ok { OnOk result
        ((I.failures input.new ≡ I.failures input.old) × (O.failures output.new ≡ O.failures output.old)) }
    ensures err { IfErr result (λ fault. (fault ≡ Fault.Memory)
        ⊎ ((fault ≡ Fault.Input) × (I.failures input.new ≡ risen (I.failures input.old)))
        ⊎ ((fault ≡ Fault.Output) × (O.failures output.new ≡ risen (O.failures output.old)))) }
{
    match read_schema(alloc, schema) {
        Ok(declared) => match answer_script(alloc, declared, input, output, reports) {
            Ok(()) => Ok(ANSWERED),
            Err(why) => Err(fault_of(why)),
        },
        Err(Refusal::OutOfMemory) => Err(Fault::Memory),
        Err(why) => {
            reports.report_schema(schema, why);
            match refuse_schema(alloc, why, output) {
                Ok(()) => Ok(SCHEMA_REFUSED),
                Err(why) => Err(fault_of(why)),
            }
        }
    }
}

/// The schema that the bytes are the text of. `BadToken` where they are not in UTF-8, else what `parse_schema` refuses.
pub fn read_schema(alloc: Global, bytes: &[u8]) -> Result<Schema, Refusal>
    ensures read { IfOk result (IsSchema bytes.now) }
    ensures refused { IfErr result (λ why. (why ≡ Refusal.OutOfMemory) ⊎ IsRefused bytes.now why) }
{
    match str::from_utf8(bytes) {
        Ok(text) => parse_schema(alloc, text),
        Err(_) => Err(Refusal::BadToken),
    }
}

/// Runs a script over a new database of the schema. The database is not released: the process ends next, and its memory goes back as a whole,
/// where the release of each row takes a twentieth of a load's time.
fn answer_script<I: InputDevice, O: OutputDevice, R: Reports>(
    alloc: Global,
    schema: Schema,
    input: &mut I,
    output: &mut O,
    reports: &mut R,
) -> Result<(), Refusal>
    ensures ok { OnOk result
        ((I.failures input.new ≡ I.failures input.old) × (O.failures output.new ≡ O.failures output.old)) }
    ensures err { IfErr result (λ why. (why ≡ Refusal.OutOfMemory)
        ⊎ ((why ≡ Refusal.InputFault) × (I.failures input.new ≡ risen (I.failures input.old)))
        ⊎ ((why ≡ Refusal.OutputFault) × (O.failures output.new ≡ risen (O.failures output.old)))) }
{
    let mut core = Core::new(alloc, schema)?;
    let ended = run_script(alloc, input, output, reports, &mut core);
    mem::forget(core);
    ended
}

/// Writes the answer to a refused schema. `OutputFault` where the device failed, else `OutOfMemory`.
fn refuse_schema<O: OutputDevice>(
    alloc: Global,
    why: Refusal,
    output: &mut O,
) -> Result<(), Refusal>
    ensures ok { OnOk result (O.failures output.new ≡ O.failures output.old) }
    ensures err { IfErr result (λ why. (why ≡ Refusal.OutOfMemory)
        ⊎ ((why ≡ Refusal.OutputFault) × (O.failures output.new ≡ risen (O.failures output.old)))) }
{
    let mut answers = Answers::new(alloc)?;
    answers.number_line("schema refused", why.number() as u64)?;
    answers.write_to(output)
}
