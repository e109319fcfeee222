//! Reports of refusals, as lines.
ghost use Rattle.span_report.specs.Lines.{report_text};

use super::place::InputPlace;
use span_value::refusal::Refusal;
use std::fmt;

/// A refusal, and where it was met.
#[derive(Clone, Copy)]
pub struct Report<'a> {
    pub program: &'a str,
    /// What was refused: `query`, or the name of a file.
    pub input: &'a str,
    pub place: InputPlace,
    pub refusal: Refusal,
}

impl Report<'_> {
    /// Writes the report as a line on standard error. Where that device fails, the line is lost: the answer on standard output is not. What
    /// the line says is the contract of `Display`; what standard error takes no contract can say.
    pub fn write(&self, rt: &impl Eprint) {
        let _ = eprintln!(rt; "{self}");
    }
}

impl fmt::Display for Report<'_> {
    ghost use Rattle.std.specs.Prelude.{Some};

    ghost output = { λ report. Some (report_text report.program.now report.input.now report.place report.refusal) };

    fn fmt<W: fmt::Write>(&self, f: &mut fmt::Formatter<W>) -> fmt::Result {
        let Report {
            program,
            input,
            place,
            refusal,
        } = *self;
        let number = refusal.number();
        let name = refusal.name();
        let message = refusal.message();
        write!(
            f,
            "{program}: {input}{place}: refused {number} {name}: {message}"
        )
    }
}
