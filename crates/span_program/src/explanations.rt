//! Standard error: refusals, each with its place, number, name and message.
use super::answer::SchemaReports;
use span_core::Refusal;
use span_report::grammar::{schema_place, script_place};
use span_report::place::InputPlace;
use span_report::report::Report;
use span_script::{QueryText, Refused, Reports};

/// The program's name, in its reports.
const PROGRAM: &str = "spansql";

/// Standard error, for the refusals of a run.
#[derive(Drop)]
pub struct Explanations<'a, R> {
    pub rt: &'a R,
    /// Whether refusals are explained at all.
    pub are_wanted: bool,
    /// The name of the schema's file.
    pub schema: &'a str,
    /// The name of the script's file.
    pub script: &'a str,
}

impl<R: AllocGlobal + Eprint> Reports for Explanations<'_, R> {
    fn report(&mut self, refused: Refused, query: Option<QueryText<'_>>) {
        if !self.are_wanted {
            return;
        }
        let Refused { line, why } = refused;
        let line = line as usize;
        let place = match query {
            Some(QueryText { before, text }) => {
                script_place(self.rt.alloc(), line, before, text, why)
            }
            None => InputPlace::WholeLine(line),
        };
        let report = Report {
            program: PROGRAM,
            input: self.script,
            place,
            refusal: why,
        };
        report.write(self.rt);
    }
}

impl<R: AllocGlobal + Eprint> SchemaReports for Explanations<'_, R> {
    fn report_schema(&mut self, schema: &[u8], why: Refusal) {
        if !self.are_wanted {
            return;
        }
        let place = match str::from_utf8(schema) {
            Ok(text) => schema_place(self.rt.alloc(), text, why),
            Err(error) => InputPlace::in_lines(schema, error.valid_up_to()),
        };
        let report = Report {
            program: PROGRAM,
            input: self.schema,
            place,
            refusal: why,
        };
        report.write(self.rt);
    }
}
