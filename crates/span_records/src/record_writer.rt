//! The records of rows.
ghost use Rattle.std.specs.Prelude.{◌≡◌, ◌++◌, [], ◌∷◌, map, IfOk, OnErr, OnOk, IsOkUnless};
ghost use Rattle.csv.specs.Records.{fields_of};
ghost use Rattle.csv.specs.Writing.{writer_under};
ghost use Rattle.span_value.specs.Cells.{cell_of};
ghost use Rattle.span_records.specs.Record.{row_records, IsBetweenRecords};

use csv::{StringRecord, Writer, WriterBuilder};
use itoa::Buffer;
use span_merging::answer_rows::AnswerRows;
use span_value::cell::cell_text;
use span_value::refusal::Refusal;
use span_value::value::Value;
use std::alloc::Global;
use std::marker::Model;

/// The number of bytes of records at which a writer is given up for another.
const MOST_KEPT: usize = 65_536;

/// Writes rows as records, those of one answer after another's: a writer of `csv` clears 8 KB when it is made, which takes longer than a
/// short answer. Contracts see nothing of it.
#[derive(Drop)]
pub struct RecordWriter {
    records: Writer<Vec<u8>>,
    cells: StringRecord,
}

impl Model for RecordWriter {
    ghost use Rattle.span_records.specs.Record.{IsBetweenRecords};

    ghost Value = { Unit {0} };

    ghost view = { λ w. tt };

    ghost invariant = { λ w. IsBetweenRecords w.records };
}

impl RecordWriter {
    /// A writer that has written nothing. It takes no memory.
    pub fn new(alloc: Global) -> RecordWriter {
        RecordWriter {
            records: new_records(alloc),
            cells: StringRecord::new(alloc),
        }
    }

    /// Adds the rows to a text, each as a record of its cells, as `csv` writes them. `OutOfMemory` is the only refusal, and leaves the text as
    /// it was.
    pub fn add_rows(
        &mut self,
        alloc: Global,
        rows: &AnswerRows,
        text: &mut Vec<u8>,
    ) -> Result<(), Refusal>
        ensures text { OnOk result (text.new.items ≡ text.old.items ++ row_records rows.now) }
        ensures err { OnErr result (text.new.items ≡ text.old.items) }
        ensures memory { IsOkUnless result Refusal.OutOfMemory }
    {
        let start = self.records.get_ref().len();
        if let Err(why) = write_rows(alloc, rows, &mut self.cells, &mut self.records) {
            renew(alloc, &mut self.records);
            return Err(why);
        }
        let copied = text.extend_from_slice(&self.records.get_ref()[start..]);
        if copied.is_err() || self.records.get_ref().len() >= MOST_KEPT {
            renew(alloc, &mut self.records);
        }
        copied?;
        Ok(())
    }
}

fn new_records(alloc: Global) -> Writer<Vec<u8>>
    ensures ready { IsBetweenRecords result }
    ensures none { (writer_under result).items ≡ [] }
{
    WriterBuilder::new()
        .flexible(true)
        .from_writer(Vec::new(alloc))
}

// Another writer in the place of one. Where this is inlined, memory for it is cleared at each answer.
#[inline(never)]
fn renew(alloc: Global, records: &mut Writer<Vec<u8>>)
    ensures { IsBetweenRecords records.new }
{
    *records = new_records(alloc);
}

/// Writes the rows after what was written before. `OutOfMemory` is the only refusal.
fn write_rows(
    alloc: Global,
    rows: &AnswerRows,
    cells: &mut StringRecord,
    records: &mut Writer<Vec<u8>>,
) -> Result<(), Refusal>
    requires { IsBetweenRecords records.old }
    ensures ready { OnOk result (IsBetweenRecords records.new) }
    ensures text { OnOk result
        ((writer_under records.new).items ≡ (writer_under records.old).items ++ row_records rows.now) }
    ensures memory { IsOkUnless result Refusal.OutOfMemory }
{
    for at in 0..rows.len() {
        put_cells(alloc, rows.row(at), cells)?;
        // The text is in memory, so that only memory can run out.
        if records.write_byte_record(cells.as_byte_record()).is_err() {
            return Err(Refusal::OutOfMemory);
        }
    }
    match records.flush() {
        Ok(()) => Ok(()),
        Err(_) => Err(Refusal::OutOfMemory),
    }
}

/// Makes the cells of a row the fields of a record. `OutOfMemory` is the only refusal.
fn put_cells(alloc: Global, row: &[Value], cells: &mut StringRecord) -> Result<(), Refusal>
    ensures cells { OnOk result (fields_of cells.new ≡ map cell_of row.now) }
    ensures memory { IsOkUnless result Refusal.OutOfMemory }
{
    cells.clear();
    for value in row {
        put_cell(alloc, value, cells)?;
    }
    Ok(())
}

/// Adds the cell of a value as a field. `OutOfMemory` is the only refusal.
fn put_cell(alloc: Global, value: &Value, cells: &mut StringRecord) -> Result<(), Refusal>
    ensures added { OnOk result (fields_of cells.new ≡ fields_of cells.old ++ cell_of value.now ∷ []) }
    ensures memory { IsOkUnless result Refusal.OutOfMemory }
{
    match value {
        Value::Int(number) => cells.push_field(Buffer::new().format(*number))?,
        value => cells.push_field(cell_text(alloc, value)?.as_str())?,
    }
    Ok(())
}
