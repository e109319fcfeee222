//! Answers, as they are written in a script's output.
ghost use Rattle.std.specs.Prelude.{◌≡◌, ◌++◌, ◌∷◌, ◌<◌, ◌/◌, ◌%◌, ℕ, List, [], codes, length, nat_le, take, IfErr, OnErr, OnOk, IfOk, IsOkUnless};
ghost use Rattle.std.specs.Fmt.{decimal};
ghost use Rattle.std.specs.Io.KnownBytes.{Appends};
ghost use Rattle.span_answers.specs.Lines.{word_number, number_line, word_line, opened_line, end_text, slot_range, slot_times, slot_counts, slot_lines, shards_text, rows_lines, refused_line, reply_text, Begins};
ghost use Rattle.std.specs.Char.{digit_char};
ghost use Rattle.span_value.specs.Cells.{hex_pairs};
ghost use Rattle.span_command.specs.Device.{risen};
ghost use Rattle.span_answers.specs.declared.answer.TheConstants.{MOST_KEPT};

use itoa::Buffer;
use span_command::device::OutputDevice;
use span_core::database::Core;
use span_core::slot::SlotView;
use span_core::{Refusal, Reply};
use span_keycode::key::Key;
use span_merging::answer_rows::AnswerRows;
use span_records::record_writer::RecordWriter;
use std::alloc::Global;
use std::marker::Model;

/// The number of bytes of answers at which they are written.
const MOST_KEPT: usize = 65_536;

/// Reserved capacity for the answers of one line, in bytes.
const LINE_CAPACITY: usize = 4_096;

/// The answers that are not written yet.
#[derive(Drop)]
pub struct Answers {
    bytes: Vec<u8>,
    records: RecordWriter,
}

impl Model for Answers {
    ghost use Rattle.std.specs.Prelude.{List, ℕ};

    ghost Value = { List ℕ };

    ghost view = { λ a. a.bytes.items };
}

impl Answers {
    /// No answers, and reserved capacity for some. `OutOfMemory` is the only refusal.
    pub fn new(alloc: Global) -> Result<Answers, Refusal>
        ensures none { IfOk result (λ answers. answers ≡ []) }
        ensures memory { IsOkUnless result Refusal.OutOfMemory }
    {
        Ok(Answers {
            bytes: Vec::with_capacity(alloc, MOST_KEPT + LINE_CAPACITY)?,
            records: RecordWriter::new(alloc),
        })
    }

    /// How many bytes there are.
    pub fn len(&self) -> usize
        ensures { result ≡ length self.now }
    {
        self.bytes.len()
    }

    /// Whether it is time to write them.
    pub fn are_many(&self) -> bool
        ensures { result ≡ nat_le MOST_KEPT (length self.now) }
    {
        self.bytes.len() >= MOST_KEPT
    }

    /// Takes back what follows the first `len` bytes.
    pub fn cut(&mut self, len: usize)
        ensures { self.new ≡ take len self.old }
    {
        self.bytes.truncate(len);
    }

    /// Writes the answers out, after which there are none. `OutputFault` where the device failed: then a beginning of them was written, and all of
    /// them are still here.
    pub fn write_to<O: OutputDevice>(&mut self, output: &mut O) -> Result<(), Refusal>
        ensures written { OnOk result
            ((self.new ≡ []) × Appends (O.written output.old) (O.written output.new) self.old) }
        ensures kept { OnErr result (self.new ≡ self.old) }
        ensures ok { OnOk result (O.failures output.new ≡ O.failures output.old) }
        ensures err { IfErr result
            (λ why. (why ≡ Refusal.OutputFault) × (O.failures output.new ≡ risen (O.failures output.old))) }
    {
        write_all(self.bytes.as_slice(), output)?;
        self.bytes.clear();
        Ok(())
    }

    /// Lines as they are.
    #[tactic(auto, using(crate::proofs::Begun::begins_either))]
    pub fn text(&mut self, text: &str) -> Result<(), Refusal>
        ensures added { OnOk result (self.new ≡ self.old ++ text.now) }
        ensures grows { Begins self.old self.new }
        ensures memory { IsOkUnless result Refusal.OutOfMemory }
    {
        self.bytes.extend_from_slice(text.as_bytes())?;
        Ok(())
    }

    /// One byte, as it is: less work than a text of one character.
    #[tactic(auto, using(crate::proofs::Begun::begins_either))]
    fn byte(&mut self, byte: u8) -> Result<(), Refusal>
        ensures added { OnOk result (self.new ≡ self.old ++ byte ∷ []) }
        ensures grows { Begins self.old self.new }
        ensures memory { IsOkUnless result Refusal.OutOfMemory }
    {
        self.bytes.push(byte)?;
        Ok(())
    }

    #[tactic(auto, using(crate::proofs::Begun::begins_on))]
    fn number(&mut self, number: u64) -> Result<(), Refusal>
        ensures added { OnOk result (self.new ≡ self.old ++ decimal number) }
        ensures grows { Begins self.old self.new }
        ensures memory { IsOkUnless result Refusal.OutOfMemory }
    {
        self.text(Buffer::new().format(number))
    }

    /// A word and a number.
    #[tactic(auto, using(crate::proofs::Begun::begins_on))]
    fn word_number(&mut self, word: &str, number: u64) -> Result<(), Refusal>
        ensures added { OnOk result (self.new ≡ self.old ++ word_number word.now number) }
        ensures grows { Begins self.old self.new }
        ensures memory { IsOkUnless result Refusal.OutOfMemory }
    {
        self.text(word)?;
        self.byte(b' ')?;
        self.number(number)
    }

    /// A line of one word.
    #[tactic(auto, using(crate::proofs::Begun::begins_on))]
    pub fn word_line(&mut self, word: &str) -> Result<(), Refusal>
        ensures added { OnOk result (self.new ≡ self.old ++ word_line word.now) }
        ensures grows { Begins self.old self.new }
        ensures memory { IsOkUnless result Refusal.OutOfMemory }
    {
        self.text(word)?;
        self.byte(b'\n')
    }

    /// A line of a word and a number.
    #[tactic(auto, using(crate::proofs::Begun::begins_on))]
    pub fn number_line(&mut self, word: &str, number: u64) -> Result<(), Refusal>
        ensures added { OnOk result (self.new ≡ self.old ++ number_line word.now number) }
        ensures grows { Begins self.old self.new }
        ensures memory { IsOkUnless result Refusal.OutOfMemory }
    {
        self.word_number(word, number)?;
        self.byte(b'\n')
    }

    /// The answer to a refused command.
    #[tactic(auto, using(crate::proofs::Begun::begins_on))]
    pub fn refusal_line(&mut self, why: Refusal) -> Result<(), Refusal>
        ensures added { OnOk result (self.new ≡ self.old ++ refused_line why) }
        ensures grows { Begins self.old self.new }
        ensures memory { IsOkUnless result Refusal.OutOfMemory }
    {
        self.number_line("refused", why.number() as u64)
    }

    /// The answer that a reply is.
    #[tactic(auto, using(crate::proofs::Begun::begins_on))]
    pub fn reply(&mut self, alloc: Global, reply: &Reply) -> Result<(), Refusal>
        ensures added { OnOk result (self.new ≡ self.old ++ reply_text reply.now) }
        ensures grows { Begins self.old self.new }
        ensures memory { IsOkUnless result Refusal.OutOfMemory }
    {
        match reply {
            Reply::Began(number) => self.number_line("txn", *number),
            Reply::Prepared(timestamp) => self.number_line("prepared", *timestamp),
            Reply::Decided(timestamp) => self.number_line("decided", *timestamp),
            Reply::Aborted => self.word_line("aborted"),
            Reply::Applied => self.word_line("applied"),
            Reply::Floor(floor) => self.number_line("floor", *floor),
            Reply::Trimmed(live) => self.number_line("trimmed", *live as u64),
            Reply::Opened { query, s, leaves } => self.opened_line(*query, *s, *leaves),
            Reply::Scanned => self.word_line("scanned"),
            Reply::Nothing => self.word_line("nothing"),
            Reply::Rows { s, rows } => self.rows(alloc, *s, rows.as_rows()),
            Reply::Closed => self.word_line("closed"),
            Reply::Split(slot) => self.number_line("split", *slot as u64),
            Reply::Refused(why) => self.refusal_line(*why),
        }
    }

    #[tactic(auto, using(crate::proofs::Begun::begins_on))]
    fn opened_line(&mut self, query: u64, s: u64, leaves: usize) -> Result<(), Refusal>
        ensures added { OnOk result (self.new ≡ self.old ++ opened_line query s leaves) }
        ensures grows { Begins self.old self.new }
        ensures memory { IsOkUnless result Refusal.OutOfMemory }
    {
        self.word_number("query", query)?;
        self.word_number(" at", s)?;
        self.number_line(" leaves", leaves as u64)
    }

    /// How many rows there are, and each as a record of its cells.
    #[tactic(auto, using(crate::proofs::Begun::begins_on, crate::proofs::Begun::begins_either))]
    fn rows(&mut self, alloc: Global, s: u64, rows: &AnswerRows) -> Result<(), Refusal>
        ensures added { OnOk result (self.new ≡ self.old ++ rows_lines s rows.now) }
        ensures grows { Begins self.old self.new }
        ensures memory { IsOkUnless result Refusal.OutOfMemory }
    {
        self.word_number("rows", rows.len() as u64)?;
        self.number_line(" at", s)?;
        self.records.add_rows(alloc, rows, &mut self.bytes)
    }

    /// How many slots are in use, and a line for each.
    #[tactic(auto, using(crate::proofs::Begun::begins_on))]
    pub fn slots(&mut self, core: &Core) -> Result<(), Refusal>
        ensures added { OnOk result (self.new ≡ self.old ++ shards_text core.now.schema core.now.machine) }
        ensures grows { Begins self.old self.new }
        ensures memory { IsOkUnless result Refusal.OutOfMemory }
    {
        self.number_line("shards", core.slots() as u64)?;
        self.slot_lines(core)
    }

    /// A line for each slot in use.
    #[tactic(auto, using(crate::proofs::Begun::begins_itself, crate::proofs::Begun::begins_on))]
    fn slot_lines(&mut self, core: &Core) -> Result<(), Refusal>
        ensures added { OnOk result
            (self.new ≡ self.old ++ slot_lines core.now.schema core.now.machine 0 core.now.machine.slots) }
        ensures grows { Begins self.old self.new }
        ensures memory { IsOkUnless result Refusal.OutOfMemory }
    {
        for slot in 0..core.slots() {
            if let Some(view) = core.slot(slot) {
                self.slot(slot, &view)?;
            }
        }
        Ok(())
    }

    /// The line of a slot.
    #[tactic(auto, using(crate::proofs::Begun::begins_on))]
    fn slot(&mut self, slot: usize, view: &SlotView<'_>) -> Result<(), Refusal>
        ensures added { OnOk result (self.new ≡ self.old
            ++ slot_range slot view.now.lo.now view.now.hi.now
            ++ slot_times view.now.last view.now.floor view.now.horizon
            ++ slot_counts view.now.live view.now.prepared) }
        ensures grows { Begins self.old self.new }
        ensures memory { IsOkUnless result Refusal.OutOfMemory }
    {
        self.slot_range(slot, view.lo, view.hi)?;
        self.slot_times(view.last, view.floor, view.horizon)?;
        self.slot_counts(view.live, view.prepared)
    }

    /// A slot's number, and its range.
    #[tactic(auto, using(crate::proofs::Begun::begins_on))]
    fn slot_range(&mut self, slot: usize, lo: &Option<Key>, hi: &Option<Key>) -> Result<(), Refusal>
        ensures added { OnOk result (self.new ≡ self.old ++ slot_range slot lo.now hi.now) }
        ensures grows { Begins self.old self.new }
        ensures memory { IsOkUnless result Refusal.OutOfMemory }
    {
        self.word_number("shard", slot as u64)?;
        self.text(" [")?;
        self.ends(lo, hi)
    }

    /// The ends of a range.
    #[tactic(auto, using(crate::proofs::Begun::begins_on))]
    fn ends(&mut self, lo: &Option<Key>, hi: &Option<Key>) -> Result<(), Refusal>
        ensures added { OnOk result
            (self.new ≡ self.old ++ end_text lo.now ++ codes "," ++ end_text hi.now ++ codes ")") }
        ensures grows { Begins self.old self.new }
        ensures memory { IsOkUnless result Refusal.OutOfMemory }
    {
        self.end(lo)?;
        self.text(",")?;
        self.end(hi)?;
        self.text(")")
    }

    /// An end of a range: the key in lower-case hexadecimal, or `-` where there is none.
    fn end(&mut self, end: &Option<Key>) -> Result<(), Refusal>
        ensures added { OnOk result (self.new ≡ self.old ++ end_text end.now) }
        ensures grows { Begins self.old self.new }
        ensures memory { IsOkUnless result Refusal.OutOfMemory }
    {
        match end {
            None => self.text("-"),
            Some(key) => self.hex(key.as_slice()),
        }
    }

    /// The bytes, each as two hexadecimal digits in lower case.
    #[tactic(auto, using(crate::proofs::Begun::begins_itself, crate::proofs::Begun::begins_on))]
    fn hex(&mut self, bytes: &[u8]) -> Result<(), Refusal>
        ensures added { OnOk result (self.new ≡ self.old ++ hex_pairs bytes.now) }
        ensures grows { Begins self.old self.new }
        ensures memory { IsOkUnless result Refusal.OutOfMemory }
    {
        for byte in bytes {
            self.hex_byte(*byte)?;
        }
        Ok(())
    }

    #[tactic(auto, using(crate::proofs::Begun::begins_either))]
    fn hex_byte(&mut self, byte: u8) -> Result<(), Refusal>
        ensures added { OnOk result (self.new ≡ self.old ++ digit_char (byte / 16) ∷ digit_char (byte % 16) ∷ []) }
        ensures grows { Begins self.old self.new }
        ensures memory { IsOkUnless result Refusal.OutOfMemory }
    {
        let digits = [hex_digit(byte / 16), hex_digit(byte % 16)];
        self.bytes.extend_from_slice(&digits)?;
        Ok(())
    }

    #[tactic(auto, using(crate::proofs::Begun::begins_on))]
    fn slot_times(&mut self, last: u64, floor: u64, horizon: u64) -> Result<(), Refusal>
        ensures added { OnOk result (self.new ≡ self.old ++ slot_times last floor horizon) }
        ensures grows { Begins self.old self.new }
        ensures memory { IsOkUnless result Refusal.OutOfMemory }
    {
        self.word_number(" last", last)?;
        self.word_number(" floor", floor)?;
        self.word_number(" horizon", horizon)
    }

    #[tactic(auto, using(crate::proofs::Begun::begins_on))]
    fn slot_counts(&mut self, live: usize, prepared: usize) -> Result<(), Refusal>
        ensures added { OnOk result (self.new ≡ self.old ++ slot_counts live prepared) }
        ensures grows { Begins self.old self.new }
        ensures memory { IsOkUnless result Refusal.OutOfMemory }
    {
        self.word_number(" live", live as u64)?;
        self.number_line(" prepared", prepared as u64)
    }
}

/// The hexadecimal digit of half a byte, in lower case.
fn hex_digit(half: u8) -> u8
    requires { half < 16 }
    ensures { result ≡ digit_char half }
{
    if half < 10 {
        b'0' + half
    } else {
        b'a' + (half - 10)
    }
}

/// Writes all the bytes. `OutputFault` where the device failed: then a front of them was written.
#[tactic(auto, using(crate::proofs::Written::wrote_none, crate::proofs::Written::wrote_rest, crate::proofs::Written::wrote_to_end))]
fn write_all<O: OutputDevice>(bytes: &[u8], output: &mut O) -> Result<(), Refusal>
    ensures written { OnOk result (Appends (O.written output.old) (O.written output.new) bytes.now) }
    ensures ok { OnOk result (O.failures output.new ≡ O.failures output.old) }
    ensures err { IfErr result
        (λ why. (why ≡ Refusal.OutputFault) × (O.failures output.new ≡ risen (O.failures output.old))) }
{
    let mut rest = bytes;
    while !rest.is_empty() {
        let count = output.write(rest)?;
        rest = &rest[count..];
    }
    Ok(())
}
