//! Standard error: how far a script was read.
ghost use Rattle.std.specs.Prelude.{◌≡◌, ◌==◌, IfSome, count_by, length};
ghost use Rattle.span_program.specs.Counts.{counted};

use span_core::Refusal;
use span_script::InputDevice;
use std::fmt;
use std::rt::Clock;
use std::time::{Duration, Instant};

/// The least time between two reports, in seconds.
const SECONDS_BETWEEN: u64 = 1;

/// What was read of a script. All lines that were read whole are answered where the script is read on.
#[derive(Clone, Copy, Debug, PartialEq, Eq)]
struct Counts {
    lines: u64,
    bytes: u64,
    /// How many bytes the script has, where that is known.
    all_bytes: Option<u64>,
}

impl Counts {
    /// Counts bytes that were read, and the lines that end in them.
    fn add(&mut self, bytes: &[u8])
        ensures lines { self.new.lines ≡ counted self.old.lines (count_by (λ byte. byte == 10) bytes.now) }
        ensures bytes { self.new.bytes ≡ counted self.old.bytes (length bytes.now) }
        ensures all_bytes { self.new.all_bytes ≡ self.old.all_bytes }
    {
        let lines = count_line_feeds(bytes);
        self.lines = self.lines.saturating_add(lines as u64);
        self.bytes = self.bytes.saturating_add(bytes.len() as u64);
    }
}

/// How many of the bytes are an LF. A `for`, since a filter's closure is called for each byte.
#[tactic(auto, using(std::proofs::lemmas::List::Sums::count_by_more_yes, std::proofs::lemmas::List::Sums::count_by_more_no))]
fn count_line_feeds(bytes: &[u8]) -> usize
    ensures { result ≡ count_by (λ byte. byte == 10) bytes.now }
{
    let mut count = 0;
    for byte in bytes {
        if *byte == b'\n' {
            count += 1;
        }
    }
    count
}

impl fmt::Display for Counts {
    ghost use Rattle.std.specs.Prelude.{Some};
    ghost use Rattle.span_program.specs.Counts.{counts_text};

    ghost output = { λ counts. Some (counts_text counts) };

    fn fmt<W: fmt::Write>(&self, f: &mut fmt::Formatter<W>) -> fmt::Result {
        let Counts {
            lines,
            bytes,
            all_bytes,
        } = *self;
        match all_bytes {
            Some(all) => write!(f, "{lines} lines, {bytes} of {all} bytes"),
            None => write!(f, "{lines} lines, {bytes} bytes"),
        }
    }
}

/// How far a script was read, on standard error.
#[derive(Drop)]
pub struct Progress<'a, R> {
    rt: &'a R,
    /// What was read; it is counted only where it is reported.
    counts: Counts,
    /// When it was reported last, or the run began. None where it is not reported at all.
    since: Option<Instant>,
}

impl<'a, R: Eprint + Clock> Progress<'a, R> {
    /// Nothing was read yet, of a script of this number of bytes, where that is known.
    pub fn new(rt: &'a R, is_wanted: bool, all_bytes: Option<u64>) -> Progress<'a, R>
        ensures { result.counts ≡ record { lines = 0; bytes = 0; all_bytes = all_bytes } }
    {
        let since = if is_wanted {
            Instant::now(rt).ok()
        } else {
            None
        };
        Progress {
            rt,
            counts: Counts {
                lines: 0,
                bytes: 0,
                all_bytes,
            },
            since,
        }
    }

    /// Counts bytes that were read, where they are reported: else no byte is looked at.
    fn count(&mut self, bytes: &[u8])
        ensures lines { IfSome self.old.since (λ _. self.new.counts.lines
            ≡ counted self.old.counts.lines (count_by (λ byte. byte == 10) bytes.now)) }
        ensures bytes { IfSome self.old.since (λ _. self.new.counts.bytes
            ≡ counted self.old.counts.bytes (length bytes.now)) }
        ensures all_bytes { self.new.counts.all_bytes ≡ self.old.counts.all_bytes }
        ensures since { self.new.since ≡ self.old.since }
    {
        if self.since.is_some() {
            self.counts.add(bytes);
        }
    }

    /// Reports, where it is wanted and was not reported within the last second. Where the clock or standard error fails nothing is.
    fn report(&mut self)
        ensures { self.new.counts ≡ self.old.counts }
    {
        let Some(since) = self.since else {
            return;
        };
        let Ok(now) = Instant::now(self.rt) else {
            return;
        };
        if now.duration_since(since) < Duration::from_secs(SECONDS_BETWEEN) {
            return;
        }
        self.since = Some(now);
        let (rt, counts) = (self.rt, self.counts);
        let _ = eprintln!(rt; "spansql: {counts}");
    }
}

/// An input that reports how far it was read.
#[derive(Drop)]
pub struct Watched<'a, I, R> {
    input: I,
    progress: Progress<'a, R>,
}

impl<'a, I, R> Watched<'a, I, R> {
    /// An input of which nothing was read.
    pub fn new(input: I, progress: Progress<'a, R>) -> Watched<'a, I, R>
        ensures input { result.input ≡ input }
        ensures progress { result.progress ≡ progress.entry }
    {
        Watched { input, progress }
    }
}

impl<I: InputDevice, R: Eprint + Clock> InputDevice for Watched<'_, I, R> {
    ghost failures = { λ w. I.failures w.input };

    ghost remaining = { λ w. I.remaining w.input };

    fn read(&mut self, buffer: &mut [u8]) -> Result<usize, Refusal> {
        self.progress.report();
        let count = self.input.read(buffer)?;
        self.progress.count(&buffer[..count]);
        Ok(count)
    }
}
