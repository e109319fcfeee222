//! Where scripts come from and answers go: devices that count their failures.
ghost use Rattle.std.specs.Prelude.{◌≡◌, ◌≤◌, ◌<◌, ℕ, List, Option, None, length, take, IfOk, IfErr, IfSome, IfNone, OnOk};
ghost use Rattle.std.specs.Io.KnownBytes.{Appends, Consumes, IsAtEnd, Keeps, ReadConsumes, WriteAppends};
ghost use Rattle.span_command.specs.Limits.{longest_input};
ghost use Rattle.span_command.specs.declared.device.TheConstants.{LONGEST_INPUT};
ghost use Rattle.span_command.specs.Device.{risen, failures_of, remaining_input};

use span_value::refusal::Refusal;
use std::io;
use std::io::{ErrorKind, Read, Write};

/// An input gives at most this many bytes; a read beyond them is a failure.
pub const LONGEST_INPUT: u64 = 1 << 63;

/// The limit is the number that the definitions name.
pub fn limit_is_stated()
    ensures { LONGEST_INPUT ≡ longest_input }
{}

/// What a script is read from.
pub trait InputDevice {
    // How often a read failed.
    ghost failures: { Self → ℕ };

    // The bytes that reads will give from here on, where they are known.
    ghost remaining: { Self → Option (List ℕ) } = { λ _. None };

    /// Reads bytes into the front of the buffer, and answers how many. None are read only at the end of the input, or where the
    /// buffer is empty. `InputFault` where the device failed: one more failure is counted.
    fn read(&mut self, buffer: &mut [u8]) -> Result<usize, Refusal>
        ensures bound { IfOk result (λ n. n ≤ length buffer.new) }
        ensures bytes { ReadConsumes (remaining self.old) (remaining self.new) result buffer.new }
        ensures ok { OnOk result (failures self.new ≡ failures self.old) }
        ensures err { IfErr result
            (λ why. (why ≡ Refusal.InputFault) × (failures self.new ≡ risen (failures self.old))) };
}

/// What answers are written to.
pub trait OutputDevice {
    // How often a write failed.
    ghost failures: { Self → ℕ };

    // The bytes that were written so far, where they are known.
    ghost written: { Self → Option (List ℕ) } = { λ _. None };

    /// Writes bytes from the front, and answers how many: at least one of those that are there. `OutputFault` where the device
    /// failed: one more failure is counted.
    fn write(&mut self, bytes: &[u8]) -> Result<usize, Refusal>
        ensures bound { IfOk result (λ n. n ≤ length bytes.now) }
        ensures some { IfOk result (λ n. 0 < length bytes.now → 0 < n) }
        ensures bytes { WriteAppends (written self.old) (written self.new) result bytes.now }
        ensures ok { OnOk result (failures self.new ≡ failures self.old) }
        ensures err { IfErr result
            (λ why. (why ≡ Refusal.OutputFault) × (failures self.new ≡ risen (failures self.old))) };
}

/// A reader or a writer of the standard library, with the count of its failures.
#[derive(Drop)]
pub struct Counted<R> {
    device: R,
    failures: u64,
    /// How many bytes were read.
    bytes: u64,
}

impl<R> Counted<R> {
    /// A device that has not failed yet.
    pub fn new(device: R) -> Counted<R>
        ensures { failures_of result ≡ 0 }
    {
        Counted {
            device,
            failures: 0,
            bytes: 0,
        }
    }

    /// How often a read or a write failed. The count stays at its greatest value.
    pub fn failures(&self) -> u64
        ensures { result ≡ failures_of self.now }
    {
        self.failures
    }
}

impl<R: Read> InputDevice for Counted<R> {
    ghost failures = { λ c. c.failures };

    ghost remaining = { λ c. remaining_input c.bytes (R.remaining c.device) };

    fn read(&mut self, buffer: &mut [u8]) -> Result<usize, Refusal> {
        if let Some(count) = read_some(&mut self.device, buffer) {
            let bytes = self.bytes.saturating_add(count as u64);
            if bytes <= LONGEST_INPUT {
                self.bytes = bytes;
                return Ok(count);
            }
        }
        self.failures = self.failures.saturating_add(1);
        Err(Refusal::InputFault)
    }
}

impl<W: Write> OutputDevice for Counted<W> {
    ghost failures = { λ c. c.failures };

    ghost written = { λ c. W.contents c.device };

    fn write(&mut self, bytes: &[u8]) -> Result<usize, Refusal> {
        if let Some(count) = write_some(&mut self.device, bytes) {
            if count > 0 || bytes.is_empty() {
                return Ok(count);
            }
        }
        self.failures = self.failures.saturating_add(1);
        Err(Refusal::OutputFault)
    }
}

/// One read, taken again where a signal interrupts it; None where the device failed.
fn read_some<R: Read>(device: &mut R, buffer: &mut [u8]) -> Option<usize>
    ensures bound { IfSome result (λ n. n ≤ length buffer.new) }
    ensures some { IfSome result (λ n. Consumes (R.remaining device.old) (R.remaining device.new) (take n buffer.new)) }
    ensures end { IfSome result (λ n. n ≡ 0 → 0 < length buffer.new → IsAtEnd (R.remaining device.new)) }
    ensures none { IfNone result (Keeps (R.remaining device.old) (R.remaining device.new)) }
{
    for _ in 0..u64::MAX {
        match device.read(buffer) {
            Ok(count) => return Some(count),
            Err(error) if is_interrupted(&error) => {}
            Err(_) => return None,
        }
    }
    None
}

/// One write, taken again where a signal interrupts it; None where the device failed.
fn write_some<W: Write>(device: &mut W, bytes: &[u8]) -> Option<usize>
    ensures bound { IfSome result (λ n. n ≤ length bytes.now) }
    ensures some { IfSome result (λ n. Appends (W.contents device.old) (W.contents device.new) (take n bytes.now)) }
    ensures none { IfNone result (Keeps (W.contents device.old) (W.contents device.new)) }
{
    for _ in 0..u64::MAX {
        match device.write(bytes) {
            Ok(count) => return Some(count),
            Err(error) if is_interrupted(&error) => {}
            Err(_) => return None,
        }
    }
    None
}

fn is_interrupted(error: &io::Error) -> bool {
    error.kind() == ErrorKind::Interrupted
}
