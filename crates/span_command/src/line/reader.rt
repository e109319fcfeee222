//! How the lines of a script are read and taken.
ghost use Rattle.std.specs.Prelude.{◌≡◌, ◌⊎◌, ◌≤◌, ◌<◌, ◌↔◌, ◌+◌, ℕ, List, [], Option, false, length, take, drop, slice_index, slice_range, vec_len, IfErr, IfOk, IsTrue, MatchBool, OnErr, OnOk, IsOkUnless};
ghost use Rattle.std.specs.Bool.{OnFalse};
ghost use Rattle.std.specs.Io.KnownBytes.{Consumes, IsAtEnd, Keeps};
ghost use Rattle.span_command.specs.Device.{risen};
ghost use Rattle.span_command.specs.Unread.{held, Advances, HoldsSame, IsReady, IsStillToCome, IsTaken, ReadsAs, TakesNext};

use super::{LONGEST_LINE, Line, Lines};
use crate::device::InputDevice;
use memchr::memchr;
use span_value::refusal::Refusal;
use std::alloc::Global;

/// How many bytes the buffer has at first.
const FIRST_CAPACITY: usize = 65_536;

impl Lines {
    /// No lines: nothing is held. It takes no memory.
    pub fn new(alloc: Global) -> Lines
        ensures { (rest : List ℕ) → IsStillToCome result (Some rest) rest }
    {
        Lines {
            buffer: Vec::new(alloc),
            start: 0,
            searched: 0,
            end: 0,
            has_ended: false,
            is_cut: false,
            taken_from: 0,
            taken_to: 0,
            taken_is_cut: false,
        }
    }

    /// Whether `take` answers without a further read: a whole line was read, or the script to its end.
    pub fn is_ready(&mut self) -> bool
        ensures ready { IsTrue result ↔ IsReady self.new }
        ensures to_come { (known : Option (List ℕ)) (text : List ℕ) → IsStillToCome self.old known text
            → IsStillToCome self.new known text }
    {
        self.search();
        if self.searched < self.end {
            return true;
        }
        self.has_ended
    }

    /// Looks for the first LF in what was not searched yet. Where there is one, `searched` is its place.
    fn search(&mut self)
        ensures same { HoldsSame self.old self.new }
        ensures found { self.new.searched < self.new.end → slice_index self.new.buffer.items self.new.searched ≡ 10 }
    {
        let unsearched = &self.buffer.as_slice()[self.searched..self.end];
        match memchr(b'\n', unsearched) {
            Some(at) => self.searched += at,
            None => self.searched = self.end,
        }
    }

    /// Reads once more: more bytes are held, or the input has ended. `InputFault` where the device failed, `OutOfMemory` where the buffer
    /// can't grow; what was held is then held still.
    pub fn read<I: InputDevice>(&mut self, input: &mut I) -> Result<(), Refusal>
        ensures to_come { (text : List ℕ)
            → IsStillToCome self.old (I.remaining input.old) text
            → IsStillToCome self.new (I.remaining input.new) text }
        ensures advances { OnOk result (Advances self.new.has_ended (I.remaining input.old) (I.remaining input.new)) }
        ensures ok { OnOk result (I.failures input.new ≡ I.failures input.old) }
        ensures err { IfErr result
            (λ why.
            (why ≡ Refusal.OutOfMemory)
            ⊎ ((why ≡ Refusal.InputFault) × (I.failures input.new ≡ risen (I.failures input.old)))) }
    {
        self.let_go();
        self.move_to_front();
        self.reserve_capacity()?;
        let count = read_after(input, &mut self.buffer, self.end)?;
        if count == 0 {
            self.has_ended = true;
            return Ok(());
        }
        self.end += count;
        Ok(())
    }

    /// Lets the bytes of a line go that is too long already.
    fn let_go(&mut self)
        ensures { (known : Option (List ℕ)) (text : List ℕ) → IsStillToCome self.old known text
            → IsStillToCome self.new known text }
    {
        if self.searched - self.start > LONGEST_LINE {
            self.is_cut = true;
            self.start = self.searched;
        }
    }

    /// Moves what is held to the front of the buffer. The line that was taken is gone.
    fn move_to_front(&mut self)
        ensures { HoldsSame self.old self.new }
    {
        if self.start == 0 {
            return;
        }
        self.buffer.copy_within(self.start..self.end, 0);
        self.end -= self.start;
        self.searched -= self.start;
        self.start = 0;
        self.taken_from = 0;
        self.taken_to = 0;
    }

    /// Reserves capacity after the bytes that are held, where there is none. `OutOfMemory` is the only refusal.
    fn reserve_capacity(&mut self) -> Result<(), Refusal>
        ensures same { HoldsSame self.old self.new }
        ensures capacity { OnOk result (self.new.end < vec_len self.new.buffer) }
        ensures memory { IsOkUnless result Refusal.OutOfMemory }
    {
        if self.end < self.buffer.len() {
            return Ok(());
        }
        let capacity = self.end.saturating_mul(2).max(FIRST_CAPACITY);
        self.buffer.resize(capacity, 0)?;
        Ok(())
    }

    /// Moves on to the next line, for `line` to lend. False where there is none any more, or where none is ready: nothing is taken then.
    pub fn take(&mut self) -> bool
        ensures next { (known : Option (List ℕ)) (text : List ℕ) → IsReady self.old → IsStillToCome self.old known text
            → MatchBool result (TakesNext self.new known text) (text ≡ []) }
        ensures waits { ¬ IsReady self.old → result ≡ false }
        ensures stays { OnFalse result
            ((known : Option (List ℕ)) (text : List ℕ) → IsStillToCome self.old known text
            → IsStillToCome self.new known text) }
    {
        self.search();
        if self.searched < self.end {
            self.pass(self.searched + 1);
            return true;
        }
        if !self.has_ended {
            return false;
        }
        if self.start == self.end && !self.is_cut {
            return false;
        }
        self.pass(self.end);
        true
    }

    /// Takes what was searched as a line; the next begins at `next`.
    fn pass(&mut self, next: usize)
        requires following { self.old.searched ≤ next }
        requires within { next ≤ self.old.end }
        ensures taken { slice_range self.new.buffer.items self.new.taken_from self.new.taken_to
            ≡ slice_range self.old.buffer.items self.old.start self.old.searched }
        ensures taken_is_cut { self.new.taken_is_cut ≡ self.old.is_cut }
        ensures held { held self.new ≡ slice_range self.old.buffer.items next self.old.end }
        ensures whole { self.new.is_cut ≡ false }
        ensures has_ended { self.new.has_ended ≡ self.old.has_ended }
    {
        self.taken_from = self.start;
        self.taken_to = self.searched;
        self.taken_is_cut = self.is_cut;
        self.is_cut = false;
        self.start = next;
        self.searched = next;
    }

    /// The line that was taken last.
    pub fn line(&self) -> Line<'_>
        ensures { (line : List ℕ) → IsTaken self.now line → ReadsAs line result }
    {
        if self.taken_is_cut {
            return Line::Unreadable;
        }
        line_of(&self.buffer.as_slice()[self.taken_from..self.taken_to])
    }
}

/// Reads once into the buffer, after a front that stays.
fn read_after<I: InputDevice>(
    input: &mut I,
    buffer: &mut Vec<u8>,
    front: usize,
) -> Result<usize, Refusal>
    requires { front < vec_len buffer.old }
    ensures front { take front buffer.new.items ≡ take front buffer.old.items }
    ensures fits { IfOk result (λ n. front + n ≤ vec_len buffer.new) }
    ensures len { vec_len buffer.new ≡ vec_len buffer.old }
    ensures bytes { IfOk result
        (λ n. Consumes (I.remaining input.old) (I.remaining input.new) (take n (drop front buffer.new.items))) }
    ensures end { IfOk result (λ n. n ≡ 0 → IsAtEnd (I.remaining input.new)) }
    ensures kept { OnErr result (Keeps (I.remaining input.old) (I.remaining input.new)) }
    ensures ok { OnOk result (I.failures input.new ≡ I.failures input.old) }
    ensures err { IfErr result
        (λ why. (why ≡ Refusal.InputFault) × (I.failures input.new ≡ risen (I.failures input.old))) }
{
    read_at(input, buffer.as_mut_slice(), front)
}

/// Reads once into the bytes after a front that stays.
fn read_at<I: InputDevice>(input: &mut I, buffer: &mut [u8], front: usize) -> Result<usize, Refusal>
    requires { front < length buffer.old }
    ensures front { take front buffer.new ≡ take front buffer.old }
    ensures fits { IfOk result (λ n. front + n ≤ length buffer.new) }
    ensures bytes { IfOk result
        (λ n. Consumes (I.remaining input.old) (I.remaining input.new) (take n (drop front buffer.new))) }
    ensures end { IfOk result (λ n. n ≡ 0 → IsAtEnd (I.remaining input.new)) }
    ensures kept { OnErr result (Keeps (I.remaining input.old) (I.remaining input.new)) }
    ensures ok { OnOk result (I.failures input.new ≡ I.failures input.old) }
    ensures err { IfErr result
        (λ why. (why ≡ Refusal.InputFault) × (I.failures input.new ≡ risen (I.failures input.old))) }
{
    input.read(&mut buffer[front..])
}

/// What the bytes of a line read as.
fn line_of(bytes: &[u8]) -> Line<'_>
    ensures { ReadsAs bytes.now result }
{
    if bytes.len() > LONGEST_LINE {
        return Line::Unreadable;
    }
    match str::from_utf8(bytes) {
        Ok(text) => Line::Text(text),
        Err(_) => Line::Unreadable,
    }
}
