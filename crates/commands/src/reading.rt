//! Lines of commands from a reader.

ghost use Rattle.std.specs.Prelude.{◌≡◌, ◌↔◌, ◌+◌, ◌<◌, ◌≤◌, [], ◌∷◌, ◌++◌, true, false, Ok, Err, None, Some, OnErr};
ghost use Rattle.std.specs.Prelude.{OnOk, IfOk, IfErr, IfNone, MatchOption, length, take, codes, decimal};
ghost use Rattle.std.specs.Prelude.{if◌then◌else◌};
ghost use Rattle.words.specs.Devices.{one_more, failures_after};
ghost use Rattle.agc_text.specs.Lines.{HasNoFeed};
ghost use Rattle.commands.specs.Lines.{KeepsLine, EndsNoLine, ReadsWithin, IsToWait, text_ahead, most_ahead};
ghost use Rattle.commands.specs.Lines.{is_read_failed, is_write_failed, number_of};

use crate::line::CommandLine;
use std::fmt;
use std::marker::Model;
use words::{Read, Write};

/// How many bytes are asked for at once.
const CHUNK: usize = 4096;

/// The device that failed.
#[derive(Clone, Copy, PartialEq, Eq, Debug, Drop)]
pub enum DeviceFault {
    /// A read failed.
    ReadFailed,
    /// A flush failed.
    WriteFailed,
}

impl DeviceFault {
    /// The number that the fault is told by.
    pub fn number(self) -> u8
        ensures { result ≡ number_of self }
    {
        match self {
            DeviceFault::ReadFailed => 6,
            DeviceFault::WriteFailed => 7,
        }
    }
}

impl fmt::Display for DeviceFault {
    ghost output = { λ fault. Some (codes "E" ++ decimal (number_of fault)) };

    fn fmt<W: fmt::Write>(&self, f: &mut fmt::Formatter<W>) -> fmt::Result {
        write!(f, "E{}", self.number())
    }
}

impl std::error::Error for DeviceFault {}

/// Takes lines off the first bytes of a reader, as many as it is made for.
///
/// The bytes are asked for some 4,000 at once, and only where no line is left of those before; what was written is
/// handed on before that. So whoever waits for replies at the other end has those to all lines that were read.
#[derive(Drop)]
pub struct LineReader {
    chunk: [u8; CHUNK],
    // Where the bytes begin and end that are in no line yet.
    start: usize,
    end: usize,
    // How many bytes more may be read.
    more: u64,
}

impl Model for LineReader {
    ghost use Rattle.std.specs.Prelude.{◌≤◌, slice_range};
    ghost use Rattle.agc_text.specs.Lines.{HasNoFeed};
    ghost use Rattle.commands.specs.Lines.{Ahead};

    ghost Value = { Ahead };

    ghost view = { λ r. record { held = slice_range r.chunk r.start r.end; more = r.more } };

    ghost invariant = { λ r. (r.start ≤ r.end) × (r.end ≤ 4096) };
}

impl LineReader {
    /// A reader of lines that has read nothing yet, and reads at most so many bytes.
    pub fn new(most: u64) -> LineReader
        ensures held { result.held ≡ [] }
        ensures more { result.more ≡ most }
    {
        LineReader {
            chunk: [0; CHUNK],
            start: 0,
            end: 0,
            more: most,
        }
    }

    /// Takes the next line off, and answers whether there is one. What was written is handed on before more bytes are
    /// asked for.
    ///
    /// Lines end with a line feed; a last line without one counts unless it is empty. `ReadFailed` where a read failed:
    /// no line feed stands in what was read before it. `WriteFailed` where what was written could not be handed on:
    /// then nothing was read.
    pub fn next_line<R: Read, W: Write>(
        &mut self,
        reader: &mut R,
        out: &mut W,
        line: &mut CommandLine,
    ) -> Result<bool, DeviceFault>
        ensures line { R.told ≡ true → result ≡ Ok true
            → KeepsLine line.new (text_ahead self.old (R.left reader.old)) (most_ahead self.old)
            (text_ahead self.new (R.left reader.new)) (most_ahead self.new) }
        ensures end { R.told ≡ true → result ≡ Ok false
            → take (most_ahead self.old) (text_ahead self.old (R.left reader.old)) ≡ [] }
        ensures done { result ≡ Ok false → most_ahead self.new ≡ 0 }
        ensures failed { R.told ≡ true → OnErr result
            (EndsNoLine (text_ahead self.old (R.left reader.old)) (R.left reader.new)) }
        ensures asked { OnErr result (0 < most_ahead self.old) }
        ensures less { result ≡ Ok true → most_ahead self.new < most_ahead self.old }
        ensures reads { R.told ≡ true → ReadsWithin (R.left reader.old) (R.left reader.new) self.old.more
            self.new.more }
        ensures written { W.told ≡ true → W.written out.new ≡ W.written out.old }
        ensures read_failures { R.failures reader.new
            ≡ (if is_read_failed result then one_more (R.failures reader.old) else R.failures reader.old) }
        ensures write_failures { W.failures out.new
            ≡ (if is_write_failed result then one_more (W.failures out.old) else W.failures out.old) }

        // Where more has to be waited for, all that was written is handed on; where that fails nothing is read.
        ensures handed_on { W.told ≡ true → IsToWait self.old → is_write_failed result ≡ false
            → W.handed_on out.new ≡ W.written out.new }
        ensures unread { is_write_failed result ≡ true → reader.new ≡ reader.old }
    {
        line.clear();
        if self.is_to_wait() {
            match out.flush() {
                Ok(()) => {}
                Err(_) => return Err(DeviceFault::WriteFailed),
            }
        }
        let mut begun = false;
        'bytes: loop {
            let Some(byte) = self.next_byte(reader)? else {
                return Ok(begun);
            };
            if byte == b'\n' {
                return Ok(true);
            }
            line.push(byte);
            begun = true;
        }
    }

    // Whether no whole line is held, and more may be read.
    fn is_to_wait(&self) -> bool
        ensures { (result ≡ true) ↔ IsToWait self.now }
    {
        self.more > 0 && !has_line_feed(&self.chunk[self.start..self.end])
    }

    // Takes the next byte of the text ahead, if there is one. At its end no more may be read.
    fn next_byte<R: Read>(&mut self, reader: &mut R) -> Result<Option<u8>, DeviceFault>
        ensures byte { R.told ≡ true → IfOk result (λ byte. MatchOption byte
            (take (most_ahead self.old) (text_ahead self.old (R.left reader.old)) ≡ [])
            (λ b. text_ahead self.old (R.left reader.old) ≡ b ∷ text_ahead self.new (R.left reader.new))) }
        ensures most { IfOk result (λ byte. MatchOption byte (most_ahead self.new ≡ 0)
            (λ _. most_ahead self.old ≡ most_ahead self.new + 1)) }
        ensures failed { R.told ≡ true → OnErr result (text_ahead self.old (R.left reader.old) ≡ R.left reader.new) }
        ensures asked { OnErr result (0 < most_ahead self.old) }
        ensures reads { R.told ≡ true → ReadsWithin (R.left reader.old) (R.left reader.new) self.old.more
            self.new.more }
        ensures fault { IfErr result (λ fault. fault ≡ DeviceFault.ReadFailed) }
        ensures failures { R.failures reader.new ≡ failures_after (R.failures reader.old) result }
    {
        if self.start == self.end {
            self.fill(reader)?;
        }
        Ok(self.take_byte())
    }

    // Takes the first byte that is held.
    fn take_byte(&mut self) -> Option<u8>
        ensures byte { MatchOption result (self.old.held ≡ []) (λ b. self.old.held ≡ b ∷ self.new.held) }
        ensures none { IfNone result (self.new.held ≡ []) }
        ensures more { self.new.more ≡ self.old.more }
    {
        if self.start < self.end {
            let byte = self.chunk[self.start];
            self.start += 1;
            Some(byte)
        } else {
            None
        }
    }

    // Reads some bytes, unless no more may be read. At the end of the text no more may be read.
    fn fill<R: Read>(&mut self, reader: &mut R) -> Result<(), DeviceFault>
        requires { self.old.held ≡ [] }
        ensures held { R.told ≡ true → OnOk result (R.left reader.old ≡ self.new.held ++ R.left reader.new) }
        ensures end { R.told ≡ true → OnOk result (self.new.held ≡ [] → take self.old.more (R.left reader.old) ≡ []) }
        ensures counted { OnOk result (0 < length self.new.held
            → self.old.more ≡ length self.new.held + self.new.more) }
        ensures done { OnOk result (self.new.held ≡ [] → self.new.more ≡ 0) }
        ensures failed { R.told ≡ true → OnErr result (R.left reader.new ≡ R.left reader.old) }
        ensures asked { OnErr result (0 < self.old.more) }
        ensures reads { R.told ≡ true → ReadsWithin (R.left reader.old) (R.left reader.new) self.old.more
            self.new.more }
        ensures fault { IfErr result (λ fault. fault ≡ DeviceFault.ReadFailed) }
        ensures failures { R.failures reader.new ≡ failures_after (R.failures reader.old) result }
    {
        if self.more == 0 {
            return Ok(());
        }
        let room = self.more.min(CHUNK as u64) as usize;
        let part = &mut self.chunk[..room];
        match reader.read(part) {
            Ok(0) => {
                self.start = 0;
                self.end = 0;
                self.more = 0;
                Ok(())
            }
            Ok(count) => {
                self.start = 0;
                self.end = count;
                self.more -= count as u64;
                Ok(())
            }
            Err(_) => {
                self.start = 0;
                self.end = 0;
                Err(DeviceFault::ReadFailed)
            }
        }
    }
}

/// Whether a line feed stands among some bytes.
fn has_line_feed(bytes: &[u8]) -> bool
    ensures { (result ≡ false) ↔ HasNoFeed bytes.now }
{
    bytes.contains(&b'\n')
}
