//! Readers and writers whose contracts see bytes and failures.

ghost use Rattle.std.specs.Prelude.{◌≡◌, ℕ, ◌<◌, ◌≤◌, Bool, true, List, [], ◌++◌, Some, codes, Ok, IfOk, OnOk, OnErr};
ghost use Rattle.std.specs.Prelude.{length, take, drop, if◌then◌else◌};
ghost use Rattle.std.specs.Io.{ReadsAtMost, WritesAtMost};
ghost use Rattle.words.specs.Devices.{failures_after, failures_after_write, Writes};

use std::{fmt, io};

/// A reader. Where it tells its bytes, contracts see those that it has left; they see its count of failures always.
pub trait Read {
    /// Whether `left` is told.
    ghost told: { Bool };

    /// The bytes that are left.
    ghost left: { Self → List ℕ };

    /// How many calls failed, as far as 128 bits go.
    ghost failures: { Self → ℕ };

    /// Reads some bytes to the front of a buffer, and answers how many: none only at the end or with no room. A call
    /// that fails takes no byte.
    fn read(&mut self, buf: &mut [u8]) -> io::Result<usize>
        ensures bound { ReadsAtMost result buf.new }
        ensures bytes { told ≡ true → IfOk result (λ n. left self.old ≡ take n buf.new ++ left self.new) }
        ensures end { told ≡ true → result ≡ Ok 0 → 0 < length buf.new → left self.old ≡ [] }
        ensures err { told ≡ true → OnErr result (left self.new ≡ left self.old) }
        ensures failures { failures self.new ≡ failures_after (failures self.old) result };

    /// The bytes that stand ready: a beginning of those that are left, to be had without asking a device. A reader that
    /// reads none ahead keeps this body.
    fn ready(&self) -> &[u8]
        ensures { told ≡ true → left self.now ≡ result.now ++ drop (length result.now) (left self.now) }
    {
        b""
    }

    /// Passes over so many of the bytes that are left, or over none, and answers whether it did. A reader that has so
    /// many ready should.
    fn pass(&mut self, count: usize) -> bool
        ensures within { told ≡ true → result ≡ true → count ≤ length (left self.old) }
        ensures bytes { told ≡ true → left self.new ≡ (if result then drop count (left self.old) else left self.old) }
        ensures failures { failures self.new ≡ failures self.old }
    {
        false
    }
}

/// A writer. Where it tells its bytes, contracts see those that were written and those of them that were handed on;
/// they see its count of failures always.
pub trait Write {
    /// Whether `written` and `handed_on` are told.
    ghost told: { Bool };

    /// The bytes that were written.
    ghost written: { Self → List ℕ };

    /// The bytes that are held back no longer: all that were written, once a flush has succeeded.
    ghost handed_on: { Self → List ℕ };

    /// How many calls failed, as far as 128 bits go. A write that takes none of some bytes has failed too.
    ghost failures: { Self → ℕ };

    /// Writes a beginning of the bytes, and answers how many. A call that fails writes no byte.
    fn write(&mut self, buf: &[u8]) -> io::Result<usize>
        ensures bound { WritesAtMost result buf.now }
        ensures bytes { told ≡ true → IfOk result (λ n. written self.new ≡ written self.old ++ take n buf.now) }
        ensures err { told ≡ true → OnErr result (written self.new ≡ written self.old) }
        ensures failures { failures self.new ≡ failures_after_write (failures self.old) result buf.now };

    /// Hands on what the writer still holds back of the bytes that were written.
    fn flush(&mut self) -> io::Result<()>
        ensures written { told ≡ true → written self.new ≡ written self.old }
        ensures handed_on { told ≡ true → OnOk result (handed_on self.new ≡ written self.new) }
        ensures failures { failures self.new ≡ failures_after (failures self.old) result };
}

/// A writer failed, or took none of some bytes.
#[derive(Clone, Copy, PartialEq, Eq, Debug, Drop)]
pub struct WriteFailed;

impl fmt::Display for WriteFailed {
    ghost output = { λ _. Some (codes "E7") };

    fn fmt<W: fmt::Write>(&self, f: &mut fmt::Formatter<W>) -> fmt::Result {
        write!(f, "E7")
    }
}

impl std::error::Error for WriteFailed {}

/// Writes the whole of a text. `WriteFailed` where a write failed or took no byte: then a beginning of it was written.
pub fn write_all<W: Write>(out: &mut W, text: &[u8]) -> Result<(), WriteFailed>
    ensures written { W.told ≡ true → Writes (W.written out.old) (W.written out.new) text.now result }
    ensures failures { W.failures out.new ≡ failures_after (W.failures out.old) result }
{
    let mut done = 0;
    while done < text.len() {
        match out.write(&text[done..]) {
            Ok(count) if count > 0 => done += count,
            _ => return Err(WriteFailed),
        }
    }
    Ok(())
}
