//! Whole texts from readers.

ghost use Rattle.std.specs.Prelude.{◌≡◌, ◌+◌, ◌≤◌, ◌++◌, [], Some, true, codes, decimal, IfOk, IfErr, length};
ghost use Rattle.std.specs.Prelude.{if◌then◌else◌};
ghost use Rattle.words.specs.Devices.{one_more};
ghost use Rattle.words.specs.Faults.{number_of_no_text};
ghost use Rattle.words.specs.Readings.{FaultTakes, has_read_failed, ReadsOnto};

use super::device::Read;
use std::alloc::Global;
use std::fmt;

/// Why no text was read.
#[derive(Clone, Copy, PartialEq, Eq, Debug, Drop)]
pub enum ReadFault {
    /// A growth was refused.
    NoMemory,
    /// A read failed.
    ReadFailed,
    /// More bytes stand than the limit allows; told once one more is read.
    TooLong,
}

impl ReadFault {
    /// The number that the fault is told by.
    pub fn number(self) -> u8
        ensures { result ≡ number_of_no_text self }
    {
        match self {
            ReadFault::NoMemory => 2,
            ReadFault::ReadFailed => 6,
            ReadFault::TooLong => 34,
        }
    }
}

impl fmt::Display for ReadFault {
    ghost output = { λ fault. Some (codes "E" ++ decimal (number_of_no_text fault)) };

    fn fmt<W: fmt::Write>(&self, f: &mut fmt::Formatter<W>) -> fmt::Result {
        write!(f, "E{}", self.number())
    }
}

impl std::error::Error for ReadFault {}

/// The most bytes of a text that is read whole.
pub const MOST_BYTES: usize = 8_388_608;

const CHUNK: usize = 4096;

/// Reads to the end, and answers the whole text of at most `most` bytes.
///
/// Errors: `TooLong` once `most + 1` bytes were read, `ReadFailed` where a read failed before that, `NoMemory` where a
/// growth was refused. After an error the bytes that were read are gone, and the reader goes on where it stands.
pub fn read_text<R: Read>(alloc: Global, reader: &mut R, most: usize) -> Result<Vec<u8>, ReadFault>
    ensures whole { R.told ≡ true → IfOk result (λ text. R.left reader.old ≡ text.items) }
    ensures end { R.told ≡ true → IfOk result (λ _. R.left reader.new ≡ []) }
    ensures within { IfOk result (λ text. length text.items ≤ most) }
    ensures fault { R.told ≡ true → IfErr result (λ e. FaultTakes e most (R.left reader.old) (R.left reader.new)) }
    ensures failures { R.failures reader.new
        ≡ (if has_read_failed result then one_more (R.failures reader.old) else R.failures reader.old) }
{
    let mut text = Vec::new(alloc);
    while text.len() <= most {
        let room = most - text.len();
        if read_some(reader, &mut text, room)? == 0 {
            return Ok(text);
        }
    }
    Err(ReadFault::TooLong)
}

/// Reads once, at most `most + 1` bytes onto the end of a text.
fn read_some<R: Read>(reader: &mut R, text: &mut Vec<u8>, most: usize) -> Result<usize, ReadFault>
    ensures reads { R.told ≡ true → IfOk result
        (λ n. ReadsOnto (R.left reader.old) (R.left reader.new) text.old.items text.new.items n) }
    ensures count { IfOk result (λ n. length text.new.items ≡ length text.old.items + n) }
    ensures within { IfOk result (λ n. n ≤ most + 1) }
    ensures fault { R.told ≡ true → IfErr result (λ e. FaultTakes e most (R.left reader.old) (R.left reader.new)) }
    ensures failures { R.failures reader.new
        ≡ (if has_read_failed result then one_more (R.failures reader.old) else R.failures reader.old) }
{
    let mut chunk = [0; CHUNK];
    let part = &mut chunk[..most.min(CHUNK - 1) + 1];
    match reader.read(part) {
        Ok(count) => match text.extend_from_slice(&part[..count]) {
            Ok(()) => Ok(count),
            Err(_) => Err(ReadFault::NoMemory),
        },
        Err(_) => Err(ReadFault::ReadFailed),
    }
}
