//! Readers and writers over memory, which tell their bytes.

ghost use Rattle.std.specs.Prelude.{◌≡◌, []};

use super::device::{Read, Write};
use std::alloc::Global;
use std::io;
use std::marker::Model;

impl Read for &[u8] {
    ghost use Rattle.std.specs.Prelude.{true};

    ghost told = { true };

    ghost left = { λ s. s.now };

    ghost failures = { λ _. 0 };

    fn read(&mut self, buf: &mut [u8]) -> io::Result<usize> {
        io::Read::read(self, buf)
    }

    fn ready(&self) -> &[u8] {
        self
    }

    fn pass(&mut self, count: usize) -> bool {
        if count > self.len() {
            return false;
        }
        *self = &self[count..];
        true
    }
}

/// A writer to memory, which grows as it is written. A growth that is refused is a failure.
#[derive(Drop)]
pub struct Buffer {
    bytes: Vec<u8>,
    failures: u128,
}

impl Model for Buffer {
    ghost use Rattle.words.specs.Memory.{Sink};

    ghost Value = { Sink };

    ghost view = { λ b. record { written = b.bytes.items; failures = b.failures } };
}

impl Buffer {
    /// A buffer with no byte.
    pub fn new(alloc: Global) -> Buffer
        ensures written { result.written ≡ [] }
        ensures failures { result.failures ≡ 0 }
    {
        Buffer {
            bytes: Vec::new(alloc),
            failures: 0,
        }
    }

    /// The bytes that were written.
    pub fn as_slice(&self) -> &[u8]
        ensures { result.now ≡ self.now.written }
    {
        self.bytes.as_slice()
    }
}

impl Write for Buffer {
    ghost use Rattle.std.specs.Prelude.{true};

    ghost told = { true };

    ghost written = { λ b. b.written };

    ghost handed_on = { λ b. b.written };

    ghost failures = { λ b. b.failures };

    fn write(&mut self, buf: &[u8]) -> io::Result<usize> {
        match self.bytes.extend_from_slice(buf) {
            Ok(()) => Ok(buf.len()),
            Err(refused) => {
                self.failures = self.failures.saturating_add(1);
                Err(io::Error::from(refused))
            }
        }
    }

    /// Holds nothing back.
    fn flush(&mut self) -> io::Result<()> {
        Ok(())
    }
}
