//! The readers and writers of the standard library.

ghost use Rattle.std.specs.Prelude.{◌≡◌};

use super::device::{Read, Write};
use std::io;
use std::marker::Model;

/// A reader or a writer of the standard library, which tells no bytes. Contracts see its count of failures.
#[derive(Drop)]
pub struct Std<T> {
    device: T,
    failures: u128,
}

impl<T> Model for Std<T> {
    ghost use Rattle.std.specs.Prelude.{ℕ};

    ghost Value = { ℕ };

    ghost view = { λ s. s.failures };
}

impl<T> Std<T> {
    /// A device with no failure yet.
    pub fn new(device: T) -> Std<T>
        ensures { result ≡ 0 }
    {
        Std {
            device,
            failures: 0,
        }
    }
}

impl<T: io::Read> Read for Std<T> {
    ghost use Rattle.std.specs.Prelude.{false, []};

    ghost told = { false };

    ghost left = { λ _. [] };

    ghost failures = { λ s. s };

    fn read(&mut self, buf: &mut [u8]) -> io::Result<usize> {
        let answer = self.device.read(buf);
        if answer.is_err() {
            self.failures = self.failures.saturating_add(1);
        }
        answer
    }
}

impl<T: io::Write> Write for Std<T> {
    ghost use Rattle.std.specs.Prelude.{false, []};

    ghost told = { false };

    ghost written = { λ _. [] };

    ghost handed_on = { λ _. [] };

    ghost failures = { λ s. s };

    fn write(&mut self, buf: &[u8]) -> io::Result<usize> {
        let answer = self.device.write(buf);
        let failed = match &answer {
            Ok(count) => *count == 0 && !buf.is_empty(),
            Err(_) => true,
        };
        if failed {
            self.failures = self.failures.saturating_add(1);
        }
        answer
    }

    fn flush(&mut self) -> io::Result<()> {
        match self.device.flush() {
            Ok(()) => Ok(()),
            Err(failed) => {
                self.failures = self.failures.saturating_add(1);
                Err(failed)
            }
        }
    }
}
