//! The end of commands that are too long.

ghost use Rattle.std.specs.Prelude.{◌≡◌, true, IfErr};
ghost use Rattle.words.specs.Devices.{Writes, failures_after};
ghost use Rattle.workshop.specs.CommandsEnd.{commands_end};

use crate::fault::WorkshopFault;
use debugger::MOST_COMMAND_BYTES;
use std::io;
use std::marker::Model;
use words::{Read, Write, write_all};

/// A reader that counts the bytes that it hands on.
#[derive(Drop)]
pub struct Counted<R: Read> {
    device: R,
    bytes: u64,
}

impl<R: Read> Model for Counted<R> {
    ghost use Rattle.workshop.specs.CommandsEnd.{Counting};

    ghost Value = { Counting };

    ghost view = { λ r. record { left = R.left r.device; failures = R.failures r.device; bytes = r.bytes } };
}

impl<R: Read> Counted<R> {
    ghost use Rattle.std.specs.Prelude.{◌≡◌};

    /// A reader that has handed on no byte.
    pub fn new(device: R) -> Counted<R>
        ensures left { result.left ≡ R.left device }
        ensures failures { result.failures ≡ R.failures device }
        ensures bytes { result.bytes ≡ 0 }
    {
        Counted { device, bytes: 0 }
    }

    /// How many bytes it has handed on.
    pub fn bytes(&self) -> u64
        ensures { result ≡ self.now.bytes }
    {
        self.bytes
    }
}

impl<R: Read> Read for Counted<R> {
    ghost use Rattle.std.specs.Prelude.{◌≡◌, ◌+◌, ◌-◌, ◌^◌, ◌<◌, ◌++◌, [], true, Ok, IfOk, OnErr, length, take, min};
    ghost use Rattle.std.specs.Io.{ReadsAtMost};
    ghost use Rattle.words.specs.Devices.{failures_after};

    ghost told = { R.told };

    ghost left = { λ r. r.left };

    ghost failures = { λ r. r.failures };

    fn read(&mut self, buf: &mut [u8]) -> io::Result<usize>
        ensures bound { ReadsAtMost result buf.new }
        ensures bytes { R.told ≡ true → IfOk result (λ n. self.old.left ≡ take n buf.new ++ self.new.left) }
        ensures end { R.told ≡ true → result ≡ Ok 0 → 0 < length buf.new → self.old.left ≡ [] }
        ensures err { R.told ≡ true → OnErr result (self.new.left ≡ self.old.left) }
        ensures failures { self.new.failures ≡ failures_after self.old.failures result }
        ensures counts { IfOk result (λ n. self.new.bytes ≡ min (self.old.bytes + n) (2 ^ 64 - 1)) }
        ensures kept { OnErr result (self.new.bytes ≡ self.old.bytes) }
    {
        let count = self.device.read(buf)?;
        self.bytes = self.bytes.saturating_add(count as u64);
        Ok(count)
    }
}

/// Writes that commands end, after so many bytes that no more count of those of a session that is not extended. It
/// takes no memory.
pub fn tell_commands_end<W: Write>(bytes: u64, errors: &mut W) -> Result<(), WorkshopFault>
    ensures written { W.told ≡ true → Writes (W.written errors.old) (W.written errors.new) (commands_end bytes) result }
    ensures failures { W.failures errors.new ≡ failures_after (W.failures errors.old) result }
    ensures fault { IfErr result (λ e. e ≡ WorkshopFault.WriteFailed) }
{
    if bytes < MOST_COMMAND_BYTES {
        return Ok(());
    }
    write_all(errors, b"agcws: commands end after 16777216 bytes\n")?;
    Ok(())
}
