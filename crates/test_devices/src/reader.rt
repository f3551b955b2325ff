//! A reader over memory that gives one byte a call, and fails once.

ghost use Rattle.std.specs.Prelude.{◌≡◌, ◌<◌, ◌++◌, [], true, false, Ok, IfOk, OnErr, length, min, take};
ghost use Rattle.std.specs.Io.{ReadsAtMost};
ghost use Rattle.std.specs.declared.io.ErrorKind.TheVariants.{Other};
ghost use Rattle.words.specs.Devices.{failures_after};
ghost use Rattle.test_devices.specs.Troubles.{is_due, one_nearer, FailsAs};

use std::io;
use std::marker::Model;
use words::Read;

/// A reader over memory that gives one byte a call, and fails once.
#[derive(Drop)]
pub struct FaultyReader<'a> {
    left: &'a [u8],
    fails_after: Option<usize>,
    failures: u128,
}

impl<'a> Model for FaultyReader<'a> {
    ghost use Rattle.test_devices.specs.Seen.{FaultySource};

    ghost Value = { FaultySource };

    ghost view = { λ r. record { left = r.left.now; fails_after = r.fails_after; failures = r.failures } };
}

impl<'a> FaultyReader<'a> {
    /// A reader of a text that fails once, after so many calls that succeed, or never.
    pub fn new(text: &'a [u8], fails_after: Option<usize>) -> FaultyReader<'a>
        ensures left { result.left ≡ text.now }
        ensures fails_after { result.fails_after ≡ fails_after }
        ensures failures { result.failures ≡ 0 }
    {
        FaultyReader {
            left: text,
            fails_after,
            failures: 0,
        }
    }
}

impl<'a> Read for FaultyReader<'a> {
    ghost use Rattle.std.specs.Prelude.{true};

    ghost told = { true };

    ghost left = { λ r. r.left };

    ghost failures = { λ r. r.failures };

    /// Reads one byte, where one is left and there is room, or is in trouble.
    fn read(&mut self, buf: &mut [u8]) -> io::Result<usize>
        ensures bound { ReadsAtMost result buf.new }
        ensures bytes { IfOk result (λ n. self.old.left ≡ take n buf.new ++ self.new.left) }
        ensures end { result ≡ Ok 0 → 0 < length buf.new → self.old.left ≡ [] }
        ensures err { OnErr result (self.new.left ≡ self.old.left) }
        ensures failures { self.new.failures ≡ failures_after self.old.failures result }
        ensures trouble { is_due self.old.fails_after ≡ true → FailsAs Other result }
        ensures one { is_due self.old.fails_after ≡ false
            → result ≡ Ok (min 1 (min (length self.old.left) (length buf.new))) }
        ensures nearer { self.new.fails_after ≡ one_nearer self.old.fails_after }
    {
        if self.fails_after == Some(0) {
            self.fails_after = None;
            self.failures = self.failures.saturating_add(1);
            return Err(io::Error::from(io::ErrorKind::Other));
        }
        self.fails_after = self.fails_after.map(|calls| calls.saturating_sub(1));
        let Some((first, others)) = self.left.split_first() else {
            return Ok(0);
        };
        if buf.is_empty() {
            return Ok(0);
        }
        buf[0] = *first;
        self.left = others;
        Ok(1)
    }
}
