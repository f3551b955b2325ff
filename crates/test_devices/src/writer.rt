//! A writer to memory that takes one byte a call, and is in trouble once.

ghost use Rattle.std.specs.Prelude.{◌≡◌, ◌++◌, [], true, false, None, IfOk, OnErr, take};
ghost use Rattle.std.specs.Io.{WritesAtMost};
ghost use Rattle.words.specs.Devices.{one_more, failures_after, failures_after_write};
ghost use Rattle.test_devices.specs.Troubles.{IsTrouble, meets_trouble, TakesOne, left_after};

use std::alloc::Global;
use std::io;
use std::marker::Model;
use words::Write;

/// What a writer does at its place of trouble.
#[derive(Clone, Copy, PartialEq, Eq, Debug, Drop)]
pub enum Trouble {
    /// The call fails.
    Fails,
    /// The call takes none of the bytes.
    TakesNothing,
}

/// A writer to memory that takes one byte a call, and is in trouble once.
#[derive(Drop)]
pub struct FaultyWriter {
    bytes: Vec<u8>,
    fails_after: Option<usize>,
    trouble: Trouble,
    failures: u128,
}

impl Model for FaultyWriter {
    ghost use Rattle.test_devices.specs.Seen.{FaultySink};

    ghost Value = { FaultySink };

    ghost view = { λ w. record {
      written = w.bytes.items;
      fails_after = w.fails_after;
      trouble = w.trouble;
      failures
          = w.failures;
    } };
}

impl FaultyWriter {
    /// A writer that is in trouble once, after so many bytes, or never.
    pub fn new(alloc: Global, fails_after: Option<usize>, trouble: Trouble) -> FaultyWriter
        ensures written { result.written ≡ [] }
        ensures fails_after { result.fails_after ≡ fails_after }
        ensures trouble { result.trouble ≡ trouble }
        ensures failures { result.failures ≡ 0 }
    {
        FaultyWriter {
            bytes: Vec::new(alloc),
            fails_after,
            trouble,
            failures: 0,
        }
    }

    /// The bytes that were written.
    pub fn as_slice(&self) -> &[u8]
        ensures { result.now ≡ self.now.written }
    {
        self.bytes.as_slice()
    }

    fn in_trouble(&mut self) -> io::Result<usize>
        ensures written { self.new.written ≡ self.old.written }
        ensures answer { IsTrouble self.old.trouble result }
        ensures once { self.new.fails_after ≡ None }
        ensures trouble { self.new.trouble ≡ self.old.trouble }
        ensures failures { self.new.failures ≡ one_more self.old.failures }
    {
        self.fails_after = None;
        self.failures = self.failures.saturating_add(1);
        match self.trouble {
            Trouble::Fails => Err(io::Error::from(io::ErrorKind::Other)),
            Trouble::TakesNothing => Ok(0),
        }
    }
}

impl Write for FaultyWriter {
    ghost use Rattle.std.specs.Prelude.{true};

    ghost told = { true };

    ghost written = { λ w. w.written };

    ghost handed_on = { λ w. w.written };

    ghost failures = { λ w. w.failures };

    /// Writes one byte of some, or is in trouble.
    fn write(&mut self, buf: &[u8]) -> io::Result<usize>
        ensures bound { WritesAtMost result buf.now }
        ensures bytes { IfOk result (λ n. self.new.written ≡ self.old.written ++ take n buf.now) }
        ensures err { OnErr result (self.new.written ≡ self.old.written) }
        ensures failures { self.new.failures ≡ failures_after_write self.old.failures result buf.now }
        ensures trouble { meets_trouble self.old buf.now ≡ true → IsTrouble self.old.trouble result }
        ensures one { meets_trouble self.old buf.now ≡ false → TakesOne buf.now result }
        ensures nearer { self.new.fails_after ≡ left_after self.old buf.now result }
        ensures same { self.new.trouble ≡ self.old.trouble }
    {
        let Some(first) = buf.first() else {
            return Ok(0);
        };
        if self.fails_after == Some(0) {
            return self.in_trouble();
        }
        if self.bytes.push(*first).is_err() {
            self.failures = self.failures.saturating_add(1);
            return Err(io::Error::from(io::ErrorKind::OutOfMemory));
        }
        self.fails_after = self.fails_after.map(|bytes| bytes.saturating_sub(1));
        Ok(1)
    }

    /// Holds nothing back, and is in no trouble.
    fn flush(&mut self) -> io::Result<()>
        ensures same { self.new ≡ self.old }
        ensures failures { self.new.failures ≡ failures_after self.old.failures result }
    {
        Ok(())
    }
}
