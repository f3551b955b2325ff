//! A reader that reads ahead, so that bytes can be looked at before they are taken.

ghost use Rattle.std.specs.Prelude.{◌≡◌, ℕ, ◌<◌, ◌≤◌, true, [], ◌++◌, OnOk, OnErr, length, take, drop};
ghost use Rattle.words.specs.Devices.{failures_after};

use super::device::Read;
use std::io;
use std::marker::Model;

/// How many bytes are read ahead at most.
const AHEAD: usize = 8192;

/// Bytes that were read ahead.
#[derive(Drop)]
struct Ahead {
    bytes: [u8; 8192],
    start: usize,
    end: usize,
}

impl Model for Ahead {
    ghost use Rattle.std.specs.Prelude.{ℕ, List, ◌≤◌, take, drop};
    ghost use Rattle.std.specs.Coded.{coded_ℕ, coded_list};

    ghost Value = { List ℕ };

    ghost coded = { coded_list coded_ℕ };

    ghost view = { λ a. drop a.start (take a.end a.bytes) };

    ghost invariant = { λ a. (a.start ≤ a.end) × (a.end ≤ 8192) };
}

impl Ahead {
    /// No bytes.
    fn new() -> Ahead
        ensures { result ≡ [] }
    {
        Ahead {
            bytes: [0; AHEAD],
            start: 0,
            end: 0,
        }
    }

    /// The bytes.
    fn as_slice(&self) -> &[u8]
        ensures { result.now ≡ self.now }
    {
        &self.bytes[self.start..self.end]
    }

    /// Passes over so many of the bytes.
    fn pass(&mut self, count: usize)
        requires { count ≤ length self.old }
        ensures { self.new ≡ drop count self.old }
    {
        self.start += count;
    }

    /// Takes the bytes that a device gives at once, where none stand.
    fn fill<T: Read>(&mut self, device: &mut T) -> io::Result<()>
        requires { self.old ≡ [] }
        ensures bytes { T.told ≡ true → OnOk result (T.left device.old ≡ self.new ++ T.left device.new) }
        ensures end { T.told ≡ true → OnOk result (self.new ≡ [] → T.left device.old ≡ []) }
        ensures none { OnErr result (self.new ≡ []) }
        ensures err { T.told ≡ true → OnErr result (T.left device.new ≡ T.left device.old) }
        ensures failures { T.failures device.new ≡ failures_after (T.failures device.old) result }
    {
        self.start = 0;
        self.end = 0;
        self.end = device.read(&mut self.bytes)?;
        Ok(())
    }

    /// Moves as many bytes as there is room for to the front of a buffer, and answers how many.
    fn hand_on(&mut self, buf: &mut [u8]) -> usize
        ensures bound { result ≤ length buf.new }
        ensures len { length buf.new ≡ length buf.old }
        ensures bytes { self.old ≡ take result buf.new ++ self.new }
        ensures all { result ≡ 0 → 0 < length buf.new → self.old ≡ [] }
    {
        let ready = self.as_slice();
        let count = buf.len().min(ready.len());
        buf[..count].copy_from_slice(&ready[..count]);
        self.pass(count);
        count
    }
}

/// A reader that reads ahead of what is asked for, and tells what its device tells: of the bytes that are left, those
/// that were read ahead come first.
#[derive(Drop)]
pub struct ReadAhead<T: Read> {
    device: T,
    ahead: Ahead,
}

impl<T: Read> Model for ReadAhead<T> {
    ghost use Rattle.std.specs.Prelude.{◌++◌};
    ghost use Rattle.words.specs.Memory.{Source};

    ghost Value = { Source };

    ghost view = { λ r. record { left = r.ahead ++ T.left r.device; failures = T.failures r.device } };
}

impl<T: Read> ReadAhead<T> {
    /// A reader of what a device has left, which reads nothing yet.
    pub fn new(device: T) -> ReadAhead<T>
        ensures left { result.left ≡ T.left device }
        ensures failures { result.failures ≡ T.failures device }
    {
        ReadAhead {
            device,
            ahead: Ahead::new(),
        }
    }
}

impl<T: Read> Read for ReadAhead<T> {
    ghost told = { T.told };

    ghost left = { λ r. r.left };

    ghost failures = { λ r. r.failures };

    fn read(&mut self, buf: &mut [u8]) -> io::Result<usize> {
        if self.ahead.as_slice().is_empty() {
            self.ahead.fill(&mut self.device)?;
        }
        Ok(self.ahead.hand_on(buf))
    }

    fn ready(&self) -> &[u8] {
        self.ahead.as_slice()
    }

    fn pass(&mut self, count: usize) -> bool {
        if count > self.ahead.as_slice().len() {
            return false;
        }
        self.ahead.pass(count);
        true
    }
}
