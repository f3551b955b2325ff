//! Lines of commands, taken off readers.

use commands::{CommandLine, DeviceFault, LineReader};
use debugger::MOST_COMMAND_BYTES;
use std::io;
use std::process::Abort;
use test_devices::FaultyReader;
use words::{Read, Write};

/// A writer that takes all bytes, counts how often it is to hand them on, and may fail to.
#[derive(Drop)]
struct HoldsBack {
    fails: bool,
    flushes: u64,
    failures: u128,
}

impl HoldsBack {
    fn new(fails: bool) -> HoldsBack {
        HoldsBack {
            fails,
            flushes: 0,
            failures: 0,
        }
    }
}

impl Write for HoldsBack {
    ghost use Rattle.std.specs.Prelude.{false, []};

    ghost told = { false };

    ghost written = { λ _. [] };

    ghost handed_on = { λ _. [] };

    ghost failures = { λ w. w.failures };

    fn write(&mut self, buf: &[u8]) -> io::Result<usize> {
        if buf.is_empty() {
            return Ok(0);
        }
        Ok(buf.len())
    }

    fn flush(&mut self) -> io::Result<()> {
        self.flushes = self.flushes.saturating_add(1);
        if self.fails {
            self.failures = self.failures.saturating_add(1);
            return Err(io::Error::from(io::ErrorKind::Other));
        }
        Ok(())
    }
}

/// A reader of one letter without end, which counts the bytes that it gave.
#[derive(Drop)]
struct Endless {
    bytes: u64,
}

impl Read for Endless {
    ghost use Rattle.std.specs.Prelude.{false, []};

    ghost told = { false };

    ghost left = { λ _. [] };

    ghost failures = { λ _. 0 };

    fn read(&mut self, buf: &mut [u8]) -> io::Result<usize> {
        buf.fill(b'x');
        self.bytes = self.bytes.saturating_add(buf.len() as u64);
        Ok(buf.len())
    }
}

/// Takes a line off, and asserts its bytes, or that it is too long.
fn assert_line<R: Read, W: Write>(
    rt: &impl Abort,
    lines: &mut LineReader,
    reader: &mut R,
    out: &mut W,
    text: Option<&[u8]>,
) {
    let mut line = CommandLine::empty();
    assert_eq!(rt; lines.next_line(reader, out, &mut line), Ok(true));
    assert_eq!(rt; line.text(), text);
}

/// The lines that were taken off up to the end or to a failed read, and whether a read failed.
fn lines_before_failure(rt: &impl Abort, text: &[u8], fails_after: usize) -> (usize, bool) {
    let mut reader = FaultyReader::new(text, Some(fails_after));
    let mut out = HoldsBack::new(false);
    let mut lines = LineReader::new(MOST_COMMAND_BYTES);
    let mut line = CommandLine::empty();
    for count in 0..10 {
        match lines.next_line(&mut reader, &mut out, &mut line) {
            Ok(true) => {}
            Ok(false) => return (count, false),
            Err(DeviceFault::ReadFailed) => return (count, true),
            Err(DeviceFault::WriteFailed) => panic!(rt; "no flush fails"),
        }
    }
    panic!(rt; "the text has fewer lines")
}

#[test]
fn failed_read_at_each_place(rt: HostRuntime) {
    let text = b"back 1\nseek\ntail";
    let lines = [0, 0, 0, 0, 0, 0, 0, 1, 1, 1, 1, 1, 2, 2, 2, 2, 2];
    for (fails_after, count) in lines.iter().enumerate() {
        assert_eq!(rt;
            lines_before_failure(&rt, text, fails_after),
            (*count, true)
        );
    }
    assert_eq!(rt; lines_before_failure(&rt, text, 17), (3, false));
}

#[test]
fn no_byte_past_the_most(rt: HostRuntime) {
    let mut reader = Endless { bytes: 0 };
    let mut out = HoldsBack::new(false);
    let mut lines = LineReader::new(MOST_COMMAND_BYTES);
    assert_line(&rt, &mut lines, &mut reader, &mut out, None);
    assert_eq!(rt; reader.bytes, MOST_COMMAND_BYTES);
    let mut line = CommandLine::empty();
    assert_eq!(rt;
        lines.next_line(&mut reader, &mut out, &mut line),
        Ok(false)
    );
    assert_eq!(rt; reader.bytes, MOST_COMMAND_BYTES);
}

#[test]
fn replies_are_handed_on_before_a_read_alone(rt: HostRuntime) {
    let mut text = b"step 1\nstep 2\nstep 3".as_slice();
    let mut out = HoldsBack::new(false);
    let mut lines = LineReader::new(MOST_COMMAND_BYTES);
    for (line, flushes) in [(b"step 1", 1), (b"step 2", 1), (b"step 3", 2)] {
        assert_line(&rt, &mut lines, &mut text, &mut out, Some(line.as_slice()));
        assert_eq!(rt; out.flushes, flushes);
    }
    let mut slow = FaultyReader::new(b"step 1\n", None);
    let mut out = HoldsBack::new(false);
    let mut lines = LineReader::new(MOST_COMMAND_BYTES);
    assert_line(
        &rt,
        &mut lines,
        &mut slow,
        &mut out,
        Some(b"step 1".as_slice()),
    );
    assert_eq!(rt; out.flushes, 1);
}

#[test]
fn failed_flush_reads_nothing(rt: HostRuntime) {
    let mut text = b"step 1\n".as_slice();
    let mut out = HoldsBack::new(true);
    let mut line = CommandLine::empty();
    let refused = LineReader::new(MOST_COMMAND_BYTES).next_line(&mut text, &mut out, &mut line);
    assert_eq!(rt; refused, Err(DeviceFault::WriteFailed));
    assert_eq!(rt; text, b"step 1\n".as_slice());
}
