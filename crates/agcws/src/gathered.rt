//! Standard output, with what is written gathered.

ghost use Rattle.std.specs.Io.{WritesAtMost};

use std::io;
use std::io::{BufWriter, IsTerminal, Printer, Write};

/// Standard output, with what is written gathered into few calls of the system. At a terminal each line is handed on as
/// it is written, so that a person sees those of a long command while it goes.
#[derive(Drop)]
pub struct Gathered<'a> {
    lines: BufWriter<Printer<'a, HostRuntime>>,
    is_terminal: bool,
}

impl<'a> Gathered<'a> {
    /// Standard output, of which nothing is written yet; an error where there is no memory for it.
    pub fn new(rt: &'a HostRuntime) -> io::Result<Gathered<'a>> {
        Ok(Gathered {
            lines: BufWriter::new(rt.alloc(), io::writer(rt))?,
            is_terminal: rt.stdout().is_terminal(),
        })
    }
}

impl<'a> Write for Gathered<'a> {
    fn write(&mut self, bytes: &[u8]) -> io::Result<usize> {
        let count = self.lines.write(bytes)?;
        if self.is_terminal && bytes.last() == Some(&b'\n') {
            self.lines.flush()?;
        }
        Ok(count)
    }

    fn flush(&mut self) -> io::Result<()> {
        self.lines.flush()
    }
}
