//! Who is told how far a command has come.

ghost use Rattle.std.specs.Io.{WritesAtMost};

use std::io;
use std::io::{Stderr, Write};
use words::Std;

/// Standard error, or nobody.
#[derive(Drop)]
pub enum Listener {
    /// Standard error.
    StandardError(Stderr),
    /// Nobody: all is taken, and nothing kept.
    Nobody,
}

/// Whoever is told the progress of a command: standard error where that is asked for.
pub fn make_listener(rt: &HostRuntime, is_asked_for: bool) -> Std<Listener> {
    Std::new(if is_asked_for {
        Listener::StandardError(rt.stderr())
    } else {
        Listener::Nobody
    })
}

impl Write for Listener {
    fn write(&mut self, bytes: &[u8]) -> io::Result<usize> {
        match self {
            Listener::StandardError(stream) => stream.write(bytes),
            Listener::Nobody => Ok(bytes.len()),
        }
    }

    fn flush(&mut self) -> io::Result<()> {
        match self {
            Listener::StandardError(stream) => stream.flush(),
            Listener::Nobody => Ok(()),
        }
    }
}
