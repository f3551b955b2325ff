//! What a run tells while it goes: how many steps it has made.

ghost use Rattle.std.specs.Prelude.{◌≡◌, ◌%◌};
ghost use Rattle.workshop.specs.Failures.{writer};
ghost use Rattle.workshop.specs.Progress.{TellsNext, progress_line};

use crate::engine::STEPS_BETWEEN_FLUSHES;
use arrayvec::ArrayVec;
use std::io;
use words::{Write, WriteFailed, push_all, push_decimal, write_all};

/// The most bytes of a line: its words, a number of 64 bits and a line feed.
const LINE: usize = 40;

/// A writer to which nobody listens.
#[derive(Drop)]
pub struct Unheard;

impl Write for Unheard {
    ghost use Rattle.std.specs.Prelude.{false, []};

    ghost told = { false };

    ghost written = { λ _. [] };

    ghost handed_on = { λ _. [] };

    ghost failures = { λ _. 0 };

    fn write(&mut self, buf: &[u8]) -> io::Result<usize> {
        Ok(buf.len())
    }

    fn flush(&mut self) -> io::Result<()> {
        Ok(())
    }
}

/// Tells that so many steps were made, where they are as many as are told; nothing once a write has failed.
pub(crate) fn tell<T: Write>(
    told: Result<(), WriteFailed>,
    steps: u64,
    progress: &mut T,
) -> Result<(), WriteFailed>
    ensures { TellsNext steps (writer T.Write progress.old)
        (writer T.Write progress.new) told result }
{
    told?;
    if steps % STEPS_BETWEEN_FLUSHES == 0 {
        write_all(progress, progress_line(steps).as_slice())
    } else {
        Ok(())
    }
}

/// The line that tells so many steps, as `agcws: STEPS 1048576`.
#[tactic(auto, using(words::proofs::Digits::short_decimal), unfolding(crate::specs::Progress::progress_line))]
fn progress_line(steps: u64) -> ArrayVec<u8, LINE>
    ensures { result.items ≡ progress_line steps }
{
    let mut line = ArrayVec::new();
    push_all(&mut line, b"agcws: STEPS ");
    push_decimal(&mut line, steps);
    push_all(&mut line, b"\n");
    line
}
