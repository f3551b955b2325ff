//! The line that tells how a run has ended.

ghost use Rattle.std.specs.Prelude.{◌≡◌, true, IfErr};
ghost use Rattle.words.specs.Devices.{Writes, failures_after};
ghost use Rattle.workshop.specs.Runs.{end_line};

use crate::engine::Summary;
use crate::fault::WorkshopFault;
use arrayvec::ArrayVec;
use words::{Write, push_all, push_decimal, push_octal, write_all};

/// The most bytes of the line: its words, three numbers of 64 bits, 4 digits and a line feed.
const END_LINE: usize = 96;

#[tactic(auto, using(words::proofs::Digits::short_decimal))]
fn end_line(summary: &Summary) -> ArrayVec<u8, END_LINE>
    ensures { result.items ≡ end_line summary.now }
{
    let mut line = ArrayVec::new();
    push_all(&mut line, b"END STEPS ");
    push_decimal(&mut line, summary.steps);
    push_all(&mut line, b" CYCLES ");
    push_decimal(&mut line, summary.cycles);
    push_all(&mut line, b" OUTPUTS ");
    push_decimal(&mut line, summary.outputs);
    push_all(&mut line, b" Z ");
    push_octal(&mut line, 4, summary.z);
    push_all(&mut line, b"\n");
    line
}

/// Writes the line of a summary, as `END STEPS 4 CYCLES 7 OUTPUTS 1 Z 4004`, with Z in octal. It takes no memory.
pub fn write_end<W: Write>(summary: &Summary, out: &mut W) -> Result<(), WorkshopFault>
    ensures written { W.told ≡ true → Writes (W.written out.old) (W.written out.new) (end_line summary.now) result }
    ensures failures { W.failures out.new ≡ failures_after (W.failures out.old) result }
    ensures fault { IfErr result (λ e. e ≡ WorkshopFault.WriteFailed) }
{
    write_all(out, end_line(summary).as_slice())?;
    Ok(())
}
