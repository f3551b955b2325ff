//! Channel lines.

ghost use Rattle.std.specs.Prelude.{◌≡◌, ◌≤◌, length, true};
ghost use Rattle.words.specs.Devices.{Writes, failures_after};
ghost use Rattle.cpu.specs.ChannelLines.{channel_line};

use crate::output::Output;
use words::{BackwardText, Write, WriteFailed, write_all};

/// The most bytes of a line: 20 digits, ` CH `, 3 digits, a blank, 5 digits and a line feed.
const CHANNEL_LINE: usize = 34;

/// The line of an output.
#[tactic(auto, using(words::proofs::Digits::short_decimal))]
pub fn channel_line(output: &Output) -> BackwardText
    ensures items { result ≡ channel_line output.now }
    ensures short { length result ≤ CHANNEL_LINE }
{
    let mut line = BackwardText::new();
    line.prepend(b'\n');
    line.prepend_octal(5, output.word.to_u16());
    line.prepend(b' ');
    line.prepend_octal(3, output.channel.number());
    line.prepend(b' ');
    line.prepend(b'H');
    line.prepend(b'C');
    line.prepend(b' ');
    line.prepend_decimal(output.cycles);
    line
}

/// Writes the line of an output, as `7 CH 010 00012` with the cycles, the channel and the word.
pub fn write_channel_line<W: Write>(output: &Output, out: &mut W) -> Result<(), WriteFailed>
    ensures written { W.told ≡ true → Writes (W.written out.old) (W.written out.new) (channel_line output.now) result }
    ensures failures { W.failures out.new ≡ failures_after (W.failures out.old) result }
{
    write_all(out, channel_line(output).as_slice())
}
