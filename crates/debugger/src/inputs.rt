//! `inputs`: the inputs that were added.

ghost use Rattle.std.specs.Prelude.{◌≡◌, map, true};
ghost use Rattle.words.specs.Devices.{Writes, failures_after};
ghost use Rattle.feed.specs.Merged.{plain_entry};
ghost use Rattle.debugger.specs.Additions.{line_after};
ghost use Rattle.debugger.specs.Terms.{first_added};
ghost use Rattle.debugger.specs.Inputs.{inputs_text, input_line, lines_from};

use crate::texts::{Text, number_line};
use arrayvec::ArrayVec;
use feed::Plain;
use replay::{Keeper, Session};
use trace::input_text;
use words::{Write, WriteFailed, push_all, push_decimal, write_all};

/// A line after those of all inputs that are from no series.
pub(crate) fn first_added<K: Keeper>(session: &Session<K>) -> u128
    ensures { result ≡ first_added session.now.scenario }
{
    line_after(session.processor().plain_inputs())
}

/// A line after those of some inputs.
fn line_after(plain: &[Plain]) -> u128
    ensures { result ≡ line_after (map plain_entry plain.now) }
{
    let mut line = 0;
    for input in plain {
        line = line.max(u128::from(input.line) + 1);
    }
    line
}

/// `inputs`: a line for each input that stands on this line or after it, and how many there are.
#[tactic(auto, unfolding(crate::specs::Inputs::inputs_text))]
pub(crate) fn tell_inputs<K: Keeper, W: Write>(
    session: &Session<K>,
    first: u128,
    out: &mut W,
) -> Result<(), WriteFailed>
    ensures writes { W.told ≡ true → Writes (W.written out.old) (W.written out.new)
        (inputs_text first session.now.scenario) result }
    ensures failures { W.failures out.new ≡ failures_after (W.failures out.old) result }
{
    write_inputs(session.processor().plain_inputs(), first, out)
}

/// Writes a line for each input that stands on this line or after it, and how many there are.
fn write_inputs<W: Write>(plain: &[Plain], first: u128, out: &mut W) -> Result<(), WriteFailed>
    ensures writes { W.told ≡ true → Writes (W.written out.old) (W.written out.new)
        (lines_from first 0 (map plain_entry plain.now)) result }
    ensures failures { W.failures out.new ≡ failures_after (W.failures out.old) result }
{
    let mut count = 0;
    for input in plain {
        if first <= u128::from(input.line) {
            write_all(out, input_line(input).as_slice())?;
            count += 1;
        }
    }
    write_all(out, number_line(b"# COUNT ", count).as_slice())
}

/// An input as a line of a feed.
#[tactic(auto, using(words::proofs::Digits::short_decimal))]
fn input_line(plain: &Plain) -> Text
    ensures items { result.items ≡ input_line (plain_entry plain.now) }
{
    let mut text = ArrayVec::new();
    push_decimal(&mut text, plain.cycle);
    push_all(&mut text, b" ");
    push_all(&mut text, input_text(&plain.input).as_slice());
    push_all(&mut text, b"\n");
    text
}
