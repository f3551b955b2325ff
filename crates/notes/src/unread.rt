//! The channels on which words come, and that no instruction reads.

ghost use Rattle.std.specs.Prelude.{◌≡◌, ◌+◌, ◌<◌, ◌≤◌, ◌++◌, get_or, true};
ghost use Rattle.arrayvec.specs.ArrayVec.{array_vec_len};
ghost use Rattle.words.specs.Devices.{Writes, failures_after};
ghost use Rattle.notes.specs.Past.{came_after, channels, is_used_otherwise, read_after};
ghost use Rattle.notes.specs.Unread.{unread_in, unread_line, unread_object, unread_of, unread_text};

use crate::keys::reads_channel;
use crate::lines::{LONG_WAIT, Line};
use crate::past::Past;
use arrayvec::ArrayVec;
use cpu::{Fetched, Input, Machine};
use json_text::Notation;
use space::Chan;
use words::{Write, WriteFailed, push_all, push_decimal, push_octal, write_all};

/// How many channels there are.
pub(crate) const CHANNELS: usize = 0o1000;

/// Keeps the cycles before the first word on each channel.
pub(crate) fn keep_word(came: &mut [Option<u64>; CHANNELS], machine: &Machine, input: &Input)
    ensures { came.new ≡ came_after machine.now came.old input.now }
{
    if let Input::Word(channel, _) = input
        && !is_used_otherwise(*channel)
        && came[usize::from(channel.number())].is_none()
    {
        came[usize::from(channel.number())] = Some(machine.cycles());
    }
}

/// Keeps that an instruction has read a channel, where it does.
pub(crate) fn keep_reading(read: &mut [bool; CHANNELS], fetched: &Fetched)
    ensures { read.new ≡ read_after read.old fetched.now }
{
    if reads_channel(fetched) {
        read[usize::from(fetched.word.to_u16()) % CHANNELS] = true;
    }
}

/// Whether a channel is used without an instruction that reads it: L, Q and the superbank's.
fn is_used_otherwise(channel: Chan) -> bool
    ensures { result ≡ is_used_otherwise channel }
{
    channel == Chan::L || channel == Chan::Q || channel == Chan::SUPERBANK
}

/// Writes the lines of the channels on which words came long ago, as `NOTE UNREAD CHAN 013 CYCLES 20`, and that no
/// instruction has read. After a failure a beginning of them was written.
pub(crate) fn write_unread<W: Write>(
    notation: Notation,
    past: &Past,
    cycles: u64,
    out: &mut W,
) -> Result<(), WriteFailed>
    ensures written { W.told ≡ true → Writes (W.written out.old) (W.written out.new)
        (unread_text notation cycles past.now) result }
    ensures failures { W.failures out.new ≡ failures_after (W.failures out.old) result }
{
    for number in 0..CHANNELS {
        write_channel(notation, past, number, cycles, out)?;
    }
    Ok(())
}

/// Writes the line of a channel, where it is told.
fn write_channel<W: Write>(
    notation: Notation,
    past: &Past,
    number: usize,
    cycles: u64,
    out: &mut W,
) -> Result<(), WriteFailed>
    requires { number < channels }
    ensures written { W.told ≡ true → Writes (W.written out.old) (W.written out.new)
        (unread_of notation cycles past.now number) result }
    ensures failures { W.failures out.new ≡ failures_after (W.failures out.old) result }
{
    if let Some(since) = past.came[number]
        && !past.read[number]
        && cycles.saturating_sub(since) >= LONG_WAIT
    {
        write_all(out, unread_in(notation, number, since).as_slice())
    } else {
        Ok(())
    }
}

/// What is told of a channel, in a notation.
fn unread_in(notation: Notation, number: usize, since: u64) -> Line
    requires { number < channels }
    ensures { result.items ≡ unread_in notation number since }
{
    match notation {
        Notation::Text => unread_line(number, since),
        Notation::Json => unread_object(number, since),
    }
}

/// The line of a channel whose first word came after so many cycles.
#[tactic(auto, using(words::proofs::Digits::short_decimal), unfolding(crate::specs::Unread::unread_line))]
fn unread_line(number: usize, since: u64) -> Line
    requires { number < channels }
    ensures { result.items ≡ unread_line number since }
{
    let mut line = ArrayVec::new();
    push_all(&mut line, b"NOTE UNREAD CHAN ");
    push_octal(&mut line, 3, number as u16);
    push_all(&mut line, b" CYCLES ");
    push_decimal(&mut line, since);
    push_all(&mut line, b"\n");
    line
}

/// Its object.
#[tactic(auto, using(words::proofs::Digits::short_decimal), unfolding(crate::specs::Unread::unread_object))]
fn unread_object(number: usize, since: u64) -> Line
    requires { number < channels }
    ensures { result.items ≡ unread_object number since }
{
    let mut object = ArrayVec::new();
    push_all(&mut object, b"{\"kind\":\"UNREAD\",\"channel\":\"");
    push_octal(&mut object, 3, number as u16);
    push_all(&mut object, b"\",\"cycles\":");
    push_decimal(&mut object, since);
    push_all(&mut object, b"}\n");
    object
}
