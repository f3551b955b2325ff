//! The engine that tries inputs, each of them alone, and tells what they change in the notes.

ghost use Rattle.std.specs.Prelude.{◌≡◌, ◌-◌, ◌≤◌, ◌^◌};
ghost use Rattle.workshop.specs.Failures.{reader, writer};
ghost use Rattle.workshop.specs.Loading.{answering};
ghost use Rattle.workshop.specs.NoteTries.{TriesNotes, TriesNotesFeed, WritesNotes};
ghost use Rattle.whatif.specs.Changes.{note_trials_text};

use crate::fault::WorkshopFault;
use crate::noting::{NamedCode, read_named};
use crate::origin::Origin;
use cpu::Processor;
use feed::{FeedFault, Plain};
use std::alloc::Global;
use whatif::{TextReader, TrialFault, note_trials};
use words::{Read, Write, write_all};
use yayul::NamedPlaces;

/// Reads a program, and tells which notes its run of some steps over a feed of this text would have with each of some
/// inputs alone, and has not, and which it would not: see `whatif::note_trials`.
///
/// The first fault of the program is answered, else that of the feed, else that memory ran out, or that of the trials;
/// and then nothing is written.
pub fn try_notes<P: Read, W: Write>(
    alloc: Global,
    origin: Origin,
    program: &mut P,
    feed: &[u8],
    trials: &[Plain],
    steps: u64,
    out: &mut W,
) -> Result<(), WorkshopFault>
    requires { steps ≤ 2 ^ 40 - 2 }
    ensures { TriesNotes origin feed.now trials.now steps
        (answering (reader P.Read program.old) (writer W.Write out.old))
        (answering (reader P.Read program.new) (writer W.Write out.new)) result }
{
    let code = read_named(alloc, origin, program)?;
    try_feed(alloc, code, feed, trials, steps, out)
}

/// Reads a feed of this text, and tells of the trials.
fn try_feed<W: Write>(
    alloc: Global,
    code: NamedCode,
    feed: &[u8],
    trials: &[Plain],
    steps: u64,
    out: &mut W,
) -> Result<(), WorkshopFault>
    requires { steps ≤ 2 ^ 40 - 2 }
    ensures { TriesNotesFeed code feed.now trials.now steps
        (writer W.Write out.old) (writer W.Write out.new) result }
{
    match feed::read(alloc, &mut TextReader::new(feed)) {
        Ok(inputs) => {
            let mut processor = Processor::new(code.rope, inputs);
            try_all(alloc, &code.named, &mut processor, trials, steps, out)
        }
        Err(FeedFault::NoMemory) | Err(FeedFault::ReadFailed) => Err(WorkshopFault::NoMemory),
        Err(fault) => Err(fault.into()),
    }
}

/// Tells of the trials.
fn try_all<W: Write>(
    alloc: Global,
    named: &NamedPlaces,
    processor: &mut Processor,
    trials: &[Plain],
    steps: u64,
    out: &mut W,
) -> Result<(), WorkshopFault>
    requires { steps ≤ 2 ^ 40 - 2 }
    ensures { WritesNotes (note_trials_text named.now processor.old.scenario trials.now steps)
        (writer W.Write out.old) (writer W.Write out.new) result }
{
    match note_trials(alloc, named, processor, trials, steps) {
        Ok(text) => {
            write_all(out, text.as_slice())?;
            Ok(())
        }
        Err(TrialFault::NoMemory) | Err(TrialFault::WriteFailed) => Err(WorkshopFault::NoMemory),
        Err(TrialFault::TooMany) => Err(WorkshopFault::Feed(FeedFault::TooMany)),
        Err(TrialFault::OutOfOrder) => Err(WorkshopFault::Feed(FeedFault::OutOfOrder(0))),
    }
}
