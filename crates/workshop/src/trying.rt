//! The engine that tries inputs, each of them alone.

ghost use Rattle.std.specs.Prelude.{◌≡◌, ◌-◌, ◌≤◌, ◌^◌, Ok, IfOk};
ghost use Rattle.feed.specs.Feed.{inputs};
ghost use Rattle.workshop.specs.Failures.{reader, writer};
ghost use Rattle.workshop.specs.Loading.{answering};
ghost use Rattle.workshop.specs.Tries.{Tries, TriesFeed, WritesTrials};

use crate::fault::WorkshopFault;
use crate::origin::Origin;
use cpu::Processor;
use feed::{Feed, FeedFault, Plain};
use rope::Rope;
use std::alloc::Global;
use whatif::{TextReader, TrialFault, try_inputs};
use words::{Read, Write};

/// Reads a program, and tells what its run of some steps over a feed of this text would put out with each of some
/// inputs alone: see
/// `whatif::try_inputs`.
///
/// The first fault of the program is answered, else that of the feed, else that memory ran out, and then nothing is
/// written. What comes later, as that memory runs out, leaves a beginning of the text.
pub fn try_program<P: Read, W: Write>(
    alloc: Global,
    origin: Origin,
    program: &mut P,
    feed: &[u8],
    trials: &[Plain],
    steps: u64,
    out: &mut W,
) -> Result<(), WorkshopFault>
    requires { steps ≤ 2 ^ 40 - 2 }
    ensures { Tries origin feed.now trials.now steps
        (answering (reader P.Read program.old) (writer W.Write out.old))
        (answering (reader P.Read program.new) (writer W.Write out.new)) result }
{
    let (rope, _, _) = origin.read(alloc, program)?;
    try_feed(alloc, rope, feed, trials, steps, out)
}

/// The inputs of a text of trials, or its first fault.
pub fn read_trials(alloc: Global, text: &[u8]) -> Result<Feed, WorkshopFault>
    ensures { IfOk result (λ trials. inputs text.now ≡ Ok trials) }
{
    Ok(feed::read(alloc, &mut TextReader::new(text))?)
}

/// Reads a feed of this text, and tells of the trials.
fn try_feed<W: Write>(
    alloc: Global,
    rope: Rope,
    feed: &[u8],
    trials: &[Plain],
    steps: u64,
    out: &mut W,
) -> Result<(), WorkshopFault>
    requires { steps ≤ 2 ^ 40 - 2 }
    ensures { TriesFeed rope feed.now trials.now steps
        (writer W.Write out.old) (writer W.Write out.new) result }
{
    match feed::read(alloc, &mut TextReader::new(feed)) {
        Ok(inputs) => {
            let mut processor = Processor::new(rope, inputs);
            try_all(alloc, &mut processor, trials, steps, out)
        }
        Err(FeedFault::NoMemory) | Err(FeedFault::ReadFailed) => Err(WorkshopFault::NoMemory),
        Err(fault) => Err(fault.into()),
    }
}

/// Tells of the trials.
fn try_all<W: Write>(
    alloc: Global,
    processor: &mut Processor,
    trials: &[Plain],
    steps: u64,
    out: &mut W,
) -> Result<(), WorkshopFault>
    requires { steps ≤ 2 ^ 40 - 2 }
    ensures { WritesTrials processor.old.scenario trials.now steps
        (writer W.Write out.old) (writer W.Write out.new) result }
{
    match try_inputs(alloc, processor, trials, steps, out) {
        Ok(()) => Ok(()),
        Err(TrialFault::NoMemory) => Err(WorkshopFault::NoMemory),
        Err(TrialFault::WriteFailed) => Err(WorkshopFault::WriteFailed),
        Err(TrialFault::TooMany) => Err(WorkshopFault::Feed(FeedFault::TooMany)),
        Err(TrialFault::OutOfOrder) => Err(WorkshopFault::Feed(FeedFault::OutOfOrder(0))),
    }
}
