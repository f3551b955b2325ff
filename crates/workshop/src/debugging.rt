//! Sessions over a program, and the engine of the debugger.

ghost use Rattle.std.specs.Prelude.{◌≡◌, true, Err, IfOk, IfErr, IsOkAnd, All};
ghost use Rattle.std.specs.Fn.{FnReturnsAt};
ghost use Rattle.replay.specs.Calls.{Hears, IsAllowed};
ghost use Rattle.workshop.specs.Debugging.{DebugsProgram, DebugsExtended, Follows, Opens, OpensListed, Travels};
ghost use Rattle.workshop.specs.Debugging.{in_session};
ghost use Rattle.workshop.specs.Failures.{reader, writer};
ghost use Rattle.workshop.specs.Inputs.{prepared};
ghost use Rattle.yayul.specs.declared.language.Language.TheVariants.{Standard};
ghost use Rattle.workshop.specs.Loading.{Tells, program_and_feed};

use crate::fault::WorkshopFault;
use crate::inputs::{Loaded, load};
use crate::origin::Origin;
use cpu::{Machine, Processor};
use debugger::{debug_session, extended_session};
use replay::{Call, Observer, Session, SlotKeeper, follow};
use std::alloc::Global;
use words::{Read, Write};
use yayul::{Language, SourceRows, Symbols};

/// A session over a program, and the program's symbols.
#[derive(Drop)]
pub struct Opened {
    /// The session.
    pub session: Session<SlotKeeper>,
    /// The symbols: none where the words come from an image.
    pub symbols: Symbols,
}

/// Assembles the source, reads the feed, and opens a session over them: see `open_program`.
pub fn open_session<S: Read, F: Read>(
    alloc: Global,
    source: &mut S,
    feed: &mut F,
) -> Result<Opened, WorkshopFault>
    ensures opens { Opens (Origin.Source Standard)
        (program_and_feed (reader S.Read source.old) (reader F.Read feed.old))
        (program_and_feed (reader S.Read source.new) (reader F.Read feed.new)) result }
    ensures start { IfOk result (λ o. o.session.n ≡ 0) }
{
    open_program(alloc, Origin::Source(Language::Standard), source, feed)
}

/// Reads a program and then a feed, and opens a session over them that has made no step. Its images stand in slots,
/// which are all made here, so that no step is refused for memory.
///
/// A source and a feed have at most 8,388,608 bytes each. The first fault of the program is answered, else that of the
/// feed.
pub fn open_program<P: Read, F: Read>(
    alloc: Global,
    origin: Origin,
    program: &mut P,
    feed: &mut F,
) -> Result<Opened, WorkshopFault>
    ensures opens { Opens origin
        (program_and_feed (reader P.Read program.old) (reader F.Read feed.old))
        (program_and_feed (reader P.Read program.new) (reader F.Read feed.new)) result }
    ensures start { IfOk result (λ o. o.session.n ≡ 0) }
{
    let loaded = load(alloc, origin, program, feed)?;
    let (opened, _) = open_loaded(alloc, loaded)?;
    Ok(opened)
}

/// Opens a session over what was read, and keeps the lines of the source beside it.
fn open_loaded(alloc: Global, loaded: Loaded) -> Result<(Opened, SourceRows), WorkshopFault>
    ensures { OpensListed loaded result }
{
    let processor = Processor::new(loaded.rope, loaded.feed);
    let Ok(session) = Session::open(alloc, processor) else {
        return Err(WorkshopFault::NoMemory);
    };
    let opened = Opened {
        session,
        symbols: loaded.symbols,
    };
    Ok((opened, loaded.rows))
}

/// Assembles the source, reads the feed, and answers the commands: see `debug_program`.
pub fn debug_engine<S: Read, F: Read, R: Read, W: Write>(
    alloc: Global,
    source: &mut S,
    feed: &mut F,
    commands: &mut R,
    out: &mut W,
) -> Result<(), WorkshopFault>
    ensures { DebugsProgram (Origin.Source Standard)
        (in_session (reader S.Read source.old) (reader F.Read feed.old)
        (reader R.Read commands.old) (writer W.Write out.old))
        (in_session (reader S.Read source.new) (reader F.Read feed.new)
        (reader R.Read commands.new) (writer W.Write out.new)) result }
{
    let origin = Origin::Source(Language::Standard);
    debug_program(alloc, origin, source, feed, commands, out)
}

/// Reads a program and then a feed, and answers the commands over a session of them: see `debug_session`.
///
/// The first fault of the program is answered, else that of the feed; then no command is read, and nothing written.
/// After a failed read of the commands the replies to the whole lines before stand, after a failed write a beginning of
/// the transcript.
pub fn debug_program<P: Read, F: Read, R: Read, W: Write>(
    alloc: Global,
    origin: Origin,
    program: &mut P,
    feed: &mut F,
    commands: &mut R,
    out: &mut W,
) -> Result<(), WorkshopFault>
    ensures { DebugsProgram origin
        (in_session (reader P.Read program.old) (reader F.Read feed.old)
        (reader R.Read commands.old) (writer W.Write out.old))
        (in_session (reader P.Read program.new) (reader F.Read feed.new)
        (reader R.Read commands.new) (writer W.Write out.new)) result }
{
    let mut opened = open_program(alloc, origin, program, feed)?;
    debug_session(alloc, &mut opened.session, &opened.symbols, commands, out)?;
    Ok(())
}

/// `debug_program` with the commands of an extended session: see `extended_session`.
pub fn debug_extended<P: Read, F: Read, R: Read, W: Write>(
    alloc: Global,
    origin: Origin,
    program: &mut P,
    feed: &mut F,
    commands: &mut R,
    out: &mut W,
) -> Result<(), WorkshopFault>
    ensures { DebugsExtended origin
        (in_session (reader P.Read program.old) (reader F.Read feed.old)
        (reader R.Read commands.old) (writer W.Write out.old))
        (in_session (reader P.Read program.new) (reader F.Read feed.new)
        (reader R.Read commands.new) (writer W.Write out.new)) result }
{
    let loaded = load(alloc, origin, program, feed)?;
    let (mut begun, rows) = open_loaded(alloc, loaded)?;
    extended_session(
        alloc,
        &mut begun.session,
        &begun.symbols,
        &rows,
        commands,
        out,
    )?;
    Ok(())
}

/// Assembles the source, reads the feed, opens a session over them, makes the calls in order, refused ones among them,
/// tells the observer each with its answer, and answers how many steps the session has gone then.
///
/// What the observer is told is what `follow` tells it: each call with its answer, by the reference run. How many
/// machines are held and how many steps executed is said by `follow` alone, of the session that its caller keeps.
///
/// Where no session is opened, why is answered as `open_session` answers it, and the observer is as it was.
pub fn follow_source<S: Read, F: Read, H: Fn(&Machine) -> bool, O: Observer>(
    alloc: Global,
    source: &mut S,
    feed: &mut F,
    calls: &[Call],
    hit: &H,
    observer: &mut O,
) -> Result<u64, WorkshopFault>
    requires callable { H.IsAlwaysCallable hit.now }
    requires allowed { All IsAllowed calls.now }
    ensures travel { S.told ≡ true → F.told ≡ true
        → IfOk result (λ n. IsOkAnd (prepared (S.left source.old) (F.left feed.old))
        (λ l. Travels l (Hears O.Watcher.sees O.Observer.sees) (FnReturnsAt H.Fn hit.now) calls.now observer.old
        observer.new n)) }
    ensures fault { S.told ≡ true → F.told ≡ true
        → IfErr result (λ fault. Tells (prepared (S.left source.old) (F.left feed.old)) (Err fault)) }
    ensures follows { Follows
        (program_and_feed (reader S.Read source.old) (reader F.Read feed.old))
        (program_and_feed (reader S.Read source.new) (reader F.Read feed.new))
        observer.old observer.new result }
{
    let mut opened = open_session(alloc, source, feed)?;
    Ok(follow(&mut opened.session, calls, hit, observer))
}
