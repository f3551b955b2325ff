//! A session of commands.

ghost use Rattle.std.specs.Prelude.{List, ℕ, ◌≡◌, ◌+◌, ◌*◌, ◌≤◌, true, length, if◌then◌else◌};
ghost use Rattle.words.specs.Devices.{one_more};
ghost use Rattle.words.specs.Readings.{TakesAtMost};
ghost use Rattle.debugger.specs.Transcript.{command_lines, lines_read, most_command_bytes};
ghost use Rattle.commands.specs.Lines.{kept_line};
ghost use Rattle.commands.specs.Extended.{extended_line};
ghost use Rattle.debugger.specs.Conversation.{TalksTo, efforts, reading, is_end, lines_heard, lines_within, most_bytes};
ghost use Rattle.debugger.specs.Conversation.{most_extended_bytes};
ghost use Rattle.debugger.specs.Sessions.{DebugsTo, has_read_failed, has_write_failed};

use crate::desk::Desk;
use crate::fault::DebugFault;
use crate::manner::Manner;
use crate::tail::Tail;
use commands::{
    Command, CommandLine, DeviceFault, ExtendedLine, LineReader, ParsedLine, extended_line,
    parsed_line,
};
use replay::{Keeper, Session};
use std::alloc::Global;
use symbols::Symbols;
use words::{Read, Write};
use yayul::SourceRows;

/// The most bytes of commands that a session reads, where it is not extended.
pub const MOST_COMMAND_BYTES: u64 = 16_777_216;

/// Reads commands up to `quit`, or to the end of their first 16,777,216 bytes, and writes the reply to each.
///
/// The replies to all lines before are handed on before more commands are waited for. What a session replies is the
/// transcript: each output is written once, when its step is first made, however the commands go back and forth. Memory
/// is taken for the last outputs, before a command is read, and where the session takes it.
///
/// `NoMemory` where that memory was not to be had: then nothing was written. `ReadFailed` where the commands could not
/// be read on: then the replies to the whole lines before stand. `WriteFailed` where a reply could not be written: then
/// a beginning of the transcript stands.
pub fn debug_session<K: Keeper, R: Read, W: Write>(
    alloc: Global,
    session: &mut Session<K>,
    symbols: &Symbols,
    commands: &mut R,
    out: &mut W,
) -> Result<(), DebugFault>
    requires { session.old.n ≡ 0 }
    ensures answer { R.told ≡ true → W.told ≡ true →
        DebugsTo (record { may_refuse = K.may_refuse; symbols = symbols.now; scenario = session.old.scenario })
        (record { before = R.left commands.old; left = R.left commands.new }) (W.written out.old)
        (W.written out.new) result session.new }

    // For each line that is read at most three times as many steps are executed as there are, besides those that are
    // made.
    ensures cost { R.told ≡ true →
        session.new.meter ≤ session.old.meter
        + (3 * length (lines_read symbols.now (command_lines (R.left commands.old))) + 1) * session.new.n }

    // E6 only where the reader has failed, E7 only where the writer has.
    ensures reader { R.failures commands.new
        ≡ (if has_read_failed result then one_more (R.failures commands.old) else R.failures commands.old) }
    ensures writer { W.failures out.new ≡ (if has_write_failed result then one_more (W.failures out.old) else W.failures
        out.old) }

    // No more is read than counts.
    ensures read { R.told ≡ true → TakesAtMost most_command_bytes (R.left commands.old) (R.left commands.new) }
{
    let rows = SourceRows::none(alloc);
    converse(Manner::Plain, alloc, session, symbols, &rows, commands, out)
}

/// `debug_session` with more commands, of which `where` and `list` show the rows of a source, with refusals in words,
/// and over commands of any number of bytes: they are read up to
/// `quit` or to their end. (A count of 64 bits has an end, after 18,446,744,073,709,551,615 bytes.)
pub fn extended_session<K: Keeper, R: Read, W: Write>(
    alloc: Global,
    session: &mut Session<K>,
    symbols: &Symbols,
    rows: &SourceRows,
    commands: &mut R,
    out: &mut W,
) -> Result<(), DebugFault>
    requires { session.old.n ≡ 0 }
    ensures answer { R.told ≡ true → W.told ≡ true →
        TalksTo (record {
          may_refuse = K.may_refuse;
          symbols = symbols.now;
          source = rows.now;
          read = extended_line
              symbols.now;
          most = most_extended_bytes;
          scenario = session.old.scenario;
        })
        (record { before = R.left commands.old; left = R.left commands.new }) (W.written out.old)
        (W.written out.new) result session.new }

    // For each line that is read at most so many times the steps that there are are executed, besides those that are
    // made: three times, for `where` and `out` four times, and for `why` six times a link, with `index` nine, and once
    // for its last search.
    ensures cost { R.told ≡ true →
        session.new.meter ≤ session.old.meter
        + (efforts (extended_line symbols.now)
        (lines_heard (extended_line symbols.now) (lines_within most_extended_bytes (R.left commands.old))) + 1)
        * session.new.n }

    // E6 only where the reader has failed, E7 only where the writer has.
    ensures reader { R.failures commands.new
        ≡ (if has_read_failed result then one_more (R.failures commands.old) else R.failures commands.old) }
    ensures writer { W.failures out.new ≡ (if has_write_failed result then one_more (W.failures out.old) else W.failures
        out.old) }

    // No more is read than counts.
    ensures read { R.told ≡ true → TakesAtMost most_extended_bytes (R.left commands.old) (R.left commands.new) }
{
    converse(
        Manner::Extended,
        alloc,
        session,
        symbols,
        rows,
        commands,
        out,
    )
}

/// A session of either manner.
fn converse<K: Keeper, R: Read, W: Write>(
    manner: Manner,
    alloc: Global,
    session: &mut Session<K>,
    symbols: &Symbols,
    rows: &SourceRows,
    commands: &mut R,
    out: &mut W,
) -> Result<(), DebugFault>
    requires { session.old.n ≡ 0 }
    ensures answer { R.told ≡ true → W.told ≡ true →
        TalksTo (record {
          may_refuse = K.may_refuse;
          symbols = symbols.now;
          source = rows.now;
          read = reading manner
              symbols.now;
          most = most_bytes manner;
          scenario = session.old.scenario;
        })
        (record { before = R.left commands.old; left = R.left commands.new }) (W.written out.old)
        (W.written out.new) result session.new }
    ensures cost { R.told ≡ true →
        session.new.meter ≤ session.old.meter
        + (efforts (reading manner symbols.now)
        (lines_heard (reading manner symbols.now) (lines_within (most_bytes manner) (R.left commands.old))) + 1)
        * session.new.n }
    ensures reader { R.failures commands.new
        ≡ (if has_read_failed result then one_more (R.failures commands.old) else R.failures commands.old) }
    ensures writer { W.failures out.new ≡ (if has_write_failed result then one_more (W.failures out.old) else W.failures
        out.old) }
    ensures read { R.told ≡ true → TakesAtMost (most_bytes manner) (R.left commands.old) (R.left commands.new) }
{
    let mut tail = match Tail::new(alloc) {
        Ok(tail) => tail,
        Err(_) => return Err(DebugFault::NoMemory),
    };
    let mut desk = Desk::new(session, symbols, rows, &mut tail);
    let mut reader = LineReader::new(most_bytes(manner));
    let mut line = CommandLine::empty();
    'commands: loop {
        let some = match reader.next_line(commands, out, &mut line) {
            Ok(some) => some,
            Err(DeviceFault::ReadFailed) => return Err(DebugFault::ReadFailed),
            Err(DeviceFault::WriteFailed) => return Err(DebugFault::WriteFailed),
        };
        if !some {
            return Ok(());
        }
        let request = asked(manner, symbols, &line);
        if is_end(&request) {
            return Ok(());
        }
        match desk.answer_asked(alloc, &request, out) {
            Ok(()) => {}
            Err(_) => return Err(DebugFault::WriteFailed),
        }
    }
}

/// The most bytes of commands that are read.
fn most_bytes(manner: Manner) -> u64
    ensures { result ≡ most_bytes manner }
{
    match manner {
        Manner::Plain => MOST_COMMAND_BYTES,
        Manner::Extended => u64::MAX,
    }
}

/// What a line asks for.
#[tactic(auto, unfolding(crate::specs::Conversation::reading))]
fn asked(manner: Manner, symbols: &Symbols, line: &CommandLine) -> ExtendedLine
    ensures { (bytes : List ℕ) → line.now ≡ kept_line bytes → result ≡ reading manner symbols.now bytes }
{
    match manner {
        Manner::Plain => ExtendedLine::Plain(parsed_line(symbols, line)),
        Manner::Extended => extended_line(symbols, line),
    }
}

/// Whether the end is asked for.
fn is_end(request: &ExtendedLine) -> bool
    ensures { result ≡ is_end request.now }
{
    matches!(
        request,
        ExtendedLine::Plain(ParsedLine::Known(Command::Quit)) | ExtendedLine::Common(Command::Quit)
    )
}
