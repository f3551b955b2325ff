//! The subcommand that judges runs by texts of tests.

ghost use Rattle.std.specs.Prelude.{◌≤◌, ◌+◌, ◌-◌, ◌^◌, length};

use crate::files::{ReadFile, no_memory, opened, refused_file, with_stdout};
use crate::verdicts::{begin, end, tell};
use crate::{DONE, FAILED, NULL, WRONG_ARGUMENTS};
use agc_text::{before_comment, next_field, next_line};
use plans::Verdicts;
use std::str;
use words::{Buffer, ReadFault, Std, Write, read_text, write_all};
use workshop::{
    Asked, Expectation, Judged, TextRefusal, WorkshopFault, expectation_in, judge_program, near_in,
};

/// The most bytes of a text of tests.
const MOST_BYTES: usize = 65_536;

/// The words with which a line begins.
static KEYWORDS: [&str; 12] = [
    "SOURCE", "FEED", "STEPS", "TEST", "CHANNEL", "ALWAYS", "NEVER", "AT", "CALLS", "NOTES",
    "CHECK", "COVERED",
];

/// The words that stand within a line.
static LATER_KEYWORDS: [&str; 6] = ["UNTIL", "WITHIN", "CYCLES", "THEN", "NOTHING", "END"];

/// The words that stand behind NOTES.
static KINDS: [&str; 16] = [
    "NONE",
    "QUOTIENT",
    "SKIP",
    "NOWORD",
    "ERASABLE",
    "NOHANDLER",
    "OTHERBANK",
    "FIXEDBANK",
    "NOTKEPT",
    "MINUSZERO",
    "OVERWRITTEN",
    "SHARED",
    "INSIDE",
    "WAITING",
    "UNREAD",
    "AT",
];

/// What the text of a file comes to: the exit code, and the lines of its tests where they were judged.
#[derive(Drop)]
struct Told {
    status: u8,
    lines: Option<Buffer>,
}

/// `agcws expect FILE ..`: each text is read, judged and told before the next one.
pub fn expect(rt: &HostRuntime, files: &[&str], form: Verdicts) -> Result<u8, WorkshopFault> {
    let mut status = DONE;
    let mut tests = 0;
    with_stdout(rt, |out| Ok(begin(form, out)?))?;
    for file in files {
        if files.len() > 1 && form == Verdicts::Lines {
            let mut out = Std::new(rt.stdout());
            write_all(&mut out, file.as_bytes())?;
            write_all(&mut out, b"\n")?;
        }
        let told = expect_file(rt, file)?;
        let lines = told.lines.as_ref().map(|lines| lines.as_slice());
        tests = with_stdout(rt, |out| Ok(tell(form, file, lines, tests, out)?))?;
        status = status.max(told.status);
    }
    with_stdout(rt, |out| Ok(end(form, tests, out)?))?;
    Ok(status)
}

/// Of a text that was not judged the exit code alone.
fn unjudged(status: Result<u8, WorkshopFault>) -> Result<Told, WorkshopFault> {
    Ok(Told {
        status: status?,
        lines: None,
    })
}

/// Judges a run by the text of a file.
fn expect_file(rt: &HostRuntime, file: &str) -> Result<Told, WorkshopFault> {
    let mut reader = match opened(rt, file) {
        Ok(reader) => reader,
        Err(fault) => return unjudged(refused_file(rt, file, fault)),
    };
    let text = match read_text(rt.alloc(), &mut reader, MOST_BYTES) {
        Ok(text) => text,
        Err(ReadFault::TooLong) => return unjudged(refuse_long(rt, file)),
        Err(fault) => return unjudged(refused_file(rt, file, fault.into())),
    };
    match expectation_in(&text) {
        Ok(tests) => judge_run(rt, file, &text, &tests),
        Err(refusal) => unjudged(refuse(rt, file, &text, &refusal)),
    }
}

/// Tells of a text that is too long.
fn refuse_long(rt: &HostRuntime, file: &str) -> Result<u8, WorkshopFault> {
    let mut out = Std::new(rt.stderr());
    write_all(&mut out, file.as_bytes())?;
    write_all(
        &mut out,
        b": error: a text of tests has at most 65536 bytes\n",
    )?;
    Ok(WRONG_ARGUMENTS)
}

/// Makes the run of a text, and tells whether it bears out the tests.
fn judge_run(
    rt: &HostRuntime,
    file: &str,
    text: &[u8],
    tests: &Expectation<'_>,
) -> Result<Told, WorkshopFault>
    requires steps { tests.now.steps ≤ 2 ^ 40 - 2 }
    requires short { tests.now.line + length tests.now.tests.now ≤ 2 ^ 20 }
{
    let Some(mut source) = opened_beside(rt, file, tests.source)? else {
        return unjudged(refuse_path(rt, file, text, "SOURCE", tests.source));
    };
    let Some(mut feed) = opened_feed(rt, file, tests.feed)? else {
        return unjudged(refuse_path(rt, file, text, "FEED", tests.feed.unwrap_or(b"")));
    };
    let mut lines = Buffer::new(rt.alloc());
    match judge_program(rt.alloc(), tests, &mut source, &mut feed, &mut lines) {
        Ok(Judged::Met(is_met)) => Ok(Told {
            status: if is_met { DONE } else { FAILED },
            lines: Some(lines),
        }),
        Ok(Judged::Refused(refusal)) => unjudged(refuse(rt, file, text, &refusal)),
        Err(WorkshopFault::WriteFailed) => Err(WorkshopFault::NoMemory),
        Err(fault) => unjudged(tell_fault(rt, file, tests, fault)),
    }
}

/// The file of a path that a text in a file names, from the folder of that file on; none where it leaves the folder, or
/// cannot be opened.
fn opened_beside(
    rt: &HostRuntime,
    file: &str,
    path: &[u8],
) -> Result<Option<ReadFile>, WorkshopFault> {
    let Ok(path) = str::from_utf8(path) else {
        return Ok(None);
    };
    if path.starts_with('/') || path.split('/').any(|part| part == "..") {
        return Ok(None);
    }
    let folder = match file.rfind('/') {
        Some(place) => &file[..place + 1],
        None => "",
    };
    let path = format!(in rt.alloc(); "{folder}{path}").map_err(no_memory)?;
    match opened(rt, path.as_str()) {
        Ok(opened) => Ok(Some(opened)),
        Err(WorkshopFault::NoMemory) => Err(WorkshopFault::NoMemory),
        Err(_) => Ok(None),
    }
}

/// The feed that a text names, or one without inputs.
fn opened_feed(
    rt: &HostRuntime,
    file: &str,
    path: Option<&[u8]>,
) -> Result<Option<ReadFile>, WorkshopFault> {
    match path {
        Some(path) => opened_beside(rt, file, path),
        None => Ok(Some(opened(rt, NULL)?)),
    }
}

/// Tells that a source or a feed is refused; of other faults the caller tells.
fn tell_fault(
    rt: &HostRuntime,
    file: &str,
    tests: &Expectation<'_>,
    fault: WorkshopFault,
) -> Result<u8, WorkshopFault> {
    let name = match fault {
        WorkshopFault::Source(_) => tests.source,
        WorkshopFault::Feed(_) => tests.feed.unwrap_or(b""),
        _ => return refused_file(rt, file, fault),
    };
    let mut out = Std::new(rt.stderr());
    let name = str::from_utf8(name).unwrap_or("");
    let told = format!(in rt.alloc();
        "{file}: error: {name} is refused: {fault}; agcws check tells more\n"
    );
    write_all(&mut out, told.map_err(no_memory)?.as_bytes())?;
    Ok(fault.status())
}

/// Tells of a path that leaves the folder of the file that names it, or cannot be opened.
fn refuse_path(
    rt: &HostRuntime,
    file: &str,
    text: &[u8],
    word: &str,
    path: &[u8],
) -> Result<u8, WorkshopFault> {
    let mut rest = text;
    let mut number = 0_u64;
    // (each line has a byte at least)
    for _ in 0..text.len() {
        let Some((line, following)) = next_line(rest) else {
            break;
        };
        rest = following;
        number = number.saturating_add(1);
        if next_field(line, 0).is_some_and(|field| field.text == word.as_bytes()) {
            break;
        }
    }
    let path = str::from_utf8(path).unwrap_or("");
    let told = format!(in rt.alloc();
        "{file}:{number}: error: {path} cannot be opened, or is not in the folder of this file\n"
    );
    write_all(
        &mut Std::new(rt.stderr()),
        told.map_err(no_memory)?.as_bytes(),
    )?;
    Ok(WRONG_ARGUMENTS)
}

/// Tells where a text of tests is refused, and what is asked for there; and the line, with a sign below.
fn refuse(
    rt: &HostRuntime,
    file: &str,
    text: &[u8],
    refusal: &TextRefusal,
) -> Result<u8, WorkshopFault> {
    let mut out = Std::new(rt.stderr());
    let asked = asked_text(refusal.wrong.asked);
    let Some(line) = line_at(text, refusal.line).map(before_return) else {
        let told = format!(in rt.alloc(); "{file}: error: at its end {asked}\n");
        write_all(&mut out, told.map_err(no_memory)?.as_bytes())?;
        return Ok(WRONG_ARGUMENTS);
    };
    let (start, field) = field_at(line, refusal.wrong.field);
    let number = refusal.line;
    let column = start.saturating_add(1);
    let told = format!(in rt.alloc(); "{file}:{number}:{column}: error: {asked}");
    write_all(&mut out, told.map_err(no_memory)?.as_bytes())?;
    let near = if refusal.wrong.field == 0 {
        near_in(&KEYWORDS, field)
    } else if asked_kind(refusal.wrong.asked) {
        near_in(&KINDS, field)
    } else {
        near_in(&LATER_KEYWORDS, field)
    };
    if let Some(near) = near
        && near != field
    {
        write_all(&mut out, b"; ")?;
        write_all(&mut out, near)?;
        write_all(&mut out, b" is near")?;
    }
    write_all(&mut out, b"\n  ")?;
    write_all(&mut out, line)?;
    write_all(&mut out, b"\n  ")?;
    for byte in line.iter().take(start) {
        write_all(&mut out, if *byte == b'\t' { b"\t" } else { b" " })?;
    }
    write_all(&mut out, b"^\n")?;
    Ok(WRONG_ARGUMENTS)
}

/// Whether a kind of notes is asked for.
fn asked_kind(asked: Asked) -> bool {
    asked == Asked::Notes || asked == Asked::Kind
}

/// A line without the carriage return that ends it.
fn before_return(line: &[u8]) -> &[u8] {
    if line.last() == Some(&b'\r') {
        &line[..line.len().saturating_sub(1)]
    } else {
        line
    }
}

/// The line of a number, from 1 on.
fn line_at(text: &[u8], number: u64) -> Option<&[u8]> {
    let mut rest = text;
    for _ in 1..number {
        let (_, following) = next_line(rest)?;
        rest = following;
    }
    let (line, _) = next_line(rest)?;
    Some(line)
}

/// Where the field of a number, from 0 on, begins in a line, and its bytes; where there is none, the end of the fields.
fn field_at(line: &[u8], number: u64) -> (usize, &[u8]) {
    let mut from = 0;
    for _ in 0..number {
        let Some(field) = next_field(line, from) else {
            break;
        };
        from = field.start.saturating_add(field.text.len());
    }
    match next_field(line, from) {
        Some(field) => (field.start, field.text),
        None => (before_comment(line).len().min(from.saturating_add(1)), b""),
    }
}

/// What is asked for, in words.
fn asked_text(asked: Asked) -> &'static str {
    match asked {
        Asked::Source => "SOURCE and a path are asked for",
        Asked::Steps => "STEPS and a number of steps, at most 1099511627774, are asked for",
        Asked::UntilIdle => "UNTIL IDLE or the end of the line is asked for",
        Asked::Test => "TEST and a name are asked for, before what is claimed",
        Asked::Claim =>
            "TEST, CHANNEL, AT, ALWAYS, NEVER, CALLS, NOTES, CHECK or COVERED is asked for",
        Asked::Name => "the name of the test is asked for",
        Asked::Channel => "a channel, 0 to 777 in octal, is asked for",
        Asked::Put => "a word or NOTHING is asked for; octal, or decimal where D ends it",
        Asked::Cycles => "a number of cycles is asked for",
        Asked::Unit => "CYCLES is asked for",
        Asked::Nothing => "NOTHING is asked for, after THEN",
        Asked::FewerWords => "no line has more than 1000 words",
        Asked::Place => "END, a label or a place is asked for",
        Asked::Cell => "an erasable place is asked for: a symbol, a register or a number",
        Asked::Offset => {
            "a number of words after + is asked for, in octal, which stays in the bank"
        }
        Asked::Routine => "a label or a place is asked for",
        Asked::Calls => "a number of calls or WITHIN is asked for",
        Asked::Notes => "NONE or a kind of notes, as run --notes tells them, is asked for",
        Asked::Kind => "a kind of notes is asked for, as run --notes tells them",
        Asked::FewerPlaces => "no line lists notes at more than 8 places",
        Asked::Least => "how many instructions are executed at least is asked for",
        Asked::Relation => "one of = <> < > <= >= is asked for",
        Asked::Word => "a word is asked for; octal, or decimal where D ends it",
        Asked::End => "the end of the line is asked for",
    }
}
