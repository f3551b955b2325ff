//! Sources of flight programs, whose lines may stand for files beside them.

use crate::files::{no_memory, not_opened};
use crate::target::wrong_target;
use agc_text::next_line;
use included::{Joined, NoText, Refusal, Texts, Why, join, line_path, path_beside};
use plans::{Kind, Plan, Shown};
use std::alloc::{AllocError, Global};
use std::fs;
use words::{MOST_BYTES, ReadAhead, ReadFault, Std, read_text, write_all};
use workshop::{Language, WorkshopFault};

/// The text of a source, and how it was joined, where lines of it stand for files.
#[derive(Drop)]
pub struct SourceText {
    pub text: Vec<u8>,
    pub joined: Option<Joined>,
}

/// The files in the folder of a source, by its path.
#[derive(Drop)]
struct Beside<'a> {
    rt: &'a HostRuntime,
    path: &'a str,
}

impl Texts for Beside<'_> {
    ghost use Rattle.std.specs.Prelude.{false, None};

    ghost told = { false };

    ghost texts = { λ _ _. None };

    fn text(&self, alloc: Global, name: &[u8], most: usize) -> Result<Vec<u8>, NoText> {
        let Ok(path) = path_beside(alloc, self.path.as_bytes(), name) else {
            return Err(NoText::NoMemory);
        };
        let Ok(path) = str::from_utf8(&path) else {
            return Err(NoText::Missing);
        };
        let Ok(file) = fs::open(self.rt, path) else {
            return Err(NoText::Missing);
        };
        match read_text(alloc, &mut ReadAhead::new(Std::new(file)), most) {
            Ok(text) => Ok(text),
            Err(ReadFault::NoMemory) => Err(NoText::NoMemory),
            Err(ReadFault::ReadFailed) => Err(NoText::Missing),
            Err(ReadFault::TooLong) => Err(NoText::TooLarge),
        }
    }
}

/// The name of the file of a path.
fn file_name(path: &str) -> &str {
    match path.rsplit_once('/') {
        Some((_, name)) => name,
        None => path,
    }
}

/// The text of a source of a language: that of a flight program is joined of its files. Where a line stands for a file
/// that is not read that is told, and the text is that of the source alone, in which such a line is a fault.
pub fn source_text(
    rt: &HostRuntime,
    path: &str,
    language: Language,
) -> Result<SourceText, WorkshopFault> {
    let text = text_of(rt, path)?;
    // (a text has no byte 0: what is no text is told as it stands)
    if language == Language::Standard || text.contains(&0) {
        return Ok(SourceText { text, joined: None });
    }
    let (joined, refusal) = join_files(rt, path, &text)?;
    if let Some(refusal) = refusal {
        tell_refusal(rt, path, &joined, refusal)?;
        let text = without_returns(rt.alloc(), &text).map_err(no_memory)?;
        return Ok(SourceText { text, joined: None });
    }
    let mut text = Vec::new(rt.alloc());
    text.extend_from_slice(joined.text()).map_err(no_memory)?;
    let joined = if joined.has_files() {
        Some(joined)
    } else {
        None
    };
    Ok(SourceText { text, joined })
}

/// The text of a file.
fn text_of(rt: &HostRuntime, path: &str) -> Result<Vec<u8>, WorkshopFault> {
    let file = fs::open(rt, path).map_err(not_opened)?;
    Ok(read_text(rt.alloc(), &mut ReadAhead::new(Std::new(file)), MOST_BYTES)?)
}

/// Joins the text of a source of its files.
fn join_files(
    rt: &HostRuntime,
    path: &str,
    text: &[u8],
) -> Result<(Joined, Option<Refusal>), WorkshopFault> {
    let name = file_name(path).as_bytes();
    let files = Beside { rt, path };
    join(rt.alloc(), &files, MOST_BYTES, name, text).map_err(no_memory)
}

/// The lines of a text without carriage returns at their ends.
fn without_returns(alloc: Global, text: &[u8]) -> Result<Vec<u8>, AllocError> {
    let mut lines = Vec::new(alloc);
    let mut rest = text;
    // (each line has a byte at least)
    for _ in 0..text.len() {
        let Some((line, following)) = next_line(rest) else {
            break;
        };
        rest = following;
        lines.extend_from_slice(line.strip_suffix(b"\r").unwrap_or(line))?;
        lines.push(b'\n')?;
    }
    Ok(lines)
}

/// Tells why a file is not read, by the line that stands for it.
fn tell_refusal(
    rt: &HostRuntime,
    path: &str,
    joined: &Joined,
    refusal: Refusal,
) -> Result<(), WorkshopFault> {
    let mut told = line_path(rt.alloc(), path.as_bytes(), joined, refusal.place).map_err(
        no_memory,
    )?;
    told.extend_from_slice(b": error: ").map_err(no_memory)?;
    told.extend_from_slice(words_of(refusal.why))
        .map_err(no_memory)?;
    Ok(write_all(&mut Std::new(rt.stderr()), &told)?)
}

/// Why a file is not read, in words.
fn words_of(why: Why) -> &'static [u8] {
    match why {
        Why::Outside => {
            b"a name after $ is that of a file in the folder of the source or below: ASCII, no / first, and no two \
                dots together\n"
        }
        Why::Loop => b"the file after $ is being read already\n",
        Why::TooDeep => b"files stand within one another more than 8 deep\n",
        Why::Missing => b"the file after $ could not be opened or read\n",
        Why::TooLarge => b"the source and its files have more than 8388608 bytes together\n",
    }
}

/// Whether a path leads to a file of a source.
pub fn has_file(
    rt: &HostRuntime,
    path: &str,
    joined: &Joined,
    target: &str,
) -> Result<bool, WorkshopFault> {
    let mut last = 0;
    for place in joined.places() {
        if place.file == last {
            continue;
        }
        last = place.file;
        let file = path_beside(rt.alloc(), path.as_bytes(), joined.name_of(last)).map_err(
            no_memory,
        )?;
        if str::from_utf8(&file).is_ok_and(|file| wrong_target(rt, file, target).is_some()) {
            return Ok(true);
        }
    }
    Ok(false)
}

/// Tells the fault of a source of several files by the file and the line that it stands on, and answers the exit
/// status; nothing of another source. One that can't be read again is told by the line of its text.
pub fn refuse_source(
    rt: &HostRuntime,
    plan: &Plan<'_>,
    fault: &WorkshopFault,
) -> Result<Option<u8>, WorkshopFault> {
    let (Some(path), WorkshopFault::Source(at)) = (flight_path(plan), fault) else {
        return Ok(None);
    };
    if !fs::metadata(rt, path).is_ok_and(|it| it.is_file()) {
        return Ok(None);
    }
    let (joined, refusal) = join_files(rt, path, &text_of(rt, path)?)?;
    if refusal.is_some() || !joined.has_files() {
        return Ok(None);
    }
    let Some(place) = joined.place_of(u64::from(at.line)) else {
        return Ok(None);
    };
    let number = at.number;
    let head = format!(in rt.alloc(); "agcws: E{number} LINE ").map_err(no_memory)?;
    let told = line_path(rt.alloc(), path.as_bytes(), &joined, place).map_err(no_memory)?;
    let mut stderr = Std::new(rt.stderr());
    write_all(&mut stderr, head.as_bytes())?;
    write_all(&mut stderr, &told)?;
    write_all(&mut stderr, b"\n")?;
    Ok(Some(fault.status()))
}

/// The path of the flight source of a plan.
fn flight_path<'a>(plan: &Plan<'a>) -> Option<&'a str> {
    match plan {
        Plan::Assemble(it) | Plan::AssembleWithSums(it) | Plan::AssembleWithHoles(it, _) => {
            if_flight(it.source.language, it.source.path)
        }
        Plan::AssembleFilledWithSums(it, _) => if_flight(it.source.language, it.source.path),
        Plan::CompareOnly(source, _) | Plan::CompareBanks(source, _, _) | Plan::Find(source, _) => {
            if_flight(source.language, source.path)
        }
        Plan::Show(it) => match it.shown {
            Shown::Holed(source) => Some(source),
            _ => None,
        },
        Plan::Run(it) => of_kind(it.program.kind, it.program.path),
        Plan::Trace(it) => of_kind(it.program.kind, it.program.path),
        Plan::Cover(it) => of_kind(it.program.kind, it.program.path),
        Plan::Reach(it) => of_kind(it.listed.kind, it.listed.path),
        Plan::ReachRun(it) => of_kind(it.program.kind, it.program.path),
        Plan::Bound(it) => of_kind(it.listed.kind, it.listed.path),
        Plan::Access(it) => of_kind(it.program.kind, it.program.path),
        Plan::Delays(it) => of_kind(it.program.kind, it.program.path),
        Plan::Differ(it) => of_kind(it.program.kind, it.program.path),
        Plan::WhatIf(it) => of_kind(it.program.kind, it.program.path),
        Plan::Debug(it) | Plan::DebugExtended(it) => of_kind(it.kind, it.path),
        _ => None,
    }
}

/// The path of a program that is a flight source.
fn of_kind<'a>(kind: Kind, path: &'a str) -> Option<&'a str> {
    match kind {
        Kind::Source(language) => if_flight(language, path),
        Kind::Image(_) => None,
    }
}

/// A path, where the source is that of a flight program.
fn if_flight<'a>(language: Language, path: &'a str) -> Option<&'a str> {
    match language {
        Language::Standard => None,
        Language::Flight => Some(path),
    }
}
