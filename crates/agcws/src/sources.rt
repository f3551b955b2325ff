//! The subcommands that assemble or check a source.

use crate::assumptions::{Assumptions, asked_wordings, refuse_wording, tell_assumed, under};
use crate::dumps::{AS_WRITTEN, opened_bytes, opened_source};
use crate::files::{ended, opened, refused_file, with_stdout};
use crate::joining::{SourceText, has_file, source_text};
use crate::located::{write_listing, write_report};
use crate::target::{WrongTarget, wrong_target};
use crate::{DONE, REFUSED, refuse_arguments};
use assumed::Wording;
use image_file::ImageFile;
use json_text::Notation;
use plans::{Assembly, Check, Image};
use std::cell::Cell;
use words::{Buffer, MOST_BYTES, Read, ReadAhead, Std, Write, read_text};
use workshop::{
    Bank, Form, Rope, Tally, Version, WorkshopFault, asm_engine, asm_filled_with_check_words,
    asm_with_check_words, asm_with_holes, check_feed, check_source, report_no_room, write_tally,
    xref_engine,
};

/// `agcws asm [--flight] [--rope VERSION] SRC ROPE`. The file ROPE is made at the first write, so that a refused source
/// leaves none. A path of the source, or of one, is refused for ROPE before anything is opened.
pub fn assemble(rt: &HostRuntime, assembly: &Assembly<'_>) -> Result<u8, WorkshopFault> {
    assemble_whole(rt, assembly, Way::AsWritten)
}

/// `agcws asm --sums [--flight] [--rope VERSION] SRC ROPE`: files as without `--sums`. A bank without room is told in
/// words.
pub fn assemble_with_sums(rt: &HostRuntime, assembly: &Assembly<'_>) -> Result<u8, WorkshopFault> {
    assemble_whole(rt, assembly, Way::WithSums)
}

/// Assembles a source without holes.
fn assemble_whole(
    rt: &HostRuntime,
    assembly: &Assembly<'_>,
    way: Way<'_>,
) -> Result<u8, WorkshopFault> {
    match source_for(rt, assembly)? {
        Ok(source) => list(rt, assembly, &source, way),
        Err(unfit) => refuse_assembly(rt, unfit),
    }
}

/// `agcws asm --flight --holes [--fill FILE] [--rope VERSION] SRC ROPE`: files as without `--holes`. A fault of the
/// image of which holes have their words is told by its name.
pub fn assemble_holed(
    rt: &HostRuntime,
    assembly: &Assembly<'_>,
    filling: Option<&str>,
) -> Result<u8, WorkshopFault> {
    match filling {
        Some(name) => assemble_filled(rt, assembly, name, false),
        None => assemble_whole(rt, assembly, Way::WithHoles(None)),
    }
}

/// `agcws asm --flight --holes --fill FILE --sums [--rope VERSION] SRC ROPE`: as without `--sums`, and a bank without
/// room for its check words is told in words.
pub fn assemble_filled_with_sums(
    rt: &HostRuntime,
    assembly: &Assembly<'_>,
    filling: &str,
) -> Result<u8, WorkshopFault> {
    assemble_filled(rt, assembly, filling, true)
}

/// Assembles a source with holes that a file fills, with check words or without.
fn assemble_filled(
    rt: &HostRuntime,
    assembly: &Assembly<'_>,
    filling: &str,
    has_sums: bool,
) -> Result<u8, WorkshopFault> {
    let source = match source_for(rt, assembly)? {
        Ok(source) => source,
        Err(unfit) => return refuse_assembly(rt, unfit),
    };
    match filling_of(rt, filling, assembly.version) {
        Ok(words) if has_sums => list(rt, assembly, &source, Way::FilledWithSums(&words)),
        Ok(words) => list(rt, assembly, &source, Way::WithHoles(Some(&words))),
        Err(fault) => refused_file(rt, filling, fault),
    }
}

/// How a source is assembled.
#[derive(Clone, Copy, Drop)]
enum Way<'a> {
    /// As it is written.
    AsWritten,
    /// With check words.
    WithSums,
    /// With holes, which have the words of an image where there is one.
    WithHoles(Option<&'a Rope>),
    /// With holes that have the words of an image, and check words.
    FilledWithSums(&'a Rope),
}

/// Why an assembly is not begun.
enum Unfit {
    /// The image may not be written there.
    Target(WrongTarget),
    /// What is to be assumed is none of the wordings.
    Wording,
}

/// Says why an assembly is not begun.
fn refuse_assembly(rt: &HostRuntime, unfit: Unfit) -> Result<u8, WorkshopFault> {
    match unfit {
        Unfit::Target(wrong) => refuse_arguments(rt, wrong.of_an_assembly()),
        Unfit::Wording => refuse_wording(rt),
    }
}

/// The text of the source of an assembly, under assumptions. A file of the source is not written over.
fn source_for(
    rt: &HostRuntime,
    assembly: &Assembly<'_>,
) -> Result<Result<SourceText, Unfit>, WorkshopFault> {
    let (path, rope) = (assembly.source.path, assembly.rope);
    if let Some(wrong) = wrong_target(rt, path, rope) {
        return Ok(Err(Unfit::Target(wrong)));
    }
    let Assumptions::Made(wordings) = asked_wordings(rt, assembly.source.assumed)? else {
        return Ok(Err(Unfit::Wording));
    };
    let SourceText { text, joined } = source_text(rt, path, assembly.source.language)?;
    if let Some(joined) = &joined {
        if has_file(rt, path, joined, rope)? {
            return Ok(Err(Unfit::Target(WrongTarget::SameFile)));
        }
    }
    let text = under(rt, wordings.as_slice(), &text)?;
    Ok(Ok(SourceText { text, joined }))
}

/// Assembles a source, and writes what comes of it, by the files of its lines. A bank without room for its check words
/// is told in words.
fn list(
    rt: &HostRuntime,
    assembly: &Assembly<'_>,
    source: &SourceText,
    way: Way<'_>,
) -> Result<u8, WorkshopFault> {
    let full = with_stdout(rt, |out| match &source.joined {
        None => write_assembled(rt, assembly, &source.text, way, out),
        Some(joined) => {
            let mut listing = Buffer::new(rt.alloc());
            let full = write_assembled(rt, assembly, &source.text, way, &mut listing)?;
            write_listing(rt.alloc(), joined, listing.as_slice(), out)?;
            Ok(full)
        }
    })?;
    match full {
        Some(bank) => report_no_room(bank, &mut Std::new(rt.stderr())),
        None => Ok(DONE),
    }
}

/// Assembles a source, and writes what comes of it. Answers a bank without room for its check words.
fn write_assembled<W: Write>(
    rt: &HostRuntime,
    assembly: &Assembly<'_>,
    text: &[u8],
    way: Way<'_>,
    listing: &mut W,
) -> Result<Option<Bank>, WorkshopFault> {
    let refused = Cell::new(false);
    let mut image = Std::new(ImageFile::new(rt, assembly.rope, &refused));
    let outcome = write_image(rt, assembly, text, way, &mut image, listing);
    let full = ended(outcome, &refused)?;
    if full.is_none() {
        tell_uses(rt, assembly, text, listing)?;
    }
    Ok(full)
}

/// Writes the image and the listing of a source.
fn write_image<I: Write, W: Write>(
    rt: &HostRuntime,
    assembly: &Assembly<'_>,
    text: &[u8],
    way: Way<'_>,
    image: &mut I,
    listing: &mut W,
) -> Result<Option<Bank>, WorkshopFault> {
    let (alloc, language, version) = (rt.alloc(), assembly.source.language, assembly.version);
    let mut rest = text;
    match way {
        Way::AsWritten => {
            asm_engine(alloc, language, &mut rest, image, listing, version)?;
            Ok(None)
        }
        Way::WithSums => asm_with_check_words(alloc, language, &mut rest, image, listing, version),
        Way::WithHoles(filling) => {
            asm_with_holes(alloc, text, filling, image, listing, version)?;
            Ok(None)
        }
        Way::FilledWithSums(filling) => {
            asm_filled_with_check_words(alloc, text, filling, image, listing, version)
        }
    }
}

/// Tells what the lines of a source do with each name, where that is asked for.
fn tell_uses<W: Write>(
    rt: &HostRuntime,
    assembly: &Assembly<'_>,
    text: &[u8],
    out: &mut W,
) -> Result<(), WorkshopFault> {
    if assembly.tells_uses {
        xref_engine(rt.alloc(), assembly.source.language, text, out)?;
    }
    Ok(())
}

/// The words of an image, or of a text of octal words.
fn filling_of(rt: &HostRuntime, path: &str, version: Version) -> Result<Rope, WorkshopFault> {
    let image = Image {
        path,
        form: Form::AsWritten,
        layout: AS_WRITTEN,
        version,
    };
    let mut file = Std::new(opened_bytes(rt, &image)?);
    Ok(Rope::read(rt.alloc(), &mut file, version)?)
}

/// `agcws check [--flight] [--unused] [--json] SRC [FEED ..]`. All files are opened before anything is read. A file
/// that can't be read is told by its name.
pub fn check(rt: &HostRuntime, asked: &Check<'_>) -> Result<u8, WorkshopFault> {
    let Assumptions::Made(wordings) = asked_wordings(rt, asked.source.assumed)? else {
        return refuse_wording(rt);
    };
    let mut last = asked.source.path;
    match check_files(rt, asked, wordings.as_slice(), &mut last) {
        Ok(tally) => Ok(if tally.errors == 0 { DONE } else { REFUSED }),
        Err(fault) => refused_file(rt, last, fault),
    }
}

/// Tells what is wrong with a source and some feeds. The file that was opened or read last is named beside a fault.
fn check_files<'a>(
    rt: &HostRuntime,
    asked: &Check<'a>,
    wordings: &[Wording],
    last: &mut &'a str,
) -> Result<Tally, WorkshopFault> {
    let (source, names) = (asked.source, asked.feeds.as_slice());
    let (bytes, joined) = opened_source(rt, source.path, source.language)?;
    let mut file = ReadAhead::new(Std::new(bytes));
    let mut feeds = Vec::new(rt.alloc());
    for name in names {
        *last = *name;
        if feeds.push(opened(rt, name)?).is_err() {
            return Err(WorkshopFault::NoMemory);
        }
    }
    *last = source.path;
    let text = read_text(rt.alloc(), &mut file, MOST_BYTES)?;
    with_stdout(rt, |out| {
        let told = match &joined {
            None => check_text(rt, asked, wordings, &text, out)?,
            Some(joined) => {
                let mut report = Buffer::new(rt.alloc());
                let told = check_text(rt, asked, wordings, &text, &mut report)?;
                write_report(rt.alloc(), source.path, joined, report.as_slice(), out)?;
                told
            }
        };
        check_feeds(rt, asked.notation, names, &mut feeds, last, told, out)
    })
}

/// Tells what is wrong with a source under assumptions, and which lines stand by one.
fn check_text<W: Write>(
    rt: &HostRuntime,
    asked: &Check<'_>,
    wordings: &[Wording],
    text: &[u8],
    out: &mut W,
) -> Result<Tally, WorkshopFault> {
    let made = under(rt, wordings, text)?;
    let mut rest = made.as_slice();
    let told = check_source(
        rt.alloc(),
        asked.notation,
        asked.source.language,
        asked.source.path.as_bytes(),
        asked.tells_unused,
        &mut rest,
        out,
    )?;
    tell_assumed(rt, &asked.source, wordings, text, out)?;
    Ok(told)
}

/// Tells what is wrong with some feeds, after what was told of a source, and then how much was told.
fn check_feeds<'a, F: Read, W: Write>(
    rt: &HostRuntime,
    notation: Notation,
    names: &[&'a str],
    feeds: &mut [F],
    last: &mut &'a str,
    told: Tally,
    out: &mut W,
) -> Result<Tally, WorkshopFault> {
    let mut told = told;
    for (name, feed) in names.iter().zip(feeds) {
        *last = *name;
        let count = check_feed(rt.alloc(), notation, name.as_bytes(), feed, out)?;
        told = told.with_errors(count);
    }
    write_tally(rt.alloc(), notation, &told, out)?;
    Ok(told)
}
