//! The engines that tell all faults of a source, what in it is likely a mistake, and the fault of a feed.

ghost use Rattle.std.specs.Prelude.{◌≡◌, ◌^◌, ◌+◌, ◌-◌, min, length, IfErr, IfOk};
ghost use Rattle.std.specs.Result.{result_map_both};
ghost use Rattle.diagnostics.specs.Report.{refused_file, report};
ghost use Rattle.certain.specs.Doubted.{doubted};
ghost use Rattle.yayul.specs.Program.{program};
ghost use Rattle.yayul.specs.declared.language.Language.TheVariants as Language;
ghost use Rattle.workshop.specs.Checks.{Checks, TellsTally, cautions, checking, doubts_in, feed_reported, reported};
ghost use Rattle.workshop.specs.Failures.{reader, writer};
ghost use Rattle.workshop.specs.Faults.{number_of};
ghost use Rattle.workshop.specs.declared.fault.WorkshopFault.TheVariants as WorkshopFault;
ghost use Rattle.workshop.specs.Loading.{Reads, ReadsText};

use crate::fault::WorkshopFault;
use certain::doubted_lines;
use diagnostics::{counts, feed_report, refused_file, report};
use json_text::Notation;
use std::alloc::{AllocError, Global};
use warnings::{Warning, joined, warnings};
use words::{MOST_BYTES, Read, Write, read_text, write_all};
use yayul::{Language, Program, SourceFindings, SourceLines, Symbols, assemble, findings};

/// How many faults and warnings were told.
#[derive(Clone, Copy, PartialEq, Eq, Debug, Drop)]
pub struct Tally {
    /// Faults.
    pub errors: usize,
    /// Warnings.
    pub warnings: usize,
}

impl Tally {
    /// With so many faults more; the count stays at its greatest value.
    pub fn with_errors(self, more: usize) -> Tally
        ensures errors { result.errors ≡ min (self.errors + more) (2 ^ 64 - 1) }
        ensures warnings { result.warnings ≡ self.warnings }
    {
        Tally {
            errors: self.errors.saturating_add(more),
            warnings: self.warnings,
        }
    }
}

/// Reads a source of a language whole, and writes a line for each fault that does not follow from another, with the
/// source's name and the line that it stands on, among them a line for each warning, and what is said where it has
/// faults and is a feed or an image, or the same as JSON; it answers how many of both there are. Labels that no operand
/// names are told of where that is asked for.
///
/// The source has at most 8,388,608 bytes.
pub fn check_source<S: Read, W: Write>(
    alloc: Global,
    notation: Notation,
    language: Language,
    name: &[u8],
    unused: bool,
    source: &mut S,
    out: &mut W,
) -> Result<Tally, WorkshopFault>
    ensures { Checks (reported notation language name.now unused)
        (checking (reader S.Read source.old) (writer W.Write out.old))
        (checking (reader S.Read source.new) (writer W.Write out.new)) result }
{
    let (text, tally) = read_report(alloc, notation, language, name, unused, source)?;
    write_all(out, &text)?;
    Ok(tally)
}

/// Reads a feed whole, and writes lines for its first fault, where it has one, with the feed's name and the line that
/// it stands on, and what is said where it is a source or an image, or the same as JSON; it answers how many faults are
/// told: as `feed::read` answers, none or one.
///
/// The feed has at most 8,388,608 bytes.
pub fn check_feed<F: Read, W: Write>(
    alloc: Global,
    notation: Notation,
    name: &[u8],
    feed: &mut F,
    out: &mut W,
) -> Result<usize, WorkshopFault>
    ensures { Checks (feed_reported notation name.now)
        (checking (reader F.Read feed.old) (writer W.Write out.old))
        (checking (reader F.Read feed.new) (writer W.Write out.new)) result }
{
    let (lines, count) = read_feed_report(alloc, notation, name, feed)?;
    write_all(out, &lines)?;
    Ok(count)
}

/// Writes how many faults and how many warnings were told, as text or as JSON.
pub fn write_tally<W: Write>(
    alloc: Global,
    notation: Notation,
    tally: &Tally,
    out: &mut W,
) -> Result<(), WorkshopFault>
    ensures { TellsTally notation tally.now (writer W.Write out.old)
        (writer W.Write out.new) result }
{
    let text = match counts(alloc, notation, tally.errors, tally.warnings) {
        Ok(text) => text,
        Err(_) => return Err(WorkshopFault::NoMemory),
    };
    Ok(write_all(out, &text)?)
}

/// The line that tells that a file of this name could not be read, as `my.agc: error E6: a file could not be opened or
/// read`.
pub fn unread_text(
    alloc: Global,
    name: &[u8],
    fault: &WorkshopFault,
) -> Result<Vec<u8>, WorkshopFault>
    ensures text { IfOk result (λ text. text.items ≡ refused_file name.now (number_of fault.now)) }
    ensures fault { IfErr result (λ e. e ≡ WorkshopFault.NoMemory) }
{
    match refused_file(alloc, name, fault.number()) {
        Ok(text) => Ok(text),
        Err(_) => Err(WorkshopFault::NoMemory),
    }
}

// Reads a source, and tells its faults and warnings in a notation, and how many there are.
fn read_report<S: Read>(
    alloc: Global,
    notation: Notation,
    language: Language,
    name: &[u8],
    unused: bool,
    source: &mut S,
) -> Result<(Vec<u8>, Tally), WorkshopFault>
    ensures { Reads (λ old new. ReadsText (reported notation language name.now unused old) old new)
        (reader S.Read source.old) (reader S.Read source.new)
        (result_map_both (λ r. (r.0.items, r.1)) (λ fault. fault) result) }
{
    let text = read_text(alloc, source, MOST_BYTES)?;
    let Ok(source) = SourceLines::read(alloc, language, &text) else {
        return Err(WorkshopFault::NoMemory);
    };
    let found = findings(alloc, &source)?;
    match told_of(alloc, notation, name, unused, &source, &found) {
        Ok(told) => Ok(told),
        Err(_) => Err(WorkshopFault::NoMemory),
    }
}

// The faults of a source and its warnings in a notation, and how many there are.
pub(crate) fn told_of(
    alloc: Global,
    notation: Notation,
    name: &[u8],
    unused: bool,
    source: &SourceLines<'_>,
    found: &SourceFindings,
) -> Result<(Vec<u8>, Tally), AllocError>
    ensures text { IfOk result (λ r. r.0.items
        ≡ report notation source.now.language name.now source.now.text found.now.faults.items
        (cautions source.now.language unused found.now.symbols source.now.text)) }
    ensures count { IfOk result (λ r. r.1 ≡ record {
      errors = length found.now.faults.items;
      warnings = length (cautions source.now.language unused found.now.symbols source.now.text);
    }) }
{
    let warnings = cautions(alloc, unused, &found.symbols, source)?;
    let text = report(alloc, notation, name, source, &found.faults, &warnings)?;
    let tally = Tally {
        errors: found.faults.len(),
        warnings: warnings.len(),
    };
    Ok((text, tally))
}

// All warnings of a source, by the values of its symbols, those of labels that no operand names where they are asked
// for.
fn cautions(
    alloc: Global,
    unused: bool,
    symbols: &Symbols,
    source: &SourceLines<'_>,
) -> Result<Vec<Warning>, AllocError>
    ensures { IfOk result (λ found. found.items
        ≡ cautions source.now.language unused symbols.now source.now.text) }
{
    let warnings = warnings(alloc, source, symbols, unused)?;
    match source.language() {
        Language::Standard => Ok(warnings),
        Language::Flight => {
            let doubts = doubts_in(alloc, source.text())?;
            joined(alloc, &warnings, &doubts)
        }
    }
}

// The warnings of words that are not certain, where a flight source has no fault.
fn doubts_in(alloc: Global, source: &[u8]) -> Result<Vec<Warning>, AllocError>
    ensures { IfOk result (λ found. found.items ≡ doubts_in (program Language.Flight source.now)) }
{
    match assemble(alloc, Language::Flight, source) {
        Ok(program) => doubts_of(alloc, program),
        Err(fault) if fault.line == 0 => Err(AllocError),
        Err(_) => Ok(Vec::new(alloc)),
    }
}

// Those of an assembled source.
fn doubts_of(alloc: Global, program: Program) -> Result<Vec<Warning>, AllocError>
    ensures { IfOk result (λ found. found.items ≡ doubted program.source program.rope) }
{
    let (rope, rows) = program.split_rows();
    match doubted_lines(alloc, &rows, &rope) {
        Some(found) => Ok(found),
        None => Err(AllocError),
    }
}

// Reads a feed, and tells its fault in a notation, and how many are told.
fn read_feed_report<F: Read>(
    alloc: Global,
    notation: Notation,
    name: &[u8],
    feed: &mut F,
) -> Result<(Vec<u8>, usize), WorkshopFault>
    ensures { Reads (λ old new. ReadsText (feed_reported notation name.now old) old new)
        (reader F.Read feed.old) (reader F.Read feed.new)
        (result_map_both (λ r. (r.0.items, r.1)) (λ fault. fault) result) }
{
    let text = read_text(alloc, feed, MOST_BYTES)?;
    match feed_report(alloc, notation, name, &text) {
        Ok(told) => Ok(told),
        Err(_) => Err(WorkshopFault::NoMemory),
    }
}
