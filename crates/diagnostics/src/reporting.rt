//! The faults and the warnings of a source as lines of text.

ghost use Rattle.std.specs.Prelude.{◌≡◌, ◌≤◌, ◌++◌, ◌==◌, ◌&&◌, length, decimal, flat_map, [], if◌then◌else◌, OnOk};
ghost use Rattle.std.specs.Prelude.{IfOk, Some};
ghost use Rattle.std.specs.Option.{option_map};
ghost use Rattle.agc_text.specs.Lines.{lines};
ghost use Rattle.std.specs.List.{fold, position_or_len};
ghost use Rattle.agc_text.specs.Tables.{same_name};
ghost use Rattle.yayul.specs.ReadLines.{parts_on};
ghost use Rattle.yayul.specs.Readings.{parts_for, parts_in};
ghost use Rattle.diagnostics.specs.Kinds.{kind_of_source};
ghost use Rattle.diagnostics.specs.Causes.{below_cause};
ghost use Rattle.diagnostics.specs.ReadSources.{all_lines, has_label_on, language_in};
ghost use Rattle.json_text.specs.declared.notation.Notation.TheVariants.{Text};
ghost use Rattle.diagnostics.specs.Objects.{place_of};
ghost use Rattle.diagnostics.specs.Report.{as_error, told_in, shown_error, shown_warning, shown_line};
ghost use Rattle.diagnostics.specs.Report.{beside_text, listed, line_beside, needs_value, line_below};
ghost use Rattle.diagnostics.specs.Report.{as_label, told_by_line, may_be_label, with_label, labels_of, sought_labels};
ghost use Rattle.diagnostics.specs.Report.{takes_label, has_label, first_line, counted, count_text};
ghost use Rattle.warnings.specs.Fields.{text_of};
ghost use Rattle.warnings.specs.Joined.{count_before};
ghost use Rattle.diagnostics.specs.Report.{interpretive_text, warned_before, listed_from, listed_around, told_around};
ghost use Rattle.diagnostics.specs.Report.{told_text, refused_file, report};

use crate::caret::{push_error, push_finding};
use crate::causes::{below_cause, holds, near_label};
use crate::interpretive::{count_before_first, first_and_others, interpretive_cause};
use crate::kinds::push_kind_of_source;
use crate::lines::{beyond, line_at, place_on};
use crate::objects::{Note, push_count_object};
use crate::told::{SourceRead, Told};
use crate::warning_causes::caution_cause;
use agc_text::next_line;
use arrayvec::ArrayVec;
use explain::{DIGITS, meaning, push_number};
use json_text::Notation;
use near_names::{NameSet, add_field};
use std::alloc::{AllocError, Global};
use warnings::{Class, Warning, count_before, text_of};
use words::push_decimal;
use yayul::{
    FaultKind, Finding, Language, ReadLine, Reading, SourceLines, is_count, is_digits, reading_of,
};

/// The most faults of a source that are told with labels of other lines.
const MOST_FAULTS: usize = 100;

/// The lines of the faults and the warnings of a source, which has this name, in the order of lines, and what is said
/// where it has faults and is a file of another kind; as text, or as JSON in an object each.
#[tactic(auto, unfolding(crate::specs::Report::report))]
pub fn report(
    alloc: Global,
    notation: Notation,
    name: &[u8],
    source: &SourceLines<'_>,
    faults: &[Finding],
    warnings: &[Warning],
) -> Result<Vec<u8>, AllocError>
    ensures { IfOk result (λ text. text.items
        ≡ report notation source.now.language name.now source.now.text faults.now warnings.now) }
{
    let told = SourceRead {
        notation,
        name,
        read: source,
    };
    let mut out = Vec::new(alloc);
    push_told(alloc, &mut out, &told, faults, warnings)?;
    push_kind(&mut out, &told, faults)?;
    Ok(out)
}

// Appends the lines of the faults and of the warnings: those of lines of the interpretive language are told by the
// first.
#[tactic(auto, unfolding(crate::specs::Report::told_text))]
fn push_told(
    alloc: Global,
    out: &mut Vec<u8>,
    source: &SourceRead<'_, '_, '_>,
    faults: &[Finding],
    warnings: &[Warning],
) -> Result<(), AllocError>
    ensures { OnOk result (out.new.items ≡ out.old.items ++ told_text source.now.notation (language_in source.now)
        source.now.name.now (all_lines source.now) faults.now warnings.now) }
{
    let count = count_before_first(source.read, faults);
    let (earlier, rest) = faults.split_at(count);
    push_told_around(alloc, out, source, earlier, rest, warnings)
}

// Appends those of some faults, and of faults of which the first is of the interpretive language.
fn push_told_around(
    alloc: Global,
    out: &mut Vec<u8>,
    source: &SourceRead<'_, '_, '_>,
    earlier: &[Finding],
    rest: &[Finding],
    warnings: &[Warning],
) -> Result<(), AllocError>
    ensures { OnOk result (out.new.items ≡ out.old.items ++ told_around source.now.notation (language_in source.now)
        source.now.name.now (all_lines source.now) earlier.now rest.now warnings.now) }
{
    let told = first_and_others(alloc, source.read, rest)?;
    let labels = sought_labels(alloc, source, earlier.len() + told.len())?;
    let count = rest.len().saturating_sub(told.len()) + 1;
    push_around(alloc, out, source, &labels, count, earlier, &told, warnings)
}

// Appends those of some faults, and of faults of which the first is of the interpretive language, and stands for so
// many.
fn push_around(
    alloc: Global,
    out: &mut Vec<u8>,
    source: &SourceRead<'_, '_, '_>,
    labels: &NameSet,
    count: usize,
    earlier: &[Finding],
    rest: &[Finding],
    warnings: &[Warning],
) -> Result<(), AllocError>
    ensures { OnOk result (out.new.items ≡ out.old.items ++ listed_around source.now.notation (language_in source.now)
        source.now.name.now labels.now (all_lines source.now) count earlier.now rest.now warnings.now) }
{
    let (warned, left) = warnings.split_at(warned_before(rest, warnings));
    push_merged(out, source, labels, earlier, warned)?;
    push_from(alloc, out, source, labels, count, rest, left)
}

// How many of some warnings stand before the line of the first of some faults, all where there is none.
fn warned_before(faults: &[Finding], warnings: &[Warning]) -> usize
    ensures value { result ≡ warned_before faults.now warnings.now }
    ensures within { result ≤ length warnings.now }
{
    match faults.split_first() {
        Some((first, _)) => count_before(first.line, warnings),
        None => warnings.len(),
    }
}

// Appends the lines of faults and warnings, of which the first fault is of the interpretive language, and stands for so
// many.
fn push_from(
    alloc: Global,
    out: &mut Vec<u8>,
    source: &SourceRead<'_, '_, '_>,
    labels: &NameSet,
    count: usize,
    faults: &[Finding],
    warnings: &[Warning],
) -> Result<(), AllocError>
    ensures { OnOk result (out.new.items ≡ out.old.items ++ listed_from source.now.notation (language_in source.now)
        source.now.name.now labels.now (all_lines source.now) count faults.now warnings.now) }
{
    match faults.split_first() {
        Some((first, others)) => {
            push_interpretive(alloc, out, source, count, first)?;
            push_merged(out, source, labels, others, warnings)
        }
        None => push_merged(out, source, labels, faults, warnings),
    }
}

// Appends the lines of the first fault of the interpretive language, which stands for so many.
fn push_interpretive(
    alloc: Global,
    out: &mut Vec<u8>,
    source: &SourceRead<'_, '_, '_>,
    count: usize,
    first: &Finding,
) -> Result<(), AllocError>
    ensures { OnOk result (out.new.items ≡ out.old.items
        ++ interpretive_text source.now.notation (language_in source.now)
        source.now.name.now (all_lines source.now) count first.now) }
{
    let (text, parts) = line_at(source.read, u64::from(first.line));
    let mut lines = Vec::new(alloc);
    push_counted(&mut lines, count, b"line")?;
    let note = Note {
        told: Told::error(first),
        name: source.name,
        text,
        parts,
        beside: &lines,
        other: None,
        cause: interpretive_cause(),
    };
    push_finding(out, source.notation, &note)
}

// Appends what is said of a source with faults that is a file of another kind.
fn push_kind(
    out: &mut Vec<u8>,
    source: &SourceRead<'_, '_, '_>,
    faults: &[Finding],
) -> Result<(), AllocError>
    ensures { OnOk result (out.new.items ≡ out.old.items ++ (if length faults.now == 0 then [] else
        kind_of_source source.now.notation source.now.name.now source.now.read.now.text)) }
{
    if faults.is_empty() {
        Ok(())
    } else {
        push_kind_of_source(out, source.notation, source.name, source.read.text())
    }
}

/// How many faults and how many warnings there are, as a line of text or as JSON in an object.
pub fn counts(
    alloc: Global,
    notation: Notation,
    faults: usize,
    warnings: usize,
) -> Result<Vec<u8>, AllocError>
    ensures { IfOk result (λ text. text.items ≡ count_text notation faults warnings) }
{
    let mut out = Vec::new(alloc);
    match notation {
        Notation::Text => push_counts(&mut out, faults, warnings)?,
        Notation::Json => push_count_object(&mut out, faults, warnings)?,
    }
    Ok(out)
}

/// The line that tells that a file of this name could not be read whole, by the number of why.
pub fn refused_file(alloc: Global, name: &[u8], number: u8) -> Result<Vec<u8>, AllocError>
    ensures { IfOk result (λ text. text.items ≡ refused_file name.now number) }
{
    let mut out = Vec::new(alloc);
    out.extend_from_slice(name)?;
    out.extend_from_slice(b": error E")?;
    push_number(&mut out, u64::from(number))?;
    out.extend_from_slice(b": ")?;
    out.extend_from_slice(meaning(number))?;
    out.extend_from_slice(b"\n")?;
    Ok(out)
}

// The labels that so many faults are told with: those of all lines, where few are told.
fn sought_labels(
    alloc: Global,
    source: &SourceRead<'_, '_, '_>,
    count: usize,
) -> Result<NameSet, AllocError>
    ensures { IfOk result (λ labels. labels ≡ sought_labels (language_in source.now) (all_lines source.now) count) }
{
    if (1..=MOST_FAULTS).contains(&count) {
        labels_of(alloc, source.read)
    } else {
        Ok(NameSet::new(alloc))
    }
}

// The labels of a source, each once.
fn labels_of(alloc: Global, source: &SourceLines<'_>) -> Result<NameSet, AllocError>
    ensures { IfOk result (λ labels. labels ≡ labels_of source.now.language (lines source.now.text)) }
{
    let mut labels = NameSet::new(alloc);
    add_labels(&mut labels, source.lines())?;
    add_labels_beyond(&mut labels, source.language(), beyond(source))?;
    Ok(labels)
}

// Adds the labels of some lines.
fn add_labels(labels: &mut NameSet, lines: &[ReadLine<'_>]) -> Result<(), AllocError>
    ensures { OnOk result (labels.new
        ≡ fold (λ labels line. with_label labels (parts_on line)) labels.old lines.now) }
{
    for line in lines {
        add_label(labels, &line.reading())?;
    }
    Ok(())
}

// Adds the labels of the lines of a text, which were not read.
fn add_labels_beyond(
    labels: &mut NameSet,
    language: Language,
    text: &[u8],
) -> Result<(), AllocError>
    ensures { OnOk result (labels.new
        ≡ fold (λ labels text. with_label labels (parts_for language text)) labels.old (lines text.now)) }
{
    let mut rest = text;
    while let Some((line, after)) = next_line(rest) {
        add_label(labels, &reading_of(language, line))?;
        rest = after;
    }
    Ok(())
}

// Adds the label of a line, where the line may have one and it may have the form of one.
fn add_label(labels: &mut NameSet, parts: &Reading<'_>) -> Result<(), AllocError>
    ensures { OnOk result (labels.new ≡ with_label labels.old (parts_in parts.now)) }
{
    if may_be_label(text_of(parts.label)) && takes_label(parts) {
        add_field(labels, parts.label)
    } else {
        Ok(())
    }
}

// Whether a text may have a label's form: it is no number, alone or behind a sign, and holds no `$`.
fn may_be_label(text: &[u8]) -> bool
    ensures { result ≡ may_be_label text.now }
{
    !is_digits(text) && !is_count(text) && !holds(b'$', text)
}

// Appends the lines of faults and warnings, in the order of lines.
fn push_merged(
    out: &mut Vec<u8>,
    source: &SourceRead<'_, '_, '_>,
    labels: &NameSet,
    faults: &[Finding],
    warnings: &[Warning],
) -> Result<(), AllocError>
    ensures { OnOk result (out.new.items ≡ out.old.items ++ listed source.now.notation (language_in source.now)
        source.now.name.now labels.now (all_lines source.now) faults.now warnings.now) }
{
    let mut rest = warnings;
    for fault in faults {
        let (earlier, later) = rest.split_at(count_before(fault.line, rest));
        push_warnings(out, source, earlier)?;
        push_shown_error(out, source, labels, fault)?;
        rest = later;
    }
    push_warnings(out, source, rest)
}

// Appends the lines of some warnings.
fn push_warnings(
    out: &mut Vec<u8>,
    source: &SourceRead<'_, '_, '_>,
    warnings: &[Warning],
) -> Result<(), AllocError>
    ensures { OnOk result (out.new.items ≡ out.old.items ++ flat_map (shown_warning source.now.notation
        (language_in source.now) source.now.name.now (all_lines source.now)) warnings.now) }
{
    for warning in warnings {
        push_shown_warning(out, source, warning)?;
    }
    Ok(())
}

// Appends the lines of a warning.
#[tactic(auto, unfolding(crate::specs::Report::warning_text))]
fn push_shown_warning(
    out: &mut Vec<u8>,
    source: &SourceRead<'_, '_, '_>,
    warning: &Warning,
) -> Result<(), AllocError>
    ensures { OnOk result (out.new.items ≡ out.old.items ++ shown_warning source.now.notation (language_in source.now)
        source.now.name.now (all_lines source.now) warning.now) }
{
    let (text, parts) = line_at(source.read, u64::from(warning.line));
    let note = Note {
        told: Told::warning(warning),
        name: source.name,
        text,
        parts,
        beside: b"",
        other: None,
        cause: caution_cause(&parts, warning),
    };
    push_finding(out, source.notation, &note)
}

// Appends the lines of a fault.
fn push_shown_error(
    out: &mut Vec<u8>,
    source: &SourceRead<'_, '_, '_>,
    labels: &NameSet,
    fault: &Finding,
) -> Result<(), AllocError>
    ensures { OnOk result (out.new.items ≡ out.old.items ++ shown_error source.now.notation (language_in source.now)
        source.now.name.now labels.now (all_lines source.now) fault.now) }
{
    let (text, parts) = line_at(source.read, u64::from(fault.line));
    push_shown_line(out, source, labels, text, &parts, fault)
}

// Appends the lines of a fault of a line with some fields: an E18 names the line below that defines its symbol.
#[tactic(auto, unfolding(crate::specs::Report::shown_line))]
fn push_shown_line<'a>(
    out: &mut Vec<u8>,
    source: &SourceRead<'_, '_, 'a>,
    labels: &NameSet,
    text: &'a [u8],
    parts: &Reading<'a>,
    fault: &Finding,
) -> Result<(), AllocError>
    ensures { OnOk result (out.new.items ≡ out.old.items ++ shown_line source.now.notation (language_in source.now)
        source.now.name.now labels.now (all_lines source.now) text.now (parts_in parts.now) fault.now) }
{
    match line_below(source, labels, parts, fault) {
        Some(line) => push_below(out, source, text, parts, fault, line),
        None => push_beside(out, source, labels, text, parts, fault),
    }
}

// Appends the lines of an E18 whose symbol a line below defines.
#[tactic(auto, using(words::proofs::Digits::short_decimal))]
fn push_below<'a>(
    out: &mut Vec<u8>,
    source: &SourceRead<'_, '_, 'a>,
    text: &'a [u8],
    parts: &Reading<'a>,
    fault: &Finding,
    line: u64,
) -> Result<(), AllocError>
    ensures { OnOk result (out.new.items ≡ out.old.items ++ told_in source.now.notation source.now.name.now text.now
        (parts_in parts.now) (decimal line) (Some (place_of (language_in source.now) (all_lines source.now) line))
        (as_error fault.now) below_cause) }
{
    let mut digits = ArrayVec::<u8, DIGITS>::new();
    push_decimal(&mut digits, line);
    let other = Some(place_on(source.read, line));
    let line = digits.as_slice();
    let told = Told::error(fault);
    let cause = below_cause();
    let note = Note {
        told,
        name: source.name,
        text,
        parts: *parts,
        beside: line,
        other,
        cause,
    };
    push_finding(out, source.notation, &note)
}

// The first line that has the symbol of an E18 as its label, where that stands below.
fn line_below(
    source: &SourceRead<'_, '_, '_>,
    labels: &NameSet,
    parts: &Reading<'_>,
    fault: &Finding,
) -> Option<u64>
    ensures { result ≡ line_below (language_in source.now) labels.now (all_lines source.now) (parts_in parts.now)
        fault.now }
{
    let symbol = text_of(parts.operand);
    if !matches!(fault.kind, FaultKind::UsedTooEarly)
        || !needs_value(source.read.language(), parts)
        || !labels.has(symbol)
    {
        return None;
    }
    let line = first_line(source, symbol);
    if u64::from(fault.line) < line {
        Some(line)
    } else {
        None
    }
}

// Whether a symbol needs its value on a line that names it: not on one of a flight source whose label may wait for
// that.
fn needs_value(language: Language, parts: &Reading<'_>) -> bool
    ensures { result ≡ needs_value language (parts_in parts.now) }
{
    match language {
        Language::Standard => true,
        Language::Flight => !Class::Equals.has(parts.role),
    }
}

// Appends the lines of a fault of a line with some fields, with what it is told with from other lines.
#[tactic(auto, using(words::proofs::Digits::short_decimal), unfolding(crate::specs::Report::beside_text))]
fn push_beside<'a>(
    out: &mut Vec<u8>,
    source: &SourceRead<'_, '_, 'a>,
    labels: &NameSet,
    text: &'a [u8],
    parts: &Reading<'a>,
    fault: &Finding,
) -> Result<(), AllocError>
    ensures { OnOk result (out.new.items ≡ out.old.items ++ beside_text source.now.notation (language_in source.now)
        source.now.name.now labels.now (all_lines source.now) text.now (parts_in parts.now) fault.now) }
{
    match line_beside(source, labels, parts, fault) {
        Some(line) => {
            let mut digits = ArrayVec::<u8, DIGITS>::new();
            push_decimal(&mut digits, line);
            let place = Some(place_on(source.read, line));
            let line = Some(digits.as_slice());
            push_error(out, source, text, parts, line, place, fault)
        }
        None => {
            let near = near_label(labels, parts, fault.kind);
            push_error(out, source, text, parts, near, None, fault)
        }
    }
}

// The line that a fault is told with: the one whose word stands already where its own would, or the first that has its
// label.
fn line_beside(
    source: &SourceRead<'_, '_, '_>,
    labels: &NameSet,
    parts: &Reading<'_>,
    fault: &Finding,
) -> Option<u64>
    ensures { result ≡ line_beside (language_in source.now) labels.now (all_lines source.now) (parts_in parts.now)
        fault.now }
{
    match fault.taken_by {
        Some(line) => Some(u64::from(line)),
        None => match told_by_line(labels, parts, fault.kind) {
            Some(label) => Some(first_line(source, label)),
            None => None,
        },
    }
}

// The label whose first line a fault is told with.
fn told_by_line<'a>(labels: &NameSet, parts: &Reading<'a>, kind: FaultKind) -> Option<&'a [u8]>
    ensures { option_map (λ label. label.now) result ≡ told_by_line labels.now (parts_in parts.now) kind }
{
    match kind {
        FaultKind::TwiceDefined => as_label(labels, text_of(parts.label)),
        FaultKind::WrongKindOfAddress | FaultKind::OutOfRange => {
            as_label(labels, text_of(parts.operand))
        }
        _ => None,
    }
}

// A name, where it is a label.
fn as_label<'a>(labels: &NameSet, name: &'a [u8]) -> Option<&'a [u8]>
    ensures { option_map (λ label. label.now) result ≡ as_label labels.now name.now }
{
    if labels.has(name) { Some(name) } else { None }
}

// The number of the first line that has a label.
fn first_line(source: &SourceRead<'_, '_, '_>, label: &[u8]) -> u64
    ensures { result ≡ first_line (language_in source.now) (all_lines source.now) label.now }
{
    let lines = source.read.lines();
    let count = count_before_label(lines, label);
    if count < lines.len() {
        return count as u64 + 1;
    }
    let later = count_before_label_beyond(source.read.language(), beyond(source.read), label);
    count as u64 + later + 1
}

// How many of some lines stand before the first that has a label: all, where none has.
fn count_before_label(lines: &[ReadLine<'_>], label: &[u8]) -> usize
    ensures value { result ≡ position_or_len (has_label_on label.now) lines.now }
    ensures within { result ≤ length lines.now }
{
    for (index, line) in lines.iter().enumerate() {
        if has_label(&line.reading(), label) {
            return index;
        }
    }
    lines.len()
}

// How many lines of a text, which were not read, stand before the first that has a label: all, where none has.
fn count_before_label_beyond(language: Language, text: &[u8], label: &[u8]) -> u64
    ensures value { result ≡ position_or_len (has_label language label.now) (lines text.now) }
    ensures within { result ≤ length text.now }
{
    let mut count = 0;
    let mut rest = text;
    while let Some((line, after)) = next_line(rest) {
        if has_label(&reading_of(language, line), label) {
            return count;
        }
        count += 1;
        rest = after;
    }
    count
}

// Whether a line has a label.
fn has_label(parts: &Reading<'_>, label: &[u8]) -> bool
    ensures { result ≡ (same_name (text_of (parts_in parts.now).label) label.now && takes_label (parts_in parts.now)) }
{
    text_of(parts.label) == label && takes_label(parts)
}

// Whether a line may have a label: its operator, if any, takes one.
fn takes_label(parts: &Reading<'_>) -> bool
    ensures { result ≡ takes_label (parts_in parts.now) }
{
    !Class::RefusesLabel.has(parts.role)
}

// Appends how many faults and how many warnings there are.
fn push_counts(out: &mut Vec<u8>, faults: usize, warnings: usize) -> Result<(), AllocError>
    ensures { OnOk result (out.new.items ≡ out.old.items ++ count_text Text faults warnings) }
{
    push_counted(out, faults, b"error")?;
    out.extend_from_slice(b", ")?;
    push_counted(out, warnings, b"warning")?;
    out.extend_from_slice(b"\n")?;
    Ok(())
}

// Appends how many there are of something.
fn push_counted(out: &mut Vec<u8>, count: usize, noun: &[u8]) -> Result<(), AllocError>
    ensures { OnOk result (out.new.items ≡ out.old.items ++ counted count noun.now) }
{
    push_number(out, count as u64)?;
    out.extend_from_slice(b" ")?;
    out.extend_from_slice(noun)?;
    if count != 1 {
        out.extend_from_slice(b"s")?;
    }
    Ok(())
}
