//! Lines of the interpretive language, which is not taken: which faults of a flight source are of it, and which are
//! told.

ghost use Rattle.std.specs.Prelude.{◌≡◌, ◌≤◌, ◌++◌, ◌+◌, drop, length, map, IfOk, OnOk};
ghost use Rattle.std.specs.List.{position_or_len};
ghost use Rattle.agc_text.specs.Lines.{lines};
ghost use Rattle.yayul.specs.Readings.{parts_in};
ghost use Rattle.diagnostics.specs.Interpretive.{has_field, interpretive_operators, is_exit, parts_at, is_interpretive};
ghost use Rattle.diagnostics.specs.Interpretive.{is_of_operator, is_operand_alone, next_said, operand_line};
ghost use Rattle.diagnostics.specs.Interpretive.{is_of_interpreter, others, first_and_others, count_before_first};
ghost use Rattle.diagnostics.specs.Interpretive.{interpretive_cause};
ghost use Rattle.diagnostics.specs.Views.{cause_in};
ghost use Rattle.diagnostics.specs.Interpretive.{has_operator};

use crate::causes::Cause;
use crate::kinds::has_field;
use crate::lines::{beyond, line_at, text_beyond};
use agc_text::next_line;
use near_names::is_among;
use std::alloc::{AllocError, Global};
use warnings::text_of;
use yayul::{FaultKind, Finding, Language, ReadLine, Reading, SourceLines, is_count, reading_of};

/// What is said of the lines: `~` stands for how many they are.
pub(crate) fn interpretive_cause() -> Cause
    ensures { cause_in result ≡ interpretive_cause }
{
    Cause::said(b"the interpretive language is not taken: ~ from this one on")
}

/// The first of some faults, which stands for all of lines of the interpretive language, and those of the others that
/// are of none.
pub(crate) fn first_and_others(
    alloc: Global,
    source: &SourceLines<'_>,
    faults: &[Finding],
) -> Result<Vec<Finding>, AllocError>
    ensures { IfOk result (λ told. told.items ≡ first_and_others (lines source.now.text) faults.now) }
{
    let mut told = Vec::new(alloc);
    if let Some((first, rest)) = faults.split_first() {
        told.push(*first)?;
        push_others(source, operand_line(source, first.line), rest, &mut told)?;
    }
    Ok(told)
}

/// How many faults stand before the first of a line of the interpretive language.
pub(crate) fn count_before_first(source: &SourceLines<'_>, faults: &[Finding]) -> usize
    ensures value { result ≡ count_before_first source.now.language (lines source.now.text) faults.now }
    ensures within { result ≤ length faults.now }
{
    let language = source.language();
    for (index, fault) in faults.iter().enumerate() {
        if is_interpretive(language, source, fault) {
            return index;
        }
    }
    faults.len()
}

// Appends those of some faults that are of no line of the interpretive language, an operand of which may stand on a
// line.
fn push_others(
    source: &SourceLines<'_>,
    operand: u64,
    faults: &[Finding],
    told: &mut Vec<Finding>,
) -> Result<(), AllocError>
    ensures { OnOk result (told.new.items ≡ told.old.items ++ others (lines source.now.text) operand faults.now) }
{
    let mut operand = operand;
    for fault in faults {
        if is_of_interpreter(source, operand, fault) {
            operand = operand_line(source, fault.line);
        } else {
            told.push(*fault)?;
        }
    }
    Ok(())
}

// Whether the operator is one of some. It is brought into its callers with its names.
#[inline(always)]
fn has_operator(names: &[&str], parts: &Reading<'_>) -> bool
    ensures { result ≡ has_operator (map (λ name. name.now) names.now) (parts_in parts.now) }
{
    match parts.operator {
        Some(operator) => is_among(names, operator.text),
        None => false,
    }
}

/// Whether the operator is one of the interpretive language.
pub fn has_interpretive_operator(parts: &Reading<'_>) -> bool
    ensures { result ≡ has_operator interpretive_operators (parts_in parts.now) }
{
    has_operator(interpretive_operators(), parts)
}

// Whether a fault is of an operator of the interpretive language, which is none of a flight source.
fn is_interpretive(language: Language, source: &SourceLines<'_>, fault: &Finding) -> bool
    ensures { result ≡ is_interpretive language (lines source.now.text) fault.now }
{
    match language {
        Language::Standard => false,
        Language::Flight => {
            is_of_operator(fault.kind)
                && has_operator(interpretive_operators(), &parts_at(source, fault.line))
        }
    }
}

// Whether a fault is of a line of the interpretive language, an operand of which may stand on another.
fn is_of_interpreter(source: &SourceLines<'_>, operand: u64, fault: &Finding) -> bool
    ensures { result ≡ is_of_interpreter (lines source.now.text) operand fault.now }
{
    is_interpretive(Language::Flight, source, fault)
        || (is_of_operator(fault.kind)
            && u64::from(fault.line) == operand
            && is_operand_alone(&parts_at(source, fault.line)))
}

// Whether a fault is that an operator is none.
fn is_of_operator(kind: FaultKind) -> bool
    ensures { result ≡ is_of_operator kind }
{
    matches!(kind, FaultKind::UnknownOperator)
}

// Whether one field stands on a line, or one and an offset, behind a blank.
fn is_operand_alone(parts: &Reading<'_>) -> bool
    ensures { result ≡ is_operand_alone (parts_in parts.now) }
{
    let moved = match parts.operand {
        Some(offset) => is_count(offset.text),
        None => true,
    };
    parts.label.is_none() && moved && parts.offset.is_none()
}

// The number of the line on which an operand of the interpretive language may stand, after a line of that; 0 after
// EXIT.
fn operand_line(source: &SourceLines<'_>, line: u32) -> u64
    ensures { result ≡ operand_line (lines source.now.text) line }
{
    if is_exit(&parts_at(source, line)) {
        0
    } else {
        next_said(source, line)
    }
}

/// EXIT, after which lines of the machine's own language stand.
pub fn is_exit(parts: &Reading<'_>) -> bool
    ensures { result ≡ is_exit (parts_in parts.now) }
{
    text_of(parts.operator) == b"EXIT".as_slice()
}

// The number of the first line after another that has a field, or of the one after the last.
#[tactic(auto, using(crate::proofs::ReadTexts::field_read, crate::proofs::ReadTexts::field_beyond))]
fn next_said(source: &SourceLines<'_>, line: u32) -> u64
    ensures { result ≡ next_said (lines source.now.text) line }
{
    let lines = source.lines();
    let after = lines_after(lines, line as usize);
    let count = count_before_field(after);
    if count < after.len() {
        return u64::from(line) + count as u64 + 1;
    }
    let passed = (line as usize).saturating_sub(lines.len());
    let later = count_before_field_beyond(text_beyond(beyond(source), passed));
    u64::from(line) + count as u64 + later + 1
}

// Those of some lines that stand after so many.
fn lines_after<'a, 'b>(lines: &'b [ReadLine<'a>], count: usize) -> &'b [ReadLine<'a>]
    ensures { result.now ≡ drop count lines.now }
{
    &lines[count.min(lines.len())..]
}

// The fields of a line of a flight source, by its number.
fn parts_at<'a>(source: &SourceLines<'a>, line: u32) -> Reading<'a>
    ensures { parts_in result ≡ parts_at (lines source.now.text) line }
{
    let (text, parts) = line_at(source, u64::from(line));
    match source.language() {
        Language::Flight => parts,
        Language::Standard => reading_of(Language::Flight, text),
    }
}

// How many of some lines stand before the first that has a field.
fn count_before_field(lines: &[ReadLine<'_>]) -> usize
    ensures value { result ≡ position_or_len (λ line. has_field line.text) lines.now }
    ensures within { result ≤ length lines.now }
{
    for (index, line) in lines.iter().enumerate() {
        if has_field(line.text()) {
            return index;
        }
    }
    lines.len()
}

// How many lines of a text, which were not read, stand before the first that has a field.
fn count_before_field_beyond(text: &[u8]) -> u64
    ensures value { result ≡ position_or_len has_field (lines text.now) }
    ensures within { result ≤ length text.now }
{
    let mut count = 0;
    let mut rest = text;
    while let Some((line, after)) = next_line(rest) {
        if has_field(line) {
            return count;
        }
        count += 1;
        rest = after;
    }
    count
}

const INTERPRETIVE_OPERATORS: [&str; 164] = [
    "STORE", "STCALL", "STODL", "STODL*", "STOVL", "STOVL*", "DLOAD", "DLOAD*", "SLOAD", "SLOAD*",
    "TLOAD", "VLOAD", "VLOAD*", "PDDL", "PDDL*", "PDVL", "PDVL*", "PUSH", "SETPD", "STADR", "DAD",
    "DAD*", "TAD", "DSU", "DSU*", "BDSU", "BDSU*", "DMP", "DMP*", "DMPR", "DDV", "DDV*", "BDDV",
    "DSQ", "SQRT", "SIN", "SINE", "COS", "COSINE", "ASIN", "ARCSIN", "ACOS", "ARCCOS", "DCOMP",
    "ABS", "SIGN", "ROUND", "NORM", "VAD", "VAD*", "VSU", "VSU*", "BVSU", "BVSU*", "VXSC", "VXSC*",
    "V/SC", "VXV", "VXV*", "DOT", "DOT*", "VPROJ", "VXM", "VXM*", "MXV", "MXV*", "UNIT", "ABVAL",
    "VCOMP", "VSQ", "VDEF", "SL", "SL*", "SLR", "SR", "SR*", "SRR", "SL1", "SL2", "SL3", "SL4",
    "SR1", "SR2", "SR3", "SR4", "SL1R", "SL2R", "SL3R", "SL4R", "SR1R", "SR2R", "SR3R", "SR4R",
    "VSL", "VSL*", "VSR", "VSR*", "VSL1", "VSL2", "VSL3", "VSL4", "VSL5", "VSL6", "VSL7", "VSL8",
    "VSR1", "VSR2", "VSR3", "VSR4", "VSR5", "VSR6", "VSR7", "VSR8", "GOTO", "GOTO*", "CALL",
    "CALL*", "CGOTO", "CCALL", "RTB", "RVQ", "STQ", "EXIT", "BPL", "BMN", "BZE", "BHIZ", "BOV",
    "BOVB", "SET", "CLEAR", "CLR", "INVERT", "SETGO", "CLRGO", "BON", "BOFF", "BONSET", "BONCLR",
    "BONINV", "BOFSET", "BOFCLR", "BOFINV", "AXT,1", "AXT,2", "AXC,1", "AXC,2", "LXA,1", "LXA,2",
    "LXC,1", "LXC,2", "SXA,1", "SXA,2", "XCHX,1", "XCHX,2", "INCR,1", "INCR,2", "XAD,1", "XAD,2",
    "XSU,1", "XSU,2", "TIX,1", "TIX,2", "SSP",
];

fn interpretive_operators() -> &'static [&'static str]
    ensures { map (λ name. name.now) result.now ≡ interpretive_operators }
{
    &INTERPRETIVE_OPERATORS
}
