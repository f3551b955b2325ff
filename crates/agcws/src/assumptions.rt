//! What is assumed of forms of flight sources that are not certain.

use crate::files::{no_memory, opened};
use crate::refuse_arguments;
use agc_text::{before_comment, next_line};
use assumed::{Wording, assumed_rows, source_assumed};
use plans::Original;
use words::{MOST_BYTES, Write, read_text, write_all};
use workshop::WorkshopFault;

/// What is said where a wording is none that may be assumed.
const NO_WORDING: &[u8] =
    b"error: --assume takes these, with commas between them, or @FILE with lines of them: MM=DEC, NV=VN, 2BCADR=2CADR, \
        DNPTR=CA, BBCON*=66100, ERASE=COUNT, ERASE=EQUALS, 8=8D\n";

/// Wordings that are asked for.
#[derive(Drop)]
pub enum Assumptions {
    /// These.
    Made(Vec<Wording>),
    /// One of them is none.
    Unknown,
}

/// What is assumed of a source: what the option names, or a file does; nothing without it.
pub fn asked_wordings(rt: &HostRuntime, asked: Option<&str>) -> Result<Assumptions, WorkshopFault> {
    let Some(asked) = asked else {
        return Ok(Assumptions::Made(Vec::new(rt.alloc())));
    };
    match asked.strip_prefix('@') {
        Some(path) => {
            let mut file = opened(rt, path)?;
            let text = read_text(rt.alloc(), &mut file, MOST_BYTES)?;
            wordings_in(rt, &text)
        }
        None => wordings_in(rt, asked.as_bytes()),
    }
}

/// The wordings of a text: blanks, commas and line feeds part them, and `#` begins a comment.
fn wordings_in(rt: &HostRuntime, text: &[u8]) -> Result<Assumptions, WorkshopFault> {
    let mut wordings = Vec::new(rt.alloc());
    let mut rest = text;
    // (each line has a byte at least)
    for _ in 0..text.len() {
        let Some((line, following)) = next_line(rest) else {
            break;
        };
        rest = following;
        if !push_wordings(&mut wordings, before_comment(line))? {
            return Ok(Assumptions::Unknown);
        }
    }
    Ok(Assumptions::Made(wordings))
}

/// Appends the wordings of a line, and answers whether each part of it is one.
fn push_wordings(wordings: &mut Vec<Wording>, line: &[u8]) -> Result<bool, WorkshopFault> {
    let mut start = 0;
    for (place, byte) in line.iter().enumerate() {
        if is_parting(*byte) {
            if !push_wording(wordings, line.get(start..place).unwrap_or(&[]))? {
                return Ok(false);
            }
            start = place + 1;
        }
    }
    push_wording(wordings, line.get(start..).unwrap_or(&[]))
}

/// Whether a byte parts wordings.
fn is_parting(byte: u8) -> bool {
    byte == b' ' || byte == b'\t' || byte == b',' || byte == b'\r'
}

/// Appends the wording of a name, where it is one, and answers that; nothing stands between two that part.
fn push_wording(wordings: &mut Vec<Wording>, name: &[u8]) -> Result<bool, WorkshopFault> {
    if name.is_empty() {
        return Ok(true);
    }
    match Wording::named(name) {
        Some(wording) if wordings.push(wording).is_ok() => Ok(true),
        Some(_) => Err(WorkshopFault::NoMemory),
        None => Ok(false),
    }
}

/// Says that a wording is none.
pub fn refuse_wording(rt: &HostRuntime) -> Result<u8, WorkshopFault> {
    refuse_arguments(rt, NO_WORDING)
}

/// A source under assumptions.
pub fn under(
    rt: &HostRuntime,
    wordings: &[Wording],
    source: &[u8],
) -> Result<Vec<u8>, WorkshopFault> {
    source_assumed(rt.alloc(), wordings, source).map_err(no_memory)
}

/// Tells which lines of a source stand by an assumption.
pub fn tell_assumed<W: Write>(
    rt: &HostRuntime,
    source: &Original<'_>,
    wordings: &[Wording],
    text: &[u8],
    out: &mut W,
) -> Result<(), WorkshopFault> {
    let rows = assumed_rows(rt.alloc(), source.path.as_bytes(), wordings, text).map_err(no_memory)?;
    Ok(write_all(out, &rows)?)
}
