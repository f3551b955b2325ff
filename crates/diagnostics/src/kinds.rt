//! What is said of a file that is of another kind than the one that is asked for.

ghost use Rattle.std.specs.Prelude.{◌≡◌, ◌++◌, ◌==◌, length, not, OnOk};
ghost use Rattle.agc_text.specs.Fields.{fields, runs, texts};
ghost use Rattle.agc_text.specs.Lines.{lines};
ghost use Rattle.json_text.specs.declared.notation.Notation.TheVariants.{Text};
ghost use Rattle.diagnostics.specs.Kinds.{is_input, is_image, begins_series, is_of_feed, is_of_source, first_said};
ghost use Rattle.diagnostics.specs.Kinds.{note, kind_of_source, kind_of_feed};

use crate::objects::push_file_object;
use agc_text::{before_comment, next_line, split_field};
use feed::{is_cycle, parse_line};
use json_text::Notation;
use std::alloc::AllocError;
use yayul::{Language, reading_of};

/// The bytes of a rope image.
const IMAGE_LENGTH: usize = 73_728;

/// Appends what is said of a file with faults that is no source: an image, or a feed.
#[tactic(auto, unfolding(crate::specs::Kinds::kind_of_source))]
pub(crate) fn push_kind_of_source(
    out: &mut Vec<u8>,
    notation: Notation,
    name: &[u8],
    text: &[u8],
) -> Result<(), AllocError>
    ensures { OnOk result (out.new.items ≡ out.old.items ++ kind_of_source notation name.now text.now) }
{
    if is_image(text) {
        let words =
            b"this is a rope image, and no source: run, trace, cover and debug take it with --image";
        push_note(out, notation, name, words)?;
    } else if is_of_feed(first_said(text)) {
        let words = b"this is a feed, and no source: it stands after the source";
        push_note(out, notation, name, words)?;
    }
    Ok(())
}

/// Appends what is said of a file with a fault that is no feed: an image, or a source.
#[tactic(auto, unfolding(crate::specs::Kinds::kind_of_feed))]
pub(crate) fn push_kind_of_feed(
    out: &mut Vec<u8>,
    notation: Notation,
    name: &[u8],
    text: &[u8],
) -> Result<(), AllocError>
    ensures { OnOk result (out.new.items ≡ out.old.items ++ kind_of_feed notation name.now text.now) }
{
    if is_image(text) {
        let words =
            b"this is a rope image, and no feed: run, trace, cover and debug take it with --image, before the feed";
        push_note(out, notation, name, words)?;
    } else if is_of_source(first_said(text)) {
        push_note(
            out,
            notation,
            name,
            b"this is a source, and no feed: it stands first",
        )?;
    }
    Ok(())
}

// Appends what is said of a file, in a notation.
fn push_note(
    out: &mut Vec<u8>,
    notation: Notation,
    name: &[u8],
    words: &[u8],
) -> Result<(), AllocError>
    ensures { OnOk result (out.new.items ≡ out.old.items ++ note notation name.now words.now) }
{
    match notation {
        Notation::Text => push_note_text(out, name, words),
        Notation::Json => push_file_object(out, name, words),
    }
}

// The same as text.
fn push_note_text(out: &mut Vec<u8>, name: &[u8], words: &[u8]) -> Result<(), AllocError>
    ensures { OnOk result (out.new.items ≡ out.old.items ++ note Text name.now words.now) }
{
    out.extend_from_slice(name)?;
    out.extend_from_slice(b": ")?;
    out.extend_from_slice(words)?;
    out.extend_from_slice(b"\n")?;
    Ok(())
}

/// Whether an input that is no series stands on a line.
pub(crate) fn is_input(text: &[u8]) -> bool
    ensures { result ≡ is_input text.now }
{
    parse_line(text).is_ok()
}

// As many bytes as an image has, one of them 0.
fn is_image(text: &[u8]) -> bool
    ensures { result ≡ is_image text.now }
{
    text.len() == IMAGE_LENGTH && text.contains(&0)
}

// An input, or the beginning of a series.
fn is_of_feed(text: &[u8]) -> bool
    ensures { result ≡ is_of_feed text.now }
{
    is_input(text) || begins_series(before_comment(text))
}

// EVERY with a cycle.
fn begins_series(text: &[u8]) -> bool
    ensures { result ≡ begins_series (texts (runs text.now)) }
{
    let Some((first, rest)) = split_field(text) else {
        return false;
    };
    let Some((second, _)) = split_field(rest) else {
        return false;
    };
    first == "EVERY".as_bytes() && is_cycle(second)
}

// An operator of the source language, after a label or without one.
fn is_of_source(text: &[u8]) -> bool
    ensures { result ≡ is_of_source text.now }
{
    reading_of(Language::Standard, text).role.is_some()
}

// The first line of a text that has a field; one without a byte where none has one.
fn first_said(text: &[u8]) -> &[u8]
    ensures { result.now ≡ first_said (lines text.now) }
{
    let mut rest = text;
    while let Some((line, after)) = next_line(rest) {
        if has_field(line) {
            return line;
        }
        rest = after;
    }
    &[]
}

/// Whether a line has a field.
pub(crate) fn has_field(text: &[u8]) -> bool
    ensures { result ≡ not (length (fields text.now) == 0) }
{
    split_field(before_comment(text)).is_some()
}
