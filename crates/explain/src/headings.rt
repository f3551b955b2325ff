//! What the numbers of refusals mean, as text.

ghost use Rattle.std.specs.Prelude.{◌≡◌, ◌++◌, flat_map, IfOk, OnOk};
ghost use Rattle.explain.specs.Refusals.{numbers, heading, warning_numbers, warning_heading, note_headings};

use crate::cautions::{WARNING_NUMBERS, warning_meaning};
use crate::digits::push_number;
use crate::note_kinds::note_headings;
use crate::refusals::{NUMBERS, Refusal, meaning};
use std::alloc::{AllocError, Global};

/// What a refusal means, and what draws it.
pub fn explanation(alloc: Global, refusal: &Refusal) -> Result<Vec<u8>, AllocError>
    ensures { IfOk result (λ text. text.items ≡ heading refusal.now.number ++ refusal.now.causes.now) }
{
    let mut text = Vec::new(alloc);
    push_heading(&mut text, refusal.number)?;
    text.extend_from_slice(refusal.causes)?;
    Ok(text)
}

/// What a warning means, and what draws it.
pub fn warning_explanation(alloc: Global, warning: &Refusal) -> Result<Vec<u8>, AllocError>
    ensures { IfOk result (λ text. text.items ≡ warning_heading warning.now.number ++ warning.now.causes.now) }
{
    let mut text = Vec::new(alloc);
    push_warning_heading(&mut text, warning.number)?;
    text.extend_from_slice(warning.causes)?;
    Ok(text)
}

/// What each number means, in a line; those of refusals, and then those of warnings; and what each kind of notes means.
pub fn all_headings(alloc: Global) -> Result<Vec<u8>, AllocError>
    ensures { IfOk result (λ text. text.items
        ≡ flat_map heading numbers ++ flat_map warning_heading warning_numbers ++ note_headings) }
{
    let mut text = Vec::new(alloc);
    push_headings(&mut text, &NUMBERS)?;
    push_warning_headings(&mut text, &WARNING_NUMBERS)?;
    text.extend_from_slice(note_headings())?;
    Ok(text)
}

// Appends numbers of warnings, and what each means.
fn push_warning_headings(text: &mut Vec<u8>, numbers: &[u8]) -> Result<(), AllocError>
    ensures { OnOk result (text.new.items ≡ text.old.items ++ flat_map warning_heading numbers.now) }
{
    for number in numbers {
        push_warning_heading(text, *number)?;
    }
    Ok(())
}

// Appends the number of a warning, and what it means.
fn push_warning_heading(text: &mut Vec<u8>, number: u8) -> Result<(), AllocError>
    ensures { OnOk result (text.new.items ≡ text.old.items ++ warning_heading number) }
{
    text.extend_from_slice(b"W")?;
    push_number(text, u64::from(number))?;
    text.extend_from_slice(b": ")?;
    text.extend_from_slice(warning_meaning(number))?;
    text.extend_from_slice(b"\n")?;
    Ok(())
}

// Appends numbers, and what each means.
fn push_headings(text: &mut Vec<u8>, numbers: &[u8]) -> Result<(), AllocError>
    ensures { OnOk result (text.new.items ≡ text.old.items ++ flat_map heading numbers.now) }
{
    for number in numbers {
        push_heading(text, *number)?;
    }
    Ok(())
}

// Appends a number, and what it means.
fn push_heading(text: &mut Vec<u8>, number: u8) -> Result<(), AllocError>
    ensures { OnOk result (text.new.items ≡ text.old.items ++ heading number) }
{
    text.extend_from_slice(b"E")?;
    push_number(text, u64::from(number))?;
    text.extend_from_slice(b": ")?;
    text.extend_from_slice(meaning(number))?;
    text.extend_from_slice(b"\n")?;
    Ok(())
}
