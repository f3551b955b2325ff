//! What is known of a run beside its steps.

ghost use Rattle.std.specs.Prelude.{◌≡◌};
ghost use Rattle.expect.specs.Facts.{ask_for_check, ask_for_notes, ask_for_instructions, cited, facts_of, first_of};
ghost use Rattle.expect.specs.Facts.{is_of_check, is_of_notes, is_of_instructions, misses};
ghost use Rattle.agc_text.specs.Lines.{lines};

use crate::claim::{Claim, Stated};
use crate::kinds::first_other;
use agc_text::next_line;

/// What is known of a run beside its steps.
#[derive(Clone, Copy, Drop)]
pub struct Known<'a> {
    /// Its notes, a line each.
    pub notes: &'a [u8],
    /// What `check` tells of its source.
    pub report: &'a [u8],
    /// How many errors that are.
    pub errors: u64,
    /// How many warnings.
    pub warnings: u64,
    /// How many instructions of the program it has executed.
    pub executed: u64,
}

/// Whether it does not bear a claim out; the steps decide on the others.
pub(crate) fn misses(known: &Known<'_>, claim: &Claim) -> bool
    ensures { result ≡ misses (facts_of known.now) claim.now }
{
    match claim {
        Claim::Notes(allowed) => first_other(allowed, known.notes).is_some(),
        Claim::Check => !(known.errors == 0 && known.warnings == 0),
        Claim::Covered(least) => known.executed < *least,
        Claim::Puts(_) | Claim::PutsNoMore(_, _) => false,
        Claim::Always(_) | Claim::Never(_) | Claim::AtEnd(_) | Claim::At(_, _) => false,
        Claim::Calls(_, _) | Claim::CallsWithin(_, _) => false,
    }
}

/// The line that tells of a claim that is not borne out: the first other note, or what `check` tells first.
pub(crate) fn cited<'a>(known: &Known<'a>, claim: &Claim) -> &'a [u8]
    ensures { result.now ≡ cited (facts_of known.now) claim.now }
{
    match claim {
        Claim::Notes(allowed) => first_other(allowed, known.notes).unwrap_or(b""),
        Claim::Check => first_of(known.report),
        _ => b"",
    }
}

/// The first line of a text.
fn first_of(text: &[u8]) -> &[u8]
    ensures { result.now ≡ first_of (lines text.now) }
{
    match next_line(text) {
        Some((line, _)) => line,
        None => b"",
    }
}

/// Whether some claim asks for the notes of a run.
pub fn ask_for_notes(claims: &[Stated]) -> bool
    ensures { result ≡ ask_for_notes claims.now }
{
    claims.iter().any(|stated| is_of_notes(&stated.claim))
}

/// Whether some claim asks for what `check` tells.
pub fn ask_for_check(claims: &[Stated]) -> bool
    ensures { result ≡ ask_for_check claims.now }
{
    claims.iter().any(|stated| is_of_check(&stated.claim))
}

/// Whether some claim asks how many instructions are executed.
pub fn ask_for_instructions(claims: &[Stated]) -> bool
    ensures { result ≡ ask_for_instructions claims.now }
{
    claims
        .iter()
        .any(|stated| is_of_instructions(&stated.claim))
}

/// Whether a claim is one of notes.
fn is_of_notes(claim: &Claim) -> bool
    ensures { result ≡ is_of_notes claim.now }
{
    match claim {
        Claim::Notes(_) => true,
        _ => false,
    }
}

/// Whether it is one of what `check` tells.
fn is_of_check(claim: &Claim) -> bool
    ensures { result ≡ is_of_check claim.now }
{
    match claim {
        Claim::Check => true,
        _ => false,
    }
}

/// Whether it is one of how many instructions are executed.
fn is_of_instructions(claim: &Claim) -> bool
    ensures { result ≡ is_of_instructions claim.now }
{
    match claim {
        Claim::Covered(_) => true,
        _ => false,
    }
}
