//! What the kinds of notes mean, which `agcws run --notes` tells: the rows of the manual's table of them.

ghost use Rattle.std.specs.Prelude.{◌≡◌, ◌++◌, IfOk};
ghost use Rattle.std.specs.Option.{option_map};
ghost use Rattle.agc_text.specs.Tables.{value_in};
ghost use Rattle.explain.specs.Refusals.{note_heading, note_headings, note_meanings};
ghost use Rattle.explain.specs.Views.{meanings_in};

use std::alloc::{AllocError, Global};

/// A kind of notes, and what draws it.
#[derive(Clone, Copy, Drop)]
pub struct NoteKind {
    /// What it means, in a line.
    pub meaning: &'static [u8],
    /// Each mistake that draws it, with its cure; and where the manual tells of it.
    pub causes: &'static [u8],
}

/// The kind of a name, where there is one.
pub fn note_kind(name: &[u8]) -> Option<NoteKind>
    ensures { option_map (λ kind. kind.meaning.now) result ≡ value_in note_meanings name.now }
{
    kind_among(kinds(), name)
}

// The kind that stands for a name in a table.
fn kind_among(table: &'static [(&'static str, NoteKind)], name: &[u8]) -> Option<NoteKind>
    ensures { option_map (λ kind. kind.meaning.now) result ≡ value_in (meanings_in table.now) name.now }
{
    for (other, kind) in table {
        if name == other.as_bytes() {
            return Some(*kind);
        }
    }
    None
}

/// What a kind of a name means, and what draws it.
pub fn note_explanation(alloc: Global, name: &[u8], kind: &NoteKind) -> Result<Vec<u8>, AllocError>
    ensures { IfOk result (λ text. text.items ≡ note_heading (name.now, kind.now.meaning.now) ++ kind.now.causes.now) }
{
    let mut text = Vec::new(alloc);
    text.extend_from_slice(name)?;
    text.extend_from_slice(b": ")?;
    text.extend_from_slice(kind.meaning)?;
    text.extend_from_slice(b"\n")?;
    text.extend_from_slice(kind.causes)?;
    Ok(text)
}

/// What is listed of the kinds.
pub(crate) fn note_headings() -> &'static [u8]
    ensures { result.now ≡ note_headings }
{
    NOTE_HEADINGS
}

fn kinds() -> &'static [(&'static str, NoteKind)]
    ensures { meanings_in result.now ≡ note_meanings }
{
    &KINDS
}

const NOTE_HEADINGS: &[u8] = b"QUOTIENT: the quotient of DV does not fit
SKIP: TS has found overflow in A, and has left out the next instruction
NOWORD: a word is executed in fixed memory where none stands
ERASABLE: a word is executed in erasable memory
NOHANDLER: an interrupt is entered where no word stands
OTHERBANK: an erasable symbol is reached in another bank than its own
FIXEDBANK: a symbol of a switched fixed bank is reached in another bank than its own
INSIDE: the run ends within an interrupt
WAITING: an interrupt is asked for, and is not entered for 853 cycles or more
NOTKEPT: a handler ends, and a register is not what it was at its entry
MINUSZERO: CCS has found -0, and has taken its fourth way
UNREAD: an input comes on a channel that no instruction has read
OVERWRITTEN: an input comes on a channel before the one before it was read
SHARED: the program itself comes by a handler, or goes on into one
";

// A row: a name, what it means, and what draws it.
macro_rules! kind {
    ($name:literal, $meaning:literal, $causes:literal) => {
        (
            $name,
            NoteKind {
                meaning: $meaning,
                causes: $causes,
            },
        )
    };
}

static KINDS: [(&str, NoteKind); 14] = [
    kind!(
        "QUOTIENT",
        b"the quotient of DV does not fit",
        b"
- A is as large as the divisor or larger, as where a whole number stands in A: it counts 2^14 times there
  Cure: a whole number is divided in L, with 0 in A

Manual, section 8, \"DV gives 37777, or 40000\".
"
    ),
    kind!(
        "SKIP",
        b"TS has found overflow in A, and has left out the next instruction",
        b"
- a sum is above 16383, or below -16383: TS stores it without its overflow, leaves 1 or -1 in A, and skips
  Cure: keep sums small; or use the skip, by TCF on the line behind TS

Manual, section 8.5.
"
    ),
    kind!(
        "NOWORD",
        b"a word is executed in fixed memory where none stands",
        b"
- the program has run on behind its last word, or jumps to an empty place: a word 00000 is TC 0
  Cure: end it by a jump, as DONE TCF DONE; look in agcws trace where it came from

Manual, section 8.4.
"
    ),
    kind!(
        "ERASABLE",
        b"a word is executed in erasable memory",
        b"
- a routine that calls another returns to a wrong place, since its own way back in Q is lost
  Cure: keep Q first: EXTEND and QXCH BACK, and the same again before RETURN

- a jump leads to data, as where an index is added to it
  Cure: look in agcws trace at the steps before

Manual, section 8.10.
"
    ),
    kind!(
        "NOHANDLER",
        b"an interrupt is entered where no word stands",
        b"
- interrupt k enters at 4000 plus 4 times k in octal, and nothing was written there
  Cure: a handler for each interrupt that comes: four words that end in TCF, and the rest elsewhere

- the handler stands at the place of another interrupt
  Cure: the places of section 6

Manual, section 8, \"INT is 1\".
"
    ),
    kind!(
        "OTHERBANK",
        b"an erasable symbol is reached in another bank than its own",
        b"
- EB holds another bank than that of the symbol, whose address is 1400 to 1777
  Cure: EBANK before it: CA NAME and TS 3, where NAME ECADR X stands; or cells below 1400

Manual, section 8.6.
"
    ),
    kind!(
        "FIXEDBANK",
        b"a symbol of a switched fixed bank is reached in another bank than its own",
        b"
- FB holds another bank than that of the symbol, whose address is 2000 to 3777
  Cure: a far call: NAME 2CADR X, EXTEND, DCA NAME, and DXCH Z

Manual, section 8.6.
"
    ),
    kind!(
        "INSIDE",
        b"the run ends within an interrupt",
        b"
- the handler has not come to RESUME: it loops, or goes on into the program
  Cure: RESUME as its last instruction, on each way

- N is too small
  Cure: a larger N

Manual, section 8.7.
"
    ),
    kind!(
        "WAITING",
        b"an interrupt is asked for, and is not entered for 853 cycles or more",
        b"
- RELINT is never executed: a run starts with interrupts inhibited
  Cure: RELINT before the loop that waits

- INHINT without RELINT, a handler that does not end, or overflow that stays in A
  Cure: RELINT, RESUME, or TS, which takes the overflow

Manual, section 8.1.
"
    ),
    kind!(
        "NOTKEPT",
        b"a handler ends, and a register is not what it was at its entry",
        b"
- the handler changes A, L, Q, EB, FB or the superbank bit, and does not put it back: the program that was \
    interrupted goes on with another word
  Cure: DXCH ARUPT first, and DXCH ARUPT before RESUME, for A and L; QXCH QRUPT for Q; BB by BBRUPT

Manual, section 8, \"a word is wrong now and then\".
"
    ),
    kind!(
        "MINUSZERO",
        b"CCS has found -0, and has taken its fourth way",
        b"
- a number less itself is -0, 77777, and the fourth word behind CCS is no way that was meant
  Cure: four ways behind CCS; the fourth is that of -0

Manual, section 8, \"CCS goes three words on\".
"
    ),
    kind!(
        "UNREAD",
        b"an input comes on a channel that no instruction has read",
        b"
- the feed names another channel than the program reads: both are octal, so that the keys come on 15 and not on 13
  Cure: the channel's number in octal, as in section 5

Manual, section 6.
"
    ),
    kind!(
        "OVERWRITTEN",
        b"an input comes on a channel before the one before it was read",
        b"
- two inputs come so close to one another that the handler has not read the first
  Cure: a later cycle in the feed; agcws delays tells how long an interrupt waits

Manual, section 6.
"
    ),
    kind!(
        "SHARED",
        b"the program itself comes by a handler, or goes on into one",
        b"
- the program stands where interrupts are entered, 4004 to 4053
  Cure: a jump at 4000, and the program from 4100 on

- the program jumps into a handler
  Cure: a routine of its own, that both call

Manual, section 8, \"INT is 1\".
"
    ),
];
