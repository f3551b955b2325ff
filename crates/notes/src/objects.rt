//! Notes as JSON.

ghost use Rattle.std.specs.Prelude.{◌≡◌, ◌≤◌, ◌++◌, codes, decimal, length};
ghost use Rattle.arrayvec.specs.ArrayVec.{array_vec_len};
ghost use Rattle.notes.specs.RunNotes.{kind_word, note_object};
ghost use Rattle.notes.specs.Waits.{wait_object};

use crate::kind::Kind;
use crate::lines::{Heading, Line};
use crate::waits::Moment;
use arrayvec::ArrayVec;
use feed::interrupt::Interrupt;
use trace::interrupt_name;
use words::{push_all, push_decimal};

/// The object of a note.
#[tactic(auto, using(words::proofs::Digits::short_decimal), unfolding(crate::specs::RunNotes::note_object))]
pub(crate) fn note_object(heading: &Heading, kind: Kind, count: u64) -> Line
    requires { array_vec_len heading.now.what ≤ 487 }
    ensures { result.items ≡ note_object kind heading.now.what.items heading.now.number heading.now.cycles count }
{
    let mut object = ArrayVec::new();
    push_all(&mut object, b"{\"kind\":\"");
    push_all(&mut object, kind_word(kind));
    push_all(&mut object, b"\"");
    push_all(&mut object, heading.what.as_slice());
    push_all(&mut object, b",\"step\":");
    push_decimal(&mut object, heading.number);
    push_all(&mut object, b",\"cycles\":");
    push_decimal(&mut object, heading.cycles);
    push_all(&mut object, b",\"count\":");
    push_decimal(&mut object, count);
    push_all(&mut object, b"}\n");
    object
}

/// The word of a kind.
fn kind_word(kind: Kind) -> &'static [u8]
    ensures word { result.now ≡ kind_word kind }
    ensures short { length result.now ≤ 11 }
{
    match kind {
        Kind::Quotient => b"QUOTIENT",
        Kind::Skip => b"SKIP",
        Kind::NoWord => b"NOWORD",
        Kind::InErasable => b"ERASABLE",
        Kind::NoHandler => b"NOHANDLER",
        Kind::OtherBank => b"OTHERBANK",
        Kind::NotKept => b"NOTKEPT",
        Kind::MinusZero => b"MINUSZERO",
        Kind::Overwritten => b"OVERWRITTEN",
        Kind::Shared => b"SHARED",
        Kind::FixedBank => b"FIXEDBANK",
    }
}

/// The object of an interrupt that waits long since a moment.
#[tactic(auto, using(words::proofs::Digits::short_decimal), unfolding(crate::specs::Waits::wait_object))]
pub(crate) fn wait_object(interrupt: Interrupt, moment: &Moment) -> Line
    ensures items { result.items ≡ wait_object interrupt moment.now }
    ensures short { array_vec_len result ≤ 104 }
{
    let mut object = ArrayVec::new();
    push_all(&mut object, b"{\"kind\":\"WAITING\",\"interrupt\":\"");
    push_all(&mut object, interrupt_name(interrupt));
    push_all(&mut object, b"\",\"step\":");
    push_decimal(&mut object, moment.step);
    push_all(&mut object, b",\"cycles\":");
    push_decimal(&mut object, moment.cycles);
    push_all(&mut object, b"}\n");
    object
}

/// The object of a run that ends within an interrupt.
#[tactic(auto, using(words::proofs::Digits::short_decimal))]
pub(crate) fn inside_object(steps: u64) -> Line
    ensures items { result.items ≡ codes "{\"kind\":\"INSIDE\",\"step\":" ++ (decimal steps ++ codes "}\n") }
    ensures short { array_vec_len result ≤ 64 }
{
    let mut object = ArrayVec::new();
    push_all(&mut object, b"{\"kind\":\"INSIDE\",\"step\":");
    push_decimal(&mut object, steps);
    push_all(&mut object, b"}\n");
    object
}
