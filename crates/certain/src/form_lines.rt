//! What a rope says of the uncertain places, as lines.

ghost use Rattle.std.specs.Prelude.{◌≡◌, ◌<◌, ◌≤◌, true};
ghost use Rattle.words.specs.Devices.{Writes, failures_after};
ghost use Rattle.rope.specs.Places.{fixed_places};
ghost use Rattle.certain.specs.Comparison.{form_line, form_lines, form_text, uncertain_line, uncertain_text};
ghost use Rattle.certain.specs.Forms.{forms};

use crate::counts::{Beside, count_of};
use crate::form::{FORMS, UncertainForm};
use arrayvec::ArrayVec;
use audit::Written;
use words::{Write, push_all, push_decimal, write_all};

/// The most bytes of a line: two numbers of at most 20 digits, a name, and what stands between.
const LINE: usize = 80;

type Line = ArrayVec<u8, LINE>;

/// Writes how many uncertain places differ, of how many; nothing where there is none.
#[tactic(auto, unfolding(crate::specs::Comparison::uncertain_line))]
pub(crate) fn write_uncertain_line<W: Write>(beside: Beside<'_>, out: &mut W) -> Written
    ensures written { W.told ≡ true → Writes (W.written out.old) (W.written out.new)
        (uncertain_line beside.entry.uncertain.now beside.entry.old.now beside.entry.new.now) result }
    ensures failures { W.failures out.new ≡ failures_after (W.failures out.old) result }
{
    let wrong = count_of(beside, None, true);
    let right = count_of(beside, None, false);
    write_all(out, uncertain_text(wrong, right).as_slice())
}

/// Writes for each form that stands in the source how many of its places the rope confirms, and how many it denies.
#[tactic(auto, unfolding(crate::specs::Comparison::form_lines))]
pub(crate) fn write_form_lines<W: Write>(beside: Beside<'_>, out: &mut W) -> Written
    ensures written { W.told ≡ true → Writes (W.written out.old) (W.written out.new)
        (form_lines beside.entry.uncertain.now beside.entry.old.now beside.entry.new.now) result }
    ensures failures { W.failures out.new ≡ failures_after (W.failures out.old) result }
{
    for number in 0..FORMS {
        write_all(out, form_line(beside, number).as_slice())?;
    }
    Ok(())
}

// The line of a form.
#[tactic(auto, unfolding(crate::specs::Comparison::form_line))]
fn form_line(beside: Beside<'_>, number: u16) -> Line
    ensures { result.items ≡ form_line beside.entry.uncertain.now beside.entry.old.now beside.entry.new.now number }
{
    let right = count_of(beside, Some(number), false);
    let wrong = count_of(beside, Some(number), true);
    form_text(number, right, wrong)
}

#[tactic(auto, using(words::proofs::Digits::short_decimal))]
fn uncertain_text(wrong: u32, right: u32) -> Line
    requires wrong { wrong ≤ fixed_places }
    requires right { right ≤ fixed_places }
    ensures { result.items ≡ uncertain_text wrong right }
{
    let mut line = ArrayVec::new();
    if wrong + right == 0 {
        return line;
    }
    push_all(&mut line, b"UNCERTAIN ");
    push_decimal(&mut line, u64::from(wrong));
    push_all(&mut line, b" OF ");
    push_decimal(&mut line, u64::from(wrong + right));
    push_all(&mut line, b"\n");
    line
}

#[tactic(auto, using(words::proofs::Digits::short_decimal))]
fn form_text(number: u16, right: u32, wrong: u32) -> Line
    requires right { right ≤ fixed_places }
    requires wrong { wrong ≤ fixed_places }
    ensures { result.items ≡ form_text number right wrong }
{
    let mut line = ArrayVec::new();
    if right + wrong == 0 {
        return line;
    }
    push_all(&mut line, b"FORM ");
    push_all(&mut line, UncertainForm::numbered(number).name());
    push_all(&mut line, b" CONFIRMED ");
    push_decimal(&mut line, u64::from(right));
    push_all(&mut line, b" DENIED ");
    push_decimal(&mut line, u64::from(wrong));
    push_all(&mut line, b"\n");
    line
}
