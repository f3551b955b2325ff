//! A flight source and a rope as text.

ghost use Rattle.std.specs.Prelude.{◌≡◌, ◌≤◌, ◌++◌, true, length, IfOk};
ghost use Rattle.arrayvec.specs.ArrayVec.{array_vec_len};
ghost use Rattle.words.specs.Devices.{Writes, failures_after};
ghost use Rattle.audit.specs.Differences.{count_line, differing};
ghost use Rattle.audit.specs.WordLines.{extracode_at};
ghost use Rattle.audit.specs.declared.differences.Extent.TheVariants.{Filled};
ghost use Rattle.certain.specs.Comparison.{comparison, form_lines, remark, told_line, uncertain_line};

use crate::counts::Beside;
use crate::form::UncertainForm;
use crate::form_lines::{write_form_lines, write_uncertain_line};
use crate::places::UncertainPlaces;
use arrayvec::ArrayVec;
use audit::{
    DifferenceText, Extent, PlaceOfTwo, Written, count_line, difference_text, write_differing,
};
use rope::Rope;
use words::{Write, WriteFailed, push_all, write_all};

/// The most bytes of a line: those of a difference, ` UNCERTAIN `, a name of 6 bytes, and a line feed.
const LINE: usize = 80;

type Line = ArrayVec<u8, LINE>;

/// Writes a line for each place that a source fills where its word and that of a rope differ, as `audit` does, with a
/// remark at its end where the word is uncertain, as `UNCERTAIN 2CADR`; and how many places there are, as `COUNT 3`,
/// which is answered. Where the source has uncertain words it then writes how many of them differ, as
/// `UNCERTAIN 1 OF 8`, and for each form how many the rope confirms and denies, as `FORM 2CADR CONFIRMED 7 DENIED 1`.
///
/// After a failure a beginning of it was written.
pub fn write_comparison<W: Write>(
    uncertain: &UncertainPlaces,
    old: &Rope,
    new: &Rope,
    out: &mut W,
) -> Result<u32, WriteFailed>
    ensures written { W.told ≡ true → Writes (W.written out.old) (W.written out.new)
        (comparison uncertain.now old.now new.now) result }
    ensures count { IfOk result (λ count. count ≡ length (differing Filled old.now new.now)) }
    ensures failures { W.failures out.new ≡ failures_after (W.failures out.old) result }
{
    let count = write_differing(&PlaceLines { uncertain }, old, new, Extent::Filled, out)?;
    write_counts(
        count,
        Beside {
            uncertain,
            old,
            new,
        },
        out,
    )?;
    Ok(count)
}

/// Writes how many places there are, and what is known of the uncertain ones.
fn write_counts<W: Write>(count: u32, beside: Beside<'_>, out: &mut W) -> Written
    ensures written { W.told ≡ true → Writes (W.written out.old) (W.written out.new)
        (count_line count ++ (uncertain_line beside.entry.uncertain.now beside.entry.old.now beside.entry.new.now
        ++ form_lines beside.entry.uncertain.now beside.entry.old.now beside.entry.new.now)) result }
    ensures failures { W.failures out.new ≡ failures_after (W.failures out.old) result }
{
    write_all(out, count_line(count).as_slice())?;
    write_uncertain(beside, out)
}

/// Writes what is known of the uncertain places.
fn write_uncertain<W: Write>(beside: Beside<'_>, out: &mut W) -> Written
    ensures written { W.told ≡ true → Writes (W.written out.old) (W.written out.new)
        (uncertain_line beside.entry.uncertain.now beside.entry.old.now beside.entry.new.now
        ++ form_lines beside.entry.uncertain.now beside.entry.old.now beside.entry.new.now) result }
    ensures failures { W.failures out.new ≡ failures_after (W.failures out.old) result }
{
    write_uncertain_line(beside, out)?;
    write_form_lines(beside, out)
}

/// The lines of places.
#[derive(Drop)]
struct PlaceLines<'a> {
    uncertain: &'a UncertainPlaces,
}

impl<'a> DifferenceText for PlaceLines<'a> {
    ghost text = { λ lines old new place. told_line lines.uncertain.now old new place };

    fn write<W: Write>(&self, old: &Rope, new: &Rope, at: PlaceOfTwo, out: &mut W) -> Written {
        let line = told_line(self.uncertain, old, new, at);
        write_all(out, line.as_slice())
    }
}

/// The line of a place.
#[tactic(auto, unfolding(crate::specs::Comparison::told_line))]
fn told_line(uncertain: &UncertainPlaces, old: &Rope, new: &Rope, at: PlaceOfTwo) -> Line
    requires old { at.extra.0 ≡ extracode_at old.now at.bank at.offset }
    requires new { at.extra.1 ≡ extracode_at new.now at.bank at.offset }
    ensures { result.items ≡ told_line uncertain.now old.now new.now (at.bank, at.offset) }
{
    let mut line = ArrayVec::new();
    push_all(
        &mut line,
        difference_text(old, new, at.bank, at.offset, at.extra).as_slice(),
    );
    push_remark(&mut line, uncertain.form_at(at.bank, at.offset));
    push_all(&mut line, b"\n");
    line
}

/// Appends what stands at the end of the line of an uncertain place.
fn push_remark(line: &mut Line, form: Option<UncertainForm>)
    requires { array_vec_len line.old ≤ 42 }
    ensures items { line.new.items ≡ line.old.items ++ remark form }
    ensures len { array_vec_len line.new ≤ 60 }
{
    if let Some(form) = form {
        push_all(line, b" UNCERTAIN ");
        push_all(line, form.name());
    }
}
