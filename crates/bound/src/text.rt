//! What is answered of a routine, as text.

ghost use Rattle.std.specs.Prelude.{◌≡◌, ◌≤◌, ◌+◌, ◌++◌, true, codes, decimal, length};
ghost use Rattle.arrayvec.specs.ArrayVec.{array_vec_len};
ghost use Rattle.words.specs.Devices.{Writes, failures_after};
ghost use Rattle.bound.specs.BoundText.{answer_text, loop_text, loops_text, most_text, refused_text, why_text};

use crate::counted::Counted;
use crate::finding::{Answer, Found};
use crate::site::Site;
use crate::turn::Why;
use arrayvec::ArrayVec;
use space::{Linear, Offset};
use trace::place_text;
use words::{Write, WriteFailed, push_all, push_decimal, push_octal, write_all};

/// The most bytes of a line.
const LINE: usize = 96;

type Line = ArrayVec<u8, LINE>;

/// Writes the bound of a routine, as `AT MOST 1234 CYCLES`, and below it a line for each loop that is counted, as
/// `02,4002 COUNTED BY CCS 0100 FROM 10`; or the place where none was found, as `NO BOUND: 02,4105 JUMPS UNDER INDEX`.
///
/// After a failure a beginning of it was written.
pub fn write_found<W: Write>(found: &Found, out: &mut W) -> Result<(), WriteFailed>
    ensures written { W.told ≡ true → Writes (W.written out.old) (W.written out.new)
        (answer_text found.now.answer found.now.loops.items) result }
    ensures failures { W.failures out.new ≡ failures_after (W.failures out.old) result }
{
    match &found.answer {
        Answer::Most(most) => {
            write_all(out, most_line(*most).as_slice())?;
            write_loops(found.loops.as_slice(), out)
        }
        Answer::Refused(site, why) => write_all(out, refused_line(site, *why).as_slice()),
    }
}

/// Writes the lines of counted loops.
fn write_loops<W: Write>(loops: &[Counted], out: &mut W) -> Result<(), WriteFailed>
    ensures written { W.told ≡ true → Writes (W.written out.old) (W.written out.new) (loops_text loops.now) result }
    ensures failures { W.failures out.new ≡ failures_after (W.failures out.old) result }
{
    match loops.split_first() {
        Some((first, rest)) => {
            write_all(out, loop_line(first).as_slice())?;
            write_loops(rest, out)
        }
        None => Ok(()),
    }
}

/// The line of a counted loop.
#[tactic(auto, using(words::proofs::Digits::short_decimal))]
fn loop_line(counted: &Counted) -> Line
    ensures { result.items ≡ loop_text counted.now }
{
    let mut line = ArrayVec::new();
    let offset = Offset::of_low_bits(counted.head.number());
    push_all(
        &mut line,
        place_text(Linear::Fixed(counted.bank, offset)).as_slice(),
    );
    push_all(&mut line, b" COUNTED BY CCS ");
    push_octal(&mut line, 4, counted.cell.number());
    push_all(&mut line, b" FROM ");
    push_decimal(&mut line, u64::from(counted.from));
    push_all(&mut line, b"\n");
    line
}

/// The line of a bound.
#[tactic(auto, using(words::proofs::Digits::short_decimal))]
fn most_line(most: u32) -> Line
    ensures { result.items ≡ most_text most }
{
    let mut line = ArrayVec::new();
    push_all(&mut line, b"AT MOST ");
    push_decimal(&mut line, u64::from(most));
    push_all(&mut line, b" CYCLES\n");
    line
}

/// The line of a place where no bound was found.
fn refused_line(site: &Site, why: Why) -> Line
    ensures { result.items ≡ refused_text site.now why }
{
    let mut line = ArrayVec::new();
    push_all(&mut line, b"NO BOUND: ");
    let offset = Offset::of_low_bits(site.address.number());
    push_all(
        &mut line,
        place_text(Linear::Fixed(site.bank, offset)).as_slice(),
    );
    push_all(&mut line, why_text(why));
    push_all(&mut line, b"\n");
    line
}

/// Why no bound was found.
fn why_text(why: Why) -> &'static [u8]
    ensures text { result.now ≡ why_text why }
    ensures short { length result.now ≤ 50 }
{
    match why {
        Why::Indexed => b" JUMPS UNDER INDEX",
        Why::Leaves => b" LEADS TO NO KNOWN WORD",
        Why::Steers => b" WRITES Z OR ITS OWN BANK",
        Why::Resumes => b" RESUMES",
        Why::Changed => b" RETURNS BY Q, WHICH WAS CHANGED",
        Why::Recursive => b" CALLS A ROUTINE IN PROGRESS",
        Why::Unbounded => b" IS IN A LOOP WITHOUT A BOUND",
        Why::ManyWords => b" HAS MORE THAN 8192 WORDS",
        Why::ManyRoutines => b" USES 2048 ROUTINES OR MORE",
        Why::ManyCycles => b" HAS TOO MANY CYCLES TO COUNT",
    }
}
