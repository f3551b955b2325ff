//! At how many places a rope confirms a wording, and at how many it denies it.

ghost use Rattle.std.specs.Prelude.{◌≡◌, ◌<◌, ◌≤◌, slice_get, true};
ghost use Rattle.words.specs.Devices.{Writes, failures_after};
ghost use Rattle.rope.specs.Places.{fixed_places};
ghost use Rattle.certain.specs.Comparison.{differs};
ghost use Rattle.confirmed.specs.Confirmed.{assumed_lines, count_of, is_counted, numbered_line, wording_text};

use crate::places::AssumedPlaces;
use arrayvec::ArrayVec;
use assumed::Wording;
use audit::{PLACES, Written, count_below};
use certain::differs;
use rope::Rope;
use words::{Write, push_all, push_decimal, write_all};

/// The most bytes of a line: two numbers of at most 20 digits, a name, and what stands between.
const LINE: usize = 96;

type Line = ArrayVec<u8, LINE>;

/// Writes for each wording that is assumed how many places of lines that stand by it a rope confirms, and how many it
/// denies, as `ASSUMED MM=DEC CONFIRMED 3 DENIED 0`.
///
/// After a failure a beginning of it was written.
#[tactic(auto, unfolding(crate::specs::Confirmed::assumed_lines))]
pub fn write_assumed_lines<W: Write>(
    wordings: &[Wording],
    places: &AssumedPlaces,
    old: &Rope,
    new: &Rope,
    out: &mut W,
) -> Written
    ensures written { W.told ≡ true → Writes (W.written out.old) (W.written out.new)
        (assumed_lines wordings.now places.now old.now new.now) result }
    ensures failures { W.failures out.new ≡ failures_after (W.failures out.old) result }
{
    for number in 0..wordings.len() {
        write_all(
            out,
            numbered_line(wordings, places, old, new, number).as_slice(),
        )?;
    }
    Ok(())
}

// The line of one of some wordings.
#[tactic(auto, unfolding(crate::specs::Confirmed::numbered_line))]
fn numbered_line(
    wordings: &[Wording],
    places: &AssumedPlaces,
    old: &Rope,
    new: &Rope,
    number: usize,
) -> Line
    ensures { result.items ≡ numbered_line wordings.now places.now old.now new.now number }
{
    match wordings.get(number) {
        Some(wording) => {
            let right = count_of(places, old, new, *wording, false);
            let wrong = count_of(places, old, new, *wording, true);
            wording_text(*wording, right, wrong)
        }
        None => ArrayVec::new(),
    }
}

#[tactic(auto, using(words::proofs::Digits::short_decimal))]
fn wording_text(wording: Wording, right: u32, wrong: u32) -> Line
    ensures { result.items ≡ wording_text wording right wrong }
{
    let mut line = ArrayVec::new();
    push_all(&mut line, b"ASSUMED ");
    push_all(&mut line, wording.name());
    push_all(&mut line, b" CONFIRMED ");
    push_decimal(&mut line, u64::from(right));
    push_all(&mut line, b" DENIED ");
    push_decimal(&mut line, u64::from(wrong));
    push_all(&mut line, b"\n");
    line
}

// How many places stand by a wording where the words differ, or do not.
fn count_of(places: &AssumedPlaces, old: &Rope, new: &Rope, wording: Wording, wrong: bool) -> u32
    ensures count { result ≡ count_of places.now old.now new.now wording wrong }
    ensures few { result ≤ fixed_places }
{
    u32::from(count_below(PLACES, |place| {
        is_counted(places, old, new, wording, wrong, u32::from(place))
    }))
}

// Whether a place is one of them.
fn is_counted(
    places: &AssumedPlaces,
    old: &Rope,
    new: &Rope,
    wording: Wording,
    wrong: bool,
    place: u32,
) -> bool
    requires { place < fixed_places }
    ensures { result ≡ is_counted places.now old.now new.now wording wrong place }
{
    match places.wording_numbered(place) {
        Some(other) => other.name() == wording.name() && differs(old, new, place) == wrong,
        None => false,
    }
}
