//! How many uncertain places a rope confirms, and how many it denies.

ghost use Rattle.std.specs.Prelude.{◌≡◌, ◌<◌, ◌≤◌};
ghost use Rattle.rope.specs.Places.{fixed_places};
ghost use Rattle.certain.specs.Comparison.{count_of, differs, is_asked, is_counted};

use crate::form::UncertainForm;
use crate::places::UncertainPlaces;
use audit::{PLACES, bank_of, count_below, offset_of};
use rope::Rope;
use space::BANK_WORDS;

/// A source with uncertain places beside a rope.
#[derive(Clone, Copy)]
pub(crate) struct Beside<'a> {
    /// The uncertain places.
    pub(crate) uncertain: &'a UncertainPlaces,
    /// The words of the source.
    pub(crate) old: &'a Rope,
    /// Those of the rope.
    pub(crate) new: &'a Rope,
}

/// How many places are uncertain by a form, or by any where none is asked for, where the words differ, or do not.
pub(crate) fn count_of(beside: Beside<'_>, asked: Option<u16>, wrong: bool) -> u32
    ensures count { result ≡ count_of beside.entry.uncertain.now beside.entry.old.now beside.entry.new.now asked
        wrong }
    ensures few { result ≤ fixed_places }
{
    u32::from(count_below(PLACES, |place| {
        is_counted(beside, asked, wrong, u32::from(place))
    }))
}

// Whether a place is one of them.
fn is_counted(beside: Beside<'_>, asked: Option<u16>, wrong: bool, place: u32) -> bool
    requires { place < fixed_places }
    ensures { result ≡ is_counted beside.entry.uncertain.now beside.entry.old.now beside.entry.new.now asked wrong
        place }
{
    match beside.uncertain.form_numbered(place) {
        Some(form) => is_asked(asked, form) && differs(beside.old, beside.new, place) == wrong,
        None => false,
    }
}

fn is_asked(asked: Option<u16>, form: UncertainForm) -> bool
    ensures { result ≡ is_asked asked form }
{
    match asked {
        Some(number) => form.number() == number,
        None => true,
    }
}

/// Whether the words at a place differ.
pub fn differs(old: &Rope, new: &Rope, place: u32) -> bool
    requires { place < fixed_places }
    ensures { result ≡ differs old.now new.now place }
{
    let words = u32::from(BANK_WORDS);
    let bank = bank_of((place / words) as u16);
    let offset = offset_of((place % words) as u16);
    !(old.word(bank, offset) == new.word(bank, offset))
}
