//! How a run has come out.

ghost use Rattle.std.specs.Prelude.{◌≡◌};
ghost use Rattle.std.specs.Option.{option_map};
ghost use Rattle.whatif.specs.Finishes.{differs_at, finish_of, first_difference, first_place};

use crate::answer::Answer;
use crate::going::Going;
use space::place::Linear;
use space::{Eras, Store};
use words::Word;

/// The first erasable place behind the registers and the counters.
const FIRST_WORD: u16 = 0o61;

/// How many erasable places there are.
const ERASABLE_PLACES: u16 = 2_048;

/// An erasable place whose word differs: the word, and the other one.
#[derive(Clone, Copy, PartialEq, Eq, Debug)]
pub(crate) struct Difference {
    pub(crate) place: Eras,
    pub(crate) word: Word,
    pub(crate) other: Word,
}

/// How a run has come out: what it has put out, where its next instruction stands, and the first erasable word that
/// differs.
#[derive(Drop)]
pub(crate) struct Finish {
    pub(crate) answer: Answer,
    pub(crate) place: Linear,
    pub(crate) difference: Option<Difference>,
}

/// How a run has come out beside one with these words.
pub(crate) fn finished(going: Going<Answer>, without: &Store) -> Finish
    ensures { result ≡ finish_of without.now going.machine going.seen }
{
    let place = going.machine.next_place();
    let difference = first_difference(without, going.machine.store());
    Finish {
        answer: going.seen,
        place,
        difference,
    }
}

/// The first erasable place behind the registers and the counters whose words differ, with both.
fn first_difference(without: &Store, now: &Store) -> Option<Difference>
    ensures { result ≡ first_difference without.now now.now }
{
    match first_place(without, now) {
        Some(place) => Some(Difference {
            place,
            word: now.read(place).correct(),
            other: without.read(place).correct(),
        }),
        None => None,
    }
}

/// The first of these places whose words differ.
fn first_place(without: &Store, now: &Store) -> Option<Eras>
    ensures { result ≡ first_place without.now now.now }
{
    for number in FIRST_WORD..ERASABLE_PLACES {
        let place = Eras::of_low_bits(number);
        if differs_at(without, now, place) {
            return Some(place);
        }
    }
    None
}

/// Whether the words of a place differ.
fn differs_at(without: &Store, now: &Store, place: Eras) -> bool
    ensures { result ≡ differs_at without.now now.now place }
{
    without.read(place) != now.read(place)
}
