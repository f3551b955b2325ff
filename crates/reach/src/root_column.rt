//! The column that shows the root of a word.

ghost use Rattle.std.specs.Prelude.{◌≡◌, None, get_or};
ghost use Rattle.reach.specs.Roots.{first_at, first_executed, first_of, place_column, root_place, roots_column};
ghost use Rattle.reach.specs.Ways.{spot};
ghost use Rattle.reach.specs.declared.spot.How.TheVariants.{Executes};

use crate::column::{banked, is_unbanked, unbanked};
use crate::roots::Roots;
use crate::spot::{How, Spot};
use arrayvec::ArrayVec;
use space::{Addr12, Bank, Linear, Offset};
use trace::{Text, place_text};
use words::push_all;

/// What stands behind the columns of a word, or of a row without one: nothing unless roots are shown.
pub(crate) fn roots_column(roots: &Option<Roots>, word: &Option<(Bank, Offset)>) -> Text
    ensures { result.items ≡ roots_column roots.now word.now }
{
    match roots {
        Some(roots) => place_column(roots.place_of(word)),
        None => ArrayVec::new(),
    }
}

// A place and a blank, or blanks.
fn place_column(place: Option<(Bank, Offset)>) -> Text
    ensures { result.items ≡ place_column place }
{
    match place {
        Some((bank, offset)) => {
            let mut text = place_text(Linear::Fixed(bank, offset));
            push_all(&mut text, b" ");
            text
        }
        None => {
            let mut text = ArrayVec::new();
            push_all(&mut text, b"        ");
            text
        }
    }
}

impl Roots {
    // What is shown of the root of a word, where a row has one.
    fn place_of(&self, word: &Option<(Bank, Offset)>) -> Option<(Bank, Offset)>
        ensures { result ≡ root_place self.now word.now }
    {
        match word {
            Some((bank, offset)) => self.place_at(*bank, *offset),
            None => None,
        }
    }

    // What is shown of the root of a word.
    fn place_at(&self, bank: Bank, offset: Offset) -> Option<(Bank, Offset)>
        ensures { result ≡ get_or self.now.places (first_at self.now.firsts bank offset) None }
    {
        let number = self.first_at(bank, offset);
        if number < self.places.len() {
            self.places[number]
        } else {
            None
        }
    }

    // The number of the root of a word.
    fn first_at(&self, bank: Bank, offset: Offset) -> usize
        ensures { result ≡ first_at self.now.firsts bank offset }
    {
        let first = self.first_executed(bank, banked(offset));
        if is_unbanked(bank) {
            first.min(self.first_executed(bank, unbanked(bank, offset)))
        } else {
            first
        }
    }

    // The number of the root of a word that is executed at an address.
    #[tactic(auto, unfolding(crate::specs::Roots::first_executed))]
    fn first_executed(&self, bank: Bank, address: Addr12) -> usize
        ensures { result ≡ first_executed self.now.firsts bank address }
    {
        let plain = self.first_of(bank, address, false, false);
        let extra = self.first_of(bank, address, true, false);
        let indexed = self.first_of(bank, address, false, true);
        let both = self.first_of(bank, address, true, true);
        plain.min(extra).min(indexed.min(both))
    }

    // The same under extracode or not, with a sum of INDEX or without.
    fn first_of(&self, bank: Bank, address: Addr12, extra: bool, indexed: bool) -> usize
        ensures { result ≡ first_of self.now.firsts (spot bank address (Executes extra indexed)) }
    {
        let spot = Spot {
            bank,
            address,
            how: How::Executes(extra, indexed),
        };
        self.firsts[spot.number()]
    }
}
