//! Laws of places and cells. Each is the contract of a call that does nothing.

ghost use Rattle.space.specs.Laws.{ReadsBack, LeavesPlace, ReadsBothBanks, StoresBothBanks, ReadsBackOn, LeavesChannel};
ghost use Rattle.space.specs.Laws.{AreApart, LeadsBack, LeadsAgain};

use crate::numbers::{Addr12, Chan, Eras};
use crate::place::{Banks, Linear};
use crate::resolve::banks_of;
use crate::store::Store;
use words::Wide;

/// What was stored is read: A and Q give all of it, any other place what it keeps of the corrected word.
#[tactic(auto, using(crate::proofs::ReadLaws::reads_back))]
pub fn stored_is_read(store: &Store, place: Eras, value: Wide)
    ensures { ReadsBack store.now place value }
{}

/// Any other place is read as before, but that FB and EB are parts of BB.
#[tactic(auto, using(crate::proofs::ReadLaws::leaves_place))]
pub fn other_places_stay(store: &Store, place: Eras, value: Wide, other: Eras)
    ensures { LeavesPlace store.now place value other }
{}

/// BB is both banks: it is read as FB and EB, and what is stored there is stored in FB and EB.
#[tactic(auto, using(crate::proofs::ReadLaws::reads_both_banks, crate::proofs::ReadLaws::stores_both_banks))]
pub fn both_banks(store: &Store, value: Wide)
    ensures reads { ReadsBothBanks store.now }
    ensures stores { StoresBothBanks store.now value }
{}

/// What was stored on a channel is read there: all of it on Q, three bits on the superbank's, else the corrected word.
#[tactic(auto, using(crate::proofs::ReadLaws::reads_back_on))]
pub fn stored_on_channel_is_read(store: &Store, channel: Chan, value: Wide)
    ensures { ReadsBackOn store.now channel value }
{}

/// Any other channel is read as before.
#[tactic(auto, using(crate::proofs::ReadLaws::leaves_channel))]
pub fn other_channels_stay(store: &Store, channel: Chan, value: Wide, other: Chan)
    ensures { LeavesChannel store.now channel value other }
{}

/// What is stored at a place changes no channel, and what is stored on a channel no place, but that two channels are L
/// and Q.
#[tactic(auto, using(crate::proofs::ReadLaws::are_apart))]
pub fn places_and_channels_are_apart(store: &Store, place: Eras, channel: Chan, value: Wide)
    ensures { AreApart store.now place channel value }
{}

/// Under the banks of a place its window leads to it.
pub fn window_leads_back(linear: Linear)
    ensures { LeadsBack linear }
{
    let _banks = banks_of(linear);
}

/// Whatever the banks, the window of the place to which an address leads is an address of that place.
#[tactic(auto, unfolding(crate::specs::Places::window, crate::specs::Places::place))]
pub fn window_leads_again(address: Addr12, banks: Banks)
    ensures { LeadsAgain address banks.eb banks.fb banks.sup }
{}
