//! The cells of the registers, erasable memory and the channels.

ghost use Rattle.std.specs.Prelude.{◌≡◌, ℕ, ◌+◌, ◌/◌, ◌%◌, ◌^◌, ◌<◌, ◌≤◌, ◌≢◌, length, take, drop, slice_index};
ghost use Rattle.std.specs.Prelude.{replicate, not, ◌==◌, if◌then◌else◌};
ghost use Rattle.space.specs.Cells.{at, word_at, get, put, get_channel, put_channel, kept, kept_of_word, zero_cells};
ghost use Rattle.space.specs.Cells.{changed_places, superbank, accumulator, return_address, erasable_bank, fixed_bank};
ghost use Rattle.space.specs.Cells.{program_counter, both_banks, always_zero, lower_accumulator_channel};
ghost use Rattle.space.specs.Cells.{return_address_channel, superbank_channel, channel_cell, erasable_count};
ghost use Rattle.space.specs.Cells.{channel_count};
ghost use Rattle.space.specs.Places.{place, selected_bank};
ghost use Rattle.space.specs.Stored.{cell_limit, register_count, lane_count, superbank_in};
ghost use Rattle.space.specs.declared.place.Linear.{Linear};
ghost use Rattle.words.specs.Numbers.{extend};
ghost use Rattle.std.specs.FinMap.{insert};

mod erasable;

use self::erasable::{Erasable, LANES, differing, zero_erasable};
use crate::numbers::{Addr12, Bank, Chan, Eras, Offset};
use crate::place::Banks;
use crate::resolve::{FIRST_IN_WINDOW, FIRST_SWITCHED, selected_bank};
use std::marker::Model;
use words::{Wide, Word};

/// The bits that the superbank channel keeps.
const SUPERBANK_MASK: u16 = 0o160;

/// How many places are registers: the first.
const REGISTERS: u16 = 8;

/// How many chunks of erasable memory are compared, the first of them place by place, the others by lanes.
const CHUNKS: u16 = 64;

/// The superbank bit in its channel.
const SUPERBANK_BIT: u16 = 0o100;

/// The registers, erasable memory, and the channels, with the number of the fixed bank that they select.
///
/// The registers are the first places. Erasable memory holds the other places as they are read, and the channels hold
/// words.
#[derive(Drop)]
pub struct Store {
    registers: [u16; 8],
    selected: u16,
    erasable: Erasable,
    channels: [u16; 512],
}

impl Model for Store {
    ghost use Rattle.std.specs.Prelude.{ℕ};
    ghost use Rattle.std.specs.Coded.{coded_ℕ};
    ghost use Rattle.std.specs.FinMap as map;
    ghost use Rattle.space.specs.Cells.{Cells, cells_by};
    ghost use Rattle.space.specs.Stored.{held_at, stored, Holds};

    ghost Value = { Cells };

    ghost coded = { map.code coded_ℕ coded_ℕ };

    ghost view = { λ s. cells_by (stored (held_at s.registers s.erasable) s.channels) };

    ghost invariant = { λ s. Holds s.registers s.erasable s.channels s.selected };
}

impl Store {
    /// A store in which each cell holds 0.
    pub fn zero() -> Store
        ensures { result ≡ zero_cells }
    {
        Store {
            registers: zero_registers(),
            selected: 0,
            erasable: zero_erasable(),
            channels: silent_channels(),
        }
    }

    /// Makes the other store equal to this one.
    pub fn copy_to(&self, other: &mut Store)
        ensures { other.new ≡ self.now }
    {
        other.registers.copy_from_slice(&self.registers);
        other.selected = self.selected;
        other.erasable.copy_from_slice(&self.erasable);
        other.channels.copy_from_slice(&self.channels);
    }

    /// What is read at an erasable place. At Z it is an address of 12 bits.
    #[tactic(auto, unfolding(crate::specs::Cells::get))]
    pub fn read(&self, place: Eras) -> Wide
        ensures value { result ≡ get self.now place }
        ensures address { place ≡ program_counter → result < 0o10000 }
    {
        if place.number() >= REGISTERS {
            self.reading(place)
        } else if place == Eras::A || place == Eras::Q {
            Wide::of_u16(self.held(place))
        } else {
            self.word(place).extend()
        }
    }

    /// The word of a register other than A and Q.
    #[tactic(auto, unfolding(crate::specs::Stored::cell_limit))]
    fn word(&self, place: Eras) -> Word
        requires register { place < register_count }
        requires accumulator { place ≢ accumulator }
        requires return_address { place ≢ return_address }
        ensures value { result ≡ word_at self.now place }
        ensures address { place ≡ program_counter → result < 0o10000 }
    {
        if place == Eras::EB {
            word_of(self.held(Eras::EB) * 0o400)
        } else if place == Eras::FB {
            word_of(self.held(Eras::FB) * 0o2000)
        } else if place == Eras::BB {
            word_of(self.held(Eras::FB) * 0o2000 + self.held(Eras::EB))
        } else if place == Eras::ZERO {
            word_of(0)
        } else {
            word_of(self.held(place))
        }
    }

    /// Z.
    #[tactic(auto, unfolding(crate::specs::Cells::get, crate::specs::Stored::cell_limit))]
    pub fn next_address(&self) -> Addr12
        ensures { result ≡ get self.now program_counter }
    {
        Addr12::new(self.held(Eras::Z))
    }

    /// Stores at an erasable place.
    #[inline(always)]
    #[tactic(auto, unfolding(crate::specs::Cells::put, crate::specs::Cells::kept, crate::specs::Stored::cell_limit))]
    pub fn write(&mut self, place: Eras, value: Wide)
        ensures { self.new ≡ put self.old place value }
    {
        if place.number() > Eras::EDOP.number() {
            self.keep(place, value.correct());
        } else if place == Eras::A || place == Eras::Q {
            self.hold(place, value.to_u16());
        } else if place == Eras::Z {
            self.hold(place, value.correct().to_u16() % 0o10000);
        } else {
            self.write_with_edit(place, value);
        }
    }

    /// Stores at an erasable place that may be a register or edit.
    #[inline(never)]
    #[tactic(auto, unfolding(crate::specs::Cells::put, crate::specs::Cells::kept, crate::specs::Stored::cell_limit))]
    fn write_with_edit(&mut self, place: Eras, value: Wide)
        ensures { self.new ≡ put self.old place value }
    {
        if place.number() >= REGISTERS {
            self.keep(place, edited(place, value.correct()));
        } else if place == Eras::BB {
            let word = value.correct().to_u16();
            self.hold_fixed_bank(word / 0o2000);
            self.hold(Eras::EB, word % 0o10);
        } else if place == Eras::FB {
            self.hold_fixed_bank(value.correct().to_u16() / 0o2000);
        } else if place != Eras::ZERO {
            self.hold(place, kept(place, value));
        }
    }

    /// The bank registers and the superbank bit.
    #[tactic(auto, unfolding(crate::specs::Cells::superbank, crate::specs::Stored::cell_limit))]
    pub fn banks(&self) -> Banks
        ensures eb { result.eb ≡ at self.now erasable_bank }
        ensures fb { result.fb ≡ at self.now fixed_bank }
        ensures sup { result.sup ≡ superbank self.now }
    {
        Banks {
            eb: self.held(Eras::EB),
            fb: self.held(Eras::FB),
            sup: superbank_in(self.held_on(Chan::SUPERBANK)),
        }
    }

    /// The bank and the offset to which an address leads whose bank FB and the superbank bit select.
    #[inline(always)]
    #[tactic(auto, unfolding(crate::specs::Places::place))]
    pub fn place_in_fixed_window(&self, address: Addr12) -> (Bank, Offset)
        requires first { 0o2000 ≤ address }
        requires last { address < 0o4000 }
        ensures { place address (at self.now erasable_bank) (at self.now fixed_bank) (superbank self.now)
            ≡ Linear.Fixed result.0 result.1 }
    {
        (
            self.selected_bank(),
            Offset::new(address.number() - FIRST_SWITCHED),
        )
    }

    /// The erasable place to which an address leads whose bank EB selects.
    #[inline(always)]
    #[tactic(auto, unfolding(crate::specs::Places::place, crate::specs::Stored::cell_limit))]
    pub fn place_in_erasable_window(&self, address: Addr12) -> Eras
        requires first { 0o1400 ≤ address }
        requires last { address < 0o2000 }
        ensures { place address (at self.now erasable_bank) (at self.now fixed_bank) (superbank self.now)
            ≡ Linear.Erasable result }
    {
        Eras::new(self.held(Eras::EB) * 0o400 + (address.number() - FIRST_IN_WINDOW))
    }

    /// The fixed bank that FB and the superbank bit select.
    #[inline(always)]
    fn selected_bank(&self) -> Bank
        ensures { result ≡ selected_bank (at self.now fixed_bank) (superbank self.now) }
    {
        Bank::new(self.selected)
    }

    /// Whether a place reads differently in the other store.
    fn differs(&self, other: &Store, place: Eras) -> bool
        ensures { result ≡ not (get self.now place == get other.now place) }
    {
        self.read(place) != other.read(place)
    }

    /// Which of the places of a chunk read differently in the other store: bit k tells of the first place plus k.
    fn differing(&self, other: &Store, first: u16) -> u64
        requires registers { register_count ≤ first }
        requires last { first + lane_count ≤ erasable_count }
        ensures { (k : ℕ) → k < lane_count → result / 2 ^ k % 2
            ≡ (if get self.now (first + k) == get other.now (first + k) then 0 else 1) }
    {
        differing(&self.erasable, &other.erasable, usize::from(first))
    }

    /// What is read on a channel.
    #[tactic(auto, unfolding(crate::specs::Cells::get_channel))]
    pub fn channel(&self, channel: Chan) -> Wide
        ensures { result ≡ get_channel self.now channel }
    {
        if channel == Chan::L {
            self.read(Eras::L)
        } else if channel == Chan::Q {
            self.read(Eras::Q)
        } else {
            word_of(self.held_on(channel)).extend()
        }
    }

    /// Stores on a channel.
    #[tactic(auto, unfolding(crate::specs::Cells::put_channel))]
    pub fn set_channel(&mut self, channel: Chan, value: Wide)
        ensures { self.new ≡ put_channel self.old channel value }
    {
        let word = value.correct().to_u16();
        if channel == Chan::L {
            self.write(Eras::L, value);
        } else if channel == Chan::Q {
            self.write(Eras::Q, value);
        } else if channel == Chan::SUPERBANK {
            let kept = value.correct().and(Word::of_low_bits(SUPERBANK_MASK));
            self.hold_superbank(kept.to_u16());
        } else {
            self.hold_on(channel, word);
        }
    }

    /// The number in the cell of a register.
    #[tactic(auto, using(crate::proofs::CellLemmas::held_view, crate::proofs::CellLemmas::held_limit))]
    fn held(&self, place: Eras) -> u16
        requires register { place < register_count }
        requires both_banks { place ≢ both_banks }
        requires always_zero { place ≢ always_zero }
        ensures value { result ≡ at self.now place }
        ensures limit { result < cell_limit place }
    {
        self.registers[usize::from(place.number())]
    }

    /// Puts a number into the cell of a register.
    fn hold(&mut self, place: Eras, number: u16)
        requires register { place < register_count }
        requires both_banks { place ≢ both_banks }
        requires always_zero { place ≢ always_zero }
        requires fixed_bank { place ≢ fixed_bank }
        requires limit { number < cell_limit place }
        ensures { self.new ≡ insert self.old place number }
    {
        set(&mut self.registers, usize::from(place.number()), number);
    }

    /// Puts a number into the cell of FB.
    fn hold_fixed_bank(&mut self, number: u16)
        requires { number < 0o40 }
        ensures { self.new ≡ insert self.old fixed_bank number }
    {
        self.selected = selected_bank(number, superbank_in(self.channels[7]));
        set(&mut self.registers, 4, number);
    }

    /// What is read at a place that is no register.
    fn reading(&self, place: Eras) -> Wide
        requires { register_count ≤ place }
        ensures { result ≡ extend (at self.now place) }
    {
        Wide::of_u16(self.erasable[usize::from(place.number())])
    }

    /// Puts a word into the cell of a place that is no register.
    fn keep(&mut self, place: Eras, word: Word)
        requires { register_count ≤ place }
        ensures { self.new ≡ insert self.old place word }
    {
        let index = usize::from(place.number());
        set(&mut self.erasable, index, word.extend().to_u16());
    }

    /// The number in the cell of a channel.
    #[tactic(auto, using(crate::proofs::CellLemmas::channel_view, crate::proofs::CellLemmas::channel_limit))]
    fn held_on(&self, channel: Chan) -> u16
        requires lower_accumulator { channel ≢ lower_accumulator_channel }
        requires return_address { channel ≢ return_address_channel }
        ensures value { result ≡ at self.now (channel_cell channel) }
        ensures limit { result < 0o100000 }
    {
        self.channels[usize::from(channel.number())]
    }

    /// Puts a number into the cell of a channel.
    fn hold_on(&mut self, channel: Chan, number: u16)
        requires lower_accumulator { channel ≢ lower_accumulator_channel }
        requires return_address { channel ≢ return_address_channel }
        requires superbank { channel ≢ superbank_channel }
        requires limit { number < 0o100000 }
        ensures { self.new ≡ insert self.old (channel_cell channel) number }
    {
        set(&mut self.channels, usize::from(channel.number()), number);
    }

    /// Puts a number into the cell of the superbank's channel.
    fn hold_superbank(&mut self, number: u16)
        requires { number < 0o100000 }
        ensures { self.new ≡ insert self.old (channel_cell superbank_channel) number }
    {
        self.selected = selected_bank(self.registers[4], superbank_in(number));
        set(&mut self.channels, 7, number);
    }
}

/// Hands over, at the front of `places` and rising, the erasable places that read differently in
/// two stores, and answers how many they are. The rest of `places` stays.
pub fn changed(one: &Store, other: &Store, places: &mut [u16; 2048]) -> usize
    ensures places { take result places.new ≡ changed_places one.now other.now }
    ensures count { result ≡ length (changed_places one.now other.now) }
    ensures rest { drop result places.new ≡ drop result places.old }
{
    let mut count = 0;
    for number in 0..LANES {
        if one.differs(other, Eras::new(number)) {
            places[count] = number;
            count += 1;
        }
    }
    for chunk in 1..CHUNKS {
        let first = chunk * LANES;
        let differing = one.differing(other, first);
        if differing != 0 {
            for lane in 0..LANES {
                if (differing >> lane) % 2 == 1 {
                    places[count] = first + lane;
                    count += 1;
                }
            }
        }
    }
    count
}

/// What the cell of a register keeps of a wide.
#[tactic(auto, unfolding(crate::specs::Cells::kept, crate::specs::Stored::cell_limit))]
fn kept(place: Eras, value: Wide) -> u16
    requires { place < register_count }
    ensures value { result ≡ kept place value }
    ensures limit { result < cell_limit place }
{
    let word = value.correct();
    if place == Eras::A || place == Eras::Q {
        value.to_u16()
    } else if place == Eras::EB {
        word.to_u16() / 0o400 % 0o10
    } else if place == Eras::FB {
        word.to_u16() / 0o2000
    } else if place == Eras::Z {
        word.to_u16() % 0o10000
    } else {
        word.to_u16()
    }
}

/// What the cell of a place that is no register keeps of a word.
fn edited(place: Eras, word: Word) -> Word
    requires { register_count ≤ place }
    ensures { result ≡ kept_of_word place word }
{
    if place == Eras::CYR {
        word.cyr()
    } else if place == Eras::SR {
        word.sr()
    } else if place == Eras::CYL {
        word.cyl()
    } else if place == Eras::EDOP {
        word.edop()
    } else {
        word
    }
}

/// The superbank bit in the word of its channel.
fn superbank_in(word: u16) -> bool
    ensures { result ≡ superbank_in word }
{
    word / SUPERBANK_BIT % 2 == 1
}

/// Puts a number at one index, and leaves the others.
fn set(numbers: &mut [u16], index: usize, number: u16)
    requires { index < length numbers.old }
    ensures here { slice_index numbers.new index ≡ number }
    ensures others { (q : ℕ) → q ≢ index → slice_index numbers.new q ≡ slice_index numbers.old q }
{
    numbers[index] = number;
}

/// The word of 15 bits.
fn word_of(number: u16) -> Word
    requires { number < 0o100000 }
    ensures { result ≡ number }
{
    Word::of_low_bits(number)
}

fn zero_registers() -> [u16; 8]
    ensures { result ≡ replicate register_count 0 }
{
    [0; 8]
}

fn silent_channels() -> [u16; 512]
    ensures { result ≡ replicate channel_count 0 }
{
    [0; 512]
}
