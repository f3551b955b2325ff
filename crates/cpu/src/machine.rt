//! The machine, and what its parts read and keep.

ghost use Rattle.std.specs.Prelude.{◌≡◌, ◌+◌, ◌<◌, ◌≤◌, ◌^◌, Some, None, IfSome, true, false, []};
ghost use Rattle.space.specs.Cells.{get, get_channel};
ghost use Rattle.space.specs.Places.{IsErasable};
ghost use Rattle.space.specs.declared.place.Linear.{Linear};
ghost use Rattle.cpu.specs.State.{Scenario, start, FitsRun};
ghost use Rattle.cpu.specs.Representation.{HasRoom};
ghost use Rattle.cpu.specs.Effects.{change, changes, next_address, place_in, erasable_in, value_at, operand, edits};
ghost use Rattle.cpu.specs.Effects.Change.{AtPlace, OnChannel, Inhibits, Serves, WaitsWithSum, WaitsWithWord};
ghost use Rattle.cpu.specs.Next.{least_request};
ghost use Rattle.std.specs.FinSet.{contains, empty, insert, remove};
ghost use Rattle.words.specs.Numbers.{correct};
ghost use Rattle.feed.specs.CountsTaken.{counts_after};

use crate::address::Addr10;
use feed::{Interrupt, MOST_SERIES};
use rope::Rope;
use space::resolve::resolve;
use space::{
    Addr12, Bank, Chan, Eras, FIRST_FIXED, FIRST_IN_WINDOW, Linear, Offset, Store, resolve_fixed,
    resolve_unbanked,
};
use std::marker::Model;
use words::{Wide, Word};

/// How many interrupts there are.
const INTERRUPTS: usize = feed::INTERRUPTS as usize;

/// The address at which a run starts.
pub(crate) const FIRST_ADDRESS: u16 = 0o4000;

/// The first address whose bank FB selects.
pub(crate) const FIRST_SWITCHED: u16 = 0o2000;

/// What was read at an address, and the place to which the address led.
#[derive(Clone, Copy)]
pub(crate) struct Reading {
    /// The place.
    pub(crate) place: Linear,
    /// What was read.
    pub(crate) value: Wide,
}

/// The registers, erasable memory, the channels, and what else the next step depends on.
#[derive(Drop)]
pub struct Machine {
    store: Store,
    extra: bool,
    inhibit: bool,
    inside: bool,
    waiting_sum: Option<Wide>,
    waiting_word: Option<Word>,
    requests: [bool; INTERRUPTS],
    asks: bool,
    waits: bool,
    taken: usize,
    counts: [u32; MOST_SERIES],
    cycles: u64,
}

impl Model for Machine {
    ghost use Rattle.cpu.specs.State.{State};
    ghost use Rattle.cpu.specs.Representation.{state_code, requests_of, IsMarked};

    ghost Value = { State };

    ghost coded = { state_code };

    ghost view = { λ m. record {
      cells = m.store;
      extra = m.extra;
      inhibit = m.inhibit;
      inside = m.inside;
      waiting_sum
          = m.waiting_sum;
      waiting_word = m.waiting_word;
      requests = requests_of m.requests;
      taken = m.taken;
      counts
          = m.counts;
      cycles = m.cycles;
    } };

    ghost invariant = { λ m. IsMarked m.requests m.asks m.waiting_sum m.waiting_word m.waits };
}

impl Machine {
    /// The machine in which a run starts: each word is 0, and interrupts are inhibited.
    #[tactic(auto, unfolding(crate::specs::State::start, crate::specs::Representation::requests_of))]
    pub fn start() -> Machine
        ensures start { result ≡ start }
        ensures fits { (scenario : Scenario) → FitsRun scenario result }
    {
        let mut store = Store::zero();
        store.write(Eras::Z, Wide::of_u16(FIRST_ADDRESS));
        Machine {
            store,
            extra: false,
            inhibit: true,
            inside: false,
            waiting_sum: None,
            waiting_word: None,
            requests: [false; INTERRUPTS],
            asks: false,
            waits: false,
            taken: 0,
            counts: [0; MOST_SERIES],
            cycles: 0,
        }
    }

    /// Makes another machine equal to this one.
    pub fn copy_to(&self, other: &mut Machine)
        ensures { other.new ≡ self.now }
    {
        self.store.copy_to(&mut other.store);
        other.extra = self.extra;
        other.inhibit = self.inhibit;
        other.inside = self.inside;
        other.waiting_sum = self.waiting_sum;
        other.waiting_word = self.waiting_word;
        other.requests.copy_from_slice(&self.requests);
        other.asks = self.asks;
        other.waits = self.waits;
        other.taken = self.taken;
        other.counts.copy_from_slice(&self.counts);
        other.cycles = self.cycles;
    }

    /// The cycles since the start.
    pub fn cycles(&self) -> u64
        ensures { result ≡ self.now.cycles }
    {
        self.cycles
    }

    /// What is read at an erasable place: 16 bits at A and Q, elsewhere a word, extended.
    pub fn reg(&self, place: Eras) -> Wide
        ensures { result ≡ get self.now.cells place }
    {
        self.store.read(place)
    }

    /// The word at an erasable place: what is read there, corrected.
    pub fn word(&self, place: Eras) -> Word
        ensures { result ≡ correct (get self.now.cells place) }
    {
        self.reg(place).correct()
    }

    /// What is read at an erasable place that an address names, as most are no registers.
    #[inline(always)]
    pub(crate) fn reg_at(&self, place: Eras) -> Wide
        ensures { result ≡ get self.now.cells place }
    {
        if place.number() > Eras::EDOP.number() {
            self.reg(place)
        } else {
            self.low_reg(place)
        }
    }

    /// The same of a place that may be a register.
    #[inline(never)]
    fn low_reg(&self, place: Eras) -> Wide
        ensures { result ≡ get self.now.cells place }
    {
        self.reg(place)
    }

    /// Stores at an erasable place.
    pub(crate) fn put(&mut self, place: Eras, value: Wide)
        ensures { self.new ≡ change self.old (AtPlace place value) }
    {
        self.store.write(place, value);
    }

    /// What is read on a channel.
    pub fn channel(&self, channel: Chan) -> Wide
        ensures { result ≡ get_channel self.now.cells channel }
    {
        self.store.channel(channel)
    }

    /// Stores on a channel.
    pub(crate) fn set_channel(&mut self, channel: Chan, value: Wide)
        ensures { self.new ≡ change self.old (OnChannel channel value) }
    {
        self.store.set_channel(channel, value);
    }

    /// Z, which after the fetch is the address of the next instruction.
    pub(crate) fn next_address(&self) -> Addr12
        ensures { result ≡ next_address self.now }
    {
        self.store.next_address()
    }

    /// Whether extracode is in force.
    pub fn extra(&self) -> bool
        ensures { result ≡ self.now.extra }
    {
        self.extra
    }

    /// Whether interrupts are inhibited.
    pub fn inhibit(&self) -> bool
        ensures { result ≡ self.now.inhibit }
    {
        self.inhibit
    }

    /// Whether an interrupt is being served.
    pub fn inside(&self) -> bool
        ensures { result ≡ self.now.inside }
    {
        self.inside
    }

    /// The place of Z, where the next word is fetched unless one waits.
    pub fn next_place(&self) -> Linear
        ensures { result ≡ place_in self.now (next_address self.now) }
    {
        self.place(self.next_address())
    }

    /// The registers, erasable memory and the channels.
    pub fn store(&self) -> &Store
        ensures { result.now ≡ self.now.cells }
    {
        &self.store
    }

    /// The sum that waits for the next instruction.
    pub fn waiting_sum(&self) -> Option<Wide>
        ensures { result ≡ self.now.waiting_sum }
    {
        self.waiting_sum
    }

    /// The word that waits to be executed.
    pub fn waiting_word(&self) -> Option<Word>
        ensures { result ≡ self.now.waiting_word }
    {
        self.waiting_word
    }

    /// Whether a sum or a word may wait.
    pub(crate) fn waits(&self) -> bool
        ensures sum { result ≡ false → self.now.waiting_sum ≡ None }
        ensures word { result ≡ false → self.now.waiting_word ≡ None }
    {
        self.waits
    }

    /// Keeps a sum for the next instruction.
    pub(crate) fn wait_with_sum(&mut self, value: Wide)
        ensures { self.new ≡ change self.old (WaitsWithSum value) }
    {
        self.waiting_sum = Some(value);
        self.waits = true;
    }

    /// Keeps a word to be executed.
    pub(crate) fn wait_with_word(&mut self, word: Word)
        ensures { self.new ≡ change self.old (WaitsWithWord word) }
    {
        self.waiting_word = Some(word);
        self.waits = true;
    }

    /// Inhibits interrupts, or allows them.
    pub(crate) fn set_inhibit(&mut self, inhibit: bool)
        ensures { self.new ≡ change self.old (Inhibits inhibit) }
    {
        self.inhibit = inhibit;
    }

    /// Begins to serve an interrupt, or ends it.
    pub(crate) fn set_inside(&mut self, inside: bool)
        ensures { self.new ≡ change self.old (Serves inside) }
    {
        self.inside = inside;
    }

    /// The least of the interrupts that are asked for.
    pub(crate) fn least_request(&self) -> Option<Interrupt>
        ensures { result ≡ least_request self.now.requests }
    {
        if !self.asks {
            return None;
        }
        for number in 1..feed::INTERRUPTS + 1 {
            if self.requests[usize::from(number) - 1] {
                return Some(Interrupt::new(number));
            }
        }
        None
    }

    /// Whether an interrupt is asked for.
    #[tactic(auto, using(crate::proofs::RequestLemmas::contains_asked))]
    pub fn is_asked(&self, request: Interrupt) -> bool
        ensures { result ≡ contains self.now.requests request }
    {
        let index = request.index();
        self.requests[index]
    }

    /// Whether an interrupt may be asked for.
    pub(crate) fn asks(&self) -> bool
        ensures { result ≡ false → least_request self.now.requests ≡ None }
    {
        self.asks
    }

    /// An interrupt is asked for.
    pub(crate) fn ask(&mut self, request: Interrupt)
        ensures { self.new ≡ record self.old { requests = insert self.old.requests request } }
    {
        self.requests[request.index()] = true;
        self.asks = true;
    }

    /// An interrupt is no longer asked for.
    pub(crate) fn withdraw(&mut self, request: Interrupt)
        ensures { self.new ≡ record self.old { requests = remove self.old.requests request } }
    {
        self.requests[request.index()] = false;
        self.asks = true;
        self.asks = self.least_request().is_some();
    }

    /// No interrupt is asked for any more.
    #[tactic(auto, unfolding(crate::specs::Representation::requests_of))]
    pub(crate) fn withdraw_all(&mut self)
        ensures { self.new ≡ record self.old { requests = empty } }
    {
        self.requests = [false; INTERRUPTS];
        self.asks = true;
        self.asks = self.least_request().is_some();
    }

    /// How many inputs were taken.
    pub(crate) fn taken(&self) -> usize
        ensures { result ≡ self.now.taken }
    {
        self.taken
    }

    /// How many of the inputs taken are from each series.
    pub(crate) fn counts(&self) -> &[u32; MOST_SERIES]
        ensures { result.now ≡ self.now.counts }
    {
        &self.counts
    }

    /// One input more was taken, from this series or plain.
    pub(crate) fn count_input(&mut self, series: Option<usize>)
        ensures cycles { self.new.cycles ≡ self.old.cycles }
        ensures counted { HasRoom self.old → self.new
            ≡ record self.old { taken = self.old.taken + 1; counts = counts_after self.old.counts series } }
    {
        self.taken = self.taken.saturating_add(1);
        if let Some(series) = series
            && series < MOST_SERIES
        {
            self.counts[series] = self.counts[series].saturating_add(1);
        }
    }

    /// Adds to the cycles.
    pub(crate) fn add_cycles(&mut self, cycles: u64)
        requires { self.old.cycles + cycles < 2 ^ 64 }
        ensures { self.new ≡ record self.old { cycles = self.old.cycles + cycles } }
    {
        self.cycles += cycles;
    }

    /// Uses up what waits.
    pub(crate) fn use_up(&mut self)
        ensures { self.new ≡ record self.old { waiting_sum = None; waiting_word = None } }
    {
        self.waiting_sum = None;
        self.waiting_word = None;
        self.waits = false;
    }

    /// Ends an instruction: whether extracode is in force for the next one, and the cycles.
    pub(crate) fn end_instruction(&mut self, extra: bool, cycles: u64)
        ensures { self.new ≡ record self.old { extra = extra; cycles = cycles } }
    {
        self.extra = extra;
        self.cycles = cycles;
    }

    /// Ends an instruction as `end_instruction` does, where extracode is known to have been in force before it or not.
    #[inline(always)]
    pub(crate) fn end_plain(&mut self, before: bool, extra: bool, end: u64)
        requires { self.old.extra ≡ before }
        ensures { self.new ≡ record self.old { extra = extra; cycles = end } }
    {
        if extra != before {
            self.extra = extra;
        }
        self.cycles = end;
    }

    /// The place to which an address leads.
    #[tactic(auto, unfolding(crate::specs::Effects::place_in))]
    pub(crate) fn place(&self, address: Addr12) -> Linear
        ensures place { result ≡ place_in self.now address }
        ensures low { address < 0o2000 → IsErasable result }
    {
        resolve(address, self.store.banks())
    }

    /// The erasable place to which an address of 10 bits leads.
    #[inline(always)]
    #[tactic(auto, unfolding(crate::specs::Effects::erasable_in, crate::specs::Effects::place_in))]
    pub(crate) fn erasable(&self, address: Addr10) -> Eras
        ensures { result ≡ erasable_in self.now address }
    {
        if address.number() < FIRST_IN_WINDOW {
            resolve_unbanked(address.widen())
        } else {
            self.erasable_in_window(address)
        }
    }

    /// The erasable place to which an address leads, where the erasable bank counts.
    #[inline(always)]
    #[tactic(auto, unfolding(crate::specs::Effects::erasable_in, crate::specs::Effects::place_in))]
    fn erasable_in_window(&self, address: Addr10) -> Eras
        requires { 0o1400 ≤ address }
        ensures { result ≡ erasable_in self.now address }
    {
        self.store.place_in_erasable_window(address.widen())
    }

    /// The bank and the offset to which an address leads whose bank FB and the superbank bit select.
    #[inline(always)]
    #[tactic(auto, unfolding(crate::specs::Effects::place_in))]
    pub(crate) fn switched(&self, address: Addr12) -> (Bank, Offset)
        requires first { 0o2000 ≤ address }
        requires last { address < 0o4000 }
        ensures { place_in self.now address ≡ Linear.Fixed result.0 result.1 }
    {
        self.store.place_in_fixed_window(address)
    }

    /// What is read at a place.
    #[tactic(auto, unfolding(crate::specs::Effects::value_at))]
    pub(crate) fn value_at(&self, rope: &Rope, place: &Linear) -> Wide
        ensures { result ≡ value_at rope.now self.now place.now }
    {
        match *place {
            Linear::Erasable(place) => self.reg(place),
            Linear::Fixed(bank, offset) => rope.word(bank, offset).extend(),
        }
    }

    /// The word at a place: what is read there, corrected.
    #[tactic(auto, unfolding(crate::specs::Effects::value_at))]
    pub(crate) fn word_at(&self, rope: &Rope, place: &Linear) -> Word
        ensures { result ≡ correct (value_at rope.now self.now place.now) }
    {
        match *place {
            Linear::Erasable(place) => self.word(place),
            Linear::Fixed(bank, offset) => rope.word(bank, offset),
        }
    }

    /// What is read at an address, and where. Only an address in a window needs the bank registers.
    #[inline(always)]
    pub(crate) fn reading(&self, rope: &Rope, address: Addr12) -> Reading
        ensures place { result.place ≡ place_in self.now address }
        ensures value { result.value ≡ operand rope.now self.now address }
    {
        if address.number() >= FIRST_SWITCHED {
            self.reading_fixed(rope, address)
        } else {
            self.reading_erasable(rope, address)
        }
    }

    /// The same of an address that leads to fixed memory, where nothing edits.
    #[inline(always)]
    #[tactic(auto, unfolding(crate::specs::Effects::place_in, crate::specs::Effects::value_at, crate::specs::Effects::edits))]
    pub(crate) fn reading_fixed(&self, rope: &Rope, address: Addr12) -> Reading
        requires { 0o2000 ≤ address }
        ensures place { result.place ≡ place_in self.now address }
        ensures value { result.value ≡ operand rope.now self.now address }
        ensures edits { edits result.place result.value ≡ [] }
    {
        if address.number() >= FIRST_FIXED {
            let (bank, offset) = resolve_fixed(address);
            Reading {
                place: Linear::Fixed(bank, offset),
                value: rope.word(bank, offset).extend(),
            }
        } else {
            let (bank, offset) = self.switched(address);
            Reading {
                place: Linear::Fixed(bank, offset),
                value: rope.word(bank, offset).extend(),
            }
        }
    }

    /// The same of an address, where it leads to a place that does not edit and is no register.
    #[inline(always)]
    #[tactic(auto, unfolding(crate::specs::Effects::value_at, crate::specs::Effects::edits))]
    pub(crate) fn reading_plain(&self, rope: &Rope, address: Addr12) -> Option<Reading>
        ensures place { IfSome result (λ reading. reading.place ≡ place_in self.now address) }
        ensures value { IfSome result (λ reading. reading.value ≡ operand rope.now self.now address) }
        ensures edits { IfSome result (λ reading. edits reading.place reading.value ≡ []) }
        ensures low { result ≡ None → address < 0o2000 }
    {
        if address.number() >= FIRST_SWITCHED {
            return Some(self.reading_fixed(rope, address));
        }
        let place = self.erasable_at(address);
        if place.number() > Eras::EDOP.number() {
            let value = self.reg(place);
            Some(Reading {
                place: Linear::Erasable(place),
                value,
            })
        } else {
            None
        }
    }

    /// The same of an address that leads to an erasable place.
    #[inline(never)]
    #[tactic(auto, unfolding(crate::specs::Effects::value_at))]
    pub(crate) fn reading_erasable(&self, rope: &Rope, address: Addr12) -> Reading
        requires { address < 0o2000 }
        ensures place { result.place ≡ place_in self.now address }
        ensures value { result.value ≡ operand rope.now self.now address }
    {
        let place = self.erasable_at(address);
        Reading {
            place: Linear::Erasable(place),
            value: self.reg(place),
        }
    }

    /// The erasable place to which an address leads.
    #[inline(always)]
    #[tactic(auto, unfolding(crate::specs::Effects::place_in))]
    fn erasable_at(&self, address: Addr12) -> Eras
        requires { address < 0o2000 }
        ensures { place_in self.now address ≡ Linear.Erasable result }
    {
        if address.number() < FIRST_IN_WINDOW {
            resolve_unbanked(address)
        } else {
            self.store.place_in_erasable_window(address)
        }
    }

    /// Stores a word again that was read at an editing place.
    #[tactic(auto, unfolding(crate::specs::Effects::edits))]
    pub(crate) fn edit(&mut self, reading: &Reading)
        ensures { self.new ≡ changes self.old (edits reading.now.place reading.now.value) }
    {
        if let Linear::Erasable(place) = reading.place {
            let number = place.number();
            if number >= Eras::CYR.number() && number <= Eras::EDOP.number() {
                self.put(place, reading.value);
            }
        }
    }
}

/// Takes a machine apart. No field is left out, so one more, as of a past, is refused here: an image is what is
/// counted.
fn all_fields(
    machine: &Machine,
) -> (
    &Store,
    [&bool; 5],
    &Option<Wide>,
    &Option<Word>,
    &[bool; 10],
    &[u32; 16],
    &usize,
    &u64,
) {
    let Machine {
        store,
        extra,
        inhibit,
        inside,
        waiting_sum,
        waiting_word,
        requests,
        asks,
        waits,
        taken,
        counts,
        cycles,
    } = machine;
    let flags = [extra, inhibit, inside, asks, waits];
    (
        store,
        flags,
        waiting_sum,
        waiting_word,
        requests,
        counts,
        taken,
        cycles,
    )
}
