//! What is known of words that were looked at, by their places: of most nothing is ever told but another bank.

ghost use Rattle.std.specs.Prelude.{◌≡◌, ◌<◌, ◌^◌, IfOk, IfSome, true, false, None, get_or, length, replicate, set};
ghost use Rattle.space.specs.Cells.{at, erasable_bank, fixed_bank, superbank};
ghost use Rattle.space.specs.Places.{selected_bank};
ghost use Rattle.rope.specs.Places.{bank_words, place_number, stands};
ghost use Rattle.yayul.specs.Named.{named_words};
ghost use Rattle.notes.specs.Known.{Knows, KnowsWord, is_calm, is_judged, leads_away, nothing_known, way_of};
ghost use Rattle.notes.specs.Notes.{is_plain, is_plain_code, reaches_other};
ghost use Rattle.notes.specs.Past.{comes_by, is_passed};

use crate::past::{Past, RESUME};
use crate::quiet::is_plain_code;
use crate::sharing::{comes_by, entered_at, is_passed};
use cpu::{Fetched, Machine, Processor, named_address};
use space::{Addr12, Bank, Linear, Offset};
use std::alloc::{AllocError, Global};
use std::marker::Model;
use words::Word;
use yayul::NamedPlaces;

/// How many words a bank of fixed memory holds, and one of erasable memory.
const BANK_WORDS: u16 = space::BANK_WORDS;

const ERASABLE_WORDS: u16 = 0o400;

/// How many places of fixed memory there are, those of the banks 044 to 047 included.
const PLACES: usize = 0o50 * BANK_WORDS as usize;

/// The first addresses of the windows of erasable and of fixed memory, and the first behind both.
const ERASABLE_WINDOW: u16 = 0o1400;

const FIXED_WINDOW: u16 = 0o2000;

const NO_WINDOW: u16 = 0o4000;

/// The first extracode that neither reads a channel nor divides, as none behind it does.
const FIRST_CALM: u16 = 0o12000;

/// The first and the last word of TS, and of CCS.
const FIRST_STORE: u16 = 0o54000;

const LAST_STORE: u16 = 0o55777;

const FIRST_COUNT: u16 = 0o10000;

const NO_COUNT: u16 = 0o12000;

/// By which bank register it is told whether a word reaches another bank.
#[derive(Clone, Copy)]
pub(crate) enum Way {
    /// It never does.
    Nowhere,
    /// By EB, where that is not this bank.
    ByErasable(u16),
    /// By FB and the superbank bit, where they do not select this bank.
    ByFixed(u16),
}

/// What is known of a word, under extracode or not: whether nothing is told of it whatever it finds, but that it
/// reaches another bank, and by which bank register that is told.
#[derive(Clone, Copy)]
pub(crate) struct KnownWord {
    pub(crate) word: u16,
    pub(crate) extra: bool,
    pub(crate) calm: bool,
    pub(crate) way: Way,
}

/// Nothing is known: there is no such word.
const NOTHING_KNOWN: KnownWord = KnownWord {
    word: 0o177777,
    extra: false,
    calm: false,
    way: Way::Nowhere,
};

/// What is known of words, for each place of fixed memory by its number.
#[derive(Drop)]
pub(crate) struct KnownWords {
    words: Vec<KnownWord>,
}

impl Model for KnownWords {
    ghost use Rattle.std.specs.Prelude.{◌≡◌, List, vec_len};
    ghost use Rattle.yayul.specs.Named.{named_words};
    ghost use Rattle.notes.specs.declared.known.KnownWord.{KnownWord as Known};

    ghost Value = { List Known };

    ghost view = { λ k. k.words.items };

    ghost invariant = { λ k. vec_len k.words ≡ named_words };
}

impl KnownWords {
    /// Nothing is known. All memory is taken here.
    pub(crate) fn nothing(alloc: Global) -> Result<KnownWords, AllocError>
        ensures { IfOk result (λ known. known ≡ replicate named_words nothing_known) }
    {
        let mut words = Vec::with_capacity(alloc, PLACES)?;
        words.resize(PLACES, NOTHING_KNOWN)?;
        Ok(KnownWords { words })
    }

    /// Whether an instruction reaches another bank, where it is known that nothing else is told of it.
    #[inline(always)]
    pub(crate) fn recall(
        &self,
        named: &NamedPlaces,
        processor: &Processor,
        machine: &Machine,
        past: &Past,
        fetched: &Fetched,
    ) -> Option<bool>
        requires { Knows named.now self.now }
        ensures plain { IfSome result (λ _. is_plain processor.now.scenario.rope machine.now past.now fetched.now
            ≡ true) }
        ensures reaches { IfSome result (λ reaches. reaches ≡ reaches_other named.now machine.now fetched.now) }
    {
        let Linear::Fixed(bank, offset) = fetched.place else {
            return None;
        };
        let known = self.at(named, bank, offset);
        if is_same_word(&known, fetched)
            && stands_at(processor, bank, offset)
            && is_untold(&known, processor, machine, past, fetched)
        {
            Some(leads_away(machine, known.way))
        } else {
            None
        }
    }

    /// What is known of the word at a place.
    #[inline(always)]
    #[tactic(auto, using(crate::proofs::Recalled::known_at))]
    fn at(&self, named: &NamedPlaces, bank: Bank, offset: Offset) -> KnownWord
        requires { Knows named.now self.now }
        ensures { result.word < 2 ^ 15 → KnowsWord named.now bank offset result }
    {
        let _ = named;
        word_at(&self.words, number_at(bank, offset))
    }

    /// Keeps what is known of an instruction at its place.
    #[inline(never)]
    pub(crate) fn keep(&mut self, named: &NamedPlaces, fetched: &Fetched)
        requires { Knows named.now self.old }
        ensures { Knows named.now self.new }
    {
        if let Linear::Fixed(bank, offset) = fetched.place {
            if let Some(known) = known_of(named, bank, offset, fetched) {
                self.keep_at(named, bank, offset, known);
            }
        }
    }

    /// Keeps what is known of the word at a place.
    fn keep_at(&mut self, named: &NamedPlaces, bank: Bank, offset: Offset, known: KnownWord)
        requires others { Knows named.now self.old }
        requires known { KnowsWord named.now bank offset known }
        ensures { Knows named.now self.new }
    {
        let _ = named;
        let number = number_at(bank, offset);
        self.put(number, known);
    }

    /// Puts what is known of a word at a number.
    fn put(&mut self, number: usize, known: KnownWord)
        requires { number < named_words }
        ensures put { self.new ≡ set self.old number known }
        ensures within { number < length self.old }
    {
        self.words[number] = known;
    }
}

/// One of some words by its number.
#[inline(always)]
fn word_at(words: &[KnownWord], number: usize) -> KnownWord
    requires { number < length words.now }
    ensures { result ≡ get_or words.now number nothing_known }
{
    words[number]
}

/// The number of a place.
#[inline(always)]
fn number_at(bank: Bank, offset: Offset) -> usize
    ensures value { result ≡ place_number bank offset }
    ensures low { offset < bank_words }
    ensures within { result < named_words }
{
    usize::from(bank.number() * BANK_WORDS + offset.number())
}

/// Whether an instruction is the word of which something is known, as its source has it.
#[inline(always)]
fn is_same_word(known: &KnownWord, fetched: &Fetched) -> bool
    ensures word { result ≡ true → known.now.word ≡ fetched.now.word }
    ensures range { result ≡ true → known.now.word < 2 ^ 15 }
    ensures extra { result ≡ true → known.now.extra ≡ fetched.now.extra }
    ensures waited { result ≡ true → fetched.now.waited ≡ false }
    ensures added { result ≡ true → fetched.now.added ≡ None }
{
    known.word == fetched.word.to_u16()
        && known.extra == fetched.extra
        && !fetched.waited
        && fetched.added.is_none()
}

/// Whether a word stands at a place.
#[inline(always)]
fn stands_at(processor: &Processor, bank: Bank, offset: Offset) -> bool
    ensures { result ≡ true → stands processor.now.scenario.rope bank offset ≡ true }
{
    processor.rope().has(bank, offset)
}

/// Whether nothing is told by what it finds of an instruction in fixed memory, of which something is known.
#[inline(always)]
fn is_untold(
    known: &KnownWord,
    processor: &Processor,
    machine: &Machine,
    past: &Past,
    fetched: &Fetched,
) -> bool
    ensures passed { result ≡ true → known.now.calm ≡ false
        → is_passed past.now (comes_by machine.now fetched.now) ≡ true }
    ensures code { result ≡ true → known.now.calm ≡ false
        → is_plain_code processor.now.scenario.rope machine.now fetched.now ≡ true }
{
    known.calm
        || is_passed(past, comes_by(machine, fetched)) && is_plain_code(processor, machine, fetched)
}

/// Whether a word reaches another bank.
#[inline(always)]
fn leads_away(machine: &Machine, way: Way) -> bool
    ensures { result ≡ leads_away machine.now way }
{
    match way {
        Way::Nowhere => false,
        Way::ByErasable(bank) => erasable_bank(machine) != bank,
        Way::ByFixed(bank) => fixed_bank(machine) != bank,
    }
}

/// The bank that EB selects.
#[inline(always)]
#[tactic(auto, unfolding(space::specs::Places::place))]
fn erasable_bank(machine: &Machine) -> u16
    ensures { result ≡ at machine.now.cells erasable_bank }
{
    let address = Addr12::of_low_bits(ERASABLE_WINDOW);
    machine.store().place_in_erasable_window(address).number() / ERASABLE_WORDS
}

/// The bank that FB and the superbank bit select.
#[inline(always)]
#[tactic(auto, unfolding(space::specs::Places::place))]
fn fixed_bank(machine: &Machine) -> u16
    ensures { result ≡ selected_bank (at machine.now.cells fixed_bank) (superbank machine.now.cells) }
{
    let (bank, _) = machine
        .store()
        .place_in_fixed_window(Addr12::of_low_bits(FIXED_WINDOW));
    bank.number()
}

/// What is known of an instruction at a place, if anything.
fn known_of(named: &NamedPlaces, bank: Bank, offset: Offset, fetched: &Fetched) -> Option<KnownWord>
    ensures { IfSome result (λ known. KnowsWord named.now bank offset known) }
{
    let (word, extra) = (fetched.word, fetched.extra);
    match way_of(named.named_at(bank, offset), named_address(word, extra)) {
        Some(way) => Some(KnownWord {
            word: word.to_u16(),
            extra,
            calm: entered_at(bank, offset).is_none() && is_calm(word, extra),
            way,
        }),
        None => None,
    }
}

/// Whether nothing is told of a word, whatever it finds.
fn is_calm(word: Word, extra: bool) -> bool
    ensures { result ≡ is_calm extra word }
{
    if extra {
        word.to_u16() >= FIRST_CALM
    } else {
        word.to_u16() != RESUME && !is_judged(word)
    }
}

/// Whether a word is TS or CCS, of which something is told by what it finds.
fn is_judged(word: Word) -> bool
    ensures { result ≡ is_judged word }
{
    let word = word.to_u16();
    FIRST_STORE <= word && word <= LAST_STORE || FIRST_COUNT <= word && word < NO_COUNT
}

/// By which bank register it is told whether a word reaches another bank than that of the place which its source names.
fn way_of(named: Option<Linear>, address: Option<Addr12>) -> Option<Way>
    ensures { result ≡ way_of named address }
{
    let (Some(named), Some(address)) = (named, address) else {
        return Some(Way::Nowhere);
    };
    let address = address.number();
    match named {
        Linear::Erasable(place) if ERASABLE_WINDOW <= address && address < FIXED_WINDOW => {
            Some(Way::ByErasable(place.number() / ERASABLE_WORDS))
        }
        Linear::Fixed(bank, _) if FIXED_WINDOW <= address && address < NO_WINDOW => {
            Some(Way::ByFixed(bank.number()))
        }
        _ => None,
    }
}
