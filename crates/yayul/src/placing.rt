//! The words that lines ask for, in their places.

ghost use Rattle.std.specs.Prelude.{◌≡◌, ◌+◌, ◌<◌, ◌≤◌, ◌++◌, ◌∷◌, [], ℕ, List, false, get_or, replicate, map, IfOk};
ghost use Rattle.std.specs.Prelude.{OnOk};
ghost use Rattle.std.specs.Result.{result_map_both, result_unwrap_or};
ghost use Rattle.rope.specs.Places.{bank_words, stands};
ghost use Rattle.yayul.specs.Layout.{Request, start, width};
ghost use Rattle.yayul.specs.Language.{Language};
ghost use Rattle.yayul.specs.Inside.Answers.{Keeps, Settles, TakesWords, PlacesWords};
ghost use Rattle.yayul.specs.Inside.Representation.{request_of, words_in, holds_word_at, bank_target_by, is_undefined};
ghost use Rattle.yayul.specs.Inside.Sound.{IsLocation};
ghost use Rattle.yayul.specs.Inside.Waiting.{Holds};

use crate::faults::{Fault, FaultKind, lesser_on};
use crate::language::{BankRange, Location, Numeral};
use crate::layout::{BANKS, Placing};
use crate::request::WordRequest;
use crate::word::{LineWords, content_words, patch, put_words, request_fault};
use rope::{Rope, RopeFault};
use std::alloc::{AllocError, Global};
use symbols::{FixedBank, Symbols};

impl Placing {
    /// No words.
    pub(crate) fn start(alloc: Global) -> Result<Placing, RopeFault>
        ensures { IfOk result (λ p. (language : Language) → Keeps 1 (start language) p) }
    {
        let rope = Rope::empty(alloc)?;
        Ok(Placing {
            rope,
            ends: [0; BANKS],
            waiting: Vec::new(alloc),
            fault: None,
        })
    }

    /// The location past the words of a bank that the operator takes.
    pub(crate) fn bank_target(
        &self,
        range: BankRange,
        number: Numeral,
    ) -> Result<Location, FaultKind>
        ensures value { result ≡ bank_target_by self.now.ends range number }
        ensures located { IfOk result IsLocation }
    {
        match number {
            Numeral::Is(number) => match range.bank(number.to_u16()) {
                Some(bank) => Ok(self.past_bank(bank)),
                None => Err(FaultKind::BadBank),
            },
            Numeral::TooLarge => Err(FaultKind::BadBank),
            Numeral::NoForm => Err(FaultKind::BadOperand),
        }
    }

    // The location past the words of a bank.
    fn past_bank(&self, bank: FixedBank) -> Location
        ensures value { result ≡ Location.Fixed bank (get_or self.now.ends bank 0) }
        ensures located { IsLocation result }
    {
        Location::Fixed(bank, self.ends[usize::from(bank.bank().number())])
    }

    /// Whether a word stands at a location already.
    pub(crate) fn is_taken_at(&self, here: Location) -> bool
        ensures { result ≡ holds_word_at self.now.rope here }
    {
        match here.word_place() {
            Some(place) => self.rope.has(place.0.bank(), place.1),
            None => false,
        }
    }

    /// Puts the words of a request, whose symbols are those of lines so far, or zeros in their places.
    pub(crate) fn take(&mut self, symbols: &Symbols, request: WordRequest) -> Result<(), AllocError>
        requires room { request.offset + width request.content ≤ bank_words }
        requires free { stands self.old.rope request.bank request.offset ≡ false }
        requires next_free { 1 < width request.content
            → stands self.old.rope request.bank (request.offset + 1) ≡ false }
        ensures { OnOk result (TakesWords symbols.now (request_of request) self.old self.new) }
    {
        let bank = request.bank;
        let offset = request.offset;
        let end = offset.number() + request.content.width() as u16;
        let words = content_words(symbols, &request);
        let standing = words_or_zeros(&request, &words);
        self.settle(request, &words)?;
        put_words(&mut self.rope, bank, offset, standing);
        let i = usize::from(bank.bank().number());
        self.ends[i] = self.ends[i].max(end);
        Ok(())
    }

    // Puts a request aside that waits for its symbol, and holds the fault of another.
    fn settle(
        &mut self,
        request: WordRequest,
        words: &Result<LineWords, FaultKind>,
    ) -> Result<(), AllocError>
        ensures settles { OnOk result (Settles (request_of request) (result_map_both words_in (λ kind. kind) words.now)
            self.old self.new) }
        ensures rope { self.new.rope ≡ self.old.rope }
        ensures ends { self.new.ends ≡ self.old.ends }
    {
        if is_undefined(words) {
            self.waiting.push(request)?;
        } else {
            self.fault = lesser_on(self.fault, request.line, request_fault(&request, words));
        }
        Ok(())
    }

    /// The words of all requests, or their least fault, where the symbols are those of the whole source.
    pub(crate) fn complete(self, symbols: &Symbols) -> Result<Rope, Fault>
        ghost requests: { List Request }
        requires { (line : ℕ) × Holds line symbols.now requests (map request_of self.waiting.items) self.rope
            self.fault }
        ensures { PlacesWords symbols.now requests result }
    {
        let Placing {
            mut rope,
            waiting,
            mut fault,
            ..
        } = self;
        for request in &waiting {
            fault = lesser_on(fault, request.line, patch(&mut rope, symbols, request));
        }
        match fault {
            Some(fault) => Err(fault),
            None => Ok(rope),
        }
    }
}

// The words of a request, zeros where it has a fault.
fn words_or_zeros(request: &WordRequest, words: &Result<LineWords, FaultKind>) -> LineWords
    ensures { words_in result ≡ result_unwrap_or (result_map_both words_in (λ kind. kind) words.now)
        (replicate (width request.now.content) 0) }
{
    match words {
        Ok(words) => *words,
        Err(_) => request.content.zeros(),
    }
}

// Whether a symbol is not defined.
fn is_undefined(words: &Result<LineWords, FaultKind>) -> bool
    ensures { result ≡ is_undefined (result_map_both words_in (λ kind. kind) words.now) }
{
    matches!(words, Err(FaultKind::Undefined))
}
