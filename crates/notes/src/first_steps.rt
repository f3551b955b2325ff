//! The steps in which some kind has happened for the first time at its place.

ghost use Rattle.std.specs.Prelude.{◌≡◌, IfOk};
ghost use Rattle.notes.specs.Counted.{AddsFirst, Lists, nothing_listed, some_first};

use std::alloc::{AllocError, Global};
use std::marker::Model;

/// How many steps are listed at most.
const MOST_LISTED: usize = 4096;

/// Which kinds happen in a step for the first time at its place.
#[derive(Clone, Copy, Drop)]
pub(crate) struct Firsts {
    pub(crate) quotient: bool,
    pub(crate) skip: bool,
    pub(crate) no_word: bool,
    pub(crate) in_erasable: bool,
    pub(crate) no_handler: bool,
    pub(crate) other_bank: bool,
    pub(crate) not_kept: bool,
    pub(crate) minus_zero: bool,
    pub(crate) overwritten: bool,
    pub(crate) shared: bool,
    pub(crate) fixed_bank: bool,
}

/// No kind does.
pub(crate) const NO_FIRSTS: Firsts = Firsts {
    quotient: false,
    skip: false,
    no_word: false,
    in_erasable: false,
    no_handler: false,
    other_bank: false,
    not_kept: false,
    minus_zero: false,
    overwritten: false,
    shared: false,
    fixed_bank: false,
};

impl Firsts {
    /// Whether some do.
    #[inline(always)]
    pub(crate) fn has_some(&self) -> bool
        ensures { result ≡ some_first self.now }
    {
        self.quotient
            || self.skip
            || self.no_word
            || self.in_erasable
            || self.no_handler
            || self.other_bank
            || self.not_kept
            || self.minus_zero
            || self.overwritten
            || self.shared
            || self.fixed_bank
    }
}

/// A step by its number, and which kinds happen in it for the first time.
#[derive(Clone, Copy, Drop)]
pub(crate) struct FirstStep {
    pub(crate) number: u64,
    pub(crate) kinds: Firsts,
}

/// Such steps in their order, and whether each is among them: where more come than find room, those are not.
#[derive(Drop)]
pub(crate) struct FirstSteps {
    steps: Vec<FirstStep>,
    complete: bool,
}

impl Model for FirstSteps {
    ghost use Rattle.notes.specs.Counted.{Listed};

    ghost Value = { Listed };

    ghost view = { λ f. record { steps = f.steps.items; complete = f.complete } };
}

impl FirstSteps {
    /// There is none. All memory is taken here.
    pub(crate) fn new(alloc: Global) -> Result<FirstSteps, AllocError>
        ensures { IfOk result (λ steps. steps ≡ nothing_listed) }
    {
        let steps = Vec::with_capacity(alloc, MOST_LISTED)?;
        Ok(FirstSteps {
            steps,
            complete: true,
        })
    }

    /// Lists a step of some kinds, where there are any.
    #[inline(always)]
    pub(crate) fn list(&mut self, kinds: Firsts, number: u64)
        ensures { Lists kinds number self.old self.new }
    {
        if kinds.has_some() {
            self.add(FirstStep { number, kinds });
        }
    }

    /// Adds a step behind all others, where there is room.
    #[inline(never)]
    fn add(&mut self, step: FirstStep)
        ensures { AddsFirst step self.old self.new }
    {
        if self.steps.len() >= MOST_LISTED || self.steps.push(step).is_err() {
            self.complete = false;
        }
    }

    /// The steps.
    pub(crate) fn steps(&self) -> &[FirstStep]
        ensures { result.now ≡ self.now.steps }
    {
        &self.steps
    }

    /// Whether each is among them.
    pub(crate) fn is_complete(&self) -> bool
        ensures { result ≡ self.now.complete }
    {
        self.complete
    }
}
