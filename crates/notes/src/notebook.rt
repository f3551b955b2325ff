//! How often each kind has happened, by where.

ghost use Rattle.std.specs.Prelude.{◌≡◌, ◌+◌, ◌-◌, ◌<◌, ◌≤◌, ◌^◌, IfOk, None, get_or, if◌then◌else◌, false, true};
ghost use Rattle.cpu.specs.declared.account.Account.TheVariants.{Place};
ghost use Rattle.cpu.specs.declared.next_step.NextStep.TheVariants.{Executes};
ghost use Rattle.cpu.specs.Bursts.{IsQuiet};
ghost use Rattle.cpu.specs.Next.{next, word_at_z};
ghost use Rattle.cpu.specs.NextStep.{next_step};
ghost use Rattle.cpu.specs.Run.{run};
ghost use Rattle.cpu.specs.Silent.{IsSilent};
ghost use Rattle.cpu.specs.State.{FitsRun, Scenario};
ghost use Rattle.cover.specs.Tallies.{account_count, account_number};
ghost use Rattle.notes.specs.declared.kind.Kind.TheVariants.{FixedBank, OtherBank};
ghost use Rattle.notes.specs.Counted.{AreSmall, Counted, Notes, Takes, counts_of, first_of, rewound, taken, taken_at};
ghost use Rattle.notes.specs.Counted.{told_of};
ghost use Rattle.notes.specs.Notes.{is_erasable, is_plain, is_plain_step, place_named, reaches_in};
ghost use Rattle.notes.specs.Notes.{reaches_other};
ghost use Rattle.notes.specs.Reached.{CountsPlain};

use crate::first_steps::{FirstSteps, Firsts, NO_FIRSTS};
use crate::kind::Kind;
use crate::known::KnownWords;
use crate::ledger::Ledger;
use crate::other_bank::{names_erasable, names_erasable_in, reaches_other};
use crate::past::Past;
use crate::quiet::{is_plain, is_plain_step, is_return, plain_fetched, reaches_in};
use crate::step::{account_of, happens};
use crate::waits::Waits;
use cover::{Recorder, number_of, record_plain_steps};
use cpu::{Account, Fetched, Machine, NextStep, Processor};
use space::Linear;
use std::alloc::{AllocError, Global};
use std::marker::Model;
use yayul::NamedPlaces;

/// How often each kind has happened in the steps of a run, by where, and since when each interrupt is asked for.
#[derive(Drop)]
pub struct Notebook {
    named: NamedPlaces,
    quotients: Ledger,
    skips: Ledger,
    no_words: Ledger,
    in_erasable: Ledger,
    no_handlers: Ledger,
    other_banks: Ledger,
    not_kept: Ledger,
    minus_zeros: Ledger,
    overwritten: Ledger,
    shared: Ledger,
    fixed_banks: Ledger,
    waits: Waits,
    past: Past,
    steps: u64,
    last: u64,
    firsts: FirstSteps,
    known: KnownWords,
}

impl Model for Notebook {
    ghost use Rattle.std.specs.Prelude.{◌∷◌, []};
    ghost use Rattle.notes.specs.Counted.{Book};
    ghost use Rattle.notes.specs.Known.{Knows};

    ghost Value = { Book };

    ghost view = { λ n. record {
      named = n.named;
      counts = n.quotients ∷ n.skips ∷ n.no_words ∷ n.in_erasable
          ∷ n.no_handlers ∷ n.other_banks ∷ n.not_kept ∷ n.minus_zeros ∷ n.overwritten ∷ n.shared
          ∷ n.fixed_banks ∷ [];
      waits = n.waits;
      past = n.past;
      steps = n.steps;
      last = n.last;
      firsts = n.firsts;
    } };

    ghost invariant = { λ n. Knows n.named n.known };
}

/// How often each kind happens that is told at a step: 0 of what is not told there.
#[derive(Clone, Copy, PartialEq, Eq, Debug, Drop)]
pub(crate) struct Told {
    pub(crate) quotients: u64,
    pub(crate) skips: u64,
    pub(crate) no_words: u64,
    pub(crate) in_erasable: u64,
    pub(crate) no_handlers: u64,
    pub(crate) other_banks: u64,
    pub(crate) not_kept: u64,
    pub(crate) minus_zeros: u64,
    pub(crate) overwritten: u64,
    pub(crate) shared: u64,
    pub(crate) fixed_banks: u64,
}

/// Nothing is told.
pub(crate) const NOTHING: Told = Told {
    quotients: 0,
    skips: 0,
    no_words: 0,
    in_erasable: 0,
    no_handlers: 0,
    other_banks: 0,
    not_kept: 0,
    minus_zeros: 0,
    overwritten: 0,
    shared: 0,
    fixed_banks: 0,
};

impl Notebook {
    /// Nothing has happened in runs of a program whose words name some places. All memory is taken here.
    pub fn new(alloc: Global, named: NamedPlaces) -> Result<Notebook, AllocError>
        ensures { IfOk result (λ notebook. (scenario : Scenario) → Counted named scenario 0 notebook) }
    {
        Ok(Notebook {
            named,
            quotients: Ledger::new(alloc)?,
            skips: Ledger::new(alloc)?,
            no_words: Ledger::new(alloc)?,
            in_erasable: Ledger::new(alloc)?,
            no_handlers: Ledger::new(alloc)?,
            other_banks: Ledger::new(alloc)?,
            not_kept: Ledger::new(alloc)?,
            minus_zeros: Ledger::new(alloc)?,
            overwritten: Ledger::new(alloc)?,
            shared: Ledger::new(alloc)?,
            fixed_banks: Ledger::new(alloc)?,
            waits: Waits::none(),
            past: Past::none(),
            steps: 0,
            last: 0,
            firsts: FirstSteps::new(alloc)?,
            known: KnownWords::nothing(alloc)?,
        })
    }

    /// Notes what happens in the next step.
    pub fn note(&mut self, processor: &Processor, machine: &Machine)
        requires fits { FitsRun processor.now.scenario machine.now }
        requires cycles { machine.now.cycles ≤ 2 ^ 62 }
        requires small { AreSmall self.old }
        ensures { Notes processor.now.scenario machine.now self.old self.new }
    {
        match plain_fetched(processor, machine, &self.past) {
            Some(fetched) => self.note_plain(processor, machine, &fetched),
            None => self.note_other(processor, machine),
        }
    }

    /// The same, where the short test has not let the step pass.
    #[inline(never)]
    fn note_other(&mut self, processor: &Processor, machine: &Machine)
        requires fits { FitsRun processor.now.scenario machine.now }
        requires cycles { machine.now.cycles ≤ 2 ^ 62 }
        requires small { AreSmall self.old }
        ensures { Notes processor.now.scenario machine.now self.old self.new }
    {
        let step = processor.next_step(machine);
        match step {
            NextStep::Executes(fetched) if is_plain(processor, machine, &self.past, &fetched) => {
                self.note_plain(processor, machine, &fetched)
            }
            _ => self.note_step(processor, machine, &step),
        }
    }

    /// Notes what happens in the next step, where that is nothing but that another bank is reached.
    #[inline(always)]
    fn note_plain(&mut self, processor: &Processor, machine: &Machine, fetched: &Fetched)
        requires step { Executes fetched.now ≡ next_step processor.now.scenario machine.now }
        requires plain { is_plain processor.now.scenario.rope machine.now self.old.past fetched.now ≡ true }
        requires small { AreSmall self.old }
        ensures { Notes processor.now.scenario machine.now self.old self.new }
    {
        let _ = processor;
        let reaches = reaches_other(&self.named, machine, fetched);
        self.count_plain(fetched.place, reaches);
    }

    /// Counts a step at a place, of which nothing is told but, it may be, that it reaches another bank.
    #[inline(always)]
    fn count_plain(&mut self, place: Linear, reaches: bool)
        requires small { AreSmall self.old }
        ensures { CountsPlain (account_number (Place place)) reaches
            (is_erasable (place_named self.old.named place)) self.old self.new }
    {
        if reaches {
            self.count_reach(place);
        } else {
            self.steps += 1;
        }
    }

    /// Counts a step at a place that reaches another bank.
    #[inline(always)]
    fn count_reach(&mut self, place: Linear)
        requires small { AreSmall self.old }
        ensures { CountsPlain (account_number (Place place)) true
            (is_erasable (place_named self.old.named place)) self.old self.new }
    {
        let number = number_of(Account::Place(place));
        let is_erasable = names_erasable(&self.named, &place);
        self.count_reached(number, is_erasable);
    }

    /// Counts a step at a number that reaches another bank than that of the erasable place which its source names, or
    /// of a fixed one. (What is handed on are numbers, which need not be put into memory.)
    #[inline(never)]
    fn count_reached(&mut self, number: usize, is_erasable: bool)
        requires within { number < account_count }
        requires erasable { get_or (counts_of self.old OtherBank) number 0 ≤ 2 ^ 62 }
        requires fixed { get_or (counts_of self.old FixedBank) number 0 ≤ 2 ^ 62 }
        requires steps { self.old.steps ≤ 2 ^ 62 }
        ensures { CountsPlain number true is_erasable self.old self.new }
    {
        let first_other_bank = self.other_banks.count(number, is_erasable);
        let first_fixed_bank = self.fixed_banks.count(number, !is_erasable);
        let kinds = Firsts {
            other_bank: first_other_bank,
            fixed_bank: first_fixed_bank,
            ..NO_FIRSTS
        };
        self.steps += 1;
        let is_first = kinds.has_some();
        self.last = latest(is_first, self.steps, self.last);
        self.firsts.list(kinds, self.steps);
    }

    /// Makes more steps of a run of which some are done, and notes them, as long as they are plain ones that come one
    /// after another, of which nothing is told but that another bank is reached. They put nothing out. Answers how many
    /// the run has made then.
    pub fn note_plain_steps(
        &mut self,
        processor: &mut Processor,
        machine: &mut Machine,
        done: u64,
        stop: u64,
    ) -> u64
        requires within { done ≤ stop }
        requires few { stop ≤ 2 ^ 40 }
        requires state { machine.old ≡ run processor.old.scenario done }
        requires counted { Counted self.old.named processor.old.scenario done self.old }
        ensures past { done ≤ result }
        ensures within { result ≤ stop }
        ensures scenario { processor.new.scenario ≡ processor.old.scenario }
        ensures meter { processor.new.meter + done ≤ processor.old.meter + result }
        ensures state { machine.new ≡ run processor.old.scenario result }
        ensures silent { IsSilent processor.old.scenario done result }
        ensures counted { Counted self.old.named processor.old.scenario result self.new }
    {
        record_plain_steps(self, processor, machine, done, stop)
    }

    /// Makes the step behind step `done`, of so many quiet ones, and counts it, where nothing is told of it but, it may
    /// be, that it reaches another bank; else leaves all as it is.
    #[inline(always)]
    fn record_reaching(
        &mut self,
        processor: &Processor,
        machine: &mut Machine,
        fetched: &Fetched,
        reaches: bool,
        done: u64,
        quiet: u64,
    ) -> bool
        requires few { done < 2 ^ 40 }
        requires quiet { IsQuiet processor.now.scenario machine.old quiet }
        requires some { 1 ≤ quiet }
        requires state { machine.old ≡ run processor.now.scenario done }
        requires counted { Counted self.old.named processor.now.scenario done self.old }
        requires step { Executes fetched.now ≡ next_step processor.now.scenario machine.old }
        requires word { fetched.now.word ≡ word_at_z processor.now.scenario.rope machine.old }
        requires plain { is_plain processor.now.scenario.rope machine.old self.old.past fetched.now ≡ true }
        requires reaches { reaches ≡ reaches_other self.old.named machine.old fetched.now }
        ensures left { result ≡ false → machine.new ≡ machine.old }
        ensures same { result ≡ false → self.new ≡ self.old }
        ensures made { result ≡ true → (machine.new, None) ≡ next processor.now.scenario machine.old }
        ensures quiet { result ≡ true → IsQuiet processor.now.scenario machine.new (quiet - 1) }
        ensures kept { result ≡ true → self.new.named ≡ self.old.named }
        ensures counted { result ≡ true → Counted self.old.named processor.now.scenario (done + 1) self.new }
    {
        let _ = done;
        if !processor.make_plain(machine, fetched.word, quiet) {
            return false;
        }
        self.count_plain(fetched.place, reaches);
        true
    }

    /// The same of any step, where it is plain; what is known of it then is kept.
    #[inline(never)]
    fn record_other(
        &mut self,
        processor: &Processor,
        machine: &mut Machine,
        done: u64,
        quiet: u64,
    ) -> bool
        requires few { done < 2 ^ 40 }
        requires quiet { IsQuiet processor.now.scenario machine.old quiet }
        requires some { 1 ≤ quiet }
        requires state { machine.old ≡ run processor.now.scenario done }
        requires counted { Counted self.old.named processor.now.scenario done self.old }
        ensures left { result ≡ false → machine.new ≡ machine.old }
        ensures same { result ≡ false → self.new ≡ self.old }
        ensures made { result ≡ true → (machine.new, None) ≡ next processor.now.scenario machine.old }
        ensures quiet { result ≡ true → IsQuiet processor.now.scenario machine.new (quiet - 1) }
        ensures kept { result ≡ true → self.new.named ≡ self.old.named }
        ensures counted { result ≡ true → Counted self.old.named processor.now.scenario (done + 1) self.new }
    {
        let fetched = processor.fetched(machine, quiet);
        if !is_plain(processor, machine, &self.past, &fetched) {
            return self.record_return(processor, machine, done, quiet);
        }
        self.known.keep(&self.named, &fetched);
        let reaches = reaches_other(&self.named, machine, &fetched);
        self.record_reaching(processor, machine, &fetched, reaches, done, quiet)
    }

    /// Makes the step behind step `done`, of so many quiet ones, and counts it, where it is at Q, to which RETURN
    /// leads, a way back to fixed memory; else leaves all as it is.
    #[inline(never)]
    fn record_return(
        &mut self,
        processor: &Processor,
        machine: &mut Machine,
        done: u64,
        quiet: u64,
    ) -> bool
        requires few { done < 2 ^ 40 }
        requires quiet { IsQuiet processor.now.scenario machine.old quiet }
        requires some { 1 ≤ quiet }
        requires state { machine.old ≡ run processor.now.scenario done }
        requires counted { Counted self.old.named processor.now.scenario done self.old }
        ensures left { result ≡ false → machine.new ≡ machine.old }
        ensures same { result ≡ false → self.new ≡ self.old }
        ensures made { result ≡ true → (machine.new, None) ≡ next processor.now.scenario machine.old }
        ensures quiet { result ≡ true → IsQuiet processor.now.scenario machine.new (quiet - 1) }
        ensures kept { result ≡ true → self.new.named ≡ self.old.named }
        ensures counted { result ≡ true → Counted self.old.named processor.now.scenario (done + 1) self.new }
    {
        let _ = done;
        let fetched = processor.fetched(machine, quiet);
        if !is_return(&fetched) {
            return false;
        }
        let made = processor.make_plain(machine, fetched.word, quiet);
        if !made {
            return false;
        }
        self.count_plain(fetched.place, false);
        true
    }

    /// Notes what happens in the next step, which may be any.
    #[inline(never)]
    fn note_step(&mut self, processor: &Processor, machine: &Machine, step: &NextStep)
        requires step { step.now ≡ next_step processor.now.scenario machine.now }
        requires cycles { machine.now.cycles ≤ 2 ^ 62 }
        requires small { AreSmall self.old }
        ensures { Notes processor.now.scenario machine.now self.old self.new }
    {
        let number = number_of(account_of(step));
        let (named, past) = (&self.named, &self.past);
        let divides = happens(named, processor, machine, past, step, Kind::Quotient);
        let is_skipping = happens(named, processor, machine, past, step, Kind::Skip);
        let has_no_word = happens(named, processor, machine, past, step, Kind::NoWord);
        let is_in_erasable = happens(named, processor, machine, past, step, Kind::InErasable);
        let has_no_handler = happens(named, processor, machine, past, step, Kind::NoHandler);
        let reaches_other = happens(named, processor, machine, past, step, Kind::OtherBank);
        let loses = happens(named, processor, machine, past, step, Kind::NotKept);
        let parts_zeros = happens(named, processor, machine, past, step, Kind::MinusZero);
        let overwrites = happens(named, processor, machine, past, step, Kind::Overwritten);
        let shares = happens(named, processor, machine, past, step, Kind::Shared);
        let reaches_fixed = happens(named, processor, machine, past, step, Kind::FixedBank);
        let first_quotient = self.quotients.count(number, divides);
        let first_skip = self.skips.count(number, is_skipping);
        let first_no_word = self.no_words.count(number, has_no_word);
        let first_in_erasable = self.in_erasable.count(number, is_in_erasable);
        let first_no_handler = self.no_handlers.count(number, has_no_handler);
        let first_other_bank = self.other_banks.count(number, reaches_other);
        let first_not_kept = self.not_kept.count(number, loses);
        let first_minus_zero = self.minus_zeros.count(number, parts_zeros);
        let first_overwritten = self.overwritten.count(number, overwrites);
        let first_shared = self.shared.count(number, shares);
        let first_fixed_bank = self.fixed_banks.count(number, reaches_fixed);
        let kinds = Firsts {
            quotient: first_quotient,
            skip: first_skip,
            no_word: first_no_word,
            in_erasable: first_in_erasable,
            no_handler: first_no_handler,
            other_bank: first_other_bank,
            not_kept: first_not_kept,
            minus_zero: first_minus_zero,
            overwritten: first_overwritten,
            shared: first_shared,
            fixed_bank: first_fixed_bank,
        };
        self.steps += 1;
        let is_first = kinds.has_some();
        self.last = latest(is_first, self.steps, self.last);
        self.firsts.list(kinds, self.steps);
        self.waits.note(machine, step, self.steps);
        self.past.note(machine, step);
    }

    /// Since when each interrupt is asked for.
    pub(crate) fn waits(&self) -> &Waits
        ensures { result.now ≡ self.now.waits }
    {
        &self.waits
    }

    /// What the steps before have left.
    pub(crate) fn past(&self) -> Past
        ensures { result ≡ self.now.past }
    {
        self.past
    }

    /// The last step in which some kind has happened for the first time at its place: 0 where none has.
    pub(crate) fn last(&self) -> u64
        ensures { result ≡ self.now.last }
    {
        self.last
    }

    /// The steps in which some kind has happened for the first time at its place.
    pub(crate) fn firsts(&self) -> &FirstSteps
        ensures { result.now ≡ self.now.firsts }
    {
        &self.firsts
    }

    /// How often each of some kinds is counted at the number of an account, and 0 of each other.
    pub(crate) fn told(&self, number: usize, kinds: &Firsts) -> Told
        requires { number < account_count }
        ensures { (kind : Kind) → told_of result kind
            ≡ taken (counts_of self.now kind) number (first_of kinds.now kind) }
    {
        Told {
            quotients: self.quotients.held(number, kinds.quotient),
            skips: self.skips.held(number, kinds.skip),
            no_words: self.no_words.held(number, kinds.no_word),
            in_erasable: self.in_erasable.held(number, kinds.in_erasable),
            no_handlers: self.no_handlers.held(number, kinds.no_handler),
            other_banks: self.other_banks.held(number, kinds.other_bank),
            not_kept: self.not_kept.held(number, kinds.not_kept),
            minus_zeros: self.minus_zeros.held(number, kinds.minus_zero),
            overwritten: self.overwritten.held(number, kinds.overwritten),
            shared: self.shared.held(number, kinds.shared),
            fixed_banks: self.fixed_banks.held(number, kinds.fixed_bank),
        }
    }

    /// Goes back to before the first step, with what was counted.
    pub(crate) fn rewind(&mut self)
        ensures { self.new ≡ rewound self.old }
    {
        self.past = Past::none();
    }

    /// Takes what happens in the next step: how often it does, where that was not taken before.
    pub(crate) fn take(&mut self, processor: &Processor, machine: &Machine) -> Told
        requires fits { FitsRun processor.now.scenario machine.now }
        ensures takes { Takes processor.now.scenario machine.now self.old self.new }
        ensures told { (kind : Kind) → told_of result kind ≡ taken_at processor.now.scenario machine.now self.old kind }
    {
        match plain_fetched(processor, machine, &self.past) {
            Some(fetched) => self.take_plain(processor, machine, &NextStep::Executes(fetched)),
            None => self.take_other(processor, machine),
        }
    }

    /// The same, where the short test has not let the step pass.
    #[inline(never)]
    fn take_other(&mut self, processor: &Processor, machine: &Machine) -> Told
        requires fits { FitsRun processor.now.scenario machine.now }
        ensures takes { Takes processor.now.scenario machine.now self.old self.new }
        ensures told { (kind : Kind) → told_of result kind ≡ taken_at processor.now.scenario machine.now self.old kind }
    {
        let step = processor.next_step(machine);
        if is_plain_step(processor, machine, &self.past, &step) {
            self.take_plain(processor, machine, &step)
        } else {
            self.take_step(processor, machine, &step)
        }
    }

    /// Takes what happens in the next step, where that is nothing but that another bank is reached.
    #[inline(always)]
    fn take_plain(&mut self, processor: &Processor, machine: &Machine, step: &NextStep) -> Told
        requires step { step.now ≡ next_step processor.now.scenario machine.now }
        requires plain { is_plain_step processor.now.scenario.rope machine.now self.old.past step.now ≡ true }
        ensures takes { Takes processor.now.scenario machine.now self.old self.new }
        ensures told { (kind : Kind) → told_of result kind ≡ taken_at processor.now.scenario machine.now self.old kind }
    {
        if reaches_in(&self.named, machine, step) {
            self.take_reach(processor, machine, step)
        } else {
            NOTHING
        }
    }

    /// Takes that the next step reaches another bank, where nothing else happens there.
    fn take_reach(&mut self, processor: &Processor, machine: &Machine, step: &NextStep) -> Told
        requires step { step.now ≡ next_step processor.now.scenario machine.now }
        requires plain { is_plain_step processor.now.scenario.rope machine.now self.old.past step.now ≡ true }
        requires reaches { reaches_in self.old.named machine.now step.now ≡ true }
        ensures takes { Takes processor.now.scenario machine.now self.old self.new }
        ensures told { (kind : Kind) → told_of result kind ≡ taken_at processor.now.scenario machine.now self.old kind }
    {
        let (_processor, _machine) = (processor, machine);
        let number = number_of(account_of(step));
        let is_erasable = names_erasable_in(&self.named, step);
        let other_banks = self.other_banks.take(number, is_erasable);
        let fixed_banks = self.fixed_banks.take(number, !is_erasable);
        Told {
            other_banks,
            fixed_banks,
            ..NOTHING
        }
    }

    /// Takes what happens in the next step, which may be any.
    #[inline(never)]
    fn take_step(&mut self, processor: &Processor, machine: &Machine, step: &NextStep) -> Told
        requires step { step.now ≡ next_step processor.now.scenario machine.now }
        ensures takes { Takes processor.now.scenario machine.now self.old self.new }
        ensures told { (kind : Kind) → told_of result kind ≡ taken_at processor.now.scenario machine.now self.old kind }
    {
        let number = number_of(account_of(step));
        let (named, past) = (&self.named, &self.past);
        let divides = happens(named, processor, machine, past, step, Kind::Quotient);
        let is_skipping = happens(named, processor, machine, past, step, Kind::Skip);
        let has_no_word = happens(named, processor, machine, past, step, Kind::NoWord);
        let is_in_erasable = happens(named, processor, machine, past, step, Kind::InErasable);
        let has_no_handler = happens(named, processor, machine, past, step, Kind::NoHandler);
        let reaches_other = happens(named, processor, machine, past, step, Kind::OtherBank);
        let loses = happens(named, processor, machine, past, step, Kind::NotKept);
        let parts_zeros = happens(named, processor, machine, past, step, Kind::MinusZero);
        let overwrites = happens(named, processor, machine, past, step, Kind::Overwritten);
        let shares = happens(named, processor, machine, past, step, Kind::Shared);
        let reaches_fixed = happens(named, processor, machine, past, step, Kind::FixedBank);
        let quotients = self.quotients.take(number, divides);
        let skips = self.skips.take(number, is_skipping);
        let no_words = self.no_words.take(number, has_no_word);
        let in_erasable = self.in_erasable.take(number, is_in_erasable);
        let no_handlers = self.no_handlers.take(number, has_no_handler);
        let other_banks = self.other_banks.take(number, reaches_other);
        let not_kept = self.not_kept.take(number, loses);
        let minus_zeros = self.minus_zeros.take(number, parts_zeros);
        let overwritten = self.overwritten.take(number, overwrites);
        let shared = self.shared.take(number, shares);
        let fixed_banks = self.fixed_banks.take(number, reaches_fixed);
        self.past.note(machine, step);
        Told {
            quotients,
            skips,
            no_words,
            in_erasable,
            no_handlers,
            other_banks,
            not_kept,
            minus_zeros,
            overwritten,
            shared,
            fixed_banks,
        }
    }
}

impl Recorder for Notebook {
    type Kept = NamedPlaces;

    ghost kept = { λ book. book.named };

    ghost Stands = { λ named scenario n book. Counted named scenario n book };

    #[inline(always)]
    fn record_plain(
        &mut self,
        processor: &Processor,
        machine: &mut Machine,
        done: u64,
        quiet: u64,
    ) -> bool {
        let fetched = processor.fetched(machine, quiet);
        match self
            .known
            .recall(&self.named, processor, machine, &self.past, &fetched)
        {
            Some(reaches) => {
                self.record_reaching(processor, machine, &fetched, reaches, done, quiet)
            }
            None => self.record_other(processor, machine, done, quiet),
        }
    }
}

/// The later of two steps, where something has happened in it for the first time.
fn latest(is_first: bool, step: u64, last: u64) -> u64
    ensures { result ≡ (if is_first then step else last) }
{
    if is_first { step } else { last }
}
