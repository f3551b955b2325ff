//! The figures of a run's accounts.

ghost use Rattle.std.specs.Prelude.{◌≡◌, ◌+◌, ◌-◌, ◌<◌, ◌≤◌, ◌^◌, IfOk, get_or, set, true};
ghost use Rattle.cpu.specs.declared.account.Account.TheVariants.{Place};
ghost use Rattle.cpu.specs.Run.{run};
ghost use Rattle.cpu.specs.State.{Scenario};
ghost use Rattle.cover.specs.Tallies.{account_count, account_number, AllAddUp, AreSmall, Counts, ShownAddUp};
ghost use Rattle.cover.specs.Tallies.{figures_at, is_account, IsAccount, no_figures, one_step_more, put_down};

use crate::recorder::{Profiler, Recorder, record_steps};
use cpu::{Account, Machine, Processor, make_step};
use space::{BANK_WORDS, Linear};
use std::alloc::{AllocError, Global};
use std::marker::Model;

/// How often an account was served, and the cycles that this took.
#[derive(Clone, Copy, PartialEq, Eq, Debug, Drop)]
pub struct Figures {
    /// How often.
    pub count: u64,
    /// The cycles.
    pub cycles: u64,
}

/// The figures of what was never served.
const NO_FIGURES: Figures = Figures {
    count: 0,
    cycles: 0,
};

/// The number of the first erasable place: before it stand inputs, entries of interrupts, and words that waited.
const FIRST_ERASABLE: usize = 3;

/// The number of the first place of bank 0.
const FIRST_FIXED: usize = FIRST_ERASABLE + 0o4000;

/// The words of a bank.
const WORDS: usize = BANK_WORDS as usize;

/// How many accounts there are: 0 to 047 are the banks that FB and the superbank bit select.
pub const ACCOUNTS: usize = FIRST_FIXED + 0o50 * WORDS;

/// The figures of all accounts.
#[derive(Drop)]
pub struct Tally {
    figures: Vec<Figures>,
}

impl Model for Tally {
    ghost use Rattle.std.specs.Prelude.{◌≡◌, List, vec_len};
    ghost use Rattle.cover.specs.declared.tally.Figures.{Figures as OfAccount};
    ghost use Rattle.cover.specs.Tallies.{account_count};

    ghost Value = { List OfAccount };

    ghost view = { λ t. t.figures.items };

    ghost invariant = { λ t. vec_len t.figures ≡ account_count };
}

impl Tally {
    /// The figures before the first step. All memory is taken here.
    pub fn new(alloc: Global) -> Result<Tally, AllocError>
        ensures { IfOk result (λ tally. (scenario : Scenario) → Counts scenario 0 tally) }
    {
        let mut figures = Vec::with_capacity(alloc, ACCOUNTS)?;
        figures.resize(ACCOUNTS, NO_FIGURES)?;
        Ok(Tally { figures })
    }

    /// The figures of an account.
    pub fn figures(&self, account: Account) -> Figures
        ensures { result ≡ figures_at self.now account }
    {
        self.figures[number_of(account)]
    }

    /// Makes more steps of a run of which some are done, and counts each. What they put out is passed over.
    pub fn make_steps(
        &mut self,
        processor: &mut Processor,
        machine: &mut Machine,
        done: u64,
        stop: u64,
    )
        requires within { done ≤ stop }
        requires few { stop ≤ 2 ^ 40 }
        requires state { machine.old ≡ run processor.old.scenario done }
        requires counts { Counts processor.old.scenario done self.old }
        ensures scenario { processor.new.scenario ≡ processor.old.scenario }
        ensures meter { processor.new.meter + done ≤ processor.old.meter + stop }
        ensures state { machine.new ≡ run processor.old.scenario stop }
        ensures counts { Counts processor.old.scenario stop self.new }
        ensures adds_up { AllAddUp processor.old.scenario stop }
        ensures shown_add_up { ShownAddUp processor.old.scenario stop }
    {
        record_steps(self, processor, machine, done, stop);
    }

    /// Counts a step of the account of a number.
    fn put_down(&mut self, number: usize, cycles: u64)
        requires within { number < account_count }
        requires small { AreSmall (get_or self.old number no_figures) }
        requires few { cycles ≤ 2 ^ 62 }
        ensures { self.new ≡ set self.old number (one_step_more (get_or self.old number no_figures) cycles) }
    {
        let figures = &mut self.figures[number];
        figures.count += 1;
        figures.cycles += cycles;
    }
}

impl Recorder for Tally {
    type Kept = ();

    ghost kept = { λ _. tt };

    ghost Stands = { λ _ scenario n tally. Counts scenario n tally };

    #[inline(always)]
    fn record_plain(
        &mut self,
        processor: &Processor,
        machine: &mut Machine,
        done: u64,
        quiet: u64,
    ) -> bool {
        let _ = done;
        let fetched = processor.fetched(machine, quiet);
        let number = number_of(Account::Place(fetched.place));
        let before = machine.cycles();
        if !processor.make_plain(machine, fetched.word, quiet) {
            return false;
        }
        self.put_down(number, machine.cycles() - before);
        true
    }
}

impl Profiler for Tally {
    fn record(&mut self, processor: &mut Processor, machine: &mut Machine, done: u64) {
        let _ = done;
        let number = number_of(processor.account(machine));
        let before = machine.cycles();
        make_step(processor, machine);
        self.put_down(number, machine.cycles() - before);
    }
}

/// The number of an account, from 0 on.
pub fn number_of(account: Account) -> usize
    ensures number { result ≡ account_number account }
    ensures known { IsAccount account }
    ensures account { is_account account ≡ true }
    ensures within { result < account_count }
{
    match account {
        Account::Input => 0,
        Account::Entry => 1,
        Account::Waiting => 2,
        Account::Place(place) => number_of_place(place),
    }
}

/// The number of a place's account.
fn number_of_place(place: Linear) -> usize
    ensures number { result ≡ account_number (Place place) }
    ensures known { IsAccount (Place place) }
    ensures account { is_account (Place place) ≡ true }
    ensures within { result < account_count }
{
    match place {
        Linear::Erasable(number) => FIRST_ERASABLE + usize::from(number.number()),
        Linear::Fixed(bank, offset) => {
            FIRST_FIXED + (WORDS * usize::from(bank.number()) + usize::from(offset.number()))
        }
    }
}
