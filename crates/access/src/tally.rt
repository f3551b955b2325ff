//! The counts of a run.

ghost use Rattle.std.specs.Prelude.{◌≡◌, ◌+◌, ◌*◌, ◌-◌, ◌<◌, ◌≤◌, ◌^◌, ℕ, true, false};
ghost use Rattle.std.specs.Prelude.{IfOk, get_or, set, length, replicate};
ghost use Rattle.cover.specs.Tallies.{account_count, account_number, is_account};
ghost use Rattle.cpu.specs.Next.{next};
ghost use Rattle.cpu.specs.NextStep.{next_step};
ghost use Rattle.cpu.specs.Profiles.{account_of};
ghost use Rattle.cpu.specs.Run.{run};
ghost use Rattle.cpu.specs.State.{FitsRun, Scenario};
ghost use Rattle.access.specs.Accesses.{row_count, slot_count, slots_after, times_in};
ghost use Rattle.access.specs.Below.{AreBelow};
ghost use Rattle.access.specs.Repeats.{AreFewKept, AreKept, kind_of, no_kept, owed_by, repeats};
ghost use Rattle.access.specs.Tallies.{Counts, CountsStep, Keeps, sum_in};

use crate::kept::{Kept, Kind, Slots, kind_of};
use crate::level::last_after;
use crate::step_slots::{ROW, rows_of, slots_after};
use crate::view::View;
use cover::{ACCOUNTS, Profiler, Recorder, number_of, record_steps};
use cpu::{Account, Machine, NextStep, Processor};
use space::{Eras, Linear};
use std::alloc::{AllocError, Global};
use std::marker::Model;
use words::Overflow;

/// The counts of a run, what is kept at each account, and the interrupt that was entered last, 0 where none was.
#[derive(Drop)]
pub struct Tally {
    view: View,
    counts: Vec<u64>,
    kept: Vec<Kept>,
    last: usize,
}

impl Model for Tally {
    ghost use Rattle.std.specs.Prelude.{◌≡◌, ◌≤◌, vec_len};
    ghost use Rattle.cover.specs.Tallies.{account_count};
    ghost use Rattle.access.specs.Accesses.{slot_count};
    ghost use Rattle.access.specs.Tallies.{Tallied};

    ghost Value = { Tallied };

    ghost view = { λ t. record { view = t.view; counts = t.counts.items; kept = t.kept.items; last = t.last } };

    ghost invariant = { λ t. (vec_len t.counts ≡ slot_count t.view) × (vec_len t.kept ≡ account_count)
        × (t.last ≤ 10) };
}

impl Tally {
    /// The counts before the first step. All memory is taken here.
    pub fn new(alloc: Global, view: View) -> Result<Tally, AllocError>
        ensures { IfOk result (λ tally. (scenario : Scenario) → Counts view scenario 0 tally) }
    {
        let size = ROW * rows_of(&view);
        let counts = vec![in alloc; 0u64; size]?;
        let kept = nothing_kept(alloc)?;
        Ok(Tally {
            view,
            counts,
            kept,
            last: 0,
        })
    }

    /// What is counted.
    pub(crate) fn view(&self) -> View
        ensures { result ≡ self.now.view }
    {
        self.view
    }

    /// How many rows there are.
    pub(crate) fn rows(&self) -> usize
        ensures rows { result ≡ row_count self.now.view }
        ensures few { result ≤ 50000 }
    {
        rows_of(&self.view)
    }

    /// How often a number is counted.
    pub(crate) fn count(&self, number: usize) -> u64
        requires { number < slot_count self.now.view }
        ensures { result ≡ get_or self.now.counts number 0 }
    {
        self.counts[number]
    }

    /// Makes more steps of a run of which some are done, and counts what each reads and writes. What they put out is
    /// passed over.
    pub fn make_steps(
        &mut self,
        processor: &mut Processor,
        machine: &mut Machine,
        done: u64,
        stop: u64,
    )
        requires within { done ≤ stop }
        requires few { stop ≤ 2 ^ 40 }
        requires state { machine.old ≡ run processor.old.scenario done }
        requires counts { Counts self.old.view processor.old.scenario done self.old }
        ensures scenario { processor.new.scenario ≡ processor.old.scenario }
        ensures state { machine.new ≡ run processor.old.scenario stop }
        ensures counts { Counts self.old.view processor.old.scenario stop self.new }
    {
        record_steps(self, processor, machine, done, stop);
        self.settle();
    }

    /// Whether the next step, of an account, repeats, and is of the kind that is kept there.
    #[inline(always)]
    fn is_known(&self, machine: &Machine, account: &Account, number: usize) -> bool
        requires number { number < account_count }
        ensures repeats { (scenario : Scenario) → account_of scenario machine.now ≡ account.now → result ≡ true
            → repeats scenario machine.now ≡ true }
        ensures kind { result ≡ true → (get_or self.now.kept number no_kept).kind ≡ kind_of machine.now self.now.last }
    {
        let kind = kind_of(machine, self.last);
        repeats(account, machine) && self.kept[number].is_of(&kind)
    }

    /// Counts what the next step reads and writes, or keeps that.
    fn count_step(&mut self, processor: &Processor, machine: &Machine)
        requires fits { FitsRun processor.now.scenario machine.now }
        requires small { (i : ℕ) → sum_in self.old i ≤ 2 ^ 62 }
        requires few { AreFewKept self.old.kept (2 ^ 62) }
        requires kept { AreKept self.old.view processor.now.scenario.rope self.old.kept }
        ensures { CountsStep processor.now.scenario machine.now self.old self.new }
    {
        let account = processor.account(machine);
        let number = number_of(account);
        let kind = kind_of(machine, self.last);
        if !repeats(&account, machine) {
            self.count_once(processor, machine);
        } else if self.kept[number].is_of(&kind) {
            self.keep_again(processor, machine, number);
        } else {
            self.keep(processor, machine, number, kind);
        }
    }

    /// Keeps that the next step, which is of the account and the kind of those that are kept there, is made once more.
    #[inline(always)]
    fn keep_again(&mut self, processor: &Processor, machine: &Machine, number: usize)
        requires number { number < account_count }
        requires known { is_account (account_of processor.now.scenario machine.now) ≡ true }
        requires account { number ≡ account_number (account_of processor.now.scenario machine.now) }
        requires kind { (get_or self.old.kept number no_kept).kind ≡ kind_of machine.now self.old.last }
        requires repeats { repeats processor.now.scenario machine.now ≡ true }
        requires few { AreFewKept self.old.kept (2 ^ 62) }
        requires kept { AreKept self.old.view processor.now.scenario.rope self.old.kept }
        ensures { CountsStep processor.now.scenario machine.now self.old self.new }
    {
        let (_processor, _machine) = (processor, machine);
        self.again_at(number);
    }

    /// Counts what the next step reads and writes.
    #[tactic(auto, using(crate::proofs::Counting::step_once, crate::proofs::Counting::once_fits))]
    fn count_once(&mut self, processor: &Processor, machine: &Machine)
        requires fits { FitsRun processor.now.scenario machine.now }
        requires small { (i : ℕ) → sum_in self.old i ≤ 2 ^ 62 }
        requires kept { AreKept self.old.view processor.now.scenario.rope self.old.kept }
        ensures { CountsStep processor.now.scenario machine.now self.old self.new }
    {
        let step = processor.next_step(machine);
        let slots = slots_after(&self.view, processor, machine, &step, self.last);
        pay(&mut self.counts, slots.as_slice(), 1);
        self.last = last_after(&step, self.last);
    }

    /// Keeps what the next step reads and writes, of an account and a kind, in place of what was kept there, which is
    /// counted.
    fn keep(&mut self, processor: &Processor, machine: &Machine, number: usize, kind: Kind)
        requires fits { FitsRun processor.now.scenario machine.now }
        requires number { number < account_count }
        requires known { is_account (account_of processor.now.scenario machine.now) ≡ true }
        requires account { number ≡ account_number (account_of processor.now.scenario machine.now) }
        requires kind { kind ≡ kind_of machine.now self.old.last }
        requires repeats { repeats processor.now.scenario machine.now ≡ true }
        requires small { (i : ℕ) → sum_in self.old i ≤ 2 ^ 62 }
        requires kept { AreKept self.old.view processor.now.scenario.rope self.old.kept }
        ensures { CountsStep processor.now.scenario machine.now self.old self.new }
    {
        let step = processor.next_step(machine);
        let slots = self.slots_now(processor, machine, &step);
        self.settle_at(number);
        self.put_at(number, Kept::first(kind, slots));
    }

    /// What the next step counts.
    fn slots_now(&self, processor: &Processor, machine: &Machine, step: &NextStep) -> Slots
        requires fits { FitsRun processor.now.scenario machine.now }
        requires step { step.now ≡ next_step processor.now.scenario machine.now }
        ensures items { result.items ≡ slots_after self.now.view processor.now.scenario machine.now self.now.last }
        ensures known { AreBelow (slot_count self.now.view)
            (slots_after self.now.view processor.now.scenario machine.now self.now.last) }
        ensures short { length (slots_after self.now.view processor.now.scenario machine.now self.now.last) ≤ 18 }
    {
        slots_after(&self.view, processor, machine, step, self.last)
    }

    /// A step more is kept at an account.
    #[inline(always)]
    fn again_at(&mut self, number: usize)
        requires number { number < account_count }
        requires few { (get_or self.old.kept number no_kept).count ≤ 2 ^ 62 }
        ensures all { length self.old.kept ≡ account_count }
        ensures last { self.old.last ≤ 10 }
        ensures value { self.new ≡ record self.old {
          kept = set self.old.kept number (record (get_or self.old.kept number no_kept) {
            count = (get_or self.old.kept number no_kept).count + 1;
          });
        } }
    {
        self.kept[number].again();
    }

    /// Keeps something else at an account.
    fn put_at(&mut self, number: usize, kept: Kept)
        requires number { number < account_count }
        ensures { self.new ≡ record self.old { kept = set self.old.kept number kept } }
    {
        self.kept[number] = kept;
    }

    /// Counts all that is kept.
    fn settle(&mut self)
        requires small { (i : ℕ) → sum_in self.old i ≤ 2 ^ 62 }
        requires kept { (j : ℕ) → AreBelow (slot_count self.old.view) (get_or self.old.kept j no_kept).slots }
        ensures view { self.new.view ≡ self.old.view }
        ensures last { self.new.last ≡ self.old.last }
        ensures each { length self.new.counts ≡ slot_count self.new.view }
        ensures all { length self.new.kept ≡ account_count }
        ensures sums { (i : ℕ) → sum_in self.new i ≡ sum_in self.old i }
        ensures settled { AreFewKept self.new.kept 0 }
        ensures slots { (j : ℕ) → (get_or self.new.kept j no_kept).slots ≡ (get_or self.old.kept j no_kept).slots }
        ensures kinds { (j : ℕ) → (get_or self.new.kept j no_kept).kind ≡ (get_or self.old.kept j no_kept).kind }
    {
        let _ = &self.view;
        for number in 0..ACCOUNTS {
            self.settle_at(number);
        }
    }

    /// Counts what is kept at an account.
    #[tactic(auto, using(crate::proofs::Counting::settling_fits))]
    fn settle_at(&mut self, number: usize)
        requires number { number < account_count }
        requires small { (i : ℕ) → sum_in self.old i ≤ 2 ^ 62 }
        requires below { AreBelow (slot_count self.old.view) (get_or self.old.kept number no_kept).slots }
        ensures view { self.new.view ≡ self.old.view }
        ensures last { self.new.last ≡ self.old.last }
        ensures each { length self.new.counts ≡ length self.old.counts }
        ensures all { length self.old.kept ≡ account_count }
        ensures counts { (i : ℕ) → get_or self.new.counts i 0
            ≡ get_or self.old.counts i 0 + owed_by (get_or self.old.kept number no_kept) i }
        ensures kept { self.new.kept
            ≡ set self.old.kept number (record (get_or self.old.kept number no_kept) { count = 0 }) }
    {
        let kept = &mut self.kept[number];
        pay(&mut self.counts, kept.slots(), kept.count());
        kept.settle();
    }
}

impl Recorder for Tally {
    type Kept = View;

    ghost kept = { λ tally. tally.view };

    ghost Stands = { λ view scenario n tally. Keeps view scenario n tally };

    #[inline(always)]
    fn record_plain(
        &mut self,
        processor: &Processor,
        machine: &mut Machine,
        done: u64,
        quiet: u64,
    ) -> bool {
        let _ = done;
        let fetched = processor.fetched(machine, quiet);
        let account = Account::Place(fetched.place);
        let number = number_of(account);
        if !self.is_known(machine, &account, number)
            || !processor.make_plain(machine, fetched.word, quiet)
        {
            return false;
        }
        self.again_at(number);
        true
    }
}

impl Profiler for Tally {
    fn record(&mut self, processor: &mut Processor, machine: &mut Machine, done: u64) {
        let _ = done;
        self.count_step(processor, machine);
        processor.step(machine);
    }
}

/// Nothing is kept at any account.
fn nothing_kept(alloc: Global) -> Result<Vec<Kept>, AllocError>
    ensures { IfOk result (λ kept. kept.items ≡ replicate account_count no_kept) }
{
    let mut kept = Vec::with_capacity(alloc, ACCOUNTS)?;
    for _ in 0..ACCOUNTS {
        kept.push(Kept::none())?;
    }
    Ok(kept)
}

/// Whether the next step, which is of an account, repeats.
fn repeats(account: &Account, machine: &Machine) -> bool
    ensures { (scenario : Scenario) → account_of scenario machine.now ≡ account.now
        → result ≡ repeats scenario machine.now }
{
    match account {
        Account::Place(Linear::Fixed(_, _)) => {
            machine.waiting_sum().is_none() && machine.reg(Eras::A).overflow() == Overflow::No
        }
        _ => false,
    }
}

/// Counts some numbers so many times more.
fn pay(counts: &mut [u64], slots: &[u32], times: u64)
    requires known { AreBelow (length counts.old) slots.now }
    requires small { (i : ℕ) → get_or counts.old i 0 + times * times_in i slots.now ≤ 2 ^ 63 }
    ensures each { length counts.new ≡ length counts.old }
    ensures paid { (i : ℕ) → get_or counts.new i 0 ≡ get_or counts.old i 0 + times * times_in i slots.now }
{
    for slot in slots {
        pay_one(counts, *slot as usize, times);
    }
}

/// Counts a number so many times more.
fn pay_one(counts: &mut [u64], slot: usize, times: u64)
    requires within { slot < length counts.old }
    requires small { get_or counts.old slot 0 + times ≤ 2 ^ 63 }
    ensures { counts.new ≡ set counts.old slot (get_or counts.old slot 0 + times) }
{
    counts[slot] += times;
}
