//! A step outside of interrupts.

ghost use Rattle.std.specs.Prelude.{◌≡◌, ◌≤◌, ◌^◌, ◌+◌};
ghost use Rattle.std.specs.Option.{option_to_list};
ghost use Rattle.cpu.specs.Next.{next};
ghost use Rattle.cpu.specs.State.{FitsRun};
ghost use Rattle.differ.specs.MainSteps.{main_after, main_by, main_step, same_flag, same_step};

use crate::written::{AllWritten, same_written, written_by};
use arrayvec::ArrayVec;
use cpu::{Fetched, Machine, NextStep, Processor, make_step};
use space::{Eras, Linear};
use std::marker::Model;
use words::Word;

/// A step outside of interrupts: its number, its place, whether its word waited, the word, whether extracode was in
/// force, and what it has written.
#[derive(Drop)]
pub(crate) struct MainStep {
    step: u64,
    place: Linear,
    waited: bool,
    word: Word,
    extra: bool,
    written: AllWritten,
}

impl Model for MainStep {
    ghost use Rattle.differ.specs.MainSteps as spec;

    ghost Value = { spec.MainStep };

    ghost view = { λ m. record {
      step = m.step;
      place = m.place;
      waited = m.waited;
      word = m.word;
      extra = m.extra;
      written = m.written.items;
    } };
}

impl Default for MainStep {
    fn default() -> MainStep {
        MainStep {
            step: 0,
            place: Linear::Erasable(Eras::A),
            waited: false,
            word: Word::of_low_bits(0),
            extra: false,
            written: ArrayVec::new(),
        }
    }
}

impl MainStep {
    /// Its number.
    pub(crate) fn step(&self) -> u64
        ensures { result ≡ self.now.step }
    {
        self.step
    }

    /// Whether another is the same.
    pub(crate) fn is_same(&self, other: &MainStep) -> bool
        ensures { result ≡ same_step self.now other.now }
    {
        self.word == other.word
            && same_flag(self.extra, other.extra)
            && (self.waited || other.waited || self.place == other.place)
            && same_written(self.written.as_slice(), other.written.as_slice())
    }
}

/// Whether two flags are the same.
fn same_flag(one: bool, other: bool) -> bool
    ensures { result ≡ same_flag one other }
{
    if one { other } else { !other }
}

/// Makes a step, and answers it where it is outside of interrupts.
#[tactic(auto, unfolding(crate::specs::MainSteps::main_after))]
pub(crate) fn make_main_step(
    processor: &mut Processor,
    machine: &mut Machine,
    number: u64,
) -> Option<MainStep>
    requires cycles { machine.old.cycles ≤ 2 ^ 62 }
    requires fits { FitsRun processor.old.scenario machine.old }
    ensures scenario { processor.new.scenario ≡ processor.old.scenario }
    ensures state { machine.new ≡ (next processor.old.scenario machine.old).0 }
    ensures meter { processor.new.meter ≤ processor.old.meter + 1 }
    ensures step { option_to_list result ≡ main_after number processor.old.scenario machine.old }
{
    let is_inside = machine.inside();
    let step = processor.next_step(machine);
    let cells = processor.targets(machine);
    make_step(processor, machine);
    let written = written_by(machine, cells.as_slice());
    main_by(number, is_inside, step, written)
}

/// A step by what it was and what it has written, where it is outside of interrupts.
fn main_by(number: u64, is_inside: bool, step: NextStep, written: AllWritten) -> Option<MainStep>
    ensures { option_to_list result ≡ main_by number is_inside step written.items }
{
    match step {
        NextStep::Takes(_) => None,
        NextStep::Enters(_) => None,
        NextStep::Executes(fetched) => {
            if is_inside {
                None
            } else {
                Some(main_step(number, &fetched, written))
            }
        }
    }
}

/// The step of an instruction.
fn main_step(number: u64, fetched: &Fetched, written: AllWritten) -> MainStep
    ensures { result ≡ main_step number fetched.now written.items }
{
    MainStep {
        step: number,
        place: fetched.place,
        waited: fetched.waited,
        word: fetched.word,
        extra: fetched.extra,
        written,
    }
}
