//! The first word on a channel that two runs do not have in common.

ghost use Rattle.std.specs.Prelude.{◌≡◌, ◌≢◌, ℕ, None, ◌-◌, ◌+◌, ◌≤◌, ◌^◌, ◌++◌, IfSome};
ghost use Rattle.std.specs.Option.{option_to_list};
ghost use Rattle.cpu.specs.Run.{run};
ghost use Rattle.cpu.specs.State.{start};
ghost use Rattle.differ.specs.Outputs.{apart_at, are_same, both_none, first_output, put_of, puts, same_put, step_of};

use cpu::{Machine, Output, Processor};
use space::Chan;
use words::Word;

/// A word that a step puts out on a channel.
#[derive(Clone, Copy)]
pub(crate) struct Put {
    pub(crate) step: u64,
    pub(crate) channel: Chan,
    pub(crate) word: Word,
}

/// The first words that are not the same: their number, counted from 1, and the steps that put them out, of which one
/// may be missing.
#[derive(Clone, Copy)]
pub(crate) struct OutputsApart {
    pub(crate) number: u64,
    pub(crate) here: Option<u64>,
    pub(crate) there: Option<u64>,
}

/// A run on its way from one word that it puts out to the next.
#[derive(Drop)]
struct Going {
    machine: Machine,
    done: u64,
}

impl Going {
    /// Before the first step.
    fn at_start() -> Going
        ensures machine { result.machine ≡ start }
        ensures done { result.done ≡ 0 }
    {
        Going {
            machine: Machine::start(),
            done: 0,
        }
    }

    /// The next word that is put out, of so many steps. The steps up to there are made.
    fn next_put(&mut self, processor: &mut Processor, steps: u64) -> Option<Put>
        requires few { steps ≤ 2 ^ 40 - 2 }
        requires within { self.old.done ≤ steps }
        requires stands { self.old.machine ≡ run processor.old.scenario self.old.done }
        ensures scenario { processor.new.scenario ≡ processor.old.scenario }
        ensures once { processor.new.meter + self.old.done ≤ processor.old.meter + self.new.done }
        ensures within { self.new.done ≤ steps }
        ensures past { result ≢ None → self.old.done + 1 ≤ self.new.done }
        ensures stands { self.new.machine ≡ run processor.old.scenario self.new.done }
        ensures puts { puts processor.old.scenario self.old.done (steps - self.old.done)
            ≡ option_to_list result ++ puts processor.old.scenario self.new.done (steps - self.new.done) }
        ensures step { IfSome result (λ p. p.step ≤ steps) }
        ensures last { result ≡ None → self.new.done ≡ steps }
    {
        if self.done >= steps {
            return None;
        }
        let (done, output) = processor.run_on(&mut self.machine, self.done, steps);
        self.done = done;
        put_of(done, output)
    }
}

/// What a step puts out.
fn put_of(step: u64, output: Option<Output>) -> Option<Put>
    ensures { option_to_list result ≡ put_of step output }
{
    match output {
        None => None,
        Some(output) => Some(Put {
            step,
            channel: output.channel,
            word: output.word,
        }),
    }
}

/// Whether the same word is put out on the same channel.
fn same_put(one: &Put, other: &Put) -> bool
    ensures { result ≡ same_put one.now other.now }
{
    one.channel == other.channel && one.word == other.word
}

/// The first words that two runs of so many steps put out that are not the same. Each step of a run is made once.
pub(crate) fn first_output(
    one: &mut Processor,
    other: &mut Processor,
    steps: u64,
) -> Option<OutputsApart>
    requires few { steps ≤ 2 ^ 40 - 2 }
    ensures apart { result ≡ first_output one.old.scenario other.old.scenario steps }
    ensures here { IfSome result (λ a. IfSome a.here (λ n. n ≤ steps)) }
    ensures there { IfSome result (λ a. IfSome a.there (λ n. n ≤ steps)) }
    ensures scenario { one.new.scenario ≡ one.old.scenario }
    ensures other_scenario { other.new.scenario ≡ other.old.scenario }
    ensures once { one.new.meter ≤ one.old.meter + steps }
    ensures other_once { other.new.meter ≤ other.old.meter + steps }
{
    let mut here = Going::at_start();
    let mut there = Going::at_start();
    for number in 0..steps {
        let a = here.next_put(one, steps);
        let b = there.next_put(other, steps);
        if both_none(&a, &b) {
            return None;
        }
        if !are_same(&a, &b) {
            return Some(apart(number, &a, &b));
        }
    }
    None
}

/// Whether both have no more.
fn both_none(one: &Option<Put>, other: &Option<Put>) -> bool
    ensures { result ≡ both_none one.now other.now }
{
    match (one, other) {
        (None, None) => true,
        _ => false,
    }
}

/// Whether both are there and the same.
fn are_same(one: &Option<Put>, other: &Option<Put>) -> bool
    ensures { result ≡ are_same one.now other.now }
{
    match (one, other) {
        (Some(a), Some(b)) => same_put(a, b),
        _ => false,
    }
}

/// Words that are not the same, after so many that are.
fn apart(same: u64, here: &Option<Put>, there: &Option<Put>) -> OutputsApart
    requires { same + 1 ≤ 2 ^ 40 }
    ensures apart { result ≡ apart_at (same + 1) here.now there.now }
    ensures here { (most : ℕ) → IfSome here.now (λ p. p.step ≤ most) → IfSome result.here (λ n. n ≤ most) }
    ensures there { (most : ℕ) → IfSome there.now (λ p. p.step ≤ most) → IfSome result.there (λ n. n ≤ most) }
{
    OutputsApart {
        number: same + 1,
        here: step_of(here),
        there: step_of(there),
    }
}

/// The step that puts a word out.
fn step_of(put: &Option<Put>) -> Option<u64>
    ensures step { result ≡ step_of put.now }
    ensures most { (most : ℕ) → IfSome put.now (λ p. p.step ≤ most) → IfSome result (λ n. n ≤ most) }
{
    match put {
        None => None,
        Some(put) => Some(put.step),
    }
}
