//! What happened in the steps of a bucket.

ghost use Rattle.std.specs.Prelude.{◌≡◌, ◌+◌, ◌*◌, ◌≤◌, ◌<◌, ◌++◌, ◌∷◌, [], length, map, decimal, codes};
ghost use Rattle.std.specs.List.{flat_map};
ghost use Rattle.arrayvec.specs.ArrayVec.{array_vec_len};
ghost use Rattle.commands.specs.declared.subject.Subject.{Subject as Watched};
ghost use Rattle.cpu.specs.declared.account.Account.{Account as Whose};
ghost use Rattle.debugger.specs.Surveys.{begun_with, bucket_line, is_entry, is_input, watch_text};
ghost use Rattle.debugger.specs.Surveying.{counted_if, no_steps, watch_seen};

use crate::watch::Watch;
use arrayvec::ArrayVec;
use commands::{MOST_SURVEYED, Subject, Subjects};
use cpu::{Account, Machine};
use std::marker::Model;
use words::{Word, push_all, push_decimal, push_octal};

/// Words that are watched.
type Watches = ArrayVec<Watch, MOST_SURVEYED>;

/// What happened in the steps of a bucket so far.
#[derive(Drop)]
pub(crate) struct Bucket {
    /// The cycles after the last step.
    cycles: u64,
    /// How many steps entered interrupts.
    entries: u64,
    /// How many took inputs.
    inputs: u64,
    /// How many put something out.
    outputs: u64,
    /// The words that are watched.
    watches: Watches,
}

impl Model for Bucket {
    ghost use Rattle.debugger.specs.Surveys.{Bucket as OfSteps};

    ghost Value = { OfSteps };

    ghost view = { λ b. record {
      cycles = b.cycles;
      entries = b.entries;
      inputs = b.inputs;
      outputs = b.outputs;
      watches
          = b.watches.items;
    } };
}

impl Bucket {
    /// A bucket of no steps, in which the words of some subjects are watched.
    pub(crate) fn of(subjects: &Subjects) -> Bucket
        ensures { result ≡ no_steps subjects.now }
    {
        Bucket {
            cycles: 0,
            entries: 0,
            inputs: 0,
            outputs: 0,
            watches: watches_of(subjects.as_slice()),
        }
    }

    /// A step led to a machine, by this account, and put something out or not: the first of them, or one more.
    #[inline(always)]
    pub(crate) fn see(
        &mut self,
        is_first: bool,
        account: Account,
        puts_out: bool,
        machine: &Machine,
    )
        ensures { self.new ≡ record {
          cycles = machine.now.cycles;
          entries = counted_if (is_entry account)
              self.old.entries;
          inputs = counted_if (is_input account) self.old.inputs;
          outputs = counted_if puts_out
              self.old.outputs;
          watches = map (watch_seen is_first machine.now) self.old.watches;
        } }
    {
        self.cycles = machine.cycles();
        self.entries = counted_if(matches!(account, Account::Entry), self.entries);
        self.inputs = counted_if(matches!(account, Account::Input), self.inputs);
        self.outputs = counted_if(puts_out, self.outputs);
        see_all(self.watches.as_mut_slice(), is_first, machine);
    }

    /// Its line, where it ends with a step.
    #[tactic(auto, using(words::proofs::Digits::short_decimal), unfolding(crate::specs::Surveys::bucket_line))]
    pub(crate) fn line(&self, step: u64) -> BucketLine
        ensures { result.items ≡ bucket_line step self.now }
    {
        let mut line = ArrayVec::new();
        push_all(&mut line, b"BUCKET ");
        push_decimal(&mut line, step);
        push_all(&mut line, b" ");
        push_decimal(&mut line, self.cycles);
        push_all(&mut line, b" ENTRIES ");
        push_decimal(&mut line, self.entries);
        push_all(&mut line, b" INPUTS ");
        push_decimal(&mut line, self.inputs);
        push_all(&mut line, b" OUTPUTS ");
        push_decimal(&mut line, self.outputs);
        push_watches(&mut line, &self.watches);
        push_all(&mut line, b"\n");
        line
    }
}

/// A count, and one more if there is.
#[inline(always)]
fn counted_if(does: bool, count: u64) -> u64
    ensures { result ≡ counted_if does count }
{
    if does { count.saturating_add(1) } else { count }
}

/// The words of some subjects, before the first step.
fn watches_of(subjects: &[Subject]) -> Watches
    requires { length subjects.now ≤ MOST_SURVEYED }
    ensures { result.items ≡ map (λ (subject : Watched). begun_with subject 0) subjects.now }
{
    let mut watches = ArrayVec::new();
    for subject in subjects {
        watches.push(Watch::begun_with(*subject, Word::ZERO));
    }
    watches
}

/// A step led to a machine: the first of them, or one more.
#[inline(always)]
fn see_all(watches: &mut [Watch], is_first: bool, machine: &Machine)
    ensures { watches.new ≡ map (watch_seen is_first machine.now) watches.old }
{
    for index in 0..watches.len() {
        watches[index].see(is_first, machine);
    }
}

/// The most bytes of the line of a bucket: 20 for each of 8 words, and 135 before and after them.
const BUCKET_LINE: usize = 300;

/// The line of a bucket.
pub(crate) type BucketLine = ArrayVec<u8, BUCKET_LINE>;

/// Appends the least, the greatest and the last of each word.
fn push_watches(line: &mut BucketLine, watches: &Watches)
    requires { array_vec_len line.old ≤ 134 }
    ensures items { line.new.items ≡ line.old.items ++ flat_map watch_text watches.now.items }
    ensures short { array_vec_len line.new ≤ 294 }
{
    let _at_most_eight = watches.len();
    for watch in watches.as_slice() {
        push_watch(line, watch);
    }
}

/// Appends the least, the greatest and the last of a word.
fn push_watch(line: &mut BucketLine, watch: &Watch)
    requires { array_vec_len line.old ≤ 280 }
    ensures items { line.new.items ≡ line.old.items ++ watch_text watch.now }
    ensures len { array_vec_len line.new ≡ array_vec_len line.old + 20 }
{
    push_all(line, b" : ");
    push_octal(line, 5, watch.least.to_u16());
    push_all(line, b" ");
    push_octal(line, 5, watch.greatest.to_u16());
    push_all(line, b" ");
    push_octal(line, 5, watch.last.to_u16());
}
