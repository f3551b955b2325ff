//! The last outputs of a run.

ghost use Rattle.std.specs.Prelude.{◌≡◌, [], IfOk, true};
ghost use Rattle.debugger.specs.Replies.{tail_length, outputs_text};
ghost use Rattle.debugger.specs.Tallies.{tally_of, with_output};

use arrayvec::ArrayVec;
use circular_buffer::HeapCircularBuffer;
use cpu::{Output, channel_line};
use std::alloc::{AllocError, Global};
use std::marker::Model;
use words::{push_all, push_decimal};

/// How many outputs are kept.
const TAIL_LENGTH: usize = 32;

/// The most bytes of the lines of the last outputs: 34 for each of 32, and `TAIL `, 20 digits and a line feed.
const TAIL_TEXT: usize = 1_120;

/// The lines of the last outputs.
pub(crate) type TailText = ArrayVec<u8, TAIL_TEXT>;

/// The last 32 outputs of a run, or all, oldest first, and how many the run has.
#[derive(Drop)]
pub(crate) struct Tail {
    ring: HeapCircularBuffer<Output>,

    /// As far as it goes: never so far in a session, which makes fewer steps.
    count: u64,
}

impl Model for Tail {
    ghost use Rattle.std.specs.Prelude.{◌≡◌};
    ghost use Rattle.debugger.specs.Replies.{tail_length};
    ghost use Rattle.debugger.specs.Tallies.{Tally};

    ghost Value = { Tally };

    ghost view = { λ t. record { last = t.ring.items; count = t.count } };

    ghost invariant = { λ t. t.ring.capacity ≡ tail_length };
}

impl Tail {
    /// The outputs of a run that has put nothing out. Later calls take no memory.
    pub(crate) fn new(alloc: Global) -> Result<Tail, AllocError>
        ensures { IfOk result (λ tail. tail ≡ tally_of []) }
    {
        let ring = HeapCircularBuffer::with_capacity(alloc, TAIL_LENGTH)?;
        Ok(Tail { ring, count: 0 })
    }

    /// One output more.
    pub(crate) fn push(&mut self, output: Output)
        ensures { self.new ≡ with_output self.old output }
    {
        self.ring.push_back(output);
        self.count = self.count.saturating_add(1);
    }

    /// How many outputs there were.
    pub(crate) fn count(&self) -> u64
        ensures { result ≡ self.now.count }
    {
        self.count
    }

    /// The channel lines of the outputs, and how many there are.
    pub(crate) fn text(&self) -> TailText
        ensures { result.items ≡ outputs_text self.now.last }
    {
        outputs_text(&self.ring)
    }
}

/// The channel lines of outputs, and how many there are.
#[tactic(auto, using(words::proofs::Digits::short_decimal))]
fn outputs_text(ring: &HeapCircularBuffer<Output>) -> TailText
    requires { ring.now.capacity ≡ tail_length }
    ensures { result.items ≡ outputs_text ring.now.items }
{
    let mut text = ArrayVec::new();
    let count = ring.len();
    for index in 0..count {
        let Some(output) = ring.get(index) else {
            unreachable!()
        };
        push_all(&mut text, channel_line(output).as_slice());
    }
    push_all(&mut text, b"TAIL ");
    push_decimal(&mut text, count as u64);
    push_all(&mut text, b"\n");
    text
}
