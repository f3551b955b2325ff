//! The breakpoints of a session.

ghost use Rattle.std.specs.Prelude.{◌≡◌, ◌≤◌, ◌<◌, ◌==◌, ◌++◌, ◌∷◌, [], length};
ghost use Rattle.std.specs.List.{remove};
ghost use Rattle.arrayvec.specs.ArrayVec.{array_vec_len};

use crate::command::Breakpoint;
use arrayvec::ArrayVec;
use space::Chan;
use std::marker::Model;
use words::Word;

/// The most breakpoints that stand at once.
pub const MOST_BREAKPOINTS: usize = 16;

/// At most 16 breakpoints, in the order in which they were set. They take no memory.
#[derive(Drop)]
pub struct Breakpoints {
    list: ArrayVec<Breakpoint, MOST_BREAKPOINTS>,
}

impl Model for Breakpoints {
    ghost use Rattle.std.specs.Prelude.{List};
    ghost use Rattle.commands.specs.declared.command.Breakpoint.{Breakpoint};

    ghost Value = { List Breakpoint };

    ghost view = { λ b. b.list.items };
}

impl Breakpoints {
    /// No breakpoints.
    pub fn new() -> Breakpoints
        ensures { result ≡ [] }
    {
        Breakpoints {
            list: ArrayVec::new(),
        }
    }

    /// One alone.
    pub fn of_one(breakpoint: Breakpoint) -> Breakpoints
        ensures { result ≡ breakpoint ∷ [] }
    {
        let mut breakpoints = Breakpoints::new();
        breakpoints.push(breakpoint);
        breakpoints
    }

    /// How many there are.
    pub fn len(&self) -> usize
        ensures value { result ≡ length self.now }
        ensures few { result ≤ MOST_BREAKPOINTS }
    {
        self.list.len()
    }

    /// Whether no more may be set.
    pub fn is_full(&self) -> bool
        ensures value { result ≡ (length self.now == MOST_BREAKPOINTS) }
        ensures few { length self.now ≤ MOST_BREAKPOINTS }
    {
        self.list.is_full()
    }

    /// Sets one more, after the others.
    pub fn push(&mut self, breakpoint: Breakpoint)
        requires { length self.old < MOST_BREAKPOINTS }
        ensures { self.new ≡ self.old ++ breakpoint ∷ [] }
    {
        append(&mut self.list, breakpoint);
    }

    /// Takes one away; those after it move down.
    pub fn remove(&mut self, index: usize)
        requires { index < length self.old }
        ensures { self.new ≡ remove self.old index }
    {
        self.list.remove(index);
    }

    /// Takes all away.
    pub fn clear(&mut self)
        ensures { self.new ≡ [] }
    {
        self.list.clear();
    }

    /// The breakpoints.
    pub fn as_slice(&self) -> &[Breakpoint]
        ensures { result.now ≡ self.now }
    {
        self.list.as_slice()
    }
}

// What an empty place of the list holds.
impl Default for Breakpoint {
    fn default() -> Breakpoint {
        Breakpoint::Channel(Chan::L, Word::of_low_bits(0))
    }
}

// Adds a breakpoint at the end.
fn append<const N: usize>(list: &mut ArrayVec<Breakpoint, N>, breakpoint: Breakpoint)
    requires { array_vec_len list.old < N }
    ensures { list.new.items ≡ list.old.items ++ breakpoint ∷ [] }
{
    list.push(breakpoint);
}
