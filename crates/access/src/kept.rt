//! What is kept at an account: what the step there counts, and how often it was made since.

ghost use Rattle.std.specs.Prelude.{◌≡◌, ◌+◌, ◌≤◌, ◌<◌, ◌^◌, true};
ghost use Rattle.access.specs.Levels.{levels};
ghost use Rattle.access.specs.Repeats.{kind_of, no_kept};

use crate::level::{LEVELS, level_executed};
use arrayvec::ArrayVec;
use cpu::Machine;
use std::marker::Model;

/// The numbers that a step counts: at most 8 reads and 10 writes.
pub(crate) type Slots = ArrayVec<u32, 18>;

/// What decides what the word at a place of fixed memory reads and writes: the bank registers, whether extracode is in
/// force, and the level.
#[derive(Clone, Copy, Drop)]
pub(crate) struct Kind {
    pub(crate) eb: u16,
    pub(crate) fb: u16,
    pub(crate) sup: bool,
    pub(crate) extra: bool,
    pub(crate) level: usize,
}

/// The kind of a machine's next step where that executes an instruction, after an interrupt was entered last.
pub(crate) fn kind_of(machine: &Machine, last: usize) -> Kind
    requires { last ≤ 10 }
    ensures kind { result ≡ kind_of machine.now last }
    ensures level { result.level < levels }
{
    let banks = machine.store().banks();
    Kind {
        eb: banks.eb,
        fb: banks.fb,
        sup: banks.sup,
        extra: machine.extra(),
        level: level_executed(machine, last),
    }
}

/// Whether two kinds are one.
fn is_same(one: &Kind, other: &Kind) -> bool
    ensures { result ≡ true → one.now ≡ other.now }
{
    one.eb == other.eb
        && one.fb == other.fb
        && one.level == other.level
        && one.sup == other.sup
        && one.extra == other.extra
}

/// The kind of an account's last step that repeats, what it counts, and how many such steps were not counted yet.
#[derive(Drop)]
pub(crate) struct Kept {
    kind: Kind,
    slots: Slots,
    count: u64,
}

impl Model for Kept {
    ghost use Rattle.access.specs.Repeats.{Kept as Stands};

    ghost Value = { Stands };

    ghost view = { λ k. record { kind = k.kind; slots = k.slots.items; count = k.count } };
}

impl Kept {
    /// Before any step: no step has this level.
    pub(crate) fn none() -> Kept
        ensures { result ≡ no_kept }
    {
        Kept {
            kind: Kind {
                eb: 0,
                fb: 0,
                sup: false,
                extra: false,
                level: LEVELS,
            },
            slots: ArrayVec::new(),
            count: 0,
        }
    }

    /// A step of a kind, which counts these numbers, and was not counted yet.
    pub(crate) fn first(kind: Kind, slots: Slots) -> Kept
        ensures { result ≡ record { kind = kind; slots = slots.items; count = 1 } }
    {
        Kept {
            kind,
            slots,
            count: 1,
        }
    }

    /// Whether the steps are of a kind.
    pub(crate) fn is_of(&self, kind: &Kind) -> bool
        ensures { result ≡ true → self.now.kind ≡ kind.now }
    {
        is_same(&self.kind, kind)
    }

    /// One step more.
    pub(crate) fn again(&mut self)
        requires { self.old.count ≤ 2 ^ 62 }
        ensures { self.new ≡ record self.old { count = self.old.count + 1 } }
    {
        self.count += 1;
    }

    /// All steps are counted.
    pub(crate) fn settle(&mut self)
        ensures { self.new ≡ record self.old { count = 0 } }
    {
        self.count = 0;
    }

    /// What each step counts.
    pub(crate) fn slots(&self) -> &[u32]
        ensures { result.now ≡ self.now.slots }
    {
        self.slots.as_slice()
    }

    /// How many steps were not counted yet.
    pub(crate) fn count(&self) -> u64
        ensures { result ≡ self.now.count }
    {
        self.count
    }
}
