//! Counters, and what there is to say of each.

ghost use Rattle.std.specs.Prelude.{◌≡◌, ◌%◌};
ghost use Rattle.feed.specs.Counters.{row_of, counter_place, takes};

use crate::counter::Asks::{AtZero, CarryInto, Nothing, OnOneShiftedOut, OnOverflow};
use crate::input::Sequence::{Dinc, Mcdu, Minc, Pcdu, Pinc, Shanc, Shinc};
use crate::input::{Counter, Sequence};
use crate::interrupt::Interrupt;
use space::Eras;

/// What a counter asks for after a step.
#[derive(Clone, Copy, Debug)]
pub enum Asks {
    /// Nothing.
    Nothing,
    /// One more in another counter, on an overflow.
    CarryInto(Counter),
    /// An interrupt, on an overflow.
    OnOverflow(Interrupt),
    /// An interrupt, on a result of +0.
    AtZero(Interrupt),
    /// An interrupt, on a one that is shifted out.
    OnOneShiftedOut(Interrupt),
}

/// All that there is to say of a counter.
#[derive(Clone, Copy)]
pub(crate) struct Row {
    /// Its name in a feed.
    pub(crate) name: &'static [u8],
    /// The erasable place that it counts in.
    pub(crate) place: Eras,
    /// The sequences that it takes.
    pub(crate) takes: &'static [Sequence],
    /// What it asks for after a step.
    pub(crate) asks: Asks,
}

impl Counter {
    /// Its row.
    #[inline(always)]
    pub(crate) fn row(self) -> Row
        ensures name { result.name.now ≡ (row_of self).name }
        ensures place { result.place ≡ (row_of self).place }
        ensures takes { result.takes.now ≡ (row_of self).takes }
        ensures asks { result.asks ≡ (row_of self).asks }
    {
        match self {
            Counter::Time1 => make_row(b"TIME1", 0o25, &[Pinc], CarryInto(Counter::Time2)),
            Counter::Time2 => make_row(b"TIME2", 0o24, &[Pinc], Nothing),
            Counter::Time3 => make_row(b"TIME3", 0o26, &[Pinc], OnOverflow(Interrupt::new(3))),
            Counter::Time4 => make_row(b"TIME4", 0o27, &[Pinc], OnOverflow(Interrupt::new(4))),
            Counter::Time5 => make_row(b"TIME5", 0o30, &[Pinc], OnOverflow(Interrupt::new(2))),
            Counter::Time6 => make_row(b"TIME6", 0o31, &[Dinc], AtZero(Interrupt::new(1))),
            Counter::CduX => make_row(b"CDUX", 0o32, &[Pcdu, Mcdu], Nothing),
            Counter::CduY => make_row(b"CDUY", 0o33, &[Pcdu, Mcdu], Nothing),
            Counter::CduZ => make_row(b"CDUZ", 0o34, &[Pcdu, Mcdu], Nothing),
            Counter::OptY => make_row(b"OPTY", 0o35, &[Pcdu, Mcdu], Nothing),
            Counter::OptX => make_row(b"OPTX", 0o36, &[Pcdu, Mcdu], Nothing),
            Counter::PipaX => make_row(b"PIPAX", 0o37, &[Pinc, Minc], Nothing),
            Counter::PipaY => make_row(b"PIPAY", 0o40, &[Pinc, Minc], Nothing),
            Counter::PipaZ => make_row(b"PIPAZ", 0o41, &[Pinc, Minc], Nothing),
            Counter::Inlink => {
                let uplink = Interrupt::new(7);
                make_row(b"INLINK", 0o45, &[Shinc, Shanc], OnOneShiftedOut(uplink))
            }
        }
    }

    /// The erasable place that it counts in.
    pub fn place(self) -> Eras
        ensures { result ≡ counter_place self }
    {
        self.row().place
    }

    /// What it asks for after a step.
    pub fn asks(self) -> Asks
        ensures { result ≡ (row_of self).asks }
    {
        self.row().asks
    }

    /// Its name in a feed.
    pub fn name(self) -> &'static [u8]
        ensures { result.now ≡ (row_of self).name }
    {
        self.row().name
    }

    /// Whether it takes a sequence.
    pub fn takes(self, sequence: Sequence) -> bool
        ensures { result ≡ takes self sequence }
    {
        self.row().takes.contains(&sequence)
    }
}

fn make_row(name: &'static [u8], place: u16, takes: &'static [Sequence], asks: Asks) -> Row
    ensures name { result.name.now ≡ name.now }
    ensures place { result.place ≡ place % 0o4000 }
    ensures takes { result.takes.now ≡ takes.now }
    ensures asks { result.asks ≡ asks }
{
    Row {
        name,
        place: Eras::of_low_bits(place),
        takes,
        asks,
    }
}
