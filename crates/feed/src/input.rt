//! What reaches the computer from outside, and when.

use crate::interrupt::Interrupt;
use space::Chan;
use words::Word;

/// A counter: an erasable place that pulses from outside count in.
#[derive(Clone, Copy, PartialEq, Eq, Debug)]
pub enum Counter {
    /// The lower word of the clock.
    Time1,
    /// The upper word of the clock.
    Time2,
    /// The timer of the tasks that wait.
    Time3,
    /// The timer of displays and switches.
    Time4,
    /// The timer of the autopilot.
    Time5,
    /// The timer of the jets, which counts down.
    Time6,
    /// The angle of the outer gimbal.
    CduX,
    /// The angle of the inner gimbal.
    CduY,
    /// The angle of the middle gimbal.
    CduZ,
    /// The angle of the optics' trunnion.
    OptY,
    /// The angle of the optics' shaft.
    OptX,
    /// The accelerometer of the X axis.
    PipaX,
    /// The accelerometer of the Y axis.
    PipaY,
    /// The accelerometer of the Z axis.
    PipaZ,
    /// The uplink's word.
    Inlink,
}

/// What a pulse does to a counter.
#[derive(Clone, Copy, PartialEq, Eq, Debug)]
pub enum Sequence {
    /// Adds one.
    Pinc,
    /// Takes one away.
    Minc,
    /// Brings the counter one nearer to zero.
    Dinc,
    /// Adds one to an angle.
    Pcdu,
    /// Takes one away from an angle.
    Mcdu,
    /// Shifts a zero in.
    Shinc,
    /// Shifts a one in.
    Shanc,
}

/// An input.
#[derive(Clone, Copy, PartialEq, Eq, Debug)]
pub enum Input {
    /// A pulse of a counter.
    Count(Counter, Sequence),
    /// A word on an input channel.
    Word(Chan, Word),
    /// An interrupt that is asked for.
    Interrupt(Interrupt),
}
