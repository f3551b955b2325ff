//! Counts of steps.

ghost use Rattle.std.specs.Prelude.{◌≡◌};
ghost use Rattle.origins.specs.Tallies.{no_steps, with_step};

/// Some steps of a chain: how many they are, and the numbers of the first and the last of them.
#[derive(Clone, Copy, PartialEq, Eq, Debug)]
pub struct Tally {
    /// How many they are. The count stays at its greatest value.
    pub count: u64,
    /// The number of the first one.
    pub first: u64,
    /// The number of the last one.
    pub last: u64,
}

impl Tally {
    /// Of no step.
    pub(crate) fn none() -> Tally
        ensures { result ≡ no_steps }
    {
        Tally {
            count: 0,
            first: 0,
            last: 0,
        }
    }

    /// A step more, by its number, which comes before all others.
    pub(crate) fn add(&mut self, number: u64)
        ensures { self.new ≡ with_step number self.old }
    {
        if self.count == 0 {
            self.last = number;
        }
        self.first = number;
        self.count = self.count.saturating_add(1);
    }
}
