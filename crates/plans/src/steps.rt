//! How many steps a run may have.

ghost use Rattle.std.specs.Prelude.{◌≡◌, ◌-◌, ◌≤◌, ◌^◌};
ghost use Rattle.std.specs.Option.{SomeIff};

use std::marker::Model;

/// The most steps of a run.
const MOST_STEPS: u64 = 1_099_511_627_774;

/// A count of steps that a run may have.
#[derive(Clone, Copy)]
pub struct Steps {
    count: u64,
}

impl Model for Steps {
    ghost use Rattle.std.specs.Prelude.{ℕ, ◌-◌, ◌≤◌, ◌^◌};

    ghost Value = { ℕ };

    ghost view = { λ s. s.count };

    ghost invariant = { λ s. s.count ≤ 2 ^ 40 - 2 };

    ghost inverse = { λ n. record { count = n } };
}

impl Steps {
    /// The count, where a run may have so many steps.
    pub fn try_new(count: u64) -> Option<Steps>
        ensures { SomeIff result (count ≤ 2 ^ 40 - 2) count }
    {
        if count <= MOST_STEPS {
            Some(Steps { count })
        } else {
            None
        }
    }

    /// Its number.
    pub fn count(self) -> u64
        ensures value { result ≡ self }
        ensures range { result ≤ 2 ^ 40 - 2 }
    {
        self.count
    }
}
