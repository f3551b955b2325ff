//! The words of erasable memory.

ghost use Rattle.std.specs.Prelude.{◌≡◌, ℕ, ◌+◌, ◌/◌, ◌%◌, ◌^◌, ◌<◌, ◌≤◌, slice_index, replicate};
ghost use Rattle.std.specs.Prelude.{if◌then◌else◌, ◌==◌};
ghost use Rattle.space.specs.Cells.{erasable_count};
ghost use Rattle.space.specs.Stored.{lane_count};

use std::simd::prelude::*;

/// A number for each erasable place.
pub(super) type Erasable = [u16; 2048];

/// How many words are compared at a time.
pub(super) const LANES: u16 = 32;

pub(super) fn zero_erasable() -> Erasable
    ensures { result ≡ replicate erasable_count 0 }
{
    [0; 2048]
}

/// At which of some places that follow one another two erasable memories hold different numbers: bit k tells of the
/// first place plus k.
pub(super) fn differing(one: &Erasable, other: &Erasable, first: usize) -> u64
    requires { first + lane_count ≤ erasable_count }
    ensures { (k : ℕ) → k < lane_count → result / 2 ^ k % 2
        ≡ (if slice_index one.now (first + k) == slice_index other.now (first + k) then 0 else 1) }
{
    let one = u16x32::from_slice(&one[first..]);
    let other = u16x32::from_slice(&other[first..]);
    one.simd_ne(other).to_bitmask()
}
