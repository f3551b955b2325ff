//! Many steps at once.

ghost use Rattle.std.specs.Prelude.{◌+◌, ◌*◌, ◌^◌, ◌≤◌};
ghost use Rattle.std.specs.Int.{◌∣◌};
ghost use Rattle.replay.specs.Travelled.{CanTravel, HasTravelled};

use crate::keeper::Keeper;
use crate::settling::{keep_sure, settle, thin_up_to};
use crate::watching::{Stepper, walk};
use cpu::{Machine, Processor};

/// Some steps: the image of the first is kept, and once the last is reached the steps are gone once more for the images
/// that stay there.
fn leap<K: Keeper, S: Stepper>(
    processor: &mut Processor,
    keeper: &mut K,
    machine: &mut Machine,
    low: u64,
    high: u64,
    stepper: &mut S,
) -> (u64, bool)
    requires { CanTravel K.may_refuse processor.old (K.images keeper.old) machine.old low high }
    ensures { HasTravelled S.sees low high result processor.old processor.new
        (K.images keeper.new) machine.new stepper.old stepper.new }
{
    keep_sure(keeper, low, machine);
    let (end, ended) = walk(processor, machine, low, high, stepper);
    settle(processor, keeper, low, end, machine);
    (end, ended)
}

/// How far apart images are kept on a long way.
const STRIDE: u64 = 1 << 14;

/// Many steps from a multiple of the stride on: images are kept at its multiples alone, and once the last step is
/// reached two to three strides are gone once more for the images that stay there.
fn stride_on<K: Keeper, S: Stepper>(
    processor: &mut Processor,
    keeper: &mut K,
    machine: &mut Machine,
    low: u64,
    high: u64,
    stepper: &mut S,
) -> (u64, bool)
    requires grid { 2 ^ 14 ∣ low }
    requires ready { CanTravel K.may_refuse processor.old (K.images keeper.old) machine.old low high }
    ensures travelled { HasTravelled S.sees low high result processor.old processor.new
        (K.images keeper.new) machine.new stepper.old stepper.new }
    ensures once { processor.new.meter + low ≤ processor.old.meter + result.0 + 3 * 2 ^ 14 }
{
    let mut at = low;
    let mut ended = false;
    while at < high && !ended {
        keep_sure(keeper, at, machine);
        let (end, is_ended) = walk(processor, machine, at, high.min(at + STRIDE), stepper);
        thin_up_to(keeper, at, end);
        at = end;
        ended = is_ended;
    }
    let base = low.max(((at + 1) / STRIDE).saturating_sub(2) * STRIDE);
    settle(processor, keeper, base, at, machine);
    (at, ended)
}

/// Many steps: up to a multiple of the stride, and then stride after stride.
pub(crate) fn travel<K: Keeper, S: Stepper>(
    processor: &mut Processor,
    keeper: &mut K,
    machine: &mut Machine,
    low: u64,
    high: u64,
    stepper: &mut S,
) -> (u64, bool)
    requires { CanTravel K.may_refuse processor.old (K.images keeper.old) machine.old low high }
    ensures travelled { HasTravelled S.sees low high result processor.old processor.new
        (K.images keeper.new) machine.new stepper.old stepper.new }
    ensures once { processor.new.meter + low ≤ processor.old.meter + result.0 + 2 ^ 16 }
{
    let past = low % STRIDE;
    if past == 0 {
        return stride_on(processor, keeper, machine, low, high, stepper);
    }
    let first = high.min(low + (STRIDE - past));
    let (end, ended) = leap(processor, keeper, machine, low, first, stepper);
    if ended || end == high {
        return (end, ended);
    }
    stride_on(processor, keeper, machine, end, high, stepper)
}
