//! The walk back over the steps of a run.

ghost use Rattle.std.specs.Prelude.{◌≡◌, ◌+◌, ◌-◌, ◌*◌, ◌^◌, ◌<◌, ◌≤◌, List, IfOk, OnOk, OnErr};
ghost use Rattle.cpu.specs.Chains.{cells_among};
ghost use Rattle.cpu.specs.declared.spot.Spot.{Spot};
ghost use Rattle.replay.specs.Whys.{why_steps};
ghost use Rattle.origins.specs.Gathering.{gathered, seen_back};
ghost use Rattle.origins.specs.Walks.{AreFew, IsCheap, IsOfRun};

use crate::gathered::Gathered;
use crate::image::Image;
use cpu::Processor;
use std::alloc::Global;

/// What ends a walk early.
#[derive(Clone, Copy, PartialEq, Eq, Debug, Drop)]
pub enum LookFault {
    /// A copy of what runs was refused memory.
    NoMemory,
}

/// How many steps a walk executed, and how many machines it held at once.
#[derive(Clone, Copy, PartialEq, Eq, Debug)]
pub struct LookedBack {
    /// How many steps.
    pub made: u128,
    /// How many machines.
    pub images: u64,
}

/// Goes back over the first so many steps of a run, and gathers what the words of some cells come from that they leave:
/// over those of the whole chain, each once, the last first.
///
/// A copy of what runs makes the steps: of n at most half of n for each time that n can be halved.
pub fn look_back(
    alloc: Global,
    processor: &Processor,
    steps: u64,
    chain: &mut Gathered,
) -> Result<LookedBack, LookFault>
    requires few { steps ≤ 2 ^ 40 - 2 }
    ensures whole { OnOk result ((xs : List Spot) → chain.old.followed ≡ cells_among xs
        → chain.new ≡ gathered processor.now.scenario (why_steps processor.now.scenario steps steps xs) chain.old) }
    ensures made { IfOk result (λ looked. IsCheap steps 0 looked.made) }
    ensures images { IfOk result (λ looked. AreFew steps (looked.images - 1)) }
    ensures err { OnErr result (chain.new ≡ chain.old) }
{
    let Ok(mut copy) = processor.copied(alloc) else {
        return Err(LookFault::NoMemory);
    };
    let start = Image::at_start();
    let held = walk_back(&mut copy, &start, steps, chain);
    Ok(LookedBack {
        made: copy.meter(),
        images: held + 1,
    })
}

/// Sees the steps from an image of a run up to one, the last first, and answers how many machines were held for it at
/// once.
///
/// It goes on to the middle, sees the steps of the later half, and then those of the earlier one.
fn walk_back(processor: &mut Processor, image: &Image, high: u64, chain: &mut Gathered) -> u64
    requires order { image.now.step ≤ high }
    requires few { high < 2 ^ 40 }
    requires of_run { IsOfRun processor.old.scenario image.now }
    ensures seen { chain.new
        ≡ seen_back processor.old.scenario image.now.step (high - image.now.step) chain.old }
    ensures scenario { processor.new.scenario ≡ processor.old.scenario }
    ensures made { IsCheap (high - image.now.step) processor.old.meter processor.new.meter }
    ensures images { AreFew (high - image.now.step) result }
{
    let count = high - image.step;
    if count == 0 {
        return 0;
    }
    if count == 1 {
        chain.see(processor, &image.machine, image.served, image.step);
        return 0;
    }
    let middle = image.step + count / 2;
    let later = image.gone_on(processor, middle);
    let held = walk_back(processor, &later, high, chain);
    let held_before = walk_back(processor, image, middle, chain);
    held.max(held_before) + 1
}
