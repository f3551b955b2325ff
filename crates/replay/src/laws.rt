//! Laws of searches and of images. Each is the contract of a call that does nothing.

ghost use Rattle.std.specs.Prelude.{◌≡◌, ℕ, List};
ghost use Rattle.cpu.specs.declared.spot.Spot.{Spot};
ghost use Rattle.replay.specs.Images.{Image};
ghost use Rattle.replay.specs.View.{AreImages};
ghost use Rattle.replay.specs.Whys.{WhyIsChain};

use cpu::Processor;

/// The steps from which what stands at spots came about are a chain.
pub fn why_is_chain(processor: &Processor)
    ensures { (k p : ℕ) (xs : List Spot) → WhyIsChain processor.now.scenario k p xs }
{
    let _processor = processor;
}

/// The images of a run at a step are one list. So a call of many steps leaves the images that as many calls of one step
/// leave.
pub fn images_are_one(processor: &Processor)
    ensures { (n : ℕ) (xs ys : List Image) → AreImages processor.now.scenario n xs
        → AreImages processor.now.scenario n ys → xs ≡ ys }
{
    let _processor = processor;
}
