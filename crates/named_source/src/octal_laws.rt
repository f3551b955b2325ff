//! The laws of the source that fixed memory is written as, and of images in another form. They are contracts of calls
//! that do nothing.

ghost use Rattle.audit.specs.SourceLines.{source_text};
ghost use Rattle.std.specs.Prelude.{ℕ};
ghost use Rattle.named_source.specs.GivenBack.{AreWords, IsBank, GivesBack, GivesImage};
ghost use Rattle.named_source.specs.OtherOrder.{IsTakenAsImage, OneBitIsSeen};

use rope::{Rope, Version};
use space::Bank;

/// What is written as a source is given back: the source assembles, and then at the places of the banks that were
/// written the words stand which stood there, 0 where none did, and no other word stands.
#[tactic(auto, using(crate::proofs::OctalGivenBack::given_back))]
pub fn source_gives_back(words: &Rope, bank: Option<Bank>)
    ensures { AreWords words.now → IsBank bank → GivesBack words.now bank (source_text words.now bank) }
{
    let _words = words;
    let _bank = bank;
}

/// What is written of all banks as a source assembles to the same image, in each version.
#[tactic(auto, using(crate::proofs::Images::gives_image))]
pub fn source_gives_image(words: &Rope, version: Version)
    ensures { AreWords words.now → GivesImage version words.now }
{
    let _words = words;
    let _version = version;
}

/// The image of fixed memory in the other order of the bits has the same parity, and is taken for the image of the same
/// words.
pub fn other_order_is_taken(words: &Rope)
    ensures { IsTakenAsImage words.now }
{
    let _words = words;
}

/// One wrong bit in the two bytes of a word is seen by the parity.
#[tactic(auto, using(crate::proofs::OtherOrder::one_bit_is_seen))]
pub fn one_wrong_bit_is_seen()
    ensures { (n i : ℕ) → OneBitIsSeen n i }
{}
