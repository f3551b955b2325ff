//! The law of texts of octal words. It is the contract of a call that does nothing.

ghost use Rattle.audit.specs.OctalsBack.{AreWords, ReadsBack};

use rope::Rope;

/// What is written as a text of octal words is read again: the text of all banks is taken, at each place the word
/// stands which stood there, 0 where none did, and the image is the same, in each version.
#[tactic(auto, using(crate::proofs::OctalBanks::reads_back))]
pub fn octals_read_back(words: &Rope)
    ensures { AreWords words.now → ReadsBack words.now }
{
    let _words = words;
}
