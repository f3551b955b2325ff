//! Laws of images. Each is the contract of a call that does nothing.

ghost use Rattle.std.specs.Prelude.{◌≡◌};
ghost use Rattle.rope.specs.Image.{image};
ghost use Rattle.rope.specs.Laws.{HaveSameWords, WrittenIsRead, ReadIsWritten, HasOddParity};

use crate::memory::Rope;
use crate::spelling::Version;
use words::Word;

/// An image tells the words: what is read of an image that was written has at every place the word that stands there in
/// what was written, and 0 where none stands.
#[tactic(auto, using(crate::proofs::SameImages::same_words))]
pub fn image_tells_words(written: &Rope, read: &Rope, version: Version)
    ensures { image version written.now ≡ image version read.now → HaveSameWords written.now read.now }
{
    let _written = written;
    let _read = read;
    let _version = version;
}

/// What was written is read: of the image of a rope no fault is told, and the rope that is read has its words.
#[tactic(auto, using(crate::proofs::RoundTrips::written_is_read))]
pub fn written_is_read(written: &Rope, version: Version)
    ensures { WrittenIsRead version written.now }
{
    let _written = written;
    let _version = version;
}

/// What was read is written: the image of a rope that was read has the bytes from which it was read.
#[tactic(auto, using(crate::proofs::RoundTrips::read_is_written))]
pub fn read_is_written(read: &Rope, version: Version)
    ensures { ReadIsWritten version read.now }
{
    let _read = read;
    let _version = version;
}

/// In version 2 the two bytes of every word have an odd number of one bits.
#[tactic(auto, using(crate::proofs::Spellings::odd_ones))]
pub fn parity_is_odd(word: Word)
    ensures { HasOddParity word }
{
    let _word = word;
}
