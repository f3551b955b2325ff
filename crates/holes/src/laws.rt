//! The laws of holes. They are contracts of calls that do nothing.

ghost use Rattle.holes.specs.HoleLaws.{AreFilled, HolesStay, StaysWithoutHoles};

use rope::Rope;

/// A source without a line of the interpretive language is assembled as it stands.
pub fn stays_without_holes(source: &[u8])
    ensures { StaysWithoutHoles source.now }
{
    let _source = source;
}

/// Where holes are filled each has the word of the other fixed memory, and each other place what it had.
pub fn holes_are_filled(words: &Rope, other: &Rope, from: &Rope)
    ensures { AreFilled words.now other.now from.now }
{
    let _words = words;
    let _other = other;
    let _from = from;
}

/// Where the words of an image are put around holes each hole keeps its word, and each other place takes that of the
/// image; and behind a hole whose word is 00000 no extracode is in force.
pub fn holes_stay(words: &Rope, other: &Rope, image: &Rope)
    ensures { HolesStay words.now other.now image.now }
{
    let _words = words;
    let _other = other;
    let _image = image;
}
