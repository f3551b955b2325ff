//! What a profile shows of a program.

use trace::PlaceNames;
use yayul::SourceRows;

/// What a profile shows of a program.
#[derive(Drop)]
pub enum Shown {
    /// The rows of a source's lines, with the names of its places, where these are asked for.
    Source(SourceRows, Option<PlaceNames>),
    /// The words of an image, with names that stand for its places, where there are some.
    Image(Option<PlaceNames>),
}
