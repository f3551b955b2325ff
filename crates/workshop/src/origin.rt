//! Where the words of a program come from.

ghost use Rattle.workshop.specs.Failures.{reader};
ghost use Rattle.workshop.specs.Loading.{Reads, ReadsProgram};

use crate::fault::WorkshopFault;
use crate::inputs::read_program;
use rope::{Rope, Version};
use std::alloc::Global;
use words::Read;
use yayul::{Language, SourceRows, Symbols};

/// Where the words of a program come from.
#[derive(Drop)]
pub enum Origin {
    /// The text of a source of a language, which is assembled.
    Source(Language),
    /// A rope image of a version, which has no symbols.
    Image(Version),
    /// A rope image of a version, with names that stand for its places.
    NamedImage(Version, Symbols),
}

impl Origin {
    /// Reads a program: its words in their places, its symbols, and the lines of its source. A source has at most
    /// 8,388,608 bytes.
    pub(crate) fn read<R: Read>(
        self,
        alloc: Global,
        file: &mut R,
    ) -> Result<(Rope, Symbols, SourceRows), WorkshopFault>
        ensures { Reads (ReadsProgram self)
            (reader R.Read file.old) (reader R.Read file.new) result }
    {
        match self {
            Origin::Source(language) => Ok(read_program(alloc, language, file)?.split_all()),
            Origin::Image(version) => {
                let rope = Rope::read(alloc, file, version)?;
                Ok((rope, Symbols::new(alloc), SourceRows::none(alloc)))
            }
            Origin::NamedImage(version, names) => {
                let words = Rope::read(alloc, file, version)?;
                Ok((words, names, SourceRows::none(alloc)))
            }
        }
    }
}
