//! Why a text of tests is refused.

/// What is asked for where something else stands, or nothing.
#[derive(Clone, Copy, PartialEq, Eq, Debug, Drop)]
pub enum Asked {
    /// `SOURCE`, and a path.
    Source,
    /// `STEPS`, and a number of steps.
    Steps,
    /// `UNTIL IDLE`, or the end of the line.
    UntilIdle,
    /// `TEST`, which begins each test.
    Test,
    /// A word with which a line of a test begins.
    Claim,
    /// The name of a test.
    Name,
    /// A channel.
    Channel,
    /// A word that is put out, or `NOTHING`.
    Put,
    /// A number of cycles.
    Cycles,
    /// The word `CYCLES`.
    Unit,
    /// The word `NOTHING`.
    Nothing,
    /// Fewer words.
    FewerWords,
    /// A place.
    Place,
    /// An erasable place.
    Cell,
    /// A number of words after a plus sign, which stays in the bank.
    Offset,
    /// A routine.
    Routine,
    /// How often a routine is called, or `WITHIN`.
    Calls,
    /// `NONE`, or a kind of notes.
    Notes,
    /// A kind of notes.
    Kind,
    /// Fewer notes at a place.
    FewerPlaces,
    /// How many words are executed at least.
    Least,
    /// A relation.
    Relation,
    /// A word.
    Word,
    /// The end of the line.
    End,
}

/// At which field of a line, from 0 on, what is asked for.
#[derive(Clone, Copy, PartialEq, Eq, Debug, Drop)]
pub struct Wrong {
    /// The field.
    pub field: u64,
    /// What.
    pub asked: Asked,
}

/// Where a text of tests is refused.
#[derive(Clone, Copy, PartialEq, Eq, Debug, Drop)]
pub struct Refusal {
    /// The line, from 1 on; 0 for the end of the text.
    pub line: u64,
    /// What is wrong in it.
    pub wrong: Wrong,
}

/// Why no claims were read.
#[derive(Clone, Copy, PartialEq, Eq, Debug, Drop)]
pub enum ExpectFault {
    /// A growth of memory was refused.
    NoMemory,
    /// The text is refused.
    Refused(Refusal),
}
