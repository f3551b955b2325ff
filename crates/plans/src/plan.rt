//! What is to be done.

use crate::steps::Steps;
use arguments::ImageLayout;
use json_text::Notation;
use rope::{Form, Version};
use space::Bank;
use yayul::Language;

/// What is to be done.
#[derive(Drop)]
pub enum Plan<'a> {
    /// A source is assembled to an image.
    Assemble(Assembly<'a>),
    /// A source is assembled to an image with check words.
    AssembleWithSums(Assembly<'a>),
    /// A source with lines of the interpretive language is assembled, which have their words of an image, where its
    /// file is given.
    AssembleWithHoles(Assembly<'a>, Option<&'a str>),
    /// Such a source is assembled to an image with check words, and has those words of an image, whose file is given.
    AssembleFilledWithSums(Assembly<'a>, &'a str),
    /// A program is run.
    Run(Run<'a>),
    /// A run is traced.
    Trace(Tracing<'a>),
    /// A run is profiled.
    Cover(Profile<'a>),
    /// It is shown which words of a program are reached.
    Reach(Reachable<'a>),
    /// The same beside a run.
    ReachRun(Reaching<'a>),
    /// The most cycles of a routine are told.
    Bound(Routine<'a>),
    /// The reads and writes of a run are counted.
    Access(Accesses<'a>),
    /// How long the interrupts of a run waited is told.
    Delays(Timed<'a>),
    /// Inputs are tried, each of them alone.
    WhatIf(Trials<'a>),
    /// It is told where two runs part.
    Differ(Pair<'a>),
    /// A program is debugged in a plain session.
    Debug(Program<'a>),
    /// A program is debugged in an extended session.
    DebugExtended(Program<'a>),
    /// All faults of a source and of feeds are told.
    Check(Check<'a>),
    /// Runs are judged by the texts of tests in some files, and told in a form.
    Expect(Tests<'a>),
    /// The refusal or the warning of a number is explained, or all are listed.
    Explain(Option<&'a str>),
    /// An image of version 1, the first, is written in version 2 to the second.
    Upgrade(&'a str, &'a str),
    /// The words of an image are shown.
    Show(Words<'a>),
    /// Two images are compared.
    Compare(Image<'a>, Image<'a>),
    /// A source is compared with an image, at the places that it fills.
    CompareOnly(Original<'a>, Image<'a>),
    /// The same of a source of the language of flight programs, with an account of each bank, where lines of the
    /// interpretive language are holes, or not.
    CompareBanks(Original<'a>, Image<'a>, bool),
    /// Two images are aligned.
    Align(Image<'a>, Image<'a>),
    /// The names of a table of the first of two images are carried to the second.
    Carry(&'a str, Image<'a>, Image<'a>),
    /// A passage of a source is found in an image.
    Find(Original<'a>, Image<'a>),
    /// The banks of an image are summed.
    Sum(Image<'a>),
    /// The banks of an image are summed in both orders of the bits.
    SumBothForms(Image<'a>),
    /// The words of an image whose parity is wrong are shown.
    ShowParity(Image<'a>),
    /// What is damaged in an image is told.
    ShowDamages(Image<'a>),
    /// A source is written of an image, with the words that the sums want.
    ShowMended(Image<'a>),
    /// Nothing: the first step that is to be shown is later than the last.
    NoSteps,
    /// Nothing: a run may not have so many steps.
    TooManySteps,
    /// Nothing: a bank with a hole has no sum, and nothing fills the holes.
    SumsOfHoles,
}

/// A source that is read.
#[derive(Clone, Copy)]
pub struct Original<'a> {
    /// Its file.
    pub path: &'a str,
    /// Its language.
    pub language: Language,
    /// What is assumed of forms that are not certain.
    pub assumed: Option<&'a str>,
}

/// An image that is read.
#[derive(Clone, Copy)]
pub struct Image<'a> {
    /// Its file.
    pub path: &'a str,
    /// How its bytes are taken.
    pub form: Form,
    /// How they stand otherwise than as written, before that.
    pub layout: ImageLayout,
    /// The version in which they are then read.
    pub version: Version,
}

/// A program that is run, with its feed.
#[derive(Clone, Copy)]
pub struct Program<'a> {
    /// Its file.
    pub path: &'a str,
    /// How the bytes of the file are taken.
    pub form: Form,
    /// What the file is.
    pub kind: Kind,
    /// The file of a table of names, where there is one.
    pub symbols: Option<&'a str>,
    /// The file of the feed.
    pub feed: &'a str,
}

/// A routine whose most cycles are told.
#[derive(Clone, Copy)]
pub struct Routine<'a> {
    /// The program.
    pub listed: Listed<'a>,
    /// The routine.
    pub name: &'a str,
    /// Pairs of a place and of how often a way comes to it at most.
    pub loops: Option<&'a str>,
    /// The cells that keep Q.
    pub kept: Option<&'a str>,
}

/// A program that is shown and not run.
#[derive(Clone, Copy)]
pub struct Listed<'a> {
    /// Its file.
    pub path: &'a str,
    /// How the bytes of the file are taken.
    pub form: Form,
    /// What the file is.
    pub kind: Kind,
    /// The file of a table of names, where there is one.
    pub symbols: Option<&'a str>,
}

/// What is shown of a program without a run.
#[derive(Clone, Copy)]
pub struct Reachable<'a> {
    /// The program.
    pub listed: Listed<'a>,
    /// Whether the root of each word is shown.
    pub shows_roots: bool,
}

/// What is shown of a program beside a run.
#[derive(Clone, Copy)]
pub struct Reaching<'a> {
    /// What is run.
    pub program: Program<'a>,
    /// How many steps.
    pub steps: Steps,
    /// Whether the root of each word is shown.
    pub shows_roots: bool,
}

/// Two runs that are made beside each other.
#[derive(Clone, Copy)]
pub struct Pair<'a> {
    /// What is run.
    pub program: Program<'a>,
    /// What is run beside it.
    pub other: Program<'a>,
    /// How many steps of each.
    pub steps: Steps,
    /// By how many steps of each run it is told how what differs came about, where it is.
    pub why: Option<u64>,
}

/// What the file of a program is.
#[derive(Clone, Copy)]
pub enum Kind {
    /// A source of a language.
    Source(Language),
    /// An image that is read in a version.
    Image(Version),
}

/// A source to be assembled.
#[derive(Clone, Copy)]
pub struct Assembly<'a> {
    /// The source.
    pub source: Original<'a>,
    /// The file of the image.
    pub rope: &'a str,
    /// The version in which it is written.
    pub version: Version,
    /// Whether it is told what lines do with each name.
    pub tells_uses: bool,
}

/// A run.
#[derive(Clone, Copy)]
pub struct Run<'a> {
    /// What is run.
    pub program: Program<'a>,
    /// How many steps are made.
    pub steps: Steps,
    /// Whether fewer are made where the program idles before.
    pub until_idle: bool,
    /// Whether lines of the interpretive language are holes, and fewer are made where one would be executed.
    pub has_holes: bool,
    /// Whether it is told how many steps are made.
    pub tells_progress: bool,
    /// Whether it is told what is seldom meant.
    pub tells_notes: bool,
    /// In which notation that is told.
    pub notation: Notation,
    /// Whether it is told how it has ended.
    pub tells_end: bool,
}

/// A run of which the steps are shown.
#[derive(Clone, Copy)]
pub struct Tracing<'a> {
    /// What is run.
    pub program: Program<'a>,
    /// The first step that is shown.
    pub first: u64,
    /// The last step that is shown.
    pub last: Steps,
    /// Whether it is shown what each step has read.
    pub shows_reads: bool,
    /// Whether it is said what each step did.
    pub says: bool,
    /// Whether it is told how many steps are made.
    pub tells_progress: bool,
}

/// A run of which it is shown what was executed.
#[derive(Clone, Copy)]
pub struct Profile<'a> {
    /// What is run.
    pub program: Program<'a>,
    /// How many steps are made.
    pub steps: Steps,
    /// Whether it is told how many steps are made.
    pub tells_progress: bool,
    /// In which notation the profile is written.
    pub notation: Notation,
}

/// A run whose reads and writes are counted.
#[derive(Clone, Copy)]
pub struct Accesses<'a> {
    /// What is run.
    pub program: Program<'a>,
    /// How many steps are made.
    pub steps: Steps,
    /// The cell whose reads and writes are told by their places; all cells are told where there is none.
    pub place: Option<&'a str>,
    /// Whether it is told how many steps are made.
    pub tells_progress: bool,
}

/// A run of which it is told how long interrupts waited.
#[derive(Clone, Copy)]
pub struct Timed<'a> {
    /// What is run.
    pub program: Program<'a>,
    /// How many steps are made.
    pub steps: Steps,
    /// Whether it is told how many steps are made.
    pub tells_progress: bool,
}

/// Inputs that are tried, each of them alone.
#[derive(Clone, Copy)]
pub struct Trials<'a> {
    /// What is run.
    pub program: Program<'a>,
    /// How many steps are made.
    pub steps: Steps,
    /// The file of the inputs.
    pub path: &'a str,
    /// What they change in the notes is told, and not what is put out.
    pub tells_notes: bool,
}

/// A source and feeds that are checked.
#[derive(Drop)]
pub struct Check<'a> {
    /// The source.
    pub source: Original<'a>,
    /// The files of the feeds.
    pub feeds: Vec<&'a str>,
    /// Whether labels that no operand names are told.
    pub tells_unused: bool,
    /// In which notation it is told.
    pub notation: Notation,
}

/// Texts of tests by which runs are judged.
#[derive(Drop)]
pub struct Tests<'a> {
    /// The files of the texts.
    pub files: Vec<&'a str>,
    /// In which form the verdicts are told.
    pub verdicts: Verdicts,
}

/// The words of an image that are shown.
#[derive(Clone, Copy)]
pub struct Words<'a> {
    /// The image.
    pub image: Image<'a>,
    /// The bank; all where it is none.
    pub bank: Option<Bank>,
    /// How they are shown.
    pub shown: Shown<'a>,
    /// Whether it is told where the image is refused.
    pub tells_where: bool,
}

/// How the words of an image are shown.
#[derive(Clone, Copy)]
pub enum Shown<'a> {
    /// As instructions.
    Instructions,
    /// As instructions, with the names of the table of a file.
    Named(&'a str),
    /// As a source that gives them.
    Source,
    /// As a source that gives them, with the names of the table of a file and instructions.
    NamedSource(&'a str),
    /// As a text of octal words.
    Octals,
    /// As a cross-reference of the names of the table of a file.
    Crossed(&'a str),
    /// As instructions, with the names of a flight source, whose lines of the interpretive language are holes.
    Holed(&'a str),
}

/// In which form verdicts are told.
#[derive(Clone, Copy, PartialEq, Eq)]
pub enum Verdicts {
    /// As lines for people.
    Lines,
    /// As TAP.
    Tap,
    /// As JUnit does.
    Junit,
}
