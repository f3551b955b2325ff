//! What a command line asks for: a subcommand, and the values of its arguments.
#![tactic(auto)]

/// A subcommand with its arguments.
#[derive(Drop)]
pub enum Arguments<'a> {
    /// A source is assembled.
    Asm(AsmArguments<'a>),
    /// A program is run.
    Run(RunArguments<'a>),
    /// A run is traced.
    Trace(TraceArguments<'a>),
    /// A run is profiled.
    Cover(CoverArguments<'a>),
    /// It is shown which words of a program are reached.
    Reach(ReachArguments<'a>),
    /// The most cycles of a routine are told.
    Bound(BoundArguments<'a>),
    /// The reads and writes of a run are counted.
    Access(AccessArguments<'a>),
    /// How long the interrupts of a run waited is told.
    Delays(DelaysArguments<'a>),
    /// Inputs are tried, each of them alone.
    WhatIf(WhatIfArguments<'a>),
    /// It is told where two runs part.
    Differ(DifferArguments<'a>),
    /// A program is debugged.
    Debug(DebugArguments<'a>),
    /// All faults of a source and of feeds are told.
    Check(CheckArguments<'a>),
    /// Runs are judged by texts of tests, which are files.
    Expect(Vec<&'a str>, VerdictArguments),
    /// A refusal or a warning is explained, or all are listed.
    Explain(Option<&'a str>),
    /// An image is upgraded.
    Upgrade(UpgradeArguments<'a>),
    /// The words of an image are shown.
    Words(WordsArguments<'a>),
    /// Two images are compared, or a source with an image.
    Compare(CompareArguments<'a>),
    /// Two images are aligned.
    Align(AlignArguments<'a>),
    /// A passage of a source is found in an image.
    Find(FindArguments<'a>),
    /// The banks of an image are summed.
    Sums(SumsArguments<'a>),
    /// The words of an image whose parity is wrong are shown.
    Parity(ImageArguments<'a>),
    /// What is damaged in an image is told.
    Damages(DamagesArguments<'a>),
}

/// A version of rope images.
#[derive(Clone, Copy)]
pub enum ImageVersion {
    /// `--rope 1`: the lowest bit of each two bytes is 0.
    One,
    /// `--rope 2`: it is the parity.
    Two,
}

/// A file that is a rope image, and how its bytes are to be taken.
#[derive(Clone, Copy)]
pub struct ImageArguments<'a> {
    /// The file.
    pub path: &'a str,
    /// `--rope`: its version.
    pub version: ImageVersion,
    /// `--parity ignore`: whether the lowest bit of each two bytes is passed over.
    pub is_parity_ignored: bool,
    /// `--form hardware`: whether the parity stands below the highest bit.
    pub is_hardware: bool,
    /// What else `--form` names.
    pub layout: ImageLayout,
}

/// How the bytes of an image stand otherwise than as written.
#[derive(Clone, Copy)]
pub struct ImageLayout {
    /// `--form swapped`: whether the second of each two stands first.
    pub is_swapped: bool,
    /// `--form complemented`: whether each bit is the other one.
    pub is_complemented: bool,
    /// `--form numbered`: whether the banks stand by their numbers.
    pub is_numbered: bool,
    /// `--form module1` to `module6`: which module of six banks stands alone, or 0.
    pub one_module: usize,
}

/// A program to be run, with its feed.
#[derive(Clone, Copy)]
pub struct ProgramArguments<'a> {
    /// The file of the program, and how it is to be taken where it is an image.
    pub file: ImageArguments<'a>,
    /// `--image`: whether it is an image in place of a source.
    pub is_image: bool,
    /// `--flight`: whether it is a source in the language of flight programs.
    pub is_flight: bool,
    /// `--symbols`: the file of a table of names.
    pub symbols: Option<&'a str>,
    /// The file of the feed.
    pub feed: &'a str,
}

/// `agcws asm [--flight [--holes [--fill FILE]] [--assume WORDINGS]] [--sums] [--xref] [--rope VERSION] SRC ROPE`; with
/// `--holes` there is no `--sums` without `--fill`.
#[derive(Clone, Copy)]
pub struct AsmArguments<'a> {
    /// The file of the source.
    pub source: &'a str,
    /// The file of the image.
    pub rope: &'a str,
    /// `--rope`: the image's version.
    pub version: ImageVersion,
    /// `--flight`.
    pub is_flight: bool,
    /// `--sums`: whether words are added that make the banks' sums.
    pub has_sums: bool,
    /// `--xref`: whether it is told what lines do with each name.
    pub has_xref: bool,
    /// `--holes`: whether lines of the interpretive language are holes.
    pub has_holes: bool,
    /// `--fill`: the file of the image of which the holes take their words.
    pub filling: Option<&'a str>,
    /// `--assume`: what is assumed of forms that are not certain.
    pub assumed: Option<&'a str>,
}

/// `agcws run [--end] [--progress] [--until-idle | --notes [--json]] .. SRC FEED N`, or `agcws run --flight --holes
/// [--end] SRC FEED N`.
#[derive(Clone, Copy)]
pub struct RunArguments<'a> {
    /// What is run.
    pub program: ProgramArguments<'a>,
    /// How many steps.
    pub steps: u64,
    /// `--until-idle`: whether fewer steps are made where the program idles before.
    pub until_idle: bool,
    /// `--holes`: whether lines of the interpretive language are holes, before which it stops.
    pub has_holes: bool,
    /// `--end`: whether it is told how the run has ended.
    pub tells_end: bool,
    /// `--progress`: whether it is told how many steps are made.
    pub tells_progress: bool,
    /// `--notes`: whether it is told what is seldom meant.
    pub tells_notes: bool,
    /// `--json`: whether that is told as JSON.
    pub is_json: bool,
}

/// `agcws trace [--progress] [--reads | --say] .. SRC FEED N [--from T] [--to T]`.
#[derive(Clone, Copy)]
pub struct TraceArguments<'a> {
    /// What is run.
    pub program: ProgramArguments<'a>,
    /// How many steps.
    pub steps: u64,
    /// `--from`: the first step that is shown.
    pub first: Option<u64>,
    /// `--to`: the last step that is shown.
    pub last: Option<u64>,
    /// `--reads`: whether it is shown what each step has read.
    pub shows_reads: bool,
    /// `--say`: whether it is said in a sentence what each step did.
    pub says: bool,
    /// `--progress`.
    pub tells_progress: bool,
}

/// `agcws cover [--progress] [--json] .. SRC FEED N`.
#[derive(Clone, Copy)]
pub struct CoverArguments<'a> {
    /// What is run.
    pub program: ProgramArguments<'a>,
    /// How many steps.
    pub steps: u64,
    /// `--progress`.
    pub tells_progress: bool,
    /// `--json`: whether the profile is JSON.
    pub is_json: bool,
}

/// `agcws reach [--roots] .. SRC [--feed FEED --steps N]`.
#[derive(Clone, Copy)]
pub struct ReachArguments<'a> {
    /// The file of the program, and how it is to be taken where it is an image.
    pub file: ImageArguments<'a>,
    /// `--image`: whether it is an image in place of a source.
    pub is_image: bool,
    /// `--flight`: whether it is a source in the language of flight programs.
    pub is_flight: bool,
    /// `--symbols`: the file of a table of names.
    pub symbols: Option<&'a str>,
    /// `--feed` and `--steps`: the run that is made beside it.
    pub run: Option<ReachRun<'a>>,
    /// `--roots`: whether the root of each word is shown.
    pub shows_roots: bool,
}

/// A run that is made beside what is reached.
#[derive(Clone, Copy)]
pub struct ReachRun<'a> {
    /// The file of the feed.
    pub feed: &'a str,
    /// How many steps.
    pub steps: u64,
}

/// `agcws bound .. SRC ROUTINE [--loops TEXT] [--kept TEXT]`.
#[derive(Clone, Copy)]
pub struct BoundArguments<'a> {
    /// The program.
    pub listed: ReachArguments<'a>,
    /// The routine.
    pub routine: &'a str,
    /// `--loops`: pairs of a place and of how often a way comes to it at most.
    pub loops: Option<&'a str>,
    /// `--kept`: the cells that keep Q.
    pub kept: Option<&'a str>,
}

/// `agcws access [--progress] .. SRC FEED N [PLACE]`.
#[derive(Clone, Copy)]
pub struct AccessArguments<'a> {
    /// What is run.
    pub program: ProgramArguments<'a>,
    /// How many steps.
    pub steps: u64,
    /// The cell whose reads and writes are told by their places; all cells are told where none is given.
    pub place: Option<&'a str>,
    /// `--progress`.
    pub tells_progress: bool,
}

/// `agcws delays [--progress] .. SRC FEED N`.
#[derive(Clone, Copy)]
pub struct DelaysArguments<'a> {
    /// What is run.
    pub program: ProgramArguments<'a>,
    /// How many steps.
    pub steps: u64,
    /// `--progress`.
    pub tells_progress: bool,
}

/// `agcws whatif .. SRC FEED N TRIALS`.
#[derive(Clone, Copy)]
pub struct WhatIfArguments<'a> {
    /// What is run.
    pub program: ProgramArguments<'a>,
    /// How many steps.
    pub steps: u64,
    /// The inputs that are tried, a file.
    pub trials: &'a str,
    /// `--notes`: what they change in the notes is told.
    pub tells_notes: bool,
}

/// `agcws differ [--why K] .. SRC FEED N --with SRC2 FEED2`.
#[derive(Clone, Copy)]
pub struct DifferArguments<'a> {
    /// What is run.
    pub program: ProgramArguments<'a>,
    /// What is run beside it, and taken as the first is.
    pub other: ProgramArguments<'a>,
    /// How many steps of each.
    pub steps: u64,
    /// `--why`: in how many steps it is told how what differs came about, where it is.
    pub why: Option<u64>,
}

/// `agcws debug [--extended] .. SRC FEED`.
#[derive(Clone, Copy)]
pub struct DebugArguments<'a> {
    /// What is run.
    pub program: ProgramArguments<'a>,
    /// `--extended`: whether the session has more commands, and refusals in words.
    pub is_extended: bool,
}

/// `agcws check [--flight [--assume WORDINGS]] [--unused] [--json] SRC [FEED ..]`.
#[derive(Drop)]
pub struct CheckArguments<'a> {
    /// The file of the source.
    pub source: &'a str,
    /// The files of the feeds.
    pub feeds: Vec<&'a str>,
    /// `--flight`.
    pub is_flight: bool,
    /// `--unused`: whether labels that no operand names are told.
    pub tells_unused: bool,
    /// `--json`: whether it is told as JSON.
    pub is_json: bool,
    /// `--assume`: what is assumed of forms that are not certain.
    pub assumed: Option<&'a str>,
}

/// How `agcws expect FILE ..` tells its verdicts.
#[derive(Clone, Copy)]
pub struct VerdictArguments {
    /// Whether the verdicts are told as TAP.
    pub is_tap: bool,
    /// Whether they are told as JUnit does.
    pub is_junit: bool,
}

/// `agcws upgrade OLD NEW`.
#[derive(Clone, Copy)]
pub struct UpgradeArguments<'a> {
    /// The file of the image of version 1.
    pub old: &'a str,
    /// The file of the image of version 2.
    pub new: &'a str,
}

/// `agcws words [--source | --octal | --symbols FILE [--xref | --flight --holes]] [--where] .. ROPE [BANK]`.
#[derive(Clone, Copy)]
pub struct WordsArguments<'a> {
    /// The image.
    pub image: ImageArguments<'a>,
    /// The number of the bank that is shown; all are where none is given.
    pub bank: Option<u16>,
    /// `--source`: whether a source is written that gives the words.
    pub is_source: bool,
    /// `--octal`: whether a text of octal words is written.
    pub is_octal: bool,
    /// `--symbols`: the file of a table of names.
    pub symbols: Option<&'a str>,
    /// `--xref`: whether it is told what words do with each name.
    pub has_xref: bool,
    /// `--holes`: whether the file of names is a flight source, whose lines of the interpretive language are holes.
    pub has_holes: bool,
    /// `--where`: whether it is told where the image is refused.
    pub tells_where: bool,
}

/// `agcws damages [--source] .. ROPE`.
#[derive(Clone, Copy)]
pub struct DamagesArguments<'a> {
    /// The image.
    pub image: ImageArguments<'a>,
    /// `--source`: whether a source is written with the words that the sums want.
    pub is_source: bool,
}

/// `agcws compare [--only [--flight [--holes] [--banks] [--assume WORDINGS]]] .. OLD NEW`.
#[derive(Clone, Copy)]
pub struct CompareArguments<'a> {
    /// The first image, or a source.
    pub old: ImageArguments<'a>,
    /// The second image.
    pub new: ImageArguments<'a>,
    /// `--only`: whether the first is a source, whose places alone are compared.
    pub is_source: bool,
    /// `--flight`.
    pub is_flight: bool,
    /// `--holes`: whether lines of the interpretive language are holes.
    pub has_holes: bool,
    /// `--banks`: whether an account of each bank is told.
    pub has_banks: bool,
    /// `--assume`: what is assumed of forms that are not certain.
    pub assumed: Option<&'a str>,
}

/// `agcws align [--symbols FILE] .. OLD NEW`.
#[derive(Clone, Copy)]
pub struct AlignArguments<'a> {
    /// The first image.
    pub old: ImageArguments<'a>,
    /// The second image.
    pub new: ImageArguments<'a>,
    /// `--symbols`: the file of a table of names of the first.
    pub symbols: Option<&'a str>,
}

/// `agcws find [--flight] .. PASSAGE ROPE`.
#[derive(Clone, Copy)]
pub struct FindArguments<'a> {
    /// The source of the passage.
    pub passage: &'a str,
    /// `--flight`.
    pub is_flight: bool,
    /// The image.
    pub image: ImageArguments<'a>,
}

/// `agcws sums [--forms] .. ROPE`.
#[derive(Clone, Copy)]
pub struct SumsArguments<'a> {
    /// The image.
    pub image: ImageArguments<'a>,
    /// `--forms`: whether the sums are told in both orders of the bits.
    pub has_both_forms: bool,
}
