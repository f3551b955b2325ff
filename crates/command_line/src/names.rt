//! The names of subcommands and of arguments.

/// The subcommand that assembles a program.
pub const ASM: &str = "asm";

/// The subcommand that runs a program.
pub const RUN: &str = "run";

/// The subcommand that traces a run.
pub const TRACE: &str = "trace";

/// The subcommand that profiles a run.
pub const COVER: &str = "cover";

/// The subcommand that shows what is reached.
pub const REACH: &str = "reach";

/// The feed of a run that is made beside it.
pub const RUN_FEED: &str = "feed-of-run";

/// How many steps that run makes.
pub const RUN_STEPS: &str = "steps-of-run";

/// The option of `agcws reach` by which it shows roots.
pub const ROOTS: &str = "roots";

/// The subcommand that tells the most cycles of a routine.
pub const BOUND: &str = "bound";

/// A routine.
pub const ROUTINE: &str = "ROUTINE";

/// How often a way comes to the heads of loops at most.
pub const LOOPS: &str = "loops";

/// Cells that keep Q.
pub const KEPT: &str = "kept";

/// The subcommand that counts the reads and writes of a run.
pub const ACCESS: &str = "access";

/// The subcommand that tells how long the interrupts of a run waited.
pub const DELAYS: &str = "delays";

/// The subcommand that tells where two runs part.
pub const DIFFER: &str = "differ";

/// The program and the feed of the other run.
pub const WITH: &str = "with";

pub const WHY: &str = "why";

/// The subcommand that tries inputs.
pub const WHATIF: &str = "whatif";

/// The subcommand that debugs a program.
pub const DEBUG: &str = "debug";

/// The subcommand that tells all faults of a source.
pub const CHECK: &str = "check";

/// The subcommand that judges runs by texts of tests.
pub const EXPECT: &str = "expect";

/// The subcommand that tells what a number of a refusal means.
pub const EXPLAIN: &str = "explain";

/// The subcommand that upgrades an image.
pub const UPGRADE: &str = "upgrade";

/// The subcommand that shows the words of an image.
pub const WORDS: &str = "words";

/// The subcommand that compares two images.
pub const COMPARE: &str = "compare";

/// The subcommand that aligns two images.
pub const ALIGN: &str = "align";

/// The subcommand that finds a passage of a source in an image.
pub const FIND: &str = "find";

/// The subcommand that sums the banks of an image.
pub const SUMS: &str = "sums";

/// The subcommand that tells which words of an image have a wrong parity.
pub const PARITY: &str = "parity";

/// The subcommand that tells what is damaged in an image.
pub const DAMAGES: &str = "damages";

/// The source.
pub const SOURCE: &str = "SRC";

/// The feed.
pub const FEED: &str = "FEED";

/// The texts of tests.
pub const FILES: &str = "FILES";

/// The feeds of a check.
pub const FEEDS: &str = "FEEDS";

/// The number of steps.
pub const STEPS: &str = "N";

/// The file of the rope image.
pub const ROPE: &str = "ROPE";

/// The first of two images.
pub const OLD: &str = "OLD";

/// The second of two images.
pub const NEW: &str = "NEW";

/// The source of a passage.
pub const PASSAGE: &str = "PASSAGE";

/// The bank that is shown.
pub const BANK: &str = "BANK";

/// The inputs that are tried.
pub const TRIALS: &str = "TRIALS";

/// The cell whose reads and writes are told.
pub const PLACE: &str = "PLACE";

/// The number of a refusal.
pub const NUMBER: &str = "NUMBER";

/// The version of an image.
pub const VERSION: &str = "VERSION";

/// The version of the first of two images.
pub const OLD_VERSION: &str = "OLD_VERSION";

/// The version of the second of two images.
pub const NEW_VERSION: &str = "NEW_VERSION";

/// Version 1 of the rope image, as it is named.
pub const VERSION_ONE: &str = "1";

/// Version 2 of the rope image, as it is named.
pub const VERSION_TWO: &str = "2";

/// How the low bits of an image are taken.
pub const IGNORED_PARITY: &str = "IGNORED_PARITY";

/// The form of an image.
pub const FORM: &str = "FORM";

/// The form of the first of two images.
pub const OLD_FORM: &str = "OLD_FORM";

/// The form of the second of two images.
pub const NEW_FORM: &str = "NEW_FORM";

/// That the first file is an image in place of a source.
pub const IMAGE: &str = "IMAGE";

/// That a source is in the language of flight programs.
pub const FLIGHT: &str = "FLIGHT";

/// A table of names for an image.
pub const SYMBOLS: &str = "SYMBOLS";

/// That an image gets check words.
pub const WITH_SUMS: &str = "WITH_SUMS";

/// That it is told what lines do with each name.
pub const WITH_XREF: &str = "WITH_XREF";

/// That lines of the interpretive language are holes.
pub const WITH_HOLES: &str = "WITH_HOLES";

/// What is assumed of forms that are not certain.
pub const ASSUMED: &str = "ASSUMED";

/// That an account of each bank is told.
pub const WITH_BANKS: &str = "WITH_BANKS";

/// The image of which holes take their words.
pub const FILLING: &str = "FILLING";

/// That a run ends where the program idles.
pub const UNTIL_IDLE: &str = "UNTIL_IDLE";

/// That it is told how a run has ended.
pub const END: &str = "END";

/// That it is told how many steps are made, while they are made.
pub const PROGRESS: &str = "PROGRESS";

/// That notes of a run are told.
pub const NOTES: &str = "NOTES";

/// The option that tells verdicts as TAP.
pub const TAP: &str = "TAP";

/// The option that tells verdicts as JUnit does.
pub const JUNIT: &str = "JUNIT";

/// The option that tells rows as JSON.
pub const JSON: &str = "JSON";

/// The first step of which a line is written.
pub const FROM: &str = "FROM";

/// The last step of which a line is written.
pub const TO: &str = "TO";

/// That it is shown what each step has read.
pub const READS: &str = "READS";

/// That it is said what each step did.
pub const SAY: &str = "SAY";

/// That a session has more commands, and refusals in words.
pub const EXTENDED: &str = "EXTENDED";

/// That labels which no operand names are told.
pub const UNUSED: &str = "UNUSED";

/// That the words of an image are shown as a source that gives them.
pub const AS_SOURCE: &str = "AS_SOURCE";

/// That the words of an image are shown as a text of octal words.
pub const AS_OCTAL: &str = "AS_OCTAL";

/// That it is told where an image is refused.
pub const WHERE: &str = "WHERE";

/// That a source is compared with an image, at the places that it fills.
pub const ONLY: &str = "ONLY";

/// That the sums of an image are told in both orders of the bits.
pub const BOTH_FORMS: &str = "BOTH_FORMS";

/// How an image may stand: the first names 1, and each that follows one more; 1 is hardware, 2 swapped, 4 complemented,
/// 8 numbered, and 16 to 56 a module of six banks alone.
pub const FORMS: &[&str] = &[
    "hardware",
    "swapped",
    "hardware,swapped",
    "complemented",
    "hardware,complemented",
    "swapped,complemented",
    "hardware,swapped,complemented",
    "numbered",
    "hardware,numbered",
    "swapped,numbered",
    "hardware,swapped,numbered",
    "complemented,numbered",
    "hardware,complemented,numbered",
    "swapped,complemented,numbered",
    "hardware,swapped,complemented,numbered",
    "module1",
    "hardware,module1",
    "swapped,module1",
    "hardware,swapped,module1",
    "complemented,module1",
    "hardware,complemented,module1",
    "swapped,complemented,module1",
    "hardware,swapped,complemented,module1",
    "module2",
    "hardware,module2",
    "swapped,module2",
    "hardware,swapped,module2",
    "complemented,module2",
    "hardware,complemented,module2",
    "swapped,complemented,module2",
    "hardware,swapped,complemented,module2",
    "module3",
    "hardware,module3",
    "swapped,module3",
    "hardware,swapped,module3",
    "complemented,module3",
    "hardware,complemented,module3",
    "swapped,complemented,module3",
    "hardware,swapped,complemented,module3",
    "module4",
    "hardware,module4",
    "swapped,module4",
    "hardware,swapped,module4",
    "complemented,module4",
    "hardware,complemented,module4",
    "swapped,complemented,module4",
    "hardware,swapped,complemented,module4",
    "module5",
    "hardware,module5",
    "swapped,module5",
    "hardware,swapped,module5",
    "complemented,module5",
    "hardware,complemented,module5",
    "swapped,complemented,module5",
    "hardware,swapped,complemented,module5",
    "module6",
    "hardware,module6",
    "swapped,module6",
    "hardware,swapped,module6",
    "complemented,module6",
    "hardware,complemented,module6",
    "swapped,complemented,module6",
    "hardware,swapped,complemented,module6",
];

/// How many banks there are.
pub const BANK_COUNT: usize = 36;

/// The names of the banks by their numbers, and after them the shorter names that the first eight have besides.
pub const BANKS: &[&str] = &[
    "00", "01", "02", "03", "04", "05", "06", "07", "10", "11", "12", "13", "14", "15", "16", "17",
    "20", "21", "22", "23", "24", "25", "26", "27", "30", "31", "32", "33", "34", "35", "36", "37",
    "40", "41", "42", "43", "0", "1", "2", "3", "4", "5", "6", "7",
];
