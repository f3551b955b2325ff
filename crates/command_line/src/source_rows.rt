//! The subcommands of sources and tests, and their arguments.

use crate::names::{
    ASM, CHECK, EXPECT, EXPLAIN, FEED, FEEDS, FILES, FILLING, FLIGHT, JSON, JUNIT, NUMBER, ROPE,
    TAP, UNUSED, WITH_HOLES, WITH_SUMS, WITH_XREF,
};
use crate::row::{Row, Subcommand, Value};
use crate::rows::{
    ASSUME_OPTION, FLAG, FLIGHT_OPTION, NEEDED, PLAIN, SOURCE_ARGUMENT, VERSION_OPTION,
};
use crate::source_help::{ASM_HELP, CHECK_HELP, EXPECT_HELP, EXPLAIN_HELP};

/// `agcws asm`.
pub fn asm() -> Subcommand {
    Subcommand {
        name: ASM,
        about: "Assembles a source to a rope image and a listing",
        help: ASM_HELP,
        rows: &ASM_ROWS,
    }
}

static ASM_ROWS: [Row; 9] = [
    FLIGHT_OPTION,
    SOURCE_ARGUMENT,
    Row {
        name: ROPE,
        help: "The rope image, a file that is made or written over",
        ..NEEDED
    },
    Row {
        name: WITH_SUMS,
        long: Some("sums"),
        help: "Adds the words that make the banks' sums",
        ..FLAG
    },
    Row {
        name: WITH_XREF,
        long: Some("xref"),
        help: "Tells which lines define and use each symbol",
        ..FLAG
    },
    Row {
        name: WITH_HOLES,
        long: Some("holes"),
        needs: &[FLIGHT],
        help: "Lines of the interpretive language are holes",
        ..FLAG
    },
    Row {
        name: FILLING,
        long: Some("fill"),
        value_names: &["FILE"],
        needs: &[WITH_HOLES],
        help: "The rope image of which holes have their words",
        ..PLAIN
    },
    ASSUME_OPTION,
    VERSION_OPTION,
];

/// `agcws check`.
pub fn check() -> Subcommand {
    Subcommand {
        name: CHECK,
        about: "Tells all faults of a source and of feeds, and likely mistakes",
        help: CHECK_HELP,
        rows: &CHECK_ROWS,
    }
}

static CHECK_ROWS: [Row; 6] = [
    FLIGHT_OPTION,
    Row {
        name: UNUSED,
        long: Some("unused"),
        help: "Warn of labels that no operand names too",
        ..FLAG
    },
    Row {
        name: JSON,
        long: Some("json"),
        help: "Tells it as JSON, an object a line",
        ..FLAG
    },
    Row {
        conflicts: &[JSON],
        ..ASSUME_OPTION
    },
    SOURCE_ARGUMENT,
    Row {
        name: FEEDS,
        value: Value::Texts,
        value_names: &[FEED],
        help: "The feeds, files",
        ..PLAIN
    },
];

/// `agcws expect`.
pub fn expect() -> Subcommand {
    Subcommand {
        name: EXPECT,
        about: "Judges runs by texts that state what they must do",
        help: EXPECT_HELP,
        rows: &EXPECT_ROWS,
    }
}

static EXPECT_ROWS: [Row; 3] = [
    Row {
        name: FILES,
        value: Value::SomeTexts,
        value_names: &["FILE"],
        help: "The texts of tests, files",
        ..NEEDED
    },
    Row {
        name: TAP,
        long: Some("tap"),
        help: "Tells the verdicts as TAP, version 14",
        ..FLAG
    },
    Row {
        name: JUNIT,
        long: Some("junit"),
        conflicts: &[TAP],
        help: "Tells them as JUnit does, in XML",
        ..FLAG
    },
];

/// `agcws explain`.
pub fn explain() -> Subcommand {
    Subcommand {
        name: EXPLAIN,
        about: "Tells what a refusal, a warning or a note means",
        help: EXPLAIN_HELP,
        rows: &EXPLAIN_ROWS,
    }
}

static EXPLAIN_ROWS: [Row; 1] = [Row {
    name: NUMBER,
    help: "The number, as E17, 17 or W4, or the kind, as SKIP; else all",
    ..PLAIN
}];
