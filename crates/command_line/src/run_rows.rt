//! The subcommands of runs, and their arguments.

use crate::names::{
    ACCESS, BOUND, COVER, DEBUG, DELAYS, DIFFER, END, EXTENDED, FLIGHT, FROM, IMAGE, JSON, KEPT,
    LOOPS, NOTES, PLACE, PROGRESS, REACH, READS, ROOTS, ROUTINE, RUN, RUN_FEED, RUN_STEPS, SAY, TO,
    TRACE, TRIALS, UNTIL_IDLE, WHATIF, WHY, WITH, WITH_HOLES,
};
use crate::row::{Row, Subcommand, Value};
use crate::rows::{
    FEED_ARGUMENT, FLAG, FLIGHT_OF_PROGRAM, FORM_OF_PROGRAM, IMAGE_OPTION, NEEDED,
    PARITY_OF_PROGRAM, PLAIN, PROGRESS_OPTION, SOURCE_ARGUMENT, STEP_COUNT, STEP_OPTION,
    SYMBOLS_OF_PROGRAM, VERSION_OF_PROGRAM,
};
use crate::run_help::{
    ACCESS_HELP, BOUND_HELP, COVER_HELP, DEBUG_HELP, DELAYS_HELP, DIFFER_HELP, REACH_HELP,
    RUN_HELP, TRACE_HELP, WHATIF_HELP,
};

/// `agcws run`.
pub fn run() -> Subcommand {
    Subcommand {
        name: RUN,
        about: "Writes what a program puts out on channels in some steps",
        help: RUN_HELP,
        rows: &RUN_ROWS,
    }
}

static RUN_ROWS: [Row; 14] = [
    FLIGHT_OF_PROGRAM,
    IMAGE_OPTION,
    VERSION_OF_PROGRAM,
    PARITY_OF_PROGRAM,
    FORM_OF_PROGRAM,
    SOURCE_ARGUMENT,
    FEED_ARGUMENT,
    STEP_COUNT,
    Row {
        name: UNTIL_IDLE,
        long: Some("until-idle"),
        help: "Ends the run where the program idles, if it does before",
        ..FLAG
    },
    Row {
        name: WITH_HOLES,
        long: Some("holes"),
        needs: &[FLIGHT],
        conflicts: &[IMAGE, UNTIL_IDLE, NOTES, PROGRESS],
        help: "Interpretive lines are holes, and stop the run",
        ..FLAG
    },
    Row {
        name: END,
        long: Some("end"),
        help: "Tells how the run has ended, on standard error",
        ..FLAG
    },
    PROGRESS_OPTION,
    Row {
        name: NOTES,
        long: Some("notes"),
        conflicts: &[UNTIL_IDLE],
        help: "Tells what is seldom meant, on standard error",
        ..FLAG
    },
    Row {
        name: JSON,
        long: Some("json"),
        needs: &[NOTES],
        help: "Tells it as JSON, an object a line",
        ..FLAG
    },
];

/// `agcws trace`.
pub fn trace() -> Subcommand {
    Subcommand {
        name: TRACE,
        about: "Writes a line for each step of a run",
        help: TRACE_HELP,
        rows: &TRACE_ROWS,
    }
}

static TRACE_ROWS: [Row; 14] = [
    FLIGHT_OF_PROGRAM,
    IMAGE_OPTION,
    VERSION_OF_PROGRAM,
    PARITY_OF_PROGRAM,
    FORM_OF_PROGRAM,
    SOURCE_ARGUMENT,
    FEED_ARGUMENT,
    STEP_COUNT,
    Row {
        name: FROM,
        long: Some("from"),
        help: "The first step that is shown; 1 where none is given",
        ..STEP_OPTION
    },
    Row {
        name: TO,
        long: Some("to"),
        help: "The last step that is shown; N where none is given",
        ..STEP_OPTION
    },
    Row {
        name: READS,
        long: Some("reads"),
        help: "Shows what each step has read too",
        ..FLAG
    },
    Row {
        name: SAY,
        long: Some("say"),
        conflicts: &[READS],
        help: "Says what each step did, in a sentence",
        ..FLAG
    },
    PROGRESS_OPTION,
    SYMBOLS_OF_PROGRAM,
];

/// `agcws cover`.
pub fn cover() -> Subcommand {
    Subcommand {
        name: COVER,
        about: "Shows how often each word is executed, and for how many cycles",
        help: COVER_HELP,
        rows: &COVER_ROWS,
    }
}

static COVER_ROWS: [Row; 11] = [
    FLIGHT_OF_PROGRAM,
    IMAGE_OPTION,
    VERSION_OF_PROGRAM,
    PARITY_OF_PROGRAM,
    FORM_OF_PROGRAM,
    SOURCE_ARGUMENT,
    FEED_ARGUMENT,
    STEP_COUNT,
    PROGRESS_OPTION,
    SYMBOLS_OF_PROGRAM,
    Row {
        name: JSON,
        long: Some("json"),
        help: "Shows it as JSON, an object a line",
        ..FLAG
    },
];

/// `agcws reach`.
pub fn reach() -> Subcommand {
    Subcommand {
        name: REACH,
        about: "Shows to which words a way leads, and which are read",
        help: REACH_HELP,
        rows: &REACH_ROWS,
    }
}

static REACH_ROWS: [Row; 10] = [
    FLIGHT_OF_PROGRAM,
    IMAGE_OPTION,
    VERSION_OF_PROGRAM,
    PARITY_OF_PROGRAM,
    FORM_OF_PROGRAM,
    SOURCE_ARGUMENT,
    SYMBOLS_OF_PROGRAM,
    Row {
        name: RUN_FEED,
        long: Some("feed"),
        value_names: &["FEED"],
        needs: &[RUN_STEPS],
        help: "The feed of a run, whose places are roots too",
        ..PLAIN
    },
    Row {
        name: RUN_STEPS,
        long: Some("steps"),
        value: Value::Step,
        value_names: &["N"],
        needs: &[RUN_FEED],
        help: "How many steps it makes",
        ..PLAIN
    },
    Row {
        name: ROOTS,
        long: Some("roots"),
        help: "Shows the first root that leads to each word",
        ..FLAG
    },
];

/// `agcws bound`.
pub fn bound() -> Subcommand {
    Subcommand {
        name: BOUND,
        about: "Tells the most cycles that a routine takes",
        help: BOUND_HELP,
        rows: &BOUND_ROWS,
    }
}

static BOUND_ROWS: [Row; 10] = [
    FLIGHT_OF_PROGRAM,
    IMAGE_OPTION,
    VERSION_OF_PROGRAM,
    PARITY_OF_PROGRAM,
    FORM_OF_PROGRAM,
    SOURCE_ARGUMENT,
    Row {
        name: ROUTINE,
        help: "The first word of the routine, as SORT or 02,4104",
        ..NEEDED
    },
    SYMBOLS_OF_PROGRAM,
    Row {
        name: LOOPS,
        long: Some("loops"),
        value_names: &["TEXT"],
        help: "How often a way comes to places, as 'LOOP 11'",
        ..PLAIN
    },
    Row {
        name: KEPT,
        long: Some("kept"),
        value_names: &["CELLS"],
        help: "Cells that keep Q: TC of one is a return",
        ..PLAIN
    },
];

/// `agcws access`.
pub fn access() -> Subcommand {
    Subcommand {
        name: ACCESS,
        about: "Counts who reads and writes each cell, and tells which are shared",
        help: ACCESS_HELP,
        rows: &ACCESS_ROWS,
    }
}

static ACCESS_ROWS: [Row; 11] = [
    FLIGHT_OF_PROGRAM,
    IMAGE_OPTION,
    VERSION_OF_PROGRAM,
    PARITY_OF_PROGRAM,
    FORM_OF_PROGRAM,
    SOURCE_ARGUMENT,
    FEED_ARGUMENT,
    STEP_COUNT,
    Row {
        name: PLACE,
        help: "The cell whose places are told, as TMP, E3,1401, Q or CH011",
        ..PLAIN
    },
    PROGRESS_OPTION,
    SYMBOLS_OF_PROGRAM,
];

/// `agcws delays`.
pub fn delays() -> Subcommand {
    Subcommand {
        name: DELAYS,
        about: "Tells how long interrupts waited, and for how long none could come",
        help: DELAYS_HELP,
        rows: &DELAYS_ROWS,
    }
}

static DELAYS_ROWS: [Row; 10] = [
    FLIGHT_OF_PROGRAM,
    IMAGE_OPTION,
    VERSION_OF_PROGRAM,
    PARITY_OF_PROGRAM,
    FORM_OF_PROGRAM,
    SOURCE_ARGUMENT,
    FEED_ARGUMENT,
    STEP_COUNT,
    PROGRESS_OPTION,
    SYMBOLS_OF_PROGRAM,
];

/// `agcws whatif`.
pub fn whatif() -> Subcommand {
    Subcommand {
        name: WHATIF,
        about: "Tells what a run would put out with one input more, for each of some",
        help: WHATIF_HELP,
        rows: &WHATIF_ROWS,
    }
}

static WHATIF_ROWS: [Row; 11] = [
    FLIGHT_OF_PROGRAM,
    IMAGE_OPTION,
    VERSION_OF_PROGRAM,
    PARITY_OF_PROGRAM,
    FORM_OF_PROGRAM,
    SOURCE_ARGUMENT,
    FEED_ARGUMENT,
    STEP_COUNT,
    Row {
        name: NOTES,
        long: Some("notes"),
        help: "Tells which notes come and go in place of words",
        ..FLAG
    },
    Row {
        name: TRIALS,
        help: "The inputs that are tried, a file with the form of a feed",
        ..NEEDED
    },
    SYMBOLS_OF_PROGRAM,
];

/// `agcws differ`.
pub fn differ() -> Subcommand {
    Subcommand {
        name: DIFFER,
        about: "Tells where two runs part",
        help: DIFFER_HELP,
        rows: &DIFFER_ROWS,
    }
}

static DIFFER_ROWS: [Row; 11] = [
    Row {
        help: "The sources have forms of flight programs",
        ..FLIGHT_OF_PROGRAM
    },
    Row {
        help: "The programs are rope images",
        ..IMAGE_OPTION
    },
    Row {
        help: "Their version",
        ..VERSION_OF_PROGRAM
    },
    Row {
        help: "How lowest bits are taken",
        ..PARITY_OF_PROGRAM
    },
    FORM_OF_PROGRAM,
    SOURCE_ARGUMENT,
    FEED_ARGUMENT,
    STEP_COUNT,
    Row {
        name: WITH,
        long: Some("with"),
        value: Value::TwoTexts,
        value_names: &["SRC2", "FEED2"],
        help: "The other run: its source or image, and its feed",
        ..NEEDED
    },
    Row {
        name: WHY,
        long: Some("why"),
        value: Value::Links,
        value_names: &["K"],
        help: "Tells how each came about, in at most K steps",
        ..PLAIN
    },
    Row {
        help: "Names for the images' places, a file",
        ..SYMBOLS_OF_PROGRAM
    },
];

/// `agcws debug`.
pub fn debug() -> Subcommand {
    Subcommand {
        name: DEBUG,
        about: "Replies to commands about a run, forwards and backwards",
        help: DEBUG_HELP,
        rows: &DEBUG_ROWS,
    }
}

static DEBUG_ROWS: [Row; 9] = [
    Row {
        name: EXTENDED,
        long: Some("extended"),
        help: "More commands, and refusals in words: see its help",
        ..FLAG
    },
    SYMBOLS_OF_PROGRAM,
    FLIGHT_OF_PROGRAM,
    IMAGE_OPTION,
    VERSION_OF_PROGRAM,
    PARITY_OF_PROGRAM,
    FORM_OF_PROGRAM,
    SOURCE_ARGUMENT,
    FEED_ARGUMENT,
];
