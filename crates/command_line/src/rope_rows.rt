//! The subcommands of rope images, and their arguments.

use crate::names::{
    ALIGN, AS_OCTAL, AS_SOURCE, BANK, BANKS, BOTH_FORMS, COMPARE, DAMAGES, FIND, FLIGHT, FORM,
    IGNORED_PARITY, NEW, NEW_FORM, NEW_VERSION, OLD, OLD_FORM, OLD_VERSION, ONLY, PARITY, PASSAGE,
    SUMS, SYMBOLS, UPGRADE, WHERE, WITH_BANKS, WITH_HOLES, WITH_XREF, WORDS,
};
use crate::rope_help::{
    ALIGN_HELP, COMPARE_HELP, DAMAGES_HELP, FIND_HELP, PARITY_HELP, SUMS_HELP, UPGRADE_HELP,
    WORDS_HELP,
};
use crate::row::{Row, Subcommand, Value};
use crate::rows::{
    ASSUME_OPTION, FLAG, FLIGHT_OPTION, FORM_OPTION, IMAGE_ARGUMENT, NEEDED, PARITY_OPTION, PLAIN,
    SYMBOLS_OPTION, VERSION_OPTION,
};

/// `agcws upgrade`.
pub fn upgrade() -> Subcommand {
    Subcommand {
        name: UPGRADE,
        about: "Writes a rope image of version 1 anew in version 2, with parity",
        help: UPGRADE_HELP,
        rows: &UPGRADE_ROWS,
    }
}

static UPGRADE_ROWS: [Row; 2] = [
    Row {
        name: OLD,
        help: "The image of version 1, a file",
        ..NEEDED
    },
    Row {
        name: NEW,
        help: "The image of version 2, a file that is made or written over",
        ..NEEDED
    },
];

/// `agcws words`.
pub fn words() -> Subcommand {
    Subcommand {
        name: WORDS,
        about: "Shows the words of a rope image as instructions",
        help: WORDS_HELP,
        rows: &WORDS_ROWS,
    }
}

static WORDS_ROWS: [Row; 12] = [
    IMAGE_ARGUMENT,
    Row {
        name: BANK,
        value: Value::OneOfMany(BANKS),
        help: "The bank, 0 to 43 (octal); all where none is given",
        ..PLAIN
    },
    Row {
        name: AS_SOURCE,
        long: Some("source"),
        help: "Writes a source that gives the words",
        ..FLAG
    },
    Row {
        name: AS_OCTAL,
        long: Some("octal"),
        conflicts: &[AS_SOURCE],
        help: "Writes the words alone, eight a line",
        ..FLAG
    },
    Row {
        conflicts: &[AS_OCTAL],
        ..SYMBOLS_OPTION
    },
    Row {
        name: WITH_XREF,
        long: Some("xref"),
        needs: &[SYMBOLS],
        conflicts: &[AS_SOURCE, AS_OCTAL],
        help: "Tells which words use each name",
        ..FLAG
    },
    Row {
        help: "FILE is a flight source, with --holes",
        needs: &[WITH_HOLES],
        ..FLIGHT_OPTION
    },
    Row {
        name: WITH_HOLES,
        long: Some("holes"),
        needs: &[SYMBOLS, FLIGHT],
        conflicts: &[AS_SOURCE, WITH_XREF],
        help: "Shows words of its interpretive lines as HOLE",
        ..FLAG
    },
    Row {
        name: WHERE,
        long: Some("where"),
        help: "Tells where the image is refused",
        ..FLAG
    },
    VERSION_OPTION,
    PARITY_OPTION,
    FORM_OPTION,
];

// The first of two images.
const OLD_IMAGE: Row = Row {
    name: OLD,
    help: "The first rope image, a file",
    ..NEEDED
};

// The second.
const NEW_IMAGE: Row = Row {
    name: NEW,
    help: "The second rope image, a file",
    ..NEEDED
};

// The version of the first.
const OLD_VERSION_OPTION: Row = Row {
    name: OLD_VERSION,
    long: Some("old"),
    ..VERSION_OPTION
};

// The version of the second.
const NEW_VERSION_OPTION: Row = Row {
    name: NEW_VERSION,
    long: Some("new"),
    ..VERSION_OPTION
};

// The form of the first.
const OLD_FORM_OPTION: Row = Row {
    name: OLD_FORM,
    long: Some("old-form"),
    ..FORM_OPTION
};

// The form of the second.
const NEW_FORM_OPTION: Row = Row {
    name: NEW_FORM,
    long: Some("new-form"),
    ..FORM_OPTION
};

/// `agcws compare`.
pub fn compare() -> Subcommand {
    Subcommand {
        name: COMPARE,
        about: "Shows where the words of two rope images differ",
        help: COMPARE_HELP,
        rows: &COMPARE_ROWS,
    }
}

static COMPARE_ROWS: [Row; 12] = [
    OLD_IMAGE,
    NEW_IMAGE,
    Row {
        name: ONLY,
        long: Some("only"),
        conflicts: &[OLD_VERSION, OLD_FORM],
        help: "OLD is a source: its places alone",
        ..FLAG
    },
    Row {
        needs: &[ONLY],
        ..FLIGHT_OPTION
    },
    Row {
        name: WITH_HOLES,
        long: Some("holes"),
        needs: &[FLIGHT],
        help: "Interpretive lines are holes; tells --banks",
        ..FLAG
    },
    Row {
        name: WITH_BANKS,
        long: Some("banks"),
        needs: &[FLIGHT],
        help: "Tells an account of each bank",
        ..FLAG
    },
    ASSUME_OPTION,
    OLD_VERSION_OPTION,
    NEW_VERSION_OPTION,
    PARITY_OPTION,
    OLD_FORM_OPTION,
    NEW_FORM_OPTION,
];

/// `agcws align`.
pub fn align() -> Subcommand {
    Subcommand {
        name: ALIGN,
        about: "Shows which passages of two rope images have moved, or are new",
        help: ALIGN_HELP,
        rows: &ALIGN_ROWS,
    }
}

static ALIGN_ROWS: [Row; 8] = [
    OLD_IMAGE,
    NEW_IMAGE,
    Row {
        help: "Carries the names of OLD to NEW, a file",
        ..SYMBOLS_OPTION
    },
    OLD_VERSION_OPTION,
    NEW_VERSION_OPTION,
    PARITY_OPTION,
    OLD_FORM_OPTION,
    NEW_FORM_OPTION,
];

/// `agcws find`.
pub fn find() -> Subcommand {
    Subcommand {
        name: FIND,
        about: "Shows where the passages of a source stand in a rope image",
        help: FIND_HELP,
        rows: &FIND_ROWS,
    }
}

static FIND_ROWS: [Row; 6] = [
    Row {
        name: PASSAGE,
        help: "The source, a file",
        ..NEEDED
    },
    IMAGE_ARGUMENT,
    FLIGHT_OPTION,
    VERSION_OPTION,
    PARITY_OPTION,
    FORM_OPTION,
];

/// `agcws sums`.
pub fn sums() -> Subcommand {
    Subcommand {
        name: SUMS,
        about: "Sums the words of each bank of a rope image",
        help: SUMS_HELP,
        rows: &SUMS_ROWS,
    }
}

static SUMS_ROWS: [Row; 5] = [
    IMAGE_ARGUMENT,
    Row {
        name: BOTH_FORMS,
        long: Some("forms"),
        conflicts: &[IGNORED_PARITY, FORM],
        help: "Tells the sums in both orders of the bits",
        ..FLAG
    },
    VERSION_OPTION,
    PARITY_OPTION,
    FORM_OPTION,
];

/// `agcws parity`.
pub fn parity() -> Subcommand {
    Subcommand {
        name: PARITY,
        about: "Shows the words of a rope image whose parity is wrong",
        help: PARITY_HELP,
        rows: &PARITY_ROWS,
    }
}

static PARITY_ROWS: [Row; 2] = [IMAGE_ARGUMENT, FORM_OPTION];

/// `agcws damages`.
pub fn damages() -> Subcommand {
    Subcommand {
        name: DAMAGES,
        about: "Tells what is damaged in a rope image, and what its sums want",
        help: DAMAGES_HELP,
        rows: &DAMAGES_ROWS,
    }
}

static DAMAGES_ROWS: [Row; 3] = [
    IMAGE_ARGUMENT,
    Row {
        name: AS_SOURCE,
        long: Some("source"),
        help: "Writes a source with the words that the sums want",
        ..FLAG
    },
    FORM_OPTION,
];
