//! Arguments that several subcommands have.

use crate::names::{
    ASSUMED, FEED, FLIGHT, FORM, FORMS, IGNORED_PARITY, IMAGE, PROGRESS, ROPE, SOURCE, STEPS,
    SYMBOLS, VERSION, VERSION_ONE, VERSION_TWO,
};
use crate::row::{Row, Value};

/// An argument that is told by its place, and may be left out.
pub const PLAIN: Row = Row {
    name: "",
    long: None,
    value: Value::Text,
    value_names: &[],
    default_value: None,
    is_required: false,
    needs: &[],
    conflicts: &[],
    help: "",
};

/// An argument that is told by its place, and has to be given.
pub const NEEDED: Row = Row {
    is_required: true,
    ..PLAIN
};

/// An option without a value.
pub const FLAG: Row = Row {
    value: Value::Nothing,
    ..PLAIN
};

/// The option that asks for help, which each subcommand has, and stands in none of the tables.
pub static HELP_OPTION: Row = Row {
    name: "help",
    long: Some("help"),
    help: "Print help",
    ..FLAG
};

/// A source.
pub const SOURCE_ARGUMENT: Row = Row {
    name: SOURCE,
    help: "The source, a file",
    ..NEEDED
};

/// A feed.
pub const FEED_ARGUMENT: Row = Row {
    name: FEED,
    help: "The feed, a file; /dev/null where there are no inputs",
    ..NEEDED
};

/// An image.
pub const IMAGE_ARGUMENT: Row = Row {
    name: ROPE,
    help: "The rope image, a file",
    ..NEEDED
};

/// How many steps are made.
pub const STEP_COUNT: Row = Row {
    name: STEPS,
    value: Value::Steps,
    help: "How many steps, 0 to 1099511627774",
    ..NEEDED
};

/// An option that is a step.
pub const STEP_OPTION: Row = Row {
    value: Value::Step,
    value_names: &["T"],
    ..PLAIN
};

/// The language of flight programs.
pub const FLIGHT_OPTION: Row = Row {
    name: FLIGHT,
    long: Some("flight"),
    help: "The source has forms of flight programs",
    ..FLAG
};

/// What is assumed of forms of flight programs that are not certain.
pub const ASSUME_OPTION: Row = Row {
    name: ASSUMED,
    long: Some("assume"),
    value_names: &["F=W"],
    needs: &[FLIGHT],
    help: "Takes form F as W, as MM=DEC; or @FILE with such",
    ..PLAIN
};

/// The version of an image.
pub const VERSION_OPTION: Row = Row {
    name: VERSION,
    long: Some("rope"),
    value: Value::OneOf(&[VERSION_ONE, VERSION_TWO]),
    value_names: &[VERSION],
    default_value: Some(VERSION_TWO),
    help: "The image's version",
    ..PLAIN
};

/// That the low bits of an image are passed over.
pub const PARITY_OPTION: Row = Row {
    name: IGNORED_PARITY,
    long: Some("parity"),
    value: Value::OneOf(&["ignore"]),
    value_names: &["HOW"],
    help: "How the lowest bits are taken",
    ..PLAIN
};

/// The form of an image.
pub const FORM_OPTION: Row = Row {
    name: FORM,
    long: Some("form"),
    value: Value::OneOfMany(FORMS),
    value_names: &["F"],
    help: "The form: hardware, swapped, complemented, numbered",
    ..PLAIN
};

/// A table of names for an image.
pub const SYMBOLS_OPTION: Row = Row {
    name: SYMBOLS,
    long: Some("symbols"),
    value_names: &["FILE"],
    help: "Names for the image's places, a file",
    ..PLAIN
};

/// That the first file is an image in place of a source.
pub const IMAGE_OPTION: Row = Row {
    name: IMAGE,
    long: Some("image"),
    help: "The first file is a rope image",
    ..FLAG
};

/// The language of flight programs, of a program that is no image.
pub const FLIGHT_OF_PROGRAM: Row = Row {
    conflicts: &[IMAGE],
    ..FLIGHT_OPTION
};

/// The version of a program that is an image.
pub const VERSION_OF_PROGRAM: Row = Row {
    needs: &[IMAGE],
    ..VERSION_OPTION
};

/// The low bits of a program that is an image.
pub const PARITY_OF_PROGRAM: Row = Row {
    needs: &[IMAGE],
    ..PARITY_OPTION
};

/// The form of a program that is an image.
pub const FORM_OF_PROGRAM: Row = Row {
    needs: &[IMAGE],
    value: Value::OneOf(&["hardware"]),
    help: "The order of the bits",
    ..FORM_OPTION
};

/// A table of names for a program that is an image.
pub const SYMBOLS_OF_PROGRAM: Row = Row {
    needs: &[IMAGE],
    ..SYMBOLS_OPTION
};

/// The option that tells how many steps are made, while they are made.
pub const PROGRESS_OPTION: Row = Row {
    name: PROGRESS,
    long: Some("progress"),
    help: "Tells the steps made so far, on standard error",
    ..FLAG
};
