//! The rows of the table of arguments.

/// The most steps that may be asked for.
pub const MOST_STEPS: u64 = 1_099_511_627_774;

/// The most steps of a chain that may be asked for.
pub const MOST_LINKS: u64 = 999;

/// A subcommand.
#[derive(Clone, Copy)]
pub struct Subcommand {
    /// Its name.
    pub name: &'static str,
    /// What it does, in a line.
    pub about: &'static str,
    /// What its help tells after the arguments.
    pub help: &'static str,
    /// Its arguments, in the order of the help.
    pub rows: &'static [Row],
}

/// An argument of a subcommand.
#[derive(Clone, Copy)]
pub struct Row {
    /// The name by which its value is found.
    pub name: &'static str,
    /// The option that it is, without `--`; none where it is told by its place.
    pub long: Option<&'static str>,
    /// What its value has to be.
    pub value: Value,
    /// What help calls the value; its name where there is none.
    pub value_names: &'static [&'static str],
    /// The value where the argument is not given.
    pub default_value: Option<&'static str>,
    /// Whether it has to be given.
    pub is_required: bool,
    /// The arguments without which it may not be given.
    pub needs: &'static [&'static str],
    /// The arguments with which it may not be given.
    pub conflicts: &'static [&'static str],
    /// What help says of it.
    pub help: &'static str,
}

/// What the value of an argument has to be.
#[derive(Clone, Copy)]
pub enum Value {
    /// It has none: it is given or not.
    Nothing,
    /// Any text.
    Text,
    /// Any number of texts.
    Texts,
    /// Two texts.
    TwoTexts,
    /// One text or more.
    SomeTexts,
    /// One of these names.
    OneOf(&'static [&'static str]),
    /// One of these names, which help does not list.
    OneOfMany(&'static [&'static str]),
    /// A step, as an option has it.
    Step,
    /// How many steps, as an argument that is told by its place.
    Steps,
    /// How many steps of a chain, as an option has it.
    Links,
}
