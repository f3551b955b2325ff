//! What each command of an extended session takes, and what it does.

ghost use Rattle.std.specs.Prelude.{◌≡◌, ◌+◌, ◌≤◌, ◌++◌, length, IfSome, true};
ghost use Rattle.std.specs.List.{flat_map, list_all};
ghost use Rattle.std.specs.Option.{option_map};
ghost use Rattle.arrayvec.specs.ArrayVec.{array_vec_len};
ghost use Rattle.agc_text.specs.Tables.{value_in};
ghost use Rattle.commands.specs.Extended.{help_in};
ghost use Rattle.commands.specs.Usages.{usage, usages, usages_of, IsShort, is_short_row, help_row, help_lines};

use crate::phrase::Phrase;
use arrayvec::ArrayVec;
use words::push_all;

/// A row of the help: the name of a command, what it takes, and what it does.
type Row = (&'static str, &'static str, &'static str);

/// The rows of the help.
const ROWS: [Row; 38] = [
    (
        "step",
        "a number of steps",
        "so many steps on from the position",
    ),
    (
        "run",
        "a number of steps",
        "so many new steps, up to a breakpoint",
    ),
    (
        "on",
        "a number of steps, or nothing",
        "on, up to a breakpoint",
    ),
    (
        "until",
        "a number of cycles",
        "to the first step with so many cycles",
    ),
    (
        "over",
        "a number of steps, or nothing",
        "past the TC at Z, or one step on",
    ),
    (
        "out",
        "a number of steps, or nothing",
        "out of the routine or interrupt",
    ),
    ("back", "a number of steps", "so many steps back"),
    ("goto", "a step", "to the step"),
    ("seek", "nothing", "back to a breakpoint"),
    (
        "break",
        "at|exec|change PLACE, word PLACE W, chan C W [M]",
        "a breakpoint",
    ),
    ("breaks", "nothing", "the breakpoints"),
    (
        "clear",
        "a breakpoint's number, or nothing",
        "takes it away, or all",
    ),
    (
        "regs",
        "all, or nothing",
        "all registers, or most and the next instruction",
    ),
    (
        "mem",
        "a place, or a place and a count",
        "the word there, or so many",
    ),
    ("chan", "a channel", "the word there"),
    ("chans", "nothing", "the channels whose words are not zero"),
    (
        "last",
        "an erasable place",
        "the step that changed the word there last",
    ),
    (
        "why",
        "[step|PLACE [k|control|inputs|interrupts|since]]",
        "what made it so",
    ),
    (
        "never",
        "a place",
        "the last choice that led away from there",
    ),
    (
        "trace",
        "a number of steps",
        "the last so many steps, a line each",
    ),
    (
        "say",
        "a number of steps",
        "the last so many steps, each in a sentence",
    ),
    (
        "where",
        "nothing",
        "the next instruction's place, and the interrupt",
    ),
    (
        "calls",
        "nothing",
        "the calls that are in progress, innermost first",
    ),
    (
        "list",
        "a place, or a place and a count",
        "rows of the listing from there",
    ),
    (
        "value",
        "a place, or a place and a count",
        "octal, decimal, fraction, bits",
    ),
    ("sym", "a name", "the symbol's value"),
    (
        "find",
        "the beginning of a name",
        "the symbols whose names begin so",
    ),
    (
        "changed",
        "a step",
        "the erasable places that differ since then",
    ),
    (
        "differs",
        "a step",
        "the words that differ from those at the step",
    ),
    (
        "survey",
        "FROM TO, 1 to 4096 buckets, at most 8 places",
        "a run by buckets",
    ),
    (
        "whatif",
        "RESTART|[notes] INPUT, [k [from A to B]]",
        "what it would change",
    ),
    (
        "tail",
        "nothing, or [a count] steps",
        "the last channel lines [and steps]",
    ),
    (
        "quiet",
        "on, or off",
        "counts the outputs of new steps, or tells them",
    ),
    ("add", "a line of a feed", "one input more"),
    (
        "inputs",
        "nothing",
        "the inputs that were added, as lines of a feed",
    ),
    ("echo", "any text", "the text"),
    (
        "help",
        "a command, or nothing",
        "what it takes and does, or what each does",
    ),
    ("quit", "nothing", "the end"),
];

/// What a command takes, and what it does.
#[derive(Clone, Copy)]
pub(crate) struct Usage {
    pub(crate) takes: &'static str,
    pub(crate) does: &'static str,
}

/// The usage of the command of a name, if there is one.
#[tactic(auto, unfolding(crate::specs::Usages::usages))]
pub(crate) fn usage_of(name: &[u8]) -> Option<Usage>
    ensures value { option_map (λ u. usage u.takes.now u.does.now) result ≡ value_in usages name.now }
    ensures short { IfSome result (λ u. IsShort (usage u.takes.now u.does.now)) }
{
    find_usage(&ROWS, name)
}

fn find_usage(rows: &[Row], name: &[u8]) -> Option<Usage>
    requires { list_all is_short_row rows.now ≡ true }
    ensures short { IfSome result (λ u. IsShort (usage u.takes.now u.does.now)) }
    ensures value { option_map (λ u. usage u.takes.now u.does.now) result ≡ value_in (usages_of rows.now) name.now }
{
    for (text, takes, does) in rows {
        if name == text.as_bytes() {
            return Some(Usage { takes, does });
        }
    }
    None
}

/// The line of the command of a name in the help, if there is one.
pub(crate) fn help_of(name: &[u8]) -> Option<Phrase>
    requires { length name.now ≤ 80 }
    ensures { result ≡ help_in name.now }
{
    let usage = usage_of(name)?;
    let mut phrase = Phrase::new();
    phrase.push(b"HELP ");
    phrase.push(name);
    phrase.push(b" takes ");
    phrase.push(usage.takes.as_bytes());
    phrase.push(b": ");
    phrase.push(usage.does.as_bytes());
    phrase.push(b"\n");
    Some(phrase)
}

/// The most bytes of the whole help: 38 lines of at most 128.
const HELP_TEXT: usize = 4_864;

/// The lines of the whole help.
pub type HelpText = ArrayVec<u8, HELP_TEXT>;

/// The line of each command.
#[tactic(auto, unfolding(crate::specs::Usages::usages))]
pub fn help_text() -> HelpText
    ensures { result.items ≡ help_lines usages }
{
    help_lines(&ROWS)
}

fn help_lines(rows: &[Row]) -> HelpText
    requires { length (flat_map help_row rows.now) ≤ HELP_TEXT }
    ensures { result.items ≡ flat_map help_row rows.now }
{
    let mut text = ArrayVec::new();
    for row in rows {
        push_help_row(&mut text, row);
    }
    text
}

fn push_help_row(text: &mut HelpText, row: &Row)
    requires { array_vec_len text.old + length (help_row row.now) ≤ HELP_TEXT }
    ensures items { text.new.items ≡ text.old.items ++ help_row row.now }
{
    let (name, takes, does) = row;
    push_all(text, b"HELP ");
    push_all(text, name.as_bytes());
    push_all(text, b" takes ");
    push_all(text, takes.as_bytes());
    push_all(text, b": ");
    push_all(text, does.as_bytes());
    push_all(text, b"\n");
}
