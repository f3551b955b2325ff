//! The lines of replies, put together with no memory.

ghost use Rattle.std.specs.Prelude.{◌≡◌, ◌+◌, ◌≤◌, ◌++◌, ◌-◌, ◌<◌, ◌^◌, IfSome, length, decimal};
ghost use Rattle.arrayvec.specs.ArrayVec.{array_vec_len};
ghost use Rattle.words.specs.Numerals.{octal_text};
ghost use Rattle.debugger.specs.History.{sight};
ghost use Rattle.debugger.specs.Positions.{address_of};
ghost use Rattle.debugger.specs.Replies.{line as text_line, at_line, hit_text, ending_line, last_text, symbol_text};
ghost use Rattle.debugger.specs.Replies.{registers_line, next_line, flag_text, flags_text, changed_text};

use crate::ending::Ending;
use crate::manner::Manner;
use arrayvec::ArrayVec;
use cpu::{Machine, Processor, disassemble};
use space::Eras;
use symbols::{Value, value_text};
use trace::place_text;
use words::{Word, push_all, push_decimal, push_octal};

/// The most bytes of a short reply.
const TEXT: usize = 128;

/// A short reply.
pub(crate) type Text = ArrayVec<u8, TEXT>;

/// A line of text.
pub(crate) fn text_line(text: &[u8]) -> Text
    requires { length text.now ≤ 40 }
    ensures items { result.items ≡ text_line text.now }
    ensures short { array_vec_len result ≤ 41 }
{
    let mut line = ArrayVec::new();
    push_all(&mut line, text);
    push_all(&mut line, b"\n");
    line
}

/// A line of text and a number in decimal.
#[tactic(auto, using(words::proofs::Digits::short_decimal))]
pub(crate) fn number_line(text: &[u8], number: u64) -> Text
    requires { length text.now ≤ 10 }
    ensures items { result.items ≡ text_line (text.now ++ decimal number) }
    ensures short { array_vec_len result ≤ 31 }
{
    let mut line = ArrayVec::new();
    push_all(&mut line, text);
    push_decimal(&mut line, number);
    push_all(&mut line, b"\n");
    line
}

/// A line of text and a word in octal.
pub(crate) fn word_line(text: &[u8], word: Word) -> Text
    requires { length text.now ≤ 10 }
    ensures { result.items ≡ text_line (text.now ++ octal_text 5 word) }
{
    let mut line = ArrayVec::new();
    push_all(&mut line, text);
    push_octal(&mut line, 5, word.to_u16());
    push_all(&mut line, b"\n");
    line
}

/// Appends the line of a position, with the cycles there and where Z leads.
#[tactic(auto, using(words::proofs::Digits::short_decimal), unfolding(crate::specs::Replies::at_line))]
pub(crate) fn push_at_line(text: &mut Text, manner: Manner, position: u64, machine: &Machine)
    requires { array_vec_len text.old ≤ 41 }
    ensures { text.new.items ≡ text.old.items ++ at_line position machine.now.cycles (address_of manner machine.now) }
{
    push_all(text, b"AT ");
    push_decimal(text, position);
    push_all(text, b" ");
    push_decimal(text, machine.cycles());
    push_all(text, b" ");
    push_address(text, manner, machine);
    push_all(text, b"\n");
}

/// Appends where Z leads: Z, or the place as a listing has it.
fn push_address(text: &mut Text, manner: Manner, machine: &Machine)
    requires { array_vec_len text.old ≤ 100 }
    ensures items { text.new.items ≡ text.old.items ++ address_of manner machine.now }
    ensures short { array_vec_len text.new ≤ array_vec_len text.old + 7 }
{
    match manner {
        Manner::Plain => push_octal(text, 4, machine.word(Eras::Z).to_u16()),
        Manner::Extended => push_all(text, place_text(machine.next_place()).as_slice()),
    }
}

/// The line of a position.
pub(crate) fn at_line(manner: Manner, position: u64, machine: &Machine) -> Text
    ensures { result.items ≡ at_line position machine.now.cycles (address_of manner machine.now) }
{
    let mut at = ArrayVec::new();
    push_at_line(&mut at, manner, position, machine);
    at
}

/// The line of the breakpoint that holds, and the line of a position.
pub(crate) fn hit_and_at_line(
    manner: Manner,
    hit: Option<u64>,
    position: u64,
    machine: &Machine,
) -> Text
    ensures { result.items ≡ hit_text hit ++ at_line position machine.now.cycles (address_of manner machine.now) }
{
    match hit {
        None => at_line(manner, position, machine),
        Some(number) => {
            let mut text = number_line(b"HIT ", number);
            push_at_line(&mut text, manner, position, machine);
            text
        }
    }
}

/// How steps ended, and the line of a position.
pub(crate) fn ending_and_at_line(
    manner: Manner,
    ending: Ending,
    position: u64,
    machine: &Machine,
) -> Text
    ensures { result.items ≡ ending_line ending ++ at_line position machine.now.cycles (address_of manner machine.now) }
{
    match ending {
        Ending::Reached => at_line(manner, position, machine),
        Ending::Hit(number) => {
            let mut text = number_line(b"HIT ", number);
            push_at_line(&mut text, manner, position, machine);
            text
        }
        Ending::NoMemory => {
            let mut text = text_line(b"E2 MEMORY");
            push_at_line(&mut text, manner, position, machine);
            text
        }
        Ending::Limit => {
            let mut text = text_line(b"E40 LIMIT");
            push_at_line(&mut text, manner, position, machine);
            text
        }
    }
}

/// The line of the step at which a word came to be what it is: the one after the last step at which it was another.
pub(crate) fn last_line(last: Option<u64>) -> Text
    requires { IfSome last (λ t. t < 2 ^ 64 - 1) }
    ensures { result.items ≡ text_line (last_text last) }
{
    match last {
        None => text_line(b"NONE"),
        Some(t) => number_line(b"LAST ", t + 1),
    }
}

/// The line of a symbol's value.
pub(crate) fn symbol_line(value: Option<Value>) -> Text
    ensures { result.items ≡ text_line (symbol_text value) }
{
    match value {
        None => text_line(b"E17 UNDEFINED"),
        Some(value) => {
            let mut line = ArrayVec::new();
            push_all(&mut line, b"SYM ");
            push_all(&mut line, value_text(value).as_slice());
            push_all(&mut line, b"\n");
            line
        }
    }
}

/// A flag as a digit.
#[tactic(auto, unfolding(words::specs::Numerals::octal_text))]
fn flag(holds: bool) -> u16
    ensures { octal_text 1 result ≡ flag_text holds }
{
    if holds { 1 } else { 0 }
}

/// The line of the registers.
#[tactic(auto, unfolding(crate::specs::Replies::registers_line))]
fn registers_line(machine: &Machine, processor: &Processor) -> Text
    ensures items { result.items ≡ registers_line (sight processor.now.scenario.rope machine.now) }
    ensures short { array_vec_len result ≤ 80 }
{
    let (_, extra) = processor.next_word(machine);
    let banks = machine.store().banks();
    let mut line = ArrayVec::new();
    push_all(&mut line, b"A ");
    push_octal(&mut line, 6, machine.reg(Eras::A).to_u16());
    push_all(&mut line, b" L ");
    push_octal(&mut line, 5, machine.word(Eras::L).to_u16());
    push_all(&mut line, b" Q ");
    push_octal(&mut line, 6, machine.reg(Eras::Q).to_u16());
    push_all(&mut line, b" Z ");
    push_octal(&mut line, 4, machine.word(Eras::Z).to_u16());
    push_all(&mut line, b" EB ");
    push_octal(&mut line, 1, banks.eb);
    push_all(&mut line, b" FB ");
    push_octal(&mut line, 2, banks.fb);
    push_flags(&mut line, machine, banks.sup, extra);
    line
}

/// Appends the flags and a line feed.
fn push_flags(line: &mut Text, machine: &Machine, sup: bool, extra: bool)
    requires { array_vec_len line.old ≤ 50 }
    ensures items { line.new.items ≡ line.old.items
        ++ text_line (flags_text sup extra machine.now.inhibit machine.now.inside) }
    ensures len { array_vec_len line.new ≤ array_vec_len line.old + 30 }
{
    push_all(line, b" SUP ");
    push_octal(line, 1, flag(sup));
    push_all(line, b" EXT ");
    push_octal(line, 1, flag(extra));
    push_all(line, b" INH ");
    push_octal(line, 1, flag(machine.inhibit()));
    push_all(line, b" INT ");
    push_octal(line, 1, flag(machine.inside()));
    push_all(line, b"\n");
}

/// The registers, and the next instruction.
#[tactic(auto, unfolding(crate::specs::Replies::next_line))]
pub(crate) fn registers_text(machine: &Machine, processor: &Processor) -> Text
    ensures { result.items ≡ registers_line (sight processor.now.scenario.rope machine.now)
        ++ next_line (sight processor.now.scenario.rope machine.now) }
{
    let (word, extra) = processor.next_word(machine);
    let mut text = registers_line(machine, processor);
    push_all(&mut text, b"NEXT ");
    push_octal(&mut text, 5, word.to_u16());
    push_all(&mut text, b" ");
    push_all(&mut text, disassemble(word, extra).as_slice());
    push_all(&mut text, b"\n");
    text
}

/// The most bytes of the lines of erasable places: four digits and a line feed for each of 2,048, and `COUNT `, 20
/// digits and a line feed.
const PLACES_TEXT: usize = 10_300;

/// The lines of erasable places.
pub(crate) type PlacesText = ArrayVec<u8, PLACES_TEXT>;

/// A line for each place, and how many there are.
#[tactic(auto, using(words::proofs::Digits::short_decimal))]
pub(crate) fn places_text(places: &[u16]) -> PlacesText
    requires { length places.now ≤ 2048 }
    ensures { result.items ≡ changed_text places.now }
{
    let mut text = ArrayVec::new();
    for place in places {
        push_octal(&mut text, 4, *place);
        push_all(&mut text, b"\n");
    }
    push_all(&mut text, b"COUNT ");
    push_decimal(&mut text, places.len() as u64);
    push_all(&mut text, b"\n");
    text
}
