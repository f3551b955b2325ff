//! In which forms the sums of the banks are what a program wants of them.

ghost use Rattle.std.specs.Prelude.{◌≡◌, ◌/◌, ◌%◌, ◌==◌, ◌<◌, ◌≤◌, ◌+◌, ◌++◌, length, true};
ghost use Rattle.arrayvec.specs.ArrayVec.{array_vec_len};
ghost use Rattle.words.specs.Devices.{Writes, failures_after};
ghost use Rattle.rope.specs.Places.{banks, bank_words, fixed_places};
ghost use Rattle.audit.specs.BankFacts.{all_before, count_before};
ghost use Rattle.audit.specs.FormNames.{complements_of, form_has_full_bank, form_is_all, form_is_complemented};
ghost use Rattle.audit.specs.FormNames.{form_line, form_lines, form_name, form_word_at, form_words_of, holds_so};
ghost use Rattle.audit.specs.FormNames.{line_of_sums, name_if, names_in, names_of};

use crate::form_sums::{form_sum, form_word, holds_sum, is_by_number};
use crate::lines::{Written, bank_of, offset_of};
use crate::orders::{EXTEND, NO_EXTEND, Order, PLACES, by_extends};
use crate::ranges::{all_below, count_below};
use crate::sums::bank_sum;
use arrayvec::ArrayVec;
use rope::{Rope, Version};
use space::{BANK_WORDS, Bank, FIXED_BANKS, Offset};
use words::{Word, Write, push_all, push_octal, write_all};

/// The most bytes of a line: a number of 2 digits, two of 5, the names of the forms, and what stands between.
const LINE: usize = 384;

type Line = ArrayVec<u8, LINE>;

/// In which orders of bits and bytes the words are complemented.
#[derive(Clone, Copy, Drop)]
pub struct Complements {
    /// As `agcws asm` writes an image.
    pub written: bool,
    /// With the parity bit below the highest one.
    pub hardware: bool,
    /// With the second of each two bytes first.
    pub swapped: bool,
    /// In both ways.
    pub both: bool,
}

/// Writes a line for each bank by its number, as `02 00002 16010 written`: the number, the sum of the bank's words as
/// `write_sums` has it, the sum of the words that the same bytes are where the parity bit stands below the highest
/// one, and in which forms the sum is the bank's number, or its complement, by their names: `hardware`, `swapped`,
/// where the second of each two bytes stands first, `complemented`, where each bit is the other one, `numbered`, where
/// banks 0 and 1 stand before 2 and 3, several of them, as `hardware,swapped`, or `written`; `-` where it is in none.
/// Whether words are complemented no sum tells: EXTEND does, and else the empty banks.
///
/// After a failure a beginning of it was written.
pub fn write_form_sums<W: Write>(rope: &Rope, version: Version, out: &mut W) -> Written
    ensures written { W.told ≡ true → Writes (W.written out.old) (W.written out.new) (form_lines version rope.now)
        result }
    ensures failures { W.failures out.new ≡ failures_after (W.failures out.old) result }
{
    let complements = complements_of(version, rope);
    for number in 0..FIXED_BANKS {
        let line = form_line(rope, version, complements, bank_of(number));
        write_all(out, line.as_slice())?;
    }
    Ok(())
}

/// The line of a bank.
#[tactic(auto, unfolding(crate::specs::FormNames::form_line))]
fn form_line(rope: &Rope, version: Version, complements: Complements, bank: Bank) -> Line
    ensures { result.items ≡ form_line version rope.now complements bank }
{
    line_of_sums(
        bank,
        bank_sum(rope, bank),
        form_sum(Order::Hardware, rope, version, bank),
        form_sum(Order::Exchanged, rope, version, bank),
        form_sum(Order::ExchangedHardware, rope, version, bank),
        complements,
    )
}

/// The line of the sums of a bank.
fn line_of_sums(
    bank: Bank,
    written: Word,
    hardware: Word,
    swapped: Word,
    both: Word,
    complements: Complements,
) -> Line
    ensures { result.items ≡ line_of_sums bank written hardware swapped both complements }
{
    let mut line = ArrayVec::new();
    push_octal(&mut line, 2, bank.number());
    push_all(&mut line, b" ");
    push_octal(&mut line, 5, written.to_u16());
    push_all(&mut line, b" ");
    push_octal(&mut line, 5, hardware.to_u16());
    push_names(
        &mut line,
        bank,
        written,
        hardware,
        swapped,
        both,
        complements,
    );
    push_all(&mut line, b"\n");
    line
}

/// Appends the names of the forms in which the sums of a bank hold.
fn push_names(
    line: &mut Line,
    bank: Bank,
    written: Word,
    hardware: Word,
    swapped: Word,
    both: Word,
    complements: Complements,
)
    requires { array_vec_len line.old ≤ 14 }
    ensures items { line.new.items ≡ line.old.items ++ names_of bank written hardware swapped both complements }
    ensures len { array_vec_len line.new ≤ array_vec_len line.old + 360 }
{
    let is_none = !(holds_so(bank, written)
        || (holds_so(bank, hardware) || (holds_so(bank, swapped) || holds_so(bank, both))));
    push_names_in(line, Order::Written, bank, written, complements.written);
    push_names_in(line, Order::Hardware, bank, hardware, complements.hardware);
    push_names_in(line, Order::Exchanged, bank, swapped, complements.swapped);
    push_names_in(line, Order::ExchangedHardware, bank, both, complements.both);
    push_all(line, name_if(is_none, b" -"));
}

/// Whether a sum of a bank holds in a form of its order.
fn holds_so(bank: Bank, total: Word) -> bool
    ensures { result ≡ holds_so bank total }
{
    holds_sum(bank, total) || is_by_number(bank, total)
}

/// Appends the names of the forms of an order in which a sum holds.
fn push_names_in(line: &mut Line, order: Order, bank: Bank, total: Word, is_complemented: bool)
    requires { array_vec_len line.old ≤ 272 }
    ensures items { line.new.items ≡ line.old.items ++ names_in order bank total is_complemented }
    ensures len { array_vec_len line.new ≤ array_vec_len line.old + 80 }
{
    push_all(
        line,
        name_if(
            holds_sum(bank, total),
            form_name(order, is_complemented, false),
        ),
    );
    push_all(
        line,
        name_if(
            is_by_number(bank, total),
            form_name(order, is_complemented, true),
        ),
    );
}

/// A name, or nothing.
pub(crate) fn name_if(is: bool, name: &'static [u8]) -> &'static [u8]
    requires { length name.now ≤ 40 }
    ensures text { result.now ≡ name_if is name.now }
    ensures short { length result.now ≤ 40 }
{
    if is { name } else { b"" }
}

/// The name of a form.
fn form_name(order: Order, is_complemented: bool, is_numbered: bool) -> &'static [u8]
    ensures text { result.now ≡ form_name order is_complemented is_numbered }
    ensures short { length result.now ≤ 40 }
{
    match (order, is_complemented, is_numbered) {
        (Order::Written, false, false) => b" written",
        (Order::Written, false, true) => b" numbered",
        (Order::Written, true, false) => b" complemented",
        (Order::Written, true, true) => b" complemented,numbered",
        (Order::Hardware, false, false) => b" hardware",
        (Order::Hardware, false, true) => b" hardware,numbered",
        (Order::Hardware, true, false) => b" hardware,complemented",
        (Order::Hardware, true, true) => b" hardware,complemented,numbered",
        (Order::Exchanged, false, false) => b" swapped",
        (Order::Exchanged, false, true) => b" swapped,numbered",
        (Order::Exchanged, true, false) => b" swapped,complemented",
        (Order::Exchanged, true, true) => b" swapped,complemented,numbered",
        (Order::ExchangedHardware, false, false) => b" hardware,swapped",
        (Order::ExchangedHardware, false, true) => b" hardware,swapped,numbered",
        (Order::ExchangedHardware, true, false) => b" hardware,swapped,complemented",
        (Order::ExchangedHardware, true, true) => b" hardware,swapped,complemented,numbered",
    }
}

/// In which orders words are complemented.
fn complements_of(version: Version, rope: &Rope) -> Complements
    ensures { result ≡ complements_of version rope.now }
{
    Complements {
        written: is_complemented(Order::Written, version, rope),
        hardware: is_complemented(Order::Hardware, version, rope),
        swapped: is_complemented(Order::Exchanged, version, rope),
        both: is_complemented(Order::ExchangedHardware, version, rope),
    }
}

/// Whether they are in one.
fn is_complemented(order: Order, version: Version, rope: &Rope) -> bool
    ensures { result ≡ form_is_complemented order version rope.now }
{
    by_extends(
        words_of(order, version, rope, EXTEND),
        words_of(order, version, rope, NO_EXTEND),
        has_full_bank(order, version, rope),
    )
}

/// How many words are this one in an order.
fn words_of(order: Order, version: Version, rope: &Rope, word: u16) -> u16
    ensures count { result ≡ form_words_of order version rope.now word }
    ensures few { result ≤ fixed_places }
{
    count_below(PLACES, |number| is_word(order, version, rope, word, number))
}

/// Whether the word of a number is this one.
fn is_word(order: Order, version: Version, rope: &Rope, word: u16, number: u16) -> bool
    requires { number < fixed_places }
    ensures { result ≡ (form_word_at order version rope.now (number / bank_words) (number % bank_words) == word) }
{
    let (bank, offset) = (bank_of(number / BANK_WORDS), offset_of(number % BANK_WORDS));
    form_word_at(order, version, rope, bank, offset).to_u16() == word
}

/// Whether all words of some bank are 77777, and of none 00000.
fn has_full_bank(order: Order, version: Version, rope: &Rope) -> bool
    ensures { result ≡ form_has_full_bank order version rope.now }
{
    0 < banks_of(order, version, rope, 0o77777) && banks_of(order, version, rope, 0) == 0
}

/// How many banks have this word alone.
fn banks_of(order: Order, version: Version, rope: &Rope, word: u16) -> u16
    ensures count { result ≡ count_before (form_is_all order version rope.now word) banks }
    ensures few { result ≤ banks }
{
    count_below(
        FIXED_BANKS,
        |number| is_all(order, version, rope, word, bank_of(number)),
    )
}

/// Whether all words of a bank are this one.
fn is_all(order: Order, version: Version, rope: &Rope, word: u16, bank: Bank) -> bool
    ensures { result ≡ form_is_all order version rope.now word bank }
{
    all_below(BANK_WORDS, |number| {
        form_word_at(order, version, rope, bank, offset_of(number)).to_u16() == word
    })
}

/// The word that the bytes of a place are in an order.
fn form_word_at(order: Order, version: Version, rope: &Rope, bank: Bank, offset: Offset) -> Word
    ensures { result ≡ form_word_at order version rope.now bank offset }
{
    form_word(order, version, rope.word(bank, offset))
}
