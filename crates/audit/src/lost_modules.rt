//! Modules of six banks whose words are all one.

ghost use Rattle.std.specs.Prelude.{◌≡◌, ◌+◌, ◌*◌, ◌/◌, ◌%◌, ◌<◌, ◌≤◌, ◌++◌, true};
ghost use Rattle.words.specs.Devices.{Writes, failures_after};
ghost use Rattle.rope.specs.Places.{banks, bank_words};
ghost use Rattle.audit.specs.BankFacts.{is_wrong};
ghost use Rattle.audit.specs.Damages.{bank_texts, first_bank, is_lost_bank, is_lost_module};
ghost use Rattle.audit.specs.Damages.{module_banks, module_line, module_text, modules, wrong_in_module};

use crate::bank_facts::{is_uniform, is_wrong};
use crate::damages::{BankLine, is_damaged, of_uniform, push_of_wrong_parity, write_bank};
use crate::lines::{Written, bank_of, offset_of};
use crate::ranges::{all_below, count_below};
use arrayvec::ArrayVec;
use rope::Dump;
use space::{BANK_WORDS, Bank};
use words::{Word, Write, push_all, push_octal, write_all};

/// How many banks a module has.
const MODULE_BANKS: u16 = 6;

/// How many words a module has.
const MODULE_WORDS: u16 = 6 * 1024;

/// Writes the text of a module: a line where all its words are one and none of its banks is empty, else the texts of
/// its banks.
#[tactic(auto, unfolding(crate::specs::Damages::module_text))]
pub(crate) fn write_module<W: Write>(image: &Dump, turned: bool, nth: u16, out: &mut W) -> Written
    requires { nth < modules }
    ensures written { W.told ≡ true → Writes (W.written out.old) (W.written out.new)
        (module_text image.now turned nth) result }
    ensures failures { W.failures out.new ≡ failures_after (W.failures out.old) result }
{
    if is_lost_module(image, turned, nth) {
        write_all(out, module_line(image, turned, nth).as_slice())
    } else {
        write_banks(image, turned, nth, out)
    }
}

/// Writes the texts of the banks of a module.
fn write_banks<W: Write>(image: &Dump, turned: bool, nth: u16, out: &mut W) -> Written
    requires { nth < modules }
    ensures written { W.told ≡ true → Writes (W.written out.old) (W.written out.new)
        (bank_texts image.now turned nth) result }
    ensures failures { W.failures out.new ≡ failures_after (W.failures out.old) result }
{
    for number in 0..MODULE_BANKS {
        write_bank(image, turned, bank_of(first_bank(nth) + number), out)?;
    }
    Ok(())
}

/// The first bank of a module.
fn first_bank(nth: u16) -> u16
    requires { nth < modules }
    ensures number { result ≡ first_bank nth }
    ensures few { result + module_banks ≤ banks }
{
    MODULE_BANKS * nth
}

/// Whether all words of a module are one, though none of its banks is empty.
fn is_lost_module(image: &Dump, turned: bool, nth: u16) -> bool
    requires { nth < modules }
    ensures { result ≡ is_lost_module image.now turned nth }
{
    let first = first_bank(nth);
    let word = image.word(bank_of(first), offset_of(0));
    all_below(
        MODULE_BANKS,
        |number| is_lost_bank(image, turned, word, bank_of(first + number)),
    )
}

/// Whether all words of a bank are this one, though it is not empty.
fn is_lost_bank(image: &Dump, turned: bool, word: Word, bank: Bank) -> bool
    requires { bank < banks }
    ensures { result ≡ is_lost_bank image.now turned word bank }
{
    is_uniform(image, bank)
        && (image.word(bank, offset_of(0)) == word && is_damaged(of_uniform(image, turned, bank)))
}

/// How many words of a module have a wrong parity.
fn wrong_in_module(image: &Dump, turned: bool, nth: u16) -> u16
    requires { nth < modules }
    ensures count { result ≡ wrong_in_module image.now turned nth }
    ensures few { result ≤ module_banks * bank_words }
{
    let first = first_bank(nth);
    count_below(
        MODULE_WORDS,
        |number| is_wrong_word(image, turned, first, number),
    )
}

/// Whether the word of a number has, counted from the first of a bank.
fn is_wrong_word(image: &Dump, turned: bool, first: u16, number: u16) -> bool
    requires first { first + module_banks ≤ banks }
    requires number { number < module_banks * bank_words }
    ensures { result ≡ is_wrong image.now turned (first + number / bank_words) (number % bank_words) }
{
    is_wrong(
        image,
        turned,
        bank_of(first + number / BANK_WORDS),
        offset_of(number % BANK_WORDS),
    )
}

/// All words of a module are one.
fn module_line(image: &Dump, turned: bool, nth: u16) -> BankLine
    requires { nth < modules }
    ensures { result.items ≡ module_line image.now turned nth }
{
    let first = first_bank(nth);
    let wrongs = wrong_in_module(image, turned, nth);
    let mut line = ArrayVec::new();
    push_all(&mut line, b"BANKS ");
    push_octal(&mut line, 2, first);
    push_all(&mut line, b" TO ");
    push_octal(&mut line, 2, first + 5);
    push_all(&mut line, b" ALL ");
    push_octal(
        &mut line,
        5,
        image.word(bank_of(first), offset_of(0)).to_u16(),
    );
    push_of_wrong_parity(&mut line, 0 < wrongs, wrongs);
    line
}
