//! What is damaged in the banks of an image, as text.

ghost use Rattle.std.specs.Prelude.{◌≡◌, ◌+◌, ◌<◌, ◌≤◌, ◌++◌, true, length, codes, IfOk};
ghost use Rattle.arrayvec.specs.ArrayVec.{array_vec_len};
ghost use Rattle.std.specs.List.{flat_map, range_with_len};
ghost use Rattle.words.specs.Devices.{Writes, failures_after};
ghost use Rattle.rope.specs.Places.{banks};
ghost use Rattle.audit.specs.BankFacts.{count_before, dead_bit, is_always, is_turned, mended_sum, mends, wrong_words};
ghost use Rattle.audit.specs.Orders.{arrangement_of};
ghost use Rattle.audit.specs.Damages.{always_text, arrangement_text, bank_name, bank_of_sum, bank_text, by_count};
ghost use Rattle.audit.specs.Damages.{by_its_sum, by_other, by_parities, by_sum};
ghost use Rattle.audit.specs.Damages.{count_in, count_of, damages, dead_line, dead_text, finding_of};
ghost use Rattle.audit.specs.Damages.{finding_text, findings, in_order, is_damaged, lost_line, lost_lines, lost_text};
ghost use Rattle.audit.specs.Damages.{module_text, modules, of_sum, of_uniform, of_wrong_parity};
ghost use Rattle.audit.specs.Damages.{order_line, parity_bits_line, report, report_in, turned_text};
ghost use Rattle.audit.specs.Damages.{uniform_line, ways_of, wrong_lines, wrong_sum_line};

use crate::bank_facts::{
    dead_bit, has_loops, is_always, is_blank, is_copy, is_lost, is_turned, is_uniform, lost_bits,
    mended_sum, mends, wrong_words,
};
use crate::differences::count_line;
use crate::form_names::name_if;
use crate::form_sums::holds_sum;
use crate::lines::{Written, bank_of, offset_of};
use crate::lost_modules::write_module;
use crate::orders::{Arrangement, Order, arrangement_of};
use crate::ranges::count_below;
use crate::wrong_words::write_wrong_words;
use arrayvec::ArrayVec;
use rope::Dump;
use space::{Bank, FIXED_BANKS};
use words::{Word, Write, WriteFailed, push_all, push_decimal, push_octal, write_all};

/// The most bytes of a line of a bank.
const BANK_LINE: usize = 128;

/// The most bytes of the lines that tell how an image stands.
const STANDING: usize = 128;

/// The bits of a word.
const WORD_BITS: u32 = 15;

/// How many modules there are.
const MODULES: u16 = 6;

pub(crate) type BankLine = ArrayVec<u8, BANK_LINE>;

/// What the words of a bank, their parities and its sum tell of it.
#[derive(Clone, Copy, Drop)]
pub enum Finding {
    /// Nothing is wrong, or no word stands in it.
    Sound,
    /// All its words are one.
    Uniform,
    /// A bit of the offset makes no difference.
    DeadBit,
    /// Its sum is that of no bank.
    WrongSum,
    /// It has the words of the bank of this number.
    CopyOf(u16),
    /// It has the sum of the bank of this number, which has another.
    SumOf(u16),
    /// It has the sum of the bank of this number, and that one its.
    ExchangedWith(u16),
    /// Its words are right by the sum, and parity bits are wrong.
    ParityBits,
    /// Bits are lost: the same in all words.
    LostBits,
    /// Words have a wrong parity.
    WrongWords,
}

/// Writes what is damaged in an image, bank by bank, as `10,2137 00006 IS 00002 BY THE SUM`: what the words, their
/// parities and the sum of the bank tell together. Where the image stands in another form that alone is told. Then it
/// writes of how many banks it told, or in how many ways the image stands otherwise, the parity of the whole image
/// counted as one, as `COUNT 1`, and answers that.
///
/// After a failure a beginning of it was written.
pub fn write_damages<W: Write>(image: &Dump, out: &mut W) -> Result<u32, WriteFailed>
    ensures written { W.told ≡ true → Writes (W.written out.old) (W.written out.new) (damages image.now) result }
    ensures count { IfOk result (λ count. count ≡ count_of image.now) }
    ensures failures { W.failures out.new ≡ failures_after (W.failures out.old) result }
{
    let standing = arrangement_of(image);
    write_report_in(standing, image, out)?;
    let count = count_in(standing, image);
    write_all(out, count_line(count).as_slice())?;
    Ok(count)
}

/// Writes what is told of an image that stands so.
fn write_report_in<W: Write>(standing: Arrangement, image: &Dump, out: &mut W) -> Written
    ensures written { W.told ≡ true → Writes (W.written out.old) (W.written out.new) (report_in standing image.now)
        result }
    ensures failures { W.failures out.new ≡ failures_after (W.failures out.old) result }
{
    if ways_of(standing) == 0 {
        write_report(image, is_turned(image), out)
    } else {
        write_all(out, arrangement_text(standing).as_slice())
    }
}

/// Of how many is told where an image stands so.
fn count_in(standing: Arrangement, image: &Dump) -> u32
    ensures { result ≡ count_in standing image.now }
{
    let ways = ways_of(standing);
    if ways == 0 {
        findings(image, is_turned(image))
    } else {
        ways
    }
}

/// In how many ways an image stands otherwise than as written.
fn ways_of(standing: Arrangement) -> u32
    ensures count { result ≡ ways_of standing }
    ensures few { result ≤ 3 }
{
    in_order(standing.order) + u32::from(standing.is_complemented) + u32::from(standing.is_numbered)
}

/// Whether an order is another one than as written, as a number.
fn in_order(order: Order) -> u32
    ensures count { result ≡ in_order order }
    ensures few { result ≤ 1 }
{
    match order {
        Order::Written => 0,
        Order::Exchanged | Order::Hardware | Order::ExchangedHardware => 1,
    }
}

/// The order of its bits and bytes.
fn order_line(order: Order) -> &'static [u8]
    ensures text { result.now ≡ order_line order }
    ensures short { length result.now ≤ 51 }
{
    match order {
        Order::Written => b"",
        Order::Exchanged => b"BYTES EXCHANGED\n",
        Order::Hardware => b"BITS IN THE ORDER OF THE HARDWARE\n",
        Order::ExchangedHardware => b"BYTES EXCHANGED, BITS IN THE ORDER OF THE HARDWARE\n",
    }
}

/// How an image stands otherwise than as written.
fn arrangement_text(standing: Arrangement) -> ArrayVec<u8, STANDING>
    ensures { result.items ≡ arrangement_text standing }
{
    let mut text = ArrayVec::new();
    push_all(&mut text, order_line(standing.order));
    push_all(
        &mut text,
        name_if(standing.is_complemented, b"ALL BITS COMPLEMENTED\n"),
    );
    push_all(
        &mut text,
        name_if(standing.is_numbered, b"BANKS BY THEIR NUMBERS\n"),
    );
    text
}

/// Writes what is damaged, module by module.
fn write_report<W: Write>(image: &Dump, turned: bool, out: &mut W) -> Written
    ensures written { W.told ≡ true → Writes (W.written out.old) (W.written out.new) (report image.now turned) result }
    ensures failures { W.failures out.new ≡ failures_after (W.failures out.old) result }
{
    write_all(out, turned_text(turned))?;
    write_modules(image, turned, out)
}

/// How many banks are told of, and the parity where it is the other way round.
fn findings(image: &Dump, turned: bool) -> u32
    ensures { result ≡ findings image.now turned }
{
    u32::from(damaged_banks(image, turned)) + u32::from(turned)
}

/// Tells that all parities are the other way round.
fn turned_text(turned: bool) -> &'static [u8]
    ensures { result.now ≡ turned_text turned }
{
    if turned {
        b"PARITY THE OTHER WAY ROUND\n"
    } else {
        b""
    }
}

/// How many banks are damaged.
fn damaged_banks(image: &Dump, turned: bool) -> u16
    ensures count { result ≡ count_before (λ bank. is_damaged (finding_of image.now turned bank)) banks }
    ensures few { result ≤ banks }
{
    count_below(
        FIXED_BANKS,
        |number| is_damaged(finding_of(image, turned, bank_of(number))),
    )
}

/// Whether a finding is a damage.
pub(crate) fn is_damaged(it: Finding) -> bool
    ensures { result ≡ is_damaged it }
{
    match it {
        Finding::Sound => false,
        Finding::Uniform
        | Finding::DeadBit
        | Finding::WrongSum
        | Finding::CopyOf(_)
        | Finding::SumOf(_)
        | Finding::ExchangedWith(_)
        | Finding::ParityBits
        | Finding::LostBits
        | Finding::WrongWords => true,
    }
}

/// What is told of a bank.
fn finding_of(image: &Dump, turned: bool, bank: Bank) -> Finding
    requires { bank < banks }
    ensures { result ≡ finding_of image.now turned bank }
{
    if is_uniform(image, bank) {
        of_uniform(image, turned, bank)
    } else if dead_bit(image, bank) == 0 {
        by_count(image, turned, bank, wrong_words(image, turned, bank))
    } else {
        Finding::DeadBit
    }
}

/// What is told of a bank in which all words are one.
pub(crate) fn of_uniform(image: &Dump, turned: bool, bank: Bank) -> Finding
    requires { bank < banks }
    ensures { result ≡ of_uniform image.now turned bank }
{
    if image.word(bank, offset_of(0)).to_u16() == 0 && wrong_words(image, turned, bank) == 0 {
        Finding::Sound
    } else {
        Finding::Uniform
    }
}

/// What so many words of wrong parity tell of a bank.
fn by_count(image: &Dump, turned: bool, bank: Bank, wrongs: u16) -> Finding
    requires { bank < banks }
    ensures { result ≡ by_count image.now turned bank wrongs }
{
    if wrongs == 0 {
        by_sum(image, turned, bank, mended_sum(image, turned, bank, 0))
    } else if wrongs == 1 || is_blank(image, turned, bank) {
        Finding::WrongWords
    } else {
        by_parities(image, turned, bank)
    }
}

/// What two and more words of wrong parity tell of a bank.
fn by_parities(image: &Dump, turned: bool, bank: Bank) -> Finding
    requires { bank < banks }
    ensures { result ≡ by_parities image.now turned bank }
{
    if mends(image, turned, bank, 0) {
        Finding::ParityBits
    } else if lost_bits(image, turned, bank) == 0 {
        Finding::WrongWords
    } else {
        Finding::LostBits
    }
}

/// What a sum tells of a bank in which no parity is wrong.
fn by_sum(image: &Dump, turned: bool, bank: Bank, total: Word) -> Finding
    requires { bank < banks }
    ensures { result ≡ by_sum image.now turned bank total }
{
    if holds_sum(bank, total) {
        Finding::Sound
    } else {
        by_other(image, turned, bank, bank_of_sum(total))
    }
}

/// What is told of a bank that has the sum of another, or of none.
fn by_other(image: &Dump, turned: bool, bank: Bank, other: u16) -> Finding
    requires bank { bank < banks }
    requires other { other ≤ banks }
    ensures { result ≡ by_other image.now turned bank other }
{
    if other == FIXED_BANKS {
        return Finding::WrongSum;
    }
    if is_copy(image, bank, bank_of(other)) {
        return Finding::CopyOf(other);
    }
    by_its_sum(
        bank,
        bank_of(other),
        mended_sum(image, turned, bank_of(other), 0),
    )
}

/// What the sum of another bank tells of a bank that has its own sum.
fn by_its_sum(bank: Bank, other: Bank, total: Word) -> Finding
    ensures { result ≡ by_its_sum bank other total }
{
    if holds_sum(bank, total) {
        Finding::ExchangedWith(other.number())
    } else if holds_sum(other, total) {
        Finding::WrongSum
    } else {
        Finding::SumOf(other.number())
    }
}

/// The number of the bank of which a sum is, or 044.
fn bank_of_sum(total: Word) -> u16
    ensures bank { result ≡ bank_of_sum total }
    ensures few { result ≤ banks }
{
    if total.to_u16() < FIXED_BANKS {
        total.to_u16()
    } else if total.neg().to_u16() < FIXED_BANKS {
        total.neg().to_u16()
    } else {
        FIXED_BANKS
    }
}

/// Writes the texts of all modules.
fn write_modules<W: Write>(image: &Dump, turned: bool, out: &mut W) -> Written
    ensures written { W.told ≡ true → Writes (W.written out.old) (W.written out.new)
        (flat_map (module_text image.now turned) (range_with_len 0 modules)) result }
    ensures failures { W.failures out.new ≡ failures_after (W.failures out.old) result }
{
    for nth in 0..MODULES {
        write_module(image, turned, nth, out)?;
    }
    Ok(())
}

/// Writes the text of a bank.
#[tactic(auto, unfolding(crate::specs::Damages::bank_text))]
pub(crate) fn write_bank<W: Write>(image: &Dump, turned: bool, bank: Bank, out: &mut W) -> Written
    requires { bank < banks }
    ensures written { W.told ≡ true → Writes (W.written out.old) (W.written out.new) (bank_text image.now turned bank)
        result }
    ensures failures { W.failures out.new ≡ failures_after (W.failures out.old) result }
{
    write_finding(image, turned, bank, finding_of(image, turned, bank), out)
}

/// Writes the text of a finding.
fn write_finding<W: Write>(
    image: &Dump,
    turned: bool,
    bank: Bank,
    it: Finding,
    out: &mut W,
) -> Written
    requires bank { bank < banks }
    ensures written { W.told ≡ true → Writes (W.written out.old) (W.written out.new)
        (finding_text image.now turned bank it) result }
    ensures failures { W.failures out.new ≡ failures_after (W.failures out.old) result }
{
    match it {
        Finding::Sound => write_all(out, b""),
        Finding::Uniform => write_all(out, uniform_line(image, turned, bank).as_slice()),
        Finding::DeadBit => write_all(out, dead_line(image, turned, bank).as_slice()),
        Finding::WrongSum => write_all(out, wrong_sum_line(image, turned, bank).as_slice()),
        Finding::CopyOf(other) => {
            write_all(
                out,
                line_of_two(bank, b" HAS THE WORDS OF ", other).as_slice(),
            )
        }
        Finding::SumOf(other) => {
            write_all(
                out,
                line_of_two(bank, b" HAS THE SUM OF ", other).as_slice(),
            )
        }
        Finding::ExchangedWith(other) => {
            write_all(
                out,
                line_of_two(bank, b" EXCHANGED WITH ", other).as_slice(),
            )
        }
        Finding::ParityBits => write_all(out, parity_bits_line(image, turned, bank).as_slice()),
        Finding::LostBits => write_lost_bits(image, turned, bank, out),
        Finding::WrongWords => write_wrong_words(image, turned, bank, out),
    }
}

/// Appends a bank's name.
#[tactic(auto, unfolding(crate::specs::Damages::bank_name))]
fn push_bank(line: &mut BankLine, bank: u16)
    requires { array_vec_len line.old ≤ 40 }
    ensures items { line.new.items ≡ line.old.items ++ bank_name bank }
    ensures len { array_vec_len line.new ≡ array_vec_len line.old + 7 }
{
    push_all(line, b"BANK ");
    push_octal(line, 2, bank);
}

/// All words of a bank are one.
fn uniform_line(image: &Dump, turned: bool, bank: Bank) -> BankLine
    requires { bank < banks }
    ensures { result.items ≡ uniform_line image.now turned bank }
{
    let wrongs = wrong_words(image, turned, bank);
    let mut line = ArrayVec::new();
    push_bank(&mut line, bank.number());
    push_all(&mut line, b" ALL ");
    push_octal(&mut line, 5, image.word(bank, offset_of(0)).to_u16());
    push_of_wrong_parity(&mut line, 0 < wrongs, wrongs);
    line
}

/// Appends how many of a bank's words have a wrong parity, where some have, and a newline.
#[tactic(auto, unfolding(crate::specs::Damages::of_wrong_parity), using(words::proofs::Digits::short_decimal))]
pub(crate) fn push_of_wrong_parity(line: &mut BankLine, some: bool, wrongs: u16)
    requires { array_vec_len line.old ≤ 64 }
    ensures { line.new.items ≡ line.old.items ++ of_wrong_parity some wrongs }
{
    if some {
        push_all(line, b", ");
        push_decimal(line, u64::from(wrongs));
        push_all(line, b" OF WRONG PARITY\n");
    } else {
        push_all(line, b"\n");
    }
}

/// A bit of the offset makes no difference.
#[tactic(auto, using(words::proofs::Digits::short_decimal))]
fn dead_line(image: &Dump, turned: bool, bank: Bank) -> BankLine
    requires { bank < banks }
    ensures { result.items ≡ dead_line image.now turned bank (dead_bit image.now bank) }
{
    let bit = dead_bit(image, bank);
    let wrongs = wrong_words(image, turned, bank);
    let mut line = ArrayVec::new();
    push_bank(&mut line, bank.number());
    push_all(&mut line, b" ADDRESS BIT ");
    push_decimal(&mut line, u64::from(bit));
    let zero = wrongs == 0 && has_loops(image, bank, bit, 0);
    let one = wrongs == 0 && has_loops(image, bank, bit, 1);
    push_all(&mut line, dead_text(zero, one));
    push_of_wrong_parity(&mut line, 0 < wrongs, wrongs);
    line
}

/// What a bit of the offset is, if the words are those where it is 0, or those where it is 1.
fn dead_text(zero: bool, one: bool) -> &'static [u8]
    ensures text { result.now ≡ dead_text zero one }
    ensures short { length result.now ≤ 20 }
{
    match (zero, one) {
        (true, false) => b" ALWAYS 0",
        (false, true) => b" ALWAYS 1",
        (true, true) | (false, false) => b" MAKES NO DIFFERENCE",
    }
}

/// A bank's sum is that of no bank.
fn wrong_sum_line(image: &Dump, turned: bool, bank: Bank) -> BankLine
    requires { bank < banks }
    ensures { result.items ≡ wrong_sum_line bank (mended_sum image.now turned bank 0) }
{
    let mut line = ArrayVec::new();
    push_bank(&mut line, bank.number());
    push_all(&mut line, b" SUM ");
    push_octal(&mut line, 5, mended_sum(image, turned, bank, 0).to_u16());
    push_all(&mut line, b"\n");
    line
}

/// The names of two banks, and what is between them.
fn line_of_two(bank: Bank, between: &[u8], other: u16) -> BankLine
    requires { length between.now ≤ 20 }
    ensures { result.items ≡ bank_name bank ++ between.now ++ bank_name other ++ codes "\n" }
{
    let mut line = ArrayVec::new();
    push_bank(&mut line, bank.number());
    push_all(&mut line, between);
    push_bank(&mut line, other);
    push_all(&mut line, b"\n");
    line
}

/// A bank's words are right by its sum, and parity bits are wrong.
#[tactic(auto, using(words::proofs::Digits::short_decimal))]
fn parity_bits_line(image: &Dump, turned: bool, bank: Bank) -> BankLine
    requires { bank < banks }
    ensures { result.items ≡ parity_bits_line bank (wrong_words image.now turned bank) }
{
    let mut line = ArrayVec::new();
    push_bank(&mut line, bank.number());
    push_all(&mut line, b" RIGHT BY THE SUM, ");
    push_decimal(&mut line, u64::from(wrong_words(image, turned, bank)));
    push_all(&mut line, b" PARITY BITS WRONG\n");
    line
}

/// Writes a line for each bit of a bank's words that is lost.
fn write_lost_bits<W: Write>(image: &Dump, turned: bool, bank: Bank, out: &mut W) -> Written
    requires { bank < banks }
    ensures written { W.told ≡ true → Writes (W.written out.old) (W.written out.new) (lost_lines image.now turned bank)
        result }
    ensures failures { W.failures out.new ≡ failures_after (W.failures out.old) result }
{
    for number in 0..WORD_BITS {
        write_lost_bit(image, turned, bank, number, out)?;
    }
    Ok(())
}

/// Writes the line of a bit, where it is lost.
#[tactic(auto, unfolding(crate::specs::Damages::lost_text))]
fn write_lost_bit<W: Write>(
    image: &Dump,
    turned: bool,
    bank: Bank,
    number: u32,
    out: &mut W,
) -> Written
    requires bank { bank < banks }
    requires few { number < 15 }
    ensures written { W.told ≡ true → Writes (W.written out.old) (W.written out.new)
        (lost_text image.now turned bank number) result }
    ensures failures { W.failures out.new ≡ failures_after (W.failures out.old) result }
{
    if is_lost(image, turned, bank, number + 1) {
        write_all(out, lost_line(image, turned, bank, number + 1).as_slice())
    } else {
        write_all(out, b"")
    }
}

/// The line of a bit that is lost.
#[tactic(auto, using(words::proofs::Digits::short_decimal))]
fn lost_line(image: &Dump, turned: bool, bank: Bank, bit: u32) -> BankLine
    requires bank { bank < banks }
    requires some { 1 ≤ bit }
    requires few { bit ≤ 15 }
    ensures { result.items ≡ lost_line image.now turned bank bit }
{
    let mut line = ArrayVec::new();
    push_bank(&mut line, bank.number());
    push_all(&mut line, b" BIT ");
    push_decimal(&mut line, u64::from(bit));
    push_all(&mut line, always_text(is_always(image, bank, bit, 0)));
    push_of_sum(
        &mut line,
        mends(image, turned, bank, bit),
        wrong_words(image, turned, bank),
    );
    line
}

/// Appends in how many words the sum wants the other bit, where it does, and a newline.
#[tactic(auto, unfolding(crate::specs::Damages::of_sum), using(words::proofs::Digits::short_decimal))]
fn push_of_sum(line: &mut BankLine, wants: bool, wrongs: u16)
    requires { array_vec_len line.old ≤ 46 }
    ensures { line.new.items ≡ line.old.items ++ of_sum wants wrongs }
{
    if wants {
        push_all(line, b", WRONG IN ");
        push_decimal(line, u64::from(wrongs));
        push_all(line, b" WORDS BY THE SUM\n");
    } else {
        push_all(line, b"\n");
    }
}

/// What a bit is in all words: 0, or 1.
fn always_text(is_zero: bool) -> &'static [u8]
    ensures text { result.now ≡ always_text is_zero }
    ensures short { length result.now ≤ 9 }
{
    if is_zero { b" ALWAYS 0" } else { b" ALWAYS 1" }
}
