//! Texts of octal words, in place of images of ropes.

ghost use Rattle.std.specs.Prelude.{ℕ, Option, true, ◌≡◌, ◌∷◌, ◌≤◌, ◌<◌, ◌^◌, [], Some, None, Ok, Err, IfOk, IfErr};
ghost use Rattle.std.specs.Prelude.{MatchOption, length, drop};
ghost use Rattle.std.specs.Option.{SomeIff};
ghost use Rattle.agc_text.specs.Fields.{runs, texts};
ghost use Rattle.rope.specs.Image.{image};
ghost use Rattle.audit.specs.OctalTexts.{GivesImage, before_comment, before_return, begin, begin_bank, is_free};
ghost use Rattle.audit.specs.OctalTexts.{names_bank, octal_words, put, put_all, put_word, said, state, take_fields};
ghost use Rattle.audit.specs.OctalTexts.{take_line, word_of};

use agc_text::{length_before_byte, next_line, octal, split_field};
use rope::{Rope, RopeFault, Version};
use space::{BANK_WORDS, Bank, FIXED_BANKS, Offset};
use std::alloc::Global;
use words::{Buffer, Word};

/// The byte that begins a comment.
const SEMICOLON: u8 = b';';

/// The byte that some editors write before a line feed.
const CARRIAGE_RETURN: u8 = 0o15;

/// How many bytes stand before the number of a bank.
const TITLE: usize = 5;

/// The bank to which the next word belongs, and how many of its words were read.
type Next = (Option<Bank>, u16);

/// The words of a text: lines `BANK=` with the number of a bank, in octal, and below each the words of the bank from
/// its first place on, five octal digits each, as many in a line as there are. A semicolon begins a comment, a line may
/// be empty, and one may end with a carriage return. Inside is an
/// `Err` with the number of the first line of another form.
#[tactic(auto, using(crate::proofs::OctalSteps::reads_steps))]
pub fn octal_words(alloc: Global, text: &[u8]) -> Result<Result<Rope, u64>, RopeFault>
    ensures { IfOk result (λ words. words ≡ octal_words text.now) }
{
    let mut words = Rope::empty(alloc)?;
    let mut next: Next = (None, 0);
    let mut rest = text;
    let mut number: u64 = 0;
    while let Some((line, following)) = next_line(rest) {
        rest = following;
        number += 1;
        let Some(after) = take_line(&mut words, next, line) else {
            return Ok(Err(number));
        };
        next = after;
    }
    Ok(Ok(words))
}

/// The bytes of an image of a version of the words of a text, or the number of the first line of another form than
/// `octal_words` takes.
pub fn octal_image(
    alloc: Global,
    text: &[u8],
    version: Version,
) -> Result<Result<Vec<u8>, u64>, RopeFault>
    ensures image { IfOk result (λ image. IfOk image (λ bytes. GivesImage version bytes.items (octal_words text.now))) }
    ensures line { IfOk result (λ image. IfErr image (λ line. octal_words text.now ≡ Err line)) }
{
    match octal_words(alloc, text)? {
        Ok(words) => Ok(Ok(image_of(alloc, &words, version)?)),
        Err(line) => Ok(Err(line)),
    }
}

/// The bytes of an image.
fn image_of(alloc: Global, words: &Rope, version: Version) -> Result<Vec<u8>, RopeFault>
    ensures { IfOk result (λ bytes. bytes.items ≡ image version words.now) }
{
    let mut buffer = Buffer::new(alloc);
    let Ok(()) = words.write(&mut buffer, version) else {
        return Err(RopeFault::NoMemory);
    };
    let mut bytes = Vec::new(alloc);
    let Ok(()) = bytes.extend_from_slice(buffer.as_slice()) else {
        return Err(RopeFault::NoMemory);
    };
    Ok(bytes)
}

/// Whether a text begins as one of octal words does: its first line that is neither empty nor a comment names a bank,
/// or begins with a word.
pub fn is_beginning(text: &[u8]) -> bool {
    let mut rest = text;
    while let Some((line, following)) = next_line(rest) {
        rest = following;
        if let Some((field, _)) = split_field(said(line)) {
            return names_bank(field) || word_of(field).is_some();
        }
    }
    false
}

/// Takes a line, where it has a form that is taken.
#[tactic(auto, unfolding(crate::specs::OctalTexts::take_line))]
fn take_line(words: &mut Rope, next: Next, line: &[u8]) -> Option<Next>
    ensures { MatchOption result
        (take_line (state words.old next.0 next.1) line.now ≡ None)
        (λ after. take_line (state words.old next.0 next.1) line.now ≡ Some (state words.new after.0 after.1)) }
{
    take_fields(words, next, said(line))
}

/// What a line says beside its comment.
fn said(line: &[u8]) -> &[u8]
    ensures { result.now ≡ said line.now }
{
    before_return(before_comment(line))
}

/// A line without its comment.
fn before_comment(line: &[u8]) -> &[u8]
    ensures { result.now ≡ before_comment line.now }
{
    &line[..length_before_byte(line, SEMICOLON)]
}

/// A text without a carriage return at its end.
fn before_return(text: &[u8]) -> &[u8]
    ensures { result.now ≡ before_return text.now }
{
    let length = text.len();
    if length > 0 && text[length - 1] == CARRIAGE_RETURN {
        &text[..length - 1]
    } else {
        text
    }
}

/// Takes what a line says.
fn take_fields(words: &mut Rope, next: Next, text: &[u8]) -> Option<Next>
    ensures { MatchOption result
        (take_fields (state words.old next.0 next.1) (texts (runs text.now)) ≡ None)
        (λ after. take_fields (state words.old next.0 next.1) (texts (runs text.now))
        ≡ Some (state words.new after.0 after.1)) }
{
    match split_field(text) {
        Some((field, rest)) => {
            if names_bank(field) {
                begin(words, field, rest)
            } else {
                put_all(words, next, text)
            }
        }
        None => Some(next),
    }
}

/// Whether a field begins with BANK=.
fn names_bank(field: &[u8]) -> bool
    ensures is { result ≡ names_bank field.now }
    ensures long { result ≡ true → 5 ≤ length field.now }
{
    field.len() >= TITLE
        && field[0] == b'B'
        && field[1] == b'A'
        && field[2] == b'N'
        && field[3] == b'K'
        && field[4] == b'='
}

/// Begins the bank that a field names, where nothing else follows in its line, and no word of it was read.
fn begin(words: &Rope, field: &[u8], rest: &[u8]) -> Option<Next>
    requires { 5 ≤ length field.now }
    ensures { MatchOption result
        ((bank : Option ℕ) (count : ℕ) → begin (state words.now bank count) field.now (texts (runs rest.now)) ≡ None)
        (λ after. (bank : Option ℕ) (count : ℕ)
        → begin (state words.now bank count) field.now (texts (runs rest.now))
        ≡ Some (state words.now after.0 after.1)) }
{
    match split_field(rest) {
        Some(_) => None,
        None => begin_bank(words, octal(&field[TITLE..], 2)),
    }
}

/// Begins the bank of a number.
fn begin_bank(words: &Rope, number: Option<u64>) -> Option<Next>
    ensures { MatchOption result
        ((bank : Option ℕ) (count : ℕ) → begin_bank (state words.now bank count) number ≡ None)
        (λ after. (bank : Option ℕ) (count : ℕ)
        → begin_bank (state words.now bank count) number ≡ Some (state words.now after.0 after.1)) }
{
    let bank = bank_of(number?)?;
    if is_free(words, bank, 0) {
        Some((Some(bank), 0))
    } else {
        None
    }
}

/// The bank of a number, where it is one.
fn bank_of(number: u64) -> Option<Bank>
    ensures { SomeIff result (number < 0o50) number }
{
    if number < 0o50 {
        Bank::try_new(number as u16)
    } else {
        None
    }
}

/// Whether a word may be put at a place: one of the 36 banks where none stands.
fn is_free(words: &Rope, bank: Bank, offset: u16) -> bool
    ensures { result ≡ is_free words.now bank offset }
{
    if bank.number() >= FIXED_BANKS {
        return false;
    }
    match Offset::try_new(offset) {
        Some(offset) => !words.has(bank, offset),
        None => false,
    }
}

/// Puts the words of a text's fields, one after another.
#[tactic(auto, using(crate::proofs::OctalSteps::puts_steps))]
fn put_all(words: &mut Rope, next: Next, text: &[u8]) -> Option<Next>
    ensures { MatchOption result
        (put_all (state words.old next.0 next.1) (texts (runs text.now)) ≡ None)
        (λ after. put_all (state words.old next.0 next.1) (texts (runs text.now))
        ≡ Some (state words.new after.0 after.1)) }
{
    let mut next = next;
    let mut rest = text;
    while let Some((field, following)) = split_field(rest) {
        rest = following;
        let Some(after) = put(words, next, field) else {
            return None;
        };
        next = after;
    }
    Some(next)
}

/// Puts the word that a field is at the next place of the bank.
fn put(words: &mut Rope, next: Next, field: &[u8]) -> Option<Next>
    ensures { MatchOption result
        (put (state words.old next.0 next.1) field.now ≡ None)
        (λ after. put (state words.old next.0 next.1) field.now ≡ Some (state words.new after.0 after.1)) }
{
    let (Some(word), Some(bank)) = (word_of(field), next.0) else {
        return None;
    };
    put_word(words, bank, next.1, word)
}

/// Puts a word at a place of a bank.
fn put_word(words: &mut Rope, bank: Bank, count: u16, word: Word) -> Option<Next>
    ensures { MatchOption result
        (put_word (state words.old (Some bank) count) (Some word) (Some bank) ≡ None)
        (λ after. put_word (state words.old (Some bank) count) (Some word) (Some bank)
        ≡ Some (state words.new after.0 after.1)) }
{
    if !is_free(words, bank, count) {
        return None;
    }
    let Some(offset) = Offset::try_new(count) else {
        unreachable!()
    };
    words.put(bank, offset, word);
    Some((Some(bank), count + 1))
}

/// The word of five octal digits.
fn word_of(field: &[u8]) -> Option<Word>
    ensures { result ≡ word_of field.now }
{
    if field.len() == 5 {
        word_size(octal(field, 5)?)
    } else {
        None
    }
}

/// A number below 2 to 15.
fn word_size(number: u64) -> Option<Word>
    ensures { SomeIff result (number < 0o100000) number }
{
    if number < 0o100000 {
        Some(Word::of_low_bits(number as u16))
    } else {
        None
    }
}
