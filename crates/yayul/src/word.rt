//! The words that a line gives.

ghost use Rattle.std.specs.Prelude.{◌≡◌, ◌+◌, ◌<◌, ◌≤◌, ◌∷◌, [], true, false, length, map, replicate, nat_le, IfOk, Ok};
ghost use Rattle.std.specs.Result.{result_err, result_map_both};
ghost use Rattle.rope.specs.Places.{bank_words, stands, with_words};
ghost use Rattle.yayul.specs.Layout.{standing, width, value_of, and_then};
ghost use Rattle.words.specs.Numbers.{neg};
ghost use Rattle.yayul.specs.Words.{low_place, accepted, addressed_word, address_of, address_below, channel_in};
ghost use Rattle.yayul.specs.Words.{complete_address, fixed_place, bank_word, far_address, field_of, content_words};
ghost use Rattle.yayul.specs.Words.{request_words, request_faults, extracode_of, extracode_fault};
ghost use Rattle.yayul.specs.Program.{placed, placed_from};
ghost use Rattle.yayul.specs.Inside.Answers.{least_kind};
ghost use Rattle.yayul.specs.Inside.Codes.{greatest_code, greatest_field, greatest_with_field};
ghost use Rattle.yayul.specs.Inside.Representation.{request_of, words_in};

use crate::bank::ErasableBank;
use crate::faults::{FaultKind, least_fault};
use crate::language::{AddressedCode, Content, Location, Operand, Takes};
use crate::request::WordRequest;
use crate::values::{erasable_place, location_at, value_of};
use rope::Rope;
use space::{BANK_WORDS, Linear, Offset, banks_of, window};
use symbols::{FixedBank, Symbols, Value};
use words::Word;

/// The superbank bit beside a bank as FB holds it.
const SUPERBANK_BIT: u16 = 0o100;

// The words of a line, the first at its location.
#[derive(Clone, Copy, Drop)]
pub(crate) enum LineWords {
    One(Word),
    Two(Word, Word),
}

impl LineWords {
    // Their complements.
    fn complemented(self) -> LineWords
        ensures { words_in result ≡ map neg (words_in self) }
    {
        match self {
            LineWords::One(word) => LineWords::One(word.neg()),
            LineWords::Two(first, second) => LineWords::Two(first.neg(), second.neg()),
        }
    }
}

impl Content {
    // As many words of zero as it gives.
    pub(crate) fn zeros(&self) -> LineWords
        ensures { words_in result ≡ replicate (width self.now) 0 }
    {
        match self {
            Content::Constant(_) => LineWords::One(Word::ZERO),
            Content::Plain(_) => LineWords::One(Word::ZERO),
            Content::Addressed(..) => LineWords::One(Word::ZERO),
            Content::FarAddress(_) => LineWords::Two(Word::ZERO, Word::ZERO),
            Content::Constants(_) => LineWords::Two(Word::ZERO, Word::ZERO),
            Content::Complemented(..) => LineWords::One(Word::ZERO),
            Content::FarComplement(_) => LineWords::Two(Word::ZERO, Word::ZERO),
            Content::BankWord(_) => LineWords::One(Word::ZERO),
        }
    }
}

// Puts words at a place and the one after it.
pub(crate) fn put_words(rope: &mut Rope, bank: FixedBank, offset: Offset, words: LineWords)
    requires room { offset + length (words_in words) ≤ bank_words }
    requires free { stands rope.old bank offset ≡ false }
    requires next_free { 1 < length (words_in words) → stands rope.old bank (offset + 1) ≡ false }
    ensures { rope.new ≡ with_words rope.old (placed_from bank offset (words_in words)) }
{
    match words {
        LineWords::One(word) => rope.put(bank.bank(), offset, word),
        LineWords::Two(first, second) => {
            let Some(next) = Offset::try_new(offset.number() + 1) else {
                unreachable!()
            };
            rope.put(bank.bank(), offset, first);
            rope.put(bank.bank(), next, second);
        }
    }
}

// Sets the words at a place and the one after it.
fn set_words(rope: &mut Rope, bank: FixedBank, offset: Offset, words: LineWords)
    requires room { offset + length (words_in words) ≤ bank_words }
    requires here { stands rope.old bank offset ≡ true }
    requires next { 1 < length (words_in words) → stands rope.old bank (offset + 1) ≡ true }
    ensures { rope.new ≡ with_words rope.old (placed_from bank offset (words_in words)) }
{
    match words {
        LineWords::One(word) => rope.set(bank.bank(), offset, word),
        LineWords::Two(first, second) => {
            let Some(next) = Offset::try_new(offset.number() + 1) else {
                unreachable!()
            };
            rope.set(bank.bank(), offset, first);
            rope.set(bank.bank(), next, second);
        }
    }
}

// Makes the words of a request, in whose places words stand, and tells its least fault.
pub(crate) fn patch(rope: &mut Rope, symbols: &Symbols, request: &WordRequest) -> Option<FaultKind>
    requires room { request.now.offset + width request.now.content ≤ bank_words }
    requires here { stands rope.old request.now.bank request.now.offset ≡ true }
    requires next { 1 < width request.now.content → stands rope.old request.now.bank (request.now.offset + 1) ≡ true }
    ensures words { rope.new ≡ with_words rope.old (placed symbols.now (request_of request.now)) }
    ensures fault { result ≡ least_kind (request_faults symbols.now (request_of request.now)) }
{
    let words = content_words(symbols, request);
    let fault = request_fault(request, &words);
    if let Ok(words) = words {
        set_words(rope, request.bank, request.offset, words);
    }
    fault
}

// The words of a request.
#[tactic(auto, unfolding(crate::specs::Words::request_words))]
pub(crate) fn content_words(
    symbols: &Symbols,
    request: &WordRequest,
) -> Result<LineWords, FaultKind>
    ensures { result_map_both words_in (λ kind. kind) result ≡ request_words symbols.now (request_of request.now) }
{
    words_at(
        symbols,
        (request.bank, request.offset),
        request.extracode,
        request.eb,
        &request.content,
    )
}

/// The words of a content at a place, where extracode is in force or is not, with an erasable bank.
pub(crate) fn words_at(
    symbols: &Symbols,
    place: (FixedBank, Offset),
    extracode: bool,
    eb: ErasableBank,
    content: &Content,
) -> Result<LineWords, FaultKind>
    ensures { result_map_both words_in (λ kind. kind) result
        ≡ content_words symbols.now (Value.Fixed place.0 place.1) extracode eb content.now }
{
    match content {
        Content::Constant(number) => Ok(LineWords::One(number.ok_or(FaultKind::OutOfRange)?)),
        Content::Plain(instruction) => {
            Ok(LineWords::One(Word::of_low_bits(instruction.code().code)))
        }
        Content::Addressed(instruction, operand) => {
            let value = known_value(symbols, place, operand)?;
            addressed_word(instruction.code(), extracode, value)
        }
        Content::FarAddress(operand) => {
            let value = known_value(symbols, place, operand)?;
            let place = fixed_place(value)?;
            Ok(far_address(eb, place.0, place.1))
        }
        Content::Constants(pair) => {
            let words = pair.ok_or(FaultKind::OutOfRange)?;
            Ok(LineWords::Two(words.first, words.second))
        }
        Content::Complemented(instruction, operand) => {
            let value = known_value(symbols, place, operand)?;
            Ok(addressed_word(instruction.code(), extracode, value)?.complemented())
        }
        Content::FarComplement(operand) => {
            let place = low_place(known_value(symbols, place, operand)?)?;
            Ok(far_address(eb, place.0, place.1).complemented())
        }
        Content::BankWord(operand) => {
            let place = low_place(known_value(symbols, place, operand)?)?;
            Ok(LineWords::One(bank_word(eb, place.0, place.1)))
        }
    }
}

// The word of a code and a value in its field, where extracode is in force or is not.
fn addressed_word(code: AddressedCode, in_force: bool, value: Value) -> Result<LineWords, FaultKind>
    requires { greatest_with_field code ≤ greatest_code }
    ensures { result_map_both words_in (λ kind. kind) result ≡ addressed_word code in_force value }
{
    let bits = code.bits.under(code.extracode, in_force);
    let field = field_of(code.takes, bits.size(), value)?;
    Ok(LineWords::One(Word::of_low_bits(code.least + field)))
}

// The value of an operand of a line whose words stand at a place.
fn known_value(
    symbols: &Symbols,
    place: (FixedBank, Offset),
    operand: &Operand,
) -> Result<Value, FaultKind>
    ensures { result ≡ value_of FaultKind.Undefined symbols.now (Value.Fixed place.0 place.1) operand.now }
{
    let here = Location::Fixed(place.0, place.1.number());
    value_of(FaultKind::Undefined, symbols, here, operand)
}

// The address of a fixed place, and what selects it, with an erasable bank.
fn far_address(eb: ErasableBank, bank: FixedBank, offset: Offset) -> LineWords
    ensures { words_in result ≡ far_address eb bank offset }
{
    let address = window(Linear::Fixed(bank.bank(), offset));
    LineWords::Two(
        Word::of_low_bits(address.number()),
        bank_word(eb, bank, offset),
    )
}

// What selects a fixed place: the bank as FB holds it, the superbank bit, and an erasable bank beside them.
#[tactic(auto, unfolding(space::specs::Places::fb_of))]
fn bank_word(eb: ErasableBank, bank: FixedBank, offset: Offset) -> Word
    ensures { result ≡ bank_word eb bank offset }
{
    let banks = banks_of(Linear::Fixed(bank.bank(), offset));
    let superbank = if banks.sup { SUPERBANK_BIT } else { 0 };
    Word::of_low_bits(banks.fb * BANK_WORDS + superbank + eb.number())
}

// What a value gives to a field of so many places.
fn field_of(takes: Takes, size: u16, value: Value) -> Result<u16, FaultKind>
    requires some { 1 ≤ size }
    requires few { size ≤ 0o10000 }
    ensures value { result ≡ field_of takes size value }
    ensures range { IfOk result (λ field. field ≤ greatest_field takes) }
{
    match takes {
        Takes::Address => address_below(size, value),
        Takes::Pair => Ok((address_below(size, value)? + 1) % size),
        Takes::FixedAddress => fixed_address(value),
        Takes::Channel => channel_in(size, value),
        Takes::ErasablePlace => erasable_place(value),
        Takes::FixedPlace => complete_place(value),
    }
}

// An address that so many bits hold.
fn address_below(size: u16, value: Value) -> Result<u16, FaultKind>
    ensures value { result ≡ address_below size value }
    ensures range { IfOk result (λ address. address < 0o10000) }
{
    let address = address_of(value)?;
    if address < size {
        Ok(address)
    } else {
        Err(FaultKind::WrongKindOfAddress)
    }
}

// An address of fixed memory.
fn fixed_address(value: Value) -> Result<u16, FaultKind>
    ensures value { result ≡ and_then (accepted (λ a. nat_le 0o2000 a)) (address_of value) }
    ensures range { IfOk result (λ address. address < 0o10000) }
{
    let address = address_of(value)?;
    if address < 0o2000 {
        Err(FaultKind::WrongKindOfAddress)
    } else {
        Ok(address)
    }
}

// The fixed place that a value names, in one word.
fn complete_place(value: Value) -> Result<u16, FaultKind>
    ensures value { result ≡ and_then (λ place. Ok (complete_address place.0 place.1)) (fixed_place value) }
    ensures range { IfOk result (λ place. place ≤ greatest_code) }
{
    let place = fixed_place(value)?;
    Ok(complete_address(place.0, place.1))
}

// The fixed place that a value names.
fn fixed_place(value: Value) -> Result<(FixedBank, Offset), FaultKind>
    ensures { result ≡ fixed_place value }
{
    match location_at(value)?.word_place() {
        Some(place) => Ok(place),
        None => Err(FaultKind::WrongKindOfAddress),
    }
}

// The place of a bank that no superbank bit selects.
fn low_place(value: Value) -> Result<(FixedBank, Offset), FaultKind>
    ensures { result ≡ and_then low_place (fixed_place value) }
{
    let place = fixed_place(value)?;
    if place.0.bank().number() < 0o30 {
        Ok(place)
    } else {
        Err(FaultKind::WrongKindOfAddress)
    }
}

// A fixed place in one word: the bank as FB holds it, then the offset.
#[tactic(auto, unfolding(space::specs::Places::fb_of))]
fn complete_address(bank: FixedBank, offset: Offset) -> u16
    ensures value { result ≡ complete_address bank offset }
    ensures range { result ≤ greatest_code }
{
    let banks = banks_of(Linear::Fixed(bank.bank(), offset));
    banks.fb * BANK_WORDS + offset.number()
}

// The address of a value: a number below 010000 is its own, and a place has its window.
fn address_of(value: Value) -> Result<u16, FaultKind>
    ensures value { result ≡ address_of value }
    ensures range { IfOk result (λ address. address < 0o10000) }
{
    match value {
        Value::Num(number) if number.to_u16() < 0o10000 => Ok(number.to_u16()),
        Value::Num(_) => Err(FaultKind::OutOfRange),
        Value::Erasable(place) => Ok(window(Linear::Erasable(place)).number()),
        Value::Fixed(bank, offset) => Ok(window(Linear::Fixed(bank.bank(), offset)).number()),
    }
}

// The number of a channel, which only a number is that its bits hold.
fn channel_in(size: u16, value: Value) -> Result<u16, FaultKind>
    ensures value { result ≡ channel_in size value }
    ensures range { IfOk result (λ channel. channel < size) }
{
    match value {
        Value::Num(number) if number.to_u16() < size => Ok(number.to_u16()),
        _ => Err(FaultKind::WrongKindOfAddress),
    }
}

// The least fault of a request that comes to words or a fault.
pub(crate) fn request_fault(
    request: &WordRequest,
    words: &Result<LineWords, FaultKind>,
) -> Option<FaultKind>
    ensures { result ≡ least_kind (standing
        (result_err (result_map_both words_in (λ kind. kind) words.now)
        ∷ extracode_fault (extracode_of request.now.content) request.now.extracode ∷ [])) }
{
    least_fault(&[
        fault_in(words),
        request.content.extracode().fault(request.extracode),
    ])
}

pub(crate) fn fault_in(words: &Result<LineWords, FaultKind>) -> Option<FaultKind>
    ensures { result ≡ result_err (result_map_both words_in (λ kind. kind) words.now) }
{
    match words {
        Ok(_) => None,
        Err(kind) => Some(*kind),
    }
}
