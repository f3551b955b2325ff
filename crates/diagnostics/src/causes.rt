//! What a fault is in words, by its cause.

ghost use Rattle.std.specs.Prelude.{◌≡◌, ◌==◌, ◌+◌, false, length, nat_le, slice_get};
ghost use Rattle.std.specs.Option.{option_map, option_map_or};
ghost use Rattle.agc_text.specs.Tables.{same_name, value_in};
ghost use Rattle.yayul.specs.Readings.{parts_in};
ghost use Rattle.diagnostics.specs.Causes.{byte_cause, near_operator, begins_with_mark, label_cause, operator_cause};
ghost use Rattle.diagnostics.specs.Causes.{digits_cause, place_cause, operand_cause, symbol_cause, undefined_cause};
ghost use Rattle.diagnostics.specs.Causes.{definition_cause, definition_cure, is_another_form, early_cause};
ghost use Rattle.diagnostics.specs.Causes.{below_cause, bank_cause, room_cause, kind_cause, range_cause, cause_of_kind};
ghost use Rattle.diagnostics.specs.Causes.{fault_cause, near_label, said, cured, cured_by, holds};
ghost use Rattle.warnings.specs.Fields.{text_of, begins};
ghost use Rattle.diagnostics.specs.Causes.{holds_sign, is_label, is_octal_bank, is_decimal_bank};
ghost use Rattle.warnings.specs.Fields.{is_signed};
ghost use Rattle.diagnostics.specs.Causes.{has_parted_offset, lists_numbers, without_colon, long_cause};
ghost use Rattle.diagnostics.specs.Causes.{is_foreign_comment, has_foreign_comment, is_beyond_octal, foreign_operators};
ghost use Rattle.diagnostics.specs.Views.{cause_in, entries};

use crate::caret::front;
use crate::operators::near_operator;
use agc_text::{LINE_LENGTH, Number, decimal_value, octal_value};
use explain::meaning;
use near_names::{NameSet, is_short};
use symbols::register_place;
use warnings::{Class, begins, is_signed, text_of};
use yayul::{FaultKind, Finding, Language, Reading, is_digits, is_operator};

/// What is wrong, how it is mended or nothing, and a text that stands in either; and whether `--flight` takes what
/// stands there. Marks stand for the fields of the line:
/// `&` for the label, `%` for the operator, `@` for the operand, `!` for the other text, `~` for a text from other
/// lines,
/// `^` for the line that it is the number of.
#[derive(Clone, Copy, Drop)]
pub(crate) struct Cause {
    /// What is wrong.
    pub(crate) words: &'static [u8],
    /// How it is mended; empty where that is not sure.
    pub(crate) cure: &'static [u8],
    /// The other text.
    pub(crate) other: &'static [u8],
    /// Whether `--flight` takes what stands there.
    pub(crate) flight: bool,
}

impl Cause {
    /// A cause without a cure.
    pub(crate) fn said(words: &'static [u8]) -> Cause
        ensures { cause_in result ≡ said words.now }
    {
        Cause::cured(words, b"")
    }

    /// A cause with a cure.
    pub(crate) fn cured(words: &'static [u8], cure: &'static [u8]) -> Cause
        ensures { cause_in result ≡ cured words.now cure.now }
    {
        Cause::cured_by(words, cure, b"")
    }

    /// A cause with a cure in which another text stands.
    pub(crate) fn cured_by(words: &'static [u8], cure: &'static [u8], other: &'static [u8]) -> Cause
        ensures { cause_in result ≡ cured_by words.now cure.now other.now }
    {
        Cause {
            words,
            cure,
            other,
            flight: false,
        }
    }

    /// The same, but not the name of a label with a colon for a symbol that has none.
    pub(crate) fn without_colon(self, near: &[u8], parts: &Reading<'_>) -> Cause
        ensures { cause_in result ≡ without_colon near.now (parts_in parts.now) (cause_in self) }
    {
        if holds(b':', near) && !holds(b':', text_of(parts.operand)) {
            Cause::cured(
                self.words,
                b"~ is one name, its colon too; a label has no colon",
            )
        } else {
            self
        }
    }
}

/// A fault of a line with some fields in words, where a text from other lines stands for `~` or none does.
#[tactic(auto, unfolding(crate::specs::Causes::cause_of_kind))]
pub(crate) fn fault_cause(text: &[u8], parts: &Reading<'_>, near: bool, finding: &Finding) -> Cause
    ensures { cause_in result ≡ fault_cause near text.now (parts_in parts.now) finding.now }
{
    match finding.kind {
        FaultKind::NotAscii => byte_cause(text, finding.span.start),
        FaultKind::LongLine => long_cause(text),
        FaultKind::BadLabel => label_cause(parts),
        FaultKind::TwiceDefined if near => Cause::said(b"line ~ has the label & already"),
        FaultKind::TwiceDefined => Cause::said(b"an earlier line has the label &"),
        FaultKind::UnknownOperator => operator_cause(parts),
        FaultKind::BadOperand => operand_cause(parts),
        FaultKind::Undefined => undefined_cause(near, parts),
        FaultKind::UsedTooEarly => early_cause(near, parts),
        FaultKind::BadBank => bank_cause(parts),
        FaultKind::BankFull => room_cause(parts),
        FaultKind::PlaceTaken if near => Cause::said(b"line ~ has a word at this place already"),
        FaultKind::CodeInErasable => Cause::cured(
            meaning(22),
            b"SETLOC and a fixed place, or BANK, before it",
        ),
        FaultKind::NeedsExtend => Cause::cured(
            b"% is an extracode, and EXTEND does not stand before it",
            b"EXTEND on the line before, behind a blank",
        ),
        FaultKind::NotExtracode => Cause::cured(
            b"EXTEND stands before %, which is no extracode",
            b"take EXTEND out",
        ),
        FaultKind::WrongKindOfAddress => kind_cause(parts),
        FaultKind::OutOfRange => range_cause(parts),
        FaultKind::NoMemory | FaultKind::TooManyLines | FaultKind::PlaceTaken => {
            Cause::said(meaning(finding.kind.number()))
        }
    }
}

/// The label that is near to the symbol of a fault which no line, or no earlier one, defines; none where a later line
/// does.
pub(crate) fn near_label<'a>(
    labels: &'a NameSet,
    parts: &Reading<'_>,
    kind: FaultKind,
) -> Option<&'a [u8]>
    ensures { option_map (λ name. name.now) result ≡ near_label labels.now (parts_in parts.now) kind }
{
    let symbol = text_of(parts.operand);
    match kind {
        FaultKind::Undefined | FaultKind::UsedTooEarly if !labels.has(symbol) => {
            labels.near(symbol)
        }
        _ => None,
    }
}

/// E10: the byte at a place of a line.
pub(crate) fn byte_cause(text: &[u8], place: usize) -> Cause
    ensures { cause_in result ≡ byte_cause text.now place }
{
    if place == 0 && begins_with_mark(text) {
        Cause::cured(
            b"a byte order mark stands in front of the line, and a line holds ASCII alone",
            b"tail -c +4 FILE > NEW",
        )
    } else if stands_at(b'\r', text, place) {
        if ends_at(text, place) {
            Cause::said(b"a carriage return ends the line; only a line feed may")
        } else {
            Cause::said(b"a carriage return stands in the line")
        }
    } else if stands_at(0o14, text, place) {
        Cause::said(b"a form feed stands in the line")
    } else if is_beyond_ascii(text, place) {
        Cause::said(b"this byte is not ASCII, and a line holds ASCII alone, its comment too")
    } else {
        Cause::said(b"this byte is no character that prints, no blank and no tab")
    }
}

// A byte stands at a place of a text.
fn stands_at(byte: u8, text: &[u8], place: usize) -> bool
    ensures { result ≡ option_map_or (λ other. other == byte) (slice_get text.now place) false }
{
    match text.get(place) {
        Some(other) => *other == byte,
        None => false,
    }
}

// A text ends after a place.
fn ends_at(text: &[u8], place: usize) -> bool
    ensures { result ≡ (place + 1 == length text.now) }
{
    place < text.len() && place + 1 == text.len()
}

// What stands at a place of a text is no byte of ASCII.
fn is_beyond_ascii(text: &[u8], place: usize) -> bool
    ensures { result ≡ option_map_or (λ byte. nat_le 0o200 byte) (slice_get text.now place) false }
{
    match text.get(place) {
        Some(byte) => *byte >= 0o200,
        None => false,
    }
}

// The bytes of a byte order mark stand in front.
fn begins_with_mark(text: &[u8]) -> bool
    ensures { result ≡ begins_with_mark text.now }
{
    match text {
        [a, b, c, ..] => *a == 0o357 && *b == 0o273 && *c == 0o277,
        _ => false,
    }
}

/// E11: a line that is too long; a comment that begins where a line may still go on can be parted.
pub(crate) fn long_cause(text: &[u8]) -> Cause
    ensures { cause_in result ≡ long_cause text.now }
{
    if holds(b'#', front(text, LINE_LENGTH)) {
        Cause::cured(meaning(11), b"part the comment into two lines")
    } else {
        Cause::said(meaning(11))
    }
}

// E13: a label that is missing, is not taken or has no label's form.
fn label_cause(parts: &Reading<'_>) -> Cause
    ensures { cause_in result ≡ label_cause (parts_in parts.now) }
{
    if parts.label.is_none() {
        Cause::cured(
            b"% gives a name its value, and no name stands in the first column",
            b"NAME % @",
        )
    } else if Class::RefusesLabel.has(parts.role) {
        if is_label(text_of(parts.label)) {
            Cause::cured(b"% takes no label", b"put & on the next line")
        } else {
            Cause::said(b"% takes no label")
        }
    } else if holds(b'$', text_of(parts.label)) {
        Cause::said(b"& has a $, which no label may have")
    } else if is_signed(text_of(parts.label)) {
        Cause::said(b"& begins with a sign, as no label may")
    } else if is_short(text_of(parts.label)) {
        Cause::said(b"& is a number, and no label")
    } else {
        Cause::said(b"& has more than 8 characters, the most of a label")
    }
}

// E15: what is no operator.
fn operator_cause(parts: &Reading<'_>) -> Cause
    ensures { cause_in result ≡ operator_cause (parts_in parts.now) }
{
    if is_operator(Language::Standard, text_of(parts.label)) {
        Cause::cured(
            b"& stands in the first column, so it is a label, and % is taken for the operator",
            b"put a blank before &",
        )
    } else if is_foreign_comment(text_of(parts.operator)) {
        Cause::cured(b"% is no operator", b"a comment begins with #")
    } else if parts.label.is_none() && is_operator(Language::Standard, text_of(parts.operand)) {
        Cause::cured(
            b"% is no operator",
            b"a label begins in the first column: no blank before %",
        )
    } else if let Some(meant) = value_in(foreign_operators(), text_of(parts.operator)) {
        Cause::cured_by(b"% is no operator of this assembler", b"!", meant)
    } else if let Some(near) = near_operator(text_of(parts.operator)) {
        Cause::cured_by(b"% is no operator", b"did you mean !?", near)
    } else {
        Cause::said(b"% is no operator")
    }
}

// E16, of an operator that takes digits, or a bank.
fn digits_cause(parts: &Reading<'_>) -> Cause
    ensures { cause_in result ≡ digits_cause (parts_in parts.now) }
{
    if lists_numbers(parts) {
        Cause::cured(
            b"% takes one number, and nothing after it",
            b"a line for each number",
        )
    } else if parts.offset.is_some() {
        Cause::cured(
            b"% takes one number, and nothing after it",
            b"a comment begins with #",
        )
    } else if Class::Octal.has(parts.role) && is_signed(text_of(parts.operand)) {
        Cause::cured(
            b"OCT takes no sign",
            b"DEC takes one; a minus complements the word",
        )
    } else if Class::Octal.has(parts.role) {
        Cause::cured(
            b"OCT takes octal digits, 0 to 7, and @ is no such number",
            b"DEC takes decimal digits",
        )
    } else if Class::Decimal.has(parts.role) {
        Cause::said(
            b"DEC takes a whole number, or a fraction of 1 to 9 decimals as .75, and @ is neither",
        )
    } else if is_beyond_octal(text_of(parts.operand)) {
        if is_decimal_bank(parts) && !Class::Block.has(parts.role) {
            Cause::cured(
                b"banks are octal, and @ has a digit 8 or 9",
                b"% @D takes it as decimal",
            )
        } else {
            Cause::said(b"banks are octal, and @ has a digit 8 or 9")
        }
    } else {
        Cause::said(b"% takes a bank's number, and @ is none")
    }
}

// E16, of an operator that takes a place or a value.
fn place_cause(parts: &Reading<'_>) -> Cause
    ensures { cause_in result ≡ place_cause (parts_in parts.now) }
{
    if has_parted_offset(parts) {
        Cause::cured(
            b"after @ only an offset may stand, a sign and an octal number",
            b"no blank stands between both",
        )
    } else if parts.more {
        Cause::cured(
            b"after the operand only one offset may stand",
            b"a comment begins with #",
        )
    } else if is_beyond_octal(text_of(parts.operand)) {
        Cause::cured(
            b"numbers are octal, and @ has a digit 8 or 9",
            b"@D is decimal",
        )
    } else if is_signed(text_of(parts.operand)) {
        Cause::cured(
            b"@ is no sign with a number, which stands alone and moves on from this line",
            b"NAME +1 is the word after NAME; CS loads a complement",
        )
    } else if parts.offset.is_some() {
        Cause::cured(
            b"after @ only an offset may stand, a sign and an octal number",
            b"NAME +1; a comment begins with #",
        )
    } else if holds(b'$', text_of(parts.operand)) {
        Cause::said(b"@ has a $, which no symbol may have")
    } else {
        Cause::said(b"@ is no symbol, which has 8 characters at most, and no number")
    }
}

// E16: an operand that is missing, is not taken or has no operand's form.
fn operand_cause(parts: &Reading<'_>) -> Cause
    ensures { cause_in result ≡ operand_cause (parts_in parts.now) }
{
    if has_foreign_comment(parts) {
        Cause::cured(
            b"the operand does not end where a comment was meant to begin",
            b"a comment begins with #",
        )
    } else if Class::TakesNothing.has(parts.role) {
        Cause::cured(b"% takes no operand", b"a comment begins with #")
    } else if Class::Erase.has(parts.role) {
        Cause::cured(
            b"ERASE takes nothing, or a plus sign and a number",
            b"ERASE reserves one word, ERASE +1 two",
        )
    } else if parts.operand.is_none() {
        Cause::said(b"% needs an operand")
    } else if Class::Octal.has(parts.role)
        || Class::Decimal.has(parts.role)
        || Class::NamesBank.has(parts.role)
    {
        digits_cause(parts)
    } else {
        place_cause(parts)
    }
}

// E17: a symbol that no line defines.
fn undefined_cause(near: bool, parts: &Reading<'_>) -> Cause
    ensures { cause_in result ≡ undefined_cause near (parts_in parts.now) }
{
    if near || is_another_form(parts) {
        symbol_cause(b"no line defines @", near, parts)
    } else {
        definition_cause(parts)
    }
}

// Whether a symbol is a register's name, or is told by a byte in it to be meant otherwise.
fn is_another_form(parts: &Reading<'_>) -> bool
    ensures { result ≡ is_another_form (parts_in parts.now) }
{
    let symbol = text_of(parts.operand);
    register_place(symbol).is_some()
        || holds(b',', symbol)
        || begins(b'=', symbol)
        || holds_sign(symbol)
        || holds(b':', symbol)
}

// E17: how a symbol is defined, by the operator that takes it.
fn definition_cause(parts: &Reading<'_>) -> Cause
    ensures { cause_in result ≡ definition_cause (parts_in parts.now) }
{
    Cause::cured(b"no line defines @", definition_cure(parts))
}

fn definition_cure(parts: &Reading<'_>) -> &'static [u8]
    ensures { result.now ≡ definition_cure (parts_in parts.now) }
{
    if Class::WritesErasable.has(parts.role) || Class::ReadsErasable.has(parts.role) {
        b"@ ERASE, among lines after SETLOC 100, reserves a word of this name"
    } else if Class::TakesChannel.has(parts.role) {
        b"@ EQUALS and an octal number give a channel this name"
    } else if Class::LeadsOnTo.has(parts.role) {
        b"@ in the first column of the line to which % is to lead"
    } else if Class::Reads.has(parts.role) {
        b"of a number: @ DEC 5, behind the last jump, and of a word that changes: @ ERASE, after SETLOC 100"
    } else {
        b""
    }
}

// E18: a symbol that no earlier line defines.
fn early_cause(near: bool, parts: &Reading<'_>) -> Cause
    ensures { cause_in result ≡ early_cause near (parts_in parts.now) }
{
    symbol_cause(
        b"% needs the value of @ here, and no earlier line defines it",
        near,
        parts,
    )
}

// E17 and E18: a symbol that no line, or no earlier one, defines.
pub(crate) fn symbol_cause(words: &'static [u8], near: bool, parts: &Reading<'_>) -> Cause
    ensures { cause_in result ≡ symbol_cause words.now near (parts_in parts.now) }
{
    if let Some(place) = register_place(text_of(parts.operand)) {
        let cure = b"no register has a name beforehand; this line gives it one: @ EQUALS !";
        Cause::cured_by(words, cure, place)
    } else if holds(b',', text_of(parts.operand)) {
        Cause::cured(
            words,
            b"@ is one name; INDEX on the line before adds to an address",
        )
    } else if begins(b'=', text_of(parts.operand)) {
        Cause::cured(
            words,
            b"a constant has a line of its own, whose label is the operand",
        )
    } else if holds_sign(text_of(parts.operand)) {
        Cause::cured(words, b"@ is one name; a blank stands before an offset")
    } else if near {
        Cause::cured(words, b"did you mean ~?")
    } else if holds(b':', text_of(parts.operand)) {
        Cause::cured(words, b"@ is one name, its colon too; a label has no colon")
    } else {
        Cause::said(words)
    }
}

/// E18: a symbol that a line below defines, the number of which stands for `~`.
pub(crate) fn below_cause() -> Cause
    ensures { cause_in result ≡ below_cause }
{
    Cause::said(b"% needs the value of @ here, and line ~ defines it, which is below")
}

// E19: a bank that the operator does not take.
fn bank_cause(parts: &Reading<'_>) -> Cause
    ensures { cause_in result ≡ bank_cause (parts_in parts.now) }
{
    if Class::Block.has(parts.role) {
        if is_octal_bank(parts) {
            Cause::cured(b"BLOCK takes 2 and 3, and @ is neither", b"BANK @")
        } else {
            Cause::said(b"BLOCK takes 2 and 3, and @ is neither")
        }
    } else {
        Cause::said(b"banks are 0 to 43 in octal, and @ is none")
    }
}

// E20: past the end.
fn room_cause(parts: &Reading<'_>) -> Cause
    ensures { cause_in result ≡ room_cause (parts_in parts.now) }
{
    if Class::Erase.has(parts.role) {
        Cause::said(b"ERASE passes the end of erasable memory, 3777")
    } else if parts.operator.is_none() {
        Cause::said(b"& stands past the end of its bank, or of erasable memory")
    } else {
        Cause::cured(
            b"this stands past the last word of its bank, or of erasable memory",
            b"go on in another bank: BANK or SETLOC",
        )
    }
}

// E25: another kind of place, or a channel.
fn kind_cause(parts: &Reading<'_>) -> Cause
    ensures { cause_in result ≡ kind_cause (parts_in parts.now) }
{
    if Class::Erase.has(parts.role) {
        Cause::cured(
            b"ERASE reserves erasable words, and the location is in fixed memory",
            b"SETLOC and a place below 4000 before it",
        )
    } else if Class::TakesChannel.has(parts.role) {
        Cause::said(b"% takes a channel, 0 to 777, and @^ is none")
    } else if Class::TakesErasablePlace.has(parts.role) {
        Cause::said(b"% takes an erasable place, and @^ is none")
    } else if Class::TakesFixedPlace.has(parts.role) {
        Cause::said(b"% takes a fixed place, and @^ is none")
    } else if Class::LeadsToFixed.has(parts.role) {
        Cause::said(b"% leads to fixed memory, 2000 and up, and @^ is not there")
    } else if Class::WritesErasable.has(parts.role) {
        Cause::cured(
            b"% writes to erasable memory, and @^ is not there",
            b"reserve the word there: SETLOC and a place below 4000, and ERASE",
        )
    } else if Class::Subtracts.has(parts.role) {
        Cause::cured(
            b"% takes a word of erasable memory, and @^ is not there",
            b"CS @ and AD subtract a constant: X less @ is CS @, AD X, without EXTEND",
        )
    } else if Class::ReadsErasable.has(parts.role) {
        Cause::cured(
            b"% takes a word of erasable memory, and @^ is not there",
            b"copy the word to erasable memory first",
        )
    } else {
        Cause::said(meaning(25))
    }
}

// E26: a number out of its range.
fn range_cause(parts: &Reading<'_>) -> Cause
    ensures { cause_in result ≡ range_cause (parts_in parts.now) }
{
    if Class::Octal.has(parts.role) {
        Cause::said(b"a word holds 77777 at most, and @ is more")
    } else if Class::Decimal.has(parts.role) && holds(b'.', text_of(parts.operand)) {
        Cause::said(b"a fraction of a word comes to less than 1 in 14 bits, and @ does not")
    } else if Class::Decimal.has(parts.role) {
        Cause::said(b"a word holds -16383 to 16383, and @ is beyond")
    } else if Class::TakesNothing.has(parts.role) {
        Cause::said(b"% goes to the next word, and this is the last of its bank")
    } else if parts.offset.is_some() || is_signed(text_of(parts.operand)) {
        Cause::said(b"this leads out of its bank, or of the numbers")
    } else {
        Cause::said(b"@ is past the last address or number")
    }
}

// Whether a text holds a byte.
pub(crate) fn holds(byte: u8, text: &[u8]) -> bool
    ensures { result ≡ holds byte text.now }
{
    text.contains(&byte)
}

// Whether a plus or a minus sign stands behind the first byte.
fn holds_sign(text: &[u8]) -> bool
    ensures { result ≡ holds_sign text.now }
{
    let rest = &text[text.len().min(1)..];
    holds(b'+', rest) || holds(b'-', rest)
}

// Whether a text has the form of a label.
fn is_label(text: &[u8]) -> bool
    ensures { result ≡ is_label text.now }
{
    is_short(text) && !holds(b'$', text) && !is_signed(text) && !is_digits(text)
}

// Whether the operand is a bank in octal.
fn is_octal_bank(parts: &Reading<'_>) -> bool
    ensures { result ≡ is_octal_bank (parts_in parts.now) }
{
    matches!(octal_value(text_of(parts.operand)), Some(Number::Small(bank)) if bank < 0o44)
}

// Whether the operand is a bank in decimal digits.
fn is_decimal_bank(parts: &Reading<'_>) -> bool
    ensures { result ≡ is_decimal_bank (parts_in parts.now) }
{
    matches!(decimal_value(text_of(parts.operand)), Some(Number::Small(bank)) if bank < 0o44)
}

// Whether the offset is a sign, behind which a field stands.
fn has_parted_offset(parts: &Reading<'_>) -> bool
    ensures { result ≡ has_parted_offset (parts_in parts.now) }
{
    let offset = text_of(parts.offset);
    parts.more && (offset == b"+".as_slice() || offset == b"-".as_slice())
}

// Whether several numbers stand for one: with a comma behind the first, or with blanks between them.
fn lists_numbers(parts: &Reading<'_>) -> bool
    ensures { result ≡ lists_numbers (parts_in parts.now) }
{
    (Class::Octal.has(parts.role) || Class::Decimal.has(parts.role))
        && (holds(b',', text_of(parts.operand)) || is_digits(text_of(parts.offset)))
}

/// Whether a text begins as comments in other languages do.
pub(crate) fn is_foreign_comment(text: &[u8]) -> bool
    ensures { result ≡ is_foreign_comment text.now }
{
    begins(b';', text) || begins(b'/', text)
}

// Whether such a comment stands for the operand or the offset.
pub(crate) fn has_foreign_comment(parts: &Reading<'_>) -> bool
    ensures { result ≡ has_foreign_comment (parts_in parts.now) }
{
    is_foreign_comment(text_of(parts.operand)) || is_foreign_comment(text_of(parts.offset))
}

/// Whether a text is decimal digits, one of them 8 or 9.
pub(crate) fn is_beyond_octal(text: &[u8]) -> bool
    ensures { result ≡ is_beyond_octal text.now }
{
    decimal_value(text).is_some() && octal_value(text).is_none()
}

/// What stands for a text in a table.
pub(crate) fn value_in(
    table: &'static [(&'static str, &'static str)],
    text: &[u8],
) -> Option<&'static [u8]>
    ensures { option_map (λ value. value.now) result ≡ value_in (entries table.now) text.now }
{
    for (name, value) in table {
        if is_same(text, name.as_bytes()) {
            return Some(value.as_bytes());
        }
    }
    None
}

// Whether two texts are the same: most are not by their first byte alone.
#[inline(always)]
fn is_same(text: &[u8], name: &[u8]) -> bool
    ensures { result ≡ same_name text.now name.now }
{
    match (text, name) {
        ([a, ..], [b, ..]) if a != b => false,
        _ => text == name,
    }
}

const FOREIGN_OPERATORS: [(&str, &str); 27] = [
    ("ORG", "SETLOC sets the location"),
    ("EQU", "EQUALS gives a name its value"),
    ("LDA", "CA loads A"),
    ("LOAD", "CA loads A"),
    ("LD", "CA loads A"),
    ("MOV", "CA loads A, and TS stores it"),
    ("STA", "TS stores A"),
    ("STORE", "TS stores A"),
    ("ST", "TS stores A"),
    ("JMP", "TCF goes on in fixed memory, TC anywhere"),
    ("GOTO", "TCF goes on in fixed memory, TC anywhere"),
    ("BRA", "TCF goes on in fixed memory, TC anywhere"),
    ("JSR", "TC calls a routine"),
    ("CALL", "TC calls a routine"),
    ("RTS", "RETURN goes back"),
    ("RET", "RETURN goes back"),
    ("NOP", "NOOP does nothing"),
    ("ADD", "AD adds a word to A"),
    (
        "SUB",
        "SU, an extracode, subtracts a word of erasable memory; CS and AD subtract any",
    ),
    ("MUL", "MP, an extracode, multiplies"),
    ("DIV", "DV, an extracode, divides"),
    ("AND", "MASK leaves the bits that both words have"),
    ("DC", "OCT or DEC makes a word"),
    ("DW", "OCT or DEC makes a word"),
    ("DS", "ERASE reserves a word"),
    ("2DEC", "two words: a DEC for each"),
    ("2OCT", "two words: an OCT for each"),
];

fn foreign_operators() -> &'static [(&'static str, &'static str)]
    ensures { entries result.now ≡ foreign_operators }
{
    &FOREIGN_OPERATORS
}
