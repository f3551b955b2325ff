//! What a fault of a flight source is in words, where these are others than those of the standard language.

ghost use Rattle.std.specs.Prelude.{◌≡◌, [], false, nat_le, unwrap_or};
ghost use Rattle.std.specs.Option.{option_map_or};
ghost use Rattle.agc_text.specs.Digits.{digits_value};
ghost use Rattle.agc_text.specs.Tables.{value_in};
ghost use Rattle.yayul.specs.Readings.{parts_in};
ghost use Rattle.diagnostics.specs.FlightCauses.{unsure_operators, form_cause, signed_label_cause};
ghost use Rattle.diagnostics.specs.FlightCauses.{has_signed_label, has_signed_alone, decimal_cause};
ghost use Rattle.diagnostics.specs.FlightCauses.{flight_operand_cause, flight_label_cause, flight_operator_cause};
ghost use Rattle.diagnostics.specs.FlightCauses.{flight_early_cause, waiting_cause, flight_kind_cause, is_moved_back};
ghost use Rattle.diagnostics.specs.FlightCauses.{is_between_banks, flight_range_cause, flight_cause};
ghost use Rattle.diagnostics.specs.FlightCauses.{alternatives, is_moved_far, is_of_form, told_cause};
ghost use Rattle.diagnostics.specs.Report.{flight_clause};
ghost use Rattle.diagnostics.specs.Views.{cause_in, entries};

use crate::causes::{
    Cause, fault_cause, has_foreign_comment, holds, is_beyond_octal, symbol_cause, value_in,
};
use agc_text::{Number, decimal_value, octal_value};
use near_names::is_short;
use warnings::{Class, begins, is_signed, text_of};
use yayul::{FaultKind, Finding, Language, Reading, has_flight_form, is_count};

/// A fault of a line of a language in words, where a text from other lines stands for `~` or none does.
pub(crate) fn told_cause(
    language: Language,
    near: bool,
    text: &[u8],
    parts: &Reading<'_>,
    finding: &Finding,
) -> Cause
    ensures { cause_in result ≡ told_cause language near text.now (parts_in parts.now) finding.now }
{
    match language {
        Language::Standard => fault_cause(text, parts, near, finding).with_flight(
            is_of_form(finding.kind) && has_flight_form(text),
        ),
        Language::Flight => flight_cause(near, text, parts, finding),
    }
}

// Whether a fault is one of a line's form: its length, its label, its operator or its operand.
fn is_of_form(kind: FaultKind) -> bool
    ensures { result ≡ is_of_form kind }
{
    matches!(
        kind,
        FaultKind::LongLine
            | FaultKind::BadLabel
            | FaultKind::UnknownOperator
            | FaultKind::BadOperand
    )
}

impl Cause {
    // The same cause of what `--flight` takes, or does not.
    fn with_flight(self, flight: bool) -> Cause
        ensures { cause_in result ≡ record (cause_in self) { flight = flight } }
    {
        let mut cause = self;
        cause.flight = flight;
        cause
    }

    /// That `--flight` takes what stands there, behind a cure or alone.
    pub(crate) fn flight_clause(&self) -> &'static [u8]
        ensures { result.now ≡ flight_clause (cause_in self.now) }
    {
        match (self.flight, self.cure.is_empty()) {
            (false, _) => b"",
            (true, true) => b"with --flight this is taken",
            (true, false) => b"; with --flight this is taken",
        }
    }
}

// A fault of a line of a flight source in words.
fn flight_cause(near: bool, text: &[u8], parts: &Reading<'_>, finding: &Finding) -> Cause
    ensures { cause_in result ≡ flight_cause near text.now (parts_in parts.now) finding.now }
{
    match finding.kind {
        FaultKind::LongLine => {
            Cause::said(b"the line has more than 120 bytes before its comment")
        }
        FaultKind::TooManyLines => Cause::said(b"the source has more than 262144 lines"),
        FaultKind::BadLabel => flight_label_cause(near, text, parts, finding),
        FaultKind::UnknownOperator => flight_operator_cause(near, text, parts, finding),
        FaultKind::BadOperand => flight_operand_cause(near, text, parts, finding),
        FaultKind::UsedTooEarly => flight_early_cause(near, text, parts, finding),
        FaultKind::WrongKindOfAddress => flight_kind_cause(near, text, parts, finding),
        FaultKind::OutOfRange => flight_range_cause(near, text, parts, finding),
        _ => fault_cause(text, parts, near, finding),
    }
}

// E13: a label without a label's form.
fn flight_label_cause(near: bool, text: &[u8], parts: &Reading<'_>, finding: &Finding) -> Cause
    ensures { cause_in result ≡ flight_label_cause near text.now (parts_in parts.now) finding.now }
{
    if has_signed_label(parts) {
        signed_label_cause(parts)
    } else {
        fault_cause(text, parts, near, finding)
    }
}

// E15: what is no operator.
fn flight_operator_cause(near: bool, text: &[u8], parts: &Reading<'_>, finding: &Finding) -> Cause
    ensures { cause_in result ≡ flight_operator_cause near text.now (parts_in parts.now) finding.now }
{
    if let Some(cure) = value_in(unsure_operators(), text_of(parts.operator)) {
        Cause::cured_by(
            b"% is not taken, since it is not sure what yaYUL makes of it: perhaps !",
            cure,
            alternative_of(text_of(parts.operator)),
        )
    } else {
        fault_cause(text, parts, near, finding)
    }
}

// What yaYUL makes of an operator, perhaps.
fn alternative_of(operator: &[u8]) -> &'static [u8]
    ensures { result.now ≡ unwrap_or (value_in alternatives operator.now) [] }
{
    match value_in(alternatives(), operator) {
        Some(alternative) => alternative,
        None => b"",
    }
}

// E18: a symbol that has no value where it is asked for.
fn flight_early_cause(near: bool, text: &[u8], parts: &Reading<'_>, finding: &Finding) -> Cause
    ensures { cause_in result ≡ flight_early_cause near text.now (parts_in parts.now) finding.now }
{
    if Class::Equals.has(parts.role) {
        waiting_cause(near, parts)
    } else {
        fault_cause(text, parts, near, finding)
    }
}

// E13: a label that has a sign and no name's form.
fn signed_label_cause(parts: &Reading<'_>) -> Cause
    ensures { cause_in result ≡ signed_label_cause (parts_in parts.now) }
{
    if is_short(text_of(parts.label)) {
        Cause::said(b"& is a sign alone, and no label")
    } else {
        Cause::said(b"& has more than 8 characters, the most of a label")
    }
}

fn has_signed_label(parts: &Reading<'_>) -> bool
    ensures { result ≡ has_signed_label (parts_in parts.now) }
{
    is_signed(text_of(parts.label))
        && !Class::RefusesLabel.has(parts.role)
        && !holds(b'$', text_of(parts.label))
}

// E16 of a decimal constant.
fn decimal_cause(parts: &Reading<'_>) -> Cause
    ensures { cause_in result ≡ decimal_cause (parts_in parts.now) }
{
    if decimal_value(text_of(parts.operand)).is_some() && begins(b'E', text_of(parts.offset)) {
        Cause::cured(
            b"digits with E need a point or B: whether yaYUL makes a whole number of them or a fraction is not known for \
                sure",
            b"B-28 last makes a whole number of two words, B-14 of one",
        )
    } else {
        Cause::said(b"this is no decimal constant, as .75, 5 B-14 and 1.5 E3 B-14 are")
    }
}

// E16 of an operand.
fn flight_operand_cause(near: bool, text: &[u8], parts: &Reading<'_>, finding: &Finding) -> Cause
    ensures { cause_in result ≡ flight_operand_cause near text.now (parts_in parts.now) finding.now }
{
    if has_foreign_comment(parts) {
        fault_cause(text, parts, near, finding)
    } else if Class::Erase.has(parts.role) {
        Cause::cured(
            b"ERASE takes nothing, or a plus sign and a number: of a range perhaps all words (60 to 90 in 100)",
            b"ERASE reserves one word, ERASE +1 two",
        )
    } else if Class::NamesBank.has(parts.role) && parts.operand.is_none() {
        Cause::said(
            b"% without a bank goes on in that of the location, which is in erasable memory",
        )
    } else if parts.operand.is_none() {
        fault_cause(text, parts, near, finding)
    } else {
        form_cause(near, text, parts, finding)
    }
}

// E16 of an operand that stands and has not the form that is asked for.
fn form_cause(near: bool, text: &[u8], parts: &Reading<'_>, finding: &Finding) -> Cause
    ensures { cause_in result ≡ form_cause near text.now (parts_in parts.now) finding.now }
{
    if Class::TakesDecimal.has(parts.role) {
        decimal_cause(parts)
    } else if Class::Octal.has(parts.role) && parts.offset.is_none() {
        Cause::cured(
            b"% takes octal digits, 0 to 7, or a sign and such digits, and @ is neither",
            b"DEC takes decimal digits",
        )
    } else if Class::OctalPair.has(parts.role) {
        Cause::said(
            b"2OCT takes ten octal digits, 0 to 7, in one field: fewer perhaps with zeros before them (85 in 100)",
        )
    } else if Class::VerbNoun.has(parts.role) {
        Cause::said(
            b"VN takes four decimal digits, two of the verb and two of the noun: fewer perhaps with zeros before \
                them (85 in 100)",
        )
    } else if has_signed_alone(parts) {
        Cause::said(b"@ is no symbol, which has 8 characters at most, and no number")
    } else if is_beyond_octal(text_of(parts.operand)) {
        Cause::cured(
            b"numbers are octal, and @ has a digit 8 or 9: perhaps it is decimal (60 in 100)",
            b"@D is decimal",
        )
    } else {
        fault_cause(text, parts, near, finding)
    }
}

// Whether the operand has a sign and is no count, and no offset stands.
fn has_signed_alone(parts: &Reading<'_>) -> bool
    ensures { result ≡ has_signed_alone (parts_in parts.now) }
{
    is_signed(text_of(parts.operand)) && !is_count(text_of(parts.operand)) && parts.offset.is_none()
}

// E18 of a name that waits.
fn waiting_cause(near: bool, parts: &Reading<'_>) -> Cause
    ensures { cause_in result ≡ waiting_cause near (parts_in parts.now) }
{
    symbol_cause(
        b"@ has no value: no line defines it, or names wait for one another in a circle, or in a chain of more than \
            eight",
        near,
        parts,
    )
}

// E25: another kind of place, or a channel.
fn flight_kind_cause(near: bool, text: &[u8], parts: &Reading<'_>, finding: &Finding) -> Cause
    ensures { cause_in result ≡ flight_kind_cause near text.now (parts_in parts.now) finding.now }
{
    if Class::TakesLowBank.has(parts.role) {
        Cause::said(
            b"% takes a fixed place of a bank below 30, and @^ is none: from bank 30 on yaYUL perhaps adds 060 \
                (65 in 100)",
        )
    } else if Class::CountComplement.has(parts.role) {
        Cause::said(b"% takes a word of erasable memory, and @^ is not there")
    } else {
        fault_cause(text, parts, near, finding)
    }
}

// E26: a number out of its range.
fn flight_range_cause(near: bool, text: &[u8], parts: &Reading<'_>, finding: &Finding) -> Cause
    ensures { cause_in result ≡ flight_range_cause near text.now (parts_in parts.now) finding.now }
{
    if Class::TakesDecimal.has(parts.role) {
        Cause::said(
            b"this is more than % holds: yaYUL perhaps makes the greatest of it (85 in 100, of DEC 70)",
        )
    } else if Class::Octal.has(parts.role) {
        Cause::said(b"a word holds 77777 at most, and @ is more")
    } else if is_moved_back(parts) {
        Cause::said(
            b"an address below 0 is not taken: what yaYUL makes of it is not known for sure",
        )
    } else if is_between_banks(parts) {
        Cause::said(
            b"@ names no place: from 14000 to 17777 the order of the banks is not known for sure",
        )
    } else if is_moved_far(parts) {
        Cause::said(
            b"this leads out of its bank: less the number of a place it is perhaps an offset (88 in 100)",
        )
    } else if octal_value(text_of(parts.operand)).is_none() && parts.offset.is_none() {
        Cause::said(
            b"@ is past the last address: a number of EQUALS is perhaps a place from 10000 on (88 in 100)",
        )
    } else {
        fault_cause(text, parts, near, finding)
    }
}

// Octal digits of an address in the window, moved back.
fn is_moved_back(parts: &Reading<'_>) -> bool
    ensures { result ≡ is_moved_back (parts_in parts.now) }
{
    let is_address =
        matches!(octal_value(text_of(parts.operand)), Some(Number::Small(number)) if number < 0o10000);
    is_address && begins(b'-', text_of(parts.offset))
}

// Whether a number from 010000 on, as those of places are, is taken from the operand.
fn is_moved_far(parts: &Reading<'_>) -> bool
    ensures { result ≡ is_moved_far (parts_in parts.now) }
{
    let offset = text_of(parts.offset);
    begins(b'-', offset) && is_far_number(offset.get(1..).unwrap_or(&[]))
}

// Octal digits of a number from 010000 on.
fn is_far_number(text: &[u8]) -> bool
    ensures { result ≡ option_map_or (nat_le 0o10000) (digits_value 8 text.now) false }
{
    match octal_value(text) {
        Some(Number::Small(number)) => 0o10000 <= number,
        Some(Number::Large) => true,
        None => false,
    }
}

// Octal digits that name no place, between those of bank 1 and those of bank 4.
fn is_between_banks(parts: &Reading<'_>) -> bool
    ensures { result ≡ is_between_banks (parts_in parts.now) }
{
    let is_between = matches!(octal_value(text_of(parts.operand)), Some(Number::Small(number)) if
            (0o14000..0o20000).contains(&number));
    is_between && parts.offset.is_none()
}

const UNSURE_OPERATORS: [(&str, &str); 12] = [
    ("MM", "OCT makes a word"),
    ("NV", "OCT makes a word"),
    ("EDRUPT", "OCT makes a word"),
    ("DNPTR", "OCT makes a word"),
    ("-DNPTR", "OCT makes a word"),
    ("2FCADR", "OCT makes a word"),
    ("2BCADR", "OCT makes a word"),
    ("BBCON*", "OCT makes a word"),
    ("=ECADR", "EQUALS gives & a value"),
    ("=MINUS", "EQUALS gives & a value"),
    ("=PLUS", "EQUALS gives & a value"),
    ("SBANK=", ""),
];

fn unsure_operators() -> &'static [(&'static str, &'static str)]
    ensures { entries result.now ≡ unsure_operators }
{
    &UNSURE_OPERATORS
}

const ALTERNATIVES: [(&str, &str); 12] = [
    ("MM", "the word of DEC (80 in 100)"),
    ("NV", "the word of VN (60 in 100)"),
    ("EDRUPT", "07000, and 9 bits of the operand (75 in 100)"),
    ("DNPTR", "30000, and the address of 12 bits (88 in 100)"),
    ("-DNPTR", "the complement of the word of DNPTR (80 in 100)"),
    ("2FCADR", "the words of FCADR and of GENADR (60 in 100)"),
    ("2BCADR", "the words of 2CADR (75 in 100)"),
    ("BBCON*", "66100 (75 in 100)"),
    ("=ECADR", "a number, the address of 11 bits (70 in 100)"),
    (
        "=MINUS",
        "a number, the location less the operand (60 in 100)",
    ),
    (
        "=PLUS",
        "a number, the location and the operand (60 in 100)",
    ),
    ("SBANK=", "bits 7 to 5 of each 2CADR behind it (60 in 100)"),
];

fn alternatives() -> &'static [(&'static str, &'static str)]
    ensures { entries result.now ≡ alternatives }
{
    &ALTERNATIVES
}
