//! What a warning is in words, by its cause.

ghost use Rattle.std.specs.Prelude.{◌≡◌, [], unwrap_or};
ghost use Rattle.agc_text.specs.Tables.{value_in};
ghost use Rattle.yayul.specs.Readings.{parts_in};
ghost use Rattle.symbols.specs.Registers.{registers};
ghost use Rattle.diagnostics.specs.Causes.{caution_cause, doubt_cause, number_cause, warning_cause, way_cause};
ghost use Rattle.warnings.specs.Fields.{text_of};
ghost use Rattle.diagnostics.specs.Views.{cause_in};

use crate::causes::Cause;
use symbols::register_place;
use warnings::{Class, Doubt, Warning, text_of};
use yayul::Reading;

/// A warning of a line with some fields in words: by its number, or by why a word is not certain.
pub(crate) fn caution_cause(parts: &Reading<'_>, warning: &Warning) -> Cause
    ensures { cause_in result ≡ caution_cause (parts_in parts.now) warning.now }
{
    match warning.doubt {
        Some(doubt) => doubt_cause(doubt),
        None => warning_cause(parts, warning.number),
    }
}

// 17: why it is not certain what the assembler of flight programs makes of a word.
fn doubt_cause(doubt: Doubt) -> Cause
    ensures { cause_in result ≡ doubt_cause doubt }
{
    match doubt {
        Doubt::SuperbankBits => Cause::said(
            b"the second word of % is not certain: for banks 030 to 037 a superbank, 060, may stand in it (65 in 100)",
        ),
        Doubt::HeldBank => Cause::cured(
            b"a word of % is not certain: EBANK= before an earlier 2CADR may hold for that one alone (85 in 100)",
            b"EBANK= on the line before % makes it certain",
        ),
    }
}

// A warning of a line with some fields in words, by its number.
fn warning_cause(parts: &Reading<'_>, number: u8) -> Cause
    ensures { cause_in result ≡ warning_cause (parts_in parts.now) number }
{
    match number {
        1 => Cause::cured(
            b"& is an operator's name, and in the first column it is a label",
            b"put a blank before &",
        ),
        2 => number_cause(parts),
        3 => Cause::cured(
            b"% takes two words, and ERASE reserves one for @",
            b"@ ERASE +1 reserves two",
        ),
        4 => Cause::cured(
            b"after % the program runs on to a constant, or where no word stands",
            b"TCF or RETURN behind it, and constants elsewhere",
        ),
        5 => Cause::cured(
            b"a vector has four words, and with this one the next vector begins",
            b"TCF as the fourth, and the routine elsewhere",
        ),
        6 => Cause::cured(
            b"% reaches a switched erasable bank, and no line sets EB",
            b"NAME ECADR @ on a line of its own; before this CA NAME, and TS 3, which is EB",
        ),
        7 => Cause::cured_by(
            b"& is a register's name, and stands for another place here",
            b"& EQUALS ! is the register",
            place_named(parts),
        ),
        8 => Cause::said(b"no operand names &"),
        9 => Cause::cured(
            b"@ stands in a switched bank of fixed memory, and no line sets FB",
            b"NAME FCADR @ on a line of its own; before this CA NAME, and TS 4, which is FB; for banks 40 to 43 WRITE \
                7 of 100 too",
        ),
        10 => Cause::cured(
            b"channel @ is a register, L or Q, and nothing goes out",
            b"another channel, or, where the register is meant, its name: L EQUALS 1, Q EQUALS 2",
        ),
        11 => Cause::cured(
            b"a run starts here, at 4000, and % is no instruction",
            b"the program first, or a jump to it, and constants behind its last jump",
        ),
        12..=16 => way_cause(number),
        _ => Cause::said(b""),
    }
}

// 12 to 16: what a routine of an interrupt does, where the program runs on, and what stands twice or is not reached.
fn way_cause(number: u8) -> Cause
    ensures { cause_in result ≡ way_cause number }
{
    match number {
        12 => Cause::cured(
            b"an interrupt's routine comes here, and % changes A, L or Q, which it has not kept",
            b"XCH, LXCH or QXCH of a cell before it, and again before RESUME",
        ),
        13 => Cause::cured(
            b"an interrupt enters here, and no line is RESUME, which ends it",
            b"RESUME as the last instruction of the routine",
        ),
        14 => Cause::cured(
            b"the program runs on over the vectors, 4004 to 4053, where interrupts enter",
            b"TCF before it, and the program from 4054 on; behind SETLOC to its vector the routine of each interrupt",
        ),
        15 => Cause::cured(
            b"& stands where an earlier line reserves a word",
            b"no SETLOC between the two; for two names of one word & EQUALS the other",
        ),
        _ => Cause::cured(
            b"% stands behind a jump without a label, and nothing leads here",
            b"a label and a jump to it, or leave it out",
        ),
    }
}

// 2: a number that is read as a register; some operators take no constant, which stands in fixed memory.
fn number_cause(parts: &Reading<'_>) -> Cause
    ensures { cause_in result ≡ number_cause (parts_in parts.now) }
{
    if Class::ReadsErasable.has(parts.role) {
        Cause::cured(
            b"an operand is an address: @ is the register or the counter at place @, and not the number",
            b"the number has a line of its own, behind the last jump: NAME OCT @, and CA NAME and TS copy it to where \
                % takes it",
        )
    } else {
        Cause::cured(
            b"an operand is an address: @ is the register or the counter at place @, and not the number",
            b"the number has a line of its own, behind the last jump: NAME OCT @ (or DEC and decimal digits), and here \
                % NAME",
        )
    }
}

// The place of the register that a label is the name of; none where it is no such name.
fn place_named(parts: &Reading<'_>) -> &'static [u8]
    ensures { result.now ≡ unwrap_or (value_in registers (text_of (parts_in parts.now).label)) [] }
{
    match register_place(text_of(parts.label)) {
        Some(place) => place,
        None => b"",
    }
}
