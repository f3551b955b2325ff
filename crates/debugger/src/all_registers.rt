//! All registers, with what waits for the next instruction and which interrupts are asked for.

ghost use Rattle.std.specs.Prelude.{◌≡◌, ◌+◌, ◌*◌, ◌≤◌, ◌++◌, [], length, codes, decimal, if◌then◌else◌};
ghost use Rattle.std.specs.FinSet.{contains};
ghost use Rattle.words.specs.Numerals.{octal_text};
ghost use Rattle.arrayvec.specs.ArrayVec.{array_vec_len};
ghost use Rattle.replay.specs.View.{HasShown};
ghost use Rattle.commands.specs.declared.extended.ExtendedLine.TheVariants as asked;
ghost use Rattle.debugger.specs.AllRegisters.{all_registers, register_lines, flag_lines, waiting_lines, asked_line};
ghost use Rattle.debugger.specs.AllRegisters.{sum_line, word_line, requested, numbers_text, or_none};
ghost use Rattle.debugger.specs.Replies.{line as text_line, flag_text};
ghost use Rattle.debugger.specs.Executions.{desk, BringsAsked};
ghost use Rattle.debugger.specs.Desks.{standing, Looks};

use crate::desk::Desk;
use arrayvec::ArrayVec;
use cpu::Machine;
use feed::INTERRUPTS;
use feed::interrupt::Interrupt;
use replay::Keeper;
use space::Eras;
use words::{push_all, push_decimal, push_octal};

/// The most bytes of the lines of all registers.
const REGISTERS_TEXT: usize = 512;

/// The lines of all registers.
type RegistersText = ArrayVec<u8, REGISTERS_TEXT>;

impl<'a, K: Keeper> Desk<'a, K> {
    /// `regs all`: all registers at the position.
    pub(crate) fn all_registers(&mut self) -> RegistersText
        ensures brings { BringsAsked (standing self.old) asked.AllRegisters
            result.items (standing self.new) }
        ensures looked { Looks self.old.session.now.n self.old self.new }
        ensures shown { HasShown self.old.session.now self.old.position self.new.session.now }
    {
        match self.session.show(self.position) {
            Ok(machine) => all_registers_text(machine),
            Err(_) => unreachable!(),
        }
    }
}

/// The lines of all registers of a machine.
#[tactic(auto, unfolding(crate::specs::AllRegisters::all_registers))]
fn all_registers_text(machine: &Machine) -> RegistersText
    ensures { result.items ≡ all_registers machine.now }
{
    let mut text = ArrayVec::new();
    push_registers(&mut text, machine);
    push_flags(&mut text, machine);
    push_waiting(&mut text, machine);
    text
}

/// Appends the lines of the registers.
fn push_registers(text: &mut RegistersText, machine: &Machine)
    requires { array_vec_len text.old ≤ 10 }
    ensures items { text.new.items ≡ text.old.items ++ register_lines machine.now.cells }
    ensures short { array_vec_len text.new ≤ array_vec_len text.old + 60 }
{
    let banks = machine.store().banks();
    push_number(text, b"A ", 6, machine.reg(Eras::A).to_u16());
    push_number(text, b"L ", 5, machine.word(Eras::L).to_u16());
    push_number(text, b"Q ", 6, machine.reg(Eras::Q).to_u16());
    push_number(text, b"Z ", 4, machine.word(Eras::Z).to_u16());
    push_number(text, b"EB ", 1, banks.eb);
    push_number(text, b"FB ", 2, banks.fb);
    push_number(text, b"BB ", 5, machine.word(Eras::BB).to_u16());
}

/// Appends the line of a number in octal.
fn push_number(text: &mut RegistersText, name: &[u8], digits: usize, number: u16)
    requires room { array_vec_len text.old ≤ 100 }
    requires name { length name.now ≤ 3 }
    requires digits { digits ≤ 6 }
    ensures items { text.new.items ≡ text.old.items ++ text_line (name.now ++ octal_text digits number) }
    ensures len { array_vec_len text.new ≡ array_vec_len text.old + length name.now + digits + 1 }
{
    push_all(text, name);
    push_octal(text, digits, number);
    push_all(text, b"\n");
}

/// Appends the lines of the flags.
fn push_flags(text: &mut RegistersText, machine: &Machine)
    requires { array_vec_len text.old ≤ 60 }
    ensures items { text.new.items ≡ text.old.items ++ flag_lines machine.now }
    ensures short { array_vec_len text.new ≤ array_vec_len text.old + 24 }
{
    push_flag(text, b"SUP ", machine.store().banks().sup);
    push_flag(text, b"EXT ", machine.extra());
    push_flag(text, b"INH ", machine.inhibit());
    push_flag(text, b"INT ", machine.inside());
}

/// Appends the line of a flag.
fn push_flag(text: &mut RegistersText, name: &[u8; 4], flag: bool)
    requires { array_vec_len text.old ≤ 80 }
    ensures items { text.new.items ≡ text.old.items ++ text_line (name.now ++ flag_text flag) }
    ensures short { array_vec_len text.new ≤ array_vec_len text.old + 6 }
{
    push_all(text, name);
    push_all(text, if flag { b"1" } else { b"0" });
    push_all(text, b"\n");
}

/// Appends the lines of what is asked for, of what waits, and of the cycles.
#[tactic(auto, using(words::proofs::Digits::short_decimal))]
fn push_waiting(text: &mut RegistersText, machine: &Machine)
    requires { array_vec_len text.old ≤ 84 }
    ensures items { text.new.items ≡ text.old.items ++ waiting_lines machine.now }
{
    push_asked(text, machine);
    push_sum(text, machine);
    push_word(text, machine);
    push_all(text, b"CYCLES ");
    push_decimal(text, machine.cycles());
    push_all(text, b"\n");
}

/// Appends the line of the interrupts that are asked for.
fn push_asked(text: &mut RegistersText, machine: &Machine)
    requires { array_vec_len text.old ≤ 84 }
    ensures items { text.new.items ≡ text.old.items ++ asked_line machine.now }
    ensures short { array_vec_len text.new ≤ array_vec_len text.old + 222 }
{
    push_all(text, b"ASKED");
    push_requested(text, machine);
    push_all(text, b"\n");
}

/// Appends the line of the sum that waits.
fn push_sum(text: &mut RegistersText, machine: &Machine)
    requires { array_vec_len text.old ≤ 320 }
    ensures items { text.new.items ≡ text.old.items ++ sum_line machine.now }
    ensures short { array_vec_len text.new ≤ array_vec_len text.old + 11 }
{
    push_all(text, b"SUM ");
    match machine.waiting_sum() {
        None => push_all(text, b"NONE"),
        Some(sum) => push_octal(text, 6, sum.to_u16()),
    }
    push_all(text, b"\n");
}

/// Appends the line of the word that waits.
fn push_word(text: &mut RegistersText, machine: &Machine)
    requires { array_vec_len text.old ≤ 340 }
    ensures items { text.new.items ≡ text.old.items ++ word_line machine.now }
    ensures short { array_vec_len text.new ≤ array_vec_len text.old + 11 }
{
    push_all(text, b"WORD ");
    match machine.waiting_word() {
        None => push_all(text, b"NONE"),
        Some(word) => push_octal(text, 5, word.to_u16()),
    }
    push_all(text, b"\n");
}

/// Appends the interrupts that are asked for.
fn push_requested(text: &mut RegistersText, machine: &Machine)
    requires { array_vec_len text.old ≤ 90 }
    ensures items { text.new.items ≡ text.old.items ++ or_none (numbers_text (requested machine.now)) }
    ensures short { array_vec_len text.new ≤ array_vec_len text.old + 215 }
{
    let before = text.len();
    push_each_requested(text, machine);
    if text.len() == before {
        push_all(text, b" NONE");
    }
}

/// Appends the numbers of the interrupts that are asked for.
#[tactic(auto, unfolding(crate::specs::AllRegisters::requested))]
fn push_each_requested(text: &mut RegistersText, machine: &Machine)
    requires { array_vec_len text.old ≤ 90 }
    ensures items { text.new.items ≡ text.old.items ++ numbers_text (requested machine.now) }
    ensures short { array_vec_len text.new ≤ array_vec_len text.old + 210 }
{
    for number in 1..INTERRUPTS + 1 {
        push_if_asked(text, machine, Interrupt::new(number));
    }
}

/// Appends the number of an interrupt, where it is asked for.
#[tactic(auto, using(words::proofs::Digits::short_decimal))]
fn push_if_asked(text: &mut RegistersText, machine: &Machine, request: Interrupt)
    requires { array_vec_len text.old ≤ 300 }
    ensures items { text.new.items ≡ text.old.items
        ++ (if contains machine.now.requests request then codes " " ++ decimal request else []) }
    ensures short { array_vec_len text.new ≤ array_vec_len text.old + 21 }
{
    if machine.is_asked(request) {
        push_all(text, b" ");
        push_decimal(text, u64::from(request.number()));
    }
}
