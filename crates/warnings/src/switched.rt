//! Places of switched banks that are reached while no line sets the register of these banks.

ghost use Rattle.std.specs.Prelude.{◌≡◌};
ghost use Rattle.yayul.specs.Readings.{parts_in};
ghost use Rattle.warnings.specs.declared.switched.Banks.{Banks as KnownOfBanks};
ghost use Rattle.warnings.specs.Warnings.{target_at, target_in};
ghost use Rattle.warnings.specs.Warnings.{has_bank, writes_bank, may_write, may_set, banks_after, no_banks};
ghost use Rattle.warnings.specs.Warnings.{is_switched, reaches, is_common, is_common_place, is_common_number};
ghost use Rattle.warnings.specs.Warnings.{common_after, needs_erasable_bank, needs_fixed_bank};

use crate::flow::is_instruction;
use crate::roles::Class;
use crate::warning::indexed_after;
use yayul::{Language, Reading, Symbols, Value};

/// A register that holds a bank.
#[derive(Clone, Copy, Drop)]
pub(crate) enum BankRegister {
    /// That of erasable memory.
    Eb,
    /// That of fixed memory.
    Fb,
}

/// What an operand leads to.
#[derive(Clone, Copy, Drop)]
pub(crate) enum Target {
    /// Nothing that is known.
    Unknown,
    /// A number.
    Plain(u16),
    /// A cell of erasable memory.
    Cell(u16),
    /// A place of a bank of fixed memory.
    InBank(u16),
}

/// What the lines so far say of banks.
#[derive(Clone, Copy, Drop)]
pub(crate) struct Banks {
    /// Whether INDEX stands last.
    pub(crate) indexed: bool,
    /// Whether some line may set EB.
    pub(crate) sets_erasable: bool,
    /// Whether some line may set FB.
    pub(crate) sets_fixed: bool,
    /// Whether an instruction stands.
    pub(crate) instructs: bool,
}

impl Banks {
    /// What is known before the first line.
    pub(crate) fn none() -> Banks
        ensures { result ≡ no_banks }
    {
        Banks {
            indexed: false,
            sets_erasable: false,
            sets_fixed: false,
            instructs: false,
        }
    }

    /// What is known after a line whose operand has a target.
    pub(crate) fn next(self, target: Target, parts: &Reading<'_>) -> Banks
        ensures { result ≡ banks_after self target (parts_in parts.now) }
    {
        let erasable = may_set(BankRegister::Eb, self.indexed, target, parts);
        let fixed = may_set(BankRegister::Fb, self.indexed, target, parts);
        Banks {
            indexed: indexed_after(self.indexed, parts),
            sets_erasable: self.sets_erasable || erasable,
            sets_fixed: self.sets_fixed || fixed,
            instructs: self.instructs || is_instruction(parts),
        }
    }

    /// Whether a line is an instruction on a place of a switched erasable bank, while none sets EB.
    pub(crate) fn needs_erasable_bank(&self, target: Target, parts: &Reading<'_>) -> bool
        ensures { result ≡ needs_erasable_bank self.now target (parts_in parts.now) }
    {
        !self.sets_erasable && reaches(BankRegister::Eb, target, parts)
    }

    /// Whether one of banks 2 and 3 is an instruction on a place of a switched bank of fixed memory, while none sets
    /// FB.
    pub(crate) fn needs_fixed_bank(&self, common: bool, target: Target, parts: &Reading<'_>) -> bool
        ensures { result ≡ needs_fixed_bank self.now common target (parts_in parts.now) }
    {
        !self.sets_fixed && common && reaches(BankRegister::Fb, target, parts)
    }
}

/// What the operand of a line leads to by the symbols of a source.
pub(crate) fn target_in(language: Language, symbols: &Symbols, parts: &Reading<'_>) -> Target
    ensures { result ≡ target_in language symbols.now (parts_in parts.now) }
{
    match parts.operand_value(language, symbols) {
        Some(value) => target_at(value),
        None => Target::Unknown,
    }
}

/// The same where a line writes a word, by which it may set a register; of other lines it is of no account.
pub(crate) fn written_target(language: Language, symbols: &Symbols, parts: &Reading<'_>) -> Target
    ensures { (banks : KnownOfBanks) → banks_after banks result (parts_in parts.now)
        ≡ banks_after banks (target_in language symbols.now (parts_in parts.now)) (parts_in parts.now) }
{
    if Class::WritesErasable.has(parts.role) {
        target_in(language, symbols, parts)
    } else {
        Target::Unknown
    }
}

// What an operand with a value leads to.
fn target_at(value: Value) -> Target
    ensures { result ≡ target_at value }
{
    match value {
        Value::Num(number) => Target::Plain(number.to_u16()),
        Value::Erasable(place) => Target::Cell(place.number()),
        Value::Fixed(bank, _) => Target::InBank(bank.bank().number()),
    }
}

// Whether a line may set a register.
fn may_set(register: BankRegister, indexed: bool, target: Target, parts: &Reading<'_>) -> bool
    ensures { result ≡ may_set register indexed target (parts_in parts.now) }
{
    Class::SetsBank.has(parts.role)
        || Class::WritesErasable.has(parts.role)
            && may_write(register, indexed, Class::TakesPair.has(parts.role), target)
}

// Whether a write at a target may set a register; one at what is not known may.
fn may_write(register: BankRegister, indexed: bool, pair: bool, target: Target) -> bool
    ensures { result ≡ may_write register indexed pair target }
{
    match target {
        Target::Unknown => true,
        Target::Plain(number) => writes_bank(register, indexed, pair, number),
        Target::Cell(number) => writes_bank(register, indexed, pair, number),
        Target::InBank(_) => false,
    }
}

// Whether a write of one or two words at a number may set a register.
fn writes_bank(register: BankRegister, indexed: bool, pair: bool, number: u16) -> bool
    ensures { result ≡ writes_bank register indexed pair number }
{
    let number = u32::from(number);
    has_bank(register, number) || pair && has_bank(register, number + 1) || indexed && number < 7
}

// Whether a place has what a register holds.
fn has_bank(register: BankRegister, place: u32) -> bool
    ensures { result ≡ has_bank register place }
{
    match register {
        BankRegister::Eb => place == 3 || place == 6,
        BankRegister::Fb => place == 4 || place == 6,
    }
}

// Whether a line is an instruction on a place to which a register leads.
fn reaches(register: BankRegister, target: Target, parts: &Reading<'_>) -> bool
    ensures { result ≡ reaches register target (parts_in parts.now) }
{
    parts.role.is_some() && is_instruction(parts) && is_switched(register, target)
}

// Whether a register leads to a target.
fn is_switched(register: BankRegister, target: Target) -> bool
    ensures { result ≡ is_switched register target }
{
    match (register, target) {
        (BankRegister::Eb, Target::Cell(number)) => number >= 0o1400,
        (BankRegister::Fb, Target::InBank(bank)) => bank != 0 && !is_common(bank),
        _ => false,
    }
}

/// Whether words stand in bank 2 or 3 after a line whose operand has a target.
pub(crate) fn common_after(common: bool, target: Target, parts: &Reading<'_>) -> bool
    ensures { result ≡ common_after common target (parts_in parts.now) }
{
    if Class::Setloc.has(parts.role) {
        is_common_place(target)
    } else if Class::NamesBank.has(parts.role) {
        is_common_number(target)
    } else {
        common
    }
}

// Whether the place of a target is in bank 2 or 3.
fn is_common_place(target: Target) -> bool
    ensures { result ≡ is_common_place target }
{
    match target {
        Target::Plain(number) => (0o4000..0o10000).contains(&number),
        Target::InBank(bank) => is_common(bank),
        _ => false,
    }
}

// Whether a target is the number of bank 2 or 3.
fn is_common_number(target: Target) -> bool
    ensures { result ≡ is_common_number target }
{
    match target {
        Target::Plain(number) => is_common(number),
        _ => false,
    }
}

// Banks 2 and 3, which are reached whatever FB holds.
fn is_common(bank: u16) -> bool
    ensures { result ≡ is_common bank }
{
    bank == 2 || bank == 3
}
