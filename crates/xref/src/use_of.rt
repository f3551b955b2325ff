//! What a line does with a name.

ghost use Rattle.std.specs.Prelude.{◌≡◌, ◌≤◌, length};
ghost use Rattle.yayul.specs.Readings.{parts_in};
ghost use Rattle.xref.specs.Xref.{defines, use_by, use_in, use_text};

use yayul::{Reading, Role};

/// What a line does with a name.
#[derive(Clone, Copy, Drop)]
pub enum Use {
    /// It defines it.
    Defined,
    /// It reads what stands there.
    Read,
    /// It writes there.
    Write,
    /// It reads what stands there, and writes there.
    Change,
    /// It goes on there.
    Jump,
    /// Its word is the place, or selects it.
    Address,
    /// It reads or writes the channel.
    Channel,
    /// It makes no word.
    Directive,
}

/// What the operator of a line does with its operand, where this may be a symbol.
pub(crate) fn use_in(reading: &Reading<'_>) -> Option<Use>
    ensures { result ≡ use_in (parts_in reading.now) }
{
    use_by(reading.role?)
}

// What an operator does with a symbol that is its operand: of those that store, TS alone reads nothing where it writes.
fn use_by(role: Role) -> Option<Use>
    ensures { result ≡ use_by role }
{
    match role {
        Role::Setloc | Role::Erase | Role::Equals | Role::Ebank => Some(Use::Directive),
        Role::Address
        | Role::ErasableAddress
        | Role::FixedAddress
        | Role::FixedComplement
        | Role::FarAddress
        | Role::FarComplement
        | Role::BankConstant
        | Role::CountComplement
        | Role::Downlist
        | Role::DownlistChannel => Some(Use::Address),
        Role::Call | Role::Jump | Role::Branch => Some(Use::Jump),
        Role::Read
        | Role::Multiply
        | Role::ReadFixed
        | Role::ReadErasable
        | Role::Count
        | Role::Divide
        | Role::Subtract
        | Role::ReadCounter
        | Role::ReadPair
        | Role::Index => Some(Use::Read),
        Role::Transfer => Some(Use::Write),
        Role::ExchangeA
        | Role::ExchangeL
        | Role::ExchangeQ
        | Role::StorePair
        | Role::Modify
        | Role::Accumulate
        | Role::ModifyPair => Some(Use::Change),
        Role::ReadChannel | Role::WriteChannel | Role::CombineChannel => Some(Use::Channel),
        Role::Bank
        | Role::Block
        | Role::Ignored
        | Role::Octal
        | Role::OctalPair
        | Role::VerbNoun
        | Role::Decimal
        | Role::DecimalPair
        | Role::Leave
        | Role::Return
        | Role::Resume
        | Role::LeaveBank
        | Role::Implied
        | Role::Release
        | Role::ChangeA
        | Role::ChangeL
        | Role::ChangeBoth
        | Role::Skip
        | Role::Idle => None,
    }
}

impl Use {
    /// Whether it defines it.
    pub(crate) fn defines(self) -> bool
        ensures { result ≡ defines self }
    {
        match self {
            Use::Defined => true,
            Use::Read
            | Use::Write
            | Use::Change
            | Use::Jump
            | Use::Address
            | Use::Channel
            | Use::Directive => false,
        }
    }
}

/// What it is called.
pub(crate) fn use_text(used: Use) -> &'static [u8]
    ensures text { result.now ≡ use_text used }
    ensures short { length result.now ≤ 9 }
{
    match used {
        Use::Defined => b"DEFINED",
        Use::Read => b"READ",
        Use::Write => b"WRITE",
        Use::Change => b"CHANGE",
        Use::Jump => b"JUMP",
        Use::Address => b"ADDRESS",
        Use::Channel => b"CHANNEL",
        Use::Directive => b"DIRECTIVE",
    }
}
