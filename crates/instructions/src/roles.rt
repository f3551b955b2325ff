//! Which operators make an instruction.

ghost use Rattle.std.specs.Prelude.{◌≡◌};
ghost use Rattle.instructions.specs.Roles.{is_instruction, is_jump, is_reading, is_writing};

use yayul::Role;

/// Whether an operator makes an instruction, and no constant.
pub(crate) fn is_instruction(role: Option<Role>) -> bool
    ensures { result ≡ is_instruction role }
{
    is_jump(role) || is_reading(role) || is_writing(role)
}

/// Whether it goes on elsewhere, or takes no operand.
fn is_jump(role: Option<Role>) -> bool
    ensures { result ≡ is_jump role }
{
    matches!(
        role,
        Some(
            Role::Call
                | Role::Jump
                | Role::Branch
                | Role::Leave
                | Role::Return
                | Role::Resume
                | Role::LeaveBank
                | Role::Implied
                | Role::Release
                | Role::ChangeA
                | Role::ChangeL
                | Role::ChangeBoth
                | Role::Skip
                | Role::Idle
        )
    )
}

/// Whether it reads a word, and writes none.
fn is_reading(role: Option<Role>) -> bool
    ensures { result ≡ is_reading role }
{
    matches!(
        role,
        Some(
            Role::Read
                | Role::Multiply
                | Role::ReadFixed
                | Role::ReadErasable
                | Role::Count
                | Role::Divide
                | Role::Subtract
                | Role::ReadCounter
                | Role::ReadPair
                | Role::Index
        )
    )
}

/// Whether it writes a word, or reads or writes a channel.
fn is_writing(role: Option<Role>) -> bool
    ensures { result ≡ is_writing role }
{
    matches!(
        role,
        Some(
            Role::Transfer
                | Role::ExchangeA
                | Role::ExchangeL
                | Role::ExchangeQ
                | Role::StorePair
                | Role::Modify
                | Role::Accumulate
                | Role::ModifyPair
                | Role::ReadChannel
                | Role::WriteChannel
                | Role::CombineChannel
        )
    )
}
