//! What is asked of an operator, by what it is.

ghost use Rattle.std.specs.Prelude.{◌≡◌};
ghost use Rattle.warnings.specs.Roles.{has};

use yayul::Role::{
    self, Accumulate, Address, Bank, BankConstant, Block, Branch, Call, ChangeA, ChangeBoth,
    ChangeL, CombineChannel, Count, CountComplement, Decimal, DecimalPair, Divide, Downlist,
    DownlistChannel, Ebank, Equals, ErasableAddress, Erase, ExchangeA, ExchangeL, ExchangeQ,
    FarAddress, FarComplement, FixedAddress, FixedComplement, Idle, Ignored, Implied, Index, Jump,
    Leave, LeaveBank, Modify, ModifyPair, Multiply, Octal, OctalPair, Read, ReadChannel,
    ReadCounter, ReadErasable, ReadFixed, ReadPair, Release, Resume, Return, Setloc, Skip,
    StorePair, Subtract, Transfer, VerbNoun, WriteChannel,
};

/// Operators of which the same is true.
#[derive(Clone, Copy, Drop)]
pub enum Class {
    /// SETLOC.
    Setloc,
    /// BANK and BLOCK.
    NamesBank,
    /// BLOCK.
    Block,
    /// ERASE.
    Erase,
    /// EQUALS and its other name.
    Equals,
    /// It gives no word, and moves the location.
    MovesLocation,
    /// It gives no word, and leaves the location as it is.
    KeepsLocation,
    /// It takes no label.
    RefusesLabel,
    /// Octal digits.
    Octal,
    /// Octal digits of two words.
    OctalPair,
    /// A verb and a noun.
    VerbNoun,
    /// A decimal constant of a word.
    Decimal,
    /// A decimal constant.
    TakesDecimal,
    /// Constants and addresses, which are no instructions.
    Constant,
    /// It gives two words.
    GivesTwo,
    /// It takes no operand.
    TakesNothing,
    /// It takes a channel.
    TakesChannel,
    /// It takes an erasable place.
    TakesErasablePlace,
    /// It takes a fixed place.
    TakesFixedPlace,
    /// It takes a fixed place of a bank below 30.
    TakesLowBank,
    /// The complement of CCS.
    CountComplement,
    /// It goes on at an address of fixed memory, or may.
    LeadsToFixed,
    /// It never goes on to the next word, or leaves there what a routine takes.
    Leaving,
    /// It sets BB or FB.
    SetsBank,
    /// It reads a word where a number is likely meant.
    Reads,
    /// It reads a word, an instruction as well as any.
    ReadsWord,
    /// It reads a word of erasable memory alone.
    ReadsErasable,
    /// It adds to the address of the next word.
    Index,
    /// It writes a word of erasable memory.
    WritesErasable,
    /// It writes a register, and may so write Z.
    Stores,
    /// It takes two words.
    TakesPair,
    /// It leads to an address.
    LeadsOnTo,
    /// It subtracts a word of erasable memory.
    Subtracts,
    /// It goes on at any address, and leaves in Q where it came from.
    Call,
    /// It goes on at an address of fixed memory, whatever stands in A.
    Jump,
    /// It stores A.
    KeepsA,
    /// It stores L.
    KeepsL,
    /// It stores Q.
    KeepsQ,
    /// It leaves another word in A, and stores A nowhere first.
    ChangesA,
    /// So too in L.
    ChangesL,
    /// It writes a channel.
    WritesChannel,
    /// It goes on where A, L or another word says.
    ComputesWay,
    /// RESUME.
    Resumes,
    /// RETURN and RESUME.
    GoesBack,
    /// RELINT.
    Releases,
    /// It goes on at one of four words.
    HasFourWays,
    /// It may skip a word where A has overflow.
    MaySkip,
    /// NOOP.
    Idle,
}

impl Class {
    /// Whether an operator is one of them.
    pub fn has(self, role: Option<Role>) -> bool
        ensures { result ≡ has self role }
    {
        match self {
            Class::Setloc => matches!(role, Some(Setloc)),
            Class::NamesBank => matches!(role, Some(Bank | Block)),
            Class::Block => matches!(role, Some(Block)),
            Class::Erase => matches!(role, Some(Erase)),
            Class::Equals => matches!(role, Some(Equals)),
            Class::MovesLocation => matches!(role, Some(Setloc | Bank | Block | Erase)),
            Class::KeepsLocation => matches!(role, Some(Equals | Ebank | Ignored)),
            Class::RefusesLabel => matches!(role, Some(Setloc | Bank | Block | Ebank)),
            Class::Octal => matches!(role, Some(Octal)),
            Class::OctalPair => matches!(role, Some(OctalPair)),
            Class::VerbNoun => matches!(role, Some(VerbNoun)),
            Class::Decimal => matches!(role, Some(Decimal)),
            Class::TakesDecimal => matches!(role, Some(Decimal | DecimalPair)),
            Class::Constant => {
                matches!(
                    role,
                    Some(Octal | OctalPair | VerbNoun | Decimal | DecimalPair)
                ) || matches!(
                    role,
                    Some(Address | ErasableAddress | FixedAddress | FixedComplement)
                ) || matches!(role, Some(FarAddress | FarComplement | BankConstant))
                    || matches!(role, Some(CountComplement | Downlist | DownlistChannel))
            }
            Class::GivesTwo => matches!(
                role,
                Some(OctalPair | DecimalPair | FarAddress | FarComplement)
            ),
            Class::TakesNothing => {
                matches!(role, Some(Leave | Return | Resume | LeaveBank))
                    || matches!(role, Some(Implied | Release | Skip | Idle))
                    || matches!(role, Some(ChangeA | ChangeL | ChangeBoth))
            }
            Class::TakesChannel => matches!(
                role,
                Some(ReadChannel | WriteChannel | CombineChannel | DownlistChannel)
            ),
            Class::TakesErasablePlace => matches!(role, Some(Ebank | ErasableAddress | Downlist)),
            Class::TakesFixedPlace => matches!(
                role,
                Some(FixedAddress | FarAddress | FixedComplement | ReadFixed)
            ),
            Class::TakesLowBank => matches!(role, Some(BankConstant | FarComplement)),
            Class::CountComplement => matches!(role, Some(CountComplement)),
            Class::LeadsToFixed => matches!(role, Some(Jump | Branch)),
            Class::Leaving => matches!(
                role,
                Some(Call | Jump | Leave | Return | Resume | LeaveBank)
            ),
            Class::SetsBank => matches!(role, Some(LeaveBank)),
            Class::Reads => matches!(
                role,
                Some(Read | Multiply | ReadErasable | Count | Divide | Subtract)
            ),
            Class::ReadsWord => {
                matches!(
                    role,
                    Some(Read | Multiply | Count | Divide | Subtract | Index)
                ) || matches!(role, Some(ReadFixed | ReadErasable | ReadPair))
            }
            Class::ReadsErasable => matches!(
                role,
                Some(ReadErasable | Count | Divide | Subtract | ReadCounter | Index)
            ),
            Class::Index => matches!(role, Some(Index)),
            Class::WritesErasable => {
                matches!(
                    role,
                    Some(Transfer | ExchangeA | ExchangeL | ExchangeQ | StorePair)
                ) || matches!(role, Some(Modify | Accumulate | ModifyPair))
            }
            Class::Stores => matches!(
                role,
                Some(Transfer | ExchangeA | ExchangeL | ExchangeQ | StorePair)
            ),
            Class::TakesPair => matches!(role, Some(ReadPair | StorePair | ModifyPair)),
            Class::LeadsOnTo => matches!(role, Some(Call | Jump | Branch)),
            Class::Subtracts => matches!(role, Some(Subtract)),
            Class::Call => matches!(role, Some(Call)),
            Class::Jump => matches!(role, Some(Jump)),
            Class::KeepsA => matches!(role, Some(Transfer | ExchangeA | StorePair)),
            Class::KeepsL => matches!(role, Some(ExchangeL | StorePair)),
            Class::KeepsQ => matches!(role, Some(ExchangeQ)),
            Class::ChangesA => {
                matches!(role, Some(Read | Multiply | Count | Divide | Subtract))
                    || matches!(
                        role,
                        Some(ReadFixed | ReadErasable | ReadCounter | ReadPair)
                    )
                    || matches!(role, Some(ReadChannel | CombineChannel))
                    || matches!(role, Some(Accumulate | ModifyPair | ChangeA | ChangeBoth))
            }
            Class::ChangesL => matches!(
                role,
                Some(Multiply | Divide | ReadPair | ModifyPair | ChangeL | ChangeBoth)
            ),
            Class::WritesChannel => matches!(role, Some(WriteChannel | CombineChannel)),
            Class::ComputesWay => matches!(role, Some(Leave)),
            Class::Resumes => matches!(role, Some(Resume)),
            Class::GoesBack => matches!(role, Some(Return | Resume)),
            Class::Releases => matches!(role, Some(Release)),
            Class::HasFourWays => matches!(role, Some(Count)),
            Class::MaySkip => matches!(role, Some(Transfer | Skip)),
            Class::Idle => matches!(role, Some(Idle)),
        }
    }
}
