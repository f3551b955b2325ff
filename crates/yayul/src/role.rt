//! What an operator is.

/// What an operator is: a column of its row, by which diagnostics say what it does.
#[derive(Clone, Copy, Drop)]
pub enum Role {
    /// Moves the location to a place.
    Setloc,
    /// Moves the location past the words of a bank.
    Bank,
    /// Moves the location past the words of bank 2 or 3.
    Block,
    /// Reserves erasable words.
    Erase,
    /// Gives its label a value.
    Equals,
    /// Sets the erasable bank of far addresses.
    Ebank,
    /// Makes no word, and leaves the location as it is.
    Ignored,
    /// A word of octal digits.
    Octal,
    /// Two words of octal digits.
    OctalPair,
    /// A word of a verb and a noun.
    VerbNoun,
    /// A word of a decimal constant.
    Decimal,
    /// Two words of a decimal constant.
    DecimalPair,
    /// A word of an address as instructions hold it.
    Address,
    /// A word of an erasable place.
    ErasableAddress,
    /// A word of a fixed place.
    FixedAddress,
    /// The complement of that.
    FixedComplement,
    /// Two words of a fixed place, and of what selects it.
    FarAddress,
    /// The complements of these.
    FarComplement,
    /// A word of what selects a fixed place.
    BankConstant,
    /// The complement of the word of CCS.
    CountComplement,
    /// A word of a downlist: an erasable place, and how many words from there on are sent.
    Downlist,
    /// A word of a downlist: a channel.
    DownlistChannel,
    /// Goes on at any address, and leaves in Q where it came from.
    Call,
    /// Goes on at an address of fixed memory.
    Jump,
    /// Goes on at an address of fixed memory, or at the next word.
    Branch,
    /// Reads a word of any memory into A.
    Read,
    /// Multiplies A by a word of any memory, into A and L.
    Multiply,
    /// Reads a word of fixed memory.
    ReadFixed,
    /// Reads a word of erasable memory into A.
    ReadErasable,
    /// Counts a word of erasable memory down into A, and goes on at one of four words.
    Count,
    /// Divides A and L by a word of erasable memory, into both.
    Divide,
    /// Subtracts a word of erasable memory from A.
    Subtract,
    /// Reads a counter of erasable memory, whose number is meant.
    ReadCounter,
    /// Reads two words into A and L.
    ReadPair,
    /// Adds a word of erasable memory to the next instruction.
    Index,
    /// Writes A to a word of erasable memory, and skips a word where A has overflow.
    Transfer,
    /// Exchanges A and a word of erasable memory.
    ExchangeA,
    /// Exchanges L and such a word.
    ExchangeL,
    /// Exchanges Q and such a word.
    ExchangeQ,
    /// Exchanges A and L and two words.
    StorePair,
    /// Reads a word of erasable memory, and writes what it becomes.
    Modify,
    /// Adds A to a word of erasable memory, and leaves the sum in A too.
    Accumulate,
    /// Adds A and L to two words.
    ModifyPair,
    /// Reads a channel into A.
    ReadChannel,
    /// Writes A to a channel.
    WriteChannel,
    /// Combines A and a channel in both.
    CombineChannel,
    /// Goes on where A, L or another word says, and takes no operand.
    Leave,
    /// Goes back to where Q leads.
    Return,
    /// Goes back to what an interrupt left.
    Resume,
    /// Goes on in another bank, and takes no operand.
    LeaveBank,
    /// Takes no operand, and goes on at the next word.
    Implied,
    /// So too, and lets interrupts in.
    Release,
    /// So too, and changes A.
    ChangeA,
    /// So too, and changes L.
    ChangeL,
    /// So too, and changes A and L.
    ChangeBoth,
    /// So too, and skips a word where A has overflow.
    Skip,
    /// So too, and does nothing.
    Idle,
}
