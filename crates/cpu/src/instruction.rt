//! Instructions, and what there is to say of each.

ghost use Rattle.std.specs.Prelude.{◌≡◌, ◌+◌, ◌≤◌, length};
ghost use Rattle.cpu.specs.Codes.{row_of};
ghost use Rattle.cpu.specs.Texts.{operand_width};

/// An instruction.
#[derive(Clone, Copy)]
pub enum Instruction {
    /// Interrupts are no longer inhibited.
    Relint,
    /// Interrupts are inhibited.
    Inhint,
    /// Puts extracode in force for the next instruction.
    Extend,
    /// Ends an interrupt.
    Resume,
    /// Transfer control: the next instruction is at the address, and Q keeps where to return.
    Tc,
    /// Count, compare and skip: skips by what is read, and A takes its magnitude less one.
    Ccs,
    /// Transfer control to fixed memory: the next instruction is at the address.
    Tcf,
    /// Double add to storage: A and L are added to two places.
    Das,
    /// L is exchanged with a place.
    Lxch,
    /// A place is incremented.
    Incr,
    /// Add to storage: the sum with A goes to the place and to A.
    Ads,
    /// Clear and add: A takes what is read.
    Ca,
    /// Clear and subtract: A takes the complement of what is read.
    Cs,
    /// What is read is added to the next instruction.
    Index,
    /// A and L are exchanged with two places.
    Dxch,
    /// Transfer to storage: A is stored, and an overflow skips one instruction.
    Ts,
    /// A is exchanged with a place.
    Xch,
    /// Add: what is read is added to A.
    Ad,
    /// A keeps the bits that also stand in what is read.
    Mask,
    /// A takes a channel.
    Read,
    /// A is written on a channel.
    Write,
    /// A keeps the bits that also stand on a channel.
    Rand,
    /// A and a channel take the bits that stand in both.
    Wand,
    /// A takes the bits of a channel besides its own.
    Ror,
    /// A and a channel take the bits that stand in either.
    Wor,
    /// A takes the bits that stand in one of it and a channel.
    Rxor,
    /// Does nothing.
    Edrupt,
    /// Divide: A and L are divided by what is read.
    Dv,
    /// Branch on zero to fixed memory.
    Bzf,
    /// Modular subtract: the difference of unsigned numbers.
    Msu,
    /// Q is exchanged with a place.
    Qxch,
    /// Augment: a place's magnitude grows by one.
    Aug,
    /// Diminish: a place's magnitude falls by one, and zeros stay.
    Dim,
    /// Double clear and add: A and L take two places.
    Dca,
    /// Double clear and subtract: A and L take the complements of two places.
    Dcs,
    /// Subtract: the complement of what is read is added to A.
    Su,
    /// Branch on zero or minus to fixed memory.
    Bzmf,
    /// Multiply: A and L take the product of A and what is read.
    Mp,
}

/// What the low bits of a word hold for its instruction.
#[derive(Clone, Copy)]
pub(crate) enum Operand {
    /// Nothing.
    Nothing,
    /// An address of 10 bits.
    Short,
    /// An address of 12 bits.
    Long,
    /// Of two addresses of 10 bits that follow one another, the second.
    ShortPair,
    /// Of two addresses of 12 bits that follow one another, the second.
    LongPair,
    /// A channel.
    Channel,
}

/// What an instruction does besides its effect.
#[derive(Clone, Copy)]
pub(crate) enum Role {
    /// Nothing.
    Plain,
    /// It jumps where A is +0 or -0, and takes fewer cycles then.
    JumpsAtZero,
    /// It jumps where A is +0 or -0 or below, and takes fewer cycles then.
    JumpsAtZeroOrMinus,
    /// What it writes on its channel goes out.
    PutsOut,
    /// It puts extracode in force.
    BeginsExtracode,
    /// It keeps extracode in force.
    KeepsExtracode,
}

/// All that there is to say of an instruction but its effect.
#[derive(Clone, Copy)]
pub(crate) struct Row {
    /// Its name.
    pub(crate) name: &'static [u8],
    /// What a word's low bits hold.
    pub(crate) operand: Operand,
    /// How many cycles it takes, where it does not jump.
    pub(crate) cycles: u8,
    /// What it does besides.
    pub(crate) role: Role,
}

impl Instruction {
    /// Its row.
    #[inline(always)]
    pub(crate) fn row(self) -> Row
        ensures name { result.name.now ≡ (row_of self).name }
        ensures operand { result.operand ≡ (row_of self).operand }
        ensures cycles { result.cycles ≡ (row_of self).cycles }
        ensures role { result.role ≡ (row_of self).role }
        ensures width { length result.name.now + operand_width result.operand ≤ 10 }
    {
        match self {
            Instruction::Relint => make_row(b"RELINT", Operand::Nothing, 1, Role::Plain),
            Instruction::Inhint => make_row(b"INHINT", Operand::Nothing, 1, Role::Plain),
            Instruction::Extend => make_row(b"EXTEND", Operand::Nothing, 1, Role::BeginsExtracode),
            Instruction::Resume => make_row(b"RESUME", Operand::Nothing, 2, Role::Plain),
            Instruction::Tc => make_row(b"TC", Operand::Long, 1, Role::Plain),
            Instruction::Ccs => make_row(b"CCS", Operand::Short, 2, Role::Plain),
            Instruction::Tcf => make_row(b"TCF", Operand::Long, 1, Role::Plain),
            Instruction::Das => make_row(b"DAS", Operand::ShortPair, 3, Role::Plain),
            Instruction::Lxch => make_row(b"LXCH", Operand::Short, 2, Role::Plain),
            Instruction::Incr => make_row(b"INCR", Operand::Short, 2, Role::Plain),
            Instruction::Ads => make_row(b"ADS", Operand::Short, 2, Role::Plain),
            Instruction::Ca => make_row(b"CA", Operand::Long, 2, Role::Plain),
            Instruction::Cs => make_row(b"CS", Operand::Long, 2, Role::Plain),
            Instruction::Index => make_row(b"INDEX", Operand::Long, 2, Role::KeepsExtracode),
            Instruction::Dxch => make_row(b"DXCH", Operand::ShortPair, 3, Role::Plain),
            Instruction::Ts => make_row(b"TS", Operand::Short, 2, Role::Plain),
            Instruction::Xch => make_row(b"XCH", Operand::Short, 2, Role::Plain),
            Instruction::Ad => make_row(b"AD", Operand::Long, 2, Role::Plain),
            Instruction::Mask => make_row(b"MASK", Operand::Long, 2, Role::Plain),
            Instruction::Read => make_row(b"READ", Operand::Channel, 2, Role::Plain),
            Instruction::Write => make_row(b"WRITE", Operand::Channel, 2, Role::PutsOut),
            Instruction::Rand => make_row(b"RAND", Operand::Channel, 2, Role::Plain),
            Instruction::Wand => make_row(b"WAND", Operand::Channel, 2, Role::PutsOut),
            Instruction::Ror => make_row(b"ROR", Operand::Channel, 2, Role::Plain),
            Instruction::Wor => make_row(b"WOR", Operand::Channel, 2, Role::PutsOut),
            Instruction::Rxor => make_row(b"RXOR", Operand::Channel, 2, Role::Plain),
            Instruction::Edrupt => make_row(b"EDRUPT", Operand::Channel, 3, Role::Plain),
            Instruction::Dv => make_row(b"DV", Operand::Short, 6, Role::Plain),
            Instruction::Bzf => make_row(b"BZF", Operand::Long, 2, Role::JumpsAtZero),
            Instruction::Msu => make_row(b"MSU", Operand::Short, 2, Role::Plain),
            Instruction::Qxch => make_row(b"QXCH", Operand::Short, 2, Role::Plain),
            Instruction::Aug => make_row(b"AUG", Operand::Short, 2, Role::Plain),
            Instruction::Dim => make_row(b"DIM", Operand::Short, 2, Role::Plain),
            Instruction::Dca => make_row(b"DCA", Operand::LongPair, 3, Role::Plain),
            Instruction::Dcs => make_row(b"DCS", Operand::LongPair, 3, Role::Plain),
            Instruction::Su => make_row(b"SU", Operand::Short, 2, Role::Plain),
            Instruction::Bzmf => make_row(b"BZMF", Operand::Long, 2, Role::JumpsAtZeroOrMinus),
            Instruction::Mp => make_row(b"MP", Operand::Long, 3, Role::Plain),
        }
    }
}

fn make_row(name: &'static [u8], operand: Operand, cycles: u8, role: Role) -> Row
    ensures name { result.name.now ≡ name.now }
    ensures operand { result.operand ≡ operand }
    ensures cycles { result.cycles ≡ cycles }
    ensures role { result.role ≡ role }
{
    Row {
        name,
        operand,
        cycles,
        role,
    }
}
