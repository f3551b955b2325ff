//! Executing one instruction, and entering an interrupt.

ghost use Rattle.std.specs.Prelude.{◌≡◌, ◌+◌, ◌*◌, ◌%◌, ◌^◌, ◌≤◌, Some, None, true, false, if◌then◌else◌};
ghost use Rattle.cpu.specs.Codes.{operand_of};
ghost use Rattle.cpu.specs.Effects.{after, next_address, place_in};
ghost use Rattle.cpu.specs.Next.{following_address, word_at_z, instruction_word, fetched, extra_by, written_by};
ghost use Rattle.cpu.specs.Next.{output_on, jumps_by, jump_cycles, entry, entered, execute, most_cycles};

use crate::address::{Addr10, address_of_word, channel_of_word};
use crate::dispatch::decode;
use crate::instruction::{Instruction, Role};
use crate::machine::{FIRST_ADDRESS, FIRST_SWITCHED, Machine};
use crate::output::Output;
use feed::Interrupt;
use rope::Rope;
use space::{Chan, Eras, FIRST_FIXED, Linear, resolve_fixed};
use words::{Overflow, Wide, Word};

/// The cycles that the entry of an interrupt takes.
const ENTRY_CYCLES: u64 = 3;

/// The cycles of a branch that jumps.
const JUMP_CYCLES: u8 = 1;

impl Machine {
    /// The word at Z.
    #[inline(always)]
    #[tactic(auto, unfolding(crate::specs::Effects::place_in, crate::specs::Effects::value_at))]
    pub(crate) fn word_at_z(&self, rope: &Rope) -> Word
        ensures { result ≡ word_at_z rope.now self.now }
    {
        let address = self.next_address();
        if address.number() >= FIRST_FIXED {
            let (bank, offset) = resolve_fixed(address);
            rope.word(bank, offset)
        } else if address.number() >= FIRST_SWITCHED {
            let (bank, offset) = self.switched(address);
            rope.word(bank, offset)
        } else {
            self.word_in_erasable(rope)
        }
    }

    /// The place of Z, and the word there.
    #[inline(always)]
    #[tactic(auto, unfolding(crate::specs::Effects::place_in, crate::specs::Effects::value_at))]
    pub(crate) fn place_and_word_at_z(&self, rope: &Rope) -> (Linear, Word)
        ensures place { result.0 ≡ place_in self.now (next_address self.now) }
        ensures word { result.1 ≡ word_at_z rope.now self.now }
    {
        let address = self.next_address();
        if address.number() >= FIRST_FIXED {
            let (bank, offset) = resolve_fixed(address);
            (Linear::Fixed(bank, offset), rope.word(bank, offset))
        } else if address.number() >= FIRST_SWITCHED {
            let (bank, offset) = self.switched(address);
            (Linear::Fixed(bank, offset), rope.word(bank, offset))
        } else {
            (self.next_place(), self.word_in_erasable(rope))
        }
    }

    /// The word at Z, in erasable memory, where few programs stand.
    #[inline(never)]
    fn word_in_erasable(&self, rope: &Rope) -> Word
        ensures { result ≡ word_at_z rope.now self.now }
    {
        self.word_at(rope, &self.next_place())
    }

    /// The word that is executed: the one that waits or the one at Z, with the sum that waits.
    #[tactic(auto, unfolding(crate::specs::Next::instruction_word))]
    pub(crate) fn instruction_word(&self, rope: &Rope) -> Word
        ensures { result ≡ instruction_word rope.now self.now }
    {
        let word = match self.waiting_word() {
            Some(word) => word,
            None => self.word_at_z(rope),
        };
        match self.waiting_sum() {
            Some(sum) => word.extend().add(sum).correct(),
            None => word,
        }
    }

    /// The address after Z.
    pub(crate) fn following_address(&self) -> Wide
        ensures { result ≡ following_address self.now }
    {
        Wide::of_u16((self.next_address().number() + 1) % 0o10000)
    }

    /// Moves Z on, and uses up what waits.
    #[tactic(auto, unfolding(crate::specs::Next::fetched))]
    fn advance(&mut self)
        ensures { self.new ≡ fetched self.old }
    {
        if self.waiting_word().is_none() {
            let following = self.following_address();
            self.put(Eras::Z, following);
        }
        self.use_up();
    }

    /// Fetches the word that is executed.
    #[inline(always)]
    #[tactic(auto, unfolding(crate::specs::Next::instruction_word, crate::specs::Next::fetched))]
    fn fetch(&mut self, rope: &Rope) -> Word
        ensures word { result ≡ instruction_word rope.now self.old }
        ensures state { self.new ≡ fetched self.old }
    {
        if self.waits() {
            self.fetch_with_waiting(rope)
        } else {
            let word = self.word_at_z(rope);
            let following = self.following_address();
            self.put(Eras::Z, following);
            word
        }
    }

    /// Fetches the word that is executed, where a sum or a word may wait.
    #[inline(never)]
    fn fetch_with_waiting(&mut self, rope: &Rope) -> Word
        ensures word { result ≡ instruction_word rope.now self.old }
        ensures state { self.new ≡ fetched self.old }
    {
        let word = self.instruction_word(rope);
        self.advance();
        word
    }

    /// Executes one instruction.
    #[inline(always)]
    #[tactic(auto, unfolding(crate::specs::Next::execute, crate::specs::Next::executed, crate::specs::Next::fetched))]
    pub(crate) fn execute(&mut self, rope: &Rope) -> Option<Output>
        ensures state { self.old.cycles ≤ most_cycles → self.new ≡ (execute rope.now self.old).0 }
        ensures output { self.old.cycles ≤ most_cycles → result ≡ (execute rope.now self.old).1 }
    {
        let word = self.fetch(rope).to_u16();
        let extra = self.extra();
        let instruction = decode(word, extra);
        let row = instruction.row();
        let taken = self.cycles_by(row.role, row.cycles);
        let cycles = self.cycles().wrapping_add(u64::from(taken));
        self.perform(rope, instruction, word);
        self.end_instruction(extra_by(row.role, extra), cycles);
        self.output(written_by(row.role, word))
    }

    /// The effect of an instruction, with its operand in a word.
    #[inline(always)]
    #[tactic(auto, unfolding(crate::specs::Effects::after))]
    pub(crate) fn perform(&mut self, rope: &Rope, instruction: Instruction, word: u16)
        ensures { self.new ≡ after rope.now self.old instruction (operand_of instruction word) }
    {
        let short = Addr10::of_word(word);
        let address = address_of_word(word);
        let channel = channel_of_word(word);
        match instruction {
            Instruction::Relint => self.allow_interrupts(),
            Instruction::Inhint => self.inhibit_interrupts(),
            Instruction::Extend => {}
            Instruction::Resume => self.resume(),
            Instruction::Tc => self.transfer_control(address),
            Instruction::Ccs => self.count_compare_and_skip(rope, short),
            Instruction::Tcf => self.jump(address),
            Instruction::Das => self.double_add_to_storage(short),
            Instruction::Lxch => self.exchange_l(short),
            Instruction::Incr => self.increment(short),
            Instruction::Ads => self.add_to_storage(short),
            Instruction::Ca => self.clear_and_add(rope, address),
            Instruction::Cs => self.clear_and_subtract(rope, address),
            Instruction::Index => self.index(rope, address),
            Instruction::Dxch => self.double_exchange(short),
            Instruction::Ts => self.transfer_to_storage(short),
            Instruction::Xch => self.exchange_a(short),
            Instruction::Ad => self.add(rope, address),
            Instruction::Mask => self.mask(rope, address),
            Instruction::Read => self.read_channel(channel),
            Instruction::Write => self.write_channel(channel),
            Instruction::Rand => self.read_and(channel),
            Instruction::Wand => self.write_and(channel),
            Instruction::Ror => self.read_or(channel),
            Instruction::Wor => self.write_or(channel),
            Instruction::Rxor => self.read_xor(channel),
            Instruction::Edrupt => {}
            Instruction::Dv => self.divide(rope, short),
            Instruction::Bzf => self.branch_on_zero(address),
            Instruction::Msu => self.modular_subtract(rope, short),
            Instruction::Qxch => self.exchange_q(short),
            Instruction::Aug => self.augment(short),
            Instruction::Dim => self.diminish(short),
            Instruction::Dca => self.double_clear_and_add(rope, address),
            Instruction::Dcs => self.double_clear_and_subtract(rope, address),
            Instruction::Su => self.subtract(rope, short),
            Instruction::Bzmf => self.branch_on_zero_or_minus(address),
            Instruction::Mp => self.multiply(rope, address),
        }
    }

    /// The cycles that an instruction of a role takes, which takes so many where it does not jump.
    #[inline(always)]
    pub(crate) fn cycles_by(&self, role: Role, cycles: u8) -> u8
        ensures { result ≡ (if jumps_by self.now role then jump_cycles else cycles) }
    {
        if self.jumps(role) {
            JUMP_CYCLES
        } else {
            cycles
        }
    }

    /// Whether an instruction of a role jumps, for those that take fewer cycles then.
    #[inline(always)]
    fn jumps(&self, role: Role) -> bool
        ensures { result ≡ jumps_by self.now role }
    {
        match role {
            Role::JumpsAtZero => self.is_at_zero(),
            Role::JumpsAtZeroOrMinus => self.is_at_zero_or_minus(),
            _ => false,
        }
    }

    /// The interrupt that is entered now.
    #[inline(always)]
    #[tactic(auto, unfolding(crate::specs::Next::entry))]
    pub(crate) fn entry(&self) -> Option<Interrupt>
        ensures { result ≡ entry self.now }
    {
        if self.asks() {
            self.entry_of_asked()
        } else {
            None
        }
    }

    /// The interrupt that is entered now, where one may be asked for.
    #[inline(never)]
    #[tactic(auto, unfolding(crate::specs::Next::entry))]
    fn entry_of_asked(&self) -> Option<Interrupt>
        ensures { result ≡ entry self.now }
    {
        if self.inhibit() || self.inside() || self.extra() {
            return None;
        }
        if self.waiting_sum().is_some() || self.waiting_word().is_some() {
            return None;
        }
        if self.reg(Eras::A).overflow() != Overflow::No {
            return None;
        }
        self.least_request()
    }

    /// Enters an interrupt.
    #[inline(never)]
    #[tactic(auto, unfolding(crate::specs::Next::entered))]
    pub(crate) fn enter(&mut self, rope: &Rope, request: Interrupt)
        requires { self.old.cycles ≤ most_cycles }
        ensures { self.new ≡ entered rope.now self.old request }
    {
        let following = self.following_address();
        let word = self.word_at_z(rope);
        self.put(Eras::BRUPT, word.extend());
        self.put(Eras::ZRUPT, following);
        self.put(
            Eras::Z,
            Wide::of_u16(FIRST_ADDRESS + 4 * u16::from(request.number())),
        );
        self.set_inside(true);
        self.withdraw(request);
        self.add_cycles(ENTRY_CYCLES);
    }

    /// What goes out on a channel: nothing where it is a register or the superbank's.
    fn output(&self, channel: Option<Chan>) -> Option<Output>
        ensures { result ≡ output_on self.now channel }
    {
        let channel = channel?;
        if channel == Chan::L || channel == Chan::Q || channel == Chan::SUPERBANK {
            return None;
        }
        Some(Output {
            cycles: self.cycles(),
            channel,
            word: self.channel(channel).correct(),
        })
    }
}

/// Whether extracode is in force after an instruction of a role.
#[inline(always)]
pub(crate) fn extra_by(role: Role, extra: bool) -> bool
    ensures { result ≡ extra_by role extra }
{
    match role {
        Role::BeginsExtracode => true,
        Role::KeepsExtracode => extra,
        _ => false,
    }
}

/// The channel that an instruction of a role writes, with its operand in a word.
#[inline(always)]
fn written_by(role: Role, word: u16) -> Option<Chan>
    ensures { result ≡ written_by role (word % 2 ^ 9) }
{
    match role {
        Role::PutsOut => Some(channel_of_word(word)),
        _ => None,
    }
}
