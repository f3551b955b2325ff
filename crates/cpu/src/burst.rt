//! Plain instructions, many of which are executed one after another while nothing waits and nothing is asked for.

ghost use Rattle.std.specs.Prelude.{◌≡◌, ◌≤◌, true, false, None, IfSome};
ghost use Rattle.cpu.specs.Codes.{code_of, operand_of};
ghost use Rattle.cpu.specs.Next.{word_at_z, extra_after, fetched, execute, most_cycles};
ghost use Rattle.cpu.specs.Bursts.{IsStill, is_plain};

use crate::dispatch::{basic_entry, decode};
use crate::execute::extra_by;
use crate::instruction::Instruction;
use crate::machine::Machine;
use rope::Rope;
use space::Eras;

// Executes an instruction whose word the table has among those of TC, three of which are other instructions.
macro_rules! execute_among_transfers {
    ($machine:expr, $rope:expr, $word:expr) => {
        match decode($word, false) {
            Instruction::Relint => Some($machine.execute_as($rope, Instruction::Relint, $word, false)),
            Instruction::Inhint => Some($machine.execute_as($rope, Instruction::Inhint, $word, false)),
            Instruction::Extend => Some($machine.execute_as($rope, Instruction::Extend, $word, false)),
            Instruction::Tc => Some($machine.execute_as($rope, Instruction::Tc, $word, false)),
            _ => None,
        }
    };
}

// Executes an instruction outside extracode, where it is plain. Each has code of its own, in which what its row says is
// known. This is a macro, since a function that several loops call is compiled as a call.
macro_rules! execute_among_basic {
    ($machine:expr, $rope:expr, $word:expr) => {
        match basic_entry($word) {
            Instruction::Tc => execute_among_transfers!($machine, $rope, $word),
            Instruction::Ccs => Some($machine.execute_as($rope, Instruction::Ccs, $word, false)),
            Instruction::Tcf => Some($machine.execute_as($rope, Instruction::Tcf, $word, false)),
            Instruction::Das => Some($machine.execute_as($rope, Instruction::Das, $word, false)),
            Instruction::Lxch => Some($machine.execute_as($rope, Instruction::Lxch, $word, false)),
            Instruction::Incr => Some($machine.execute_as($rope, Instruction::Incr, $word, false)),
            Instruction::Ads => Some($machine.execute_as($rope, Instruction::Ads, $word, false)),
            Instruction::Ca => Some($machine.execute_as($rope, Instruction::Ca, $word, false)),
            Instruction::Cs => Some($machine.execute_as($rope, Instruction::Cs, $word, false)),
            Instruction::Dxch => Some($machine.execute_as($rope, Instruction::Dxch, $word, false)),
            Instruction::Ts => Some($machine.execute_as($rope, Instruction::Ts, $word, false)),
            Instruction::Xch => Some($machine.execute_as($rope, Instruction::Xch, $word, false)),
            Instruction::Ad => Some($machine.execute_as($rope, Instruction::Ad, $word, false)),
            Instruction::Mask => Some($machine.execute_as($rope, Instruction::Mask, $word, false)),
            _ => None,
        }
    };
}

// The same under extracode: tells whether it is plain.
macro_rules! execute_among_extracodes {
    ($machine:expr, $rope:expr, $word:expr) => {
        match decode($word, true) {
            Instruction::Read => !$machine.execute_as($rope, Instruction::Read, $word, true),
            Instruction::Rand => !$machine.execute_as($rope, Instruction::Rand, $word, true),
            Instruction::Ror => !$machine.execute_as($rope, Instruction::Ror, $word, true),
            Instruction::Rxor => !$machine.execute_as($rope, Instruction::Rxor, $word, true),
            Instruction::Edrupt => !$machine.execute_as($rope, Instruction::Edrupt, $word, true),
            Instruction::Dv => !$machine.execute_as($rope, Instruction::Dv, $word, true),
            Instruction::Bzf => !$machine.execute_as($rope, Instruction::Bzf, $word, true),
            Instruction::Msu => !$machine.execute_as($rope, Instruction::Msu, $word, true),
            Instruction::Qxch => !$machine.execute_as($rope, Instruction::Qxch, $word, true),
            Instruction::Aug => !$machine.execute_as($rope, Instruction::Aug, $word, true),
            Instruction::Dim => !$machine.execute_as($rope, Instruction::Dim, $word, true),
            Instruction::Dca => !$machine.execute_as($rope, Instruction::Dca, $word, true),
            Instruction::Dcs => !$machine.execute_as($rope, Instruction::Dcs, $word, true),
            Instruction::Su => !$machine.execute_as($rope, Instruction::Su, $word, true),
            Instruction::Bzmf => !$machine.execute_as($rope, Instruction::Bzmf, $word, true),
            Instruction::Mp => !$machine.execute_as($rope, Instruction::Mp, $word, true),
            _ => false,
        }
    };
}

impl Machine {
    /// Whether surely nothing waits, and no interrupt is asked for.
    pub(crate) fn is_still(&self) -> bool
        ensures { result ≡ true → IsStill self.now }
    {
        !self.asks() && !self.waits()
    }

    /// Executes the instruction at Z where that is plain, and answers whether extracode is in force then.
    #[inline(always)]
    pub(crate) fn execute_basic(&mut self, rope: &Rope) -> Option<bool>
        requires still { IsStill self.old }
        requires few { self.old.cycles ≤ most_cycles }
        requires basic { self.old.extra ≡ false }
        ensures left { result ≡ None → self.new ≡ self.old }
        ensures made { IfSome result (λ _. (self.new, None) ≡ execute rope.now self.old) }
        ensures extra { IfSome result (λ extra. self.new.extra ≡ extra) }
        ensures still { IsStill self.new }
    {
        let word = self.word_at_z(rope).to_u16();
        execute_among_basic!(self, rope, word)
    }

    /// The same of a word that was read, for loops that look at each word.
    #[inline(always)]
    pub(crate) fn execute_basic_word(&mut self, rope: &Rope, held: u16) -> Option<bool>
        requires still { IsStill self.old }
        requires few { self.old.cycles ≤ most_cycles }
        requires basic { self.old.extra ≡ false }
        requires word { held ≡ word_at_z rope.now self.old }
        ensures left { result ≡ None → self.new ≡ self.old }
        ensures made { IfSome result (λ _. (self.new, None) ≡ execute rope.now self.old) }
        ensures extra { IfSome result (λ extra. self.new.extra ≡ extra) }
        ensures still { IsStill self.new }
    {
        execute_among_basic!(self, rope, held)
    }

    /// The same under extracode, which is not in force afterwards: tells whether the instruction is plain.
    #[inline(always)]
    pub(crate) fn execute_extracode(&mut self, rope: &Rope) -> bool
        requires still { IsStill self.old }
        requires few { self.old.cycles ≤ most_cycles }
        requires extracode { self.old.extra ≡ true }
        ensures left { result ≡ false → self.new ≡ self.old }
        ensures made { result ≡ true → (self.new, None) ≡ execute rope.now self.old }
        ensures basic { result ≡ true → self.new.extra ≡ false }
        ensures still { IsStill self.new }
    {
        let word = self.word_at_z(rope).to_u16();
        execute_among_extracodes!(self, rope, word)
    }

    /// The same of a word that was read.
    #[inline(always)]
    pub(crate) fn execute_extracode_word(&mut self, rope: &Rope, held: u16) -> bool
        requires still { IsStill self.old }
        requires few { self.old.cycles ≤ most_cycles }
        requires extracode { self.old.extra ≡ true }
        requires word { held ≡ word_at_z rope.now self.old }
        ensures left { result ≡ false → self.new ≡ self.old }
        ensures made { result ≡ true → (self.new, None) ≡ execute rope.now self.old }
        ensures basic { result ≡ true → self.new.extra ≡ false }
        ensures still { IsStill self.new }
    {
        execute_among_extracodes!(self, rope, held)
    }

    /// Executes a plain instruction, whose word stands at Z, and answers whether extracode is in force then.
    #[inline(always)]
    #[tactic(auto, using(crate::proofs::Bursts::plain_steps), unfolding(crate::specs::Next::executed))]
    fn execute_as(&mut self, rope: &Rope, instruction: Instruction, word: u16, extra: bool) -> bool
        requires still { IsStill self.old }
        requires few { self.old.cycles ≤ most_cycles }
        requires plain { is_plain instruction ≡ true }
        requires extra { self.old.extra ≡ extra }
        requires instruction { (code_of extra (word_at_z rope.now self.old)).instruction ≡ instruction }
        requires operand { (code_of extra (word_at_z rope.now self.old)).operand ≡ operand_of instruction word }
        ensures made { (self.new, None) ≡ execute rope.now self.old }
        ensures still { IsStill self.new }
        ensures extra { self.new.extra ≡ result }
        ensures after { result ≡ extra_after instruction extra }
    {
        self.pass();
        let row = instruction.row();
        let taken = self.cycles_by(row.role, row.cycles);
        let cycles = self.cycles().wrapping_add(u64::from(taken));
        let extra_then = extra_by(row.role, extra);
        self.perform(rope, instruction, word);
        self.end_plain(extra, extra_then, cycles);
        extra_then
    }

    /// Moves Z on, where nothing waits.
    #[inline(always)]
    #[tactic(auto, unfolding(crate::specs::Next::fetched))]
    fn pass(&mut self)
        requires { IsStill self.old }
        ensures { self.new ≡ fetched self.old }
    {
        let following = self.following_address();
        self.put(Eras::Z, following);
    }
}
