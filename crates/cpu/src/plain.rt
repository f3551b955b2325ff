//! Plain steps one by one, for one who looks at each.

ghost use Rattle.std.specs.Prelude.{◌≡◌, ◌+◌, ◌-◌, ◌≤◌, ◌^◌, None, IfSome, min, true, false};
ghost use Rattle.cpu.specs.declared.account.Account.TheVariants.{Place};
ghost use Rattle.cpu.specs.declared.next_step.NextStep.TheVariants.{Executes};
ghost use Rattle.cpu.specs.Bursts.{IsQuiet};
ghost use Rattle.cpu.specs.Effects.{next_address, place_in};
ghost use Rattle.cpu.specs.Next.{most_cycles, next, word_at_z};
ghost use Rattle.cpu.specs.NextStep.{next_step};
ghost use Rattle.cpu.specs.Profiles.{account_of};

use crate::machine::Machine;
use crate::next_step::Fetched;
use crate::processor::{MOST_STEP_CYCLES, Processor};
use words::Word;

impl Processor {
    /// For how many steps surely no input is due, where nothing waits and no interrupt is asked for.
    #[tactic(auto, using(crate::proofs::Quiet::quiet_before))]
    pub fn quiet_steps(&self, machine: &Machine) -> Option<u64>
        ensures { IfSome result (λ steps. IsQuiet self.now.scenario machine.now steps) }
    {
        if machine.is_still() {
            let silent = self.none_due_before(machine);
            Some(silent.saturating_sub(machine.cycles()) / MOST_STEP_CYCLES)
        } else {
            None
        }
    }

    /// What the next step executes, where it is one of so many quiet ones.
    #[inline(always)]
    #[tactic(auto, using(crate::proofs::Quiet::quiet_step, crate::proofs::Quiet::quiet_account))]
    pub fn fetched(&self, machine: &Machine, quiet: u64) -> Fetched
        requires quiet { IsQuiet self.now.scenario machine.now quiet }
        requires some { 1 ≤ quiet }
        ensures step { Executes result ≡ next_step self.now.scenario machine.now }
        ensures account { account_of self.now.scenario machine.now ≡ Place result.place }
        ensures place { result.place ≡ place_in machine.now (next_address machine.now) }
        ensures word { result.word ≡ word_at_z self.now.scenario.rope machine.now }
        ensures extra { result.extra ≡ machine.now.extra }
        ensures waited { result.waited ≡ false }
    {
        let _ = quiet;
        let (place, word) = machine.place_and_word_at_z(self.rope());
        Fetched {
            place,
            word,
            extra: machine.extra(),
            waited: false,
            added: None,
        }
    }

    /// Makes the next step, of so many quiet ones, where it executes a plain instruction, the word at Z; else leaves
    /// the machine as it is. The meter does not count it: who makes many counts them at once.
    #[inline(always)]
    #[tactic(auto, using(crate::proofs::Quiet::quiet_next, crate::proofs::Quiet::quiet_after))]
    pub fn make_plain(&self, machine: &mut Machine, word: Word, quiet: u64) -> bool
        requires quiet { IsQuiet self.now.scenario machine.old quiet }
        requires some { 1 ≤ quiet }
        requires few { machine.old.cycles ≤ most_cycles }
        requires word { word ≡ word_at_z self.now.scenario.rope machine.old }
        ensures left { result ≡ false → machine.new ≡ machine.old }
        ensures made { result ≡ true → (machine.new, None) ≡ next self.now.scenario machine.old }
        ensures quiet { result ≡ true → IsQuiet self.now.scenario machine.new (quiet - 1) }
    {
        let _ = quiet;
        if machine.extra() {
            machine.execute_extracode_word(self.rope(), word.to_u16())
        } else {
            match machine.execute_basic_word(self.rope(), word.to_u16()) {
                Some(_) => true,
                None => false,
            }
        }
    }
}
