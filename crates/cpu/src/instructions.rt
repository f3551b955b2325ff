//! Each instruction.

ghost use Rattle.std.specs.Prelude.{◌≡◌, ◌+◌, ◌≤◌, true, false, if◌then◌else◌};
ghost use Rattle.words.specs.Numbers.{neg_wide};
ghost use Rattle.cpu.specs.Effects.{changes, carry, ccs_skip, exchange, is_at_zero, is_at_zero_or_minus, tc, ccs, tcf};
ghost use Rattle.cpu.specs.Effects.{ca, cs, ad, su, mask, ts, xch, lxch, qxch, dxch, ads, incr, aug, dim, das, dca};
ghost use Rattle.cpu.specs.Effects.{dcs, index, mp, dv, msu, bzf, bzmf, relint, inhint, resume};

use crate::address::{Addr10, before};
use crate::bits::{and, is_whole};
use crate::machine::Machine;
use rope::Rope;
use space::{Addr12, Eras};
use words::{Overflow, Wide, div};

// Does something with what is read at an address, and stores that there again where it edits. Most places are no
// registers and do not edit, so these have code of their own.
macro_rules! reading {
    ($machine:expr, $rope:expr, $address:expr, |$read:ident| $effect:block) => {{
        let address = $address;
        if let Some($read) = $machine.reading_plain($rope, address) {
            $effect
        } else {
            let $read = $machine.reading_erasable($rope, address);
            $effect
            $machine.edit(&$read);
        }
    }};
}

// The same with what is read at two addresses that follow one another, the second of which is given.
macro_rules! reading_two {
    ($machine:expr, $rope:expr, $address:expr, |$high:ident, $low:ident| $effect:block) => {{
        let $high = $machine.reading($rope, before($address));
        let $low = $machine.reading($rope, $address);
        $effect
        $machine.edit(&$high);
        $machine.edit(&$low);
    }};
}

impl Machine {
    /// TC: Q takes the address after this instruction, and the next one is at the address. The address 2, which is Q's
    /// own, leaves Q as it is: so a program returns.
    #[inline(always)]
    #[tactic(auto, unfolding(crate::specs::Effects::tc, crate::specs::Effects::tcf))]
    pub(crate) fn transfer_control(&mut self, address: Addr12)
        ensures { self.new ≡ changes self.old (tc self.old address) }
    {
        let next = Wide::of_u16(self.next_address().number());
        if address.number() != Eras::Q.number() {
            self.put(Eras::Q, next);
        }
        self.jump(address);
    }

    /// CCS: A takes the magnitude less one of what is read, not below +0. Above +0 nothing is skipped, at +0 one
    /// instruction, below -0 two, at -0 three.
    #[inline(always)]
    #[tactic(auto, unfolding(crate::specs::Effects::ccs))]
    pub(crate) fn count_compare_and_skip(&mut self, rope: &Rope, address: Addr10)
        ensures { self.new ≡ changes self.old (ccs rope.now self.old address) }
    {
        reading!(self, rope, address.widen(), |count| {
            let next = self.next_address().number() + ccs_skip(count.value);
            self.put(Eras::A, count.value.dabs());
            self.put(Eras::Z, Wide::of_u16(next));
        });
    }

    /// TCF: the next instruction is at the address, and Q stays.
    #[inline(always)]
    #[tactic(auto, unfolding(crate::specs::Effects::tcf))]
    pub(crate) fn jump(&mut self, address: Addr12)
        ensures { self.new ≡ changes self.old (tcf address) }
    {
        self.put(Eras::Z, Wide::of_u16(address.number()));
    }

    /// CA: A takes what is read. Of A and Q that is all 16 bits, of other places the word, extended.
    #[inline(always)]
    #[tactic(auto, unfolding(crate::specs::Effects::ca))]
    pub(crate) fn clear_and_add(&mut self, rope: &Rope, address: Addr12)
        ensures { self.new ≡ changes self.old (ca rope.now self.old address) }
    {
        reading!(self, rope, address, |read| {
            self.put(Eras::A, read.value);
        });
    }

    /// CS: A takes the complement of what is read.
    #[inline(always)]
    #[tactic(auto, unfolding(crate::specs::Effects::cs))]
    pub(crate) fn clear_and_subtract(&mut self, rope: &Rope, address: Addr12)
        ensures { self.new ≡ changes self.old (cs rope.now self.old address) }
    {
        reading!(self, rope, address, |operand| {
            self.put(Eras::A, operand.value.neg());
        });
    }

    /// AD: what is read is added to A, which keeps all 16 bits of the sum, and so its overflow.
    #[inline(always)]
    #[tactic(auto, unfolding(crate::specs::Effects::ad))]
    pub(crate) fn add(&mut self, rope: &Rope, address: Addr12)
        ensures { self.new ≡ changes self.old (ad rope.now self.old address) }
    {
        reading!(self, rope, address, |addend| {
            let sum = self.reg(Eras::A).add(addend.value);
            self.put(Eras::A, sum);
        });
    }

    /// SU: the complement of what is read is added to A, which keeps all 16 bits of the sum.
    #[tactic(auto, unfolding(crate::specs::Effects::su))]
    pub(crate) fn subtract(&mut self, rope: &Rope, address: Addr10)
        ensures { self.new ≡ changes self.old (su rope.now self.old address) }
    {
        reading!(self, rope, address.widen(), |subtrahend| {
            let difference = self.reg(Eras::A).add(subtrahend.value.neg());
            self.put(Eras::A, difference);
        });
    }

    /// MASK: A keeps the bits that stand in it and in what is read too: all 16 of A and Q, of other places those of the
    /// two words, extended.
    #[inline(always)]
    #[tactic(auto, unfolding(crate::specs::Effects::mask))]
    pub(crate) fn mask(&mut self, rope: &Rope, address: Addr12)
        ensures { self.new ≡ changes self.old (mask rope.now self.old address) }
    {
        reading!(self, rope, address, |mask| {
            let masked = and(is_whole(&mask.place), self.reg(Eras::A), mask.value);
            self.put(Eras::A, masked);
        });
    }

    /// TS: the place takes A. Where A overflows it takes the corrected word, A takes +1 or -1 by the overflow's
    /// direction, and the next instruction is skipped. TS A then skips alone, and A keeps its 16 bits; TS Z stores and
    /// sets A, and does not skip.
    #[inline(always)]
    #[tactic(auto, unfolding(crate::specs::Effects::ts))]
    pub(crate) fn transfer_to_storage(&mut self, address: Addr10)
        ensures { self.new ≡ changes self.old (ts self.old address) }
    {
        let place = self.erasable(address);
        let value = self.reg(Eras::A);
        let corrected = value.correct().extend();
        let skip = Wide::of_u16(self.next_address().number() + 1);
        let overflow = value.overflow();
        if overflow == Overflow::No {
            self.put(place, value);
        } else if place == Eras::A {
            self.put(Eras::Z, skip);
        } else if place == Eras::Z {
            self.put(place, corrected);
            self.put(Eras::A, carry(overflow));
        } else {
            self.put(place, corrected);
            self.put(Eras::A, carry(overflow));
            self.put(Eras::Z, skip);
        }
    }

    /// A register and a place are exchanged.
    #[inline(always)]
    fn exchange(&mut self, register: Eras, place: Eras)
        ensures { self.new ≡ changes self.old (exchange self.old register place) }
    {
        let from_register = self.reg(register);
        let from_place = self.reg_at(place);
        self.put(register, from_place);
        self.put(place, from_register);
    }

    /// XCH: A and a place are exchanged.
    #[inline(always)]
    #[tactic(auto, unfolding(crate::specs::Effects::xch))]
    pub(crate) fn exchange_a(&mut self, address: Addr10)
        ensures { self.new ≡ changes self.old (xch self.old address) }
    {
        let place = self.erasable(address);
        self.exchange(Eras::A, place);
    }

    /// LXCH: L and a place are exchanged.
    #[tactic(auto, unfolding(crate::specs::Effects::lxch))]
    pub(crate) fn exchange_l(&mut self, address: Addr10)
        ensures { self.new ≡ changes self.old (lxch self.old address) }
    {
        let place = self.erasable(address);
        self.exchange(Eras::L, place);
    }

    /// QXCH: Q and a place are exchanged.
    #[tactic(auto, unfolding(crate::specs::Effects::qxch))]
    pub(crate) fn exchange_q(&mut self, address: Addr10)
        ensures { self.new ≡ changes self.old (qxch self.old address) }
    {
        let place = self.erasable(address);
        self.exchange(Eras::Q, place);
    }

    /// DXCH: L and the second of two places are exchanged, and then A and the first.
    #[tactic(auto, unfolding(crate::specs::Effects::dxch))]
    pub(crate) fn double_exchange(&mut self, address: Addr10)
        ensures { self.new ≡ dxch self.old address }
    {
        let low = self.erasable(address);
        let high = self.erasable(address.before());
        self.exchange(Eras::L, low);
        self.exchange(Eras::A, high);
    }

    /// ADS: the sum of A and a place goes to the place, corrected, and then to A, with its overflow.
    #[tactic(auto, unfolding(crate::specs::Effects::ads))]
    pub(crate) fn add_to_storage(&mut self, address: Addr10)
        ensures { self.new ≡ changes self.old (ads self.old address) }
    {
        let place = self.erasable(address);
        let sum = self.reg(Eras::A).add(self.reg(place));
        self.put(place, sum.correct().extend());
        self.put(Eras::A, sum);
    }

    /// INCR: one is added to a place. A counter that overflows so asks for nothing.
    #[inline(always)]
    #[tactic(auto, unfolding(crate::specs::Effects::incr))]
    pub(crate) fn increment(&mut self, address: Addr10)
        ensures { self.new ≡ changes self.old (incr self.old address) }
    {
        let place = self.erasable(address);
        let sum = self.reg_at(place).add(Wide::ONE);
        self.put(place, sum);
    }

    /// AUG: a place's magnitude grows by one: -1 is added where bit 16 is set, at -0 too, else +1.
    #[tactic(auto, unfolding(crate::specs::Effects::aug))]
    pub(crate) fn augment(&mut self, address: Addr10)
        ensures { self.new ≡ changes self.old (aug self.old address) }
    {
        let place = self.erasable(address);
        let value = self.reg(place);
        self.put(place, value.add(unit(value.is_minus())));
    }

    /// DIM: a place's magnitude falls by one, and +1 and -1 become -0. Both zeros stay as they are.
    #[tactic(auto, unfolding(crate::specs::Effects::dim))]
    pub(crate) fn diminish(&mut self, address: Addr10)
        ensures { self.new ≡ changes self.old (dim self.old address) }
    {
        let place = self.erasable(address);
        let value = self.reg(place);
        if !value.is_zero() {
            self.put(place, value.add(unit(!value.is_minus())));
        }
    }

    /// DAS: A and L are added to two places, and the carry of the lower sum to the higher. The places take the
    /// corrected sums, L +0, and A the higher sum's carry. DAS A leaves both sums in A and L.
    #[tactic(auto, unfolding(crate::specs::Effects::das))]
    pub(crate) fn double_add_to_storage(&mut self, address: Addr10)
        ensures { self.new ≡ changes self.old (das self.old address) }
    {
        let low = self.erasable(address);
        let high = self.erasable(address.before());
        let low_sum = self.reg(Eras::L).add(self.reg(low));
        let carried = carry(low_sum.overflow());
        let high_sum = self.reg(Eras::A).add(self.reg(high)).add(carried);
        if high == Eras::A {
            self.put(Eras::L, low_sum.correct().extend());
            self.put(Eras::A, high_sum);
        } else {
            self.put(low, low_sum.correct().extend());
            self.put(high, high_sum.correct().extend());
            self.put(Eras::L, Wide::ZERO);
            self.put(Eras::A, carry(high_sum.overflow()));
        }
    }

    /// DCA: A takes what is read at the first of two addresses, and then L what was read at the second. Both reads come
    /// before.
    #[tactic(auto, using(crate::proofs::ChangeLaws::changes_append), unfolding(crate::specs::Effects::dca))]
    pub(crate) fn double_clear_and_add(&mut self, rope: &Rope, address: Addr12)
        ensures { self.new ≡ changes self.old (dca rope.now self.old address) }
    {
        reading_two!(self, rope, address, |high, low| {
            self.put(Eras::A, high.value);
            self.put(Eras::L, low.value);
        });
    }

    /// DCS: A and L take the complements of what is read at two addresses.
    #[tactic(auto, using(crate::proofs::ChangeLaws::changes_append), unfolding(crate::specs::Effects::dcs))]
    pub(crate) fn double_clear_and_subtract(&mut self, rope: &Rope, address: Addr12)
        ensures { self.new ≡ changes self.old (dcs rope.now self.old address) }
    {
        reading_two!(self, rope, address, |high, low| {
            self.put(Eras::A, high.value.neg());
            self.put(Eras::L, low.value.neg());
        });
    }

    /// INDEX: what is read is added to the next word before that is executed. Extracode that is in force stays in
    /// force.
    #[inline(always)]
    #[tactic(auto, unfolding(crate::specs::Effects::index))]
    pub(crate) fn index(&mut self, rope: &Rope, address: Addr12)
        ensures { self.new ≡ changes self.old (index rope.now self.old address) }
    {
        reading!(self, rope, address, |increment| {
            self.wait_with_sum(increment.value);
        });
    }

    /// MP: A and L take the halves of the product of A's word and what is read, each with the product's sign.
    #[tactic(auto, unfolding(crate::specs::Effects::mp))]
    pub(crate) fn multiply(&mut self, rope: &Rope, address: Addr12)
        ensures { self.new ≡ changes self.old (mp rope.now self.old address) }
    {
        reading!(self, rope, address, |multiplier| {
            let product = self.word(Eras::A).mul(multiplier.value.correct());
            self.put(Eras::A, product.high.extend());
            self.put(Eras::L, product.low.extend());
        });
    }

    /// DV: A takes the quotient of A's and L's words by what is read, and L the remainder. A quotient that does not fit
    /// is told as the greatest magnitude, and L stays.
    #[tactic(auto, unfolding(crate::specs::Effects::dv))]
    pub(crate) fn divide(&mut self, rope: &Rope, address: Addr10)
        ensures { self.new ≡ changes self.old (dv rope.now self.old address) }
    {
        reading!(self, rope, address.widen(), |divisor| {
            let quotient = div(
                self.word(Eras::A),
                self.word(Eras::L),
                divisor.value.correct(),
            );
            self.put(Eras::A, quotient.quotient.extend());
            self.put(Eras::L, quotient.remainder.extend());
        });
    }

    /// MSU: A takes the difference of A's word and what is read as angles, unsigned modulo 2^15, as a word in ones'
    /// complement.
    #[tactic(auto, unfolding(crate::specs::Effects::msu))]
    pub(crate) fn modular_subtract(&mut self, rope: &Rope, address: Addr10)
        ensures { self.new ≡ changes self.old (msu rope.now self.old address) }
    {
        reading!(self, rope, address.widen(), |other| {
            let difference = self.word(Eras::A).modular_sub(other.value.correct());
            self.put(Eras::A, difference.extend());
        });
    }

    /// BZF: the next instruction is at the address, where A is +0 or -0 in all its 16 bits.
    #[tactic(auto, unfolding(crate::specs::Effects::bzf, crate::specs::Effects::tcf))]
    pub(crate) fn branch_on_zero(&mut self, address: Addr12)
        ensures { self.new ≡ changes self.old (bzf self.old address) }
    {
        if self.is_at_zero() {
            self.jump(address);
        }
    }

    /// BZMF: the next instruction is at the address, where A is +0 or -0, or bit 16 of it is set.
    #[tactic(auto, unfolding(crate::specs::Effects::bzmf, crate::specs::Effects::tcf))]
    pub(crate) fn branch_on_zero_or_minus(&mut self, address: Addr12)
        ensures { self.new ≡ changes self.old (bzmf self.old address) }
    {
        if self.is_at_zero_or_minus() {
            self.jump(address);
        }
    }

    /// Whether A is +0 or -0.
    pub(crate) fn is_at_zero(&self) -> bool
        ensures { result ≡ is_at_zero self.now }
    {
        self.reg(Eras::A).is_zero()
    }

    /// Whether A is +0 or -0 or bit 16 of it is set.
    pub(crate) fn is_at_zero_or_minus(&self) -> bool
        ensures { result ≡ is_at_zero_or_minus self.now }
    {
        self.is_at_zero() || self.reg(Eras::A).is_minus()
    }

    /// RELINT: interrupts may be entered from now on.
    #[tactic(auto, unfolding(crate::specs::Effects::relint))]
    pub(crate) fn allow_interrupts(&mut self)
        ensures { self.new ≡ changes self.old relint }
    {
        self.set_inhibit(false);
    }

    /// INHINT: no interrupt is entered from now on.
    #[tactic(auto, unfolding(crate::specs::Effects::inhint))]
    pub(crate) fn inhibit_interrupts(&mut self)
        ensures { self.new ≡ changes self.old inhint }
    {
        self.set_inhibit(true);
    }

    /// RESUME: ends an interrupt. Z takes what ZRUPT holds, and the word that BRUPT holds is executed next, in place of
    /// one that is fetched.
    #[tactic(auto, unfolding(crate::specs::Effects::resume))]
    pub(crate) fn resume(&mut self)
        ensures { self.new ≡ changes self.old (resume self.old) }
    {
        let address = self.reg(Eras::ZRUPT);
        let word = self.word(Eras::BRUPT);
        self.put(Eras::Z, address);
        self.wait_with_word(word);
        self.set_inside(false);
    }
}

/// What an overflow leaves in A.
fn carry(overflow: Overflow) -> Wide
    ensures { result ≡ carry overflow }
{
    match overflow {
        Overflow::No => Wide::ZERO,
        Overflow::Plus => Wide::ONE,
        Overflow::Minus => Wide::ONE.neg(),
    }
}

/// -1 or +1
fn unit(minus: bool) -> Wide
    ensures { result ≡ (if minus then neg_wide 1 else 1) }
{
    if minus { Wide::ONE.neg() } else { Wide::ONE }
}

/// How many instructions CCS skips.
fn ccs_skip(value: Wide) -> u16
    ensures skip { result ≡ ccs_skip value }
    ensures few { result ≤ 3 }
{
    if value == Wide::ZERO {
        1
    } else if value == Wide::MINUS_ZERO {
        3
    } else if value.is_minus() {
        2
    } else {
        0
    }
}
