//! The instructions on channels.

ghost use Rattle.std.specs.Prelude.{◌≡◌};
ghost use Rattle.words.specs.BitSums.{and_sum, or_sum, xor_sum};
ghost use Rattle.cpu.specs.Effects.{with_channel, changes, read, write, rand, ror, rxor, wand, wor};

use crate::bits::{and, or, xor};
use crate::machine::Machine;
use space::{Chan, Eras};
use words::Wide;

impl Machine {
    /// READ: A takes what the channel has: all 16 bits of Q, else the word, extended.
    #[tactic(auto, unfolding(crate::specs::Effects::read))]
    pub(crate) fn read_channel(&mut self, channel: Chan)
        ensures { self.new ≡ changes self.old (read self.old channel) }
    {
        let value = self.channel(channel);
        self.put(Eras::A, value);
    }

    /// WRITE: the channel takes A's word, and Q all 16 bits. The superbank's channel keeps three bits of it.
    #[tactic(auto, unfolding(crate::specs::Effects::write))]
    pub(crate) fn write_channel(&mut self, channel: Chan)
        ensures { self.new ≡ changes self.old (write self.old channel) }
    {
        let word = self.reg(Eras::A);
        self.set_channel(channel, word);
    }

    /// RAND: A keeps the bits that stand on the channel too.
    #[tactic(auto, unfolding(crate::specs::Effects::rand))]
    pub(crate) fn read_and(&mut self, channel: Chan)
        ensures { self.new ≡ changes self.old (rand self.old channel) }
    {
        let value = self.and_channel(channel);
        self.put(Eras::A, value);
    }

    /// ROR: A takes the bits that stand in it or on the channel.
    #[tactic(auto, unfolding(crate::specs::Effects::ror))]
    pub(crate) fn read_or(&mut self, channel: Chan)
        ensures { self.new ≡ changes self.old (ror self.old channel) }
    {
        let value = self.or_channel(channel);
        self.put(Eras::A, value);
    }

    /// RXOR: A takes the bits that stand in exactly one of it and the channel.
    #[tactic(auto, unfolding(crate::specs::Effects::rxor))]
    pub(crate) fn read_xor(&mut self, channel: Chan)
        ensures { self.new ≡ changes self.old (rxor self.old channel) }
    {
        let value = self.xor_channel(channel);
        self.put(Eras::A, value);
    }

    /// WAND: A keeps the bits that stand on the channel too, and the channel takes the same.
    #[tactic(auto, unfolding(crate::specs::Effects::wand))]
    pub(crate) fn write_and(&mut self, channel: Chan)
        ensures { self.new ≡ changes self.old (wand self.old channel) }
    {
        let both = self.and_channel(channel);
        self.put(Eras::A, both);
        self.set_channel(channel, both);
    }

    /// WOR: A takes the bits that stand in it or on the channel, and the channel takes the same. The superbank's
    /// channel keeps three of them, and A all.
    #[tactic(auto, unfolding(crate::specs::Effects::wor))]
    pub(crate) fn write_or(&mut self, channel: Chan)
        ensures { self.new ≡ changes self.old (wor self.old channel) }
    {
        let either = self.or_channel(channel);
        self.put(Eras::A, either);
        self.set_channel(channel, either);
    }

    /// Each bit that stands both in A and on a channel; that of Q holds 16 bits.
    fn and_channel(&self, channel: Chan) -> Wide
        ensures { result ≡ with_channel and_sum self.now channel }
    {
        and(channel == Chan::Q, self.reg(Eras::A), self.channel(channel))
    }

    /// Each bit that stands in A, or on a channel.
    fn or_channel(&self, channel: Chan) -> Wide
        ensures { result ≡ with_channel or_sum self.now channel }
    {
        or(channel == Chan::Q, self.reg(Eras::A), self.channel(channel))
    }

    /// Each bit that stands in exactly one of A and a channel.
    fn xor_channel(&self, channel: Chan) -> Wide
        ensures { result ≡ with_channel xor_sum self.now channel }
    {
        xor(channel == Chan::Q, self.reg(Eras::A), self.channel(channel))
    }
}
