//! Processors to be run, and what tells machines apart.

use cpu::{Input, Machine, Processor};
use feed::{Counter, Feed, Sequence, read};
use rope::Rope;
use space::store::changed;
use space::{Bank, Chan, Offset};
use std::alloc::Global;
use std::test::Fail;
use words::Word;

/// Five plus five, from address 04000 on: CA FIVE, AD FIVE, EXTEND, WRITE 10, TCF 4000, and the five.
pub(crate) const FIVE_PLUS_FIVE: [u16; 6] = [0o34005, 0o64005, 0o00006, 0o01010, 0o14000, 0o00005];

/// Inputs of all kinds for the first cycles of a run.
const INPUTS: &[u8] = b"3 TIME1 PINC
10 CHAN 015 00021
40 RUPT 3
60 TIME6 DINC
60 PIPAX MINC
90 CDUX MCDU
120 INLINK SHANC
121 INLINK SHINC
200 CHAN 016 00037
300 RUPT 10
500 TIME3 PINC
501 TIME4 PINC
502 TIME5 PINC
900 CHAN 7 00100
1000 RUPT 1
1500 OPTY PCDU
2000 RUPT 2
2500 CHAN 030 77777
3000 RUPT 4
4000 RUPT 5
5000 RUPT 6
6000 RUPT 7
7000 RUPT 8
8000 RUPT 9
9000 TIME2 PINC
9999 RUPT 3
";

/// A pulse of the clock that counts in TIME1.
pub(crate) const ONE_PULSE: Input = Input::Count(Counter::Time1, Sequence::Pinc);

/// Fails where something does not hold.
pub(crate) fn expect(holds: bool, what: &'static str) -> Result<(), Fail> {
    if holds { Ok(()) } else { Err(Fail::new(what)) }
}

/// A rope with these words from address 04000 on.
fn rope_of(alloc: Global, words: &[u16]) -> Result<Rope, Fail> {
    let mut rope = Rope::empty(alloc)?;
    let Some(bank) = Bank::try_new(2) else {
        return Err(Fail::new("no bank 2"));
    };
    for number in 0..0o2000u16 {
        let offset = Offset::of_low_bits(number);
        if let Some(word) = words.get(usize::from(number))
            && !rope.has(bank, offset)
        {
            rope.put(bank, offset, Word::of_low_bits(*word));
        }
    }
    Ok(rope)
}

/// A processor that runs five plus five, without inputs.
pub(crate) fn five_plus_five(alloc: Global) -> Result<Processor, Fail> {
    Ok(Processor::new(rope_of(alloc, &FIVE_PLUS_FIVE)?, Feed::empty(alloc)))
}

/// The number after this one in a generator's sequence.
pub(crate) fn next_number(state: u32) -> u32 {
    state.wrapping_mul(1_664_525).wrapping_add(1_013_904_223)
}

/// A processor that allows interrupts and then executes a bank of words from a generator, with inputs of all kinds.
pub(crate) fn everything(alloc: Global, seed: u32) -> Result<Processor, Fail> {
    let mut words = [0o3u16; 1024];
    let mut state = seed;
    for place in 1..1024usize {
        state = next_number(state);
        words[place] = (state >> 16) as u16;
    }
    let mut inputs = INPUTS;
    Ok(Processor::new(rope_of(alloc, &words)?, read(alloc, &mut inputs)?))
}

/// Whether two machines read the same everywhere, and would execute the same word next.
pub(crate) fn same(processor: &Processor, one: &Machine, other: &Machine) -> bool {
    let mut places = [0; 2048];
    if changed(one.store(), other.store(), &mut places) != 0 {
        return false;
    }
    for number in 0..0o1000u16 {
        let channel = Chan::of_low_bits(number);
        if one.channel(channel) != other.channel(channel) {
            return false;
        }
    }
    one.cycles() == other.cycles()
        && one.inhibit() == other.inhibit()
        && one.inside() == other.inside()
        && processor.next_word(one) == processor.next_word(other)
}
