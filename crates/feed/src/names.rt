//! The names of counters and of their sequences.

ghost use Rattle.std.specs.Prelude.{◌≡◌, map};
ghost use Rattle.agc_text.specs.Tables.{value_in, named};
ghost use Rattle.feed.specs.Names.{by_name, counters, input_names, sequences};

use crate::input::{Counter, Sequence};

/// All counters.
const COUNTERS: [Counter; 15] = [
    Counter::Time1,
    Counter::Time2,
    Counter::Time3,
    Counter::Time4,
    Counter::Time5,
    Counter::Time6,
    Counter::CduX,
    Counter::CduY,
    Counter::CduZ,
    Counter::OptY,
    Counter::OptX,
    Counter::PipaX,
    Counter::PipaY,
    Counter::PipaZ,
    Counter::Inlink,
];

/// Each sequence by its name.
const SEQUENCES: [(&str, Sequence); 7] = [
    ("PINC", Sequence::Pinc),
    ("MINC", Sequence::Minc),
    ("DINC", Sequence::Dinc),
    ("PCDU", Sequence::Pcdu),
    ("MCDU", Sequence::Mcdu),
    ("SHINC", Sequence::Shinc),
    ("SHANC", Sequence::Shanc),
];

/// What begins an input behind its cycle.
const INPUT_NAMES: [&str; 17] = [
    "CHAN", "RUPT", "TIME1", "TIME2", "TIME3", "TIME4", "TIME5", "TIME6", "CDUX", "CDUY", "CDUZ",
    "OPTY", "OPTX", "PIPAX", "PIPAY", "PIPAZ", "INLINK",
];

/// What begins an input behind its cycle: CHAN, RUPT and the names of the counters.
#[tactic(auto, unfolding(crate::specs::Names::counters))]
pub fn input_names() -> &'static [&'static str]
    ensures { map (λ name. name.now) result.now ≡ input_names }
{
    &INPUT_NAMES
}

/// The counter of a name.
#[tactic(auto, unfolding(crate::specs::Names::counters))]
pub fn counter_of(name: &[u8]) -> Option<Counter>
    ensures { result ≡ value_in counters name.now }
{
    find_counter(&COUNTERS, name)
}

/// The sequence of a name.
#[tactic(auto, unfolding(crate::specs::Names::sequences))]
pub(crate) fn sequence_of(name: &[u8]) -> Option<Sequence>
    ensures { result ≡ value_in sequences name.now }
{
    find_sequence(&SEQUENCES, name)
}

fn find_counter(counters: &[Counter], name: &[u8]) -> Option<Counter>
    ensures { result ≡ value_in (by_name counters.now) name.now }
{
    for counter in counters {
        if name == counter.row().name {
            return Some(*counter);
        }
    }
    None
}

fn find_sequence(table: &[(&str, Sequence)], name: &[u8]) -> Option<Sequence>
    ensures { result ≡ value_in (named table.now) name.now }
{
    for (text, sequence) in table {
        if name == text.as_bytes() {
            return Some(*sequence);
        }
    }
    None
}
