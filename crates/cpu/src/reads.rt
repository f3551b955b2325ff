//! What each step reads.

ghost use Rattle.std.specs.Prelude.{◌≡◌, ◌+◌, ◌≤◌, [], ◌∷◌, ◌++◌, None};
ghost use Rattle.arrayvec.specs.ArrayVec.{array_vec_len};
ghost use Rattle.cpu.specs.declared.spot.Spot.{Spot};
ghost use Rattle.cpu.specs.Codes.{operand_of};
ghost use Rattle.cpu.specs.Effects.{erasable_number, first_of, greatest_short, place_in};
ghost use Rattle.cpu.specs.Links.{carries_in, link_by, place_spots};
ghost use Rattle.cpu.specs.Reads.{fetch_reads, input_reads, pair_reads, reads, reads_of};
ghost use Rattle.cpu.specs.Trails.{source_spots};

use crate::address::{Addr10, address_of_word, before, channel_of_word};
use crate::dispatch::decode;
use crate::inputs::{carried_by, is_overflow, step_of};
use crate::instruction::Instruction;
use crate::machine::Machine;
use crate::source::{Source, push_place};
use crate::spot::Spot;
use arrayvec::ArrayVec;
use feed::Input;
use rope::Rope;
use space::{Eras, Linear};

/// What an input reads.
pub(crate) fn of_input(machine: &Machine, input: Input) -> Source
    ensures { source_spots result ≡ input_reads input (carries_in machine.now input) }
{
    let Input::Count(counter, sequence) = input else {
        return Source::Nothing;
    };
    let step = step_of(sequence, machine.word(counter.place()));
    if is_overflow(step.carry)
        && let Some(other) = carried_by(counter.asks())
    {
        return Source::register_and(counter.place(), Linear::Erasable(other.place()));
    }
    Source::erasable(counter.place())
}

/// Appends what the fetch of an instruction reads, and what it does.
#[tactic(auto, unfolding(crate::specs::Reads::reads, crate::specs::Effects::place_in, space::specs::Cells::get))]
pub(crate) fn push_executed(spots: &mut ArrayVec<Spot, 8>, machine: &Machine, rope: &Rope)
    requires { spots.old.items ≡ [] }
    ensures { spots.new.items ≡ reads (link_by rope.now machine.now None None) }
{
    let word = machine.instruction_word(rope).to_u16();
    push_fetch(
        spots,
        machine.next_place(),
        machine.waiting_word().is_some(),
    );
    push_instruction(spots, machine, decode(word, machine.extra()), word);
}

// Appends the erasable place where the word of an instruction stands, unless the word waited.
fn push_fetch(spots: &mut ArrayVec<Spot, 8>, place: Linear, waited: bool)
    requires { array_vec_len spots.old ≤ 0 }
    ensures value { spots.new.items ≡ spots.old.items ++ fetch_reads waited place }
    ensures len { array_vec_len spots.new ≤ 2 }
{
    if !waited && let Linear::Erasable(_) = place {
        push_place(spots, place);
    }
}

// Appends what an instruction reads, with its operand in a word.
fn push_instruction(
    spots: &mut ArrayVec<Spot, 8>,
    machine: &Machine,
    instruction: Instruction,
    word: u16,
)
    requires { array_vec_len spots.old ≤ 2 }
    ensures { spots.new.items ≡ spots.old.items
        ++ reads_of (place_in machine.now) instruction (operand_of instruction word) }
{
    of_instruction(machine, instruction, word).push_to(spots);
}

// What an instruction reads, with its operand in a word.
#[tactic(auto, unfolding(crate::specs::Effects::erasable_in))]
fn of_instruction(machine: &Machine, instruction: Instruction, word: u16) -> Source
    ensures { source_spots result ≡ reads_of (place_in machine.now) instruction (operand_of instruction word) }
{
    let short = Addr10::of_word(word);
    let address = address_of_word(word);
    let channel = channel_of_word(word);
    match instruction {
        Instruction::Relint => Source::Nothing,
        Instruction::Inhint => Source::Nothing,
        Instruction::Extend => Source::Nothing,
        Instruction::Resume => Source::register_and(Eras::ZRUPT, Linear::Erasable(Eras::BRUPT)),
        Instruction::Tc => Source::Nothing,
        Instruction::Ccs => Source::Place(machine.place(short.widen())),
        Instruction::Tcf => Source::Nothing,
        Instruction::Das => pair(machine, short),
        Instruction::Lxch => exchange(machine, Eras::L, short),
        Instruction::Incr => Source::erasable(machine.erasable(short)),
        Instruction::Ads => exchange(machine, Eras::A, short),
        Instruction::Ca => Source::Place(machine.place(address)),
        Instruction::Cs => Source::Place(machine.place(address)),
        Instruction::Index => Source::Place(machine.place(address)),
        Instruction::Dxch => pair(machine, short),
        Instruction::Ts => Source::A,
        Instruction::Xch => exchange(machine, Eras::A, short),
        Instruction::Ad => Source::register_and(Eras::A, machine.place(address)),
        Instruction::Mask => Source::register_and(Eras::A, machine.place(address)),
        Instruction::Read => Source::Channel(channel),
        Instruction::Write => Source::A,
        Instruction::Rand => Source::AndChannel(channel),
        Instruction::Wand => Source::AndChannel(channel),
        Instruction::Ror => Source::AndChannel(channel),
        Instruction::Wor => Source::AndChannel(channel),
        Instruction::Rxor => Source::AndChannel(channel),
        Instruction::Edrupt => Source::Nothing,
        Instruction::Dv => Source::RegistersAndPlace(machine.place(short.widen())),
        Instruction::Bzf => Source::A,
        Instruction::Msu => Source::register_and(Eras::A, machine.place(short.widen())),
        Instruction::Qxch => exchange(machine, Eras::Q, short),
        Instruction::Aug => Source::erasable(machine.erasable(short)),
        Instruction::Dim => Source::erasable(machine.erasable(short)),
        Instruction::Dca => Source::Places(machine.place(before(address)), machine.place(address)),
        Instruction::Dcs => Source::Places(machine.place(before(address)), machine.place(address)),
        Instruction::Su => Source::register_and(Eras::A, machine.place(short.widen())),
        Instruction::Bzmf => Source::A,
        Instruction::Mp => Source::register_and(Eras::A, machine.place(address)),
    }
}

// A, L, and the pair of erasable places to whose second an address leads.
#[tactic(auto, unfolding(crate::specs::Effects::erasable_in))]
fn pair(machine: &Machine, second: Addr10) -> Source
    ensures { source_spots result ≡ pair_reads (place_in machine.now (first_of greatest_short second))
        (place_in machine.now second) }
{
    Source::RegistersAndPair(machine.erasable(second.before()), machine.erasable(second))
}

// A register, and the erasable place to which an address leads.
#[tactic(auto, unfolding(crate::specs::Effects::erasable_in))]
fn exchange(machine: &Machine, register: Eras, address: Addr10) -> Source
    ensures { source_spots result
        ≡ place_spots register ++ place_spots (erasable_number (place_in machine.now address)) }
{
    Source::register_and(register, Linear::Erasable(machine.erasable(address)))
}
