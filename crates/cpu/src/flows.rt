//! The flows of each step: what it writes, and from what. The one table of them, for all who ask.

ghost use Rattle.std.specs.Prelude.{◌≡◌, ℕ, ◌+◌, ◌≤◌, [], ◌∷◌, ◌++◌, fold, Some, None};
ghost use Rattle.space.specs.Cells.{accumulator, lower_accumulator, program_counter};
ghost use Rattle.cpu.specs.Codes.{operand_of};
ghost use Rattle.cpu.specs.Effects.{place_in};
ghost use Rattle.cpu.specs.Links.{Flow, a, carries_in, channel_spots, das_flows, dxch_flows, edit_flows};
ghost use Rattle.cpu.specs.Links.{exchange_flows, flows, flows_of, input_flows, l, link_by, overflow_in, place_spots};
ghost use Rattle.cpu.specs.Links.{spots, tc_flows, to_channel, to_place, ts_flows};
ghost use Rattle.cpu.specs.Trails.{source_spots};
ghost use Rattle.cpu.specs.declared.source.Source.{Source};

use crate::address::{Addr10, address_of_word, before, channel_of_word};
use crate::dispatch::decode;
use crate::inputs::{carried_by, is_overflow, step_of};
use crate::instruction::Instruction;
use crate::machine::Machine;
use crate::source::Source;
use feed::{Input, Interrupt};
use rope::Rope;
use space::{Addr12, Chan, Eras, Linear};
use words::Overflow;

/// What flows are handed to, one after another.
pub(crate) trait Sink {
    /// What it is after a flow.
    ghost after: { Self → Flow → Self };

    /// For how many cells more it has room.
    ghost room: { Self → ℕ };

    /// A flow into a place, which is two cells at most.
    fn place(&mut self, place: Eras, from: Source)
        requires { 2 ≤ room self.old }
        ensures value { self.new ≡ after self.old (to_place place (source_spots from)) }
        ensures room { room self.old ≤ room self.new + 2 };

    /// A flow into a channel.
    fn channel(&mut self, channel: Chan, from: Source)
        requires { 2 ≤ room self.old }
        ensures value { self.new ≡ after self.old (to_channel channel (source_spots from)) }
        ensures room { room self.old ≤ room self.new + 2 };
}

/// The flows of an input.
pub(crate) fn take<S: Sink>(sink: &mut S, machine: &Machine, input: Input)
    requires { 4 ≤ S.room sink.old }
    ensures { sink.new ≡ fold S.after sink.old (input_flows input (carries_in machine.now input)) }
{
    match input {
        Input::Count(counter, sequence) => {
            change(sink, counter.place());
            let step = step_of(sequence, machine.word(counter.place()));
            if is_overflow(step.carry)
                && let Some(other) = carried_by(counter.asks())
            {
                change(sink, other.place());
            }
        }
        Input::Word(channel, _) => sink.channel(channel, Source::Nothing),
        Input::Interrupt(_) => {}
    }
}

/// The flows of the entry of an interrupt.
pub(crate) fn enter<S: Sink>(sink: &mut S, machine: &Machine, rope: &Rope, request: Interrupt)
    requires { 6 ≤ S.room sink.old }
    ensures { sink.new ≡ fold S.after sink.old (flows (link_by rope.now machine.now None (Some request))) }
{
    let (_rope, _request) = (rope, request);
    sink.place(Eras::BRUPT, Source::Place(machine.next_place()));
    sink.place(Eras::ZRUPT, Source::Nothing);
    sink.place(Eras::Z, Source::Nothing);
}

/// The flows of the fetch of an instruction, and of what it does.
#[tactic(auto, unfolding(crate::specs::Effects::place_in))]
pub(crate) fn execute<S: Sink>(sink: &mut S, machine: &Machine, rope: &Rope)
    requires { 10 ≤ S.room sink.old }
    ensures { sink.new ≡ fold S.after sink.old (flows (link_by rope.now machine.now None None)) }
{
    let word = machine.instruction_word(rope).to_u16();
    if machine.waiting_word().is_none() {
        sink.place(Eras::Z, Source::Nothing);
    }
    instruction(sink, machine, decode(word, machine.extra()), word);
}

// The flows of an instruction, with its operand in a word.
#[tactic(auto, unfolding(crate::specs::Effects::erasable_in))]
fn instruction<S: Sink>(sink: &mut S, machine: &Machine, instruction: Instruction, word: u16)
    requires { 8 ≤ S.room sink.old }
    ensures { sink.new ≡ fold S.after sink.old
        (flows_of (place_in machine.now) (overflow_in instruction machine.now) instruction
        (operand_of instruction word)) }
{
    let short = Addr10::of_word(word);
    let address = address_of_word(word);
    let channel = channel_of_word(word);
    match instruction {
        Instruction::Relint => {}
        Instruction::Inhint => {}
        Instruction::Extend => {}
        Instruction::Resume => sink.place(Eras::Z, Source::erasable(Eras::ZRUPT)),
        Instruction::Tc => call(sink, address),
        Instruction::Ccs => count(sink, &machine.place(short.widen())),
        Instruction::Tcf => sink.place(Eras::Z, Source::Nothing),
        Instruction::Das => {
            double_add(
                sink,
                machine.erasable(short.before()),
                machine.erasable(short),
            )
        }
        Instruction::Lxch => exchange(sink, Eras::L, machine.erasable(short)),
        Instruction::Incr => change(sink, machine.erasable(short)),
        Instruction::Ads => add_to(sink, machine.erasable(short)),
        Instruction::Ca => load(sink, &machine.place(address)),
        Instruction::Cs => load(sink, &machine.place(address)),
        Instruction::Index => edit(sink, &machine.place(address)),
        Instruction::Dxch => {
            double_exchange(
                sink,
                machine.erasable(short.before()),
                machine.erasable(short),
            )
        }
        Instruction::Ts => {
            transfer(
                sink,
                machine.reg(Eras::A).overflow(),
                machine.erasable(short),
            )
        }
        Instruction::Xch => exchange(sink, Eras::A, machine.erasable(short)),
        Instruction::Ad => combine(sink, &machine.place(address)),
        Instruction::Mask => combine(sink, &machine.place(address)),
        Instruction::Read => sink.place(Eras::A, Source::Channel(channel)),
        Instruction::Write => sink.channel(channel, Source::A),
        Instruction::Rand => sink.place(Eras::A, Source::AndChannel(channel)),
        Instruction::Wand => both(sink, channel),
        Instruction::Ror => sink.place(Eras::A, Source::AndChannel(channel)),
        Instruction::Wor => both(sink, channel),
        Instruction::Rxor => sink.place(Eras::A, Source::AndChannel(channel)),
        Instruction::Edrupt => {}
        Instruction::Dv => divide(sink, &machine.place(short.widen())),
        Instruction::Bzf => sink.place(Eras::Z, Source::A),
        Instruction::Msu => combine(sink, &machine.place(short.widen())),
        Instruction::Qxch => exchange(sink, Eras::Q, machine.erasable(short)),
        Instruction::Aug => change(sink, machine.erasable(short)),
        Instruction::Dim => change(sink, machine.erasable(short)),
        Instruction::Dca => load_two(
            sink,
            &machine.place(before(address)),
            &machine.place(address),
        ),
        Instruction::Dcs => load_two(
            sink,
            &machine.place(before(address)),
            &machine.place(address),
        ),
        Instruction::Su => combine(sink, &machine.place(short.widen())),
        Instruction::Bzmf => sink.place(Eras::Z, Source::A),
        Instruction::Mp => multiply(sink, &machine.place(address)),
    }
}

// A word that was read at an editing place goes there again.
fn edit<S: Sink>(sink: &mut S, place: &Linear)
    requires { 2 ≤ S.room sink.old }
    ensures value { sink.new ≡ fold S.after sink.old (edit_flows place.now) }
    ensures room { S.room sink.old ≤ S.room sink.new + 2 }
{
    if let Linear::Erasable(place) = *place {
        let number = place.number();
        if number >= Eras::CYR.number() && number <= Eras::EDOP.number() {
            change(sink, place);
        }
    }
}

// A place takes what comes of its own word: INCR, AUG and DIM, a counter, and an editing place.
fn change<S: Sink>(sink: &mut S, place: Eras)
    requires { 2 ≤ S.room sink.old }
    ensures value { sink.new ≡ fold S.after sink.old (to_place place (place_spots place) ∷ []) }
    ensures room { S.room sink.old ≤ S.room sink.new + 2 }
{
    sink.place(place, Source::erasable(place));
}

// CA and CS.
fn load<S: Sink>(sink: &mut S, place: &Linear)
    requires { 8 ≤ S.room sink.old }
    ensures { sink.new ≡ fold S.after sink.old (to_place accumulator (spots place.now) ∷ edit_flows place.now) }
{
    sink.place(Eras::A, Source::Place(*place));
    edit(sink, place);
}

// AD, SU, MASK and MSU.
fn combine<S: Sink>(sink: &mut S, place: &Linear)
    requires { 8 ≤ S.room sink.old }
    ensures { sink.new ≡ fold S.after sink.old (to_place accumulator (a ∷ spots place.now) ∷ edit_flows place.now) }
{
    sink.place(Eras::A, Source::register_and(Eras::A, *place));
    edit(sink, place);
}

// CCS.
fn count<S: Sink>(sink: &mut S, place: &Linear)
    requires { 8 ≤ S.room sink.old }
    ensures { sink.new ≡ fold S.after sink.old
        (to_place accumulator (spots place.now) ∷ to_place program_counter (spots place.now) ∷ edit_flows place.now) }
{
    sink.place(Eras::A, Source::Place(*place));
    sink.place(Eras::Z, Source::Place(*place));
    edit(sink, place);
}

// MP.
fn multiply<S: Sink>(sink: &mut S, place: &Linear)
    requires { 8 ≤ S.room sink.old }
    ensures { sink.new ≡ fold S.after sink.old
        (to_place accumulator (a ∷ spots place.now) ∷ to_place lower_accumulator (a ∷ spots place.now)
        ∷ edit_flows place.now) }
{
    sink.place(Eras::A, Source::register_and(Eras::A, *place));
    sink.place(Eras::L, Source::register_and(Eras::A, *place));
    edit(sink, place);
}

// DV.
fn divide<S: Sink>(sink: &mut S, place: &Linear)
    requires { 8 ≤ S.room sink.old }
    ensures { sink.new ≡ fold S.after sink.old
        (to_place accumulator (a ∷ l ∷ spots place.now) ∷ to_place lower_accumulator (a ∷ l ∷ spots place.now)
        ∷ edit_flows place.now) }
{
    sink.place(Eras::A, Source::RegistersAndPlace(*place));
    sink.place(Eras::L, Source::RegistersAndPlace(*place));
    edit(sink, place);
}

// DCA and DCS.
#[tactic(auto, using(crate::proofs::Trails::fold_append))]
fn load_two<S: Sink>(sink: &mut S, first: &Linear, second: &Linear)
    requires { 8 ≤ S.room sink.old }
    ensures { sink.new ≡ fold S.after sink.old
        (to_place accumulator (spots first.now) ∷ to_place lower_accumulator (spots second.now)
        ∷ edit_flows first.now ++ edit_flows second.now) }
{
    sink.place(Eras::A, Source::Place(*first));
    sink.place(Eras::L, Source::Place(*second));
    edit(sink, first);
    edit(sink, second);
}

// XCH, LXCH and QXCH.
fn exchange<S: Sink>(sink: &mut S, register: Eras, place: Eras)
    requires { 4 ≤ S.room sink.old }
    ensures value { sink.new ≡ fold S.after sink.old (exchange_flows register place) }
    ensures room { S.room sink.old ≤ S.room sink.new + 4 }
{
    sink.place(register, Source::erasable(place));
    sink.place(place, Source::erasable(register));
}

// DXCH: what L gave is through what it took.
fn double_exchange<S: Sink>(sink: &mut S, high: Eras, low: Eras)
    requires { 8 ≤ S.room sink.old }
    ensures { sink.new ≡ fold S.after sink.old (dxch_flows high low) }
{
    exchange(sink, Eras::L, low);
    sink.place(Eras::A, Source::Exchanged(low, high));
    sink.place(high, Source::Exchanged(low, Eras::A));
}

// ADS.
fn add_to<S: Sink>(sink: &mut S, place: Eras)
    requires { 8 ≤ S.room sink.old }
    ensures { sink.new ≡ fold S.after sink.old
        (to_place place (a ∷ place_spots place) ∷ to_place accumulator (a ∷ place_spots place) ∷ []) }
{
    sink.place(
        place,
        Source::register_and(Eras::A, Linear::Erasable(place)),
    );
    sink.place(
        Eras::A,
        Source::register_and(Eras::A, Linear::Erasable(place)),
    );
}

// DAS.
fn double_add<S: Sink>(sink: &mut S, high: Eras, low: Eras)
    requires { 8 ≤ S.room sink.old }
    ensures { sink.new ≡ fold S.after sink.old (das_flows high low) }
{
    let lows = Source::register_and(Eras::L, Linear::Erasable(low));
    if high == Eras::A {
        sink.place(Eras::L, lows);
        sink.place(Eras::A, Source::Doubles(high, low));
    } else {
        sink.place(low, lows);
        sink.place(high, Source::Doubles(high, low));
        sink.place(Eras::L, Source::Nothing);
        sink.place(Eras::A, Source::Doubles(high, low));
    }
}

// TS, by how A overflows.
fn transfer<S: Sink>(sink: &mut S, overflow: Overflow, place: Eras)
    requires { 8 ≤ S.room sink.old }
    ensures { sink.new ≡ fold S.after sink.old (ts_flows overflow place) }
{
    if overflow == Overflow::No {
        sink.place(place, Source::A);
    } else if place == Eras::A {
        sink.place(Eras::Z, Source::Nothing);
    } else if place == Eras::Z {
        sink.place(place, Source::A);
        sink.place(Eras::A, Source::Nothing);
    } else {
        sink.place(place, Source::A);
        sink.place(Eras::A, Source::Nothing);
        sink.place(Eras::Z, Source::Nothing);
    }
}

// TC.
fn call<S: Sink>(sink: &mut S, address: Addr12)
    requires { 8 ≤ S.room sink.old }
    ensures { sink.new ≡ fold S.after sink.old (tc_flows address) }
{
    if address.number() != Eras::Q.number() {
        sink.place(Eras::Q, Source::Nothing);
    }
    sink.place(Eras::Z, Source::Nothing);
}

// WAND and WOR.
fn both<S: Sink>(sink: &mut S, channel: Chan)
    requires { 8 ≤ S.room sink.old }
    ensures { sink.new ≡ fold S.after sink.old
        (to_place accumulator (a ∷ channel_spots channel) ∷ to_channel channel (a ∷ channel_spots channel) ∷ []) }
{
    sink.place(Eras::A, Source::AndChannel(channel));
    sink.channel(channel, Source::AndChannel(channel));
}
