//! The sentences of instructions.

ghost use Rattle.std.specs.Prelude.{◌≡◌, ◌≤◌, length};
ghost use Rattle.cpu.specs.Effects.{is_whole};
ghost use Rattle.say.specs.Sentences.{ad, bzf, bzmf, ccs, das, dim, dv, either_overflows, executed, goes_out};
ghost use Rattle.say.specs.Sentences.{is_editing, is_from_q, is_place, is_q, leaves_out, left_out, mask, overflows};
ghost use Rattle.say.specs.Sentences.{rand, relint, resume, ror, rxor, tc, ts, ts_overflowing, ts_plain, wand, wor};
ghost use Rattle.say.specs.Sentences.{write};

use crate::places::Places;
use crate::values::Values;
use cpu::{Fetched, Instruction};
use space::{Chan, Eras, Linear};
use trace::quotient_fits;
use words::{Overflow, Wide};

/// How many addresses there are.
const ADDRESSES: u16 = 0o10000;

/// What an instruction does, within an interrupt or not.
pub(crate) fn executed(
    inside: bool,
    fetched: &Fetched,
    places: &Places,
    before: &Values,
    instruction: Instruction,
) -> &'static [u8]
    ensures text { result.now ≡ executed inside fetched.now places.now before.now instruction }
    ensures short { length result.now ≤ 160 }
{
    match instruction {
        Instruction::Relint => relint(inside),
        Instruction::Inhint => b"Interrupts have to wait from now on.",
        Instruction::Extend => b"The next instruction is one of those that need EXTEND.",
        Instruction::Resume => resume(inside),
        Instruction::Tc => tc(fetched),
        Instruction::Ccs => ccs(before.first),
        Instruction::Tcf => b"It goes to @.",
        Instruction::Das => das(&places.first),
        Instruction::Lxch => b"L and @ change places: L is ), and @ is ].",
        Instruction::Incr => b"@, which was [, goes up by one: ].",
        Instruction::Ads => b"A, <, and @, [, are added: A is >, and @ is ].",
        Instruction::Ca => b"A takes what @ holds: >.",
        Instruction::Cs => b"A takes what @ holds, [, with its sign turned: >.",
        Instruction::Index =>
            b"What @ holds, [, is added to the next word before that is executed.",
        Instruction::Dxch =>
            b"A and @ change places, and so do L and the word behind it: A is >, L is ), @ is ], and the word behind \
                it is }.",
        Instruction::Ts => ts(&places.first, before.a),
        Instruction::Xch => b"A and @ change places: A is >, and @ is ].",
        Instruction::Ad => ad(&places.first),
        Instruction::Mask => mask(&places.first),
        Instruction::Read => b"A takes channel #: >.",
        Instruction::Write => write(places.channel),
        Instruction::Rand => rand(places.channel),
        Instruction::Wand => wand(places.channel),
        Instruction::Ror => ror(places.channel),
        Instruction::Wor => wor(places.channel),
        Instruction::Rxor => rxor(places.channel),
        Instruction::Edrupt => b"Nothing happens.",
        Instruction::Dv => dv(before),
        Instruction::Bzf => bzf(before.a),
        Instruction::Msu => b"The angle that @ holds is taken from that in A: the difference is >.",
        Instruction::Qxch => b"Q and @ change places: Q takes [, and @ is ].",
        Instruction::Aug => b"@, which was [, moves away from 0 by one: ].",
        Instruction::Dim => dim(before.first),
        Instruction::Dca => b"A and L take what @ and the word behind it hold: > and ).",
        Instruction::Dcs =>
            b"A and L take what @ and the word behind it hold, [ and {, with their signs turned: > and ).",
        Instruction::Su => b"@, [, is taken from A, <: A is >.",
        Instruction::Bzmf => bzmf(before.a),
        Instruction::Mp =>
            b"A, ^, times @, |: A takes the upper half of the product, >, and L the lower, ).",
    }
}

/// RELINT.
fn relint(inside: bool) -> &'static [u8]
    ensures text { result.now ≡ relint inside }
    ensures short { length result.now ≤ 160 }
{
    if inside {
        b"Interrupts may come again once this one has ended."
    } else {
        b"Interrupts may come from now on."
    }
}

/// RESUME.
fn resume(inside: bool) -> &'static [u8]
    ensures text { result.now ≡ resume inside }
    ensures short { length result.now ≤ 160 }
{
    if inside {
        b"The interrupt has ended: Z takes back what ZRUPT kept, and the word in BRUPT is executed next."
    } else {
        b"No interrupt was served: Z takes what ZRUPT keeps, and the word in BRUPT is executed next."
    }
}

/// TC: RETURN, the word in Q that this leads to, and a call.
fn tc(fetched: &Fetched) -> &'static [u8]
    ensures text { result.now ≡ tc fetched.now }
    ensures short { length result.now ≤ 160 }
{
    if fetched.word.to_u16() % ADDRESSES == Eras::Q.number() {
        b"It goes to Q: the word there, which leads back, is executed next."
    } else if is_from_q(fetched) {
        b"It goes back to @."
    } else {
        b"It goes to @; Q keeps the way back, $."
    }
}

/// The four ways of CCS.
fn ccs(x: Wide) -> &'static [u8]
    ensures text { result.now ≡ ccs x }
    ensures short { length result.now ≤ 160 }
{
    if x == Wide::ZERO {
        b"@ is +0: A is >, and one word is skipped."
    } else if x == Wide::MINUS_ZERO {
        b"@ is -0: A is >, and three words are skipped."
    } else if x.is_minus() {
        b"@ is [, below 0: A takes its size less one, >, and two words are skipped."
    } else {
        b"@ is [, above 0: A takes one less, >, and the next word follows."
    }
}

/// DAS.
fn das(place: &Linear) -> &'static [u8]
    ensures text { result.now ≡ das place.now }
    ensures short { length result.now ≤ 160 }
{
    if is_place(Eras::A, place) {
        b"A and L, < and (, are doubled: A is >, and L is )."
    } else {
        b"A and L, < and (, are added to @ and the word behind it, [ and {: these are ] and }; A is >, and L is )."
    }
}

/// AD.
fn ad(place: &Linear) -> &'static [u8]
    ensures text { result.now ≡ ad place.now }
    ensures short { length result.now ≤ 160 }
{
    if is_place(Eras::A, place) {
        b"A, <, is doubled: it is >."
    } else {
        b"A, <, and @, [, are added: A is >."
    }
}

/// TS where A does not overflow.
fn ts_plain(place: &Linear) -> &'static [u8]
    ensures text { result.now ≡ ts_plain place.now }
    ensures short { length result.now ≤ 160 }
{
    if is_place(Eras::A, place) {
        b"A, <, does not overflow: the next word follows."
    } else if is_place(Eras::Z, place) {
        b"It goes to where A leads, <."
    } else if is_editing(place) {
        b"@ takes A, <, and edits it: ]."
    } else {
        b"@ takes A: ]."
    }
}

/// TS where A overflows.
fn ts_overflowing(place: &Linear) -> &'static [u8]
    ensures text { result.now ≡ ts_overflowing place.now }
    ensures short { length result.now ≤ 160 }
{
    if is_place(Eras::A, place) {
        b"A, <, overflows: the next word is skipped."
    } else if is_place(Eras::Z, place) {
        b"It goes to where A leads, <, without the overflow; A is >."
    } else {
        b"@ takes A, <, without the overflow: ]. A is >, and the next word is skipped."
    }
}

/// WRITE.
fn write(channel: Chan) -> &'static [u8]
    ensures text { result.now ≡ write channel }
    ensures short { length result.now ≤ 160 }
{
    if goes_out(channel) {
        b"A goes out on channel #: !."
    } else {
        b"Channel # takes A: !. Nothing goes out."
    }
}

/// BZF.
fn bzf(a: Wide) -> &'static [u8]
    ensures text { result.now ≡ bzf a }
    ensures short { length result.now ≤ 160 }
{
    if a.is_zero() {
        b"A, <, is 0: it goes to @."
    } else {
        b"A, <, is not 0: the next word follows."
    }
}

/// BZMF.
fn bzmf(a: Wide) -> &'static [u8]
    ensures text { result.now ≡ bzmf a }
    ensures short { length result.now ≤ 160 }
{
    if a.is_zero() || a.is_minus() {
        b"A, <, is not above 0: it goes to @."
    } else {
        b"A, <, is above 0: the next word follows."
    }
}

/// DIM.
fn dim(x: Wide) -> &'static [u8]
    ensures text { result.now ≡ dim x }
    ensures short { length result.now ≤ 160 }
{
    if x.is_zero() {
        b"@, [, is 0, and stays so."
    } else {
        b"@, which was [, moves towards 0 by one: ]."
    }
}

/// MASK.
fn mask(place: &Linear) -> &'static [u8]
    ensures text { result.now ≡ mask place.now }
    ensures short { length result.now ≤ 160 }
{
    if is_whole(place) {
        b"A, <, keeps the bits that @, [, has too: >."
    } else {
        b"A, ^, keeps the bits that @, |, has too: >."
    }
}

/// RAND.
fn rand(channel: Chan) -> &'static [u8]
    ensures text { result.now ≡ rand channel }
    ensures short { length result.now ≤ 160 }
{
    if is_q(channel) {
        b"A, <, keeps the bits that channel # has too: >."
    } else {
        b"A, ^, keeps the bits that channel # has too: >."
    }
}

/// WAND.
fn wand(channel: Chan) -> &'static [u8]
    ensures text { result.now ≡ wand channel }
    ensures short { length result.now ≤ 160 }
{
    if goes_out(channel) {
        b"A, ^, keeps the bits that channel # has too: >. The channel takes this, and it goes out: !."
    } else if is_q(channel) {
        b"A, <, keeps the bits that channel # has too: >. The channel takes this: !. Nothing goes out."
    } else {
        b"A, ^, keeps the bits that channel # has too: >. The channel takes this: !. Nothing goes out."
    }
}

/// ROR.
fn ror(channel: Chan) -> &'static [u8]
    ensures text { result.now ≡ ror channel }
    ensures short { length result.now ≤ 160 }
{
    if is_q(channel) {
        b"A, <, takes the bits of channel # besides its own: >."
    } else {
        b"A, ^, takes the bits of channel # besides its own: >."
    }
}

/// WOR.
fn wor(channel: Chan) -> &'static [u8]
    ensures text { result.now ≡ wor channel }
    ensures short { length result.now ≤ 160 }
{
    if goes_out(channel) {
        b"A, ^, takes the bits of channel # besides its own: >. The channel takes this, and it goes out: !."
    } else if is_q(channel) {
        b"A, <, takes the bits of channel # besides its own: >. The channel takes this: !. Nothing goes out."
    } else {
        b"A, ^, takes the bits of channel # besides its own: >. The channel takes this: !. Nothing goes out."
    }
}

/// RXOR.
fn rxor(channel: Chan) -> &'static [u8]
    ensures text { result.now ≡ rxor channel }
    ensures short { length result.now ≤ 160 }
{
    if is_q(channel) {
        b"A becomes the bits in which it, <, and channel # differ: >."
    } else {
        b"A becomes the bits in which it, ^, and channel # differ: >."
    }
}

/// DV.
fn dv(before: &Values) -> &'static [u8]
    ensures text { result.now ≡ dv before.now }
    ensures short { length result.now ≤ 160 }
{
    if quotient_fits(
        before.a.correct(),
        before.l.correct(),
        before.first.correct(),
    ) {
        b"A and L, ^ and (, together are divided by @, |: A takes the quotient, >, and L what is left over, )."
    } else {
        b"A and L, ^ and (, together are too much to be divided by @, |: A is >, and L is )."
    }
}

/// TS.
fn ts(place: &Linear, a: Wide) -> &'static [u8]
    ensures text { result.now ≡ ts place.now a }
    ensures short { length result.now ≤ 160 }
{
    if a.overflow() == Overflow::No {
        ts_plain(place)
    } else {
        ts_overflowing(place)
    }
}

/// Whether the word is the one in Q, to which RETURN leads.
fn is_from_q(fetched: &Fetched) -> bool
    ensures { result ≡ is_from_q fetched.now }
{
    !fetched.waited && is_place(Eras::Q, &fetched.place)
}

/// Whether a place is a register.
fn is_place(register: Eras, place: &Linear) -> bool
    ensures { result ≡ is_place register place.now }
{
    match place {
        Linear::Erasable(place) => *place == register,
        Linear::Fixed(_, _) => false,
    }
}

/// Whether a place edits what is stored there.
fn is_editing(place: &Linear) -> bool
    ensures { result ≡ is_editing place.now }
{
    match place {
        Linear::Erasable(place) => {
            Eras::CYR.number() <= place.number() && place.number() <= Eras::EDOP.number()
        }
        Linear::Fixed(_, _) => false,
    }
}

/// Whether what is written on a channel goes out.
fn goes_out(channel: Chan) -> bool
    ensures { result ≡ goes_out channel }
{
    !(channel == Chan::L || channel == Chan::Q || channel == Chan::SUPERBANK)
}

/// Whether a channel is Q.
fn is_q(channel: Chan) -> bool
    ensures { result ≡ is_q channel }
{
    channel == Chan::Q
}

/// Whether 16 bits are read at a place.
fn is_whole(place: &Linear) -> bool
    ensures { result ≡ is_whole place.now }
{
    match place {
        Linear::Erasable(place) => *place == Eras::A || *place == Eras::Q,
        Linear::Fixed(_, _) => false,
    }
}

/// What is said where something is left out.
pub(crate) fn left_out(is_left_out: bool) -> &'static [u8]
    ensures text { result.now ≡ left_out is_left_out }
    ensures short { length result.now ≤ 30 }
{
    if is_left_out {
        b" What overflows is left out."
    } else {
        b""
    }
}

/// Whether what a word does not hold of A, or of the operand, is left out.
pub(crate) fn leaves_out(places: &Places, before: &Values, instruction: Instruction) -> bool
    ensures { result ≡ leaves_out places.now before.now instruction }
{
    match instruction {
        Instruction::Mask => !is_whole(&places.first) && either_overflows(before),
        Instruction::Mp => either_overflows(before),
        Instruction::Dv => either_overflows(before),
        Instruction::Msu => either_overflows(before),
        Instruction::Write => !is_q(places.channel) && overflows(before.a),
        Instruction::Rand => !is_q(places.channel) && overflows(before.a),
        Instruction::Wand => !is_q(places.channel) && overflows(before.a),
        Instruction::Ror => !is_q(places.channel) && overflows(before.a),
        Instruction::Wor => !is_q(places.channel) && overflows(before.a),
        Instruction::Rxor => !is_q(places.channel) && overflows(before.a),
        _ => false,
    }
}

/// Whether A or the operand overflows.
fn either_overflows(before: &Values) -> bool
    ensures { result ≡ either_overflows before.now }
{
    overflows(before.a) || overflows(before.first)
}

fn overflows(wide: Wide) -> bool
    ensures { result ≡ overflows wide }
{
    wide.overflow() != Overflow::No
}
