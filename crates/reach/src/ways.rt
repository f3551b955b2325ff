//! Where words lead, and what they read.

ghost use Rattle.std.specs.Prelude.{◌≡◌, ◌+◌, ◌≤◌, ◌++◌, ◌&&◌, [], if◌then◌else◌, not};
ghost use Rattle.arrayvec.specs.ArrayVec.{array_vec_len};
ghost use Rattle.cpu.specs.Codes.{code_of};
ghost use Rattle.space.specs.Cells.{program_counter, return_address};
ghost use Rattle.reach.specs.declared.spot.How.TheVariants.{Reads};
ghost use Rattle.reach.specs.Ways.{at_address, further, is_register, leads, leads_by, leads_of, named, plain, second};
ghost use Rattle.reach.specs.Ways.{target, word_of};

use crate::kind::{Kind, kind_at};
use crate::spot::{How, Spot};
use arrayvec::ArrayVec;
use cpu::named_address;
use rope::Rope;
use space::{Addr12, Bank, Eras, Offset};

/// The most spots to which one leads.
const MOST: usize = 4;

pub(crate) type Ways = ArrayVec<Spot, MOST>;

/// A word is executed, without extracode and without a sum of INDEX.
pub(crate) const PLAIN: How = How::Executes(false, false);

/// The first address of fixed memory.
const FIRST_FIXED: u16 = 0o2000;

/// The first address that leads to its place whatever the bank registers hold.
const FIRST_UNBANKED: u16 = 0o4000;

/// Where the word at a spot leads, and what it reads.
#[tactic(auto, unfolding(crate::specs::Ways::leads))]
pub(crate) fn leads(rope: &Rope, spot: &Spot) -> Ways
    ensures { result.items ≡ leads rope.now spot.now }
{
    match spot.how {
        How::Executes(extra, indexed) => leads_of(rope, spot, extra, indexed),
        How::Reads => ArrayVec::new(),
    }
}

/// The same of a word that is executed.
fn leads_of(rope: &Rope, spot: &Spot, extra: bool, indexed: bool) -> Ways
    ensures { result.items ≡ leads_of spot.now extra indexed (code_of extra (word_of rope.now spot.now)) }
{
    let word = rope.word(spot.bank, Offset::of_low_bits(spot.address.number()));
    let address = named_address(word, extra);
    leads_by(spot, extra, indexed, kind_at(word, extra), &address)
}

/// The same by the kind of the instruction and the address that it names.
fn leads_by(spot: &Spot, extra: bool, indexed: bool, kind: Kind, address: &Option<Addr12>) -> Ways
    ensures { result.items ≡ leads_by spot.now extra indexed kind address.now }
{
    match kind {
        Kind::Calls => calls(spot, indexed, address),
        Kind::Jumps => target(spot, indexed, address),
        Kind::Branches => branches(spot, indexed, address),
        Kind::Skips => skips(spot),
        Kind::Stores => stores(spot, indexed, address),
        Kind::Indexes => passes(spot, How::Executes(extra, true), address),
        Kind::Extends => only(spot, How::Executes(true, false)),
        Kind::Resumes => ArrayVec::new(),
        Kind::TakesTwo => takes_two(spot, address),
        Kind::Passes => passes(spot, PLAIN, address),
    }
}

/// TC.
fn calls(spot: &Spot, indexed: bool, address: &Option<Addr12>) -> Ways
    ensures { result.items ≡ target spot.now indexed address.now
        ++ (if is_register return_address address.now then [] else further spot.now 1 plain) }
{
    let mut ways = target(spot, indexed, address);
    if !is_register(Eras::Q, address) {
        push_further(&mut ways, spot, 1, PLAIN);
    }
    ways
}

/// BZF and BZMF.
fn branches(spot: &Spot, indexed: bool, address: &Option<Addr12>) -> Ways
    ensures { result.items ≡ target spot.now indexed address.now ++ further spot.now 1 plain }
{
    let mut ways = target(spot, indexed, address);
    push_further(&mut ways, spot, 1, PLAIN);
    ways
}

/// CCS.
fn skips(spot: &Spot) -> Ways
    ensures { result.items ≡ further spot.now 1 plain ++ further spot.now 2 plain ++ further spot.now 3 plain
        ++ further spot.now 4 plain }
{
    let mut ways = only(spot, PLAIN);
    push_further(&mut ways, spot, 2, PLAIN);
    push_further(&mut ways, spot, 3, PLAIN);
    push_further(&mut ways, spot, 4, PLAIN);
    ways
}

/// TS.
fn stores(spot: &Spot, indexed: bool, address: &Option<Addr12>) -> Ways
    ensures { result.items ≡ (if not indexed
        && is_register program_counter address.now then [] else further spot.now 1 plain ++ further spot.now 2 plain) }
{
    if !indexed && is_register(Eras::Z, address) {
        ArrayVec::new()
    } else {
        next_two(spot)
    }
}

/// The next two words.
fn next_two(spot: &Spot) -> Ways
    ensures { result.items ≡ further spot.now 1 plain ++ further spot.now 2 plain }
{
    let mut ways = only(spot, PLAIN);
    push_further(&mut ways, spot, 2, PLAIN);
    ways
}

/// DCA and DCS.
fn takes_two(spot: &Spot, address: &Option<Addr12>) -> Ways
    ensures { result.items ≡ further spot.now 1 plain ++ named spot.now address.now Reads
        ++ named spot.now (second address.now) Reads }
{
    let mut ways = passes(spot, PLAIN, address);
    push_named(&mut ways, spot, &second(address), How::Reads);
    ways
}

/// What leads to the next word, which is come to so, and reads one.
fn passes(spot: &Spot, how: How, address: &Option<Addr12>) -> Ways
    ensures items { result.items ≡ further spot.now 1 how ++ named spot.now address.now Reads }
    ensures few { array_vec_len result ≤ 2 }
{
    let mut ways = only(spot, how);
    push_named(&mut ways, spot, address, How::Reads);
    ways
}

/// What leads to the next word alone.
fn only(spot: &Spot, how: How) -> Ways
    ensures items { result.items ≡ further spot.now 1 how }
    ensures few { array_vec_len result ≤ 1 }
{
    let mut ways = ArrayVec::new();
    push_further(&mut ways, spot, 1, how);
    ways
}

/// Where a jump leads; with a sum of INDEX that may be anywhere.
fn target(spot: &Spot, indexed: bool, address: &Option<Addr12>) -> Ways
    ensures items { result.items ≡ target spot.now indexed address.now }
    ensures few { array_vec_len result ≤ 1 }
{
    let mut ways = ArrayVec::new();
    if !indexed {
        push_named(&mut ways, spot, address, PLAIN);
    }
    ways
}

/// Appends the spot so many addresses further.
fn push_further(ways: &mut Ways, spot: &Spot, count: u16, how: How)
    requires room { array_vec_len ways.old + 1 ≤ 4 }
    requires few { count ≤ 4 }
    ensures items { ways.new.items ≡ ways.old.items ++ further spot.now count how }
    ensures len { array_vec_len ways.new ≤ array_vec_len ways.old + 1 }
{
    let address = Addr12::of_low_bits(spot.address.number() + count);
    push_at(ways, spot, address, how);
}

/// Appends the spot to which an operand leads.
fn push_named(ways: &mut Ways, spot: &Spot, address: &Option<Addr12>, how: How)
    requires { array_vec_len ways.old + 1 ≤ 4 }
    ensures items { ways.new.items ≡ ways.old.items ++ named spot.now address.now how }
    ensures len { array_vec_len ways.new ≤ array_vec_len ways.old + 1 }
{
    if let Some(address) = address {
        push_at(ways, spot, *address, how);
    }
}

/// Appends the spot to which an address leads.
fn push_at(ways: &mut Ways, spot: &Spot, address: Addr12, how: How)
    requires { array_vec_len ways.old + 1 ≤ 4 }
    ensures items { ways.new.items ≡ ways.old.items ++ at_address spot.now address how }
    ensures len { array_vec_len ways.new ≤ array_vec_len ways.old + 1 }
{
    let number = address.number();
    if number < FIRST_FIXED {
        return;
    }
    if number >= FIRST_UNBANKED {
        let bank = Bank::try_new(number / FIRST_FIXED).unwrap();
        ways.push(Spot { bank, address, how });
    } else if spot.address.number() < FIRST_UNBANKED {
        let bank = spot.bank;
        ways.push(Spot { bank, address, how });
    }
}

/// Whether an operand is a register.
fn is_register(register: Eras, address: &Option<Addr12>) -> bool
    ensures { result ≡ is_register register address.now }
{
    match address {
        Some(address) => register.number() == address.number(),
        None => false,
    }
}

/// What follows an operand.
fn second(address: &Option<Addr12>) -> Option<Addr12>
    ensures { result ≡ second address.now }
{
    match address {
        Some(address) => Some(Addr12::of_low_bits(address.number() + 1)),
        None => None,
    }
}
