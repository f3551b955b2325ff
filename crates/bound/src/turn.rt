//! Where an instruction leads, and after how many cycles.

ghost use Rattle.std.specs.Prelude.{◌≡◌, ◌≤◌, ◌<◌, ◌%◌, Some};
ghost use Rattle.bound.specs.Turns.{at_address, back, call, changes, changes_two, exchanges, four_by, further};
ghost use Rattle.bound.specs.Turns.{further_so, is_among, needs_bank, next, next_two, one, puts_out, second, steers};
ghost use Rattle.bound.specs.Turns.{steers_by, steers_out, still_held, stores, swapped, target, then_held, through};
ghost use Rattle.bound.specs.Turns.{turn, turn_by, turn_of, two, unless, waits};

use crate::kind::{Kind, cycles_at, kind_at};
use crate::site::{Mode, Site};
use cpu::named_address;
use rope::Rope;
use space::{Addr12, Bank, Eras, Offset};
use words::Word;

/// A way on: to a word, after so many cycles.
#[derive(Clone, Copy)]
pub struct Leg {
    /// The word.
    pub to: Site,
    /// The cycles.
    pub cycles: u8,
}

/// Why it is not told how many cycles a routine takes at most.
#[derive(Clone, Copy, PartialEq, Eq, Debug)]
pub enum Why {
    /// A jump is indexed.
    Indexed,
    /// The way leads to erasable memory, or to a bank that no word tells.
    Leaves,
    /// What an instruction writes decides which word is next: Z, or FB or the superbank where it runs in a bank that
    /// they select.
    Steers,
    /// The instruction is RESUME.
    Resumes,
    /// A routine returns by Q, and has changed it, or has called another since Q held the way back.
    Changed,
    /// A routine calls itself, or calls one that does.
    Recursive,
    /// A loop has no bound.
    Unbounded,
    /// A routine has more words than are looked at.
    ManyWords,
    /// It uses more routines than are looked at.
    ManyRoutines,
    /// No numbers of cycles are found that hold: they go beyond those that are counted.
    ManyCycles,
}

/// Where an instruction leads.
#[derive(Clone, Copy)]
pub enum Turn {
    /// Back to where the routine was called, after so many cycles.
    Back(u8),
    /// Through a routine that it calls, and on.
    Through(Site, Leg),
    /// One way on.
    One(Leg),
    /// Two ways on.
    Two(Leg, Leg),
    /// Four ways on.
    Four(Leg, Leg, Leg, Leg),
    /// That is not told.
    Stop(Why),
}

/// The cycles of a branch that jumps.
const JUMP_CYCLES: u8 = 1;

/// The first address of fixed memory.
const FIRST_FIXED: u16 = 0o2000;

/// The first address that leads to its place whatever the bank registers hold.
const FIRST_UNBANKED: u16 = 0o4000;

/// The channel that selects the superbank.
const SUPERBANK: u16 = 7;

/// The channel that is Q.
const Q_CHANNEL: u16 = 2;

/// Where the word at a site leads; some addresses are of cells that keep Q.
#[tactic(auto, unfolding(crate::specs::Turns::turn))]
pub fn turn_at(rope: &Rope, kept: &[Addr12], site: &Site) -> Turn
    ensures { result ≡ turn rope.now kept.now site.now }
{
    let word = rope.word(site.bank, Offset::of_low_bits(site.address.number()));
    turn_of(kept, site, word)
}

/// The same of the word itself.
fn turn_of(kept: &[Addr12], site: &Site, word: Word) -> Turn
    ensures { result ≡ turn_of kept.now site.now word }
{
    let extra = site.mode.extra;
    let channel = word.to_u16() % 0o1000;
    turn_by(
        kept,
        site,
        kind_at(word, extra),
        &named_address(word, extra),
        cycles_at(word, extra),
        channel,
    )
}

/// The same by the kind of the instruction, the address that it names, its cycles and its channel.
fn turn_by(
    kept: &[Addr12],
    site: &Site,
    kind: Kind,
    address: &Option<Addr12>,
    cycles: u8,
    channel: u16,
) -> Turn
    requires { cycles ≤ 6 }
    ensures { result ≡ turn_by kept.now site.now kind address.now cycles channel }
{
    let held = site.mode.held;
    match kind {
        Kind::Calls if site.mode.indexed => Turn::Stop(Why::Indexed),
        Kind::Jumps if site.mode.indexed => Turn::Stop(Why::Indexed),
        Kind::Branches if site.mode.indexed => Turn::Stop(Why::Indexed),
        Kind::Calls => call(kept, site, address, cycles),
        Kind::Jumps => one(target(site, address), cycles),
        Kind::Branches => two(
            target(site, address),
            JUMP_CYCLES,
            further(site, 1, held),
            cycles,
        ),
        Kind::Skips => four_by(
            next_two(site, 1, held, cycles),
            next_two(site, 3, held, cycles),
        ),
        Kind::Stores => stores(site, address, cycles),
        Kind::Indexes => waits(site, site.mode.extra, true, cycles),
        Kind::Extends => waits(site, true, false, cycles),
        Kind::Resumes => Turn::Stop(Why::Resumes),
        Kind::Changes => changes(site, address, cycles),
        Kind::Exchanges => exchanges(kept, site, address, cycles),
        Kind::ChangesTwo => changes_two(site, address, cycles),
        Kind::PutsOut => puts_out(site, channel, cycles),
        Kind::Passes => next(site, held, cycles),
    }
}

/// The next word.
fn next(site: &Site, held: bool, cycles: u8) -> Turn
    ensures { result ≡ next site.now held cycles }
{
    one(further(site, 1, held), cycles)
}

/// The next word, while extracode is in force or INDEX has left a sum.
fn waits(site: &Site, extra: bool, indexed: bool, cycles: u8) -> Turn
    ensures { result ≡ waits site.now extra indexed cycles }
{
    let mode = Mode {
        extra,
        indexed,
        held: site.mode.held,
        banked: site.mode.banked,
    };
    one(further_so(site, 1, mode), cycles)
}

/// Two words that follow one another.
fn next_two(site: &Site, first: u16, held: bool, cycles: u8) -> Turn
    requires { first ≤ 3 }
    ensures { result ≡ next_two site.now first held cycles }
{
    let one = further(site, first, held);
    let other = further(site, first + 1, held);
    two(one, cycles, other, cycles)
}

/// TS.
fn stores(site: &Site, address: &Option<Addr12>, cycles: u8) -> Turn
    ensures { result ≡ stores site.now address.now cycles }
{
    let held = still_held(site, address);
    unless(steers_by(site, address), next_two(site, 1, held, cycles))
}

/// One that writes the place that it names.
fn changes(site: &Site, address: &Option<Addr12>, cycles: u8) -> Turn
    ensures { result ≡ changes site.now address.now cycles }
{
    let held = still_held(site, address);
    unless(steers_by(site, address), next(site, held, cycles))
}

/// QXCH.
fn exchanges(kept: &[Addr12], site: &Site, address: &Option<Addr12>, cycles: u8) -> Turn
    ensures { result ≡ exchanges kept.now site.now address.now cycles }
{
    let held = swapped(kept, site, address);
    unless(steers_by(site, address), next(site, held, cycles))
}

/// One that writes two places.
fn changes_two(site: &Site, address: &Option<Addr12>, cycles: u8) -> Turn
    ensures { result ≡ changes_two site.now address.now cycles }
{
    let other = second(address);
    let held = still_held(site, address) && still_held(site, &other);
    let steers = steers_by(site, address) || steers_by(site, &other);
    unless(steers, next(site, held, cycles))
}

/// One that writes its channel.
fn puts_out(site: &Site, channel: u16, cycles: u8) -> Turn
    ensures { result ≡ puts_out site.now channel cycles }
{
    let held = site.mode.held && channel != Q_CHANNEL;
    unless(steers_out(site, channel), next(site, held, cycles))
}

/// TC.
fn call(kept: &[Addr12], site: &Site, address: &Option<Addr12>, cycles: u8) -> Turn
    requires { cycles ≤ 6 }
    ensures { result ≡ call kept.now site.now address.now cycles }
{
    let Some(address) = address else {
        return Turn::Stop(Why::Leaves);
    };
    if is_among(*address, kept) {
        back(true, cycles)
    } else if address.number() == Eras::Q.number() {
        back(site.mode.held, cycles)
    } else {
        let routine = at_address(site, *address, Mode::entry(needs_bank(site)));
        through(routine, further(site, 1, false), cycles)
    }
}

/// Back to where the routine was called, where Q or a cell holds the way.
fn back(held: bool, cycles: u8) -> Turn
    requires { cycles ≤ 6 }
    ensures { result ≡ back held cycles }
{
    if held {
        Turn::Back(cycles + cycles)
    } else {
        Turn::Stop(Why::Changed)
    }
}

/// Whether Q still holds the way back after an instruction that writes a place.
fn still_held(site: &Site, address: &Option<Addr12>) -> bool
    ensures { result ≡ still_held site.now address.now }
{
    match address {
        Some(address) => site.mode.held && address.number() != Eras::Q.number(),
        None => site.mode.held,
    }
}

/// The same after QXCH.
fn swapped(kept: &[Addr12], site: &Site, address: &Option<Addr12>) -> bool
    ensures { result ≡ swapped kept.now site.now address.now }
{
    let Some(address) = address else {
        return false;
    };
    let held = if address.number() == Eras::Q.number() {
        site.mode.held
    } else {
        is_among(*address, kept) && !site.mode.held
    };
    !site.mode.indexed && held
}

/// Whether an address is among some.
fn is_among(address: Addr12, kept: &[Addr12]) -> bool
    ensures { result ≡ is_among address kept.now }
{
    kept.iter().any(|other| other.number() == address.number())
}

/// A call, and the word after it.
fn through(to: Option<Site>, after: Option<Site>, cycles: u8) -> Turn
    ensures { result ≡ through to after cycles }
{
    match (to, after) {
        (Some(routine), Some(to)) => Turn::Through(routine, Leg { to, cycles }),
        _ => Turn::Stop(Why::Leaves),
    }
}

/// One way on.
fn one(to: Option<Site>, cycles: u8) -> Turn
    ensures { result ≡ one to cycles }
{
    match to {
        Some(to) => Turn::One(Leg { to, cycles }),
        None => Turn::Stop(Why::Leaves),
    }
}

/// Two ways on.
fn two(to: Option<Site>, cycles: u8, other: Option<Site>, more: u8) -> Turn
    ensures { result ≡ two to cycles other more }
{
    let Some(to) = to else {
        return Turn::Stop(Why::Leaves);
    };
    let Some(other) = other else {
        return Turn::Stop(Why::Leaves);
    };
    Turn::Two(
        Leg { to, cycles },
        Leg {
            to: other,
            cycles: more,
        },
    )
}

/// Four ways on, of twice two.
fn four_by(one: Turn, other: Turn) -> Turn
    ensures { result ≡ four_by one other }
{
    match (one, other) {
        (Turn::Two(a, b), Turn::Two(c, d)) => Turn::Four(a, b, c, d),
        _ => Turn::Stop(Why::Leaves),
    }
}

/// A turn, unless what the instruction writes decides where it leads.
fn unless(steers: bool, turn: Turn) -> Turn
    ensures { result ≡ unless steers turn }
{
    if steers {
        Turn::Stop(Why::Steers)
    } else {
        turn
    }
}

/// The word to which a jump leads.
pub(crate) fn target(site: &Site, address: &Option<Addr12>) -> Option<Site>
    ensures { result ≡ target site.now address.now }
{
    match address {
        Some(address) => at_address(site, *address, then_held(site, site.mode.held)),
        None => None,
    }
}

/// The word so many addresses further, where nothing waits.
fn further(site: &Site, count: u16, held: bool) -> Option<Site>
    requires { count ≤ 4 }
    ensures { result ≡ further site.now count held }
{
    further_so(site, count, then_held(site, held))
}

/// How it is come to.
fn then_held(site: &Site, held: bool) -> Mode
    ensures { result ≡ then_held site.now held }
{
    Mode {
        extra: false,
        indexed: false,
        held,
        banked: site.mode.banked,
    }
}

/// The word so many addresses further.
fn further_so(site: &Site, count: u16, mode: Mode) -> Option<Site>
    requires { count ≤ 4 }
    ensures { result ≡ further_so site.now count mode }
{
    let address = Addr12::of_low_bits(site.address.number() + count);
    at_address(site, address, mode)
}

/// The word to which an address leads.
pub(crate) fn at_address(site: &Site, address: Addr12, mode: Mode) -> Option<Site>
    ensures { result ≡ at_address site.now address mode }
{
    let number = address.number();
    if number < FIRST_FIXED {
        return None;
    }
    let bank = if number >= FIRST_UNBANKED {
        Bank::try_new(number / FIRST_FIXED).unwrap()
    } else if site.address.number() < FIRST_UNBANKED {
        site.bank
    } else {
        return None;
    };
    Some(Site {
        bank,
        address,
        mode,
    })
}

/// Whether an operand decides which word is next, once it is written.
fn steers_by(site: &Site, address: &Option<Addr12>) -> bool
    ensures { result ≡ steers_by site.now address.now }
{
    match address {
        Some(address) => steers(site, address.number()),
        None => false,
    }
}

/// The same of a register.
fn steers(site: &Site, register: u16) -> bool
    ensures { result ≡ steers site.now register }
{
    register == Eras::Z.number()
        || (needs_bank(site) && (register == Eras::FB.number() || register == Eras::BB.number()))
}

/// Whether FB and the superbank select the bank of a word, or one that it goes back to.
fn needs_bank(site: &Site) -> bool
    ensures { result ≡ needs_bank site.now }
{
    site.address.number() < FIRST_UNBANKED || site.mode.banked
}

/// The same of a channel.
fn steers_out(site: &Site, channel: u16) -> bool
    ensures { result ≡ steers_out site.now channel }
{
    needs_bank(site) && channel == SUPERBANK
}

/// The place after an operand.
pub(crate) fn second(address: &Option<Addr12>) -> Option<Addr12>
    ensures { result ≡ second address.now }
{
    match address {
        Some(address) => Some(Addr12::of_low_bits(address.number() + 1)),
        None => None,
    }
}
