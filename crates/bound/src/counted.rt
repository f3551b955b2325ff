//! Loops that are counted by CCS.

ghost use Rattle.std.specs.Prelude.{◌≡◌, ◌&&◌, not};
ghost use Rattle.bound.specs.Counting.{all_fit, constant_at, counts_down, does, enters, enters_at, fits, is_quiet};
ghost use Rattle.bound.specs.Counting.{is_counted, keeps_to, loads, may_write, may_write_by, meets, names, shaped};
ghost use Rattle.bound.specs.Counting.{stands_at_count, stands_at_entry, stands_at_head, stands_at_last, stands_in};
ghost use Rattle.bound.specs.Counting.{skips, switches, touches, word_of};

use crate::charge::Limit;
use crate::checking::Row;
use crate::kind::{Kind, kind_at};
use crate::site::Site;
use crate::turn::{Turn, second, target, turn_at};
use cpu::{instruction_name, named_address};
use rope::Rope;
use space::{Addr12, Bank, Offset};
use words::Word;

/// The first address of a cell that neither the machine nor a counter's input writes by itself.
const FIRST_QUIET: u16 = 0o61;

/// The first address of erasable memory that EB switches, and of fixed memory.
const FIRST_SWITCHED: u16 = 0o1400;

const FIRST_FIXED: u16 = 0o2000;

/// The words of a bank of erasable memory.
const ERASABLE_BANK: u16 = 0o400;

/// The registers EB and BB.
const EB: u16 = 3;

const BB: u16 = 6;

/// The first place that is no register.
const FIRST_PLACE: u16 = 0o10;

/// The first number below 0.
const FIRST_NEGATIVE: u16 = 0o40000;

/// A loop that is counted by CCS: its head is TS of a cell, behind CA of a constant; its last word TCF of the head,
/// behind CCS of the cell.
#[derive(Clone, Copy, PartialEq, Eq, Debug)]
pub struct Counted {
    /// Its bank.
    pub bank: Bank,
    /// The address of its head.
    pub head: Addr12,
    /// The address of its last word.
    pub last: Addr12,
    /// The address of the cell.
    pub cell: Addr12,
    /// The constant.
    pub from: u16,
}

impl Counted {
    /// Whether a word is its head.
    pub(crate) fn is_head(&self, site: &Site) -> bool
        ensures { result ≡ stands_at_head self.now site.now }
    {
        site.bank.number() == self.bank.number() && site.address.number() == self.head.number()
    }

    /// Whether a word stands before its head.
    pub(crate) fn is_entry(&self, site: &Site) -> bool
        ensures { result ≡ stands_at_entry self.now site.now }
    {
        site.bank.number() == self.bank.number() && site.address.number() + 1 == self.head.number()
    }

    /// Whether a word is its last.
    fn is_last(&self, site: &Site) -> bool
        ensures { result ≡ stands_at_last self.now site.now }
    {
        site.bank.number() == self.bank.number() && site.address.number() == self.last.number()
    }

    /// Whether a word stands before its last.
    fn is_count(&self, site: &Site) -> bool
        ensures { result ≡ stands_at_count self.now site.now }
    {
        site.bank.number() == self.bank.number() && site.address.number() + 1 == self.last.number()
    }

    /// Whether a word is one of it.
    fn has(&self, site: &Site) -> bool
        ensures { result ≡ stands_in self.now site.now }
    {
        site.bank.number() == self.bank.number()
            && self.head.number() <= site.address.number()
            && site.address.number() <= self.last.number()
    }

    /// How many words its last stands behind its head.
    pub(crate) fn span(&self) -> u16 {
        self.last.number().saturating_sub(self.head.number())
    }

    /// Whether the place of a limit is one of its words'.
    pub(crate) fn has_place(&self, limit: &Limit) -> bool {
        let head = Offset::of_low_bits(self.head.number()).number();
        let last = Offset::of_low_bits(self.last.number()).number();
        limit.bank.number() == self.bank.number()
            && head <= limit.offset.number()
            && limit.offset.number() <= last
    }

    /// Whether its addresses and its constant are those of a loop that counts down.
    fn counts_down(&self) -> bool
        ensures { result ≡ counts_down self.now }
    {
        let cell = self.cell.number();
        self.head.number() + 2 <= self.last.number()
            && self.from < FIRST_NEGATIVE
            && FIRST_QUIET <= cell
            && cell < FIRST_FIXED
            && (cell < FIRST_SWITCHED || FIRST_QUIET <= cell % ERASABLE_BANK)
    }

    /// Whether it counts down, and a routine does not begin in it.
    fn is_apart(&self, routine: &Site) -> bool
        ensures { result ≡ (counts_down self.now && not (stands_in self.now routine.now)) }
    {
        self.counts_down() && !self.has(routine)
    }

    /// Whether a way on from a word to another enters it at its head alone, unless TS skips there.
    fn enters(&self, from: &Site, to: &Site) -> bool
        ensures { result ≡ enters self.now from.now to.now }
    {
        self.skips(from, to) || self.enters_at(from, to)
    }

    /// Whether TS of its head skips from a word to another.
    fn skips(&self, from: &Site, to: &Site) -> bool
        ensures { result ≡ skips self.now from.now to.now }
    {
        self.is_head(from) && to.address.number() != from.address.number() + 1
    }

    /// Whether a way on enters it at its head alone, from the word before it or its last.
    fn enters_at(&self, from: &Site, to: &Site) -> bool
        ensures { result ≡ enters_at self.now from.now to.now }
    {
        if self.is_head(to) {
            self.is_entry(from) || self.is_last(from)
        } else if self.is_last(to) {
            self.is_count(from)
        } else {
            !self.has(to) || (self.has(from) && !self.is_last(from))
        }
    }

    /// Whether all ways on from a word do.
    fn keeps_to(&self, from: &Site, turn: &Turn) -> bool
        ensures { result ≡ keeps_to self.now from.now turn.now }
    {
        match turn {
            Turn::Back(_) => true,
            Turn::Through(_, leg) => {
                !self.has(from) && !self.is_entry(from) && self.enters(from, &leg.to)
            }
            Turn::One(leg) => self.enters(from, &leg.to),
            Turn::Two(one, other) => self.enters(from, &one.to) && self.enters(from, &other.to),
            Turn::Four(a, b, c, d) => {
                (self.enters(from, &a.to) && self.enters(from, &b.to))
                    && (self.enters(from, &c.to) && self.enters(from, &d.to))
            }
            Turn::Stop(_) => true,
        }
    }
}

/// Whether a loop is a counted one of a routine, whose words are those of a table.
pub(crate) fn is_counted(
    rope: &Rope,
    kept: &[Addr12],
    rows: &[Row],
    routine: &Site,
    counted: &Counted,
) -> bool
    ensures { result ≡ is_counted rope.now kept.now rows.now routine.now counted.now }
{
    counted.is_apart(routine) && all_fit(rope, kept, counted, rows)
}

/// Whether all words of a routine are as a counted loop has them.
#[tactic(auto, unfolding(crate::specs::Counting::all_fit))]
fn all_fit(rope: &Rope, kept: &[Addr12], counted: &Counted, rows: &[Row]) -> bool
    ensures { result ≡ all_fit rope.now kept.now counted.now rows.now }
{
    rows.iter().all(|row| fits(rope, kept, counted, &row.site))
}

/// Whether a word of a routine is as a counted loop has it.
fn fits(rope: &Rope, kept: &[Addr12], counted: &Counted, site: &Site) -> bool
    ensures { result ≡ fits rope.now kept.now counted.now site.now }
{
    shaped(rope, counted, site)
        && is_quiet(rope, counted, site)
        && counted.keeps_to(site, &turn_at(rope, kept, site))
}

/// Whether it is the instruction that stands at its place in the loop.
fn shaped(rope: &Rope, counted: &Counted, site: &Site) -> bool
    ensures { result ≡ shaped rope.now counted.now site.now }
{
    (!counted.is_entry(site) || loads(rope, site, counted.from))
        && (!counted.is_head(site) || does(rope, site, b"TS", counted.cell))
        && (!counted.is_count(site) || does(rope, site, b"CCS", counted.cell))
        && (!counted.is_last(site) || does(rope, site, b"TCF", counted.head))
}

/// Whether it leaves the cell as it is, unless it stands outside of the loop or is its head.
fn is_quiet(rope: &Rope, counted: &Counted, site: &Site) -> bool
    ensures { result ≡ is_quiet rope.now counted.now site.now }
{
    !counted.has(site) || counted.is_head(site) || !may_write(rope, site, counted.cell)
}

/// The word at a site.
fn word_of(rope: &Rope, site: &Site) -> Word
    ensures { result ≡ word_of rope.now site.now }
{
    rope.word(site.bank, Offset::of_low_bits(site.address.number()))
}

/// Whether an instruction of a name stands at a site, where nothing waits, and names an address.
fn does(rope: &Rope, site: &Site, name: &[u8], address: Addr12) -> bool
    ensures { result ≡ does rope.now site.now name.now address }
{
    let word = word_of(rope, site);
    site.mode.is_plain()
        && instruction_name(word, site.mode.extra) == name
        && names(&named_address(word, site.mode.extra), address)
}

/// The address that an instruction of a name names at a site, where nothing waits.
pub(crate) fn names_of(rope: &Rope, site: &Site, name: &[u8]) -> Option<Addr12> {
    let word = word_of(rope, site);
    if site.mode.is_plain() && instruction_name(word, site.mode.extra) == name {
        named_address(word, site.mode.extra)
    } else {
        None
    }
}

/// Whether the address that an instruction names is this one.
fn names(named: &Option<Addr12>, address: Addr12) -> bool
    ensures { result ≡ names named.now address }
{
    match named {
        Some(named) => named.number() == address.number(),
        None => false,
    }
}

/// Whether CA of a constant of this value stands at a site, where nothing waits.
fn loads(rope: &Rope, site: &Site, value: u16) -> bool
    ensures { result ≡ loads rope.now site.now value }
{
    match constant_at(rope, site) {
        Some(constant) => constant == value,
        None => false,
    }
}

/// The constant that CA loads at a site, where nothing waits.
pub(crate) fn constant_at(rope: &Rope, site: &Site) -> Option<u16>
    ensures { result ≡ constant_at rope.now site.now }
{
    let word = word_of(rope, site);
    if site.mode.is_plain() && instruction_name(word, site.mode.extra) == b"CA".as_slice() {
        let place = target(site, &named_address(word, site.mode.extra))?;
        Some(word_of(rope, &place).to_u16())
    } else {
        None
    }
}

/// Whether the instruction at a site may write a cell.
fn may_write(rope: &Rope, site: &Site, cell: Addr12) -> bool
    ensures { result ≡ may_write rope.now site.now cell }
{
    let word = word_of(rope, site);
    let address = named_address(word, site.mode.extra);
    may_write_by(site, kind_at(word, site.mode.extra), &address, cell)
}

/// The same by its kind and the address that it names.
fn may_write_by(site: &Site, kind: Kind, address: &Option<Addr12>, cell: Addr12) -> bool
    ensures { result ≡ may_write_by site.now kind address.now cell }
{
    match kind {
        Kind::Stores | Kind::Changes | Kind::Exchanges => touches(site, address, cell),
        Kind::ChangesTwo => touches(site, address, cell) || touches(site, &second(address), cell),
        _ => false,
    }
}

/// Whether a write at an address may change a cell, or which cell its address is: INDEX may add anything.
fn touches(site: &Site, address: &Option<Addr12>, cell: Addr12) -> bool
    ensures { result ≡ touches site.now address.now cell }
{
    match address {
        Some(address) => site.mode.indexed || meets(address.number(), cell.number()),
        None => false,
    }
}

/// The same of its number.
fn meets(address: u16, cell: u16) -> bool
    ensures { result ≡ meets address cell }
{
    let is_switched = address >= FIRST_SWITCHED || cell >= FIRST_SWITCHED;
    address == cell
        || (is_switched && address % ERASABLE_BANK == cell % ERASABLE_BANK)
        || (cell >= FIRST_SWITCHED && switches(address))
}

/// Whether a write at an address may write EB.
fn switches(address: u16) -> bool
    ensures { result ≡ switches address }
{
    let low = address % ERASABLE_BANK;
    (address < FIRST_PLACE || address >= FIRST_SWITCHED) && (low == EB || low == BB)
}
