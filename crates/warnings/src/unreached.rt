//! Words behind a jump, to which nothing leads.

ghost use Rattle.std.specs.Prelude.{◌≡◌, not, codes, false};
ghost use Rattle.std.specs.Option.{option_map_or};
ghost use Rattle.agc_text.specs.Tables.{same_name, value_in};
ghost use Rattle.yayul.specs.Readings.{parts_in};
ghost use Rattle.symbols.specs.Registers.{registers};
ghost use Rattle.warnings.specs.Warnings.{is_unnamed, leads_unnamed, no_leads, leads_after};
ghost use Rattle.warnings.specs.Warnings.{jumps_unnamed, names_beyond, goes_by_register};
ghost use Rattle.warnings.specs.Warnings.{skipping, skips_after, behind_after, may_enter, is_work, is_unreached};

use crate::fields::{is_signed, text_of};
use crate::flow::{Before, gives_word, is_instruction, is_vector_place};
use crate::handlers::stores_way;
use crate::roles::Class;
use crate::warning::indexed_after;
use agc_text::octal_value;
use symbols::register_place;
use yayul::Reading;

/// What the lines say of where jumps lead.
#[derive(Clone, Copy, Drop)]
pub(crate) struct Leads {
    /// Whether INDEX stands last.
    pub(crate) indexed: bool,
    /// Whether some line may lead to a word without a label.
    pub(crate) unnamed: bool,
}

impl Leads {
    /// What is known before the first line.
    pub(crate) fn none() -> Leads
        ensures { result ≡ no_leads }
    {
        Leads {
            indexed: false,
            unnamed: false,
        }
    }

    /// What is known after a line.
    pub(crate) fn next(self, parts: &Reading<'_>) -> Leads
        ensures { result ≡ leads_after self (parts_in parts.now) }
    {
        Leads {
            indexed: indexed_after(self.indexed, parts),
            unnamed: self.unnamed || leads_unnamed(self.indexed, parts),
        }
    }
}

// Whether a line may lead to a word without a label.
fn leads_unnamed(indexed: bool, parts: &Reading<'_>) -> bool
    ensures { result ≡ leads_unnamed indexed (parts_in parts.now) }
{
    jumps_unnamed(indexed, parts) || names_beyond(parts) || goes_by_register(parts)
}

// A jump to no label, with an offset or after INDEX.
fn jumps_unnamed(indexed: bool, parts: &Reading<'_>) -> bool
    ensures { result ≡ jumps_unnamed indexed (parts_in parts.now) }
{
    Class::LeadsOnTo.has(parts.role)
        && (indexed || parts.offset.is_some() || is_unnamed(text_of(parts.operand)))
}

// An address or a name with an offset.
fn names_beyond(parts: &Reading<'_>) -> bool
    ensures { result ≡ names_beyond (parts_in parts.now) }
{
    (Class::Constant.has(parts.role) || Class::Equals.has(parts.role)) && parts.offset.is_some()
}

// What goes on where a register says.
fn goes_by_register(parts: &Reading<'_>) -> bool
    ensures { result ≡ goes_by_register (parts_in parts.now) }
{
    Class::SetsBank.has(parts.role) || Class::ComputesWay.has(parts.role) || stores_way(parts)
}

// A number, a place beside the line, or a register but Q.
fn is_unnamed(text: &[u8]) -> bool
    ensures { result ≡ is_unnamed text.now }
{
    octal_value(text).is_some() || is_signed(text) || is_other_register(text)
}

// A register's name, but that of Q.
fn is_other_register(text: &[u8]) -> bool
    ensures { result ≡ option_map_or (λ place. not (same_name place (codes "2"))) (value_in registers text.now) false }
{
    match register_place(text) {
        Some(place) => place != b"2".as_slice(),
        None => false,
    }
}

// How many words behind it a line may lead to.
fn skipping(parts: &Reading<'_>) -> u8
    ensures { result ≡ skipping (parts_in parts.now) }
{
    if Class::HasFourWays.has(parts.role) {
        4
    } else if Class::Call.has(parts.role)
        || Class::Index.has(parts.role)
        || Class::MaySkip.has(parts.role)
    {
        2
    } else {
        0
    }
}

/// How many more words may be led to by what skips, after a line.
pub(crate) fn skips_after(skips: u8, parts: &Reading<'_>) -> u8
    ensures { result ≡ skips_after skips (parts_in parts.now) }
{
    if !gives_word(parts) {
        return skips;
    }
    let more = skipping(parts);
    let rest = if skips > 0 { skips - 1 } else { 0 };
    if more < rest { rest } else { more }
}

/// Whether TCF, RETURN or RESUME stands last, after a line.
pub(crate) fn behind_after(behind: bool, parts: &Reading<'_>) -> bool
    ensures { result ≡ behind_after behind (parts_in parts.now) }
{
    if gives_word(parts) {
        Class::Jump.has(parts.role) || Class::GoesBack.has(parts.role)
    } else if Class::MovesLocation.has(parts.role) || parts.label.is_some() {
        false
    } else {
        behind
    }
}

// Whether an interrupt may enter at a place that is known, or else in a bank.
fn may_enter(place: Option<u32>, bank: Option<u32>) -> bool
    ensures { result ≡ may_enter place bank }
{
    match (place, bank) {
        (Some(place), _) => is_vector_place(place),
        (None, Some(bank)) => bank == 2,
        (None, None) => true,
    }
}

// An instruction that is no part of a table of jumps, and nothing that fills room.
fn is_work(parts: &Reading<'_>) -> bool
    ensures { result ≡ is_work (parts_in parts.now) }
{
    is_instruction(parts)
        && !(Class::Jump.has(parts.role)
            || Class::Call.has(parts.role)
            || Class::Idle.has(parts.role))
}

/// Whether a word stands behind a jump, to which nothing leads.
pub(crate) fn is_unreached(unnamed: bool, before: Before, parts: &Reading<'_>) -> bool
    ensures { result ≡ is_unreached unnamed before (parts_in parts.now) }
{
    !unnamed
        && before.behind
        && before.skips == 0
        && is_work(parts)
        && parts.label.is_none()
        && !may_enter(before.place, before.bank)
}
