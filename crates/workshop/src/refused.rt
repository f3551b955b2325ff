//! Where an image is refused.

ghost use Rattle.std.specs.Prelude.{◌≡◌, ◌<◌, ◌/◌, ◌%◌, true, IfErr};
ghost use Rattle.words.specs.Devices.{Writes, failures_after};
ghost use Rattle.rope.specs.Image.{bank_of_entry};
ghost use Rattle.rope.specs.Places.{bank_words, fixed_places};
ghost use Rattle.workshop.specs.Refused.{position_text, refused_position, where_text};

use crate::fault::WorkshopFault;
use arrayvec::ArrayVec;
use audit::{bank_of, offset_of};
use rope::RopeFault;
use space::{BANK_WORDS, FIXED_BANKS, Linear};
use trace::place_text;
use words::{Write, push_all, push_decimal, write_all};

/// How many places an image has.
const PLACES: u32 = BANK_WORDS as u32 * FIXED_BANKS as u32;

/// The most bytes of a line: a number of at most 20 digits, a place of 7, and what stands between.
const LINE: usize = 48;

/// Writes where an image is refused, as `agcws: BYTE 2 02,4001`: the number of the first of the two bytes that spell no
/// word, from 0 on, and the place of their word; of any other fault nothing. It takes no memory.
pub fn report_where<W: Write>(fault: &WorkshopFault, errors: &mut W) -> Result<(), WorkshopFault>
    ensures written { W.told ≡ true → Writes (W.written errors.old) (W.written errors.new) (where_text fault.now)
        result }
    ensures failures { W.failures errors.new ≡ failures_after (W.failures errors.old) result }
    ensures fault { IfErr result (λ e. e ≡ WorkshopFault.WriteFailed) }
{
    match refused_position(fault) {
        Some(position) if position < PLACES => {
            Ok(write_all(errors, position_line(position).as_slice())?)
        }
        Some(_) => Ok(()),
        None => Ok(()),
    }
}

/// The position of the word that is refused, where one is.
fn refused_position(fault: &WorkshopFault) -> Option<u32>
    ensures { result ≡ refused_position fault.now }
{
    match fault {
        WorkshopFault::Rope(RopeFault::LowBit(at)) => Some(*at / 2),
        WorkshopFault::Rope(RopeFault::BadParity(at)) => Some(*at / 2),
        _ => None,
    }
}

/// The line of a position.
#[tactic(auto, using(words::proofs::Digits::short_decimal))]
fn position_line(position: u32) -> ArrayVec<u8, LINE>
    requires { position < fixed_places }
    ensures { result.items ≡ position_text position }
{
    let mut line = ArrayVec::new();
    push_all(&mut line, b"agcws: BYTE ");
    push_decimal(&mut line, 2 * u64::from(position));
    push_all(&mut line, b" ");
    push_all(&mut line, place_text(place_at(position)).as_slice());
    push_all(&mut line, b"\n");
    line
}

/// The place of the word at a position of an image.
fn place_at(position: u32) -> Linear
    requires { position < fixed_places }
    ensures { result ≡ Linear.Fixed (bank_of_entry (position / bank_words)) (position % bank_words) }
{
    let words = u32::from(BANK_WORDS);
    let entry = (position / words) as u16;
    let bank = match entry {
        0 | 1 => entry + 2,
        2 | 3 => entry - 2,
        _ => entry,
    };
    Linear::Fixed(bank_of(bank), offset_of((position % words) as u16))
}
