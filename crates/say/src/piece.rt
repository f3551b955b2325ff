//! What stands in a line for a character of a sentence.

ghost use Rattle.std.specs.Prelude.{◌≡◌, ◌+◌, ◌≤◌, ◌++◌, ◌∷◌, [], true};
ghost use Rattle.arrayvec.specs.ArrayVec.{array_vec_len};
ghost use Rattle.words.specs.Devices.{Writes, failures_after};
ghost use Rattle.words.specs.Numerals.{octal_text};
ghost use Rattle.say.specs.Said.{filled, piece, shown, signed};

use crate::called::Called;
use crate::values::Values;
use arrayvec::ArrayVec;
use space::Chan;
use trace::Text;
use words::{Overflow, Wide, Write, WriteFailed, push_all, push_decimal, push_octal, write_all};

/// The sign of a word of 16 bits.
const SIGN: u16 = 0o100000;

/// What a sentence tells of, before the step and after it.
#[derive(Drop)]
pub(crate) struct Facts {
    pub(crate) called: Called,
    pub(crate) channel: Chan,
    pub(crate) before: Values,
    pub(crate) after: Values,
}

/// Writes a sentence with what it tells of.
///
/// After a failure a beginning of it was written.
pub(crate) fn write_filled<W: Write>(
    facts: &Facts,
    sentence: &[u8],
    out: &mut W,
) -> Result<(), WriteFailed>
    ensures written { W.told ≡ true →
        Writes (W.written out.old) (W.written out.new)
        (filled facts.now.called facts.now.channel facts.now.before facts.now.after sentence.now) result }
    ensures failures { W.failures out.new ≡ failures_after (W.failures out.old) result }
{
    for byte in sentence {
        write_piece(facts, *byte, out)?;
    }
    Ok(())
}

/// Writes what stands for a character.
///
/// After a failure a beginning of it was written.
#[tactic(auto, unfolding(crate::specs::Said::piece))]
fn write_piece<W: Write>(facts: &Facts, byte: u8, out: &mut W) -> Result<(), WriteFailed>
    ensures written { W.told ≡ true →
        Writes (W.written out.old) (W.written out.new)
        (piece facts.now.called facts.now.channel facts.now.before facts.now.after byte) result }
    ensures failures { W.failures out.new ≡ failures_after (W.failures out.old) result }
{
    match byte {
        b'<' => write_all(out, shown(facts.before.a).as_slice()),
        b'>' => write_all(out, shown(facts.after.a).as_slice()),
        b'(' => write_all(out, shown(facts.before.l).as_slice()),
        b')' => write_all(out, shown(facts.after.l).as_slice()),
        b'[' => write_all(out, shown(facts.before.first).as_slice()),
        b']' => write_all(out, shown(facts.after.first).as_slice()),
        b'{' => write_all(out, shown(facts.before.second).as_slice()),
        b'}' => write_all(out, shown(facts.after.second).as_slice()),
        b'@' => write_all(out, facts.called.operand.as_slice()),
        b'&' => write_all(out, facts.called.other.as_slice()),
        b'~' => write_all(out, facts.called.interrupt.as_slice()),
        b'^' => write_all(out, shown(facts.before.a.correct().extend()).as_slice()),
        b'|' => write_all(out, shown(facts.before.first.correct().extend()).as_slice()),
        b'#' => write_all(out, octal(3, facts.channel.number()).as_slice()),
        b'!' => write_all(out, shown(facts.after.channel).as_slice()),
        b'$' => write_all(out, octal(4, facts.after.q.to_u16()).as_slice()),
        b'%' => write_all(
            out,
            octal(5, facts.after.first.correct().to_u16()).as_slice(),
        ),
        _ => write_all(out, one(byte).as_slice()),
    }
}

/// A byte.
fn one(byte: u8) -> ArrayVec<u8, 1>
    ensures { result.items ≡ byte ∷ [] }
{
    let mut text = ArrayVec::new();
    text.push(byte);
    text
}

/// Octal digits.
fn octal(digits: usize, number: u16) -> Text
    requires { digits ≤ 6 }
    ensures items { result.items ≡ octal_text digits number }
    ensures len { array_vec_len result ≡ digits }
{
    let mut text = ArrayVec::new();
    push_octal(&mut text, digits, number);
    text
}

/// A word in octal and as a number; with an overflow all 16 bits.
#[tactic(auto, unfolding(crate::specs::Said::shown))]
fn shown(wide: Wide) -> Text
    ensures { result.items ≡ shown wide }
{
    if wide.overflow() == Overflow::No {
        let mut text = octal(5, wide.correct().to_u16());
        push_all(&mut text, b" (");
        push_signed(&mut text, wide);
        push_all(&mut text, b")");
        text
    } else {
        let mut text = octal(6, wide.to_u16());
        push_all(&mut text, b" (");
        push_signed(&mut text, wide);
        push_all(&mut text, b", overflow)");
        text
    }
}

/// Appends a number of 16 bits as people write it.
#[tactic(auto, using(words::proofs::Digits::short_decimal))]
fn push_signed(text: &mut Text, wide: Wide)
    requires { array_vec_len text.old ≤ 8 }
    ensures items { text.new.items ≡ text.old.items ++ signed wide }
    ensures short { array_vec_len text.new ≤ array_vec_len text.old + 21 }
{
    let bits = wide.to_u16();
    if bits < SIGN {
        push_decimal(text, u64::from(bits));
    } else {
        push_all(text, b"-");
        push_decimal(text, u64::from(u16::MAX - bits));
    }
}
