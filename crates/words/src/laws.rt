//! Laws of the arithmetic. Each is the contract of a call that does nothing: what the formulas of words come to.

ghost use Rattle.std.specs.Prelude.{◌≡◌, true, length};
ghost use Rattle.words.specs.Numbers.{neg, neg_wide, sum, extend, correct};
ghost use Rattle.words.specs.Edits.{cyr, cyl};
ghost use Rattle.words.specs.Counters.{pcdu, mcdu};
ghost use Rattle.words.specs.Products.{quotient_fits};
ghost use Rattle.words.specs.Laws.{IsOpposite, IsOppositeWide, KeepsValue, IsExtension, AddsValues, OverflowsByValue};
ghost use Rattle.words.specs.Laws.{DiminishesMagnitude, TurnsTo, CyclesRight, CyclesLeft, ShiftsRight, TakesUpperBits};
ghost use Rattle.words.specs.Laws.{AddsOne, TakesOne, NearsZero, ShiftsIn, TakesWordIn, MakesProduct, Divides};

use super::wide::Wide;
use super::word::Word;

/// The complement of a word has the opposite value, and is undone by the complement.
pub fn complement_of_word(w: Word)
    ensures value { IsOpposite w }
    ensures twice { neg (neg w) ≡ w }
{}

/// The complement of a wide has the opposite value, and is undone by the complement.
pub fn complement_of_wide(x: Wide)
    ensures value { IsOppositeWide x }
    ensures twice { neg_wide (neg_wide x) ≡ x }
{}

/// A word that is extended keeps its value, and is had back by correction.
pub fn extended_and_corrected(w: Word)
    ensures value { KeepsValue w }
    ensures back { correct (extend w) ≡ w }
{}

/// A wide without overflow is the extension of its word.
pub fn corrected_and_extended(x: Wide)
    ensures { IsExtension x }
{}

/// A sum has the sum of the values, where that has a magnitude below 2^15.
pub fn sum_by_value(x: Wide, y: Wide)
    ensures { AddsValues x y }
{}

/// A sum of two words has no overflow exactly where the sum of their values has a magnitude below 2^14; else it has
/// that of its sign.
pub fn overflow_by_value(a: Word, b: Word)
    ensures { OverflowsByValue a b }
{}

/// A sum is the same in any order, and however it is put together.
pub fn sum_in_any_order(x: Wide, y: Wide, z: Wide)
    ensures commutes { sum x y ≡ sum y x }
    ensures associates { sum (sum x y) z ≡ sum x (sum y z) }
{}

/// The diminished magnitude of a wide is one below the magnitude of its value, but not below 0.
pub fn diminished_magnitude_by_value(x: Wide)
    ensures { DiminishesMagnitude x }
{}

/// Two angles of 2^15 parts to a turn: their modular difference turns the second to the first, on or back by less than
/// half a turn. Of half a turn it is one part short.
pub fn modular_difference_by_value(a: Word, k: Word)
    ensures { TurnsTo a k }
{}

/// The cycles right and left turn the bits round by one, and undo each other.
pub fn cycles(w: Word)
    ensures right { CyclesRight w }
    ensures left { CyclesLeft w }
    ensures right_then_left { cyl (cyr w) ≡ w }
    ensures left_then_right { cyr (cyl w) ≡ w }
{}

/// The shift moves the bits down by one and keeps the sign; the last edit takes the upper seven bits below the sign.
pub fn shifts(w: Word)
    ensures right { ShiftsRight w }
    ensures upper { TakesUpperBits w }
{}

/// The counter steps by the value: plus one, minus one, one nearer to zero, with what is carried out and which zero
/// comes.
pub fn counter_values(w: Word)
    ensures plus { AddsOne w }
    ensures minus { TakesOne w }
    ensures nearer { NearsZero w }
{}

/// A bit that is shifted in is the last of the word, the others move up, and the first goes out.
pub fn bit_is_shifted_in(w: Word, bit: bool)
    ensures { ShiftsIn w bit }
{}

/// Fifteen bits that are shifted in are the word; of a one and fifteen bits that are shifted into an empty word the
/// last alone shifts a one out.
pub fn word_is_shifted_in(w: Word, bits: &[bool])
    ensures { length bits.now ≡ 15 → TakesWordIn w bits.now }
{}

/// Plus one and minus one modulo 2^15 undo each other.
pub fn modular_counters(w: Word)
    ensures plus_then_minus { (mcdu (pcdu w).word).word ≡ w }
    ensures minus_then_plus { (pcdu (mcdu w).word).word ≡ w }
{}

/// The halves of a product make the product of the values.
pub fn halves_make_product(a: Word, k: Word)
    ensures { MakesProduct a k }
{}

/// Quotient times divisor plus remainder is the dividend, where the quotient fits.
pub fn quotient_makes_dividend(a: Word, l: Word, k: Word)
    ensures { quotient_fits a l k ≡ true → Divides a l k }
{}
