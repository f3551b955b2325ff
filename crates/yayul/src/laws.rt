//! Laws of the source language. Each is the contract of a call that does nothing.

ghost use Rattle.yayul.specs.Laws.{ScalesToNearest, WordsShareNoPlace, NamesStandOnce, EarlyIsSure, FindingsAgree};
ghost use Rattle.yayul.specs.Laws.{FindingsAreSure, FindingsStandOnce, UndefinedIsSure, ValueIsSure};

use crate::language::Language;

/// The word of a fraction of 1 to 9 decimals is the nearest multiple of 2^-14: less than half of one away, so that none
/// is as near.
#[tactic(auto, using(crate::proofs::Nearest::scales_to_nearest))]
pub fn fraction_is_nearest(decimals: u32, digits: u8)
    ensures { ScalesToNearest decimals digits }
{
    let _decimals = decimals;
    let _digits = digits;
}

/// No two words share a place: of a source without a layout fault, no line asks for a place of another's.
#[tactic(auto, using(crate::proofs::Apart::words_share_no_place))]
pub fn words_share_no_place(language: Language, source: &[u8])
    ensures { WordsShareNoPlace language source.now }
{
    let _language = language;
    let _source = source;
}

/// Names are defined once: in a source that assembles no two symbols have one name.
#[tactic(auto, using(crate::proofs::NameOnce::names_stand_once))]
pub fn names_stand_once(language: Language, source: &[u8])
    ensures { NamesStandOnce language source.now }
{
    let _language = language;
    let _source = source;
}

/// What is told of a source agrees with what it assembles to: of one that assembles nothing is told, and of one that is
/// refused its fault is.
#[tactic(auto, using(crate::proofs::LeastTold::findings_agree))]
pub fn findings_agree(language: Language, source: &[u8])
    ensures { FindingsAgree language source.now }
{
    let _language = language;
    let _source = source;
}

/// Each fault is told once: no two findings of a source have one line and one number.
#[tactic(auto, using(crate::proofs::ToldOnce::findings_stand_once))]
pub fn findings_stand_once(language: Language, source: &[u8])
    ensures { FindingsStandOnce language source.now }
{
    let _language = language;
    let _source = source;
}

/// What is told is sure: no fault that rests on where its line stands is told of a line of which that is not known,
/// since a line before it is refused, and none names such a line.
pub fn findings_are_sure(language: Language, source: &[u8])
    ensures { FindingsAreSure language source.now }
{
    let _language = language;
    let _source = source;
}

/// That no line defines a symbol is told only where this is so: no line has it as its label, a refused one neither.
#[tactic(auto, using(crate::proofs::NoLabel::undefined_is_sure))]
pub fn undefined_is_sure(language: Language, source: &[u8])
    ensures { UndefinedIsSure language source.now }
{
    let _language = language;
    let _source = source;
}

/// That the value of a symbol is needed too early is told only where this is so: no line above gives it one, and none
/// that is refused has it as its label.
#[tactic(auto, using(crate::proofs::Early::early_is_sure))]
pub fn early_is_sure(language: Language, source: &[u8])
    ensures { EarlyIsSure language source.now }
{
    let _language = language;
    let _source = source;
}

/// That the value of a symbol is of the wrong kind or out of range is told only where it is sure: a line without a
/// layout fault gives it, and what that line rests on is known.
#[tactic(auto, using(crate::proofs::ValueSure::value_is_sure))]
pub fn value_is_sure(language: Language, source: &[u8])
    ensures { ValueIsSure language source.now }
{
    let _language = language;
    let _source = source;
}
