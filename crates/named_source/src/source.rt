//! The source that fixed memory is written as.

ghost use Rattle.std.specs.Prelude.{◌≡◌, ◌++◌, ◌⊎◌, IfOk, true, Err};
ghost use Rattle.std.specs.Option.{option_map_or};
ghost use Rattle.audit.specs.SourceLines.{source_text};
ghost use Rattle.yayul.specs.Program.{program};
ghost use Rattle.yayul.specs.declared.language.Language.TheVariants.{Standard};
ghost use Rattle.named_source.specs.NamedSources.{gives_words, named_source, with_names, register_lines, labels_of};
ghost use Rattle.named_source.specs.NamedSources.{said_banks, all_names};

use crate::definitions::{labels_of, push_names};
use crate::given::is_given;
use crate::lines::push_banks;
use rope::Rope;
use space::Bank;
use std::alloc::{AllocError, Global};
use symbols::Symbols;
use trace::PlaceNames;
use yayul::{Language, assemble};

/// The lines of the registers, of the cells that keep a register or edit, and of the counters.
const REGISTERS: &[u8] =
    b"A        EQUALS  0\nL        EQUALS  1\nQ        EQUALS  2\nEB       EQUALS  3\n\
        FB       EQUALS  4\nZ        EQUALS  5\nBB       EQUALS  6\nARUPT    EQUALS  10\n\
        LRUPT    EQUALS  11\nQRUPT    EQUALS  12\nZRUPT    EQUALS  15\nBBRUPT   EQUALS  16\n\
        BRUPT    EQUALS  17\nCYR      EQUALS  20\nSR       EQUALS  21\nCYL      EQUALS  22\n\
        EDOP     EQUALS  23\nTIME2    EQUALS  24\nTIME1    EQUALS  25\nTIME3    EQUALS  26\n\
        TIME4    EQUALS  27\nTIME5    EQUALS  30\nTIME6    EQUALS  31\nCDUX     EQUALS  32\n\
        CDUY     EQUALS  33\nCDUZ     EQUALS  34\nOPTY     EQUALS  35\nOPTX     EQUALS  36\n\
        PIPAX    EQUALS  37\nPIPAY    EQUALS  40\nPIPAZ    EQUALS  41\nINLINK   EQUALS  45\n";

#[tactic(auto, unfolding(crate::specs::NamedSources::register_lines))]
fn register_lines() -> &'static [u8]
    ensures { result.now ≡ register_lines }
{
    REGISTERS
}

/// A source with names and instructions that gives the words of a bank, or of all banks. It is assembled before it is
/// answered; where it does not give them back, nothing is, and the source of octal words has to do.
#[tactic(auto, unfolding(crate::specs::NamedSources::named_source))]
pub fn named_source(
    alloc: Global,
    names: &Symbols,
    rope: &Rope,
    bank: &Option<Bank>,
) -> Result<Option<Vec<u8>>, AllocError>
    ensures { IfOk result (λ text. option_map_or (λ t. t.items) text (source_text rope.now bank.now)
        ≡ named_source names.now rope.now bank.now) }
{
    let text = with_names(alloc, names, rope, bank)?;
    let given = gives(alloc, text.as_slice(), rope, bank)?;
    if given { Ok(Some(text)) } else { Ok(None) }
}

/// A source with names and instructions.
#[tactic(auto, unfolding(crate::specs::NamedSources::with_names))]
fn with_names(
    alloc: Global,
    names: &Symbols,
    rope: &Rope,
    bank: &Option<Bank>,
) -> Result<Vec<u8>, AllocError>
    ensures { IfOk result (λ text. text.items ≡ with_names names.now rope.now bank.now) }
{
    let labels = PlaceNames::new(alloc, labels_of(alloc, names)?)?;
    let mut text = Vec::new(alloc);
    text.extend_from_slice(register_lines())?;
    push_names(&mut text, &labels, names, bank)?;
    push_banks(&mut text, &labels, rope, bank)?;
    Ok(text)
}

/// Whether a source gives the words of the banks that are asked for, and no other.
fn gives(alloc: Global, text: &[u8], rope: &Rope, bank: &Option<Bank>) -> Result<bool, AllocError>
    ensures { IfOk result (λ given. given ≡ gives_words rope.now bank.now (program Standard text.now)) }
{
    match assemble(alloc, Language::Standard, text) {
        Ok(program) => Ok(is_given(rope, bank, program.rope())),
        Err(fault) if fault.line == 0 => Err(AllocError),
        Err(_) => Ok(false),
    }
}
