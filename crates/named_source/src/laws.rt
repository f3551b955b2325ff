//! The law of the source with names. It is the contract of a call that does nothing.

ghost use Rattle.std.specs.Prelude.{ℕ};
ghost use Rattle.symbols.specs.Values.{SymbolTable};
ghost use Rattle.named_source.specs.GivenBack.{AreWords, IsBank, GivesBack};
ghost use Rattle.named_source.specs.NamedSources.{named_source};

use rope::Rope;
use space::Bank;
use symbols::Symbols;

/// What is written as a source with names and instructions is given back: whatever the names are, the source assembles,
/// and then at the places of the banks that were written the words stand which stood there, 0 where none did, and no
/// other word stands.
pub fn named_source_gives_back(names: &Symbols, words: &Rope, bank: Option<Bank>)
    ensures { AreWords words.now → IsBank bank → GivesBack words.now bank (named_source names.now words.now bank) }
{
    let _names = names;
    let _words = words;
    let _bank = bank;
}
