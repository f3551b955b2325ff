//! The law of joined sources. It is the contract of a call that does nothing.

ghost use Rattle.std.specs.Prelude.{ℕ};
ghost use Rattle.agc_text.specs.Lines.{lines};
ghost use Rattle.included.specs.Included.{Files, IsItself, StandAlone};

/// A source of which no line stands for a file or ends in a carriage return is joined to its own text, whatever files
/// there are.
pub fn alone_is_itself(name: &[u8], text: &[u8])
    ensures { (files : Files) (most : ℕ) → StandAlone (lines text.now) → IsItself files most name.now text.now }
{
    let _name = name;
    let _text = text;
}
