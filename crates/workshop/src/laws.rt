//! Laws of what stands on one another. Each is the contract of a call that does nothing.

ghost use Rattle.workshop.specs.Laws.{AreShown, AreAgreed, AreWritten};

/// What is assembled is shown as it was written. For each row of the assembler's operators that gives instructions,
/// where extracode is in force or is not as the row asks, and for each number that the row takes, the machine shows the
/// word by the operator's name and that number: other names of an instruction by its full name, operators of a whole
/// word by the instruction that it is. The words of RELINT, INHINT, EXTEND and RESUME are shown by these names.
#[tactic(auto, using(crate::proofs::OperatorTexts::are_shown))]
pub fn assembled_is_shown()
    ensures { AreShown }
{}

/// Assembler and machine agree on extracode. For each row of the assembler's operators that gives instructions, where
/// extracode is in force or is not as the row asks, extracode is in force for the machine after the word as it is for
/// the assembler on the next line that gives words.
#[tactic(auto, using(crate::proofs::Extracodes::are_agreed))]
pub fn extracode_is_agreed()
    ensures { AreAgreed }
{}

/// What is shown is assembled to what it was. For each word but EDRUPT's, under extracode or not, a row of the
/// assembler's operators has the name by which the machine shows the word, and gives this very word, under the same
/// extracode, alone or of the number that is shown.
#[tactic(auto, using(crate::proofs::WordsAsShown::are_written))]
pub fn shown_is_assembled()
    ensures { AreWritten }
{}
