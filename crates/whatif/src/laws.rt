//! Laws of what is told. Each is the contract of a call that does nothing.

ghost use Rattle.whatif.specs.Laws.{TellsAllWords, TellsTheFirstOther};

use cpu::Processor;

/// What is told of a run gives all words that it puts out: so many of those of the other run, and then the others.
#[tactic(auto, using(crate::proofs::Words::tells_all_words))]
pub fn all_words_are_told(processor: &Processor)
    ensures { TellsAllWords processor.now.scenario }
{
    let _processor = processor;
}

/// And the first of the others is not the word that the other run has there.
#[tactic(auto, using(crate::proofs::Words::tells_the_first_other))]
pub fn first_other_is_told(processor: &Processor)
    ensures { TellsTheFirstOther processor.now.scenario }
{
    let _processor = processor;
}
