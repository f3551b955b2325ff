//! Laws of feeds. Each is the contract of a call that does nothing.

ghost use Rattle.std.specs.Prelude.{ℕ, List};
ghost use Rattle.feed.specs.Given.{LineGives, FeedGives};
ghost use Rattle.feed.specs.Slips.{SlipTells};

/// What a line gives, and each input of a feed, is one that a line can give: a pulse that its counter takes, a word on
/// a channel that takes inputs, an interrupt that can be asked for; at a cycle below 10^15, but for the later ones of a
/// series.
#[tactic(auto, using(crate::proofs::Givens::line_gives, crate::proofs::Givens::feed_gives))]
pub fn inputs_can_be_given()
    ensures line { (line : List ℕ) → LineGives line }
    ensures feed { (text : List ℕ) → FeedGives text }
{}

/// The fields of a line are refused exactly where their slip says why.
#[tactic(auto, using(crate::proofs::SlipLaws::slip_tells))]
pub fn slips_tell()
    ensures { (fields : List (List ℕ)) → SlipTells fields }
{}
