//! Counts and tests over the numbers below an end.

ghost use Rattle.std.specs.Prelude.{◌≡◌, ◌<◌, ◌≤◌, ℕ, Bool};
ghost use Rattle.audit.specs.BankFacts.{GivesBelow, all_before, count_before};

/// How many numbers below an end have a property.
#[tactic(auto, using(crate::proofs::Folds::count_steps))]
pub fn count_below<F: Fn(u16) -> bool>(end: u16, has: F) -> u16
    requires { (n : ℕ) → n < end → F.pre has n }
    ensures count { (f : ℕ → Bool) → GivesBelow (F.post has) f end → result ≡ count_before f end }
    ensures few { result ≤ end }
{
    let mut count = 0;
    for number in 0..end {
        if has(number) {
            count += 1;
        }
    }
    count
}

/// Whether all have it.
#[tactic(auto, using(crate::proofs::Folds::all_steps))]
pub(crate) fn all_below<F: Fn(u16) -> bool>(end: u16, has: F) -> bool
    requires { (n : ℕ) → n < end → F.pre has n }
    ensures { (f : ℕ → Bool) → GivesBelow (F.post has) f end → result ≡ all_before f end }
{
    for number in 0..end {
        if !has(number) {
            return false;
        }
    }
    true
}
