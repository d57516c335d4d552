// What holds of every formula, each as the contract of a function.
ghost use Rattle.powers.specs.Theorems.{Meets, StaysNotAbove, StaysNotBelow};

// A fraction not above a formula is at most every fraction not below it.
#[tactic(auto, using(crate::proofs::Formulas::meet))]
pub fn bounds_meet()
    ensures { Meets }
{}

// A smaller fraction than one not above a formula is not above it.
#[tactic(auto, using(crate::proofs::Formulas::less))]
pub fn smaller_stays_not_above()
    ensures { StaysNotAbove }
{}

// A larger fraction than one not below a formula is not below it.
#[tactic(auto, using(crate::proofs::Formulas::more))]
pub fn larger_stays_not_below()
    ensures { StaysNotBelow }
{}
