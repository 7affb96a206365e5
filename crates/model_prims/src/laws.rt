//! What is said of the primitives.

ghost use Rattle.model_prims.specs.Laws.{IsEquality, GivesKnown, GivesValues, IsDivision, IsShift, IsBitwise, IsAtOnce, FollowsLogic};

/// Equality is what its test tells.
#[tactic(auto, using(crate::proofs::LawLemmas::is_equality))]
pub fn equality_is_equality()
    ensures { IsEquality }
{}

/// A value of which every argument's symbols are known has known symbols.
#[tactic(auto, using(crate::proofs::GivenLemmas::gives_known))]
pub fn values_are_known()
    ensures { GivesKnown }
{}

/// What is given of values is a value: its integers have 128 bits, and it is not too heavy.
#[tactic(auto, using(crate::proofs::ValueLemmas::gives_values))]
pub fn values_are_given()
    ensures { GivesValues }
{}

/// Quotients and remainders belong together.
#[tactic(auto, using(crate::proofs::LawLemmas::is_division))]
pub fn division_divides()
    ensures { IsDivision }
{}

/// Shifts multiply and divide.
#[tactic(auto, using(crate::proofs::LawLemmas::is_shift))]
pub fn shifts_scale()
    ensures { IsShift }
{}

/// The logical primitives work bit by bit.
#[tactic(auto, using(crate::proofs::LawLemmas::is_bitwise))]
pub fn logic_is_bitwise()
    ensures { IsBitwise }
{}

/// What is too large is told without computing it.
#[tactic(auto, using(crate::proofs::AtOnce::is_at_once))]
pub fn large_is_told_at_once()
    ensures { IsAtOnce }
{}

/// What a checked primitive gives is its value in the logic.
#[tactic(auto, using(crate::proofs::FollowLemmas::follows_logic))]
pub fn values_follow_the_logic()
    ensures { FollowsLogic }
{}
