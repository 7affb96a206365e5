//! What constants ask of a table of terms.

ghost use Rattle.acl_machine.specs.Constants.{KnownAreWhole};

use acl_code::constants_stay_known;

/// Constants that lie in a heap and whose symbols are known are whole, as `begin` asks.
#[tactic(auto, using(crate::proofs::ConstantLemmas::known_are_whole))]
pub fn known_constants_are_whole()
    ensures { KnownAreWhole }
{
    constants_stay_known();
}
